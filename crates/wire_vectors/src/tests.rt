// Values, PDUs and their streams, stubs, and the client. Tables are texts, whose bytes stand in hexadecimal digits.
mod client;
mod digits;
mod rpc;
mod stubs;
mod values;
