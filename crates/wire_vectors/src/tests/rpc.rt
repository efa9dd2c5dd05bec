// PDUs and streams of them, one module for each crate that is called.
mod pdus;
mod streams;
