//! Test vectors of what goes over the wire: values, as texts and bytes of SIDs, descriptors, accesses, names and
//! configurations; PDUs of connection-oriented DCE/RPC (C706, chapter 12) and streams of them, cut anywhere; stubs of
//! both interfaces with what they bring in words; and the client, with its dialogues byte for byte and its calls over
//! links in memory. What is expected was written by other software, or is the standards'.
//!
//! It has tests alone, which call the crates of values, of RPC, of the wires and of the client as a layer above does,
//! so these crates themselves are proved without tests.
#![tactic(auto)]

#[cfg(test)]
mod tests;
