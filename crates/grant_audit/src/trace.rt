// What is told of a call.

/// Of a call whose handle was let pass: the number of its event in the history, from 1; the connection and the serial
/// of the handle; the number of the event that gave the handle; the access that its opening granted, and the bits of
/// it that the call needed.
#[derive(Clone, Copy, Debug, PartialEq, Eq)]
pub struct Trace {
    pub entry: u64,
    pub conn: u32,
    pub serial: u64,
    pub opened: u64,
    pub grant: u32,
    pub needed: u32,
}
