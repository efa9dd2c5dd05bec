// What the machine keeps of connections and handles.
use crate::Object;

/// A connection, with the serial of the last handle that it was given.
#[derive(Clone, Copy, Debug, PartialEq, Eq)]
pub struct Conn {
    pub number: u32,
    pub listener: u32,
    pub serial: u64,
    pub live: bool,
}

/// A handle: the connection that it belongs to, its serial there, its object and the access that was granted at its
/// opening.
#[derive(Clone, Copy, Debug, PartialEq, Eq)]
pub struct Held {
    pub conn: u32,
    pub serial: u64,
    pub object: Object,
    pub granted: u32,
}
