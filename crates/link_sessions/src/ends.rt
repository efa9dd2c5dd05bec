// How a session ends.

/// How a session ended.
#[derive(Clone, Copy, Debug, PartialEq, Eq)]
pub enum SessionEnd {
    /// A read answered the end.
    End,
    /// A PDU was refused, at this place of the stream, for this cause.
    Closed { place: u64, cause: u8 },
    /// A read failed.
    ReadFault,
    /// A write failed.
    WriteFault,
    /// A call found the history full, which has so many calls, or would have so many bytes of stubs with it.
    Full(u64),
    /// So many bytes were read.
    ByteLimit(u64),
    /// Memory ran out.
    NoMemory,
}

/// A connection that was served: its number, the place of its door among the doors, from 0, and how its session ended.
#[derive(Clone, Copy, Debug, PartialEq, Eq)]
pub struct Ended {
    pub conn: u32,
    pub door: u32,
    pub end: SessionEnd,
}

/// Why acts weren't answered to the end.
#[derive(Clone, Copy, Debug, PartialEq, Eq)]
pub enum Stop {
    WriteFault,
    Full(u64),
    NoMemory,
}
