// How a dialogue over a link ended.

/// How a dialogue over a link ended.
#[derive(Clone, Copy, Debug, PartialEq, Eq)]
pub enum TalkEnd {
    /// The last answer came.
    Done,
    /// Memory ran out.
    NoMemory,
    /// The peer's bytes are no answer from this place on.
    PeerBytes(u64),
    /// The link failed or ended before the answer was whole.
    PeerFault,
    /// 67,108,864 bytes were read, and the answer wasn't whole.
    InputTooLong,
    /// The peer refused with this status. It is 0 where it refused to bind.
    Refused(u32),
}
