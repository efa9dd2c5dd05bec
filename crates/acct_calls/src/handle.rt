// The handle of an open object.

/// A context handle, by the number of its UUID: that of its connection times 2^64, and its serial there. The zero
/// handle has the number 0.
#[derive(Clone, Copy, Debug, PartialEq, Eq)]
pub struct Handle {
    pub number: u128,
}

/// The zero handle, of a call that takes none.
pub const ZERO_HANDLE: Handle = Handle { number: 0 };
