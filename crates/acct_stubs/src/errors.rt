// Why a stub is no call or reply.
use ndr_core::NdrError;
use thiserror::Error;

/// Why a stub is no call, or no reply, of an operation.
#[derive(Clone, Copy, Debug, PartialEq, Eq, Error)]
pub enum WireError {
    /// There is no operation of this opnum, or the call asks for an information class that carries a password.
    #[error("operation {0} isn't served")]
    NotServed(u16),
    /// The first field in reading order that has no reading, by its place in bytes from the stub's start.
    #[error("the stub has no reading at byte {0}")]
    BadStub(usize),
    /// A value had no room.
    #[error("there is no memory for a value of the stub")]
    Memory,
}

impl From<NdrError> for WireError {
    ghost use Rattle.std.specs.Prelude.{◌≡◌};
    ghost use Rattle.acct_stubs.specs.Calls.{refused_at};

    ghost from_gives = { λ given error. error ≡ refused_at given };

    fn from(error: NdrError) -> Self {
        match error {
            NdrError::Short(place) | NdrError::Count(place) => WireError::BadStub(place),
            NdrError::Memory => WireError::Memory,
        }
    }
}
