// What is wrong with a stub.
ghost use Rattle.std.specs.Prelude.{◌≡◌};
ghost use Rattle.ndr_core.specs.declared.error.NdrError.TheVariants.{Memory};

use std::alloc::{AllocError, AllocFailed};
use thiserror::Error;

/// Why a stub isn't read any further.
#[derive(Clone, Copy, Debug, PartialEq, Eq, Error)]
pub enum NdrError {
    /// The primitive that begins at this place, after its alignment, isn't whole.
    #[error("what begins at byte {0} of the stub isn't whole")]
    Short(usize),
    /// The number at this place breaks a rule of its shape.
    #[error("the number at byte {0} of the stub breaks a rule")]
    Count(usize),
    /// A value had no room. No call of this crate answers it; those that read lists and texts do.
    #[error("there is no memory for a value of the stub")]
    Memory,
}

impl From<AllocError> for NdrError {
    ghost from_gives = { λ _ e. e ≡ Memory };

    fn from(_e: AllocError) -> NdrError {
        NdrError::Memory
    }
}

impl<T: Drop> From<AllocFailed<T>> for NdrError {
    ghost from_gives = { λ _ e. e ≡ Memory };

    fn from(_e: AllocFailed<T>) -> NdrError {
        NdrError::Memory
    }
}
