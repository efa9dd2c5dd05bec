// Refusals of bytes that spell no descriptor.
use std::alloc::AllocFailed;
use thiserror::Error;

/// Why bytes spell no descriptor, with the place of what is wrong.
#[derive(Clone, Copy, Debug, PartialEq, Eq, Error)]
pub enum DescError {
    /// The header, the list or the entry that begins at the place isn't whole, or an entry is smaller than any.
    #[error("what begins at byte {0} isn't whole")]
    Short(usize),
    /// The revision at the place is another.
    #[error("the revision at byte {0} is another")]
    Revision(usize),
    /// The control bits at the place aren't self-relative, or the offset at the place points into the header or past
    /// the end.
    #[error("the bits or the offset at byte {0} fit no descriptor")]
    Offset(usize),
    /// The type of the entry at the place is neither to allow nor to deny.
    #[error("the entry at byte {0} is neither to allow nor to deny")]
    AceType(usize),
    /// No SID stands at the place.
    #[error("no SID stands at byte {0}")]
    Sid(usize),
    /// Memory ran out.
    #[error("there is no memory for the descriptor")]
    Memory,
}

impl<T: Drop> From<AllocFailed<T>> for DescError {
    ghost use Rattle.std.specs.Prelude.{◌≡◌};
    ghost use Rattle.dtyp_access.specs.declared.errors.DescError.TheVariants.{Memory};

    ghost from_gives = { λ _ error. error ≡ Memory };

    fn from(_error: AllocFailed<T>) -> Self {
        DescError::Memory
    }
}
