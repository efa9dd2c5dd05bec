// What gives links by their addresses.
ghost use Rattle.std.specs.Prelude.{◌≡◌, ◌≤◌, ℕ, List, Option, IfOk, IfErr};
ghost use Rattle.acct_keeper.specs.Faults.{faults_after};
ghost use Rattle.acct_links.specs.Links.{TakeCause, called_after, is_fault, IsNew};
ghost use Rattle.acct_links.specs.declared.callers.TakeError.TheVariants.{NoMemory};

use crate::links::Link;
use std::alloc::AllocError;
use thiserror::Error;

/// Why a part of the outside wasn't handed out.
#[derive(Clone, Copy, Debug, PartialEq, Eq, Error)]
pub enum TakeError {
    /// It failed, and the count of faults rose.
    #[error("what is outside wasn't reached")]
    Failed,
    /// Memory ran out.
    #[error("there is no memory for what is outside")]
    NoMemory,
}

impl From<AllocError> for TakeError {
    ghost from_gives = { λ _ e. e ≡ NoMemory };

    fn from(_: AllocError) -> Self {
        TakeError::NoMemory
    }
}

/// What gives links by their addresses. A caller in memory tells for which it gave one, a real one doesn't.
pub trait Caller {
    /// The links that it gives.
    type L: Link;

    /// The addresses for which it gave a link, in order, where they are told.
    ghost called: { Self → Option (List (List ℕ)) };

    /// How many calls have failed. The count stops at 2^64 - 1.
    ghost faults: { Self → ℕ };

    /// A link to an address, of which nothing was read or written.
    fn link(&mut self, address: &str) -> Result<Self::L, TakeError>
        ensures new { IfOk result (λ link. IsNew (Self.L.told link)) }
        ensures called { called self.new ≡ called_after (called self.old) address.now result }
        ensures cause { IfErr result (TakeCause (faults self.old) (faults self.new)) }
        ensures later { faults self.old ≤ faults self.new }
        ensures count { faults self.new ≡ faults_after (is_fault result) (faults self.old) };
}
