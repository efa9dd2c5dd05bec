// What holds pairs of bytes.
ghost use Rattle.std.specs.Prelude.{◌≡◌, ◌≤◌, ℕ, List, true, option_map, IfOk, IfErr, IfSome, OnOk, OnErr};
ghost use Rattle.std.specs.declared.option.Option.{Option};
ghost use Rattle.acct_keeper.specs.declared.keeper.KeepError.TheVariants.{NoMemory};
ghost use Rattle.acct_keeper.specs.declared.pairs.Pair.{Pair};
ghost use Rattle.acct_keeper.specs.Faults.{KeepCause, after_call};
ghost use Rattle.acct_keeper.specs.Pairs.{is_ascending, after};

use crate::pairs::{Change, Pair};
use std::alloc::AllocError;
use thiserror::Error;

/// Why a keeper didn't load or commit.
#[derive(Clone, Copy, Debug, PartialEq, Eq, Error)]
pub enum KeepError {
    /// The keeper failed, and its count of faults rose.
    #[error("the store failed")]
    Failed,
    /// Memory ran out.
    #[error("there is no memory for the store")]
    NoMemory,
}

impl From<AllocError> for KeepError {
    ghost from_gives = { λ _ e. e ≡ NoMemory };

    fn from(_: AllocError) -> Self {
        KeepError::NoMemory
    }
}

/// What holds pairs, each key once. A keeper in memory tells them, a real one doesn't.
pub trait Keeper {
    /// The pairs by ascending key, where they are told.
    ghost held: { Self → Option (List Pair) };

    /// How many calls have failed. The count stops at 2^64 - 1.
    ghost faults: { Self → ℕ };

    /// All pairs by strictly ascending key. The keeper keeps them.
    fn load(&mut self) -> Result<Vec<Pair>, KeepError>
        ensures ascending { IfOk result (λ pairs. is_ascending pairs.items ≡ true) }
        ensures all { IfOk result (λ pairs. IfSome (held self.old) (λ told. pairs.items ≡ told)) }
        ensures kept { held self.new ≡ held self.old }
        ensures cause { IfErr result (KeepCause (faults self.old) (faults self.new)) }
        ensures later { faults self.old ≤ faults self.new }
        ensures count { faults self.new ≡ after_call (faults self.old) result };

    /// Makes the changes in order, or none of them. A later change of a key acts on what an earlier one left.
    fn commit(&mut self, changes: &[Change]) -> Result<(), KeepError>
        ensures ok { OnOk result (held self.new ≡ option_map (after changes.now) (held self.old)) }
        ensures err { OnErr result (held self.new ≡ held self.old) }
        ensures ascending { IfSome (held self.new) (λ told. is_ascending told ≡ true) }
        ensures cause { IfErr result (KeepCause (faults self.old) (faults self.new)) }
        ensures later { faults self.old ≤ faults self.new }
        ensures count { faults self.new ≡ after_call (faults self.old) result };

    /// How many calls have failed.
    fn faults(&self) -> u64
        ensures { result ≡ faults self.now };
}
