// A keeper that keeps nothing.
ghost use Rattle.std.specs.Prelude.{◌≡◌, None, [], IfOk, IsOk};

use acct_keeper::{Change, KeepError, Keeper, Pair};
use std::alloc::Global;

/// A keeper that keeps nothing, tells nothing and never fails: the second machine has its rows in memory alone.
#[derive(Drop)]
pub struct Unkept {
    alloc: Global,
}

impl Unkept {
    pub fn new(alloc: Global) -> Self {
        Unkept { alloc }
    }
}

impl Keeper for Unkept {
    ghost held = { λ _. None };

    ghost faults = { λ _. 0 };

    fn load(&mut self) -> Result<Vec<Pair>, KeepError>
        ensures nothing { IfOk result (λ pairs. pairs.items ≡ []) }
        ensures ok { IsOk result }
    {
        Ok(Vec::new(self.alloc))
    }

    fn commit(&mut self, changes: &[Change]) -> Result<(), KeepError>
        ensures { IsOk result }
    {
        let _ = changes;
        Ok(())
    }

    fn faults(&self) -> u64 {
        0
    }
}
