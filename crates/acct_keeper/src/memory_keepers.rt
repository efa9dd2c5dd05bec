// Keepers in memory.
ghost use Rattle.std.specs.Prelude.{◌≡◌, ◌≤◌, [], true, Some, IfOk, IfErr, OnOk, OnErr};
ghost use Rattle.acct_keeper.specs.declared.keeper.KeepError.TheVariants.{NoMemory};
ghost use Rattle.acct_keeper.specs.Faults.{KeepCause, after_call};
ghost use Rattle.acct_keeper.specs.Memory.{CallsInMemory};
ghost use Rattle.acct_keeper.specs.Pairs.{is_ascending, after};

use crate::keeper::{KeepError, Keeper};
use crate::pairs::{Change, Pair, copy_changes, copy_pairs};
use crate::places::make;
use std::alloc::Global;
use std::marker::Model;

/// A keeper whose calls never fail: its count of faults is 0.
#[derive(Drop)]
pub struct SteadyKeeper {
    alloc: Global,
    pairs: Vec<Pair>,
}

impl Model for SteadyKeeper {
    ghost use Rattle.std.specs.Prelude.{◌≡◌, List, true};
    ghost use Rattle.acct_keeper.specs.Pairs.{is_ascending};
    ghost use Rattle.acct_keeper.specs.declared.pairs.Pair.{Pair as Stored};

    ghost Value = { List Stored };

    ghost view = { λ keeper. keeper.pairs.items };

    ghost invariant = { λ keeper. is_ascending keeper.pairs.items ≡ true };
}

impl SteadyKeeper {
    /// A keeper that holds no pair, which takes no memory.
    pub fn new(alloc: Global) -> Self
        ensures { result ≡ [] }
    {
        SteadyKeeper {
            alloc,
            pairs: Vec::new(alloc),
        }
    }

    /// The pairs by ascending key.
    pub fn as_slice(&self) -> &[Pair]
        ensures { result.now ≡ self.now }
    {
        &self.pairs
    }
}

impl Keeper for SteadyKeeper {
    ghost held = { λ pairs. Some pairs };

    ghost faults = { λ _. 0 };

    fn load(&mut self) -> Result<Vec<Pair>, KeepError>
        ensures ascending { IfOk result (λ pairs. is_ascending pairs.items ≡ true) }
        ensures all { IfOk result (λ pairs. pairs.items ≡ self.old) }
        ensures kept { self.new ≡ self.old }
        ensures cause { IfErr result (λ e. e ≡ NoMemory) }
    {
        Ok(copy_pairs(self.alloc, &self.pairs)?)
    }

    fn commit(&mut self, changes: &[Change]) -> Result<(), KeepError>
        ensures ok { OnOk result (self.new ≡ after changes.now self.old) }
        ensures err { OnErr result (self.new ≡ self.old) }
        ensures ascending { is_ascending self.new ≡ true }
        ensures cause { IfErr result (λ e. e ≡ NoMemory) }
    {
        // All memory is taken before the first change is made.
        let copies = copy_changes(self.alloc, changes)?;
        self.pairs.reserve(copies.len())?;
        make(&mut self.pairs, copies);
        Ok(())
    }

    fn faults(&self) -> u64 {
        0
    }
}

/// A keeper in memory. Its loads and commits are numbered together from 1, and those of the given numbers fail.
#[derive(Drop)]
pub struct MemoryKeeper {
    kept: SteadyKeeper,
    failing: Vec<u64>,
    calls: u64,
    fault_count: u64,
}

impl Model for MemoryKeeper {
    ghost use Rattle.std.specs.Prelude.{◌≡◌, true};
    ghost use Rattle.acct_keeper.specs.Memory.{KeeperInMemory};
    ghost use Rattle.acct_keeper.specs.Pairs.{is_ascending};

    ghost Value = { KeeperInMemory };

    ghost view = { λ keeper. record {
      pairs = keeper.kept;
      faults = keeper.fault_count;
      calls = keeper.calls;
      failing = keeper.failing.items;
    } };

    ghost invariant = { λ keeper. is_ascending keeper.kept ≡ true };
}

impl MemoryKeeper {
    /// A keeper that holds the pairs of another, and of which no call was made.
    pub fn new(kept: SteadyKeeper, failing: Vec<u64>) -> Self
        ensures { result ≡ record { pairs = kept; faults = 0; calls = 0; failing = failing.items } }
    {
        MemoryKeeper {
            kept,
            failing,
            calls: 0,
            fault_count: 0,
        }
    }

    /// The pairs by ascending key.
    pub fn as_slice(&self) -> &[Pair]
        ensures { result.now ≡ self.now.pairs }
    {
        self.kept.as_slice()
    }

    // Counts a call, which fails where its number is one of those that fail.
    fn count_call(&mut self) -> Result<(), KeepError>
        ensures pairs { self.new.pairs ≡ self.old.pairs }
        ensures counted { CallsInMemory self.old self.new result }
        ensures later { self.old.faults ≤ self.new.faults }
        ensures count { self.new.faults ≡ after_call self.old.faults result }
        ensures ascending { is_ascending self.new.pairs ≡ true }
    {
        self.calls = self.calls.saturating_add(1);
        if self.failing.contains(&self.calls) {
            self.fault_count = self.fault_count.saturating_add(1);
            return Err(KeepError::Failed);
        }
        Ok(())
    }
}

impl Keeper for MemoryKeeper {
    ghost held = { λ keeper. Some keeper.pairs };

    ghost faults = { λ keeper. keeper.faults };

    fn load(&mut self) -> Result<Vec<Pair>, KeepError>
        ensures ascending { IfOk result (λ pairs. is_ascending pairs.items ≡ true) }
        ensures all { IfOk result (λ pairs. pairs.items ≡ self.old.pairs) }
        ensures kept { self.new.pairs ≡ self.old.pairs }
        ensures cause { IfErr result (KeepCause self.old.faults self.new.faults) }
        ensures later { self.old.faults ≤ self.new.faults }
        ensures fails { CallsInMemory self.old self.new result }
        ensures count { self.new.faults ≡ after_call self.old.faults result }
    {
        self.count_call()?;
        self.kept.load()
    }

    fn commit(&mut self, changes: &[Change]) -> Result<(), KeepError>
        ensures ok { OnOk result (self.new.pairs ≡ after changes.now self.old.pairs) }
        ensures err { OnErr result (self.new.pairs ≡ self.old.pairs) }
        ensures ascending { is_ascending self.new.pairs ≡ true }
        ensures cause { IfErr result (KeepCause self.old.faults self.new.faults) }
        ensures later { self.old.faults ≤ self.new.faults }
        ensures fails { CallsInMemory self.old self.new result }
        ensures count { self.new.faults ≡ after_call self.old.faults result }
    {
        self.count_call()?;
        self.kept.commit(changes)
    }

    fn faults(&self) -> u64
        ensures { result ≡ self.now.faults }
    {
        self.fault_count
    }
}
