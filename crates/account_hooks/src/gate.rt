// How a drain reaches the out rows.
ghost use Rattle.std.specs.Prelude.{◌≡◌, ◌≤◌, ◌<◌, ℕ, List, IfOk, OnErr};
ghost use Rattle.account_hooks.specs.Drains.{Job, Begins, numbers, IsNext, IsFirstLeft, LeavesBy, IfPast, IfFault};
ghost use Rattle.account_hooks.specs.declared.gate.HookedEnd.TheVariants as hooked;

use crate::runs::HookJob;
use std::alloc::AllocError;

/// What became of a number that was to leave.
#[derive(Clone, Copy, Debug, PartialEq, Eq)]
pub enum HookedEnd {
    /// Its out row has left.
    Done,
    /// It isn't the number of the first out row, which is this, or 0 where there is none.
    Past(u64),
    /// The store failed, with its count of faults.
    StoreFault(u64),
    /// Out of memory.
    NoMemory,
}

/// One way to the out rows: the machine itself, or turns of its lock. What it knows of them grows as calls are
/// answered.
pub trait HookGate {
    /// The jobs of all out rows that it knows of, in order, those that left included.
    ghost jobs: { Self → List Job };

    /// The numbers of those that left, in order.
    ghost gone: { Self → List ℕ };

    /// It may be used.
    ghost ready: { Self → Type 0 };

    /// What no call raises, and each number that leaves lowers.
    ghost room: { Self → ℕ };

    /// What calls do to the gate besides.
    ghost moves: { Self → Self → Type 0 };

    /// In between a call found the store failing, with this count.
    ghost faulted: { Self → ℕ → Self → Type 0 };

    /// In between a call ran out of memory. A gate that doesn't know it says nothing by it.
    ghost ran_out: { Self → Self → Type 0 };

    /// The job of the first out row that is left, if one is.
    fn first(&mut self) -> Result<Option<HookJob>, AllocError>
        requires { ready self.old }
        ensures first { IfOk result (IsFirstLeft (jobs self.new) (gone self.new)) }
        ensures memory { OnErr result (ran_out self.old self.new) }
        ensures jobs { Begins (jobs self.old) (jobs self.new) }
        ensures gone { gone self.new ≡ gone self.old }
        ensures ready { ready self.new }
        ensures room { room self.new ≤ room self.old }
        ensures moves { moves self.old self.new };

    /// Takes the first out row out, if it has this number.
    fn hooked(&mut self, number: u64) -> HookedEnd
        requires { ready self.old }
        ensures gone { LeavesBy result number (gone self.old) (gone self.new) }
        ensures past { (job : Job) → IsNext (jobs self.old) (gone self.old) job → job.number ≡ number
            → IfPast result ⊥ }
        ensures fault { IfFault result (λ n. faulted self.old n self.new) }
        ensures memory { result ≡ hooked.NoMemory → ran_out self.old self.new }
        ensures jobs { Begins (jobs self.old) (jobs self.new) }
        ensures ready { ready self.new }
        ensures room { room self.new ≤ room self.old }
        ensures nearer { result ≡ hooked.Done → room self.new < room self.old }
        ensures moves { moves self.old self.new };

    /// The numbers that left are those of the first jobs.
    ghost in_front: { (g : Self) → ready g → Begins (gone g) (numbers (jobs g)) };

    ghost stays: { (g : Self) → moves g g };

    ghost goes_on: { (a b c : Self) → moves a b → moves b c → moves a c };

    ghost since: { (a b c : Self) (n : ℕ) → moves a b → faulted b n c → faulted a n c };

    ghost out_since: { (a b c : Self) → moves a b → ran_out b c → ran_out a c };
}
