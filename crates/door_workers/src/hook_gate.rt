// A lock and its first pass as a gate to the outbox.
ghost use Rattle.std.specs.Prelude.{◌≡◌};

use crate::kept::{Hooking, Locked, Looking};
use account_hooks::{HookGate, HookJob, HookedEnd};
use acct_machine::{Keeper, hooks_are_told, jobs_are_left, outs_are_left};
use hist_lock::{HistLock, Kept, Pass};
use std::alloc::AllocError;
use std::sync::Wait;

/// A lock and its first pass. Each call is one turn, and no program runs in it.
#[derive(Drop)]
pub struct HookLockGate<'a, R: Wait, S: Kept> {
    pub rt: &'a R,
    pub lock: &'a HistLock<S>,
    pub pass: Pass<S>,
}

impl<'a, R: Wait, K: Keeper + Drop> HookGate for HookLockGate<'a, R, Locked<K>> {
    ghost use Rattle.std.proofs.Common.{refl, ◌∙◌};
    ghost use Rattle.hist_lock.specs.Passes.{view};
    ghost use Rattle.acct_machine.specs.Gates.{RoseTo, room_at};
    ghost use Rattle.acct_machine.specs.Jobs.{jobs_at};
    ghost use Rattle.acct_machine.specs.Outs.{hooks_of};
    ghost use Rattle.door_workers.specs.steps.Passing.{start_under};
    ghost use Rattle.door_workers.specs.Hooking.{IsAtOutbox, TakesOut};
    ghost use Rattle.door_workers.specs.TakingOut.{takes-none, takes-then, rose-by};

    ghost jobs = { λ g. jobs_at (start_under g.lock.now) (view g.pass).known };

    ghost gone = { λ g. hooks_of (view g.pass).known };

    ghost ready = { λ g. IsAtOutbox g.lock.now g.pass };

    ghost room = { λ g. room_at (view g.pass).known };

    ghost moves = { λ g h. (h.lock.now ≡ g.lock.now) × TakesOut (view g.pass) (view h.pass) };

    ghost faulted = { λ g n h. RoseTo (start_under g.lock.now).faults n };

    ghost ran_out = { λ _ _. Unit {0} };

    fn first(&mut self) -> Result<Option<HookJob>, AllocError> {
        jobs_are_left();
        outs_are_left();
        self.lock.turn(self.rt, &mut self.pass, Looking)
    }

    fn hooked(&mut self, number: u64) -> HookedEnd {
        hooks_are_told();
        jobs_are_left();
        outs_are_left();
        self.lock.turn(self.rt, &mut self.pass, Hooking { number })
    }

    ghost in_front = { λ g ready. ready.knows.ready.in_front };

    ghost stays = { λ g. (refl, takes-none (view g.pass)) };

    ghost goes_on = { λ a b c p q. (q.0 ∙ p.0, takes-then (view a.pass) (view b.pass) (view c.pass) p.1 q.1) };

    ghost since = { λ a b c n p f. rose-by start_under a.lock.now b.lock.now n p.0 f };

    ghost out_since = { λ _ _ _ _ out. out };
}
