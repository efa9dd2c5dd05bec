// A lock and a pass as a gate.
ghost use Rattle.std.specs.Prelude.{◌≡◌, ◌<◌};

use crate::bell::Bell;
use crate::kept::{CallAnswer, Calling, Ending, Locked, Opening};
use acct_machine::{Acted, Call, Keeper, Opened, others_change_nothing};
use hist_lock::{HistLock, Kept, Pass};
use link_sessions::Gate;
use std::sync::Wait;

/// A lock and a pass, and the bell that is rung for changes in the outbox, where they are told to a program.
#[derive(Drop)]
pub struct LockGate<'a, R: Wait, S: Kept> {
    pub rt: &'a R,
    pub lock: &'a HistLock<S>,
    pub pass: Pass<S>,
    pub bell: Option<&'a Bell>,
}

impl<'a, R: Wait, S: Kept> LockGate<'a, R, S> {
    // Rings where a call added a change to the outbox.
    fn ring(&self, added: bool) {
        if !added {
            return;
        }
        match self.bell {
            Some(bell) => bell.ring(self.rt),
            None => {}
        }
    }

    /// No further turn is made.
    pub(crate) fn leave(&self) {
        match self.bell {
            Some(bell) => bell.leave(self.rt),
            None => {}
        }
    }
}

impl<'a, R: Wait, K: Keeper + Drop> Gate for LockGate<'a, R, Locked<K>> {
    ghost use Rattle.std.proofs.Common.{refl, ◌∙◌};
    ghost use Rattle.hist_lock.specs.Passes.{view, IsPassOf};
    ghost use Rattle.acct_machine.specs.Legal.{Legal};
    ghost use Rattle.door_workers.specs.steps.Passing.{start_under, OwnsLanes, ServesLive, MovesOn, IsPassing, OpensOn};
    ghost use Rattle.door_workers.specs.steps.Moving.{moves-none, moves-by};

    ghost start = { λ g. start_under g.lock.now };

    ghost known = { λ g. (view g.pass).known };

    ghost finds = { λ g found. IsPassing (start_under g.lock.now) (view g.pass) found };

    ghost serves = { λ g k. IsPassOf g.lock.now g.pass × OwnsLanes (view g.pass)
        × ServesLive (start_under g.lock.now) (view g.pass) k };

    ghost moves = { λ g k h. (h.lock.now ≡ g.lock.now) × (IsPassOf g.lock.now g.pass → IsPassOf h.lock.now h.pass)
        × (OwnsLanes (view g.pass) → OwnsLanes (view h.pass))
        × MovesOn (start_under g.lock.now) k (view g.pass) (view h.pass) };

    ghost ready = { λ g. IsPassOf g.lock.now g.pass × OwnsLanes (view g.pass) };

    ghost opens = { λ g out h. (h.lock.now ≡ g.lock.now) × ((view h.pass).number ≡ (view g.pass).number)
        × OpensOn (start_under g.lock.now) out (view g.pass) (view h.pass)
        × Legal (start_under g.lock.now) (view h.pass).known };

    fn open_conn(&mut self, listener: u32) -> Opened {
        others_change_nothing();
        self.lock
            .turn(self.rt, &mut self.pass, Opening { listener })
    }

    fn act(&mut self, conn: u32, call: Call, bytes: u32) -> Acted {
        others_change_nothing();
        let CallAnswer { acted, added } = self
            .lock
            .turn(self.rt, &mut self.pass, Calling { conn, call, bytes });
        self.ring(added);
        acted
    }

    fn gone(&mut self, conn: u32) {
        others_change_nothing();
        self.lock.turn(self.rt, &mut self.pass, Ending { conn })
    }

    ghost fronts = { λ g found passing. passing.grows };

    ghost passes = { λ g k found serves passing. passing.own k serves.2.mine };

    ghost stays = { λ g k. (refl, λ p. p, λ o. o, moves-none (start_under g.lock.now) k (view g.pass)) };

    ghost goes_on = { λ a b c k p q. (
      q.0 ∙ p.0,
      λ h. q.1 (p.1 h),
      λ h. q.2 (p.2 h),
      moves-by start_under k a.lock.now b.lock.now (view a.pass) (view b.pass) (view c.pass) p.0 p.3 q.3,
    ) };
}
