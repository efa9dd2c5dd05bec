// The worker that runs the program for the changes in the outbox.
ghost use Rattle.std.specs.Prelude.{◌≡◌, ◌≢◌, ◌<◌, Some, None};
ghost use Rattle.account_hooks.specs.declared.drains.Drained.TheVariants as drained;
ghost use Rattle.hist_lock.specs.Passes.{view};
ghost use Rattle.door_workers.specs.Hooking.{IsAtOutbox, TakesOut, HasDrained, stopped_by};
ghost use Rattle.door_workers.specs.steps.Passing.{start_under};

use crate::bell::Bell;
use crate::hook_gate::HookLockGate;
use crate::kept::Locked;
use account_hooks::{Drained, Spawner, drain};
use acct_config::Hook;
use acct_machine::Keeper;
use hist_lock::Kept;
use std::sync::Wait;

/// The worker: its gate, what runs programs, and why it drains no more, if that is so.
#[derive(Drop)]
pub(crate) struct HookWorker<'a, R: Wait, S: Kept, P: Drop> {
    pub gate: HookLockGate<'a, R, S>,
    pub spawner: P,
    pub ended: Option<Drained>,
}

// Why no drain follows one that ended so, if that is so: it stopped before its end.
fn stopped(answer: Drained) -> Option<Drained>
    ensures { result ≡ stopped_by answer }
{
    match answer {
        Drained::Empty => None,
        Drained::Held(number) => Some(Drained::Held(number)),
        Drained::StoreFault(count) => Some(Drained::StoreFault(count)),
        Drained::NoMemory => Some(Drained::NoMemory),
    }
}

impl<'a, R: Wait, K: Keeper + Drop, P: Spawner + Drop> HookWorker<'a, R, Locked<K>, P> {
    /// Drains once more.
    pub(crate) fn drain_once(&mut self, hook: &Hook) -> Drained
        requires tries { 0 < hook.now.tries }
        requires ready { IsAtOutbox self.old.gate.lock.now self.old.gate.pass }
        ensures lock { self.new.gate.lock.now ≡ self.old.gate.lock.now }
        ensures ready { IsAtOutbox self.old.gate.lock.now self.new.gate.pass }
        ensures takes { TakesOut (view self.old.gate.pass) (view self.new.gate.pass) }
        ensures ended { self.new.ended ≡ self.old.ended }
        ensures drains { (before : P)
            → HasDrained P.Spawner hook.now (start_under self.old.gate.lock.now) before self.old.spawner
            (view self.old.gate.pass).known None
            → HasDrained P.Spawner hook.now (start_under self.old.gate.lock.now) before self.new.spawner
            (view self.new.gate.pass).known (Some result) }
    {
        drain(
            &mut self.spawner,
            &mut self.gate,
            hook.program.as_str(),
            hook.tries,
        )
    }

    // Drains once more, and keeps why no drain is to follow, if it stopped before its end.
    fn drain_more(&mut self, hook: &Hook)
        requires tries { 0 < hook.now.tries }
        requires ready { IsAtOutbox self.old.gate.lock.now self.old.gate.pass }
        ensures lock { self.new.gate.lock.now ≡ self.old.gate.lock.now }
        ensures ready { IsAtOutbox self.old.gate.lock.now self.new.gate.pass }
        ensures takes { TakesOut (view self.old.gate.pass) (view self.new.gate.pass) }
        ensures stopped { self.new.ended ≢ Some drained.Empty }
        ensures drains { (before : P)
            → HasDrained P.Spawner hook.now (start_under self.old.gate.lock.now) before self.old.spawner
            (view self.old.gate.pass).known None
            → HasDrained P.Spawner hook.now (start_under self.old.gate.lock.now) before self.new.spawner
            (view self.new.gate.pass).known self.new.ended }
    {
        let answer = self.drain_once(hook);
        self.ended = stopped(answer);
    }

    /// Drains each time the bell is rung, until every worker of a door has left, or a drain stopped before its end.
    pub(crate) fn drain_beside(&mut self, bell: &Bell, hook: &Hook)
        requires tries { 0 < hook.now.tries }
        requires ready { IsAtOutbox self.old.gate.lock.now self.old.gate.pass }
        requires none { self.old.ended ≡ None }
        ensures lock { self.new.gate.lock.now ≡ self.old.gate.lock.now }
        ensures ready { IsAtOutbox self.old.gate.lock.now self.new.gate.pass }
        ensures takes { TakesOut (view self.old.gate.pass) (view self.new.gate.pass) }
        ensures stopped { self.new.ended ≢ Some drained.Empty }
        ensures drains { (before : P)
            → HasDrained P.Spawner hook.now (start_under self.old.gate.lock.now) before self.old.spawner
            (view self.old.gate.pass).known None
            → HasDrained P.Spawner hook.now (start_under self.old.gate.lock.now) before self.new.spawner
            (view self.new.gate.pass).known self.new.ended }
    {
        let rt = self.gate.rt;
        for _ in rt.forever() {
            if !bell.wait(rt) {
                return;
            }
            self.drain_more(hook);
            match self.ended {
                Some(_) => return,
                None => {}
            }
        }
        unreachable!()
    }
}
