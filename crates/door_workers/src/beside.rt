// All doors are served, and beside them the program is run for the changes in the outbox.
ghost use Rattle.std.specs.Prelude.{◌≡◌, ◌≢◌, ◌+◌, ◌-◌, ◌^◌, ◌<◌, ◌≤◌, ℕ, [], true, Some, None};
ghost use Rattle.std.specs.Prelude.{length, vec_len, vec_capacity, slice_index_or};
ghost use Rattle.account_hooks.specs.declared.drains.Drained.TheVariants as drained;
ghost use Rattle.hist_lock.specs.Passes.{view};
ghost use Rattle.acct_machine.specs.Outbox.{has_hook};
ghost use Rattle.door_workers.specs.Doors.{IsServed};
ghost use Rattle.door_workers.specs.steps.Hiring.{IsHired, HasWorked, WorksDoors};
ghost use Rattle.door_workers.specs.Hooking.{IsAtOutbox, TakesOut, HasDrained};
ghost use Rattle.door_workers.specs.steps.Passing.{start_under};
ghost use Rattle.door_workers.specs.steps.Working.{IsJoined};

use crate::bell::Bell;
use crate::ends::DoorEnd;
use crate::hiring::{Hired, hire_all};
use crate::hook_gate::HookLockGate;
use crate::hooking::HookWorker;
use crate::joining::{Sum, join_all};
use crate::kept::Locked;
use crate::laws::links_are_joined;
use crate::serving::{DoorsServed, close, not_served};
use crate::workers::Worker;
use crate::working::all_worked;
use account_hooks::{Drained, Spawner};
use acct_config::Hook;
use acct_links::Door;
use acct_machine::{Keeper, Machine, jobs_are_left, outs_are_left};
use hist_lock::{HistLock, Kept, Pass};
use std::alloc::Global;
use std::snapshot::Snapshot;
use std::sync::Wait;
use std::thread::{Threads, join};

/// What serving with a hook leaves: what serving leaves, how the drains ended, and what runs programs.
#[derive(Drop)]
pub struct DoorsHooked<K: Keeper + Drop, P: Drop> {
    pub served: DoorsServed<K>,
    pub answer: Drained,
    pub spawner: P,
}

// The first pass, what runs programs, and how the drains ended.
#[derive(Drop)]
struct Emptied<S: Kept, P: Drop> {
    pass: Pass<S>,
    spawner: P,
    answer: Drained,
}

// The workers of the doors work, and beside them the one that runs the program. It is the first of the two: where no
// thread can be made, it comes after the others, and doesn't wait for them.
fn work_beside<
    'a,
    R: Threads + Wait + Sync,
    K: Keeper + Drop + Send,
    P: Spawner + Drop + Send,
    D: Door + Drop + Send,
>(
    rt: &R,
    alloc: Global,
    lock: &HistLock<Locked<K>>,
    bell: &Bell,
    hook: &Hook,
    drainer: HookWorker<'a, R, Locked<K>, P>,
    workers: Vec<Hired<Worker<'a, R, Locked<K>, D>>>,
    max_read: u64,
) -> (
    HookWorker<'a, R, Locked<K>, P>,
    Vec<Hired<Worker<'a, R, Locked<K>, D>>>,
)
where
    D::L: Send,
    requires tries { 0 < hook.now.tries }
    requires ready { IsAtOutbox drainer.gate.lock.now drainer.gate.pass }
    requires none { drainer.ended ≡ None }
    requires hired { (i : ℕ) (d : _) → i < vec_len workers → let w = (slice_index_or workers.items i d).worker in
        IsHired lock.now max_read w.gate.lock.now w.gate.pass (D.listener w.door) w.max_read w.ends.items }
    ensures lock { result.0.gate.lock.now ≡ drainer.entry.gate.lock.now }
    ensures ready { IsAtOutbox drainer.entry.gate.lock.now result.0.gate.pass }
    ensures takes { TakesOut (view drainer.entry.gate.pass) (view result.0.gate.pass) }
    ensures stopped { result.0.ended ≢ Some drained.Empty }
    ensures drains { (before : P)
        → HasDrained P.Spawner hook.now (start_under drainer.entry.gate.lock.now) before drainer.entry.spawner
        (view drainer.entry.gate.pass).known None
        → HasDrained P.Spawner hook.now (start_under drainer.entry.gate.lock.now) before result.0.spawner
        (view result.0.gate.pass).known result.0.ended }
    ensures count { vec_len result.1 ≡ vec_len workers.entry }
    ensures place { (i : ℕ) (d : _) → i < vec_len workers.entry
        → (slice_index_or result.1.items i d).worker.place ≡ (slice_index_or workers.entry.items i d).worker.place }
    ensures worked { (i : ℕ) (d : _) → i < vec_len workers.entry → let h = slice_index_or result.1.items i d in
        HasWorked D.Door D.L.told lock.now max_read h.worker.place h.worker.gate.pass h.end
        (slice_index_or workers.entry.items i d).worker.door h.worker.door h.worker.ends.items }
{
    join(
        rt,
        move || -> HookWorker<R, Locked<K>, P>
            requires tries { 0 < hook.now.tries }
            requires ready { IsAtOutbox drainer.gate.lock.now drainer.gate.pass }
            requires none { drainer.ended ≡ None }
            ensures lock { result.gate.lock.now ≡ drainer.entry.gate.lock.now }
            ensures ready { IsAtOutbox drainer.entry.gate.lock.now result.gate.pass }
            ensures takes { TakesOut (view drainer.entry.gate.pass) (view result.gate.pass) }
            ensures stopped { result.ended ≢ Some drained.Empty }
            ensures drains { (before : P)
                → HasDrained P.Spawner hook.entry.now (start_under drainer.entry.gate.lock.now) before
                drainer.entry.spawner (view drainer.entry.gate.pass).known None
                → HasDrained P.Spawner hook.entry.now (start_under drainer.entry.gate.lock.now) before result.spawner
                (view result.gate.pass).known result.ended }
        {
            let mut drainer = drainer;
            drainer.drain_beside(bell, hook);
            drainer
        },
        move || -> Vec<Hired<Worker<R, Locked<K>, D>>>
            requires hired { (i : ℕ) (d : _) → i < vec_len workers
                → let w = (slice_index_or workers.items i d).worker in
                IsHired lock.now max_read w.gate.lock.now w.gate.pass (D.listener w.door) w.max_read w.ends.items }
            ensures count { vec_len result ≡ vec_len workers.entry }
            ensures place { (i : ℕ) (d : _) → i < vec_len workers.entry
                → (slice_index_or result.items i d).worker.place
                ≡ (slice_index_or workers.entry.items i d).worker.place }
            ensures worked { (i : ℕ) (d : _) → i < vec_len workers.entry
                → let h = slice_index_or result.items i d in
                HasWorked D.Door D.L.told lock.entry.now max_read h.worker.place h.worker.gate.pass h.end
                (slice_index_or workers.entry.items i d).worker.door h.worker.door h.worker.ends.items }
        { all_worked(rt, alloc, lock, workers, max_read) },
    )
}

// Drains once more, since no drain stopped before its end.
fn drain_last<R: Wait, K: Keeper + Drop, P: Spawner + Drop>(
    rt: &R,
    lock: &HistLock<Locked<K>>,
    first: Pass<Locked<K>>,
    hook: &Hook,
    spawner: P,
) -> Emptied<Locked<K>, P>
    requires tries { 0 < hook.now.tries }
    requires ready { IsAtOutbox lock.now first }
    ensures ready { IsAtOutbox lock.now result.pass }
    ensures takes { TakesOut (view first) (view result.pass) }
    ensures drains { (before : P)
        → HasDrained P.Spawner hook.now (start_under lock.now) before spawner (view first).known None
        → HasDrained P.Spawner hook.now (start_under lock.now) before result.spawner (view result.pass).known
        (Some result.answer) }
{
    let mut drainer = HookWorker {
        gate: HookLockGate {
            rt,
            lock,
            pass: first,
        },
        spawner,
        ended: None,
    };
    let answer = drainer.drain_once(hook);
    let HookWorker { gate, spawner, .. } = drainer;
    let HookLockGate { pass, .. } = gate;
    Emptied {
        pass,
        spawner,
        answer,
    }
}

// Drains once more, unless a drain stopped before its end.
fn drain_rest<R: Wait, K: Keeper + Drop, P: Spawner + Drop>(
    rt: &R,
    lock: &HistLock<Locked<K>>,
    first: Pass<Locked<K>>,
    hook: &Hook,
    spawner: P,
    ended: Option<Drained>,
) -> Emptied<Locked<K>, P>
    requires tries { 0 < hook.now.tries }
    requires ready { IsAtOutbox lock.now first }
    ensures ready { IsAtOutbox lock.now result.pass }
    ensures takes { TakesOut (view first) (view result.pass) }
    ensures drains { (before : P)
        → HasDrained P.Spawner hook.now (start_under lock.now) before spawner (view first).known ended
        → HasDrained P.Spawner hook.now (start_under lock.now) before result.spawner (view result.pass).known
        (Some result.answer) }
{
    match ended {
        Some(answer) => Emptied {
            pass: first,
            spawner,
            answer,
        },
        None => drain_last(rt, lock, first, hook, spawner),
    }
}

// Takes the passes of all workers back, and drains once more, unless a drain stopped before its end.
fn take_back<R: Wait, K: Keeper + Drop, P: Spawner + Drop, D: Door + Drop>(
    rt: &R,
    alloc: Global,
    lock: &HistLock<Locked<K>>,
    hook: &Hook,
    drainer: HookWorker<R, Locked<K>, P>,
    workers: Vec<Hired<Worker<R, Locked<K>, D>>>,
    max_read: u64,
    given: &Snapshot<Vec<D>>,
    doors: &mut Vec<D>,
) -> (Sum, Emptied<Locked<K>, P>)
    requires tries { 0 < hook.now.tries }
    requires ready { IsAtOutbox lock.now drainer.gate.pass }
    requires links { IsJoined D.L.told (start_under lock.now) max_read (view drainer.gate.pass) [] }
    requires made { ((view drainer.gate.pass).joined ≡ 0) × ((view drainer.gate.pass).made ≡ vec_len workers) }
    requires stopped { drainer.ended ≢ Some drained.Empty }
    requires none { doors.old.items ≡ [] }
    requires room { vec_len workers ≤ vec_capacity doors.old }
    requires given { vec_len given.now.value ≡ vec_len workers }
    requires places { (i : ℕ) (d : _) → i < vec_len workers
        → (slice_index_or workers.items i d).worker.place + i + 1 ≡ vec_len workers }
    requires worked { (i : ℕ) (d : _) → i < vec_len workers → let h = slice_index_or workers.items i d in
        HasWorked D.Door D.L.told lock.now max_read h.worker.place h.worker.gate.pass h.end
        (slice_index_or given.now.value.items h.worker.place h.worker.door) h.worker.door h.worker.ends.items }
    ensures ready { IsAtOutbox lock.now result.1.pass }
    ensures joined { (view result.1.pass).made ≤ (view result.1.pass).joined }
    ensures works { WorksDoors D.Door D.L.told (start_under lock.now) max_read (view result.1.pass)
        given.now.value.items doors.new.items result.0.outcome result.0.ends.items }
    ensures drains { (before : P)
        → HasDrained P.Spawner hook.now (start_under lock.now) before drainer.entry.spawner
        (view drainer.entry.gate.pass).known drainer.entry.ended
        → HasDrained P.Spawner hook.now (start_under lock.now) before result.1.spawner (view result.1.pass).known
        (Some result.1.answer) }
{
    jobs_are_left();
    outs_are_left();
    let HookWorker {
        gate,
        spawner,
        ended,
    } = drainer;
    let HookLockGate { pass, .. } = gate;
    let mut first = pass;
    let mut sum = join_all(alloc, lock, &mut first, workers, max_read, given, doors);
    sum.sort();
    let emptied = drain_rest(rt, lock, first, hook, spawner, ended);
    (sum, emptied)
}

// One worker for each door serves it to its end, all side by side, and beside them the program is run; their passes are
// taken back, and the program is run for what is left.
fn work_with_hook<
    R: Threads + Wait + Sync,
    K: Keeper + Drop + Send,
    P: Spawner + Drop + Send,
    D: Door + Drop + Send,
>(
    rt: &R,
    alloc: Global,
    lock: &HistLock<Locked<K>>,
    first: Pass<Locked<K>>,
    hook: &Hook,
    spawner: P,
    doors: &mut Vec<D>,
    max_read: u64,
) -> (Sum, Emptied<Locked<K>, P>)
where
    D::L: Send,
    requires tries { 0 < hook.now.tries }
    requires ready { IsAtOutbox lock.now first }
    requires new { ((view first).known ≡ []) × ((view first).own ≡ []) }
    requires made { ((view first).made ≡ 0) × ((view first).joined ≡ 0) }
    requires few { vec_len doors.old < 2 ^ 32 - 1 }
    requires configured { (i : ℕ) (d : _) → i < vec_len doors.old
        → D.listener (slice_index_or doors.old.items i d) < length (start_under lock.now).config.listeners }
    ensures ready { IsAtOutbox lock.now result.1.pass }
    ensures joined { (view result.1.pass).made ≤ (view result.1.pass).joined }
    ensures works { WorksDoors D.Door D.L.told (start_under lock.now) max_read (view result.1.pass) doors.old.items
        doors.new.items result.0.outcome result.0.ends.items }
    ensures drains { HasDrained P.Spawner hook.now (start_under lock.now) spawner result.1.spawner
        (view result.1.pass).known (Some result.1.answer) }
{
    links_are_joined::<D::L>();
    let bell = Bell::new(doors.len());
    let mut first = first;
    let mut workers = Vec::new(alloc);
    if workers.reserve(doors.len()).is_err() {
        return (
            Sum {
                outcome: DoorEnd::NoMemory,
                ends: Vec::new(alloc),
            },
            Emptied {
                pass: first,
                spawner,
                answer: Drained::NoMemory,
            },
        );
    }
    let given = Snapshot::of(doors);
    hire_all(
        rt,
        alloc,
        lock,
        &mut first,
        Some(&bell),
        doors,
        max_read,
        &mut workers,
    );
    let drainer = HookWorker {
        gate: HookLockGate {
            rt,
            lock,
            pass: first,
        },
        spawner,
        ended: None,
    };
    let (drainer, workers) = work_beside(rt, alloc, lock, &bell, hook, drainer, workers, max_read);
    take_back(
        rt, alloc, lock, hook, drainer, workers, max_read, &given, doors,
    )
}

/// Serves all doors as [`serve_doors`](crate::serve_doors) does, and beside them runs the program of the hook for the
/// changes in the outbox, in order. It is run with no lock held. A drain that stopped before its end is the last one;
/// else the outbox is drained once more when all doors have been served.
pub fn serve_doors_with_hook<
    R: Threads + Wait + Sync,
    K: Keeper + Drop + Send,
    P: Spawner + Drop + Send,
    D: Door + Drop + Send,
>(
    rt: &R,
    alloc: Global,
    machine: Machine<K>,
    hook: &Hook,
    spawner: P,
    doors: &mut Vec<D>,
    max_read: u64,
) -> DoorsHooked<K, P>
where
    D::L: Send,
    requires new { machine.past.history ≡ [] }
    requires hook { has_hook machine.past.start.config ≡ true }
    requires tries { 0 < hook.now.tries }
    requires few { vec_len doors.old < 2 ^ 32 - 1 }
    requires configured { (i : ℕ) (d : _) → i < vec_len doors.old
        → D.listener (slice_index_or doors.old.items i d) < length machine.past.start.config.listeners }
    ensures start { result.served.machine.past.start ≡ machine.past.start }
    ensures served { IsServed D.Door D.L.told machine.past.start max_read doors.old.items doors.new.items
        result.served.machine.past.history result.served.outcome result.served.ends.items }
    ensures drains { HasDrained P.Spawner hook.now machine.past.start spawner result.spawner
        result.served.machine.past.history (Some result.answer) }
{
    links_are_joined::<D::L>();
    let machine = match Box::new(alloc, machine) {
        Ok(machine) => machine,
        Err(none) => {
            return DoorsHooked {
                served: not_served(alloc, none.value),
                answer: Drained::NoMemory,
                spawner,
            };
        }
    };
    let locked = Locked { machine };
    locked.is_good();
    let (lock, first) = match HistLock::new(alloc, locked) {
        Ok(made) => made,
        Err(none) => {
            return DoorsHooked {
                served: not_served(alloc, Box::into_inner(none.kept.machine)),
                answer: Drained::NoMemory,
                spawner,
            };
        }
    };
    let (sum, emptied) = work_with_hook(rt, alloc, &lock, first, hook, spawner, doors, max_read);
    let Emptied {
        pass,
        spawner,
        answer,
    } = emptied;
    DoorsHooked {
        served: close(lock, pass, sum),
        answer,
        spawner,
    }
}
