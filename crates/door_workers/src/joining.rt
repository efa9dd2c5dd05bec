// The passes of all workers are taken back, and their doors and ends.
ghost use Rattle.std.specs.Prelude.{◌≡◌, ◌≢◌, ◌+◌, ◌<◌, ◌≤◌, ℕ, [], None, vec_len, vec_capacity, slice_index_or};
ghost use Rattle.std.specs.List.Sorted.{IsPermutation, IsNonDecreasingBy};
ghost use Rattle.hist_lock.specs.Passes.{view, IsPassOf};
ghost use Rattle.hist_lock.specs.Views.{IsFirst};
ghost use Rattle.door_workers.specs.steps.Passing.{start_under};
ghost use Rattle.door_workers.specs.declared.ends.DoorEnd.TheVariants.{NoMemory};
ghost use Rattle.door_workers.specs.Doors.{Adds};
ghost use Rattle.hist_lock.specs.declared.view.View.{View};
ghost use Rattle.acct_machine.specs.declared.entry.Entry.{Entry};
ghost use Rattle.door_workers.specs.steps.Hiring.{IsOther, HasWorked, AreJoined, JoinsOne};
ghost use Rattle.door_workers.specs.Hooking.{KnowsOwn, TakesInOthers};
ghost use Rattle.door_workers.specs.steps.Working.{IsJoined};
ghost use Rattle.door_workers.specs.declared.kept.Begun.{Begun};

use crate::ends::DoorEnd;
use crate::hiring::Hired;
use crate::kept::Locked;
use crate::laws::links_are_joined;
use crate::lock_gate::LockGate;
use crate::workers::Worker;
use acct_links::Door;
use acct_machine::{Keeper, outs_are_left};
use hist_lock::{HistLock, Pass};
use link_sessions::Ended;
use std::alloc::Global;
use std::snapshot::Snapshot;
use std::sync::Wait;

// What a worker leaves: its door, why it took no further link, and the ends of its sessions.
#[derive(Drop)]
struct Left<D: Drop> {
    door: D,
    end: DoorEnd,
    ends: Vec<Ended>,
}

// Takes a worker's pass back.
fn join_one<R: Wait, K: Keeper + Drop, D: Door + Drop>(
    lock: &HistLock<Locked<K>>,
    first: &mut Pass<Locked<K>>,
    hired: Hired<Worker<R, Locked<K>, D>>,
    max_read: u64,
) -> Left<D>
    requires other { IsOther lock.now hired.worker.gate.pass }
    requires worked { hired.end ≢ None }
    requires first { IsPassOf lock.now first.old × IsFirst (view first.old) }
    ensures first { IsPassOf lock.now first.new × IsFirst (view first.new) }
    ensures made { (view first.new).made ≡ (view first.old).made }
    ensures joined { (view first.new).joined ≡ (view first.old).joined + 1 }
    ensures one { (given : D) → let w = hired.entry.worker in HasWorked D.Door D.L.told lock.now max_read w.place
        w.gate.pass hired.entry.end given w.door w.ends.items
        → JoinsOne D.Door D.L.told (start_under lock.now) max_read w.place (view first.old) (view first.new) given
        result.door result.end result.ends.items }
    ensures others { (o : View Begun Entry) (given : D) → let w = hired.entry.worker in HasWorked D.Door D.L.told
        lock.now max_read w.place w.gate.pass hired.entry.end given w.door w.ends.items
        → KnowsOwn o → TakesInOthers o (view first.old) → TakesInOthers o (view first.new) }
{
    links_are_joined::<D::L>();
    outs_are_left();
    let Hired { worker, end } = hired;
    let Worker {
        gate,
        door,
        ends,
        ..
    } = worker;
    let LockGate { pass, .. } = gate;
    lock.join(first, pass);
    match end {
        Some(end) => Left { door, end, ends },
        None => unreachable!(),
    }
}

// What came of the doors so far: how serving ends, and the ends of their sessions, door by door.
#[derive(Drop)]
pub(crate) struct Sum {
    pub outcome: DoorEnd,
    pub ends: Vec<Ended>,
}

impl Sum {
    // One more door. Where there is no memory for the ends of its sessions, memory ran out.
    fn add(&mut self, end: DoorEnd, mut ends: Vec<Ended>)
        ensures { Adds end ends.items self.old.outcome self.old.ends.items self.new.outcome self.new.ends.items }
    {
        self.outcome = match self.ends.append(&mut ends) {
            Ok(()) => self.outcome.behind(end),
            Err(_) => DoorEnd::NoMemory,
        };
    }

    // The ends by the numbers of their connections, or none where memory ran out.
    pub(crate) fn sort(&mut self)
        ensures outcome { self.new.outcome ≡ self.old.outcome }
        ensures none { self.old.outcome ≡ NoMemory → self.new.ends.items ≡ [] }
        ensures all { self.old.outcome ≢ NoMemory → IsPermutation self.old.ends.items self.new.ends.items
            × IsNonDecreasingBy (λ end. end.conn) self.new.ends.items }
    {
        match self.outcome {
            DoorEnd::NoMemory => self.ends.clear(),
            DoorEnd::Closed | DoorEnd::Failed | DoorEnd::Full(_) => {
                self.ends.sort_unstable_by_key(|end| end.conn)
            }
        }
    }
}

/// Takes the passes of all workers back, that of the first door first, and puts the doors back in their order. There
/// is room for them. The first pass has served no link.
pub(crate) fn join_all<R: Wait, K: Keeper + Drop, D: Door + Drop>(
    alloc: Global,
    lock: &HistLock<Locked<K>>,
    first: &mut Pass<Locked<K>>,
    workers: Vec<Hired<Worker<R, Locked<K>, D>>>,
    max_read: u64,
    given: &Snapshot<Vec<D>>,
    doors: &mut Vec<D>,
) -> Sum
    requires first { IsPassOf lock.now first.old × IsFirst (view first.old) }
    requires links { IsJoined D.L.told (start_under lock.now) max_read (view first.old) [] }
    requires none { doors.old.items ≡ [] }
    requires room { vec_len workers ≤ vec_capacity doors.old }
    requires given { vec_len given.now.value ≡ vec_len workers }
    requires places { (i : ℕ) (d : _) → i < vec_len workers
        → (slice_index_or workers.items i d).worker.place + i + 1 ≡ vec_len workers }
    requires worked { (i : ℕ) (d : _) → i < vec_len workers → let h = slice_index_or workers.items i d in
        HasWorked D.Door D.L.told lock.now max_read h.worker.place h.worker.gate.pass h.end
        (slice_index_or given.now.value.items h.worker.place h.worker.door) h.worker.door h.worker.ends.items }
    ensures first { IsPassOf lock.now first.new × IsFirst (view first.new) }
    ensures made { (view first.new).made ≡ (view first.old).made }
    ensures joined { (view first.new).joined ≡ (view first.old).joined + vec_len workers.entry }
    ensures others { TakesInOthers (view first.old) (view first.new) }
    ensures doors { vec_len doors.new ≡ vec_len workers.entry }
    ensures all { AreJoined D.Door D.L.told (start_under lock.now) max_read (view first.new) given.now.value.items
        doors.new.items result.outcome result.ends.items }
{
    links_are_joined::<D::L>();
    let mut workers = workers;
    let mut sum = Sum {
        outcome: DoorEnd::Closed,
        ends: Vec::new(alloc),
    };
    while let Some(hired) = workers.pop() {
        let Left { door, end, ends } = join_one(lock, first, hired, max_read);
        doors.push_reserved(door);
        sum.add(end, ends);
    }
    sum
}
