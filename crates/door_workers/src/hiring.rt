// A worker for each door.
ghost use Rattle.std.specs.Prelude.{◌≡◌, ◌+◌, ◌-◌, ◌^◌, ◌<◌, ◌≤◌, ℕ};
ghost use Rattle.std.specs.Prelude.{[], None, length, vec_len, vec_capacity, slice_index_or};
ghost use Rattle.hist_lock.specs.Passes.{view};
ghost use Rattle.door_workers.specs.steps.Passing.{start_under};
ghost use Rattle.door_workers.specs.steps.Hiring.{IsIdle, IsHired};

use crate::bell::Bell;
use crate::ends::DoorEnd;
use crate::kept::Locked;
use crate::lock_gate::LockGate;
use crate::workers::Worker;
use acct_links::Door;
use acct_machine::Keeper;
use hist_lock::{HistLock, Pass};
use std::alloc::Global;
use std::sync::Wait;

/// A worker, and why it takes no further link, once it has worked.
#[derive(Drop)]
pub(crate) struct Hired<W> {
    pub worker: W,
    pub end: Option<DoorEnd>,
}

// A worker for a door, with a pass that knows nothing yet.
fn hire<'a, R: Wait, K: Keeper + Drop, D: Door>(
    rt: &'a R,
    alloc: Global,
    lock: &'a HistLock<Locked<K>>,
    first: &mut Pass<Locked<K>>,
    bell: Option<&'a Bell>,
    door: D,
    place: u32,
    max_read: u64,
) -> Hired<Worker<'a, R, Locked<K>, D>>
    requires first { IsIdle lock.now first.old }
    requires room { (view first.old).made < 2 ^ 32 - 1 }
    requires configured { D.listener door < length (start_under lock.now).config.listeners }
    ensures first { IsIdle lock.now first.new }
    ensures made { (view first.new).made ≡ (view first.old).made + 1 }
    ensures joined { (view first.new).joined ≡ (view first.old).joined }
    ensures hired { IsHired lock.now max_read result.worker.gate.lock.now result.worker.gate.pass
        (D.listener result.worker.door) result.worker.max_read result.worker.ends.items }
    ensures door { (result.worker.door ≡ door) × (result.worker.place ≡ place) × (result.end ≡ None) }
{
    let pass = lock.split(first);
    Hired {
        worker: Worker {
            gate: LockGate {
                rt,
                lock,
                pass,
                bell,
            },
            door,
            place,
            max_read,
            ends: Vec::new(alloc),
        },
        end: None,
    }
}

/// A worker for each door, the last door's first, each with the bell, if there is one. There is room for them.
pub(crate) fn hire_all<'a, R: Wait, K: Keeper + Drop, D: Door + Drop>(
    rt: &'a R,
    alloc: Global,
    lock: &'a HistLock<Locked<K>>,
    first: &mut Pass<Locked<K>>,
    bell: Option<&'a Bell>,
    doors: &mut Vec<D>,
    max_read: u64,
    workers: &mut Vec<Hired<Worker<'a, R, Locked<K>, D>>>,
)
    requires first { IsIdle lock.now first.old × ((view first.old).made ≡ 0) × ((view first.old).joined ≡ 0) }
    requires few { vec_len doors.old < 2 ^ 32 - 1 }
    requires none { workers.old.items ≡ [] }
    requires room { vec_len doors.old ≤ vec_capacity workers.old }
    requires configured { (i : ℕ) (d : _) → i < vec_len doors.old
        → D.listener (slice_index_or doors.old.items i d) < length (start_under lock.now).config.listeners }
    ensures first { IsIdle lock.now first.new × ((view first.new).joined ≡ 0) }
    ensures made { (view first.new).made ≡ vec_len workers.new }
    ensures count { vec_len workers.new ≡ vec_len doors.old }
    ensures taken { doors.new.items ≡ [] }
    ensures capacity { vec_capacity doors.new ≡ vec_capacity doors.old }
    ensures hired { (i : ℕ) (d : _) → i < vec_len workers.new → let w = (slice_index_or workers.new.items i d).worker in
        IsHired lock.now max_read w.gate.lock.now w.gate.pass (D.listener w.door) w.max_read w.ends.items }
    ensures doors { (i : ℕ) (d : _) (e : _) → i < vec_len workers.new
        → let w = (slice_index_or workers.new.items i d).worker in
        (w.place + i + 1 ≡ vec_len doors.old) × (w.door ≡ slice_index_or doors.old.items w.place e) }
{
    while let Some(door) = doors.pop() {
        let place = doors.len() as u32;
        let hired = hire(rt, alloc, lock, first, bell, door, place, max_read);
        workers.push_reserved(hired);
    }
}
