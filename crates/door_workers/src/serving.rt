// All doors are served.
ghost use Rattle.std.specs.Prelude.{◌≡◌, ◌-◌, ◌<◌, ◌≤◌, ◌^◌, ℕ, [], length, vec_len, slice_index_or};
ghost use Rattle.hist_lock.specs.Passes.{view, IsPassOf};
ghost use Rattle.hist_lock.specs.Views.{IsFirst};
ghost use Rattle.door_workers.specs.steps.Passing.{start_under};
ghost use Rattle.door_workers.specs.declared.ends.DoorEnd.TheVariants.{NoMemory};
ghost use Rattle.door_workers.specs.Doors.{IsServed};
ghost use Rattle.door_workers.specs.steps.Hiring.{IsIdle, WorksDoors, ClosesTo};

use crate::ends::DoorEnd;
use crate::hiring::hire_all;
use crate::joining::{Sum, join_all};
use crate::kept::Locked;
use crate::laws::links_are_joined;
use crate::working::all_worked;
use acct_links::Door;
use acct_machine::{Keeper, Machine};
use hist_lock::{Closed, HistLock, Pass};
use link_sessions::Ended;
use std::alloc::Global;
use std::snapshot::Snapshot;
use std::sync::Wait;
use std::thread::Threads;

/// What serving leaves: the machine, how it ended, and how each session ended, by the number of its connection.
#[derive(Drop)]
pub struct DoorsServed<K: Keeper + Drop> {
    pub machine: Machine<K>,
    pub outcome: DoorEnd,
    pub ends: Vec<Ended>,
}

/// Nothing was served, as memory ran out.
pub(crate) fn not_served<K: Keeper + Drop>(alloc: Global, machine: Machine<K>) -> DoorsServed<K>
    ensures { (result.machine ≡ machine) × (result.outcome ≡ NoMemory) × (result.ends.items ≡ []) }
{
    DoorsServed {
        machine,
        outcome: DoorEnd::NoMemory,
        ends: Vec::new(alloc),
    }
}

/// Gives the machine back from under the lock, whose passes were all joined.
pub(crate) fn close<K: Keeper + Drop>(
    lock: HistLock<Locked<K>>,
    first: Pass<Locked<K>>,
    sum: Sum,
) -> DoorsServed<K>
    requires pass { IsPassOf lock first × IsFirst (view first) }
    requires joined { (view first).made ≤ (view first).joined }
    ensures closes { ClosesTo lock (view first) result.machine.past }
    ensures sum { (result.outcome ≡ sum.outcome) × (result.ends ≡ sum.ends) }
{
    let Sum { outcome, ends } = sum;
    match lock.close(first) {
        Closed::Whole(locked) => DoorsServed {
            machine: Box::into_inner(locked.machine),
            outcome,
            ends,
        },
        Closed::Unjoined { .. } => unreachable!(),
    }
}

// One worker for each door serves it to its end, all side by side; their passes are taken back.
fn work_doors<R: Threads + Wait + Sync, K: Keeper + Drop + Send, D: Door + Drop + Send>(
    rt: &R,
    alloc: Global,
    lock: &HistLock<Locked<K>>,
    first: &mut Pass<Locked<K>>,
    doors: &mut Vec<D>,
    max_read: u64,
) -> Sum
where
    D::L: Send,
    requires first { IsIdle lock.now first.old × ((view first.old).made ≡ 0) × ((view first.old).joined ≡ 0) }
    requires few { vec_len doors.old < 2 ^ 32 - 1 }
    requires configured { (i : ℕ) (d : _) → i < vec_len doors.old
        → D.listener (slice_index_or doors.old.items i d) < length (start_under lock.now).config.listeners }
    ensures first { IsPassOf lock.now first.new × IsFirst (view first.new) }
    ensures joined { (view first.new).made ≤ (view first.new).joined }
    ensures works { WorksDoors D.Door D.L.told (start_under lock.now) max_read (view first.new) doors.old.items
        doors.new.items result.outcome result.ends.items }
{
    links_are_joined::<D::L>();
    let mut workers = Vec::new(alloc);
    if workers.reserve(doors.len()).is_err() {
        return Sum {
            outcome: DoorEnd::NoMemory,
            ends: Vec::new(alloc),
        };
    }
    let given = Snapshot::of(doors);
    hire_all(rt, alloc, lock, first, None, doors, max_read, &mut workers);
    let workers = all_worked(rt, alloc, lock, workers, max_read);
    let mut sum = join_all(alloc, lock, first, workers, max_read, &given, doors);
    sum.sort();
    sum
}

/// Serves all doors side by side, each in a thread of its own, over one machine to which nothing has happened, until no
/// worker takes a further link. The doors stay in their order.
pub fn serve_doors<R: Threads + Wait + Sync, K: Keeper + Drop + Send, D: Door + Drop + Send>(
    rt: &R,
    alloc: Global,
    machine: Machine<K>,
    doors: &mut Vec<D>,
    max_read: u64,
) -> DoorsServed<K>
where
    D::L: Send,
    requires new { machine.past.history ≡ [] }
    requires few { vec_len doors.old < 2 ^ 32 - 1 }
    requires configured { (i : ℕ) (d : _) → i < vec_len doors.old
        → D.listener (slice_index_or doors.old.items i d) < length machine.past.start.config.listeners }
    ensures start { result.machine.past.start ≡ machine.past.start }
    ensures served { IsServed D.Door D.L.told machine.past.start max_read doors.old.items doors.new.items
        result.machine.past.history result.outcome result.ends.items }
{
    links_are_joined::<D::L>();
    let machine = match Box::new(alloc, machine) {
        Ok(machine) => machine,
        Err(none) => return not_served(alloc, none.value),
    };
    let (lock, mut first) = match HistLock::new(alloc, Locked { machine }) {
        Ok(made) => made,
        Err(none) => return not_served(alloc, Box::into_inner(none.kept.machine)),
    };
    let sum = work_doors(rt, alloc, &lock, &mut first, doors, max_read);
    close(lock, first, sum)
}
