// All workers work.
ghost use Rattle.std.specs.Prelude.{◌≡◌, ◌<◌, ℕ, length, vec_len, slice_index_or};
ghost use Rattle.door_workers.specs.steps.Hiring.{IsHired, HasWorked};

use crate::hiring::Hired;
use crate::kept::Locked;
use crate::workers::Worker;
use acct_links::Door;
use acct_machine::Keeper;
use hist_lock::HistLock;
use std::alloc::Global;
use std::sync::Wait;
use std::thread;
use std::thread::Threads;

// A worker serves its door to its end, and leaves.
fn work<R: Wait, K: Keeper + Drop, D: Door>(
    alloc: Global,
    lock: &HistLock<Locked<K>>,
    hired: &mut Hired<Worker<R, Locked<K>, D>>,
    max_read: u64,
)
    requires hired { let w = hired.old.worker in
        IsHired lock.now max_read w.gate.lock.now w.gate.pass (D.listener w.door) w.max_read w.ends.items }
    ensures place { hired.new.worker.place ≡ hired.old.worker.place }
    ensures worked { let w = hired.new.worker in HasWorked D.Door D.L.told lock.now max_read w.place w.gate.pass
        hired.new.end hired.old.worker.door w.door w.ends.items }
{
    hired.end = Some(hired.worker.work(alloc));
    hired.worker.gate.leave();
}

// Each worker serves its door in a thread of its own.
fn work_all<R: Threads + Wait + Sync, K: Keeper + Drop + Send, D: Door + Drop + Send>(
    rt: &R,
    alloc: Global,
    lock: &HistLock<Locked<K>>,
    workers: &mut [Hired<Worker<R, Locked<K>, D>>],
    max_read: u64,
)
where
    D::L: Send,
    requires hired { (i : ℕ) (d : _) → i < length workers.old → let w = (slice_index_or workers.old i d).worker in
        IsHired lock.now max_read w.gate.lock.now w.gate.pass (D.listener w.door) w.max_read w.ends.items }
    ensures place { (i : ℕ) (d : _) → i < length workers.old
        → (slice_index_or workers.new i d).worker.place ≡ (slice_index_or workers.old i d).worker.place }
    ensures worked { (i : ℕ) (d : _) → i < length workers.old → let h = slice_index_or workers.new i d in
        HasWorked D.Door D.L.told lock.now max_read h.worker.place h.worker.gate.pass h.end
        (slice_index_or workers.old i d).worker.door h.worker.door h.worker.ends.items }
{
    let threads = workers.len();
    if threads == 0 {
        return;
    }
    let each = |_at: usize, hired: &mut Hired<Worker<R, Locked<K>, D>>|
        requires hired { let w = hired.old.worker in
            IsHired lock.now max_read w.gate.lock.now w.gate.pass (D.listener w.door) w.max_read w.ends.items }
        ensures place { hired.new.worker.place ≡ hired.old.worker.place }
        ensures worked { let w = hired.new.worker in HasWorked D.Door D.L.told lock.entry.now max_read w.place
            w.gate.pass hired.new.end hired.old.worker.door w.door w.ends.items }
    { work(alloc, lock, hired, max_read) };
    thread::for_each_mut(rt, workers, threads, &each);
}

/// Each worker serves its door in a thread of its own. They come back in their order.
pub(crate) fn all_worked<
    'a,
    R: Threads + Wait + Sync,
    K: Keeper + Drop + Send,
    D: Door + Drop + Send,
>(
    rt: &R,
    alloc: Global,
    lock: &HistLock<Locked<K>>,
    workers: Vec<Hired<Worker<'a, R, Locked<K>, D>>>,
    max_read: u64,
) -> Vec<Hired<Worker<'a, R, Locked<K>, D>>>
where
    D::L: Send,
    requires hired { (i : ℕ) (d : _) → i < vec_len workers → let w = (slice_index_or workers.items i d).worker in
        IsHired lock.now max_read w.gate.lock.now w.gate.pass (D.listener w.door) w.max_read w.ends.items }
    ensures count { vec_len result ≡ vec_len workers.entry }
    ensures place { (i : ℕ) (d : _) → i < vec_len workers.entry
        → (slice_index_or result.items i d).worker.place ≡ (slice_index_or workers.entry.items i d).worker.place }
    ensures worked { (i : ℕ) (d : _) → i < vec_len workers.entry → let h = slice_index_or result.items i d in
        HasWorked D.Door D.L.told lock.now max_read h.worker.place h.worker.gate.pass h.end
        (slice_index_or workers.entry.items i d).worker.door h.worker.door h.worker.ends.items }
{
    let mut workers = workers;
    work_all(rt, alloc, lock, workers.as_mut_slice(), max_read);
    workers
}
