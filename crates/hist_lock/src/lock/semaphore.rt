// Who may draw a ticket: at most two threads have one. Nothing is claimed of it, and no proof rests on it.
use std::sync::Wait;
use std::sync::atomic::{AtomicU64, Ordering};

// One thread at its turn, and the next, which mostly runs already when its turn comes.
const PERMITS: u64 = 2;

/// The permits to have a ticket. Threads that find none left sleep, and go on in no order.
#[derive(Drop)]
pub(super) struct Semaphore {
    acquired: AtomicU64,
    sleepers: AtomicU64,
}

impl Semaphore {
    pub(super) fn new() -> Semaphore {
        Semaphore {
            acquired: AtomicU64::new(0),
            sleepers: AtomicU64::new(0),
        }
    }

    /// Waits for a permit.
    pub(super) fn acquire<R: Wait>(&self, rt: &R) {
        for _ in rt.forever() {
            if self.try_acquire() {
                return;
            }
            self.sleepers.fetch_add(1, Ordering::SeqCst);
            self.acquired.park(rt, PERMITS as u32);
            self.sleepers.fetch_sub(1, Ordering::SeqCst);
        }
    }

    // Takes a permit, if one is left.
    fn try_acquire(&self) -> bool {
        let seen = self.acquired.load(Ordering::SeqCst);
        seen < PERMITS
            && self
                .acquired
                .compare_exchange(seen, seen + 1, Ordering::SeqCst, Ordering::SeqCst)
                .is_ok()
    }

    /// Whether another thread has a permit beside the caller.
    pub(super) fn is_shared(&self) -> bool {
        self.acquired.load(Ordering::SeqCst) > 1
    }

    /// Gives the permit back, and wakes one thread that sleeps for one.
    pub(super) fn release(&self) {
        self.acquired.fetch_sub(1, Ordering::SeqCst);
        if self.sleepers.load(Ordering::SeqCst) > 0 {
            self.acquired.wake_one();
        }
    }
}
