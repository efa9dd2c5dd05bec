// The bell of the worker that runs programs. Nothing is claimed of it.
use std::sync::{Condvar, Mutex, Wait};

// How many workers of doors are at work, and whether it was rung since it was last heard.
#[derive(Drop)]
struct Rings {
    at_work: usize,
    rung: bool,
}

/// The workers of doors ring it, and the worker that runs programs waits for it.
#[derive(Drop)]
pub struct Bell {
    rings: Mutex<Rings>,
    changed: Condvar,
}

impl Bell {
    /// A bell of so many workers. It is rung already, since the store may hold changes of before.
    pub fn new(at_work: usize) -> Bell {
        Bell {
            rings: Mutex::new(Rings {
                at_work,
                rung: true,
            }),
            changed: Condvar::new(),
        }
    }

    /// There is a change in the outbox.
    pub fn ring<R: Wait>(&self, rt: &R) {
        let mut rings = self.rings.lock(rt);
        rings.rung = true;
        self.changed.notify_one();
    }

    /// A worker leaves.
    pub fn leave<R: Wait>(&self, rt: &R) {
        let mut rings = self.rings.lock(rt);
        rings.at_work = rings.at_work.saturating_sub(1);
        rings.rung = true;
        self.changed.notify_one();
    }

    /// Waits until it is rung, or no worker is left. Whether one is left.
    pub fn wait<R: Wait>(&self, rt: &R) -> bool {
        let mut rings = self.changed.wait_while(rt, self.rings.lock(rt), |rings| {
            !rings.rung && rings.at_work > 0
        });
        rings.rung = false;
        rings.at_work > 0
    }
}
