// Lines on the standard error, as far as their tally lets them.
use crate::tally::{Tally, Turn};
use std::fmt::Display;
use std::io::Eprint;
use std::sync::Mutex;
use std::sync::atomic::{AtomicU64, Ordering};
use std::time::Clock;

// How often a thread looks whether another one still counts its line.
const LOOKS: u64 = 1_000;

/// Lines that threads write, and the tally of them. It may be shared.
#[derive(Drop)]
pub struct Lines {
    tally: Mutex<Tally>,
    // Lines that were left out since the tally was another thread's for long.
    missed: AtomicU64,
}

// The minute that runs. A clock that can't be read stands still, so that fewer lines are written.
fn minute_of<R: Clock>(rt: &R) -> u64 {
    match rt.monotonic() {
        Ok(time) => time.as_secs() / 60,
        Err(_) => 0,
    }
}

fn tell_left_out<R: Eprint>(rt: &R, count: u64) {
    if count != 0 {
        let _ = eprintln!(rt; "account: {count} lines were left out");
    }
}

impl Lines {
    /// Nothing was said.
    pub fn new() -> Lines {
        Lines {
            tally: Mutex::new(Tally::new()),
            missed: AtomicU64::new(0),
        }
    }

    // What the tally says of a line, unless another thread has it for long.
    fn turn(&self, minute: u64) -> Option<Turn> {
        for _ in 0..LOOKS {
            if let Some(mut tally) = self.tally.try_lock() {
                tally.miss(self.missed.swap(0, Ordering::SeqCst));
                return Some(tally.ask(minute));
            }
        }
        None
    }

    /// Writes a line after the program's name, unless the minute has had its lines: then it is left out and counted.
    pub fn say<R: Clock + Eprint, D: Display + Drop>(&self, rt: &R, line: D) {
        let Some(turn) = self.turn(minute_of(rt)) else {
            self.missed.fetch_add(1, Ordering::SeqCst);
            return;
        };
        tell_left_out(rt, turn.told);
        if turn.is_written {
            let _ = eprintln!(rt; "account: {line}");
        }
    }

    /// Says how many lines were left out in the minutes before this one, if any were and it isn't said yet.
    pub fn settle<R: Clock + Eprint>(&self, rt: &R) {
        if let Some(mut tally) = self.tally.try_lock() {
            let told = tally.settle(minute_of(rt));
            drop(tally);
            tell_left_out(rt, told);
        }
    }
}
