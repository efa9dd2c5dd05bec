// What the doors of an entrance share, and the connections that they give.

use crate::boards::Board;
use host_lines::Lines;
use std::alloc::Global;
use std::fmt::Display;
use std::io::Eprint;
use std::sync::Arc;
use std::sync::atomic::{AtomicU64, Ordering};
use std::time::{Clock, Duration};

/// How long a read waits for a byte, and a write until bytes are taken, in seconds.
#[derive(Clone, Copy, Debug, PartialEq, Eq)]
pub struct Limits {
    pub read: u64,
    pub write: u64,
    /// A read, while the other doors wait for a period to end.
    pub last_read: u64,
}

/// Ten minutes without a byte, and two minutes in a write; five seconds without a byte while a period is to end.
pub const LIMITS: Limits = Limits {
    read: 600,
    write: 120,
    last_read: 5,
};

/// How long the system lets one read or one accept wait, in seconds, so that it is seen whether a period is to end.
pub(crate) const LOOK: u64 = 1;

// How many seconds one turn has. A door that was away for one whole turn is missing.
const TURN: u64 = 2;

// How many turns are told apart.
const TURNS: u64 = 8;

// How many doors have finished a link and weren't asked for another one, by the turn in which they finished it.
#[derive(Drop)]
struct Away {
    doors: [AtomicU64; 8],
}

impl Away {
    fn new() -> Away {
        Away {
            doors: [
                AtomicU64::new(0),
                AtomicU64::new(0),
                AtomicU64::new(0),
                AtomicU64::new(0),
                AtomicU64::new(0),
                AtomicU64::new(0),
                AtomicU64::new(0),
                AtomicU64::new(0),
            ],
        }
    }

    fn go(&self, turn: u64) {
        self.doors[(turn % TURNS) as usize].fetch_add(1, Ordering::SeqCst);
    }

    fn come_back(&self, turn: u64) {
        self.doors[(turn % TURNS) as usize].fetch_sub(1, Ordering::SeqCst);
    }

    // Whether a door is away from a turn before the last one on.
    fn has_missing(&self, turn: u64) -> bool {
        for age in 2..TURNS {
            let then = (turn.wrapping_sub(age) % TURNS) as usize;
            if self.doors[then].load(Ordering::SeqCst) != 0 {
                return true;
            }
        }
        false
    }
}

/// What the doors of an entrance share: their runtime and limits, the board of their periods, if there is one, how many
/// of them keep a link for the next period, which are away, which period was said to begin, and their lines.
#[derive(Drop)]
pub struct Hall<R> {
    rt: R,
    limits: Limits,
    board: Option<Arc<Board, Global>>,
    keeping: AtomicU64,
    away: Away,
    said: AtomicU64,
    lines: Lines,
}

impl<R> Hall<R> {
    /// The hall of an entrance whose doors give no link yet.
    pub fn new(rt: R, limits: Limits) -> Self {
        Hall::with_board(rt, limits, None)
    }

    /// The same, whose doors say the periods of a board, if there is one.
    pub fn with_board(rt: R, limits: Limits, board: Option<Arc<Board, Global>>) -> Self {
        Hall {
            rt,
            limits,
            board,
            keeping: AtomicU64::new(0),
            away: Away::new(),
            said: AtomicU64::new(0),
            lines: Lines::new(),
        }
    }

    pub(crate) fn limits(&self) -> Limits {
        self.limits
    }

    /// A door keeps a link.
    pub(crate) fn keep(&self) {
        self.keeping.fetch_add(1, Ordering::SeqCst);
    }

    /// It has handed it out again.
    pub(crate) fn hand_out(&self) {
        self.keeping.fetch_sub(1, Ordering::SeqCst);
    }

    /// Whether a door keeps a link, so that a history is full.
    pub(crate) fn keeps(&self) -> bool {
        self.keeping.load(Ordering::SeqCst) != 0
    }

    /// A door that went away in a turn is asked again.
    pub(crate) fn come_back(&self, turn: u64) {
        self.away.come_back(turn);
    }
}

impl<R: Clock> Hall<R> {
    // The turn that runs. A clock that can't be read stands still, and no door is missed.
    fn turn(&self) -> u64 {
        match self.rt.monotonic() {
            Ok(time) => time.as_secs() / TURN,
            Err(_) => 0,
        }
    }

    /// A door has finished a link, in the turn that it answers.
    pub(crate) fn go_away(&self) -> u64 {
        let turn = self.turn();
        self.away.go(turn);
        turn
    }

    /// Whether a period is to end: a door keeps a link, or wasn't asked for its next one for some seconds.
    pub(crate) fn is_ending(&self) -> bool {
        self.keeps() || self.away.has_missing(self.turn())
    }

    /// Waits so long.
    pub(crate) fn pause(&self, time: Duration) {
        self.rt.sleep(time);
    }
}

impl<R: Clock + Eprint> Hall<R> {
    /// Says a line on the standard error, as far as its lines last.
    pub(crate) fn say<D: Display + Drop>(&self, line: D) {
        self.lines.say(&self.rt, line);
    }

    /// Says that a period is served, the first time that a door is asked for a link in it.
    pub(crate) fn begin(&self) {
        let period = match &self.board {
            Some(board) => board.periods(),
            None => 1,
        };
        if self.said.swap(period, Ordering::SeqCst) != period {
            self.say_period(period);
        }
    }

    fn say_period(&self, period: u64) {
        let Some(board) = &self.board else {
            self.say("serving");
            return;
        };
        let accounts = board.accounts();
        if period == 1 {
            self.say(format_args!("serving {accounts} accounts"));
        } else {
            self.say(format_args!("period {period} begins, with {accounts} accounts"));
        }
    }

    /// Says how many lines were left out, if some were.
    pub(crate) fn settle(&self) {
        self.lines.settle(&self.rt);
    }
}
