// Which lines are written, and how many were left out.
ghost use Rattle.std.specs.Prelude.{◌≡◌};
ghost use Rattle.host_lines.specs.Tally.{begun, asked, settled, missed};

/// How many lines are written within one minute, beside those that say how many were left out.
pub const LINES_A_MINUTE: u64 = 30;

/// What was written in the minute that runs, and how many lines were left out and aren't told yet.
#[derive(Clone, Copy, Debug, PartialEq, Eq)]
pub struct Tally {
    pub minute: u64,
    pub written: u64,
    pub left_out: u64,
}

/// What is to be written where a line is asked for.
#[derive(Clone, Copy, Debug, PartialEq, Eq)]
pub struct Turn {
    /// How many lines were left out before, where that is told now, and else 0.
    pub told: u64,
    /// Whether the line itself is written after that.
    pub is_written: bool,
}

impl Tally {
    /// Nothing was written.
    pub fn new() -> Tally
        ensures { result ≡ begun 0 }
    {
        Tally {
            minute: 0,
            written: 0,
            left_out: 0,
        }
    }

    /// In a minute, how many lines were left out before it, where that is to be told.
    pub fn settle(&mut self, minute: u64) -> u64
        ensures { (self.new, result) ≡ settled minute self.old }
    {
        if self.minute == minute {
            return 0;
        }
        let told = self.left_out;
        *self = Tally {
            minute,
            written: 0,
            left_out: 0,
        };
        told
    }

    /// So many lines were left out elsewhere.
    pub fn miss(&mut self, count: u64)
        ensures { self.new ≡ missed count self.old }
    {
        self.left_out = self.left_out.saturating_add(count);
    }

    /// A line is asked for in a minute.
    pub fn ask(&mut self, minute: u64) -> Turn
        ensures { (self.new, result) ≡ asked minute self.old }
    {
        let told = self.settle(minute);
        if self.written < LINES_A_MINUTE {
            self.written += 1;
            return Turn {
                told,
                is_written: true,
            };
        }
        self.miss(1);
        Turn {
            told,
            is_written: false,
        }
    }
}
