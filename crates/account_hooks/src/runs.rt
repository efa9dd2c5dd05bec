// What runs programs for account changes.
ghost use Rattle.std.specs.Prelude.{◌≡◌, ◌≤◌, ◌∷◌, [], ℕ, not, List, Option, map, string_bytes};
ghost use Rattle.account_hooks.specs.Drains.{Run, ended_well, Adds};
ghost use Rattle.acct_keeper.specs.Faults.{faults_after};

/// How a run of a program ended.
#[derive(Clone, Copy, Debug, PartialEq, Eq)]
pub enum Ran {
    /// It ended by itself, with this code.
    Exited(u32),
    /// It wasn't started, or didn't end by itself.
    Failed,
}

impl Ran {
    /// Whether it ended with 0.
    pub fn is_well(self) -> bool
        ensures { result ≡ ended_well self }
    {
        matches!(self, Ran::Exited(0))
    }
}

/// What the program is run for: the number of an out row, and its arguments.
#[derive(Drop)]
pub struct HookJob {
    pub number: u64,
    pub arguments: Vec<String>,
}

/// What runs programs, one at a time. A spawner in memory tells its runs, a real one doesn't.
pub trait Spawner {
    /// The runs so far, in order, where they are told. Out of memory, it may tell them no longer.
    ghost runs: { Self → Option (List Run) };

    /// How many runs didn't end with 0. The count stops at 2^64 - 1.
    ghost failed: { Self → ℕ };

    /// Runs a program to its end, with these arguments as they are.
    fn run(&mut self, program: &str, arguments: &[String]) -> Ran
        ensures runs { Adds (runs self.old)
            ((record { program = program.now; arguments = map string_bytes arguments.now; ended = result }) ∷ [])
            (runs self.new) }
        ensures failed { failed self.new ≡ faults_after (not (ended_well result)) (failed self.old) }
        ensures later { failed self.old ≤ failed self.new };
}
