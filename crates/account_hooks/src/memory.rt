// Spawners in memory.
ghost use Rattle.std.specs.Prelude.{◌≡◌, ◌≤◌, ◌+◌, ◌∷◌, [], map, drop, not, option_map, string_bytes, IfOk, Some, None};
ghost use Rattle.acct_keeper.specs.Faults.{faults_after};
ghost use Rattle.account_hooks.specs.Drains.{Adds, ended_well};
ghost use Rattle.account_hooks.specs.Memory.{seen_run, seen_runs, EndsNext, to_come};

use crate::copies::copy_all;
use crate::runs::{Ran, Spawner};
use std::alloc::{AllocError, Global};

/// A run that was made.
#[derive(Drop)]
pub struct MadeRun {
    pub program: String,
    pub arguments: Vec<String>,
    pub ended: Ran,
}

/// A spawner in memory: its runs end as listed, one after the other, and with 0 once the list is used up. It tells its
/// runs until it is out of memory.
#[derive(Drop)]
pub struct MemorySpawner {
    alloc: Global,
    ends: Vec<Ran>,
    used: usize,
    made: Option<Vec<MadeRun>>,
    failed: u64,
}

impl MemorySpawner {
    /// A spawner whose runs end so.
    pub fn new(alloc: Global, ends: Vec<Ran>) -> MemorySpawner
        ensures ends { to_come result ≡ ends.items }
        ensures none { seen_runs result.made ≡ Some [] }
        ensures failed { result.failed ≡ 0 }
    {
        MemorySpawner {
            alloc,
            ends,
            used: 0,
            made: Some(Vec::new(alloc)),
            failed: 0,
        }
    }

    /// The runs that were made, in order, where they are told.
    pub fn made(&self) -> Option<&[MadeRun]>
        ensures { option_map (λ told. map seen_run told.now) result ≡ seen_runs self.now.made }
    {
        match &self.made {
            Some(made) => Some(made.as_slice()),
            None => None,
        }
    }
}

fn make_run(
    alloc: Global,
    program: &str,
    arguments: &[String],
    ended: Ran,
) -> Result<MadeRun, AllocError>
    ensures { IfOk result (λ made. seen_run made
        ≡ record { program = program.now; arguments = map string_bytes arguments.now; ended = ended }) }
{
    let program = String::from_str(alloc, program)?;
    let arguments = copy_all(alloc, arguments)?;
    Ok(MadeRun {
        program,
        arguments,
        ended,
    })
}

// The runs with one more.
fn with_run(
    alloc: Global,
    made: Option<Vec<MadeRun>>,
    program: &str,
    arguments: &[String],
    ended: Ran,
) -> Option<Vec<MadeRun>>
    ensures { Adds (seen_runs made)
        ((record { program = program.now; arguments = map string_bytes arguments.now; ended = ended }) ∷ [])
        (seen_runs result) }
{
    match made {
        None => None,
        Some(mut made) => match make_run(alloc, program, arguments, ended) {
            Ok(run) => match made.push(run) {
                Ok(()) => Some(made),
                Err(_) => None,
            },
            Err(_) => None,
        },
    }
}

// The end at a place of a list, and the place after it. Behind the list it is 0.
fn next_end(ends: &[Ran], used: usize) -> (Ran, usize)
    ensures { EndsNext (drop used ends.now) result.0 (drop result.1 ends.now) }
{
    match ends.get(used) {
        Some(ended) => (*ended, used + 1),
        None => (Ran::Exited(0), used),
    }
}

impl Spawner for MemorySpawner {
    ghost runs = { λ s. seen_runs s.made };

    ghost failed = { λ s. s.failed };

    fn run(&mut self, program: &str, arguments: &[String]) -> Ran
        ensures runs { Adds (seen_runs self.old.made)
            ((record { program = program.now; arguments = map string_bytes arguments.now; ended = result }) ∷ [])
            (seen_runs self.new.made) }
        ensures failed { self.new.failed ≡ faults_after (not (ended_well result)) self.old.failed }
        ensures later { self.old.failed ≤ self.new.failed }
        ensures listed { EndsNext (to_come self.old) result (to_come self.new) }
    {
        let (ended, used) = next_end(&self.ends, self.used);
        self.used = used;
        if !ended.is_well() {
            self.failed = self.failed.saturating_add(1);
        }
        self.made = with_run(self.alloc, self.made.take(), program, arguments, ended);
        ended
    }
}

/// A spawner in memory whose runs all end with 0. It tells none of them.
#[derive(Clone, Copy, Debug, Default)]
pub struct SteadySpawner;

impl Spawner for SteadySpawner {
    ghost runs = { λ _. None };

    ghost failed = { λ _. 0 };

    fn run(&mut self, _program: &str, _arguments: &[String]) -> Ran {
        Ran::Exited(0)
    }
}
