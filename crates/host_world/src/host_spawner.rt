// What runs programs of the system.
ghost use Rattle.std.specs.Prelude.{◌≡◌, ◌≤◌, true, false, not, None, IsSomeAnd, map, string_bytes};
ghost use Rattle.acct_keeper.specs.Faults.{faults_after};
ghost use Rattle.account_hooks.specs.Drains.{ended_well};
ghost use Rattle.host_world.specs.Programs.{ran_of, IsOfRun};

use crate::failed_run::FailedRun;
use crate::program_end::ProgramEnd;
use crate::run_command::command_of;
use account_hooks::{Ran, Spawner};
use host_lines::Lines;

/// Runs programs of the system, one at a time, each to its end, however long that takes. It tells no contract what it
/// ran. It says each run that didn't end with 0 on the standard error, and keeps the last of them.
#[derive(Drop)]
pub struct HostSpawner {
    rt: HostRuntime,
    lines: Lines,
    failed: u64,
    trouble: Option<FailedRun>,
}

// Starts a program and waits for it.
fn run_program(rt: &HostRuntime, program: &str, arguments: &[String]) -> ProgramEnd {
    let mut command = match command_of(rt, program, arguments) {
        Ok(command) => command,
        Err(error) => return ProgramEnd::NotStarted(error.into()),
    };
    let mut child = match command.spawn(rt) {
        Ok(child) => child,
        Err(error) => return ProgramEnd::NotStarted(error),
    };
    match child.wait() {
        Ok(status) => ProgramEnd::Ended(status),
        Err(error) => ProgramEnd::NotWaited(error),
    }
}

impl HostSpawner {
    /// A spawner that has run nothing.
    pub fn new(rt: &HostRuntime) -> HostSpawner
        ensures failed { result.failed ≡ 0 }
        ensures trouble { result.trouble ≡ None }
    {
        HostSpawner {
            rt: *rt,
            lines: Lines::new(),
            failed: 0,
            trouble: None,
        }
    }

    // Counts a run that didn't end with 0, says it and keeps it.
    fn fail(&mut self, program: &str, arguments: &[String], end: ProgramEnd)
        ensures count { self.new.failed ≡ faults_after true self.old.failed }
        ensures later { self.old.failed ≤ self.new.failed }
        ensures kept { IsSomeAnd self.new.trouble (IsOfRun program.now (map string_bytes arguments.now) (ran_of end)) }
    {
        self.failed = self.failed.saturating_add(1);
        let run = FailedRun::new(self.rt.alloc(), program, arguments, end);
        self.lines.say(&self.rt, format_args!("{run}"));
        self.trouble = Some(run);
    }

    /// The last run that didn't end with 0.
    pub fn into_trouble(self) -> Option<FailedRun>
        ensures { result ≡ self.trouble }
    {
        self.trouble
    }
}

impl Spawner for HostSpawner {
    ghost runs = { λ _. None };

    ghost failed = { λ spawner. spawner.failed };

    fn run(&mut self, program: &str, arguments: &[String]) -> Ran
        ensures failed { self.new.failed ≡ faults_after (not (ended_well result)) self.old.failed }
        ensures later { self.old.failed ≤ self.new.failed }
        ensures kept { ended_well result ≡ true → self.new.trouble ≡ self.old.trouble }
        ensures failed_run { ended_well result ≡ false
            → IsSomeAnd self.new.trouble (IsOfRun program.now (map string_bytes arguments.now) result) }
    {
        let end = run_program(&self.rt, program, arguments);
        let ran = end.ran();
        if !ran.is_well() {
            self.fail(program, arguments, end);
        }
        ran
    }
}
