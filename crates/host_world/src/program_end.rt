// How a program of the system ended.
ghost use Rattle.std.specs.Prelude.{◌≡◌};
ghost use Rattle.host_world.specs.Programs.{ran_of};

use account_hooks::Ran;
use std::io;
use std::process::ExitStatus;
use thiserror::Error;

/// How a run of a program of the system ended.
#[derive(Clone, Copy, Debug, Error)]
pub enum ProgramEnd {
    /// The program was started, and this is the system's word on its end: a code, or the signal that ended it.
    #[error("{0}")]
    Ended(ExitStatus),
    #[error("it can't be started ({0}); see that it is there and may be run")]
    NotStarted(io::Error),
    #[error("it was started, and its end isn't known ({0})")]
    NotWaited(io::Error),
}

impl ProgramEnd {
    /// What a spawner answers for it: the code of a program that ended by itself, and else that the run failed.
    pub fn ran(self) -> Ran
        ensures { result ≡ ran_of self }
    {
        match self {
            ProgramEnd::Ended(status) => match status.code() {
                Some(code) => Ran::Exited(code.unsigned_abs()),
                None => Ran::Failed,
            },
            ProgramEnd::NotStarted(_) | ProgramEnd::NotWaited(_) => Ran::Failed,
        }
    }
}
