// What is kept and said of a run that didn't end with 0.
ghost use Rattle.std.specs.Prelude.{◌≡◌, IfOk, IfSome, map, string_bytes};
ghost use Rattle.host_world.specs.Programs.{spaced};

use crate::program_end::ProgramEnd;
use std::alloc::{AllocError, Global};
use std::fmt::{self, Display, Formatter};

/// A run that didn't end with 0: the program and its arguments with spaces between them, unless memory ran out for
/// that, and how it ended. The arguments name the change and the account.
#[derive(Debug, Drop)]
pub struct FailedRun {
    pub words: Option<String>,
    pub end: ProgramEnd,
}

// A program and its arguments as one text.
fn words_of(alloc: Global, program: &str, arguments: &[String]) -> Result<String, AllocError>
    ensures { IfOk result (λ words.
        string_bytes words ≡ spaced program.now (map string_bytes arguments.now)) }
{
    let mut words = String::from_str(alloc, program)?;
    for argument in arguments {
        words.push(' ')?;
        words.push_str(argument.as_str())?;
    }
    Ok(words)
}

impl FailedRun {
    /// A run that ended so.
    pub(crate) fn new(
        alloc: Global,
        program: &str,
        arguments: &[String],
        end: ProgramEnd,
    ) -> FailedRun
        ensures words { IfSome result.words (λ words.
            string_bytes words ≡ spaced program.now (map string_bytes arguments.now)) }
        ensures end { result.end ≡ end }
    {
        FailedRun {
            words: words_of(alloc, program, arguments).ok(),
            end,
        }
    }
}

impl Display for FailedRun {
    fn fmt<W: fmt::Write>(&self, f: &mut Formatter<W>) -> fmt::Result {
        let end = self.end;
        match &self.words {
            Some(words) => write!(f, "{words}: {end}"),
            None => write!(f, "a program: {end}"),
        }
    }
}
