// The command of a run.
ghost use Rattle.std.specs.Prelude.{map, string_bytes, IfOk};
ghost use Rattle.host_world.specs.Programs.{Runs};

use std::alloc::AllocError;
use std::process::{Command, Stdio};

/// The command that runs a program with these arguments as they are. Nothing can be read from its standard input, and
/// what it writes goes to the standard error of this process.
pub(crate) fn command_of(
    rt: &HostRuntime,
    program: &str,
    arguments: &[String],
) -> Result<Command, AllocError>
    ensures { IfOk result (Runs program.now (map string_bytes arguments.now)) }
{
    let mut command = Command::new(rt.alloc(), program)?;
    for argument in arguments {
        command.arg(argument.as_str())?;
    }
    command.stdin(Stdio::null());
    command.stdout(Stdio::from(rt.stderr()));
    Ok(command)
}
