// The lines of an audit.
ghost use Rattle.std.specs.Prelude.{◌≡◌, ◌++◌, ◌∷◌, IfOk, OnOk};
ghost use Rattle.std.specs.String.{string_bytes};
ghost use Rattle.acct_commands.specs.AuditLines.{access_text, trace_line, trace_lines};

use crate::NoMemory;
use dtyp_sid::push_hexadecimal;
use grant_audit::Trace;
use std::alloc::Global;

/// Adds a space and an access.
fn push_access(line: &mut String, access: u32) -> Result<(), NoMemory>
    ensures { OnOk result (string_bytes line.new ≡ string_bytes line.old ++ 32 ∷ access_text access) }
{
    line.push_str(" 0x")?;
    push_hexadecimal(line, 8, u64::from(access))
}

/// Adds the line of a trace.
#[tactic(auto, unfolding(crate::specs::AuditLines::trace_line))]
fn push_trace(alloc: Global, lines: &mut Vec<u8>, trace: &Trace) -> Result<(), NoMemory>
    ensures { OnOk result (lines.new.items ≡ lines.old.items ++ trace_line trace.now) }
{
    let Trace {
        entry,
        conn,
        serial,
        opened,
        grant,
        needed,
    } = *trace;
    let mut line = format!(in alloc; "{entry} {conn} {serial} {opened}")?;
    push_access(&mut line, grant)?;
    push_access(&mut line, needed)?;
    line.push('\n')?;
    lines.extend_from_slice(line.as_bytes())
}

/// A line for each trace, in order.
pub fn trace_lines(alloc: Global, traces: &[Trace]) -> Result<Vec<u8>, NoMemory>
    ensures { IfOk result (λ lines. lines.items ≡ trace_lines traces.now) }
{
    let mut lines = Vec::new(alloc);
    for trace in traces {
        push_trace(alloc, &mut lines, trace)?;
    }
    Ok(lines)
}
