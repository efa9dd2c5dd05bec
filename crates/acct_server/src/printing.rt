// The lines that a replay prints.
ghost use Rattle.std.specs.Prelude.{◌≡◌, ◌++◌, ◌∷◌, [], codes, IfOk, OnOk};
ghost use Rattle.std.specs.String.{string_bytes};
ghost use Rattle.std.specs.Fmt.{decimal};
ghost use Rattle.acct_server.specs.Replayed.{Out, line_bytes, closed_line, gone_line, full_line};

use std::alloc::{AllocError, Global};

fn push_number(line: &mut Vec<u8>, alloc: Global, number: u64) -> Result<(), AllocError>
    ensures { OnOk result (line.new.items ≡ line.old.items ++ decimal number) }
{
    let digits = format!(in alloc; "{number}")?;
    line.extend_from_slice(digits.as_bytes())?;
    Ok(())
}

/// Adds the line that brings bytes sent on a connection after the lines that are there.
#[tactic(auto, unfolding(crate::specs::Replayed::out_line))]
pub fn push_out(
    lines: &mut Vec<u8>,
    alloc: Global,
    conn: u32,
    bytes: &[u8],
) -> Result<(), AllocError>
    ensures { OnOk result (lines.new.items ≡ lines.old.items ++ line_bytes (Out conn bytes.now)) }
{
    let digits = hex::encode(alloc, bytes)?;
    lines.extend_from_slice(b"out ")?;
    push_number(lines, alloc, conn as u64)?;
    lines.push(b' ')?;
    lines.extend_from_slice(digits.as_bytes())?;
    lines.push(b'\n')?;
    Ok(())
}

/// The line that says that the server closed a connection, with the place in its stream and the cause of the PDU that
/// it refused.
#[tactic(auto, unfolding(crate::specs::Replayed::closed_line))]
pub fn closed_line(alloc: Global, conn: u32, place: u64, cause: u8) -> Result<Vec<u8>, AllocError>
    ensures { IfOk result (λ line. line.items ≡ closed_line conn place cause) }
{
    let mut line = Vec::new(alloc);
    line.extend_from_slice(b"closed ")?;
    push_number(&mut line, alloc, conn as u64)?;
    line.push(b' ')?;
    push_number(&mut line, alloc, place)?;
    line.push(b' ')?;
    push_number(&mut line, alloc, cause as u64)?;
    line.push(b'\n')?;
    Ok(line)
}

/// The line that says that a connection is gone.
#[tactic(auto, unfolding(crate::specs::Replayed::gone_line))]
pub fn gone_line(alloc: Global, conn: u32) -> Result<Vec<u8>, AllocError>
    ensures { IfOk result (λ line. line.items ≡ gone_line conn) }
{
    let mut line = Vec::new(alloc);
    line.extend_from_slice(b"gone ")?;
    push_number(&mut line, alloc, conn as u64)?;
    line.push(b'\n')?;
    Ok(line)
}

/// The line that says that a connection found the history full.
#[tactic(auto, unfolding(crate::specs::Replayed::full_line))]
pub fn full_line(alloc: Global, conn: u32) -> Result<Vec<u8>, AllocError>
    ensures { IfOk result (λ line. line.items ≡ full_line conn) }
{
    let mut line = Vec::new(alloc);
    line.extend_from_slice(b"full ")?;
    push_number(&mut line, alloc, conn as u64)?;
    line.push(b'\n')?;
    Ok(line)
}
