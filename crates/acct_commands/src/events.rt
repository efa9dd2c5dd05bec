// The events of the generator.
ghost use Rattle.std.specs.Prelude.{◌≡◌, ◌+◌, ◌++◌, ◌<◌, ◌≤◌, ◌^◌, length, All, IfOk, OnOk};
ghost use Rattle.acct_codes.specs.Limits.{most_fragment};
ghost use Rattle.acct_layouts.specs.CallShapes.{CanBeSpelled};
ghost use Rattle.acct_stubs.specs.Calls.{spell};
ghost use Rattle.acct_client.specs.Dialogues.{wire_of, call_bytes};
ghost use Rattle.acct_commands.specs.Generated.{most_users, beginning, data_line, call_line, call_lines, generated};
ghost use Rattle.acct_commands.specs.Generating.{AreAccepted};
ghost use Rattle.acct_commands.specs.steps.Taken.{AreTaken};

use crate::calls::{closing_calls, opening_calls, user_calls};
use acct_calls::{Call, Face, NoMemory};
use acct_client::{bind_bytes, request_bytes};
use acct_codes::limit::MOST_FRAGMENT;
use std::alloc::Global;

/// Adds a line of data that brings a PDU.
#[tactic(auto, unfolding(crate::specs::Generated::data_line))]
fn push_line(alloc: Global, lines: &mut Vec<u8>, pdu: &[u8]) -> Result<(), NoMemory>
    ensures { OnOk result (lines.new.items ≡ lines.old.items ++ data_line pdu.now) }
{
    let digits = hex::encode(alloc, pdu)?;
    lines.extend_from_slice(b"data 1 ")?;
    lines.extend_from_slice(digits.as_bytes())?;
    lines.push(b'\n')?;
    Ok(())
}

/// The same. Where a replay takes the lines it takes the new one, too.
fn push_data(alloc: Global, lines: &mut Vec<u8>, pdu: &[u8]) -> Result<(), NoMemory>
    ensures lines { OnOk result (lines.new.items ≡ lines.old.items ++ data_line pdu.now) }
    ensures taken { OnOk result (AreTaken lines.old.items → AreTaken lines.new.items) }
{
    push_line(alloc, lines, pdu)?;
    Ok(())
}

/// The stub of a call.
fn stub_of(alloc: Global, call: &Call) -> Result<Vec<u8>, NoMemory>
    requires { CanBeSpelled call.now }
    ensures { IfOk result (λ stub. stub.items ≡ spell (wire_of call.now.face) call.now) }
{
    match call.face {
        Face::Samr => samr_wire::write_call(alloc, call),
        Face::Lsa => lsa_wire::write_call(alloc, call),
    }
}

/// The request of a call.
#[tactic(auto, unfolding(acct_client::specs::Dialogues::call_bytes))]
fn call_bytes(alloc: Global, id: u32, call: &Call) -> Result<Vec<u8>, NoMemory>
    requires { CanBeSpelled call.now }
    ensures { IfOk result (λ bytes. bytes.items ≡ call_bytes id most_fragment call.now) }
{
    let stub = stub_of(alloc, call)?;
    request_bytes(alloc, id, call.face, call.opnum, MOST_FRAGMENT, &stub)
}

/// Adds the line of a call with this call id.
#[tactic(auto, unfolding(crate::specs::Generated::call_line))]
fn push_call(alloc: Global, lines: &mut Vec<u8>, id: u32, call: &Call) -> Result<(), NoMemory>
    requires { CanBeSpelled call.now }
    ensures lines { OnOk result (lines.new.items ≡ lines.old.items ++ call_line id call.now) }
    ensures taken { OnOk result (AreTaken lines.old.items → AreTaken lines.new.items) }
{
    push_data(alloc, lines, &call_bytes(alloc, id, call)?)
}

/// The lines that open the connection and bring the bind.
#[tactic(auto, unfolding(crate::specs::Generated::beginning))]
fn beginning(alloc: Global) -> Result<Vec<u8>, NoMemory>
    ensures lines { IfOk result (λ lines. lines.items ≡ beginning) }
    ensures taken { IfOk result (λ lines. AreTaken lines.items) }
{
    let mut lines = b"open 1 a\n".to_vec(alloc)?;
    push_data(alloc, &mut lines, &bind_bytes(alloc)?)?;
    Ok(lines)
}

/// Adds the lines of calls, of which the first has this call id, and answers the call id of the next.
fn push_calls(alloc: Global, lines: &mut Vec<u8>, id: u32, calls: &[Call]) -> Result<u32, NoMemory>
    requires fit { All CanBeSpelled calls.now }
    requires few { id + length calls.now < 2 ^ 32 }
    ensures lines { OnOk result (lines.new.items ≡ lines.old.items ++ call_lines id calls.now) }
    ensures taken { OnOk result (AreTaken lines.old.items → AreTaken lines.new.items) }
    ensures next { IfOk result (λ next. next ≡ id + length calls.now) }
{
    let mut next = id;
    for call in calls {
        push_call(alloc, lines, next, call)?;
        next += 1;
    }
    Ok(next)
}

/// The events with so many users: each line is written once, after those before it, and a replay accepts each of them.
pub fn generated(alloc: Global, users: u32) -> Result<Vec<u8>, NoMemory>
    requires { users ≤ most_users }
    ensures lines { IfOk result (λ events. events.items ≡ generated users) }
    ensures accepted { IfOk result (λ events. AreAccepted events.items) }
{
    let mut lines = beginning(alloc)?;
    let mut id = push_calls(alloc, &mut lines, 2, &opening_calls(alloc)?)?;
    for before in 0..users {
        id = push_calls(alloc, &mut lines, id, &user_calls(alloc, before + 1)?)?;
    }
    push_calls(alloc, &mut lines, id, &closing_calls(alloc, users)?)?;
    Ok(lines)
}
