// Calls as stubs.
ghost use Rattle.std.specs.Prelude.{◌≡◌, IfOk, OnOk, Ok};
ghost use Rattle.ndr_types.specs.Outcomes.{ReadsIfRoom};
ghost use Rattle.acct_calls.specs.declared.calls.Call.{Call};
ghost use Rattle.acct_stubs.specs.Calls.{ReadsAllIfRoom, IsCallOf, IsServed, Spells, call_at, class_behind};
ghost use Rattle.acct_stubs.specs.Calls.{is_withheld};
ghost use Rattle.acct_stubs.specs.Calls.{carries_password, spell, stub_of};

use crate::arguments::{read_arguments, write_arguments};
use crate::interface::Interface;
use crate::{NoMemory, WireError};
use acct_calls::{Args, Call, Handle, ZERO_HANDLE};
use acct_layouts::{Fields, is_password, layout_of};
use ndr_core::{In, NdrError, Out};
use ndr_types::{read_handle, write_handle};
use std::alloc::Global;

/// Whether a class that the fields bring carries a password.
fn has_password(fields: Fields, class: u16) -> bool
    ensures { result ≡ carries_password fields class }
{
    match fields {
        Fields::Class(subject) => is_password(subject, class),
        Fields::Put(subject) => is_password(subject, class),
        _ => false,
    }
}

/// Whether the call of a stub isn't served for its class.
#[tactic(auto, unfolding(crate::specs::Calls::class_behind))]
fn withheld(fields: Fields, stub: &[u8]) -> bool
    ensures { result ≡ is_withheld fields stub.now }
{
    let mut from = In::new(stub);
    let Ok(_handle) = read_handle(&mut from) else {
        return false;
    };
    let Ok(class) = from.u16() else {
        return false;
    };
    has_password(fields, class)
}

#[tactic(auto, unfolding(crate::specs::Calls::stub_of))]
fn read_stub<I: Interface>(
    alloc: Global,
    from: &mut In<'_>,
    fields: Fields,
) -> Result<(Handle, Args), NdrError>
    ensures { ReadsIfRoom result from.new ((stub_of I.wire fields).read from.old) }
{
    let handle = match fields {
        Fields::Connect(_) => ZERO_HANDLE,
        _ => read_handle(from)?,
    };
    let args = read_arguments::<I>(alloc, from, fields)?;
    Ok((handle, args))
}

#[tactic(auto, unfolding(crate::specs::Calls::call_at))]
fn call_in<I: Interface>(alloc: Global, opnum: u16, stub: &[u8]) -> Result<Call, WireError>
    ensures { ReadsAllIfRoom result (call_at I.wire opnum stub.now) }
{
    let face = I::face();
    let Some(layout) = layout_of(face, opnum) else {
        return Err(WireError::NotServed(opnum));
    };
    if withheld(layout.fields, stub) {
        return Err(WireError::NotServed(opnum));
    }
    let (handle, args) = read_stub::<I>(alloc, &mut In::new(stub), layout.fields)?;
    Ok(Call {
        face,
        opnum,
        handle,
        args,
    })
}

/// The call that a stub spells. Bytes after it are taken. `NotServed` is answered exactly off the table, and for a
/// class that carries a password; else `BadStub` exactly where no prefix of the stub spells a call, with the place of
/// the first field that has no reading.
pub fn read_call<I: Interface>(alloc: Global, opnum: u16, stub: &[u8]) -> Result<Call, WireError>
    // What is read is of this opnum, served and spelled.
    ensures found { IfOk result
        (λ call. (call.opnum ≡ opnum) × IsServed I.wire opnum stub.now × Spells I.wire call stub.now) }
    // What is served and spelled is read, unless there is no memory.
    ensures only { (call : Call) → call.opnum ≡ opnum → IsServed I.wire opnum stub.now → Spells I.wire call stub.now
        → ReadsAllIfRoom result (Ok call) }
    // Why there is no call.
    ensures exact { ReadsAllIfRoom result (call_at I.wire opnum stub.now) }
    // What is read can be written.
    ensures spelled { IfOk result (λ call. IsCallOf I.wire call) }
{
    call_in::<I>(alloc, opnum, stub)
}

#[tactic(auto, unfolding(crate::specs::Calls::stub_of))]
fn write_stub<I: Interface>(to: &mut Out, fields: Fields, call: &Call) -> Result<(), NoMemory>
    requires { (stub_of I.wire fields).Fits (call.now.handle, call.now.args) }
    ensures { OnOk result (to.new ≡ (stub_of I.wire fields).write (call.now.handle, call.now.args) to.old) }
{
    match fields {
        Fields::Connect(_) => (),
        _ => write_handle(to, &call.handle)?,
    }
    write_arguments::<I>(to, fields, &call.args)
}

/// The stub of a call of the interface that some served stub spells.
#[tactic(auto, unfolding(crate::specs::Calls::spell))]
pub fn write_call<I: Interface>(alloc: Global, call: &Call) -> Result<Vec<u8>, NoMemory>
    requires { IsCallOf I.wire call.now }
    ensures { IfOk result (λ stub. stub.items ≡ spell I.wire call.now) }
{
    let Some(layout) = layout_of(I::face(), call.opnum) else {
        unreachable!()
    };
    let mut to = Out::new(alloc);
    write_stub::<I>(&mut to, layout.fields, call)?;
    Ok(to.into_bytes())
}
