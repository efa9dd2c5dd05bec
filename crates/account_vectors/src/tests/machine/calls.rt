// Calls in words, and what they are answered in words.
ghost use Rattle.std.specs.Prelude.{◌≤◌, ◌<◌, ◌^◌, All, IfOk, length};
ghost use Rattle.acct_codes.specs.Limits.{most_descriptor};
ghost use Rattle.acct_machine.specs.Access.{IsCall};

use crate::tests::words::{self, word};
use acct_calls::Bytes;
use acct_codes::limit::MOST_DESCRIPTOR;
use acct_machine::{Acted, Args, Call, Face, Handle, Outs, Reply};
use dtyp_sid::Sid;
use std::alloc::Global;
use std::test::Fail;

fn number(digits: &str) -> u32 {
    u32::from_str_radix(digits, 16).ok().unwrap_or(0)
}

/// The number of the handle of a connection and a serial, as in `1.3`.
fn handle(text: &str) -> u128 {
    let (conn, serial) = text.split_once('.').unwrap_or((text, ""));
    (words::number(conn) as u128) << 64 | words::number(serial) as u128
}

fn connect2(access: u32) -> Call
    ensures { IsCall result }
{
    Call {
        face: Face::Samr,
        opnum: 57,
        handle: Handle { number: 0 },
        args: Args::Access(access),
    }
}

fn connect4(access: u32) -> Call
    ensures { IsCall result }
{
    Call {
        face: Face::Samr,
        opnum: 62,
        handle: Handle { number: 0 },
        args: Args::Access(access),
    }
}

fn connect5(access: u32) -> Call
    ensures { IsCall result }
{
    Call {
        face: Face::Samr,
        opnum: 64,
        handle: Handle { number: 0 },
        args: Args::Access(access),
    }
}

fn open_policy2(rooted: bool, access: u32) -> Call
    ensures { IsCall result }
{
    Call {
        face: Face::Lsa,
        opnum: 44,
        handle: Handle { number: 0 },
        args: Args::Policy { rooted, access },
    }
}

fn samr_close(number: u128) -> Call
    ensures { IsCall result }
{
    Call {
        face: Face::Samr,
        opnum: 1,
        handle: Handle { number },
        args: Args::Nothing,
    }
}

fn lsar_close(number: u128) -> Call
    ensures { IsCall result }
{
    Call {
        face: Face::Lsa,
        opnum: 0,
        handle: Handle { number },
        args: Args::Nothing,
    }
}

fn delete(number: u128) -> Call
    ensures { IsCall result }
{
    Call {
        face: Face::Lsa,
        opnum: 34,
        handle: Handle { number },
        args: Args::Nothing,
    }
}

fn create_account(number: u128, sid: Sid) -> Call
    ensures { IsCall result }
{
    sid.keeps_limits();
    Call {
        face: Face::Lsa,
        opnum: 10,
        handle: Handle { number },
        args: Args::AccessSid { access: 1, sid },
    }
}

fn open_account(number: u128, sid: Sid) -> Call
    ensures { IsCall result }
{
    sid.keeps_limits();
    Call {
        face: Face::Lsa,
        opnum: 17,
        handle: Handle { number },
        args: Args::AccessSid {
            access: 0x10001,
            sid,
        },
    }
}

fn list_domains(number: u128) -> Call
    ensures { IsCall result }
{
    Call {
        face: Face::Samr,
        opnum: 6,
        handle: Handle { number },
        args: Args::Page {
            context: 0,
            filter: 0,
            preferred: 0xFFFF,
        },
    }
}

fn open_domain(number: u128, access: u32, sid: Sid) -> Call
    ensures { IsCall result }
{
    sid.keeps_limits();
    Call {
        face: Face::Samr,
        opnum: 7,
        handle: Handle { number },
        args: Args::AccessSid { access, sid },
    }
}

/// The administrator is opened.
fn open_user(number: u128, access: u32) -> Call
    ensures { IsCall result }
{
    Call {
        face: Face::Samr,
        opnum: 34,
        handle: Handle { number },
        args: Args::AccessRid { access, rid: 500 },
    }
}

fn samr_query(number: u128, info: u32) -> Call
    ensures { IsCall result }
{
    Call {
        face: Face::Samr,
        opnum: 3,
        handle: Handle { number },
        args: Args::Bits(info),
    }
}

fn lsar_query(number: u128, info: u32) -> Call
    ensures { IsCall result }
{
    Call {
        face: Face::Lsa,
        opnum: 3,
        handle: Handle { number },
        args: Args::Bits(info),
    }
}

fn samr_set(number: u128, info: u32, bytes: Bytes) -> Call
    requires few { length bytes ≤ most_descriptor }
    requires small { All (λ byte. byte < 2 ^ 8) bytes }
    ensures { IsCall result }
{
    Call {
        face: Face::Samr,
        opnum: 2,
        handle: Handle { number },
        args: Args::Security { info, bytes },
    }
}

fn lsar_set(number: u128, info: u32, bytes: Bytes) -> Call
    requires few { length bytes ≤ most_descriptor }
    requires small { All (λ byte. byte < 2 ^ 8) bytes }
    ensures { IsCall result }
{
    Call {
        face: Face::Lsa,
        opnum: 4,
        handle: Handle { number },
        args: Args::Security { info, bytes },
    }
}

/// The bytes of some digits, where they aren't too many for a call.
fn are_bytes(bytes: &[u8])
    ensures { All (λ byte. byte < 2 ^ 8) bytes.now }
{
    let _count = bytes.len();
}

fn set_bytes(alloc: Global, digits: &str) -> Result<Bytes, Fail>
    ensures few { IfOk result (λ bytes. length bytes ≤ most_descriptor) }
    ensures small { IfOk result (λ bytes. All (λ byte. byte < 2 ^ 8) bytes) }
{
    let bytes = hex::decode(alloc, digits.as_bytes())?;
    are_bytes(&bytes);
    if bytes.len() > MOST_DESCRIPTOR as usize {
        return Err("no call brings so many bytes".into());
    }
    Ok(Bytes::new(bytes))
}

/// A call that sets a descriptor: the named parts, the digits of its bytes, and the handle.
fn set_of(alloc: Global, is_samr: bool, words: &str) -> Result<Call, Fail>
    ensures { IfOk result IsCall }
{
    let (info, rest) = word(words);
    let (digits, rest) = word(rest);
    let bytes = set_bytes(alloc, digits)?;
    if is_samr {
        return Ok(samr_set(handle(rest), number(info), bytes));
    }
    Ok(lsar_set(handle(rest), number(info), bytes))
}

/// The call of some words: what is asked, a number, where there is one, and the handle. The SID is that of the account
/// that is created or opened, and that of the domain.
fn plain_call(words: &str, sid: Sid) -> Call
    ensures { IsCall result }
{
    let (what, rest) = word(words);
    let (first, last) = word(rest);
    let (access, handle, behind) = (number(first), handle(first), handle(last));
    match what {
        "domains" => list_domains(handle),
        "domain" => open_domain(behind, access, sid),
        "user" => open_user(behind, access),
        "query" => samr_query(behind, access),
        "lsar-query" => lsar_query(behind, access),
        "connect2" => connect2(access),
        "connect4" => connect4(access),
        "connect5" => connect5(access),
        "policy" => open_policy2(false, access),
        "rooted" => open_policy2(true, access),
        "close" => samr_close(handle),
        "create" => create_account(handle, sid),
        "open" => open_account(handle, sid),
        "delete" => delete(handle),
        _ => lsar_close(handle),
    }
}

/// The call of some words; the SID is that of the account that is created or opened, and that of the domain.
pub fn call_of(alloc: Global, words: &str, sid: Sid) -> Result<Call, Fail>
    ensures { IfOk result IsCall }
{
    let (what, rest) = word(words);
    match what {
        "set" => set_of(alloc, true, rest),
        "lsar-set" => set_of(alloc, false, rest),
        _ => Ok(plain_call(words, sid)),
    }
}

/// A handle by its connection and its serial.
fn push_handle(text: &mut String, handle: Handle) -> Result<(), Fail> {
    let serial = handle.number % (1 << 64);
    write!(text, " {}.{serial}", handle.number >> 64)?;
    Ok(())
}

/// The bytes of a descriptor in digits.
fn push_bytes(text: &mut String, bytes: &Bytes) -> Result<(), Fail> {
    text.push(' ')?;
    for byte in bytes.as_slice() {
        write!(text, "{byte:02x}")?;
    }
    Ok(())
}

fn push_outs(text: &mut String, outs: &Outs) -> Result<(), Fail> {
    match outs {
        Outs::Handle(handle) => push_handle(text, *handle),
        Outs::Security(Some(bytes)) => push_bytes(text, bytes),
        _ => Ok(()),
    }
}

fn push_reply(text: &mut String, reply: &Reply) -> Result<(), Fail> {
    match reply {
        Reply::Fault(status) => write!(text, "fault {status:x}")?,
        Reply::Done { status, outs } => {
            write!(text, "{status:x}")?;
            push_outs(text, outs)?;
        }
    }
    Ok(())
}

/// What a call was answered.
pub fn push_acted(text: &mut String, acted: &Acted) -> Result<(), Fail> {
    match acted {
        Acted::Reply(reply) => push_reply(text, reply),
        _ => Ok(text.push_str("full")?),
    }
}
