// Commands of the client. The answers are lines of replays, with the call ids of a call; those of `domains` come from
// another writer of the layouts.
use super::left::{ended, is_left, push_asked, push_count, written};
use super::lines::{column, joined, line_of, lines_of};
use super::worlds::{Making, Told, caller_of, making_of, world_of_caller};
use std::alloc::Global;
use std::process::Abort;
use std::sync::Wait;
use std::test::Fail;
use std::thread::Threads;

/// Lines of digits of what a peer sends, and lines that are printed, by their names.
pub const LINES: &str =
    "CALL-ACK 05000c03100000005000000001000000b810b81001000000010000000200000000000000045d888aeb1cc9119fe80800\
    2b10486002000\
    00000000000045d888aeb1cc9119fe808002b10486002000000
CALL-CONNECTED 050002031000000030000000020000001800000000000000000000000000000000000100000000000000000100000000
CALL-CORP 05000203100000003c000000030000002400000000000000000002000400000001040000000000051500000001000000020000000300\
    000000000000
CALL-DOMAIN 050002031000000030000000040000001800000000000000000000000000000000000100000000000000000200000000
CALL-ALICE 0500020310000000380000000500000020000000000000000000000000000000000001000000000000000003ff070f00e8030000000\
    00000
CALL-EXISTS 0500020310000000380000000500000020000000000000000000000000000000000000000000000000000000000000000000000063\
    0000c0
CALL-ZEROS 00000000000000000000000000000000
DOMAINS-REQUESTS 05000b03100000007400000001000000b810b810000000000200000000000100785734123412cdabef000123456789ac01000\
    000045d888aeb1cc9119fe808002b1048600200000001000100785734123412cdabef000123456789ab00000000045d888aeb1cc9119fe808\
    002b1048600200000005000003100000002000000002000000080000000000390000000000100000000500000310000000340000000300000\
    01c00000000000600000000001415161718191a1b1c1d1e1f202122230000000000100000
DOMAINS-ANSWERS 05000c03100000005000000001000000b810b81001000000010000000200000000000000045d888aeb1cc9119fe808002b1048\
    600200000000000000045d888aeb1cc9119fe808002b104860020000000500020310000000300000000200000018000000000000001011121\
    31415161718191a1b1c1d1e1f202122230000000005000203100000007c00000003000000640000000000000002000000fec7000002000000\
    9aec000002000000000000000800080035770000000000000e000e00ac73000004000000000000000400000043004f0052005000070000000\
    0000000070000004200550049004c00540049004e00bfbf0200000000000000
PRINTED-CORP CORP
PRINTED-BUILTIN BUILTIN
PRINTED-CREATED created 1000
PRINTED-REFUSED refused 0xc0000063";

/// Each row: how it is made, the words, the peer's answers, the lines printed, and the status.
const CALLS: &str =
    "|call tcp:127.0.0.1:4045 domains|DOMAINS-ANSWERS|PRINTED-CORP PRINTED-BUILTIN|Done
|call unix:/run/account domains|DOMAINS-ANSWERS|PRINTED-CORP PRINTED-BUILTIN|Done
|call tcp:h:1 create-user CORP alice|CALL-ACK CALL-CONNECTED CALL-CORP CALL-DOMAIN CALL-ALICE|PRINTED-CREATED|Done
|call tcp:h:1 create-user CORP Guest|CALL-ACK CALL-CONNECTED CALL-CORP CALL-DOMAIN CALL-EXISTS|PRINTED-REFUSED|\
    Refused(3221225571)
|call tcp:h:1 domains|CALL-ZEROS||PeerBytes(0)
|call tcp:h:1 domains|CALL-ACK||PeerFault
l1|call tcp:h:1 domains|DOMAINS-ANSWERS||PeerFault
l2|call tcp:h:1 domains|DOMAINS-ANSWERS||PeerFault
t1|call tcp:h:1 domains|DOMAINS-ANSWERS||PeerFault
t2|call tcp:h:1 domains|DOMAINS-ANSWERS||WriteFault
w1|call tcp:h:1 domains|DOMAINS-ANSWERS||WriteFault
|call tcp:h:1|||Usage
|call tcp:h domains|||Usage
|call tcp:h:0 domains|||Usage
|call h:1 domains|||Usage
|call tcp:h:1 -domains|||Usage
|call tcp:h:1 domains CORP|||Usage
|call tcp:h:1 create-user CORP|||Usage";

/// How words over a world ended, how many periods there are, and what was written.
fn left<R: Threads + Wait + Sync>(
    rt: &R,
    alloc: Global,
    words: &str,
    world: &mut Told,
) -> Result<String, Fail> {
    let mut text = ended(rt, alloc, words, world)?;
    push_count(&mut text, world.periods().len())?;
    text.push('|')?;
    text.push_str(written(world))?;
    Ok(text)
}

/// The same over a caller with one link, whose peer sends the bytes of these lines.
fn left_by<R: Threads + Wait + Sync>(
    rt: &R,
    alloc: Global,
    making: Making,
    words: &str,
    answers: &str,
) -> Result<String, Fail> {
    let caller = caller_of(alloc, answers, making)?;
    let mut world = world_of_caller(alloc, caller, making)?;
    let text = left(rt, alloc, words, &mut world);
    drop(world);
    text
}

/// What is left, of the columns of a row: no period.
fn wanted_of(alloc: Global, row: &str) -> Result<String, Fail> {
    let (lines, status) = column(row);
    let lines = lines_of(alloc, lines)?;
    joined(alloc, &[status.trim(), " 0|", lines.as_str()])
}

fn tell<R: Abort + Threads + Wait + Sync>(rt: &R, alloc: Global, row: &str) -> Result<(), Fail> {
    let (making, rest) = column(row);
    let (words, rest) = column(rest);
    let (answers, rest) = column(rest);
    let left = left_by(rt, alloc, making_of(making), words, answers)?;
    let wanted = wanted_of(alloc, rest)?;
    is_left(rt, left.as_str(), wanted.as_str(), row);
    Ok(())
}

#[test]
fn commands_of_the_client(rt: HostRuntime) -> Result<(), Fail> {
    for row in CALLS.lines() {
        tell(&rt, rt.alloc(), row)?;
    }
    Ok(())
}

/// What a world was asked for, for how many addresses its caller gave a link, and the digits of what was sent over the
/// link that was given back.
fn push_dialogue(alloc: Global, text: &mut String, world: &Told) -> Result<(), Fail> {
    text.push('|')?;
    push_asked(text, world.asked())?;
    push_count(
        text,
        world.caller().map_or(0, |caller| caller.addresses().len()),
    )?;
    text.push('|')?;
    let sent = world.talked().map_or(&b""[..], |link| link.as_slice());
    text.push_str(hex::encode(alloc, sent)?.as_str())?;
    Ok(())
}

fn dialogue<R: Threads + Wait + Sync>(
    rt: &R,
    alloc: Global,
    world: &mut Told,
) -> Result<String, Fail> {
    let mut text = ended(rt, alloc, "call tcp:127.0.0.1:4045 domains", world)?;
    push_dialogue(alloc, &mut text, world)?;
    Ok(text)
}

fn dialogue_by<R: Threads + Wait + Sync>(
    rt: &R,
    alloc: Global,
    answers: &str,
) -> Result<String, Fail> {
    let making = making_of("");
    let caller = caller_of(alloc, answers, making)?;
    let mut world = world_of_caller(alloc, caller, making)?;
    let text = dialogue(rt, alloc, &mut world);
    drop(world);
    text
}

#[test]
fn a_call_takes_the_caller_and_then_the_sink(rt: HostRuntime) -> Result<(), Fail> {
    let dialogue = dialogue_by(&rt, rt.alloc(), "DOMAINS-ANSWERS")?;
    let (told, sent) = dialogue.as_str().rsplit_once('|').unwrap_or(("", ""));
    assert_eq!(rt; told, "Done|caller;sink; 1");
    assert_eq!(rt; sent, line_of("DOMAINS-REQUESTS"));
    Ok(())
}
