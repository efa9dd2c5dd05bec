// Two connections of four calls each, on two doors that are served side by side, where each read, each write, each
// `next` and each commit fails in turn. Which connection is the first one, and which user gets the first RID, is as it
// comes: what each link has to be answered is worked out from the history of the very run.
ghost use Rattle.std.specs.Prelude.{◌≡◌, ◌+◌, ◌<◌, ◌≤◌, All, length, vec_len, IfOk};
ghost use Rattle.acct_config.specs.Spelled.{IsRightConfig};
ghost use Rattle.acct_links.specs.Links.{IsNew};

use super::clients::Client;
use super::words::configured;
use crate::tests::lines::column;
use crate::tests::serving::number_of;
use acct_keeper::{MemoryKeeper, SteadyKeeper};
use acct_links::{Link, MemoryDoor, SteadyDoor};
use acct_machine::{Config, Entry, Verdict};
use acct_server::{Ended, Served, serve};
use std::alloc::Global;
use std::process::Abort;
use std::sync::Wait;
use std::test::Fail;
use std::thread::Threads;

/// Each row: what fails, if anything: the call of the first door's link (a) or of the second door's (b), where reads
/// and writes are counted together from 1, the `next` of the first door (n) or of the second (m), of which the second
/// call finds no link and cannot fail, or a call of the keeper (k), which loads first and then stores the rows of a new
/// store. Then how serving ends, how many commits of calls failed, and of each door's link how its session ends, how
/// many answers of its transcript it got, and how many calls were entered. A read comes before each of the five
/// requests and at the end, a write after each.
const ROWS: &str = "|Done|0|End 5 4;|End 5 4;
a1|Done|0|ReadFault 0 0;|End 5 4;
a2|Done|0|WriteFault 0 0;|End 5 4;
a3|Done|0|ReadFault 1 0;|End 5 4;
a4|Done|0|WriteFault 1 1;|End 5 4;
a5|Done|0|ReadFault 2 1;|End 5 4;
a6|Done|0|WriteFault 2 2;|End 5 4;
a7|Done|0|ReadFault 3 2;|End 5 4;
a8|Done|0|WriteFault 3 3;|End 5 4;
a9|Done|0|ReadFault 4 3;|End 5 4;
a10|Done|0|WriteFault 4 4;|End 5 4;
a11|Done|0|ReadFault 5 4;|End 5 4;
b1|Done|0|End 5 4;|ReadFault 0 0;
b2|Done|0|End 5 4;|WriteFault 0 0;
b3|Done|0|End 5 4;|ReadFault 1 0;
b4|Done|0|End 5 4;|WriteFault 1 1;
b5|Done|0|End 5 4;|ReadFault 2 1;
b6|Done|0|End 5 4;|WriteFault 2 2;
b7|Done|0|End 5 4;|ReadFault 3 2;
b8|Done|0|End 5 4;|WriteFault 3 3;
b9|Done|0|End 5 4;|ReadFault 4 3;
b10|Done|0|End 5 4;|WriteFault 4 4;
b11|Done|0|End 5 4;|ReadFault 5 4;
n1|DoorFault|0||End 5 4;
m1|DoorFault|0|End 5 4;|
n1 m1|DoorFault|0||
k1|StoreFault|0||
k2|StoreFault|0||
k3|Done|1|End 5 4;|End 5 4;
k4|Done|1|End 5 4;|End 5 4;";

/// What a client asks, a request a line: a bind, an opening of the server, then of its domain, the creation of a user,
/// whose five letters stand in place of N, and the closing of its handle. H is the handle of the answer before.
const REQUESTS: &str =
    "05000b03100000004800000001000000b810b810000000000100000000000100785734123412cdabef000123456789ac01000000045d888aeb\
    1cc9119fe808002b10486002000000
0500000310000000200000000200000008000000000039000000000000000002
05000003100000004c000000030000003400000000000700H0000000204000000010400000000000515000000010000000200000003000000
050000031000000054000000040000003c00000000003200H0a000a0000000200050000000000000005000000N00001000000000000002
05000003100000002c000000050000001400000000000100H";

/// The answers, with the connection's number in place of G and of C, and a RID in place of R, low byte first.
const BOUND: &str =
    "05000c03100000003800000001000000b810b810G010000000100000000000000045d888aeb1cc9119fe808002b10486002000000";

const CONNECTED: &str =
    "05000203100000003000000002000000180000000000000000000000000000000000C000000000000000100000000";

const OPENED: &str =
    "05000203100000003000000003000000180000000000000000000000000000000000C000000000000000200000000";

const CREATED: &str =
    "05000203100000003800000004000000200000000000000000000000000000000000C0000000000000003ff070f00R00000000";

/// STATUS_INTERNAL_DB_ERROR, of a creation whose commit failed.
const NOT_STORED: &str =
    "05000203100000003800000004000000200000000000000000000000000000000000000000000000000000000000000000000000580100c0";

const CLOSED: &str =
    "050002031000000030000000050000001800000000000000000000000000000000000000000000000000000000000000";

/// A fault, since a creation that was refused gives no handle.
const NO_HANDLE: &str = "0500032310000000200000000500000000000000000000001a00001c00000000";

/// An answer, with the number of its connection and a RID.
fn filled(alloc: Global, answer: &str, conn: u32, rid: u32) -> Result<String, Fail> {
    let number = conn.to_le_bytes();
    let group = hex::encode(alloc, &number)?;
    let short = hex::encode(alloc, &[number[0], number[1]])?;
    let rid = hex::encode(alloc, &rid.to_le_bytes())?;
    let text = answer.replace(alloc, "G", group.as_str())?;
    let text = text.as_str().replace(alloc, "C", short.as_str())?;
    Ok(text.as_str().replace(alloc, "R", rid.as_str())?)
}

/// The answer to a call, where the connection's creation was made or wasn't refused yet, or where it was refused.
fn answer_to(opnum: u16, is_made: bool) -> &'static str {
    match opnum {
        57 => CONNECTED,
        7 => OPENED,
        50 if is_made => CREATED,
        50 => NOT_STORED,
        _ if is_made => CLOSED,
        _ => NO_HANDLE,
    }
}

/// A call of a history: its connection, its opnum, and whether it ran or the store refused it.
#[derive(Clone, Copy)]
struct Step {
    conn: u32,
    opnum: u16,
    has_run: bool,
}

/// The call of an entry, where it is one.
fn step_of(entry: &Entry) -> Option<Step> {
    match entry {
        Entry::Called {
            conn,
            call,
            verdict,
            ..
        } => Some(Step {
            conn: *conn,
            opnum: call.opnum,
            has_run: *verdict == Verdict::Ran,
        }),
        _ => None,
    }
}

fn push_answer(
    text: &mut String,
    alloc: Global,
    answer: &str,
    conn: u32,
    rid: u32,
) -> Result<(), Fail> {
    let answer = filled(alloc, answer, conn, rid)?;
    text.push('\n')?;
    text.push_str(answer.as_str())?;
    Ok(())
}

/// What a connection is answered by a history, an answer a line. The RIDs count up from 1000, one for each creation of
/// the history that was made.
fn transcript(alloc: Global, conn: u32, history: &[Entry]) -> Result<String, Fail> {
    let mut text = filled(alloc, BOUND, conn, 0)?;
    let mut rid: u32 = 1000;
    let mut is_made = true;
    for entry in history {
        if let Some(step) = step_of(entry) {
            if step.conn == conn {
                is_made = is_made && step.has_run;
                push_answer(&mut text, alloc, answer_to(step.opnum, is_made), conn, rid)?;
            }
            rid = rid.wrapping_add((step.has_run && step.opnum == 50) as u32);
        }
    }
    Ok(text)
}

/// How many answers from the start of a transcript these digits are, or none where they are something else.
fn count_of(alloc: Global, transcript: &str, digits: &str) -> Result<Option<u32>, Fail> {
    let mut first = String::new(alloc);
    let mut count: u32 = 0;
    for answer in transcript.lines() {
        if first.as_str() == digits {
            return Ok(Some(count));
        }
        first.push_str(answer)?;
        count = count.wrapping_add(1);
    }
    Ok(if first.as_str() == digits {
        Some(count)
    } else {
        None
    })
}

/// How many calls of a connection were entered.
fn calls_of(conn: u32, history: &[Entry]) -> u32 {
    let mut calls: u32 = 0;
    for entry in history {
        if let Some(step) = step_of(entry) {
            calls = calls.wrapping_add((step.conn == conn) as u32);
        }
    }
    calls
}

/// How many calls were refused by the store.
fn refused_in(history: &[Entry]) -> u32 {
    let mut refused: u32 = 0;
    for entry in history {
        if let Some(step) = step_of(entry) {
            refused = refused.wrapping_add(!step.has_run as u32);
        }
    }
    refused
}

fn push_end(text: &mut String, conn: u32, ends: &[Ended]) -> Result<(), Fail> {
    for ended in ends {
        if ended.conn == conn {
            write!(text, "{:?} ", ended.end)?;
        }
    }
    Ok(())
}

/// The number of the answers that these bytes are, by the transcript of the connection, or their digits.
fn push_answers(
    text: &mut String,
    alloc: Global,
    transcript: &str,
    written: &[u8],
) -> Result<(), Fail> {
    let digits = hex::encode(alloc, written)?;
    match count_of(alloc, transcript, digits.as_str())? {
        Some(count) => write!(text, "{count}")?,
        None => text.push_str(digits.as_str())?,
    }
    Ok(())
}

/// How the session of a link ended, how many answers it got, and how many calls were entered.
fn push_link(
    text: &mut String,
    alloc: Global,
    served: &Served<MemoryKeeper>,
    conn: u32,
    written: &[u8],
) -> Result<(), Fail> {
    push_end(text, conn, served.ends.as_slice())?;
    let history = served.history.as_slice();
    let transcript = transcript(alloc, conn, history)?;
    push_answers(text, alloc, transcript.as_str(), written)?;
    let calls = calls_of(conn, history);
    write!(text, " {calls};")?;
    Ok(())
}

fn push_door(
    text: &mut String,
    alloc: Global,
    served: &Served<MemoryKeeper>,
    door: &MemoryDoor<Client>,
) -> Result<(), Fail> {
    text.push('|')?;
    for (conn, client) in door.as_slice() {
        push_link(text, alloc, served, *conn, client.as_slice())?;
    }
    Ok(())
}

/// What serving left, in the words of a row.
fn left(
    alloc: Global,
    served: &Served<MemoryKeeper>,
    doors: &[MemoryDoor<Client>],
) -> Result<String, Fail> {
    let refused = refused_in(served.history.as_slice());
    let mut text = format!(in alloc; "{:?}|{refused}", served.status)?;
    for door in doors {
        push_door(&mut text, alloc, served, door)?;
    }
    Ok(text)
}

/// A client that makes a user with this name, in digits.
fn client_of(alloc: Global, name: &str, failing: u64) -> Result<Client, Fail>
    ensures { IfOk result (λ link. IsNew (⟦<Client as Link>⟧.told link)) }
{
    Ok(Client::new(alloc, REQUESTS.replace(alloc, "N", name)?, failing))
}

fn links_of(alloc: Global, name: &str, failing: u64) -> Result<Vec<Client>, Fail>
    ensures { IfOk result (λ links. All (λ link. IsNew (⟦<Client as Link>⟧.told link)) links.items) }
{
    let mut links = Vec::new(alloc);
    links.push(client_of(alloc, name, failing)?)?;
    Ok(links)
}

/// A door of the first listener with one client. One call of the door fails, or none.
fn door_of(
    alloc: Global,
    name: &str,
    failing: u64,
    door_failing: u64,
) -> Result<MemoryDoor<Client>, Fail>
    ensures { IfOk result (λ door. door.door.listener ≡ 0) }
{
    let failing_calls = [door_failing].to_vec(alloc)?;
    let links = links_of(alloc, name, failing)?;
    Ok(MemoryDoor::new(SteadyDoor::new(alloc, 0, links)?, failing_calls))
}

/// Puts such a door after the others.
fn put_door(
    doors: &mut Vec<MemoryDoor<Client>>,
    alloc: Global,
    name: &str,
    failing: u64,
    door_failing: u64,
) -> Result<(), Fail>
    requires { All (λ door. door.door.listener ≡ 0) doors.old.items }
    ensures first { All (λ door. door.door.listener ≡ 0) doors.new.items }
    ensures few { vec_len doors.new ≤ vec_len doors.old + 1 }
{
    doors.push(door_of(alloc, name, failing, door_failing)?)?;
    Ok(())
}

/// The name alice, and the name carol.
const NAMES: [&str; 2] = ["61006c00690063006500", "6300610072006f006c00"];

/// The doors of a row, with one client each.
fn doors_of(alloc: Global, words: &str) -> Result<Vec<MemoryDoor<Client>>, Fail>
    ensures { IfOk result (λ doors. (vec_len doors ≤ 1024) × All (λ door. door.door.listener ≡ 0) doors.items) }
{
    let mut doors = Vec::new(alloc);
    let (first, second) = (number_of(words, 'a'), number_of(words, 'b'));
    put_door(&mut doors, alloc, NAMES[0], first, number_of(words, 'n'))?;
    put_door(&mut doors, alloc, NAMES[1], second, number_of(words, 'm'))?;
    Ok(doors)
}

/// What serving leaves of a row.
fn told<R: Threads + Wait + Sync>(
    rt: &R,
    alloc: Global,
    config: &Config,
    words: &str,
) -> Result<String, Fail>
    requires right { IsRightConfig config.now }
    requires listener { 0 < length config.now.listeners }
{
    let failing = [number_of(words, 'k')].to_vec(alloc)?;
    let mut doors = doors_of(alloc, words)?;
    let keeper = MemoryKeeper::new(SteadyKeeper::new(alloc), failing);
    let served = serve(rt, alloc, config, &mut doors, keeper);
    let text = left(alloc, &served, &doors);
    drop(served);
    drop(doors);
    text
}

fn tell<R: Abort + Threads + Wait + Sync>(
    rt: &R,
    alloc: Global,
    config: &Config,
    row: &str,
) -> Result<(), Fail>
    requires right { IsRightConfig config.now }
    requires listener { 0 < length config.now.listeners }
{
    let (words, wanted) = column(row);
    let told = told(rt, alloc, config, words)?;
    assert_eq!(rt; told.as_str(), wanted, "{row}");
    Ok(())
}

fn tell_all<R: Abort + Threads + Wait + Sync>(
    rt: &R,
    alloc: Global,
    config: &Config,
) -> Result<(), Fail>
    requires right { IsRightConfig config.now }
    requires listener { 0 < length config.now.listeners }
{
    for row in ROWS.lines() {
        tell(rt, alloc, config, row)?;
    }
    Ok(())
}

#[test]
fn each_read_write_next_and_commit_fails_in_turn(rt: HostRuntime) -> Result<(), Fail> {
    let config = configured(rt.alloc(), "")?;
    if config.listeners.as_slice().is_empty() {
        panic!(&rt; "there is no listener")
    }
    let told = tell_all(&rt, rt.alloc(), &config);
    drop(config);
    told
}
