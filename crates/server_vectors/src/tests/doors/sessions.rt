// Sessions over a link in memory and the machine.
ghost use Rattle.std.specs.Prelude.{◌≡◌, false, IfOk};
ghost use Rattle.acct_config.specs.Spelled.{IsRightConfig};

use super::words::{bytes_of, configured, digits_of_all};
use crate::tests::left::push_history;
use crate::tests::lines::{column, number, repeated};
use acct_keeper::SteadyKeeper;
use acct_links::{MemoryLink, SteadyLink};
use acct_machine::{Config, Machine, Opened, open_store};
use link_sessions::{Gate, SessionEnd, session};
use std::alloc::Global;
use std::process::Abort;
use std::test::Fail;

/// Each row: how many bytes a read gives (r) and a write takes (s), for how many there is room (o) and which call of
/// the link fails (f), reads and writes counted together from 1; a limit of the history; how many bytes are read at
/// most; what comes, what is written, the end, what is entered. A place is the sum of the lengths before it, and the
/// bytes of the stubs of the two calls are 8 and 20. The rows with an f number the calls of the link, and so refuse a
/// session that reads all before it answers, which no clause does.
const SESSIONS: &str =
    "|||BIND CONNECT CLOSE|ACK1 FIRST1 CLOSED|End|opened 1 0;called 1 57 Ran 8;called 1 1 Ran 20;gone 1;
r1 s1|||BIND CONNECT CLOSE|ACK1 FIRST1 CLOSED|End|opened 1 0;called 1 57 Ran 8;called 1 1 Ran 20;gone 1;
r7 s5|||BIND NOT-SERVED CONNECT|ACK1 OPNUM FIRST1|End|opened 1 0;called 1 57 Ran 8;gone 1;
|||BIND CUT-STUB CONTEXT CONNECT|ACK1 STUB UNBOUND FIRST1|End|opened 1 0;called 1 57 Ran 8;gone 1;
|||||End|opened 1 0;gone 1;
|||VERSION|NAK|Closed { place: 0, cause: 1 }|opened 1 0;gone 1;
r9|||BIND CONNECT VERSION CLOSE|ACK1 FIRST1 NAK|Closed { place: 104, cause: 1 }|opened 1 0;called 1 57 Ran 8;gone 1;
r50|||BIND HEAD MIDDLE TAIL AGAIN AGAIN|ACK1 FIRST1 TWICE|Closed { place: 180, cause: 7 }|opened 1 0;\
    called 1 57 Ran 8;gone 1;
||72|BIND CONNECT CLOSE|ACK1|ByteLimit(72)|opened 1 0;gone 1;
||103|BIND CONNECT|ACK1|ByteLimit(103)|opened 1 0;gone 1;
r50||104|BIND CONNECT|ACK1 FIRST1|ByteLimit(104)|opened 1 0;called 1 57 Ran 8;gone 1;
||0|BIND||ByteLimit(0)|opened 1 0;gone 1;
f1|||BIND||ReadFault|opened 1 0;gone 1;
r72 f3|||BIND CONNECT|ACK1|ReadFault|opened 1 0;gone 1;
f2|||BIND CONNECT||WriteFault|opened 1 0;gone 1;
o60|||BIND CONNECT CLOSE|ACK1|WriteFault|opened 1 0;called 1 57 Ran 8;gone 1;
s30 f5|||BIND CONNECT CLOSE|ACK1 FRONT1|WriteFault|opened 1 0;called 1 57 Ran 8;gone 1;
|max_calls = 1||BIND CONNECT CLOSE CONNECT|ACK1 FIRST1 BUSY3|Full(1)|opened 1 0;called 1 57 Ran 8;gone 1;
|max_bytes = 27||BIND CONNECT CLOSE|ACK1 FIRST1 BUSY3|Full(28)|opened 1 0;called 1 57 Ran 8;gone 1;
|max_bytes = 28||BIND CONNECT CLOSE|ACK1 FIRST1 CLOSED|End|opened 1 0;called 1 57 Ran 8;called 1 1 Ran 20;gone 1;
f4|max_calls = 1||BIND CONNECT CLOSE|ACK1 FIRST1|Full(1)|opened 1 0;called 1 57 Ran 8;gone 1;";

/// The same with repeat signs, and with digits for what comes once alone. 500 openings, each handle closed before the
/// next one is asked for: a handle's last eight digits are its serial. Then the domain is opened, and 600 names are
/// looked up, 300 times Guest and 300 times a name that no account has: a request of six fragments, the first with the
/// handle and half of the names' lengths and pointers, the second with the other half, the others with 150 names each;
/// and its answer of 4,828 bytes, 4,256 of them in the first fragment: the RIDs, the uses, and that some aren't mapped.
const LONG_SESSIONS: &str = "\
|||BIND <1-500:CONNECT 05000003100000002c00000003000000140000000000010000000000000000000000010000000000# >|ACK1 <\
    1-500:05000203100000003000000002000000180000000000000000000000000000000000010000000000#00000000 CLOSED >|End|\
    opened 1 0;<1-500:called 1 57 Ran 8;called 1 1 Ran 20;>gone 1;
|||BIND CONNECT 05000003100000004c0000000300000034000000000007000000000000000000000001000000000000000001000200000\
    4000000010400000000000515000000010000000200000003000000 05000001100000009c09000004000000244b000000001100000000000\
    000000000000100000000000000000258020000e80300000000000058020000<131073-131372:0a000a00#> 050000001000000078090000\
    04000000244b000000001100<131373-131672:0a000a00#> 0500000010000000280e000004000000244b000000001100<1-150:05000000\
    0000000005000000470075006500730074000000> 0500000010000000280e000004000000244b000000001100<151-300:05000000000000\
    0005000000470075006500730074000000> 0500000010000000280e000004000000244b000000001100<301-450:05000000000000000500\
    00006f0074006800650072000000> 0500000210000000280e000004000000244b000000001100<451-600:0500000000000000050000006f\
    0074006800650072000000>|ACK1 FIRST1 05000203100000003000000003000000180000000000000000000000000000000000010000000\
    0000000000200000000 0500020110000000b810000004000000dc12000000000000580200000000020058020000<1-300:f5010000><301-\
    600:00000000>580200000400020058020000<1-300:01000000><301-458:08000000> 050002021000000054020000040000003c0200000\
    0000000<459-600:08000000>07010000|End|opened 1 0;called 1 57 Ran 8;called 1 7 Ran 52;called 1 17 Ran 19236;gone \
    1;";

/// How a link is made: how many bytes a read gives and a write takes, for how many there is room, and which call fails.
#[derive(Clone, Copy)]
struct Making {
    read_size: u32,
    write_size: u32,
    room: u32,
    failing: u32,
}

/// The making that words like `r7` and `f3` say: the letter says what, the number which or how many.
fn making_of(words: &str) -> Making {
    let mut making = Making {
        read_size: 4096,
        write_size: 4096,
        room: 65535,
        failing: 0,
    };
    for word in words.split_whitespace() {
        let (letter, digits) = word.split_at_checked(1).unwrap_or(("", ""));
        match letter {
            "r" => making.read_size = number(digits),
            "s" => making.write_size = number(digits),
            "o" => making.room = number(digits),
            _ => making.failing = number(digits),
        }
    }
    making
}

fn link_of(alloc: Global, making: Making, came: Vec<u8>) -> Result<MemoryLink, Fail>
    ensures { IfOk result (λ link. link.input.ended ≡ false) }
{
    let failing = [making.failing as u64].to_vec(alloc)?;
    let input = SteadyLink::new(came, (making.read_size as usize).max(1));
    let write_size = (making.write_size as usize).max(1);
    Ok(MemoryLink::new(alloc, input, making.room as usize, write_size, failing)?)
}

fn made(rt: &impl Abort, alloc: Global, config: &Config) -> Result<Machine<SteadyKeeper>, Fail>
    requires { IsRightConfig config.now }
{
    let mut keeper = SteadyKeeper::new(alloc);
    let rows = open_store(alloc, config, &mut keeper)?;
    match Machine::new(alloc, config, rows, keeper) {
        Ok(machine) => Ok(machine),
        Err(_) => panic!(rt; "memory is wanted"),
    }
}

/// A machine, where the history has a limit or none.
fn machine_of(rt: &impl Abort, alloc: Global, limit: &str) -> Result<Machine<SteadyKeeper>, Fail> {
    let config = configured(alloc, limit)?;
    made(rt, alloc, &config)
}

/// A session on a new connection.
fn served(
    alloc: Global,
    machine: &mut Machine<SteadyKeeper>,
    link: &mut MemoryLink,
    most: u64,
) -> Option<SessionEnd>
    requires { link.old.input.ended ≡ false }
{
    if machine.config().listeners.as_slice().is_empty() {
        return None;
    }
    match Gate::open_conn(machine, 0) {
        Opened::Conn(conn) => Some(session(alloc, link, machine, conn, most)),
        Opened::Full(_) => None,
    }
}

/// What a session on a new connection leaves: what was written, the end, what was entered.
fn told(
    alloc: Global,
    machine: &mut Machine<SteadyKeeper>,
    link: &mut MemoryLink,
    most: u64,
) -> Result<String, Fail>
    requires { link.old.input.ended ≡ false }
{
    let end = served(alloc, machine, link, most);
    let mut text = hex::encode(alloc, link.as_slice())?;
    if let Some(end) = end {
        write!(text, "|{end:?}|")?;
    }
    push_history(&mut text, machine.history())?;
    Ok(text)
}

/// The same on a new machine, where the history has a limit or none.
fn told_by(
    rt: &impl Abort,
    alloc: Global,
    limit: &str,
    link: &mut MemoryLink,
    most: u64,
) -> Result<String, Fail>
    requires { link.old.input.ended ≡ false }
{
    let mut machine = machine_of(rt, alloc, limit)?;
    let told = told(alloc, &mut machine, link, most);
    drop(machine);
    told
}

/// The same over a new link that brings some bytes.
fn told_of(
    rt: &impl Abort,
    alloc: Global,
    making: Making,
    limit: &str,
    most: u64,
    came: &str,
) -> Result<String, Fail> {
    let came = bytes_of(alloc, came)?;
    let mut link = link_of(alloc, making, came)?;
    let told = told_by(rt, alloc, limit, &mut link, most);
    drop(link);
    told
}

/// The most bytes that are read, a million where the row says nothing.
fn most_of(text: &str) -> u64 {
    text.parse::<u32>().ok().unwrap_or(1_000_000) as u64
}

pub fn tell(rt: &impl Abort, alloc: Global, row: &str) -> Result<(), Fail> {
    let (making, rest) = column(row);
    let (limit, rest) = column(rest);
    let (most, rest) = column(rest);
    let (came, rest) = column(rest);
    let (written, rest) = column(rest);
    let told = told_of(rt, alloc, making_of(making), limit, most_of(most), came)?;
    let written = digits_of_all(alloc, written)?;
    let (told, ends) = column(told.as_str());
    assert_eq!(rt; told, written.as_str(), "{row}");
    assert_eq!(rt; ends, rest, "{row}");
    Ok(())
}

#[test]
fn sessions_over_the_machine(rt: HostRuntime) -> Result<(), Fail> {
    for row in SESSIONS.lines() {
        tell(&rt, rt.alloc(), row)?;
    }
    Ok(())
}

#[test]
fn long_sessions_over_the_machine(rt: HostRuntime) -> Result<(), Fail> {
    for row in LONG_SESSIONS.lines() {
        let row = repeated(rt.alloc(), row)?;
        tell(&rt, rt.alloc(), row.as_str())?;
    }
    Ok(())
}
