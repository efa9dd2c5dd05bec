// Calls over links in memory: the command `domains`.
ghost use Rattle.std.specs.Prelude.{◌≤◌, IfOk, None, false, vec_len};
ghost use Rattle.acct_client.specs.Talks.{IsBegun};

use super::digits::words_of;
use acct_client::{Asker, Called, TalkEnd, call};
use acct_keeper::MemorySink;
use acct_links::{Caller, Failed, Link, MemoryCaller, MemoryLink, SteadyCaller, SteadyLink};
use std::alloc::Global;
use std::test::Fail;

/// The bind with both interfaces, the connection, and the enumeration of domains.
const REQUESTS: &str = concat!(
    "05000b03100000007400000001000000b810b810000000000200000000000100785734123412cdabef000123456789ac",
    "01000000045d888aeb1cc9119fe808002b1048600200000001000100785734123412cdabef000123456789ab00000000",
    "045d888aeb1cc9119fe808002b10486002000000",
    "0500000310000000200000000200000008000000000039000000000010000000",
    "050000031000000034000000030000001c00000000000600000000001415161718191a1b1c1d1e1f2021222300000000",
    "00100000"
);

/// Both contexts accepted, a handle, and the domains CORP and BUILTIN.
const ANSWERS: &str = concat!(
    "05000c03100000005000000001000000b810b81001000000010000000200000000000000045d888aeb1cc9119fe80800",
    "2b1048600200000000000000045d888aeb1cc9119fe808002b10486002000000",
    "050002031000000030000000020000001800000000000000101112131415161718191a1b1c1d1e1f2021222300000000",
    "05000203100000007c00000003000000640000000000000002000000fec70000020000009aec00000200000000000000",
    "0800080035770000000000000e000e00ac73000004000000000000000400000043004f00520050000700000000000000",
    "070000004200550049004c00540049004e00bfbf0200000000000000"
);

fn bytes_of(alloc: Global, digits: &str) -> Result<Vec<u8>, Fail> {
    Ok(hex::decode(alloc, digits)?)
}

fn asker(alloc: Global) -> Result<Asker, Fail>
    ensures { IfOk result (λ asker. (command : _) × IsBegun command asker) }
{
    let words = words_of(alloc, "domains")?;
    let asker = Asker::new(alloc, &words);
    drop(words);
    Ok(asker?)
}

/// Each row: what the peer sends, which call of its link fails, how the call ends and whether there was a link, and
/// what is printed, where a slash ends a line. `ALL` stands for the answers above, and `FRONT` for their first hundred
/// bytes. The row that begins with 48 is HTTP's. Where the second call fails it is the second write of the bind, and
/// the ninth is a read: by these rows alone a request is sent before its answer is read.
const ENDS: &str = "\
ALL|0|Done true|CORP/BUILTIN/
|0|PeerFault true|
FRONT|0|PeerFault true|
00000000000000000000000000000000|0|PeerBytes(0) true|
485454502f312e312034303020426164|0|PeerBytes(0) true|
05000d03100000001800000001000000000000050000000000000000|0|Refused(0) true|refused 0x00000000/
ALL|2|PeerFault true|
ALL|9|PeerFault true|";

/// A row up to a bar, and what is after the bar.
fn column(row: &str) -> (&str, &str) {
    row.split_once('|').unwrap_or((row, ""))
}

fn digits_of(word: &str) -> &str {
    match word {
        "ALL" => ANSWERS,
        "FRONT" => &ANSWERS[..200],
        digits => digits,
    }
}

/// A peer that sends these bytes over one link, of whose calls this one fails.
fn caller_of(alloc: Global, digits: &str, failing: u64) -> Result<MemoryCaller<MemoryLink>, Fail> {
    let input = SteadyLink::new(bytes_of(alloc, digits)?, 7);
    let link = MemoryLink::new(alloc, input, 1024, 50, [failing].to_vec(alloc)?)?;
    let mut links = Vec::new(alloc);
    links.push(link)?;
    Ok(MemoryCaller::new(alloc, links, Vec::new(alloc)))
}

/// A sink with so much room, which takes five bytes at a time.
fn sink(alloc: Global, room: usize) -> Result<MemorySink, Fail> {
    Ok(MemorySink::new(alloc, room, 5, Vec::new(alloc))?)
}

fn called<C: Caller>(
    alloc: Global,
    caller: &mut C,
    out: &mut MemorySink,
) -> Result<Called<C::L>, Fail> {
    Ok(call(alloc, asker(alloc)?, "tcp:h:1", caller, out))
}

/// Whether a call ends so, and its lines are printed or not.
fn ends<C: Caller>(
    alloc: Global,
    caller: &mut C,
    out: &mut MemorySink,
    end: &str,
    is_printed: bool,
) -> Result<bool, Fail>
where
    C::L: Drop,
{
    let Called {
        end: found,
        printing,
        link,
    } = called(alloc, caller, out)?;
    let has_link = link.is_some();
    drop(link);
    let told = format!(in alloc; "{found:?} {has_link}")?;
    Ok(told.as_str() == end && printing.is_ok() == is_printed)
}

/// Whether these lines were printed.
fn has(out: &MemorySink, lines: &str) -> bool {
    let printed = std::str::from_utf8(out.as_slice()).ok().unwrap_or("?");
    printed.split('\n').eq(lines.split('/'))
}

/// Whether a call ends so and prints these lines.
fn prints<C: Caller>(alloc: Global, caller: &mut C, end: &str, lines: &str) -> Result<bool, Fail>
where
    C::L: Drop,
{
    let mut out = sink(alloc, 64)?;
    Ok(ends(alloc, caller, &mut out, end, true)? && has(&out, lines))
}

fn row_is_right(alloc: Global, row: &str) -> Result<bool, Fail> {
    let (word, rest) = column(row);
    let (failing, rest) = column(rest);
    let (end, lines) = column(rest);
    let failing = failing.parse::<u32>().ok().unwrap_or(0) as u64;
    let mut caller = caller_of(alloc, digits_of(word), failing)?;
    let is_right = prints(alloc, &mut caller, end, lines);
    drop(caller);
    is_right
}

/// Where each request ends in what is sent, in bytes, and its answer in what is answered.
const TURNS: [(usize, usize); 3] = [(116, 80), (148, 128), (200, 252)];

// A peer that answers each request once it has it whole. A read before that, or after the last answer, fails.
#[derive(Drop)]
struct TurnTaker {
    answers: Vec<u8>,
    place: usize,
    sent: usize,
    read_faults: u64,
}

impl TurnTaker {
    // How many bytes it has answered or can answer now.
    fn answered(&self) -> usize
        ensures { result ≤ vec_len self.now.answers }
    {
        let mut end = 0;
        for (request, answer) in TURNS {
            if request <= self.sent {
                end = answer;
            }
        }
        end.min(self.answers.len())
    }
}

impl Link for TurnTaker {
    ghost told = { λ link. record {
      received = None;
      left = None;
      sent = None;
      ended = false;
      read_faults = link.read_faults;
      write_faults = 0;
    } };

    fn read(&mut self, buf: &mut [u8]) -> Result<usize, Failed> {
        let end = self.answered();
        if self.place >= end || buf.is_empty() {
            self.read_faults = self.read_faults.saturating_add(1);
            return Err(Failed);
        }
        let count = buf.len().min(end - self.place);
        buf[..count].copy_from_slice(&self.answers[self.place..self.place + count]);
        self.place += count;
        Ok(count)
    }

    fn write(&mut self, bytes: &[u8]) -> Result<usize, Failed> {
        self.sent = self.sent.saturating_add(bytes.len());
        Ok(bytes.len())
    }
}

/// How a call ends, and its link.
fn end_and_link<C: Caller>(alloc: Global, caller: &mut C) -> Result<(TalkEnd, Option<C::L>), Fail>
where
    C::L: Drop,
{
    let mut out = sink(alloc, 64)?;
    let Called {
        end,
        printing: _,
        link,
    } = called(alloc, caller, &mut out)?;
    Ok((end, link))
}

/// What was sent over a link.
fn sent_over(alloc: Global, link: &Option<MemoryLink>) -> Result<String, Fail> {
    match link {
        Some(link) => Ok(hex::encode(alloc, link.as_slice())?),
        None => Ok(String::new(alloc)),
    }
}

/// What a call sends to a peer that answers all.
fn sent(alloc: Global) -> Result<String, Fail> {
    let mut caller = caller_of(alloc, ANSWERS, 0)?;
    let called = end_and_link(alloc, &mut caller);
    drop(caller);
    let (_, link) = called?;
    let digits = sent_over(alloc, &link);
    drop(link);
    digits
}

#[test]
fn requests_are_sent(rt: HostRuntime) -> Result<(), Fail> {
    assert!(rt; sent(rt.alloc())?.as_str() == REQUESTS);
    Ok(())
}

#[test]
fn each_end_has_its_cause(rt: HostRuntime) -> Result<(), Fail> {
    for row in ENDS.lines() {
        assert!(rt; row_is_right(rt.alloc(), row)?, "{row}");
    }
    Ok(())
}

#[test]
fn a_caller_without_links_is_a_fault_of_the_peer(rt: HostRuntime) -> Result<(), Fail> {
    let links: Vec<MemoryLink> = Vec::new(rt.alloc());
    let mut caller = MemoryCaller::new(rt.alloc(), links, Vec::new(rt.alloc()));
    let mut out = sink(rt.alloc(), 64)?;
    assert!(rt; ends(rt.alloc(), &mut caller, &mut out, "PeerFault false", true)?);
    Ok(())
}

#[test]
fn lines_without_room_are_a_fault_of_printing(rt: HostRuntime) -> Result<(), Fail> {
    let mut caller = SteadyCaller::new(rt.alloc(), bytes_of(rt.alloc(), ANSWERS)?, 9);
    let mut out = sink(rt.alloc(), 8)?;
    assert!(rt; ends(rt.alloc(), &mut caller, &mut out, "Done true", false)?);
    Ok(())
}

/// A caller with one link, to a peer that takes turns.
fn caller_by_turns(alloc: Global) -> Result<MemoryCaller<TurnTaker>, Fail> {
    let mut links = Vec::new(alloc);
    links.push(TurnTaker {
        answers: bytes_of(alloc, ANSWERS)?,
        place: 0,
        sent: 0,
        read_faults: 0,
    })?;
    Ok(MemoryCaller::new(alloc, links, Vec::new(alloc)))
}

/// How much was sent over the link of a call that was done, and how many of its reads failed.
fn counted(end: TalkEnd, link: &Option<TurnTaker>) -> (usize, u64) {
    match (end, link) {
        (TalkEnd::Done, Some(link)) => (link.sent, link.read_faults),
        _ => (0, 0),
    }
}

/// How much a call sends to a peer that takes turns, and how many of its reads fail.
fn sent_by_turns(alloc: Global) -> Result<(usize, u64), Fail> {
    let mut caller = caller_by_turns(alloc)?;
    let called = end_and_link(alloc, &mut caller);
    drop(caller);
    let (end, link) = called?;
    let counts = counted(end, &link);
    drop(link);
    Ok(counts)
}

// It would wait for ever on a read before its request, or after the last answer.
#[test]
fn each_answer_is_read_after_its_request(rt: HostRuntime) -> Result<(), Fail> {
    assert!(rt; sent_by_turns(rt.alloc())? == (200, 0));
    Ok(())
}
