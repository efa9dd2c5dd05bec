// Events as they are: ends of lines, streams in pieces, and a source above the limit.
use super::configs::config_of;
use super::left::is_left;
use super::lines::{joined, line_of};
use super::replays::{AUDIT, REPLAY, left_of, wanted_of};
use super::worlds::making_of;
use std::alloc::Global;
use std::process::Abort;
use std::sync::Wait;
use std::test::Fail;
use std::thread::Threads;

/// What words leave over the events as they are.
fn left_by<R: Threads + Wait + Sync>(
    rt: &R,
    alloc: Global,
    words: &str,
    events: &str,
) -> Result<String, Fail> {
    let config = config_of(alloc, "")?;
    let events = joined(alloc, &[events])?;
    left_of(rt, alloc, words, (config, events), making_of(""))
}

/// Tells what words leave over the events, by the columns of a row.
fn tell_words<R: Abort + Threads + Wait + Sync>(
    rt: &R,
    alloc: Global,
    words: &str,
    events: &str,
    row: &str,
) -> Result<(), Fail> {
    let left = left_by(rt, alloc, words, events)?;
    let wanted = wanted_of(alloc, row)?;
    is_left(rt, left.as_str(), wanted.as_str(), row);
    Ok(())
}

/// Tells what a replay of the events leaves, by the columns of a row.
fn tell<R: Abort + Threads + Wait + Sync>(
    rt: &R,
    alloc: Global,
    events: &str,
    row: &str,
) -> Result<(), Fail> {
    tell_words(rt, alloc, REPLAY, events, row)
}

#[test]
fn lines_end_in_both_ways(rt: HostRuntime) -> Result<(), Fail> {
    let alloc = rt.alloc();
    let front = "# a comment\r\n\r\nopen 1 a\r\n\n";
    let events = joined(alloc, &[front, line_of("BIND"), "\nend 1"])?;
    tell(
        &rt,
        alloc,
        events.as_str(),
        "ACK GONE|Done|opened 1 0;gone 1;",
    )?;
    // A carriage return before the end of the input belongs to the line.
    tell(&rt, alloc, "open 1 a\r", "/0|EventLine(1)|")
}

/// The digits of the first run's stream.
fn stream(alloc: Global) -> Result<String, Fail> {
    let mut digits = String::new(alloc);
    for name in ["BIND", "CONNECT", "CLOSE"] {
        let line = line_of(name);
        digits.push_str(line.strip_prefix("data 1 ").unwrap_or(line))?;
    }
    Ok(digits)
}

/// What the first run leaves.
const FIRST: &str =
    "ACK CONNECTED CLOSED GONE|Done|opened 1 0;called 1 57 Ran 8;called 1 1 Ran 20;gone 1;";

fn tell_cut<R: Abort + Threads + Wait + Sync>(
    rt: &R,
    alloc: Global,
    digits: &str,
    place: usize,
) -> Result<(), Fail> {
    let (front, back) = digits.split_at_checked(place).unwrap_or(("", ""));
    let texts = ["open 1 a\ndata 1 ", front, "\ndata 1 ", back, "\nend 1\n"];
    let events = joined(alloc, &texts)?;
    tell(rt, alloc, events.as_str(), FIRST)
}

#[test]
fn a_stream_cut_anywhere(rt: HostRuntime) -> Result<(), Fail> {
    let digits = stream(rt.alloc())?;
    assert_eq!(rt; digits.len(), 296);
    for place in 0..148 {
        tell_cut(&rt, rt.alloc(), digits.as_str(), 2 * place)?;
    }
    Ok(())
}

fn push_byte(events: &mut String, digits: &str) -> Result<(), Fail> {
    events.push_str("data 1 ")?;
    events.push_str(digits)?;
    events.push('\n')?;
    Ok(())
}

/// The events of a stream whose bytes come one by one.
fn byte_by_byte(alloc: Global, digits: &str) -> Result<String, Fail> {
    let mut events = String::from_str(alloc, "open 1 a\n")?;
    for place in 0..148 {
        push_byte(
            &mut events,
            digits.get(2 * place..2 * place + 2).unwrap_or(""),
        )?;
    }
    Ok(events)
}

#[test]
fn a_stream_byte_by_byte(rt: HostRuntime) -> Result<(), Fail> {
    let digits = stream(rt.alloc())?;
    let events = byte_by_byte(rt.alloc(), digits.as_str())?;
    tell(&rt, rt.alloc(), events.as_str(), FIRST)
}

/// A comment of as many bytes as a source may have.
fn longest(alloc: Global) -> Result<String, Fail> {
    let mut text = String::new(alloc);
    for _ in 0..1048576 {
        text.push_str("###############################################################\n")?;
    }
    Ok(text)
}

#[test]
fn a_source_above_the_limit_is_too_long(rt: HostRuntime) -> Result<(), Fail> {
    let mut text = longest(rt.alloc())?;
    assert_eq!(rt; text.len(), 67108864);
    tell(&rt, rt.alloc(), text.as_str(), "/0|Done|")?;
    text.push('#')?;
    for words in [REPLAY, AUDIT] {
        tell_words(
            &rt,
            rt.alloc(),
            words,
            text.as_str(),
            "/0|InputTooLong|none",
        )?;
    }
    Ok(())
}
