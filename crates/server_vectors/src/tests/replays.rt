// Replays, row by row: what they leave, what they are asked for, and what a second one finds.
use super::configs::config_of;
use super::left::{ended, is_left, push_asked, push_count, push_histories, push_rows, written};
use super::lines::{column, front_of, joined, lines_of};
use super::runs::{
    accounts, audits, later, limits, names, objects, rights, security, several, stores, tables,
};
use super::worlds::{Making, Steady, Told, making_of, steady_world, world_of, world_of_stored};
use acct_base::Seq;
use acct_keeper::{Change, Keeper, Pair, SteadyKeeper};
use acct_links::{SteadyEntrance, SteadyLink};
use std::alloc::Global;
use std::process::Abort;
use std::sync::Wait;
use std::test::Fail;
use std::thread::Threads;

pub const REPLAY: &str = "replay first.toml";

pub const AUDIT: &str = "audit first.toml";

/// The histories of the periods, and what was written.
fn push_left(text: &mut String, world: &Told) -> Result<(), Fail> {
    text.push('|')?;
    push_histories(text, world.periods())?;
    text.push('|')?;
    text.push_str(written(world))?;
    Ok(())
}

/// Runs words over a world: how they ended, and what they leave.
fn left<R: Threads + Wait + Sync>(
    rt: &R,
    alloc: Global,
    words: &str,
    world: &mut Told,
) -> Result<String, Fail> {
    let mut text = ended(rt, alloc, words, world)?;
    push_left(&mut text, world)?;
    Ok(text)
}

/// The same over these texts of the configuration and of the events.
pub fn left_of<R: Threads + Wait + Sync>(
    rt: &R,
    alloc: Global,
    words: &str,
    texts: (String, String),
    making: Making,
) -> Result<String, Fail> {
    let mut world = world_of(alloc, texts, making)?;
    let text = left(rt, alloc, words, &mut world);
    drop(world);
    text
}

/// What is left, of the columns of a row: the lines written, the status, and the history. `LINES/N` are the first N
/// bytes of these lines.
pub fn wanted_of(alloc: Global, row: &str) -> Result<String, Fail> {
    let (lines, rest) = column(row);
    let (status, rest) = column(rest);
    let (history, _) = column(rest);
    let lines = front_of(alloc, lines)?;
    joined(alloc, &[status, "|", history, "|", lines.as_str()])
}

fn texts_of(alloc: Global, config: &str, events: &str) -> Result<(String, String), Fail> {
    let config = config_of(alloc, config)?;
    let events = lines_of(alloc, events)?;
    Ok((config, events))
}

/// Tells a row: how the run is made, the words, the configuration, the events, and what is left.
fn tell<R: Abort + Threads + Wait + Sync>(rt: &R, alloc: Global, row: &str) -> Result<(), Fail> {
    let (making, rest) = column(row);
    let (words, rest) = column(rest);
    let (config, rest) = column(rest);
    let (events, rest) = column(rest);
    let texts = texts_of(alloc, config, events)?;
    let left = left_of(rt, alloc, words, texts, making_of(making))?;
    let wanted = wanted_of(alloc, rest)?;
    is_left(rt, left.as_str(), wanted.as_str(), row);
    Ok(())
}

fn tell_all<R: Abort + Threads + Wait + Sync>(
    rt: &R,
    alloc: Global,
    table: &str,
) -> Result<(), Fail> {
    for row in table.lines() {
        tell(rt, alloc, row)?;
    }
    Ok(())
}

#[test]
fn runs_and_what_is_refused(rt: HostRuntime) -> Result<(), Fail> {
    for table in [
        tables::RUNS,
        tables::REFUSED_LINES,
        tables::OTHER_WORDS,
        tables::CONFIGURATIONS,
        several::SEVERAL,
        limits::LIMITED,
    ] {
        tell_all(&rt, rt.alloc(), table)?;
    }
    Ok(())
}

#[test]
fn calls_of_each_operation(rt: HostRuntime) -> Result<(), Fail> {
    for table in [
        tables::POLICY,
        objects::LOOKUPS,
        accounts::ACCOUNTS,
        rights::RIGHTS,
        names::NAMES,
        later::LATER,
        security::DESCRIPTORS,
    ] {
        tell_all(&rt, rt.alloc(), table)?;
    }
    Ok(())
}

#[test]
fn faults_of_the_store_and_of_the_outside(rt: HostRuntime) -> Result<(), Fail> {
    tell_all(&rt, rt.alloc(), stores::FAULTS)?;
    tell_all(&rt, rt.alloc(), tables::FAULTS)
}

/// It stands alone, since the trial of refused memory repeats it with each allocation refused in turn.
#[test]
fn a_commit_of_a_replay_fails(rt: HostRuntime) -> Result<(), Fail> {
    tell(&rt, rt.alloc(), stores::FAILED_COMMIT)
}

#[test]
fn audits(rt: HostRuntime) -> Result<(), Fail> {
    tell_all(&rt, rt.alloc(), audits::AUDITS)
}

/// The row of an audit whose sink takes one byte a write, and fails at this write after so many bytes.
fn cut_audit(alloc: Global, number: u32, written: u32) -> Result<String, Fail> {
    let run = audits::CUT_RUN;
    let left = audits::CUT_LEFT;
    Ok(format!(in alloc; "s1 w{number}|{run}/{written}|{left}")?)
}

#[test]
fn an_audit_whose_sink_fails_at_each_write(rt: HostRuntime) -> Result<(), Fail> {
    for written in 0..audits::CUT_SIZE {
        let row = cut_audit(rt.alloc(), written + 1, written)?;
        tell(&rt, rt.alloc(), row.as_str())?;
    }
    Ok(())
}

/// What a replay over a world is asked for, and the rows before and after it.
fn asked<R: Threads + Wait + Sync>(
    rt: &R,
    alloc: Global,
    world: &mut Told,
) -> Result<String, Fail> {
    let mut text = ended(rt, alloc, REPLAY, world)?;
    text.push('|')?;
    push_asked(&mut text, world.asked())?;
    text.push('|')?;
    push_rows(&mut text, world.periods())?;
    Ok(text)
}

fn asked_by<R: Threads + Wait + Sync>(
    rt: &R,
    alloc: Global,
    making: &str,
    events: &str,
) -> Result<String, Fail> {
    let texts = texts_of(alloc, "", events)?;
    let mut world = world_of(alloc, texts, making_of(making))?;
    let text = asked(rt, alloc, &mut world);
    drop(world);
    text
}

fn tell_asked<R: Abort + Threads + Wait + Sync>(
    rt: &R,
    alloc: Global,
    row: &str,
) -> Result<(), Fail> {
    let (making, rest) = column(row);
    let (events, wanted) = column(rest);
    let asked = asked_by(rt, alloc, making, events)?;
    is_left(rt, asked.as_str(), wanted, row);
    Ok(())
}

#[test]
fn the_world_is_asked_in_order_and_keeps_a_period(rt: HostRuntime) -> Result<(), Fail> {
    for row in tables::ASKED.lines() {
        tell_asked(&rt, rt.alloc(), row)?;
    }
    Ok(())
}

/// The change that puts a pair, with another value where it has this key.
fn change_of(alloc: Global, pair: &Pair, key: &[u8], value: &[u8]) -> Result<Change, Fail> {
    let value = if pair.key.as_slice() == key {
        value
    } else {
        pair.value.as_slice()
    };
    let value = Seq::copy_of(alloc, value)?;
    Ok(Change {
        key: Seq::copy_of(alloc, pair.key.as_slice())?,
        value: Some(value),
    })
}

fn changes_of(
    alloc: Global,
    pairs: &[Pair],
    key: &[u8],
    value: &[u8],
) -> Result<Vec<Change>, Fail> {
    let mut changes = Vec::new(alloc);
    for pair in pairs {
        changes.push(change_of(alloc, pair, key, value)?)?;
    }
    Ok(changes)
}

/// A keeper with these pairs, except for the value of one key, as `KEY=VALUE` says, or with all of them.
pub fn stored_with(alloc: Global, pairs: &[Pair], change: &str) -> Result<SteadyKeeper, Fail> {
    let (key, value) = change.split_once('=').unwrap_or((change, ""));
    let key = hex::decode(alloc, key.as_bytes())?;
    let value = hex::decode(alloc, value.as_bytes())?;
    let changes = changes_of(alloc, pairs, &key, &value)?;
    let mut stored = SteadyKeeper::new(alloc);
    stored.commit(&changes)?;
    Ok(stored)
}

/// Runs words over a world to the end: a keeper with the pairs that are stored then, except for a change.
fn stored_by<R: Abort + Threads + Wait + Sync>(
    rt: &R,
    alloc: Global,
    words: &str,
    world: &mut Told,
    change: &str,
) -> Result<SteadyKeeper, Fail> {
    let ended = ended(rt, alloc, words, world)?;
    assert_eq!(rt; ended.as_str(), "Done");
    let pairs = world.keeper().map_or(&[][..], |keeper| keeper.as_slice());
    stored_with(alloc, pairs, change)
}

/// A keeper with the pairs that a replay of these events stores, except for a change.
pub fn stored_after<R: Abort + Threads + Wait + Sync>(
    rt: &R,
    alloc: Global,
    events: &str,
    change: &str,
) -> Result<SteadyKeeper, Fail> {
    stored_under(rt, alloc, "", events, change)
}

/// The same under a configuration of this name.
pub fn stored_under<R: Abort + Threads + Wait + Sync>(
    rt: &R,
    alloc: Global,
    config: &str,
    events: &str,
    change: &str,
) -> Result<SteadyKeeper, Fail> {
    let texts = texts_of(alloc, config, events)?;
    stored_from(rt, alloc, REPLAY, texts, change)
}

/// The same of words, over these texts of the configuration and of the events.
fn stored_from<R: Abort + Threads + Wait + Sync>(
    rt: &R,
    alloc: Global,
    words: &str,
    texts: (String, String),
    change: &str,
) -> Result<SteadyKeeper, Fail> {
    let mut world = world_of(alloc, texts, making_of(""))?;
    let stored = stored_by(rt, alloc, words, &mut world, change);
    drop(world);
    stored
}

/// What words leave over what a keeper holds.
fn left_over<R: Threads + Wait + Sync>(
    rt: &R,
    alloc: Global,
    words: &str,
    stored: SteadyKeeper,
    events: &str,
) -> Result<String, Fail> {
    let texts = texts_of(alloc, "", events)?;
    let mut world = world_of_stored(alloc, stored, texts, making_of(""))?;
    let text = left(rt, alloc, words, &mut world);
    drop(world);
    text
}

/// Tells a row: the events of a first run of words, a change of what it stored, the events of a second, and what that
/// leaves.
fn tell_second<R: Abort + Threads + Wait + Sync>(
    rt: &R,
    alloc: Global,
    words: &str,
    row: &str,
) -> Result<(), Fail> {
    let (first, rest) = column(row);
    let (change, rest) = column(rest);
    let (second, rest) = column(rest);
    let texts = texts_of(alloc, "", first)?;
    let stored = stored_from(rt, alloc, words, texts, change)?;
    let left = left_over(rt, alloc, words, stored, second)?;
    let wanted = wanted_of(alloc, rest)?;
    is_left(rt, left.as_str(), wanted.as_str(), row);
    Ok(())
}

#[test]
fn a_replay_begins_from_what_the_last_one_stored(rt: HostRuntime) -> Result<(), Fail> {
    for row in stores::SECOND.lines() {
        tell_second(&rt, rt.alloc(), REPLAY, row)?;
    }
    Ok(())
}

#[test]
fn an_audit_begins_from_what_the_last_one_stored(rt: HostRuntime) -> Result<(), Fail> {
    for row in audits::SECOND.lines() {
        tell_second(&rt, rt.alloc(), AUDIT, row)?;
    }
    Ok(())
}

fn has_key(pair: &Pair, key: &[u8]) -> bool {
    pair.key.as_slice() == key
}

fn push_pair(text: &mut String, alloc: Global, pair: &Pair) -> Result<(), Fail> {
    let key = hex::encode(alloc, pair.key.as_slice())?;
    let value = hex::encode(alloc, pair.value.as_slice())?;
    write!(text, "{key}={value};")?;
    Ok(())
}

/// The pairs in digits, except for that of the format.
fn pairs_text(alloc: Global, pairs: &[Pair]) -> Result<String, Fail> {
    let mut text = String::new(alloc);
    for pair in pairs {
        if !has_key(pair, b"f") {
            push_pair(&mut text, alloc, pair)?;
        }
    }
    Ok(text)
}

/// Adds the value of the pair of the format.
fn push_format(text: &mut String, alloc: Global, pairs: &[Pair]) -> Result<(), Fail> {
    for pair in pairs {
        if has_key(pair, b"f") {
            let value = hex::encode(alloc, pair.value.as_slice())?;
            write!(text, " {value}")?;
        }
    }
    Ok(())
}

/// How a replay without events ends, and the format of what is stored then. The other pairs are those before it.
fn format_after<R: Abort + Threads + Wait + Sync>(
    rt: &R,
    alloc: Global,
    world: &mut Told,
    before: &str,
) -> Result<String, Fail> {
    let mut text = ended(rt, alloc, REPLAY, world)?;
    let pairs = world.keeper().map_or(&[][..], |keeper| keeper.as_slice());
    let now = pairs_text(alloc, pairs)?;
    assert_eq!(rt; now.as_str(), before);
    push_format(&mut text, alloc, pairs)?;
    Ok(text)
}

/// The same over what a replay without events stores, except for a change.
fn format_by<R: Abort + Threads + Wait + Sync>(
    rt: &R,
    alloc: Global,
    change: &str,
    making: &str,
) -> Result<String, Fail> {
    let stored = stored_after(rt, alloc, "", change)?;
    let before = pairs_text(alloc, stored.as_slice())?;
    let texts = texts_of(alloc, "", "")?;
    let mut world = world_of_stored(alloc, stored, texts, making_of(making))?;
    let text = format_after(rt, alloc, &mut world, before.as_str());
    drop(world);
    text
}

#[test]
fn a_store_of_format_1_becomes_one_of_format_2(rt: HostRuntime) -> Result<(), Fail> {
    for row in stores::FORMATS.lines() {
        let (change, rest) = column(row);
        let (making, wanted) = column(rest);
        let text = format_by(&rt, rt.alloc(), change, making)?;
        is_left(&rt, text.as_str(), wanted, row);
    }
    Ok(())
}

/// Whether a key is that of a change or of the next number of one.
fn is_of_changes(key: &[u8]) -> bool {
    match key.first() {
        Some(letter) => *letter == b'n' || *letter == b'q',
        None => false,
    }
}

/// The pairs of the changes that are stored, in digits, with that of the next number before them.
pub fn changes_text(alloc: Global, pairs: &[Pair]) -> Result<String, Fail> {
    let mut text = String::new(alloc);
    for pair in pairs {
        if is_of_changes(pair.key.as_slice()) {
            push_pair(&mut text, alloc, pair)?;
        }
    }
    Ok(text)
}

/// The changes that are stored after a replay to the end.
fn changes_after<R: Abort + Threads + Wait + Sync>(
    rt: &R,
    alloc: Global,
    world: &mut Told,
) -> Result<String, Fail> {
    let ended = ended(rt, alloc, REPLAY, world)?;
    assert_eq!(rt; ended.as_str(), "Done");
    changes_text(
        alloc,
        world.keeper().map_or(&[][..], |keeper| keeper.as_slice()),
    )
}

/// Tells a row: how a replay is made, the configuration, the events, and the changes that are stored then.
fn tell_changes<R: Abort + Threads + Wait + Sync>(
    rt: &R,
    alloc: Global,
    row: &str,
) -> Result<(), Fail> {
    let (making, rest) = column(row);
    let (config, rest) = column(rest);
    let (events, wanted) = column(rest);
    let texts = texts_of(alloc, config, events)?;
    let mut world = world_of(alloc, texts, making_of(making))?;
    let changes = changes_after(rt, alloc, &mut world);
    drop(world);
    is_left(rt, changes?.as_str(), wanted, row);
    Ok(())
}

#[test]
fn changes_of_accounts_are_stored_for_a_program(rt: HostRuntime) -> Result<(), Fail> {
    for row in security::CHANGES.lines() {
        tell_changes(&rt, rt.alloc(), row)?;
    }
    Ok(())
}

/// Runs words over a world whose parts never fail: how they ended, and how many periods they leave.
fn left_steady<R: Threads + Wait + Sync>(
    rt: &R,
    alloc: Global,
    world: &mut Steady<SteadyEntrance<SteadyLink>>,
) -> Result<String, Fail> {
    let mut text = ended(rt, alloc, REPLAY, world)?;
    push_count(&mut text, world.periods().len())?;
    Ok(text)
}

fn left_steady_by<R: Threads + Wait + Sync>(
    rt: &R,
    alloc: Global,
    events: &str,
) -> Result<String, Fail> {
    let texts = texts_of(alloc, "", events)?;
    let entrance = SteadyEntrance::new(alloc, Vec::new(alloc));
    let mut world = steady_world(alloc, texts, entrance)?;
    let text = left_steady(rt, alloc, &mut world);
    drop(world);
    text
}

#[test]
fn first_run_over_steady_parts(rt: HostRuntime) -> Result<(), Fail> {
    let left = left_steady_by(&rt, rt.alloc(), "OPEN BIND CONNECT CLOSE END")?;
    assert_eq!(rt; left.as_str(), "Done 1");
    Ok(())
}
