// Doors in memory, of which only the first brings links, so that connections have their numbers by their order.
ghost use Rattle.std.specs.Prelude.{◌≡◌, ◌+◌, ◌<◌, ◌≤◌, All, length, vec_len, IfOk};
ghost use Rattle.acct_config.specs.Spelled.{IsRightConfig};
ghost use Rattle.acct_links.specs.Links.{IsNew};
ghost use Rattle.acct_links.specs.Memory.{told_by};

use super::words::{configured, digits_of_all, link_of, word};
use crate::tests::left::push_history;
use crate::tests::lines::{column, number};
use acct_keeper::{MemoryKeeper, SteadyKeeper};
use acct_links::{MemoryDoor, MemoryLink, SteadyDoor};
use acct_machine::Config;
use acct_server::{Served, serve};
use std::alloc::Global;
use std::process::Abort;
use std::sync::Wait;
use std::test::Fail;
use std::thread::Threads;

/// Each row: the limits; the links of the first door, each by what it brings, and first, with `!`, which of its calls
/// fails, reads and writes counted together from 1; which call of the door fails, and which of the keeper; how serving
/// ends; what was finished, each link by its connection and what was written on it; the ends by connection; and what
/// was entered.
const ROWS: &str = "||0|0|Done|||
|BIND CONNECT|0|0|Done|1 ACK1 FIRST1,|1 0 End,|opened 1 0;called 1 57 Ran 8;gone 1;
|BIND CONNECT,BIND CONNECT CONNECT|0|0|Done|1 ACK1 FIRST1,2 ACK2 FIRST2 SECOND2,|1 0 End,2 0 End,|opened 1 0;\
    called 1 57 Ran 8;gone 1;opened 2 0;called 2 57 Ran 8;called 2 57 Ran 8;gone 2;
|BIND,VERSION,BIND CONNECT|0|0|Done|1 ACK1,2 NAK,3 ACK3 FIRST3,|1 0 End,2 0 Closed { place: 0, cause: 1 },3 0 End,|\
    opened 1 0;gone 1;opened 2 0;gone 2;opened 3 0;called 3 57 Ran 8;gone 3;
|1!BIND,BIND|0|0|Done|1 ,2 ACK2,|1 0 ReadFault,2 0 End,|opened 1 0;gone 1;opened 2 0;gone 2;
|2!BIND,BIND|0|0|Done|1 ,2 ACK2,|1 0 WriteFault,2 0 End,|opened 1 0;gone 1;opened 2 0;gone 2;
|BIND,BIND|2|0|DoorFault|1 ACK1,|1 0 End,|opened 1 0;gone 1;
|BIND,BIND|1|0|DoorFault|||
max_calls = 1|BIND CONNECT CONNECT,BIND|0|0|HistoryFull(1)|1 ACK1 FIRST1 BUSY2,|1 0 Full(1),|opened 1 0;\
    called 1 57 Ran 8;gone 1;
max_bytes = 15|BIND CONNECT CONNECT,BIND|0|0|HistoryFull(16)|1 ACK1 FIRST1 BUSY2,|1 0 Full(16),|opened 1 0;\
    called 1 57 Ran 8;gone 1;
max_conns = 1|BIND,BIND|0|0|HistoryFull(1)|1 ACK1,0 ,|1 0 End,|opened 1 0;gone 1;
max_read = 72|BIND CONNECT|0|0|Done|1 ACK1,|1 0 ByteLimit(72),|opened 1 0;gone 1;
|BIND|0|1|StoreFault|||";

/// Puts a link that brings what the word says after the others, where there is a word.
fn push_link(links: &mut Vec<MemoryLink>, alloc: Global, word: &str) -> Result<(), Fail>
    requires { All (λ link. IsNew (told_by link)) links.old.items }
    ensures { All (λ link. IsNew (told_by link)) links.new.items }
{
    if word.is_empty() {
        return Ok(());
    }
    links.push(link_of(alloc, word)?)?;
    Ok(())
}

/// The links that bring what the words say, at most three.
fn links_of(alloc: Global, words: &str) -> Result<Vec<MemoryLink>, Fail>
    ensures { IfOk result (λ links. All (λ link. IsNew (told_by link)) links.items) }
{
    let (first, rest) = word(words);
    let (second, third) = word(rest);
    let mut links = Vec::new(alloc);
    push_link(&mut links, alloc, first)?;
    push_link(&mut links, alloc, second)?;
    push_link(&mut links, alloc, third)?;
    Ok(links)
}

/// A door of the first listener, of which one call fails or none.
fn door_of(alloc: Global, words: &str, failing: &str) -> Result<MemoryDoor<MemoryLink>, Fail>
    ensures { IfOk result (λ door. door.door.listener ≡ 0) }
{
    let failing = [number(failing) as u64].to_vec(alloc)?;
    let links = links_of(alloc, words)?;
    Ok(MemoryDoor::new(SteadyDoor::new(alloc, 0, links)?, failing))
}

/// Puts such a door after the others.
fn push_door(
    doors: &mut Vec<MemoryDoor<MemoryLink>>,
    alloc: Global,
    words: &str,
    failing: &str,
) -> Result<(), Fail>
    requires { All (λ door. door.door.listener ≡ 0) doors.old.items }
    ensures first { All (λ door. door.door.listener ≡ 0) doors.new.items }
    ensures few { vec_len doors.new ≤ vec_len doors.old + 1 }
{
    doors.push(door_of(alloc, words, failing)?)?;
    Ok(())
}

/// Such a door, and one after it that brings no link.
fn doors_of(alloc: Global, words: &str, failing: &str) -> Result<Vec<MemoryDoor<MemoryLink>>, Fail>
    ensures { IfOk result (λ doors. (vec_len doors ≤ 1024) × All (λ door. door.door.listener ≡ 0) doors.items) }
{
    let mut doors = Vec::new(alloc);
    push_door(&mut doors, alloc, words, failing)?;
    push_door(&mut doors, alloc, "", "0")?;
    Ok(doors)
}

fn keeper_of(alloc: Global, failing: &str) -> Result<MemoryKeeper, Fail> {
    let failing = [number(failing) as u64].to_vec(alloc)?;
    Ok(MemoryKeeper::new(SteadyKeeper::new(alloc), failing))
}

/// How serving ended, the ends, and what was entered, in words.
fn push_served(text: &mut String, served: &Served<MemoryKeeper>) -> Result<(), Fail> {
    write!(text, "{:?}|", served.status)?;
    for ended in served.ends.as_slice() {
        write!(text, "{} {} {:?},", ended.conn, ended.door, ended.end)?;
    }
    write!(text, "|")?;
    push_history(text, served.history.as_slice())
}

/// What was finished, each link by its connection and the digits of what was written on it.
fn push_finished(
    text: &mut String,
    alloc: Global,
    door: &MemoryDoor<MemoryLink>,
) -> Result<(), Fail> {
    for (conn, link) in door.as_slice() {
        let digits = hex::encode(alloc, link.as_slice())?;
        write!(text, "{conn} {},", digits.as_str())?;
    }
    Ok(())
}

/// What serving left, in words: how it ended, the ends, what was entered, what was finished.
fn left(
    alloc: Global,
    served: &Served<MemoryKeeper>,
    doors: &[MemoryDoor<MemoryLink>],
) -> Result<String, Fail> {
    let mut text = String::new(alloc);
    push_served(&mut text, served)?;
    write!(text, "|")?;
    for door in doors {
        push_finished(&mut text, alloc, door)?;
    }
    Ok(text)
}

/// What serving leaves, in words.
fn told<R: Threads + Wait + Sync>(
    rt: &R,
    alloc: Global,
    config: &Config,
    mut doors: Vec<MemoryDoor<MemoryLink>>,
    keeper: MemoryKeeper,
) -> Result<String, Fail>
    requires right { IsRightConfig config.now }
    requires few { vec_len doors ≤ 1024 }
    requires first { All (λ door. door.door.listener ≡ 0) doors.items }
    requires listener { 0 < length config.now.listeners }
{
    let served = serve(rt, alloc, config, &mut doors, keeper);
    let text = left(alloc, &served, &doors);
    drop(served);
    drop(doors);
    text
}

/// What was finished, by the names of a row.
fn finished(alloc: Global, words: &str) -> Result<String, Fail> {
    let mut text = String::new(alloc);
    for word in words.split(',') {
        if let Some((conn, names)) = word.split_once(' ') {
            let digits = digits_of_all(alloc, names)?;
            write!(text, "{conn} {},", digits.as_str())?;
        }
    }
    Ok(text)
}

fn told_by<R: Threads + Wait + Sync>(
    rt: &R,
    alloc: Global,
    limits: &str,
    doors: Vec<MemoryDoor<MemoryLink>>,
    keeper: MemoryKeeper,
) -> Result<String, Fail>
    requires few { vec_len doors ≤ 1024 }
    requires first { All (λ door. door.door.listener ≡ 0) doors.items }
{
    let config = match configured(alloc, limits) {
        Ok(config) => config,
        Err(fail) => {
            drop(doors);
            drop(keeper);
            return Err(fail);
        }
    };
    if config.listeners.as_slice().is_empty() {
        drop(config);
        drop(doors);
        drop(keeper);
        return Ok(String::new(alloc));
    }
    let text = told(rt, alloc, &config, doors, keeper);
    drop(config);
    text
}

/// The same by the columns of a row: the limits, the links of the first door, and which calls fail.
fn told_of<R: Threads + Wait + Sync>(
    rt: &R,
    alloc: Global,
    limits: &str,
    links: &str,
    failing: &str,
    store: &str,
) -> Result<String, Fail> {
    let keeper = keeper_of(alloc, store)?;
    match doors_of(alloc, links, failing) {
        Ok(doors) => told_by(rt, alloc, limits, doors, keeper),
        Err(fail) => {
            drop(keeper);
            Err(fail)
        }
    }
}

/// What is to be told, by the columns of a row after the one of the keeper.
fn wanted(alloc: Global, columns: &str) -> Result<String, Fail> {
    let (status, rest) = column(columns);
    let (words, rest) = column(rest);
    let finished = finished(alloc, words)?;
    Ok(format!(in alloc; "{status}|{rest}|{}", finished.as_str())?)
}

fn tell<R: Abort + Threads + Wait + Sync>(rt: &R, alloc: Global, row: &str) -> Result<(), Fail> {
    let (limits, rest) = column(row);
    let (links, rest) = column(rest);
    let (failing, rest) = column(rest);
    let (store, rest) = column(rest);
    let told = told_of(rt, alloc, limits, links, failing, store)?;
    let wanted = wanted(alloc, rest)?;
    assert_eq!(rt; told.as_str(), wanted.as_str(), "{row}");
    Ok(())
}

#[test]
fn doors_are_served(rt: HostRuntime) -> Result<(), Fail> {
    for row in ROWS.lines() {
        tell(&rt, rt.alloc(), row)?;
    }
    Ok(())
}
