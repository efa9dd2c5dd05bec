// Two links that wait for each other: only doors that are served side by side bring both to their end.
ghost use Rattle.std.specs.Prelude.{◌≡◌, ◌+◌, ◌<◌, ◌≤◌, All, length, vec_len, IfOk};
ghost use Rattle.acct_config.specs.Spelled.{IsRightConfig};
ghost use Rattle.acct_links.specs.Links.{IsNew};
ghost use Rattle.acct_links.specs.Memory.{told_by};

use super::words::{configured, digits_of_all, link_of};
use crate::tests::meeting_links::MeetingLink;
use acct_keeper::SteadyKeeper;
use acct_links::SteadyDoor;
use acct_machine::Config;
use acct_server::{Served, serve};
use std::alloc::Global;
use std::process::Abort;
use std::sync::atomic::AtomicU64;
use std::sync::{Arc, Wait};
use std::test::Fail;
use std::thread::Threads;

/// A link that waits for another one, of which nothing was read or written.
fn meeting_link(
    alloc: Global,
    mine: &Arc<AtomicU64, Global>,
    other: &Arc<AtomicU64, Global>,
) -> Result<MeetingLink, Fail>
    ensures { IfOk result (λ it. IsNew (told_by it.link)) }
{
    let mine = mine.clone()?;
    let other = other.clone()?;
    let link = link_of(alloc, "BIND CONNECT")?;
    Ok(MeetingLink {
        link,
        mine,
        other,
        has_looked: false,
        has_met: false,
        faults: 0,
    })
}

/// The link alone.
fn alone(alloc: Global, link: MeetingLink) -> Result<Vec<MeetingLink>, Fail>
    requires { IsNew (told_by link.link) }
    ensures { IfOk result (λ links. All (λ it. IsNew (told_by it.link)) links.items) }
{
    let mut links = Vec::new(alloc);
    links.push(link)?;
    Ok(links)
}

/// A door of the first listener with one such link.
fn door_of(
    alloc: Global,
    mine: &Arc<AtomicU64, Global>,
    other: &Arc<AtomicU64, Global>,
) -> Result<SteadyDoor<MeetingLink>, Fail>
    ensures { IfOk result (λ door. door.listener ≡ 0) }
{
    let links = alone(alloc, meeting_link(alloc, mine, other)?)?;
    Ok(SteadyDoor::new(alloc, 0, links)?)
}

/// Puts such a door after the others.
fn push_door(
    doors: &mut Vec<SteadyDoor<MeetingLink>>,
    alloc: Global,
    mine: &Arc<AtomicU64, Global>,
    other: &Arc<AtomicU64, Global>,
) -> Result<(), Fail>
    requires { All (λ door. door.listener ≡ 0) doors.old.items }
    ensures first { All (λ door. door.listener ≡ 0) doors.new.items }
    ensures few { vec_len doors.new ≤ vec_len doors.old + 1 }
{
    doors.push(door_of(alloc, mine, other)?)?;
    Ok(())
}

/// Two doors whose links wait for each other.
fn doors_of(alloc: Global) -> Result<Vec<SteadyDoor<MeetingLink>>, Fail>
    ensures { IfOk result (λ doors. (vec_len doors ≤ 1024) × All (λ door. door.listener ≡ 0) doors.items) }
{
    let one = Arc::new(alloc, AtomicU64::new(0))?;
    let two = Arc::new(alloc, AtomicU64::new(0))?;
    let mut doors = Vec::new(alloc);
    push_door(&mut doors, alloc, &one, &two)?;
    push_door(&mut doors, alloc, &two, &one)?;
    Ok(doors)
}

/// How serving ended and each session.
fn push_ends(text: &mut String, served: &Served<SteadyKeeper>) -> Result<(), Fail> {
    write!(text, "{:?}|", served.status)?;
    for ended in served.ends.as_slice() {
        write!(text, "{:?},", ended.end)?;
    }
    Ok(())
}

/// What was written on each link of a door.
fn push_written(
    text: &mut String,
    alloc: Global,
    door: &SteadyDoor<MeetingLink>,
) -> Result<(), Fail> {
    for (conn, link) in door.as_slice() {
        let digits = hex::encode(alloc, link.link.as_slice())?;
        write!(text, "|{conn} {}", digits.as_str())?;
    }
    Ok(())
}

/// Both, in words.
fn left(
    alloc: Global,
    served: &Served<SteadyKeeper>,
    doors: &[SteadyDoor<MeetingLink>],
) -> Result<String, Fail> {
    let mut text = String::new(alloc);
    push_ends(&mut text, served)?;
    for door in doors {
        push_written(&mut text, alloc, door)?;
    }
    Ok(text)
}

fn told<R: Threads + Wait + Sync>(rt: &R, alloc: Global, config: &Config) -> Result<String, Fail>
    requires right { IsRightConfig config.now }
    requires listener { 0 < length config.now.listeners }
{
    let mut doors = doors_of(alloc)?;
    let served = serve(rt, alloc, config, &mut doors, SteadyKeeper::new(alloc));
    let text = left(alloc, &served, &doors);
    drop(served);
    drop(doors);
    text
}

/// What is written on a link, by its connection and the names of what it is.
fn push_wanted(text: &mut String, alloc: Global, words: &str) -> Result<(), Fail> {
    let (conn, names) = words.split_once(' ').unwrap_or((words, ""));
    let digits = digits_of_all(alloc, names)?;
    write!(text, "|{conn} {}", digits.as_str())?;
    Ok(())
}

/// What is told where the first door's link has the one connection, and the second door's the other.
fn wanted(alloc: Global, one: &str, other: &str) -> Result<String, Fail> {
    let mut text = String::from_str(alloc, "Done|End,End,")?;
    push_wanted(&mut text, alloc, one)?;
    push_wanted(&mut text, alloc, other)?;
    Ok(text)
}

#[test]
fn two_doors_are_served_at_once(rt: HostRuntime) -> Result<(), Fail> {
    let alloc = rt.alloc();
    let config = configured(alloc, "")?;
    if config.listeners.as_slice().is_empty() {
        panic!(&rt; "there is no listener")
    }
    let told = told(&rt, alloc, &config);
    drop(config);
    let text = told?;
    let first = wanted(alloc, "1 ACK1 FIRST1", "2 ACK2 FIRST2")?;
    let second = wanted(alloc, "2 ACK2 FIRST2", "1 ACK1 FIRST1")?;
    if text.as_str() != second.as_str() {
        assert_eq!(&rt; text.as_str(), first.as_str());
    }
    Ok(())
}
