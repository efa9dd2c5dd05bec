// Two links that wait for each other: only a program that serves its doors side by side brings both to their end.
ghost use Rattle.std.specs.Prelude.{All, IfOk};
ghost use Rattle.acct_links.specs.Links.{IsNew};
ghost use Rattle.acct_links.specs.Memory.{told_by};

use super::configs::config_with;
use super::left::ended;
use super::meeting_links::MeetingLink;
use super::serving::link_of;
use super::worlds::{Steady, steady_world};
use acct_base::Seq;
use acct_links::{DoorPlan, MemoryEntrance};
use acct_server::{Ended, SessionEnd};
use acct_world::Period;
use std::alloc::Global;
use std::sync::atomic::AtomicU64;
use std::sync::{Arc, Wait};
use std::test::Fail;
use std::thread::Threads;

/// A world whose entrance gives links that wait for others.
type Meeting = Steady<MemoryEntrance<MeetingLink>>;

/// A door with one link, which brings the first run.
fn door_of(
    alloc: Global,
    mine: &Arc<AtomicU64, Global>,
    other: &Arc<AtomicU64, Global>,
) -> Result<DoorPlan<MeetingLink>, Fail>
    ensures { IfOk result (λ plan. All (λ it. IsNew (record {
      received = (told_by it.link).received;
      left = (told_by it.link).left;
      sent = (told_by it.link).sent;
      ended = (told_by it.link).ended;
      read_faults = it.faults;
      write_faults = (told_by it.link).write_faults;
    })) plan.links) }
{
    let mut links = Seq::new(alloc);
    links.push(MeetingLink {
        link: link_of(alloc, "BIND CONNECT CLOSE")?,
        mine: mine.clone()?,
        other: other.clone()?,
        has_looked: false,
        has_met: false,
        faults: 0,
    })?;
    Ok(DoorPlan {
        links,
        failing: Seq::new(alloc),
    })
}

/// Two doors whose links wait for each other.
fn entrance_of(alloc: Global) -> Result<MemoryEntrance<MeetingLink>, Fail> {
    let one = Arc::new(alloc, AtomicU64::new(0))?;
    let two = Arc::new(alloc, AtomicU64::new(0))?;
    let mut plans = Vec::new(alloc);
    plans.push(door_of(alloc, &one, &two)?)?;
    plans.push(door_of(alloc, &two, &one)?)?;
    Ok(MemoryEntrance::new(alloc, plans, Vec::new(alloc)))
}

/// The configurations of such worlds, each with two workers: without a hook, and with one.
const CONFIGS: &str = "workers = 2;links = 1
workers = 2;links = 1;[hook];program = \"/bin/add-user\";tries = 3";

fn meeting(alloc: Global, config: &str) -> Result<Meeting, Fail> {
    let config = config_with(alloc, config)?;
    let entrance = entrance_of(alloc)?;
    steady_world(alloc, (config, String::new(alloc)), entrance)
}

fn push_end(text: &mut String, conn: u32, end: SessionEnd) -> Result<(), Fail> {
    write!(text, "{conn} {end:?},")?;
    Ok(())
}

fn push_ends(text: &mut String, ends: &[Ended]) -> Result<(), Fail> {
    for ended in ends {
        push_end(text, ended.conn, ended.end)?;
    }
    Ok(())
}

/// The ends of all sessions, by their connections.
fn push_sessions(text: &mut String, periods: &[Period]) -> Result<(), Fail> {
    for period in periods {
        push_ends(text, period.ends.as_slice())?;
    }
    Ok(())
}

/// Runs words over such a world: how they ended, and the ends of all sessions.
fn left<R: Threads + Wait + Sync>(
    rt: &R,
    alloc: Global,
    words: &str,
    world: &mut Meeting,
) -> Result<String, Fail> {
    let mut text = ended(rt, alloc, words, world)?;
    text.push('|')?;
    push_sessions(&mut text, world.periods())?;
    Ok(text)
}

fn left_by<R: Threads + Wait + Sync>(rt: &R, alloc: Global, config: &str) -> Result<String, Fail> {
    let mut world = meeting(alloc, config)?;
    let text = left(rt, alloc, "serve first.toml ''", &mut world);
    drop(world);
    text
}

#[test]
fn two_doors_are_served_at_once(rt: HostRuntime) -> Result<(), Fail> {
    for config in CONFIGS.lines() {
        let left = left_by(&rt, rt.alloc(), config)?;
        assert_eq!(rt; left.as_str(), "Done|1 End,2 End,", "{config}");
    }
    Ok(())
}
