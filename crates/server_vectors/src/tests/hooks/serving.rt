// The command `serve` with a hook, over worlds in memory: the program is run beside the sessions.
ghost use Rattle.std.specs.Prelude.{All, IfOk};
ghost use Rattle.acct_links.specs.Links.{IsNew};
ghost use Rattle.acct_links.specs.Memory.{told_by};

use super::drains::{ends_of, push_runs};
use crate::tests::configs::config_with;
use crate::tests::left::{ended, is_left, push_asked, push_count};
use crate::tests::lines::{column, line_of};
use crate::tests::replays::{changes_text, stored_under, stored_with};
use crate::tests::worlds::{Told, making_of, numbered, world_of_server};
use account_hooks::MemorySpawner;
use acct_base::Seq;
use acct_keeper::SteadyKeeper;
use acct_links::{DoorPlan, MemoryEntrance, MemoryLink, SteadyLink};
use acct_machine::Entry;
use acct_world::Period;
use std::alloc::Global;
use std::process::Abort;
use std::sync::Wait;
use std::test::Fail;
use std::thread::Threads;

const SERVE: &str = "serve first.toml ''";

/// Each row: the events whose changes a replay stored; the lines of the link of each of two doors, each call with a
/// handle for either number of its connection; how the run is made; what the configuration says more; and how the runs
/// end, `-` where one fails. Then what is left: the status, the arguments of each run, the changes that are stored, and
/// how many were taken out in each period. Two connections come in either order, and `or` stands between what is left
/// after the one and after the other. The keeper is loaded and seeded first, where it holds nothing.
const ROWS: &str =
    "|BIND CONNECT OPEN-CORP CREATE-ALICE||||0|Done|1 create user CORP 1000 alice,|6e=0200000000000000;| 1
|BIND CONNECT OPEN-CORP CREATE-ALICE|BIND CONNECT OPEN-CORP CREATE-BOB||||Done|1 create user CORP 1000 alice,2 create \
    user CORP 1001 bob, or 1 create user CORP 1000 bob,2 create user CORP 1001 alice,|6e=0300000000000000;| 2
|BIND CONNECT OPEN-CORP CREATE-ALICE CREATE-BOB||||0 - 1 -|HookHeld(2)|1 create user CORP 1000 alice,2 create user \
    CORP 1001 bob,2 create user CORP 1001 bob,2 create user CORP 1001 bob,|6e=0300000000000000;710000000000000002=0100\
    e903000001030062006f006200;| 1
|BIND CONNECT OPEN-CORP CREATE-ALICE CREATE-BOB|||[limits];max_calls = 5|- - -|HistoryFull(5)|1 create user CORP 1000 \
    alice,1 create user CORP 1000 alice,1 create user CORP 1000 alice,|6e=0200000000000000;710000000000000001=0100e803\
    000001050061006c00690063006500;| 0
|BIND CONNECT OPEN-CORP CREATE-ALICE CREATE-BOB|||[limits];max_calls = 5;max_periods = 2|- - -|Done|1 create user CORP \
    1000 alice,1 create user CORP 1000 alice,1 create user CORP 1000 alice,1 create user CORP 1000 \
    alice,|6e=0200000000000000;| 0 1
|BIND CONNECT OPEN-CORP CREATE-ALICE||k4||0|HookStore(1)|1 create user CORP 1000 alice,|6e=0200000000000000;7100000000\
    00000001=0100e803000001050061006c00690063006500;| 0
|BIND CONNECT OPEN-CORP CREATE-ALICE|-BIND|||1 1 1|DoorFault|1 create user CORP 1000 alice,1 create user CORP 1000 \
    alice,1 create user CORP 1000 alice,|6e=0200000000000000;710000000000000001=0100e803000001050061006c0069006300650\
    0;| 0
|BIND CONNECT OPEN-CORP CREATE-ALICE||t4||0|SpawnFault|||none
OPEN BIND CONNECT OPEN-CORP CREATE-ALICE|||||0|Done|1 create user CORP 1000 alice,|6e=0200000000000000;| 1
OPEN BIND CONNECT OPEN-CORP CREATE-ALICE CREATE-BOB|||||0 1 0|Done|1 create user CORP 1000 alice,2 create user CORP 10\
    01 bob,2 create user CORP 1001 bob,|6e=0300000000000000;| 2";

const HOOKED: &str = "workers = 2;links = 1;[hook];program = \"/bin/add-user\";tries = 3";

/// The digits of a line, for the connection 1; and those for the connection 2, where it has a handle.
fn push_line(alloc: Global, digits: &mut String, name: &str) -> Result<(), Fail> {
    let (_, line) = line_of(name).rsplit_once(' ').unwrap_or(("", ""));
    digits.push_str(line)?;
    if name != "BIND" && name != "CONNECT" {
        let other = line.replace(
            alloc,
            "000000010000000000000000",
            "000000020000000000000000",
        )?;
        digits.push_str(other.as_str())?;
    }
    Ok(())
}

fn digits_of(alloc: Global, names: &str) -> Result<String, Fail> {
    let mut digits = String::new(alloc);
    for name in names.split_whitespace() {
        push_line(alloc, &mut digits, name)?;
    }
    Ok(digits)
}

/// A link that brings the bytes of these lines.
pub fn link_of(alloc: Global, names: &str) -> Result<MemoryLink, Fail>
    ensures { IfOk result (λ link. IsNew (told_by link)) }
{
    let came = hex::decode(alloc, digits_of(alloc, names)?)?;
    let input = SteadyLink::new(came, 4096);
    Ok(MemoryLink::new(alloc, input, 4096, 4096, Vec::new(alloc))?)
}

/// A door with a link that brings these lines, if there are any. Where `-` stands before them its first call fails.
fn plan_of(alloc: Global, names: &str) -> Result<DoorPlan<MemoryLink>, Fail>
    ensures { IfOk result (λ plan. All (λ link. IsNew (told_by link)) plan.links) }
{
    let (failing, names) = match names.strip_prefix('-') {
        Some(names) => (1, names),
        None => (0, names),
    };
    let mut links = Seq::new(alloc);
    if !names.is_empty() {
        links.push(link_of(alloc, names)?)?;
    }
    Ok(DoorPlan {
        links,
        failing: Seq::from_vec(numbered(alloc, failing)?),
    })
}

fn entrance_of(
    alloc: Global,
    first: &str,
    second: &str,
) -> Result<MemoryEntrance<MemoryLink>, Fail> {
    let mut plans = Vec::new(alloc);
    plans.push(plan_of(alloc, first)?)?;
    plans.push(plan_of(alloc, second)?)?;
    Ok(MemoryEntrance::new(alloc, plans, Vec::new(alloc)))
}

/// A world over what a keeper holds, whose doors bring these lines, by the words of a row.
fn hooked_world(
    alloc: Global,
    stored: SteadyKeeper,
    doors: (&str, &str),
    making: &str,
    more: &str,
    ends: &str,
) -> Result<Told, Fail> {
    let (first, second) = doors;
    let spawner = MemorySpawner::new(alloc, ends_of(alloc, ends)?);
    let entrance = entrance_of(alloc, first, second)?;
    let lines = format!(in alloc; "{HOOKED};{more}")?;
    let config = config_with(alloc, lines.as_str())?;
    world_of_server(alloc, stored, entrance, spawner, config, making_of(making))
}

/// What the keeper holds first.
fn stored_of<R: Abort + Threads + Wait + Sync>(
    rt: &R,
    alloc: Global,
    events: &str,
) -> Result<SteadyKeeper, Fail> {
    if events.is_empty() {
        return Ok(SteadyKeeper::new(alloc));
    }
    stored_under(rt, alloc, "hook", events, "")
}

/// How many changes were taken out.
fn taken_out(history: &[Entry]) -> usize {
    history
        .iter()
        .filter(|entry| matches!(entry, Entry::Hooked { .. }))
        .count()
}

fn push_taken(text: &mut String, periods: &[Period]) -> Result<(), Fail> {
    if periods.is_empty() {
        text.push_str("none")?;
    }
    for period in periods {
        push_count(text, taken_out(period.history.as_slice()))?;
    }
    Ok(())
}

fn push_world(text: &mut String, alloc: Global, world: &Told) -> Result<(), Fail> {
    text.push('|')?;
    match world.spawner() {
        Some(spawner) => push_runs(text, spawner)?,
        None => text.push_str("the spawner is out|")?,
    }
    let pairs = world.keeper().map_or(&[][..], |keeper| keeper.as_slice());
    let changes = changes_text(alloc, pairs)?;
    text.push_str(changes.as_str())?;
    text.push('|')?;
    push_taken(text, world.periods())
}

/// Runs `serve` over a world: how it ended, and what it leaves.
fn left<R: Threads + Wait + Sync>(rt: &R, alloc: Global, world: &mut Told) -> Result<String, Fail> {
    let mut text = ended(rt, alloc, SERVE, world)?;
    push_world(&mut text, alloc, world)?;
    Ok(text)
}

/// What a row leaves.
fn left_by<R: Abort + Threads + Wait + Sync>(
    rt: &R,
    alloc: Global,
    row: &str,
) -> Result<String, Fail> {
    let (events, rest) = column(row);
    let (first, rest) = column(rest);
    let (second, rest) = column(rest);
    let (making, rest) = column(rest);
    let (more, rest) = column(rest);
    let (ends, _) = column(rest);
    let stored = stored_of(rt, alloc, events)?;
    let mut world = hooked_world(alloc, stored, (first, second), making, more, ends)?;
    let text = left(rt, alloc, &mut world);
    drop(world);
    text
}

// What a row says is left.
fn wanted_of(row: &str) -> &str {
    let mut wanted = row;
    for _i in 0..6 {
        let (_, rest) = column(wanted);
        wanted = rest;
    }
    wanted
}

/// What a row says is left after the one order of two connections, or after the other one. A column that doesn't say
/// both is the same after either.
fn ordered(alloc: Global, wanted: &str, is_first: bool) -> Result<String, Fail> {
    let mut text = String::new(alloc);
    for column in wanted.split('|') {
        let (first, second) = column.split_once(" or ").unwrap_or((column, column));
        text.push_str(if is_first { first } else { second })?;
        text.push('|')?;
    }
    text.pop();
    Ok(text)
}

/// Asserts that this is left, after either order of two connections, of the row that wants it.
fn is_left_in_order(
    rt: &impl Abort,
    alloc: Global,
    left: &str,
    wanted: &str,
    row: &str,
) -> Result<(), Fail> {
    let second = ordered(alloc, wanted, false)?;
    if left != second.as_str() {
        let first = ordered(alloc, wanted, true)?;
        is_left(rt, left, first.as_str(), row);
    }
    Ok(())
}

#[test]
fn programs_are_run_beside_sessions(rt: HostRuntime) -> Result<(), Fail> {
    for row in ROWS.lines() {
        let left = left_by(&rt, rt.alloc(), row)?;
        is_left_in_order(&rt, rt.alloc(), left.as_str(), wanted_of(row), row)?;
    }
    Ok(())
}

/// What two servers leave, one after the other over one store: the first one's second change is held, and the second
/// one's doors bring nothing.
const HELD: &str =
    "HookHeld(2)|1 create user CORP 1000 alice,2 create user CORP 1001 bob,2 create user CORP 1001 bob,2 create user C\
    ORP 1001 bob, or 1 create user CORP 1000 bob,2 create user CORP 1001 alice,2 create user CORP 1001 alice,2 create \
    user CORP 1001 alice,|6e=0300000000000000;710000000000000002=0100e903000001030062006f006200; or \
    6e=0300000000000000;710000000000000002=0100e903000001050061006c00690063006500;| 1|Done|2 create user CORP 1001 bob\
    , or 2 create user CORP 1001 alice,|6e=0300000000000000;| 1";

/// Serves over a world, and tells what is left. A keeper with what its keeper holds then.
fn served_over<R: Threads + Wait + Sync>(
    rt: &R,
    alloc: Global,
    world: &mut Told,
    told: &mut String,
) -> Result<SteadyKeeper, Fail> {
    let text = left(rt, alloc, world)?;
    told.push_str(text.as_str())?;
    let pairs = world.keeper().map_or(&[][..], |keeper| keeper.as_slice());
    stored_with(alloc, pairs, "")
}

/// The same over what a keeper holds, with doors that bring these lines and runs that end so.
fn serve_over<R: Threads + Wait + Sync>(
    rt: &R,
    alloc: Global,
    stored: SteadyKeeper,
    doors: (&str, &str),
    ends: &str,
    told: &mut String,
) -> Result<SteadyKeeper, Fail> {
    let mut world = hooked_world(alloc, stored, doors, "", "", ends)?;
    let stored = served_over(rt, alloc, &mut world, told);
    drop(world);
    stored
}

const ALICE: &str = "BIND CONNECT OPEN-CORP CREATE-ALICE";

const BOB: &str = "BIND CONNECT OPEN-CORP CREATE-BOB";

#[test]
fn a_held_change_is_run_by_the_next_server(rt: HostRuntime) -> Result<(), Fail> {
    let alloc = rt.alloc();
    let mut told = String::new(alloc);
    let stored = SteadyKeeper::new(alloc);
    let stored = serve_over(&rt, alloc, stored, (ALICE, BOB), "0 - - -", &mut told)?;
    told.push('|')?;
    drop(serve_over(&rt, alloc, stored, ("", ""), "0", &mut told)?);
    is_left_in_order(
        &rt,
        alloc,
        told.as_str(),
        HELD,
        "two servers over one store",
    )
}

/// What `serve` is asked for over a world.
fn asked<R: Threads + Wait + Sync>(
    rt: &R,
    alloc: Global,
    world: &mut Told,
) -> Result<String, Fail> {
    let mut text = ended(rt, alloc, SERVE, world)?;
    text.push('|')?;
    push_asked(&mut text, world.asked())?;
    Ok(text)
}

/// A world whose doors bring nothing.
fn idle_world(alloc: Global, config: &str) -> Result<Told, Fail> {
    let spawner = MemorySpawner::new(alloc, Vec::new(alloc));
    let entrance = entrance_of(alloc, "", "")?;
    let config = config_with(alloc, config)?;
    world_of_server(
        alloc,
        SteadyKeeper::new(alloc),
        entrance,
        spawner,
        config,
        making_of(""),
    )
}

fn asked_by<R: Threads + Wait + Sync>(rt: &R, alloc: Global, config: &str) -> Result<String, Fail> {
    let mut world = idle_world(alloc, config)?;
    let text = asked(rt, alloc, &mut world);
    drop(world);
    text
}

#[test]
fn the_spawner_is_asked_for_where_there_is_a_hook(rt: HostRuntime) -> Result<(), Fail> {
    assert_eq!(rt;
        asked_by(&rt, rt.alloc(), HOOKED)?.as_str(),
        "Done|source first.toml;keeper ;entrance;spawner;"
    );
    assert_eq!(rt;
        asked_by(&rt, rt.alloc(), "workers = 2")?.as_str(),
        "Done|source first.toml;keeper ;entrance;"
    );
    assert_eq!(rt;
        asked_by(&rt, rt.alloc(), "workers = 0;[hook];program = \"x\"")?.as_str(),
        "Config(7)|source first.toml;keeper ;entrance;"
    );
    Ok(())
}
