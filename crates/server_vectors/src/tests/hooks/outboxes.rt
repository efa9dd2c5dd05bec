// The command `hooks`, over worlds in memory.
use super::drains::{ends_of, push_runs};
use crate::tests::configs::config_of;
use crate::tests::left::{ended, is_left, push_asked};
use crate::tests::lines::column;
use crate::tests::replays::{changes_text, stored_under};
use crate::tests::worlds::{Told, making_of, world_of_spawner};
use account_hooks::MemorySpawner;
use std::alloc::Global;
use std::process::Abort;
use std::sync::Wait;
use std::test::Fail;
use std::thread::Threads;

const HOOKS: &str = "hooks first.toml ''";

/// Each row: the events whose changes a replay stored, how the run is made, the configuration, and how the runs end.
/// Then what is left: the status, the arguments of each run, and the changes that are stored. The first call of the
/// keeper loads, and the second one takes the first change out.
const ROWS: &str =
    "OPEN BIND CONNECT OPEN-CORP CREATE-ALICE||hook|1 - 0|Done|1 create user CORP 1000 alice,1 create user \
    CORP 1000 alice,1 create user CORP 1000 alice,|6e=0200000000000000;
OPEN BIND CONNECT OPEN-CORP CREATE-ALICE||hook-twice|1 - 0|HookHeld(1)|1 create user CORP 1000 alice,1 create user \
    CORP 1000 alice,|6e=0200000000000000;710000000000000001=0100e803000001050061006c00690063006500;
OPEN BIND CONNECT OPEN-CORP CREATE-ALICE|k2|hook|0|HookStore(1)|1 create user CORP 1000 alice,|6e=0200000000000000;\
    710000000000000001=0100e803000001050061006c00690063006500;
OPEN BIND CONNECT OPEN-CORP CREATE-ALICE|||0|Config(12)||6e=0200000000000000;710000000000000001=0100e80300000105006100\
    6c00690063006500;
OPEN BIND CONNECT OPEN-CORP CREATE-ALICE|k1|hook|0|StoreFault||6e=0200000000000000;710000000000000001=0100e80300000105\
    0061006c00690063006500;
OPEN BIND CONNECT OPEN-CORP CREATE-ALICE|t3|hook|0|SpawnFault||6e=0200000000000000;710000000000000001=0100e80300000105\
    0061006c00690063006500;
OPEN BIND CONNECT OPEN-CORP CREATE-ALICE SET-NAME||hook||Done|1 create user CORP 1000 alice,2 change user CORP 1000 \
    Alice,|6e=0300000000000000;
OPEN BIND CONNECT OPEN-CORP CREATE-ALICE SET-NAME||hook|0 1 1 1|HookHeld(2)|1 create user CORP 1000 alice,2 change \
    user CORP 1000 Alice,2 change user CORP 1000 Alice,2 change user CORP 1000 Alice,|6e=0300000000000000;7100000000000000\
    02=0200e803000001050041006c00690063006500;
OPEN BIND CONNECT OPEN-CORP CREATE-ALICE SET-CONTROL SET-CONTROL DELETE-ALICE|k3|hook||HookStore(1)|1 create user CORP \
    1000 alice,2 change user CORP 1000 alice,|6e=0400000000000000;710000000000000002=0200e803000001050061006c006900630\
    06500;710000000000000003=0300e803000001050061006c00690063006500;
OPEN BIND CONNECT OPEN-CORP CREATE-ALICE SET-CONTROL SET-CONTROL DELETE-ALICE||hook||Done|1 create user CORP 1000 \
    alice,2 change user CORP 1000 alice,3 delete user CORP 1000 alice,|6e=0400000000000000;
OPEN BIND CONNECT OPEN-CORP CREATE-OPS||hook||Done|1 create group CORP 1000 ops,|6e=0200000000000000;
OPEN BIND CONNECT OPEN-BUILTIN CREATE-LOCAL||hook||Done|1 create alias BUILTIN 1000 Local,|6e=0200000000000000;
OPEN BIND CONNECT||hook|1|Done||";

fn push_world(text: &mut String, alloc: Global, world: &Told) -> Result<(), Fail> {
    text.push('|')?;
    match world.spawner() {
        Some(spawner) => push_runs(text, spawner)?,
        None => text.push_str("the spawner is out|")?,
    }
    let pairs = world.keeper().map_or(&[][..], |keeper| keeper.as_slice());
    let changes = changes_text(alloc, pairs)?;
    text.push_str(changes.as_str())?;
    Ok(())
}

/// Runs `hooks` over a world: how it ended, and what it leaves.
fn left<R: Threads + Wait + Sync>(rt: &R, alloc: Global, world: &mut Told) -> Result<String, Fail> {
    let mut text = ended(rt, alloc, HOOKS, world)?;
    push_world(&mut text, alloc, world)?;
    Ok(text)
}

/// What a row leaves.
fn left_by<R: Abort + Threads + Wait + Sync>(
    rt: &R,
    alloc: Global,
    row: &str,
) -> Result<String, Fail> {
    let (events, rest) = column(row);
    let (making, rest) = column(rest);
    let (config, rest) = column(rest);
    let (ends, _) = column(rest);
    let stored = stored_under(rt, alloc, "hook", events, "")?;
    let spawner = MemorySpawner::new(alloc, ends_of(alloc, ends)?);
    let config = config_of(alloc, config)?;
    let mut world = world_of_spawner(alloc, stored, spawner, config, making_of(making))?;
    let text = left(rt, alloc, &mut world);
    drop(world);
    text
}

// What a row says is left.
fn wanted_of(row: &str) -> &str {
    let mut wanted = row;
    for _i in 0..4 {
        let (_, rest) = column(wanted);
        wanted = rest;
    }
    wanted
}

#[test]
fn outboxes_are_drained(rt: HostRuntime) -> Result<(), Fail> {
    for row in ROWS.lines() {
        is_left(
            &rt,
            left_by(&rt, rt.alloc(), row)?.as_str(),
            wanted_of(row),
            row,
        );
    }
    Ok(())
}

/// What `hooks` is asked for over a world.
fn asked<R: Threads + Wait + Sync>(
    rt: &R,
    alloc: Global,
    world: &mut Told,
) -> Result<String, Fail> {
    let mut text = ended(rt, alloc, HOOKS, world)?;
    text.push('|')?;
    push_asked(&mut text, world.asked())?;
    Ok(text)
}

#[test]
fn parts_are_asked_for_in_order(rt: HostRuntime) -> Result<(), Fail> {
    let alloc = rt.alloc();
    let stored = stored_under(&rt, alloc, "hook", "OPEN BIND CONNECT", "")?;
    let spawner = MemorySpawner::new(alloc, Vec::new(alloc));
    let mut world = world_of_spawner(
        alloc,
        stored,
        spawner,
        config_of(alloc, "hook")?,
        making_of(""),
    )?;
    let text = asked(&rt, alloc, &mut world);
    drop(world);
    assert_eq!(rt; text?.as_str(), "Done|source first.toml;keeper ;spawner;");
    Ok(())
}
