// Rows that leave the outbox: in order, each once, and as the store lets them.
ghost use Rattle.std.specs.Prelude.{◌≡◌, true, IfOk, length};
ghost use Rattle.acct_config.specs.Spelled.{IsRightConfig};
ghost use Rattle.acct_machine.specs.Outbox.{has_hook};

use super::configs::{PLAIN, configured};
use super::scripts::{keeper_with, machine_over};
use acct_base::Seq;
use acct_keeper::{Change, Keeper, MemoryKeeper};
use acct_machine::{Config, Machine, open_store};
use std::alloc::Global;
use std::process::Abort;
use std::test::Fail;

/// The table of a program that is told of changes.
const HOOK: &str = "[hook]\nprogram = \"/bin/add-user\"\n";

/// The value of an out row: the account alice, user 1000 of the account domain, was made.
const ALICE: [u8; 19] = [
    1, 0, 0xe8, 3, 0, 0, 1, 5, 0, 0x61, 0, 0x6c, 0, 0x69, 0, 0x63, 0, 0x65, 0,
];

/// A program is told of changes.
pub fn is_told(rt: &impl Abort, config: &Config)
    ensures { has_hook config.now ≡ true }
{
    assert!(rt; config.hook.is_some());
}

/// The plain configuration with a program that is told of changes.
pub fn with_hook(rt: &impl Abort, alloc: Global) -> Result<Config, Fail>
    ensures right { IfOk result IsRightConfig }
    ensures listeners { IfOk result (λ config. length config.listeners ≡ 2) }
    ensures told { IfOk result (λ config. has_hook config ≡ true) }
{
    let document = format!(in alloc; "{PLAIN}{HOOK}")?;
    let config = configured(rt, alloc, document.as_str())?;
    is_told(rt, &config);
    Ok(config)
}

/// The change that puts a pair.
fn put_of(alloc: Global, key: &[u8], value: &[u8]) -> Result<Change, Fail> {
    let key = Seq::copy_of(alloc, key)?;
    let value = Seq::copy_of(alloc, value)?;
    Ok(Change {
        key,
        value: Some(value),
    })
}

/// The key of the out row of a number.
fn key_of(alloc: Global, number: u64) -> Result<Seq<u8>, Fail> {
    let mut key = Seq::copy_of(alloc, b"q")?;
    for byte in number.to_be_bytes() {
        key.push(byte)?;
    }
    Ok(key)
}

/// The change that puts an out row of alice.
fn alice_put(alloc: Global, number: u64) -> Result<Change, Fail> {
    let key = key_of(alloc, number)?;
    put_of(alloc, key.as_slice(), &ALICE)
}

fn add_puts(alloc: Global, changes: &mut Vec<Change>, next: u64) -> Result<(), Fail> {
    changes.push(put_of(alloc, b"n", &next.to_le_bytes())?)?;
    for number in 1..next {
        changes.push(alice_put(alloc, number)?)?;
    }
    Ok(())
}

/// Puts the number that comes next, and an out row of alice for each below it, by one commit.
fn put_rows(alloc: Global, keeper: &mut MemoryKeeper, next: u64) -> Result<(), Fail> {
    let mut changes = Vec::new(alloc);
    add_puts(alloc, &mut changes, next)?;
    keeper.commit(&changes)?;
    Ok(())
}

/// Seeds a store, and fills its outbox.
fn fill(alloc: Global, config: &Config, keeper: &mut MemoryKeeper, next: u64) -> Result<(), Fail>
    requires { IsRightConfig config.now }
{
    drop(open_store(alloc, config, keeper)?);
    put_rows(alloc, keeper, next)
}

/// A store that is filled so, whose calls of these numbers fail.
pub fn filled(
    alloc: Global,
    config: &Config,
    next: u64,
    failing: &[u64],
) -> Result<MemoryKeeper, Fail>
    requires { IsRightConfig config.now }
{
    let mut keeper = keeper_with(alloc, failing)?;
    match fill(alloc, config, &mut keeper, next) {
        Ok(()) => Ok(keeper),
        Err(fail) => {
            drop(keeper);
            Err(fail)
        }
    }
}

/// A machine over such a store.
fn made(
    rt: &impl Abort,
    alloc: Global,
    config: &Config,
    next: u64,
    failing: &[u64],
) -> Result<Machine<MemoryKeeper>, Fail>
    requires { IsRightConfig config.now }
    ensures { IfOk result (λ machine. machine.past.start.config ≡ config.now) }
{
    machine_over(rt, alloc, config, filled(alloc, config, next, failing)?)
}

/// The number of the first out row, or 0 where there is none.
fn first_of(machine: &Machine<MemoryKeeper>) -> u64 {
    match machine.first_out() {
        Some(row) => row.number,
        None => 0,
    }
}

/// Tells which row is the first, which number is to leave, and what came of it.
fn take(text: &mut String, machine: &mut Machine<MemoryKeeper>, number: u64) -> Result<(), Fail>
    requires { has_hook machine.old.past.start.config ≡ true }
    ensures { has_hook machine.new.past.start.config ≡ true }
{
    let first = first_of(machine);
    let end = machine.hooked(number);
    write!(text, "{first} {number} {end:?};")?;
    Ok(())
}

/// Tells it of one number after the other.
fn take_all(
    alloc: Global,
    machine: &mut Machine<MemoryKeeper>,
    numbers: &[u64],
) -> Result<String, Fail>
    requires { has_hook machine.old.past.start.config ≡ true }
{
    let mut text = String::new(alloc);
    for number in numbers {
        take(&mut text, machine, *number)?;
    }
    Ok(text)
}

/// How many entries, out rows and faults a machine leaves.
fn left(machine: Machine<MemoryKeeper>) -> (usize, usize, u64) {
    let (opening, history, rows, keeper) = machine.into_parts();
    let left = (history.len(), rows.out_rows().len(), keeper.faults());
    drop(opening);
    drop(history);
    drop(rows);
    drop(keeper);
    left
}

/// What comes of numbers that are to leave, and how many entries, out rows and faults are left.
fn told(
    rt: &impl Abort,
    alloc: Global,
    config: &Config,
    next: u64,
    failing: &[u64],
    numbers: &[u64],
) -> Result<String, Fail>
    requires right { IsRightConfig config.now }
    requires told { has_hook config.now ≡ true }
{
    let mut machine = made(rt, alloc, config, next, failing)?;
    let taken = take_all(alloc, &mut machine, numbers);
    let (entries, rows, faults) = left(machine);
    let mut text = taken?;
    write!(text, "{entries} {rows} {faults}")?;
    Ok(text)
}

/// The keeper's call that fails, the numbers that are to leave, and what comes of them. The fifth call, after a load,
/// the seeding, the rows and a load, is the first that takes a row out.
const TAKEN: [(u64, [u64; 5], &str); 3] = [
    (
        9,
        [2, 1, 1, 2, 2],
        "1 2 Past(1);1 1 Done;2 1 Past(2);2 2 Done;0 2 Past(0);2 0 0",
    ),
    (
        5,
        [1, 1, 0, 3, 2],
        "1 1 StoreFault(1);1 1 Done;2 0 Past(2);2 3 Past(2);2 2 Done;2 0 1",
    ),
    (
        6,
        [1, 2, 2, 1, 0],
        "1 1 Done;2 2 StoreFault(1);2 2 Done;0 1 Past(0);0 0 Past(0);2 0 1",
    ),
];

fn two_taken(rt: &impl Abort, alloc: Global, config: &Config) -> Result<(), Fail>
    requires right { IsRightConfig config.now }
    requires told { has_hook config.now ≡ true }
{
    for (failing, numbers, wanted) in TAKEN {
        let told = told(rt, alloc, config, 3, &[failing], &numbers)?;
        assert_eq!(rt; told.as_str(), wanted, "{failing}");
    }
    Ok(())
}

#[test]
fn rows_leave_in_order(rt: HostRuntime) -> Result<(), Fail> {
    let config = with_hook(&rt, rt.alloc())?;
    let ended = two_taken(&rt, rt.alloc(), &config);
    drop(config);
    ended
}

/// The numbers from 1 to 100.
fn hundred(alloc: Global) -> Result<Vec<u64>, Fail> {
    let mut numbers = Vec::new(alloc);
    for number in 1..=100 {
        numbers.push(number)?;
    }
    Ok(numbers)
}

fn all_taken(rt: &impl Abort, alloc: Global, config: &Config) -> Result<(), Fail>
    requires right { IsRightConfig config.now }
    requires told { has_hook config.now ≡ true }
{
    let numbers = hundred(alloc)?;
    let told = told(rt, alloc, config, 101, &[], &numbers)?;
    assert!(rt; told.as_str().ends_with("100 100 Done;100 0 0"), "{told}");
    Ok(())
}

#[test]
fn a_hundred_rows_leave(rt: HostRuntime) -> Result<(), Fail> {
    let config = with_hook(&rt, rt.alloc())?;
    let ended = all_taken(&rt, rt.alloc(), &config);
    drop(config);
    ended
}
