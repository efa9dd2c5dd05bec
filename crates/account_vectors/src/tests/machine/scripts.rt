// Scripts: what two connections ask, line by line, and what each call is answered.
ghost use Rattle.std.specs.Prelude.{◌≡◌, true, IfOk, length};
ghost use Rattle.acct_config.specs.Spelled.{IsRightConfig};
ghost use Rattle.acct_machine.specs.Access.{IsCall};
ghost use Rattle.acct_machine.specs.State.{is_live};
ghost use Rattle.acct_machine.specs.Machine.{state_of};

use super::calls::{call_of, push_acted};
use super::configs::with_entries;
use crate::tests::words::word;
use acct_keeper::{MemoryKeeper, SteadyKeeper};
use acct_machine::{Acted, Call, Config, Machine, Opened, open_store};
use std::alloc::Global;
use std::process::Abort;
use std::test::Fail;

/// A keeper in memory without a pair, whose calls of these numbers fail.
pub fn keeper_with(alloc: Global, failing: &[u64]) -> Result<MemoryKeeper, Fail> {
    let failing = failing.to_vec(alloc)?;
    Ok(MemoryKeeper::new(SteadyKeeper::new(alloc), failing))
}

/// A machine over a keeper in memory.
pub fn machine_over(
    rt: &impl Abort,
    alloc: Global,
    config: &Config,
    mut keeper: MemoryKeeper,
) -> Result<Machine<MemoryKeeper>, Fail>
    requires { IsRightConfig config.now }
    ensures { IfOk result (λ machine. machine.past.start.config ≡ config.now) }
{
    let rows = open_store(alloc, config, &mut keeper)?;
    match Machine::new(alloc, config, rows, keeper) {
        Ok(machine) => Ok(machine),
        Err(_) => panic!(rt; "memory is wanted"),
    }
}

/// Connection 1 comes at the first listener, and connection 2 at the second.
fn connect(rt: &impl Abort, machine: &mut Machine<MemoryKeeper>)
    requires { length machine.old.past.start.config.listeners ≡ 2 }
    ensures first { is_live 1 (state_of machine.new.past).conns ≡ true }
    ensures second { is_live 2 (state_of machine.new.past).conns ≡ true }
{
    match machine.open_conn(0) {
        Opened::Conn(1) => {}
        _ => panic!(rt; "connection 1 wasn't opened"),
    }
    match machine.open_conn(1) {
        Opened::Conn(2) => {}
        _ => panic!(rt; "connection 2 wasn't opened"),
    }
}

/// A machine with both connections under a configuration of two listeners, over a keeper in memory.
pub fn started_over(
    rt: &impl Abort,
    alloc: Global,
    config: Config,
    keeper: MemoryKeeper,
) -> Result<Machine<MemoryKeeper>, Fail>
    requires right { IsRightConfig config }
    requires listeners { length config.listeners ≡ 2 }
    ensures first { IfOk result (λ machine. is_live 1 (state_of machine.past).conns ≡ true) }
    ensures second { IfOk result (λ machine. is_live 2 (state_of machine.past).conns ≡ true) }
{
    let made = machine_over(rt, alloc, &config, keeper);
    drop(config);
    let mut machine = made?;
    connect(rt, &mut machine);
    Ok(machine)
}

/// The same over a keeper without a pair, whose calls of these numbers fail.
pub fn started_under(
    rt: &impl Abort,
    alloc: Global,
    config: Config,
    failing: &[u64],
) -> Result<Machine<MemoryKeeper>, Fail>
    requires right { IsRightConfig config }
    requires listeners { length config.listeners ≡ 2 }
    ensures first { IfOk result (λ machine. is_live 1 (state_of machine.past).conns ≡ true) }
    ensures second { IfOk result (λ machine. is_live 2 (state_of machine.past).conns ≡ true) }
{
    match keeper_with(alloc, failing) {
        Ok(keeper) => started_over(rt, alloc, config, keeper),
        Err(fail) => {
            drop(config);
            Err(fail)
        }
    }
}

/// The same under the plain configuration, with these entries of the descriptor of the server or with none.
pub fn started(
    rt: &impl Abort,
    alloc: Global,
    entries: &str,
    failing: &[u64],
) -> Result<Machine<MemoryKeeper>, Fail>
    ensures first { IfOk result (λ machine. is_live 1 (state_of machine.past).conns ≡ true) }
    ensures second { IfOk result (λ machine. is_live 2 (state_of machine.past).conns ≡ true) }
{
    let config = with_entries(rt, alloc, entries)?;
    started_under(rt, alloc, config, failing)
}

/// A connection makes a call, whose stub took 220 or 22 bytes.
fn acted(machine: &mut Machine<MemoryKeeper>, is_first: bool, call: Call) -> Acted
    requires first { is_live 1 (state_of machine.old.past).conns ≡ true }
    requires second { is_live 2 (state_of machine.old.past).conns ≡ true }
    requires call { IsCall call }
    ensures first { is_live 1 (state_of machine.new.past).conns ≡ true }
    ensures second { is_live 2 (state_of machine.new.past).conns ≡ true }
{
    if is_first {
        machine.act(1, call, 220)
    } else {
        machine.act(2, call, 22)
    }
}

/// What a connection is answered.
fn answer(alloc: Global, machine: &mut Machine<MemoryKeeper>, line: &str) -> Result<String, Fail>
    requires first { is_live 1 (state_of machine.old.past).conns ≡ true }
    requires second { is_live 2 (state_of machine.old.past).conns ≡ true }
    ensures first { is_live 1 (state_of machine.new.past).conns ≡ true }
    ensures second { is_live 2 (state_of machine.new.past).conns ≡ true }
{
    let (conn, words) = word(line);
    let call = call_of(alloc, words, machine.config().sid)?;
    let acted = acted(machine, conn == "1", call);
    let mut text = String::new(alloc);
    let told = push_acted(&mut text, &acted);
    drop(acted);
    told?;
    Ok(text)
}

/// Tells a line of a script: a connection, what it asks, and what it is answered.
fn tell_line(
    rt: &impl Abort,
    alloc: Global,
    machine: &mut Machine<MemoryKeeper>,
    line: &str,
) -> Result<(), Fail>
    requires first { is_live 1 (state_of machine.old.past).conns ≡ true }
    requires second { is_live 2 (state_of machine.old.past).conns ≡ true }
    ensures first { is_live 1 (state_of machine.new.past).conns ≡ true }
    ensures second { is_live 2 (state_of machine.new.past).conns ≡ true }
{
    let (asked, wanted) = line.split_once(" = ").unwrap_or((line, ""));
    let told = answer(alloc, machine, asked)?;
    assert_eq!(rt; told.as_str(), wanted, "{line}");
    Ok(())
}

/// Tells each line of a script.
pub fn tell(
    rt: &impl Abort,
    alloc: Global,
    machine: &mut Machine<MemoryKeeper>,
    script: &str,
) -> Result<(), Fail>
    requires first { is_live 1 (state_of machine.old.past).conns ≡ true }
    requires second { is_live 2 (state_of machine.old.past).conns ≡ true }
    ensures first { is_live 1 (state_of machine.new.past).conns ≡ true }
    ensures second { is_live 2 (state_of machine.new.past).conns ≡ true }
{
    for line in script.lines() {
        tell_line(rt, alloc, machine, line)?;
    }
    Ok(())
}
