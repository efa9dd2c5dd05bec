// What the audit tells of scripts: which event gave the handle of each call that was let pass. The two connections are
// events 1 and 2, so the first line of a script is event 3.
ghost use Rattle.std.specs.Prelude.{◌≡◌, true, IfOk};
ghost use Rattle.acct_machine.specs.State.{is_live};
ghost use Rattle.acct_machine.specs.Machine.{state_of};

use super::configs::{ADMINISTRATORS, PLAIN, configured};
use super::hooks::{filled, is_told, with_hook};
use super::scripts::{started_over, started_under, tell};
use crate::tests::words::repeated;
use acct_keeper::MemoryKeeper;
use acct_machine::{HookedEnd, Machine};
use grant_audit::{Trace, hooked_count, trace_of};
use std::alloc::Global;
use std::process::Abort;
use std::test::Fail;

/// Handles of both connections to one object, with different grants, and to others; calls that are denied, by a handle
/// of another connection, of a kind that isn't taken, and after the handle's end.
const HANDLES: &str = "\
1 connect2 02000000 = 0 1.1
1 connect2 20 = 0 1.2
2 connect2 30 = 0 2.1
1 domains 1.1 = 0
1 domains 1.2 = c0000022
2 domains 2.1 = 0
1 domain 02000000 1.2 = 0 1.3
2 domains 1.1 = fault 1c00001a
1 close 1.1 = 0 0.0
1 domains 1.1 = fault 1c00001a
1 lsar-close 1.2 = c0000024 1.2
1 connect2 20 = 0 1.4
1 domain 1 1.4 = 0 1.5
1 user 1 1.3 = 0 1.6";

const HANDLES_TRACED: &str = "\
6 1 1 3 000f003f 00000010;8 2 1 5 00000030 00000010;9 1 2 4 00000020 00000020;11 1 1 3 000f003f 00000000;\
15 1 4 14 00000020 00000020;16 1 3 9 000f07ff 00000200;";

/// The bytes of a descriptor with a list of one entry alone, that allows everyone 0x20.
const LIST: &str = "010004800000000000000000000000001400000002001c000100000000001400\
    20000000010100000000000100000000";

/// A handle outlives the change of its object's descriptor; the next has what is granted then.
const CHANGED: &str = "\
1 connect2 02000000 = 0 1.1
1 set 4 LIST 1.1 = 0
1 domains 1.1 = 0
1 connect2 02000000 = 0 1.2
1 domains 1.2 = c0000022
1 domain 1 1.2 = 0 1.3";

const CHANGED_TRACED: &str = "\
4 1 1 3 000f003f 00040000;5 1 1 3 000f003f 00000010;8 1 2 6 00060020 00000020;";

/// The keeper's third call is the first creation's. It gives no handle; what is created then has the next serial.
const FAILING: &str = "\
1 policy 10 = 0 1.1
1 create 1.1 = c0000158 0.0
1 create 1.1 = 0 1.2
1 create 1.1 = c0000035 0.0
1 lsar-close 1.2 = 0 0.0";

const FAILING_TRACED: &str = "\
4 1 1 3 00000010 00000010;5 1 1 3 00000010 00000010;6 1 1 3 00000010 00000010;7 1 2 5 00000001 00000000;";

/// A hundred calls by one handle, and its end.
const LONG: &str = "\
1 connect2 02000000 = 0 1.1
<1-100:1 domains 1.1 = 0
>1 close 1.1 = 0 0.0";

const LONG_TRACED: &str = "<4-103:# 1 1 3 000f003f 00000010;>104 1 1 3 000f003f 00000000;";

/// Calls before and after event 5, at which a row leaves the outbox. It gives no handle, and it has no trace.
const BEFORE: &str = "\
1 connect2 02000000 = 0 1.1
1 domains 1.1 = 0";

const AFTER: &str = "\
1 domain 02000000 1.1 = 0 1.2
1 user 1 1.2 = 0 1.3";

const AROUND_TRACED: &str = "\
4 1 1 3 000f003f 00000010;6 1 1 3 000f003f 00000020;7 1 2 6 000f07ff 00000200;";

fn push_trace(text: &mut String, trace: &Trace) -> Result<(), Fail> {
    write!(
        text,
        "{} {} {} {} {:08x} {:08x};",
        trace.entry, trace.conn, trace.serial, trace.opened, trace.grant, trace.needed
    )?;
    Ok(())
}

/// What the audit tells of a machine's history.
fn traced(rt: &impl Abort, alloc: Global, machine: &Machine<MemoryKeeper>) -> Result<String, Fail> {
    let history = machine.history();
    if machine.config().hook.is_none() && hooked_count(history) != 0 {
        panic!(rt; "a row left the outbox, and no program is told");
    }
    let traces = trace_of(alloc, machine.config(), machine.opening_rows(), history)?;
    let mut text = String::new(alloc);
    for trace in &traces {
        push_trace(&mut text, trace)?;
    }
    Ok(text)
}

/// What the audit tells of a machine that was told a script.
fn told_and_traced(
    rt: &impl Abort,
    alloc: Global,
    machine: &mut Machine<MemoryKeeper>,
    script: &str,
) -> Result<String, Fail>
    requires first { is_live 1 (state_of machine.old.past).conns ≡ true }
    requires second { is_live 2 (state_of machine.old.past).conns ≡ true }
{
    tell(rt, alloc, machine, script)?;
    traced(rt, alloc, machine)
}

/// A script under a document's configuration is answered as it says, and then traced so, where the keeper's calls of
/// these numbers fail.
fn is_traced(
    rt: &impl Abort,
    alloc: Global,
    document: &str,
    failing: &[u64],
    script: &str,
    wanted: &str,
) -> Result<(), Fail> {
    let script = script.replace(alloc, "LIST", LIST)?;
    let config = configured(rt, alloc, document)?;
    let mut machine = started_under(rt, alloc, config, failing)?;
    let text = told_and_traced(rt, alloc, &mut machine, script.as_str());
    drop(machine);
    assert_eq!(rt; text?.as_str(), wanted);
    Ok(())
}

#[test]
fn calls_are_traced_to_their_openings(rt: HostRuntime) -> Result<(), Fail> {
    let alloc = rt.alloc();
    is_traced(&rt, alloc, PLAIN, &[], HANDLES, HANDLES_TRACED)?;
    is_traced(&rt, alloc, ADMINISTRATORS, &[], CHANGED, CHANGED_TRACED)?;
    is_traced(&rt, alloc, PLAIN, &[3], FAILING, FAILING_TRACED)
}

#[test]
fn a_hundred_calls_are_traced(rt: HostRuntime) -> Result<(), Fail> {
    let alloc = rt.alloc();
    let script = repeated(alloc, LONG)?;
    let wanted = repeated(alloc, LONG_TRACED)?;
    is_traced(&rt, alloc, PLAIN, &[], script.as_str(), wanted.as_str())
}

/// A machine with both connections over a store with one row in its outbox.
fn started_with_row(rt: &impl Abort, alloc: Global) -> Result<Machine<MemoryKeeper>, Fail>
    ensures first { IfOk result (λ machine. is_live 1 (state_of machine.past).conns ≡ true) }
    ensures second { IfOk result (λ machine. is_live 2 (state_of machine.past).conns ≡ true) }
{
    let config = with_hook(rt, alloc)?;
    match filled(alloc, &config, 2, &[]) {
        Ok(keeper) => started_over(rt, alloc, config, keeper),
        Err(fail) => {
            drop(config);
            Err(fail)
        }
    }
}

/// The row leaves the outbox.
fn take_row(rt: &impl Abort, machine: &mut Machine<MemoryKeeper>)
    requires first { is_live 1 (state_of machine.old.past).conns ≡ true }
    requires second { is_live 2 (state_of machine.old.past).conns ≡ true }
    ensures first { is_live 1 (state_of machine.new.past).conns ≡ true }
    ensures second { is_live 2 (state_of machine.new.past).conns ≡ true }
{
    is_told(rt, machine.config());
    let end = machine.hooked(1);
    assert!(rt; matches!(end, HookedEnd::Done));
}

/// What the audit tells of calls before and after the row leaves.
fn traced_around_row(
    rt: &impl Abort,
    alloc: Global,
    machine: &mut Machine<MemoryKeeper>,
) -> Result<String, Fail>
    requires first { is_live 1 (state_of machine.old.past).conns ≡ true }
    requires second { is_live 2 (state_of machine.old.past).conns ≡ true }
{
    tell(rt, alloc, machine, BEFORE)?;
    take_row(rt, machine);
    tell(rt, alloc, machine, AFTER)?;
    traced(rt, alloc, machine)
}

#[test]
fn a_row_leaves_between_traced_calls(rt: HostRuntime) -> Result<(), Fail> {
    let mut machine = started_with_row(&rt, rt.alloc())?;
    let text = traced_around_row(&rt, rt.alloc(), &mut machine);
    drop(machine);
    assert_eq!(rt; text?.as_str(), AROUND_TRACED);
    Ok(())
}
