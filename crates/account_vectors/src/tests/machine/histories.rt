// What two connections ask and are answered, and the history then.
ghost use Rattle.std.specs.Prelude.{◌≡◌, true};
ghost use Rattle.acct_machine.specs.State.{is_live};
ghost use Rattle.acct_machine.specs.Machine.{state_of};

use super::configs::{ALLOW_FIRST, DENY_FIRST};
use super::scripts::{started, tell};
use crate::tests::words::repeated;
use acct_keeper::{Keeper, MemoryKeeper};
use acct_machine::{Entry, Machine};
use std::alloc::Global;
use std::process::Abort;
use std::test::Fail;

fn push_entry(text: &mut String, entry: &Entry) -> Result<(), Fail> {
    match entry {
        Entry::Opened { conn, listener } => write!(text, "opened {conn} {listener};")?,
        Entry::Called {
            conn,
            call,
            verdict,
            bytes,
        } => write!(
            text,
            "{conn} {:?} {} {verdict:?} {bytes};",
            call.face, call.opnum
        )?,
        Entry::Gone { conn } => write!(text, "gone {conn};")?,
        Entry::Hooked { number } => write!(text, "hooked {number};")?,
    }
    Ok(())
}

fn push_history(text: &mut String, history: &[Entry]) -> Result<(), Fail> {
    for entry in history {
        push_entry(text, entry)?;
    }
    Ok(())
}

/// The history of a machine whose first connection goes, how many accounts and accounts of the policy there were where
/// it began and there are now, and how often its keeper failed.
fn left(alloc: Global, machine: Machine<MemoryKeeper>) -> Result<String, Fail>
    requires { is_live 1 (state_of machine.past).conns ≡ true }
{
    let mut machine = machine;
    machine.gone(1);
    let (opening, history, rows, keeper) = machine.into_parts();
    let (before, now) = (opening.accounts().len(), rows.accounts().len());
    let (policy_before, policy_now) = (opening.lsa_rows().len(), rows.lsa_rows().len());
    let faults = keeper.faults();
    drop(opening);
    drop(rows);
    drop(keeper);
    let mut text = String::new(alloc);
    push_history(&mut text, &history)?;
    write!(text, "{before}-{now} {policy_before}-{policy_now} {faults}")?;
    Ok(text)
}

/// What a machine answers to a script, and what is left then.
fn told(
    rt: &impl Abort,
    alloc: Global,
    entries: &str,
    failing: &[u64],
    script: &str,
) -> Result<String, Fail> {
    let mut machine = started(rt, alloc, entries, failing)?;
    match tell(rt, alloc, &mut machine, script) {
        Ok(()) => left(alloc, machine),
        Err(fail) => {
            drop(machine);
            Err(fail)
        }
    }
}

/// A script leaves this under the plain configuration, where the keeper's calls of these numbers fail.
fn leaves(
    rt: &impl Abort,
    alloc: Global,
    failing: &[u64],
    script: &str,
    wanted: &str,
) -> Result<(), Fail> {
    let told = told(rt, alloc, "", failing, script)?;
    assert_eq!(rt; told.as_str(), wanted);
    Ok(())
}

/// Openings, and handles that belong to one connection. A handle is told by its connection and its serial.
const HANDLES: &str = "\
1 connect2 02000000 = 0 1.1
1 connect4 20 = 0 1.2
1 connect5 20 = 0 1.3
1 close 1.1 = 0 0.0
1 close 1.1 = fault 1c00001a
1 connect2 20 = 0 1.4
2 close 1.2 = fault 1c00001a
2 connect2 20 = 0 2.1
1 close 2.1 = fault 1c00001a
2 close 2.1 = 0 0.0
1 close 1.2 = 0 0.0";

const HANDLES_LEFT: &str =
    "opened 1 0;opened 2 1;1 Samr 57 Ran 220;1 Samr 62 Ran 220;1 Samr 64 Ran 220;\
    1 Samr 1 Ran 220;1 Samr 1 Ran 220;1 Samr 57 Ran 220;2 Samr 1 Ran 22;2 Samr 57 Ran 22;1 Samr 1 Ran 220;\
    2 Samr 1 Ran 22;1 Samr 1 Ran 220;gone 1;8-8 0-0 0";

/// Each interface closes handles to its own objects, and gives back another that it is sent. No root is opened.
const INTERFACES: &str = "\
1 connect2 20 = 0 1.1
1 rooted 1 = c000000d 0.0
1 policy 1 = 0 1.2
1 lsar-close 1.1 = c0000024 1.1
1 close 1.2 = c0000024 1.2
2 lsar-close 1.2 = fault 1c00001a
1 lsar-close 1.2 = 0 0.0
1 lsar-close 1.2 = fault 1c00001a
1 close 1.1 = 0 0.0";

const INTERFACES_LEFT: &str =
    "opened 1 0;opened 2 1;1 Samr 57 Ran 220;1 Lsa 44 Ran 220;1 Lsa 44 Ran 220;\
    1 Lsa 0 Ran 220;1 Samr 1 Ran 220;2 Lsa 0 Ran 22;1 Lsa 0 Ran 220;1 Lsa 0 Ran 220;1 Samr 1 Ran 220;gone 1;8-8 0-0 0";

#[test]
fn handles_are_opened_and_closed(rt: HostRuntime) -> Result<(), Fail> {
    leaves(&rt, rt.alloc(), &[], HANDLES, HANDLES_LEFT)?;
    leaves(&rt, rt.alloc(), &[], INTERFACES, INTERFACES_LEFT)
}

/// A hundred handles of one connection, with one of another among them, and more after the first that are closed.
const HUNDRED: &str = "\
<1-60:1 connect2 20 = 0 1.#
>2 connect2 20 = 0 2.1
<61-100:1 policy 1 = 0 1.#
><1-60:1 close 1.# = 0 0.0
><101-140:1 connect2 20 = 0 1.#
>2 close 2.1 = 0 0.0
<61-100:1 lsar-close 1.# = 0 0.0
><101-140:1 close 1.# = 0 0.0
>1 close 1.140 = fault 1c00001a";

const HUNDRED_LEFT: &str =
    "opened 1 0;opened 2 1;<1-60:1 Samr 57 Ran 220;>2 Samr 57 Ran 22;<1-40:1 Lsa 44 Ran 220;>\
    <1-60:1 Samr 1 Ran 220;><1-40:1 Samr 57 Ran 220;>2 Samr 1 Ran 22;<1-40:1 Lsa 0 Ran 220;><1-41:1 Samr 1 Ran 220;>\
    gone 1;8-8 0-0 0";

#[test]
fn a_hundred_handles_are_opened_and_closed(rt: HostRuntime) -> Result<(), Fail> {
    let alloc = rt.alloc();
    let script = repeated(alloc, HUNDRED)?;
    let wanted = repeated(alloc, HUNDRED_LEFT)?;
    leaves(&rt, alloc, &[], script.as_str(), wanted.as_str())
}

/// Rights that a right configuration without a descriptor doesn't grant, generic rights, and none.
const REFUSED: &str = "\
1 connect2 40 = c0000022 0.0
1 connect4 01000000 = c0000022 0.0
1 connect5 02000040 = c0000022 0.0
1 connect2 f0000000 = 0 1.1
1 connect2 0 = 0 1.2";

/// Whoever connects at the first listener is no user.
const DENIED: &str = "\
2 connect2 10 = c0000022 0.0
2 connect5 10 = c0000022 0.0
2 connect2 20 = 0 2.1
2 connect2 02000000 = 0 2.2
2 connect2 02000010 = c0000022 0.0
2 connect2 80000000 = c0000022 0.0
1 connect2 10 = 0 1.1";

#[test]
fn deny_before_allow(rt: HostRuntime) -> Result<(), Fail> {
    let alloc = rt.alloc();
    // With the entries exchanged, the first that speaks of the right allows it.
    for (entries, script) in [
        ("", REFUSED),
        (DENY_FIRST, DENIED),
        (ALLOW_FIRST, "2 connect2 10 = 0 2.1"),
    ] {
        told(&rt, alloc, entries, &[], script)?;
    }
    Ok(())
}

/// The keeper's third call, after the loading and the seeding, is the first creation's. It changes nothing: the serial
/// isn't used up, and the account isn't there. The second creation's commit is the last: a fifth call would fail.
const FAILING: &str = "\
1 policy 10 = 0 1.1
1 create 1.1 = c0000158 0.0
1 create 1.1 = 0 1.2
1 create 1.1 = c0000035 0.0";

const FAILING_LEFT: &str =
    "opened 1 0;opened 2 1;1 Lsa 44 Ran 220;1 Lsa 10 StoreFault(1) 220;1 Lsa 10 Ran 220;\
    1 Lsa 10 Ran 220;gone 1;8-8 0-1 1";

/// Nothing is committed where nothing changes: the first handle lacks the right to create.
const TWICE: &str = "\
1 policy 1 = 0 1.1
1 create 1.1 = c0000022 0.0
1 policy 10 = 0 1.2
1 create 1.2 = c0000158 0.0
1 create 1.2 = c0000158 0.0";

const TWICE_LEFT: &str = "opened 1 0;opened 2 1;1 Lsa 44 Ran 220;1 Lsa 10 Ran 220;1 Lsa 44 Ran 220;\
    1 Lsa 10 StoreFault(1) 220;1 Lsa 10 StoreFault(2) 220;gone 1;8-8 0-0 2";

#[test]
fn a_commit_that_fails_changes_nothing(rt: HostRuntime) -> Result<(), Fail> {
    leaves(&rt, rt.alloc(), &[3, 5], FAILING, FAILING_LEFT)?;
    leaves(&rt, rt.alloc(), &[3, 4], TWICE, TWICE_LEFT)
}

/// A deletion takes each handle to its object, of both connections, and no other.
const FEW: &str = "\
1 policy 11 = 0 1.1
2 policy 1 = 0 2.1
1 create 1.1 = 0 1.2
2 open 2.1 = 0 2.2
1 open 1.1 = 0 1.3
1 delete 1.2 = c0000022 1.2
2 delete 1.3 = fault 1c00001a
1 delete 1.3 = 0 0.0
1 lsar-close 1.3 = fault 1c00001a
1 lsar-close 1.2 = fault 1c00001a
2 lsar-close 2.2 = fault 1c00001a
2 open 2.1 = c0000034 0.0
1 create 1.1 = 0 1.4
2 lsar-close 2.1 = 0 0.0
1 lsar-close 1.4 = 0 0.0
1 lsar-close 1.1 = 0 0.0";

const MANY: &str = "\
1 policy 11 = 0 1.1
1 create 1.1 = 0 1.2
2 connect2 20 = 0 2.1
2 policy 1 = 0 2.2
2 open 2.2 = 0 2.3
1 open 1.1 = 0 1.3
2 open 2.2 = 0 2.4
1 open 1.1 = 0 1.4
1 lsar-close 1.3 = 0 0.0
2 open 2.2 = 0 2.5
1 policy 1 = 0 1.5
1 open 1.5 = 0 1.6
2 delete 2.4 = 0 0.0
1 lsar-close 1.2 = fault 1c00001a
1 lsar-close 1.4 = fault 1c00001a
1 lsar-close 1.6 = fault 1c00001a
2 lsar-close 2.3 = fault 1c00001a
2 lsar-close 2.4 = fault 1c00001a
2 lsar-close 2.5 = fault 1c00001a
2 close 2.1 = 0 0.0
2 lsar-close 2.2 = 0 0.0
1 lsar-close 1.5 = 0 0.0
1 lsar-close 1.1 = 0 0.0";

#[test]
fn a_deletion_takes_each_handle_to_its_object(rt: HostRuntime) -> Result<(), Fail> {
    let alloc = rt.alloc();
    for script in [FEW, MANY] {
        told(&rt, alloc, "", &[], script)?;
    }
    Ok(())
}
