// What is told of each event.
ghost use Rattle.std.specs.Prelude.{◌≡◌, ◌++◌, ℕ, ◌<◌, ◌^◌, length, All, option_to_list, IfOk, OnOk, nat_eq};
ghost use Rattle.std.specs.HashMap.{get};
ghost use Rattle.acct_config.specs.Spelled.{IsRightConfig};
ghost use Rattle.acct_rows.specs.Sound.{IsSoundRows};
ghost use Rattle.acct_machine.specs.Given.{passed_handle};
ghost use Rattle.acct_machine.specs.Machine.{state_of};
ghost use Rattle.grant_audit.specs.Following.{noted, seen, MayFollow, TracesEvent, MayWalk, Walks};
ghost use Rattle.grant_audit.specs.Traces.{traces};
ghost use Rattle.grant_audit.specs.Traced.{HooksAreTold, IsLegalFrom, IsTraced};

use crate::following::{begin, follow};
use crate::laws::{traces_are_right, walks_are_traces};
use crate::unkept::Unkept;
use crate::{NoMemory, Trace};
use acct_calls::Call;
use acct_config::Config;
use acct_machine::{Entry, Machine};
use acct_rows::Rows;
use std::alloc::Global;
use std::collections::HashMap;

// The trace of a call whose handle passes, by the openings that are known.
fn trace_call(
    machine: &Machine<Unkept>,
    openings: &HashMap<u128, u64>,
    event: u64,
    conn: u32,
    call: &Call,
) -> Option<Trace>
    ensures { result ≡ seen (state_of machine.now.past) (get nat_eq openings.now) event call.now
        (passed_handle (state_of machine.now.past) conn call.now) }
{
    let held = machine.passed_handle(conn, call)?;
    let opened = openings.get(&call.handle.number).copied().unwrap_or(0);
    Some(Trace {
        entry: event,
        conn: held.conn,
        serial: held.serial,
        opened,
        grant: held.granted,
        needed: machine.needed(call),
    })
}

fn push_some(traces: &mut Vec<Trace>, found: Option<Trace>) -> Result<(), NoMemory>
    ensures { OnOk result (traces.new.items ≡ traces.old.items ++ option_to_list found) }
{
    if let Some(trace) = found {
        traces.push(trace)?;
    }
    Ok(())
}

// Notes the event that gave a handle, where the last handle of its connection isn't the one that it was.
fn note(openings: &mut HashMap<u128, u64>, was: u128, now: u128, event: u64) -> Result<(), NoMemory>
    ensures { OnOk result ((number : ℕ)
        → get nat_eq openings.new number ≡ noted was now event (get nat_eq openings.old) number) }
{
    if was != now {
        openings.insert(now, event)?;
    }
    Ok(())
}

// An event is traced, and then followed.
fn trace_entry(
    alloc: Global,
    machine: &mut Machine<Unkept>,
    openings: &mut HashMap<u128, u64>,
    traces: &mut Vec<Trace>,
    event: u64,
    entry: &Entry,
) -> Result<(), NoMemory>
    requires { MayFollow machine.old.past entry.now }
    ensures { OnOk result (TracesEvent machine.old.past (get nat_eq openings.old) event entry.now traces.old.items
        machine.new.past (get nat_eq openings.new) traces.new.items) }
{
    match entry {
        Entry::Called { conn, call, .. } => {
            push_some(traces, trace_call(machine, openings, event, *conn, call))?;
            let was = machine.last_handle(*conn).number;
            follow(alloc, machine, entry)?;
            let now = machine.last_handle(*conn).number;
            note(openings, was, now, event)
        }
        _ => follow(alloc, machine, entry),
    }
}

// The events of a history are traced and followed, in order.
fn trace_all(
    alloc: Global,
    machine: &mut Machine<Unkept>,
    openings: &mut HashMap<u128, u64>,
    traces: &mut Vec<Trace>,
    history: &[Entry],
) -> Result<(), NoMemory>
    requires { MayWalk machine.old.past history.now }
    ensures walks { OnOk result (Walks machine.old.past (get nat_eq openings.old) 1 history.now traces.old.items
        machine.new.past (get nat_eq openings.new) traces.new.items) }
    ensures short { length history.now < 2 ^ 64 }
{
    for i in 0..history.len() {
        let event = i as u64 + 1;
        trace_entry(alloc, machine, openings, traces, event, &history[i])?;
    }
    Ok(())
}

// The map's end. The two ends stand in functions of their own, since `trace_of` ends in three ways.
fn forget(openings: HashMap<u128, u64>) {
    drop(openings)
}

// The second machine's end.
fn end(machine: Machine<Unkept>) {
    drop(machine)
}

/// The traces of a legal history, from the configuration and the rows where it began: one for each call whose handle
/// passed, in order, whether it ran or not. The handle of each came by one event of the history, what was granted there
/// is what the trace says, and that has each bit that the call needed. A row left the outbox only where a program is
/// told of changes. The history is run again on a machine of its own; a handle's event is looked up, so that the time
/// is that of this run.
pub fn trace_of(
    alloc: Global,
    config: &Config,
    rows: &Rows,
    history: &[Entry],
) -> Result<Vec<Trace>, NoMemory>
    requires right { IsRightConfig config.now }
    requires sound { IsSoundRows rows.now.lists }
    requires legal { IsLegalFrom config.now rows.now.lists history.now }
    requires hooks { HooksAreTold config.now history.now }
    ensures traces { IfOk result (λ found. found.items ≡ traces config.now rows.now.lists history.now) }
    ensures traced { IfOk result (λ found. All (IsTraced config.now rows.now.lists history.now) found.items) }
{
    walks_are_traces();
    traces_are_right();
    let mut machine = begin(alloc, config, rows)?;
    let mut openings = HashMap::new(alloc);
    let mut traces = Vec::new(alloc);
    let walked = trace_all(alloc, &mut machine, &mut openings, &mut traces, history);
    forget(openings);
    end(machine);
    match walked {
        Ok(()) => Ok(traces),
        Err(none) => {
            drop(traces);
            Err(none)
        }
    }
}
