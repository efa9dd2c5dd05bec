// A replay of event lines.
ghost use Rattle.std.specs.Prelude.{◌≡◌, ◌<◌, ◌≤◌, ◌^◌, [], None, length, IfSome, IfOk, IfErr, OnOk};
ghost use Rattle.acct_server.specs.declared.status.Status.TheVariants.{NoMemory, WriteFault};
ghost use Rattle.acct_keeper.specs.Faults.{Rose, faults_after, most_bytes};
ghost use Rattle.acct_machine.specs.Step.{state_at};
ghost use Rattle.acct_machine.specs.Outbox.{HoldsRows, AreCounted};
ghost use Rattle.acct_server.specs.Leaves.{IsConfigured, Leaves, ConfigCause, Breaks, RunsOut, Finishes, FinishBreaks};
ghost use Rattle.acct_server.specs.Leaves.{IsRunThrough, IsOfRun, is_write_fault};
ghost use Rattle.acct_server.specs.Replaying.{IsReplay, RunsLines};

use crate::beginning::begin;
use crate::events::LineError;
use crate::lines::next_line;
use crate::running::Run;
use crate::{Sink, Source, Status, read_whole, write_all};
use acct_base::Seq;
use acct_machine::{Config, Entry, Keeper, Rows, access_is_denied_exactly, read_config};
use rpc_session::streams_are_cut_anywhere;
use std::alloc::Global;

/// What a replay leaves: how it ended, the rows from which the history of its machine began, the history, the rows
/// after it, and the keeper. There are rows exactly where the machine was made, so that lines were run.
#[derive(Drop)]
pub struct Replayed<K: Drop> {
    pub status: Status,
    pub opening: Option<Rows>,
    pub history: Seq<Entry>,
    pub rows: Option<Rows>,
    pub keeper: K,
}

/// The configuration that a source's document spells.
pub fn read_configuration<S: Source>(alloc: Global, source: &mut S) -> Result<Config, Status>
    ensures configured { IfOk result (IsConfigured (S.left source.old)) }
    ensures short { OnOk result (IfSome (S.left source.old) (λ document. length document ≤ most_bytes)) }
    ensures cause { IfErr result (ConfigCause (S.left source.old) (S.faults source.old) (S.faults source.new)) }
    ensures later { S.faults source.old ≤ S.faults source.new }
{
    let document = read_whole(alloc, source)?;
    Ok(read_config(alloc, &document)?)
}

// Ends the connections that are still open, writes their lines, and answers the status.
fn finish<K: Keeper + Drop, T: Sink>(
    alloc: Global,
    run: &mut Run<K>,
    out: &mut T,
    status: Status,
) -> Status
    requires { IsRunThrough status }
    ensures through { IsRunThrough result → Finishes (T.held out.old) (T.held out.new) run.old run.new status result }
    ensures breaks { result ≡ WriteFault → FinishBreaks (T.held out.old) (T.held out.new) run.old run.new }
    ensures write { result ≡ WriteFault → Rose (T.faults out.old) (T.faults out.new) }
    ensures memory { result ≡ NoMemory → (run.new ≡ run.old) × (T.held out.new ≡ T.held out.old) }
    ensures later { T.faults out.old ≤ T.faults out.new }
    ensures faults { T.faults out.new ≡ faults_after (is_write_fault result) (T.faults out.old) }
    ensures start { run.new.machine.start ≡ run.old.machine.start }
    ensures status { IsOfRun result }
{
    match run.finish(alloc) {
        Ok(output) => match write_all(out, &output) {
            Ok(()) => status,
            Err(_) => Status::WriteFault,
        },
        Err(_) => Status::NoMemory,
    }
}

// Runs the lines, writes what each of them prints, and answers the status.
fn run_lines<K: Keeper + Drop, T: Sink>(
    alloc: Global,
    run: &mut Run<K>,
    bytes: &[u8],
    out: &mut T,
) -> Status
    requires history { run.old.machine.history ≡ [] }
    requires peers { run.old.peers ≡ [] }
    requires short { length bytes.now < 2 ^ 32 }
    ensures through { IsRunThrough result
        → Leaves run.old.machine.start (T.held out.old) (T.held out.new) bytes.now run.new.machine.history result }
    ensures breaks { result ≡ WriteFault
        → Breaks run.old.machine.start (T.held out.old) (T.held out.new) bytes.now run.new.machine.history }
    ensures stops { result ≡ NoMemory
        → RunsOut run.old.machine.start (T.held out.old) (T.held out.new) bytes.now run.new.machine.history }
    ensures write { result ≡ WriteFault → Rose (T.faults out.old) (T.faults out.new) }
    ensures later { T.faults out.old ≤ T.faults out.new }
    ensures faults { T.faults out.new ≡ faults_after (is_write_fault result) (T.faults out.old) }
    ensures start { run.new.machine.start ≡ run.old.machine.start }
    ensures status { IsOfRun result }
{
    let mut rest = bytes;
    let mut number = 0u32;
    while !rest.is_empty() {
        let (line, after) = next_line(rest);
        match run.line(alloc, line) {
            Ok(ran) => {
                if write_all(out, &ran.output).is_err() {
                    return Status::WriteFault;
                }
                if let Some(count) = ran.full {
                    return finish(alloc, run, out, Status::HistoryFull(count));
                }
            }
            Err(LineError::Refused) => {
                return finish(alloc, run, out, Status::EventLine(number + 1));
            }
            Err(LineError::NoMemory) => return Status::NoMemory,
        }
        number += 1;
        rest = after;
    }
    finish(alloc, run, out, Status::Done)
}

// A replay whose lines weren't run.
fn not_run<K: Drop>(alloc: Global, status: Status, keeper: K) -> Replayed<K>
    ensures status { result.status ≡ status }
    ensures opening { result.opening ≡ None }
    ensures history { result.history ≡ [] }
    ensures rows { result.rows ≡ None }
    ensures keeper { result.keeper ≡ keeper }
{
    Replayed {
        status,
        opening: None,
        history: Seq::new(alloc),
        rows: None,
        keeper,
    }
}

// Runs the lines of events from the beginning of a run.
fn run_events<K: Keeper + Drop, T: Sink>(
    alloc: Global,
    mut run: Run<K>,
    events: &[u8],
    out: &mut T,
) -> Replayed<K>
    requires history { run.machine.history ≡ [] }
    requires peers { run.peers ≡ [] }
    requires short { length events.now < 2 ^ 32 }
    ensures runs { RunsLines run.machine.start events.now (T.held out.old) (T.held out.new) (T.faults out.old)
        (T.faults out.new) result }
    ensures stored { HoldsRows (K.held result.keeper) (state_at run.machine.start result.history).rows }
    ensures counts { AreCounted (K.faults result.keeper) run.machine.start result.history }
    ensures later { T.faults out.old ≤ T.faults out.new }
{
    let status = run_lines(alloc, &mut run, events, out);
    streams_are_cut_anywhere();
    access_is_denied_exactly();
    let (opening, history, rows, keeper) = run.into_parts();
    Replayed {
        status,
        opening: Some(opening),
        history: Seq::from_vec(history),
        rows: Some(rows),
        keeper,
    }
}

/// Replays the lines of an event file on one machine, over a keeper of its rows, and writes what each of them prints
/// after it has run. It always returns. The configuration is read and checked first, then the events are read whole,
/// then the store is opened, then the lines are run.
pub fn replay<S: Source, T: Sink, K: Keeper + Drop>(
    alloc: Global,
    config: &mut S,
    events: &mut S,
    out: &mut T,
    keeper: K,
) -> Replayed<K>
    ensures { IsReplay (record {
      left = S.left;
      read_faults = S.faults;
      held = T.held;
      write_faults = T.faults;
      pairs = K.held;
      store_faults = K.faults;
    })
        (record { config = config.old; events = events.old; out = out.old; keeper = keeper })
        (record { config = config.new; events = events.new; out = out.new; keeper = result.keeper }) result }
{
    let configuration = match read_configuration(alloc, config) {
        Ok(configuration) => configuration,
        Err(status) => return not_run(alloc, status, keeper),
    };
    let bytes = match read_whole(alloc, events) {
        Ok(bytes) => bytes,
        Err(e) => {
            drop(configuration);
            return not_run(alloc, Status::from(e), keeper);
        }
    };
    let begun = begin(alloc, &configuration, keeper);
    drop(configuration);
    match begun {
        Ok(machine) => run_events(alloc, Run::new(alloc, machine), &bytes, out),
        Err(none) => not_run(alloc, none.status, none.keeper),
    }
}
