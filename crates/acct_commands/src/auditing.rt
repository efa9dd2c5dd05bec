// The command `audit` without a world: its sources are read whole, their events replayed in memory, and the traces of
// the history written.
ghost use Rattle.std.specs.Prelude.{◌≡◌, ◌≤◌, [], None, All};
ghost use Rattle.acct_config.specs.Spelled.{IsRightConfig};
ghost use Rattle.acct_keeper.specs.Faults.{faults_after};
ghost use Rattle.acct_server.specs.Leaves.{is_write_fault};
ghost use Rattle.acct_server.specs.Replaying.{lists_in};
ghost use Rattle.acct_server.specs.declared.status.Status.TheVariants.{Done};
ghost use Rattle.grant_audit.specs.Traced.{IsTraced};
ghost use Rattle.grant_audit.specs.Traces.{traces};
ghost use Rattle.acct_commands.specs.AuditLines.{trace_lines};
ghost use Rattle.acct_commands.specs.Auditing.{AreTraceable, MayBeTraced, TellsTraces, IsAudit};
ghost use Rattle.acct_commands.specs.Generating.{IsWritten};

use crate::audit_lines::trace_lines;
use acct_base::Seq;
use acct_keeper::Keeper;
use acct_machine::{Config, Entry, Rows, read_config};
use acct_server::{
    Replayed, Sink, Source, Status, SteadySink, SteadySource, read_whole, replay, write_all,
};
use grant_audit::{trace_of, traces_are_right};
use std::alloc::Global;

/// How an audit ended, and what its replay left: the rows from which the history of its machine began, the history, the
/// rows after it, and the keeper.
#[derive(Drop)]
pub struct Audited<K: Drop> {
    pub ended: Status,
    pub opening: Option<Rows>,
    pub history: Seq<Entry>,
    pub rows: Option<Rows>,
    pub keeper: K,
}

/// An audit whose events weren't replayed.
fn not_audited<K: Drop>(alloc: Global, ended: Status, keeper: K) -> Audited<K>
    ensures ended { result.ended ≡ ended }
    ensures opening { result.opening ≡ None }
    ensures history { result.history ≡ [] }
    ensures rows { result.rows ≡ None }
    ensures keeper { result.keeper ≡ keeper }
{
    Audited {
        ended,
        opening: None,
        history: Seq::new(alloc),
        rows: None,
        keeper,
    }
}

/// Writes the traces of a history from the rows where it began, and answers how that ended.
fn write_traces<T: Sink>(
    alloc: Global,
    config: &Config,
    opening: &Rows,
    history: &[Entry],
    out: &mut T,
) -> Status
    requires right { IsRightConfig config.now }
    requires traceable { AreTraceable config.now history.now opening.now.lists }
    ensures written { IsWritten (trace_lines (traces config.now opening.now.lists history.now)) (T.held out.old)
        (T.held out.new) (T.faults out.old) (T.faults out.new) result }
    ensures later { T.faults out.old ≤ T.faults out.new }
    ensures faults { T.faults out.new ≡ faults_after (is_write_fault result) (T.faults out.old) }
    ensures right { All (IsTraced config.now opening.now.lists history.now)
        (traces config.now opening.now.lists history.now) }
{
    traces_are_right();
    let Ok(found) = trace_of(alloc, config, opening, history) else {
        return Status::NoMemory;
    };
    match trace_lines(alloc, &found) {
        Ok(lines) => match write_all(out, &lines) {
            Ok(()) => Status::Done,
            Err(_) => Status::WriteFault,
        },
        Err(_) => Status::NoMemory,
    }
}

/// Tells a sink the traces of what a replay left, if that was run to its end. Answers how that ended.
fn tell<T: Sink>(
    alloc: Global,
    config: &Config,
    status: Status,
    opening: &Option<Rows>,
    history: &[Entry],
    out: &mut T,
) -> Status
    requires right { IsRightConfig config.now }
    requires traceable { status ≡ Done → MayBeTraced config.now history.now (lists_in opening.now) }
    ensures { TellsTraces config.now status opening.now history.now out.old out.new (T.held out.old) (T.held out.new)
        (T.faults out.old) (T.faults out.new) result }
{
    match status {
        Status::Done => match opening {
            Some(opening) => write_traces(alloc, config, opening, history, out),
            None => unreachable!(),
        },
        status => status,
    }
}

/// Ends an audit with what its replay left.
fn finish<T: Sink, K: Drop>(
    alloc: Global,
    config: &Config,
    left: Replayed<K>,
    out: &mut T,
) -> Audited<K>
    requires right { IsRightConfig config.now }
    requires traceable { left.status ≡ Done → MayBeTraced config.now left.history (lists_in left.opening) }
    ensures tells { TellsTraces config.now left.status left.opening left.history out.old out.new (T.held out.old)
        (T.held out.new) (T.faults out.old) (T.faults out.new) result.ended }
    ensures opening { result.opening ≡ left.opening }
    ensures history { result.history ≡ left.history }
    ensures rows { result.rows ≡ left.rows }
    ensures keeper { result.keeper ≡ left.keeper }
{
    let Replayed {
        status,
        opening,
        history,
        rows,
        keeper,
    } = left;
    let ended = tell(alloc, config, status, &opening, history.as_slice(), out);
    Audited {
        ended,
        opening,
        history,
        rows,
        keeper,
    }
}

/// Audits the events of a source under the configuration of another. The configuration is read whole and checked, then
/// the events are read whole and replayed over these bytes in memory, with a sink that never fails and the keeper. Only
/// where that was run to its end a line is written for each call whose handle was let pass. The status is a fault of
/// the reading, that of the replay, that of the writing, or that memory ran out.
pub fn audit<S: Source, T: Sink, K: Keeper + Drop>(
    alloc: Global,
    config: &mut S,
    events: &mut S,
    out: &mut T,
    keeper: K,
) -> Audited<K>
    ensures { IsAudit (record {
      left = S.left;
      read_faults = S.faults;
      held = T.held;
      write_faults = T.faults;
      pairs = K.held;
      store_faults = K.faults;
    })
        (record { config = config.old; events = events.old; out = out.old; keeper = keeper })
        (record { config = config.new; events = events.new; out = out.new; keeper = result.keeper }) result }
{
    let document = match read_whole(alloc, config) {
        Ok(document) => document,
        Err(e) => return not_audited(alloc, Status::from(e), keeper),
    };
    let configuration = match read_config(alloc, &document) {
        Ok(configuration) => configuration,
        Err(e) => return not_audited(alloc, Status::from(e), keeper),
    };
    let bytes = match read_whole(alloc, events) {
        Ok(bytes) => bytes,
        Err(e) => {
            drop(configuration);
            return not_audited(alloc, Status::from(e), keeper);
        }
    };
    let mut document = SteadySource::new(document);
    let mut bytes = SteadySource::new(bytes);
    let left = replay(alloc, &mut document, &mut bytes, &mut SteadySink, keeper);
    let audited = finish(alloc, &configuration, left, out);
    drop(configuration);
    audited
}
