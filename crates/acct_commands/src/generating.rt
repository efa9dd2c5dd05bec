// The command `gen` without a world: the replay of the generated events, and what is told of it.
ghost use Rattle.std.specs.Prelude.{◌≡◌, ◌≢◌, ◌≤◌, ℕ, IfOk, OnOk, is_some, true};
ghost use Rattle.acct_server.specs.declared.status.Status.TheVariants.{Done, Usage};
ghost use Rattle.acct_commands.specs.Generated.{most_users, generated};
ghost use Rattle.acct_commands.specs.Generating.{summary, configuration, source, LeftByReplay, IsWritten, Tells};
ghost use Rattle.acct_commands.specs.Generating.{IsGeneration, AreAccepted, ConfigurationIsTaken};

use crate::NoMemory;
use crate::events::generated;
use crate::summary::summary;
use acct_base::Seq;
use acct_keeper::SteadyKeeper;
use acct_machine::{Entry, Rows};
use acct_server::{Replayed, Sink, Status, SteadySink, SteadySource, replay, write_all};
use std::alloc::Global;

/// The configuration: one domain, and one listener, whose clients are administrators.
const CONFIGURATION: &str =
    "[domain]\nname = \"CORP\"\nsid = \"S-1-5-21-1-2-3\"\n[[listener]]\nname = \"a\"\naddress = \
    \"tcp:127.0.0.1:4045\"\ntoken = [\"S-1-5-21-1-2-3-500\", \"S-1-1-0\", \"S-1-5-32-544\"]\n";

/// The configuration.
#[tactic(auto, unfolding(crate::specs::Generating::configuration))]
fn configuration(alloc: Global) -> Result<SteadySource, NoMemory>
    ensures { IfOk result (λ config. config ≡ source configuration) }
{
    Ok(SteadySource::new(CONFIGURATION.as_bytes().to_vec(alloc)?))
}

/// A law: the configuration breaks no rule, and its first listener is the one that the events open.
pub fn configuration_is_taken()
    ensures { ConfigurationIsTaken }
{}

/// The events with so many users.
fn events(alloc: Global, users: u32) -> Result<SteadySource, NoMemory>
    requires { users ≤ most_users }
    ensures events { IfOk result (λ events. events ≡ source (generated users)) }
    ensures accepted { OnOk result (AreAccepted (generated users)) }
{
    Ok(SteadySource::new(generated(alloc, users)?))
}

/// A replay that found no memory for its sources.
fn without_sources(alloc: Global) -> Replayed<SteadyKeeper>
    ensures { (users : ℕ) → LeftByReplay users result }
{
    Replayed {
        status: Status::NoMemory,
        opening: None,
        history: Seq::new(alloc),
        rows: None,
        keeper: SteadyKeeper::new(alloc),
    }
}

/// Replays the events with so many users, over parts in memory.
fn replay_generated(alloc: Global, users: u32) -> Replayed<SteadyKeeper>
    requires { users ≤ most_users }
    ensures { LeftByReplay users result }
{
    let mut config = match configuration(alloc) {
        Ok(config) => config,
        Err(_) => return without_sources(alloc),
    };
    let mut events = match events(alloc, users) {
        Ok(events) => events,
        Err(_) => return without_sources(alloc),
    };
    replay(
        alloc,
        &mut config,
        &mut events,
        &mut SteadySink,
        SteadyKeeper::new(alloc),
    )
}

/// Writes the summary of a history and rows, and answers how that ended.
fn write_summary<T: Sink>(alloc: Global, history: &[Entry], rows: &Rows, out: &mut T) -> Status
    ensures written { IsWritten (summary history.now rows.now.lists) (T.held out.old) (T.held out.new)
        (T.faults out.old) (T.faults out.new) result }
    ensures later { T.faults out.old ≤ T.faults out.new }
{
    match summary(alloc, history, rows) {
        Ok(lines) => match write_all(out, &lines) {
            Ok(()) => Status::Done,
            Err(_) => Status::WriteFault,
        },
        Err(_) => Status::NoMemory,
    }
}

/// Tells a sink what a replay left: its summary, if it was run to its end. Answers how that ended.
fn tell<T: Sink>(
    alloc: Global,
    status: Status,
    history: &[Entry],
    rows: &Option<Rows>,
    out: &mut T,
) -> Status
    requires { status ≡ Done → is_some rows.now ≡ true }
    ensures { Tells status history.now rows.now (T.held out.old) (T.held out.new) (T.faults out.old)
        (T.faults out.new) result }
{
    match status {
        Status::Done => match rows {
            Some(rows) => write_summary(alloc, history, rows, out),
            None => unreachable!(),
        },
        status => status,
    }
}

/// How the command ended, and what its replay left: the rows from which the history of its machine began, the history,
/// and the rows after it.
#[derive(Drop)]
pub struct Generation {
    pub ended: Status,
    pub opening: Option<Rows>,
    pub history: Seq<Entry>,
    pub rows: Option<Rows>,
}

/// Replays the events with so many users, 1 to 10,000, and writes the summary of what that left to a sink.
pub fn generate<T: Sink>(alloc: Global, users: u32, out: &mut T) -> Generation
    requires { users ≤ most_users }
    ensures is { IsGeneration users (T.held out.old) (T.held out.new) (T.faults out.old) (T.faults out.new) result }
    ensures not_usage { result.ended ≢ Usage }
{
    let Replayed {
        status,
        opening,
        history,
        rows,
        keeper: _,
    } = replay_generated(alloc, users);
    let ended = tell(alloc, status, history.as_slice(), &rows, out);
    Generation {
        ended,
        opening,
        history,
        rows,
    }
}
