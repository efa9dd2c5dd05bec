// The second machine, which runs what had an effect.
ghost use Rattle.std.specs.Prelude.{◌≡◌, ◌<◌, ◌+◌, ◌-◌, true, [], None, length, slice_get, IfOk, OnOk};
ghost use Rattle.acct_config.specs.Spelled.{IsRightConfig};
ghost use Rattle.acct_rows.specs.Sound.{IsSoundRows};
ghost use Rattle.acct_machine.specs.declared.entry.Entry.TheVariants.{Opened as OpenedEntry, Called, Hooked};
ghost use Rattle.acct_machine.specs.declared.entry.Verdict.TheVariants.{Ran};
ghost use Rattle.acct_machine.specs.State.{is_live};
ghost use Rattle.acct_machine.specs.Access.{IsCall};
ghost use Rattle.acct_machine.specs.Legal.{conns_full, TakesCall};
ghost use Rattle.acct_machine.specs.Hooking.{IsFirst};
ghost use Rattle.acct_machine.specs.Machine.{state_of, with_entry};
ghost use Rattle.acct_machine.specs.Outbox.{has_hook};
ghost use Rattle.grant_audit.specs.Following.{has_run, followed, MayFollow};

use crate::NoMemory;
use crate::unkept::Unkept;
use acct_calls::Call;
use acct_config::Config;
use acct_machine::{Acted, Entry, HookedEnd, Machine, Opened, Verdict};
use acct_rows::Rows;
use std::alloc::{AllocError, Global};

/// A machine to which nothing has happened, from a copy of the rows.
pub fn begin(alloc: Global, config: &Config, rows: &Rows) -> Result<Machine<Unkept>, NoMemory>
    requires right { IsRightConfig config.now }
    requires sound { IsSoundRows rows.now.lists }
    ensures { IfOk result (λ machine. machine.past
        ≡ record { start = record { config = config.now; rows = rows.now.lists; faults = 0 }; history = [] }) }
{
    match Machine::new(alloc, config, rows.copy(alloc)?, Unkept::new(alloc)) {
        Ok(machine) => Ok(machine),
        Err(_) => Err(AllocError),
    }
}

fn open(machine: &mut Machine<Unkept>, listener: u32)
    requires configured { listener < length machine.old.past.start.config.listeners }
    requires room { conns_full machine.old.past.start machine.old.past.history ≡ None }
    ensures { machine.new.past
        ≡ with_entry machine.old.past (OpenedEntry (length (state_of machine.old.past).conns + 1) listener) }
{
    match machine.open_conn(listener) {
        Opened::Conn(_) => {}
        Opened::Full(_) => unreachable!(),
    }
}

// Whether the last event is a call that ran.
fn has_run(history: &[Entry]) -> bool
    ensures { result ≡ has_run (slice_get history.now (length history.now - 1)) }
{
    matches!(
        history.last(),
        Some(Entry::Called {
            verdict: Verdict::Ran,
            ..
        })
    )
}

// A copy of a call runs. That the keeper fails isn't: where the call didn't run memory ran out.
fn run(
    alloc: Global,
    machine: &mut Machine<Unkept>,
    conn: u32,
    call: &Call,
    bytes: u32,
) -> Result<(), NoMemory>
    requires live { is_live conn (state_of machine.old.past).conns ≡ true }
    requires spelled { IsCall call.now }
    requires room { TakesCall machine.old.past.start machine.old.past.history bytes }
    ensures { OnOk result (machine.new.past ≡ with_entry machine.old.past (Called conn call.now Ran bytes)) }
{
    match machine.act(conn, call.copy(alloc)?, bytes) {
        Acted::Reply(_) => {}
        Acted::FullCalls(_) | Acted::FullBytes(_) => unreachable!(),
    }
    if has_run(machine.history()) {
        Ok(())
    } else {
        Err(AllocError)
    }
}

// The first row leaves the outbox. That the keeper fails isn't: where the row didn't leave memory ran out.
fn take_out(machine: &mut Machine<Unkept>, number: u64) -> Result<(), NoMemory>
    requires told { has_hook machine.old.past.start.config ≡ true }
    requires first { IsFirst machine.old.past number }
    ensures { OnOk result (machine.new.past ≡ with_entry machine.old.past (Hooked number)) }
{
    match machine.hooked(number) {
        HookedEnd::Done => Ok(()),
        HookedEnd::Past(_) => unreachable!(),
        HookedEnd::StoreFault(_) | HookedEnd::NoMemory => Err(AllocError),
    }
}

/// The machine follows an event: it runs what had an effect, as it stands in the history. Memory may run out for a
/// call and for a row that leaves the outbox.
pub fn follow(alloc: Global, machine: &mut Machine<Unkept>, entry: &Entry) -> Result<(), NoMemory>
    requires { MayFollow machine.old.past entry.now }
    ensures { OnOk result (machine.new.past ≡ followed machine.old.past entry.now) }
{
    match entry {
        Entry::Opened { listener, .. } => {
            open(machine, *listener);
            Ok(())
        }
        Entry::Called {
            conn,
            call,
            verdict: Verdict::Ran,
            bytes,
        } => run(alloc, machine, *conn, call, *bytes),
        Entry::Called { .. } => Ok(()),
        Entry::Gone { conn } => {
            machine.gone(*conn);
            Ok(())
        }
        Entry::Hooked { number } => take_out(machine, *number),
    }
}
