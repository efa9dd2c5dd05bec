// Serving over doors.
ghost use Rattle.std.specs.Prelude.{◌≡◌, ◌<◌, ◌≤◌, ℕ, [], Some, None, length, vec_len, slice_index_or};
ghost use Rattle.acct_config.specs.Spelled.{IsRightConfig};
ghost use Rattle.acct_machine.specs.Machine.{state_of};
ghost use Rattle.acct_machine.specs.Outbox.{HoldsRows, AreCounted};
ghost use Rattle.acct_server.specs.Begun.{DeniesExactlyIn};
ghost use Rattle.acct_server.specs.Replaying.{lists_in};
ghost use Rattle.acct_server.specs.Serving.{IsServe, served_status};

use crate::Status;
use crate::beginning::begin;
use acct_base::Seq;
use acct_links::Door;
use acct_machine::{Config, Entry, Keeper, Rows, access_is_denied_exactly};
use door_workers::{DoorEnd, DoorsServed, serve_doors};
use link_sessions::Ended;
use std::alloc::Global;
use std::sync::Wait;
use std::thread::Threads;

/// What a period of serving leaves: how it ended, the rows from which the history of its machine began, the history,
/// the rows after it, how each session ended, by the number of its connection, and the keeper. There are rows exactly
/// where the machine was made, so that doors were served.
#[derive(Drop)]
pub struct Served<K: Drop> {
    pub status: Status,
    pub opening: Option<Rows>,
    pub history: Seq<Entry>,
    pub rows: Option<Rows>,
    pub ends: Seq<Ended>,
    pub keeper: K,
}

fn status_of(outcome: DoorEnd) -> Status
    ensures { result ≡ served_status outcome }
{
    match outcome {
        DoorEnd::Closed => Status::Done,
        DoorEnd::Failed => Status::DoorFault,
        DoorEnd::Full(count) => Status::HistoryFull(count),
        DoorEnd::NoMemory => Status::NoMemory,
    }
}

/// No door was served.
pub(crate) fn not_served<K: Drop>(alloc: Global, status: Status, keeper: K) -> Served<K>
    ensures status { result.status ≡ status }
    ensures nothing { (result.history ≡ []) × (result.ends ≡ []) }
    ensures rows { (result.opening ≡ None) × (result.rows ≡ None) }
    ensures keeper { result.keeper ≡ keeper }
{
    Served {
        status,
        opening: None,
        history: Seq::new(alloc),
        rows: None,
        ends: Seq::new(alloc),
        keeper,
    }
}

/// What serving left, from its machine.
pub(crate) fn left<K: Keeper + Drop>(served: DoorsServed<K>) -> Served<K>
    ensures status { result.status ≡ served_status served.outcome }
    ensures opening { lists_in result.opening ≡ Some served.machine.past.start.rows }
    ensures history { result.history ≡ served.machine.past.history }
    ensures rows { lists_in result.rows ≡ Some (state_of served.machine.past).rows }
    ensures ends { result.ends ≡ served.ends.items }
    ensures denies { DeniesExactlyIn served.machine.past.start served.machine.past.history }
    ensures stored { HoldsRows (K.held result.keeper) (state_of served.machine.past).rows }
    ensures counts { AreCounted (K.faults result.keeper) served.machine.past.start served.machine.past.history }
{
    access_is_denied_exactly();
    let DoorsServed {
        machine,
        outcome,
        ends,
    } = served;
    let (opening, history, rows, keeper) = machine.into_parts();
    Served {
        status: status_of(outcome),
        opening: Some(opening),
        history: Seq::from_vec(history),
        rows: Some(rows),
        ends: Seq::from_vec(ends),
        keeper,
    }
}

/// Serves all doors side by side, each in a thread of its own, on one machine over a keeper of its rows, until no
/// worker takes a further link: its door is closed, or failed, or the history is full. The doors stay in their order.
pub fn serve<R: Threads + Wait + Sync, D: Door + Drop + Send, K: Keeper + Drop + Send>(
    rt: &R,
    alloc: Global,
    config: &Config,
    doors: &mut Vec<D>,
    keeper: K,
) -> Served<K>
where
    D::L: Send,
    requires right { IsRightConfig config.now }
    requires few { vec_len doors.old ≤ 1024 }
    requires configured { (i : ℕ) (d : _) → i < vec_len doors.old
        → D.listener (slice_index_or doors.old.items i d) < length config.now.listeners }
    ensures { IsServe (record { door = D.Door; told = D.L.told; pairs = K.held; faults = K.faults }) config.now
        doors.old.items doors.new.items keeper result }
{
    match begin(alloc, config, keeper) {
        Ok(machine) => left(serve_doors(rt, alloc, machine, doors, config.limits.max_read)),
        Err(none) => not_served(alloc, none.status, none.keeper),
    }
}
