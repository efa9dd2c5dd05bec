// Serving over doors, and beside it running a program for changes of accounts.
ghost use Rattle.std.specs.Prelude.{◌≡◌, ◌<◌, ◌≤◌, ℕ, Some, length, vec_len, slice_index_or};
ghost use Rattle.acct_config.specs.Spelled.{IsRightConfig};
ghost use Rattle.acct_machine.specs.Machine.{state_of};
ghost use Rattle.acct_machine.specs.Outbox.{HoldsRows, AreCounted};
ghost use Rattle.acct_server.specs.Beside.{IsServeBeside, Settles, after_doors, status_beside};
ghost use Rattle.acct_server.specs.Beside.{ServesAsWell, ServeBesideGivesHeadline, ServingBesideIsComplete};
ghost use Rattle.acct_server.specs.Begun.{DeniesExactlyIn};
ghost use Rattle.acct_server.specs.Replaying.{lists_in};

use crate::Status;
use crate::beginning::begin;
use crate::headline::{serve_gives_headline, serving_is_complete};
use crate::serving::{Served, left, not_served};
use account_hooks::{Drained, Spawner};
use acct_config::Hook;
use acct_links::Door;
use acct_machine::{Config, Keeper, jobs_are_left};
use door_workers::{DoorEnd, DoorsHooked, serve_doors_with_hook};
use std::alloc::Global;
use std::sync::Wait;
use std::thread::Threads;

/// What a period of serving with a hook leaves: what serving leaves, and what runs programs.
#[derive(Drop)]
pub struct ServedHooks<K: Drop, P: Drop> {
    pub served: Served<K>,
    pub spawner: P,
}

// How the drains ended, where the keeper's count, once it is back, is this.
fn settled(answer: Drained, faults: u64) -> Drained
    ensures { Settles faults answer result }
{
    match answer {
        Drained::Empty => Drained::Empty,
        Drained::Held(number) => Drained::Held(number),
        Drained::StoreFault(count) => {
            if count <= faults {
                Drained::StoreFault(count)
            } else {
                Drained::NoMemory
            }
        }
        Drained::NoMemory => Drained::NoMemory,
    }
}

// How the doors ended, and where all of them are closed this status.
fn after_doors(outcome: DoorEnd, status: Status) -> Status
    ensures { result ≡ after_doors outcome status }
{
    match outcome {
        DoorEnd::Closed => status,
        DoorEnd::Failed => Status::DoorFault,
        DoorEnd::Full(count) => Status::HistoryFull(count),
        DoorEnd::NoMemory => Status::NoMemory,
    }
}

fn status_of(outcome: DoorEnd, answer: Drained) -> Status
    ensures { result ≡ status_beside outcome answer }
{
    match answer {
        Drained::Empty => after_doors(outcome, Status::Done),
        Drained::Held(number) => after_doors(outcome, Status::HookHeld(number)),
        Drained::StoreFault(count) => after_doors(outcome, Status::HookStore(count)),
        Drained::NoMemory => Status::NoMemory,
    }
}

// What serving with a hook left, from its machine.
fn left_beside<K: Keeper + Drop, P: Drop>(hooked: DoorsHooked<K, P>) -> ServedHooks<K, P>
    ensures status { (answer : Drained) × Settles (K.faults result.served.keeper) hooked.answer answer
        × (result.served.status ≡ status_beside hooked.served.outcome answer) }
    ensures opening { lists_in result.served.opening ≡ Some hooked.served.machine.past.start.rows }
    ensures history { result.served.history ≡ hooked.served.machine.past.history }
    ensures rows { lists_in result.served.rows ≡ Some (state_of hooked.served.machine.past).rows }
    ensures ends { result.served.ends ≡ hooked.served.ends.items }
    ensures denies { DeniesExactlyIn hooked.served.machine.past.start hooked.served.machine.past.history }
    ensures stored { HoldsRows (K.held result.served.keeper) (state_of hooked.served.machine.past).rows }
    ensures counts { AreCounted (K.faults result.served.keeper) hooked.served.machine.past.start
        hooked.served.machine.past.history }
    ensures spawner { result.spawner ≡ hooked.spawner }
{
    let DoorsHooked {
        served,
        answer,
        spawner,
    } = hooked;
    let outcome = served.outcome;
    let mut served = left(served);
    let answer = settled(answer, served.keeper.faults());
    served.status = status_of(outcome, answer);
    ServedHooks { served, spawner }
}

/// Serves all doors as [`serve`](crate::serve) does, and beside them runs the program of the hook for the changes in
/// the outbox, in order, with no lock held. The doors stay in their order.
pub fn serve_with_hooks<
    R: Threads + Wait + Sync,
    D: Door + Drop + Send,
    K: Keeper + Drop + Send,
    P: Spawner + Drop + Send,
>(
    rt: &R,
    alloc: Global,
    config: &Config,
    hook: &Hook,
    doors: &mut Vec<D>,
    keeper: K,
    spawner: P,
) -> ServedHooks<K, P>
where
    D::L: Send,
    requires right { IsRightConfig config.now }
    requires hook { config.now.hook ≡ Some hook.now }
    requires few { vec_len doors.old ≤ 1024 }
    requires configured { (i : ℕ) (d : _) → i < vec_len doors.old
        → D.listener (slice_index_or doors.old.items i d) < length config.now.listeners }
    ensures { IsServeBeside (record {
      serving = record { door = D.Door; told = D.L.told; pairs = K.held; faults = K.faults };
      spawner = P.Spawner;
    }) config.now hook.now doors.old.items doors.new.items keeper spawner result.served result.spawner }
{
    jobs_are_left();
    match begin(alloc, config, keeper) {
        Ok(machine) => left_beside(serve_doors_with_hook(
            rt,
            alloc,
            machine,
            hook,
            spawner,
            doors,
            config.limits.max_read,
        )),
        Err(none) => ServedHooks {
            served: not_served(alloc, none.status, none.keeper),
            spawner,
        },
    }
}

/// What [`serve`](crate::serve) promises [`serve_with_hooks`] promises too, and so the headline, of each connection
/// that the history opens. Where the stored pairs break no rule and neither the keeper nor a door nor a run failed,
/// serving is done, or the history was full, or memory ran out; and no commit failed.
pub fn serving_with_hooks_serves<D: Door + Drop, K: Keeper + Drop, P: Spawner>()
    ensures serves { ServesAsWell (record {
      serving = record { door = D.Door; told = D.L.told; pairs = K.held; faults = K.faults };
      spawner = P.Spawner;
    }) }
    ensures headline { ServeBesideGivesHeadline (record {
      serving = record { door = D.Door; told = D.L.told; pairs = K.held; faults = K.faults };
      spawner = P.Spawner;
    }) }
    ensures complete { ServingBesideIsComplete (record {
      serving = record { door = D.Door; told = D.L.told; pairs = K.held; faults = K.faults };
      spawner = P.Spawner;
    }) }
{
    serve_gives_headline::<D, K>();
    serving_is_complete::<D, K>();
}
