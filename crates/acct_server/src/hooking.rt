// Running a program for the changes in the outbox of a store.
ghost use Rattle.std.specs.Prelude.{◌≡◌, Some};
ghost use Rattle.acct_config.specs.Spelled.{IsRightConfig};
ghost use Rattle.acct_server.specs.Hooked.{RunsHooks, HooksAreComplete, hook_status};

use crate::Status;
use crate::beginning::begin;
use account_hooks::{Drained, Spawner, drain};
use acct_config::Hook;
use acct_machine::{Config, Keeper, jobs_are_left};
use std::alloc::Global;

fn status_of(answer: Drained) -> Status
    ensures { result ≡ hook_status answer }
{
    match answer {
        Drained::Empty => Status::Done,
        Drained::Held(number) => Status::HookHeld(number),
        Drained::StoreFault(count) => Status::HookStore(count),
        Drained::NoMemory => Status::NoMemory,
    }
}

/// Opens a store and drains its outbox once, with the hook of its configuration. It answers how that ended, and the
/// keeper.
pub fn run_hooks<K: Keeper + Drop, P: Spawner>(
    alloc: Global,
    config: &Config,
    hook: &Hook,
    keeper: K,
    spawner: &mut P,
) -> (Status, K)
    requires right { IsRightConfig config.now }
    requires hook { config.now.hook ≡ Some hook.now }
    ensures { RunsHooks (record { pairs = K.held; faults = K.faults; runs = P.runs; failed = P.failed }) config.now
        hook.now (record { keeper = keeper; spawner = spawner.old })
        (record { keeper = result.1; spawner = spawner.new }) result.0 }
{
    jobs_are_left();
    let mut machine = match begin(alloc, config, keeper) {
        Ok(machine) => machine,
        Err(none) => return (none.status, none.keeper),
    };
    let _counted = machine.history();
    let answer = drain(spawner, &mut machine, hook.program.as_str(), hook.tries);
    let (opening, history, rows, back) = machine.into_parts();
    drop(rows);
    drop(history);
    drop(opening);
    (status_of(answer), back)
}

/// Where the stored pairs break no rule, and neither the keeper nor a run failed, draining is done, or memory ran out.
pub fn hooks_are_complete<K: Keeper, P: Spawner>()
    ensures { HooksAreComplete (record { pairs = K.held; faults = K.faults; runs = P.runs; failed = P.failed }) }
{}
