// The command `hooks`, over a world.
ghost use Rattle.std.specs.Prelude.{◌≢◌};
ghost use Rattle.acct_config.specs.Spelled.{IsRightConfig};
ghost use Rattle.acct_server.specs.declared.status.Status.TheVariants.{Usage};
ghost use Rattle.acct_commands.specs.Hooking.{Hooks, DrainsBy, LeavesOutbox, ReturnsOutbox};

use crate::statuses::{read_status, spawn_status, store_status};
use account_hooks::Spawner;
use acct_keeper::{Keeper, Source};
use acct_machine::Config;
use acct_server::{Status, hooks_are_complete, read_configuration, run_hooks};
use acct_world::World;
use std::alloc::Global;

// The rule of this command alone: the configuration has a program.
const HOOK_RULE: u32 = 12;

// Drains the outbox of a store with the program of a configuration, where it has one.
fn drain_with<K: Keeper + Drop, P: Spawner>(
    alloc: Global,
    config: &Config,
    keeper: K,
    spawner: &mut P,
) -> (Status, K)
    requires right { IsRightConfig config.now }
    ensures { DrainsBy (record { pairs = K.held; faults = K.faults; runs = P.runs; failed = P.failed }) config.now
        (record { keeper = keeper; spawner = spawner.old }) (record { keeper = result.1; spawner = spawner.new })
        result.0 }
{
    match &config.hook {
        Some(hook) => run_hooks(alloc, config, hook, keeper, spawner),
        None => (Status::Config(HOOK_RULE), keeper),
    }
}

// Reads the configuration, and drains the outbox of the store with its program. It answers how that ended, and the
// keeper.
fn drain_store<S: Source, K: Keeper + Drop, P: Spawner>(
    alloc: Global,
    source: &mut S,
    keeper: K,
    spawner: &mut P,
) -> (Status, K)
    ensures leaves { LeavesOutbox (record {
      left = S.left;
      read_faults = S.faults;
      hooks = record { pairs = K.held; faults = K.faults; runs = P.runs; failed = P.failed };
    }) (record { config = source.old; keeper = keeper; spawner = spawner.old })
        (record { config = source.new; keeper = result.1; spawner = spawner.new }) result.0 }
    ensures not_usage { result.0 ≢ Usage }
{
    let config = match read_configuration(alloc, source) {
        Ok(config) => config,
        Err(status) => return (status, keeper),
    };
    let left = drain_with(alloc, &config, keeper, spawner);
    drop(config);
    left
}

// Drains over parts that were handed out, and gives them back.
fn drain_parts<W: World>(
    alloc: Global,
    config: &str,
    store: &str,
    world: &mut W,
    mut source: W::S,
    keeper: W::K,
    mut spawner: W::P,
) -> Status
    ensures returns { ReturnsOutbox (record {
      left = W.S.left;
      read_faults = W.S.faults;
      hooks = record { pairs = W.K.held; faults = W.K.faults; runs = W.P.runs; failed = W.P.failed };
    }) (record { config = config.now; store = store.now })
        (record { config = source; keeper = keeper; spawner = spawner }) (W.seen world.old) (W.seen world.new) result }
    ensures not_usage { result ≢ Usage }
{
    let (status, back) = drain_store(alloc, &mut source, keeper, &mut spawner);
    world.give_spawner(spawner);
    world.give_keeper(store, back);
    world.give_source(config, source);
    status
}

/// The command `hooks`: it takes the configuration, the keeper and the spawner, in this order, before it uses any.
pub(crate) fn run_outbox<W: World>(
    alloc: Global,
    config: &str,
    store: &str,
    world: &mut W,
) -> Status
    ensures hooks { Hooks (record {
      left = W.S.left;
      read_faults = W.S.faults;
      hooks = record { pairs = W.K.held; faults = W.K.faults; runs = W.P.runs; failed = W.P.failed };
    }) (record { config = config.now; store = store.now }) (W.seen world.old) (W.seen world.new) result }
    ensures not_usage { result ≢ Usage }
{
    hooks_are_complete::<W::K, W::P>();
    let source = match world.take_source(config) {
        Ok(source) => source,
        Err(e) => return read_status(e),
    };
    let keeper = match world.take_keeper(store) {
        Ok(keeper) => keeper,
        Err(e) => {
            world.give_source(config, source);
            return store_status(e);
        }
    };
    let spawner = match world.take_spawner() {
        Ok(spawner) => spawner,
        Err(e) => {
            world.give_keeper(store, keeper);
            world.give_source(config, source);
            return spawn_status(e);
        }
    };
    drain_parts(alloc, config, store, world, source, keeper, spawner)
}
