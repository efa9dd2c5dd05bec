// The command `serve`, over a world.
ghost use Rattle.std.specs.Prelude.{◌≡◌, ◌≢◌, ◌<◌, ◌≤◌, ℕ, [], IsSome, is_some, length, vec_len, slice_index_or};
ghost use Rattle.acct_config.specs.Spelled.{IsRightConfig};
ghost use Rattle.acct_server.specs.declared.status.Status.TheVariants.{Usage};
ghost use Rattle.acct_commands.specs.Serving.{Serves, IsSpelled, is_full};
ghost use Rattle.acct_commands.specs.steps.Rounds.{ServesPeriod, RunsRound, RunsRounds, RunsOpened, RunsParts};
ghost use Rattle.acct_commands.specs.steps.Rounds.{ReturnsParts};

use crate::keeping::keep;
use crate::period::parted_served;
use crate::statuses::{door_status, entrance_status, read_status, spawn_status, store_status};
use account_hooks::Spawner;
use acct_links::{Door, Entrance};
use acct_machine::{Config, Keeper, kept_states_are_sound};
use acct_rows::pairs::laws::pairs_are_of_one;
use acct_server::{
    Served, ServedHooks, Status, read_configuration, serve, serve_with_hooks, serving_is_complete,
    serving_with_hooks_serves,
};
use acct_world::World;
use door_workers::open_doors;
use std::alloc::Global;
use std::sync::Wait;
use std::thread::Threads;

fn is_full(status: &Status) -> bool
    ensures { result ≡ is_full status.now }
{
    matches!(status, Status::HistoryFull(_))
}

// Serves all doors for one period, with the hook of the configuration, if it has one.
fn serve_period<
    R: Threads + Wait + Sync,
    D: Door + Drop + Send,
    K: Keeper + Drop + Send,
    P: Spawner + Drop + Send,
>(
    rt: &R,
    alloc: Global,
    config: &Config,
    doors: &mut Vec<D>,
    keeper: K,
    spawner: Option<P>,
) -> (Served<K>, Option<P>)
where
    D::L: Send,
    requires right { IsRightConfig config.now }
    requires few { vec_len doors.old ≤ 1024 }
    requires configured { (i : ℕ) (d : _) → i < vec_len doors.old
        → D.listener (slice_index_or doors.old.items i d) < length config.now.listeners }
    requires handed { is_some spawner ≡ is_some config.now.hook }
    ensures { ServesPeriod (record {
      serving = record { door = D.Door; told = D.L.told; pairs = K.held; faults = K.faults };
      spawner = P.Spawner;
    }) config.now doors.old.items doors.new.items keeper spawner result.0 result.1 }
{
    match &config.hook {
        None => (serve(rt, alloc, config, doors, keeper), spawner),
        Some(hook) => match spawner {
            Some(spawner) => {
                let ServedHooks { served, spawner } = serve_with_hooks(
                    rt, alloc, config, hook, doors, keeper, spawner,
                );
                (served, Some(spawner))
            }
            None => unreachable!(),
        },
    }
}

// Serves all doors for one period, and leaves that to the world. It answers how the period ended, the keeper, and what
// runs programs, if that was handed out.
fn serve_round<R: Threads + Wait + Sync, W: World>(
    rt: &R,
    alloc: Global,
    config: &Config,
    doors: &mut Vec<<W::E as Entrance>::D>,
    keeper: W::K,
    spawner: Option<W::P>,
    world: &mut W,
) -> (Status, W::K, Option<W::P>)
where
    <W::E as Entrance>::D: Drop + Send,
    <<W::E as Entrance>::D as Door>::L: Send,
    requires right { IsRightConfig config.now }
    requires few { vec_len doors.old ≤ 1024 }
    requires configured { (i : ℕ) (d : _) → i < vec_len doors.old
        → W.E.D.listener (slice_index_or doors.old.items i d) < length config.now.listeners }
    requires handed { is_some spawner ≡ is_some config.now.hook }
    ensures runs { RunsRound (record {
      serving = record { door = W.E.D.Door; told = W.E.D.L.told; pairs = W.K.held; faults = W.K.faults };
      spawner = W.P.Spawner;
    }) config.now doors.old.items doors.new.items keeper result.1 spawner result.2
        (W.seen world.old) (W.seen world.new) result.0 }
    ensures few { vec_len doors.new ≤ 1024 }
    ensures configured { (i : ℕ) (d : _) → i < vec_len doors.new
        → W.E.D.listener (slice_index_or doors.new.items i d) < length config.now.listeners }
    ensures handed { is_some result.2 ≡ is_some config.now.hook }
    ensures not_usage { result.0 ≢ Usage }
{
    serving_with_hooks_serves::<<W::E as Entrance>::D, W::K, W::P>();
    let (served, spawner) = serve_period(rt, alloc, config, doors, keeper, spawner);
    let (ended, period, back) = parted_served(served);
    (keep(world, period, ended), back, spawner)
}

// Serves all doors, and again after each period whose history was full, as often as the configuration says.
fn serve_rounds<R: Threads + Wait + Sync, W: World>(
    rt: &R,
    alloc: Global,
    config: &Config,
    doors: &mut Vec<<W::E as Entrance>::D>,
    keeper: W::K,
    spawner: Option<W::P>,
    world: &mut W,
) -> (Status, W::K, Option<W::P>)
where
    <W::E as Entrance>::D: Drop + Send,
    <<W::E as Entrance>::D as Door>::L: Send,
    requires right { IsRightConfig config.now }
    requires few { vec_len doors.old ≤ 1024 }
    requires configured { (i : ℕ) (d : _) → i < vec_len doors.old
        → W.E.D.listener (slice_index_or doors.old.items i d) < length config.now.listeners }
    requires handed { is_some spawner ≡ is_some config.now.hook }
    ensures runs { RunsRounds (record {
      serving = record { door = W.E.D.Door; told = W.E.D.L.told; pairs = W.K.held; faults = W.K.faults };
      spawner = W.P.Spawner;
    }) config.now doors.old.items doors.new.items keeper result.1 spawner result.2
        (W.seen world.old) (W.seen world.new) result.0 }
    ensures handed { is_some result.2 ≡ is_some config.now.hook }
    ensures not_usage { result.0 ≢ Usage }
{
    pairs_are_of_one();
    kept_states_are_sound();
    serving_with_hooks_serves::<<W::E as Entrance>::D, W::K, W::P>();
    let mut more = config.limits.max_periods;
    let (mut status, mut back, mut spawner) = serve_round(
        rt, alloc, config, doors, keeper, spawner, world,
    );
    while is_full(&status) && 1 < more {
        more -= 1;
        (status, back, spawner) = serve_round(rt, alloc, config, doors, back, spawner, world);
    }
    (status, back, spawner)
}

// Asks the entrance for the doors of all listeners, and serves them. It answers how that ended, the keeper, and what
// runs programs, if that was handed out.
fn serve_opened<R: Threads + Wait + Sync, W: World>(
    rt: &R,
    alloc: Global,
    config: &Config,
    entrance: &mut W::E,
    doors: &mut Vec<<W::E as Entrance>::D>,
    keeper: W::K,
    spawner: Option<W::P>,
    world: &mut W,
) -> (Status, W::K, Option<W::P>)
where
    <W::E as Entrance>::D: Drop + Send,
    <<W::E as Entrance>::D as Door>::L: Send,
    requires right { IsRightConfig config.now }
    requires none { doors.old.items ≡ [] }
    requires handed { is_some spawner ≡ is_some config.now.hook }
    ensures runs { (first now : W.S) → RunsOpened (record {
      left = W.S.left;
      read_faults = W.S.faults;
      asked = W.E.asked;
      entrance_faults = W.E.faults;
      served = record {
        serving = record { door = W.E.D.Door; told = W.E.D.L.told; pairs = W.K.held; faults = W.K.faults };
        spawner = W.P.Spawner;
      };
    }) config.now
        (record { config = first; keeper = keeper; entrance = entrance.old; doors = [] })
        (record { config = now; keeper = result.1; entrance = entrance.new; doors = doors.new.items })
        spawner result.2 (W.seen world.old) (W.seen world.new) result.0 }
    ensures handed { is_some result.2 ≡ is_some config.now.hook }
    ensures not_usage { result.0 ≢ Usage }
{
    match open_doors(config, entrance, doors) {
        Ok(()) => serve_rounds(rt, alloc, config, doors, keeper, spawner, world),
        Err(e) => (entrance_status(e), keeper, spawner),
    }
}

// Serves under a configuration with a hook: what runs programs is taken first, and given back at the end. It answers
// how that ended, and the keeper.
fn serve_hooked<R: Threads + Wait + Sync, W: World>(
    rt: &R,
    alloc: Global,
    config: &Config,
    entrance: &mut W::E,
    doors: &mut Vec<<W::E as Entrance>::D>,
    keeper: W::K,
    world: &mut W,
) -> (Status, W::K)
where
    <W::E as Entrance>::D: Drop + Send,
    <<W::E as Entrance>::D as Door>::L: Send,
    requires right { IsRightConfig config.now }
    requires hook { IsSome config.now.hook }
    requires none { doors.old.items ≡ [] }
    ensures runs { (first now : W.S) → IsSpelled (record {
      left = W.S.left;
      read_faults = W.S.faults;
      asked = W.E.asked;
      entrance_faults = W.E.faults;
      served = record {
        serving = record { door = W.E.D.Door; told = W.E.D.L.told; pairs = W.K.held; faults = W.K.faults };
        spawner = W.P.Spawner;
      };
    }) first config.now → RunsParts (record {
      left = W.S.left;
      read_faults = W.S.faults;
      asked = W.E.asked;
      entrance_faults = W.E.faults;
      served = record {
        serving = record { door = W.E.D.Door; told = W.E.D.L.told; pairs = W.K.held; faults = W.K.faults };
        spawner = W.P.Spawner;
      };
    })
        (record { config = first; keeper = keeper; entrance = entrance.old; doors = [] })
        (record { config = now; keeper = result.1; entrance = entrance.new; doors = doors.new.items })
        (W.seen world.old) (W.seen world.new) result.0 }
    ensures not_usage { result.0 ≢ Usage }
{
    let spawner = match world.take_spawner() {
        Ok(spawner) => spawner,
        Err(e) => return (spawn_status(e), keeper),
    };
    let (status, back, spawner) = serve_opened(
        rt,
        alloc,
        config,
        entrance,
        doors,
        keeper,
        Some(spawner),
        world,
    );
    match spawner {
        Some(spawner) => world.give_spawner(spawner),
        None => unreachable!(),
    }
    (status, back)
}

// Serves under a configuration. It answers how that ended, and the keeper.
fn serve_under<R: Threads + Wait + Sync, W: World>(
    rt: &R,
    alloc: Global,
    config: &Config,
    entrance: &mut W::E,
    doors: &mut Vec<<W::E as Entrance>::D>,
    keeper: W::K,
    world: &mut W,
) -> (Status, W::K)
where
    <W::E as Entrance>::D: Drop + Send,
    <<W::E as Entrance>::D as Door>::L: Send,
    requires right { IsRightConfig config.now }
    requires none { doors.old.items ≡ [] }
    ensures runs { (first now : W.S) → IsSpelled (record {
      left = W.S.left;
      read_faults = W.S.faults;
      asked = W.E.asked;
      entrance_faults = W.E.faults;
      served = record {
        serving = record { door = W.E.D.Door; told = W.E.D.L.told; pairs = W.K.held; faults = W.K.faults };
        spawner = W.P.Spawner;
      };
    }) first config.now → RunsParts (record {
      left = W.S.left;
      read_faults = W.S.faults;
      asked = W.E.asked;
      entrance_faults = W.E.faults;
      served = record {
        serving = record { door = W.E.D.Door; told = W.E.D.L.told; pairs = W.K.held; faults = W.K.faults };
        spawner = W.P.Spawner;
      };
    })
        (record { config = first; keeper = keeper; entrance = entrance.old; doors = [] })
        (record { config = now; keeper = result.1; entrance = entrance.new; doors = doors.new.items })
        (W.seen world.old) (W.seen world.new) result.0 }
    ensures not_usage { result.0 ≢ Usage }
{
    match &config.hook {
        Some(_) => serve_hooked(rt, alloc, config, entrance, doors, keeper, world),
        None => {
            let (status, back, spawner) = serve_opened(
                rt, alloc, config, entrance, doors, keeper, None, world,
            );
            drop(spawner);
            (status, back)
        }
    }
}

// Reads the configuration, asks the entrance for the doors of all its listeners, and serves them. It answers how that
// ended, and the keeper.
fn serve_configured<R: Threads + Wait + Sync, W: World>(
    rt: &R,
    alloc: Global,
    source: &mut W::S,
    entrance: &mut W::E,
    doors: &mut Vec<<W::E as Entrance>::D>,
    keeper: W::K,
    world: &mut W,
) -> (Status, W::K)
where
    <W::E as Entrance>::D: Drop + Send,
    <<W::E as Entrance>::D as Door>::L: Send,
    requires none { doors.old.items ≡ [] }
    ensures runs { RunsParts (record {
      left = W.S.left;
      read_faults = W.S.faults;
      asked = W.E.asked;
      entrance_faults = W.E.faults;
      served = record {
        serving = record { door = W.E.D.Door; told = W.E.D.L.told; pairs = W.K.held; faults = W.K.faults };
        spawner = W.P.Spawner;
      };
    })
        (record { config = source.old; keeper = keeper; entrance = entrance.old; doors = doors.old.items })
        (record { config = source.new; keeper = result.1; entrance = entrance.new; doors = doors.new.items })
        (W.seen world.old) (W.seen world.new) result.0 }
    ensures not_usage { result.0 ≢ Usage }
{
    let config = match read_configuration(alloc, source) {
        Ok(config) => config,
        Err(status) => return (status, keeper),
    };
    let served = serve_under(rt, alloc, &config, entrance, doors, keeper, world);
    drop(config);
    served
}

// Serves over parts that were handed out, and gives them back, with the doors that the entrance gave.
fn serve_parts<R: Threads + Wait + Sync, W: World>(
    rt: &R,
    alloc: Global,
    config: &str,
    store: &str,
    world: &mut W,
    mut source: W::S,
    keeper: W::K,
    mut entrance: W::E,
) -> Status
where
    <W::E as Entrance>::D: Drop + Send,
    <<W::E as Entrance>::D as Door>::L: Send,
    ensures returns { ReturnsParts (record {
      left = W.S.left;
      read_faults = W.S.faults;
      asked = W.E.asked;
      entrance_faults = W.E.faults;
      served = record {
        serving = record { door = W.E.D.Door; told = W.E.D.L.told; pairs = W.K.held; faults = W.K.faults };
        spawner = W.P.Spawner;
      };
    }) (record { config = config.now; store = store.now })
        (record { config = source; keeper = keeper; entrance = entrance; doors = [] }) (W.seen world.old)
        (W.seen world.new) result }
    ensures not_usage { result ≢ Usage }
{
    let mut doors = Vec::new(alloc);
    let (status, back) = serve_configured(
        rt,
        alloc,
        &mut source,
        &mut entrance,
        &mut doors,
        keeper,
        world,
    );
    world.give_entrance(entrance, doors);
    world.give_keeper(store, back);
    world.give_source(config, source);
    status
}

/// The command `serve`: it takes the configuration, the keeper and the entrance, in this order, before it uses any; and
/// where the configuration has a hook, what runs programs, before it asks the entrance for doors.
pub(crate) fn run_serve<R: Threads + Wait + Sync, W: World>(
    rt: &R,
    alloc: Global,
    config: &str,
    store: &str,
    world: &mut W,
) -> Status
where
    <W::E as Entrance>::D: Drop + Send,
    <<W::E as Entrance>::D as Door>::L: Send,
    ensures serves { Serves (record {
      left = W.S.left;
      read_faults = W.S.faults;
      asked = W.E.asked;
      entrance_faults = W.E.faults;
      served = record {
        serving = record { door = W.E.D.Door; told = W.E.D.L.told; pairs = W.K.held; faults = W.K.faults };
        spawner = W.P.Spawner;
      };
    }) (record { config = config.now; store = store.now }) (W.seen world.old) (W.seen world.new) result }
    ensures not_usage { result ≢ Usage }
{
    serving_is_complete::<<W::E as Entrance>::D, W::K>();
    serving_with_hooks_serves::<<W::E as Entrance>::D, W::K, W::P>();
    let source = match world.take_source(config) {
        Ok(source) => source,
        Err(e) => return read_status(e),
    };
    let keeper = match world.take_keeper(store) {
        Ok(keeper) => keeper,
        Err(e) => {
            world.give_source(config, source);
            return store_status(e);
        }
    };
    let entrance = match world.take_entrance() {
        Ok(entrance) => entrance,
        Err(e) => {
            world.give_keeper(store, keeper);
            world.give_source(config, source);
            return door_status(e);
        }
    };
    serve_parts(rt, alloc, config, store, world, source, keeper, entrance)
}
