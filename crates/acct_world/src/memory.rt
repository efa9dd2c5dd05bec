// A world in memory.
ghost use Rattle.std.specs.Prelude.{◌≡◌, [], Some, None, option_copied};
ghost use Rattle.acct_world.specs.World.{TakesSource, TakesSink, TakesKeeper, TakesEntrance, GivesEntrance};
ghost use Rattle.acct_world.specs.World.{TakesCaller, GivesCaller, TakesSpawner, GivesSpawner};
ghost use Rattle.acct_world.specs.Memory.{shown, source_under, keeper_under, Notes, Hands, TakesInMemory};

use crate::part::Part;
use crate::period::Period;
use crate::world::World;
use account_hooks::Spawner;
use acct_base::{Seq, is_same};
use acct_keeper::{Keeper, Sink, Source};
use acct_links::{Caller, Entrance, TakeError};
use std::alloc::{AllocError, Global};
use std::marker::Model;

// Notes what is asked for, and counts the handing out: whether it is one of those that fail.
fn note(
    asked: &mut Vec<Part>,
    part: Part,
    failing: &[u64],
    takes: &mut u64,
) -> Result<bool, AllocError>
    ensures { Notes failing.now part asked.old.items asked.new.items takes.old takes.new result }
{
    asked.push(part)?;
    *takes = takes.saturating_add(1);
    Ok(failing.contains(takes))
}

// The part, if it is there and its handing out isn't to fail.
fn hand<P>(place: &mut Option<P>, to_fail: bool, faults: &mut u64) -> Result<P, TakeError>
    ensures { Hands to_fail place.old place.new faults.old faults.new result }
{
    if !to_fail {
        if let Some(part) = place.take() {
            return Ok(part);
        }
    }
    *faults = faults.saturating_add(1);
    Err(TakeError::Failed)
}

/// What a world in memory has to hand out: the configuration, the events, the sink, the keeper with the empty name, the
/// entrance, the caller, and the spawner.
#[derive(Drop)]
pub struct MemoryParts<S: Drop, T: Drop, K: Drop, E: Drop, C: Drop, P: Drop> {
    pub config: S,
    pub events: S,
    pub sink: T,
    pub keeper: K,
    pub entrance: E,
    pub caller: C,
    pub spawner: P,
}

/// A world with one configuration under its name, the events, a sink, one keeper, under the empty name, an entrance,
/// the doors that were given back with it, a caller, the link that was given back with it, a spawner, and the periods
/// that it was given. Its handings out are numbered from 1, and those of the given numbers fail; so does one of a part
/// that isn't there. It tells what it holds, and what it was asked for.
#[derive(Drop)]
pub struct MemoryWorld<
    S: Source + Drop,
    T: Sink + Drop,
    K: Keeper + Drop,
    E: Entrance + Drop,
    C: Caller + Drop,
    P: Spawner + Drop,
>
where
    E::D: Drop,
    C::L: Drop,
{
    alloc: Global,
    name: Vec<u8>,
    config: Option<S>,
    events: Option<S>,
    sink: Option<T>,
    keeper: Option<K>,
    entrance: Option<E>,
    doors: Vec<E::D>,
    caller: Option<C>,
    talked: Option<C::L>,
    spawner: Option<P>,
    periods: Vec<Period>,
    asked: Vec<Part>,
    failing: Vec<u64>,
    takes: u64,
    source_faults: u64,
    sink_faults: u64,
    keeper_faults: u64,
    entrance_faults: u64,
    caller_faults: u64,
    spawner_faults: u64,
}

impl<
    S: Source + Drop,
    T: Sink + Drop,
    K: Keeper + Drop,
    E: Entrance + Drop,
    C: Caller + Drop,
    P: Spawner + Drop,
> Model for MemoryWorld<S, T, K, E, C, P>
where
    E::D: Drop,
    C::L: Drop,
{
    ghost use Rattle.acct_world.specs.Memory.{WorldInMemory};

    ghost Value = { WorldInMemory S T K E E.D C C.L P };

    ghost view = { λ w. record {
      name = w.name.items;
      config = w.config;
      events = w.events;
      sink = w.sink;
      keeper = w.keeper;
      entrance = w.entrance;
      doors = w.doors.items;
      caller = w.caller;
      talked = w.talked;
      spawner = w.spawner;
      periods = w.periods.items;
      asked = w.asked.items;
      source_faults = w.source_faults;
      sink_faults = w.sink_faults;
      keeper_faults = w.keeper_faults;
      entrance_faults = w.entrance_faults;
      caller_faults = w.caller_faults;
      spawner_faults = w.spawner_faults;
      takes = w.takes;
      failing = w.failing.items;
    } };
}

impl<
    S: Source + Drop,
    T: Sink + Drop,
    K: Keeper + Drop,
    E: Entrance + Drop,
    C: Caller + Drop,
    P: Spawner + Drop,
> MemoryWorld<S, T, K, E, C, P>
where
    E::D: Drop,
    C::L: Drop,
{
    /// A world that holds these parts, the configuration under this name.
    pub fn new(
        alloc: Global,
        name: Vec<u8>,
        parts: MemoryParts<S, T, K, E, C, P>,
        failing: Vec<u64>,
    ) -> Self
        ensures { result ≡ record {
          name = name.items;
          config = Some parts.config;
          events = Some parts.events;
          sink = Some parts.sink;
          keeper = Some parts.keeper;
          entrance = Some parts.entrance;
          doors = [];
          caller = Some parts.caller;
          talked = None;
          spawner = Some parts.spawner;
          periods = [];
          asked = [];
          source_faults = 0;
          sink_faults = 0;
          keeper_faults = 0;
          entrance_faults = 0;
          caller_faults = 0;
          spawner_faults = 0;
          takes = 0;
          failing = failing.items;
        } }
    {
        MemoryWorld {
            alloc,
            name,
            config: Some(parts.config),
            events: Some(parts.events),
            sink: Some(parts.sink),
            keeper: Some(parts.keeper),
            entrance: Some(parts.entrance),
            doors: Vec::new(alloc),
            caller: Some(parts.caller),
            talked: None,
            spawner: Some(parts.spawner),
            periods: Vec::new(alloc),
            asked: Vec::new(alloc),
            failing,
            takes: 0,
            source_faults: 0,
            sink_faults: 0,
            keeper_faults: 0,
            entrance_faults: 0,
            caller_faults: 0,
            spawner_faults: 0,
        }
    }

    /// The sink, if it is not out.
    pub fn sink(&self) -> Option<&T>
        ensures { option_copied result ≡ self.now.sink }
    {
        self.sink.as_ref()
    }

    /// The keeper, if it is not out.
    pub fn keeper(&self) -> Option<&K>
        ensures { option_copied result ≡ self.now.keeper }
    {
        self.keeper.as_ref()
    }

    /// The entrance, if it is not out.
    pub fn entrance(&self) -> Option<&E>
        ensures { option_copied result ≡ self.now.entrance }
    {
        self.entrance.as_ref()
    }

    /// The doors that were given back with the entrance.
    pub fn doors(&self) -> &[E::D]
        ensures { result.now ≡ self.now.doors }
    {
        &self.doors
    }

    /// The caller, if it is not out.
    pub fn caller(&self) -> Option<&C>
        ensures { option_copied result ≡ self.now.caller }
    {
        self.caller.as_ref()
    }

    /// The link that was given back with the caller, if one was.
    pub fn talked(&self) -> Option<&C::L>
        ensures { option_copied result ≡ self.now.talked }
    {
        self.talked.as_ref()
    }

    /// The spawner, if it is not out.
    pub fn spawner(&self) -> Option<&P>
        ensures { option_copied result ≡ self.now.spawner }
    {
        self.spawner.as_ref()
    }

    /// The periods that it was given.
    pub fn periods(&self) -> &[Period]
        ensures { result.now ≡ self.now.periods }
    {
        &self.periods
    }

    /// The parts that it was asked for, in order.
    pub fn asked(&self) -> &[Part]
        ensures { result.now ≡ self.now.asked }
    {
        &self.asked
    }
}

impl<
    S: Source + Drop,
    T: Sink + Drop,
    K: Keeper + Drop + Send,
    E: Entrance + Drop,
    C: Caller + Drop,
    P: Spawner + Drop + Send,
> World for MemoryWorld<S, T, K, E, C, P>
where
    E::D: Drop,
    C::L: Drop,
{
    type S = S;

    type T = T;

    type K = K;

    type E = E;

    type C = C;

    type P = P;

    ghost seen = { λ w. shown w };

    fn take_source(&mut self, name: &str) -> Result<S, TakeError>
        ensures takes { TakesSource (shown self.old) (shown self.new) name.now result }
        ensures counted { TakesInMemory self.old self.new
            (source_under self.old.name self.old.config self.old.events name.now) result }
    {
        let part = Part::Source(Seq::copy_of(self.alloc, name.as_bytes())?);
        let fails = note(&mut self.asked, part, &self.failing, &mut self.takes)?;
        if is_same(name.as_bytes(), b"-") {
            return hand(&mut self.events, fails, &mut self.source_faults);
        }
        let is_known = is_same(name.as_bytes(), &self.name);
        hand(&mut self.config, fails | !is_known, &mut self.source_faults)
    }

    fn give_source(&mut self, name: &str, part: S) {
        if is_same(name.as_bytes(), b"-") {
            self.events = Some(part);
            return;
        }
        if is_same(name.as_bytes(), &self.name) {
            self.config = Some(part);
        }
    }

    fn take_sink(&mut self) -> Result<T, TakeError>
        ensures takes { TakesSink (shown self.old) (shown self.new) result }
        ensures counted { TakesInMemory self.old self.new self.old.sink result }
    {
        let fails = note(&mut self.asked, Part::Sink, &self.failing, &mut self.takes)?;
        hand(&mut self.sink, fails, &mut self.sink_faults)
    }

    fn give_sink(&mut self, part: T) {
        self.sink = Some(part);
    }

    fn take_keeper(&mut self, name: &str) -> Result<K, TakeError>
        ensures takes { TakesKeeper K.held (shown self.old) (shown self.new) name.now result }
        ensures counted { TakesInMemory self.old self.new (keeper_under self.old.keeper name.now) result }
    {
        let part = Part::Keeper(Seq::copy_of(self.alloc, name.as_bytes())?);
        let fails = note(&mut self.asked, part, &self.failing, &mut self.takes)?;
        let is_known = is_same(name.as_bytes(), b"");
        hand(&mut self.keeper, fails | !is_known, &mut self.keeper_faults)
    }

    fn give_keeper(&mut self, name: &str, part: K) {
        if is_same(name.as_bytes(), b"") {
            self.keeper = Some(part);
        }
    }

    fn take_entrance(&mut self) -> Result<E, TakeError>
        ensures takes { TakesEntrance (shown self.old) (shown self.new) result }
        ensures counted { TakesInMemory self.old self.new self.old.entrance result }
    {
        let fails = note(
            &mut self.asked,
            Part::Entrance,
            &self.failing,
            &mut self.takes,
        )?;
        hand(&mut self.entrance, fails, &mut self.entrance_faults)
    }

    fn give_entrance(&mut self, part: E, doors: Vec<E::D>)
        ensures gives { GivesEntrance (shown self.old) (shown self.new) part doors.items }
    {
        self.entrance = Some(part);
        self.doors = doors;
    }

    fn take_caller(&mut self) -> Result<C, TakeError>
        ensures takes { TakesCaller (shown self.old) (shown self.new) result }
        ensures counted { TakesInMemory self.old self.new self.old.caller result }
    {
        let fails = note(
            &mut self.asked,
            Part::Caller,
            &self.failing,
            &mut self.takes,
        )?;
        hand(&mut self.caller, fails, &mut self.caller_faults)
    }

    fn give_caller(&mut self, part: C, link: Option<C::L>)
        ensures gives { GivesCaller (shown self.old) (shown self.new) part link }
    {
        self.caller = Some(part);
        self.talked = link;
    }

    fn take_spawner(&mut self) -> Result<P, TakeError>
        ensures takes { TakesSpawner (shown self.old) (shown self.new) result }
        ensures counted { TakesInMemory self.old self.new self.old.spawner result }
    {
        let fails = note(
            &mut self.asked,
            Part::Spawner,
            &self.failing,
            &mut self.takes,
        )?;
        hand(&mut self.spawner, fails, &mut self.spawner_faults)
    }

    fn give_spawner(&mut self, part: P)
        ensures gives { GivesSpawner (shown self.old) (shown self.new) part }
    {
        self.spawner = Some(part);
    }

    fn keep_period(&mut self, period: Period) -> Result<(), AllocError> {
        self.periods.push(period)?;
        Ok(())
    }
}
