// The world, which hands out what a command needs and takes it back.
ghost use Rattle.acct_world.specs.World.{Seen, TakesSource, GivesSource, TakesSink, GivesSink, TakesKeeper};
ghost use Rattle.acct_world.specs.World.{GivesKeeper};
ghost use Rattle.acct_world.specs.World.{TakesEntrance, GivesEntrance, TakesCaller, GivesCaller, TakesSpawner};
ghost use Rattle.acct_world.specs.World.{GivesSpawner, KeepsPeriod};

use crate::period::Period;
use account_hooks::Spawner;
use acct_keeper::{Keeper, Sink, Source};
use acct_links::{Caller, Entrance, TakeError};
use std::alloc::AllocError;

/// What the program meets: sources and keepers by name, the sink, the entrance, the caller, the spawner, and a place
/// for the periods that it leaves. The source `-` is the standard input. The keeper with the empty name is one in
/// memory, which holds no pair in the real world. A world in memory tells what it holds, the real one doesn't.
pub trait World {
    type S: Source;

    type T: Sink;

    type K: Keeper + Drop + Send;

    type E: Entrance;

    type C: Caller;

    type P: Spawner + Drop + Send;

    /// What it shows.
    ghost seen: { Self → Seen Self.S Self.T Self.K Self.E Self.E.D Self.C Self.C.L Self.P };

    /// Hands out the source under a name.
    fn take_source(&mut self, name: &str) -> Result<Self::S, TakeError>
        ensures takes { TakesSource (seen self.old) (seen self.new) name.now result };

    /// Has this source under a name from now on, if it has a place for that name.
    fn give_source(&mut self, name: &str, part: Self::S)
        ensures gives { GivesSource (seen self.old) (seen self.new) name.now part };

    /// Hands out the sink.
    fn take_sink(&mut self) -> Result<Self::T, TakeError>
        ensures takes { TakesSink (seen self.old) (seen self.new) result };

    /// Has this sink from now on.
    fn give_sink(&mut self, part: Self::T)
        ensures gives { GivesSink (seen self.old) (seen self.new) part };

    /// Hands out the keeper under a name.
    fn take_keeper(&mut self, name: &str) -> Result<Self::K, TakeError>
        ensures takes { TakesKeeper Self.K.held (seen self.old) (seen self.new) name.now result };

    /// Has this keeper under a name from now on, if it has a place for that name.
    fn give_keeper(&mut self, name: &str, part: Self::K)
        ensures gives { GivesKeeper (seen self.old) (seen self.new) name.now part };

    /// Hands out the entrance.
    fn take_entrance(&mut self) -> Result<Self::E, TakeError>
        ensures takes { TakesEntrance (seen self.old) (seen self.new) result };

    /// Has this entrance from now on, and the doors that it gave.
    fn give_entrance(&mut self, part: Self::E, doors: Vec<<Self::E as Entrance>::D>)
        ensures gives { GivesEntrance (seen self.old) (seen self.new) part doors.items };

    /// Hands out the caller.
    fn take_caller(&mut self) -> Result<Self::C, TakeError>
        ensures takes { TakesCaller (seen self.old) (seen self.new) result };

    /// Has this caller from now on, and the link that it gave, if it gave one.
    fn give_caller(&mut self, part: Self::C, link: Option<<Self::C as Caller>::L>)
        ensures gives { GivesCaller (seen self.old) (seen self.new) part link };

    /// Hands out the spawner.
    fn take_spawner(&mut self) -> Result<Self::P, TakeError>
        ensures takes { TakesSpawner (seen self.old) (seen self.new) result };

    /// Has this spawner from now on.
    fn give_spawner(&mut self, part: Self::P)
        ensures gives { GivesSpawner (seen self.old) (seen self.new) part };

    /// Keeps what a replay or serving left.
    fn keep_period(&mut self, period: Period) -> Result<(), AllocError>
        ensures keeps { KeepsPeriod (seen self.old) (seen self.new) period result };
}
