// A world that has no memory for periods.
ghost use Rattle.acct_world.specs.World.{GivesEntrance, GivesCaller};

use acct_links::{Caller, Entrance, TakeError};
use acct_world::{Period, World};
use std::alloc::AllocError;

/// A world as another is, except that it keeps no period: there is no memory for any.
#[derive(Drop)]
pub struct Forgetful<W: World + Drop> {
    pub world: W,
}

impl<W: World + Drop> World for Forgetful<W> {
    type S = W::S;

    type T = W::T;

    type K = W::K;

    type E = W::E;

    type C = W::C;

    type P = W::P;

    ghost seen = { λ forgetful. W.seen forgetful.world };

    fn take_source(&mut self, name: &str) -> Result<W::S, TakeError> {
        self.world.take_source(name)
    }

    fn give_source(&mut self, name: &str, part: W::S) {
        self.world.give_source(name, part)
    }

    fn take_sink(&mut self) -> Result<W::T, TakeError> {
        self.world.take_sink()
    }

    fn give_sink(&mut self, part: W::T) {
        self.world.give_sink(part)
    }

    fn take_keeper(&mut self, name: &str) -> Result<W::K, TakeError> {
        self.world.take_keeper(name)
    }

    fn give_keeper(&mut self, name: &str, part: W::K) {
        self.world.give_keeper(name, part)
    }

    fn take_entrance(&mut self) -> Result<W::E, TakeError> {
        self.world.take_entrance()
    }

    fn give_entrance(&mut self, part: W::E, doors: Vec<<W::E as Entrance>::D>)
        ensures gives { GivesEntrance (W.seen self.old.world) (W.seen self.new.world) part doors.items }
    {
        self.world.give_entrance(part, doors)
    }

    fn take_caller(&mut self) -> Result<W::C, TakeError> {
        self.world.take_caller()
    }

    fn give_caller(&mut self, part: W::C, link: Option<<W::C as Caller>::L>)
        ensures gives { GivesCaller (W.seen self.old.world) (W.seen self.new.world) part link }
    {
        self.world.give_caller(part, link)
    }

    fn take_spawner(&mut self) -> Result<W::P, TakeError> {
        self.world.take_spawner()
    }

    fn give_spawner(&mut self, part: W::P) {
        self.world.give_spawner(part)
    }

    fn keep_period(&mut self, period: Period) -> Result<(), AllocError> {
        drop(period);
        Err(AllocError)
    }
}
