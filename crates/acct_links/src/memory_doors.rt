// Doors in memory.
ghost use Rattle.std.specs.Prelude.{◌≡◌, ◌+◌, ◌<◌, ◌≤◌, ◌||◌, ◌==◌, ◌∷◌, ◌++◌};
ghost use Rattle.std.specs.Prelude.{[], All, Some, true, false, length, IfOk};
ghost use Rattle.acct_keeper.specs.Faults.{Rose};
ghost use Rattle.acct_links.specs.Doors.{IfLink, GivesFirst, is_closed, is_failed};
ghost use Rattle.acct_links.specs.Links.{IsNew};
ghost use Rattle.acct_links.specs.MemoryDoors.{Lends, NextInMemory, opened};

use crate::doors::{Door, Next};
use crate::links::Link;
use acct_keeper::one_more;
use std::alloc::{AllocError, Global};
use std::collections::VecDeque;
use std::marker::Model;

/// A door in memory whose calls never fail: its count of faults is 0.
#[derive(Drop)]
pub struct SteadyDoor<L: Link + Drop> {
    links: VecDeque<L>,
    finished: Vec<(u32, L)>,
    room: usize,
    listener: u32,
    is_closed: bool,
}

impl<L: Link + Drop> Model for SteadyDoor<L> {
    ghost use Rattle.std.specs.Prelude.{◌≡◌, ◌+◌, ◌≤◌, All, [], true, vec_len, vec_capacity, length};
    ghost use Rattle.acct_links.specs.MemoryDoors.{SteadyDoorInMemory};
    ghost use Rattle.acct_links.specs.Links.{IsNew};

    ghost Value = { SteadyDoorInMemory L };

    ghost view = { λ door. record {
      coming = door.links.items;
      finished = door.finished.items;
      listener = door.listener;
      closed = door.is_closed;
      room = door.room;
    } };

    ghost invariant = { λ door. (length door.finished.items + length door.links.items ≤ door.room)
        × (door.room ≤ vec_capacity door.finished)
        × (door.is_closed ≡ true → door.links.items ≡ [])
        × All (λ link. IsNew (L.told link)) door.links.items };
}

impl<L: Link + Drop> SteadyDoor<L> {
    /// A door that gives these links, of which nothing was read or written. It takes the room for its finished links
    /// now.
    pub fn new(alloc: Global, listener: u32, links: Vec<L>) -> Result<Self, AllocError>
        requires { All (λ link. IsNew (L.told link)) links.items }
        ensures { IfOk result (λ door. door ≡ opened listener links.items) }
    {
        let room = links.len();
        Ok(SteadyDoor {
            links: VecDeque::from_vec(links),
            finished: Vec::with_capacity(alloc, room)?,
            room,
            listener,
            is_closed: false,
        })
    }

    /// The links that were finished, in order, each with the number of its connection.
    pub fn as_slice(&self) -> &[(u32, L)]
        ensures { result.now ≡ self.now.finished }
    {
        &self.finished
    }

    /// Whether no link is to come.
    pub fn is_empty(&self) -> bool
        ensures answer { result ≡ (length self.now.coming == 0) }
        ensures new { All (λ link. IsNew (L.told link)) self.now.coming }
        ensures closed { self.now.closed ≡ true → self.now.coming ≡ [] }
    {
        self.links.is_empty()
    }
}

impl<L: Link + Drop> Door for SteadyDoor<L> {
    type L = L;

    ghost coming = { λ door. Some door.coming };

    ghost finished = { λ door. Some door.finished };

    ghost listener = { λ door. door.listener };

    ghost closed = { λ door. door.closed };

    ghost has_lent = { Lends };

    ghost faults = { λ _. 0 };

    fn next(&mut self) -> Next<L>
        ensures new { IfLink result (λ link. IsNew (L.told link)) }
        ensures coming { GivesFirst result self.old.coming self.new.coming }
        ensures to_come { All (λ link. IsNew (L.told link)) self.new.coming }
        ensures closed { self.new.closed ≡ (self.old.closed || is_closed result) }
        ensures always { self.old.closed ≡ true → is_closed result ≡ true }
        ensures lent { IfLink result (λ link. Lends self.new) }
        ensures finished { self.new.finished ≡ self.old.finished }
        ensures listener { self.new.listener ≡ self.old.listener }
        ensures room { self.new.room ≡ self.old.room }
        ensures steady { is_failed result ≡ false }
    {
        match self.links.pop_front() {
            Some(link) => Next::Link(link),
            None => {
                self.is_closed = true;
                Next::Closed
            }
        }
    }

    fn finish(&mut self, conn: u32, link: L)
        requires { Lends self.old }
        ensures finished { self.new.finished ≡ self.old.finished ++ (conn, link) ∷ [] }
        ensures coming { self.new.coming ≡ self.old.coming }
        ensures closed { self.new.closed ≡ self.old.closed }
        ensures listener { self.new.listener ≡ self.old.listener }
        ensures room { self.new.room ≡ self.old.room }
    {
        self.finished.push_reserved((conn, link));
    }

    fn listener(&self) -> u32
        ensures { result ≡ self.now.listener }
    {
        self.listener
    }
}

/// A door in memory. Its calls of `next` are numbered from 1, and those of the given numbers fail where a link is to
/// come.
#[derive(Drop)]
pub struct MemoryDoor<L: Link + Drop> {
    door: SteadyDoor<L>,
    failing: Vec<u64>,
    calls: u64,
    fault_count: u64,
}

impl<L: Link + Drop> Model for MemoryDoor<L> {
    ghost use Rattle.acct_links.specs.MemoryDoors.{DoorInMemory};

    ghost Value = { DoorInMemory L };

    ghost view = { λ memory. record {
      door = memory.door;
      faults = memory.fault_count;
      calls = memory.calls;
      failing = memory.failing.items;
    } };
}

impl<L: Link + Drop> MemoryDoor<L> {
    /// A door that gives what another gives, and of which no call was made.
    pub fn new(door: SteadyDoor<L>, failing: Vec<u64>) -> Self
        ensures { result ≡ record { door = door; faults = 0; calls = 0; failing = failing.items } }
    {
        MemoryDoor {
            door,
            failing,
            calls: 0,
            fault_count: 0,
        }
    }

    /// The links that were finished, in order, each with the number of its connection.
    pub fn as_slice(&self) -> &[(u32, L)]
        ensures { result.now ≡ self.now.door.finished }
    {
        self.door.as_slice()
    }
}

impl<L: Link + Drop> Door for MemoryDoor<L> {
    type L = L;

    ghost coming = { λ memory. Some memory.door.coming };

    ghost finished = { λ memory. Some memory.door.finished };

    ghost listener = { λ memory. memory.door.listener };

    ghost closed = { λ memory. memory.door.closed };

    ghost has_lent = { λ memory. Lends memory.door };

    ghost faults = { λ memory. memory.faults };

    fn next(&mut self) -> Next<L>
        ensures new { IfLink result (λ link. IsNew (L.told link)) }
        ensures coming { GivesFirst result self.old.door.coming self.new.door.coming }
        ensures to_come { All (λ link. IsNew (L.told link)) self.new.door.coming }
        ensures closed { self.new.door.closed ≡ (self.old.door.closed || is_closed result) }
        ensures always { self.old.door.closed ≡ true → is_closed result ≡ true }
        ensures lent { IfLink result (λ link. Lends self.new.door) }
        ensures finished { self.new.door.finished ≡ self.old.door.finished }
        ensures listener { self.new.door.listener ≡ self.old.door.listener }
        ensures cause { is_failed result ≡ true → Rose self.old.faults self.new.faults }
        ensures later { self.old.faults ≤ self.new.faults }
        ensures call { NextInMemory self.old self.new result }
    {
        self.calls = one_more(self.calls);
        if self.failing.contains(&self.calls) && !self.door.is_empty() {
            self.fault_count = one_more(self.fault_count);
            return Next::Failed;
        }
        self.door.next()
    }

    fn finish(&mut self, conn: u32, link: L)
        requires { Lends self.old.door }
        ensures finished { self.new.door.finished ≡ self.old.door.finished ++ (conn, link) ∷ [] }
        ensures coming { self.new.door.coming ≡ self.old.door.coming }
        ensures closed { self.new.door.closed ≡ self.old.door.closed }
        ensures listener { self.new.door.listener ≡ self.old.door.listener }
        ensures faults { self.new.faults ≡ self.old.faults }
    {
        self.door.finish(conn, link)
    }

    fn listener(&self) -> u32
        ensures { result ≡ self.now.door.listener }
    {
        self.door.listener()
    }
}
