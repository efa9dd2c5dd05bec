// Entrances in memory.
ghost use Rattle.std.specs.Prelude.{◌≡◌, ◌<◌, ◌≤◌, [], ◌∷◌, All, Some, false, length, drop, IfOk, IfErr, OnErr};
ghost use Rattle.acct_keeper.specs.Faults.{KeepCause};
ghost use Rattle.acct_keeper.specs.Memory.{is_fault};
ghost use Rattle.acct_keeper.specs.declared.keeper.KeepError.TheVariants.{NoMemory};
ghost use Rattle.acct_links.specs.Doors.{asked_after};
ghost use Rattle.acct_links.specs.Links.{IsNew};
ghost use Rattle.acct_links.specs.MemoryDoors.{dealt, door_of, first_or, opened, plain, AsksInMemory};

use crate::asking::{Asking, add_asking};
use crate::entrances::Entrance;
use crate::links::Link;
use crate::memory_doors::{MemoryDoor, SteadyDoor};
use acct_base::Seq;
use acct_keeper::{KeepError, one_more};
use std::alloc::{AllocError, Global};
use std::collections::VecDeque;
use std::marker::Model;

/// What a door of an entrance in memory is made of: its links, and the numbers of its calls that fail.
#[derive(Drop)]
pub struct DoorPlan<L: Drop> {
    pub links: Seq<L>,
    pub failing: Seq<u64>,
}

// The plan of the next door, without links where there is none.
fn next_plan<L: Drop>(alloc: Global, plans: &mut VecDeque<DoorPlan<L>>) -> DoorPlan<L>
    ensures first { result ≡ first_or plain plans.old.items }
    ensures rest { plans.new.items ≡ drop 1 plans.old.items }
{
    match plans.pop_front() {
        Some(plan) => plan,
        None => DoorPlan {
            links: Seq::new(alloc),
            failing: Seq::new(alloc),
        },
    }
}

fn make_door<L: Link + Drop>(
    alloc: Global,
    listener: u32,
    plan: DoorPlan<L>,
) -> Result<MemoryDoor<L>, AllocError>
    requires { All (λ link. IsNew (L.told link)) plan.links }
    ensures { IfOk result (λ door. door ≡ door_of listener plan) }
{
    let DoorPlan { links, failing } = plan;
    let door = SteadyDoor::new(alloc, listener, links.into_vec())?;
    Ok(MemoryDoor::new(door, failing.into_vec()))
}

fn make_doors<L: Link + Drop>(
    alloc: Global,
    listener: u32,
    workers: u32,
    plans: &mut VecDeque<DoorPlan<L>>,
) -> Result<Vec<MemoryDoor<L>>, AllocError>
    requires { All (λ plan. All (λ link. IsNew (L.told link)) plan.links) plans.old.items }
    ensures doors { IfOk result (λ doors. doors.items ≡ dealt (door_of listener) plain workers plans.old.items) }
    ensures new { All (λ plan. All (λ link. IsNew (L.told link)) plan.links) plans.new.items }
{
    let mut doors = Vec::new(alloc);
    for _i in 0..workers {
        let plan = next_plan(alloc, plans);
        doors.push(make_door(alloc, listener, plan)?)?;
    }
    Ok(doors)
}

// Notes an asking that is answered with doors, and gives them back. Where memory ran out nothing is noted.
fn answer_with<D: Drop>(
    alloc: Global,
    asked: &mut Vec<Asking>,
    listener: u32,
    address: &str,
    workers: u32,
    links: u64,
    doors: Vec<D>,
) -> Result<Vec<D>, KeepError>
    ensures doors { IfOk result (λ given. given.items ≡ doors.items) }
    ensures asked { Some asked.new.items ≡ asked_after (Some asked.old.items)
        (record { listener = listener; address = address.now; workers = workers; links = links }) result }
    ensures cause { IfErr result (λ e. e ≡ NoMemory) }
    ensures free { is_fault result ≡ false }
{
    add_asking(alloc, asked, listener, address, workers, links)?;
    Ok(doors)
}

/// An entrance in memory, which makes its doors by its plans one after another, whatever the listener. Its calls are
/// numbered from 1, and those of the given numbers fail.
#[derive(Drop)]
pub struct MemoryEntrance<L: Link + Drop> {
    alloc: Global,
    plans: VecDeque<DoorPlan<L>>,
    asked: Vec<Asking>,
    failing: Vec<u64>,
    calls: u64,
    fault_count: u64,
}

impl<L: Link + Drop> Model for MemoryEntrance<L> {
    ghost use Rattle.std.specs.Prelude.{All};
    ghost use Rattle.acct_links.specs.MemoryDoors.{EntranceInMemory};
    ghost use Rattle.acct_links.specs.Links.{IsNew};

    ghost Value = { EntranceInMemory L };

    ghost view = { λ entrance. record {
      plans = entrance.plans.items;
      asked = entrance.asked.items;
      faults = entrance.fault_count;
      calls = entrance.calls;
      failing = entrance.failing.items;
    } };

    ghost invariant = { λ entrance.
        All (λ plan. All (λ link. IsNew (L.told link)) plan.links) entrance.plans.items };
}

impl<L: Link + Drop> MemoryEntrance<L> {
    /// An entrance whose doors have these plans, in order, of whose links nothing was read or written.
    pub fn new(alloc: Global, plans: Vec<DoorPlan<L>>, failing: Vec<u64>) -> Self
        requires { All (λ plan. All (λ link. IsNew (L.told link)) plan.links) plans.items }
        ensures { result ≡ record {
          plans = plans.items;
          asked = [];
          faults = 0;
          calls = 0;
          failing = failing.items;
        } }
    {
        MemoryEntrance {
            alloc,
            plans: VecDeque::from_vec(plans),
            asked: Vec::new(alloc),
            failing,
            calls: 0,
            fault_count: 0,
        }
    }

    /// The askings that it answered with doors, in order.
    pub fn askings(&self) -> &[Asking]
        ensures { result.now ≡ self.now.asked }
    {
        &self.asked
    }
}

impl<L: Link + Drop> Entrance for MemoryEntrance<L> {
    type D = MemoryDoor<L>;

    ghost asked = { λ entrance. Some entrance.asked };

    ghost faults = { λ entrance. entrance.faults };

    fn doors(
        &mut self,
        listener: u32,
        address: &str,
        workers: u32,
        links: u64,
    ) -> Result<Vec<MemoryDoor<L>>, KeepError>
        ensures count { IfOk result (λ doors. length doors.items ≡ workers) }
        ensures listener { IfOk result (λ doors. All (λ door. door.door.listener ≡ listener) doors.items) }
        ensures open { IfOk result (λ doors. All (λ door. door.door.closed ≡ false) doors.items) }
        ensures unused { IfOk result (λ doors. All (λ door. door.door.finished ≡ []) doors.items) }
        ensures asked { Some self.new.asked ≡ asked_after (Some self.old.asked)
            (record { listener = listener; address = address.now; workers = workers; links = links }) result }
        ensures cause { IfErr result (KeepCause self.old.faults self.new.faults) }
        ensures later { self.old.faults ≤ self.new.faults }
        ensures call { AsksInMemory self.old self.new result }
        ensures doors { IfOk result (λ doors. doors.items ≡ dealt (door_of listener) plain workers self.old.plans) }
    {
        self.calls = one_more(self.calls);
        if self.failing.contains(&self.calls) {
            self.fault_count = one_more(self.fault_count);
            return Err(KeepError::Failed);
        }
        let made = make_doors(self.alloc, listener, workers, &mut self.plans)?;
        answer_with(
            self.alloc,
            &mut self.asked,
            listener,
            address,
            workers,
            links,
            made,
        )
    }
}

// The links of the next door, none where there are no more.
fn next_links<L: Drop>(alloc: Global, plans: &mut VecDeque<Seq<L>>) -> Seq<L>
    ensures first { result ≡ first_or [] plans.old.items }
    ensures rest { plans.new.items ≡ drop 1 plans.old.items }
{
    match plans.pop_front() {
        Some(links) => links,
        None => Seq::new(alloc),
    }
}

fn steady_doors<L: Link + Drop>(
    alloc: Global,
    listener: u32,
    workers: u32,
    plans: &mut VecDeque<Seq<L>>,
) -> Result<Vec<SteadyDoor<L>>, AllocError>
    requires { All (λ links. All (λ link. IsNew (L.told link)) links) plans.old.items }
    ensures doors { IfOk result (λ doors. doors.items ≡ dealt (opened listener) [] workers plans.old.items) }
    ensures new { All (λ links. All (λ link. IsNew (L.told link)) links) plans.new.items }
{
    let mut doors = Vec::new(alloc);
    for _i in 0..workers {
        let links = next_links(alloc, plans);
        doors.push(SteadyDoor::new(alloc, listener, links.into_vec())?)?;
    }
    Ok(doors)
}

/// An entrance in memory whose calls never fail, nor those of its doors: the counts of faults are 0. Its doors have
/// their links from lists one after another, whatever the listener.
#[derive(Drop)]
pub struct SteadyEntrance<L: Link + Drop> {
    alloc: Global,
    plans: VecDeque<Seq<L>>,
    asked: Vec<Asking>,
}

impl<L: Link + Drop> Model for SteadyEntrance<L> {
    ghost use Rattle.std.specs.Prelude.{All};
    ghost use Rattle.acct_links.specs.MemoryDoors.{SteadyEntranceInMemory};
    ghost use Rattle.acct_links.specs.Links.{IsNew};

    ghost Value = { SteadyEntranceInMemory L };

    ghost view = { λ entrance. record { plans = entrance.plans.items; asked = entrance.asked.items } };

    ghost invariant = { λ entrance. All (λ links. All (λ link. IsNew (L.told link)) links) entrance.plans.items };
}

impl<L: Link + Drop> SteadyEntrance<L> {
    /// An entrance whose doors have these links, of which nothing was read or written, and none where the lists end.
    pub fn new(alloc: Global, plans: Vec<Seq<L>>) -> Self
        requires { All (λ links. All (λ link. IsNew (L.told link)) links) plans.items }
        ensures { result ≡ record { plans = plans.items; asked = [] } }
    {
        SteadyEntrance {
            alloc,
            plans: VecDeque::from_vec(plans),
            asked: Vec::new(alloc),
        }
    }
}

impl<L: Link + Drop> Entrance for SteadyEntrance<L> {
    type D = SteadyDoor<L>;

    ghost asked = { λ entrance. Some entrance.asked };

    ghost faults = { λ _. 0 };

    fn doors(
        &mut self,
        listener: u32,
        address: &str,
        workers: u32,
        links: u64,
    ) -> Result<Vec<SteadyDoor<L>>, KeepError>
        ensures count { IfOk result (λ doors. length doors.items ≡ workers) }
        ensures listener { IfOk result (λ doors. All (λ door. door.listener ≡ listener) doors.items) }
        ensures open { IfOk result (λ doors. All (λ door. door.closed ≡ false) doors.items) }
        ensures unused { IfOk result (λ doors. All (λ door. door.finished ≡ []) doors.items) }
        ensures doors { IfOk result (λ doors. doors.items ≡ dealt (opened listener) [] workers self.old.plans) }
        ensures asked { Some self.new.asked ≡ asked_after (Some self.old.asked)
            (record { listener = listener; address = address.now; workers = workers; links = links }) result }
        ensures cause { IfErr result (λ e. e ≡ NoMemory) }
    {
        let made = steady_doors(self.alloc, listener, workers, &mut self.plans)?;
        answer_with(
            self.alloc,
            &mut self.asked,
            listener,
            address,
            workers,
            links,
            made,
        )
    }
}
