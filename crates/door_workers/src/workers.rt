// A worker: the links of one door, one after another.
ghost use Rattle.std.specs.Prelude.{◌≡◌, ◌<◌, [], None, Some, length};
ghost use Rattle.hist_lock.specs.Passes.{view, IsPassOf};
ghost use Rattle.acct_links.specs.Links.{IsNew};
ghost use Rattle.link_sessions.specs.Turns.{HasNoCall};
ghost use Rattle.door_workers.specs.steps.Passing.{start_under, OwnsLanes, ServesLive};
ghost use Rattle.door_workers.specs.steps.Opening.{OpensAt};
ghost use Rattle.door_workers.specs.steps.Serving.{IsServing, HandlesLink, ServesLink, door_end};

use crate::ends::DoorEnd;
use crate::kept::Locked;
use crate::lock_gate::LockGate;
use acct_links::{Door, Next};
use acct_machine::{Keeper, Opened};
use hist_lock::Kept;
use link_sessions::{Ended, Gate, SessionEnd, session};
use std::alloc::Global;
use std::sync::Wait;

/// A worker: its gate, the door that it serves, with its place among the doors, how many bytes a session reads at most,
/// and the ends of the sessions so far.
#[derive(Drop)]
pub struct Worker<'a, R: Wait, S: Kept, D: Door> {
    pub gate: LockGate<'a, R, S>,
    pub door: D,
    pub place: u32,
    pub max_read: u64,
    pub ends: Vec<Ended>,
}

// Opens a connection in one turn.
fn open_conn<R: Wait, K: Keeper + Drop>(gate: &mut LockGate<R, Locked<K>>, listener: u32) -> Opened
    requires ready { IsPassOf gate.old.lock.now gate.old.pass × OwnsLanes (view gate.old.pass) }
    requires configured { listener < length (start_under gate.old.lock.now).config.listeners }
    ensures lock { gate.new.lock.now ≡ gate.old.lock.now }
    ensures ready { IsPassOf gate.old.lock.now gate.new.pass × OwnsLanes (view gate.new.pass) }
    ensures number { (view gate.new.pass).number ≡ (view gate.old.pass).number }
    ensures opens { OpensAt (start_under gate.old.lock.now) listener result (view gate.old.pass)
        (view gate.new.pass) }
{
    gate.open_conn(listener)
}

// Why no further link is taken after a session that ended so, if that is so.
fn door_end(end: SessionEnd) -> Option<DoorEnd>
    ensures { result ≡ door_end end }
{
    match end {
        SessionEnd::Full(count) => Some(DoorEnd::Full(count)),
        SessionEnd::End
        | SessionEnd::Closed { .. }
        | SessionEnd::ReadFault
        | SessionEnd::WriteFault
        | SessionEnd::ByteLimit(_)
        | SessionEnd::NoMemory => None,
    }
}

impl<'a, R: Wait, K: Keeper + Drop, D: Door> Worker<'a, R, Locked<K>, D> {
    // Serves the connection that was opened for a link, and gives the link back.
    fn serve_conn(&mut self, alloc: Global, link: D::L, conn: u32) -> Option<DoorEnd>
        requires ready { IsPassOf self.old.gate.lock.now self.old.gate.pass × OwnsLanes (view self.old.gate.pass) }
        requires serves { ServesLive (start_under self.old.gate.lock.now) (view self.old.gate.pass) conn }
        requires silent { HasNoCall (start_under self.old.gate.lock.now) (view self.old.gate.pass).known conn }
        requires new { IsNew (D.L.told link) }
        requires lent { D.has_lent self.old.door }
        ensures lock { self.new.gate.lock.now ≡ self.old.gate.lock.now }
        ensures ready { IsPassOf self.old.gate.lock.now self.new.gate.pass × OwnsLanes (view self.new.gate.pass) }
        ensures number { (view self.new.gate.pass).number ≡ (view self.old.gate.pass).number }
        ensures fixed { (self.new.place ≡ self.old.place) × (self.new.max_read ≡ self.old.max_read) }
        ensures serves { ServesLink D.Door D.L.told (start_under self.old.gate.lock.now) self.old.max_read
            self.old.place conn link (view self.old.gate.pass) (view self.new.gate.pass) self.old.door self.new.door
            self.old.ends.items self.new.ends.items result }
    {
        let mut link = link;
        let end = session(alloc, &mut link, &mut self.gate, conn, self.max_read);
        self.door.finish(conn, link);
        let ended = Ended {
            conn,
            door: self.place,
            end,
        };
        match self.ends.push(ended) {
            Ok(()) => door_end(end),
            Err(_) => Some(DoorEnd::NoMemory),
        }
    }

    // Serves a link, and gives it back: unread, with the number 0, where the history takes no further connection.
    fn serve_link(&mut self, alloc: Global, link: D::L) -> Option<DoorEnd>
        requires ready { IsPassOf self.old.gate.lock.now self.old.gate.pass × OwnsLanes (view self.old.gate.pass) }
        requires configured { D.listener self.old.door
            < length (start_under self.old.gate.lock.now).config.listeners }
        requires new { IsNew (D.L.told link) }
        requires lent { D.has_lent self.old.door }
        ensures lock { self.new.gate.lock.now ≡ self.old.gate.lock.now }
        ensures ready { IsPassOf self.old.gate.lock.now self.new.gate.pass × OwnsLanes (view self.new.gate.pass) }
        ensures number { (view self.new.gate.pass).number ≡ (view self.old.gate.pass).number }
        ensures fixed { (self.new.place ≡ self.old.place) × (self.new.max_read ≡ self.old.max_read) }
        ensures handles { HandlesLink D.Door D.L.told (start_under self.old.gate.lock.now) self.old.max_read
            self.old.place link (view self.old.gate.pass) (view self.new.gate.pass) self.old.door self.new.door
            self.old.ends.items self.new.ends.items result }
    {
        match open_conn(&mut self.gate, self.door.listener()) {
            Opened::Conn(conn) => self.serve_conn(alloc, link, conn),
            Opened::Full(count) => {
                self.door.finish(0, link);
                Some(DoorEnd::Full(count))
            }
        }
    }

    // Serves the next link of the door, or tells why none is taken.
    fn next_link(&mut self, alloc: Global) -> Option<DoorEnd>
        requires ready { IsPassOf self.old.gate.lock.now self.old.gate.pass × OwnsLanes (view self.old.gate.pass) }
        requires configured { D.listener self.old.door
            < length (start_under self.old.gate.lock.now).config.listeners }
        ensures lock { self.new.gate.lock.now ≡ self.old.gate.lock.now }
        ensures ready { IsPassOf self.old.gate.lock.now self.new.gate.pass × OwnsLanes (view self.new.gate.pass) }
        ensures number { (view self.new.gate.pass).number ≡ (view self.old.gate.pass).number }
        ensures fixed { (self.new.place ≡ self.old.place) × (self.new.max_read ≡ self.old.max_read) }
        ensures listener { D.listener self.new.door ≡ D.listener self.old.door }
        ensures serves { (before : D) → IsServing D.Door D.L.told (start_under self.old.gate.lock.now) self.old.max_read
            self.old.place None before self.old.door (view self.old.gate.pass) self.old.ends.items
            → IsServing D.Door D.L.told (start_under self.old.gate.lock.now) self.old.max_read self.old.place result
            before self.new.door (view self.new.gate.pass) self.new.ends.items }
    {
        match self.door.next() {
            Next::Link(link) => self.serve_link(alloc, link),
            Next::Closed => Some(DoorEnd::Closed),
            Next::Failed => Some(DoorEnd::Failed),
        }
    }

    /// Serves the links of the door until no further one is taken, and tells why. The pass has made no turn yet, and no
    /// end was noted.
    pub fn work(&mut self, alloc: Global) -> DoorEnd
        requires pass { IsPassOf self.old.gate.lock.now self.old.gate.pass }
        requires new { ((view self.old.gate.pass).known ≡ []) × ((view self.old.gate.pass).own ≡ []) }
        requires none { self.old.ends.items ≡ [] }
        requires configured { D.listener self.old.door
            < length (start_under self.old.gate.lock.now).config.listeners }
        ensures lock { self.new.gate.lock.now ≡ self.old.gate.lock.now }
        ensures pass { IsPassOf self.old.gate.lock.now self.new.gate.pass }
        ensures number { (view self.new.gate.pass).number ≡ (view self.old.gate.pass).number }
        ensures fixed { (self.new.place ≡ self.old.place) × (self.new.max_read ≡ self.old.max_read) }
        ensures serves { IsServing D.Door D.L.told (start_under self.old.gate.lock.now) self.old.max_read
            self.old.place (Some result) self.old.door self.new.door (view self.new.gate.pass) self.new.ends.items }
    {
        let rt = self.gate.rt;
        for _ in rt.forever() {
            match self.next_link(alloc) {
                Some(end) => return end,
                None => {}
            }
        }
        unreachable!()
    }
}
