// The real entrance, which says where it listens.
ghost use Rattle.std.specs.Prelude.{◌≡◌, None};
ghost use Rattle.host_world.specs.Host.{first_trouble};

use acct_keeper::KeepError;
use acct_links::Entrance;
use host_doors::{Board, DoorTrouble, HostDoor, HostEntrance, LIMITS};
use std::alloc::Global;
use std::fs::Files;
use std::io::Eprint;
use std::net::{Net, OpenListener};
use std::os::fd::AsFd;
use std::sync::Arc;
use std::time::Clock;

/// The entrance of the system. It says on the standard error where each listener listens, once it does and before a
/// link is taken there.
#[derive(Drop)]
pub struct SpokenEntrance<'a, R: Net + Files + Eprint> {
    rt: &'a R,
    entrance: HostEntrance<'a, R>,
}

impl<'a, R: Net + Files + Eprint + Copy + Drop> SpokenEntrance<'a, R> {
    /// An entrance of which nothing was asked, whose doors say the periods of a board, if there is one.
    pub fn new(rt: &'a R, alloc: Global, board: Option<Arc<Board, Global>>) -> Self
        ensures faults { result.entrance.fault_count ≡ 0 }
        ensures trouble { result.entrance.trouble ≡ None }
    {
        SpokenEntrance {
            rt,
            entrance: HostEntrance::with_board(rt, alloc, LIMITS, board),
        }
    }

    // Says where the last listener listens.
    fn say_place(&self) {
        if let Some(place) = self.entrance.place() {
            let _ = eprintln!(self.rt; "account: listening at {place}");
        }
    }

    /// Why the last listener that has no doors has none.
    pub fn into_trouble(self) -> Option<DoorTrouble>
        ensures { result ≡ self.entry.entrance.trouble }
    {
        self.entrance.into_trouble()
    }
}

impl<'a, R: Net + Files + Eprint + Clock + Copy + Drop> Entrance for SpokenEntrance<'a, R>
where
    R::Listener: AsFd,
{
    type D = HostDoor<R, R::Listener, R::Stream>;

    ghost asked = { λ _. None };

    ghost faults = { λ spoken. spoken.entrance.fault_count };

    fn doors(
        &mut self,
        listener: u32,
        address: &str,
        workers: u32,
        links: u64,
    ) -> Result<Vec<HostDoor<R, R::Listener, R::Stream>>, KeepError> {
        let doors = self.entrance.doors(listener, address, workers, links);
        if doors.is_ok() {
            self.say_place();
        }
        doors
    }
}

/// Why no connection can be taken any more at the first of the doors at which none can.
pub fn first_trouble<R, T: OpenListener<Stream = S>, S>(
    doors: &[HostDoor<R, T, S>],
) -> Option<DoorTrouble>
    ensures { result ≡ first_trouble doors.now }
{
    for door in doors {
        if let Some(trouble) = door.trouble() {
            return Some(trouble);
        }
    }
    None
}
