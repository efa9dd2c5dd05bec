// The entrance of the system.
ghost use Rattle.std.specs.Prelude.{◌≡◌, ◌≤◌, None, true, All, IsSome, IfSome, IfOk, IfErr, is_some, length};
ghost use Rattle.std.specs.Prelude.{string_bytes};
ghost use Rattle.std.specs.IoError.{error_kind, raw_os_error};
ghost use Rattle.acct_keeper.specs.Faults.{KeepCause, faults_after};
ghost use Rattle.acct_keeper.specs.Memory.{is_fault};
ghost use Rattle.host_doors.specs.Doors.{IsDoor};
ghost use Rattle.host_doors.specs.Troubles.{advice_of, is_refused, listened};

use crate::binding::listen;
use crate::boards::Board;
use crate::doors::HostDoor;
use crate::halls::{Hall, LIMITS, Limits};
use crate::sockets::Socket;
use crate::troubles::{DoorTrouble, ListenError, advice_of};
use acct_keeper::KeepError;
use acct_links::Entrance;
use std::alloc::Global;
use std::fs::Files;
use std::io::{self, Eprint};
use std::net::{Net, OpenListener};
use std::os::fd::AsFd;
use std::sync::Arc;
use std::time::Clock;

// The doors of a listener, which share its socket.
fn share<R: Drop, T: OpenListener<Stream = S> + Drop, S: Drop>(
    alloc: Global,
    hall: &Arc<Hall<R>, Global>,
    socket: &Arc<Socket<T>, Global>,
    listener: u32,
    workers: u32,
    links: u64,
) -> io::Result<Vec<HostDoor<R, T, S>>>
    ensures count { IfOk result (λ doors. length doors.items ≡ workers) }
    ensures doors { IfOk result (λ doors. All (λ door. IsDoor listener links door) doors.items) }
{
    let mut doors = Vec::new(alloc);
    for _i in 0..workers {
        let (hall, socket) = (Arc::try_clone(hall)?, Arc::try_clone(socket)?);
        doors.push(HostDoor::new(hall, socket, listener, links))?;
    }
    Ok(doors)
}

/// Gives the doors of listeners at addresses of the forms `tcp:HOST:PORT` and `unix:PATH`. It tells nothing of what it
/// was asked, and keeps where the last listener listens and what went wrong last.
#[derive(Drop)]
pub struct HostEntrance<'a, R: Net + Files> {
    rt: &'a R,
    alloc: Global,
    limits: Limits,
    board: Option<Arc<Board, Global>>,
    hall: Option<Arc<Hall<R>, Global>>,
    fault_count: u64,
    place: Option<String>,
    trouble: Option<DoorTrouble>,
}

impl<'a, R: Net + Files + Copy + Drop> HostEntrance<'a, R> {
    /// An entrance of which nothing was asked.
    pub fn new(rt: &'a R, alloc: Global) -> Self
        ensures limits { result.limits ≡ record { read = 600; write = 120; last_read = 5 } }
        ensures board { result.board ≡ None }
        ensures count { result.fault_count ≡ 0 }
        ensures place { result.place ≡ None }
        ensures trouble { result.trouble ≡ None }
    {
        HostEntrance::with_limits(rt, alloc, LIMITS)
    }

    /// The same, with other limits of time for the links of its doors.
    pub fn with_limits(rt: &'a R, alloc: Global, limits: Limits) -> Self
        ensures limits { result.limits ≡ limits }
        ensures board { result.board ≡ None }
        ensures count { result.fault_count ≡ 0 }
        ensures place { result.place ≡ None }
        ensures trouble { result.trouble ≡ None }
    {
        HostEntrance::with_board(rt, alloc, limits, None)
    }

    /// The same, whose doors say the periods of a board, if there is one.
    pub fn with_board(
        rt: &'a R,
        alloc: Global,
        limits: Limits,
        board: Option<Arc<Board, Global>>,
    ) -> Self
        ensures limits { result.limits ≡ limits }
        ensures board { result.board ≡ board }
        ensures count { result.fault_count ≡ 0 }
        ensures place { result.place ≡ None }
        ensures trouble { result.trouble ≡ None }
    {
        HostEntrance {
            rt,
            alloc,
            limits,
            board,
            hall: None,
            fault_count: 0,
            place: None,
            trouble: None,
        }
    }

    /// The address at which the last listener listens, by TCP with the port that the system gave it.
    pub fn place(&self) -> Option<&str>
        ensures none { is_some result ≡ is_some self.now.place }
        ensures text { IfSome result (λ text. IfSome self.now.place (λ place. text.now ≡ string_bytes place)) }
    {
        match &self.place {
            Some(place) => Some(place.as_str()),
            None => None,
        }
    }

    // What its doors share.
    fn hall(&mut self) -> io::Result<Arc<Hall<R>, Global>>
        ensures { self.new ≡ record self.old { hall = self.new.hall } }
    {
        if let Some(hall) = &self.hall {
            return Ok(Arc::try_clone(hall)?);
        }
        let board = match &self.board {
            Some(board) => Some(Arc::try_clone(board)?),
            None => None,
        };
        let hall = Hall::with_board(*self.rt, self.limits, board);
        let hall = Arc::new(self.alloc, hall)?;
        self.hall = Some(Arc::try_clone(&hall)?);
        Ok(hall)
    }

    /// Why the last listener that has no doors has none.
    pub fn into_trouble(self) -> Option<DoorTrouble>
        ensures { result ≡ self.entry.trouble }
    {
        self.trouble
    }
}

// The doors of a listener, and the address at which it listens.
fn open<R: Net + Files + Drop>(
    rt: &R,
    alloc: Global,
    hall: io::Result<Arc<Hall<R>, Global>>,
    listener: u32,
    address: &str,
    workers: u32,
    links: u64,
) -> io::Result<(String, Vec<HostDoor<R, R::Listener, R::Stream>>)>
where
    R::Listener: AsFd,
    ensures count { IfOk result (λ opened. length opened.1.items ≡ workers) }
    ensures doors { IfOk result (λ opened. All (λ door. IsDoor listener links door) opened.1.items) }
{
    let socket = listen(rt, address)?;
    let place = socket.address(alloc, address)?;
    let socket = Arc::new(alloc, socket)?;
    let doors = share(alloc, &hall?, &socket, listener, workers, links)?;
    Ok((place, doors))
}

impl<'a, R: Net + Files + Drop> HostEntrance<'a, R> {
    // What comes of opening a listener that has its doors, or none by the system's reason.
    fn settle(
        &mut self,
        address: String,
        opened: io::Result<(String, Vec<HostDoor<R, R::Listener, R::Stream>>)>,
    ) -> Result<Vec<HostDoor<R, R::Listener, R::Stream>>, ListenError>
        ensures doors { result ≡ listened opened }
        ensures place { IfOk opened (λ given. self.new.place ≡ Some given.0) }
        ensures count { self.new.fault_count ≡ faults_after (is_refused result) self.old.fault_count }
        ensures later { self.old.fault_count ≤ self.new.fault_count }
        ensures trouble { IfErr opened (λ error. is_refused result ≡ true → self.new.trouble
            ≡ Some (DoorTrouble.NotBound address error (advice_of (error_kind error) (raw_os_error error)))) }
    {
        match opened {
            Ok((place, doors)) => {
                self.place = Some(place);
                Ok(doors)
            }
            Err(error) => match ListenError::from(error) {
                ListenError::NoMemory => Err(ListenError::NoMemory),
                ListenError::Refused => {
                    self.fault_count = self.fault_count.saturating_add(1);
                    self.trouble = Some(DoorTrouble::NotBound {
                        address,
                        error,
                        advice: advice_of(error),
                    });
                    Err(ListenError::Refused)
                }
            },
        }
    }
}

impl<'a, R: Net + Files + Clock + Eprint + Copy + Drop> HostEntrance<'a, R>
where
    R::Listener: AsFd,
{
    /// Opens a listener at an address `tcp:HOST:PORT` or `unix:PATH`, and gives as many doors of it as workers, each of
    /// which gives so many links, any number where that is 0. Where the system refuses it, the count of faults rises by
    /// one, and the reason is kept.
    pub fn listen(
        &mut self,
        listener: u32,
        address: &str,
        workers: u32,
        links: u64,
    ) -> Result<Vec<HostDoor<R, R::Listener, R::Stream>>, ListenError>
        ensures count { IfOk result (λ doors. length doors.items ≡ workers) }
        ensures doors { IfOk result (λ doors. All (λ door. IsDoor listener links door) doors.items) }
        ensures place { IfOk result (λ doors. IsSome self.new.place) }
        ensures faults { self.new.fault_count ≡ faults_after (is_refused result) self.old.fault_count }
        ensures later { self.old.fault_count ≤ self.new.fault_count }
        ensures trouble { is_refused result ≡ true → IsSome self.new.trouble }
    {
        let asked = String::from_str(self.alloc, address)?;
        let hall = self.hall();
        let opened = open(self.rt, self.alloc, hall, listener, address, workers, links);
        self.settle(asked, opened)
    }
}

impl<'a, R: Net + Files + Clock + Eprint + Copy + Drop> Entrance for HostEntrance<'a, R>
where
    R::Listener: AsFd,
{
    type D = HostDoor<R, R::Listener, R::Stream>;

    ghost asked = { λ _. None };

    ghost faults = { λ entrance. entrance.fault_count };

    fn doors(
        &mut self,
        listener: u32,
        address: &str,
        workers: u32,
        links: u64,
    ) -> Result<Vec<HostDoor<R, R::Listener, R::Stream>>, KeepError>
        ensures count { IfOk result (λ doors. length doors.items ≡ workers) }
        ensures doors { IfOk result (λ doors. All (λ door. IsDoor listener links door) doors.items) }
        ensures place { IfOk result (λ doors. IsSome self.new.place) }
        ensures faults { self.new.fault_count ≡ faults_after (is_fault result) self.old.fault_count }
        ensures cause { IfErr result (KeepCause self.old.fault_count self.new.fault_count) }
        ensures later { self.old.fault_count ≤ self.new.fault_count }
        ensures trouble { is_fault result ≡ true → IsSome self.new.trouble }
    {
        Ok(self.listen(listener, address, workers, links)?)
    }
}
