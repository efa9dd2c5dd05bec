// The doors of the system.
ghost use Rattle.std.specs.Prelude.{◌≡◌, ◌-◌, ◌≤◌, ◌||◌, None, Some, Ok, true, false, is_err, IfSome, IsSomeAnd};
ghost use Rattle.std.specs.Prelude.{IfErr, MatchResult, option_map, if◌then◌else◌, ◌&&◌, not};
ghost use Rattle.std.specs.IoError.{raw_os_error};
ghost use Rattle.std.proofs.Props.{props};
ghost use Rattle.acct_keeper.specs.Faults.{faults_after};
ghost use Rattle.acct_links.specs.Doors.{IfLink, is_closed, is_failed};
ghost use Rattle.acct_links.specs.declared.doors.Next.TheVariants as next;
ghost use Rattle.host_doors.specs.Counts.{is_spent, left_after, left_of, is_unused, is_over, left_with};
ghost use Rattle.host_doors.specs.Troubles.{is_lost};

use crate::channels::Channel;
use crate::halls::{Hall, LOOK};
use crate::links::HostLink;
use crate::sockets::Socket;
use crate::troubles::{DoorTrouble, is_lost};
use acct_links::{Door, Next};
use std::alloc::Global;
use std::io::{self, Eprint, Read, Write};
use std::net::{OpenListener, OpenStream};
use std::sync::Arc;
use std::time::{Clock, Duration};

// How long a door waits before it asks again for a connection that it couldn't take, in milliseconds.
const PAUSE: u64 = 100;

// And where none came: a socket that waits by itself was waited for, and one that doesn't isn't asked without a rest.
const REST: u64 = 1;

/// A door at a socket, which it shares with the other doors of its listener. It tells nothing of its links, and keeps
/// how many are left to be given, none where any number is, one that was given back unused for lack of room in a
/// history, and what went wrong last.
#[derive(Drop)]
pub struct HostDoor<R, T, S> {
    hall: Arc<Hall<R>, Global>,
    socket: Arc<Socket<T>, Global>,
    listener: u32,
    left: Option<u64>,
    is_closed: bool,
    kept: Option<HostLink<R, S>>,
    // The turn in which it finished a link, until it is asked for the next one.
    away: Option<u64>,
    fault_count: u64,
    trouble: Option<io::Error>,
    ghost spent: { is_closed ≡ true → is_spent left ≡ true },
    ghost unused: { IfSome kept (λ link. (link.is_used ≡ false) × (is_spent left ≡ false)) } by { Prim.hlevel props },
}

fn left_of(links: u64) -> Option<u64>
    ensures { result ≡ left_of links }
{
    if links == 0 { None } else { Some(links) }
}

fn one_less(left: Option<u64>) -> Option<u64>
    ensures { result ≡ option_map (λ n. n - 1) left }
{
    match left {
        Some(count) => Some(count.saturating_sub(1)),
        None => None,
    }
}

fn one_more(left: Option<u64>) -> Option<u64>
    ensures more { result ≡ left_with left }
    ensures going { is_spent result ≡ false }
{
    match left {
        Some(count) => Some(count.saturating_add(1)),
        None => None,
    }
}

// A door that was away is asked for its next link.
fn come_back<R>(hall: &Arc<Hall<R>, Global>, away: &mut Option<u64>) {
    if let Some(turn) = away.take() {
        hall.come_back(turn);
    }
}

// Waits a moment after an accept that failed, and says so where it is the first.
fn wait<R: Clock + Eprint>(
    hall: &Arc<Hall<R>, Global>,
    listener: u32,
    error: io::Error,
    is_first: bool,
) {
    if is_first {
        hall.say(format_args!(
            "listener {listener} takes no connection now ({error}) and asks again; raise the limit of open files if \
            that was reached"
        ));
    }
    hall.pause(Duration::from_millis(PAUSE));
}

// The next connection, once there is one. Where another door keeps a link, so that a history is full, and no connection
// comes, that is one that has ended: its worker gives it back unused too. It fails where the socket is lost alone.
fn take<R: Clock + Eprint, T: OpenListener<Stream = S> + Drop, S: OpenStream>(
    hall: &Arc<Hall<R>, Global>,
    socket: &Arc<Socket<T>, Global>,
    listener: u32,
) -> io::Result<Channel<S>>
    ensures { IfErr result (λ error. is_lost (raw_os_error error) ≡ true) }
{
    let mut is_first = true;
    for _ in 0..u64::MAX {
        match socket.accept() {
            Ok(channel) => {
                channel.limit(
                    Duration::from_secs(LOOK),
                    Duration::from_secs(hall.limits().write),
                );
                return Ok(channel);
            }
            Err(error) if is_lost(error) => return Err(error),
            Err(error) if error.kind() == io::ErrorKind::WouldBlock => {
                if hall.keeps() {
                    return Ok(Channel::Ended);
                }
                hall.settle();
                hall.pause(Duration::from_millis(REST));
            }
            Err(error) => {
                wait(hall, listener, error, is_first);
                is_first = false;
            }
        }
    }
    Ok(Channel::Ended)
}

impl<R, T: OpenListener, S> HostDoor<R, T, S> {
    /// A door that gives so many links, or any number where that is 0.
    pub fn new(
        hall: Arc<Hall<R>, Global>,
        socket: Arc<Socket<T>, Global>,
        listener: u32,
        links: u64,
    ) -> Self
        ensures listener { result.listener ≡ listener }
        ensures left { result.left ≡ left_of links }
        ensures open { result.is_closed ≡ false }
        ensures kept { result.kept ≡ None }
        ensures faults { result.fault_count ≡ 0 }
        ensures trouble { result.trouble ≡ None }
    {
        HostDoor {
            hall,
            socket,
            listener,
            left: left_of(links),
            is_closed: false,
            kept: None,
            away: None,
            fault_count: 0,
            trouble: None,
        }
    }

    /// Why no connection can be taken any more.
    pub fn trouble(&self) -> Option<DoorTrouble>
        ensures { result ≡ option_map (λ error. DoorTrouble.NotAccepted error) self.now.trouble }
    {
        match self.trouble {
            Some(error) => Some(DoorTrouble::NotAccepted(error)),
            None => None,
        }
    }
}

impl<R: Clock + Eprint, T: OpenListener<Stream = S> + Drop, S: Read + Write + OpenStream> HostDoor<
    R,
    T,
    S,
> {
    // What is answered where a connection came, or none by the system's reason.
    fn answer(&mut self, taken: io::Result<Channel<S>>) -> Next<HostLink<R, S>>
        requires going { is_spent self.old.left ≡ false }
        requires none { self.old.kept ≡ None }
        ensures link { IfLink result (λ link. (taken ≡ Ok link.channel) × (link.is_used ≡ false)) }
        ensures new { IfLink result (λ link. link.has_ended ≡ false) }
        ensures open { is_closed result ≡ false }
        ensures failed { is_failed result ≡ is_err taken }
        ensures left { self.new.left ≡ left_after result self.old.left }
        ensures closed { self.new.is_closed ≡ self.old.is_closed }
        ensures kept { self.new.kept ≡ None }
        ensures listener { self.new.listener ≡ self.old.listener }
        ensures count { self.new.fault_count ≡ faults_after (is_err taken) self.old.fault_count }
        ensures later { self.old.fault_count ≤ self.new.fault_count }
        ensures trouble { MatchResult taken (λ channel. self.new.trouble ≡ self.old.trouble)
            (λ error. self.new.trouble ≡ Some error) }
    {
        match taken {
            Ok(channel) => {
                self.left = one_less(self.left);
                Next::Link(HostLink::new(channel, Arc::try_clone(&self.hall).ok()))
            }
            Err(error) => {
                self.fault_count = self.fault_count.saturating_add(1);
                self.trouble = Some(error);
                Next::Failed
            }
        }
    }

    // Says how a connection ended, where it ended otherwise than by its end.
    fn tell_end(&self, conn: u32, link: &HostLink<R, S>) {
        if conn == 0 {
            return;
        }
        let listener = self.listener;
        match link.trouble() {
            Some(trouble) => {
                self.hall.say(format_args!(
                    "connection {conn} at listener {listener} ended: {trouble}"
                ))
            }
            None if link.has_ended() => {}
            None => {
                let cause = link.close_cause();
                self.hall.say(format_args!(
                    "connection {conn} at listener {listener} was closed: {cause}"
                ))
            }
        }
    }
}

impl<
    R: Clock + Eprint + Drop,
    T: OpenListener<Stream = S> + Drop,
    S: Read + Write + OpenStream + Drop,
> Door for HostDoor<R, T, S> {
    type L = HostLink<R, S>;

    ghost coming = { λ _. None };

    ghost finished = { λ _. None };

    ghost listener = { λ door. door.listener };

    ghost closed = { λ door. door.is_closed };

    ghost has_lent = { λ _. Unit {0} };

    ghost faults = { λ door. door.fault_count };

    fn next(&mut self) -> Next<HostLink<R, S>>
        ensures new { IfLink result (λ link. link.has_ended ≡ false) }
        ensures unused { IfLink result (λ link. link.is_used ≡ false) }
        ensures again { IfSome self.old.kept (λ link. result ≡ next.Link link) }
        ensures spent { is_closed result ≡ is_spent self.old.left }
        ensures left { self.new.left ≡ left_after result self.old.left }
        ensures none { self.new.kept ≡ None }
        ensures closed { self.new.is_closed ≡ (self.old.is_closed || is_closed result) }
        ensures always { self.old.is_closed ≡ true → is_closed result ≡ true }
        ensures listener { self.new.listener ≡ self.old.listener }
        ensures count { self.new.fault_count ≡ faults_after (is_failed result) self.old.fault_count }
        ensures later { self.old.fault_count ≤ self.new.fault_count }
        ensures lost { is_failed result ≡ true
            → IsSomeAnd self.new.trouble (λ error. is_lost (raw_os_error error) ≡ true) }
        ensures kept { is_failed result ≡ false → self.new.trouble ≡ self.old.trouble }
    {
        self.hall.begin();
        come_back(&self.hall, &mut self.away);
        if self.left == Some(0) {
            self.is_closed = true;
            return Next::Closed;
        }
        if let Some(link) = self.kept.take() {
            self.hall.hand_out();
            self.left = one_less(self.left);
            return Next::Link(link);
        }
        let taken = take(&self.hall, &self.socket, self.listener);
        self.answer(taken)
    }

    fn finish(&mut self, conn: u32, link: HostLink<R, S>)
        ensures kept { self.new.kept
            ≡ (if is_unused conn link.is_used self.old.is_closed self.old.kept && not (is_over link.channel)
            then Some link else self.old.kept) }
        ensures left { self.new.left ≡ (if is_unused conn link.is_used self.old.is_closed self.old.kept
            then left_with self.old.left else self.old.left) }
        ensures closed { self.new.is_closed ≡ self.old.is_closed }
        ensures listener { self.new.listener ≡ self.old.listener }
        ensures faults { self.new.fault_count ≡ self.old.fault_count }
        ensures trouble { self.new.trouble ≡ self.old.trouble }
    {
        self.tell_end(conn, &link);
        self.away = Some(self.hall.go_away());
        if conn != 0 || link.is_used() || self.is_closed || self.kept.is_some() {
            return;
        }
        self.left = one_more(self.left);
        if link.is_over() {
            return;
        }
        self.hall.keep();
        self.kept = Some(link);
    }

    fn listener(&self) -> u32 {
        self.listener
    }
}
