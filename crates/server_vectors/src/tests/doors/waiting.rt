// Doors of which an accept fails, or whose clients say nothing, and links that are given back unused.
use super::sockets::{answered, exchanged};
use acct_links::{Door, Entrance, Failed, Link, Next, send};
use host_doors::{Board, Hall, HostDoor, HostEntrance, LIMITS, Limits, Socket};
use std::alloc::Global;
use std::fmt::Display;
use std::io::{self, Eprint, Read, Write};
use std::net::{OpenListener, SocketAddr, TcpListener, TcpStream};
use std::sync::Arc;
use std::sync::atomic::{AtomicU64, Ordering};
use std::test::Fail;
use std::time::{Clock, Duration};

// A runtime whose time stands still, and that counts the lines on the standard error.
#[derive(Clone, Copy, Drop)]
struct Still<'a> {
    lines: &'a AtomicU64,
}

impl<'a> Clock for Still<'a> {
    fn monotonic(&self) -> io::Result<Duration> {
        Ok(Duration::from_secs(0))
    }

    fn since_1970(&self) -> io::Result<Duration> {
        Ok(Duration::from_secs(0))
    }
}

impl<'a> Eprint for Still<'a> {
    fn eprint<D: Display + Drop>(&self, value: D) -> io::Result<()> {
        drop(value);
        Ok(())
    }

    fn eprintln<D: Display + Drop>(&self, value: D) -> io::Result<()> {
        drop(value);
        self.lines.fetch_add(1, Ordering::SeqCst);
        Ok(())
    }
}

// A listener whose accepts fail, each with the next of these numbers of the system, and then give connections.
#[derive(Drop)]
struct Failing {
    numbers: &'static [i32],
    asked: AtomicU64,
    listener: TcpListener,
}

impl OpenListener for Failing {
    type Stream = TcpStream;

    fn accept(&self) -> io::Result<(TcpStream, SocketAddr)> {
        let asked = self.asked.fetch_add(1, Ordering::SeqCst) as usize;
        match self.numbers.get(asked) {
            Some(number) => Err(io::Error::from_raw_os_error(*number)),
            None => self.listener.accept(),
        }
    }
}

// A door of one link, in this hall, over a listener that fails so.
fn failing_door<'a>(
    alloc: Global,
    hall: Hall<Still<'a>>,
    listener: TcpListener,
    numbers: &'static [i32],
) -> Result<HostDoor<Still<'a>, Failing, TcpStream>, Fail> {
    let asked = AtomicU64::new(0);
    let failing = Failing {
        numbers,
        asked,
        listener,
    };
    let hall = Arc::new(alloc, hall)?;
    Ok(HostDoor::new(hall, Arc::new(alloc, Socket::Tcp(failing))?, 0, 1))
}

// That it is served, that it waits, and that the connection was closed.
const LINES: u64 = 3;

// ECONNABORTED, EPROTO, EAGAIN, ENETDOWN, EMFILE, ENFILE, ENOBUFS, ENOMEM, EPERM and EOPNOTSUPP.
const WAITED_OUT: [i32; 10] = [103, 71, 11, 100, 24, 23, 105, 12, 1, 95];

#[test]
fn an_accept_that_fails_is_asked_again(rt: HostRuntime) -> Result<(), Fail> {
    let lines = AtomicU64::new(0);
    let still = Still { lines: &lines };
    let listener = TcpListener::bind(&rt, "127.0.0.1:0")?;
    let mut client = TcpStream::connect(&rt, listener.local_addr()?)?;
    let mut door = failing_door(rt.alloc(), Hall::new(still, LIMITS), listener, &WAITED_OUT)?;
    assert!(rt; exchanged(&mut door, &mut client)? == (*b"ask", *b"yes", 0));
    assert!(rt; lines.load(Ordering::SeqCst) == LINES);
    assert!(rt; answered(&mut door) == *b"end" && door.trouble().is_none());
    Ok(())
}

// How many lines there are once a door was asked twice, after so many periods have begun.
const PERIODS: [(u64, u64); 3] = [(0, 0), (1, 1), (2, 1)];

fn lines_after(rt: &HostRuntime, periods: u64) -> Result<u64, Fail> {
    let lines = AtomicU64::new(0);
    let still = Still { lines: &lines };
    let board = Arc::new(rt.alloc(), Board::new())?;
    for _ in 0..periods {
        board.begin(8);
    }
    let hall = Hall::with_board(still, LIMITS, Some(Arc::try_clone(&board)?));
    let listener = TcpListener::bind(rt, "127.0.0.1:0")?;
    let mut door = failing_door(rt.alloc(), hall, listener, &[9, 9])?;
    for _ in 0..2 {
        if answered(&mut door) != *b"bad" {
            return Err(Fail::from("the door gave a link"));
        }
    }
    Ok(lines.load(Ordering::SeqCst))
}

#[test]
fn a_period_is_said_once(rt: HostRuntime) -> Result<(), Fail> {
    for (periods, lines) in PERIODS {
        assert_eq!(rt; lines_after(&rt, periods)?, lines);
    }
    Ok(())
}

const LOST: [(&[i32], &str); 3] = [
    (
        &[24, 9],
        "no connection can be taken any more (Bad file descriptor (os error 9)); start the server again",
    ),
    (
        &[22],
        "no connection can be taken any more (Invalid argument (os error 22)); start the server again",
    ),
    (
        &[88],
        "no connection can be taken any more (Socket operation on non-socket (os error 88)); start the server again",
    ),
];

fn is_lost(rt: &HostRuntime, numbers: &'static [i32], why: &str) -> Result<bool, Fail> {
    let lines = AtomicU64::new(0);
    let still = Still { lines: &lines };
    let listener = TcpListener::bind(rt, "127.0.0.1:0")?;
    let mut door = failing_door(rt.alloc(), Hall::new(still, LIMITS), listener, numbers)?;
    if answered(&mut door) != *b"bad" {
        return Ok(false);
    }
    let trouble = door.trouble().ok_or("no trouble")?;
    Ok(format!(in rt.alloc(); "{trouble}")?.as_str() == why)
}

#[test]
fn a_door_fails_once_its_socket_is_lost(rt: HostRuntime) -> Result<(), Fail> {
    for (numbers, why) in LOST {
        assert!(rt; is_lost(&rt, numbers, why)?, "{why}");
    }
    Ok(())
}

const SHORT: Limits = Limits {
    read: 1,
    write: 1,
    last_read: 1,
};

// At the end of a period alone.
const LAST: Limits = Limits {
    read: 600,
    write: 120,
    last_read: 1,
};

// A client of the last listener of an entrance.
fn connected(rt: &HostRuntime, place: Option<&str>) -> Result<TcpStream, Fail> {
    let place = place.unwrap_or("").strip_prefix("tcp:").unwrap_or("");
    Ok(TcpStream::connect(rt, place)?)
}

fn next_link<D: Door>(door: &mut D) -> Result<D::L, Fail> {
    let link = match door.next() {
        Next::Link(link) => Some(link),
        Next::Closed | Next::Failed => None,
    };
    Ok(link.ok_or("no link")?)
}

// Sends until it fails, at most so many pieces of a megabyte.
fn send_much<L: Link>(link: &mut L, piece: &[u8]) -> Result<(), Failed> {
    for _ in 0..64 {
        send(link, piece)?;
    }
    Ok(())
}

#[test]
fn a_peer_that_says_or_takes_nothing(rt: HostRuntime) -> Result<(), Fail> {
    let mut entrance = HostEntrance::with_limits(&rt, rt.alloc(), SHORT);
    let mut doors = entrance.doors(0, "tcp:127.0.0.1:0", 1, 0)?;
    let mut door = doors.pop().ok_or("no door")?;
    let client = connected(&rt, entrance.place())?;
    let mut link = next_link(&mut door)?;
    assert!(rt; link.read(&mut [0u8; 1]).is_err());
    let said = format!(in rt.alloc(); "{}", link.trouble().ok_or("no trouble")?)?;
    assert!(rt; said.as_str() == "reading failed (nothing came within the limit of time)");
    let piece = vec![in rt.alloc(); 0u8; 1 << 20]?;
    assert!(rt; send_much(&mut link, &piece).is_err());
    let said = format!(in rt.alloc(); "{}", link.trouble().ok_or("no trouble")?)?;
    assert!(rt; said.as_str() == "writing failed (nothing was taken within the limit of time)");
    door.finish(1, link);
    drop(client);
    Ok(())
}

// Three doors of one link each. The first gives its link back unused: the read of another one ends then, and the third
// door gives a link that has ended, though no client came.
#[test]
fn a_link_that_is_given_back_unused_comes_again(rt: HostRuntime) -> Result<(), Fail> {
    let mut entrance = HostEntrance::with_limits(&rt, rt.alloc(), LAST);
    let mut doors = entrance.doors(0, "tcp:127.0.0.1:0", 3, 1)?;
    let mut first = connected(&rt, entrance.place())?;
    let unused = next_link(&mut doors[0])?;
    let second = connected(&rt, entrance.place())?;
    let mut idle = next_link(&mut doors[1])?;
    doors[0].finish(0, unused);
    assert!(rt; idle.read(&mut [0u8; 1]).is_err());
    assert!(rt; answered(&mut doors[2]) == *b"not");
    assert!(rt; exchanged(&mut doors[0], &mut first)? == (*b"ask", *b"yes", 0));
    assert!(rt; answered(&mut doors[0]) == *b"end");
    drop(second);
    Ok(())
}

#[test]
fn a_link_that_is_given_back_read_is_closed(rt: HostRuntime) -> Result<(), Fail> {
    let mut entrance = HostEntrance::new(&rt, rt.alloc());
    let mut doors = entrance.doors(0, "tcp:127.0.0.1:0", 1, 1)?;
    let mut client = connected(&rt, entrance.place())?;
    client.write_all(b"ask")?;
    let mut link = next_link(&mut doors[0])?;
    assert!(rt; link.read(&mut [0u8; 3]) == Ok(3));
    doors[0].finish(0, link);
    assert!(rt; client.read(&mut [0u8; 1])? == 0);
    assert!(rt; answered(&mut doors[0]) == *b"end");
    Ok(())
}

// A door that has finished a link isn't asked for the next one.
#[test]
fn a_read_ends_while_a_door_is_away(rt: HostRuntime) -> Result<(), Fail> {
    let mut entrance = HostEntrance::with_limits(&rt, rt.alloc(), LAST);
    let mut doors = entrance.doors(0, "tcp:127.0.0.1:0", 2, 0)?;
    let first = connected(&rt, entrance.place())?;
    let served = next_link(&mut doors[0])?;
    let second = connected(&rt, entrance.place())?;
    let mut idle = next_link(&mut doors[1])?;
    doors[0].finish(1, served);
    assert!(rt; idle.read(&mut [0u8; 1]).is_err());
    let said = format!(in rt.alloc(); "{}", idle.trouble().ok_or("no trouble")?)?;
    assert!(rt;
        said.as_str() == "reading failed (nothing came for seconds, and a period was to end)"
    );
    drop(first);
    drop(second);
    Ok(())
}
