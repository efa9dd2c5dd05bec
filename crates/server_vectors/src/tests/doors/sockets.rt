// Listeners and their clients in one process: what comes over a link, how many links a door gives, and what is at an
// address already.
use crate::tests::files::{holds, make_folder};
use acct_keeper::KeepError;
use acct_links::{Door, Entrance, Link, Next, send};
use host_doors::HostEntrance;
use std::fs;
use std::io::{self, Read, Write};
use std::net::{TcpListener, TcpStream};
use std::os::unix::fs::MetadataExt;
use std::os::unix::net::{UnixListener, UnixStream};
use std::test::Fail;

// What came over the next link, which is answered and given back; else how the call ended.
pub fn answered<D: Door>(door: &mut D) -> [u8; 3] {
    match door.next() {
        Next::Link(mut link) => {
            let mut heard = *b"---";
            if link.read(&mut heard).is_err() || send(&mut link, b"yes").is_err() {
                heard = *b"not";
            }
            door.finish(1, link);
            heard
        }
        Next::Closed => *b"end",
        Next::Failed => *b"bad",
    }
}

fn twice<D: Door>(door: &mut D) -> [[u8; 3]; 2] {
    [answered(door), answered(door)]
}

// What a door and its client hear of one another, and how many bytes come then.
pub fn exchanged<D: Door, C: Read + Write>(
    door: &mut D,
    client: &mut C,
) -> io::Result<([u8; 3], [u8; 3], usize)> {
    client.write_all(b"ask")?;
    let there = answered(door);
    let mut here = *b"---";
    client.read_exact(&mut here)?;
    let rest = client.read(&mut [0u8; 1])?;
    Ok((there, here, rest))
}

// Doors go to the threads of their workers.
fn sent<T: Send>(value: T) -> T {
    value
}

// Whether a door of the third listener gives one link, at this place, and is closed then.
fn gives_one_link<D: Door>(rt: &HostRuntime, door: &mut D, place: &str) -> Result<bool, Fail> {
    let mut client = TcpStream::connect(rt, place)?;
    let is_heard = exchanged(door, &mut client)? == (*b"ask", *b"yes", 0);
    Ok(is_heard && door.listener() == 2 && twice(door) == [*b"end", *b"end"])
}

#[test]
fn a_door_by_tcp_that_gives_one_link(rt: HostRuntime) -> Result<(), Fail> {
    let mut entrance = HostEntrance::new(&rt, rt.alloc());
    let mut doors = sent(entrance.doors(2, "tcp:127.0.0.1:0", 1, 1)?);
    let place = entrance
        .place()
        .unwrap_or("")
        .strip_prefix("tcp:")
        .unwrap_or("");
    assert!(rt; doors.len() == 1);
    assert!(rt; gives_one_link(&rt, &mut doors[0], place)?);
    Ok(())
}

// Whether a door and a client at this path hear one another.
fn is_heard<D: Door>(rt: &HostRuntime, door: &mut D, path: &str) -> Result<bool, Fail> {
    let mut client = UnixStream::connect(rt, path)?;
    Ok(exchanged(door, &mut client)? == (*b"ask", *b"yes", 0))
}

fn are_heard<D: Door>(rt: &HostRuntime, doors: &mut Vec<D>, path: &str) -> Result<bool, Fail> {
    for door in doors {
        if !is_heard(rt, door, path)? {
            return Ok(false);
        }
    }
    Ok(true)
}

// Whether each of so many doors at a path is heard there.
fn are_served(rt: &HostRuntime, path: &str, workers: u32) -> Result<bool, Fail> {
    let address = format!(in rt.alloc(); "unix:{path}")?;
    let mut entrance = HostEntrance::new(rt, rt.alloc());
    let mut doors = entrance.doors(0, address.as_str(), workers, 0)?;
    let are_there = doors.len() == workers as usize && entrance.place() == Some(address.as_str());
    Ok(are_there && are_heard(rt, &mut doors, path)?)
}

#[test]
fn two_doors_in_a_folder(rt: HostRuntime) -> Result<(), Fail> {
    make_folder(&rt, "host_doors_two")?;
    assert!(rt; are_served(&rt, "host_doors_two/socket", 2)?);
    assert!(rt; fs::metadata(&rt, "host_doors_two/socket")?.mode() & 0o777 == 0o660);
    fs::remove_dir_all(&rt, "host_doors_two")?;
    Ok(())
}

#[test]
fn a_socket_that_a_server_left_is_taken_over(rt: HostRuntime) -> Result<(), Fail> {
    make_folder(&rt, "host_doors_left")?;
    drop(UnixListener::bind(&rt, "host_doors_left/socket")?);
    assert!(rt; are_served(&rt, "host_doors_left/socket", 1)?);
    fs::remove_dir_all(&rt, "host_doors_left")?;
    Ok(())
}

// What is said of an address at which nothing can listen.
fn refused(rt: &HostRuntime, address: &str) -> Result<String, Fail> {
    let mut entrance = HostEntrance::new(rt, rt.alloc());
    let failed = matches!(entrance.doors(0, address, 1, 0), Err(KeepError::Failed));
    match entrance.into_trouble() {
        Some(trouble) if failed => Ok(format!(in rt.alloc(); "{trouble}")?),
        _ => Ok(String::new(rt.alloc())),
    }
}

const LONG_HOST: &str =
    "tcp:a-label-of-a-name-has-63-bytes-at-most-and-this-is-one-that-is-longer.example:1";

const REFUSED: [(&str, &str); 7] = [
    (
        "unix:host_doors_no/held",
        "(Address already in use (os error 98)); a program listens there, so stop it, or configure another address",
    ),
    (
        "unix:host_doors_no/notes",
        "(a file is there); what is there is no socket, so move it away, or configure another path",
    ),
    (
        "unix:host_doors_no/none/socket",
        "(No such file or directory (os error 2)); make the folder for its socket, or configure another path",
    ),
    (
        "unix:",
        "(the path is empty); configure an address tcp:HOST:PORT, or unix:PATH with a path of 1 to 107 bytes",
    ),
    (
        "tcp:192.0.2.1:1",
        "(Cannot assign requested address (os error 99)); no interface of this machine has that address, so configure \
        one that is its own",
    ),
    (
        LONG_HOST,
        "(failed to lookup address information: Name or service not known); the host isn't known here, so configure \
        another, or an IP address",
    ),
    (
        "localhost:1",
        "(it has neither form); configure an address tcp:HOST:PORT, or unix:PATH with a path of 1 to 107 bytes",
    ),
];

// Whether this is said of an address.
fn is_refused(rt: &HostRuntime, address: &str, why: &str) -> Result<bool, Fail> {
    let wanted = format!(in rt.alloc(); "no listener at {address} {why}")?;
    Ok(refused(rt, address)?.as_str() == wanted.as_str())
}

fn are_refused(rt: &HostRuntime) -> Result<bool, Fail> {
    for (address, why) in REFUSED {
        if !is_refused(rt, address, why)? {
            return Ok(false);
        }
    }
    Ok(true)
}

#[test]
fn addresses_at_which_nothing_can_listen(rt: HostRuntime) -> Result<(), Fail> {
    make_folder(&rt, "host_doors_no")?;
    fs::write(&rt, "host_doors_no/notes", "Buy milk.")?;
    let held = UnixListener::bind(&rt, "host_doors_no/held")?;
    assert!(rt; are_refused(&rt)?);
    assert!(rt; holds(&rt, "host_doors_no/notes", "Buy milk.")?);
    drop(held);
    fs::remove_dir_all(&rt, "host_doors_no")?;
    Ok(())
}

#[test]
fn a_port_that_is_in_use(rt: HostRuntime) -> Result<(), Fail> {
    let taken = TcpListener::bind(&rt, "127.0.0.1:0")?;
    let port = taken.local_addr()?.port();
    let address = format!(in rt.alloc(); "tcp:127.0.0.1:{port}")?;
    let why = refused(&rt, address.as_str())?;
    assert!(rt;
        why.as_str().contains("(Address already in use (os error 98)); a program listens there")
    );
    Ok(())
}
