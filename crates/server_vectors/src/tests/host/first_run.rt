// The first run over real sockets, in one process: a client has sent its bind, an opening and its closing, and reads
// the answers once the server, whose door takes one link, has served it to its end.
ghost use Rattle.std.specs.Prelude.{◌≡◌, ◌<◌, ◌≤◌, All, length, vec_len};
ghost use Rattle.acct_config.specs.Spelled.{IsRightConfig};

use crate::tests::doors::words::{bytes_of, configured, digits_of_all};
use crate::tests::left::push_history;
use acct_keeper::SteadyKeeper;
use acct_links::{Door, Entrance};
use acct_machine::Config;
use acct_server::{Served, serve};
use host_doors::HostEntrance;
use std::alloc::Global;
use std::fs;
use std::io::{Read, Write};
use std::net::{Shutdown, TcpStream};
use std::os::unix::net::UnixStream;
use std::sync::Wait;
use std::test::Fail;
use std::thread::Threads;

/// How serving ended, each session, and what was entered.
fn push_served(text: &mut String, served: &Served<SteadyKeeper>) -> Result<(), Fail> {
    write!(text, "{:?}|", served.status)?;
    for ended in served.ends.as_slice() {
        write!(text, "{} {} {:?}|", ended.conn, ended.door, ended.end)?;
    }
    push_history(text, served.history.as_slice())
}

/// What serving these doors leaves, in words.
fn told<R: Threads + Wait + Sync, D: Door + Drop + Send>(
    rt: &R,
    alloc: Global,
    config: &Config,
    doors: &mut Vec<D>,
) -> Result<String, Fail>
where
    D::L: Send,
    requires right { IsRightConfig config.now }
    requires few { vec_len doors.old ≤ 1024 }
    requires first { All (λ door. D.listener door ≡ 0) doors.old.items }
    requires listener { 0 < length config.now.listeners }
{
    let served = serve(rt, alloc, config, doors, SteadyKeeper::new(alloc));
    let mut text = String::new(alloc);
    let pushed = push_served(&mut text, &served);
    drop(served);
    pushed?;
    Ok(text)
}

/// The same under the configuration of the other runs.
fn told_by<R: Threads + Wait + Sync, D: Door + Drop + Send>(
    rt: &R,
    alloc: Global,
    doors: &mut Vec<D>,
) -> Result<String, Fail>
where
    D::L: Send,
    requires few { vec_len doors.old ≤ 1024 }
    requires first { All (λ door. D.listener door ≡ 0) doors.old.items }
{
    let config = configured(alloc, "")?;
    if config.listeners.as_slice().is_empty() {
        return Ok(String::new(alloc));
    }
    told(rt, alloc, &config, doors)
}

fn is_told(told: &str) -> bool {
    told == "Done|1 0 End|opened 1 0;called 1 57 Ran 8;called 1 1 Ran 20;gone 1;"
}

/// Whether a client reads the answers, and nothing after them.
fn is_answered<C: Read>(alloc: Global, client: &mut C) -> Result<bool, Fail> {
    let mut answers = Vec::new(alloc);
    client.read_to_end(&mut answers)?;
    let digits = hex::encode(alloc, &answers)?;
    let wanted = digits_of_all(alloc, "ACK1 FIRST1 CLOSED")?;
    Ok(digits.as_str() == wanted.as_str())
}

fn is_served_by_tcp<R: Threads + Wait + Sync>(rt: &HostRuntime, threads: &R) -> Result<bool, Fail> {
    let mut entrance = HostEntrance::new(rt, rt.alloc());
    let mut doors = entrance.doors(0, "tcp:127.0.0.1:0", 1, 1)?;
    let place = entrance
        .place()
        .unwrap_or("")
        .strip_prefix("tcp:")
        .unwrap_or("");
    let mut client = TcpStream::connect(rt, place)?;
    client.write_all(&bytes_of(rt.alloc(), "BIND CONNECT CLOSE")?)?;
    client.shutdown(Shutdown::Write)?;
    let told = told_by(threads, rt.alloc(), &mut doors)?;
    Ok(is_told(told.as_str()) && is_answered(rt.alloc(), &mut client)?)
}

fn is_served_in_a_file<R: Threads + Wait + Sync>(
    rt: &HostRuntime,
    threads: &R,
) -> Result<bool, Fail> {
    let mut entrance = HostEntrance::new(rt, rt.alloc());
    let mut doors = entrance.doors(0, "unix:first_run.socket", 1, 1)?;
    let mut client = UnixStream::connect(rt, "first_run.socket")?;
    client.write_all(&bytes_of(rt.alloc(), "BIND CONNECT CLOSE")?)?;
    client.shutdown(Shutdown::Write)?;
    let told = told_by(threads, rt.alloc(), &mut doors)?;
    Ok(is_told(told.as_str()) && is_answered(rt.alloc(), &mut client)?)
}

#[test]
fn the_first_run_over_sockets(rt: HostRuntime) -> Result<(), Fail> {
    assert!(rt; is_served_by_tcp(&rt, &rt)?);
    assert!(rt; is_served_in_a_file(&rt, &rt)?);
    fs::remove_file(&rt, "first_run.socket")?;
    Ok(())
}
