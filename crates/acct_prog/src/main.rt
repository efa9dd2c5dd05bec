//! The program `account`: `main`, which makes the real world and calls `account` on it.
//!
//! It stands on `acct_commands` for the top call, on `host_world` for the real world, and on `account_words` for the
//! words of the command line, what is said of a status, and what is written where the words have no form; on
//! `acct_config` for where a configuration that was refused breaks its rule, for which its file is read again. What the
//! program promises are the clauses of [`account`], over a world that tells; what is here makes that world and writes
//! to the standard error.
#![tactic(auto)]

use account_words::{code_of, message, usage, word_of, words};
pub use acct_commands::account;
use acct_config::{ConfigError, Place, place_of, read_config};
pub use acct_links::{Caller, TakeError};
use acct_server::Status;
pub use acct_world::{Period, World};
use host_world::{HeldStreams, HostWorld};
use std::fs;
use std::process::ExitCode;
use std::sync::Wait;
use std::thread::Threads;

/// Says what went wrong at the address that was called, and what to do about it. Where the link ended and what answered
/// over it is known to be no account server, it says that.
fn tell_peer(rt: &HostRuntime, status: &Status, address: &str, world: &HostWorld) {
    let is_link = matches!(status, Status::PeerFault);
    if let Some(stranger) = world.stranger() {
        if matches!(status, Status::PeerBytes(_)) || (is_link && stranger.is_known()) {
            let _ = eprintln!(rt; "account: {address}: {stranger}");
            return;
        }
    }
    if is_link {
        if let Some(trouble) = world.trouble() {
            let _ = eprintln!(rt; "account: {address}: {trouble}");
        }
    }
}

/// Says what went wrong where the server listens, and what to do about it.
fn tell_doors(rt: &HostRuntime, status: &Status, world: &HostWorld) {
    if matches!(status, Status::DoorFault) {
        if let Some(trouble) = world.door_trouble() {
            let _ = eprintln!(rt; "account: {trouble}");
        }
    }
}

/// Says which change stays, with the last run for it: its number and account are among the arguments, and its end
/// after them.
fn tell_run(rt: &HostRuntime, status: &Status, world: &HostWorld) {
    if let Status::HookHeld(number) = status {
        if let Some(run) = world.failed_run() {
            let _ = eprintln!(rt;
                "account: change {number} stays: {run}; see to that, and start hooks again"
            );
        }
    }
}

/// Says on the standard error how the program ended, where its work wasn't done: the code and its word, and where the
/// words have no form, those that have one. Where there is no memory for that it is left out.
fn tell(rt: &HostRuntime, status: &Status) {
    let code = code_of(status);
    if code == 0 {
        return;
    }
    let _ = eprintln!(rt; "account: {code} {}", word_of(status));
    if code == 2 {
        if let Ok(text) = usage(rt.alloc()) {
            let _ = eprint!(rt; "{text}");
        }
    }
}

/// The bytes of a file at a path, if a plain one is there.
fn file_at(rt: &HostRuntime, path: &str) -> Option<Vec<u8>> {
    if !fs::metadata(rt, path).ok()?.is_file() {
        return None;
    }
    fs::read(rt, path).ok()
}

/// Where the configuration in a file breaks a rule, if the file is there and still breaks it.
fn place_in(rt: &HostRuntime, path: &str, rule: u32) -> Option<Place> {
    let bytes = file_at(rt, path)?;
    match read_config(rt.alloc(), &bytes) {
        Err(ConfigError::Rule(now)) if now == rule => place_of(rt.alloc(), &bytes, rule).ok()?,
        _ => None,
    }
}

/// Where the configuration breaks its rule, if that is the status and it is known. That of the standard input isn't.
fn place_by(rt: &HostRuntime, status: &Status, words: &[String]) -> Option<Place> {
    match (status, words.get(1)) {
        (Status::Config(rule), Some(name)) if name.as_str() != "-" => {
            place_in(rt, name.as_str(), *rule)
        }
        _ => None,
    }
}

/// Says after that what happened, with what the status carries, and what to do about it.
fn tell_more(rt: &HostRuntime, status: &Status, words: &[String], world: &HostWorld) {
    let place = place_by(rt, status, words);
    if let Ok(Some(text)) = message(rt.alloc(), status, words, world.unread(), place.as_ref()) {
        let _ = eprintln!(rt; "account: {text}");
    }
}

/// The status of the words of the command line, over the real world, and what went wrong there told. A server waits.
fn run<R: Threads + Wait + Sync>(rt: &HostRuntime, waiting: &R) -> Status {
    let Ok(words) = words(rt, rt.alloc()) else {
        tell(rt, &Status::NoMemory);
        return Status::NoMemory;
    };
    let mut world = HostWorld::new(rt, rt.alloc());
    let status = account(waiting, rt.alloc(), &words, &mut world);
    tell(rt, &status);
    tell_more(rt, &status, &words, &world);
    tell_doors(rt, &status, &world);
    tell_run(rt, &status, &world);
    if let Some(address) = words.get(1) {
        tell_peer(rt, &status, address.as_str(), &world);
    }
    status
}

/// It only prints and exits: where a line can't be printed, the code says it alone.
fn main(rt: HostRuntime) -> ExitCode {
    let held = HeldStreams::new(&rt);
    let code = code_of(&run(&rt, &rt));
    drop(held);
    ExitCode::from(code)
}
