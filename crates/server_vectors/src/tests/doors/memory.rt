// Parts in memory, call by call.
ghost use Rattle.std.specs.Prelude.{All, IfOk};
ghost use Rattle.acct_links.specs.Links.{IsNew};
ghost use Rattle.acct_links.specs.Memory.{told_by_steady};

use super::words::split;
use acct_base::Seq;
use acct_links::{
    Caller, Door, DoorPlan, Entrance, Link, MemoryCaller, MemoryEntrance, MemoryLink, Next,
    SteadyCaller, SteadyLink, TakeError, send,
};
use std::alloc::Global;
use std::test::Fail;

// Each row: the room of a link, its calls that fail, what is asked of it, and what it answers; then what was taken. `r`
// reads at most four bytes, `w` writes a piece and `s` sends one whole. What has no room isn't taken in part.
const LINKS: &str =
    "4|2 4|r r wuvw ww wwxy swx r|ab failed Ok(2) Err(Failed) Err(Failed) Ok(()) cd |uvwx
0||r r r r r|ab cd e   |";

fn number(word: &str) -> u32 {
    word.parse::<u32>().ok().unwrap_or(0)
}

fn numbers(alloc: Global, words: &str) -> Result<Vec<u64>, Fail> {
    let mut numbers = Vec::new(alloc);
    for word in words.split_whitespace() {
        numbers.push(u64::from(number(word)))?;
    }
    Ok(numbers)
}

// A link that brings abcde, two bytes at a time, and takes two at a time.
fn link_of(alloc: Global, room: &str, failing: &str) -> Result<MemoryLink, Fail> {
    let input = SteadyLink::new(b"abcde".to_vec(alloc)?, 2);
    let failing = numbers(alloc, failing)?;
    Ok(MemoryLink::new(alloc, input, number(room) as usize, 2, failing)?)
}

fn text_of(bytes: &[u8]) -> &str {
    std::str::from_utf8(bytes).ok().unwrap_or("?")
}

fn read(told: &mut String, link: &mut MemoryLink) -> Result<(), Fail> {
    let mut buf = [0u8; 4];
    match link.read(&mut buf) {
        Ok(count) => told.push_str(text_of(buf.get(..count).unwrap_or(b"?")))?,
        Err(_) => told.push_str("failed")?,
    }
    Ok(())
}

fn write(told: &mut String, link: &mut MemoryLink, piece: &str) -> Result<(), Fail> {
    let answer = link.write(piece.as_bytes());
    write!(told, "{answer:?}")?;
    Ok(())
}

fn send_whole(told: &mut String, link: &mut MemoryLink, piece: &str) -> Result<(), Fail> {
    let answer = send(link, piece.as_bytes());
    write!(told, "{answer:?}")?;
    Ok(())
}

fn ask(told: &mut String, link: &mut MemoryLink, word: &str) -> Result<(), Fail> {
    match (word.strip_prefix('w'), word.strip_prefix('s')) {
        (Some(piece), _) => write(told, link, piece),
        (_, Some(piece)) => send_whole(told, link, piece),
        _ => read(told, link),
    }
}

// What is answered, and what was taken.
fn asked(alloc: Global, link: &mut MemoryLink, words: &str) -> Result<String, Fail> {
    let mut told = String::new(alloc);
    for word in words.split(' ') {
        ask(&mut told, link, word)?;
        told.push(' ')?;
    }
    told.push('|')?;
    told.push_str(text_of(link.as_slice()))?;
    Ok(told)
}

fn is_answered(alloc: Global, row: &str) -> Result<bool, Fail> {
    let (room, rest) = split(row, '|');
    let (failing, rest) = split(rest, '|');
    let (words, wanted) = split(rest, '|');
    let mut link = link_of(alloc, room, failing)?;
    Ok(asked(alloc, &mut link, words)?.as_str() == wanted)
}

#[test]
fn the_listed_calls_of_a_link_fail(rt: HostRuntime) -> Result<(), Fail> {
    for row in LINKS.lines() {
        assert!(rt; is_answered(rt.alloc(), row)?, "{row}");
    }
    Ok(())
}

// A caller with two links, whose second call fails.
fn caller(alloc: Global) -> Result<MemoryCaller<SteadyLink>, Fail> {
    let mut links = Vec::new(alloc);
    links.push(SteadyLink::new(b"one".to_vec(alloc)?, 8))?;
    links.push(SteadyLink::new(b"two".to_vec(alloc)?, 8))?;
    Ok(MemoryCaller::new(alloc, links, numbers(alloc, "2")?))
}

// What a link brings first.
fn push_brought<L: Link + Drop>(told: &mut String, mut link: L) -> Result<(), Fail> {
    let mut buf = [0u8; 8];
    let count = link.read(&mut buf).unwrap_or(0);
    told.push_str(text_of(buf.get(..count).unwrap_or(b"?")))?;
    Ok(())
}

fn call<C: Caller>(told: &mut String, caller: &mut C, address: &str) -> Result<(), Fail>
where
    C::L: Drop,
{
    match caller.link(address) {
        Ok(link) => push_brought(told, link)?,
        Err(TakeError::Failed) => told.push_str("failed")?,
        Err(TakeError::NoMemory) => told.push_str("memory")?,
    }
    told.push(' ')?;
    Ok(())
}

// What the links of four calls bring.
fn called<C: Caller>(alloc: Global, caller: &mut C) -> Result<String, Fail>
where
    C::L: Drop,
{
    let mut told = String::new(alloc);
    for address in ["tcp:h:1", "tcp:h:2", "unix:s", "tcp:h:3"] {
        call(&mut told, caller, address)?;
    }
    Ok(told)
}

#[test]
fn callers_give_their_links_in_order(rt: HostRuntime) -> Result<(), Fail> {
    let mut caller = caller(rt.alloc())?;
    let told = called(rt.alloc(), &mut caller)?;
    assert!(rt; told.as_str() == "one failed two failed ");
    assert!(rt; caller.addresses().len() == 2);
    let mut steady = SteadyCaller::new(rt.alloc(), b"x".to_vec(rt.alloc())?, 1);
    assert!(rt; called(rt.alloc(), &mut steady)?.as_str().starts_with("x "));
    Ok(())
}

// A door with two links, whose calls of these numbers fail.
fn plan(alloc: Global, failing: &str) -> Result<DoorPlan<SteadyLink>, Fail>
    ensures { IfOk result (λ plan. All (λ link. IsNew (told_by_steady link)) plan.links) }
{
    let mut links = Vec::new(alloc);
    links.push(SteadyLink::new(b"x".to_vec(alloc)?, 1))?;
    links.push(SteadyLink::new(b"y".to_vec(alloc)?, 1))?;
    Ok(DoorPlan {
        links: Seq::from_vec(links),
        failing: Seq::from_vec(numbers(alloc, failing)?),
    })
}

// How a call of a door ended: with a link, which is given back, closed or failed.
fn opened<D: Door>(door: &mut D, conn: u32) -> char {
    match door.next() {
        Next::Link(link) => {
            door.finish(conn, link);
            'l'
        }
        Next::Closed => 'c',
        Next::Failed => 'f',
    }
}

fn push_opened<D: Door>(told: &mut String, door: &mut D) -> Result<(), Fail> {
    for conn in 0..5 {
        told.push(opened(door, conn))?;
    }
    write!(told, "{} ", door.listener())?;
    Ok(())
}

// How the calls of each door end, and its listener.
fn push_doors<D: Door>(told: &mut String, doors: &mut Vec<D>) -> Result<(), Fail> {
    for door in doors {
        push_opened(told, door)?;
    }
    Ok(())
}

// An entrance with two doors, whose first asking fails.
fn entrance(alloc: Global) -> Result<MemoryEntrance<SteadyLink>, Fail> {
    let mut plans = Vec::new(alloc);
    plans.push(plan(alloc, "2 4")?)?;
    plans.push(plan(alloc, "")?)?;
    Ok(MemoryEntrance::new(alloc, plans, numbers(alloc, "1")?))
}

// What comes of an asking for three doors.
fn push_asked(
    told: &mut String,
    entrance: &mut MemoryEntrance<SteadyLink>,
    listener: u32,
) -> Result<(), Fail> {
    match entrance.doors(listener, "tcp:h:1", 3, 1) {
        Ok(mut doors) => push_doors(told, &mut doors),
        Err(_) => Ok(told.push_str("failed ")?),
    }
}

// A closed door never fails.
#[test]
fn an_entrance_gives_the_doors_of_its_plans(rt: HostRuntime) -> Result<(), Fail> {
    let mut entrance = entrance(rt.alloc())?;
    let mut told = String::new(rt.alloc());
    push_asked(&mut told, &mut entrance, 0)?;
    push_asked(&mut told, &mut entrance, 1)?;
    assert!(rt; told.as_str() == "failed lflcc1 llccc1 ccccc1 ");
    assert!(rt; entrance.askings().len() == 1);
    Ok(())
}
