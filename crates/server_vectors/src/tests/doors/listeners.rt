// Entrances in memory that are asked for the doors of listeners: which askings are answered, and which doors are there.
ghost use Rattle.std.specs.Prelude.{All, IfOk};
ghost use Rattle.acct_config.specs.Spelled.{IsRightConfig};
ghost use Rattle.acct_links.specs.Links.{IsNew};
ghost use Rattle.acct_links.specs.Memory.{told_by_steady};

use super::words::split;
use acct_base::Seq;
use acct_config::{Config, read_config};
use acct_links::{Asking, Door, DoorPlan, Link, MemoryEntrance, Next, SteadyLink};
use door_workers::open_doors;
use std::alloc::Global;
use std::test::Fail;

const DOMAIN: &str = "[domain]\nname = \"CORP\"\nsid = \"S-1-5-21-1-2-3\"\n";

// Each row: the asking that fails, or 0; the listeners, each by its address, its workers and its links; what is
// answered; the askings that the entrance answered with doors, each with the listener's place first; and the doors,
// each by its listener's place and the letter that its first link brings. The first three doors that an entrance makes
// bring a, b and c, those after them nothing.
const ROWS: &str = "0|tcp:127.0.0.1:4045 1 0|Ok(())|0 tcp:127.0.0.1:4045 1 0,|0a,
0|unix:/run/account 3 7|Ok(())|0 unix:/run/account 3 7,|0a,0b,0c,
0|tcp:h:1 1 4294967295,unix:s 2 0,tcp:h:1 1 1|Ok(())|0 tcp:h:1 1 4294967295,1 unix:s 2 0,2 tcp:h:1 1 1,|0a,1b,1c,2-,
0|tcp:h:1 2 0,tcp:h:2 1 5|Ok(())|0 tcp:h:1 2 0,1 tcp:h:2 1 5,|0a,0b,1c,
1|tcp:h:1 1 0|Err(Failed)||
1|tcp:h:1 2 0,unix:s 1 3,unix:t 1 0|Err(Failed)||
2|tcp:h:1 2 0,unix:s 1 3,unix:t 1 0|Err(Failed)|0 tcp:h:1 2 0,|0a,0b,
3|tcp:h:1 2 0,unix:s 1 3,unix:t 1 0|Err(Failed)|0 tcp:h:1 2 0,1 unix:s 1 3,|0a,0b,1c,
4|tcp:h:1 2 0,unix:s 1 3,unix:t 1 0|Ok(())|0 tcp:h:1 2 0,1 unix:s 1 3,2 unix:t 1 0,|0a,0b,1c,2-,";

// A listener's lines in a document.
fn push_listener(document: &mut String, place: usize, listener: &str) -> Result<(), Fail> {
    let (address, counts) = split(listener, ' ');
    let (workers, links) = split(counts, ' ');
    write!(document, "[[listener]]\nname = \"l{place}\"\n")?;
    write!(document, "address = \"{address}\"\n")?;
    document.push_str("token = [\"S-1-1-0\"]\nworkers = ")?;
    document.push_str(workers)?;
    document.push_str("\nlinks = ")?;
    document.push_str(links)?;
    document.push('\n')?;
    Ok(())
}

// A document with these listeners.
fn document_of(alloc: Global, listeners: &str) -> Result<String, Fail> {
    let mut document = String::from_str(alloc, DOMAIN)?;
    for (place, listener) in listeners.split(',').enumerate() {
        push_listener(&mut document, place, listener)?;
    }
    Ok(document)
}

fn read(alloc: Global, document: &str) -> Result<Config, Fail>
    ensures { IfOk result IsRightConfig }
{
    Ok(read_config(alloc, document.as_bytes())?)
}

// A configuration with these listeners.
fn configured(alloc: Global, listeners: &str) -> Result<Config, Fail>
    ensures { IfOk result IsRightConfig }
{
    let document = document_of(alloc, listeners)?;
    read(alloc, document.as_str())
}

// A door with a link that brings this letter.
fn plan_of(alloc: Global, letter: u8) -> Result<DoorPlan<SteadyLink>, Fail>
    ensures { IfOk result (λ plan. All (λ link. IsNew (told_by_steady link)) plan.links) }
{
    let mut links = Vec::new(alloc);
    links.push(SteadyLink::new([letter].to_vec(alloc)?, 1))?;
    Ok(DoorPlan {
        links: Seq::from_vec(links),
        failing: Seq::new(alloc),
    })
}

// An entrance whose call of this number fails.
fn entrance_of(alloc: Global, failing: u64) -> Result<MemoryEntrance<SteadyLink>, Fail> {
    let mut plans = Vec::new(alloc);
    plans.push(plan_of(alloc, b'a')?)?;
    plans.push(plan_of(alloc, b'b')?)?;
    plans.push(plan_of(alloc, b'c')?)?;
    Ok(MemoryEntrance::new(alloc, plans, [failing].to_vec(alloc)?))
}

// The letter that the next link of a door brings.
fn letter_of<D: Door>(door: &mut D) -> char {
    let mut letter = [b'?'];
    match door.next() {
        Next::Link(mut link) => {
            let _ = link.read(&mut letter);
            door.finish(1, link);
        }
        Next::Closed => letter = [b'-'],
        Next::Failed => letter = [b'!'],
    }
    char::from(letter[0])
}

fn push_number(text: &mut String, number: u64) -> Result<(), Fail> {
    write!(text, " {number}")?;
    Ok(())
}

fn push_address(text: &mut String, listener: u32, address: &[u8]) -> Result<(), Fail> {
    write!(text, "{listener} ")?;
    text.push_str(std::str::from_utf8(address).ok().unwrap_or("?"))?;
    Ok(())
}

fn push_askings(text: &mut String, askings: &[Asking]) -> Result<(), Fail> {
    for asking in askings {
        push_address(text, asking.listener, asking.address.as_slice())?;
        push_number(text, asking.workers as u64)?;
        push_number(text, asking.links)?;
        text.push(',')?;
    }
    Ok(())
}

fn push_door<D: Door>(text: &mut String, door: &mut D) -> Result<(), Fail> {
    write!(text, "{}", door.listener())?;
    text.push(letter_of(door))?;
    text.push(',')?;
    Ok(())
}

fn push_doors<D: Door>(text: &mut String, doors: &mut Vec<D>) -> Result<(), Fail> {
    for door in doors {
        push_door(text, door)?;
    }
    Ok(())
}

// What is left where an entrance was asked for the doors of a configuration.
fn left(
    alloc: Global,
    config: &Config,
    entrance: &mut MemoryEntrance<SteadyLink>,
) -> Result<String, Fail>
    requires { IsRightConfig config.now }
{
    let mut doors = Vec::new(alloc);
    let answer = open_doors(config, entrance, &mut doors);
    let mut text = format!(in alloc; "{answer:?}|")?;
    push_askings(&mut text, entrance.askings())?;
    text.push('|')?;
    push_doors(&mut text, &mut doors)?;
    Ok(text)
}

fn told(alloc: Global, failing: &str, listeners: &str) -> Result<String, Fail> {
    let number = failing.parse::<u32>().ok().unwrap_or(0) as u64;
    let config = configured(alloc, listeners)?;
    let mut entrance = entrance_of(alloc, number)?;
    left(alloc, &config, &mut entrance)
}

fn is_left(alloc: Global, row: &str) -> Result<bool, Fail> {
    let (failing, rest) = split(row, '|');
    let (listeners, wanted) = split(rest, '|');
    Ok(told(alloc, failing, listeners)?.as_str() == wanted)
}

#[test]
fn doors_of_listeners(rt: HostRuntime) -> Result<(), Fail> {
    for row in ROWS.lines() {
        assert!(rt; is_left(rt.alloc(), row)?, "{row}");
    }
    Ok(())
}
