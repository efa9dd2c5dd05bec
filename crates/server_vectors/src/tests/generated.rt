// The generator: what is printed for a number of users. The counts follow from the calls and from the rows of a new
// store: two users, three aliases and no member at first; the next RID is 1000, which the alias takes. Twelve calls
// stand around those of the users, which are three, and four for every second one.
mod events;
mod lines;

use super::left::{ended, is_left, push_asked, push_count, written};
use super::lines::{column, front_of, joined};
use super::worlds::{Told, making_of, world_of};
use std::alloc::Global;
use std::process::Abort;
use std::sync::Wait;
use std::test::Fail;
use std::thread::Threads;

/// Lines that are written, by their names.
pub const LINES: &str = "SHOWN-CALLS-16 calls 16
SHOWN-CALLS-19 calls 19
SHOWN-CALLS-1762 calls 1762
SHOWN-CALLS-35012 calls 35012
SHOWN-USERS-3 users 3
SHOWN-USERS-4 users 4
SHOWN-USERS-502 users 502
SHOWN-USERS-10002 users 10002
SHOWN-ALIASES-4 aliases 4
SHOWN-MEMBERS-1 members 1
SHOWN-MEMBERS-2 members 2
SHOWN-MEMBERS-500 members 500
SHOWN-MEMBERS-10000 members 10000
SHOWN-NEXT-1002 next 1002
SHOWN-NEXT-1003 next 1003
SHOWN-NEXT-1501 next 1501
SHOWN-NEXT-11001 next 11001";

/// Each row: how the run is made, the words, the status, what was asked for, how many periods are left, and the lines
/// written. `LINES/N` are the first N bytes of these lines.
const GENERATED: &str =
    "|gen 1|Done|sink;|1|SHOWN-CALLS-16 SHOWN-USERS-3 SHOWN-ALIASES-4 SHOWN-MEMBERS-1 SHOWN-NEXT-1002
|gen 2|Done|sink;|1|SHOWN-CALLS-19 SHOWN-USERS-4 SHOWN-ALIASES-4 SHOWN-MEMBERS-2 SHOWN-NEXT-1003
|gen 500|Done|sink;|1|SHOWN-CALLS-1762 SHOWN-USERS-502 SHOWN-ALIASES-4 SHOWN-MEMBERS-500 SHOWN-NEXT-1501
|gen 10000|Done|sink;|1|SHOWN-CALLS-35012 SHOWN-USERS-10002 SHOWN-ALIASES-4 SHOWN-MEMBERS-10000 SHOWN-NEXT-11001
t1|gen 1|WriteFault|sink;|0|/0
w1|gen 1|WriteFault|sink;|1|/0
s4 w3|gen 1|WriteFault|sink;|1|SHOWN-CALLS-16/8";

/// What words leave in a world: how they ended, what was asked for, how many periods there are, and what was written.
fn push_left(text: &mut String, world: &Told) -> Result<(), Fail> {
    text.push('|')?;
    push_asked(text, world.asked())?;
    text.push('|')?;
    push_count(text, world.periods().len())?;
    text.push('|')?;
    text.push_str(written(world))?;
    Ok(())
}

fn left<R: Threads + Wait + Sync>(
    rt: &R,
    alloc: Global,
    words: &str,
    world: &mut Told,
) -> Result<String, Fail> {
    let mut text = ended(rt, alloc, words, world)?;
    push_left(&mut text, world)?;
    Ok(text)
}

/// The same over a world whose events aren't read.
fn left_by<R: Threads + Wait + Sync>(
    rt: &R,
    alloc: Global,
    making: &str,
    words: &str,
) -> Result<String, Fail> {
    let texts = (String::new(alloc), String::new(alloc));
    let mut world = world_of(alloc, texts, making_of(making))?;
    let text = left(rt, alloc, words, &mut world);
    drop(world);
    text
}

/// What is left, of the columns of a row.
fn wanted_of(alloc: Global, row: &str) -> Result<String, Fail> {
    let (status, rest) = column(row);
    let (asked, rest) = column(rest);
    let (periods, lines) = column(rest);
    let lines = front_of(alloc, lines)?;
    joined(
        alloc,
        &[status, "|", asked, "| ", periods, "|", lines.as_str()],
    )
}

fn tell<R: Abort + Threads + Wait + Sync>(rt: &R, alloc: Global, row: &str) -> Result<(), Fail> {
    let (making, rest) = column(row);
    let (words, wanted) = column(rest);
    let left = left_by(rt, alloc, making, words)?;
    let wanted = wanted_of(alloc, wanted)?;
    is_left(rt, left.as_str(), wanted.as_str(), row);
    Ok(())
}

#[test]
fn summaries_of_generated_events(rt: HostRuntime) -> Result<(), Fail> {
    for row in GENERATED.lines() {
        tell(&rt, rt.alloc(), row)?;
    }
    Ok(())
}
