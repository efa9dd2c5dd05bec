// Servers over worlds in memory: what is asked of the entrance, which periods the world is given, and what becomes of
// the links of its doors. Only one door of a row brings links, so that connections have their numbers by their order.
ghost use Rattle.std.specs.Prelude.{◌≡◌, All, false, IfOk};
ghost use Rattle.acct_links.specs.Links.{IsNew};
ghost use Rattle.acct_links.specs.Memory.{told_by};

use super::configs::config_with;
use super::forgetful::Forgetful;
use super::left::{ended, is_left, push_asked, push_history};
use super::lines::{joined, line_of, number};
use super::replays::stored_after;
use super::worlds::{Told, making_of, numbered, world_of_entrance};
use acct_base::Seq;
use acct_keeper::SteadyKeeper;
use acct_links::{Asking, DoorPlan, MemoryDoor, MemoryEntrance, MemoryLink, SteadyLink};
use acct_server::{Ended, SessionEnd};
use acct_world::Period;
use std::alloc::Global;
use std::process::Abort;
use std::sync::Wait;
use std::test::Fail;
use std::thread::Threads;

/// The third opening of a connection.
pub const LINES: &str =
    "THIRD out 1 050002031000000030000000020000001800000000000000000000000000000000000100000000000000000300000000";

/// A period that a world is given: the numbers of accounts before and after it, what is entered, and how its sessions
/// end, each by its connection and its door.
#[derive(Clone, Copy)]
struct Given {
    before: usize,
    after: usize,
    history: &'static [&'static str],
    ends: &'static [&'static str],
}

/// A link that is finished: its connection, and the lines that are written on it.
#[derive(Clone, Copy)]
struct Finished {
    conn: u32,
    written: &'static str,
}

/// A server, and what it leaves.
#[derive(Clone, Copy)]
struct Row {
    /// How the world is made: `f` is one without memory for periods.
    making: &'static str,
    words: &'static str,
    /// What the configuration says more.
    config: &'static str,
    /// Which call of the first door fails, 0 for none.
    failing: u64,
    /// The links of the first three doors, three at most of each, by the lines that they bring.
    links: &'static [&'static [&'static str]],
    status: &'static str,
    /// The parts that the world is asked for.
    asked: &'static [&'static str],
    /// The askings of the entrance: the listener, its address, and how many workers and links it has.
    askings: &'static [&'static str],
    periods: &'static [Given],
    /// What is finished on each door.
    finished: &'static [&'static [Finished]],
}

/// A server that comes to no link: the world is given no period, and each door that was asked for has nothing
/// finished on it.
#[derive(Clone, Copy)]
struct Unserved {
    /// How the world is made: `aN` has asking N of the entrance fail, `b` is a store that is broken.
    making: &'static str,
    words: &'static str,
    /// What the configuration says more.
    config: &'static str,
    status: &'static str,
    /// The parts that the world is asked for.
    asked: &'static [&'static str],
    /// The askings of the entrance that don't fail.
    askings: &'static [&'static str],
}

const FIRST: &str = "serve first.toml ''";

/// The parts of a server that gets as far as its entrance.
const EACH_PART: &[&str] = &["source first.toml", "keeper ", "entrance"];

const ONE_ASKING: &[&str] = &["0 tcp:127.0.0.1:4045 1 0"];

const SERVED: &[Row] = &[
    Row {
        making: "",
        words: FIRST,
        config: "workers = 2;[limits];max_calls = 4;max_periods = 2",
        failing: 0,
        links: &[&[
            "BIND CONNECT CONNECT CONNECT",
            "BIND CONNECT CONNECT CONNECT",
            "BIND CONNECT CONNECT CONNECT",
        ]],
        status: "Done",
        asked: EACH_PART,
        askings: &["0 tcp:127.0.0.1:4045 2 0"],
        periods: &[
            Given {
                before: 8,
                after: 8,
                history: &[
                    "opened 1 0",
                    "called 1 57 Ran 8",
                    "called 1 57 Ran 8",
                    "called 1 57 Ran 8",
                    "gone 1",
                    "opened 2 0",
                    "called 2 57 Ran 8",
                    "gone 2",
                ],
                ends: &["1 0 End", "2 0 Full(4)"],
            },
            Given {
                before: 8,
                after: 8,
                history: &[
                    "opened 1 0",
                    "called 1 57 Ran 8",
                    "called 1 57 Ran 8",
                    "called 1 57 Ran 8",
                    "gone 1",
                ],
                ends: &["1 0 End"],
            },
        ],
        finished: &[
            &[
                Finished {
                    conn: 1,
                    written: "ACK CONNECTED AGAIN THIRD",
                },
                Finished {
                    conn: 2,
                    written: "ACK-2 CONNECTED-2 BUSY",
                },
                Finished {
                    conn: 1,
                    written: "ACK CONNECTED AGAIN THIRD",
                },
            ],
            &[],
        ],
    },
    Row {
        making: "",
        words: FIRST,
        config: "[limits];max_calls = 2",
        failing: 0,
        links: &[&["BIND CONNECT CONNECT CONNECT", "BIND"]],
        status: "HistoryFull(2)",
        asked: EACH_PART,
        askings: ONE_ASKING,
        periods: &[Given {
            before: 8,
            after: 8,
            history: &[
                "opened 1 0",
                "called 1 57 Ran 8",
                "called 1 57 Ran 8",
                "gone 1",
            ],
            ends: &["1 0 Full(2)"],
        }],
        finished: &[&[Finished {
            conn: 1,
            written: "ACK CONNECTED AGAIN BUSY",
        }]],
    },
    Row {
        making: "",
        words: FIRST,
        config: "[limits];max_calls = 4;max_periods = 3",
        failing: 0,
        links: &[&[
            "BIND CONNECT OPEN-CORP CREATE-ALICE",
            "BIND CONNECT CONNECT",
            "BIND",
        ]],
        status: "Done",
        asked: EACH_PART,
        askings: ONE_ASKING,
        periods: &[
            Given {
                before: 8,
                after: 9,
                history: &[
                    "opened 1 0",
                    "called 1 57 Ran 8",
                    "called 1 7 Ran 52",
                    "called 1 50 Ran 60",
                    "gone 1",
                    "opened 2 0",
                    "called 2 57 Ran 8",
                    "gone 2",
                ],
                ends: &["1 0 End", "2 0 Full(4)"],
            },
            Given {
                before: 9,
                after: 9,
                history: &["opened 1 0", "gone 1"],
                ends: &["1 0 End"],
            },
        ],
        finished: &[&[
            Finished {
                conn: 1,
                written: "ACK CONNECTED DOMAIN-2 ALICE-1000",
            },
            Finished {
                conn: 2,
                written: "ACK-2 CONNECTED-2 BUSY",
            },
            Finished {
                conn: 1,
                written: "ACK",
            },
        ]],
    },
    Row {
        making: "",
        words: FIRST,
        config: "workers = 2;links = 7;[[listener]];name = \"b\";address = \"unix:b\";token = [\"S-1-1-0\"]",
        failing: 0,
        links: &[&[], &[], &["BIND"]],
        status: "Done",
        asked: EACH_PART,
        askings: &["0 tcp:127.0.0.1:4045 2 7", "1 unix:b 1 0"],
        periods: &[Given {
            before: 8,
            after: 8,
            history: &["opened 1 1", "gone 1"],
            ends: &["1 2 End"],
        }],
        finished: &[
            &[],
            &[],
            &[Finished {
                conn: 1,
                written: "ACK",
            }],
        ],
    },
    Row {
        making: "f",
        words: FIRST,
        config: "[limits];max_calls = 1;max_periods = 2",
        failing: 0,
        links: &[&["BIND CONNECT CONNECT", "BIND"]],
        status: "NoMemory",
        asked: EACH_PART,
        askings: ONE_ASKING,
        periods: &[],
        finished: &[&[Finished {
            conn: 1,
            written: "ACK CONNECTED BUSY",
        }]],
    },
    Row {
        making: "",
        words: FIRST,
        config: "",
        failing: 1,
        links: &[&["BIND"]],
        status: "DoorFault",
        asked: EACH_PART,
        askings: ONE_ASKING,
        periods: &[Given {
            before: 8,
            after: 8,
            history: &[],
            ends: &[],
        }],
        finished: &[&[]],
    },
];

const UNSERVED: &[Unserved] = &[
    Unserved {
        making: "a2",
        words: FIRST,
        config: "[[listener]];name = \"b\";address = \"unix:b\";token = [\"S-1-1-0\"]",
        status: "DoorFault",
        asked: EACH_PART,
        askings: ONE_ASKING,
    },
    Unserved {
        making: "a1",
        words: FIRST,
        config: "",
        status: "DoorFault",
        asked: EACH_PART,
        askings: &[],
    },
    Unserved {
        making: "b",
        words: FIRST,
        config: "",
        status: "StoredPair(Seq { values: [102] })",
        asked: EACH_PART,
        askings: ONE_ASKING,
    },
    Unserved {
        making: "k1",
        words: FIRST,
        config: "",
        status: "StoreFault",
        asked: EACH_PART,
        askings: ONE_ASKING,
    },
    Unserved {
        making: "k2",
        words: FIRST,
        config: "",
        status: "StoreFault",
        asked: EACH_PART,
        askings: ONE_ASKING,
    },
    Unserved {
        making: "",
        words: FIRST,
        config: "workers = 65",
        status: "Config(7)",
        asked: EACH_PART,
        askings: &[],
    },
    Unserved {
        making: "c1",
        words: FIRST,
        config: "",
        status: "ReadFault",
        asked: EACH_PART,
        askings: &[],
    },
    Unserved {
        making: "t1",
        words: FIRST,
        config: "",
        status: "ReadFault",
        asked: &["source first.toml"],
        askings: &[],
    },
    Unserved {
        making: "t2",
        words: FIRST,
        config: "",
        status: "StoreFault",
        asked: &["source first.toml", "keeper "],
        askings: &[],
    },
    Unserved {
        making: "t3",
        words: FIRST,
        config: "",
        status: "DoorFault",
        asked: EACH_PART,
        askings: &[],
    },
    Unserved {
        making: "",
        words: "serve first.toml store",
        config: "",
        status: "StoreFault",
        asked: &["source first.toml", "keeper store"],
        askings: &[],
    },
    Unserved {
        making: "",
        words: "serve second.toml ''",
        config: "",
        status: "ReadFault",
        asked: &["source second.toml"],
        askings: &[],
    },
    Unserved {
        making: "",
        words: "serve",
        config: "",
        status: "Usage",
        asked: &[],
        askings: &[],
    },
    Unserved {
        making: "",
        words: "serve first.toml",
        config: "",
        status: "Usage",
        asked: &[],
        askings: &[],
    },
    Unserved {
        making: "",
        words: "serve first.toml -store",
        config: "",
        status: "Usage",
        asked: &[],
        askings: &[],
    },
    Unserved {
        making: "",
        words: "serve -first.toml store",
        config: "",
        status: "Usage",
        asked: &[],
        askings: &[],
    },
    Unserved {
        making: "",
        words: "serve first.toml store x",
        config: "",
        status: "Usage",
        asked: &[],
        askings: &[],
    },
];

/// The number after a letter, 0 where no word begins with it.
pub fn number_of(words: &str, letter: char) -> u64 {
    for word in words.split(' ') {
        if let Some(digits) = word.strip_prefix(letter) {
            return number(digits) as u64;
        }
    }
    0
}

/// The digits of lines of these names.
fn digits_of(alloc: Global, names: &str) -> Result<String, Fail> {
    let mut digits = String::new(alloc);
    for name in names.split_whitespace() {
        let (_, line) = line_of(name).rsplit_once(' ').unwrap_or(("", ""));
        digits.push_str(line)?;
    }
    Ok(digits)
}

/// A link that brings the bytes of these lines.
pub fn link_of(alloc: Global, names: &str) -> Result<MemoryLink, Fail>
    ensures { IfOk result (λ link. IsNew (told_by link)) }
{
    let came = hex::decode(alloc, digits_of(alloc, names)?)?;
    let input = SteadyLink::new(came, 4096);
    Ok(MemoryLink::new(alloc, input, 4096, 4096, Vec::new(alloc))?)
}

/// Adds a link that brings the bytes of these lines, if there are any.
fn add_link(alloc: Global, links: &mut Seq<MemoryLink>, names: &str) -> Result<(), Fail>
    requires { All (λ link. IsNew (told_by link)) links.old }
    ensures { All (λ link. IsNew (told_by link)) links.new }
{
    if !names.is_empty() {
        links.push(link_of(alloc, names)?)?;
    }
    Ok(())
}

/// The lines at a place, none where there are fewer.
fn lines_at(lines: &[&'static str], place: usize) -> &'static str {
    lines.get(place).copied().unwrap_or("")
}

/// A door with up to three links that bring these lines, of whose calls this one fails.
fn plan_of(
    alloc: Global,
    lines: &[&'static str],
    failing: u64,
) -> Result<DoorPlan<MemoryLink>, Fail>
    ensures { IfOk result (λ plan. All (λ link. IsNew (told_by link)) plan.links) }
{
    let mut links = Seq::new(alloc);
    add_link(alloc, &mut links, lines_at(lines, 0))?;
    add_link(alloc, &mut links, lines_at(lines, 1))?;
    add_link(alloc, &mut links, lines_at(lines, 2))?;
    Ok(DoorPlan {
        links,
        failing: Seq::from_vec(numbered(alloc, failing)?),
    })
}

/// The links of the door at a place, none where there are fewer doors.
fn links_at(doors: &[&'static [&'static str]], place: usize) -> &'static [&'static str] {
    doors.get(place).copied().unwrap_or(&[])
}

/// An entrance whose first three doors have these links, and fail at this call of the first door and at this asking.
fn entrance_of(
    alloc: Global,
    links: &[&'static [&'static str]],
    failing: u64,
    failing_asking: u64,
) -> Result<MemoryEntrance<MemoryLink>, Fail> {
    let mut plans = Vec::new(alloc);
    plans.push(plan_of(alloc, links_at(links, 0), failing)?)?;
    plans.push(plan_of(alloc, links_at(links, 1), 0)?)?;
    plans.push(plan_of(alloc, links_at(links, 2), 0)?)?;
    Ok(MemoryEntrance::new(alloc, plans, numbered(alloc, failing_asking)?))
}

/// A keeper without pairs, or one with the pairs of a seeded store except for its format, which is unknown.
fn stored_of<R: Abort + Threads + Wait + Sync>(
    rt: &R,
    alloc: Global,
    making: &str,
) -> Result<SteadyKeeper, Fail> {
    if making == "b" {
        return stored_after(rt, alloc, "", "66=03");
    }
    Ok(SteadyKeeper::new(alloc))
}

/// The world of a row: how it is made, what the configuration says more, and the links of its doors.
fn serve_world<R: Abort + Threads + Wait + Sync>(
    rt: &R,
    alloc: Global,
    making: &str,
    config: &str,
    links: &[&'static [&'static str]],
    failing: u64,
) -> Result<Told, Fail> {
    let config = config_with(alloc, config)?;
    let stored = stored_of(rt, alloc, making)?;
    let entrance = entrance_of(alloc, links, failing, number_of(making, 'a'))?;
    world_of_entrance(alloc, stored, entrance, config, making_of(making))
}

/// The numbers of accounts before and after a period.
fn push_counts(text: &mut String, before: usize, after: usize) -> Result<(), Fail> {
    write!(text, "{before}>{after} ")?;
    Ok(())
}

fn push_ended(text: &mut String, conn: u32, door: u32, end: SessionEnd) -> Result<(), Fail> {
    write!(text, "{conn} {door} {end:?},")?;
    Ok(())
}

fn push_ends(text: &mut String, ends: &[Ended]) -> Result<(), Fail> {
    for ended in ends {
        push_ended(text, ended.conn, ended.door, ended.end)?;
    }
    Ok(())
}

/// A period in words.
fn push_period(text: &mut String, period: &Period) -> Result<(), Fail> {
    push_counts(
        text,
        period.opening.accounts().len(),
        period.rows.accounts().len(),
    )?;
    push_history(text, period.history.as_slice())?;
    text.push(' ')?;
    push_ends(text, period.ends.as_slice())?;
    text.push('/')?;
    Ok(())
}

fn push_periods(text: &mut String, periods: &[Period]) -> Result<(), Fail> {
    for period in periods {
        push_period(text, period)?;
    }
    Ok(())
}

/// A link by its connection and the digits of what was written on it.
fn push_link(alloc: Global, text: &mut String, conn: u32, sent: &[u8]) -> Result<(), Fail> {
    let digits = hex::encode(alloc, sent)?;
    write!(text, "{conn} ")?;
    text.push_str(digits.as_str())?;
    text.push(',')?;
    Ok(())
}

/// What was finished on a door.
fn push_finished(
    alloc: Global,
    text: &mut String,
    door: &MemoryDoor<MemoryLink>,
) -> Result<(), Fail> {
    for (conn, link) in door.as_slice() {
        push_link(alloc, text, *conn, link.as_slice())?;
    }
    text.push(';')?;
    Ok(())
}

fn push_doors(
    alloc: Global,
    text: &mut String,
    doors: &[MemoryDoor<MemoryLink>],
) -> Result<(), Fail> {
    for door in doors {
        push_finished(alloc, text, door)?;
    }
    Ok(())
}

fn push_address(text: &mut String, listener: u32, address: &[u8]) -> Result<(), Fail> {
    write!(text, "{listener} ")?;
    text.push_str(std::str::from_utf8(address).ok().unwrap_or("?"))?;
    Ok(())
}

fn push_sizes(text: &mut String, workers: u32, links: u64) -> Result<(), Fail> {
    write!(text, " {workers} {links};")?;
    Ok(())
}

/// What an entrance was asked for.
fn push_askings(text: &mut String, askings: &[Asking]) -> Result<(), Fail> {
    for asking in askings {
        push_address(text, asking.listener, asking.address.as_slice())?;
        push_sizes(text, asking.workers, asking.links)?;
    }
    Ok(())
}

/// The askings of the entrance of a world.
fn askings(world: &Told) -> &[Asking] {
    match world.entrance() {
        Some(entrance) => entrance.askings(),
        None => &[],
    }
}

/// What is left in a world: what it was asked for, what its entrance was, its periods, and what was finished on each
/// door.
fn push_left(alloc: Global, text: &mut String, world: &Told) -> Result<(), Fail> {
    text.push('|')?;
    push_asked(text, world.asked())?;
    text.push('|')?;
    push_askings(text, askings(world))?;
    text.push('|')?;
    push_periods(text, world.periods())?;
    text.push('|')?;
    push_doors(alloc, text, world.doors())
}

/// Runs words over a world: how they ended, and what they leave.
fn left<R: Threads + Wait + Sync>(
    rt: &R,
    alloc: Global,
    words: &str,
    world: &mut Told,
) -> Result<String, Fail> {
    let mut text = ended(rt, alloc, words, world)?;
    push_left(alloc, &mut text, world)?;
    Ok(text)
}

/// The same over a world that has no memory for periods.
fn left_forgetful<R: Threads + Wait + Sync>(
    rt: &R,
    alloc: Global,
    words: &str,
    world: &mut Forgetful<Told>,
) -> Result<String, Fail> {
    let mut text = ended(rt, alloc, words, world)?;
    push_left(alloc, &mut text, &world.world)?;
    Ok(text)
}

fn left_over<R: Threads + Wait + Sync>(
    rt: &R,
    alloc: Global,
    words: &str,
    mut world: Told,
) -> Result<String, Fail> {
    let text = left(rt, alloc, words, &mut world);
    drop(world);
    text
}

fn left_forgotten<R: Threads + Wait + Sync>(
    rt: &R,
    alloc: Global,
    words: &str,
    world: Told,
) -> Result<String, Fail> {
    let mut forgetful = Forgetful { world };
    let text = left_forgetful(rt, alloc, words, &mut forgetful);
    drop(forgetful);
    text
}

/// Adds texts, each with this end.
fn push_each(text: &mut String, items: &[&str], end: &str) -> Result<(), Fail> {
    for item in items {
        text.push_str(item)?;
        text.push_str(end)?;
    }
    Ok(())
}

/// Adds periods that have to be given.
fn push_given(text: &mut String, periods: &[Given]) -> Result<(), Fail> {
    for period in periods {
        push_counts(text, period.before, period.after)?;
        push_each(text, period.history, ";")?;
        text.push(' ')?;
        push_each(text, period.ends, ",")?;
        text.push('/')?;
    }
    Ok(())
}

/// Adds what has to be finished on a link: the names of lines stand for their digits.
fn push_wanted_link(alloc: Global, text: &mut String, link: &Finished) -> Result<(), Fail> {
    let conn = link.conn;
    let digits = digits_of(alloc, link.written)?;
    write!(text, "{conn} ")?;
    text.push_str(digits.as_str())?;
    text.push(',')?;
    Ok(())
}

fn push_wanted_door(alloc: Global, text: &mut String, links: &[Finished]) -> Result<(), Fail> {
    for link in links {
        push_wanted_link(alloc, text, link)?;
    }
    text.push(';')?;
    Ok(())
}

/// Adds what has to be asked for: the parts of the world, and the doors of its entrance.
fn push_wanted_asked(text: &mut String, asked: &[&str], askings: &[&str]) -> Result<(), Fail> {
    text.push('|')?;
    push_each(text, asked, ";")?;
    text.push('|')?;
    push_each(text, askings, ";")?;
    text.push('|')?;
    Ok(())
}

/// What a row has to leave, as `left` says it.
fn wanted_of(alloc: Global, row: &Row) -> Result<String, Fail> {
    let mut text = joined(alloc, &[row.status])?;
    push_wanted_asked(&mut text, row.asked, row.askings)?;
    push_given(&mut text, row.periods)?;
    text.push('|')?;
    for links in row.finished {
        push_wanted_door(alloc, &mut text, links)?;
    }
    Ok(text)
}

/// The same of a server that comes to no link.
fn wanted_unserved(alloc: Global, row: &Unserved) -> Result<String, Fail> {
    let mut text = joined(alloc, &[row.status])?;
    push_wanted_asked(&mut text, row.asked, row.askings)?;
    text.push('|')?;
    for _ in row.askings {
        text.push(';')?;
    }
    Ok(text)
}

fn left_by<R: Abort + Threads + Wait + Sync>(
    rt: &R,
    alloc: Global,
    making: &str,
    words: &str,
    world: Told,
) -> Result<String, Fail> {
    if making == "f" {
        left_forgotten(rt, alloc, words, world)
    } else {
        left_over(rt, alloc, words, world)
    }
}

fn tell<R: Abort + Threads + Wait + Sync>(rt: &R, alloc: Global, row: &Row) -> Result<(), Fail> {
    let world = serve_world(rt, alloc, row.making, row.config, row.links, row.failing)?;
    let left = left_by(rt, alloc, row.making, row.words, world)?;
    let wanted = wanted_of(alloc, row)?;
    let told = joined(alloc, &[row.words, " ", row.making, " ", row.config])?;
    is_left(rt, left.as_str(), wanted.as_str(), told.as_str());
    Ok(())
}

#[test]
fn servers_over_worlds_in_memory(rt: HostRuntime) -> Result<(), Fail> {
    for row in SERVED {
        tell(&rt, rt.alloc(), row)?;
    }
    Ok(())
}

fn tell_unserved<R: Abort + Threads + Wait + Sync>(
    rt: &R,
    alloc: Global,
    row: &Unserved,
) -> Result<(), Fail> {
    let world = serve_world(rt, alloc, row.making, row.config, &[&["BIND"]], 0)?;
    let left = left_over(rt, alloc, row.words, world)?;
    let wanted = wanted_unserved(alloc, row)?;
    let told = joined(alloc, &[row.words, " ", row.making, " ", row.config])?;
    is_left(rt, left.as_str(), wanted.as_str(), told.as_str());
    Ok(())
}

#[test]
fn servers_that_come_to_no_link(rt: HostRuntime) -> Result<(), Fail> {
    for row in UNSERVED {
        tell_unserved(&rt, rt.alloc(), row)?;
    }
    Ok(())
}
