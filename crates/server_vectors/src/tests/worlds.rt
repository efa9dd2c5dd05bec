// Worlds in memory, and the parts of which they are made.
use super::lines::{bytes_of, number};
use account_hooks::{MemorySpawner, SteadySpawner};
use acct_keeper::{MemoryKeeper, SteadyKeeper};
use acct_links::{Entrance, MemoryCaller, MemoryEntrance, MemoryLink, SteadyCaller, SteadyLink};
use acct_server::{MemorySink, MemorySource, SteadySink, SteadySource};
use acct_world::{MemoryParts, MemoryWorld};
use std::alloc::Global;
use std::test::Fail;

/// A world that tells what it holds.
pub type Told = MemoryWorld<
    MemorySource,
    MemorySink,
    MemoryKeeper,
    MemoryEntrance<MemoryLink>,
    MemoryCaller<MemoryLink>,
    MemorySpawner,
>;

/// How a run is made: which reads of the configuration and the events, which writes, which calls of the keeper and
/// of the link and which handings out fail, and how many bytes a read and a write take.
#[derive(Clone, Copy)]
pub struct Making {
    config_failing: u64,
    events_failing: u64,
    writes_failing: u64,
    keeper_failing: u64,
    link_failing: u64,
    takes_failing: u64,
    read_size: usize,
    write_size: usize,
}

/// The making that words like `c1` and `w120` say: the letter says what, the number which or how many.
pub fn making_of(words: &str) -> Making {
    let mut making = Making {
        config_failing: 0,
        events_failing: 0,
        writes_failing: 0,
        keeper_failing: 0,
        link_failing: 0,
        takes_failing: 0,
        read_size: 4096,
        write_size: 4096,
    };
    for word in words.split_whitespace() {
        let (letter, digits) = word.split_at_checked(1).unwrap_or(("", ""));
        match letter {
            "c" => making.config_failing = number(digits) as u64,
            "e" => making.events_failing = number(digits) as u64,
            "w" => making.writes_failing = number(digits) as u64,
            "k" => making.keeper_failing = number(digits) as u64,
            "l" => making.link_failing = number(digits) as u64,
            "t" => making.takes_failing = number(digits) as u64,
            "r" => making.read_size = number(digits) as usize,
            "s" => making.write_size = number(digits) as usize,
            _ => {}
        }
    }
    making
}

pub fn numbered(alloc: Global, number: u64) -> Result<Vec<u64>, Fail> {
    Ok([number].to_vec(alloc)?)
}

fn source_of(alloc: Global, text: String, size: usize, failing: u64) -> Result<MemorySource, Fail> {
    Ok(MemorySource::new(text.into_bytes(), size.max(1), numbered(alloc, failing)?))
}

fn sink_of(alloc: Global, making: Making) -> Result<MemorySink, Fail> {
    let failing = numbered(alloc, making.writes_failing)?;
    Ok(MemorySink::new(alloc, 65536, making.write_size.max(1), failing)?)
}

/// The streams of a world.
#[derive(Drop)]
struct Streams {
    config: MemorySource,
    events: MemorySource,
    sink: MemorySink,
}

fn streams_of(alloc: Global, texts: (String, String), making: Making) -> Result<Streams, Fail> {
    let (config, events) = texts;
    Ok(Streams {
        config: source_of(alloc, config, making.read_size, making.config_failing)?,
        events: source_of(alloc, events, making.read_size, making.events_failing)?,
        sink: sink_of(alloc, making)?,
    })
}

/// The name of a world's configuration, and which calls of its keeper and which handings out fail.
#[derive(Drop)]
struct Failing {
    name: Vec<u8>,
    keeper: Vec<u64>,
    takes: Vec<u64>,
}

fn failing_of(alloc: Global, making: Making) -> Result<Failing, Fail> {
    Ok(Failing {
        name: b"first.toml".to_vec(alloc)?,
        keeper: numbered(alloc, making.keeper_failing)?,
        takes: numbered(alloc, making.takes_failing)?,
    })
}

/// What of a world takes memory to make.
#[derive(Drop)]
struct Frame {
    streams: Streams,
    failing: Failing,
}

fn frame_of(alloc: Global, texts: (String, String), making: Making) -> Result<Frame, Fail> {
    let streams = streams_of(alloc, texts, making)?;
    let failing = failing_of(alloc, making)?;
    Ok(Frame { streams, failing })
}

/// A caller that has one link, whose peer sends the bytes of these lines.
pub fn caller_of(
    alloc: Global,
    answers: &str,
    making: Making,
) -> Result<MemoryCaller<MemoryLink>, Fail> {
    let input = SteadyLink::new(bytes_of(alloc, answers)?, 4096);
    let failing = numbered(alloc, making.link_failing)?;
    let link = MemoryLink::new(alloc, input, 1024, 4096, failing)?;
    let mut links = Vec::new(alloc);
    links.push(link)?;
    Ok(MemoryCaller::new(alloc, links, Vec::new(alloc)))
}

/// A caller that has no link.
fn nobody(alloc: Global) -> MemoryCaller<MemoryLink> {
    MemoryCaller::new(alloc, Vec::new(alloc), Vec::new(alloc))
}

/// An entrance without links.
fn closed(alloc: Global) -> MemoryEntrance<MemoryLink> {
    MemoryEntrance::new(alloc, Vec::new(alloc), Vec::new(alloc))
}

/// A spawner whose runs all end with 0.
fn idle(alloc: Global) -> MemorySpawner {
    MemorySpawner::new(alloc, Vec::new(alloc))
}

/// The world of a frame, over what a keeper holds, an entrance brings and a caller gives, and with a spawner.
fn world_over(
    alloc: Global,
    frame: Frame,
    stored: SteadyKeeper,
    entrance: MemoryEntrance<MemoryLink>,
    caller: MemoryCaller<MemoryLink>,
    spawner: MemorySpawner,
) -> Told {
    let Frame { streams, failing } = frame;
    let parts = MemoryParts {
        config: streams.config,
        events: streams.events,
        sink: streams.sink,
        keeper: MemoryKeeper::new(stored, failing.keeper),
        entrance,
        caller,
        spawner,
    };
    MemoryWorld::new(alloc, failing.name, parts, failing.takes)
}

/// A world with these texts of the configuration and of the events, over what a keeper holds.
pub fn world_of_stored(
    alloc: Global,
    stored: SteadyKeeper,
    texts: (String, String),
    making: Making,
) -> Result<Told, Fail> {
    let frame = frame_of(alloc, texts, making)?;
    Ok(world_over(
        alloc,
        frame,
        stored,
        closed(alloc),
        nobody(alloc),
        idle(alloc),
    ))
}

/// The same over a keeper that holds nothing.
pub fn world_of(alloc: Global, texts: (String, String), making: Making) -> Result<Told, Fail> {
    let frame = frame_of(alloc, texts, making)?;
    let stored = SteadyKeeper::new(alloc);
    Ok(world_over(
        alloc,
        frame,
        stored,
        closed(alloc),
        nobody(alloc),
        idle(alloc),
    ))
}

/// A world with a caller, whose sources hold nothing.
pub fn world_of_caller(
    alloc: Global,
    caller: MemoryCaller<MemoryLink>,
    making: Making,
) -> Result<Told, Fail> {
    let texts = (String::new(alloc), String::new(alloc));
    let frame = frame_of(alloc, texts, making)?;
    let stored = SteadyKeeper::new(alloc);
    Ok(world_over(alloc, frame, stored, closed(alloc), caller, idle(alloc)))
}

/// A world with an entrance and this configuration, over what a keeper holds, whose events are none.
pub fn world_of_entrance(
    alloc: Global,
    stored: SteadyKeeper,
    entrance: MemoryEntrance<MemoryLink>,
    config: String,
    making: Making,
) -> Result<Told, Fail> {
    let frame = frame_of(alloc, (config, String::new(alloc)), making)?;
    Ok(world_over(alloc, frame, stored, entrance, nobody(alloc), idle(alloc)))
}

/// A world with an entrance, a spawner and this configuration, over what a keeper holds, whose events are none.
pub fn world_of_server(
    alloc: Global,
    stored: SteadyKeeper,
    entrance: MemoryEntrance<MemoryLink>,
    spawner: MemorySpawner,
    config: String,
    making: Making,
) -> Result<Told, Fail> {
    let frame = frame_of(alloc, (config, String::new(alloc)), making)?;
    Ok(world_over(alloc, frame, stored, entrance, nobody(alloc), spawner))
}

/// A world with a spawner and this configuration, over what a keeper holds, whose events are none.
pub fn world_of_spawner(
    alloc: Global,
    stored: SteadyKeeper,
    spawner: MemorySpawner,
    config: String,
    making: Making,
) -> Result<Told, Fail> {
    let frame = frame_of(alloc, (config, String::new(alloc)), making)?;
    Ok(world_over(alloc, frame, stored, closed(alloc), nobody(alloc), spawner))
}

/// A world whose parts never fail, except for its entrance.
pub type Steady<E> = MemoryWorld<
    SteadySource,
    SteadySink,
    SteadyKeeper,
    E,
    SteadyCaller,
    SteadySpawner,
>;

/// A world with this entrance and these texts of the configuration and of the events.
pub fn steady_world<E: Entrance + Drop>(
    alloc: Global,
    texts: (String, String),
    entrance: E,
) -> Result<Steady<E>, Fail>
where
    E::D: Drop,
{
    let name = b"first.toml".to_vec(alloc)?;
    let (config, events) = texts;
    let parts = MemoryParts {
        config: SteadySource::new(config.into_bytes()),
        events: SteadySource::new(events.into_bytes()),
        sink: SteadySink,
        keeper: SteadyKeeper::new(alloc),
        entrance,
        caller: SteadyCaller::new(alloc, Vec::new(alloc), 1),
        spawner: SteadySpawner,
    };
    Ok(MemoryWorld::new(alloc, name, parts, Vec::new(alloc)))
}
