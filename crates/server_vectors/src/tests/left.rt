// What words leave in a world, as text. The top call is made in one function, which says nothing of it.
use super::worlds::Told;
use acct_commands::account;
use acct_links::{Door, Entrance};
use acct_machine::{Entry, Rows, Verdict};
use acct_server::Status;
use acct_world::{Part, Period, World};
use std::alloc::Global;
use std::process::Abort;
use std::sync::Wait;
use std::test::Fail;
use std::thread::Threads;

/// Words, of which `''` is one without characters.
pub fn words_of(alloc: Global, text: &str) -> Result<Vec<String>, Fail> {
    let mut words = Vec::new(alloc);
    for word in text.split_whitespace() {
        let word = if word == "''" { "" } else { word };
        words.push(String::from_str(alloc, word)?)?;
    }
    Ok(words)
}

fn status_of<R: Threads + Wait + Sync, W: World>(
    rt: &R,
    alloc: Global,
    words: &Vec<String>,
    world: &mut W,
) -> Status
where
    <W::E as Entrance>::D: Drop + Send,
    <<W::E as Entrance>::D as Door>::L: Send,
{
    account(rt, alloc, words, world)
}

fn status_text(alloc: Global, status: &Status) -> Result<String, Fail> {
    Ok(format!(in alloc; "{status:?}")?)
}

/// Runs words over a world: how they ended.
pub fn ended<R: Threads + Wait + Sync, W: World>(
    rt: &R,
    alloc: Global,
    words: &str,
    world: &mut W,
) -> Result<String, Fail>
where
    <W::E as Entrance>::D: Drop + Send,
    <<W::E as Entrance>::D as Door>::L: Send,
{
    let words = words_of(alloc, words)?;
    let status = status_of(rt, alloc, &words, world);
    let text = status_text(alloc, &status);
    drop(status);
    drop(words);
    text
}

fn push_number(text: &mut String, number: u32) -> Result<(), Fail> {
    write!(text, " {number}")?;
    Ok(())
}

fn push_verdict(text: &mut String, verdict: Verdict) -> Result<(), Fail> {
    write!(text, " {verdict:?}")?;
    Ok(())
}

fn push_opening(text: &mut String, conn: u32, listener: u32) -> Result<(), Fail> {
    text.push_str("opened")?;
    push_number(text, conn)?;
    push_number(text, listener)
}

fn push_call(
    text: &mut String,
    conn: u32,
    opnum: u16,
    verdict: Verdict,
    bytes: u32,
) -> Result<(), Fail> {
    text.push_str("called")?;
    push_number(text, conn)?;
    push_number(text, opnum as u32)?;
    push_verdict(text, verdict)?;
    push_number(text, bytes)
}

fn push_end(text: &mut String, conn: u32) -> Result<(), Fail> {
    text.push_str("gone")?;
    push_number(text, conn)
}

fn push_taken(text: &mut String, number: u64) -> Result<(), Fail> {
    write!(text, "hooked {number}")?;
    Ok(())
}

/// An entry in words.
fn push_entry(text: &mut String, entry: &Entry) -> Result<(), Fail> {
    match entry {
        Entry::Opened { conn, listener } => push_opening(text, *conn, *listener),
        Entry::Called {
            conn,
            call,
            verdict,
            bytes,
        } => push_call(text, *conn, call.opnum, *verdict, *bytes),
        Entry::Gone { conn } => push_end(text, *conn),
        Entry::Hooked { number } => push_taken(text, *number),
    }
}

pub fn push_history(text: &mut String, history: &[Entry]) -> Result<(), Fail> {
    for entry in history {
        push_entry(text, entry)?;
        text.push(';')?;
    }
    Ok(())
}

/// The histories of the periods in words, or that there is none.
pub fn push_histories(text: &mut String, periods: &[Period]) -> Result<(), Fail> {
    if periods.is_empty() {
        text.push_str("none")?;
    }
    for period in periods {
        push_history(text, period.history.as_slice())?;
    }
    Ok(())
}

/// The number of a domain with the RIDs of its accounts.
fn push_domain(text: &mut String, rows: &Rows, number: u8) -> Result<(), Fail> {
    push_number(text, number as u32)?;
    text.push(':')?;
    for account in rows.accounts() {
        if account.domain == number {
            push_number(text, account.rid)?;
        }
    }
    Ok(())
}

fn push_domains(text: &mut String, rows: &Rows) -> Result<(), Fail> {
    for domain in rows.domains() {
        push_domain(text, rows, domain.number)?;
        text.push(';')?;
    }
    Ok(())
}

/// The domains and accounts before and after each period.
pub fn push_rows(text: &mut String, periods: &[Period]) -> Result<(), Fail> {
    for period in periods {
        push_domains(text, &period.opening)?;
        text.push_str(" then")?;
        push_domains(text, &period.rows)?;
    }
    Ok(())
}

/// The word of a part, and its name.
fn part_words(part: &Part) -> (&str, &[u8]) {
    match part {
        Part::Source(name) => ("source ", name.as_slice()),
        Part::Sink => ("sink", b""),
        Part::Keeper(name) => ("keeper ", name.as_slice()),
        Part::Entrance => ("entrance", b""),
        Part::Caller => ("caller", b""),
        Part::Spawner => ("spawner", b""),
    }
}

/// What was asked for.
pub fn push_asked(text: &mut String, asked: &[Part]) -> Result<(), Fail> {
    for part in asked {
        let (kind, name) = part_words(part);
        text.push_str(kind)?;
        text.push_str(std::str::from_utf8(name).ok().unwrap_or("?"))?;
        text.push(';')?;
    }
    Ok(())
}

/// A number of what there is, with a space before it.
pub fn push_count(text: &mut String, count: usize) -> Result<(), Fail> {
    write!(text, " {count}")?;
    Ok(())
}

/// Asserts that this is left, of the row that wants it.
pub fn is_left(rt: &impl Abort, left: &str, wanted: &str, row: &str) {
    assert_eq!(rt; left, wanted, "{row}");
}

/// What was written.
pub fn written(world: &Told) -> &str {
    match world.sink() {
        Some(sink) => std::str::from_utf8(sink.as_slice())
            .ok()
            .unwrap_or("no text"),
        None => "the sink is out",
    }
}
