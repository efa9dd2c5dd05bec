// What is said of a status after its code and word: what happened, with what the status carries, and what to do. The
// words are those of the command line.
ghost use Rattle.std.specs.Prelude.{◌≡◌, IfOk, is_some};
ghost use Rattle.account_words.specs.Statuses.{has_message};

use crate::places::at;
use acct_config::Place;
use acct_server::Status;
use host_world::Unread;
use std::alloc::{AllocError, Global};

/// What the rule of a configuration with this number asks for.
fn rule_of(number: u32) -> &'static str {
    match number {
        0 => "it is a TOML document in UTF-8",
        1 => "it has the keys that are needed and no unknown ones, each with a value of its type",
        2 => "domain.name is a name of at most 15 units, and no domain's that is built in",
        3 => "domain.sid is a SID with 1 to 14 sub-authorities, and not S-1-5-32",
        4 =>
            "there are 1 to 16 listeners, each with a name of its own, of 1 to 32 of a to z and 0 to 9",
        5 => "each address is tcp:HOST:PORT or unix:PATH",
        6 => "each token has 1 to 64 SIDs",
        7 => "each workers is 1 to 64, and each links 0 to 4294967295",
        8 => "each owner is a SID",
        9 => "each aces has at most 800 entries: allow or deny, a mask, flags and a SID",
        10 => "each limit is in its range",
        11 => "hook.program is a text that isn't empty, and hook.tries 1 to 100",
        _ => "there is a table hook, whose program is run",
    }
}

fn of_config(
    alloc: Global,
    name: &str,
    rule: u32,
    place: Option<&Place>,
) -> Result<String, AllocError> {
    let asks = rule_of(rule);
    let there = at(alloc, place)?;
    format!(in alloc;
        "{name} breaks rule {rule}{there}: {asks}; mend it there, by \"The configuration\" of docs/SPECIFICATION.md"
    )
}

fn of_source(alloc: Global, name: &str, unread: Option<Unread>) -> Result<String, AllocError> {
    match unread {
        Some(Unread::Input(error)) => {
            format!(in alloc; "the standard input can't be read ({error}); give the events there")
        }
        Some(Unread::Named(error)) => {
            format!(in alloc;
                "{name} can't be read ({error}); name a file that is there and may be read"
            )
        }
        None => format!(in alloc; "{name} or the standard input can't be read; give both"),
    }
}

fn of_output(alloc: Global) -> Result<String, AllocError> {
    String::from_str(
        alloc,
        "the standard output can't be written; see that what reads it runs, or that its disk has room",
    )
}

fn of_store(alloc: Global, store: &str) -> Result<String, AllocError> {
    format!(in alloc;
        "the store {store} can't be opened, read or written, is no database, or another process holds it; see \
        which, or name another"
    )
}

fn of_pair(alloc: Global, store: &str, key: &[u8]) -> Result<String, AllocError> {
    let digits = hex::encode(alloc, key)?;
    format!(in alloc;
        "the store {store} breaks its format first at the key {digits}; mend that pair, by \"Stored pairs\" of \
        docs/SPECIFICATION.md, or go back to a copy"
    )
}

fn of_event(alloc: Global, line: u32) -> Result<String, AllocError> {
    format!(in alloc;
        "line {line} of the events is refused; mend it, by \"Events\" of docs/SPECIFICATION.md"
    )
}

fn of_history(alloc: Global, name: &str, count: u64) -> Result<String, AllocError> {
    format!(in alloc;
        "the history is full with {count} connections, calls or bytes; raise max_conns, max_calls or max_bytes under \
        [limits] in {name}, or max_periods there, so that a server begins anew"
    )
}

fn of_length(alloc: Global, command: &str, name: &str) -> Result<String, AllocError> {
    match command {
        "call" => String::from_str(
            alloc,
            "the answer isn't whole after 67,108,864 bytes; ask for less",
        ),
        "serve" => format!(in alloc; "{name} has more than 67,108,864 bytes; shorten it"),
        _ => format!(in alloc;
            "{name} or the standard input has more than 67,108,864 bytes; shorten it"
        ),
    }
}

// The word at a place, or none.
fn word(words: &[String], place: usize) -> &str {
    match words.get(place) {
        Some(word) => word.as_str(),
        None => "",
    }
}

/// What is said of a status, where more than its code and word is: of which it is known why a source wasn't read, and
/// where the configuration breaks its rule.
pub fn message(
    alloc: Global,
    status: &Status,
    words: &[String],
    unread: Option<Unread>,
    place: Option<&Place>,
) -> Result<Option<String>, AllocError>
    ensures { IfOk result (λ text. is_some text ≡ has_message status.now) }
{
    let name = word(words, 1);
    let store = word(words, 2);
    let text = match status {
        Status::Config(rule) => of_config(alloc, name, *rule, place)?,
        Status::ReadFault => of_source(alloc, name, unread)?,
        Status::WriteFault => of_output(alloc)?,
        Status::StoreFault | Status::HookStore(_) => of_store(alloc, store)?,
        Status::StoredPair(key) => of_pair(alloc, store, key.as_slice())?,
        Status::EventLine(line) => of_event(alloc, *line)?,
        Status::HistoryFull(count) => of_history(alloc, name, *count)?,
        Status::InputTooLong => of_length(alloc, word(words, 0), name)?,
        _ => return Ok(None),
    };
    Ok(Some(text))
}
