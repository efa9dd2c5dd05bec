// What is said of a status after its code and word.
use crate::tests::left::words_of;
use crate::tests::lines::{column, number};
use account_words::message;
use acct_base::Seq;
use acct_codes::Kind;
use acct_config::{Place, Section, Text};
use acct_server::Status;
use host_world::Unread;
use std::alloc::Global;
use std::io;
use std::test::Fail;

/// Each row: the words, the status with its number or key, and what is said.
const ROWS: &str =
    "replay first.toml|Config 0|first.toml breaks rule 0: it is a TOML document in UTF-8; mend it there, by \"The \
    configuration\" of docs/SPECIFICATION.md
serve first.toml a.db|Config 1|first.toml breaks rule 1: it has the keys that are needed and no unknown ones, each \
    with a value of its type; mend it there, by \"The configuration\" of docs/SPECIFICATION.md
replay a|Config 2|a breaks rule 2: domain.name is a name of at most 15 units, and no domain's that is built in; mend \
    it there, by \"The configuration\" of docs/SPECIFICATION.md
replay a|Config 3|a breaks rule 3: domain.sid is a SID with 1 to 14 sub-authorities, and not S-1-5-32; mend it there, \
    by \"The configuration\" of docs/SPECIFICATION.md
replay a|Config 4|a breaks rule 4: there are 1 to 16 listeners, each with a name of its own, of 1 to 32 of a to z and \
    0 to 9; mend it there, by \"The configuration\" of docs/SPECIFICATION.md
replay a|Config 5|a breaks rule 5: each address is tcp:HOST:PORT or unix:PATH; mend it there, by \"The configuration\" \
    of docs/SPECIFICATION.md
replay a|Config 6|a breaks rule 6: each token has 1 to 64 SIDs; mend it there, by \"The configuration\" of \
    docs/SPECIFICATION.md
replay a|Config 7|a breaks rule 7: each workers is 1 to 64, and each links 0 to 4294967295; mend it there, by \"The \
    configuration\" of docs/SPECIFICATION.md
replay a|Config 8|a breaks rule 8: each owner is a SID; mend it there, by \"The configuration\" of \
    docs/SPECIFICATION.md
replay a|Config 9|a breaks rule 9: each aces has at most 800 entries: allow or deny, a mask, flags and a SID; mend it \
    there, by \"The configuration\" of docs/SPECIFICATION.md
replay a|Config 10|a breaks rule 10: each limit is in its range; mend it there, by \"The configuration\" of \
    docs/SPECIFICATION.md
replay a|Config 11|a breaks rule 11: hook.program is a text that isn't empty, and hook.tries 1 to 100; mend it there, \
    by \"The configuration\" of docs/SPECIFICATION.md
hooks a b|Config 12|a breaks rule 12: there is a table hook, whose program is run; mend it there, by \"The \
    configuration\" of docs/SPECIFICATION.md
hooks a b.db|HookStore 1|the store b.db can't be opened, read or written, is no database, or another process holds it; \
    see which, or name another
hooks a b.db|HookHeld 7|-
hooks a b.db|SpawnFault|-
replay a|Input|the standard input can't be read (entity not found); give the events there
serve a b|Named|a can't be read (entity not found); name a file that is there and may be read
gen 7|WriteFault|the standard output can't be written; see that what reads it runs, or that its disk has room
serve a b.db|StoreFault|the store b.db can't be opened, read or written, is no database, or another process holds it; \
    see which, or name another
serve a b.db|StoredPair 6400|the store b.db breaks its format first at the key 6400; mend that pair, by \"Stored \
    pairs\" of docs/SPECIFICATION.md, or go back to a copy
replay a|EventLine 12|line 12 of the events is refused; mend it, by \"Events\" of docs/SPECIFICATION.md
serve a b|HistoryFull 65536|the history is full with 65536 connections, calls or bytes; raise max_conns, max_calls or \
    max_bytes under [limits] in a, or max_periods there, so that a server begins anew
replay a|InputTooLong|a or the standard input has more than 67,108,864 bytes; shorten it
serve a b|InputTooLong|a has more than 67,108,864 bytes; shorten it
call tcp:h:1 domains|InputTooLong|the answer isn't whole after 67,108,864 bytes; ask for less
replay a|Done|-
replay a|NoMemory|-
|Usage|-
serve a b|DoorFault|-
call tcp:h:1 domains|PeerBytes 3|-
call tcp:h:1 domains|PeerFault|-
call tcp:h:1 domains|Refused 5|-";

fn stored_pair(alloc: Global, digits: &str) -> Result<Status, Fail> {
    Ok(Status::StoredPair(Seq::from_vec(hex::decode(alloc, digits.as_bytes())?)))
}

fn status_of(alloc: Global, text: &str) -> Result<Status, Fail> {
    let (name, digits) = text.split_once(' ').unwrap_or((text, ""));
    match name {
        "StoredPair" => stored_pair(alloc, digits),
        "Config" => Ok(Status::Config(number(digits))),
        "Input" | "Named" => Ok(Status::ReadFault),
        "WriteFault" => Ok(Status::WriteFault),
        "StoreFault" => Ok(Status::StoreFault),
        "EventLine" => Ok(Status::EventLine(number(digits))),
        "HistoryFull" => Ok(Status::HistoryFull(number(digits) as u64)),
        "InputTooLong" => Ok(Status::InputTooLong),
        "Done" => Ok(Status::Done),
        "NoMemory" => Ok(Status::NoMemory),
        "DoorFault" => Ok(Status::DoorFault),
        "PeerBytes" => Ok(Status::PeerBytes(number(digits) as u64)),
        "PeerFault" => Ok(Status::PeerFault),
        "Refused" => Ok(Status::Refused(number(digits))),
        "HookHeld" => Ok(Status::HookHeld(number(digits) as u64)),
        "HookStore" => Ok(Status::HookStore(number(digits) as u64)),
        "SpawnFault" => Ok(Status::SpawnFault),
        _ => Ok(Status::Usage),
    }
}

fn unread_of(text: &str) -> Option<Unread> {
    let error = io::Error::from(io::ErrorKind::NotFound);
    match text {
        "Input" => Some(Unread::Input(error)),
        "Named" => Some(Unread::Named(error)),
        _ => None,
    }
}

fn said(alloc: Global, words: &str, status: &str) -> Result<String, Fail> {
    let words = words_of(alloc, words)?;
    let told = status_of(alloc, status)?;
    match message(alloc, &told, words.as_slice(), unread_of(status), None)? {
        Some(text) => Ok(text),
        None => Ok(String::from_str(alloc, "-")?),
    }
}

#[test]
fn what_is_said_of_a_status(rt: HostRuntime) -> Result<(), Fail> {
    for row in ROWS.lines() {
        let (words, rest) = column(row);
        let (status, wanted) = column(rest);
        assert_eq!(rt; said(rt.alloc(), words, status)?.as_str(), wanted, "{row}");
    }
    Ok(())
}

/// Each row: a table and a key at which a rule is broken, and how that begins which is said of it.
const PLACES: [(Section, &str, &str); 7] = [
    (Section::Document, "a\n", "a breaks rule 1 at \"a\\n\": "),
    (
        Section::Domain,
        "oem",
        "a breaks rule 1 at \"oem\" in [domain]: ",
    ),
    (
        Section::Listener(2),
        "link",
        "a breaks rule 1 at \"link\" in [[listener]] 2 (counted from 0): ",
    ),
    (
        Section::Descriptors,
        "users",
        "a breaks rule 1 at \"users\" in [descriptor]: ",
    ),
    (
        Section::Descriptor(Kind::Alias),
        "ace",
        "a breaks rule 1 at \"ace\" in [descriptor.alias]: ",
    ),
    (
        Section::Limits,
        "max",
        "a breaks rule 1 at \"max\" in [limits]: ",
    ),
    (
        Section::Hook,
        "try",
        "a breaks rule 1 at \"try\" in [hook]: ",
    ),
];

fn said_at(alloc: Global, place: &Place) -> Result<String, Fail> {
    let words = words_of(alloc, "replay a")?;
    let text = message(
        alloc,
        &Status::Config(1),
        words.as_slice(),
        None,
        Some(place),
    )?;
    Ok(text.ok_or("nothing is said")?)
}

#[test]
fn where_a_rule_is_broken_is_said(rt: HostRuntime) -> Result<(), Fail> {
    for (section, key, wanted) in PLACES {
        let place = Place::Key(section, Text::copy_of(rt.alloc(), key)?);
        assert!(rt;
            said_at(rt.alloc(), &place)?.starts_with(wanted),
            "{wanted}"
        );
    }
    let text = said_at(rt.alloc(), &Place::Line(6))?;
    assert!(rt; text.starts_with("a breaks rule 1 at line 7: "));
    Ok(())
}
