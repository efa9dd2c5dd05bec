// Dialogues of the client, told row by row. A dialogue has the words of its command, then in turn what is sent (`>`)
// and what the peer answers (`<`), then how it ends (`=`), and the lines that are printed. A word `N*REST` is REST so
// many times. Every expected value was packed from the fields of the standards by another program, which agrees with
// the stubs of Samba and impacket.
mod calls;
mod commands;
mod digits;
mod errors;
mod fragments;
mod lists;
mod peers;
mod refusals;
mod talks;
mod words;

use crate::tests::digits::repeated;
use acct_client::{AskError, Asker};
use digits::words_of;
use std::alloc::Global;
use std::process::Abort;
use std::test::Fail;
use talks::{Cut, end_of, told};

/// The tables of dialogues.
const TABLES: [&str; 6] = [
    commands::COMMANDS,
    lists::LISTS,
    refusals::REFUSALS,
    errors::ERRORS,
    fragments::FRAGMENTS,
    peers::PEERS,
];

/// Each dialogue of a table goes as its rows say, where the answers are cut so.
fn table_is_right(rt: &impl Abort, alloc: Global, table: &str, cut: Cut) -> Result<(), Fail> {
    for dialogue in table.trim_start().split("\n\n") {
        let told = told(rt, alloc, dialogue, cut)?;
        let end = told.strip_suffix("\n").unwrap_or("no end of line");
        assert_eq!(rt; end, end_of(dialogue), "{dialogue}");
    }
    Ok(())
}

/// Each table is right.
fn tables_are_right(rt: &impl Abort, alloc: Global, cut: Cut) -> Result<(), Fail> {
    for table in TABLES {
        table_is_right(rt, alloc, table, cut)?;
    }
    Ok(())
}

#[test]
fn dialogues_go_as_they_say(rt: HostRuntime) -> Result<(), Fail> {
    tables_are_right(&rt, rt.alloc(), Cut::At(usize::MAX))?;
    tables_are_right(&rt, rt.alloc(), Cut::Bytes)?;
    tables_are_right(&rt, rt.alloc(), Cut::Early)
}

#[test]
fn answers_may_be_cut_anywhere(rt: HostRuntime) -> Result<(), Fail> {
    for place in 0..160 {
        table_is_right(&rt, rt.alloc(), commands::COMMANDS, Cut::At(place))?;
    }
    Ok(())
}

#[test]
fn answers_may_have_a_megabyte(rt: HostRuntime) -> Result<(), Fail> {
    table_is_right(&rt, rt.alloc(), fragments::LONG, Cut::At(usize::MAX))?;
    table_is_right(&rt, rt.alloc(), fragments::LONG, Cut::At(0x8_0000))
}

/// The text that pieces between bars make, of which `N*REST` is REST so many times.
fn joined(alloc: Global, pieces: &str) -> Result<String, Fail> {
    let mut text = String::new(alloc);
    for piece in pieces.split('|') {
        let (times, rest) = repeated(piece);
        for _ in 0..times {
            text.push_str(rest)?;
        }
    }
    Ok(text)
}

/// The dialogue of a thousand names with a peer that takes fragments of a size, and what is sent to it.
fn thousand(alloc: Global, size: &str, sent: &str) -> Result<String, Fail> {
    let sized = fragments::THOUSAND.replace(alloc, "SIZE", size)?;
    let pieces = sized.replace(alloc, "SENT", sent)?;
    joined(alloc, pieces.as_str())
}

fn thousand_is_right(rt: &impl Abort, alloc: Global, size: &str, sent: &str) -> Result<(), Fail> {
    let dialogue = thousand(alloc, size, sent)?;
    table_is_right(rt, alloc, dialogue.as_str(), Cut::At(usize::MAX))?;
    table_is_right(rt, alloc, dialogue.as_str(), Cut::Bytes)
}

#[test]
fn a_thousand_names_are_asked_for(rt: HostRuntime) -> Result<(), Fail> {
    for row in fragments::SIZES.lines() {
        let (sizes, sent) = row.split_once('|').unwrap_or((row, ""));
        for size in sizes.split(' ') {
            thousand_is_right(&rt, rt.alloc(), size, sent)?;
        }
    }
    Ok(())
}

/// Why some words are refused, if they are.
fn refusal(alloc: Global, words: &[String]) -> Option<AskError> {
    match Asker::new(alloc, words) {
        Ok(asker) => {
            drop(asker);
            None
        }
        Err(error) => Some(error),
    }
}

/// Whether the words of a row are refused as no command, or aren't refused.
fn row_is(alloc: Global, row: &str, wanted: Option<AskError>) -> Result<bool, Fail> {
    let words = words_of(alloc, row)?;
    Ok(refusal(alloc, &words) == wanted)
}

#[test]
fn words_off_the_table_are_refused(rt: HostRuntime) -> Result<(), Fail> {
    for row in words::REFUSED.lines() {
        assert!(rt; row_is(rt.alloc(), row, Some(AskError::Usage))?, "{row}");
    }
    for row in words::TAKEN.lines() {
        assert!(rt; row_is(rt.alloc(), row, None)?, "{row}");
    }
    Ok(assert!(rt;
        refusal(rt.alloc(), &[]) == Some(AskError::Usage),
        "no words"
    ))
}

/// Whether a command with so many words after some is taken.
fn is_taken(alloc: Global, front: &str, word: &str, count: usize) -> Result<bool, Fail> {
    let mut words = words_of(alloc, front)?;
    for _ in 0..count {
        words.push(String::from_str(alloc, word)?)?;
    }
    Ok(refusal(alloc, &words).is_none())
}

#[test]
fn words_have_limits(rt: HostRuntime) -> Result<(), Fail> {
    for (front, word, most) in [
        ("names", "a", 1000),
        ("sids", "S-1-1-0", 1000),
        ("grant S-1-1-0", "SeX", 256),
    ] {
        assert!(rt; is_taken(rt.alloc(), front, word, most)?, "{front}");
        assert!(rt; !is_taken(rt.alloc(), front, word, most + 1)?, "{front}");
    }
    Ok(())
}

#[test]
fn laws_are_called() {
    acct_client::streams_are_cut_anywhere();
    acct_client::dialogues_are_cut_anywhere();
    acct_client::short_stubs_are_one_pdu();
    acct_client::replies_are_printed();
    client_commands::fit_steps_are_spelled();
}
