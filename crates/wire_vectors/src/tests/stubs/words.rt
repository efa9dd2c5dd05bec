// Values in words, as the tables spell what is expected. A value is told by its `Debug` text, without the names of
// fields, parentheses and commas, so that no function here knows a type; the tables' words are spelled out to the same.
use acct_calls::Name;
use dtyp_sid::parse_text;
use std::alloc::Global;
use std::fmt::Debug;
use std::test::Fail;

/// Adds a word as it stands, and nothing of an empty one.
fn add_plain(told: &mut String, word: &str) -> Result<(), Fail> {
    if !word.is_empty() {
        told.push_str(word)?;
        told.push(' ')?;
    }
    Ok(())
}

/// Adds a word of a `Debug` text. Brackets stand alone.
fn add_word(told: &mut String, word: &str) -> Result<(), Fail> {
    let behind = word.trim_start_matches('[');
    let between = behind.trim_end_matches(']');
    add_plain(told, if behind.len() < word.len() { "[" } else { "" })?;
    add_plain(told, between)?;
    add_plain(
        told,
        if between.len() < behind.len() {
            "]"
        } else {
            ""
        },
    )
}

/// Adds the words of a `Debug` text. The names of fields and of lists' types aren't kept.
fn add_words(told: &mut String, text: &str) -> Result<(), Fail> {
    for word in text.split([' ', '(', ')', '{', '}', ',']) {
        if !word.ends_with(':') && word != "Seq" {
            add_word(told, word)?;
        }
    }
    Ok(())
}

/// Adds a value in words.
fn add_value<T: Debug>(told: &mut String, alloc: Global, value: &T) -> Result<(), Fail> {
    let text = format!(in alloc; "{value:?}")?;
    add_words(told, text.as_str())
}

/// A value in words.
pub fn tell<T: Debug>(alloc: Global, value: &T) -> Result<String, Fail> {
    let mut told = String::new(alloc);
    add_value(&mut told, alloc, value)?;
    Ok(told)
}

/// Adds a number that stands in hexadecimal digits.
fn spell_number(told: &mut String, digits: &str) -> Result<(), Fail> {
    match u128::from_str_radix(digits, 16) {
        Ok(number) => Ok(write!(told, "{number} ")?),
        Err(_) => Err(Fail::from("no number")),
    }
}

/// Adds the value of a SID.
fn spell_sid(told: &mut String, alloc: Global, text: &str) -> Result<(), Fail> {
    match parse_text(text) {
        Ok(sid) => add_value(told, alloc, &sid),
        Err(_) => Err(Fail::from("no SID")),
    }
}

/// Adds a word of a table: a SID as its value, a number in hexadecimal digits, and any other word as it stands.
fn spell_word(told: &mut String, alloc: Global, word: &str) -> Result<(), Fail> {
    if word.starts_with("S-1-") {
        return spell_sid(told, alloc, word);
    }
    match word.strip_prefix("0x") {
        Some(digits) => spell_number(told, digits),
        None => add_plain(told, word),
    }
}

fn spell_words(told: &mut String, alloc: Global, text: &str) -> Result<(), Fail> {
    for word in text.split(' ') {
        spell_word(told, alloc, word)?;
    }
    Ok(())
}

fn spell_name(told: &mut String, alloc: Global, text: &str) -> Result<(), Fail> {
    let name = Name::from_text(alloc, text)?;
    add_value(told, alloc, &name)
}

/// Adds what a table spells.
fn spell(told: &mut String, alloc: Global, text: &str) -> Result<(), Fail> {
    let mut quoted = false;
    for piece in text.split('\'') {
        if quoted {
            spell_name(told, alloc, piece)?;
        } else {
            spell_words(told, alloc, piece)?;
        }
        quoted = !quoted;
    }
    Ok(())
}

/// What a table spells: words, SIDs as texts, and names in quotes.
pub fn spelled(alloc: Global, text: &str) -> Result<String, Fail> {
    let mut told = String::new(alloc);
    spell(&mut told, alloc, text)?;
    Ok(told)
}
