// Values in words, as the tables spell what is expected. A value is told by its `Debug` text without the names of
// fields, parentheses and commas, so that no function here knows a type; the tables' words are spelled out to the same.
use super::parts::name_of;
use acct_base::Seq;
use acct_calls::{NoMemory, Outs, Places};
use acct_rules::Planned;
use dtyp_sid::parse_text;
use std::alloc::Global;
use std::cmp::min;
use std::fmt::Debug;
use std::test::Fail;

/// After the outputs of what changes nothing.
const NO_CHANGE: &str = "puts [ ] removes [ ] Nothing ";

/// The names of structs that their field or their list tells already.
const DROPPED: [&str; 16] = [
    "",
    "Seq",
    "RidName",
    "RidBits",
    "Names",
    "Opening",
    "Held",
    "Privilege",
    "ReferencedDomain",
    "TranslatedSid",
    "TranslatedName",
    "SidRef",
    "Bytes",
    "Descriptor",
    "Acl",
    "Ace",
];

fn is_dropped(word: &str) -> bool {
    word.ends_with("Row") || DROPPED.contains(&word)
}

/// Adds a word of a `Debug` text. Brackets stand alone.
fn add_word(words: &mut String, word: &str) -> Result<(), Fail> {
    let behind = word.trim_start_matches('[');
    let between = behind.trim_end_matches(']');
    if behind.len() < word.len() {
        words.push_str("[ ")?;
    }
    if !is_dropped(between) {
        words.push_str(between)?;
        words.push(' ')?;
    }
    if between.len() < behind.len() {
        words.push_str("] ")?;
    }
    Ok(())
}

/// Adds the words of a `Debug` text, without the names of fields.
fn add_words(words: &mut String, text: &str) -> Result<(), Fail> {
    for word in text.split([' ', '(', ')', '{', '}', ',']) {
        if !word.ends_with(':') {
            add_word(words, word)?;
        }
    }
    Ok(())
}

/// What is planned, in words: the status in hexadecimal digits, the outputs, and what changes.
pub fn tell(alloc: Global, planned: &Planned) -> Result<String, Fail> {
    let text = format!(in alloc;
        "{:x} {:?} puts {:?} removes {:?} {:?}",
        planned.status, planned.outs, planned.plan.puts, planned.plan.removes, planned.effect
    )?;
    let mut words = String::new(alloc);
    add_words(&mut words, text.as_str())?;
    let told = words.as_str().trim_end_matches(NO_CHANGE);
    Ok(String::from_str(alloc, told)?)
}

/// The status, the domains, how many entries there are, the first and the last one, and how many are mapped.
fn ends_text<T: Debug>(
    alloc: Global,
    status: u32,
    domains: &Places,
    entries: &[T],
    mapped: u32,
) -> Result<String, NoMemory> {
    let count = entries.len();
    let first = &entries[..min(count, 1)];
    let last = &entries[count - first.len()..];
    format!(in alloc; "{status:x} {domains:?} {count} {first:?} {last:?} {mapped}")
}

/// What a large translation or a long list of SIDs answers, in words: all but the entries between the first and the
/// last one. A list has no domains; a page of it has its context in the place of how many are mapped.
pub fn tell_ends(alloc: Global, planned: &Planned) -> Result<String, Fail> {
    let status = planned.status;
    let text = match &planned.outs {
        Outs::Sids {
            domains,
            entries,
            mapped,
        } => ends_text(alloc, status, domains, entries.as_slice(), *mapped)?,
        Outs::Names {
            domains,
            entries,
            mapped,
        } => ends_text(alloc, status, domains, entries.as_slice(), *mapped)?,
        Outs::SidRefs {
            domains,
            entries,
            mapped,
        } => ends_text(alloc, status, domains, entries.as_slice(), *mapped)?,
        Outs::SidPage { context, sids } => {
            ends_text(alloc, status, &Seq::new(alloc), sids.as_slice(), *context)?
        }
        Outs::SidList(sids) => ends_text(alloc, status, &Seq::new(alloc), sids.as_slice(), 0)?,
        _ => String::new(alloc),
    };
    let mut words = String::new(alloc);
    add_words(&mut words, text.as_str())?;
    Ok(words)
}

/// Adds a word of a table: a SID as its value, and any other word as it stands.
fn spell_word(words: &mut String, alloc: Global, word: &str) -> Result<(), Fail> {
    if word.starts_with("S-1-") {
        let sid = format!(in alloc; "{:?}", parse_text(word)?)?;
        return add_words(words, sid.as_str());
    }
    add_words(words, word)
}

/// Adds a name of a table.
fn spell_name(words: &mut String, alloc: Global, text: &str) -> Result<(), Fail> {
    let name = format!(in alloc; "{:?}", name_of(alloc, text)?)?;
    add_words(words, name.as_str())
}

/// What a table spells: words, SIDs as texts, and names in quotes.
pub fn spelled(alloc: Global, text: &str) -> Result<String, Fail> {
    let mut words = String::new(alloc);
    for (i, piece) in text.split('\'').enumerate() {
        if i % 2 == 1 {
            spell_name(&mut words, alloc, piece)?;
        } else {
            for word in piece.split(' ') {
                spell_word(&mut words, alloc, word)?;
            }
        }
    }
    Ok(words)
}
