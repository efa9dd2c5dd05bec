// Lines of events and of what is written by their names, and the columns of a row.
use super::runs::{
    accounts, audits, later, limits, names, objects, rights, security, several, stores, tables,
};
use super::{calls, generated, serving};
use std::alloc::Global;
use std::test::Fail;

/// The text of a line that has a name.
pub fn line_in(lines: &'static str, name: &str) -> Option<&'static str> {
    for line in lines.lines() {
        let (known, text) = line.split_once(' ').unwrap_or((line, ""));
        if known == name {
            return Some(text);
        }
    }
    None
}

/// The text of a line that has a name, in the tables.
pub fn line_of(name: &str) -> &'static str {
    for lines in [
        accounts::LINES,
        audits::LINES,
        calls::LINES,
        generated::LINES,
        later::LINES,
        limits::LINES,
        names::LINES,
        objects::LINES,
        rights::LINES,
        security::LINES,
        serving::LINES,
        several::LINES,
        stores::LINES,
        tables::LINES,
    ] {
        if let Some(text) = line_in(lines, name) {
            return text;
        }
    }
    "a line without a name"
}

/// Texts, one after the other.
pub fn joined(alloc: Global, texts: &[&str]) -> Result<String, Fail> {
    let mut whole = String::new(alloc);
    for text in texts {
        whole.push_str(text)?;
    }
    Ok(whole)
}

/// The lines of these names, each with this end.
fn ended_by(alloc: Global, names: &str, end: &str) -> Result<String, Fail> {
    let mut text = String::new(alloc);
    for name in names.split_whitespace() {
        text.push_str(line_of(name))?;
        text.push_str(end)?;
    }
    Ok(text)
}

/// The lines of these names, each with its end.
pub fn lines_of(alloc: Global, names: &str) -> Result<String, Fail> {
    ended_by(alloc, names, "\n")
}

/// The first N bytes of lines, as `NAMES/N` says, or all of them.
pub fn front_of(alloc: Global, lines: &str) -> Result<String, Fail> {
    let (names, most) = lines.split_once('/').unwrap_or((lines, "65536"));
    let text = lines_of(alloc, names)?;
    let most = most.parse::<usize>().ok().unwrap_or(0).min(text.len());
    joined(alloc, &[text.as_str().get(..most).unwrap_or("")])
}

/// The bytes of lines of these names.
pub fn bytes_of(alloc: Global, names: &str) -> Result<Vec<u8>, Fail> {
    let digits = ended_by(alloc, names, "")?;
    Ok(hex::decode(alloc, digits.as_str().as_bytes())?)
}

/// A column of a row, and those after it.
pub fn column(row: &str) -> (&str, &str) {
    let (column, rest) = row.split_once('|').unwrap_or((row, ""));
    (column.trim(), rest)
}

/// The number that digits are, 0 where they are none.
pub fn number(digits: &str) -> u32 {
    digits.parse::<u32>().ok().unwrap_or(0)
}

/// Adds a text with the eight hexadecimal digits of a number in place of `#`.
fn push_numbered(
    whole: &mut String,
    alloc: Global,
    repeated: &str,
    number: u32,
) -> Result<(), Fail> {
    let digits = hex::encode(alloc, &number.to_be_bytes())?;
    let text = repeated.replace(alloc, "#", digits.as_str())?;
    whole.push_str(text.as_str())?;
    Ok(())
}

/// Adds a text and the repeat sign after it, where there is one.
fn push_piece(whole: &mut String, alloc: Global, piece: &str) -> Result<(), Fail> {
    let (text, sign) = piece.split_once('<').unwrap_or((piece, ""));
    let (bounds, repeated) = sign.split_once(':').unwrap_or(("", ""));
    let (first, last) = bounds.split_once('-').unwrap_or(("", ""));
    whole.push_str(text)?;
    for i in number(first)..=number(last) {
        push_numbered(whole, alloc, repeated, i)?;
    }
    Ok(())
}

/// A text in which each repeat sign is spelled out: `<9-10:a#>` is `a00000009a0000000a`.
pub fn repeated(alloc: Global, text: &str) -> Result<String, Fail> {
    let mut whole = String::new(alloc);
    for piece in text.split('>') {
        push_piece(&mut whole, alloc, piece)?;
    }
    Ok(whole)
}
