// The words of a row, its repeat signs, and whether it is told.
use std::alloc::Global;
use std::process::Abort;
use std::test::Fail;

/// The first word, and those after it.
pub fn word(text: &str) -> (&str, &str) {
    let text = text.trim();
    text.split_once(' ').unwrap_or((text, ""))
}

/// The first column, and those after it.
pub fn column(row: &str) -> (&str, &str) {
    row.split_once('|').unwrap_or((row, ""))
}

pub fn number(text: &str) -> u32 {
    text.trim().parse::<u32>().ok().unwrap_or(0)
}

pub fn domain_number(text: &str) -> u8 {
    text.trim().parse::<u8>().ok().unwrap_or(0)
}

/// Adds a text with a number in place of `#`.
fn push_numbered(
    whole: &mut String,
    alloc: Global,
    repeated: &str,
    number: u32,
) -> Result<(), Fail> {
    let digits = format!(in alloc; "{number}")?;
    let text = repeated.replace(alloc, "#", digits.as_str())?;
    whole.push_str(text.as_str())?;
    Ok(())
}

/// Adds a text and the repeat sign after it, where there is one.
fn push_piece(whole: &mut String, alloc: Global, piece: &str) -> Result<(), Fail> {
    let (text, sign) = piece.split_once('<').unwrap_or((piece, ""));
    let (bounds, repeated) = sign.split_once(':').unwrap_or(("", ""));
    let (first, last) = bounds.split_once('-').unwrap_or(("", ""));
    whole.push_str(text)?;
    for i in number(first)..=number(last) {
        push_numbered(whole, alloc, repeated, i)?;
    }
    Ok(())
}

/// A text in which each repeat sign is spelled out: `<8-10:a#,>` is `a8,a9,a10,`.
pub fn repeated(alloc: Global, text: &str) -> Result<String, Fail> {
    let mut whole = String::new(alloc);
    for piece in text.split('>') {
        push_piece(&mut whole, alloc, piece)?;
    }
    Ok(whole)
}

/// Asserts that what is told of a row is what it expects.
pub fn is_told(rt: &impl Abort, told: &str, wanted: &str, row: &str) {
    assert_eq!(rt; told, wanted, "{row}");
}

/// What stands before a sign in a text, and what stands after it.
pub fn split(text: &str, sign: char) -> (&str, &str) {
    text.split_once(sign).unwrap_or((text, ""))
}
