// Bytes in hexadecimal digits, and the parts of a line.
use std::alloc::Global;
use std::process::Abort;
use std::test::Fail;

/// The value of a hexadecimal digit.
fn digit_of(letter: u8) -> Option<u8> {
    match letter {
        b'0'..=b'9' => Some(letter - b'0'),
        b'a'..=b'f' => Some(letter - b'a' + 10),
        _ => None,
    }
}

/// Adds the bytes in digits. Capitals, by which the source of a stub is named, are none.
fn add_digits(bytes: &mut Vec<u8>, digits: &str) -> Result<(), Fail> {
    let mut high: Option<u8> = None;
    for letter in digits.bytes() {
        let Some(digit) = digit_of(letter) else {
            continue;
        };
        match high {
            None => high = Some(digit),
            Some(first) => {
                bytes.push(first.wrapping_mul(16) | digit)?;
                high = None;
            }
        }
    }
    Ok(())
}

/// How often a word `N*REST` repeats its rest, and the rest.
pub fn repeated(word: &str) -> (u32, &str) {
    let (times, rest) = word.split_once('*').unwrap_or(("1", word));
    (times.parse::<u32>().unwrap_or(0), rest)
}

/// Adds the bytes that a text spells: of each word `N*DIGITS` the digits so many times.
pub fn add_bytes(bytes: &mut Vec<u8>, text: &str) -> Result<(), Fail> {
    for word in text.split(' ') {
        let (times, digits) = repeated(word);
        for _ in 0..times {
            add_digits(bytes, digits)?;
        }
    }
    Ok(())
}

/// The bytes that a text spells.
pub fn bytes_of(alloc: Global, text: &str) -> Result<Vec<u8>, Fail> {
    let mut bytes = Vec::new(alloc);
    add_bytes(&mut bytes, text)?;
    Ok(bytes)
}

/// The bytes that two texts spell.
pub fn joined(alloc: Global, front: &str, rest: &str) -> Result<Vec<u8>, Fail> {
    let mut bytes = Vec::new(alloc);
    add_bytes(&mut bytes, front)?;
    add_bytes(&mut bytes, rest)?;
    Ok(bytes)
}

/// The number that a line begins with, and what stands after it.
pub fn numbered<'a>(rt: &impl Abort, line: &'a str) -> (u16, &'a str) {
    let (number, rest) = line.split_once(' ').unwrap_or((line, ""));
    match number.parse::<u16>() {
        Ok(number) => (number, rest),
        Err(_) => panic!(rt; "no number in front"),
    }
}

/// The first line of a text, and the lines after it.
pub fn cut(text: &str) -> (&str, &str) {
    text.split_once('\n').unwrap_or((text, ""))
}
