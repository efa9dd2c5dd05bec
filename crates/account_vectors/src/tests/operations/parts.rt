// The parts of a row, and the fields of a part.
use crate::tests::words::number;
use acct_calls::{Name, NoMemory};
use std::alloc::Global;

/// One of the parts of a text.
pub fn part(text: &str, separator: char, place: usize) -> &str {
    text.split(separator).nth(place).unwrap_or("")
}

/// One of the fields of a part.
pub fn field(fields: &str, place: usize) -> &str {
    part(fields, ',', place)
}

pub fn number_at(fields: &str, place: usize) -> u32 {
    number(field(fields, place))
}

/// The number of a domain.
pub fn domain_at(fields: &str, place: usize) -> u8 {
    u8::from(number_at(fields, place) == 1)
}

/// A name: its text, or how many units it has, and the unit in hexadecimal digits.
pub fn name_of(alloc: Global, text: &str) -> Result<Name, NoMemory> {
    match text.split_once('*') {
        Some((count, digits)) => {
            let unit = u16::from_str_radix(digits, 16).ok().unwrap_or(0);
            Ok(Name::from_units(vec![in alloc; unit; number(count) as usize]?))
        }
        None => Name::from_text(alloc, text),
    }
}

pub fn name_at(alloc: Global, fields: &str, place: usize) -> Result<Name, NoMemory> {
    name_of(alloc, field(fields, place))
}
