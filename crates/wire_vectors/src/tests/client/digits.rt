// Bytes in hexadecimal digits, and words.
use crate::tests::digits::{add_bytes, repeated};
use std::alloc::Global;
use std::test::Fail;

/// The bind of both interfaces.
const BIND: &str =
    "05000b03 10000000 74000000 01000000 b810b810 00000000 02000000 00000100 78573412 3412cdab ef000123 \
    456789ac 01000000 045d888a eb1cc911 9fe80800 2b104860 02000000 01000100 78573412 3412cdab ef000123 456789ab \
    00000000 045d888a eb1cc911 9fe80800 2b104860 02000000";

/// Its answer, with both contexts accepted and fragments of 4,280 bytes.
const ACK: &str =
    "05000c03 10000000 50000000 01000000 b810b810 01000000 01000000 02000000 00000000 045d888a eb1cc911 \
    9fe80800 2b104860 02000000 00000000 045d888a eb1cc911 9fe80800 2b104860 02000000";

/// Adds the bytes of a row: `BIND` and `ACK` stand for those above.
pub fn add_row(bytes: &mut Vec<u8>, row: &str) -> Result<(), Fail> {
    match row {
        "BIND" => add_bytes(bytes, BIND),
        "ACK" => add_bytes(bytes, ACK),
        _ => add_bytes(bytes, row),
    }
}

/// The bytes of a row.
pub fn bytes_of(alloc: Global, row: &str) -> Result<Vec<u8>, Fail> {
    let mut bytes = Vec::new(alloc);
    add_row(&mut bytes, row)?;
    Ok(bytes)
}

/// The word that `N*REST` stands for.
fn word_of(alloc: Global, word: &str) -> Result<String, Fail> {
    let (times, rest) = repeated(word);
    let mut text = String::new(alloc);
    for _ in 0..times {
        text.push_str(rest)?;
    }
    Ok(text)
}

/// The words of a row.
pub fn words_of(alloc: Global, row: &str) -> Result<Vec<String>, Fail> {
    let mut words = Vec::new(alloc);
    for word in row.split(' ') {
        words.push(word_of(alloc, word)?)?;
    }
    Ok(words)
}
