// The primitives of stubs, one after the other.
use crate::tests::digits::joined;
use ndr_core::{In, NdrError, Out};
use std::alloc::{AllocError, Global};
use std::test::Fail;

/// In each row a stub, and what stands in it: primitives and their numbers, a varying count by the most that it may be;
/// `align` passes over padding, and `place` tells where the next primitive is looked for. The stub is what is written
/// for them, but where the row begins with `<`. What can't be read is short or breaks a rule, at a place.
///
/// The reply's stub to SamrLookupNamesInDomain of two known names and an unknown one between: the RIDs, their uses, and
/// the status. The stub of a SamrSetInformationUser of the comment `hey` from its information class on, as an
/// independent program writes it. Numbers of several sizes, and the padding before each and at the end. Pointers,
/// of which a null one takes no referent, and any number but 0 is another.
///
/// A number's place is the one after its padding, whether or not the padding is there: beginnings of the comment.
/// Padding may pass the end. An offset, and a count above the limit, each at its own place. The rule of a caller's own
/// shape. Bytes, one after the other and without padding, told as the number whose highest byte is the first; zero
/// bytes are read at any place.
const PRIMITIVES: &str = "\
03000000 00000200 03000000 e8030000 00000000 e8030000 03000000 04000200 03000000 01000000 08000000 01000000 07010000\
|u32=3 pointer=1 conformant=3 u32=1000 u32=0 u32=1000 u32=3 pointer=1 conformant=3 u32=1 u32=8 u32=1 u32=263 place=52
0d000d00 06000600 00000200 03000000 00000000 03000000 68006500 7900\
|u16=13 u16=13 align=4 u16=6 u16=6 pointer=1 conformant=3 most3=3 u16=104 u16=101 u16=121 place=30
01000302 04000000 08070605 09000000|u8=1 u16=515 u8=4 u32=84281096 u8=9 align=8 place=16
00000000 00000200 04000200|pointer=0 pointer=1 pointer=1
<00000000 00000001|pointer=0 pointer=1
<0d|u8=13 u32=short4 place=1
<0d00|u8=13 u32=short4 place=1
<0d000d00|u8=13 u32=short4 place=1
<0d000d00 060006|u8=13 u32=short4 place=1
<07|u8=7 align=8 place=8 u8=short8 u16=short8 pointer=short8 conformant=short8
<01000000 03000000|most3=count0 place=0
<00000000 03000000|most2=count4 place=0
<00000000 030000|most2=short4 place=0
<000000|most2=short0 place=0
<00000500|align=2 u16=0 u16=5 broken=count2 place=4
07020304 08000000|u8=7 bytes3=131844 u32=8 place=8
<0702|u8=7 bytes3=short2 place=1
<07020304|u8=7 bytes3=131844 bytes3=short4 bytes0=0 place=4
<07|u8=7 align=8 bytes0=0 bytes3=short8 place=8";

/// A word of a row: its kind, and what it tells.
fn cut(word: &str) -> (&str, &str) {
    word.split_once('=').unwrap_or((word, ""))
}

/// The number of bytes, the highest first.
fn number_of(bytes: &[u8]) -> u32 {
    let mut number: u32 = 0;
    for byte in bytes {
        number = number.wrapping_mul(256) | u32::from(*byte);
    }
    number
}

/// Reads a primitive.
fn read(from: &mut In<'_>, kind: &str) -> Result<u32, NdrError> {
    match kind {
        "u8" => from.u8().map(u32::from),
        "u16" => from.u16().map(u32::from),
        "u32" => from.u32(),
        "pointer" => from.pointer().map(u32::from),
        "conformant" => from.conformant(),
        "bytes0" => from.bytes(0).map(number_of),
        "bytes3" => from.bytes(3).map(number_of),
        "most2" => from.varying(2),
        "most3" => from.varying(3),
        _ => Err(from.broken(2)),
    }
}

fn align(from: &mut In<'_>, multiple: &str) {
    match multiple {
        "2" => from.align(2),
        "4" => from.align(4),
        _ => from.align(8),
    }
}

/// Whether a text tells what has no reading, and its place.
fn tells_place(told: &str, kind: &str, place: usize) -> bool {
    told.strip_prefix(kind).unwrap_or("").parse::<usize>().ok() == Some(place)
}

/// Whether a text tells the number that was read, or why none was.
fn tells(told: &str, read: Result<u32, NdrError>) -> bool {
    match read {
        Ok(number) => told.parse::<u32>().ok() == Some(number),
        Err(NdrError::Short(place)) => tells_place(told, "short", place),
        Err(NdrError::Count(place)) => tells_place(told, "count", place),
        Err(NdrError::Memory) => false,
    }
}

/// Whether a word tells what stands next in a stub.
fn stands_next(from: &mut In<'_>, word: &str) -> bool {
    let (kind, told) = cut(word);
    match kind {
        "place" => tells_place(told, "", from.place()),
        "align" => {
            align(from, told);
            true
        }
        _ => tells(told, read(from, kind)),
    }
}

/// Whether words tell what stands in a stub.
fn are_read(stub: &[u8], words: &str) -> bool {
    let mut from = In::new(stub);
    for word in words.split(' ') {
        if !stands_next(&mut from, word) {
            return false;
        }
    }
    true
}

fn pad(to: &mut Out, multiple: u32) -> Result<(), AllocError> {
    match multiple {
        4 => to.align(4),
        _ => to.align(8),
    }
}

/// Writes a primitive or padding; of a place nothing.
fn write(to: &mut Out, kind: &str, number: u32) -> Result<(), AllocError> {
    match kind {
        "u8" => to.u8((number % 256) as u8),
        "u16" => to.u16((number % 65536) as u16),
        "u32" => to.u32(number),
        "pointer" => to.pointer(number != 0),
        "conformant" => to.conformant(number),
        "most3" => to.varying(number),
        "bytes3" => to.bytes(&number.to_be_bytes()[1..]),
        "align" => pad(to, number),
        _ => Ok(()),
    }
}

fn write_words(to: &mut Out, words: &str) -> Result<(), AllocError> {
    for word in words.split(' ') {
        let (kind, told) = cut(word);
        write(to, kind, told.parse::<u32>().unwrap_or(0))?;
    }
    Ok(())
}

/// Whether a stub is what is written for words.
fn is_written(alloc: Global, stub: &[u8], words: &str) -> Result<bool, AllocError> {
    let mut to = Out::new(alloc);
    write_words(&mut to, words)?;
    Ok(to.into_bytes().as_slice() == stub)
}

/// Whether a stub is read as what the words of its row say, and is written for them.
fn row_is_right(alloc: Global, row: &str) -> Result<bool, Fail> {
    let (stub, words) = row.split_once('|').unwrap_or((row, ""));
    let stub = joined(alloc, stub, "")?;
    Ok(are_read(&stub, words) && (row.starts_with('<') || is_written(alloc, &stub, words)?))
}

#[test]
fn primitives_are_read_and_written(rt: HostRuntime) -> Result<(), Fail> {
    for row in PRIMITIVES.lines() {
        assert!(rt; row_is_right(rt.alloc(), row)?, "{row}");
    }
    Ok(())
}

#[test]
fn refusals_tell_in_words(rt: HostRuntime) -> Result<(), Fail> {
    let told = format!(in rt.alloc(); "{}", NdrError::Count(8))?;
    assert!(rt; told.as_str() == "the number at byte 8 of the stub breaks a rule");
    Ok(())
}
