// Tables of stubs, told row by row.
use super::wires::{Heard, Outcome, Wire};
use super::words::spelled;
use crate::tests::digits::{cut, joined, numbered};
use std::alloc::Global;
use std::process::Abort;
use std::test::Fail;

/// A handle whose bytes differ, with attributes, which aren't kept.
const HANDLE_SENT: &str = "10111213 14151617 18191a1b 1c1d1e1f 20212223";

/// The same handle as it is written.
pub const HANDLE_WRITTEN: &str = "00000000 14151617 18191a1b 1c1d1e1f 20212223";

/// The number of its UUID.
const HANDLE: u128 = 0x1716_1514_1918_1b1a_1c1d_1e1f_2021_2223;

/// What a handle adds to a stub, where there is one.
pub fn handle_of(wire: Wire, opnum: u16, handle: &'static str) -> &'static str {
    if wire.has_handle(opnum) { handle } else { "" }
}

/// What a row says of its first stub.
#[derive(Clone, Copy)]
pub struct Row<'a> {
    pub wire: Wire,
    pub opnum: u16,
    pub words: &'a str,
    pub written: &'a [u8],
}

impl Row<'_> {
    /// The number of the handle that the first stub begins with.
    fn handle(&self) -> u128 {
        if self.wire.has_handle(self.opnum) {
            HANDLE
        } else {
            0
        }
    }

    /// What was read of a stub that differs from what the row says; nothing where it is the same.
    fn difference(&self, heard: &Heard) -> &'static str {
        match heard {
            Heard::Value { handle, .. } if *handle != self.handle() => "another handle",
            Heard::Value { words, .. } if words.as_str() != self.words => "other words",
            Heard::Value { written, .. } if written.as_slice() != self.written => "another stub",
            Heard::Value { .. } => "",
            _ => "no value",
        }
    }
}

/// A stub is read as what the words say, which is written as the first stub.
pub fn stub_is_right(
    rt: &impl Abort,
    alloc: Global,
    row: &Row<'_>,
    stub: &[u8],
) -> Result<(), Fail> {
    let heard = row.wire.heard(alloc, row.opnum, stub)?;
    let difference = row.difference(&heard);
    drop(heard);
    assert!(rt; difference.is_empty(), "{difference}: {}", row.words);
    Ok(())
}

/// The place of the first field that so many bytes don't hold: a digit is a field of so many bytes, a dot a byte of
/// padding before a field.
fn place_in(fields: &str, length: usize) -> usize {
    let mut place: usize = 0;
    for letter in fields.bytes() {
        match letter {
            b'.' => place = place.wrapping_add(1),
            b'1'..=b'9' => {
                let end = place.wrapping_add(usize::from(letter - b'0'));
                if end > length {
                    return place;
                }
                place = end;
            }
            _ => (),
        }
    }
    place
}

/// A stub is bad at the place.
pub fn is_bad(
    alloc: Global,
    wire: Wire,
    opnum: u16,
    stub: &[u8],
    place: usize,
) -> Result<bool, Fail> {
    Ok(match wire.outcome(alloc, opnum, stub)? {
        Outcome::Bad(bad) | Outcome::Short(bad) => bad == place,
        _ => false,
    })
}

/// Each beginning of the first stub is bad at the place of the first field that it doesn't hold.
pub fn beginnings_are_bad(
    rt: &impl Abort,
    alloc: Global,
    row: &Row<'_>,
    fields: &str,
) -> Result<(), Fail> {
    let stub = row.written;
    assert!(rt; place_in(fields, stub.len()) == stub.len());
    for length in 0..stub.len() {
        let bad = is_bad(
            alloc,
            row.wire,
            row.opnum,
            &stub[..length],
            place_in(fields, length),
        )?;
        assert!(rt; bad, "{length} bytes of {}", row.words);
    }
    Ok(())
}

/// Further stubs of the same value. It counts them.
fn others_are_right(
    rt: &impl Abort,
    alloc: Global,
    row: &Row<'_>,
    others: &str,
) -> Result<u32, Fail> {
    let mut count: u32 = 0;
    for line in others.lines() {
        let stub = joined(alloc, handle_of(row.wire, row.opnum, HANDLE_SENT), line)?;
        stub_is_right(rt, alloc, row, &stub)?;
        count = count.wrapping_add(1);
    }
    Ok(count)
}

/// Each stub of a row is read as the value, which is written as the first of them, and each beginning of that one is
/// bad at its place. It counts the stubs.
fn stubs_are_right(
    rt: &impl Abort,
    alloc: Global,
    row: &Row<'_>,
    fields: &str,
    others: &str,
) -> Result<u32, Fail> {
    stub_is_right(rt, alloc, row, row.written)?;
    beginnings_are_bad(rt, alloc, row, fields)?;
    Ok(others_are_right(rt, alloc, row, others)?.wrapping_add(1))
}

/// A row of a table, whose stubs are right. It counts them.
fn row_is_right(rt: &impl Abort, alloc: Global, wire: Wire, text: &str) -> Result<u32, Fail> {
    let (opnum, rest) = numbered(rt, text);
    let (_, rest) = cut(rest);
    let (words, rest) = cut(rest);
    let (fields, rest) = cut(rest);
    let (first, others) = cut(rest);
    let written = joined(alloc, handle_of(wire, opnum, HANDLE_WRITTEN), first)?;
    let words = spelled(alloc, words)?;
    let row = Row {
        wire,
        opnum,
        words: words.as_str(),
        written: &written,
    };
    stubs_are_right(rt, alloc, &row, fields, others)
}

/// A table whose rows are all right. It counts the rows and their stubs.
///
/// A row has the opnum and the operation, the value in words, the fields of the first stub (a digit for each, of so
/// many bytes, and a dot for each byte of padding), the first stub, and others of the same value; of a call with a
/// handle these are what stands after it.
pub fn table_is_right(
    rt: &impl Abort,
    alloc: Global,
    wire: Wire,
    table: &str,
) -> Result<(u32, u32), Fail> {
    let mut rows: u32 = 0;
    let mut stubs: u32 = 0;
    for row in table.trim().split("\n\n") {
        stubs = stubs.wrapping_add(row_is_right(rt, alloc, wire, row)?);
        rows = rows.wrapping_add(1);
    }
    Ok((rows, stubs))
}
