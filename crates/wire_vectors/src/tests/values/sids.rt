// Texts and bytes of well-known SIDs (MS-DTYP 2.4.2.4), and of others as Samba 4.17 packs them.
use super::lines::tells;
use dtyp_sid::{BadText, BytesError, Sid, SidError, laws, parse_text};
use std::alloc::Global;
use std::collections::HashMap;
use std::test::Fail;

fn has_text(alloc: Global, sid: &Sid, text: &str) -> Result<bool, Fail> {
    Ok(sid.text(alloc)?.as_str() == text)
}

/// Whether a SID is written as these bytes, and the last byte of the room stays as it was, except for the longest.
fn is_written(sid: &Sid, bytes: &[u8]) -> bool {
    let mut out = [0xEE; 68];
    let count = sid.to_bytes(&mut out);
    out.get(..count) == Some(bytes) && (count == 68 || out[67] == 0xEE)
}

fn is_read(sid: &Sid, bytes: &[u8]) -> bool {
    match Sid::from_bytes(bytes) {
        Ok(read) => read == *sid,
        Err(_) => false,
    }
}

/// Whether a text and bytes spell the same SID, and the text is the written one.
fn spell_one(alloc: Global, text: &str, bytes: &[u8]) -> Result<bool, Fail> {
    let sid = parse_text(text)?;
    Ok(is_written(&sid, bytes) && is_read(&sid, bytes) && has_text(alloc, &sid, text)?)
}

/// The longest SID, with its text in as many digits as there can be.
const LONGEST: &str =
    "S-1-5-4294967295-4294967295-4294967295-4294967295-4294967295-4294967295-4294967295-4294967295\
    -4294967295-4294967295-4294967295-4294967295-4294967295-4294967295-4294967295";

const LONGEST_BYTES: &[u8] = b"\x01\x0f\x00\x00\x00\x00\x00\x05\
    \xff\xff\xff\xff\xff\xff\xff\xff\xff\xff\xff\xff\xff\xff\xff\xff\xff\xff\xff\xff\xff\xff\xff\xff\xff\xff\xff\xff\
    \xff\xff\xff\xff\xff\xff\xff\xff\xff\xff\xff\xff\xff\xff\xff\xff\xff\xff\xff\xff\xff\xff\xff\xff\xff\xff\xff\xff\
    \xff\xff\xff\xff";

#[test]
fn texts_and_bytes_spell_one_sid(rt: HostRuntime) -> Result<(), Fail> {
    for (text, bytes) in [
        (
            "S-1-5-21-1-2-3",
            b"\x01\x04\x00\x00\x00\x00\x00\x05\x15\x00\x00\x00\
            \x01\x00\x00\x00\x02\x00\x00\x00\x03\x00\x00\x00"
                .as_slice(),
        ),
        (
            "S-1-1-0",
            b"\x01\x01\x00\x00\x00\x00\x00\x01\x00\x00\x00\x00",
        ),
        (
            "S-1-5-32-544",
            b"\x01\x02\x00\x00\x00\x00\x00\x05\x20\x00\x00\x00\x20\x02\x00\x00",
        ),
        (
            "S-1-16-12288",
            b"\x01\x01\x00\x00\x00\x00\x00\x10\x00\x30\x00\x00",
        ),
        (
            "S-1-5-80-956008885-3418522649-1831038044-1853292631-2271478464",
            b"\x01\x06\x00\x00\x00\x00\x00\x05\x50\x00\x00\x00\
            \xb5\x89\xfb\x38\x19\x84\xc2\xcb\x5c\x6c\x23\x6d\x57\x00\x77\x6e\xc0\x02\x64\x87",
        ),
        (
            "S-1-5-21-4294967295-0-1-500",
            b"\x01\x05\x00\x00\x00\x00\x00\x05\x15\x00\x00\x00\
            \xff\xff\xff\xff\x00\x00\x00\x00\x01\x00\x00\x00\xf4\x01\x00\x00",
        ),
        ("S-1-5", b"\x01\x00\x00\x00\x00\x00\x00\x05"),
        (LONGEST, LONGEST_BYTES),
    ] {
        assert!(rt; spell_one(rt.alloc(), text, bytes)?, "{text}");
    }
    Ok(())
}

#[test]
fn large_authorities_are_in_hexadecimal(rt: HostRuntime) -> Result<(), Fail> {
    for (text, bytes) in [
        (
            "S-1-0x000100000000-7",
            b"\x01\x01\x00\x01\x00\x00\x00\x00\x07\x00\x00\x00".as_slice(),
        ),
        (
            "S-1-0xfedcba987654-7-8",
            b"\x01\x02\xfe\xdc\xba\x98\x76\x54\x07\x00\x00\x00\x08\x00\x00\x00",
        ),
        (
            "S-1-0xffffffffffff-1",
            b"\x01\x01\xff\xff\xff\xff\xff\xff\x01\x00\x00\x00",
        ),
    ] {
        assert!(rt; spell_one(rt.alloc(), text, bytes)?, "{text}");
    }
    Ok(())
}

/// Whether two texts spell the same SID, whose text is the second.
fn is_text_of(alloc: Global, text: &str, written: &str) -> Result<bool, Fail> {
    let sid = parse_text(text)?;
    Ok(sid == parse_text(written)? && has_text(alloc, &sid, written)?)
}

/// The hexadecimal form is read for every authority, and written from 2^32 on alone.
#[test]
fn authorities_are_read_in_both_forms(rt: HostRuntime) -> Result<(), Fail> {
    for (text, written) in [
        ("S-1-0xFEDCBA987654-7-8", "S-1-0xfedcba987654-7-8"),
        ("S-1-0x000000000005-18", "S-1-5-18"),
        ("S-1-0x0000ffffffff-1", "S-1-4294967295-1"),
    ] {
        assert!(rt; is_text_of(rt.alloc(), text, written)?, "{text}");
    }
    Ok(())
}

fn breaks_at(text: &str, place: usize) -> bool {
    match parse_text(text) {
        Ok(_) => false,
        Err(bad) => bad.place == place,
    }
}

#[test]
fn bad_texts_break_at_a_place(rt: HostRuntime) {
    for (text, place) in [
        ("", 0),
        ("s-1-5", 0),
        ("S-1", 3),
        ("S-2-5", 2),
        ("S-1-", 4),
        ("S-1--5", 4),
        ("S-1-05", 5),
        ("S-1-5-", 6),
        ("S-1-5-4294967296", 15),
        ("S-1-5-00", 7),
        ("S-1-5-1 ", 7),
        ("S-1-5-1-1-1-1-1-1-1-1-1-1-1-1-1-1-1-1", 35),
        ("S-1-4294967296", 13),
        ("S-1-0x", 6),
        ("S-1-0X000000000005", 5),
        ("S-1-0x00000000000", 17),
        ("S-1-0x0000000000000", 18),
        ("S-1-0x00000000000g", 17),
        ("S-1-5x", 5),
    ] {
        assert!(rt; breaks_at(text, place), "{text}");
    }
}

fn is_refused(bytes: &[u8], why: BytesError) -> bool {
    match Sid::from_bytes(bytes) {
        Ok(_) => false,
        Err(error) => error == why,
    }
}

#[test]
fn bytes_without_a_sid_are_refused(rt: HostRuntime) {
    for (bytes, why) in [
        (b"".as_slice(), BytesError::Short),
        (b"\x02\x10\x00\x00\x00\x00\x00", BytesError::Short),
        (b"\x02\x10\x00\x00\x00\x00\x00\x05", BytesError::Revision),
        (b"\x01\x10\x00\x00\x00\x00\x00\x05", BytesError::Count),
        (
            b"\x01\x01\x00\x00\x00\x00\x00\x05\x12\x00\x00",
            BytesError::Short,
        ),
    ] {
        assert!(rt; is_refused(bytes, why));
    }
}

/// Bytes after a SID are not looked at.
#[test]
fn bytes_behind_a_sid(rt: HostRuntime) -> Result<(), Fail> {
    let sid = parse_text("S-1-5-18")?;
    assert!(rt;
        is_read(
            &sid,
            b"\x01\x01\x00\x00\x00\x00\x00\x05\x12\x00\x00\x00\xff"
        )
    );
    Ok(())
}

#[test]
fn parts_make_a_sid(rt: HostRuntime) {
    assert!(rt; Sid::new(5, &[18]).ok() == parse_text("S-1-5-18").ok());
    assert!(rt; Sid::new((1 << 48) - 1, &[0; 15]).is_ok());
    assert!(rt; Sid::new(1 << 48, &[]) == Err(SidError::AuthorityRange));
    assert!(rt; Sid::new(1 << 48, &[0; 16]) == Err(SidError::TooMany));
}

/// Whether the last number is split off a SID, and put back after the others.
fn is_split(sid: &Sid, front: &Sid, last: u32) -> bool {
    match sid.split_rid() {
        Some((domain, rid)) => {
            rid == last && domain == *front && domain.with_rid(rid) == Some(*sid)
        }
        None => false,
    }
}

#[test]
fn the_last_number_is_split_off_and_put_back(rt: HostRuntime) -> Result<(), Fail> {
    let front = parse_text("S-1-5-21-1-2-3")?;
    assert!(rt; is_split(&parse_text("S-1-5-21-1-2-3-500")?, &front, 500));
    assert!(rt; parse_text("S-1-5")?.split_rid().is_none());
    let full = parse_text("S-1-5-1-2-3-4-5-6-7-8-9-10-11-12-13-14-15")?;
    assert!(rt; full.with_rid(16).is_none());
    Ok(())
}

#[test]
fn refusals_tell_in_words(rt: HostRuntime) -> Result<(), Fail> {
    let bad = "no text of a SID goes on as this one does from byte 7 on";
    assert!(rt; tells(rt.alloc(), &BadText { place: 7 }, bad)?);
    let count = "there are more than 15 sub-authorities";
    assert!(rt; tells(rt.alloc(), &BytesError::Count, count)?);
    Ok(())
}

#[test]
fn parts_are_seen(rt: HostRuntime) -> Result<(), Fail> {
    let sid = parse_text("S-1-5-32-544")?;
    assert!(rt; sid.authority() == 5);
    assert!(rt; sid.subs() == [32, 544].as_slice());
    sid.keeps_limits();
    Ok(())
}

#[test]
fn sids_are_ordered_by_authority_and_then_as_lists(rt: HostRuntime) {
    let below = |left: &str, right: &str| match (parse_text(left), parse_text(right)) {
        (Ok(left), Ok(right)) => left < right,
        _ => false,
    };
    assert!(rt; below("S-1-1-9", "S-1-5-1"));
    assert!(rt; below("S-1-5-9", "S-1-256-1"));
    assert!(rt; below("S-1-5-1-256", "S-1-5-2"));
    assert!(rt; below("S-1-5-21", "S-1-5-21-0"));
    assert!(rt; !below("S-1-5-21-0", "S-1-5-21-0"));
}

/// The number of a SID's text, where it has one.
fn number_of(numbers: &HashMap<Sid, u32>, text: &str) -> Result<Option<u32>, Fail> {
    Ok(numbers.get(&parse_text(text)?).copied())
}

#[test]
fn a_sid_is_a_key(rt: HostRuntime) -> Result<(), Fail> {
    let mut numbers = HashMap::new(rt.alloc());
    numbers.insert(parse_text("S-1-1-0")?, 1)?;
    numbers.insert(parse_text("S-1-5-18")?, 2)?;
    assert!(rt; number_of(&numbers, "S-1-0x000000000005-18")? == Some(2));
    assert!(rt; number_of(&numbers, "S-1-5-19")?.is_none());
    Ok(())
}

#[test]
fn laws_do_nothing() {
    laws::texts_are_of_one();
    laws::written_texts_are_texts();
    laws::written_texts_differ();
    laws::read_texts_are_texts();
    laws::written_bytes_are_read();
    laws::written_bytes_have_lengths();
    laws::read_bytes_are_written();
    laws::equal_sids_are_one();
}
