// Descriptors as Samba 4.17 packs them (revision 2 set on their lists), and accesses as MS-DTYP 2.5.3 decides them.
// SIDs and entries are written as in the SDDL, except for the order of an entry's fields.
use super::lines::{cut, tells};
use acct_codes::Kind;
use acct_codes::standard_rights::{
    ACCESS_SYSTEM_SECURITY, DELETE, GENERIC_ALL, READ_CONTROL, WRITE_DAC,
};
use dtyp_access::{
    Ace, AceKind, Acl, DescError, Descriptor, Token, has_few_aces, is_granted, laws, make_acl,
    make_token, opening, read_descriptor, write_descriptor,
};
use dtyp_sid::{Sid, parse_text};
use std::alloc::Global;
use std::test::Fail;

pub fn sid_of(word: &str) -> Result<Sid, Fail> {
    let text = match word {
        "WD" => "S-1-1-0",
        "SY" => "S-1-5-18",
        "BA" => "S-1-5-32-544",
        "BU" => "S-1-5-32-545",
        other => other,
    };
    match parse_text(text) {
        Ok(sid) => Ok(sid),
        Err(_) => Err(Fail::from("no SID")),
    }
}

fn hexadecimal(word: &str) -> Result<u32, Fail> {
    let number = u32::from_str_radix(word, 16).ok().ok_or("no number")?;
    Ok(number)
}

/// An entry, as kind, flags, mask and SID.
fn ace_of(text: &str) -> Result<Ace, Fail> {
    let (kind, others) = cut(text, ';');
    let (flags, others) = cut(others, ';');
    let (mask, sid) = cut(others, ';');
    let kind = if kind == "A" {
        AceKind::Allow
    } else {
        AceKind::Deny
    };
    Ok(Ace {
        kind,
        flags: flags.parse::<u8>().ok().ok_or("no flags")?,
        mask: hexadecimal(mask)?,
        sid: sid_of(sid)?,
    })
}

/// A list of entries, or none for a dash.
pub fn acl_of(alloc: Global, text: &str) -> Result<Option<Acl>, Fail> {
    if text == "-" {
        return Ok(None);
    }
    let mut aces = Vec::new(alloc);
    for word in text.split_ascii_whitespace() {
        aces.push(ace_of(word)?)?;
    }
    Ok(Some(make_acl(alloc, &aces)?))
}

/// A descriptor, as owner, group and entries.
pub fn descriptor_of(alloc: Global, text: &str) -> Result<Descriptor, Fail> {
    let (owner, others) = cut(text, '|');
    let (group, aces) = cut(others, '|');
    let group = if group == "-" {
        None
    } else {
        Some(sid_of(group)?)
    };
    Ok(Descriptor {
        owner: sid_of(owner)?,
        group,
        acl: acl_of(alloc, aces)?,
    })
}

fn token_of(alloc: Global, text: &str) -> Result<Token, Fail> {
    let mut sids = Vec::new(alloc);
    for word in text.split_ascii_whitespace() {
        sids.push(sid_of(word)?)?;
    }
    Ok(make_token(alloc, &sids)?)
}

fn kind_of(word: &str) -> Kind {
    match word {
        "server" => Kind::Server,
        "domain" => Kind::Domain,
        "group" => Kind::Group,
        "policy" => Kind::Policy,
        _ => Kind::User,
    }
}

/// In each line what is asked and what is granted, in hexadecimal digits, the kind of the object, the SIDs of the
/// token, and the descriptor. A dash is a refusal.
///
/// Deny before allow, and allow before deny (the server has no bit 0x40, and nobody is granted the auditing list);
/// entries that name nothing; an empty list and none; and what each generic bit, as the standard prints it, stands for
/// at a domain.
const OPENINGS: &str = "\
10 -|server|WD BU|SY|-|D;0;10;BU A;0;F003F;WD
20 20|server|WD BU|SY|-|D;0;10;BU A;0;F003F;WD
2000000 F002F|server|WD BU|SY|-|D;0;10;BU A;0;F003F;WD
2000010 -|server|WD BU|SY|-|D;0;10;BU A;0;F003F;WD
0 0|server|WD BU|SY|-|D;0;10;BU A;0;F003F;WD
10 10|server|WD BU|SY|-|A;0;F003F;WD D;0;10;BU
80000000 20010|server|WD BU|SY|-|A;0;F003F;WD D;0;10;BU
10000000 F003F|server|WD BU|SY|-|A;0;F003F;WD D;0;10;BU
40 -|server|WD BU|SY|-|A;0;F003F;WD D;0;10;BU
1000000 -|server|WD BU|SY|-|A;0;F003F;WD D;0;10;BU
2000000 0|group|WD BU|SY|-|A;8;1;WD A;0;12000000;WD A;0;2;BA
2000000 60000|user|SY|SY|-|
2000000 F07FF|user|SY|WD|-|-
10000000 F07FF|domain|SY|WD|-|-
20000000 20301|domain|SY|WD|-|-
40000000 2047A|domain|SY|WD|-|-
80000000 20084|domain|SY|WD|-|-";

/// Who asks, and the descriptor of what is asked for.
fn token_and_descriptor(
    alloc: Global,
    sids: &str,
    text: &str,
) -> Result<(Token, Descriptor), Fail> {
    let token = token_of(alloc, sids)?;
    match descriptor_of(alloc, text) {
        Ok(d) => Ok((token, d)),
        Err(fail) => {
            drop(token);
            Err(fail)
        }
    }
}

/// Whether the first two words are what an opening of the others asks for and is granted.
fn is_opened(alloc: Global, line: &str) -> Result<bool, Fail> {
    let (masks, others) = cut(line, '|');
    let (kind, others) = cut(others, '|');
    let (sids, text) = cut(others, '|');
    let (asked, granted) = cut(masks, ' ');
    let asked = hexadecimal(asked)?;
    let (token, d) = token_and_descriptor(alloc, sids, text)?;
    let opened = opening(kind_of(kind), &d, &token, asked);
    drop(d);
    drop(token);
    Ok(opened == u32::from_str_radix(granted, 16).ok())
}

#[test]
fn objects_are_opened(rt: HostRuntime) -> Result<(), Fail> {
    for line in OPENINGS.lines() {
        assert!(rt; is_opened(rt.alloc(), line)?, "{line}");
    }
    Ok(())
}

/// Which of five rights are granted.
fn rights(token: &Token, d: &Descriptor) -> [bool; 5] {
    [
        is_granted(token, d, GENERIC_ALL),
        is_granted(token, d, DELETE),
        is_granted(token, d, READ_CONTROL),
        is_granted(token, d, WRITE_DAC),
        is_granted(token, d, ACCESS_SYSTEM_SECURITY),
    ]
}

fn rights_of(alloc: Global, sids: &str, text: &str) -> Result<[bool; 5], Fail> {
    let (token, d) = token_and_descriptor(alloc, sids, text)?;
    Ok(rights(&token, &d))
}

/// Entries that name nothing; the owner, who reads and changes the descriptor whatever it denies; and no list, which
/// grants all but the auditing list (MS-DTYP 2.5.3.2).
#[test]
fn rights_are_granted(rt: HostRuntime) -> Result<(), Fail> {
    for (sids, text, granted) in [
        (
            "WD BU",
            "SY|-|A;8;1;WD A;0;12000000;WD A;0;2;BA",
            [false; 5],
        ),
        (
            "SY",
            "SY|-|D;0;FFFFFFFF;SY",
            [false, false, true, true, false],
        ),
        ("SY", "WD|-|-", [true, true, true, true, false]),
    ] {
        assert!(rt; rights_of(rt.alloc(), sids, text)? == granted, "{text}");
    }
    Ok(())
}

/// The bytes in hexadecimal digits.
pub fn bytes_of(alloc: Global, text: &str) -> Result<Vec<u8>, Fail> {
    let mut bytes = Vec::new(alloc);
    let mut high: Option<u8> = None;
    for letter in text.bytes() {
        let digit = match letter {
            b'0'..=b'9' => letter - b'0',
            b'a'..=b'f' => letter - b'a' + 10,
            _ => continue,
        };
        match high {
            None => high = Some(digit),
            Some(first) => {
                bytes.push(first.wrapping_mul(16) | digit)?;
                high = None;
            }
        }
    }
    Ok(bytes)
}

const ONE: &str =
    "01000480 14000000 00000000 00000000 20000000 01010000 00000005 12000000 02001c00 01000000 00001400 10000000 \
    01010000 00000001 00000000";

const THREE: &str =
    "01000480 14000000 24000000 00000000 30000000 01020000 00000005 20000000 20020000 01010000 00000005 12000000 \
    02004800 03000000 01001800 10000000 01020000 00000005 20000000 21020000 00001400 3f000f00 01010000 00000001 \
    00000000 00081400 02000000 01010000 00000005 12000000";

/// The same with a group, for which the owner's SID stands too.
const SHARED: &str =
    "01000480 14000000 14000000 00000000 20000000 01010000 00000005 12000000 02001c00 01000000 \
    00001400 10000000 01010000 00000001 00000000";

/// `O:SYD:(A;CIOI;GA;;;BA)S:(AU;SA;WD;;;WD)`, whose auditing list has revision 4 and stands before the other.
const AUDITED: &str =
    "01001480 14000000 00000000 20000000 3c000000 01010000 00000005 12000000 04001c00 01000000 02401400 00000400 \
    01010000 00000001 00000000 02002000 01000000 00031800 00000010 01020000 00000005 20000000 20020000";

/// `O:SY`.
const NO_LIST: &str = "01000080 14000000 00000000 00000000 00000000 01010000 00000005 12000000";

pub fn are_equal(left: &Descriptor, right: &Descriptor) -> bool {
    let lists = match (&left.acl, &right.acl) {
        (None, None) => true,
        (Some(left), Some(right)) => left.aces() == right.aces(),
        _ => false,
    };
    left.owner == right.owner && left.group == right.group && lists
}

fn reads(alloc: Global, bytes: &[u8], d: &Descriptor) -> bool {
    match read_descriptor(alloc, bytes) {
        Ok(read) => are_equal(&read, d),
        Err(_) => false,
    }
}

fn is_read(alloc: Global, bytes: &[u8], text: &str) -> Result<bool, Fail> {
    let d = descriptor_of(alloc, text)?;
    Ok(reads(alloc, bytes, &d))
}

fn writes(alloc: Global, d: &Descriptor, bytes: &[u8]) -> Result<bool, Fail> {
    if !has_few_aces(&d.acl) {
        return Ok(false);
    }
    Ok(write_descriptor(alloc, d)?.as_slice() == bytes)
}

fn is_written(alloc: Global, bytes: &[u8], text: &str) -> Result<bool, Fail> {
    let d = descriptor_of(alloc, text)?.copy(alloc)?;
    writes(alloc, &d, bytes)
}

/// Whether bytes are read as a descriptor, and are those that it is written in, or aren't.
fn are_those_of(alloc: Global, bytes: &[u8], text: &str, same: bool) -> Result<bool, Fail> {
    Ok(is_read(alloc, bytes, text)? && is_written(alloc, bytes, text)? == same)
}

fn is_packed(alloc: Global, packed: &str, text: &str, same: bool) -> Result<bool, Fail> {
    let bytes = bytes_of(alloc, packed)?;
    are_those_of(alloc, &bytes, text, same)
}

#[test]
fn descriptors_are_written_and_read(rt: HostRuntime) -> Result<(), Fail> {
    for (packed, text, same) in [
        (ONE, "SY|-|A;0;10;WD", true),
        (THREE, "BA|SY|D;0;10;BU A;0;F003F;WD A;8;2;SY", true),
        (SHARED, "SY|SY|A;0;10;WD", false),
        (AUDITED, "SY|-|A;3;10000000;BA", false),
        (NO_LIST, "SY|-|-", true),
    ] {
        assert!(rt; is_packed(rt.alloc(), packed, text, same)?, "{text}");
    }
    Ok(())
}

/// Whether the bytes of one entry, with a byte changed and cut to a length, are refused so.
fn is_refused(
    alloc: Global,
    place: usize,
    byte: u8,
    length: usize,
    why: DescError,
) -> Result<bool, Fail> {
    let mut bytes = bytes_of(alloc, SHARED)?;
    if let Some(at) = bytes.get_mut(place) {
        *at = byte;
    }
    match read_descriptor(alloc, bytes.get(..length).unwrap_or_default()) {
        Ok(_) => Ok(false),
        Err(refusal) => Ok(refusal == why),
    }
}

/// An offset at the end is not past it, but no SID stands there. A list whose size is below its own header is taken
/// where it has no entry.
#[test]
fn each_refusal_has_its_place(rt: HostRuntime) -> Result<(), Fail> {
    for (place, byte, length, why) in [
        (0, 1, 19, DescError::Short(0)),
        (0, 2, 60, DescError::Revision(0)),
        (3, 0, 60, DescError::Offset(2)),
        (4, 19, 60, DescError::Offset(4)),
        (4, 61, 60, DescError::Offset(4)),
        (4, 60, 60, DescError::Sid(60)),
        (20, 2, 60, DescError::Sid(20)),
        (8, 1, 60, DescError::Offset(8)),
        (8, 33, 60, DescError::Sid(33)),
        (16, 61, 60, DescError::Offset(16)),
        (16, 60, 60, DescError::Short(60)),
        (34, 29, 60, DescError::Short(32)),
        (32, 4, 60, DescError::Revision(32)),
        (36, 2, 60, DescError::Short(60)),
        (42, 15, 60, DescError::Short(40)),
        (42, 21, 60, DescError::Short(40)),
        (40, 2, 60, DescError::AceType(40)),
        (49, 2, 60, DescError::Sid(48)),
        (34, 7, 60, DescError::Short(40)),
    ] {
        assert!(rt;
            is_refused(rt.alloc(), place, byte, length, why)?,
            "{place}"
        );
    }
    Ok(())
}

fn allowing(mask: u32, sid: Sid) -> Ace {
    Ace {
        kind: AceKind::Allow,
        flags: 0,
        mask,
        sid,
    }
}

/// Entries that allow a SID 0, 1, 2 and so on.
pub fn long_acl(alloc: Global, sid: Sid, count: u32) -> Result<Acl, Fail> {
    let mut aces = Vec::new(alloc);
    for mask in 0..count {
        aces.push(allowing(mask, sid))?;
    }
    Ok(Acl::from_vec(aces))
}

/// A descriptor whose owner and entries are of a SID of 15 sub-authorities.
fn long_list(alloc: Global, count: u32) -> Result<Descriptor, Fail> {
    let full = sid_of("S-1-5-1-2-3-4-5-6-7-8-9-10-11-12-13-14-15")?;
    Ok(Descriptor {
        owner: full,
        group: None,
        acl: Some(long_acl(alloc, full, count)?),
    })
}

/// The number of bytes that the descriptor is written in, where it is read back.
fn written_length(alloc: Global, d: &Descriptor) -> Result<usize, Fail> {
    if !has_few_aces(&d.acl) {
        return Ok(0);
    }
    let bytes = write_descriptor(alloc, d)?;
    Ok(if reads(alloc, &bytes, d) {
        bytes.len()
    } else {
        0
    })
}

/// What the longest SID is granted at most.
fn most_granted(alloc: Global, d: &Descriptor) -> Result<Option<u32>, Fail> {
    let token = token_of(alloc, "S-1-5-1-2-3-4-5-6-7-8-9-10-11-12-13-14-15")?;
    Ok(opening(Kind::Policy, d, &token, 0x0200_0000))
}

fn copy_is_equal(alloc: Global, d: &Descriptor) -> Result<bool, Fail> {
    Ok(are_equal(&d.copy(alloc)?, d))
}

/// Whether a descriptor is written in so many bytes, grants what all its entries allow together, and is copied.
fn is_long(alloc: Global, d: &Descriptor, length: usize) -> Result<bool, Fail> {
    Ok(
        written_length(alloc, d)? == length
            && most_granted(alloc, d)? == Some(0x0006_03FF)
            && copy_is_equal(alloc, d)?,
    )
}

fn is_as_long(alloc: Global, count: u32, length: usize) -> Result<bool, Fail> {
    let d = long_list(alloc, count)?;
    is_long(alloc, &d, length)
}

/// The limit of 800 entries from both sides.
#[test]
fn as_many_entries_as_fit(rt: HostRuntime) -> Result<(), Fail> {
    for (count, length) in [(800, 20 + 68 + 8 + 800 * 76), (801, 0)] {
        assert!(rt; is_as_long(rt.alloc(), count, length)?);
    }
    Ok(())
}

#[test]
fn refusals_tell_in_words(rt: HostRuntime) -> Result<(), Fail> {
    let sid = "no SID stands at byte 20";
    assert!(rt; tells(rt.alloc(), &DescError::Sid(20), sid)?);
    Ok(())
}

fn is_copied(alloc: Global, token: &Token, count: usize) -> Result<bool, Fail> {
    Ok(token.copy(alloc)?.sids() == token.sids() && token.sids().len() == count)
}

/// As many SIDs as a listener's token has at most.
const MANY_SIDS: &str = "\
    S-1-5-0 S-1-5-1 S-1-5-2 S-1-5-3 S-1-5-4 S-1-5-5 S-1-5-6 S-1-5-7 S-1-5-8 S-1-5-9 S-1-5-10 S-1-5-11 S-1-5-12 \
    S-1-5-13 S-1-5-14 S-1-5-15 S-1-5-16 S-1-5-17 S-1-5-18 S-1-5-19 S-1-5-20 S-1-5-21 S-1-5-22 S-1-5-23 S-1-5-24 \
    S-1-5-25 S-1-5-26 S-1-5-27 S-1-5-28 S-1-5-29 S-1-5-30 S-1-5-31 S-1-5-32 S-1-5-33 S-1-5-34 S-1-5-35 S-1-5-36 \
    S-1-5-37 S-1-5-38 S-1-5-39 S-1-5-40 S-1-5-41 S-1-5-42 S-1-5-43 S-1-5-44 S-1-5-45 S-1-5-46 S-1-5-47 S-1-5-48 \
    S-1-5-49 S-1-5-50 S-1-5-51 S-1-5-52 S-1-5-53 S-1-5-54 S-1-5-55 S-1-5-56 S-1-5-57 S-1-5-58 S-1-5-59 S-1-5-60 \
    S-1-5-61 S-1-5-62 S-1-5-63";

/// Whether the token of some SIDs has so many, and is copied.
fn token_is_copied(alloc: Global, sids: &str, count: usize) -> Result<bool, Fail> {
    let token = token_of(alloc, sids)?;
    is_copied(alloc, &token, count)
}

#[test]
fn tokens_are_copied(rt: HostRuntime) -> Result<(), Fail> {
    assert!(rt; token_is_copied(rt.alloc(), "WD BU", 2)?);
    assert!(rt; token_is_copied(rt.alloc(), MANY_SIDS, 64)?);
    Ok(())
}

#[test]
fn laws_do_nothing() {
    laws::more_sids_get_no_less();
    laws::grants_are_valid();
    laws::maximum_grants_all();
    laws::nothing_is_granted();
    laws::read_parts_spell();
    laws::read_bytes_spell();
    laws::written_bytes_spell();
    laws::written_parts_are_read();
    laws::written_bytes_are_read();
}
