// Parts of descriptors as Samba 4.17 packs them (revision 2 set on their lists), and what replacing named parts leaves.
// They are written as descriptors are, with a dash for each part that is absent.
use super::descriptors::{acl_of, are_equal, bytes_of, descriptor_of, long_acl, sid_of};
use super::lines::cut;
use acct_codes::security_information::{
    DACL_SECURITY_INFORMATION, GROUP_SECURITY_INFORMATION, OWNER_SECURITY_INFORMATION,
};
use dtyp_access::{DescError, Parts, has_few_aces, read_parts, replaced, write_parts};
use dtyp_sid::Sid;
use std::alloc::Global;
use std::test::Fail;

fn sid_if_any(word: &str) -> Result<Option<Sid>, Fail> {
    if word == "-" {
        return Ok(None);
    }
    Ok(Some(sid_of(word)?))
}

/// Parts, as owner, group and entries.
fn parts_of(alloc: Global, text: &str) -> Result<Parts, Fail> {
    let (owner, others) = cut(text, '|');
    let (group, aces) = cut(others, '|');
    Ok(Parts {
        owner: sid_if_any(owner)?,
        group: sid_if_any(group)?,
        acl: acl_of(alloc, aces)?,
    })
}

/// Parts, and the bytes that Samba packs them in.
const PACKED: [(&str, &str); 6] = [
    ("-|-|-", "01000080 00000000 00000000 00000000 00000000"),
    (
        "SY|-|-",
        "01000080 14000000 00000000 00000000 00000000 01010000 00000005 12000000",
    ),
    (
        "-|BA|-",
        "01000080 00000000 14000000 00000000 00000000 01020000 00000005 20000000 20020000",
    ),
    (
        "-|-|A;0;20;WD",
        "01000480 00000000 00000000 00000000 14000000 02001c00 01000000 00001400 20000000 01010000 00000001 00000000",
    ),
    (
        "-|BA|D;0;10;BU A;0;F003F;WD",
        "01000480 00000000 14000000 00000000 24000000 01020000 00000005 20000000 20020000 02003400 02000000 01001800 \
        10000000 01020000 00000005 20000000 21020000 00001400 3f000f00 01010000 00000001 00000000",
    ),
    (
        "BA|SY|A;0;20;WD",
        "01000480 14000000 24000000 00000000 30000000 01020000 00000005 20000000 20020000 01010000 00000005 12000000 \
        02001c00 01000000 00001400 20000000 01010000 00000001 00000000",
    ),
];

fn same_lists(left: &Parts, right: &Parts) -> bool {
    match (&left.acl, &right.acl) {
        (None, None) => true,
        (Some(left), Some(right)) => left.aces() == right.aces(),
        _ => false,
    }
}

fn reads(alloc: Global, bytes: &[u8], parts: &Parts) -> bool {
    match read_parts(alloc, bytes) {
        Ok(read) => {
            read.owner == parts.owner && read.group == parts.group && same_lists(&read, parts)
        }
        Err(_) => false,
    }
}

fn writes(alloc: Global, parts: &Parts, bytes: &[u8]) -> Result<bool, Fail> {
    if !has_few_aces(&parts.acl) {
        return Ok(false);
    }
    Ok(write_parts(alloc, parts)?.as_slice() == bytes)
}

fn are_those_of(alloc: Global, bytes: &[u8], text: &str) -> Result<bool, Fail> {
    let parts = parts_of(alloc, text)?;
    Ok(reads(alloc, bytes, &parts) && writes(alloc, &parts, bytes)?)
}

fn are_packed(alloc: Global, text: &str, packed: &str) -> Result<bool, Fail> {
    let bytes = bytes_of(alloc, packed)?;
    are_those_of(alloc, &bytes, text)
}

#[test]
fn parts_are_written_and_read(rt: HostRuntime) -> Result<(), Fail> {
    for (text, packed) in PACKED {
        assert!(rt; are_packed(rt.alloc(), text, packed)?, "{text}");
    }
    Ok(())
}

/// Whether the bytes of an owner and no other part, with a byte changed, are refused so.
fn is_refused(alloc: Global, place: usize, byte: u8, why: DescError) -> Result<bool, Fail> {
    let mut bytes = bytes_of(
        alloc,
        "01000080 14000000 00000000 00000000 00000000 01010000 00000005 12000000",
    )?;
    if let Some(at) = bytes.get_mut(place) {
        *at = byte;
    }
    match read_parts(alloc, &bytes) {
        Ok(_) => Ok(false),
        Err(refusal) => Ok(refusal == why),
    }
}

/// An owner that is there is refused as that of a descriptor is.
#[test]
fn each_refusal_has_its_place(rt: HostRuntime) -> Result<(), Fail> {
    for (place, byte, why) in [
        (0, 2, DescError::Revision(0)),
        (3, 0, DescError::Offset(2)),
        (4, 19, DescError::Offset(4)),
        (4, 33, DescError::Offset(4)),
        (4, 32, DescError::Sid(32)),
        (20, 2, DescError::Sid(20)),
        (8, 33, DescError::Offset(8)),
    ] {
        assert!(rt; is_refused(rt.alloc(), place, byte, why)?, "{place}");
    }
    Ok(())
}

/// Whether of the longest entries as many as told, and no other part, are written in so many bytes and read back.
fn are_as_long(alloc: Global, count: u32, length: usize) -> Result<bool, Fail> {
    let sid = sid_of("S-1-5-1-2-3-4-5-6-7-8-9-10-11-12-13-14-15")?;
    let parts = Parts {
        owner: None,
        group: None,
        acl: Some(long_acl(alloc, sid, count)?),
    };
    if !has_few_aces(&parts.acl) {
        return Ok(length == 0);
    }
    let bytes = write_parts(alloc, &parts)?;
    Ok(bytes.len() == length && reads(alloc, &bytes, &parts))
}

/// The limit of 800 entries from both sides.
#[test]
fn as_many_entries_as_fit(rt: HostRuntime) -> Result<(), Fail> {
    for (count, length) in [(800, 20 + 8 + 800 * 76), (801, 0)] {
        assert!(rt; are_as_long(rt.alloc(), count, length)?);
    }
    Ok(())
}

const OWNER: u32 = OWNER_SECURITY_INFORMATION;

const GROUP: u32 = GROUP_SECURITY_INFORMATION;

const LIST: u32 = DACL_SECURITY_INFORMATION;

/// Whether replacing the named parts of a descriptor by those gives a third.
#[tactic(auto, unfolding(dtyp_access::specs::Granted::shares))]
fn is_replaced(alloc: Global, old: &str, info: u32, new: &str, left: &str) -> Result<bool, Fail> {
    let parts = parts_of(alloc, new)?;
    if info & OWNER != 0 && parts.owner.is_none() {
        return Ok(false);
    }
    let changed = replaced(descriptor_of(alloc, old)?, info, parts);
    Ok(are_equal(&changed, &descriptor_of(alloc, left)?))
}

/// Each part alone, all three and none; a group and a list that become absent; and bits that name no part.
#[test]
fn named_parts_are_replaced(rt: HostRuntime) -> Result<(), Fail> {
    let old = "SY|BU|A;0;10;WD";
    let new = "BA|WD|D;0;20;BU";
    for (info, new, left) in [
        (0, new, old),
        (OWNER, new, "BA|BU|A;0;10;WD"),
        (GROUP, new, "SY|WD|A;0;10;WD"),
        (LIST, new, "SY|BU|D;0;20;BU"),
        (OWNER | GROUP | LIST, new, new),
        (GROUP | LIST, "-|-|-", "SY|-|-"),
        (LIST, "-|-|", "SY|BU|"),
        (0xFFFF_FFF8, "-|-|-", old),
    ] {
        assert!(rt; is_replaced(rt.alloc(), old, info, new, left)?, "{info}");
    }
    Ok(())
}
