// Lists and stubs at their limits, with ample memory, both ways.
use super::tables::{HANDLE_WRITTEN, Row, handle_of, stub_is_right};
use super::wires::{Outcome, Wire};
use super::words::spelled;
use crate::tests::digits::{add_bytes, bytes_of, cut, joined, numbered, repeated};
use std::alloc::Global;
use std::process::Abort;
use std::test::Fail;

/// Whether a stub is read, and its value is written in so many bytes.
fn is_taken(
    alloc: Global,
    wire: Wire,
    opnum: u16,
    stub: &[u8],
    length: &str,
) -> Result<bool, Fail> {
    Ok(match wire.outcome(alloc, opnum, stub)? {
        Outcome::Value(written) => length.parse::<usize>().ok() == Some(written),
        _ => false,
    })
}

/// Whether the stub of a line is taken. A line of a table: the opnum, the length of what is written, and the stub, of
/// a call with a handle what stands after it.
fn line_is_taken(rt: &impl Abort, alloc: Global, wire: Wire, line: &str) -> Result<bool, Fail> {
    let (opnum, rest) = numbered(rt, line);
    let (length, stub) = rest.split_once(' ').unwrap_or((rest, ""));
    let stub = joined(alloc, handle_of(wire, opnum, HANDLE_WRITTEN), stub)?;
    is_taken(alloc, wire, opnum, &stub, length)
}

pub fn lines_are_taken(
    rt: &impl Abort,
    alloc: Global,
    wire: Wire,
    table: &str,
) -> Result<(), Fail> {
    for line in table.trim().lines() {
        assert!(rt; line_is_taken(rt, alloc, wire, line)?, "{line}");
    }
    Ok(())
}

/// By hand: a thousand identifiers, 1,024 SIDs, a name of 256 units for a user, one of 300 that is set as a comment,
/// and a descriptor of 262,144 bytes that is set. Each is written in as many bytes as it has.
const SAMR_CALLS: &str = "
18 4036 e8030000 e8030000 00000000 e8030000 1000*f4010000
16 20512 00040000 00000200 00040000 1024*04000200 1024*01000000010100000000000100000000
50 560 00020002 00000200 00010000 00000000 00010000 256*6100 10000000 00000002
37 644 0d000d00 58025802 00000200 2c010000 00000000 2c010000 300*7800
2 262180 04000000 00000400 00000200 00000400 262144*80
";

/// By hand: an answer of a thousand names, 300 members, a page of 100 users, a comment of 300 units, and a thousand
/// users and as many groups that are displayed.
const SAMR_REPLIES: &str = "
17 8028 e8030000 00000200 e8030000 1000*00000000 e8030000 04000200 e8030000 1000*01000000 00000000
25 2428 00000200 2c010000 04000200 08000200 2c010000 300*f4010000 2c010000 300*07000000 00000000
13 2828 e8030000 00000200 64000000 04000200 64000000 100*e80300000200020008000200 \
    100*01000000000000000100000061000000 64000000 00000000
36 632 00000200 0d000000 58025802 04000200 2c010000 00000000 2c010000 300*7800 00000000
40 52028 ffffffff 00000100 01000000 e8030000 00000200 e8030000 \
    1000*01000000e803000010000000020002000400020000000000000000000000000000000000 \
    1000*01000000000000000100000061000000 00000000
40 44028 ffffffff 00000100 03000000 e8030000 00000200 e8030000 \
    1000*01000000e80300000700000000000000000000000200020004000200 1000*01000000000000000100000061000000 00000000
";

/// By hand: 1,000 names and 1,000 translations of none, 20,480 SIDs and 20,480 translations of none, also by the later
/// forms, 1,000 privileges that are added and taken away, 256 rights that are added and taken away, attributes of
/// objects, and a descriptor of 262,144 bytes that is set. What is read and not kept is written as an empty list.
const LSA_CALLS: &str = "
14 8044 e8030000 e8030000 1000*0000000000000000 00000000 00000000 0100 0000 00000000
14 44 00000000 00000000 e8030000 01000000 e8030000 1000*010000000000000000000000 0100 0000 00000000
15 327728 00500000 01000000 00500000 20480*01000000 20480*000000000100000000000000 00000000 00000000 0100 0000 \
    00000000
15 44 00000000 00000000 00500000 01000000 00500000 20480*01000000000000000000000000000000 0100 0000 00000000
57 327736 00500000 01000000 00500000 20480*01000000 20480*000000000100000000000000 00000000 00000000 0100 0000 \
    00000000 00000000 02000000
57 52 00000000 00000000 00500000 01000000 00500000 20480*0100000000000000000000000000000000000000 0100 0000 \
    00000000 00000000 02000000
58 8052 e8030000 e8030000 1000*0000000000000000 00000000 00000000 0100 0000 00000000 00000000 02000000
58 52 00000000 00000000 e8030000 01000000 e8030000 1000*01000000000000000000000000000000 0100 0000 00000000 \
    00000000 02000000
68 8052 e8030000 e8030000 1000*0000000000000000 00000000 00000000 0100 0000 00000000 00000000 02000000
68 52 00000000 00000000 e8030000 01000000 e8030000 1000*01000000010000000000000000000000 \
    1000*01000000010100000000000100000000 0100 0000 00000000 00000000 02000000
19 12032 e8030000 e8030000 00000000 1000*110000000000000000000000
20 12040 00 000000 01000000 e8030000 e8030000 00000000 1000*110000000000000000000000
37 2096 01000000 0101000000000001 00000000 00010000 01000000 00010000 256*0000000000000000
38 2100 01000000 0101000000000001 00000000 00 000000 00010000 01000000 00010000 256*0000000000000000
44 32 00000000 00000000 00000000 00000000 05000000 00000000 00000000 00000002
4 262180 04000000 00000400 00000200 00000400 262144*80
";

/// By hand: 1,000 translated SIDs and 20,480 translated names, both with a domain, also by the later forms, 1,000
/// privileges that are held, pages of 1,000 privileges and of 1,000 accounts, 1,000 accounts that hold a right, and the
/// 256 rights of an account.
const LSA_REPLIES: &str = "
14 12100 00000200 01000000 04000200 01000000 01000000 08000800 08000200 0c000200 04000000 00000000 04000000 43004f00 \
    52005000 04000000 01040000 00000005 15000000 01000000 02000000 03000000 e8030000 10000200 e8030000 \
    1000*01000000e803000000000000 e8030000 00000000
15 327780 00000200 01000000 04000200 01000000 01000000 08000800 08000200 0c000200 04000000 00000000 04000000 43004f00 \
    52005000 04000000 01040000 00000005 15000000 01000000 02000000 03000000 00500000 10000200 00500000 \
    20480*01000000000000000000000000000000 00500000 00000000
57 409700 00000200 01000000 04000200 01000000 01000000 08000800 08000200 0c000200 04000000 00000000 04000000 43004f00 \
    52005000 04000000 01040000 00000005 15000000 01000000 02000000 03000000 00500000 10000200 00500000 \
    20480*0100000000000000000000000000000000000000 00500000 00000000
58 16100 00000200 01000000 04000200 01000000 01000000 08000800 08000200 0c000200 04000000 00000000 04000000 43004f00 \
    52005000 04000000 01040000 00000005 15000000 01000000 02000000 03000000 e8030000 10000200 e8030000 \
    1000*01000000e80300000000000000000000 e8030000 00000000
68 32100 00000200 01000000 04000200 01000000 01000000 08000800 08000200 0c000200 04000000 00000000 04000000 43004f00 \
    52005000 04000000 01040000 00000005 15000000 01000000 02000000 03000000 e8030000 10000200 e8030000 \
    1000*05000000010000000000000000000000 1000*01000000010100000000000100000000 e8030000 00000000
18 12020 00000200 e8030000 e8030000 00000000 1000*110000000000000003000000 00000000
2 40020 e8030000 e8030000 00000200 e8030000 1000*0a000a00040002000700000000000000 \
    1000*050000000000000005000000530065005400630062000000 05010000
11 20020 e8030000 e8030000 00000200 e8030000 1000*04000200 1000*01000000010100000000000100000000 05010000
35 20016 e8030000 00000200 e8030000 1000*04000200 1000*01000000010100000000000100000000 00000000
36 8208 00010000 00000200 00010000 256*0a000a0004000200 256*050000000000000005000000530065005400630062000000 00000000
";

/// By hand: a descriptor of 262,144 bytes.
const DESCRIPTORS: &str = "
0 262156 00000400 00000200 00000400 262144*80
";

#[test]
fn stubs_at_their_limits_are_taken(rt: HostRuntime) -> Result<(), Fail> {
    lines_are_taken(&rt, rt.alloc(), Wire::SamrCalls, SAMR_CALLS)?;
    lines_are_taken(&rt, rt.alloc(), Wire::SamrReplies, SAMR_REPLIES)?;
    lines_are_taken(&rt, rt.alloc(), Wire::Descriptor, DESCRIPTORS)?;
    lines_are_taken(&rt, rt.alloc(), Wire::LsaCalls, LSA_CALLS)
}

#[test]
fn policy_replies_at_their_limits_are_taken(rt: HostRuntime) -> Result<(), Fail> {
    lines_are_taken(&rt, rt.alloc(), Wire::LsaReplies, LSA_REPLIES)
}

/// Long lists as Samba writes them. A row has the opnum and the length of the stub; the value in words, where `N*WORD`
/// stands N times and `~` is a space; and the stub, of a call what stands after the handle, where each `#` is a
/// referent: the first is 0x00020000, and each further one is 4 more.
///
/// A look-up of a thousand times `nobody`.
const LONG_SAMR_CALLS: &str = "
17 32036
NameList Names [ 1000*'nobody' ]
e8030000 e8030000 00000000 e8030000 1000*0c000c00# 1000*0600000000000000060000006e006f0062006f0064007900
";

/// The answer to it, of which none is mapped: for each name 0 and SidTypeUnknown (8), and STATUS_NONE_MAPPED. A
/// thousand users that are displayed, with all their texts, and as many groups.
const LONG_SAMR_REPLIES: &str = "
17 8028
Done 0xc0000073 RidUses [ 1000*0 ] [ 1000*8 ]
e8030000 # e8030000 1000*00000000 e8030000 # e8030000 1000*08000000 730000c0

40 124028
Done 0x105 Display 1 4294967295 58000 [ 1000*DisplayRow~7~1003~0x10~'bob'~'night~shift'~'Bob~Jones' ]
ffffffff 90e20000 01000000 e8030000 # e8030000 1000*07000000eb0300001000000006000600#16001600#12001200# 1000*03000000\
    000000000300000062006f00620000000b000000000000000b0000006e0069006700680074002000730068006900660074000000090000000\
    00000000900000042006f00620020004a006f006e00650073000000 05010000

40 52028
Done 0x0 Display 3 22000 22000 [ 1000*DisplayRow~5~1010~0x7~'staff'~''~'' ]
f0550000 f0550000 03000000 e8030000 # e8030000 1000*05000000f2030000070000000a000a00#0000000000000000 \
    1000*050000000000000005000000730074006100660066000000 00000000
";

/// The later look-ups, of 20,480 SIDs and of a thousand names.
const LONG_LSA_CALLS: &str = "
57 737336
LookSids 1 [ 20480*S-1-5-21-1-2-3-1000 ]
00500000 # 00500000 20480*# 20480*05000000010500000000000515000000010000000200000003000000e8030000 00000000 00000000 \
    01000000 00000000 00000000 02000000

58 32052
LookNames 1 Names [ 1000*'nobody' ]
e8030000 e8030000 1000*0c000c00# 1000*0600000000000000060000006e006f0062006f0064007900 00000000 00000000 01000000 \
    00000000 00000000 02000000

68 32052
LookNames 1 Names [ 1000*'nobody' ]
e8030000 e8030000 1000*0c000c00# 1000*0600000000000000060000006e006f0062006f0064007900 00000000 00000000 01000000 \
    00000000 00000000 02000000
";

/// The answers to them; that to a thousand names also where none of them has a SID. The maximum lengths and counts of
/// the domain's name are those of the text, where Samba has room for a zero.
const LONG_LSA_REPLIES: &str = "
57 819300
Done 0x0 Names [ ReferencedDomain~'CORP'~S-1-5-21-1-2-3 ] [ 20480*TranslatedName~1~'bob'~0 ] 20480
# 01000000 # 01000000 01000000 08000800 # # 04000000 00000000 04000000 43004f00 52005000 04000000 01040000 00000005 \
    15000000 01000000 02000000 03000000 00500000 # 00500000 20480*0100000006000600#0000000000000000 \
    20480*03000000000000000300000062006f0062000000 00500000 00000000

58 16100
Done 0x0 Sids [ ReferencedDomain~'CORP'~S-1-5-21-1-2-3 ] [ 1000*TranslatedSid~1~1000~0 ] 1000
# 01000000 # 01000000 01000000 08000800 # # 04000000 00000000 04000000 43004f00 52005000 04000000 01040000 00000005 \
    15000000 01000000 02000000 03000000 e8030000 # e8030000 1000*01000000e80300000000000000000000 e8030000 00000000

68 48100
Done 0x0 SidRefs [ ReferencedDomain~'CORP'~S-1-5-21-1-2-3 ] [ 1000*SidRef~1~Some~S-1-5-21-1-2-3-1000~0 ] 1000
# 01000000 # 01000000 01000000 08000800 # # 04000000 00000000 04000000 43004f00 52005000 04000000 01040000 00000005 \
    15000000 01000000 02000000 03000000 e8030000 # e8030000 1000*01000000#0000000000000000 \
    1000*05000000010500000000000515000000010000000200000003000000e8030000 e8030000 00000000

68 16036
Done 0xc0000073 SidRefs [ ] [ 1000*SidRef~8~None~-1 ] 0
# 00000000 00000000 00000000 e8030000 # e8030000 1000*0800000000000000ffffffff00000000 00000000 730000c0
";

/// Adds the bytes of a word, each `#` as a referent, of which the first is the one given. It tells the next one.
fn add_referred(stub: &mut Vec<u8>, word: &str, first: u32) -> Result<u32, Fail> {
    let mut next = first;
    for (place, digits) in word.split('#').enumerate() {
        if place > 0 {
            stub.extend_from_slice(&next.to_le_bytes())?;
            next = next.wrapping_add(4);
        }
        add_bytes(stub, digits)?;
    }
    Ok(next)
}

/// Adds a word so many times.
fn add_times(stub: &mut Vec<u8>, word: &str, times: u32, first: u32) -> Result<u32, Fail> {
    let mut next = first;
    for _ in 0..times {
        next = add_referred(stub, word, next)?;
    }
    Ok(next)
}

fn add_all_referred(stub: &mut Vec<u8>, text: &str) -> Result<(), Fail> {
    let mut next: u32 = 0x0002_0000;
    for word in text.split(' ') {
        let (times, word) = repeated(word);
        next = add_times(stub, word, times, next)?;
    }
    Ok(())
}

/// A stub whose referents rise.
fn referred(alloc: Global, front: &str, text: &str) -> Result<Vec<u8>, Fail> {
    let mut stub = bytes_of(alloc, front)?;
    add_all_referred(&mut stub, text)?;
    Ok(stub)
}

/// Adds the words of a text, each as often as it says.
fn tell_repeated(told: &mut String, alloc: Global, text: &str) -> Result<(), Fail> {
    for word in text.split(' ') {
        let (times, word) = repeated(word);
        let word = word.replace(alloc, "~", " ")?;
        for _ in 0..times {
            write!(told, "{word} ")?;
        }
    }
    Ok(())
}

/// A value in words, of which some are repeated.
fn spelled_long(alloc: Global, text: &str) -> Result<String, Fail> {
    let mut told = String::new(alloc);
    tell_repeated(&mut told, alloc, text)?;
    spelled(alloc, told.as_str())
}

/// The stub of a row is read as the value, and written again.
fn long_row_is_right(rt: &impl Abort, alloc: Global, wire: Wire, row: &str) -> Result<(), Fail> {
    let (opnum, rest) = numbered(rt, row);
    let (length, rest) = cut(rest);
    let (words, text) = cut(rest);
    let written = referred(alloc, handle_of(wire, opnum, HANDLE_WRITTEN), text)?;
    assert!(rt;
        length.parse::<usize>().ok() == Some(written.len()),
        "{words}"
    );
    let words = spelled_long(alloc, words)?;
    let row = Row {
        wire,
        opnum,
        words: words.as_str(),
        written: &written,
    };
    stub_is_right(rt, alloc, &row, &written)
}

fn long_rows_are_right(
    rt: &impl Abort,
    alloc: Global,
    wire: Wire,
    table: &str,
) -> Result<(), Fail> {
    for row in table.trim().split("\n\n") {
        long_row_is_right(rt, alloc, wire, row)?;
    }
    Ok(())
}

#[test]
fn long_lists_of_accounts_are_taken_and_answered(rt: HostRuntime) -> Result<(), Fail> {
    long_rows_are_right(&rt, rt.alloc(), Wire::SamrCalls, LONG_SAMR_CALLS)?;
    long_rows_are_right(&rt, rt.alloc(), Wire::SamrReplies, LONG_SAMR_REPLIES)
}

#[test]
fn long_translations_are_asked_for(rt: HostRuntime) -> Result<(), Fail> {
    long_rows_are_right(&rt, rt.alloc(), Wire::LsaCalls, LONG_LSA_CALLS)
}

#[test]
fn long_translations_are_answered(rt: HostRuntime) -> Result<(), Fail> {
    long_rows_are_right(&rt, rt.alloc(), Wire::LsaReplies, LONG_LSA_REPLIES)
}
