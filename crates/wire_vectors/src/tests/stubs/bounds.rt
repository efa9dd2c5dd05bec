// The longest texts and SIDs of the later translation forms, and those that are too long by one: a text has 65,534
// bytes at most, since its length is even, and a SID 15 sub-authorities. By hand, from MS-LSAT and MS-DTYP.
use super::limits::lines_are_taken;
use super::places::lines_are_bad;
use super::wires::Wire;
use std::test::Fail;

/// As the tables of limits: the opnum, the length of what is written, and what stands after the handle. What is
/// received and not kept is written as an empty list.
const TAKEN: &str = "
57 132 01000000 01000000 01000000 01000000 0f000000 010f000000000005 15*01000000 00000000 00000000 0100 0000 \
    00000000 00000000 02000000
57 52 00000000 00000000 01000000 01000000 01000000 01000000 feffffff 01000000 00000000 00000000 ff7f0000 00000000 \
    ff7f0000 32767*6100 0000 0100 0000 00000000 00000000 02000000
58 65608 01000000 01000000 feffffff 01000000 ff7f0000 00000000 ff7f0000 32767*6100 0000 00000000 00000000 0100 0000 \
    00000000 00000000 02000000
68 65608 01000000 01000000 feffffff 01000000 ff7f0000 00000000 ff7f0000 32767*6100 0000 00000000 00000000 0100 0000 \
    00000000 00000000 02000000
68 52 00000000 00000000 01000000 01000000 01000000 01000000 01000000 00000000 00000000 0f000000 010f000000000005 \
    15*01000000 0100 0000 00000000 00000000 02000000
";

/// As the tables of places: a length that is odd, and a text of a unit less than its length says.
const BAD: &str = "
58 bad 28 01000000 01000000 ffffffff 01000000
58 bad 44 01000000 01000000 feffffff 01000000 ff7f0000 00000000 fe7f0000 32767*6100
68 bad 28 01000000 01000000 ffffffff 01000000
68 bad 44 01000000 01000000 feffffff 01000000 ff7f0000 00000000 fe7f0000 32767*6100
57 bad 44 00000000 00000000 01000000 01000000 01000000 01000000 ffffffff 01000000
57 bad 68 00000000 00000000 01000000 01000000 01000000 01000000 feffffff 01000000 00000000 00000000 ff7f0000 00000000 \
    fe7f0000 32767*6100
";

#[test]
fn the_longest_texts_and_sids_are_taken(rt: HostRuntime) -> Result<(), Fail> {
    lines_are_taken(&rt, rt.alloc(), Wire::LsaCalls, TAKEN)?;
    let counted = lines_are_bad(&rt, rt.alloc(), Wire::LsaCalls, BAD)?;
    assert!(rt; counted == 6, "{BAD}");
    Ok(())
}
