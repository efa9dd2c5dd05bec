// Stubs as other software writes them, and the places of fields that have no reading. Tables are texts: what is
// expected stands beside the stub in words, as `words` spells it. Only `wires` meets the contracts of the wires.
mod bounds;
mod fields;
mod limits;
mod lsa_calls;
mod lsa_replies;
mod places;
mod readers;
mod samr_calls;
mod samr_replies;
mod served;
mod shapes;
mod tables;
mod wires;
mod words;

use places::lines_are_bad;
use std::test::Fail;
use tables::table_is_right;
use wires::Wire;

/// The tables of stubs that are read and written: how many rows each has, and how many stubs.
fn table(place: u32) -> (Wire, &'static str, u32, u32) {
    match place {
        0 => (Wire::SamrCalls, samr_calls::CALLS, 66, 133),
        1 => (Wire::SamrReplies, samr_replies::REPLIES, 114, 237),
        2 => (Wire::LsaCalls, lsa_calls::CALLS, 38, 78),
        3 => (Wire::LsaReplies, lsa_replies::REPLIES, 47, 71),
        4 => (Wire::SamrCalls, served::UNSERVED, 12, 26),
        5 => (Wire::Text, fields::TEXTS, 3, 7),
        6 => (Wire::Sid, fields::SIDS, 4, 4),
        7 => (Wire::SidList, fields::SID_LISTS, 3, 5),
        8 => (Wire::NumberList, fields::NUMBER_LISTS, 4, 4),
        9 => (Wire::TextList, fields::TEXT_LISTS, 1, 2),
        10 => (Wire::Privileges, fields::PRIVILEGES, 1, 2),
        11 => (Wire::Accounts, fields::ACCOUNTS, 3, 4),
        12 => (Wire::Descriptor, fields::DESCRIPTORS, 3, 5),
        13 => (Wire::DescriptorPointer, fields::DESCRIPTOR_POINTERS, 3, 5),
        _ => (Wire::Domains, fields::DOMAINS, 2, 4),
    }
}

#[test]
fn stubs_are_read_and_written(rt: HostRuntime) -> Result<(), Fail> {
    for place in 0..15 {
        let (wire, text, rows, stubs) = table(place);
        let counted = table_is_right(&rt, rt.alloc(), wire, text)?;
        assert!(rt; counted == (rows, stubs), "{text}");
    }
    Ok(())
}

/// The tables of stubs that aren't read, and how many lines each has.
fn bad_table(place: u32) -> (Wire, &'static str, u32) {
    match place {
        0 => (Wire::SamrCalls, places::SAMR_CALLS, 54),
        1 => (Wire::SamrReplies, places::SAMR_REPLIES, 45),
        2 => (Wire::LsaCalls, places::LSA_CALLS, 47),
        3 => (Wire::LsaReplies, places::LSA_REPLIES, 17),
        4 => (Wire::Text, fields::BAD_TEXTS, 8),
        5 => (Wire::Sid, fields::BAD_SIDS, 5),
        6 => (Wire::SidList, fields::BAD_SID_LISTS, 9),
        7 => (Wire::NumberList, fields::BAD_LISTS, 1),
        8 => (Wire::TextList, fields::BAD_TEXT_LISTS, 1),
        9 => (Wire::Privileges, fields::BAD_PRIVILEGES, 4),
        10 => (Wire::Descriptor, fields::BAD_DESCRIPTORS, 7),
        _ => (Wire::Domains, fields::BAD_DOMAINS, 4),
    }
}

#[test]
fn bad_stubs_have_their_places(rt: HostRuntime) -> Result<(), Fail> {
    for place in 0..12 {
        let (wire, text, count) = bad_table(place);
        let counted = lines_are_bad(&rt, rt.alloc(), wire, text)?;
        assert!(rt; counted == count, "{text}");
    }
    Ok(())
}

#[test]
fn laws_are_called() {
    ndr_types::shapes_are_lawful();
    samr_wire::laws::calls_are_spelled();
    samr_wire::laws::calls_are_read_again();
    samr_wire::laws::replies_are_spelled();
    samr_wire::laws::replies_are_read_again();
    samr_wire::laws::readings_want_no_memory();
    lsa_wire::laws::calls_are_spelled();
    lsa_wire::laws::calls_are_read_again();
    lsa_wire::laws::replies_are_spelled();
    lsa_wire::laws::replies_are_read_again();
    lsa_wire::laws::readings_want_no_memory();
}
