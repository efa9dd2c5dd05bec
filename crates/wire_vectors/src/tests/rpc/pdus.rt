// PDUs of other software, read and written again.
ghost use Rattle.std.specs.Prelude.{◌≤◌, IfOk};
ghost use Rattle.rpc_pdu.specs.Written.{HasFewParts, size_of};

use crate::tests::digits::bytes_of;
use rpc_pdu::{
    Pdu, ReadPdu, Side, bytes_divide_once, front_is_stable, is_same_syntax, lsarpc, ndr, read_pdu,
    samr, whole_is_exactly_a_pdu, write_pdu, written_is_read_back,
};
use std::alloc::Global;
use std::test::Fail;

// Each case has the side that reads, the bytes of a PDU, what it says, and the bytes that are written of it again.

/// A bind of SAMR as the client of python3-impacket 0.10.0 sends it, and its answer, written down by hand from C706,
/// section 12.6.4.4.
const A_BIND_AND_ITS_ANSWER: &str = "
    server |
    05000b03 10000000 48000000 01000000 b810b810 00000000 01000000 00000100 78573412 3412cdab ef000123 456789ac
    01000000 045d888a eb1cc911 9fe80800 2b104860 02000000 |
    Bind { id: 1, xmit: 4280, recv: 4280, group: 0, elements: Seq { values: [Element { context: 0, subject: Syntax {
    id: 12345778-1234-abcd-ef00-0123456789ac, version: 1 }, transfers: Seq { values: [Syntax { id:
    8a885d04-1ceb-11c9-9fe8-08002b104860, version: 2 }] } }] } } |
    same
;
    client |
    05000c03 10000000 38000000 01000000 b810b810 01000000 01000000 01000000 00000000 045d888a eb1cc911 9fe80800
    2b104860 02000000 |
    BindAck { id: 1, xmit: 4280, recv: 4280, group: 1, outcomes: Seq { values: [Outcome { result: 0, reason: 0,
    syntax: Syntax { id: 8a885d04-1ceb-11c9-9fe8-08002b104860, version: 2 } }] } } |
    same";

/// Captured from the SAMR client of python3-samba 4.17.12 over TCP: context 1 negotiates features, and the second bind
/// asks for NDR64.
const BINDS_WITH_FEATURE_NEGOTIATION: &str = "
    server |
    05000b03 10000000 74000000 01000000 d016d016 00000000 02000000 00000100 78573412 3412cdab ef000123 456789ac
    01000000 045d888a eb1cc911 9fe80800 2b104860 02000000 01000100 78573412 3412cdab ef000123 456789ac 01000000
    2c1cb76c 12984045 03000000 00000000 01000000 |
    Bind { id: 1, xmit: 5840, recv: 5840, group: 0, elements: Seq { values: [Element { context: 0, subject: Syntax {
    id: 12345778-1234-abcd-ef00-0123456789ac, version: 1 }, transfers: Seq { values: [Syntax { id:
    8a885d04-1ceb-11c9-9fe8-08002b104860, version: 2 }] } }, Element { context: 1, subject: Syntax { id:
    12345778-1234-abcd-ef00-0123456789ac, version: 1 }, transfers: Seq { values: [Syntax { id:
    6cb71c2c-9812-4540-0300-000000000000, version: 1 }] } }] } } |
    same
;
    server |
    05000b03 10000000 74000000 01000000 d016d016 00000000 02000000 00000100 78573412 3412cdab ef000123 456789ac
    01000000 33057171 babe3749 8319b5db ef9ccc36 01000000 01000100 78573412 3412cdab ef000123 456789ac 01000000
    2c1cb76c 12984045 03000000 00000000 01000000 |
    Bind { id: 1, xmit: 5840, recv: 5840, group: 0, elements: Seq { values: [Element { context: 0, subject: Syntax {
    id: 12345778-1234-abcd-ef00-0123456789ac, version: 1 }, transfers: Seq { values: [Syntax { id:
    71710533-beba-4937-8319-b5dbef9ccc36, version: 1 }] } }, Element { context: 1, subject: Syntax { id:
    12345778-1234-abcd-ef00-0123456789ac, version: 1 }, transfers: Seq { values: [Syntax { id:
    6cb71c2c-9812-4540-0300-000000000000, version: 1 }] } }] } } |
    same";

/// Packed by the `ncacn_packet` of python3-samba 4.17.12.
const BINDS_WITH_SEVERAL_TRANSFER_SYNTAXES: &str = "
    server |
    05000b03 10000000 88000000 03000000 d016d016 00000000 02000000 00000200 78573412 3412cdab ef000123 456789ac
    01000000 33057171 babe3749 8319b5db ef9ccc36 01000000 045d888a eb1cc911 9fe80800 2b104860 02000000 01000100
    78573412 3412cdab ef000123 456789ab 00000000 045d888a eb1cc911 9fe80800 2b104860 02000000 |
    Bind { id: 3, xmit: 5840, recv: 5840, group: 0, elements: Seq { values: [Element { context: 0, subject: Syntax {
    id: 12345778-1234-abcd-ef00-0123456789ac, version: 1 }, transfers: Seq { values: [Syntax { id:
    71710533-beba-4937-8319-b5dbef9ccc36, version: 1 }, Syntax { id: 8a885d04-1ceb-11c9-9fe8-08002b104860, version: 2
    }] } }, Element { context: 1, subject: Syntax { id: 12345778-1234-abcd-ef00-0123456789ab, version: 0 }, transfers:
    Seq { values: [Syntax { id: 8a885d04-1ceb-11c9-9fe8-08002b104860, version: 2 }] } }] } } |
    same";

/// The first was captured from the client of python3-impacket 0.10.0, the second packed by the `ncacn_packet` of
/// python3-samba 4.17.12.
const AN_ALTER_CONTEXT_AND_ITS_ANSWER: &str = "
    server |
    05000e03 10000000 48000000 01000000 b810b810 00000000 01000000 01000100 78573412 3412cdab ef000123 456789ab
    00000000 045d888a eb1cc911 9fe80800 2b104860 02000000 |
    Alter { id: 1, xmit: 4280, recv: 4280, group: 0, elements: Seq { values: [Element { context: 1, subject: Syntax {
    id: 12345778-1234-abcd-ef00-0123456789ab, version: 0 }, transfers: Seq { values: [Syntax { id:
    8a885d04-1ceb-11c9-9fe8-08002b104860, version: 2 }] } }] } } |
    same
;
    client |
    05000f03 10000000 38000000 04000000 b810b810 f0530000 00000000 01000000 00000000 045d888a eb1cc911 9fe80800
    2b104860 02000000 |
    AlterResp { id: 4, xmit: 4280, recv: 4280, group: 21488, outcomes: Seq { values: [Outcome { result: 0, reason: 0,
    syntax: Syntax { id: 8a885d04-1ceb-11c9-9fe8-08002b104860, version: 2 } }] } } |
    same";

/// The first was packed by the `ncacn_packet` of python3-samba 4.17.12, for port 135. The second was captured from the
/// `DCERPCServer` of python3-impacket 0.10.0, which answers a pipe's name and pads it with letters. We write the empty
/// address.
const ANSWERS_WITH_A_SECONDARY_ADDRESS: &str = "
    client |
    05000c03 10000000 54000000 03000000 b810b810 f0530000 04003133 35000000 02000000 00000000 045d888a eb1cc911
    9fe80800 2b104860 02000000 02000200 00000000 00000000 00000000 00000000 00000000 |
    BindAck { id: 3, xmit: 4280, recv: 4280, group: 21488, outcomes: Seq { values: [Outcome { result: 0, reason: 0,
    syntax: Syntax { id: 8a885d04-1ceb-11c9-9fe8-08002b104860, version: 2 } }, Outcome { result: 2, reason: 2, syntax:
    Syntax { id: 00000000-0000-0000-0000-000000000000, version: 0 } }] } } |
    05000c03 10000000 50000000 03000000 b810b810 f0530000 01000000 02000000 00000000 045d888a eb1cc911 9fe80800
    2b104860 02000000 02000200 00000000 00000000 00000000 00000000 00000000
;
    client |
    05000c03 10000000 5c000000 01000000 d016d016 34120000 0b005c50 4950455c 73616d72 00414141 02000000 00000000
    045d888a eb1cc911 9fe80800 2b104860 02000000 01000200 045d888a eb1cc911 9fe80800 2b104860 02000000 |
    BindAck { id: 1, xmit: 5840, recv: 5840, group: 4660, outcomes: Seq { values: [Outcome { result: 0, reason: 0,
    syntax: Syntax { id: 8a885d04-1ceb-11c9-9fe8-08002b104860, version: 2 } }, Outcome { result: 1, reason: 2, syntax:
    Syntax { id: 8a885d04-1ceb-11c9-9fe8-08002b104860, version: 2 } }] } } |
    05000c03 10000000 50000000 01000000 d016d016 34120000 01000000 02000000 00000000 045d888a eb1cc911 9fe80800
    2b104860 02000000 01000200 045d888a eb1cc911 9fe80800 2b104860 02000000";

/// Packed by the `ncacn_packet` of python3-samba 4.17.12.
const A_REFUSED_BIND: &str = "
    client |
    05000d03 10000000 18000000 05000000 04000105 00000000 |
    BindNak { id: 5, reason: 4 } |
    same";

/// A Connect2 of SAMR, captured from the SAMR client of python3-samba 4.17.12; a request and a response, captured from
/// python3-impacket 0.10.0; and a response packed by the `ncacn_packet` of python3-samba.
const REQUESTS_AND_RESPONSES: &str = "
    server |
    05000003 10000000 20000000 02000000 08000000 00003900 00000000 00000002 |
    Request { id: 2, flags: 3, context: 0, opnum: 57, stub: Seq { values: [0, 0, 0, 0, 0, 0, 0, 2] } } |
    same
;
    server |
    05000003 10000000 1d000000 02000000 05000000 00006300 61626364 65 |
    Request { id: 2, flags: 3, context: 0, opnum: 99, stub: Seq { values: [97, 98, 99, 100, 101] } } |
    same
;
    client |
    05000203 10000000 1c000000 01000000 04000000 00000000 01020304 |
    Response { id: 1, flags: 3, context: 0, hint: 4, stub: Seq { values: [1, 2, 3, 4] } } |
    same
;
    client |
    05000203 10000000 1e000000 06000000 06000000 01000000 61626364 6566 |
    Response { id: 6, flags: 3, context: 1, hint: 6, stub: Seq { values: [97, 98, 99, 100, 101, 102] } } |
    same";

/// Packed by the `ncacn_packet` of python3-samba 4.17.12. The object UUID isn't kept, and so isn't written.
const AN_OBJECT_UUID_IS_PASSED_OVER: &str = "
    server |
    05000083 10000000 2c000000 06000000 04000000 01000500 04030201 06050807 090a0b0c 0d0e0f10 61626364 |
    Request { id: 6, flags: 131, context: 1, opnum: 5, stub: Seq { values: [97, 98, 99, 100] } } |
    05000083 10000000 1c000000 06000000 04000000 01000500 61626364";

/// Packed by the `ncacn_packet` of python3-samba 4.17.12.
const FAULTS_CANCELS_AND_ORPHANS: &str = "
    client |
    05000323 10000000 20000000 07000000 00000000 01000000 0300011c 00000000 |
    Fault { id: 7, context: 1, status: 469827587 } |
    same
;
    server |
    05001203 10000000 10000000 08000000 |
    Cancel { id: 8 } |
    same
;
    server |
    05001303 10000000 10000000 09000000 |
    Orphaned { id: 9 } |
    same";

/// The words of a text with single spaces between them.
fn in_words(alloc: Global, text: &str) -> Result<String, Fail> {
    let mut all = String::new(alloc);
    for word in text.split_ascii_whitespace() {
        if !all.is_empty() {
            all.push(' ')?;
        }
        all.push_str(word)?;
    }
    Ok(all)
}

fn side_of(word: &str) -> Side {
    if word == "client" {
        Side::Client
    } else {
        Side::Server
    }
}

/// The PDU that bytes are.
fn whole(alloc: Global, side: Side, bytes: &[u8]) -> Result<Pdu, Fail>
    ensures parts { IfOk result (λ pdu. HasFewParts pdu) }
    ensures size { IfOk result (λ pdu. size_of pdu ≤ 65535) }
{
    match read_pdu(alloc, side, bytes) {
        ReadPdu::Got { pdu, used, .. } => {
            if used == bytes.len() {
                Ok(pdu)
            } else {
                Err(Fail::from("bytes are left"))
            }
        }
        _ => Err(Fail::from("no whole PDU")),
    }
}

/// Whether bytes are a PDU that says this, and is written so.
fn is_again(
    alloc: Global,
    side: Side,
    bytes: &[u8],
    says: &str,
    again: &[u8],
) -> Result<bool, Fail> {
    let pdu = whole(alloc, side, bytes)?;
    let written = write_pdu(alloc, &pdu)?;
    Ok(format!(in alloc; "{pdu:?}")?.as_str() == says && written.as_slice() == again)
}

/// Whether each beginning of bytes is less than a PDU.
fn are_less(alloc: Global, side: Side, bytes: &[u8]) -> bool {
    for cut in 0..bytes.len() {
        match read_pdu(alloc, side, &bytes[..cut]) {
            ReadPdu::More => {}
            _ => return false,
        }
    }
    true
}

/// Whether bytes begin with the whole PDU, whatever follows.
fn are_in_front(alloc: Global, side: Side, bytes: &[u8]) -> Result<bool, Fail> {
    let mut more = bytes.to_vec(alloc)?;
    more.extend_from_slice(&[5, 0, 255])?;
    match read_pdu(alloc, side, &more) {
        ReadPdu::Got { used, .. } => Ok(used == bytes.len()),
        _ => Ok(false),
    }
}

fn is_told(alloc: Global, case: &str) -> Result<bool, Fail> {
    let (side, others) = case.split_once('|').ok_or("no side")?;
    let (text, others) = others.split_once('|').ok_or("no bytes")?;
    let (says, again) = others.split_once('|').ok_or("nothing said")?;
    let side = side_of(side.trim());
    let bytes = bytes_of(alloc, text)?;
    let says = in_words(alloc, says)?;
    let again = bytes_of(alloc, if again.trim() == "same" { text } else { again })?;
    Ok(
        is_again(alloc, side, &bytes, says.as_str(), &again)?
            && are_less(alloc, side, &bytes)
            && are_in_front(alloc, side, &bytes)?,
    )
}

#[test]
fn pdus_are_read_and_written(rt: HostRuntime) -> Result<(), Fail> {
    for cases in [
        A_BIND_AND_ITS_ANSWER,
        BINDS_WITH_FEATURE_NEGOTIATION,
        BINDS_WITH_SEVERAL_TRANSFER_SYNTAXES,
        AN_ALTER_CONTEXT_AND_ITS_ANSWER,
        ANSWERS_WITH_A_SECONDARY_ADDRESS,
        A_REFUSED_BIND,
        REQUESTS_AND_RESPONSES,
        AN_OBJECT_UUID_IS_PASSED_OVER,
        FAULTS_CANCELS_AND_ORPHANS,
    ] {
        for case in cases.split(';') {
            assert!(rt; is_told(rt.alloc(), case)?, "{case}");
        }
    }
    Ok(())
}

/// In each line the side that reads; the place, the cause, the type byte and the call id of the refusal; and the bytes.
/// The order and the places are those of the list of causes at [`ReadPdu`].
///
/// Server: version, representation, type, least lengths, verifier, body; then the earlier of two causes. Client: the
/// same, and last a fault of python3-impacket 0.10.0, which lacks its last four bytes.
const REFUSED: &str = "\
server 0 1 11 1|04000b03 10000000 48000000 01000000
server 0 1 11 1|05020b03 10000000 48000000 01000000
server 4 2 11 16777216|05000b03 00000000 00480000 00000001
server 4 2 11 1|05000b03 10010000 48000000 01000000
server 2 3 12 1|05000c03 10000000 38000000 01000000
server 2 3 16 1|05001003 10000000 38000000 01000000
server 8 4 0 2|05000003 10000000 17000000 02000000
server 8 4 0 2|05000083 10000000 27000000 02000000
server 8 4 11 2|05000b03 10000000 1b000000 02000000
server 8 4 14 2|05000e03 10000000 1b000000 02000000
server 8 4 18 2|05001203 10000000 0f000000 02000000
server 8 4 19 2|05001303 10000000 0f000000 02000000
server 10 5 11 1|05000b03 10000000 58001000 01000000
server 10 5 0 1|05000003 10000000 28000100 01000000
server 16 6 11 1|05000b03 10000000 1c000000 01000000 b810b810 00000000 01000000
server 16 6 14 1|05000e03 10000000 34000000 01000000 b810b810 00000000 01000000 00000100 78573412 3412cdab \
ef000123456789ac01000000
server 0 1 12 1|04000c03 00000000 00001000 01000000
server 4 2 12 1|05000c03 00000000 00001000 01000000
server 2 3 12 1|05000c03 10000000 00001000 01000000
server 8 4 11 1|05000b03 10000000 00001000 01000000
client 0 1 12 1|04000c03 10000000 38000000 01000000
client 4 2 12 1|05000c03 00000000 38000000 01000000
client 2 3 11 1|05000b03 10000000 48000000 01000000
client 8 4 2 2|05000203 10000000 17000000 02000000
client 8 4 12 2|05000c03 10000000 1f000000 02000000
client 8 4 15 2|05000f03 10000000 1f000000 02000000
client 8 4 13 2|05000d03 10000000 11000000 02000000
client 10 5 12 1|05000c03 10000000 48001000 01000000
client 16 6 12 1|05000c03 10000000 20000000 01000000 b810b810 01000000 01000000 01000000
client 16 6 15 1|05000f03 10000000 20000000 01000000 b810b810 01000000 ff000000 00000000
client 8 4 3 2|05000303 10000000 1c000000 02000000 05000000 00006300 e4060000";

/// The refusal of the first PDU as text, or that there is none.
fn refusal_of(alloc: Global, side: Side, bytes: &[u8]) -> Result<String, Fail> {
    match read_pdu(alloc, side, bytes) {
        ReadPdu::Refused {
            place,
            cause,
            ptype,
            id,
        } => Ok(format!(in alloc; "{place} {cause} {ptype} {id}")?),
        _ => Ok(String::from_str(alloc, "none")?),
    }
}

fn is_refused(alloc: Global, line: &str) -> Result<bool, Fail> {
    let (head, text) = line.split_once('|').ok_or("no bytes")?;
    let (side, wanted) = head.split_once(' ').ok_or("no refusal")?;
    let bytes = bytes_of(alloc, text)?;
    Ok(refusal_of(alloc, side_of(side), &bytes)?.as_str() == wanted)
}

#[test]
fn each_cause_has_its_place(rt: HostRuntime) -> Result<(), Fail> {
    for line in REFUSED.lines() {
        assert!(rt; is_refused(rt.alloc(), line)?, "{line}");
    }
    Ok(())
}

fn is_written_as(alloc: Global, bytes: &[u8], again: &[u8]) -> Result<bool, Fail> {
    let pdu = whole(alloc, Side::Server, bytes)?;
    Ok(write_pdu(alloc, &pdu)?.as_slice() == again)
}

/// A bind of which every byte that isn't looked at is set, and bytes after its last element.
const FULL: [&str; 2] = [
    "05010bff 1000ffff 48000000 01000000 b810b810 00000000 01000000 00000100 78573412 3412cdab \
    ef000123 456789ac 01000000 045d888a eb1cc911 9fe80800 2b104860 02000000",
    "05000b03 10000000 4c000000 01000000 b810b810 00000000 01ffffff 000001ff 78573412 3412cdab \
    ef000123 456789ac 01000000 045d888a eb1cc911 9fe80800 2b104860 02000000 ffffffff",
];

const PLAIN: &str =
    "05000b03 10000000 48000000 01000000 b810b810 00000000 01000000 00000100 78573412 3412cdab \
    ef000123 456789ac 01000000 045d888a eb1cc911 9fe80800 2b104860 02000000";

#[test]
fn minor_version_flags_and_what_is_left_are_taken(rt: HostRuntime) -> Result<(), Fail> {
    for text in FULL {
        let bytes = bytes_of(rt.alloc(), text)?;
        let plain = bytes_of(rt.alloc(), PLAIN)?;
        assert!(rt; is_written_as(rt.alloc(), &bytes, &plain)?, "{text}");
    }
    Ok(())
}

/// A request of the largest fragment that the length's 16 bits tell.
#[test]
fn a_fragment_of_65535_bytes(rt: HostRuntime) -> Result<(), Fail> {
    let head = "05000003 10000000 ffff0000 02000000 e7ff0000 00003900";
    let mut bytes = bytes_of(rt.alloc(), head)?;
    bytes.extend_from_slice(&[7; 65511])?;
    assert!(rt; is_written_as(rt.alloc(), &bytes, &bytes)?);
    Ok(())
}

#[test]
fn syntaxes_have_their_names(rt: HostRuntime) -> Result<(), Fail> {
    let names = format!(in rt.alloc(); "{} {} {}", samr().id, lsarpc().id, ndr().id)?;
    assert_eq!(rt;
        names.as_str(),
        "12345778-1234-abcd-ef00-0123456789ac 12345778-1234-abcd-ef00-0123456789ab \
        8a885d04-1ceb-11c9-9fe8-08002b104860"
    );
    assert_eq!(rt;
        (samr().version, lsarpc().version, ndr().version),
        (1, 0, 2)
    );
    assert!(rt; is_same_syntax(&samr(), &samr()));
    assert!(rt; !is_same_syntax(&samr(), &lsarpc()));
    Ok(())
}

#[test]
fn laws_can_be_called(_rt: HostRuntime) {
    front_is_stable();
    whole_is_exactly_a_pdu();
    written_is_read_back();
    bytes_divide_once();
}
