// Stubs that spell no call: reading one tells the place of its first field that has no reading, and a session answers
// it by a fault, enters no call, and goes on.
use super::{requests, sessions};
use crate::tests::lines::{column, joined, repeated};
use acct_machine::Face;
use std::alloc::Global;
use std::process::Abort;
use std::test::Fail;

/// Each row: the interface, the opnum, the place, and what stands after the handle, with repeat signs. First the
/// lists, SIDs and texts of requests in older operations; then the later ones, at the bounds of each list and text,
/// where what is received and not kept has bounds as well. The places are sums of the lengths before them, from the 20
/// bytes of the handle on.
const STUBS: &str = "samr|17|20|ffffffff e8030000 00000000 ffffffff
samr|17|20|e9030000 e9030000 00000000 e9030000 <1-1001:0000000000000000>
samr|16|20|01040000 00000200 01040000 <1-1025:04000200> <1-1025:010000000101000000000005#>
samr|16|28|01000000 00000200 02000000 04000200 08000200
samr|16|32|01000000 00000200 01000000 00000000
samr|7|29|00000002 10000000 0110000000000005 <1-16:#>
samr|50|20|09000a00 00000200 05000000 00000000 05000000 61006c006900630065000000 10000000 00000002
samr|50|32|0a000a00 00000200 05000000 01000000 05000000 61006c006900630065000000 10000000 00000002
samr|50|36|0a000a00 00000200 05000000 00000000 04000000 61006c006900630065000000 10000000 00000002
lsa|14|20|e9030000 e9030000 <1-1001:0000000000000000> 00000000 00000000 01000000 00000000
lsa|15|20|01500000 01000000 01500000 <1-20481:01000000> <1-20481:000000000100000000000000> 00000000 00000000 01000000 \
    00000000
samr|40|24|0100
samr|40|32|01000000 00000000 0a000000 ffff
samr|2|24|04000000 01000400 00000200 01000400 <1-65536:#> 80
samr|2|28|04000000 01000000 00000000
samr|2|32|04000000 02000000 00000200 03000000 010203
samr|2|37|04000000 02000000 00000200 02000000 01
samr|3|20|040000
lsa|4|24|04000000 01000400 00000200 01000400 <1-65536:#> 80
lsa|4|28|04000000 01000000 00000000
lsa|4|32|04000000 02000000 00000200 03000000 010203
lsa|4|37|04000000 02000000 00000200 02000000 01
lsa|3|20|040000
lsa|57|20|01500000 01000000 01500000 <1-20481:01000000> <1-20481:000000000100000000000000> 00000000 00000000 01000000 \
    00000000 00000000 02000000
lsa|57|28|00000000 00000000 01500000 01000000 01500000 <1-20481:0100000000000000000000000000000000000000> 01000000 \
    00000000 00000000 02000000
lsa|57|32|01000000 01000000 01000000 00000000
lsa|57|41|01000000 01000000 01000000 01000000 10000000 0110000000000005 <1-16:#>
lsa|57|48|00000000 00000000 00000000 00000000 01000000 00000000 00000000 020000
lsa|58|20|e9030000 e9030000 <1-1001:0000000000000000> 00000000 00000000 01000000 00000000 00000000 02000000
lsa|58|28|00000000 00000000 e9030000 01000000 e9030000 <1-1001:01000000000000000000000000000000> 01000000 00000000 \
    00000000 02000000
lsa|58|28|01000000 01000000 ffffffff 01000000
lsa|58|44|01000000 01000000 feffffff 01000000 ff7f0000 00000000 fe7f0000 <1-32767:6100>
lsa|68|20|e9030000 e9030000 <1-1001:0000000000000000> 00000000 00000000 01000000 00000000 00000000 02000000
lsa|68|28|00000000 00000000 e9030000 01000000 e9030000 <1-1001:01000000000000000000000000000000> 01000000 00000000 \
    00000000 02000000
lsa|68|28|01000000 01000000 ffffffff 01000000
lsa|68|61|00000000 00000000 01000000 01000000 01000000 01000000 01000000 00000000 00000000 10000000 0110000000000005 \
    <1-16:#>";

/// The handle that the first opening of the first connection gives.
const HANDLE: &str = "0000000000000000000001000000000000000001";

/// A bind of the policy's interface, and an opening of the policy: what comes before and after its requests.
const BIND_LSA: &str =
    "05000b03100000004800000001000000b810b810000000000100000000000100785734123412cdabef000123456789ab00000000045d888a\
    eb1cc9119fe808002b10486002000000";

const OPEN_POLICY: &str =
    "050000031000000038000000020000002000000000002c000000000018000000000000000000000000000000000000000000000000000002";

/// The digits of a row's stub.
fn digits_of(alloc: Global, stub: &str) -> Result<String, Fail> {
    let stub = repeated(alloc, stub)?;
    let mut digits = joined(alloc, &[HANDLE])?;
    for word in stub.as_str().split_whitespace() {
        digits.push_str(word)?;
    }
    Ok(digits)
}

/// Adds a fragment of the request with the call id 2 and the context 0, by C706's layout of its header.
fn push_fragment(bytes: &mut Vec<u8>, flags: u8, opnum: u16, part: &[u8]) -> Result<(), Fail> {
    let size = part.len().wrapping_add(24).to_le_bytes();
    let opnum = opnum.to_le_bytes();
    bytes.extend_from_slice(&[5, 0, 0, flags, 0x10, 0, 0, 0, size[0], size[1], 0, 0])?;
    bytes.extend_from_slice(&[2, 0, 0, 0, 0, 0, 0, 0, 0, 0, opnum[0], opnum[1]])?;
    bytes.extend_from_slice(part)?;
    Ok(())
}

/// The digits of the request's fragments, of at most 4,096 bytes of the stub each.
fn request_of(alloc: Global, opnum: u16, stub: &[u8]) -> Result<String, Fail> {
    let mut bytes = Vec::new(alloc);
    let count = stub.len().div_ceil(4096);
    for (place, part) in stub.chunks(4096).enumerate() {
        let flags = match (place == 0, place.wrapping_add(1) == count) {
            (true, true) => 3,
            (true, false) => 1,
            (false, true) => 2,
            (false, false) => 0,
        };
        push_fragment(&mut bytes, flags, opnum, part)?;
    }
    Ok(hex::encode(alloc, &bytes)?)
}

/// The row of a session with such a request between a bind and an opening.
fn session_of(alloc: Global, face: Face, request: &str) -> Result<String, Fail> {
    let (bind, opening, opnum) = match face {
        Face::Samr => ("BIND", "CONNECT", "57 Ran 8"),
        Face::Lsa => (BIND_LSA, OPEN_POLICY, "44 Ran 32"),
    };
    let came = joined(alloc, &["|||", bind, " ", request, " ", opening])?;
    let history = joined(alloc, &["opened 1 0;called 1 ", opnum, ";gone 1;"])?;
    joined(
        alloc,
        &[came.as_str(), "|ACK1 STUB FIRST1|End|", history.as_str()],
    )
}

fn tell(rt: &impl Abort, alloc: Global, row: &str) -> Result<(), Fail> {
    let (face, rest) = column(row);
    let (opnum, rest) = column(rest);
    let (place, stub) = column(rest);
    let face = if face == "lsa" { Face::Lsa } else { Face::Samr };
    let opnum = requests::opnum_of(opnum);
    let digits = digits_of(alloc, stub)?;
    let told = requests::told(alloc, face, opnum, digits.as_str())?;
    let wanted = joined(alloc, &["BadStub(", place, ")"])?;
    assert_eq!(rt; told.as_str(), wanted.as_str(), "{row}");
    let stub = hex::decode(alloc, digits.as_str().as_bytes())?;
    let request = request_of(alloc, opnum, &stub)?;
    let session = session_of(alloc, face, request.as_str())?;
    sessions::tell(rt, alloc, session.as_str())
}

#[test]
fn stubs_that_spell_no_call(rt: HostRuntime) -> Result<(), Fail> {
    for row in STUBS.lines() {
        tell(&rt, rt.alloc(), row)?;
    }
    Ok(())
}

/// A fault of a protocol error, whose call id is the one that the first 16 bytes have.
const NO_PDU: &str =
    "|||<1-65535:ff>|050003231000000020000000ffffffff00000000000000000b00011c00000000|Closed { place: \
    0, cause: 1 }|opened 1 0;gone 1;";

#[test]
fn bytes_that_are_no_pdu(rt: HostRuntime) -> Result<(), Fail> {
    let row = repeated(rt.alloc(), NO_PDU)?;
    sessions::tell(&rt, rt.alloc(), row.as_str())
}
