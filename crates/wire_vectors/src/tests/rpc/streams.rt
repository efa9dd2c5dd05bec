// Streams of several PDUs, cut anywhere. The PDUs are written down from C706, sections 12.6.3 and 12.6.4.
ghost use Rattle.std.specs.Prelude.{◌≡◌, ◌≤◌, length};

use crate::tests::digits::bytes_of;
use rpc_session::{
    Act, Bytes2Acts, Request, acts_are_of_pdus, calls_fit, fault_bytes, replies_bring_stubs,
    reply_bytes, room_by_length, streams_are_cut_anywhere,
};
use std::alloc::Global;
use std::test::Fail;

/// A bind that offers SAMR as context 0, its first three words apart, and the answer to it.
const REST: &str = "01000000 b810b810 00000000 01000000 00000100 78573412 3412cdab ef000123 \
    456789ac 01000000 045d888a eb1cc911 9fe80800 2b104860 02000000";

const ACK: &str = "05000c03 10000000 38000000 01000000 b810b810 01000000 01000000 01000000 \
    00000000 045d888a eb1cc911 9fe80800 2b104860 02000000";

/// Each case has the PDUs of a stream, an equals sign, and its acts with commas between them. `BIND`, `REST` and `ACK`
/// stand for the bind, for what stands after its first three words, and for its answer.
///
/// The first run; three transfer syntaxes; a request of three fragments, and a first one while another is partial; a
/// second context, with a cancel of the partial request and an orphaned of another, which change nothing, and a request
/// that is dropped and comes again; a bind without its element; a bind whose replies come in at most 1,433 bytes.
const STREAMS: &str = "
    BIND
    05000003 10000000 20000000 02000000 08000000 00003900 00000000 00000002
    05000003 10000000 2c000000 03000000 14000000 00000100 00000000 00000000 00000100 00000000 00000001
    = ACK ,
    call 2 0 Samr 57 4280 00000000 00000002 ,
    call 3 0 Samr 1 4280 00000000 00000000 00000100 00000000 00000001
;
    05000b03 10000000 a0000000 01000000 b810b810 00000000 03000000
    00000100 78573412 3412cdab ef000123 456789ac 01000000 045d888a eb1cc911 9fe80800 2b104860 02000000
    01000100 78573412 3412cdab ef000123 456789ac 01000000 33057171 babe3749 8319b5db ef9ccc36 01000000
    02000100 78573412 3412cdab ef000123 456789ac 01000000 2c1cb76c 12984045 03000000 00000000 01000000
    05000003 10000000 1c000000 02000000 04000000 01003900 00000002
    = answered 05000c03 10000000 68000000 01000000 b810b810 01000000 01000000 03000000 00000000 045d888a eb1cc911
    9fe80800 2b104860 02000000 02000200 00000000 00000000 00000000 00000000 00000000 02000200 00000000 00000000
    00000000 00000000 00000000 ,
    answered 05000323 10000000 20000000 02000000 00000000 01000000 0300011c 00000000
;
    BIND
    05000001 10000000 1c000000 02000000 04000000 00003900 00000000
    05000000 10000000 1c000000 02000000 04000000 00003900 00000002
    05000002 10000000 18000000 02000000 00000000 00003900
    05000001 10000000 1c000000 03000000 04000000 00003900 00000002
    05000001 10000000 1c000000 03000000 04000000 00003900 00000002
    05000003 10000000 1c000000 04000000 04000000 00003900 00000002
    = ACK ,
    call 2 0 Samr 57 4280 00000000 00000002 ,
    closed 180 7 05000323 10000000 20000000 03000000 00000000 00000000 0b00011c 00000000
;
    BIND
    05000e03 10000000 48000000 03000000 d016d016 00000000 01000000
    01000100 78573412 3412cdab ef000123 456789ab 00000000 045d888a eb1cc911 9fe80800 2b104860 02000000
    05000003 10000000 1c000000 04000000 04000000 01002c00 00000002
    05000001 10000000 1c000000 05000000 04000000 00003900 00000000
    05001203 10000000 10000000 05000000
    05001303 10000000 10000000 06000000
    05000002 10000000 1c000000 05000000 04000000 00003900 00000002
    05000001 10000000 1c000000 07000000 04000000 00003900 00000000
    05001303 10000000 10000000 07000000
    05000003 10000000 1c000000 07000000 04000000 00003900 00000002
    = ACK ,
    answered 05000f03 10000000 38000000 03000000 b810b810 01000000 00000000 01000000 00000000 045d888a eb1cc911
    9fe80800 2b104860 02000000 ,
    call 4 1 Lsa 44 4280 00000002 ,
    call 5 0 Samr 57 4280 00000000 00000002 ,
    call 7 0 Samr 57 4280 00000002
;
    05000b03 10000000 1c000000 01000000 b810b810 00000000 01000000
    = closed 16 6 05000d03 10000000 18000000 01000000 00000105 00000000
;
    05000b03 10000000 48000000 01000000 98059905 00000000 01000000 00000100 78573412 3412cdab ef000123 456789ac
    01000000 045d888a eb1cc911 9fe80800 2b104860 02000000
    05000003 10000000 20000000 02000000 08000000 00003900 00000000 00000002
    = answered 05000c03 10000000 38000000 01000000 99059805 01000000 01000000 01000000 00000000 045d888a eb1cc911
    9fe80800 2b104860 02000000 ,
    call 2 0 Samr 57 1433 00000000 00000002";

/// Refused binds, and what is refused after a bind: another bind, a later fragment without a first, and an auth3 and a
/// shutdown, as python3-samba 4.17.12 writes them: types that a server doesn't read.
const REFUSED: &str = "
    05000b03 10000000 48001000 REST
    = closed 10 5 05000d03 10000000 18000000 01000000 00000105 00000000
;
    04000b03 10000000 48000000 REST
    = closed 0 1 05000d03 10000000 18000000 01000000 04000105 00000000
;
    05000b03 11000000 48000000 REST
    = closed 4 2 05000d03 10000000 18000000 01000000 00000105 00000000
;
    05000c03 10000000 48000000 REST
    = closed 2 3 05000323 10000000 20000000 01000000 00000000 00000000 0b00011c 00000000
;
    05000b03 10000000 1b000000 REST
    = closed 8 4 05000d03 10000000 18000000 01000000 00000105 00000000
;
    05000e03 10000000 48000000 REST
    = closed 0 10 05000323 10000000 20000000 01000000 00000000 00000000 0b00011c 00000000
;
    BIND
    BIND
    = ACK ,
    closed 72 10 05000d03 10000000 18000000 01000000 00000105 00000000
;
    BIND
    05000002 10000000 1c000000 02000000 04000000 00003900 00000002
    = ACK ,
    closed 72 8 05000323 10000000 20000000 02000000 00000000 00000000 0b00011c 00000000
;
    BIND
    05001003 10000000 14000000 0c000000 00000000
    = ACK ,
    closed 74 3 05000323 10000000 20000000 0c000000 00000000 00000000 0b00011c 00000000
;
    BIND
    05001103 10000000 10000000 0b000000
    = ACK ,
    closed 74 3 05000323 10000000 20000000 0b000000 00000000 00000000 0b00011c 00000000";

/// What the client of python3-impacket 0.10.0 sent, its random interfaces with it, in fragments of 12 bytes where its
/// calls are cut; its cancel and its orphaned are written by its `MSRPCHeader`. Two unknown interfaces, SAMR as context
/// 2; SamrConnect2 in three fragments, each with the hint of all; a call id that the bind had too; SamrCloseHandle with
/// an object UUID; LSARPC by an alter_context; LsarOpenPolicy2 with a cancel in it; LsarClose dropped, and another.
const IMPACKET: &str = "
    05000b03 10000000 a0000000 01000000 b810b810 00000000 03000000
    00000100 1c5a7329 f2a65379 9b064f13 87938932 02000000 045d888a eb1cc911 9fe80800 2b104860 02000000
    01000100 28d25153 e83f2e06 99974509 12841f69 02000000 045d888a eb1cc911 9fe80800 2b104860 02000000
    02000100 78573412 3412cdab ef000123 456789ac 01000000 045d888a eb1cc911 9fe80800 2b104860 02000000
    05000001 10000000 24000000 01000000 24000000 02003900 30890000 08000000 00000000
    05000000 10000000 24000000 01000000 24000000 02003900 08000000 73006500 72007600
    05000002 10000000 24000000 01000000 24000000 02003900 65007200 31000000 00000002
    05000083 10000000 40000000 02000000 18000000 02000100 44332211 66558877 99aabbcc ddeeff00
    00010203 04050607 08090a0b 0c0d0e0f 10111213 00000000
    05000e03 10000000 48000000 03000000 b810b810 00000000 01000000
    03000100 78573412 3412cdab ef000123 456789ab 00000000 045d888a eb1cc911 9fe80800 2b104860 02000000
    05000001 10000000 24000000 03000000 20000000 03002c00 00000000 00000000 00000000
    05001203 10000000 10000000 03000000
    05000000 10000000 24000000 03000000 20000000 03002c00 00000000 00000000 00000000
    05000002 10000000 20000000 03000000 20000000 03002c00 00000000 00000002
    05000001 10000000 24000000 04000000 14000000 03000000 14151617 18191a1b 1c1d1e1f
    05001303 10000000 10000000 04000000
    05000003 10000000 2c000000 05000000 14000000 03000000 28292a2b 2c2d2e2f 30313233 34353637 38393a3b
    = answered 05000c03 10000000 68000000 01000000 b810b810 01000000 01000000 03000000 02000100 00000000 00000000
    00000000 00000000 00000000 02000100 00000000 00000000 00000000 00000000 00000000 00000000 045d888a eb1cc911
    9fe80800 2b104860 02000000 ,
    call 1 2 Samr 57 4280 30890000 08000000 00000000 08000000 73006500 72007600 65007200 31000000 00000002 ,
    call 2 2 Samr 1 4280 00010203 04050607 08090a0b 0c0d0e0f 10111213 00000000 ,
    answered 05000f03 10000000 38000000 03000000 b810b810 01000000 00000000 01000000 00000000 045d888a eb1cc911
    9fe80800 2b104860 02000000 ,
    call 3 3 Lsa 44 4280 00000000 00000000 00000000 00000000 00000000 00000000 00000000 00000002 ,
    call 5 3 Lsa 0 4280 28292a2b 2c2d2e2f 30313233 34353637 38393a3b";

/// A connection as `RawDCERPCTest` of python3-samba 4.17.12 writes PDUs. The bind asks for 5,840 and 2,048 bytes, and
/// offers four contexts: SAMR by NDR64 or NDR, LSARPC, SAMR by the negotiation of features alone, and another interface
/// as context 65535. SamrConnect2 comes in four fragments, one of which is empty; LsarOpenPolicy2 in three, the later
/// ones with another context and opnum, and with a cancel and an orphaned of another call between; SamrCloseHandle
/// begins, and is dropped. The alter_context asks for other sizes; it has SAMR as context 1, LSARPC by NDR64 alone as
/// context 0, and LSARPC as context 7. A call comes on each of these, one with an object UUID, and one on context 2;
/// then a second bind, and a call after it.
///
/// The answers were packed by the `ncacn_packet` of python3-samba from the values that the rules give, except for the
/// secondary address of the first, the empty one with its zero byte.
const SAMBA: &str = "
    05000b03 10000000 e0000000 ffffff7f d0160008 00000000 04000000
    00000200 78573412 3412cdab ef000123 456789ac 01000000 33057171 babe3749 8319b5db ef9ccc36 01000000 045d888a
    eb1cc911 9fe80800 2b104860 02000000
    01000100 78573412 3412cdab ef000123 456789ab 00000000 045d888a eb1cc911 9fe80800 2b104860 02000000
    02000100 78573412 3412cdab ef000123 456789ac 01000000 2c1cb76c 12984045 03000000 00000000 01000000
    ffff0100 80bda8af 8a7dc911 bef40800 2b102989 01000000 045d888a eb1cc911 9fe80800 2b104860 02000000
    05000001 10000000 1d000000 02000000 24000000 00003900 00000200 07
    05000000 10000000 23000000 02000000 1f000000 00003900 00000000 00000007 000000
    05000000 10000000 18000000 02000000 14000000 00003900
    05000002 10000000 2c000000 02000000 14000000 00003900 73006500 72007600 65007200 00000000 00000002
    05000001 10000000 28000000 03000000 3c000000 01002c00 00000200 07000000 00000000 07000000
    05001203 10000000 10000000 03000000
    05000000 10000000 30000000 03000000 2c000000 00003900 73006500 72007600 65007200 00000000 18000000 00000000
    05001303 10000000 10000000 02000000
    05000002 10000000 2c000000 03000000 14000000 00003900 00000000 00000000 00000000 00000000 00000002
    05000001 10000000 20000000 04000000 14000000 00000100 00000000 01000000
    05001303 10000000 10000000 04000000
    05000e03 10000000 b4000000 05000000 b8100004 00000000 03000000
    01000100 78573412 3412cdab ef000123 456789ac 01000000 045d888a eb1cc911 9fe80800 2b104860 02000000
    00000100 78573412 3412cdab ef000123 456789ab 00000000 33057171 babe3749 8319b5db ef9ccc36 01000000
    07000200 78573412 3412cdab ef000123 456789ab 00000000 045d888a eb1cc911 9fe80800 2b104860 02000000 33057171
    babe3749 8319b5db ef9ccc36 01000000
    05000003 10000000 2c000000 06000000 14000000 01000100 00000000 01000000 00000000 00000000 00000001
    05000003 10000000 2c000000 07000000 14000000 00000100 00000000 01000000 00000000 00000000 00000001
    05000083 10000000 3c000000 08000000 14000000 07000000 44332211 66558877 99aabbcc ddeeff00
    00000000 01000000 00000000 00000000 00000001
    05000003 10000000 2c000000 09000000 14000000 02000100 00000000 01000000 00000000 00000000 00000001
    05000b03 10000000 48000000 0a000000 d0160008 00000000 01000000
    00000100 78573412 3412cdab ef000123 456789ac 01000000 045d888a eb1cc911 9fe80800 2b104860 02000000
    05000003 10000000 2c000000 06000000 14000000 01000100 00000000 01000000 00000000 00000000 00000001
    = answered 05000c03 10000000 80000000 ffffff7f 0008b810 01000000 01000000 04000000 00000000 045d888a eb1cc911
    9fe80800 2b104860 02000000 00000000 045d888a eb1cc911 9fe80800 2b104860 02000000 02000200 00000000 00000000
    00000000 00000000 00000000 02000100 00000000 00000000 00000000 00000000 00000000 ,
    call 2 0 Samr 57 2048 00000200 07000000 00000000 07000000 73006500 72007600 65007200 00000000 00000002 ,
    call 3 1 Lsa 44 2048 00000200 07000000 00000000 07000000 73006500 72007600 65007200 00000000 18000000 00000000
    00000000 00000000 00000000 00000000 00000002 ,
    answered 05000f03 10000000 68000000 05000000 0008b810 01000000 00000000 03000000 00000000 045d888a eb1cc911
    9fe80800 2b104860 02000000 02000200 00000000 00000000 00000000 00000000 00000000 00000000 045d888a eb1cc911
    9fe80800 2b104860 02000000 ,
    call 6 1 Samr 1 2048 00000000 01000000 00000000 00000000 00000001 ,
    call 7 0 Samr 1 2048 00000000 01000000 00000000 00000000 00000001 ,
    call 8 7 Lsa 0 2048 00000000 01000000 00000000 00000000 00000001 ,
    answered 05000323 10000000 20000000 09000000 00000000 02000000 0300011c 00000000 ,
    closed 940 10 05000d03 10000000 18000000 0a000000 00000105 00000000";

/// Hexadecimal digits, with a space after each four bytes.
fn hex_of(alloc: Global, bytes: &[u8]) -> Result<String, Fail> {
    let mut text = String::new(alloc);
    for (place, byte) in bytes.iter().enumerate() {
        if place > 0 && place % 4 == 0 {
            text.push(' ')?;
        }
        write!(text, "{byte:02x}")?;
    }
    Ok(text)
}

fn shown_act(alloc: Global, act: &Act) -> Result<String, Fail> {
    match act {
        Act::Answered { bytes } => {
            Ok(format!(in alloc; "answered {}", hex_of(alloc, bytes.as_slice())?)?)
        }
        Act::Call(
            Request {
                id,
                context,
                face,
                opnum,
                size,
                stub,
            },
        ) => {
            let stub = hex_of(alloc, stub.as_slice())?;
            Ok(format!(in alloc; "call {id} {context} {face:?} {opnum} {size} {stub}")?)
        }
        Act::Closed {
            place,
            cause,
            bytes,
        } => {
            let bytes = hex_of(alloc, bytes.as_slice())?;
            Ok(format!(in alloc; "closed {place} {cause} {bytes}")?)
        }
    }
}

/// The acts as text, with commas between them.
fn shown(alloc: Global, acts: &[Act]) -> Result<String, Fail> {
    let mut text = String::new(alloc);
    for act in acts {
        if !text.is_empty() {
            text.push_str(" , ")?;
        }
        text.push_str(shown_act(alloc, act)?.as_str())?;
    }
    Ok(text)
}

/// The acts of a stream in two pieces.
fn heard_in_two(alloc: Global, stream: &[u8], cut: usize) -> Result<Vec<Act>, Fail>
    requires { cut ≤ length stream.now }
{
    room_by_length();
    let mut acts = Vec::new(alloc);
    let mut connection = Bytes2Acts::new(alloc, 1);
    let (front, rest) = stream.split_at(cut);
    connection.feed(alloc, front, &mut acts)?;
    connection.feed(alloc, rest, &mut acts)?;
    Ok(acts)
}

/// The acts of a stream byte by byte.
fn heard_by_bytes(alloc: Global, stream: &[u8]) -> Result<Vec<Act>, Fail> {
    room_by_length();
    let mut acts = Vec::new(alloc);
    let mut connection = Bytes2Acts::new(alloc, 1);
    for byte in stream {
        connection.feed(alloc, &[*byte], &mut acts)?;
    }
    Ok(acts)
}

fn shows_in_two(alloc: Global, stream: &[u8], cut: usize, acts: &str) -> Result<bool, Fail>
    requires { cut ≤ length stream.now }
{
    let heard = heard_in_two(alloc, stream, cut)?;
    Ok(shown(alloc, &heard)?.as_str() == acts)
}

fn shows_by_bytes(alloc: Global, stream: &[u8], acts: &str) -> Result<bool, Fail> {
    let heard = heard_by_bytes(alloc, stream)?;
    Ok(shown(alloc, &heard)?.as_str() == acts)
}

/// Whether a stream gives these acts, however it is cut.
fn gives(alloc: Global, stream: &[u8], acts: &str) -> Result<bool, Fail> {
    for cut in 0..stream.len() {
        if !shows_in_two(alloc, stream, cut, acts)? {
            return Ok(false);
        }
    }
    shows_by_bytes(alloc, stream, acts)
}

/// The words of a case with single spaces between them, and the words that stand for others replaced.
fn expanded(alloc: Global, case: &str) -> Result<String, Fail> {
    let mut text = String::new(alloc);
    for word in case.split_ascii_whitespace() {
        if !text.is_empty() {
            text.push(' ')?;
        }
        match word {
            "BIND" => write!(text, "05000b03 10000000 48000000 {REST}")?,
            "REST" => text.push_str(REST)?,
            "ACK" => write!(text, "answered {ACK}")?,
            other => text.push_str(other)?,
        }
    }
    Ok(text)
}

fn is_told(alloc: Global, case: &str) -> Result<bool, Fail> {
    let text = expanded(alloc, case)?;
    let (stream, acts) = text.as_str().split_once(" = ").ok_or("no acts")?;
    let bytes = bytes_of(alloc, stream)?;
    gives(alloc, &bytes, acts)
}

#[test]
fn streams_cut_anywhere(rt: HostRuntime) -> Result<(), Fail> {
    for case in STREAMS.split(';') {
        assert!(rt; is_told(rt.alloc(), case)?, "{case}");
    }
    Ok(())
}

#[test]
fn refused_streams(rt: HostRuntime) -> Result<(), Fail> {
    for case in REFUSED.split(';') {
        assert!(rt; is_told(rt.alloc(), case)?, "{case}");
    }
    Ok(())
}

#[test]
fn a_connection_of_impacket(rt: HostRuntime) -> Result<(), Fail> {
    assert!(rt; is_told(rt.alloc(), IMPACKET)?);
    Ok(())
}

#[test]
fn a_connection_of_samba(rt: HostRuntime) -> Result<(), Fail> {
    assert!(rt; is_told(rt.alloc(), SAMBA)?);
    Ok(())
}

/// A head that offers so many contexts, with these for the account database after it.
fn offering(alloc: Global, head: &str, count: u8) -> Result<Vec<u8>, Fail> {
    let mut stream = bytes_of(alloc, expanded(alloc, head)?.as_str())?;
    let element = bytes_of(
        alloc,
        "000100 78573412 3412cdab ef000123 456789ac 01000000 045d888a eb1cc911 9fe80800 2b104860 \
        02000000",
    )?;
    for context in 0..count {
        stream.push(context)?;
        stream.extend_from_slice(&element)?;
    }
    Ok(stream)
}

/// The acts in short: how long the stub of a call is, and where and for which cause a connection is closed.
fn in_short(alloc: Global, acts: &[Act]) -> Result<String, Fail> {
    let mut text = String::new(alloc);
    for act in acts {
        match act {
            Act::Answered { .. } => text.push_str("answered;")?,
            Act::Call(Request { stub, .. }) => { write!(text, "call {};", stub.as_slice().len())? }
            Act::Closed { place, cause, .. } => write!(text, "closed {place} {cause};")?,
        }
    }
    Ok(text)
}

fn is_short(alloc: Global, stream: &[u8], text: &str) -> Result<bool, Fail> {
    let acts = heard_in_two(alloc, stream, 0)?;
    Ok(in_short(alloc, &acts)?.as_str() == text)
}

fn is_short_by_bytes(alloc: Global, stream: &[u8], text: &str) -> Result<bool, Fail> {
    let acts = heard_by_bytes(alloc, stream)?;
    Ok(in_short(alloc, &acts)?.as_str() == text)
}

#[test]
fn sixteen_contexts_and_seventeen(rt: HostRuntime) -> Result<(), Fail> {
    for (head, count, text) in [
        (
            "05000b03 10000000 dc020000 01000000 b810b810 00000000 10000000",
            16,
            "answered;",
        ),
        (
            "05000b03 10000000 08030000 01000000 b810b810 00000000 11000000",
            17,
            "closed 0 11;",
        ),
        (
            "BIND 05000e03 10000000 dc020000 02000000 b810b810 00000000 10000000",
            16,
            "answered;answered;",
        ),
        (
            "BIND 05000e03 10000000 08030000 02000000 b810b810 00000000 11000000",
            17,
            "answered;closed 72 11;",
        ),
    ] {
        let stream = offering(rt.alloc(), head, count)?;
        assert!(rt; is_short_by_bytes(rt.alloc(), &stream, text)?, "{text}");
    }
    Ok(())
}

/// The bytes of an act that answers without a call, which is the only one.
fn answer_of(acts: &[Act]) -> &[u8] {
    match acts {
        [Act::Answered { bytes }] => bytes.as_slice(),
        _ => &[],
    }
}

/// The sizes that answer a bind whose two sizes are these.
fn sizes_answered(alloc: Global, xmit: u16, recv: u16) -> Result<String, Fail> {
    let mut stream = bytes_of(alloc, "05000b03 10000000 48000000 01000000")?;
    stream.extend_from_slice(&xmit.to_le_bytes())?;
    stream.extend_from_slice(&recv.to_le_bytes())?;
    let (_, behind) = REST.split_once("b810b810").ok_or("no sizes")?;
    stream.extend_from_slice(&bytes_of(alloc, behind)?)?;
    let acts = heard_by_bytes(alloc, &stream)?;
    hex_of(alloc, answer_of(&acts).get(16..20).unwrap_or_default())
}

#[test]
fn sizes_at_their_bounds(rt: HostRuntime) -> Result<(), Fail> {
    for (xmit, recv, text) in [
        (0, 1431, "98059805"),
        (1431, 1432, "98059805"),
        (1432, 1433, "99059805"),
        (1433, 1439, "9f059905"),
        (1439, 4279, "b7109f05"),
        (4279, 4280, "b810b710"),
        (4280, 4281, "b810b810"),
        (4281, 65535, "b810b810"),
        (65535, 0, "9805b810"),
    ] {
        let sizes = sizes_answered(rt.alloc(), xmit, recv)?;
        assert_eq!(rt; sizes.as_str(), text, "{xmit} {recv}");
    }
    Ok(())
}

/// So many fragments of a request, each with so many bytes, and then the fragment that hexadecimal digits spell.
fn push_request(
    alloc: Global,
    stream: &mut Vec<u8>,
    count: u16,
    size: u16,
    last: &str,
) -> Result<(), Fail> {
    let part = vec![in alloc; 7u8; usize::from(size)]?;
    let length = size.wrapping_add(24).to_le_bytes();
    let mut flags = 1;
    for _ in 0..count {
        stream.extend_from_slice(&[5, 0, 0, flags, 0x10, 0, 0, 0, length[0], length[1], 0, 0])?;
        stream.extend_from_slice(&[2, 0, 0, 0, 0, 0, 0, 0, 0, 0, 57, 0])?;
        stream.extend_from_slice(&part)?;
        flags = 0;
    }
    stream.extend_from_slice(&bytes_of(alloc, last)?)?;
    Ok(())
}

/// A bind and so many requests.
fn requests_of(
    alloc: Global,
    requests: u8,
    count: u16,
    size: u16,
    last: &str,
) -> Result<Vec<u8>, Fail> {
    let mut stream = bytes_of(alloc, expanded(alloc, "BIND")?.as_str())?;
    for _ in 0..requests {
        push_request(alloc, &mut stream, count, size, last)?;
    }
    Ok(stream)
}

const EMPTY: &str = "05000002 10000000 18000000 02000000 00000000 00003900";

const ONE_BYTE: &str = "05000002 10000000 19000000 02000000 01000000 00003900 07";

/// As many bytes as a stub has at most, and one more; and two megabytes as one piece, in the largest fragments.
#[test]
fn long_requests(rt: HostRuntime) -> Result<(), Fail> {
    for (requests, count, size, last, text) in [
        (1, 256, 4096, EMPTY, "answered;call 1048576;"),
        (1, 256, 4096, ONE_BYTE, "answered;closed 1054792 9;"),
        (2, 16, 65511, EMPTY, "answered;call 1048176;call 1048176;"),
    ] {
        let stream = requests_of(rt.alloc(), requests, count, size, last)?;
        assert!(rt; is_short(rt.alloc(), &stream, text)?, "{text}");
    }
    Ok(())
}

#[test]
fn a_long_request_byte_by_byte(rt: HostRuntime) -> Result<(), Fail> {
    let stream = requests_of(rt.alloc(), 1, 16, 4096, EMPTY)?;
    assert!(rt; is_short_by_bytes(rt.alloc(), &stream, "answered;call 65536;")?);
    Ok(())
}

/// Of each response of a reply its flags, its length and the number of stub bytes from it on.
fn responses(alloc: Global, reply: &[u8]) -> Result<String, Fail> {
    let mut text = String::new(alloc);
    let mut rest = reply;
    for _ in 0..reply.len() {
        match rest {
            [
                5,
                0,
                2,
                flags,
                0x10,
                0,
                0,
                0,
                low,
                high,
                0,
                0,
                _,
                _,
                _,
                _,
                a,
                b,
                c,
                d,
                ..
            ] => {
                let length = u16::from_le_bytes([*low, *high]);
                let hint = u32::from_le_bytes([*a, *b, *c, *d]);
                write!(text, "{flags} {length} {hint};")?;
                rest = rest.get(usize::from(length)..).unwrap_or_default();
            }
            _ => return Ok(text),
        }
    }
    Ok(text)
}

/// The responses that bring a stub of so many bytes in fragments of at most `size`.
fn replied(alloc: Global, size: u16, count: usize) -> Result<String, Fail> {
    if !(1432..=4280).contains(&size) {
        return Err(Fail::from("no size"));
    }
    let stub = vec![in alloc; 7u8; count]?;
    let reply = reply_bytes(alloc, 2, 0, size, &stub)?;
    responses(alloc, &reply)
}

/// A part has at most the largest multiple of 8 that fits after 24 bytes, and no empty response follows.
#[test]
fn replies_at_their_bounds(rt: HostRuntime) -> Result<(), Fail> {
    for (size, count, text) in [
        (1432, 0, "3 24 0;"),
        (1432, 1408, "3 1432 1408;"),
        (1432, 1409, "1 1432 1409;2 25 1;"),
        (1432, 2816, "1 1432 2816;2 1432 1408;"),
        (1433, 1409, "1 1432 1409;2 25 1;"),
        (1439, 1409, "1 1432 1409;2 25 1;"),
        (1440, 1409, "3 1433 1409;"),
        (4279, 4256, "1 4272 4256;2 32 8;"),
        (4280, 4256, "3 4280 4256;"),
        (4280, 4257, "1 4280 4257;2 25 1;"),
    ] {
        let responses = replied(rt.alloc(), size, count)?;
        assert_eq!(rt; responses.as_str(), text, "{size} {count}");
    }
    Ok(())
}

/// A stub of 1,048,576 bytes, as many as a request may bring: 246 responses of 4,256 stub bytes and one of 1,600.
#[test]
fn a_reply_of_a_megabyte(rt: HostRuntime) -> Result<(), Fail> {
    let responses = replied(rt.alloc(), 4280, 1048576)?;
    assert!(rt;
        responses
            .as_str()
            .starts_with("1 4280 1048576;0 4280 1044320;")
    );
    assert!(rt; responses.as_str().ends_with(";0 4280 5856;2 1624 1600;"));
    assert_eq!(rt; responses.as_str().matches(';').count(), 247);
    Ok(())
}

#[test]
fn a_reply_and_a_fault(rt: HostRuntime) -> Result<(), Fail> {
    let stub = bytes_of(
        rt.alloc(),
        "00000000 00000000 00000100 00000000 00000001 00000000",
    )?;
    let reply = reply_bytes(rt.alloc(), 2, 0, 4280, &stub)?;
    assert_eq!(rt;
        hex_of(rt.alloc(), &reply)?.as_str(),
        "05000203 10000000 30000000 02000000 18000000 00000000 00000000 00000000 00000100 00000000 00000001 00000000"
    );
    assert_eq!(rt;
        hex_of(rt.alloc(), &fault_bytes(2, 0, 0x1C010002))?.as_str(),
        "05000323 10000000 20000000 02000000 00000000 00000000 0200011c 00000000"
    );
    Ok(())
}

#[test]
fn laws_can_be_cited(_rt: HostRuntime) {
    acts_are_of_pdus();
    calls_fit();
    replies_bring_stubs();
    streams_are_cut_anywhere();
}
