// Why links were closed that neither ended nor failed.
use acct_links::Link;
use host_doors::{Channel, CloseCause, HostLink};
use std::io::Write;
use std::net::{TcpListener, TcpStream};
use std::test::Fail;

// A fault with a status.
fn fault(status: u32) -> [u8; 32] {
    let mut pdu = [0u8; 32];
    pdu[2] = 3;
    let bytes = status.to_le_bytes();
    for place in 0..4 {
        pdu[24 + place] = bytes[place];
    }
    pdu
}

// A bind_nak.
fn nak() -> [u8; 24] {
    let mut pdu = [0u8; 24];
    pdu[2] = 13;
    pdu
}

// The status of the fault that was written last, and why the link was closed then.
const FAULTS: [(u32, CloseCause); 4] = [
    (0x1C01_000B, CloseCause::Refused),
    (0x1C01_0014, CloseCause::Full),
    (0x0000_06F7, CloseCause::Memory),
    (0x1C01_0002, CloseCause::Memory),
];

#[test]
fn why_a_link_was_closed(rt: HostRuntime) -> Result<(), Fail> {
    let listener = TcpListener::bind(&rt, "127.0.0.1:0")?;
    let mut client = TcpStream::connect(&rt, listener.local_addr()?)?;
    let (stream, _) = listener.accept()?;
    let mut link: HostLink<HostRuntime, TcpStream> = HostLink::new(Channel::Tcp(stream), None);
    for (status, cause) in FAULTS {
        assert_eq!(rt; link.write(&fault(status))?, 32);
        assert!(rt; link.close_cause() == cause, "{status}");
    }
    assert_eq!(rt; link.write(&nak())?, 24);
    assert!(rt; link.close_cause() == CloseCause::Refused);
    // The rest of a longer reply, of which a part was taken before.
    assert_eq!(rt; link.write(&[5, 0, 13, 3])?, 4);
    assert!(rt; link.close_cause() == CloseCause::Memory);
    client.write_all(b"ask")?;
    assert_eq!(rt; link.read(&mut [0u8; 3])?, 3);
    assert!(rt; link.close_cause() == CloseCause::Limit(3));
    client.write_all(b"ask")?;
    assert_eq!(rt; link.read(&mut [0u8; 9])?, 3);
    assert!(rt; link.close_cause() == CloseCause::Memory);
    Ok(())
}
