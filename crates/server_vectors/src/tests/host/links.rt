// The real caller and its links, over sockets of this process, and what is said where they fail.
use acct_links::{Caller, Link, TakeError, send};
use host_world::{HostCaller, HostLink, Stranger, Trouble, stranger_of};
use std::alloc::Global;
use std::io::{Read, Write};
use std::net::TcpListener;
use std::test::Fail;

/// What answers with some bytes first.
const FRONTS: [(&[u8], Stranger); 6] = [
    (b"HTTP/1.1 400 Bad Request", Stranger::Http),
    (b"SSH-2.0-OpenSSH_9.6", Stranger::Ssh),
    (b"\x15\x03\x01\x00\x02\x02\x46", Stranger::Tls),
    (b"\x05\x00\x0c\x03", Stranger::Other),
    (b"HTTP", Stranger::Other),
    (b"", Stranger::Other),
];

#[test]
fn strangers_by_their_first_bytes(rt: HostRuntime) -> Result<(), Fail> {
    for (front, stranger) in FRONTS {
        assert_eq!(rt; stranger_of(front), stranger);
    }
    Ok(())
}

/// Whether a peer hears what is sent to it, and its answer by HTTP is heard and known.
fn is_heard<S: Read + Write + Drop, P: Read + Write>(
    link: &mut HostLink<S>,
    peer: &mut P,
) -> Result<bool, Fail> {
    let sent = send(link, b"bind").is_ok();
    peer.write_all(b"HTTP/1.1 400 Bad Request\r\n")?;
    let mut answer = [0u8; 64];
    let came = link.read(&mut answer)? == 26;
    let mut heard = [0u8; 4];
    let asked = peer.read(&mut heard)? == 4;
    let known = link.stranger() == Stranger::Http;
    Ok(sent && came && asked && known && &heard == b"bind")
}

fn has_ended<S: Read + Write + Drop>(link: &mut HostLink<S>) -> bool {
    let mut rest = [0u8; 64];
    matches!(link.read(&mut rest), Ok(0))
}

/// Whether a link has ended, that alone is what went wrong, and it is still known what answered.
fn ends<S: Read + Write + Drop>(mut link: HostLink<S>) -> bool {
    let ended = has_ended(&mut link);
    let known = link.stranger() == Stranger::Http;
    matches!(link.into_trouble(), Some(Trouble::Ended)) && ended && known
}

/// The same at a listener, to which the link goes, until the peer closes.
fn is_heard_at<S: Read + Write + Drop>(
    listener: &TcpListener,
    link: &mut HostLink<S>,
) -> Result<bool, Fail> {
    let (mut peer, _) = listener.accept()?;
    let heard = is_heard(link, &mut peer);
    drop(peer);
    heard
}

fn is_met(
    listener: &TcpListener,
    caller: &mut HostCaller<'_, HostRuntime>,
    address: &str,
) -> Result<bool, Fail> {
    let mut link = caller.link(address)?;
    let heard = is_heard_at(listener, &mut link);
    let ends = ends(link);
    Ok(heard? && ends)
}

fn address_of(alloc: Global, listener: &TcpListener) -> Result<String, Fail> {
    let port = listener.local_addr()?.port();
    Ok(format!(in alloc; "tcp:127.0.0.1:{port}")?)
}

#[test]
fn a_peer_that_answers_by_http_and_then_closes(rt: HostRuntime) -> Result<(), Fail> {
    let listener = TcpListener::bind(&rt, "127.0.0.1:0")?;
    let address = address_of(rt.alloc(), &listener)?;
    let mut caller = HostCaller::new(&rt);
    assert!(rt; is_met(&listener, &mut caller, address.as_str())?);
    assert!(rt; caller.into_trouble().is_none());
    Ok(())
}

/// What went wrong with a call of an address, if there was no link.
fn trouble_at(rt: &HostRuntime, address: &str) -> Option<Trouble> {
    let mut caller = HostCaller::new(rt);
    let has_failed = matches!(caller.link(address), Err(TakeError::Failed));
    let trouble = caller.into_trouble();
    if has_failed { trouble } else { None }
}

fn is_not_reached(rt: &HostRuntime, address: &str) -> bool {
    matches!(trouble_at(rt, address), Some(Trouble::NotReached(_)))
}

#[test]
fn nobody_at_an_address(rt: HostRuntime) -> Result<(), Fail> {
    for address in ["unix:/nowhere/account", "tcp:127.0.0.1:1", "account"] {
        assert!(rt; is_not_reached(&rt, address), "{address}");
    }
    Ok(())
}

fn said(alloc: Global, trouble: &Trouble) -> Result<String, Fail> {
    Ok(format!(in alloc; "{trouble}")?)
}

/// What is said of a call of an address where nothing is.
fn said_at(rt: &HostRuntime, address: &str) -> Result<String, Fail> {
    match trouble_at(rt, address) {
        Some(trouble) => said(rt.alloc(), &trouble),
        None => Ok(String::new(rt.alloc())),
    }
}

#[test]
fn what_went_wrong_is_said(rt: HostRuntime) -> Result<(), Fail> {
    assert_eq!(rt;
        said_at(&rt, "unix:/nowhere/account")?.as_str(),
        "no connection (No such file or directory (os error 2)); start the server there, or give the address at which \
        it listens"
    );
    assert_eq!(rt;
        said(rt.alloc(), &Trouble::Ended)?.as_str(),
        "the server closed the connection before its answer was whole; see whether it still runs, and call again"
    );
    Ok(())
}
