// What answers at an address and isn't an account server.
ghost use Rattle.std.specs.Prelude.{◌≡◌};
ghost use Rattle.host_world.specs.Host.{is_known, stranger_of};

use thiserror::Error;

/// What answers at an address and isn't an account server, as its first bytes show, and what to do about it.
#[derive(Clone, Copy, Debug, PartialEq, Eq, Error)]
pub enum Stranger {
    #[error("an HTTP server answers there; give the address at which the account server listens")]
    Http,
    #[error("an SSH server answers there; give the address at which the account server listens")]
    Ssh,
    #[error("a TLS server answers there; give the address at which the account server listens, which takes no TLS")]
    Tls,
    #[error("what answers there doesn't speak as an account server; give its address, or start it there")]
    Other,
}

impl Stranger {
    /// Whether it is known what answers there.
    pub fn is_known(self) -> bool
        ensures { result ≡ is_known self }
    {
        match self {
            Stranger::Other => false,
            _ => true,
        }
    }
}

/// What answers with these bytes first.
pub fn stranger_of(front: &[u8]) -> Stranger
    ensures { result ≡ stranger_of front.now }
{
    if front.starts_with(b"HTTP/") {
        Stranger::Http
    } else if front.starts_with(b"SSH-") {
        Stranger::Ssh
    } else if front.starts_with(b"\x15\x03") {
        Stranger::Tls
    } else {
        Stranger::Other
    }
}
