// The connections: each peer's stream and phase.
ghost use Rattle.std.specs.Prelude.{◌≡◌, false, Some, OnOk, OnErr, IfOk};
ghost use Rattle.rpc_session.specs.Sessions.{HasRoom, on, is_going};
ghost use Rattle.link_sessions.specs.declared.connections.Peer.TheVariants as peer;
ghost use Rattle.link_sessions.specs.Connections.{nothing_heard, is_served};

use rpc_session::{Act, Bytes2Acts};
use std::alloc::{AllocError, Global};

/// How a connection stands with its peer.
#[derive(Debug, Drop)]
pub enum Peer {
    /// It was opened and not ended. The server may have closed it: then nothing more is heard.
    Open(Bytes2Acts),
    /// It was ended.
    Ended,
}

/// Whether a connection was opened, and neither ended nor closed by the server.
pub fn is_served(peer: &Peer) -> bool
    ensures { result ≡ is_served (Some peer.now) }
{
    match peer {
        Peer::Open(stream) => stream.is_going(),
        Peer::Ended => false,
    }
}

/// A connection of which nothing has come.
#[tactic(auto, unfolding(rpc_session::specs::Sessions::hear, rpc_session::specs::Sessions::hear_in))]
pub fn new_peer(alloc: Global, conn: u32) -> Peer
    ensures { result ≡ peer.Open (nothing_heard conn) }
{
    Peer::Open(Bytes2Acts::new(alloc, conn))
}

/// The acts that a piece of a connection's stream completes.
pub fn heard(alloc: Global, stream: &mut Bytes2Acts, piece: &[u8]) -> Result<Vec<Act>, AllocError>
    requires { HasRoom stream.old piece.now }
    ensures acts { IfOk result (λ acts. acts.items ≡ (on stream.old piece.now).acts) }
    ensures leaves { OnOk result (stream.new ≡ (on stream.old piece.now).leaves) }
    ensures err { OnErr result (is_going stream.new ≡ false) }
{
    let mut acts = Vec::new(alloc);
    stream.feed(alloc, piece, &mut acts)?;
    Ok(acts)
}
