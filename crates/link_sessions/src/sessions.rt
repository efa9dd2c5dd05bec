// One connection, from its first byte to its end.
ghost use Rattle.std.specs.Prelude.{◌≡◌, ◌≤◌, ◌<◌, ◌+◌, ◌-◌, ◌^◌, ◌++◌, ℕ, List, length, All, false, None, OnOk};
ghost use Rattle.std.specs.Prelude.{IfOk, IfErr, MatchResult};
ghost use Rattle.acct_machine.specs.declared.entry.Entry.{Entry};
ghost use Rattle.rpc_session.specs.Sessions.{HasRoom, on};
ghost use Rattle.rpc_session.specs.Acts.{IsFit};
ghost use Rattle.acct_links.specs.Links.{Told, FaultsAre};
ghost use Rattle.link_sessions.specs.Turns.{HasNoCall};
ghost use Rattle.link_sessions.specs.Sessions.{refusal_of, closing_of, Faults, IsConversation, IsSession, Ended};
ghost use Rattle.link_sessions.specs.steps.Talking.{Talks, StopsTalk};
ghost use Rattle.link_sessions.specs.steps.SoFar.{SoFar, HeardBytes, PieceEnds, end_of_stop};

use crate::answers::answer_all;
use crate::connections::heard;
use crate::ends::{SessionEnd, Stop};
use crate::gate::Gate;
use acct_links::Link;
use rpc_session::{Act, Bytes2Acts, calls_fit, room_by_length, streams_are_cut_anywhere};
use std::alloc::Global;

fn refusal_of(act: &Act) -> Option<(u64, u8)>
    ensures { result ≡ refusal_of act.now }
{
    match act {
        Act::Closed { place, cause, .. } => Some((*place, *cause)),
        Act::Answered { .. } | Act::Call(_) => None,
    }
}

/// The refusal that acts end in: its place in the stream, and its cause.
pub fn closing(acts: &[Act]) -> Option<(u64, u8)>
    ensures { result ≡ closing_of acts.now }
{
    let count = acts.len();
    if count == 0 {
        return None;
    }
    refusal_of(&acts[count - 1])
}

fn end_of(stop: Stop) -> SessionEnd
    ensures { result ≡ end_of_stop stop }
{
    match stop {
        Stop::WriteFault => SessionEnd::WriteFault,
        Stop::Full(count) => SessionEnd::Full(count),
        Stop::NoMemory => SessionEnd::NoMemory,
    }
}

// Answers acts on a link.
fn answer_on<L: Link, G: Gate>(
    alloc: Global,
    link: &mut L,
    gate: &mut G,
    conn: u32,
    acts: &[Act],
) -> Result<(), Stop>
    requires serves { G.serves gate.old conn }
    requires fits { All IsFit acts.now }
    ensures ok { OnOk result (Talks (G.start gate.old) conn acts.now (G.known gate.old) (G.known gate.new)
        (L.told link.old) (L.told link.new)) }
    ensures err { IfErr result (StopsTalk (G.start gate.old) conn acts.now (G.known gate.old) (G.known gate.new)
        (L.told link.old) (L.told link.new)) }
    ensures serves { G.serves gate.new conn }
    ensures moves { G.moves gate.old conn gate.new }
    ensures start { G.start gate.new ≡ G.start gate.old }
    ensures faults { MatchResult result (λ _. FaultsAre false false (L.told link.old) (L.told link.new))
        (λ why. Faults (end_of_stop why) (L.told link.old) (L.told link.new)) }
{
    answer_all(alloc, link, gate, conn, acts)
}

// Answers the acts that a piece completes; a refusal among them ends the session. It gives back the count.
fn answer_piece<L: Link, G: Gate>(
    alloc: Global,
    link: &mut L,
    gate: &mut G,
    conn: u32,
    acts: &[Act],
    count: usize,
) -> Result<usize, SessionEnd>
    requires serves { G.serves gate.old conn }
    requires fits { All IsFit acts.now }
    ensures ok { IfOk result (λ n. (n ≡ count)
        × Talks (G.start gate.old) conn acts.now (G.known gate.old) (G.known gate.new) (L.told link.old)
        (L.told link.new)
        × (closing_of acts.now ≡ None)) }
    ensures err { IfErr result (PieceEnds (G.start gate.old) conn acts.now (G.known gate.old) (G.known gate.new)
        (L.told link.old) (L.told link.new)) }
    ensures serves { G.serves gate.new conn }
    ensures moves { G.moves gate.old conn gate.new }
    ensures start { G.start gate.new ≡ G.start gate.old }
    ensures faults { MatchResult result (λ _. FaultsAre false false (L.told link.old) (L.told link.new))
        (λ end. Faults end (L.told link.old) (L.told link.new)) }
{
    match answer_on(alloc, link, gate, conn, acts) {
        Err(stop) => Err(end_of(stop)),
        Ok(()) => match closing(acts) {
            Some((place, cause)) => Err(SessionEnd::Closed { place, cause }),
            None => Ok(count),
        },
    }
}

// Hears a piece, and answers the acts that it completes.
fn take_piece<L: Link, G: Gate>(
    alloc: Global,
    link: &mut L,
    gate: &mut G,
    conn: u32,
    stream: &mut Bytes2Acts,
    piece: &[u8],
) -> Result<usize, SessionEnd>
    requires serves { G.serves gate.old conn }
    requires room { HasRoom stream.old piece.now }
    requires fits { All IsFit (on stream.old piece.now).acts }
    ensures ok { IfOk result (λ count. (count ≡ length piece.now)
        × Talks (G.start gate.old) conn (on stream.old piece.now).acts (G.known gate.old) (G.known gate.new)
        (L.told link.old) (L.told link.new)
        × (closing_of (on stream.old piece.now).acts ≡ None)) }
    ensures leaves { OnOk result (stream.new ≡ (on stream.old piece.now).leaves) }
    ensures err { IfErr result (PieceEnds (G.start gate.old) conn (on stream.old piece.now).acts (G.known gate.old)
        (G.known gate.new) (L.told link.old) (L.told link.new)) }
    ensures serves { G.serves gate.new conn }
    ensures moves { G.moves gate.old conn gate.new }
    ensures start { G.start gate.new ≡ G.start gate.old }
    ensures faults { MatchResult result (λ _. FaultsAre false false (L.told link.old) (L.told link.new))
        (λ end. Faults end (L.told link.old) (L.told link.new)) }
{
    match heard(alloc, stream, piece) {
        Ok(acts) => answer_piece(alloc, link, gate, conn, &acts, piece.len()),
        Err(_) => Err(SessionEnd::NoMemory),
    }
}

// Reads a piece, and answers the acts that it completes. It answers how many bytes came.
fn step<L: Link, G: Gate>(
    alloc: Global,
    link: &mut L,
    gate: &mut G,
    conn: u32,
    stream: &mut Bytes2Acts,
    front: &mut [u8],
) -> Result<usize, SessionEnd>
    requires serves { G.serves gate.old conn }
    requires some { 0 < length front.old }
    requires heard { HeardBytes conn stream.old (2 ^ 64 - 1 - length front.old) }
    ensures within { IfOk result (λ count. (0 < count) × (count ≤ length front.old)) }
    ensures ok { (before : List Entry) (old : Told) (came : List ℕ)
        → SoFar (G.start gate.old) conn before (G.known gate.old) old (L.told link.old) stream.old came
        → IfOk result (λ count. (piece : List ℕ) × (length piece ≡ count)
        × SoFar (G.start gate.old) conn before (G.known gate.new) old (L.told link.new) stream.new (came ++ piece)) }
    ensures err { (before : List Entry) (old : Told) (came : List ℕ) (most : ℕ)
        → SoFar (G.start gate.old) conn before (G.known gate.old) old (L.told link.old) stream.old came
        → HasNoCall (G.start gate.old) before conn → length came + length front.old ≤ most
        → IfErr result (λ end. IsConversation (G.start gate.old) conn most end old (L.told link.new) before
        (G.known gate.new)) }
    ensures serves { G.serves gate.new conn }
    ensures moves { G.moves gate.old conn gate.new }
    ensures start { G.start gate.new ≡ G.start gate.old }
    ensures faults { MatchResult result (λ _. FaultsAre false false (L.told link.old) (L.told link.new))
        (λ end. Faults end (L.told link.old) (L.told link.new)) }
{
    streams_are_cut_anywhere();
    room_by_length();
    calls_fit();
    let count = match link.read(front) {
        Err(_) => return Err(SessionEnd::ReadFault),
        Ok(0) => return Err(SessionEnd::End),
        Ok(count) => count,
    };
    take_piece(alloc, link, gate, conn, stream, &front[..count])
}

// Everything but the connection's end.
fn converse<L: Link, G: Gate>(
    alloc: Global,
    link: &mut L,
    gate: &mut G,
    conn: u32,
    max_read: u64,
) -> SessionEnd
    requires serves { G.serves gate.old conn }
    requires new { HasNoCall (G.start gate.old) (G.known gate.old) conn }
    requires going { (L.told link.old).ended ≡ false }
    ensures conversation { IsConversation (G.start gate.old) conn max_read result (L.told link.old) (L.told link.new)
        (G.known gate.old) (G.known gate.new) }
    ensures faults { Faults result (L.told link.old) (L.told link.new) }
    ensures serves { G.serves gate.new conn }
    ensures moves { G.moves gate.old conn gate.new }
    ensures start { G.start gate.new ≡ G.start gate.old }
{
    let mut stream = Bytes2Acts::new(alloc, conn);
    let mut buffer = [0u8; 4096];
    let mut room = max_read;
    while room > 0 {
        let most = room.min(4096) as usize;
        match step(alloc, link, gate, conn, &mut stream, &mut buffer[..most]) {
            Ok(count) => room -= count as u64,
            Err(end) => return end,
        }
    }
    SessionEnd::ByteLimit(max_read)
}

// Ends the connection.
fn end_conn<G: Gate>(gate: &mut G, conn: u32)
    requires serves { G.serves gate.old conn }
    ensures ended { Ended (G.start gate.old) conn (G.known gate.old) (G.known gate.new) }
    ensures moves { G.moves gate.old conn gate.new }
    ensures start { G.start gate.new ≡ G.start gate.old }
{
    gate.gone(conn);
}

/// Serves a connection that was just opened, from the link's first byte to its end, and enters in every case that the
/// connection is gone. It reads at most so many bytes.
pub fn session<L: Link, G: Gate>(
    alloc: Global,
    link: &mut L,
    gate: &mut G,
    conn: u32,
    max_read: u64,
) -> SessionEnd
    requires serves { G.serves gate.old conn }
    requires new { HasNoCall (G.start gate.old) (G.known gate.old) conn }
    requires going { (L.told link.old).ended ≡ false }
    ensures session { IsSession (G.start gate.old) conn max_read result (L.told link.old) (L.told link.new)
        (G.known gate.old) (G.known gate.new) }
    ensures moves { G.moves gate.old conn gate.new }
    ensures start { G.start gate.new ≡ G.start gate.old }
{
    let end = converse(alloc, link, gate, conn, max_read);
    end_conn(gate, conn);
    end
}
