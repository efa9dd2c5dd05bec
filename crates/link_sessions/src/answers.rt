// Acts are answered over a gate.
ghost use Rattle.std.specs.Prelude.{◌≡◌, ◌⊎◌, All, OnOk, IfErr};
ghost use Rattle.rpc_session.specs.Acts.{IsFit, IsFitRequest};
ghost use Rattle.rpc_session.specs.declared.sessions.Act.TheVariants as act;
ghost use Rattle.link_sessions.specs.Transcript.{busy_bytes};
ghost use Rattle.link_sessions.specs.declared.ends.Stop.TheVariants as stop;
ghost use Rattle.link_sessions.specs.Taking.{TakesAct, TakesActs, HaltsAct, HaltsActs};

use crate::ends::Stop;
use crate::gate::Gate;
use crate::requests::{Answer, request};
use crate::takers::Taker;
use acct_codes::fault::NCA_S_SERVER_TOO_BUSY;
use rpc_session::{Act, Request, fault_bytes};
use std::alloc::Global;

// Gives an answer.
fn give<T: Taker>(taker: &mut T, bytes: &[u8]) -> Result<(), Stop>
    ensures ok { OnOk result (T.takes taker.old bytes.now taker.new) }
    ensures err { IfErr result (λ why. (why ≡ stop.WriteFault) × T.fails taker.old bytes.now taker.new) }
{
    match taker.take(bytes) {
        Ok(()) => Ok(()),
        Err(_) => Err(Stop::WriteFault),
    }
}

// Answers that the server is too busy, as far as that is taken.
fn turn_away<T: Taker>(taker: &mut T, asked: &Request, count: u64) -> Stop
    ensures full { result ≡ stop.Full count }
    ensures taken { T.takes taker.old (busy_bytes asked.now) taker.new
        ⊎ T.fails taker.old (busy_bytes asked.now) taker.new }
{
    let busy = fault_bytes(asked.id, asked.context, NCA_S_SERVER_TOO_BUSY);
    let _ = taker.take(&busy);
    Stop::Full(count)
}

// Answers a request.
fn answer_request<T: Taker, G: Gate>(
    alloc: Global,
    taker: &mut T,
    gate: &mut G,
    conn: u32,
    asked: &Request,
) -> Result<(), Stop>
    requires serves { G.serves gate.old conn }
    requires fits { IsFitRequest asked.now }
    ensures ok { OnOk result (TakesAct T.takes G.start G.known G.finds G.serves conn (act.Call asked.now) taker.old
        gate.old taker.new gate.new) }
    ensures err { IfErr result (HaltsAct T.takes T.fails G.start G.known G.finds conn (act.Call asked.now) taker.old
        gate.old taker.new gate.new) }
    ensures serves { G.serves gate.new conn }
    ensures moves { G.moves gate.old conn gate.new }
    ensures start { G.start gate.new ≡ G.start gate.old }
{
    match request(alloc, gate, conn, asked) {
        Ok(Answer::Bytes(bytes)) => give(taker, &bytes),
        Ok(Answer::Full(count)) => Err(turn_away(taker, asked, count)),
        Err(_) => Err(Stop::NoMemory),
    }
}

// Answers an act.
fn answer<T: Taker, G: Gate>(
    alloc: Global,
    taker: &mut T,
    gate: &mut G,
    conn: u32,
    act: &Act,
) -> Result<(), Stop>
    requires serves { G.serves gate.old conn }
    requires fits { IsFit act.now }
    ensures ok { OnOk result (TakesAct T.takes G.start G.known G.finds G.serves conn act.now taker.old gate.old
        taker.new gate.new) }
    ensures err { IfErr result (HaltsAct T.takes T.fails G.start G.known G.finds conn act.now taker.old gate.old
        taker.new gate.new) }
    ensures serves { G.serves gate.new conn }
    ensures moves { G.moves gate.old conn gate.new }
    ensures start { G.start gate.new ≡ G.start gate.old }
{
    match act {
        Act::Call(asked) => answer_request(alloc, taker, gate, conn, asked),
        Act::Answered { bytes } | Act::Closed { bytes, .. } => give(taker, bytes.as_slice()),
    }
}

/// Answers acts of a connection that the gate serves, one after the other: each request that is a call is entered, and
/// its answer is taken before the next act is come to. It stops at an answer that isn't taken, at a call that finds the
/// history full, and where memory runs out.
pub fn answer_all<T: Taker, G: Gate>(
    alloc: Global,
    taker: &mut T,
    gate: &mut G,
    conn: u32,
    acts: &[Act],
) -> Result<(), Stop>
    requires serves { G.serves gate.old conn }
    requires fits { All IsFit acts.now }
    ensures ok { OnOk result (TakesActs T.takes G.start G.known G.finds G.serves conn acts.now taker.old gate.old
        taker.new gate.new) }
    ensures err { IfErr result (HaltsActs T.takes T.fails G.start G.known G.finds G.serves conn acts.now taker.old
        gate.old taker.new gate.new) }
    ensures serves { G.serves gate.new conn }
    ensures moves { G.moves gate.old conn gate.new }
    ensures start { G.start gate.new ≡ G.start gate.old }
{
    for i in 0..acts.len() {
        match answer(alloc, taker, gate, conn, &acts[i]) {
            Ok(()) => {}
            Err(stop) => return Err(stop),
        }
    }
    Ok(())
}
