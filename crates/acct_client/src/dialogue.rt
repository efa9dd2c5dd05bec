// The dialogue of a client with its peer.
ghost use Rattle.std.specs.Prelude.{◌≡◌, ◌++◌, ◌≤◌, ◌<◌, ◌+◌, ◌^◌, [], Ok, Err, Some, None, IfOk, IfErr, OnErr};
ghost use Rattle.std.specs.Prelude.{option_map};
ghost use Rattle.std.specs.Prelude.{true, false, not, length};
ghost use Rattle.acct_codes.specs.Limits.{least_fragment, most_fragment};
ghost use Rattle.acct_layouts.specs.CallShapes.{CanBeSpelled};
ghost use Rattle.acct_stubs.specs.Calls.{ReadsAllIfRoom, spell};
ghost use Rattle.acct_stubs.specs.Replies.{reply_at};
ghost use Rattle.acct_client.specs.Dialogues.{wire_of, call_bytes, sent, awaits, waits, goes_to, failed, refused};
ghost use Rattle.acct_client.specs.Dialogues.{next_id, turned, replied, reply_in, answered, silence, told, awaited_of};
ghost use Rattle.acct_client.specs.Dialogues.{is_failed, progress, IsFitState};
ghost use Rattle.client_commands.specs.Fit.{IsFitStep, IsFitOutcome};
ghost use Rattle.acct_client.specs.Runs.{IsSpokenInPieces};
ghost use Rattle.acct_client.specs.Served.{PrintsReplies};
ghost use Rattle.client_commands.specs.Words.{call_of};

use crate::NoMemory;
use crate::answers::{Answer, Awaited};
use crate::errors::AskError;
use crate::hearing::{Heard, Listening, hear_piece, streams_are_cut_anywhere};
use crate::requests::{bind_bytes, request_bytes};
use acct_base::Seq;
use acct_calls::{Call, Face, Reply};
use acct_stubs::WireError;
use client_commands::{
    Command, Outcome, Step, Text, after, call_of, fit_steps_are_spelled, operation_of, refused_line,
};
use rpc_pdu::{front_is_stable, written_is_read_back};
use rpc_session::{replies_bring_stubs, size_for};
use std::alloc::{AllocError, Global};

/// How a dialogue stands.
#[derive(Drop)]
pub enum State {
    /// The bind is sent, for this command.
    Binding(Command),
    /// The call of a step is made, with this call id, in fragments of at most so many bytes.
    Calling { step: Step, id: u32, size: u16 },
    /// The last answer came.
    Ended,
    /// An error came.
    Failed(AskError),
}

/// How a dialogue goes on after more bytes: its next state, whether the answer to what the state before sent is still
/// awaited, what is left to hear, and the lines that are printed.
#[derive(Drop)]
pub struct Progress {
    pub state: State,
    pub is_awaiting: bool,
    pub left: Listening,
    pub printed: Text,
}

/// A dialogue: its state, whether the answer to what the state sends is awaited, what is left to hear, and the lines.
#[derive(Drop)]
pub struct Talk {
    pub state: State,
    pub is_awaiting: bool,
    pub left: Listening,
    pub lines: Text,
}

fn stub_of(alloc: Global, call: &Call) -> Result<Vec<u8>, NoMemory>
    requires { CanBeSpelled call.now }
    ensures { IfOk result (λ stub. stub.items ≡ spell (wire_of call.now.face) call.now) }
{
    match call.face {
        Face::Samr => samr_wire::write_call(alloc, call),
        Face::Lsa => lsa_wire::write_call(alloc, call),
    }
}

#[tactic(auto, unfolding(crate::specs::Dialogues::call_bytes))]
fn requests_of(alloc: Global, call: &Call, id: u32, size: u16) -> Result<Vec<u8>, NoMemory>
    requires spelled { CanBeSpelled call.now }
    requires low { least_fragment ≤ size }
    requires high { size ≤ most_fragment }
    ensures { IfOk result (λ bytes. bytes.items ≡ call_bytes id size call.now) }
{
    let stub = stub_of(alloc, call)?;
    request_bytes(alloc, id, call.face, call.opnum, size, &stub)
}

fn step_bytes(alloc: Global, step: &Step, id: u32, size: u16) -> Result<Vec<u8>, NoMemory>
    requires fit { IsFitStep step.now }
    requires low { least_fragment ≤ size }
    requires high { size ≤ most_fragment }
    ensures { IfOk result (λ bytes. bytes.items ≡ call_bytes id size (call_of step.now)) }
{
    fit_steps_are_spelled();
    let call = call_of(alloc, step)?;
    let bytes = requests_of(alloc, &call, id, size);
    drop(call);
    bytes
}

/// The bytes that a state sends, if it sends some.
pub fn sent(alloc: Global, state: &State) -> Result<Option<Vec<u8>>, NoMemory>
    requires { IsFitState state.now }
    ensures { IfOk result (λ bytes. option_map (λ b. b.items) bytes ≡ sent state.now) }
{
    match state {
        State::Binding(_) => Ok(Some(bind_bytes(alloc)?)),
        State::Calling { step, id, size } => Ok(Some(step_bytes(alloc, step, *id, *size)?)),
        State::Ended | State::Failed(_) => Ok(None),
    }
}

fn goes_to(state: State, left: Listening, printed: Text) -> Progress
    ensures { result ≡ goes_to state left printed }
{
    Progress {
        state,
        is_awaiting: false,
        left,
        printed,
    }
}

fn failed(alloc: Global, e: AskError) -> Progress
    ensures { result ≡ failed e }
{
    goes_to(State::Failed(e), silence(alloc), Text::new(alloc))
}

fn refused(alloc: Global, e: AskError, status: u32) -> Result<Progress, NoMemory>
    ensures { IfOk result (λ p. p ≡ refused e status) }
{
    let line = refused_line(alloc, status)?;
    Ok(goes_to(State::Failed(e), silence(alloc), line))
}

fn next_id(id: u32) -> u32
    ensures { result ≡ next_id id }
{
    id.wrapping_add(1)
}

#[tactic(auto, unfolding(crate::specs::Dialogues::turned))]
fn turned(
    alloc: Global,
    id: u32,
    size: u16,
    place: u64,
    left: Listening,
    outcome: Outcome,
) -> Result<Progress, NoMemory>
    requires low { least_fragment ≤ size }
    requires high { size ≤ most_fragment }
    requires fit { IsFitOutcome outcome }
    ensures value { IfOk result (λ p. p ≡ turned id size place left outcome) }
    ensures fit { IfOk result (λ p. IsFitState p.state) }
{
    match outcome {
        Outcome::Goes { printed, next } => {
            let state = State::Calling {
                step: next,
                id: next_id(id),
                size,
            };
            Ok(goes_to(state, left, printed))
        }
        Outcome::Ends { printed } => Ok(goes_to(State::Ended, left, printed)),
        Outcome::Refuses(status) => refused(alloc, AskError::Refused(status), status),
        Outcome::Unfit => Ok(failed(alloc, AskError::PeerBytes(place))),
    }
}

fn reply_of(alloc: Global, face: Face, opnum: u16, stub: &[u8]) -> Result<Reply, WireError>
    ensures { ReadsAllIfRoom result (reply_at (wire_of face) opnum stub.now) }
{
    match face {
        Face::Samr => samr_wire::read_reply(alloc, opnum, stub),
        Face::Lsa => lsa_wire::read_reply(alloc, opnum, stub),
    }
}

/// The call of an answer that was awaited.
#[derive(Drop)]
struct Asked {
    step: Step,
    id: u32,
    size: u16,
}

#[tactic(auto, unfolding(crate::specs::Dialogues::replied, crate::specs::Dialogues::reply_in))]
fn replied(
    alloc: Global,
    asked: Asked,
    place: u64,
    stub: &[u8],
    left: Listening,
) -> Result<Progress, NoMemory>
    requires low { least_fragment ≤ asked.size }
    requires high { asked.size ≤ most_fragment }
    requires fit { IsFitStep asked.step }
    ensures value { IfOk result (λ p. p ≡ replied asked.step asked.id asked.size place left
        (reply_in (call_of asked.step) stub.now)) }
    ensures fit { IfOk result (λ p. IsFitState p.state) }
{
    let Asked { step, id, size } = asked;
    let (face, opnum) = operation_of(&step);
    match reply_of(alloc, face, opnum, stub) {
        Ok(reply) => {
            let outcome = after(alloc, step, &reply);
            drop(reply);
            turned(alloc, id, size, place, left, outcome?)
        }
        Err(WireError::Memory) => {
            drop(step);
            Err(AllocError)
        }
        Err(_) => {
            drop(step);
            Ok(failed(alloc, AskError::PeerBytes(place)))
        }
    }
}

#[tactic(auto, unfolding(crate::specs::Dialogues::answered))]
fn bound(alloc: Global, state: State, left: Listening, recv: u16) -> Progress
    requires { IsFitState state }
    ensures value { result ≡ answered state left (Answer.Bound recv) }
    ensures fit { IsFitState result.state }
{
    match state {
        State::Binding(command) => {
            let state = State::Calling {
                step: Step::Opening(command),
                id: 2,
                size: size_for(recv),
            };
            goes_to(state, left, Text::new(alloc))
        }
        state => {
            drop(state);
            failed(alloc, AskError::PeerBytes(left.place))
        }
    }
}

#[tactic(auto, unfolding(crate::specs::Dialogues::answered))]
fn stubbed(
    alloc: Global,
    state: State,
    left: Listening,
    place: u64,
    stub: Seq<u8>,
) -> Result<Progress, NoMemory>
    requires { IsFitState state }
    ensures value { IfOk result (λ p. p ≡ answered state left (Answer.Stub place stub)) }
    ensures fit { IfOk result (λ p. IsFitState p.state) }
{
    match state {
        State::Calling { step, id, size } => {
            let asked = Asked { step, id, size };
            replied(alloc, asked, place, stub.as_slice(), left)
        }
        state => {
            drop(state);
            Ok(failed(alloc, AskError::PeerBytes(left.place)))
        }
    }
}

#[tactic(auto, unfolding(crate::specs::Dialogues::answered))]
fn answered(
    alloc: Global,
    state: State,
    left: Listening,
    answer: Answer,
) -> Result<Progress, NoMemory>
    requires { IsFitState state }
    ensures value { IfOk result (λ p. p ≡ answered state left answer) }
    ensures fit { IfOk result (λ p. IsFitState p.state) }
{
    match answer {
        Answer::Fault(status) => {
            drop(state);
            refused(alloc, AskError::PeerFault(status), status)
        }
        Answer::Nak => {
            drop(state);
            refused(alloc, AskError::PeerFault(0), 0)
        }
        Answer::Bound(recv) => Ok(bound(alloc, state, left, recv)),
        Answer::Stub { place, stub } => stubbed(alloc, state, left, place, stub),
    }
}

#[tactic(auto, unfolding(crate::specs::Dialogues::told))]
fn told(alloc: Global, state: State, heard: Heard) -> Result<Progress, NoMemory>
    requires { IsFitState state }
    ensures value { IfOk result (λ p. p ≡ told state heard) }
    ensures fit { IfOk result (λ p. IsFitState p.state) }
{
    match heard {
        Heard::Waits(left) => Ok(Progress {
            state,
            is_awaiting: true,
            left,
            printed: Text::new(alloc),
        }),
        Heard::NoAnswer(place) => {
            drop(state);
            Ok(failed(alloc, AskError::PeerBytes(place)))
        }
        Heard::Answered { answer, left } => answered(alloc, state, left, answer),
    }
}

/// Nothing is left to hear.
pub fn silence(alloc: Global) -> Listening
    ensures { result ≡ silence }
{
    Listening {
        place: 0,
        reply: None,
        rest: Seq::new(alloc),
    }
}

fn awaited_of(state: &State) -> Awaited
    ensures { result ≡ awaited_of state.now }
{
    match state {
        State::Calling { id, .. } => Awaited::Reply(*id),
        State::Binding(_) | State::Ended | State::Failed(_) => Awaited::Binding,
    }
}

/// What more bytes of the peer do while an answer is awaited.
#[tactic(auto, unfolding(crate::specs::Dialogues::progress))]
pub fn heard_more(
    alloc: Global,
    state: State,
    left: Listening,
    piece: &[u8],
) -> Result<Progress, NoMemory>
    requires fit { IsFitState state }
    requires room { left.place + (length left.rest + length piece.now) < 2 ^ 64 }
    ensures value { IfOk result (λ p. p ≡ progress state left piece.now) }
    ensures fit { IfOk result (λ p. IsFitState p.state) }
{
    let awaited = awaited_of(&state);
    match hear_piece(alloc, awaited, left, piece) {
        Ok(heard) => told(alloc, state, heard),
        Err(e) => {
            drop(state);
            Err(e)
        }
    }
}

/// A law: the peer's stream may be cut anywhere in a dialogue.
pub fn dialogues_are_cut_anywhere()
    ensures { IsSpokenInPieces }
{
    front_is_stable();
    streams_are_cut_anywhere();
}

/// A law: over the bytes that bring a server's replies, in fragments of any size, the lines that are printed are those
/// of the replies.
pub fn replies_are_printed()
    ensures { PrintsReplies }
{
    front_is_stable();
    written_is_read_back();
    replies_bring_stubs();
    samr_wire::laws::replies_are_read_again();
    lsa_wire::laws::replies_are_read_again();
}
