// The dialogue of a client over a link.
ghost use Rattle.std.specs.Prelude.{◌≡◌, ℕ, ◌+◌, ◌≤◌, ◌<◌, ◌^◌, ◌++◌, [], List, Bool, true, false, not, length, take};
ghost use Rattle.std.specs.Prelude.{IfOk, IfErr, OnOk};
ghost use Rattle.acct_links.specs.Links.{Told};
ghost use Rattle.client_commands.specs.declared.command.Command.{Command};
ghost use Rattle.acct_client.specs.Askers.{bytes_taken};
ghost use Rattle.acct_client.specs.steps.Parts.{SentSoFar, IsUnread, IsPieceRead, NoPiece, TalkSoFar, Waits, TalkEnds};
ghost use Rattle.acct_client.specs.steps.Parts.{Moves, Stands, end_of_error, steps_left};
ghost use Rattle.acct_client.specs.Talks.{Talks, TalksByAnswers, IsBegun, most_read};

use crate::asker::Asker;
use crate::ends::TalkEnd;
use crate::errors::AskError;
use crate::hearing::streams_are_cut_anywhere;
use crate::laws::dialogues_are_of_answers;
use acct_links::{Link, send};
use rpc_pdu::front_is_stable;
use std::alloc::Global;

const MOST_READ: usize = 67_108_864;

/// What is still to be had of a link: how many bytes may be read, and whether a write has failed.
#[derive(Drop)]
struct Line {
    room: usize,
    is_cut: bool,
}

/// Sends a request. Nothing more is sent after a failed write, or read: what came before it may still be heard.
fn request<L: Link>(link: &mut L, line: &mut Line, bytes: &[u8])
    ensures sent { (old : Told) (before : List ℕ) → old.write_faults ≤ (L.told link.old).write_faults
        → SentSoFar line.old.is_cut old (L.told link.old) before
        → SentSoFar line.new.is_cut old (L.told link.new) (before ++ bytes.now) }
    ensures unread { IsUnread (L.told link.old) (L.told link.new) }
    ensures room { line.new.room ≡ line.old.room }
{
    if line.is_cut {
        return;
    }
    match send(link, bytes) {
        Ok(()) => {}
        Err(_) => line.is_cut = true,
    }
}

/// Reads a piece of the peer's stream, of one byte at least.
fn piece<L: Link>(link: &mut L, line: &mut Line, buffer: &mut [u8; 4096]) -> Result<usize, TalkEnd>
    ensures ok { IfOk result (λ count. IsPieceRead (L.told link.old) (L.told link.new) (take count buffer.new)) }
    ensures count { IfOk result (λ count. (0 < count) × (count ≤ 4096) × (line.new.room + count ≡ line.old.room)) }
    ensures err { IfErr result (λ end. IsPieceRead (L.told link.old) (L.told link.new) []
        × NoPiece end line.old.room line.old.is_cut (L.told link.old) (L.told link.new)) }
    ensures cut { line.new.is_cut ≡ line.old.is_cut }
{
    if line.room == 0 {
        return Err(TalkEnd::InputTooLong);
    }
    if line.is_cut {
        return Err(TalkEnd::PeerFault);
    }
    let most = line.room.min(4096);
    match link.read(&mut buffer[..most]) {
        Err(_) | Ok(0) => Err(TalkEnd::PeerFault),
        Ok(count) => {
            line.room -= count;
            Ok(count)
        }
    }
}

fn end_of(error: AskError) -> TalkEnd
    ensures { result ≡ end_of_error error }
{
    match error {
        AskError::PeerBytes(place) => TalkEnd::PeerBytes(place),
        AskError::PeerFault(status) | AskError::Refused(status) => TalkEnd::Refused(status),
        AskError::Memory | AskError::Usage => TalkEnd::NoMemory,
    }
}

/// Hears a piece of the peer's stream, and answers whether the answer that is awaited is whole.
fn hear(alloc: Global, asker: &mut Asker, piece: &[u8]) -> Result<bool, TalkEnd>
    requires awaiting { asker.old.is_awaiting ≡ true }
    requires room { bytes_taken asker.old + length piece.now < 2 ^ 64 }
    ensures ok { (command : Command) (received bytes : List ℕ) → TalkSoFar command asker.old received bytes
        → OnOk result (TalkSoFar command asker.new (received ++ piece.now) bytes) }
    ensures whole { IfOk result (λ whole. asker.new.is_awaiting ≡ not whole) }
    ensures waits { (command : Command) (received bytes : List ℕ) → TalkSoFar command asker.old received bytes
        → IfOk result (λ whole. whole ≡ false → Waits command asker.new (received ++ piece.now) bytes) }
    ensures err { (command : Command) (received bytes : List ℕ) → TalkSoFar command asker.old received bytes
        → IfErr result (λ end. TalkEnds command end (received ++ piece.now) bytes asker.new.lines) }
    ensures moves { (command : Command) (received bytes : List ℕ) → TalkSoFar command asker.old received bytes
        → IfOk result (λ whole. Moves whole asker.old asker.new) }
    ensures count { bytes_taken asker.new ≤ bytes_taken asker.old + length piece.now }
{
    front_is_stable();
    streams_are_cut_anywhere();
    match asker.take(alloc, piece) {
        Ok(whole) => Ok(whole),
        Err(error) => Err(end_of(error)),
    }
}

/// Reads a piece and hears it.
fn listen<L: Link>(
    alloc: Global,
    asker: &mut Asker,
    link: &mut L,
    line: &mut Line,
) -> Result<bool, TalkEnd>
    requires awaiting { asker.old.is_awaiting ≡ true }
    requires room { bytes_taken asker.old + line.old.room ≤ most_read }
    ensures ok { (command : Command) (old : Told)
        → Stands command old (L.told link.old) asker.old line.old.room line.old.is_cut false
        → IfOk result (λ whole. Stands command old (L.told link.new) asker.new line.new.room line.new.is_cut whole) }
    ensures err { (command : Command) (old : Told)
        → Stands command old (L.told link.old) asker.old line.old.room line.old.is_cut false
        → IfErr result (λ end. Talks command end old (L.told link.new) asker.new.lines) }
    ensures whole { IfOk result (λ whole. asker.new.is_awaiting ≡ not whole) }
    ensures less { (command : Command) (old : Told)
        → Stands command old (L.told link.old) asker.old line.old.room line.old.is_cut false
        → IfOk result (λ whole. steps_left line.new.room asker.new whole < steps_left line.old.room asker.old false) }
    ensures room { OnOk result (bytes_taken asker.new + line.new.room ≤ most_read) }
{
    let mut buffer = [0u8; 4096];
    match piece(link, line, &mut buffer) {
        Err(end) => Err(end),
        Ok(count) => match hear(alloc, asker, &buffer[..count]) {
            Ok(whole) => Ok(whole),
            Err(end) => Err(end),
        },
    }
}

/// Makes the next request and hears what came early of its answer.
fn ask<L: Link>(
    alloc: Global,
    asker: &mut Asker,
    link: &mut L,
    line: &mut Line,
) -> Result<bool, TalkEnd>
    requires idle { asker.old.is_awaiting ≡ false }
    requires room { bytes_taken asker.old + line.old.room ≤ most_read }
    ensures ok { (command : Command) (old : Told)
        → Stands command old (L.told link.old) asker.old line.old.room line.old.is_cut true
        → IfOk result (λ whole. Stands command old (L.told link.new) asker.new line.new.room line.new.is_cut whole) }
    ensures err { (command : Command) (old : Told)
        → Stands command old (L.told link.old) asker.old line.old.room line.old.is_cut true
        → IfErr result (λ end. Talks command end old (L.told link.new) asker.new.lines) }
    ensures whole { IfOk result (λ whole. asker.new.is_awaiting ≡ not whole) }
    ensures less { (command : Command) (old : Told)
        → Stands command old (L.told link.old) asker.old line.old.room line.old.is_cut true
        → IfOk result (λ whole. steps_left line.new.room asker.new whole < steps_left line.old.room asker.old true) }
    ensures room { OnOk result (bytes_taken asker.new + line.new.room ≤ most_read) }
{
    front_is_stable();
    match asker.next(alloc) {
        Err(_) => Err(TalkEnd::NoMemory),
        Ok(None) => Err(TalkEnd::Done),
        Ok(Some(bytes)) => {
            request(link, line, &bytes);
            match hear(alloc, asker, &[]) {
                Ok(whole) => Ok(whole),
                Err(end) => Err(end),
            }
        }
    }
}

/// Asks where the last answer is whole, and else listens. Answers whether the answer that is awaited then is whole.
fn advance<L: Link>(
    alloc: Global,
    asker: &mut Asker,
    link: &mut L,
    line: &mut Line,
    is_whole: bool,
) -> Result<bool, TalkEnd>
    requires whole { asker.old.is_awaiting ≡ not is_whole }
    requires room { bytes_taken asker.old + line.old.room ≤ most_read }
    ensures ok { (command : Command) (old : Told)
        → Stands command old (L.told link.old) asker.old line.old.room line.old.is_cut is_whole
        → IfOk result (λ whole. Stands command old (L.told link.new) asker.new line.new.room line.new.is_cut whole) }
    ensures err { (command : Command) (old : Told)
        → Stands command old (L.told link.old) asker.old line.old.room line.old.is_cut is_whole
        → IfErr result (λ end. Talks command end old (L.told link.new) asker.new.lines) }
    ensures whole { IfOk result (λ whole. asker.new.is_awaiting ≡ not whole) }
    ensures less { (command : Command) (old : Told)
        → Stands command old (L.told link.old) asker.old line.old.room line.old.is_cut is_whole
        → IfOk result
        (λ whole. steps_left line.new.room asker.new whole < steps_left line.old.room asker.old is_whole) }
    ensures room { OnOk result (bytes_taken asker.new + line.new.room ≤ most_read) }
{
    if is_whole {
        ask(alloc, asker, link, line)
    } else {
        listen(alloc, asker, link, line)
    }
}

fn exchange<L: Link>(alloc: Global, asker: &mut Asker, link: &mut L) -> TalkEnd
    requires { (command : Command) × IsBegun command asker.old }
    ensures { (command : Command) → IsBegun command asker.old
        → Talks command result (L.told link.old) (L.told link.new) asker.new.lines }
{
    let mut line = Line {
        room: MOST_READ,
        is_cut: false,
    };
    let mut is_whole = true;
    loop {
        match advance(alloc, asker, link, &mut line, is_whole) {
            Ok(whole) => is_whole = whole,
            Err(end) => return end,
        }
    }
}

/// Makes all requests of a command, one after the other, and hears their answers. It reads 67,108,864 bytes at most.
pub fn converse<L: Link>(alloc: Global, asker: &mut Asker, link: &mut L) -> TalkEnd
    requires { (command : Command) × IsBegun command asker.old }
    ensures { (command : Command) → IsBegun command asker.old
        → TalksByAnswers command result (L.told link.old) (L.told link.new) asker.new.lines }
{
    dialogues_are_of_answers();
    exchange(alloc, asker, link)
}
