// The client, by what it gives to be sent and takes of what came.
ghost use Rattle.std.specs.Prelude.{◌≡◌, ◌≢◌, ◌+◌, ◌^◌, ◌<◌, ◌≤◌, length, map, false};
ghost use Rattle.std.specs.Prelude.{IfOk, IfErr, OnOk, OnErr, Some, option_map};
ghost use Rattle.std.specs.String.{string_bytes};
ghost use Rattle.client_commands.specs.Words.{command_of};
ghost use Rattle.acct_client.specs.declared.errors.AskError.TheVariants.{Memory};
ghost use Rattle.acct_client.specs.Askers.{bytes_taken, HasRoom, IsFailed, IsFitTalk, IsLost, IsNoClient};
ghost use Rattle.acct_client.specs.Askers.{IsTaken, MayTake, answer_of, lost, with_lines};
ghost use Rattle.acct_client.specs.Dialogues.{asked, begun, progress, sent, took, IsFitState};
ghost use Rattle.acct_client.specs.Runs.{Comes, IsHeard, IsKept};

use crate::NoMemory;
use crate::dialogue::{Progress, State, Talk, heard_more, sent, silence};
use crate::errors::AskError;
use crate::hearing::{Listening, streams_are_cut_anywhere};
use client_commands::{Text, command_of};
use rpc_pdu::front_is_stable;
use std::alloc::Global;
use std::marker::Model;
use std::mem;

/// The client of one command. A contract sees its dialogue.
#[derive(Drop)]
pub struct Asker {
    talk: Talk,
}

impl Model for Asker {
    ghost use Rattle.acct_client.specs.declared.dialogue.Talk.{Talk};
    ghost use Rattle.acct_client.specs.Askers.{IsFitTalk};

    ghost Value = { Talk };

    ghost view = { λ asker. asker.talk };

    ghost invariant = { λ asker. IsFitTalk asker.talk };
}

impl Asker {
    /// The client of the command that some words are. `Usage` is answered only off the table of commands, and no words
    /// off it are taken; no other error is answered but running out of memory.
    pub fn new(alloc: Global, words: &[String]) -> Result<Asker, AskError>
        ensures ok { IfOk result (λ asker. option_map begun (command_of (map string_bytes words.now)) ≡ Some asker) }
        ensures err { IfErr result (λ e. IsNoClient e (command_of (map string_bytes words.now))) }
    {
        let command = command_of(alloc, words)?;
        Ok(Asker {
            talk: Talk {
                state: State::Binding(command),
                is_awaiting: false,
                left: silence(alloc),
                lines: Text::new(alloc),
            },
        })
    }

    /// The next bytes to send: one bind, and then the requests of the command's calls, each made of the replies before
    /// it. There are none at the end and after an error. No answer may be awaited.
    pub fn next(&mut self, alloc: Global) -> Result<Option<Vec<u8>>, NoMemory>
        requires { self.old.is_awaiting ≡ false }
        ensures bytes { IfOk result (λ bytes. option_map (λ b. b.items) bytes ≡ sent self.old.state) }
        ensures ok { OnOk result (self.new ≡ asked self.old) }
        ensures err { OnErr result (IsLost self.old self.new) }
        ensures spoken { IfOk result (λ bytes. IsKept (option_map (λ b. b.items) bytes) self.old self.new) }
        ensures count { bytes_taken self.new ≤ bytes_taken self.old }
    {
        asked(alloc, &mut self.talk)
    }

    /// Takes a piece of the peer's stream, and answers whether the answer that is awaited is whole. Bytes that came
    /// early count for the next answer, for which an empty piece may be taken. An answer is awaited, or an error came
    /// before, which is answered again.
    pub fn take(&mut self, alloc: Global, piece: &[u8]) -> Result<bool, AskError>
        requires awaited { MayTake self.old }
        requires room { HasRoom self.old piece.now }
        ensures ok { IfOk result (λ whole. IsTaken whole self.old self.new piece.now) }
        ensures err { IfErr result (λ e. IsFailed e self.old self.new piece.now) }
        ensures heard { IfOk result (λ whole. IsHeard whole self.old self.new piece.now) }
        ensures last { IfErr result (λ e. e ≢ Memory → Comes self.old self.new piece.now) }
        ensures count { bytes_taken self.new ≤ bytes_taken self.old + length piece.now }
    {
        let talk = mem::replace(&mut self.talk, lost(alloc, Text::new(alloc)));
        let AfterPiece { talk, answer } = taken(alloc, talk, piece);
        drop(mem::replace(&mut self.talk, talk));
        answer
    }

    /// The lines of the answers so far.
    pub fn lines(&self) -> &str
        ensures { result.now ≡ self.now.lines }
    {
        self.talk.lines.as_str()
    }
}

fn asked(alloc: Global, talk: &mut Talk) -> Result<Option<Vec<u8>>, NoMemory>
    requires fit { IsFitTalk talk.old }
    requires idle { talk.old.is_awaiting ≡ false }
    ensures bytes { IfOk result (λ bytes. option_map (λ b. b.items) bytes ≡ sent talk.old.state) }
    ensures ok { OnOk result (talk.new ≡ asked talk.old) }
    ensures err { OnErr result (IsLost talk.old talk.new) }
    ensures spoken { IfOk result (λ bytes. IsKept (option_map (λ b. b.items) bytes) talk.old talk.new) }
    ensures count { bytes_taken talk.new ≤ bytes_taken talk.old }
    ensures fit { IsFitTalk talk.new }
{
    front_is_stable();
    match sent(alloc, &talk.state) {
        Ok(bytes) => {
            talk.is_awaiting = bytes.is_some();
            Ok(bytes)
        }
        Err(e) => {
            drop(mem::replace(&mut talk.state, State::Failed(AskError::Memory)));
            Err(e)
        }
    }
}

/// A dialogue after a piece, and what is answered.
#[derive(Drop)]
struct AfterPiece {
    talk: Talk,
    answer: Result<bool, AskError>,
}

/// A dialogue that runs out of memory.
fn lost(alloc: Global, lines: Text) -> Talk
    ensures { result ≡ lost lines }
{
    Talk {
        state: State::Failed(AskError::Memory),
        is_awaiting: false,
        left: silence(alloc),
        lines,
    }
}

/// The dialogue with the lines that were printed. Without memory the lines before are given back.
fn joined(lines: Text, after: Progress) -> Result<Talk, Text>
    ensures ok { IfOk result (λ talk. talk ≡ with_lines lines after) }
    ensures err { IfErr result (λ kept. kept ≡ lines) }
{
    let mut lines = lines;
    match lines.push(after.printed.as_str()) {
        Ok(()) => Ok(Talk {
            state: after.state,
            is_awaiting: after.is_awaiting,
            left: after.left,
            lines,
        }),
        Err(_) => {
            drop(after);
            Err(lines)
        }
    }
}

fn heard(
    alloc: Global,
    state: State,
    left: Listening,
    lines: Text,
    piece: &[u8],
) -> Result<Talk, Text>
    requires fit { IsFitState state }
    requires room { left.place + (length left.rest + length piece.now) < 2 ^ 64 }
    ensures ok { IfOk result (λ talk. talk ≡ with_lines lines (progress state left piece.now)) }
    ensures fit { IfOk result (λ talk. IsFitState talk.state) }
    ensures err { IfErr result (λ kept. kept ≡ lines) }
{
    match heard_more(alloc, state, left, piece) {
        Ok(after) => joined(lines, after),
        Err(_) => Err(lines),
    }
}

#[tactic(auto, unfolding(crate::specs::Dialogues::took))]
fn took(alloc: Global, talk: Talk, piece: &[u8]) -> Result<Talk, Text>
    requires fit { IsFitState talk.state }
    requires room { HasRoom talk piece.now }
    ensures ok { IfOk result (λ after. after ≡ took talk piece.now) }
    ensures fit { IfOk result (λ after. IsFitState after.state) }
    ensures err { IfErr result (λ lines. lines ≡ talk.lines) }
{
    let Talk {
        state,
        is_awaiting,
        left,
        lines,
    } = talk;
    match state {
        State::Failed(e) => Ok(Talk {
            state: State::Failed(e),
            is_awaiting,
            left,
            lines,
        }),
        state => heard(alloc, state, left, lines, piece),
    }
}

/// What is answered where a dialogue stands so.
fn answer_of(talk: &Talk) -> Result<bool, AskError>
    ensures { result ≡ answer_of talk.now.state talk.now.is_awaiting }
{
    match &talk.state {
        State::Failed(e) => Err(*e),
        _ => Ok(!talk.is_awaiting),
    }
}

fn taken(alloc: Global, talk: Talk, piece: &[u8]) -> AfterPiece
    requires fit { IsFitTalk talk }
    requires awaited { MayTake talk }
    requires room { HasRoom talk piece.now }
    ensures ok { IfOk result.answer (λ whole. IsTaken whole talk result.talk piece.now) }
    ensures err { IfErr result.answer (λ e. IsFailed e talk result.talk piece.now) }
    ensures heard { IfOk result.answer (λ whole. IsHeard whole talk result.talk piece.now) }
    ensures last { IfErr result.answer (λ e. e ≢ Memory → Comes talk result.talk piece.now) }
    ensures count { bytes_taken result.talk ≤ bytes_taken talk + length piece.now }
    ensures fit { IsFitTalk result.talk }
{
    front_is_stable();
    streams_are_cut_anywhere();
    match took(alloc, talk, piece) {
        Ok(after) => AfterPiece {
            answer: answer_of(&after),
            talk: after,
        },
        Err(lines) => AfterPiece {
            answer: Err(AskError::Memory),
            talk: lost(alloc, lines),
        },
    }
}
