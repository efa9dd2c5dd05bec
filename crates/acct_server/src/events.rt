// What the lines of an event file say.
ghost use Rattle.std.specs.Prelude.{◌≡◌, Some, None, Ok, Err, IfOk, ◌<◌, length};
ghost use Rattle.acct_server.specs.declared.events.LineError.TheVariants.{NoMemory, Refused};
ghost use Rattle.acct_base.specs.Words.{parted};
ghost use Rattle.acct_server.specs.Events.{number_of, brings, of_two, of_command};
ghost use Rattle.acct_server.specs.Events.{event_of, undecoded, DataFits};
ghost use Rattle.hex.specs.Hex.{decode_of};

use acct_base::{Seq, decimal_of, is_same, parted};
use hex::FromHexError;
use std::alloc::{AllocError, Global};
use thiserror::Error;

/// What a line of an event file says.
#[derive(Debug, Drop)]
pub enum Event {
    /// An empty line or a comment.
    Nothing,
    /// A client connects to the listener of this name.
    Open { conn: u32, listener: Seq<u8> },
    /// Bytes come on a connection.
    Data { conn: u32, bytes: Seq<u8> },
    /// The client ends a connection.
    End { conn: u32 },
}

/// Why a line wasn't run.
#[derive(Clone, Copy, Debug, PartialEq, Eq, Error)]
pub enum LineError {
    /// It has no form, or its condition fails.
    #[error("the line has no form, or nothing stands open for it")]
    Refused,
    #[error("there is no memory to run the line")]
    NoMemory,
}

impl From<AllocError> for LineError {
    ghost from_gives = { λ _ e. e ≡ NoMemory };

    fn from(_: AllocError) -> Self {
        LineError::NoMemory
    }
}

impl From<FromHexError> for LineError {
    ghost from_gives = { λ e error. error ≡ undecoded e };

    fn from(e: FromHexError) -> Self {
        match e {
            FromHexError::OutOfMemory => LineError::NoMemory,
            _ => LineError::Refused,
        }
    }
}

// The number from 1 to 2^32 - 1 that digits without a leading zero spell.
#[tactic(auto, unfolding(crate::specs::Events::number_of))]
fn number_of(word: &[u8]) -> Option<u32>
    ensures { result ≡ number_of word.now }
{
    let number = decimal_of(10, word)?;
    if number < 1 || 0xFFFFFFFF < number {
        return None;
    }
    Some(number as u32)
}

// What a data line brings.
fn data_of(alloc: Global, conn: u32, digits: &[u8]) -> Result<Event, LineError>
    ensures found { IfOk result (λ event. brings (Some conn) (decode_of digits.now) ≡ Some event) }
    ensures short { IfOk result (DataFits (length digits.now)) }
    ensures refused { result ≡ Err Refused → brings (Some conn) (decode_of digits.now) ≡ None }
{
    let bytes = hex::decode(alloc, digits)?;
    Ok(Event::Data {
        conn,
        bytes: Seq::from_vec(bytes),
    })
}

// An opening or data, after the command.
fn of_two(alloc: Global, command: &[u8], word: &[u8], rest: &[u8]) -> Result<Event, LineError>
    ensures found { IfOk result (λ event. of_two command.now (Some (word.now, rest.now)) ≡ Some event) }
    ensures short { IfOk result (DataFits (length rest.now)) }
    ensures refused { result ≡ Err Refused → of_two command.now (Some (word.now, rest.now)) ≡ None }
{
    let Some(conn) = number_of(word) else {
        return Err(LineError::Refused);
    };
    if is_same(command, b"open") {
        return Ok(Event::Open {
            conn,
            listener: Seq::copy_of(alloc, rest)?,
        });
    }
    if is_same(command, b"data") {
        return data_of(alloc, conn, rest);
    }
    Err(LineError::Refused)
}

// A line with a command.
fn of_command(alloc: Global, line: &[u8]) -> Result<Event, LineError>
    ensures found { IfOk result (λ event. of_command (parted 32 line.now) ≡ Some event) }
    ensures short { IfOk result (DataFits (length line.now)) }
    ensures refused { result ≡ Err Refused → of_command (parted 32 line.now) ≡ None }
{
    let Some((command, rest)) = parted(line, b' ') else {
        return Err(LineError::Refused);
    };
    if is_same(command, b"end") {
        return match number_of(rest) {
            Some(conn) => Ok(Event::End { conn }),
            None => Err(LineError::Refused),
        };
    }
    match parted(rest, b' ') {
        Some((word, rest)) => of_two(alloc, command, word, rest),
        None => Err(LineError::Refused),
    }
}

/// What a line says, or that it has no form.
#[tactic(auto, unfolding(crate::specs::Events::event_of))]
pub fn event_of(alloc: Global, line: &[u8]) -> Result<Event, LineError>
    ensures found { IfOk result (λ event. event_of line.now ≡ Some event) }
    ensures short { IfOk result (DataFits (length line.now)) }
    ensures refused { result ≡ Err Refused → event_of line.now ≡ None }
{
    if line.is_empty() || line[0] == b'#' {
        return Ok(Event::Nothing);
    }
    of_command(alloc, line)
}
