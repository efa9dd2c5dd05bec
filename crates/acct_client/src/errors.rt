// Why a client ends without its last answer.
ghost use Rattle.acct_client.specs.declared.errors.AskError.TheVariants.{Memory};
ghost use Rattle.acct_client.specs.Askers.{unspelled};
ghost use Rattle.std.specs.Prelude.{◌≡◌};

use crate::NoMemory;
use client_commands::WordError;
use thiserror::Error;

/// Why a client ends without its last answer.
#[derive(Clone, Copy, Debug, PartialEq, Eq, Error)]
pub enum AskError {
    /// The words are no command.
    #[error("the words are no command of the client")]
    Usage,
    /// The peer's bytes are no answer. The place is that of the first byte, counted from the start of its stream, of
    /// what isn't the answer that was awaited.
    #[error("the peer's bytes are no answer from byte {0} on")]
    PeerBytes(u64),
    /// The peer answered a fault with this status, or refused to bind, which is the status 0.
    #[error("the peer answered fault {0:#x}")]
    PeerFault(u32),
    /// A reply refused the call with this status.
    #[error("the peer refused with status {0:#x}")]
    Refused(u32),
    /// There is no memory.
    #[error("there is no memory for the command")]
    Memory,
}

impl From<NoMemory> for AskError {
    ghost from_gives = { λ _ e. e ≡ Memory };

    fn from(_: NoMemory) -> Self {
        AskError::Memory
    }
}

impl From<WordError> for AskError {
    ghost from_gives = { λ e error. error ≡ unspelled e };

    fn from(e: WordError) -> Self {
        match e {
            WordError::Refused => AskError::Usage,
            WordError::NoMemory => AskError::Memory,
        }
    }
}
