// How a command ends.
ghost use Rattle.std.specs.Prelude.{◌≡◌};
ghost use Rattle.acct_server.specs.Leaves.{refused_status, unread_status, unopened_status};

use crate::WholeError;
use acct_base::Seq;
use acct_machine::{ConfigError, OpenError};

/// How a command ends, with the number or the key that its cause carries.
#[derive(Debug, Drop)]
pub enum Status {
    /// The input was read to its end.
    Done,
    /// Memory ran out.
    NoMemory,
    /// The words have no form.
    Usage,
    /// The configuration breaks a rule, the first by its number.
    Config(u32),
    /// A read of a source failed, or a source wasn't handed out.
    ReadFault,
    /// A write failed, or the sink wasn't handed out.
    WriteFault,
    /// A call of the keeper failed before the machine was made, or the keeper wasn't handed out.
    StoreFault,
    /// The stored pairs break a rule: the smallest key that is broken.
    StoredPair(Seq<u8>),
    /// A line of the events is refused, the first by its number from 1.
    EventLine(u32),
    /// A call of the entrance or of a door failed, or the entrance wasn't handed out.
    DoorFault,
    /// The history was full, with the count of what it has.
    HistoryFull(u64),
    /// The peer's bytes encode no answer, at this place of its stream.
    PeerBytes(u64),
    /// A call of the caller or of the link failed, the caller wasn't handed out, or the link ended before the answer.
    PeerFault,
    /// A source has more than 67,108,864 bytes, or an answer isn't whole after as many.
    InputTooLong,
    /// The peer refused, with the status that it answered, 0 of a bind_nak.
    Refused(u32),
    /// The program of the hook was run for the out row of this number as often as it may be, and never ended with 0.
    HookHeld(u64),
    /// The keeper failed where an out row was to leave, with its count of faults.
    HookStore(u64),
    /// The spawner wasn't handed out.
    SpawnFault,
}

impl From<WholeError> for Status {
    ghost from_gives = { λ e status. status ≡ unread_status e };

    fn from(e: WholeError) -> Self {
        match e {
            WholeError::Fault => Status::ReadFault,
            WholeError::TooLong => Status::InputTooLong,
            WholeError::Memory => Status::NoMemory,
        }
    }
}

impl From<ConfigError> for Status {
    ghost from_gives = { λ e status. status ≡ refused_status e };

    fn from(e: ConfigError) -> Self {
        match e {
            ConfigError::Rule(number) => Status::Config(number),
            ConfigError::Memory => Status::NoMemory,
        }
    }
}

impl From<OpenError> for Status {
    ghost from_gives = { λ e status. status ≡ unopened_status e };

    fn from(e: OpenError) -> Self {
        match e {
            OpenError::StoreFault => Status::StoreFault,
            OpenError::StoredPair(key) => Status::StoredPair(key),
            OpenError::Memory => Status::NoMemory,
        }
    }
}
