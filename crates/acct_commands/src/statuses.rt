// The statuses of parts that aren't handed out, of askings, and of dialogues.
ghost use Rattle.std.specs.Prelude.{◌≡◌};
ghost use Rattle.acct_commands.specs.Commanded.{read_status, write_status, link_status, store_status, door_status};
ghost use Rattle.acct_commands.specs.Commanded.{spawn_status};
ghost use Rattle.acct_commands.specs.Serving.{entrance_status};
ghost use Rattle.acct_commands.specs.Calling.{talk_status};

use acct_client::TalkEnd;
use acct_keeper::KeepError;
use acct_links::TakeError;
use acct_server::{Failed, Status};

pub(crate) fn read_status(e: TakeError) -> Status
    ensures { result ≡ read_status e }
{
    match e {
        TakeError::Failed => Status::ReadFault,
        TakeError::NoMemory => Status::NoMemory,
    }
}

pub(crate) fn write_status(e: TakeError) -> Status
    ensures { result ≡ write_status e }
{
    match e {
        TakeError::Failed => Status::WriteFault,
        TakeError::NoMemory => Status::NoMemory,
    }
}

pub(crate) fn link_status(e: TakeError) -> Status
    ensures { result ≡ link_status e }
{
    match e {
        TakeError::Failed => Status::PeerFault,
        TakeError::NoMemory => Status::NoMemory,
    }
}

pub(crate) fn store_status(e: TakeError) -> Status
    ensures { result ≡ store_status e }
{
    match e {
        TakeError::Failed => Status::StoreFault,
        TakeError::NoMemory => Status::NoMemory,
    }
}

pub(crate) fn spawn_status(e: TakeError) -> Status
    ensures { result ≡ spawn_status e }
{
    match e {
        TakeError::Failed => Status::SpawnFault,
        TakeError::NoMemory => Status::NoMemory,
    }
}

pub(crate) fn door_status(e: TakeError) -> Status
    ensures { result ≡ door_status e }
{
    match e {
        TakeError::Failed => Status::DoorFault,
        TakeError::NoMemory => Status::NoMemory,
    }
}

/// The status of an asking that wasn't answered with doors.
pub(crate) fn entrance_status(e: KeepError) -> Status
    ensures { result ≡ entrance_status e }
{
    match e {
        KeepError::Failed => Status::DoorFault,
        KeepError::NoMemory => Status::NoMemory,
    }
}

/// The status of how a dialogue ended; a failed write of its lines comes first.
pub(crate) fn talk_status(end: TalkEnd, printing: Result<(), Failed>) -> Status
    ensures { result ≡ talk_status end printing }
{
    if printing.is_err() {
        return Status::WriteFault;
    }
    match end {
        TalkEnd::Done => Status::Done,
        TalkEnd::NoMemory => Status::NoMemory,
        TalkEnd::PeerBytes(place) => Status::PeerBytes(place),
        TalkEnd::PeerFault => Status::PeerFault,
        TalkEnd::InputTooLong => Status::InputTooLong,
        TalkEnd::Refused(status) => Status::Refused(status),
    }
}
