// The exit code of a status, and its word.
ghost use Rattle.std.specs.Prelude.{◌≡◌};
ghost use Rattle.account_words.specs.Statuses.{code_of, word_of};

use acct_server::Status;

/// The exit code of a status.
pub fn code_of(status: &Status) -> u8
    ensures { result ≡ code_of status.now }
{
    match status {
        Status::Done => 0,
        Status::NoMemory => 1,
        Status::Usage => 2,
        Status::Config(_) => 3,
        Status::ReadFault => 4,
        Status::WriteFault => 5,
        Status::StoreFault => 6,
        Status::StoredPair(_) => 7,
        Status::EventLine(_) => 8,
        Status::DoorFault => 9,
        Status::HistoryFull(_) => 10,
        Status::PeerBytes(_) => 11,
        Status::PeerFault => 12,
        Status::InputTooLong => 13,
        Status::Refused(_) => 14,
        Status::HookHeld(_) => 15,
        Status::HookStore(_) => 16,
        Status::SpawnFault => 17,
    }
}

/// The word of a status, which stands after its code.
pub fn word_of(status: &Status) -> &'static str
    ensures { result.now ≡ word_of status.now }
{
    match status {
        Status::Done => "done",
        Status::NoMemory => "memory",
        Status::Usage => "usage",
        Status::Config(_) => "config",
        Status::ReadFault => "read",
        Status::WriteFault => "write",
        Status::StoreFault => "store",
        Status::StoredPair(_) => "pair",
        Status::EventLine(_) => "event",
        Status::DoorFault => "door",
        Status::HistoryFull(_) => "full",
        Status::PeerBytes(_) => "peer",
        Status::PeerFault => "link",
        Status::InputTooLong => "long",
        Status::Refused(_) => "refused",
        Status::HookHeld(_) => "hook",
        Status::HookStore(_) => "outbox",
        Status::SpawnFault => "spawner",
    }
}
