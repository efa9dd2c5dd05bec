// What went wrong with a listener, and what to do about it.
ghost use Rattle.std.specs.Prelude.{◌≡◌};
ghost use Rattle.std.specs.IoError.{error_kind, raw_os_error};
ghost use Rattle.host_doors.specs.Troubles.{advice_of, is_lost, keep_error_of, listen_error_of};
ghost use Rattle.host_doors.specs.declared.troubles.ListenError.TheVariants.{NoMemory};

use acct_keeper::KeepError;
use std::alloc::AllocError;
use std::io;
use thiserror::Error;

// The system's numbers of errors after which no connection comes at a socket.
const EBADF: i32 = 9;

const EINVAL: i32 = 22;

const ENOTSOCK: i32 = 88;

/// What to do about a listener that can't have its address.
#[derive(Clone, Copy, Debug, PartialEq, Eq, Error)]
pub enum Advice {
    #[error("a program listens there, so stop it, or configure another address")]
    InUse,
    #[error("what is there is no socket, so move it away, or configure another path")]
    Occupied,
    #[error("make the folder for its socket, or configure another path")]
    NoFolder,
    #[error("start the server as a user who may listen there, or configure another address")]
    NotAllowed,
    #[error("no interface of this machine has that address, so configure one that is its own")]
    NotHere,
    #[error("configure an address tcp:HOST:PORT, or unix:PATH with a path of 1 to 107 bytes")]
    Malformed,
    #[error("the host isn't known here, so configure another, or an IP address")]
    UnknownHost,
    #[error("mend that, or configure another address")]
    Other,
}

/// What to do, by the system's reason.
pub(crate) fn advice_of(error: io::Error) -> Advice
    ensures { result ≡ advice_of (error_kind error) (raw_os_error error) }
{
    match error.kind() {
        io::ErrorKind::AddrInUse => Advice::InUse,
        io::ErrorKind::AlreadyExists => Advice::Occupied,
        io::ErrorKind::NotFound | io::ErrorKind::NotADirectory => Advice::NoFolder,
        io::ErrorKind::PermissionDenied => Advice::NotAllowed,
        io::ErrorKind::AddrNotAvailable => Advice::NotHere,
        io::ErrorKind::InvalidInput => Advice::Malformed,
        io::ErrorKind::Uncategorized if error.raw_os_error().is_none() => Advice::UnknownHost,
        _ => Advice::Other,
    }
}

/// Whether the socket of a door is lost: it is no open file, listens no more, or is no socket.
pub(crate) fn is_lost(error: io::Error) -> bool
    ensures { result ≡ is_lost (raw_os_error error) }
{
    match error.raw_os_error() {
        Some(number) => number == EBADF || number == EINVAL || number == ENOTSOCK,
        None => false,
    }
}

/// Why no listener was opened.
#[derive(Clone, Copy, Debug, PartialEq, Eq, Error)]
pub enum ListenError {
    /// The system refused it, and the entrance's count of faults rose.
    #[error("the listener can't be opened")]
    Refused,
    /// Memory ran out.
    #[error("there is no memory for the listener")]
    NoMemory,
}

impl From<AllocError> for ListenError {
    ghost from_gives = { λ _ e. e ≡ NoMemory };

    fn from(_: AllocError) -> Self {
        ListenError::NoMemory
    }
}

impl From<io::Error> for ListenError {
    ghost from_gives = { λ error e. e ≡ listen_error_of (error_kind error) };

    fn from(error: io::Error) -> Self {
        match error.kind() {
            io::ErrorKind::OutOfMemory => ListenError::NoMemory,
            _ => ListenError::Refused,
        }
    }
}

// An entrance answers by the error of keepers, as its trait has it.
impl From<ListenError> for KeepError {
    ghost from_gives = { λ error e. e ≡ keep_error_of error };

    fn from(error: ListenError) -> Self {
        match error {
            ListenError::Refused => KeepError::Failed,
            ListenError::NoMemory => KeepError::NoMemory,
        }
    }
}

/// Why a listener has no doors, or a door gives no connection any more, and what to do about it.
#[derive(Debug, Drop, Error)]
pub enum DoorTrouble {
    #[error("no listener at {address} ({error}); {advice}")]
    NotBound {
        address: String,
        error: io::Error,
        advice: Advice,
    },
    #[error("no connection can be taken any more ({0}); start the server again")]
    NotAccepted(io::Error),
}
