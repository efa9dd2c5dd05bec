// What went wrong with a link of the real world.
use std::io;
use thiserror::Error;

/// What went wrong with a link of the real world, and what to do about it.
#[derive(Debug, Drop, Error)]
pub enum Trouble {
    #[error("no connection ({0}); start the server there, or give the address at which it listens")]
    NotReached(io::Error),
    #[error("reading failed ({0}); the server may have stopped, so start it and call again")]
    NotRead(io::Error),
    #[error("writing failed ({0}); the server may have stopped, so start it and call again")]
    NotWritten(io::Error),
    #[error("the server closed the connection before its answer was whole; see whether it still runs, and call again")]
    Ended,
}
