// What listens for connections.
use crate::channels::Channel;
use std::alloc::Global;
use std::io;
use std::net::{OpenListener, OpenStream};
use std::os::unix::net::UnixListener;

/// A socket that listens, by TCP or in a file.
#[derive(Drop)]
pub enum Socket<T> {
    Tcp(T),
    Unix(UnixListener),
}

impl<T: OpenListener + Drop> Socket<T> {
    /// The address at which it listens, by TCP the one that the system gave it, else the one given here.
    pub(crate) fn address(&self, alloc: Global, asked: &str) -> io::Result<String> {
        match self {
            Socket::Tcp(listener) => {
                let bound = listener.local_addr()?;
                Ok(format!(in alloc; "tcp:{bound}")?)
            }
            Socket::Unix(_) => Ok(format!(in alloc; "{asked}")?),
        }
    }
}

impl<T: OpenListener + Drop> Socket<T>
where
    T::Stream: OpenStream,
{
    /// The next connection. An answer goes out at once and doesn't wait until there is more of it.
    pub(crate) fn accept(&self) -> io::Result<Channel<T::Stream>> {
        match self {
            Socket::Tcp(listener) => {
                let (stream, _) = listener.accept()?;
                let _ = stream.set_nodelay(true);
                Ok(Channel::Tcp(stream))
            }
            Socket::Unix(listener) => {
                let (stream, _) = listener.accept()?;
                Ok(Channel::Unix(stream))
            }
        }
    }
}
