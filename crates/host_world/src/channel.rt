// What a link of the real world goes over.
use std::os::unix::net::UnixStream;

/// A connection by TCP or by a Unix socket.
#[derive(Drop)]
pub enum Channel<S> {
    Tcp(S),
    Unix(UnixStream),
}
