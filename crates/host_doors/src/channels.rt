// What a connection goes over.
ghost use Rattle.std.specs.Io.{ReadsAtMost, WritesAtMost};

use std::io::{self, Read, Write};
use std::net::OpenStream;
use std::os::unix::net::UnixStream;
use std::time::Duration;

/// A connection by TCP or by a Unix socket, or one that has ended before it came.
#[derive(Drop)]
pub enum Channel<S> {
    Tcp(S),
    Unix(UnixStream),
    Ended,
}

impl<S: Read + Write> Channel<S> {
    /// Reads as the stream does.
    pub fn read(&mut self, buf: &mut [u8]) -> io::Result<usize>
        ensures { ReadsAtMost result buf.new }
    {
        match self {
            Channel::Tcp(stream) => stream.read(buf),
            Channel::Unix(stream) => stream.read(buf),
            Channel::Ended => Ok(0),
        }
    }

    /// Writes as the stream does.
    pub fn write(&mut self, bytes: &[u8]) -> io::Result<usize>
        ensures { WritesAtMost result bytes.now }
    {
        match self {
            Channel::Tcp(stream) => stream.write(bytes),
            Channel::Unix(stream) => stream.write(bytes),
            Channel::Ended => Err(io::Error::from(io::ErrorKind::BrokenPipe)),
        }
    }
}

impl<S: OpenStream> Channel<S> {
    /// Lets one read and one write of the system wait so long. Where it takes no such limit, they wait as they do.
    pub(crate) fn limit(&self, read: Duration, write: Duration) {
        match self {
            Channel::Tcp(stream) => {
                let _ = stream.set_read_timeout(Some(read));
                let _ = stream.set_write_timeout(Some(write));
            }
            Channel::Unix(stream) => {
                let _ = stream.set_read_timeout(Some(read));
                let _ = stream.set_write_timeout(Some(write));
            }
            Channel::Ended => {}
        }
    }
}
