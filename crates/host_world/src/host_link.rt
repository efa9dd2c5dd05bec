// The real links: connections by TCP and by Unix sockets.
ghost use Rattle.std.specs.Prelude.{◌≡◌, ◌||◌, None, false, true, unwrap_or, IfOk};
ghost use Rattle.host_world.specs.Host.{trouble_of, is_unix, has_path, has_place};
ghost use Rattle.host_world.specs.declared.stranger.Stranger.TheVariants.{Other};

use crate::channel::Channel;
use crate::stranger::{Stranger, stranger_of};
use crate::trouble::Trouble;
use acct_links::{Caller, Failed, Link, TakeError};
use std::io::{self, Read, Write};
use std::net::{Net, TcpStream};
use std::os::unix::net::UnixStream;

/// A connection. It tells nothing of its bytes, and keeps what went wrong last and what its peer speaks.
#[derive(Drop)]
pub struct HostLink<S: Read + Write + Drop> {
    channel: Channel<S>,
    has_ended: bool,
    read_faults: u64,
    write_faults: u64,
    trouble: Option<Trouble>,
    stranger: Option<Stranger>,
}

impl<S: Read + Write + Drop> HostLink<S> {
    /// A link of which nothing was read or written.
    pub fn new(channel: Channel<S>) -> Self
        ensures going { result.has_ended ≡ false }
        ensures faults { (result.read_faults ≡ 0) × (result.write_faults ≡ 0) }
        ensures trouble { result.trouble ≡ None }
        ensures stranger { result.stranger ≡ None }
    {
        HostLink {
            channel,
            has_ended: false,
            read_faults: 0,
            write_faults: 0,
            trouble: None,
            stranger: None,
        }
    }

    /// What answers there, by the first bytes that came, where these are no answer of an account server.
    pub fn stranger(&self) -> Stranger
        ensures { result ≡ unwrap_or self.now.stranger Other }
    {
        self.stranger.unwrap_or(Stranger::Other)
    }

    /// What went wrong last, or that it ended.
    pub fn into_trouble(self) -> Option<Trouble>
        ensures { result ≡ trouble_of self.has_ended self.trouble }
    {
        let HostLink {
            channel,
            has_ended,
            trouble,
            ..
        } = self;
        drop(channel);
        match trouble {
            None if has_ended => Some(Trouble::Ended),
            other => other,
        }
    }
}

impl<S: Read + Write + Drop> Link for HostLink<S> {
    ghost told = { λ link. record {
      received = None;
      left = None;
      sent = None;
      ended = link.has_ended;
      read_faults = link.read_faults;
      write_faults = link.write_faults;
    } };

    fn read(&mut self, buf: &mut [u8]) -> Result<usize, Failed> {
        let got = match &mut self.channel {
            Channel::Tcp(stream) => stream.read(buf),
            Channel::Unix(stream) => stream.read(buf),
        };
        match got {
            Ok(count) => {
                self.has_ended |= (count == 0) & !buf.is_empty();
                if self.stranger.is_none() {
                    self.stranger = buf.get(..count).map(stranger_of);
                }
                Ok(count)
            }
            Err(error) => {
                self.read_faults = self.read_faults.saturating_add(1);
                self.trouble = Some(Trouble::NotRead(error));
                Err(Failed)
            }
        }
    }

    fn write(&mut self, bytes: &[u8]) -> Result<usize, Failed> {
        if bytes.is_empty() {
            return Ok(0);
        }
        let took = match &mut self.channel {
            Channel::Tcp(stream) => stream.write(bytes),
            Channel::Unix(stream) => stream.write(bytes),
        };
        let error = match took {
            Ok(0) => io::Error::from(io::ErrorKind::WriteZero),
            Ok(count) => return Ok(count),
            Err(error) => error,
        };
        self.write_faults = self.write_faults.saturating_add(1);
        self.trouble = Some(Trouble::NotWritten(error));
        Err(Failed)
    }
}

/// Calls addresses of the forms `tcp:HOST:PORT` and `unix:PATH`, and keeps what went wrong last.
#[derive(Drop)]
pub struct HostCaller<'a, R: Net> {
    rt: &'a R,
    fault_count: u64,
    trouble: Option<Trouble>,
}

impl<'a, R: Net> HostCaller<'a, R> {
    /// A caller of which nothing was asked.
    pub fn new(rt: &'a R) -> Self
        ensures count { result.fault_count ≡ 0 }
        ensures trouble { result.trouble ≡ None }
    {
        HostCaller {
            rt,
            fault_count: 0,
            trouble: None,
        }
    }

    /// What went wrong last.
    pub fn into_trouble(self) -> Option<Trouble>
        ensures { result ≡ self.entry.trouble }
    {
        self.trouble
    }
}

fn connect<R: Net>(rt: &R, address: &str) -> io::Result<Channel<R::Stream>>
    ensures form { IfOk result (λ _. (has_path address.now || has_place address.now) ≡ true) }
    ensures unix { IfOk result (λ channel. is_unix channel ≡ has_path address.now) }
{
    if let Some(path) = address.strip_prefix("unix:") {
        return Ok(Channel::Unix(UnixStream::connect(rt, path)?));
    }
    match address.strip_prefix("tcp:") {
        Some(place) => Ok(Channel::Tcp(TcpStream::connect(rt, place)?)),
        None => Err(io::Error::from(io::ErrorKind::InvalidInput)),
    }
}

impl<'a, R: Net> Caller for HostCaller<'a, R> {
    type L = HostLink<R::Stream>;

    ghost called = { λ _. None };

    ghost faults = { λ caller. caller.fault_count };

    fn link(&mut self, address: &str) -> Result<HostLink<R::Stream>, TakeError> {
        match connect(self.rt, address) {
            Ok(channel) => Ok(HostLink::new(channel)),
            Err(error) => {
                self.fault_count = self.fault_count.saturating_add(1);
                self.trouble = Some(Trouble::NotReached(error));
                Err(TakeError::Failed)
            }
        }
    }
}
