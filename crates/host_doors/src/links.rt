// The connections of the system.
ghost use Rattle.std.specs.Prelude.{◌≡◌, ◌<◌, ◌==◌, None, true, false, length, IfOk};
ghost use Rattle.std.specs.Io.{ReadsAtMost, WritesAtMost};
ghost use Rattle.acct_links.specs.Links.{Reads, Writes};
ghost use Rattle.host_doors.specs.Counts.{told_by, is_over, read_after};
ghost use Rattle.host_doors.specs.Closings.{cause_of, last_of};

use crate::channels::Channel;
use crate::closings::{CloseCause, LastPdu, cause_of, last_of};
use crate::halls::{Hall, LIMITS};
use acct_links::{Failed, Link};
use std::alloc::Global;
use std::io::{self, Read, Write};
use std::sync::Arc;
use std::time::Clock;
use thiserror::Error;

/// Which call of a link failed, and the system's reason.
#[derive(Clone, Copy, Debug, Error)]
pub enum LinkTrouble {
    #[error("reading failed ({0})")]
    NotRead(io::Error),
    #[error("writing failed ({0})")]
    NotWritten(io::Error),
}

/// A connection. It tells nothing of its bytes, and keeps whether anything of it was read or written, whether a read
/// has answered the end, how many bytes were read, whether the last ones filled what was given for them, what was
/// written last, and what went wrong last.
#[derive(Drop)]
pub struct HostLink<R, S> {
    channel: Channel<S>,
    hall: Option<Arc<Hall<R>, Global>>,
    is_used: bool,
    has_ended: bool,
    read_count: u64,
    is_filled: bool,
    last: LastPdu,
    read_faults: u64,
    write_faults: u64,
    trouble: Option<LinkTrouble>,
    ghost fresh: { is_used ≡ false → has_ended ≡ false },
}

impl<R, S> HostLink<R, S> {
    /// A link of which nothing was read or written, and the hall of its door, if it has one.
    pub fn new(channel: Channel<S>, hall: Option<Arc<Hall<R>, Global>>) -> Self
        ensures channel { result.channel ≡ channel }
        ensures unused { result.is_used ≡ false }
        ensures going { result.has_ended ≡ false }
        ensures last { result.last ≡ LastPdu.Other }
        ensures read { (result.read_count ≡ 0) × (result.is_filled ≡ false) }
        ensures faults { (result.read_faults ≡ 0) × (result.write_faults ≡ 0) }
        ensures trouble { result.trouble ≡ None }
    {
        HostLink {
            channel,
            hall,
            is_used: false,
            has_ended: false,
            read_count: 0,
            is_filled: false,
            last: LastPdu::Other,
            read_faults: 0,
            write_faults: 0,
            trouble: None,
        }
    }

    /// Whether anything of it was read or written, or asked for.
    pub fn is_used(&self) -> bool
        ensures { result ≡ self.now.is_used }
    {
        self.is_used
    }

    /// Whether it had ended before it came.
    pub fn is_over(&self) -> bool
        ensures { result ≡ is_over self.now.channel }
    {
        match &self.channel {
            Channel::Ended => true,
            Channel::Tcp(_) | Channel::Unix(_) => false,
        }
    }

    /// Whether a read has answered the end.
    pub fn has_ended(&self) -> bool
        ensures { result ≡ self.now.has_ended }
    {
        self.has_ended
    }

    /// Why it was closed, where it hasn't ended and nothing went wrong.
    pub fn close_cause(&self) -> CloseCause
        ensures { result ≡ cause_of self.now.last self.now.read_count self.now.is_filled }
    {
        cause_of(self.last, self.read_count, self.is_filled)
    }

    /// What went wrong last.
    pub fn trouble(&self) -> Option<LinkTrouble>
        ensures { result ≡ self.now.trouble }
    {
        self.trouble
    }
}

// Whether nothing came within the limit of one read of the system.
fn is_silence(got: &io::Result<usize>) -> bool {
    match got {
        Err(error) => error.kind() == io::ErrorKind::WouldBlock,
        Ok(_) => false,
    }
}

// Why no more is waited for, after so many reads of the system, if that is so.
fn silence<R: Clock>(hall: &Option<Arc<Hall<R>, Global>>, reads: u64) -> Option<io::Error> {
    let limits = match hall {
        Some(hall) => hall.limits(),
        None => LIMITS,
    };
    let is_ending = match hall {
        Some(hall) => hall.is_ending(),
        None => false,
    };
    if reads >= limits.read {
        return Some(io::Error::new(
            io::ErrorKind::TimedOut,
            "nothing came within the limit of time",
        ));
    }
    if is_ending && reads >= limits.last_read {
        let why = "nothing came for seconds, and a period was to end";
        return Some(io::Error::new(io::ErrorKind::TimedOut, why));
    }
    None
}

// Reads, and again where nothing came within the limit of one read of the system, until the link's limit is met.
fn read_within<R: Clock, S: Read + Write>(
    channel: &mut Channel<S>,
    hall: &Option<Arc<Hall<R>, Global>>,
    buf: &mut [u8],
) -> io::Result<usize>
    ensures { ReadsAtMost result buf.new }
{
    for reads in 1..u64::MAX {
        let got = channel.read(buf);
        if !is_silence(&got) {
            return got;
        }
        if let Some(error) = silence(hall, reads) {
            return Err(error);
        }
    }
    Err(io::Error::from(io::ErrorKind::TimedOut))
}

// Why a write took nothing: the system's own reason, but where its limit of time was met.
fn not_taken(error: io::Error) -> io::Error {
    match error.kind() {
        io::ErrorKind::WouldBlock => {
            io::Error::new(
                io::ErrorKind::TimedOut,
                "nothing was taken within the limit of time",
            )
        }
        _ => error,
    }
}

impl<R: Clock, S: Read + Write> Link for HostLink<R, S> {
    ghost told = { λ link. told_by link.has_ended link.read_faults link.write_faults };

    fn read(&mut self, buf: &mut [u8]) -> Result<usize, Failed>
        ensures bound { ReadsAtMost result buf.new }
        ensures reads { Reads (told_by self.old.has_ended self.old.read_faults self.old.write_faults)
            (told_by self.new.has_ended self.new.read_faults self.new.write_faults) result buf.new }
        ensures count { self.new.read_count ≡ read_after result self.old.read_count }
        ensures filled { IfOk result (λ count. self.new.is_filled ≡ (count == length buf.old)) }
        ensures last { self.new.last ≡ self.old.last }
    {
        self.is_used = true;
        match read_within(&mut self.channel, &self.hall, buf) {
            Ok(count) => {
                self.has_ended |= (count == 0) & !buf.is_empty();
                self.read_count = self.read_count.saturating_add(count as u64);
                self.is_filled = count == buf.len();
                Ok(count)
            }
            Err(error) => {
                self.read_faults = self.read_faults.saturating_add(1);
                self.trouble = Some(LinkTrouble::NotRead(error));
                Err(Failed)
            }
        }
    }

    fn write(&mut self, bytes: &[u8]) -> Result<usize, Failed>
        ensures bound { WritesAtMost result bytes.now }
        ensures some { IfOk result (λ n. 0 < length bytes.now → 0 < n) }
        ensures writes { Writes (told_by self.old.has_ended self.old.read_faults self.old.write_faults)
            (told_by self.new.has_ended self.new.read_faults self.new.write_faults) result bytes.now }
        ensures last { self.new.last ≡ last_of bytes.now }
        ensures read { (self.new.read_count ≡ self.old.read_count) × (self.new.is_filled ≡ self.old.is_filled) }
    {
        self.is_used = true;
        self.last = last_of(bytes);
        if bytes.is_empty() {
            return Ok(0);
        }
        let error = match self.channel.write(bytes) {
            Ok(0) => io::Error::from(io::ErrorKind::WriteZero),
            Ok(count) => return Ok(count),
            Err(error) => error,
        };
        self.write_faults = self.write_faults.saturating_add(1);
        self.trouble = Some(LinkTrouble::NotWritten(not_taken(error)));
        Err(Failed)
    }
}
