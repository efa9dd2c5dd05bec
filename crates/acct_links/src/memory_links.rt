// Links in memory.
ghost use Rattle.std.specs.Prelude.{◌≡◌, ◌<◌, ◌≤◌, length, take, [], false, IfOk, is_err};
ghost use Rattle.std.specs.Io.{ReadsAtMost, WritesAtMost};
ghost use Rattle.acct_links.specs.Links.{Reads, Writes};
ghost use Rattle.acct_links.specs.Memory.{told_by_steady, told_by, ReadsInMemory, WritesInMemory};

use crate::links::Link;
use acct_base::rest_of;
use acct_keeper::{Failed, copy_front, one_more};
use std::alloc::{AllocError, Global};
use std::marker::Model;

/// A link that gives the bytes it was made with, and whose calls never fail: its counts of faults are 0. It keeps
/// nothing of what is written, and tells nothing of it.
#[derive(Drop)]
pub struct SteadyLink {
    bytes: Vec<u8>,
    place: usize,
    most: usize,
    has_ended: bool,
}

impl Model for SteadyLink {
    ghost use Rattle.std.specs.Prelude.{◌≤◌, ◌<◌, drop, take, vec_len};
    ghost use Rattle.acct_links.specs.Memory.{SteadyLinkInMemory};

    ghost Value = { SteadyLinkInMemory };

    ghost view = { λ link. record {
      received = take link.place link.bytes.items;
      left = drop link.place link.bytes.items;
      ended = link.has_ended;
    } };

    ghost invariant = { λ link. (link.place ≤ vec_len link.bytes) × (0 < link.most) };
}

impl SteadyLink {
    /// A link that gives at most so many bytes a read.
    pub fn new(bytes: Vec<u8>, most: usize) -> Self
        requires { 0 < most }
        ensures { result ≡ record { received = []; left = bytes.items; ended = false } }
    {
        SteadyLink {
            bytes,
            place: 0,
            most,
            has_ended: false,
        }
    }
}

impl Link for SteadyLink {
    ghost told = { told_by_steady };

    fn read(&mut self, buf: &mut [u8]) -> Result<usize, Failed>
        ensures bound { ReadsAtMost result buf.new }
        ensures reads { Reads (told_by_steady self.old) (told_by_steady self.new) result buf.new }
        ensures steady { is_err result ≡ false }
    {
        let count = copy_front(rest_of(&self.bytes, self.place), self.most, buf);
        self.place += count;
        self.has_ended |= (count == 0) & !buf.is_empty();
        Ok(count)
    }

    fn write(&mut self, bytes: &[u8]) -> Result<usize, Failed> {
        Ok(bytes.len())
    }
}

/// A link in memory, with room for a number of bytes that are written. Its reads and writes are numbered together from
/// 1, and those of the given numbers fail; so does a write whose piece has no room.
#[derive(Drop)]
pub struct MemoryLink {
    input: SteadyLink,
    output: Vec<u8>,
    room: usize,
    most: usize,
    failing: Vec<u64>,
    calls: u64,
    read_faults: u64,
    write_faults: u64,
}

impl Model for MemoryLink {
    ghost use Rattle.std.specs.Prelude.{◌≤◌, ◌<◌, vec_len, vec_capacity};
    ghost use Rattle.acct_links.specs.Memory.{LinkInMemory};

    ghost Value = { LinkInMemory };

    ghost view = { λ link. record {
      input = link.input;
      sent = link.output.items;
      room = link.room;
      read_faults = link.read_faults;
      write_faults = link.write_faults;
      calls = link.calls;
      failing = link.failing.items;
    } };

    ghost invariant = { λ link. (vec_len link.output ≤ link.room) × (link.room ≤ vec_capacity link.output)
        × (0 < link.most) };
}

impl MemoryLink {
    /// A link that gives what another gives, and takes at most so many bytes a write; it takes the room for all of them
    /// now.
    pub fn new(
        alloc: Global,
        input: SteadyLink,
        room: usize,
        most: usize,
        failing: Vec<u64>,
    ) -> Result<Self, AllocError>
        requires { 0 < most }
        ensures { IfOk result (λ link. link ≡ record {
          input = input;
          sent = [];
          room = room;
          read_faults = 0;
          write_faults = 0;
          calls = 0;
          failing = failing.items;
        }) }
    {
        Ok(MemoryLink {
            input,
            output: Vec::with_capacity(alloc, room)?,
            room,
            most,
            failing,
            calls: 0,
            read_faults: 0,
            write_faults: 0,
        })
    }

    /// The bytes that were written.
    pub fn as_slice(&self) -> &[u8]
        ensures { result.now ≡ self.now.sent }
    {
        &self.output
    }
}

impl Link for MemoryLink {
    ghost told = { told_by };

    fn read(&mut self, buf: &mut [u8]) -> Result<usize, Failed>
        ensures bound { ReadsAtMost result buf.new }
        ensures reads { Reads (told_by self.old) (told_by self.new) result buf.new }
        ensures call { ReadsInMemory self.old self.new result }
    {
        self.calls = one_more(self.calls);
        if self.failing.contains(&self.calls) {
            self.read_faults = one_more(self.read_faults);
            return Err(Failed);
        }
        self.input.read(buf)
    }

    fn write(&mut self, bytes: &[u8]) -> Result<usize, Failed>
        ensures bound { WritesAtMost result bytes.now }
        ensures some { IfOk result (λ n. 0 < length bytes.now → 0 < n) }
        ensures writes { Writes (told_by self.old) (told_by self.new) result bytes.now }
        ensures call { WritesInMemory self.old self.new bytes.now result }
    {
        self.calls = one_more(self.calls);
        if self.failing.contains(&self.calls) || bytes.len() > self.room - self.output.len() {
            self.write_faults = one_more(self.write_faults);
            return Err(Failed);
        }
        let count = bytes.len().min(self.most);
        match self.output.extend_from_slice(&bytes[..count]) {
            Ok(()) => Ok(count),
            Err(_) => unreachable!(),
        }
    }
}
