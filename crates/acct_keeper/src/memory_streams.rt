// Sources and sinks in memory.
ghost use Rattle.std.specs.Prelude.{◌≡◌, ◌+◌, ◌-◌, ◌^◌, ◌<◌, ◌≤◌, ◌||◌, [], length, take, min, false, is_err, Some, None, IfOk};
ghost use Rattle.std.specs.Io.{ReadsAtMost, WritesAtMost};
ghost use Rattle.std.specs.Io.KnownBytes.{ReadConsumes, WriteAppends};
ghost use Rattle.acct_keeper.specs.Faults.{HasCause, one_more, faults_after};
ghost use Rattle.acct_keeper.specs.Ends.{answers_end};
ghost use Rattle.acct_keeper.specs.Memory.{ReadsInMemory, WritesInMemory};

use crate::{Failed, Sink, Source};
use acct_base::rest_of;
use std::alloc::{AllocError, Global};
use std::marker::Model;

/// A count after one more, which stands still at the end of its type.
pub fn one_more(count: u64) -> u64
    ensures { result ≡ one_more count }
{
    count.saturating_add(1)
}

/// Copies bytes from the beginning: as many as fit, at most `most`, which is above 0. It answers how many these are.
pub fn copy_front(from: &[u8], most: usize, into: &mut [u8]) -> usize
    requires { 0 < most }
    ensures count { result ≡ min (min (length into.old) most) (length from.now) }
    ensures within { result ≤ length from.now }
    ensures fits { result ≤ length into.old }
    ensures copied { take result into.new ≡ take result from.now }
    ensures all { result ≡ 0 → 0 < length into.new → from.now ≡ [] }
{
    let count = into.len().min(most).min(from.len());
    into[..count].copy_from_slice(&from[..count]);
    count
}

/// A source of given bytes. Its reads are numbered from 1, and those of the given numbers fail.
#[derive(Drop)]
pub struct MemorySource {
    bytes: Vec<u8>,
    place: usize,
    most: usize,
    failing: Vec<u64>,
    reads: u64,
    has_ended: bool,
    fault_count: u64,
}

impl Model for MemorySource {
    ghost use Rattle.std.specs.Prelude.{◌≤◌, ◌<◌, drop, vec_len};
    ghost use Rattle.acct_keeper.specs.Memory.{SourceInMemory};

    ghost Value = { SourceInMemory };

    ghost view = { λ s. record {
      left = drop s.place s.bytes.items;
      ended = s.has_ended;
      faults = s.fault_count;
      reads = s.reads;
      failing = s.failing.items;
    } };

    ghost invariant = { λ s. (s.place ≤ vec_len s.bytes) × (0 < s.most) };
}

impl MemorySource {
    /// A source that gives at most so many bytes a read.
    pub fn new(bytes: Vec<u8>, most: usize, failing: Vec<u64>) -> Self
        requires { 0 < most }
        ensures { result
            ≡ record { left = bytes.items; ended = false; faults = 0; reads = 0; failing = failing.items } }
    {
        MemorySource {
            bytes,
            place: 0,
            most,
            failing,
            reads: 0,
            has_ended: false,
            fault_count: 0,
        }
    }
}

impl Source for MemorySource {
    ghost left = { λ s. Some s.left };

    ghost ended = { λ s. s.ended };

    ghost faults = { λ s. s.faults };

    fn read(&mut self, buf: &mut [u8]) -> Result<usize, Failed>
        ensures bound { ReadsAtMost result buf.new }
        ensures bytes { ReadConsumes (Some self.old.left) (Some self.new.left) result buf.new }
        ensures end { self.new.ended ≡ (self.old.ended || answers_end result buf.new) }
        ensures cause { HasCause self.old.faults self.new.faults result }
        ensures count { self.new.faults ≡ faults_after (is_err result) self.old.faults }
        ensures fails { ReadsInMemory self.old self.new result }
    {
        self.reads = one_more(self.reads);
        if self.failing.contains(&self.reads) {
            self.fault_count = one_more(self.fault_count);
            return Err(Failed);
        }
        let count = copy_front(rest_of(&self.bytes, self.place), self.most, buf);
        self.place += count;
        self.has_ended |= (count == 0) & !buf.is_empty();
        Ok(count)
    }
}

/// A sink with room for a number of bytes. Its writes are numbered from 1, and those of the given numbers fail; so
/// does one whose piece has no room.
#[derive(Drop)]
pub struct MemorySink {
    bytes: Vec<u8>,
    room: usize,
    most: usize,
    failing: Vec<u64>,
    writes: u64,
    fault_count: u64,
}

impl Model for MemorySink {
    ghost use Rattle.std.specs.Prelude.{◌≤◌, ◌<◌, vec_len, vec_capacity};
    ghost use Rattle.acct_keeper.specs.Memory.{SinkInMemory};

    ghost Value = { SinkInMemory };

    ghost view = { λ s. record {
      held = s.bytes.items;
      room = s.room;
      faults = s.fault_count;
      writes = s.writes;
      failing = s.failing.items;
    } };

    ghost invariant = { λ s. (vec_len s.bytes ≤ s.room) × (s.room ≤ vec_capacity s.bytes) × (0 < s.most) };
}

impl MemorySink {
    /// A sink that takes at most so many bytes a write, and takes the room for all of them now.
    pub fn new(
        alloc: Global,
        room: usize,
        most: usize,
        failing: Vec<u64>,
    ) -> Result<Self, AllocError>
        requires { 0 < most }
        ensures { IfOk result (λ sink. sink
            ≡ record { held = []; room = room; faults = 0; writes = 0; failing = failing.items }) }
    {
        Ok(MemorySink {
            bytes: Vec::with_capacity(alloc, room)?,
            room,
            most,
            failing,
            writes: 0,
            fault_count: 0,
        })
    }

    /// The bytes that it took.
    pub fn as_slice(&self) -> &[u8]
        ensures { result.now ≡ self.now.held }
    {
        &self.bytes
    }
}

impl Sink for MemorySink {
    ghost held = { λ s. Some s.held };

    ghost faults = { λ s. s.faults };

    fn write(&mut self, bytes: &[u8]) -> Result<usize, Failed>
        ensures bound { WritesAtMost result bytes.now }
        ensures some { IfOk result (λ n. 0 < length bytes.now → 0 < n) }
        ensures bytes { WriteAppends (Some self.old.held) (Some self.new.held) result bytes.now }
        ensures cause { HasCause self.old.faults self.new.faults result }
        ensures count { self.new.faults ≡ faults_after (is_err result) self.old.faults }
        ensures fails { WritesInMemory self.old self.new bytes.now result }
    {
        self.writes = one_more(self.writes);
        if self.failing.contains(&self.writes) || bytes.len() > self.room - self.bytes.len() {
            self.fault_count = one_more(self.fault_count);
            return Err(Failed);
        }
        let count = bytes.len().min(self.most);
        match self.bytes.extend_from_slice(&bytes[..count]) {
            Ok(()) => Ok(count),
            Err(_) => unreachable!(),
        }
    }
}

/// A source of given bytes whose reads never fail: its count of faults is 0.
#[derive(Drop)]
pub struct SteadySource {
    bytes: Vec<u8>,
    place: usize,
    has_ended: bool,
}

impl Model for SteadySource {
    ghost use Rattle.std.specs.Prelude.{◌≤◌, drop, vec_len};
    ghost use Rattle.acct_keeper.specs.Memory.{SteadyInMemory};

    ghost Value = { SteadyInMemory };

    ghost view = { λ s. record { left = drop s.place s.bytes.items; ended = s.has_ended } };

    ghost invariant = { λ s. s.place ≤ vec_len s.bytes };
}

impl SteadySource {
    pub fn new(bytes: Vec<u8>) -> Self
        ensures { result ≡ record { left = bytes.items; ended = false } }
    {
        SteadySource {
            bytes,
            place: 0,
            has_ended: false,
        }
    }
}

impl Source for SteadySource {
    ghost left = { λ s. Some s.left };

    ghost ended = { λ s. s.ended };

    ghost faults = { λ s. 0 };

    fn read(&mut self, buf: &mut [u8]) -> Result<usize, Failed> {
        let count = copy_front(rest_of(&self.bytes, self.place), usize::MAX, buf);
        self.place += count;
        self.has_ended |= (count == 0) & !buf.is_empty();
        Ok(count)
    }
}

/// A sink whose writes never fail: its count of faults is 0. It keeps nothing of what it is given, and tells nothing
/// of it.
#[derive(Clone, Copy, Debug, PartialEq, Eq)]
pub struct SteadySink;

impl Sink for SteadySink {
    ghost held = { λ _. None };

    ghost faults = { λ _. 0 };

    fn write(&mut self, bytes: &[u8]) -> Result<usize, Failed> {
        Ok(bytes.len())
    }
}
