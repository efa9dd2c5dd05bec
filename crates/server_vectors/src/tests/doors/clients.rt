// A client in memory, which sends a request only once the answer to the one before has come: a session that reads all
// before it answers anything gets no further than the first request.
ghost use Rattle.std.specs.Prelude.{None, false, ◌≡◌};
ghost use Rattle.acct_links.specs.Links.{IsNew};

use acct_links::{Failed, Link, SteadyLink};
use std::alloc::Global;

/// A link whose peer asks in lines, with the handle of the answer before in place of an `H`. It tells nothing of its
/// bytes. Its reads and writes are numbered together from 1, and one of them fails; so does a read before the answer.
#[derive(Drop)]
pub struct Client {
    alloc: Global,
    requests: String,
    failing: u64,
    calls: u64,
    asked: u64,
    answers: u64,
    written: Vec<u8>,
    last: usize,
    has_ended: bool,
    read_faults: u64,
    write_faults: u64,
}

/// The line at a place, from 0, or none.
fn line_at(lines: &str, wanted: u64) -> &str {
    let mut place: u64 = 0;
    for line in lines.split('\n') {
        if place == wanted {
            return line;
        }
        place = place.wrapping_add(1);
    }
    ""
}

/// The bytes of a request, with the handle that an answer begins with after its header.
fn request_of(alloc: Global, request: &str, answer: &[u8]) -> Option<Vec<u8>> {
    let handle = hex::encode(alloc, answer.get(24..44).unwrap_or_default()).ok()?;
    let digits = request.replace(alloc, "H", handle.as_str()).ok()?;
    hex::decode(alloc, digits.as_str().as_bytes()).ok()
}

impl Client {
    /// A client with these requests, of which nothing was read or written, and whose call of this number fails.
    pub fn new(alloc: Global, requests: String, failing: u64) -> Self
        ensures { IsNew (⟦<Client as Link>⟧.told result) }
    {
        Client {
            alloc,
            requests,
            failing,
            calls: 0,
            asked: 0,
            answers: 0,
            written: Vec::new(alloc),
            last: 0,
            has_ended: false,
            read_faults: 0,
            write_faults: 0,
        }
    }

    /// What was written.
    pub fn as_slice(&self) -> &[u8] {
        &self.written
    }

    /// What the next read brings, unless it fails.
    fn next(&self) -> Option<SteadyLink> {
        if self.calls == self.failing || self.answers < self.asked {
            return None;
        }
        let request = line_at(self.requests.as_str(), self.asked);
        let answer = self.written.get(self.last..).unwrap_or_default();
        let bytes = request_of(self.alloc, request, answer)?;
        Some(SteadyLink::new(bytes, 4096))
    }
}

impl Link for Client {
    ghost told = { λ client. record {
      received = None;
      left = None;
      sent = None;
      ended = client.has_ended;
      read_faults = client.read_faults;
      write_faults = client.write_faults;
    } };

    fn read(&mut self, buf: &mut [u8]) -> Result<usize, Failed> {
        self.calls = self.calls.saturating_add(1);
        match self.next() {
            Some(mut piece) => {
                let count = piece.read(buf).unwrap_or(0);
                self.asked = self.asked.saturating_add(1);
                self.has_ended |= (count == 0) & !buf.is_empty();
                Ok(count)
            }
            None => {
                self.read_faults = self.read_faults.saturating_add(1);
                Err(Failed)
            }
        }
    }

    fn write(&mut self, bytes: &[u8]) -> Result<usize, Failed> {
        self.calls = self.calls.saturating_add(1);
        let place = self.written.len();
        if self.calls == self.failing || self.written.extend_from_slice(bytes).is_err() {
            self.write_faults = self.write_faults.saturating_add(1);
            return Err(Failed);
        }
        self.last = place;
        self.answers = self.answers.saturating_add(1);
        Ok(bytes.len())
    }
}
