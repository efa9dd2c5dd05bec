// A link that waits for another one.
ghost use Rattle.std.specs.Prelude.{◌≡◌, ◌+◌, ◌-◌, ◌^◌, ◌≤◌, min};

use acct_links::{Failed, Link, MemoryLink};
use std::alloc::Global;
use std::sync::Arc;
use std::sync::atomic::{AtomicU64, Ordering};
use std::thread;

/// How often a link looks for the other one, and lets other threads run.
const LOOKS: u32 = 1_000_000;

/// A link that raises its flag at its first read, and gives its bytes once the other flag is raised. Where that isn't
/// so within the looks, each read fails.
#[derive(Drop)]
pub struct MeetingLink {
    pub link: MemoryLink,
    pub mine: Arc<AtomicU64, Global>,
    pub other: Arc<AtomicU64, Global>,
    pub has_looked: bool,
    pub has_met: bool,
    pub faults: u64,
}

// Whether a flag is raised within the looks.
fn is_raised(flag: &AtomicU64) -> bool {
    for _ in 0..LOOKS {
        if flag.load(Ordering::SeqCst) == 1 {
            return true;
        }
        thread::yield_now();
    }
    false
}

impl MeetingLink {
    fn fail(&mut self) -> Failed
        ensures link { self.new.link ≡ self.old.link }
        ensures rose { self.new.faults ≡ min (self.old.faults + 1) (2 ^ 64 - 1) }
        ensures later { self.old.faults ≤ self.new.faults }
    {
        self.faults = self.faults.saturating_add(1);
        Failed
    }

    fn meet(&mut self)
        ensures { (self.new.link ≡ self.old.link) × (self.new.faults ≡ self.old.faults) }
    {
        if self.has_looked {
            return;
        }
        self.has_looked = true;
        self.mine.store(1, Ordering::SeqCst);
        self.has_met = is_raised(&self.other);
    }
}

impl Link for MeetingLink {
    ghost use Rattle.acct_links.specs.Memory.{told_by};

    ghost told = { λ it. record {
      received = (told_by it.link).received;
      left = (told_by it.link).left;
      sent = (told_by it.link).sent;
      ended = (told_by it.link).ended;
      read_faults = it.faults;
      write_faults = (told_by it.link).write_faults;
    } };

    fn read(&mut self, buf: &mut [u8]) -> Result<usize, Failed> {
        self.meet();
        if !self.has_met {
            return Err(self.fail());
        }
        match self.link.read(buf) {
            Ok(count) => Ok(count),
            Err(_) => Err(self.fail()),
        }
    }

    fn write(&mut self, bytes: &[u8]) -> Result<usize, Failed> {
        self.link.write(bytes)
    }
}
