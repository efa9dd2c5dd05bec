// A link that waits for a run of the program: only a server that runs programs beside its sessions brings it to its end.
ghost use Rattle.std.specs.Prelude.{◌≡◌, ◌+◌, ◌-◌, ◌^◌, ◌≤◌, All, IfOk, None, min};
ghost use Rattle.acct_links.specs.Links.{IsNew};
ghost use Rattle.acct_links.specs.Memory.{told_by};

use super::serving::link_of;
use crate::tests::configs::config_with;
use crate::tests::left::{ended, push_count};
use account_hooks::{Ran, Spawner};
use acct_base::Seq;
use acct_keeper::SteadyKeeper;
use acct_links::{DoorPlan, Failed, Link, MemoryEntrance, MemoryLink, SteadyCaller};
use acct_server::{Ended, SteadySink, SteadySource};
use acct_world::{MemoryParts, MemoryWorld, Period};
use std::alloc::Global;
use std::sync::atomic::{AtomicU64, Ordering};
use std::sync::{Arc, Wait};
use std::test::Fail;
use std::thread;
use std::thread::Threads;

/// How often a link looks for a run, and lets other threads run.
const LOOKS: u32 = 1_000_000;

/// A spawner whose runs all end with 0, and that raises a flag at each. It tells none of them.
#[derive(Drop)]
struct Flagging {
    flag: Arc<AtomicU64, Global>,
}

impl Spawner for Flagging {
    ghost runs = { λ _. None };

    ghost failed = { λ _. 0 };

    fn run(&mut self, _program: &str, _arguments: &[String]) -> Ran {
        self.flag.store(1, Ordering::SeqCst);
        Ran::Exited(0)
    }
}

/// A link that gives its bytes at the first read, and from then on fails where the flag isn't raised within the looks.
#[derive(Drop)]
struct WaitingLink {
    link: MemoryLink,
    flag: Arc<AtomicU64, Global>,
    reads: u64,
    faults: u64,
}

// Whether a flag is raised within the looks.
fn is_raised(flag: &AtomicU64) -> bool {
    for _ in 0..LOOKS {
        if flag.load(Ordering::SeqCst) == 1 {
            return true;
        }
        thread::yield_now();
    }
    false
}

impl WaitingLink {
    fn fail(&mut self) -> Failed
        ensures link { self.new.link ≡ self.old.link }
        ensures rose { self.new.faults ≡ min (self.old.faults + 1) (2 ^ 64 - 1) }
        ensures later { self.old.faults ≤ self.new.faults }
    {
        self.faults = self.faults.saturating_add(1);
        Failed
    }

    fn waits(&mut self) -> bool
        ensures { (self.new.link ≡ self.old.link) × (self.new.faults ≡ self.old.faults) }
    {
        self.reads = self.reads.saturating_add(1);
        self.reads == 1 || is_raised(&self.flag)
    }
}

impl Link for WaitingLink {
    ghost told = { λ it. record {
      received = (told_by it.link).received;
      left = (told_by it.link).left;
      sent = (told_by it.link).sent;
      ended = (told_by it.link).ended;
      read_faults = it.faults;
      write_faults = (told_by it.link).write_faults;
    } };

    fn read(&mut self, buf: &mut [u8]) -> Result<usize, Failed> {
        if !self.waits() {
            return Err(self.fail());
        }
        match self.link.read(buf) {
            Ok(count) => Ok(count),
            Err(_) => Err(self.fail()),
        }
    }

    fn write(&mut self, bytes: &[u8]) -> Result<usize, Failed> {
        self.link.write(bytes)
    }
}

/// A world whose link waits for a run of the spawner.
type Waiting = MemoryWorld<
    SteadySource,
    SteadySink,
    SteadyKeeper,
    MemoryEntrance<WaitingLink>,
    SteadyCaller,
    Flagging,
>;

/// A door with one link, which makes a user.
fn door_of(alloc: Global, flag: &Arc<AtomicU64, Global>) -> Result<DoorPlan<WaitingLink>, Fail>
    ensures { IfOk result (λ plan. All (λ it. IsNew (record {
      received = (told_by it.link).received;
      left = (told_by it.link).left;
      sent = (told_by it.link).sent;
      ended = (told_by it.link).ended;
      read_faults = it.faults;
      write_faults = (told_by it.link).write_faults;
    })) plan.links) }
{
    let mut links = Seq::new(alloc);
    links.push(WaitingLink {
        link: link_of(alloc, "BIND CONNECT OPEN-CORP CREATE-ALICE")?,
        flag: flag.clone()?,
        reads: 0,
        faults: 0,
    })?;
    Ok(DoorPlan {
        links,
        failing: Seq::new(alloc),
    })
}

fn waiting(alloc: Global) -> Result<Waiting, Fail> {
    let flag = Arc::new(alloc, AtomicU64::new(0))?;
    let mut plans = Vec::new(alloc);
    plans.push(door_of(alloc, &flag)?)?;
    let config = config_with(alloc, "links = 1;[hook];program = \"/bin/add-user\"")?;
    let parts = MemoryParts {
        config: SteadySource::new(config.into_bytes()),
        events: SteadySource::new(Vec::new(alloc)),
        sink: SteadySink,
        keeper: SteadyKeeper::new(alloc),
        entrance: MemoryEntrance::new(alloc, plans, Vec::new(alloc)),
        caller: SteadyCaller::new(alloc, Vec::new(alloc), 1),
        spawner: Flagging { flag },
    };
    let name = b"first.toml".to_vec(alloc)?;
    Ok(MemoryWorld::new(alloc, name, parts, Vec::new(alloc)))
}

fn push_ends(text: &mut String, ends: &[Ended]) -> Result<(), Fail> {
    for ended in ends {
        let end = ended.end;
        write!(text, "{end:?}")?;
    }
    Ok(())
}

fn push_sessions(text: &mut String, periods: &[Period]) -> Result<(), Fail> {
    push_count(text, periods.len())?;
    text.push('|')?;
    for period in periods {
        push_ends(text, period.ends.as_slice())?;
    }
    Ok(())
}

/// Runs words over such a world: how they ended, and the ends of all sessions.
fn left<R: Threads + Wait + Sync>(
    rt: &R,
    alloc: Global,
    words: &str,
    world: &mut Waiting,
) -> Result<String, Fail> {
    let mut text = ended(rt, alloc, words, world)?;
    text.push('|')?;
    push_sessions(&mut text, world.periods())?;
    Ok(text)
}

fn left_by<R: Threads + Wait + Sync>(rt: &R, alloc: Global, words: &str) -> Result<String, Fail> {
    let mut world = waiting(alloc)?;
    let text = left(rt, alloc, words, &mut world);
    drop(world);
    text
}

#[test]
fn a_program_is_run_while_its_session_goes_on(rt: HostRuntime) -> Result<(), Fail> {
    let left = left_by(&rt, rt.alloc(), "serve first.toml ''")?;
    assert_eq!(rt; left.as_str(), "Done| 1|End");
    Ok(())
}
