// The real world: files, the standard streams, and no word on what they hold.
ghost use Rattle.std.specs.Prelude.{◌≡◌, ◌≤◌, Some, None, Err, true, false, [], codes, unwrap_or, option_copied};
ghost use Rattle.std.specs.Prelude.{MatchOption, IfOk, IfErr, IsOk, OnErr};
ghost use Rattle.std.specs.Option.{option_or};
ghost use Rattle.std.specs.Str.{bytes_eq};
ghost use Rattle.acct_keeper.specs.Faults.{Rose};
ghost use Rattle.acct_links.specs.declared.callers.TakeError.TheVariants as take_error;
ghost use Rattle.host_world.specs.Host.{held_by, trouble_of, first_trouble, unread_after};
ghost use Rattle.host_world.specs.declared.stranger.Stranger.TheVariants.{Other};

use crate::failed_run::FailedRun;
use crate::host_entrance::{SpokenEntrance, first_trouble};
use crate::host_keeper::{BoardKeeper, HostKeeper};
use crate::host_link::{HostCaller, HostLink};
use crate::host_spawner::HostSpawner;
use crate::opened::Opened;
use crate::stranger::Stranger;
use crate::trouble::Trouble;
use crate::unread::{Unread, unread_of};
use acct_keeper::{Failed, KeepError, Sink, Source, SteadyKeeper};
use acct_links::TakeError;
use acct_world::{Period, World};
use host_doors::{Board, DoorTrouble, HostDoor};
use keeper_sqlite::SqliteKeeper;
use std::alloc::{AllocError, Global};
use std::fs::File;
use std::io::{self, Input, Print, Printer, Read, Write};
use std::net::Net;
use std::sync::Arc;

// A door of the real world.
type Door = HostDoor<HostRuntime, <HostRuntime as Net>::Listener, <HostRuntime as Net>::Stream>;

/// The standard input or a file. It tells what is left where its reader tells it: over the system's it doesn't. It
/// keeps what went wrong last.
#[derive(Drop)]
pub struct HostSource<I: Read + Drop> {
    opened: Opened<I>,
    has_ended: bool,
    fault_count: u64,
    trouble: Option<io::Error>,
}

impl<I: Read + Drop> HostSource<I> {
    /// A source of which nothing was read.
    pub fn new(opened: Opened<I>) -> Self
        ensures { result ≡ record { opened = opened; has_ended = false; fault_count = 0; trouble = None } }
    {
        HostSource {
            opened,
            has_ended: false,
            fault_count: 0,
            trouble: None,
        }
    }
}

impl<I: Read + Drop> Source for HostSource<I> {
    ghost use Rattle.host_world.specs.Host.{left_of};

    ghost left = { λ s. left_of I.remaining s.opened };

    ghost ended = { λ s. s.has_ended };

    ghost faults = { λ s. s.fault_count };

    fn read(&mut self, buf: &mut [u8]) -> Result<usize, Failed> {
        let got = match &mut self.opened {
            Opened::Standard(input) => input.read(buf),
            Opened::Disk(file) => file.read(buf),
        };
        match got {
            Ok(count) => {
                self.has_ended |= (count == 0) & !buf.is_empty();
                Ok(count)
            }
            Err(error) => {
                self.fault_count = self.fault_count.saturating_add(1);
                self.trouble = Some(error);
                Err(Failed)
            }
        }
    }
}

/// The standard output. A write that takes nothing of a piece is a fault. It tells what its writer tells: over the
/// system's that is nothing.
#[derive(Drop)]
pub struct HostSink<W: Write + Drop> {
    output: W,
    fault_count: u64,
}

impl<W: Write + Drop> HostSink<W> {
    /// A sink to which nothing was written.
    pub fn new(output: W) -> Self
        ensures { result ≡ record { output = output; fault_count = 0 } }
    {
        HostSink {
            output,
            fault_count: 0,
        }
    }
}

impl<W: Write + Drop> Sink for HostSink<W> {
    ghost held = { λ s. W.contents s.output };

    ghost faults = { λ s. s.fault_count };

    fn write(&mut self, bytes: &[u8]) -> Result<usize, Failed> {
        if bytes.is_empty() {
            return Ok(0);
        }
        match self.output.write(bytes) {
            Ok(count) if count != 0 => Ok(count),
            _ => {
                self.fault_count = self.fault_count.saturating_add(1);
                Err(Failed)
            }
        }
    }
}

/// The real world. The name `-` is the standard input, each other name of a source a file's path. The keeper with the
/// empty name is a new one in memory each time, that with another name one in the file at that path. It keeps no
/// period, but what went wrong with the last link or caller that was given back, and what answered over it, what went
/// wrong with the last entrance or door, why the last source that wasn't read wasn't, and the last run of a program
/// that didn't end with 0. Its keepers and its entrances share a board of their periods, where there is memory for it.
#[derive(Drop)]
pub struct HostWorld<'a> {
    rt: &'a HostRuntime,
    alloc: Global,
    board: Option<Arc<Board, Global>>,
    source_faults: u64,
    keeper_faults: u64,
    trouble: Option<Trouble>,
    stranger: Option<Stranger>,
    door_trouble: Option<DoorTrouble>,
    unread: Option<Unread>,
    failed_run: Option<FailedRun>,
}

impl<'a> HostWorld<'a> {
    /// The real world of a runtime.
    pub fn new(rt: &'a HostRuntime, alloc: Global) -> Self
        ensures source { result.source_faults ≡ 0 }
        ensures keeper { result.keeper_faults ≡ 0 }
        ensures trouble { result.trouble ≡ None }
        ensures stranger { result.stranger ≡ None }
        ensures door_trouble { result.door_trouble ≡ None }
        ensures unread { result.unread ≡ None }
        ensures failed_run { result.failed_run ≡ None }
    {
        HostWorld {
            rt,
            alloc,
            board: Arc::new(alloc, Board::new()).ok(),
            source_faults: 0,
            keeper_faults: 0,
            trouble: None,
            stranger: None,
            door_trouble: None,
            unread: None,
            failed_run: None,
        }
    }

    /// What went wrong with the last link, or else the caller, that was given back.
    pub fn trouble(&self) -> Option<&Trouble>
        ensures { option_copied result ≡ self.now.trouble }
    {
        self.trouble.as_ref()
    }

    /// What answered over the last link that was given back.
    pub fn stranger(&self) -> Option<Stranger>
        ensures { result ≡ self.now.stranger }
    {
        self.stranger
    }

    /// What went wrong with the last entrance that was given back, or else with the first of its doors.
    pub fn door_trouble(&self) -> Option<&DoorTrouble>
        ensures { option_copied result ≡ self.now.door_trouble }
    {
        self.door_trouble.as_ref()
    }

    /// The last run that didn't end with 0, of the last spawner that was given back.
    pub fn failed_run(&self) -> Option<&FailedRun>
        ensures { option_copied result ≡ self.now.failed_run }
    {
        self.failed_run.as_ref()
    }

    /// Why the last source that wasn't handed out or read wasn't.
    pub fn unread(&self) -> Option<Unread>
        ensures { result ≡ self.now.unread }
    {
        self.unread
    }
}

// The board, where there is one and memory for sharing it.
fn shared(board: &Option<Arc<Board, Global>>) -> Option<Arc<Board, Global>> {
    match board {
        Some(board) => Arc::try_clone(board).ok(),
        None => None,
    }
}

impl<'a> World for HostWorld<'a> {
    type S = HostSource<<HostRuntime as Input>::Reader>;

    type T = HostSink<Printer<'a, HostRuntime>>;

    type K = BoardKeeper;

    type E = SpokenEntrance<'a, HostRuntime>;

    type C = HostCaller<'a, HostRuntime>;

    type P = HostSpawner;

    ghost seen = { λ w. record {
      tells = false;
      knows = λ _. false;
      source = λ _. None;
      sink = None;
      stores = λ _. false;
      keeper = λ _. None;
      entrance = None;
      doors = [];
      caller = None;
      talked = None;
      spawner = None;
      periods = [];
      asked = [];
      source_faults = w.source_faults;
      sink_faults = 0;
      keeper_faults = w.keeper_faults;
      entrance_faults = 0;
      caller_faults = 0;
      spawner_faults = 0;
    } };

    fn take_source(
        &mut self,
        name: &str,
    ) -> Result<HostSource<<HostRuntime as Input>::Reader>, TakeError>
        ensures kept { self.new
            ≡ record self.old { source_faults = self.new.source_faults; unread = self.new.unread } }
        ensures input { bytes_eq name.now (codes "-") ≡ true → IsOk result }
        ensures failed { IfErr result (λ e. e ≡ take_error.Failed) }
        ensures cause { OnErr result (Rose self.old.source_faults self.new.source_faults) }
        ensures later { self.old.source_faults ≤ self.new.source_faults }
    {
        let opened = if name == "-" {
            Opened::Standard(self.rt.reader())
        } else {
            match File::open(self.rt, name) {
                Ok(file) => Opened::Disk(file),
                Err(error) => {
                    self.source_faults = self.source_faults.saturating_add(1);
                    self.unread = Some(Unread::Named(error));
                    return Err(TakeError::Failed);
                }
            }
        };
        Ok(HostSource::new(opened))
    }

    fn give_source(&mut self, name: &str, part: HostSource<<HostRuntime as Input>::Reader>)
        ensures kept { self.new ≡ record self.old { unread = self.new.unread } }
        ensures unread { self.new.unread ≡ unread_after name.now part.trouble self.old.unread }
    {
        if let Some(error) = part.trouble {
            self.unread = Some(unread_of(name, error));
        }
        drop(part);
    }

    fn take_sink(&mut self) -> Result<HostSink<Printer<'a, HostRuntime>>, TakeError>
        ensures kept { self.new ≡ self.old }
        ensures given { IsOk result }
    {
        Ok(HostSink::new(io::writer(self.rt)))
    }

    fn give_sink(&mut self, part: HostSink<Printer<'a, HostRuntime>>) {
        drop(part);
    }

    fn take_keeper(&mut self, name: &str) -> Result<BoardKeeper, TakeError>
        ensures kept { self.new ≡ record self.old { keeper_faults = self.new.keeper_faults } }
        ensures given { name.now ≡ [] → IsOk result }
        ensures empty { IfOk result (λ told. name.now ≡ [] → held_by told.keeper ≡ Some []) }
        ensures cause { result ≡ Err take_error.Failed → Rose self.old.keeper_faults self.new.keeper_faults }
        ensures later { self.old.keeper_faults ≤ self.new.keeper_faults }
    {
        if name.is_empty() {
            let keeper = HostKeeper::Memory(SteadyKeeper::new(self.alloc));
            return Ok(BoardKeeper::new(keeper, shared(&self.board)));
        }
        match SqliteKeeper::new(self.rt, name) {
            Ok(keeper) => {
                let keeper = HostKeeper::File(keeper);
                Ok(BoardKeeper::new(keeper, shared(&self.board)))
            }
            Err(KeepError::NoMemory) => Err(TakeError::NoMemory),
            Err(KeepError::Failed) => {
                self.keeper_faults = self.keeper_faults.saturating_add(1);
                Err(TakeError::Failed)
            }
        }
    }

    fn give_keeper(&mut self, _name: &str, part: BoardKeeper) {
        drop(part);
    }

    fn take_entrance(&mut self) -> Result<SpokenEntrance<'a, HostRuntime>, TakeError>
        ensures kept { self.new ≡ self.old }
        ensures given { IsOk result }
    {
        Ok(SpokenEntrance::new(self.rt, self.alloc, shared(&self.board)))
    }

    fn give_entrance(&mut self, part: SpokenEntrance<'a, HostRuntime>, doors: Vec<Door>)
        ensures kept { self.new ≡ record self.old { door_trouble = self.new.door_trouble } }
        ensures door_trouble { self.new.door_trouble
            ≡ option_or part.entry.entrance.trouble (first_trouble doors.items) }
    {
        self.door_trouble = match part.into_trouble() {
            Some(trouble) => Some(trouble),
            None => first_trouble(&doors),
        };
        drop(doors);
    }

    fn take_caller(&mut self) -> Result<HostCaller<'a, HostRuntime>, TakeError>
        ensures kept { self.new ≡ self.old }
        ensures given { IsOk result }
    {
        Ok(HostCaller::new(self.rt))
    }

    fn give_caller(
        &mut self,
        part: HostCaller<'a, HostRuntime>,
        link: Option<HostLink<<HostRuntime as Net>::Stream>>,
    )
        ensures kept { self.new ≡ record self.old { trouble = self.new.trouble; stranger = self.new.stranger } }
        ensures trouble { MatchOption link (self.new.trouble ≡ part.entry.trouble)
            (λ given. self.new.trouble ≡ trouble_of given.has_ended given.trouble) }
        ensures stranger { MatchOption link (self.new.stranger ≡ self.old.stranger)
            (λ given. self.new.stranger ≡ Some (unwrap_or given.stranger Other)) }
    {
        match link {
            Some(link) => {
                self.stranger = Some(link.stranger());
                self.trouble = link.into_trouble();
                drop(part);
            }
            None => self.trouble = part.into_trouble(),
        }
    }

    fn take_spawner(&mut self) -> Result<HostSpawner, TakeError>
        ensures kept { self.new ≡ self.old }
        ensures given { IsOk result }
        ensures unfailed { IfOk result (λ spawner. spawner.trouble ≡ None) }
    {
        Ok(HostSpawner::new(self.rt))
    }

    fn give_spawner(&mut self, part: HostSpawner)
        ensures kept { self.new ≡ record self.old { failed_run = self.new.failed_run } }
        ensures failed_run { self.new.failed_run ≡ part.trouble }
    {
        self.failed_run = part.into_trouble();
    }

    fn keep_period(&mut self, period: Period) -> Result<(), AllocError>
        ensures kept { self.new ≡ self.old }
        ensures given { IsOk result }
    {
        drop(period);
        Ok(())
    }
}
