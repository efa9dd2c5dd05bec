//! The real world of the program: files and the standard streams, keepers in memory and in files, the entrance of the
//! system, calls by TCP and by Unix sockets, and programs of the system that are run for account changes.
//!
//! It stands on `acct_world` for the trait of a world, on `acct_keeper` and `acct_links` for those of its parts, on
//! `account_hooks` for that of a spawner, on `host_doors` and `keeper_sqlite` for the system's doors and stores, and on
//! `host_lines` for lines on the standard error. The layer above uses [`HostWorld`] by the contract of `World`: a part
//! is refused, and a call of a part answers a fault, only where that object's count of faults rose. It uses as well
//! that the world keeps what went wrong with a part that was given back, which is told after a status: [`Trouble`] and
//! [`Stranger`] of a link, [`Unread`] of a source, and that of a door. What a file, a stream, a store or a socket gives
//! or takes is told by no clause.
//!
//! Of [`HostSpawner`]: its count of failed runs is exact, the command of a run has the program and its arguments as
//! they are, with no shell between, and the world keeps the last run that failed ([`FailedRun`]) once it is given back.
//! That a program is started, and what it does, is told by no clause.
//!
//! In rooms: `host` has the world with its sources and its sink, `opened` what a source reads from, `unread` why one
//! wasn't read; `host_keeper` has the keepers, which say each period; `host_entrance` the entrance, which says where it
//! listens; `host_link` the caller and its links, `channel` what these go over, `trouble` what went wrong there,
//! `stranger` what answered; `held_streams` keeps the numbers of standard streams that were closed; `host_spawner` runs
//! programs, `run_command` has the command of a run, `program_end` how a program ended, `failed_run` what is said of a
//! run that failed.
#![tactic(auto)]

mod channel;
mod failed_run;
mod held_streams;
mod host;
mod host_entrance;
mod host_keeper;
mod host_link;
mod host_spawner;
mod opened;
mod program_end;
mod run_command;
mod stranger;
mod trouble;
mod unread;

pub use channel::Channel;
pub use failed_run::FailedRun;
pub use held_streams::HeldStreams;
pub use host::{HostSink, HostSource, HostWorld};
pub use host_entrance::SpokenEntrance;
pub use host_keeper::{BoardKeeper, HostKeeper};
pub use host_link::{HostCaller, HostLink};
pub use host_spawner::HostSpawner;
pub use opened::Opened;
pub use program_end::ProgramEnd;
pub use stranger::{Stranger, stranger_of};
pub use trouble::Trouble;
pub use unread::Unread;
