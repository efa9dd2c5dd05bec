//! The programs that are run for account changes: each row of the outbox is a job, and a drain runs the configured
//! program for one job after the other.
//!
//! It stands on the counts of faults of `acct_keeper`. A [`Spawner`] runs programs; a [`HookGate`] gives the first job
//! that is left and takes it out. The layers above use the contract of [`drain`]: a program is run for a job only after
//! one for the job before ended with 0, at most so many times, and the numbers that were taken out are those whose
//! program ended with 0, except the last one where the taking out failed. In specs/ `Drains` says what runs in order
//! are, what a gate knows, and where a drain stops; the law [`order_is_by_jobs`] says it job by job.
#![tactic(auto)]

mod copies;
mod drains;
mod gate;
mod laws;
mod memory;
mod memory_gate;
mod runs;

pub use drains::{Drained, drain};
pub use gate::{HookGate, HookedEnd};
pub use laws::order_is_by_jobs;
pub use memory::{MadeRun, MemorySpawner, SteadySpawner};
pub use memory_gate::MemoryGate;
pub use runs::{HookJob, Ran, Spawner};
