// A gate in memory.
ghost use Rattle.std.specs.Prelude.{◌≡◌, ◌≤◌, ◌<◌, ◌-◌, ◌^◌, [], true, map, take, length, slice_get, IfSome, IfOk, OnErr};
ghost use Rattle.account_hooks.specs.Drains.{Job, job_of, Begins, numbers, IsNext, IsFirstLeft, LeavesBy, IfPast};
ghost use Rattle.account_hooks.specs.Drains.{IfFault};
ghost use Rattle.account_hooks.specs.declared.gate.HookedEnd.TheVariants as hooked;
ghost use Rattle.account_hooks.specs.Memory.{jobs_in, gone_in, first_in, is_first, TakesOut, begins-taken};

use crate::copies::copy_job;
use crate::gate::{HookGate, HookedEnd};
use crate::runs::HookJob;
use std::alloc::{AllocError, Global};

/// A gate in memory: the jobs that it was given, in order, and how many of them have left. Its takings out are numbered
/// from 1, and at those of the given numbers it finds the store failing.
#[derive(Drop)]
pub struct MemoryGate {
    alloc: Global,
    jobs: Vec<HookJob>,
    gone: usize,
    failing: Vec<u64>,
    takes: u64,
    store_faults: u64,
    copy_faults: u64,
}

fn number_at(jobs: &[HookJob], place: usize) -> Option<u64>
    ensures number { result ≡ slice_get (numbers (map job_of jobs.now)) place }
    ensures few { IfSome result (λ _. place < 2 ^ 64 - 1) }
{
    match jobs.get(place) {
        Some(job) => Some(job.number),
        None => None,
    }
}

// A copy of the job at a place, which is the first one where those before it have left.
fn copy_at(alloc: Global, jobs: &[HookJob], place: usize) -> Result<Option<HookJob>, AllocError>
    ensures { IfOk result
        (IsFirstLeft (map job_of jobs.now) (numbers (take place (map job_of jobs.now)))) }
{
    match jobs.get(place) {
        Some(job) => match copy_job(alloc, job) {
            Ok(copy) => Ok(Some(copy)),
            Err(error) => Err(error),
        },
        None => Ok(None),
    }
}

impl MemoryGate {
    /// A gate of these jobs, none of which has left.
    pub fn new(alloc: Global, jobs: Vec<HookJob>, failing: Vec<u64>) -> MemoryGate
        ensures jobs { jobs_in result ≡ map job_of jobs.items }
        ensures none { gone_in result ≡ [] }
        ensures failing { result.failing.items ≡ failing.items }
        ensures counts { (result.takes ≡ 0) × (result.store_faults ≡ 0) × (result.copy_faults ≡ 0) }
    {
        MemoryGate {
            alloc,
            jobs,
            gone: 0,
            failing,
            takes: 0,
            store_faults: 0,
            copy_faults: 0,
        }
    }

    /// The number of the first job that is left, if one is.
    pub fn first_number(&self) -> Option<u64>
        ensures number { result ≡ first_in self.now }
        ensures few { IfSome result (λ _. self.now.gone < 2 ^ 64 - 1) }
    {
        number_at(&self.jobs, self.gone)
    }

    fn is_first(&self, number: u64) -> bool
        ensures first { result ≡ is_first number (first_in self.now) }
        ensures few { result ≡ true → self.now.gone < 2 ^ 64 - 1 }
    {
        match self.first_number() {
            Some(first) => first == number,
            None => false,
        }
    }
}

impl HookGate for MemoryGate {
    ghost jobs = { λ gate. jobs_in gate };

    ghost gone = { λ gate. gone_in gate };

    ghost ready = { λ _. Unit {0} };

    ghost room = { λ gate. length gate.jobs.items - gate.gone };

    ghost moves = { λ _ _. Unit {0} };

    ghost faulted = { λ _ n gate. n ≡ gate.store_faults };

    ghost ran_out = { λ _ gate. 0 < gate.copy_faults };

    fn first(&mut self) -> Result<Option<HookJob>, AllocError>
        ensures first { IfOk result (IsFirstLeft (jobs_in self.new) (gone_in self.new)) }
        ensures kept { self.new ≡ record self.old { copy_faults = self.new.copy_faults } }
        ensures memory { OnErr result (0 < self.new.copy_faults) }
    {
        match copy_at(self.alloc, &self.jobs, self.gone) {
            Ok(copy) => Ok(copy),
            Err(error) => {
                self.copy_faults = self.copy_faults.saturating_add(1);
                Err(error)
            }
        }
    }

    fn hooked(&mut self, number: u64) -> HookedEnd
        ensures takes { TakesOut result self.old self.new }
        ensures gone { LeavesBy result number (gone_in self.old) (gone_in self.new) }
        ensures past { (job : Job) → IsNext (jobs_in self.old) (gone_in self.old) job → job.number ≡ number
            → IfPast result ⊥ }
        ensures fault { IfFault result (λ n. n ≡ self.new.store_faults) }
        ensures memory { result ≡ hooked.NoMemory → 0 < self.new.copy_faults }
        ensures jobs { Begins (jobs_in self.old) (jobs_in self.new) }
        ensures room { length self.new.jobs.items - self.new.gone ≤ length self.old.jobs.items - self.old.gone }
        ensures nearer { result ≡ hooked.Done
            → length self.new.jobs.items - self.new.gone < length self.old.jobs.items - self.old.gone }
    {
        if !self.is_first(number) {
            return HookedEnd::Past(self.first_number().unwrap_or(0));
        }
        self.takes = self.takes.saturating_add(1);
        if self.failing.contains(&self.takes) {
            self.store_faults = self.store_faults.saturating_add(1);
            return HookedEnd::StoreFault(self.store_faults);
        }
        self.gone += 1;
        HookedEnd::Done
    }

    ghost in_front = { λ gate _. begins-taken (jobs_in gate) gate.gone };

    ghost stays = { λ _. tt };

    ghost goes_on = { λ _ _ _ _ _. tt };

    ghost since = { λ _ _ _ _ _ fault. fault };

    ghost out_since = { λ _ _ _ _ out. out };
}
