// Draining: the program is run for one out row after the other.
ghost use Rattle.std.specs.Prelude.{◌≡◌, ◌≤◌, ◌<◌, ℕ, List, Bool, true, false, None, ◌++◌, IfNone, IfSome};
ghost use Rattle.acct_keeper.specs.Faults.{Rose};
ghost use Rattle.account_hooks.specs.Drains.{Run, job_of, Adds, Begins, IsNext, TriedAs, runs_of, IsDraining, Drains};
ghost use Rattle.account_hooks.specs.Drains.{GoesTo, IfHeld, IfStoreFault, IfNoMemory};
ghost use Rattle.account_hooks.specs.declared.runs.Ran.{Ran};

use crate::gate::{HookGate, HookedEnd};
use crate::runs::{HookJob, Ran, Spawner};

/// How a drain ends.
#[derive(Clone, Copy, Debug, PartialEq, Eq)]
pub enum Drained {
    /// No out row is left.
    Empty,
    /// The program was run for the out row of this number as often as it may be, and never ended with 0.
    Held(u64),
    /// The store failed where an out row was to leave, with its count of faults.
    StoreFault(u64),
    /// Out of memory.
    NoMemory,
}

// Runs the program for a job until it ends with 0, at most so many times. Whether it did.
fn run_job<P: Spawner>(spawner: &mut P, program: &str, tries: u32, job: &HookJob) -> bool
    ensures runs { (ends : List Ran) × TriedAs result tries ends
        × Adds (P.runs spawner.old) (runs_of program.now (job_of job.now) ends) (P.runs spawner.new) }
    ensures cause { result ≡ false → 0 < tries → Rose (P.failed spawner.old) (P.failed spawner.new) }
    ensures later { P.failed spawner.old ≤ P.failed spawner.new }
{
    for _ in 0..tries {
        if spawner.run(program, job.arguments.as_slice()).is_well() {
            return true;
        }
    }
    false
}

// Runs the program for the first job that is left, if there is one, and takes it out. Why the drain stops, if it does.
fn drain_next<P: Spawner, G: HookGate>(
    spawner: &mut P,
    gate: &mut G,
    program: &str,
    tries: u32,
) -> Option<Drained>
    requires tries { 0 < tries }
    requires ready { G.ready gate.old }
    ensures ready { G.ready gate.new }
    ensures moves { G.moves gate.old gate.new }
    ensures nearer { IfNone result (G.room gate.new < G.room gate.old) }
    ensures later { P.failed spawner.old ≤ P.failed spawner.new }
    ensures held { IfSome result (λ answer. IfHeld answer (Rose (P.failed spawner.old) (P.failed spawner.new))) }
    ensures fault { IfSome result (λ answer. IfStoreFault answer (λ n. G.faulted gate.old n gate.new)) }
    ensures memory { IfSome result (λ answer. IfNoMemory answer (G.ran_out gate.old gate.new)) }
    ensures jobs { Begins (G.jobs gate.old) (G.jobs gate.new) }
    ensures drains { (more : List Run) × Adds (P.runs spawner.old) more (P.runs spawner.new)
        × ((before : List ℕ) (earlier : List Run)
        → IsDraining program.now tries before (G.jobs gate.old) (G.gone gate.old) earlier
        → GoesTo result program.now tries before (G.jobs gate.new) (G.gone gate.new) (earlier ++ more)) }
{
    match gate.first() {
        Err(_) => Some(Drained::NoMemory),
        Ok(None) => Some(Drained::Empty),
        Ok(Some(job)) => {
            if !run_job(spawner, program, tries, &job) {
                return Some(Drained::Held(job.number));
            }
            match gate.hooked(job.number) {
                HookedEnd::Done => None,
                HookedEnd::Past(_) => unreachable!(),
                HookedEnd::StoreFault(n) => Some(Drained::StoreFault(n)),
                HookedEnd::NoMemory => Some(Drained::NoMemory),
            }
        }
    }
}

/// Runs the program for each out row in order, until it ends with 0 and at most so many times, and takes the row out.
/// It ends where no row is left, or one can't be taken out.
///
/// What it does is said twice: by itself, and after earlier runs that ended between two jobs.
pub fn drain<P: Spawner, G: HookGate>(
    spawner: &mut P,
    gate: &mut G,
    program: &str,
    tries: u32,
) -> Drained
    requires tries { 0 < tries }
    requires ready { G.ready gate.old }
    ensures drains { (runs : List Run) × Adds (P.runs spawner.old) runs (P.runs spawner.new)
        × Drains result program.now tries (G.gone gate.old) (G.jobs gate.new) (G.gone gate.new) runs }
    ensures goes_on { (more : List Run) × Adds (P.runs spawner.old) more (P.runs spawner.new)
        × ((before : List ℕ) (earlier : List Run)
        → IsDraining program.now tries before (G.jobs gate.old) (G.gone gate.old) earlier
        → Drains result program.now tries before (G.jobs gate.new) (G.gone gate.new) (earlier ++ more)) }
    ensures held { IfHeld result (Rose (P.failed spawner.old) (P.failed spawner.new)) }
    ensures fault { IfStoreFault result (λ n. G.faulted gate.old n gate.new) }
    ensures memory { IfNoMemory result (G.ran_out gate.old gate.new) }
    ensures later { P.failed spawner.old ≤ P.failed spawner.new }
    ensures jobs { Begins (G.jobs gate.old) (G.jobs gate.new) }
    ensures ready { G.ready gate.new }
    ensures moves { G.moves gate.old gate.new }
{
    loop {
        match drain_next(spawner, gate, program, tries) {
            Some(answer) => return answer,
            None => {}
        }
    }
}
