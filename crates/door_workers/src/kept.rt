// The machine under the lock, and what a turn does to it.
ghost use Rattle.std.specs.Prelude.{◌≡◌, ◌<◌, ◌≤◌, ◌^◌, true, length};
ghost use Rattle.acct_machine.specs.Gates.{IsGood};

use account_hooks::{HookGate, HookJob, HookedEnd};
use acct_machine::{
    Acted, Call, Config, Entry, Keeper, Machine, Opened, Rows, jobs_are_left, outs_are_left,
};
use hist_lock::{Job, Kept};
use std::alloc::AllocError;

/// The machine, as the lock keeps it: in a box, since each turn takes it out of the lock's slot and puts it back.
#[derive(Drop)]
pub struct Locked<K: Keeper + Drop> {
    pub machine: Box<Machine<K>>,
}

/// Where the history of a machine began, as plain data: the configuration, the rows, and how often the keeper had
/// failed. It stands in contracts and proofs alone: no value of it is ever made.
pub struct Begun {
    pub config: Config,
    pub rows: Rows,
    pub faults: u64,
}

impl<K: Keeper + Drop> Kept for Locked<K> {
    ghost use Rattle.door_workers.specs.steps.Lanes.{lane_of, begun_of};

    type Entry = Entry;

    type Fixed = Begun;

    ghost entries = { λ locked. locked.machine.value.past.history };

    ghost fixed = { λ locked. begun_of locked.machine.value.past.start };

    ghost lane = { lane_of };

    fn entry_count(&self) -> usize {
        self.machine.history().len()
    }
}

impl<K: Keeper + Drop> Locked<K> {
    // A law: its history began rightly and is legal, and the keeper's count hasn't fallen since it began.
    pub(crate) fn is_good(&self)
        ensures good { IsGood self.now.machine.value.past }
        ensures later { self.now.machine.value.past.start.faults ≤ self.now.machine.value.keeper.faults }
    {
        let _config = self.machine.config();
        let _rows = self.machine.opening_rows();
        let _history = self.machine.history();
    }

    // A law: its history has fewer than 2^64 entries.
    fn is_short(&self)
        ensures { length self.now.machine.value.past.history < 2 ^ 64 }
    {
        let history = self.machine.history();
        let _count = history.len();
    }
}

/// Opens a connection at a listener.
#[derive(Drop)]
pub struct Opening {
    pub listener: u32,
}

impl<K: Keeper + Drop> Job<Locked<K>> for Opening {
    ghost use Rattle.hist_lock.specs.Lanes.{names_none};
    ghost use Rattle.link_sessions.specs.Turns.{MachineOpens};
    ghost use Rattle.door_workers.specs.steps.Lanes.{start_of};

    type Out = Opened;

    ghost may = { λ job begun _. job.listener < length begun.config.listeners };

    ghost does = { λ job begun found left out. MachineOpens (start_of begun) job.listener out found left };

    ghost names = { λ _. names_none };

    fn run(self, kept: &mut Locked<K>) -> Opened {
        kept.machine.open_conn(self.listener)
    }
}

/// What a call answers, and whether it added a change to the outbox.
#[derive(Drop)]
pub struct CallAnswer {
    pub acted: Acted,
    pub added: bool,
}

/// Makes a call.
#[derive(Drop)]
pub struct Calling {
    pub conn: u32,
    pub call: Call,
    pub bytes: u32,
}

impl<K: Keeper + Drop> Job<Locked<K>> for Calling {
    ghost use Rattle.hist_lock.specs.Lanes.{names_lane};
    ghost use Rattle.acct_machine.specs.State.{is_live};
    ghost use Rattle.acct_machine.specs.Step.{state_at};
    ghost use Rattle.acct_machine.specs.Access.{IsCall};
    ghost use Rattle.acct_machine.specs.Machine.{Shaped};
    ghost use Rattle.link_sessions.specs.Turns.{MachineActs};
    ghost use Rattle.door_workers.specs.steps.Lanes.{start_of};

    type Out = CallAnswer;

    ghost may = { λ job begun found. (is_live job.conn (state_at (start_of begun) found).conns ≡ true)
        × IsCall job.call };

    ghost does = { λ job begun found left out.
        MachineActs (start_of begun) job.conn job.call job.bytes out.acted found left × Shaped job.call out.acted };

    ghost names = { λ job. names_lane job.conn };

    fn run(self, kept: &mut Locked<K>) -> CallAnswer {
        let before = kept.machine.rows().out_rows().len();
        let acted = kept.machine.act(self.conn, self.call, self.bytes);
        let added = kept.machine.rows().out_rows().len() > before;
        CallAnswer { acted, added }
    }
}

/// Ends a connection.
#[derive(Drop)]
pub struct Ending {
    pub conn: u32,
}

impl<K: Keeper + Drop> Job<Locked<K>> for Ending {
    ghost use Rattle.hist_lock.specs.Lanes.{names_lane};
    ghost use Rattle.acct_machine.specs.State.{is_live};
    ghost use Rattle.acct_machine.specs.Step.{state_at};
    ghost use Rattle.link_sessions.specs.Turns.{MachineEnds};
    ghost use Rattle.door_workers.specs.steps.Lanes.{start_of};

    type Out = ();

    ghost may = { λ job begun found. is_live job.conn (state_at (start_of begun) found).conns ≡ true };

    ghost does = { λ job begun found left _. MachineEnds (start_of begun) job.conn found left };

    ghost names = { λ job. names_lane job.conn };

    fn run(self, kept: &mut Locked<K>) {
        kept.machine.gone(self.conn)
    }
}

/// Looks for the first change in the outbox that is left.
#[derive(Drop)]
pub struct Looking;

impl<K: Keeper + Drop> Job<Locked<K>> for Looking {
    ghost use Rattle.hist_lock.specs.Lanes.{names_none};
    ghost use Rattle.acct_machine.specs.Outbox.{has_hook};
    ghost use Rattle.door_workers.specs.steps.Lanes.{start_of};
    ghost use Rattle.door_workers.specs.Hooking.{MachineLooks};

    type Out = Result<Option<HookJob>, AllocError>;

    ghost may = { λ job begun _. has_hook begun.config ≡ true };

    ghost does = { λ job begun found left out. MachineLooks (start_of begun) out found left };

    ghost names = { λ _. names_none };

    fn run(self, kept: &mut Locked<K>) -> Result<Option<HookJob>, AllocError> {
        jobs_are_left();
        outs_are_left();
        kept.is_good();
        kept.machine.first()
    }
}

/// Takes the first change out of the outbox, if it has this number.
#[derive(Drop)]
pub struct Hooking {
    pub number: u64,
}

impl<K: Keeper + Drop> Job<Locked<K>> for Hooking {
    ghost use Rattle.hist_lock.specs.Lanes.{names_home};
    ghost use Rattle.acct_machine.specs.Outbox.{has_hook};
    ghost use Rattle.door_workers.specs.steps.Lanes.{start_of};
    ghost use Rattle.door_workers.specs.Hooking.{MachineHooks};

    type Out = HookedEnd;

    ghost may = { λ job begun _. has_hook begun.config ≡ true };

    ghost does = { λ job begun found left out. MachineHooks (start_of begun) job.number out found left };

    ghost names = { λ _. names_home };

    fn run(self, kept: &mut Locked<K>) -> HookedEnd {
        kept.is_good();
        let answer = kept.machine.hooked(self.number);
        kept.is_short();
        answer
    }
}
