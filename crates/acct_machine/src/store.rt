// What the machine keeps. A contract sees it as the state.
ghost use Rattle.std.specs.Prelude.{◌≡◌, ◌<◌, ◌≤◌, ◌-◌, ◌^◌, ◌+◌, length, [], Some, nat_lt, true, IfOk, OnOk, OnErr};
ghost use Rattle.std.specs.Prelude.{if◌then◌else◌};
ghost use Rattle.std.specs.Vec.{vec_capacity};
ghost use Rattle.acct_config.specs.Spelled.{IsRightConfig};
ghost use Rattle.acct_calls.specs.declared.replies.Reply.TheVariants.{Done};
ghost use Rattle.acct_rows.specs.Rows.{after};
ghost use Rattle.acct_rows.specs.Sound.{IsSoundRows};
ghost use Rattle.acct_codes.specs.Statuses.{status_internal_db_error, status_no_memory};
ghost use Rattle.acct_keeper.specs.declared.keeper.KeepError.TheVariants as keeps;
ghost use Rattle.acct_layouts.specs.CallShapes.{CanBeSpelled};
ghost use Rattle.acct_rules.specs.Planned.{has_change};
ghost use Rattle.acct_rules.specs.declared.planned.Effect.TheVariants as effects;
ghost use Rattle.acct_operations.specs.Table.{operation, work_of};
ghost use Rattle.acct_operations.specs.Frugal.{taken_by};
ghost use Rattle.acct_layouts.specs.Table.{layout_of};
ghost use Rattle.acct_layouts.specs.Refusals.{is_refusal};
ghost use Rattle.acct_machine.specs.declared.entry.Entry.TheVariants.{Opened, Gone, Hooked};
ghost use Rattle.acct_machine.specs.declared.entry.Verdict.TheVariants as verdicts;
ghost use Rattle.acct_machine.specs.State.{find_handle, last_serial, number_of};
ghost use Rattle.acct_machine.specs.Access.{described, grant_of, granted_to, held_by, object_of};
ghost use Rattle.acct_machine.specs.Step.{refusal_outs, filled_by, left, with_handle, with_plan, done_by, concluded_by};
ghost use Rattle.acct_machine.specs.Step.{planned_of, acted, step};
ghost use Rattle.acct_machine.specs.Outbox.{least_out};
ghost use Rattle.acct_machine.specs.Sound.{IsSound};
ghost use Rattle.acct_machine.specs.Committing.{MayCommit, CommitsRows};
ghost use Rattle.acct_machine.specs.steps.Concluding.{Concludes};
ghost use Rattle.acct_machine.specs.Legal.{HasPassed, MayWant};
ghost use Rattle.acct_machine.specs.Wants.{MayEndWith, MayMiss, WantsRoom};
ghost use Rattle.std.specs.Option.{option_copied};

use crate::checks::{Access, access_with, object_of};
use crate::hooking::removal;
use crate::index::Handles;
use crate::lists::{end_live, find_conn, number_of, serial_of, set_serial};
use crate::opening::{described, granted};
use crate::outbox::outboxed;
use crate::{
    Call, Config, Conn, Handle, Held, Limits, NoMemory, Object, Outs, Reply, Rows, Verdict,
};
use acct_codes::fault::{NCA_S_FAULT_CONTEXT_MISMATCH, NCA_S_OP_RNG_ERROR};
use acct_codes::status::{
    STATUS_ACCESS_DENIED, STATUS_INTERNAL_DB_ERROR, STATUS_NO_MEMORY, STATUS_OBJECT_TYPE_MISMATCH,
};
use acct_keeper::{KeepError, Keeper};
use acct_layouts::{is_refusal, layout_of, refused_outs};
use acct_operations::{
    Work, decide, operations_are_frugal, operations_are_right, operations_keep_rows, profile_of,
    work_of,
};
use acct_rows::Plan;
use acct_rows::laws::{outs_stay_sound, puts_are_found, removed_outs_stay_sound};
use acct_rules::{Effect, Opening, Planned, fill, needed_bits};
use std::alloc::Global;
use std::marker::Model;

/// The configuration, the rows, the connections and the handles.
#[derive(Drop)]
pub struct Store {
    config: Config,
    rows: Rows,
    conns: Vec<Conn>,
    handles: Handles,
}

impl Model for Store {
    ghost use Rattle.std.specs.Vec.{vec_capacity};
    ghost use Rattle.acct_machine.specs.State.{State};
    ghost use Rattle.acct_machine.specs.Shown.{HasRoom};

    ghost Value = { State };

    ghost view = { λ s. record {
      config = s.config;
      rows = s.rows.lists;
      conns = s.conns.items;
      handles = s.handles.0;
    } };

    ghost invariant = { λ s. HasRoom s.config s.conns.items (vec_capacity s.conns) };
}

// ---- replies

fn refusal_outs(alloc: Global, call: &Call) -> Outs
    ensures { result ≡ refusal_outs call.now }
{
    match layout_of(call.face, call.opnum) {
        Some(layout) => refused_outs(alloc, layout.outputs, &call.args, call.handle),
        None => Outs::Nothing,
    }
}

fn refusal(alloc: Global, call: &Call, status: u32) -> Reply
    ensures { result ≡ Done status (refusal_outs call.now) }
{
    Reply::Done {
        status,
        outs: refusal_outs(alloc, call),
    }
}

fn replied(alloc: Global, call: &Call, status: u32, outs: Outs) -> Reply
    ensures { result ≡ Done status (if is_refusal status then refusal_outs call.now else outs) }
{
    if is_refusal(status) {
        drop(outs);
        return refusal(alloc, call, status);
    }
    Reply::Done { status, outs }
}

// What comes of a call whose change the keeper failed to commit, or for which memory ran out.
fn uncommitted<K: Keeper>(
    alloc: Global,
    keeper: &K,
    call: &Call,
    error: KeepError,
) -> (Verdict, Reply)
    ensures failed { error ≡ keeps.Failed → result ≡ (
      verdicts.StoreFault (K.faults keeper.now),
      Done status_internal_db_error (refusal_outs call.now),
    ) }
    ensures memory { error ≡ keeps.NoMemory → result ≡ (
      verdicts.NoMemory,
      Done status_no_memory (refusal_outs call.now),
    ) }
{
    match error {
        KeepError::Failed => (
            Verdict::StoreFault(keeper.faults()),
            refusal(alloc, call, STATUS_INTERNAL_DB_ERROR),
        ),
        KeepError::NoMemory => (Verdict::NoMemory, refusal(alloc, call, STATUS_NO_MEMORY)),
    }
}

// Puts the handle that was opened, and its grant, among the outputs.
fn fill_outs(outs: &mut Outs, call: &Call, handle: Handle, granted: u32)
    ensures { outs.new ≡ filled_by (layout_of call.now.face call.now.opnum) handle granted outs.old }
{
    match layout_of(call.face, call.opnum) {
        Some(layout) => fill(outs, layout.outputs, handle, granted),
        None => {}
    }
}

// ---- changes

// Room for what the plan puts; where it puts nothing no memory is taken.
fn make_room(rows: &mut Rows, plan: &Plan) -> Result<(), NoMemory>
    ensures lists { rows.new.lists ≡ rows.old.lists }
    ensures room { OnOk result (length plan.now.puts ≤ rows.new.spare) }
    ensures wants { OnErr result (nat_lt 0 (length plan.now.puts) ≡ true) }
{
    let puts = plan.puts.as_slice().len();
    if puts == 0 {
        return Ok(());
    }
    rows.reserve(puts)
}

// Whether a plan puts or removes a row.
fn has_change(plan: &Plan) -> bool
    ensures { result ≡ has_change plan.now }
{
    plan.puts.as_slice().len() > 0 || plan.removes.as_slice().len() > 0
}

// Commits what a plan changes of the rows. Where it changes none nothing is committed, and where it has none no memory
// is taken.
fn commit<K: Keeper>(
    alloc: Global,
    keeper: &mut K,
    rows: &Rows,
    plan: &Plan,
) -> Result<(), KeepError>
    requires { MayCommit plan.now rows.now.lists }
    ensures commits { CommitsRows K.held K.faults keeper.old keeper.new rows.now.lists
        (after plan.now rows.now.lists) result }
    ensures wants { OnErr result (has_change plan.now ≡ true) }
{
    if !has_change(plan) {
        return Ok(());
    }
    let changes = rows.changes(alloc, plan)?;
    if changes.is_empty() {
        return Ok(());
    }
    keeper.commit(&changes)
}

fn drop_left(handles: &mut Handles, effect: Effect, conn: u32, number: u128)
    ensures { handles.new.0 ≡ left effect conn number handles.old.0 }
{
    match effect {
        Effect::Closes => handles.drop_handle(conn, number),
        Effect::Deletes(object) => handles.drop_object(object),
        Effect::Nothing | Effect::Opens(_) | Effect::Checks(_) => {}
    }
}

// Room for all connections that these limits let there be.
fn conns_room(alloc: Global, limits: &Limits) -> Result<Vec<Conn>, NoMemory>
    ensures conns { IfOk result (λ conns. conns.items ≡ []) }
    ensures room { IfOk result (λ conns. limits.now.max_conns ≤ vec_capacity conns) }
{
    let mut conns = Vec::new(alloc);
    conns.reserve(limits.max_conns as usize)?;
    Ok(conns)
}

impl Store {
    /// The state where a history begins, with room for all its connections.
    pub fn new(alloc: Global, config: Config, rows: Rows) -> Result<Self, NoMemory>
        requires { IsRightConfig config }
        ensures { IfOk result (λ store. store
            ≡ record { config = config; rows = rows.lists; conns = []; handles = [] }) }
    {
        match conns_room(alloc, &config.limits) {
            Ok(conns) => Ok(Store {
                config,
                rows,
                conns,
                handles: Handles::new(alloc),
            }),
            Err(none) => {
                drop(rows);
                drop(config);
                Err(none)
            }
        }
    }

    /// The configuration.
    pub fn config(&self) -> &Config
        ensures all { result.now ≡ self.now.config }
        ensures right { IsRightConfig result.now }
    {
        &self.config
    }

    /// The rows.
    pub fn rows(&self) -> &Rows
        ensures { result.now.lists ≡ self.now.rows }
    {
        &self.rows
    }

    /// The rows. It takes no memory.
    pub fn into_rows(self) -> Rows
        ensures { result.lists ≡ self.rows }
    {
        self.rows
    }

    /// How many connections there are.
    pub fn count(&self) -> usize
        ensures { result ≡ length self.now.conns }
    {
        self.conns.len()
    }

    /// One more connection, with the next number. It takes no memory.
    pub fn add_conn(&mut self, conn: u32, listener: u32)
        requires next { conn ≡ length self.old.conns + 1 }
        requires room { length self.old.conns < self.old.config.limits.max_conns }
        ensures { self.new ≡ step self.old (Opened conn listener) }
    {
        let new = Conn {
            number: conn,
            listener,
            serial: 0,
            live: true,
        };
        self.conns.push_reserved(new);
    }

    /// The end of a connection, with its handles. It takes no memory.
    pub fn end_conn(&mut self, conn: u32)
        ensures { self.new ≡ step self.old (Gone conn) }
    {
        end_live(&mut self.conns, conn);
        self.handles.drop_conn(conn);
    }

    // What an opening grants the connection that was found.
    fn granted(&self, found: Option<Conn>, opening: &Opening) -> Option<u32>
        ensures { result ≡ granted_to self.now.config (described self.now opening.now.object) found opening.now.object
            opening.now.desired }
    {
        let descriptor = described(&self.config, &self.rows, &opening.object);
        granted(
            &self.config,
            descriptor,
            found,
            opening.object,
            opening.desired,
        )
    }

    // A plan that opens: its change of rows, and one more handle, with the connection's next serial. All memory is
    // taken before the commit.
    fn open<K: Keeper>(
        &mut self,
        alloc: Global,
        keeper: &mut K,
        conn: u32,
        serial: u64,
        object: Object,
        granted: u32,
        plan: Plan,
    ) -> Result<(), KeepError>
        requires serial { serial ≡ last_serial conn self.old.conns + 1 }
        requires may { MayCommit plan self.old.rows }
        ensures ok { OnOk result (self.new ≡ with_handle (with_plan self.old plan) conn object granted) }
        ensures err { OnErr result (self.new ≡ self.old) }
        ensures commits { CommitsRows K.held K.faults keeper.old keeper.new self.old.rows (after plan self.old.rows)
            result }
    {
        make_room(&mut self.rows, &plan)?;
        self.handles.reserve(1)?;
        commit(alloc, keeper, &self.rows, &plan)?;
        let held = Held {
            conn,
            serial,
            object,
            granted,
        };
        self.handles.push(held);
        self.rows.apply(plan);
        set_serial(&mut self.conns, conn, serial);
        Ok(())
    }

    // A plan that opens nothing: its change of rows, and the handles that go. All memory is taken before the commit.
    fn change<K: Keeper>(
        &mut self,
        alloc: Global,
        keeper: &mut K,
        conn: u32,
        number: u128,
        plan: Plan,
        effect: Effect,
    ) -> Result<(), KeepError>
        requires may { MayCommit plan self.old.rows }
        ensures ok { OnOk result (self.new ≡ record self.old {
          rows = after plan self.old.rows;
          handles = left effect conn number self.old.handles;
        }) }
        ensures err { OnErr result (self.new ≡ self.old) }
        ensures wants { OnErr result (has_change plan ≡ true) }
        ensures commits { CommitsRows K.held K.faults keeper.old keeper.new self.old.rows (after plan self.old.rows)
            result }
    {
        make_room(&mut self.rows, &plan)?;
        commit(alloc, keeper, &self.rows, &plan)?;
        self.rows.apply(plan);
        drop_left(&mut self.handles, effect, conn, number);
        Ok(())
    }

    /// Takes the first row of the outbox out, once the keeper has taken it out. All memory is taken before the commit.
    pub fn take_out<K: Keeper>(
        &mut self,
        alloc: Global,
        keeper: &mut K,
        number: u64,
    ) -> Result<(), KeepError>
        requires sound { IsSoundRows self.old.rows }
        requires first { least_out self.old.rows ≡ Some number }
        ensures ok { OnOk result (self.new ≡ step self.old (Hooked number)) }
        ensures err { OnErr result (self.new ≡ self.old) }
        ensures commits { CommitsRows K.held K.faults keeper.old keeper.new self.old.rows
            (step self.old (Hooked number)).rows result }
    {
        removed_outs_stay_sound();
        let plan = removal(alloc, number)?;
        commit(alloc, keeper, &self.rows, &plan)?;
        self.rows.apply(plan);
        Ok(())
    }

    // What comes of a plan whose opening was granted this access: the handle's number, and the change.
    fn open_granted<K: Keeper>(
        &mut self,
        alloc: Global,
        keeper: &mut K,
        conn: u32,
        call: &Call,
        planned: Planned,
        opening: Opening,
        serial: u64,
        granted: u32,
    ) -> (Verdict, Reply)
        requires opens { planned.effect ≡ effects.Opens opening }
        requires serial { serial ≡ last_serial conn self.old.conns + 1 }
        requires granted { grant_of self.old conn opening.object opening.desired ≡ Some granted }
        requires may { MayCommit planned.plan self.old.rows }
        ensures { Concludes K.held K.faults keeper.old keeper.new (concluded_by self.old conn call.now planned)
            (WantsRoom self.old conn planned) self.old self.new result }
    {
        let Planned {
            status,
            mut outs,
            plan,
            effect: _,
        } = planned;
        match self.open(alloc, keeper, conn, serial, opening.object, granted, plan) {
            Ok(()) => {
                let handle = Handle {
                    number: number_of(conn, serial),
                };
                fill_outs(&mut outs, call, handle, granted);
                (Verdict::Ran, replied(alloc, call, status, outs))
            }
            Err(error) => {
                drop(outs);
                uncommitted(alloc, keeper, call, error)
            }
        }
    }

    // What comes of a plan that opens.
    fn open_to<K: Keeper>(
        &mut self,
        alloc: Global,
        keeper: &mut K,
        conn: u32,
        call: &Call,
        planned: Planned,
        opening: Opening,
    ) -> (Verdict, Reply)
        requires opens { planned.effect ≡ effects.Opens opening }
        requires fits { last_serial conn self.old.conns < 2 ^ 64 - 1 }
        requires may { MayCommit planned.plan self.old.rows }
        ensures { Concludes K.held K.faults keeper.old keeper.new (concluded_by self.old conn call.now planned)
            (WantsRoom self.old conn planned) self.old self.new result }
    {
        let found = find_conn(&self.conns, conn);
        match self.granted(found, &opening) {
            Some(granted) => {
                let serial = serial_of(found) + 1;
                self.open_granted(alloc, keeper, conn, call, planned, opening, serial, granted)
            }
            None => {
                drop(planned);
                (Verdict::Ran, refusal(alloc, call, STATUS_ACCESS_DENIED))
            }
        }
    }

    // What comes of a plan without an opening, or after it.
    fn done<K: Keeper>(
        &mut self,
        alloc: Global,
        keeper: &mut K,
        conn: u32,
        call: &Call,
        planned: Planned,
    ) -> (Verdict, Reply)
        requires may { MayCommit planned.plan self.old.rows }
        ensures { Concludes K.held K.faults keeper.old keeper.new (done_by self.old conn call.now planned)
            (MayMiss self.old planned) self.old self.new result }
    {
        let Planned {
            status,
            outs,
            plan,
            effect,
        } = planned;
        match self.change(alloc, keeper, conn, call.handle.number, plan, effect) {
            Ok(()) => (Verdict::Ran, replied(alloc, call, status, outs)),
            Err(error) => {
                drop(outs);
                uncommitted(alloc, keeper, call, error)
            }
        }
    }

    // What comes of an opening that gives no handle.
    fn check<K: Keeper>(
        &mut self,
        alloc: Global,
        keeper: &mut K,
        conn: u32,
        call: &Call,
        planned: Planned,
        opening: Opening,
    ) -> (Verdict, Reply)
        requires checks { planned.effect ≡ effects.Checks opening }
        requires may { MayCommit planned.plan self.old.rows }
        ensures { Concludes K.held K.faults keeper.old keeper.new (concluded_by self.old conn call.now planned)
            (WantsRoom self.old conn planned) self.old self.new result }
    {
        let found = find_conn(&self.conns, conn);
        if self.granted(found, &opening).is_none() {
            drop(planned);
            return (Verdict::Ran, refusal(alloc, call, STATUS_ACCESS_DENIED));
        }
        self.done(alloc, keeper, conn, call, planned)
    }

    // What comes of a plan.
    fn conclude<K: Keeper>(
        &mut self,
        alloc: Global,
        keeper: &mut K,
        conn: u32,
        call: &Call,
        planned: Planned,
    ) -> (Verdict, Reply)
        requires fits { last_serial conn self.old.conns < 2 ^ 64 - 1 }
        requires may { MayCommit planned.plan self.old.rows }
        ensures { Concludes K.held K.faults keeper.old keeper.new (concluded_by self.old conn call.now planned)
            (WantsRoom self.old conn planned) self.old self.new result }
    {
        match &planned.effect {
            Effect::Opens(opening) => {
                let opening = *opening;
                self.open_to(alloc, keeper, conn, call, planned, opening)
            }
            Effect::Checks(opening) => {
                let opening = *opening;
                self.check(alloc, keeper, conn, call, planned, opening)
            }
            _ => self.done(alloc, keeper, conn, call, planned),
        }
    }

    // What is planned for a call by the operation, the object of the handle and its descriptor, with the out row of an
    // account that changes.
    fn plan(
        &self,
        alloc: Global,
        work: Work,
        conn: u32,
        call: &Call,
        object: Object,
    ) -> Result<Planned, NoMemory>
        requires object { object ≡ object_of (held_by self.now conn call.now) }
        requires sound { IsSoundRows self.now.rows }
        ensures planned { IfOk result (λ planned. planned ≡ planned_of (operation work) self.now conn call.now) }
        ensures frugal { OnErr result (MayWant (taken_by work) (operation work) self.now conn call.now) }
    {
        operations_are_frugal();
        let config = self.config();
        let descriptor = described(config, &self.rows, &object);
        match decide(alloc, work, &self.rows, descriptor, object, &call.args) {
            Ok(decided) => outboxed(alloc, config, &self.rows, decided),
            Err(none) => Err(none),
        }
    }

    // What comes after the check of the handle.
    fn pass<K: Keeper>(
        &mut self,
        alloc: Global,
        keeper: &mut K,
        work: Work,
        conn: u32,
        call: &Call,
        object: Object,
    ) -> (Verdict, Reply)
        requires fits { last_serial conn self.old.conns < 2 ^ 64 - 1 }
        requires object { object ≡ object_of (held_by self.old conn call.now) }
        requires found { work_of call.now.face call.now.opnum ≡ Some work }
        requires passed { HasPassed (operation work) self.old conn call.now }
        requires spelled { CanBeSpelled call.now }
        requires right { IsRightConfig self.old.config }
        requires sound { IsSound self.old.config self.old }
        ensures { let planned = planned_of (operation work) self.old conn call.now in
            Concludes K.held K.faults keeper.old keeper.new (concluded_by self.old conn call.now planned)
            (MayEndWith self.old conn call.now) self.old self.new result }
    {
        operations_are_right();
        operations_are_frugal();
        operations_keep_rows();
        outs_stay_sound();
        puts_are_found();
        match self.plan(alloc, work, conn, call, object) {
            Ok(planned) => self.conclude(alloc, keeper, conn, call, planned),
            Err(_) => (Verdict::NoMemory, refusal(alloc, call, STATUS_NO_MEMORY)),
        }
    }

    /// Makes a call: its verdict and its reply. A change of rows is committed to the keeper.
    pub fn run<K: Keeper>(
        &mut self,
        alloc: Global,
        keeper: &mut K,
        conn: u32,
        call: &Call,
    ) -> (Verdict, Reply)
        requires fits { last_serial conn self.old.conns < 2 ^ 64 - 1 }
        requires spelled { CanBeSpelled call.now }
        requires right { IsRightConfig self.old.config }
        requires sound { IsSound self.old.config self.old }
        ensures { Concludes K.held K.faults keeper.old keeper.new (acted self.old conn call.now)
            (MayEndWith self.old conn call.now) self.old self.new result }
    {
        let Some(work) = work_of(call.face, call.opnum) else {
            return (Verdict::Ran, Reply::Fault(NCA_S_OP_RNG_ERROR));
        };
        let profile = profile_of(work);
        let found = self.handles.find(conn, call.handle.number);
        let bits = needed_bits(profile.needs, &self.rows, &call.args);
        let object = object_of(found);
        match access_with(profile.brings, bits, found) {
            Access::Unknown => (Verdict::Ran, Reply::Fault(NCA_S_FAULT_CONTEXT_MISMATCH)),
            Access::WrongKind => (
                Verdict::Ran,
                refusal(alloc, call, STATUS_OBJECT_TYPE_MISMATCH),
            ),
            Access::Denied => (Verdict::Ran, refusal(alloc, call, STATUS_ACCESS_DENIED)),
            Access::Passed => self.pass(alloc, keeper, work, conn, call, object),
        }
    }

    /// The handle of a connection with a number.
    pub fn find_held(&self, conn: u32, number: u128) -> Option<&Held>
        ensures { option_copied result ≡ find_handle conn number self.now.handles }
    {
        self.handles.find(conn, number)
    }

    /// The number of the last handle that a connection was given, by its serial; of its serial 0 before the first.
    pub fn last_number(&self, conn: u32) -> u128
        ensures { result ≡ number_of conn (last_serial conn self.now.conns) }
    {
        number_of(conn, serial_of(find_conn(&self.conns, conn)))
    }
}
