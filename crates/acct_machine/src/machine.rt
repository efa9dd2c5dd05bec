// The machine: one history, and the state after it.
ghost use Rattle.std.specs.Prelude.{◌≡◌, ◌^◌, ◌<◌, ◌≤◌, ◌++◌, ◌∷◌, true, [], length, IfOk, IfErr};
ghost use Rattle.acct_config.specs.Spelled.{IsRightConfig};
ghost use Rattle.acct_rows.specs.Sound.{IsSoundRows};
ghost use Rattle.acct_machine.specs.State.{is_live};
ghost use Rattle.acct_machine.specs.Access.{IsCall};
ghost use Rattle.acct_machine.specs.Legal.{Legal, most_entries};
ghost use Rattle.acct_machine.specs.Sound.{IsSound};
ghost use Rattle.acct_machine.specs.Machine.{state_of, Opens, OpensFresh, OpensLive, Acts, ActsCalls, SameLive};
ghost use Rattle.acct_machine.specs.Machine.{SameCalls, Ends, OneLessLive, Shaped, Frugal, Stored, Commits};
ghost use Rattle.acct_machine.specs.Hooking.{Hooks, HookCommits};
ghost use Rattle.acct_machine.specs.Outbox.{has_hook, HoldsRows, AreCounted};
ghost use Rattle.std.specs.List.{slice_get};
ghost use Rattle.std.specs.Option.{option_copied};
ghost use Rattle.std.specs.Vec.{vec_capacity};
ghost use Rattle.acct_machine.specs.State.{last_serial, number_of};
ghost use Rattle.acct_machine.specs.Given.{given, needed_of, passed_handle};

use crate::given::{given, needed, passed_handle};
use crate::hooking::{hook_room, least_out};
use crate::laws::{
    connections_are_numbered, connections_are_opened_once, kept_states_are_sound, limits_are_kept,
    replies_are_shaped,
};
use crate::room::most_entries;
use crate::store::Store;
use crate::{Call, Config, Entry, Handle, Held, Keeper, Limits, NoMemory, Object, Reply, Rows};
use account_hooks::HookedEnd;
use acct_keeper::KeepError;
use acct_rows::OutRow;
use std::alloc::Global;
use std::fmt;
use std::marker::Model;

/// What an opening of a connection answers.
#[derive(Clone, Copy, Debug, PartialEq, Eq)]
pub enum Opened {
    /// The number of the connection.
    Conn(u32),
    /// So many connections were opened before, as many as the history takes.
    Full(u64),
}

/// What a call answers.
#[derive(Debug, Drop)]
pub enum Acted {
    Reply(Reply),
    /// So many calls were made before, as many as the history takes.
    FullCalls(u64),
    /// The bytes of the stubs would be so many with this one, and more than the history takes.
    FullBytes(u64),
}

/// There was no memory for a machine. The keeper comes back.
#[derive(Drop)]
pub struct NoMachine<K> {
    pub keeper: K,
}

impl<K> fmt::Display for NoMachine<K> {
    fn fmt<W: fmt::Write>(&self, f: &mut fmt::Formatter<W>) -> fmt::Result {
        f.write_str("there is no memory for a machine")
    }
}

/// The machine, over a keeper of its rows. It shows where its history began, which was with a right configuration and
/// sound rows, its history, and what the keeper tells. It keeps the state after the history, whose rows the keeper
/// holds as pairs, the number of its calls and of the bytes of their stubs, and room for all that the limits of the
/// configuration let it have.
#[derive(Drop)]
pub struct Machine<K: Keeper + Drop> {
    alloc: Global,
    opening: Rows,
    history: Vec<Entry>,
    store: Store,
    calls: u32,
    bytes: u64,
    keeper: K,
    since: u64,
}

impl<K: Keeper + Drop> Model for Machine<K> {
    ghost use Rattle.std.specs.Vec.{vec_capacity};
    ghost use Rattle.acct_machine.specs.Shown.{Shown, IsKept, begins};
    ghost use Rattle.acct_machine.specs.Outbox.{IsStored};

    ghost Value = { Shown };

    ghost view = { λ m. record {
      past = record { start = begins m.store m.opening.lists m.since; history = m.history.items };
      keeper = record { held = K.held m.keeper; faults = K.faults m.keeper };
    } };

    ghost invariant = { λ m.
        let start = begins m.store m.opening.lists m.since in
        IsKept start m.history.items m.store m.calls m.bytes (vec_capacity m.history)
        × IsStored (K.held m.keeper) m.store.rows (K.faults m.keeper) start m.history.items };
}

// Room for a history under these limits.
fn history_room(alloc: Global, limits: &Limits) -> Result<Vec<Entry>, NoMemory>
    ensures history { IfOk result (λ history. history.items ≡ []) }
    ensures room { IfOk result (λ history. most_entries limits.now ≤ vec_capacity history) }
{
    let mut history = Vec::new(alloc);
    history.reserve(most_entries(limits))?;
    Ok(history)
}

// The state where a history begins, under a copy of the configuration.
fn store_over(alloc: Global, config: &Config, rows: Rows) -> Result<Store, NoMemory>
    requires { IsRightConfig config.now }
    ensures { IfOk result (λ store. store
        ≡ record { config = config.now; rows = rows.lists; conns = []; handles = [] }) }
{
    match config.copy(alloc) {
        Ok(config) => Store::new(alloc, config, rows),
        Err(none) => {
            drop(rows);
            Err(none)
        }
    }
}

// A copy of the opening rows, and the state where a history begins.
fn opening_and_store(alloc: Global, config: &Config, rows: Rows) -> Result<(Rows, Store), NoMemory>
    requires { IsRightConfig config.now }
    ensures opening { IfOk result (λ parts. parts.0.lists ≡ rows.lists) }
    ensures store { IfOk result (λ parts. parts.1
        ≡ record { config = config.now; rows = rows.lists; conns = []; handles = [] }) }
{
    let opening = match rows.copy(alloc) {
        Ok(opening) => opening,
        Err(none) => {
            drop(rows);
            return Err(none);
        }
    };
    match store_over(alloc, config, rows) {
        Ok(store) => Ok((opening, store)),
        Err(none) => {
            drop(opening);
            Err(none)
        }
    }
}

// What a machine is made of: its opening rows, room for its history, and the state where that begins.
fn begun(alloc: Global, config: &Config, rows: Rows) -> Result<(Rows, Vec<Entry>, Store), NoMemory>
    requires { IsRightConfig config.now }
    ensures opening { IfOk result (λ parts. parts.0.lists ≡ rows.lists) }
    ensures history { IfOk result (λ parts. parts.1.items ≡ []) }
    ensures room { IfOk result (λ parts. most_entries config.now.limits ≤ vec_capacity parts.1) }
    ensures store { IfOk result (λ parts. parts.2
        ≡ record { config = config.now; rows = rows.lists; conns = []; handles = [] }) }
{
    let (opening, store) = opening_and_store(alloc, config, rows)?;
    match history_room(alloc, &config.limits) {
        Ok(history) => Ok((opening, history, store)),
        Err(none) => {
            drop(store);
            drop(opening);
            Err(none)
        }
    }
}

// One more entry after a history that has room for it. It takes no memory.
fn enter(history: &mut Vec<Entry>, entry: Entry)
    requires { length history.old.items < vec_capacity history.old }
    ensures entered { history.new.items ≡ history.old.items ++ entry ∷ [] }
    ensures room { vec_capacity history.old ≤ vec_capacity history.new }
{
    history.push_reserved(entry);
}

impl<K: Keeper + Drop> Machine<K> {
    /// A machine to which nothing has happened, under a copy of the configuration, from these rows, of which it keeps a
    /// copy as well, over a keeper that holds their pairs, if it tells. All the memory that its history and its
    /// connections may come to need is taken here.
    pub fn new(
        alloc: Global,
        config: &Config,
        rows: Rows,
        keeper: K,
    ) -> Result<Machine<K>, NoMachine<K>>
        requires right { IsRightConfig config.now }
        requires sound { IsSoundRows rows.lists }
        requires stored { HoldsRows (K.held keeper) rows.lists }
        ensures made { IfOk result (λ machine. machine ≡ record {
          past = record {
            start = record { config = config.now; rows = rows.lists; faults = K.faults keeper };
            history = [];
          };
          keeper = record { held = K.held keeper; faults = K.faults keeper };
        }) }
        ensures back { IfErr result (λ none. none.keeper ≡ keeper) }
    {
        match begun(alloc, config, rows) {
            Ok((opening, history, store)) => {
                let since = keeper.faults();
                Ok(Machine {
                    alloc,
                    opening,
                    history,
                    store,
                    calls: 0,
                    bytes: 0,
                    keeper,
                    since,
                })
            }
            Err(_) => Err(NoMachine { keeper }),
        }
    }

    /// The configuration.
    pub fn config(&self) -> &Config
        ensures all { result.now ≡ self.now.past.start.config }
        ensures right { IsRightConfig result.now }
    {
        self.store.config()
    }

    /// The rows of the state after the history, which is sound. What the keeper holds, if it tells, are their pairs.
    pub fn rows(&self) -> &Rows
        ensures all { result.now.lists ≡ (state_of self.now.past).rows }
        ensures stored { Stored self.now }
        ensures sound { IsSound self.now.past.start.config (state_of self.now.past) }
    {
        kept_states_are_sound();
        self.store.rows()
    }

    // What allocates.
    pub(crate) fn allocator(&self) -> Global {
        self.alloc
    }

    // A law: there are fewer than 2^64 entries.
    pub(crate) fn has_few_entries(&self)
        ensures { length self.now.past.history < 2 ^ 64 }
    {
        let _count = self.history.len();
    }

    /// The rows where the history began, which are sound.
    pub fn opening_rows(&self) -> &Rows
        ensures all { result.now.lists ≡ self.now.past.start.rows }
        ensures sound { IsSoundRows result.now.lists }
    {
        &self.opening
    }

    /// The first row of the outbox, which has the least number; none where the outbox is empty. It takes no memory.
    pub fn first_out(&self) -> Option<&OutRow>
        ensures { option_copied result ≡ slice_get (state_of self.now.past).rows.outs 0 }
    {
        self.store.rows().out_rows().first()
    }

    /// What happened, in order. The keeper's count has risen by one at each commit that failed there.
    pub fn history(&self) -> &[Entry]
        ensures all { result.now ≡ self.now.past.history }
        ensures counts { AreCounted self.now.keeper.faults self.now.past.start result.now }
        ensures legal { Legal self.now.past.start result.now }
    {
        &self.history
    }

    /// The rows where the history began, what happened in order, the rows of the state after it, which is sound, and
    /// the keeper, which holds their pairs, if it tells. It takes no memory.
    pub fn into_parts(self) -> (Rows, Vec<Entry>, Rows, K)
        ensures opening { result.0.lists ≡ self.past.start.rows }
        ensures history { result.1.items ≡ self.past.history }
        ensures rows { result.2.lists ≡ (state_of self.past).rows }
        ensures held { K.held result.3 ≡ self.keeper.held }
        ensures faults { K.faults result.3 ≡ self.keeper.faults }
        ensures stored { HoldsRows (K.held result.3) result.2.lists }
        ensures counts { AreCounted (K.faults result.3) self.past.start result.1.items }
        ensures legal { Legal self.past.start result.1.items }
        ensures sound { IsSound self.past.start.config (state_of self.past) }
    {
        kept_states_are_sound();
        (
            self.opening,
            self.history,
            self.store.into_rows(),
            self.keeper,
        )
    }

    /// Opens a connection at a listener of the configuration, by its place there from 0. A full history is left as it
    /// was. It takes no memory.
    pub fn open_conn(&mut self, listener: u32) -> Opened
        requires configured { listener < length self.old.past.start.config.listeners }
        ensures keeper { self.new.keeper ≡ self.old.keeper }
        ensures opens { Opens self.old.past listener result self.new.past }
        ensures fresh { OpensFresh self.old.past result }
        ensures live { OpensLive self.old.past result self.new.past }
        ensures calls { SameCalls self.old.past self.new.past }
        ensures legal { Legal self.new.past.start self.new.past.history }
        ensures stored { Stored self.new }
    {
        connections_are_numbered();
        connections_are_opened_once();
        limits_are_kept();
        let count = self.store.count();
        if count >= self.store.config().limits.max_conns as usize {
            return Opened::Full(count as u64);
        }
        let conn = count as u32 + 1;
        self.store.add_conn(conn, listener);
        enter(&mut self.history, Entry::Opened { conn, listener });
        Opened::Conn(conn)
    }

    /// Makes a call of a live connection, whose stub had so many bytes. A full history is left as it was. A call that
    /// is entered may be answered that memory ran out, where its operation lets it. A change of rows is committed to
    /// the keeper first; where that fails the call is answered STATUS_INTERNAL_DB_ERROR and changes nothing.
    pub fn act(&mut self, conn: u32, call: Call, bytes: u32) -> Acted
        requires live { is_live conn (state_of self.old.past).conns ≡ true }
        requires spelled { IsCall call }
        ensures keeper { Commits self.old conn call bytes result self.new }
        ensures acts { Acts self.old.past conn call bytes result self.new.past }
        ensures live { SameLive (state_of self.old.past) (state_of self.new.past) }
        ensures calls { ActsCalls self.old.past conn call bytes result self.new.past }
        ensures shaped { Shaped call result }
        ensures frugal { Frugal self.old.past conn call bytes result self.new.past }
        ensures legal { Legal self.new.past.start self.new.past.history }
        ensures stored { Stored self.new }
    {
        kept_states_are_sound();
        replies_are_shaped();
        limits_are_kept();
        self.store.rows().has_few_rows();
        let limits = self.store.config().limits;
        if self.calls >= limits.max_calls {
            drop(call);
            return Acted::FullCalls(self.calls as u64);
        }
        let sum = self.bytes + bytes as u64;
        if sum > limits.max_bytes {
            drop(call);
            return Acted::FullBytes(sum);
        }
        let (verdict, reply) = self.store.run(self.alloc, &mut self.keeper, conn, &call);
        let entry = Entry::Called {
            conn,
            call,
            verdict,
            bytes,
        };
        enter(&mut self.history, entry);
        self.calls += 1;
        self.bytes = sum;
        Acted::Reply(reply)
    }

    /// Ends a live connection, with its handles. It takes no memory.
    pub fn gone(&mut self, conn: u32)
        requires { is_live conn (state_of self.old.past).conns ≡ true }
        ensures keeper { self.new.keeper ≡ self.old.keeper }
        ensures ends { Ends self.old.past conn self.new.past }
        ensures live { OneLessLive (state_of self.old.past) (state_of self.new.past) conn }
        ensures calls { SameCalls self.old.past self.new.past }
        ensures legal { Legal self.new.past.start self.new.past.history }
        ensures stored { Stored self.new }
    {
        limits_are_kept();
        enter(&mut self.history, Entry::Gone { conn });
        self.store.end_conn(conn);
    }

    /// Takes the first row of the outbox out, if it has this number: its removal is committed to the keeper, and then
    /// entered. The room for calls and for ends of connections stays.
    pub fn hooked(&mut self, number: u64) -> HookedEnd
        requires { has_hook self.old.past.start.config ≡ true }
        ensures start { self.new.past.start ≡ self.old.past.start }
        ensures hooks { Hooks self.old.past result number self.new.past }
        ensures keeper { HookCommits self.old.keeper result self.new.keeper }
        ensures live { SameLive (state_of self.old.past) (state_of self.new.past) }
        ensures calls { SameCalls self.old.past self.new.past }
        ensures legal { Legal self.new.past.start self.new.past.history }
        ensures stored { Stored self.new }
    {
        kept_states_are_sound();
        limits_are_kept();
        let Some(first) = least_out(self.store.rows()) else {
            return HookedEnd::Past(0);
        };
        if first != number {
            return HookedEnd::Past(first);
        }
        let more = hook_room(&self.store.config().limits, self.calls, self.store.count());
        if self.history.reserve(more).is_err() {
            return HookedEnd::NoMemory;
        }
        match self.store.take_out(self.alloc, &mut self.keeper, number) {
            Ok(()) => {
                enter(&mut self.history, Entry::Hooked { number });
                HookedEnd::Done
            }
            Err(KeepError::Failed) => HookedEnd::StoreFault(self.keeper.faults()),
            Err(KeepError::NoMemory) => HookedEnd::NoMemory,
        }
    }

    /// The object of a connection's handle and the access that its opening granted, if the connection has a handle of
    /// that number. It takes no memory.
    pub fn grant_of(&self, conn: u32, handle: &Handle) -> Option<(Object, u32)>
        ensures { result ≡ given (state_of self.now.past) conn handle.now.number }
    {
        given(&self.store, conn, handle.number)
    }

    /// The bits that a call needs of the grant of its handle; 0 where it brings no handle. It takes no memory.
    pub fn needed(&self, call: &Call) -> u32
        ensures { result ≡ needed_of (state_of self.now.past) call.now }
    {
        needed(&self.store, call)
    }

    /// The handle that a call of a connection brings, where it brings one and the check lets it pass: the handle is of
    /// that connection, its object is of a kind that the operation takes, and its grant has each bit that is needed.
    /// It takes no memory.
    pub fn passed_handle(&self, conn: u32, call: &Call) -> Option<Held>
        ensures { result ≡ passed_handle (state_of self.now.past) conn call.now }
    {
        passed_handle(&self.store, conn, call)
    }

    /// The last handle that a connection was given, whether it is still there or not; before the first the one of its
    /// serial 0, which no connection has. It takes no memory.
    pub fn last_handle(&self, conn: u32) -> Handle
        ensures { result.number ≡ number_of conn (last_serial conn (state_of self.now.past).conns) }
    {
        Handle {
            number: self.store.last_number(conn),
        }
    }
}
