// A machine with the connections of a replay.
ghost use Rattle.std.specs.Prelude.{◌≡◌, ◌⊎◌, ◌+◌, ◌≤◌, ◌<◌, ◌^◌, ℕ, true, false, [], ◌++◌, ◌∷◌, if◌then◌else◌};
ghost use Rattle.std.specs.Prelude.{List, length, Some, None, Ok, Err, OnOk, OnErr, IfOk, IfErr, IfSome, IsSome};
ghost use Rattle.std.specs.Prelude.{slice_get, map, All, option_map};
ghost use Rattle.std.specs.List.{flat_map};
ghost use Rattle.acct_machine.specs.Outbox.{HoldsRows, AreCounted};
ghost use Rattle.acct_machine.specs.State.{Start, is_live};
ghost use Rattle.acct_machine.specs.declared.entry.Entry.{Entry};
ghost use Rattle.acct_machine.specs.Machine.{state_of, with_entry};
ghost use Rattle.acct_machine.specs.Legal.{Legal};
ghost use Rattle.acct_machine.specs.declared.entry.Entry.TheVariants.{Gone};
ghost use Rattle.rpc_session.specs.Sessions.{is_going};
ghost use Rattle.rpc_session.specs.Acts.{IsFit};
ghost use Rattle.acct_server.specs.declared.events.LineError.TheVariants.{NoMemory, Refused};
ghost use Rattle.link_sessions.specs.declared.connections.Peer.TheVariants as peer;
ghost use Rattle.acct_server.specs.Events.{DataFits};
ghost use Rattle.link_sessions.specs.Sessions.{closing_of};
ghost use Rattle.link_sessions.specs.Connections.{is_served};
ghost use Rattle.acct_server.specs.Replayed.{IsClosed, IsGone, FoundFull, peer_of, with_peer};
ghost use Rattle.acct_server.specs.Replayed.{number_of, served_from, ending, line_bytes, listener_from, on_open};
ghost use Rattle.acct_server.specs.Replayed.{on_acts, on_data, on_end, on_event, on_line};
ghost use Rattle.acct_server.specs.steps.Running.{standing, AllHeard, DoesActs, Began, Hears, IsClosing, DoesLine};
ghost use Rattle.acct_server.specs.steps.Running.{Refuses, MayStop, peers_behind, Answered, AnsweredToFull, Closes};

use crate::events::{Event, LineError, event_of};
use crate::out_lines::OutLines;
use crate::printing::{closed_line, full_line, gone_line};
use acct_base::is_same;
use acct_machine::{Entry, Keeper, Listener, Machine, Opened, Rows};
use link_sessions::{Gate, Peer, Stop, answer_all, closing, heard, is_served, new_peer};
use rpc_session::{Act, calls_fit, refusals_are_last, room_by_length, streams_are_cut_anywhere};
use std::alloc::{AllocError, Global};
use std::marker::Model;

// The place of the listener of a name.
fn listener_place(listeners: &[Listener], name: &[u8]) -> Option<u32>
    requires { length listeners.now ≤ 16 }
    ensures place { result ≡ listener_from 0 name.now listeners.now }
    ensures within { IfSome result (λ place. place < length listeners.now) }
{
    for i in 0..listeners.len() {
        if is_same(listeners[i].name.as_str().as_bytes(), name) {
            return Some(i as u32);
        }
    }
    None
}

// The line of a connection, if it is served.
fn push_gone(lines: &mut Vec<u8>, alloc: Global, conn: u32, served: bool) -> Result<(), AllocError>
    ensures { OnOk result (lines.new.items
        ≡ lines.old.items ++ flat_map line_bytes (map IsGone (if served then conn ∷ [] else []))) }
{
    if served {
        lines.extend_from_slice(&gone_line(alloc, conn)?)?;
    }
    Ok(())
}

// The lines of the connections that are served.
fn gone_lines(alloc: Global, peers: &[Peer]) -> Result<Vec<u8>, AllocError>
    requires { length peers.now < 2 ^ 32 }
    ensures { IfOk result (λ lines. lines.items ≡ flat_map line_bytes (map IsGone (served_from 1 peers.now))) }
{
    let mut lines = Vec::new(alloc);
    for i in 0..peers.len() {
        push_gone(&mut lines, alloc, i as u32 + 1, is_served(&peers[i]))?;
    }
    Ok(lines)
}

/// What an event prints, and where it found the history full, what the history has.
#[derive(Debug, Drop)]
pub struct Ran {
    pub output: Vec<u8>,
    pub full: Option<u64>,
}

/// A machine, and how each connection of the replay stands.
#[derive(Drop)]
pub struct Run<K: Keeper + Drop> {
    machine: Machine<K>,
    peers: Vec<Peer>,
}

impl<K: Keeper + Drop> Model for Run<K> {
    ghost use Rattle.acct_machine.specs.Step.{state_at};
    ghost use Rattle.acct_server.specs.steps.Running.{Running, Ties};

    ghost Value = { Running };

    ghost view = { λ r. record { machine = r.machine.past; peers = r.peers.items } };

    ghost invariant = { λ r. Ties r.peers.items (state_at r.machine.past.start r.machine.past.history) };
}

impl<K: Keeper + Drop> Run<K> {
    /// A run on a machine to which nothing has happened.
    pub fn new(alloc: Global, machine: Machine<K>) -> Run<K>
        requires { machine.past.history ≡ [] }
        ensures { result ≡ record { machine = machine.past; peers = [] } }
    {
        Run {
            machine,
            peers: Vec::new(alloc),
        }
    }

    /// The rows from which the machine's history began, the history, the rows of the state after it, and the keeper,
    /// which holds their pairs, if it tells.
    pub fn into_parts(self) -> (Rows, Vec<Entry>, Rows, K)
        ensures opening { result.0.lists ≡ self.machine.start.rows }
        ensures history { result.1.items ≡ self.machine.history }
        ensures rows { result.2.lists ≡ (state_of self.machine).rows }
        ensures legal { Legal self.machine.start result.1.items }
        ensures stored { HoldsRows (K.held result.3) result.2.lists }
        ensures counts { AreCounted (K.faults result.3) self.machine.start result.1.items }
    {
        self.machine.into_parts()
    }

    // How a connection stands, by its number.
    fn peer(&self, conn: u32) -> Option<&Peer>
        ensures value { option_map (λ peer. peer.now) result ≡ peer_of conn self.now.peers }
    {
        if conn == 0 {
            return None;
        }
        self.peers.get(conn as usize - 1)
    }

    fn open(&mut self, alloc: Global, conn: u32, name: &[u8]) -> Result<Ran, LineError>
        ensures does { IfOk result (λ ran. DoesLine (λ verdicts. on_open (standing self.old) conn name.now) self.old
            ran.output.items ran.full self.new) }
        ensures refused { result ≡ Err Refused
            → Refuses (λ verdicts. on_open (standing self.old) conn name.now) self.old self.new }
        ensures start { self.new.machine.start ≡ self.old.machine.start }
        ensures memory { result ≡ Err NoMemory → self.new.machine.history ≡ self.old.machine.history }
        ensures hears { (most : ℕ) → AllHeard most self.old.peers → OnOk result (AllHeard most self.new.peers) }
    {
        let listeners = self.machine.config().listeners.as_slice();
        let Some(listener) = listener_place(listeners, name) else {
            return Err(LineError::Refused);
        };
        if conn as usize != self.peers.len() + 1 {
            return Err(LineError::Refused);
        }
        self.peers.reserve(1)?;
        match Gate::open_conn(&mut self.machine, listener) {
            Opened::Conn(_) => {
                self.peers.push_reserved(new_peer(alloc, conn));
                Ok(Ran {
                    output: Vec::new(alloc),
                    full: None,
                })
            }
            Opened::Full(count) => Ok(Ran {
                output: full_line(alloc, conn)?,
                full: Some(count),
            }),
        }
    }

    // Ends a connection that is live. It takes no memory.
    fn end_live(&mut self, conn: u32)
        requires live { is_live conn (state_of self.old.machine).conns ≡ true }
        requires there { IsSome (peer_of conn self.old.peers) }
        ensures machine { self.new.machine ≡ with_entry self.old.machine (Gone conn) }
        ensures peers { self.new.peers ≡ with_peer conn peer.Ended self.old.peers }
    {
        self.machine.gone(conn);
        self.peers[conn as usize - 1] = Peer::Ended;
    }

    // Ends a connection that is served. It takes no memory.
    fn end_served(&mut self, conn: u32)
        requires served { is_served (peer_of conn self.old.peers) ≡ true }
        ensures machine { self.new.machine ≡ with_entry self.old.machine (Gone conn) }
        ensures peers { self.new.peers ≡ with_peer conn peer.Ended self.old.peers }
    {
        // Naming a field opens the run for its proof: that a served connection is live is what a run keeps.
        let _ = &self.machine;
        self.end_live(conn);
    }

    // Acts are answered, one after the other, up to one that finds the history full. The lines of the answers are added
    // to those that were there.
    fn answer(
        &mut self,
        alloc: Global,
        conn: u32,
        acts: &[Act],
        out: &mut OutLines,
    ) -> Result<(), Stop>
        requires live { is_live conn (state_of self.old.machine).conns ≡ true }
        requires fits { All IsFit acts.now }
        requires closed { (i : ℕ) → IsClosing (is_served (peer_of conn self.old.peers)) i (length acts.now)
            (slice_get acts.now i) }
        requires conn { out.old.conn ≡ conn }
        requires whole { out.old.is_cut ≡ false }
        ensures ok { OnOk result (Answered conn self.old.machine.start acts.now self.old.machine.history
            self.new.machine.history out.old.lines.items out.new.lines.items (closing_of acts.now)) }
        ensures full { IfErr result (λ why. out.new.is_cut ≡ false → AnsweredToFull conn self.old.machine.start
            acts.now self.old.machine.history self.new.machine.history out.old.lines.items out.new.lines.items why) }
        ensures began { Began
            (λ verdicts. on_acts self.old.machine.start verdicts self.old.machine.history conn acts.now)
            self.old.machine.history self.new.machine.history }
        ensures live { is_live conn (state_of self.new.machine).conns ≡ true }
        ensures peers { self.new.peers ≡ self.old.peers }
        ensures start { self.new.machine.start ≡ self.old.machine.start }
    {
        answer_all(alloc, out, &mut self.machine, conn, acts)
    }

    // A call found the history full: its connection is gone.
    fn refuse(&mut self, alloc: Global, conn: u32, lines: &mut Vec<u8>) -> Result<(), AllocError>
        requires live { is_live conn (state_of self.old.machine).conns ≡ true }
        requires there { IsSome (peer_of conn self.old.peers) }
        ensures machine { OnOk result (self.new.machine ≡ with_entry self.old.machine (Gone conn)) }
        ensures peers { OnOk result (self.new.peers ≡ with_peer conn peer.Ended self.old.peers) }
        ensures lines { OnOk result (lines.new.items ≡ lines.old.items ++ line_bytes (FoundFull conn)) }
        ensures err { OnErr result (self.new ≡ self.old) }
    {
        lines.extend_from_slice(&full_line(alloc, conn)?)?;
        self.end_live(conn);
        Ok(())
    }

    // A refusal: the connection is gone.
    fn close(
        &mut self,
        alloc: Global,
        conn: u32,
        place: u64,
        cause: u8,
        lines: &mut Vec<u8>,
    ) -> Result<(), AllocError>
        requires live { is_live conn (state_of self.old.machine).conns ≡ true }
        requires closed { is_served (peer_of conn self.old.peers) ≡ false }
        ensures machine { OnOk result (self.new.machine ≡ with_entry self.old.machine (Gone conn)) }
        ensures lines { OnOk result (lines.new.items ≡ lines.old.items ++ line_bytes (IsClosed conn place cause)) }
        ensures peers { self.new.peers ≡ self.old.peers }
        ensures err { OnErr result (self.new ≡ self.old) }
    {
        lines.extend_from_slice(&closed_line(alloc, conn, place, cause)?)?;
        self.machine.gone(conn);
        Ok(())
    }

    // After acts that were answered, whose last one may be a refusal.
    fn close_behind(
        &mut self,
        alloc: Global,
        conn: u32,
        acts: &[Act],
        lines: &mut Vec<u8>,
    ) -> Result<(), AllocError>
        requires live { is_live conn (state_of self.old.machine).conns ≡ true }
        requires closed { (i : ℕ) → IsClosing (is_served (peer_of conn self.old.peers)) i (length acts.now)
            (slice_get acts.now i) }
        ensures acts { (start : Start) (before : List Entry) (old : List ℕ) → Answered conn start acts.now before
            self.old.machine.history old lines.old.items (closing_of acts.now) → OnOk result (DoesActs
            (λ verdicts. on_acts start verdicts before conn acts.now) before self.new.machine.history old
            lines.new.items None) }
        ensures peers { self.new.peers ≡ self.old.peers }
        ensures start { self.new.machine.start ≡ self.old.machine.start }
        ensures err { OnErr result (self.new ≡ self.old) }
    {
        match closing(acts) {
            Some((place, cause)) => self.close(alloc, conn, place, cause, lines),
            None => Ok(()),
        }
    }

    // What acts of a connection that is live do, one after the other, up to one that finds the history full.
    fn act_on(&mut self, alloc: Global, conn: u32, acts: &[Act]) -> Result<Ran, AllocError>
        requires live { is_live conn (state_of self.old.machine).conns ≡ true }
        requires there { IsSome (peer_of conn self.old.peers) }
        requires fits { All IsFit acts.now }
        requires closed { (i : ℕ) → IsClosing (is_served (peer_of conn self.old.peers)) i (length acts.now)
            (slice_get acts.now i) }
        ensures acts { IfOk result (λ ran. DoesActs
            (λ verdicts. on_acts self.old.machine.start verdicts self.old.machine.history conn acts.now)
            self.old.machine.history self.new.machine.history [] ran.output.items ran.full) }
        ensures began { OnErr result (Began
            (λ verdicts. on_acts self.old.machine.start verdicts self.old.machine.history conn acts.now)
            self.old.machine.history self.new.machine.history) }
        ensures peers { IfOk result (λ ran. self.new.peers ≡ peers_behind ran.full conn self.old.peers) }
        ensures start { self.new.machine.start ≡ self.old.machine.start }
    {
        let mut out = OutLines::new(alloc, conn);
        let answered = self.answer(alloc, conn, acts, &mut out);
        let OutLines {
            mut lines,
            is_cut,
            ..
        } = out;
        match answered {
            Ok(()) => {
                self.close_behind(alloc, conn, acts, &mut lines)?;
                Ok(Ran {
                    output: lines,
                    full: None,
                })
            }
            Err(Stop::Full(count)) if !is_cut => {
                self.refuse(alloc, conn, &mut lines)?;
                Ok(Ran {
                    output: lines,
                    full: Some(count),
                })
            }
            Err(_) => Err(AllocError),
        }
    }

    // What acts do. Where there is none the connection need not be live.
    fn act_all(&mut self, alloc: Global, conn: u32, acts: &[Act]) -> Result<Ran, AllocError>
        requires live { 0 < length acts.now → is_live conn (state_of self.old.machine).conns ≡ true }
        requires there { IsSome (peer_of conn self.old.peers) }
        requires fits { All IsFit acts.now }
        requires closed { (i : ℕ) → IsClosing (is_served (peer_of conn self.old.peers)) i (length acts.now)
            (slice_get acts.now i) }
        ensures acts { IfOk result (λ ran. DoesActs
            (λ verdicts. on_acts self.old.machine.start verdicts self.old.machine.history conn acts.now)
            self.old.machine.history self.new.machine.history [] ran.output.items ran.full) }
        ensures began { OnErr result (Began
            (λ verdicts. on_acts self.old.machine.start verdicts self.old.machine.history conn acts.now)
            self.old.machine.history self.new.machine.history) }
        ensures peers { IfOk result (λ ran. self.new.peers ≡ peers_behind ran.full conn self.old.peers) }
        ensures start { self.new.machine.start ≡ self.old.machine.start }
    {
        if acts.is_empty() {
            return Ok(Ran {
                output: Vec::new(alloc),
                full: None,
            });
        }
        self.act_on(alloc, conn, acts)
    }

    // The acts that bytes complete, or that the connection wasn't opened or was ended.
    fn hear(&mut self, alloc: Global, conn: u32, bytes: &[u8]) -> Result<Vec<Act>, LineError>
        requires heard { AllHeard (2 ^ 32) self.old.peers }
        requires short { length bytes.now ≤ 2 ^ 32 }
        ensures acts { IfOk result (λ acts. Hears conn bytes.now self.old acts.items self.new) }
        ensures live { IfOk result (λ acts. 0 < length acts.items → is_live conn (state_of self.new.machine).conns
            ≡ true) }
        ensures fits { IfOk result (λ acts. All IsFit acts.items) }
        ensures closed { IfOk result (λ acts. (i : ℕ)
            → IsClosing (is_served (peer_of conn self.new.peers)) i (length acts.items) (slice_get acts.items i)) }
        ensures hears { (most : ℕ) → AllHeard most self.old.peers
            → OnOk result (AllHeard (most + length bytes.now) self.new.peers) }
        ensures refused { result ≡ Err Refused
            → Refuses (λ verdicts. on_data verdicts (standing self.old) conn bytes.now (peer_of conn self.old.peers))
            self.old self.new }
        ensures machine { self.new.machine ≡ self.old.machine }
    {
        calls_fit();
        refusals_are_last();
        streams_are_cut_anywhere();
        room_by_length();
        let Some(Peer::Open(_)) = self.peer(conn) else {
            return Err(LineError::Refused);
        };
        match &mut self.peers[conn as usize - 1] {
            Peer::Open(stream) => Ok(heard(alloc, stream, bytes)?),
            Peer::Ended => unreachable!(),
        }
    }

    // Bytes that come on a connection.
    fn data(&mut self, alloc: Global, conn: u32, bytes: &[u8]) -> Result<Ran, LineError>
        requires heard { AllHeard (2 ^ 32) self.old.peers }
        requires short { length bytes.now ≤ 2 ^ 32 }
        ensures does { IfOk result (λ ran. DoesLine
            (λ verdicts. on_data verdicts (standing self.old) conn bytes.now (peer_of conn self.old.peers)) self.old
            ran.output.items ran.full self.new) }
        ensures refused { result ≡ Err Refused
            → Refuses (λ verdicts. on_data verdicts (standing self.old) conn bytes.now (peer_of conn self.old.peers))
            self.old self.new }
        ensures start { self.new.machine.start ≡ self.old.machine.start }
        ensures memory { result ≡ Err NoMemory
            → MayStop (λ verdicts. on_data verdicts (standing self.old) conn bytes.now (peer_of conn self.old.peers))
            self.old self.new }
        ensures hears { (most : ℕ) → AllHeard most self.old.peers
            → OnOk result (AllHeard (most + length bytes.now) self.new.peers) }
    {
        let acts = self.hear(alloc, conn, bytes)?;
        Ok(self.act_all(alloc, conn, &acts)?)
    }

    // Ends a connection, if it is served.
    fn end_if_served(&mut self, conn: u32)
        ensures history { self.new.machine.history
            ≡ self.old.machine.history ++ map Gone (number_of conn (peer_of conn self.old.peers)) }
        ensures start { self.new.machine.start ≡ self.old.machine.start }
        ensures peers { (self.new.peers ≡ self.old.peers)
            ⊎ (self.new.peers ≡ with_peer conn peer.Ended self.old.peers) }
    {
        if self.peer(conn).is_some_and(|peer| is_served(peer)) {
            self.end_served(conn);
        }
    }

    // Ends a connection that was opened and not ended.
    fn end(&mut self, alloc: Global, conn: u32) -> Result<Ran, LineError>
        ensures does { IfOk result (λ ran. DoesLine
            (λ verdicts. on_end (standing self.old) conn (peer_of conn self.old.peers))
            self.old ran.output.items ran.full self.new) }
        ensures refused { result ≡ Err Refused
            → Refuses (λ verdicts. on_end (standing self.old) conn (peer_of conn self.old.peers)) self.old self.new }
        ensures start { self.new.machine.start ≡ self.old.machine.start }
        ensures memory { result ≡ Err NoMemory → self.new.machine.history ≡ self.old.machine.history }
        ensures hears { (most : ℕ) → AllHeard most self.old.peers → OnOk result (AllHeard most self.new.peers) }
    {
        let Some(Peer::Open(stream)) = self.peer(conn) else {
            return Err(LineError::Refused);
        };
        let mut lines = Vec::new(alloc);
        push_gone(&mut lines, alloc, conn, stream.is_going())?;
        self.end_if_served(conn);
        self.peers[conn as usize - 1] = Peer::Ended;
        Ok(Ran {
            output: lines,
            full: None,
        })
    }

    // What a line says.
    fn event(&mut self, alloc: Global, event: Event) -> Result<Ran, LineError>
        requires heard { AllHeard (2 ^ 32) self.old.peers }
        requires short { DataFits (2 ^ 32) event }
        ensures does { IfOk result (λ ran. DoesLine (λ verdicts. on_event verdicts (standing self.old) (Some event))
            self.old ran.output.items ran.full self.new) }
        ensures refused { result ≡ Err Refused
            → Refuses (λ verdicts. on_event verdicts (standing self.old) (Some event)) self.old self.new }
        ensures start { self.new.machine.start ≡ self.old.machine.start }
        ensures memory { result ≡ Err NoMemory
            → MayStop (λ verdicts. on_event verdicts (standing self.old) (Some event)) self.old self.new }
        ensures hears { (most : ℕ) → (more : ℕ) → AllHeard most self.old.peers → DataFits more event
            → OnOk result (AllHeard (most + more) self.new.peers) }
    {
        match event {
            Event::Nothing => Ok(Ran {
                output: Vec::new(alloc),
                full: None,
            }),
            Event::Open { conn, listener } => self.open(alloc, conn, listener.as_slice()),
            Event::Data { conn, bytes } => self.data(alloc, conn, bytes.as_slice()),
            Event::End { conn } => self.end(alloc, conn),
        }
    }

    /// Runs a line of the events, and gives what it prints. A line that is refused changes nothing; after NoMemory the
    /// first of the entries of the line stand. Each connection has heard at most 2^32 bytes.
    #[tactic(auto, unfolding(crate::specs::Replayed::on_line))]
    pub fn line(&mut self, alloc: Global, line: &[u8]) -> Result<Ran, LineError>
        requires heard { AllHeard (2 ^ 32) self.old.peers }
        requires short { length line.now < 2 ^ 32 }
        ensures does { IfOk result (λ ran. DoesLine (λ verdicts. on_line verdicts (standing self.old) line.now) self.old
            ran.output.items ran.full self.new) }
        ensures refused { result ≡ Err Refused
            → Refuses (λ verdicts. on_line verdicts (standing self.old) line.now) self.old self.new }
        ensures start { self.new.machine.start ≡ self.old.machine.start }
        ensures memory { result ≡ Err NoMemory
            → MayStop (λ verdicts. on_line verdicts (standing self.old) line.now) self.old self.new }
        ensures hears { (most : ℕ) → AllHeard most self.old.peers
            → OnOk result (AllHeard (most + length line.now) self.new.peers) }
    {
        let event = event_of(alloc, line)?;
        self.event(alloc, event)
    }

    // Ends the connections that are served, in ascending order.
    fn end_all(&mut self)
        ensures history { self.new.machine.history ≡ self.old.machine.history ++ (ending (standing self.old)).entries }
        ensures start { self.new.machine.start ≡ self.old.machine.start }
    {
        for i in 0..self.peers.len() {
            self.end_if_served(i as u32 + 1);
        }
    }

    /// Ends the connections that are still served, in ascending order, and gives the lines that say so. After NoMemory
    /// nothing has changed.
    pub fn finish(&mut self, alloc: Global) -> Result<Vec<u8>, AllocError>
        ensures closes { IfOk result (λ output. Closes self.old output.items self.new) }
        ensures start { self.new.machine.start ≡ self.old.machine.start }
        ensures memory { OnErr result (self.new ≡ self.old) }
    {
        let lines = gone_lines(alloc, &self.peers)?;
        self.end_all();
        Ok(lines)
    }
}
