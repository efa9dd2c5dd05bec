// A client: a log of connections, each with a lane of its own, and of notes in the home lane.
ghost use Rattle.std.specs.Prelude.{◌≡◌, ◌≢◌, ℕ, ◌+◌, ◌<◌, ◌++◌, [], ◌∷◌, length, slice_index_or, vec_len, true, false};
ghost use Rattle.std.specs.Prelude.{IfOk, OnOk, OnErr, MatchResult};
ghost use Rattle.hist_lock.specs.Lanes.{opens, within, home, names_none, names_lane, names_home, IsOfLane};
ghost use Rattle.hist_lock.specs.Histories.{At, In, Opened};
ghost use Rattle.hist_lock.specs.Views.{IsFirst};
ghost use Rattle.hist_lock.specs.Passes.{view, IsPassOf};

use hist_lock::{Closed, HistLock, Job, Kept, Pass};
use std::alloc::{AllocError, Global};
use std::sync::Wait;
use std::test::Fail;
use std::thread;
use std::thread::Threads;

#[derive(Clone, Copy)]
enum Entry {
    Opened { conn: u32 },
    Called { conn: u32, call: u32 },
    Noted { note: u32 },
}

impl Entry {
    fn is_of(&self, conn: u32) -> bool
        ensures { result ≡ false → IsOfLane (⟦<Log as Kept>⟧.lane self.now) conn → ⊥ }
    {
        match self {
            Entry::Opened { conn: of } => *of == conn,
            Entry::Called { conn: of, .. } => *of == conn,
            Entry::Noted { .. } => false,
        }
    }
}

#[derive(Drop)]
struct Log {
    entries: Vec<Entry>,
}

impl Log {
    fn has(&self, conn: u32) -> bool
        ensures { result ≡ false → (p : ℕ) (e : _) → At self.now.entries.items p e
            → IsOfLane (⟦<Log as Kept>⟧.lane e) conn → ⊥ }
    {
        for entry in &self.entries {
            if entry.is_of(conn) {
                return true;
            }
        }
        false
    }
}

impl Kept for Log {
    ghost use Rattle.server_vectors.specs.declared.tests.lock.connections.Entry.TheVariants as entry;

    type Entry = Entry;

    type Fixed = ();

    ghost entries = { λ log. log.entries.items };

    ghost fixed = { λ _. tt };

    ghost lane = { elim [
      | entry.Opened conn ↦ opens conn
      | entry.Called conn call ↦ within conn
      | entry.Noted note ↦
          home
    ] };

    fn entry_count(&self) -> usize {
        self.entries.len()
    }
}

// Opens a connection that no entry speaks of, and tells whether it did.
#[derive(Drop)]
struct Open {
    conn: u32,
}

impl Job<Log> for Open {
    ghost use Rattle.server_vectors.specs.declared.tests.lock.connections.Entry.TheVariants as entry;

    type Out = bool;

    ghost may = { λ _ _ _. Unit {0} };

    ghost does = { λ job _ before after out. out ≡ true → after ≡ before ++ entry.Opened job.conn ∷ [] };

    ghost names = { λ _. names_none };

    fn run(self, kept: &mut Log) -> bool {
        if kept.has(self.conn) {
            return false;
        }
        kept.entries.push(Entry::Opened { conn: self.conn }).is_ok()
    }
}

// A call with a number that is above those of all calls of the connection before.
#[derive(Drop)]
struct Call {
    conn: u32,
    call: u32,
}

impl Job<Log> for Call {
    ghost use Rattle.server_vectors.specs.declared.tests.lock.connections.Entry.TheVariants as entry;

    type Out = Result<(), AllocError>;

    ghost may = { λ job _ before. (p n : ℕ) → At before p (entry.Called job.conn n) → n < job.call };

    ghost does = { λ job _ before after out. MatchResult out
        (λ _. after ≡ before ++ entry.Called job.conn job.call ∷ []) (λ _. after ≡ before) };

    ghost names = { λ job. names_lane job.conn };

    fn run(self, kept: &mut Log) -> Result<(), AllocError> {
        let Call { conn, call } = self;
        kept.entries.push(Entry::Called { conn, call })?;
        Ok(())
    }
}

// A note, which only the first pass can make.
#[derive(Drop)]
struct Note {
    note: u32,
}

impl Job<Log> for Note {
    type Out = Result<(), AllocError>;

    ghost may = { λ _ _ _. Unit {0} };

    ghost does = { λ _ _ _ _ _. Unit {0} };

    ghost names = { λ _. names_home };

    fn run(self, kept: &mut Log) -> Result<(), AllocError> {
        kept.entries.push(Entry::Noted { note: self.note })?;
        Ok(())
    }
}

// Opens the connection with a new pass, unless some pass has, and tells whether it did.
fn open_conn<R: Wait>(rt: &R, lock: &HistLock<Log>, pass: &mut Pass<Log>, conn: u32) -> bool
    requires pass { IsPassOf lock.now pass.old }
    requires new { (view pass.old).own ≡ [] }
    ensures pass { IsPassOf lock.now pass.new }
    ensures number { (view pass.new).number ≡ (view pass.old).number }
    ensures opened { result ≡ true → Opened ⟦<Log as Kept>⟧.lane (view pass.new).own conn }
    ensures numbers { result ≡ true → (p n : ℕ) → In (view pass.new).own p (Entry.Called conn n) → n < 0 }
{
    lock.turn(rt, pass, Open { conn })
}

// The next call of the connection that the pass opened. Its numbers so far are below `next`.
fn call_next<R: Wait>(
    rt: &R,
    lock: &HistLock<Log>,
    pass: &mut Pass<Log>,
    conn: u32,
    next: u32,
) -> bool
    requires pass { IsPassOf lock.now pass.old }
    requires opened { Opened ⟦<Log as Kept>⟧.lane (view pass.old).own conn }
    requires numbers { (p n : ℕ) → In (view pass.old).own p (Entry.Called conn n) → n < next }
    ensures pass { IsPassOf lock.now pass.new }
    ensures number { (view pass.new).number ≡ (view pass.old).number }
    ensures opened { Opened ⟦<Log as Kept>⟧.lane (view pass.new).own conn }
    ensures numbers { (p n : ℕ) → In (view pass.new).own p (Entry.Called conn n) → n < next + 1 }
{
    lock.turn(rt, pass, Call { conn, call: next }).is_ok()
}

// Opens the connection, and makes twenty calls on it.
fn work<R: Wait>(rt: &R, lock: &HistLock<Log>, mut pass: Pass<Log>, conn: u32) -> Pass<Log>
    requires pass { IsPassOf lock.now pass }
    requires new { (view pass).own ≡ [] }
    ensures pass { IsPassOf lock.now result }
    ensures number { (view result).number ≡ (view pass).number }
{
    if !open_conn(rt, lock, &mut pass, conn) {
        return pass;
    }
    for call in 0..20 {
        call_next(rt, lock, &mut pass, conn, call);
    }
    pass
}

// A gate to the log: one contract for whatever stands for it.
trait Gate {
    ghost ready: { Self → Type 0 };

    ghost keeps: { Self → Self → Type 0 };

    fn call(&mut self) -> bool
        requires { ready self.old }
        ensures ready { ready self.new }
        ensures keeps { keeps self.old self.new };
}

// The gate of a lock and a pass.
#[derive(Drop)]
struct LockGate<'a, R: Wait> {
    rt: &'a R,
    lock: &'a HistLock<Log>,
    pass: Pass<Log>,
    conn: u32,
    next: u32,
}

impl<'a, R: Wait> Gate for LockGate<'a, R> {
    ghost use Rattle.server_vectors.specs.declared.tests.lock.connections.Entry.TheVariants as entry;

    ghost ready = { λ gate. IsPassOf gate.lock.now gate.pass
        × Opened ⟦<Log as Kept>⟧.lane (view gate.pass).own gate.conn
        × ((p n : ℕ) → In (view gate.pass).own p (entry.Called gate.conn n) → n < gate.next) };

    ghost keeps = { λ old new. (new.lock.now ≡ old.lock.now) × ((view new.pass).number ≡ (view old.pass).number) };

    fn call(&mut self) -> bool {
        if self.next == u32::MAX {
            return false;
        }
        let answer = call_next(self.rt, self.lock, &mut self.pass, self.conn, self.next);
        self.next += 1;
        answer
    }
}

fn call_through<G: Gate>(gate: &mut G) -> bool
    requires { G.ready gate.old }
    ensures ready { G.ready gate.new }
    ensures keeps { G.keeps gate.old gate.new }
{
    gate.call()
}

// The work of two threads.
fn work_both<R: Threads + Wait + Sync>(
    rt: &R,
    lock: &HistLock<Log>,
    one: Pass<Log>,
    two: Pass<Log>,
) -> (Pass<Log>, Pass<Log>)
    requires one { IsPassOf lock.now one × ((view one).own ≡ []) }
    requires two { IsPassOf lock.now two × ((view two).own ≡ []) }
    ensures one { IsPassOf lock.now result.0 × ((view result.0).number ≡ (view one).number) }
    ensures two { IsPassOf lock.now result.1 × ((view result.1).number ≡ (view two).number) }
{
    thread::join(
        rt,
        || -> Pass<Log>
            requires { IsPassOf lock.now one × ((view one).own ≡ []) }
            ensures { IsPassOf lock.entry.now result × ((view result).number ≡ (view one).number) }
        { work(rt, lock, one, 1) },
        || -> Pass<Log>
            requires { IsPassOf lock.now two × ((view two).own ≡ []) }
            ensures { IsPassOf lock.entry.now result × ((view result).number ≡ (view two).number) }
        { work(rt, lock, two, 2) },
    )
}

// Twenty notes by the first pass.
fn note_twenty<R: Wait>(rt: &R, lock: &HistLock<Log>, mut first: Pass<Log>) -> Pass<Log>
    requires { IsPassOf lock.now first × IsFirst (view first) }
    ensures pass { IsPassOf lock.now result × IsFirst (view result) }
    ensures counts { ((view result).made ≡ (view first).made) × ((view result).joined ≡ (view first).joined) }
{
    for note in 0..20 {
        let _ = lock.turn(rt, &mut first, Note { note });
    }
    first
}

// The work of one thread beside the notes of another.
fn work_and_note<R: Threads + Wait + Sync>(
    rt: &R,
    lock: &HistLock<Log>,
    three: Pass<Log>,
    first: Pass<Log>,
) -> (Pass<Log>, Pass<Log>)
    requires three { IsPassOf lock.now three × ((view three).own ≡ []) }
    requires first { IsPassOf lock.now first × IsFirst (view first) }
    ensures three { IsPassOf lock.now result.0 × ((view result.0).number ≡ (view three).number) }
    ensures first { IsPassOf lock.now result.1 × IsFirst (view result.1) }
    ensures counts { ((view result.1).made ≡ (view first).made) × ((view result.1).joined ≡ (view first).joined) }
{
    thread::join(
        rt,
        || -> Pass<Log>
            requires { IsPassOf lock.now three × ((view three).own ≡ []) }
            ensures { IsPassOf lock.entry.now result × ((view result).number ≡ (view three).number) }
        { work(rt, lock, three, 3) },
        || -> Pass<Log>
            requires { IsPassOf lock.now first × IsFirst (view first) }
            ensures { IsPassOf lock.entry.now result × IsFirst (view result)
                × ((view result).made ≡ (view first).made) × ((view result).joined ≡ (view first).joined) }
        { note_twenty(rt, lock, first) },
    )
}

#[test]
fn four_threads_keep_their_lanes(rt: HostRuntime) -> Result<(), Fail> {
    let log = Log {
        entries: Vec::new(rt.alloc()),
    };
    let Ok((lock, mut first)) = HistLock::new(rt.alloc(), log) else {
        panic!(&rt; "memory")
    };
    let one = lock.split(&mut first);
    let two = lock.split(&mut first);
    let three = lock.split(&mut first);
    let shared = &lock;
    let ((one, two), (three, mut first)) = thread::join(
        &rt,
        || -> (Pass<Log>, Pass<Log>)
            requires { IsPassOf shared.now one × IsPassOf shared.now two × ((view one).own ≡ [])
                × ((view two).own ≡ []) }
            ensures { IsPassOf shared.entry.now result.0 × IsPassOf shared.entry.now result.1
                × ((view result.0).number ≡ (view one).number) × ((view result.1).number ≡ (view two).number) }
        { work_both(&rt, shared, one, two) },
        || -> (Pass<Log>, Pass<Log>)
            requires { IsPassOf shared.now three × IsPassOf shared.now first × IsFirst (view first)
                × ((view three).own ≡ []) }
            ensures { IsPassOf shared.entry.now result.0 × IsPassOf shared.entry.now result.1
                × ((view result.0).number ≡ (view three).number) × IsFirst (view result.1) }
        { work_and_note(&rt, shared, three, first) },
    );
    lock.join(&mut first, one);
    lock.join(&mut first, two);
    lock.join(&mut first, three);
    let Closed::Whole(log) = lock.close(first) else {
        panic!(&rt; "a pass is missing")
    };
    let entries = log.entries.as_slice();
    assert_eq!(&rt; entries.len(), 83);
    for conn in 1..4 {
        assert!(&rt; is_in_order(entries, conn), "connection {conn}");
    }
    assert!(&rt; is_noted(entries));
    Ok(())
}

// The connection is opened, and then has its calls 0 to 19.
fn is_in_order(entries: &[Entry], of: u32) -> bool {
    let mut is_open = false;
    let mut next = 0u32;
    for entry in entries {
        match entry {
            Entry::Opened { conn } if *conn == of => {
                if is_open {
                    return false;
                }
                is_open = true;
            }
            Entry::Called { conn, call } if *conn == of => {
                if !is_open || *call != next {
                    return false;
                }
                next = next.wrapping_add(1);
            }
            _ => {}
        }
    }
    is_open && next == 20
}

// The notes are 0 to 19.
fn is_noted(entries: &[Entry]) -> bool {
    let mut next = 0u32;
    for entry in entries {
        if let Entry::Noted { note } = entry {
            if *note != next {
                return false;
            }
            next = next.wrapping_add(1);
        }
    }
    next == 20
}

#[test]
fn a_gate_calls_through_its_pass(rt: HostRuntime) -> Result<(), Fail> {
    let log = Log {
        entries: Vec::new(rt.alloc()),
    };
    let Ok((lock, mut first)) = HistLock::new(rt.alloc(), log) else {
        panic!(&rt; "memory")
    };
    let mut pass = lock.split(&mut first);
    if open_conn(&rt, &lock, &mut pass, 5) {
        let mut gate = LockGate {
            rt: &rt,
            lock: &lock,
            pass,
            conn: 5,
            next: 0,
        };
        assert!(&rt; call_through(&mut gate));
        assert!(&rt; call_through(&mut gate));
        let LockGate { pass, .. } = gate;
        lock.join(&mut first, pass);
    }
    let Closed::Whole(log) = lock.close(first) else {
        panic!(&rt; "a pass is missing")
    };
    assert_eq!(&rt; log.entries.len(), 3);
    Ok(())
}
