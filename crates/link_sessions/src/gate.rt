// How calls reach the one machine.
ghost use Rattle.std.specs.Prelude.{◌≡◌, ◌<◌, ℕ, List, length};
ghost use Rattle.acct_machine.specs.State.{Start};
ghost use Rattle.acct_machine.specs.declared.entry.Entry.{Entry};
ghost use Rattle.acct_machine.specs.declared.machine.Opened.{Opened};
ghost use Rattle.acct_machine.specs.Access.{IsCall};
ghost use Rattle.acct_machine.specs.Machine.{Shaped};
ghost use Rattle.acct_machine.specs.Passing.{KeepsConnection};
ghost use Rattle.link_sessions.specs.Turns.{Turn, MachineOpens, MachineActs, MachineEnds, HasNoCall, IfConn};
ghost use Rattle.link_sessions.specs.Transcript.{IsFrontOf};

use acct_machine::{Acted, Call, Opened};

/// One way to the machine: the machine itself, or a turn of its lock. What it knows of the history grows with its own
/// turns alone; the clauses are the machine's, for the history that the turn itself finds.
pub trait Gate {
    /// Where the history of the machine begins.
    ghost start: { Self → Start };

    /// What is known of the history: a prefix of it.
    ghost known: { Self → List Entry };

    /// The histories that a turn may find.
    ghost finds: { Self → List Entry → Type 0 };

    /// The connection is live, and no other gate makes calls on it.
    ghost serves: { Self → ℕ → Type 0 };

    /// What turns on one connection do to the gate besides.
    ghost moves: { Self → ℕ → Self → Type 0 };

    /// It may open connections.
    ghost ready: { Self → Type 0 };

    /// What an opening does to the gate besides.
    ghost opens: { Self → Opened → Self → Type 0 };

    /// Opens a connection at a listener, by its place in the configuration from 0. It has made no call yet.
    fn open_conn(&mut self, listener: u32) -> Opened
        requires ready { ready self.old }
        requires configured { listener < length (start self.old).config.listeners }
        ensures turn { Turn (finds self.old) (MachineOpens (start self.old) listener result) (known self.new) }
        ensures served { IfConn result (serves self.new) }
        ensures silent { IfConn result (HasNoCall (start self.new) (known self.new)) }
        ensures ready { ready self.new }
        ensures opens { opens self.old result self.new }
        ensures start { start self.new ≡ start self.old };

    /// Makes a call of a connection, whose stub had so many bytes.
    fn act(&mut self, conn: u32, call: Call, bytes: u32) -> Acted
        requires serves { serves self.old conn }
        requires spelled { IsCall call }
        ensures turn { Turn (finds self.old) (MachineActs (start self.old) conn call bytes result) (known self.new) }
        ensures shaped { Shaped call result }
        ensures serves { serves self.new conn }
        ensures moves { moves self.old conn self.new }
        ensures start { start self.new ≡ start self.old };

    /// Ends a connection. It takes no memory.
    fn gone(&mut self, conn: u32)
        requires serves { serves self.old conn }
        ensures turn { Turn (finds self.old) (MachineEnds (start self.old) conn) (known self.new) }
        ensures moves { moves self.old conn self.new }
        ensures start { start self.new ≡ start self.old };

    /// What is known is a prefix of each history that a turn finds.
    ghost fronts: { (g : Self) (found : List Entry) → finds g found → IsFrontOf (known g) found };

    /// Whatever is said of a connection that it serves is in a history that a turn finds as it is in what is known.
    ghost passes: { (g : Self) (k : ℕ) (found : List Entry) → serves g k → finds g found
        → KeepsConnection (start g) k (known g) found };

    ghost stays: { (g : Self) (k : ℕ) → moves g k g };

    ghost goes_on: { (a b c : Self) (k : ℕ) → moves a k b → moves b k c → moves a k c };
}
