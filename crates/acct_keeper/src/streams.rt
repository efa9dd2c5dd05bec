// What the server reads from and writes to.
ghost use Rattle.std.specs.Prelude.{◌≡◌, ◌<◌, ◌||◌, Bool, List, ℕ, length, is_err, IfOk};
ghost use Rattle.std.specs.declared.option.Option.{Option};
ghost use Rattle.std.specs.Io.{ReadsAtMost, WritesAtMost};
ghost use Rattle.std.specs.Io.KnownBytes.{ReadConsumes, WriteAppends};
ghost use Rattle.acct_keeper.specs.Faults.{HasCause, faults_after};
ghost use Rattle.acct_keeper.specs.Ends.{answers_end};

use thiserror::Error;

/// What a call answers whose object's count of faults has risen.
#[derive(Clone, Copy, Debug, PartialEq, Eq, Error)]
#[error("what is outside failed")]
pub struct Failed;

/// Where bytes come from. A source in memory tells what it has left, a real one doesn't.
pub trait Source {
    /// The bytes that are left, where they are told.
    ghost left: { Self → Option (List ℕ) };

    /// Whether a read has answered the end.
    ghost ended: { Self → Bool };

    /// How many reads have failed. The count stops at 2^64 - 1.
    ghost faults: { Self → ℕ };

    /// Reads some bytes into the start of a buffer, and answers how many; none into a buffer with room is the end. A
    /// read that fails moves nothing.
    fn read(&mut self, buf: &mut [u8]) -> Result<usize, Failed>
        ensures bound { ReadsAtMost result buf.new }
        ensures bytes { ReadConsumes (left self.old) (left self.new) result buf.new }
        ensures end { ended self.new ≡ (ended self.old || answers_end result buf.new) }
        ensures cause { HasCause (faults self.old) (faults self.new) result }
        ensures count { faults self.new ≡ faults_after (is_err result) (faults self.old) };
}

/// Where bytes go. A sink in memory tells what it holds, a real one doesn't.
pub trait Sink {
    /// The bytes that were taken, where they are told.
    ghost held: { Self → Option (List ℕ) };

    /// How many writes have failed. The count stops at 2^64 - 1.
    ghost faults: { Self → ℕ };

    /// Takes some bytes from the beginning of a piece, at least one where there is one, and answers how many. A write
    /// that fails takes nothing.
    fn write(&mut self, bytes: &[u8]) -> Result<usize, Failed>
        ensures bound { WritesAtMost result bytes.now }
        ensures some { IfOk result (λ n. 0 < length bytes.now → 0 < n) }
        ensures bytes { WriteAppends (held self.old) (held self.new) result bytes.now }
        ensures cause { HasCause (faults self.old) (faults self.new) result }
        ensures count { faults self.new ≡ faults_after (is_err result) (faults self.old) };
}
