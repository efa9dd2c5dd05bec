// What takes the answers to a connection's acts.
ghost use Rattle.std.specs.Prelude.{ℕ, List, OnOk, OnErr};
ghost use Rattle.link_sessions.specs.Taking.{IsSent, IsSentInPart};

use acct_keeper::Failed;
use acct_links::{Link, send};

/// What takes the answers to a connection's acts, one by one, as a link does.
pub trait Taker {
    /// How it stands once it has taken an answer whole.
    ghost takes: { Self → List ℕ → Self → Type 0 };

    /// How it stands once it has failed at one.
    ghost fails: { Self → List ℕ → Self → Type 0 };

    /// Takes an answer.
    fn take(&mut self, bytes: &[u8]) -> Result<(), Failed>
        ensures ok { OnOk result (takes self.old bytes.now self.new) }
        ensures err { OnErr result (fails self.old bytes.now self.new) };
}

// Writes an answer, or a prefix of it where a write fails.
fn write<L: Link>(link: &mut L, bytes: &[u8]) -> Result<(), Failed>
    ensures ok { OnOk result (IsSent (L.told link.old) (L.told link.new) bytes.now) }
    ensures err { OnErr result (IsSentInPart (L.told link.old) (L.told link.new) bytes.now) }
{
    send(link, bytes)
}

impl<L: Link> Taker for L {
    ghost takes = { λ old bytes new. IsSent (L.told old) (L.told new) bytes };

    ghost fails = { λ old bytes new. IsSentInPart (L.told old) (L.told new) bytes };

    /// Writes it, or a prefix of it where a write fails.
    fn take(&mut self, bytes: &[u8]) -> Result<(), Failed> {
        write(self, bytes)
    }
}
