// A connection's bytes in both directions.
ghost use Rattle.std.specs.Prelude.{◌<◌, false, length, IfOk, OnOk, OnErr, is_err};
ghost use Rattle.std.specs.Io.{ReadsAtMost, WritesAtMost};
ghost use Rattle.acct_links.specs.Links.{Told, Reads, Writes, Sends, SendsFront, FaultsAre};

use acct_base::rest_of;
use acct_keeper::Failed;

/// A connection's bytes in both directions. A link in memory tells them, a real one doesn't.
pub trait Link {
    /// What it tells.
    ghost told: { Self → Told };

    /// Reads some bytes into the start of a buffer, and answers how many; none into a buffer with room is the end. A
    /// read that fails moves nothing.
    fn read(&mut self, buf: &mut [u8]) -> Result<usize, Failed>
        ensures bound { ReadsAtMost result buf.new }
        ensures reads { Reads (told self.old) (told self.new) result buf.new };

    /// Takes some bytes from the beginning of a piece, at least one where there is one, and answers how many. A write
    /// that fails takes nothing.
    fn write(&mut self, bytes: &[u8]) -> Result<usize, Failed>
        ensures bound { WritesAtMost result bytes.now }
        ensures some { IfOk result (λ n. 0 < length bytes.now → 0 < n) }
        ensures writes { Writes (told self.old) (told self.new) result bytes.now };
}

/// Writes all the bytes. After a fault the link has taken a prefix of them.
pub fn send<L: Link>(link: &mut L, bytes: &[u8]) -> Result<(), Failed>
    ensures ok { OnOk result (Sends (L.told link.old) (L.told link.new) bytes.now) }
    ensures err { OnErr result (SendsFront (L.told link.old) (L.told link.new) bytes.now) }
    ensures faults { FaultsAre false (is_err result) (L.told link.old) (L.told link.new) }
{
    let mut at = 0;
    while at < bytes.len() {
        at += link.write(rest_of(bytes, at))?;
    }
    Ok(())
}
