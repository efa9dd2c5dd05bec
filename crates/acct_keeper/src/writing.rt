// Writing to a sink.
ghost use Rattle.std.specs.Prelude.{◌≡◌, take, ℕ, is_err, OnOk, OnErr};
ghost use Rattle.std.specs.Io.KnownBytes.{Appends};
ghost use Rattle.acct_keeper.specs.Faults.{HasCause, faults_after};

use crate::{Failed, Sink};
use acct_base::rest_of;

/// Writes all the bytes. After a fault the sink has taken a prefix of them.
pub fn write_all<T: Sink>(out: &mut T, bytes: &[u8]) -> Result<(), Failed>
    ensures ok { OnOk result (Appends (T.held out.old) (T.held out.new) bytes.now) }
    ensures err { OnErr result ((n : ℕ) × Appends (T.held out.old) (T.held out.new) (take n bytes.now)) }
    ensures cause { HasCause (T.faults out.old) (T.faults out.new) result }
    ensures count { T.faults out.new ≡ faults_after (is_err result) (T.faults out.old) }
{
    let mut at = 0;
    while at < bytes.len() {
        at += out.write(rest_of(bytes, at))?;
    }
    Ok(())
}
