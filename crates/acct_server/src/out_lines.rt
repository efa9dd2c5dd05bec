// The lines of what is sent on a connection.
ghost use Rattle.std.specs.Prelude.{◌≡◌, [], false};

use crate::printing::push_out;
use acct_keeper::Failed;
use link_sessions::Taker;
use std::alloc::Global;

/// The lines of the answers on a connection, one line an answer, and whether memory ran out for one.
#[derive(Drop)]
pub struct OutLines {
    pub alloc: Global,
    pub conn: u32,
    pub lines: Vec<u8>,
    pub is_cut: bool,
}

impl OutLines {
    /// None yet.
    pub fn new(alloc: Global, conn: u32) -> OutLines
        ensures conn { result.conn ≡ conn }
        ensures lines { result.lines.items ≡ [] }
        ensures whole { result.is_cut ≡ false }
    {
        OutLines {
            alloc,
            conn,
            lines: Vec::new(alloc),
            is_cut: false,
        }
    }
}

impl Taker for OutLines {
    ghost use Rattle.std.specs.Prelude.{◌≡◌, ◌++◌, true};
    ghost use Rattle.acct_server.specs.Replayed.{Out, line_bytes};

    ghost takes = { λ old bytes new. (new.conn ≡ old.conn) × (new.is_cut ≡ old.is_cut)
        × (new.lines.items ≡ old.lines.items ++ line_bytes (Out old.conn bytes)) };

    ghost fails = { λ old bytes new. new.is_cut ≡ true };

    /// Adds its line. Where memory runs out the lines are no longer all.
    fn take(&mut self, bytes: &[u8]) -> Result<(), Failed> {
        match push_out(&mut self.lines, self.alloc, self.conn, bytes) {
            Ok(()) => Ok(()),
            Err(_) => {
                self.is_cut = true;
                Err(Failed)
            }
        }
    }
}
