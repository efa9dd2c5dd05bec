// The machine itself as a gate: a turn finds its history.
ghost use Rattle.std.specs.Prelude.{◌≡◌, true};

use crate::gate::Gate;
use acct_machine::{Acted, Call, Keeper, Machine, Opened, others_change_nothing};

impl<K: Keeper + Drop> Gate for Machine<K> {
    ghost use Rattle.acct_machine.specs.State.{is_live};
    ghost use Rattle.acct_machine.specs.Machine.{state_of};
    ghost use Rattle.link_sessions.specs.steps.Turning.{fronts-same, passes-same};

    ghost start = { λ m. m.past.start };

    ghost known = { λ m. m.past.history };

    ghost finds = { λ m found. found ≡ m.past.history };

    ghost serves = { λ m k. is_live k (state_of m.past).conns ≡ true };

    ghost moves = { λ m k n. Unit {0} };

    ghost ready = { λ m. Unit {0} };

    ghost opens = { λ m answer n. Unit {0} };

    fn open_conn(&mut self, listener: u32) -> Opened {
        others_change_nothing();
        self.open_conn(listener)
    }

    fn act(&mut self, conn: u32, call: Call, bytes: u32) -> Acted {
        self.act(conn, call, bytes)
    }

    fn gone(&mut self, conn: u32) {
        self.gone(conn)
    }

    ghost fronts = { λ g found same. fronts-same g.past.history found same };

    ghost passes = { λ g k found serves same. passes-same g.past.start k g.past.history found same };

    ghost stays = { λ g k. tt };

    ghost goes_on = { λ a b c k p q. tt };
}
