// That the contracts of a replay and of serving give the headline, for readers and for the crates above. Each law is
// brought in by a call, which does nothing.
ghost use Rattle.acct_server.specs.Serving.{ServingIsComplete};
ghost use Rattle.acct_server.specs.Headlines.{ReplayGivesHeadline, ServeGivesHeadline};

use acct_keeper::{Sink, Source};
use acct_links::Door;
use acct_machine::{Keeper, each_call_has_a_reply};

/// What [`replay`](crate::replay) promises gives the headline, of each connection that the lines of the events open.
pub fn replay_gives_headline<S: Source, T: Sink, K: Keeper + Drop>()
    ensures { ReplayGivesHeadline (record {
      left = S.left;
      read_faults = S.faults;
      held = T.held;
      write_faults = T.faults;
      pairs = K.held;
      store_faults = K.faults;
    }) }
{}

/// What [`serve`](crate::serve) promises gives the headline, of each connection that the history opens.
pub fn serve_gives_headline<D: Door + Drop, K: Keeper + Drop>()
    ensures { ServeGivesHeadline (record { door = D.Door; told = D.L.told; pairs = K.held; faults = K.faults }) }
{
    each_call_has_a_reply();
}

/// Where the stored pairs break no rule and neither the keeper nor a door failed, serving is done, or the history was
/// full, or memory ran out; and no commit failed.
pub fn serving_is_complete<D: Door + Drop, K: Keeper + Drop>()
    ensures { ServingIsComplete (record { door = D.Door; told = D.L.told; pairs = K.held; faults = K.faults }) }
{}
