// Laws of what workers leave: each function does nothing, and its contract is the law.
ghost use Rattle.door_workers.specs.Full.{FullOfConns, FullOfCalls};
ghost use Rattle.door_workers.specs.steps.Joining.{StartsIdle, WorksAlone, JoinsLinks, ServesAll};

use acct_links::Link;
use acct_machine::{connections_are_opened_once, limits_are_kept, others_change_nothing};

/// Where a connection or a call found a prefix of a legal history full, with a count, the history has as many
/// connections or calls as its configuration lets it have, and the count is their number; or the count is that of the
/// bytes of the stubs of that prefix with the call's own, and more than the configuration lets a history have.
pub fn full_counts()
    ensures conns { FullOfConns }
    ensures calls { FullOfCalls }
{
    limits_are_kept();
}

/// What stands of the links of one worker in the history that its pass knows stands of the links of all in the one
/// history, where the first pass took all others in and so owns every entry: each link's, and each connection was
/// served on just one link.
pub fn links_are_joined<L: Link>()
    ensures idle { StartsIdle L.told }
    ensures alone { WorksAlone L.told }
    ensures joined { JoinsLinks L.told }
    ensures all { ServesAll L.told }
{
    others_change_nothing();
    connections_are_opened_once();
}
