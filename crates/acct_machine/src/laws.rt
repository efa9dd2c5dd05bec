// Laws of the machine's histories: each function does nothing, and its contract is the law.
ghost use Rattle.acct_machine.specs.Legal.{FrontsAreLegal, LimitsAreKept, RepliesToEach, DeniesExactly, DeniesRan};
ghost use Rattle.acct_machine.specs.Sound.{KeepsConnected, KeepsSound};
ghost use Rattle.acct_machine.specs.Grants.{GrantsInHistory};
ghost use Rattle.acct_machine.specs.Shapes.{RepliesAreShaped};
ghost use Rattle.acct_machine.specs.Decided.{OpeningsAreDecided};
ghost use Rattle.acct_machine.specs.Gates.{JobsAreLeft, HooksAreTold};
ghost use Rattle.acct_machine.specs.Outs.{OutsAreAdded, OutsAreLeft, OutsOnlyGrow};
ghost use Rattle.acct_machine.specs.Passing.{OthersChangeNothing, EntriesAreNumbered, OpenedOnce};
ghost use Rattle.acct_machine.specs.Coming.{HandlesComeInOrder, SerialsAreFew, HandlesAreFound};

use acct_layouts::laws::refusals_have_shape;
use acct_operations::{operations_are_right, operations_keep_rows};
use acct_rows::laws::{outs_stay_sound, puts_are_found, removed_outs_stay_sound};
use dtyp_access::laws::grants_are_valid;

/// In the state after each legal history the connections are numbered from 1, each at a listener of the configuration;
/// and each entry is of one of them.
pub fn connections_are_numbered()
    ensures state { KeepsConnected }
    ensures entries { EntriesAreNumbered }
{}

/// Under a right configuration, the state after each legal history that begins with sound rows is sound: its rows are,
/// each handle's connection is live and gave it its serial, no two handles are the same, each handle's object is there,
/// and its grant lies within the valid rights to it.
pub fn kept_states_are_sound()
    ensures { KeepsSound }
{
    grants_are_valid();
    operations_keep_rows();
    operations_are_right();
    outs_stay_sound();
    removed_outs_stay_sound();
    puts_are_found();
    connections_are_numbered();
}

/// A call of an operation that ran is answered STATUS_ACCESS_DENIED exactly where the grant of its handle lacks a
/// needed bit, or its handle and its conditions pass and its opening is refused. A call that the grant of its handle
/// denies has run.
pub fn access_is_denied_exactly()
    ensures exactly { DeniesExactly }
    ensures ran { DeniesRan }
{
    operations_are_right();
}

/// Under a right configuration, each reply in a legal history that is no fault has the shape of its operation.
pub fn replies_are_shaped()
    ensures { RepliesAreShaped }
{
    operations_are_right();
    refusals_have_shape();
    grants_are_valid();
    kept_states_are_sound();
}

/// Each handle that is open after a history was opened by a call of its connection there that ran, and has the grant
/// that the call's opening gave.
pub fn grants_come_from_openings()
    ensures { GrantsInHistory }
{}

/// Under a right configuration, each opening of a connection is decided by the access check over the descriptor of the
/// object, which is that of its row or else the configured one, and the token of the listener where the connection was
/// opened.
pub fn openings_are_decided()
    ensures { OpeningsAreDecided }
{
    connections_are_numbered();
}

/// A connection has as many replies as calls in each history.
pub fn each_call_has_a_reply()
    ensures { RepliesToEach }
{}

/// Entries of other connections change nothing that is said of a connection.
pub fn others_change_nothing()
    ensures { OthersChangeNothing }
{}

/// Each connection of a legal history is opened once.
pub fn connections_are_opened_once()
    ensures { OpenedOnce }
{
    connections_are_numbered();
}

/// A legal history has at most the connections, the calls and the bytes of their stubs that the limits of its
/// configuration say.
pub fn limits_are_kept()
    ensures { LimitsAreKept }
{}

/// Each prefix of a legal history is legal.
pub fn fronts_are_legal()
    ensures { FrontsAreLegal }
{}

/// Under a right configuration, each event that may come after a legal history that began with sound rows gives a
/// connection no handle, or the one that its call opened, with the connection's next serial. No serial of a connection
/// is above the number of events, and what is found by a number is a handle of that connection with that serial.
pub fn handles_come_in_order()
    ensures order { HandlesComeInOrder }
    ensures few { SerialsAreFew }
    ensures found { HandlesAreFound }
{
    kept_states_are_sound();
}

/// Under a right configuration and from sound rows, each entry of a legal history leaves the outbox with the rows that
/// it had and one of each account that the entry makes, changes or removes, where a program is told of changes. An
/// entry that takes a row out takes the first.
pub fn outs_are_added()
    ensures { OutsAreAdded }
{
    operations_are_right();
    removed_outs_stay_sound();
    kept_states_are_sound();
}

/// After such a history the outbox has the rows that there were at its beginning and those that its entries added, in
/// order, less as many of the first as were taken out; and those were taken out in that order. Where a history goes on,
/// what it had is first.
pub fn outs_are_left()
    ensures left { OutsAreLeft }
    ensures grow { OutsOnlyGrow }
{
    operations_are_right();
    removed_outs_stay_sound();
    kept_states_are_sound();
}

/// After such a history the jobs that haven't left are those of the changes that are left, and the numbers that were
/// taken out are those of the first ones.
pub fn jobs_are_left()
    ensures { JobsAreLeft }
{
    outs_are_left();
}

/// What taking a change out tells of the jobs of all changes, and of those that left.
pub fn hooks_are_told()
    ensures { HooksAreTold }
{
    jobs_are_left();
    outs_are_left();
}
