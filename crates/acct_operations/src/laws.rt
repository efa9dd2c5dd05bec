// Laws of the operations: each function does nothing, and its contract is the law.
ghost use Rattle.acct_operations.specs.Laws.{AreRight, AreFrugal, KeepRows, CallsHaveOperations};

use acct_rows::laws::descriptors_stay_sound;
use dtyp_access::laws::{read_parts_are_parts, written_are_bytes};

/// Each operation is found by its interface and opnum, has a layout there, answers refusals where a condition fails
/// and the outputs of its layout where none does, denies access by its handle and its opening alone, takes memory only
/// where its profile says so, and touches one account row at most and no row of the outbox.
pub fn operations_are_right()
    ensures { AreRight }
{
    written_are_bytes();
    lsad_rights::laws::operations_are_right();
    lsat_translate::laws::operations_are_right();
    samr_members::laws::operations_are_right();
    samr_objects::laws::operations_are_right();
}

/// An operation takes less memory than a legal history allows it. One that takes none plans nothing that takes room,
/// and one that takes it for a new handle alone changes no row.
pub fn operations_are_frugal()
    ensures { AreFrugal }
{}

/// Each operation keeps the rows sound, and leaves the objects that it doesn't delete; what it opens is there.
pub fn operations_keep_rows()
    ensures { KeepRows }
{
    read_parts_are_parts();
    descriptors_stay_sound();
    lsad_rights::laws::operations_keep_rows();
    lsat_translate::laws::operations_keep_rows();
    samr_members::laws::operations_keep_rows();
    samr_objects::laws::operations_keep_rows();
}

/// Each call that some served stub spells has its operation in the table, so no call is turned away for lack of one.
pub fn calls_have_operations()
    ensures { CallsHaveOperations }
{}
