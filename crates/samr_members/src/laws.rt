//! Laws of the operations, each the contract of a function that does nothing.
ghost use Rattle.samr_members.specs.Laws.{AreRight, KeepRows, AllMembershipsAgree, AdditionsAreUndone};

use acct_rows::laws::{
    alias_rows_stay_sound, each_is_good, each_member_is_found, members_stay_sound, puts_are_found,
    puts_are_undone, removed_alias_rows_stay_sound, removed_members_stay_sound,
};

/// Each operation has a layout at its interface and opnum, answers refusals where a condition fails and the outputs of
/// its layout where none does, and takes memory only where its profile says so.
pub fn operations_are_right()
    ensures { AreRight }
{
    each_is_good();
    each_member_is_found();
}

/// Each operation keeps the rows sound and leaves the objects.
pub fn operations_keep_rows()
    ensures { KeepRows }
{
    members_stay_sound();
    removed_members_stay_sound();
    alias_rows_stay_sound();
    removed_alias_rows_stay_sound();
}

/// The members of groups and the groups of users are one relation, and so are the members of aliases and the aliases of
/// SIDs.
pub fn memberships_agree()
    ensures { AllMembershipsAgree }
{}

/// A member that is added and removed again leaves the rows as they were.
pub fn additions_are_undone()
    ensures { AdditionsAreUndone }
{
    each_is_good();
    puts_are_found();
    puts_are_undone();
}
