//! Laws of the operations, each the contract of a function that does nothing.
ghost use Rattle.samr_objects.specs.Laws.{AreRight, KeepRows, EnumerationsGoOn, AccountsGo, FieldsAreSet};
ghost use Rattle.samr_objects.specs.Laws.{ClassesAreShown, CreationsAreFound, SetsAreShown, DisplaysGoOn};

use acct_calls::laws::same_is_equivalence;
use acct_rows::laws::{
    added_accounts_stay_sound, added_users_stay_sound, domains_stay_sound, each_is_good,
    name_found_is_free, naming_is_removed, next_is_free, others_are_no_primary, own_name_is_free,
    puts_are_found, puts_leave_others, removed_accounts_stay_sound, removed_descriptors_stay_sound,
    replaced_accounts_stay_sound, unused_name_is_free,
};

/// Each operation has a layout at its interface and opnum, answers refusals where a condition fails and the outputs of
/// its layout where none does, and takes memory only where its profile says so.
pub fn operations_are_right()
    ensures { AreRight }
{
    each_is_good();
}

/// Each operation keeps the rows sound and leaves the objects; what it opens is there.
pub fn operations_keep_rows()
    ensures { KeepRows }
{
    each_is_good();
    others_are_no_primary();
    removed_accounts_stay_sound();
    domains_stay_sound();
    replaced_accounts_stay_sound();
    own_name_is_free();
    unused_name_is_free();
    name_found_is_free();
    puts_are_found();
    next_is_free();
    added_accounts_stay_sound();
    added_users_stay_sound();
}

/// An account that was created is found by the RID that the outputs show and by its name; no account had the RID, and
/// the domain gives it out no more.
pub fn created_accounts_are_found()
    ensures { CreationsAreFound }
{
    same_is_equivalence();
    each_is_good();
    puts_are_found();
    next_is_free();
}

/// Where an account is deleted, it is gone with its descriptor and every row that names it, and nothing else is.
pub fn accounts_go()
    ensures { AccountsGo }
{
    each_is_good();
    naming_is_removed();
    removed_descriptors_stay_sound();
}

/// What is set is there afterwards, and nothing else is changed.
pub fn fields_are_set()
    ensures { FieldsAreSet }
{
    each_is_good();
    puts_are_found();
    puts_leave_others();
}

/// What was set is what a query of its class shows.
pub fn sets_are_shown()
    ensures { SetsAreShown }
{
    fields_are_set();
}

/// An enumeration of accounts that goes on after each page gives each account once, in as many pages as there are.
pub fn enumerations_go_on()
    ensures { EnumerationsGoOn }
{}

/// What is displayed, page by page, each after the entries that were given before, is each entry once, in as many
/// pages as there are.
pub fn displays_go_on()
    ensures { DisplaysGoOn }
{}

/// An object that is there shows each class of its kind, and no other.
pub fn classes_are_shown()
    ensures { ClassesAreShown }
{}
