//! Laws of the operations, each the contract of a function that does nothing.
ghost use Rattle.lsad_rights.specs.ChangeLaws.{AccountsComeAndGo, RightsChange, PrivilegesAreASet};
ghost use Rattle.lsad_rights.specs.Laws.{AreRight, KeepRows, NamesLeadBack, RightsMayBeHeld, RightsAgree};
ghost use Rattle.lsad_rights.specs.Laws.{EnumerationsGoOn};

use acct_calls::laws::same_is_equivalence;
use acct_rows::laws::{
    each_is_good, each_lsa_is_good, lsa_accounts_stay_sound, puts_are_found, puts_leave_others,
    removed_lsa_accounts_stay_sound,
};
use dtyp_sid::laws::equal_sids_are_one;

/// Each operation has a layout at its interface and opnum, answers refusals where a condition fails and the outputs of
/// its layout where none does, and takes memory only where its profile says so.
pub fn operations_are_right()
    ensures { AreRight }
{
    each_is_good();
    each_lsa_is_good();
}

/// Each operation keeps the rows sound and leaves the objects, except an account that is deleted.
pub fn operations_keep_rows()
    ensures { KeepRows }
{
    lsa_accounts_stay_sound();
    removed_lsa_accounts_stay_sound();
    puts_are_found();
}

/// Each privilege is found by its LUID and by its name, and each right to log on by its name and by its bit; and the
/// name of a privilege that an account holds leads back to its LUID.
pub fn names_lead_back()
    ensures { NamesLeadBack }
{}

/// Each privilege and each right to log on is one that an account of sound rows may hold.
pub fn rights_may_be_held()
    ensures { RightsMayBeHeld }
{}

/// A name is listed among the rights of an account exactly where the account holds the right of that name.
pub fn rights_agree()
    ensures { RightsAgree }
{
    same_is_equivalence();
}

/// An enumeration of privileges or of accounts that goes on from its context gives each once.
pub fn enumerations_go_on()
    ensures { EnumerationsGoOn }
{}

/// An account that was created is found without any right, and one that was deleted isn't found. The others are as they
/// were.
pub fn accounts_come_and_go()
    ensures { AccountsComeAndGo }
{
    puts_are_found();
    puts_leave_others();
    equal_sids_are_one();
}

/// After rights are added an account holds them and what it held before, and nothing else, and is listed among the
/// accounts with them; after rights are taken away it holds the others that it held before.
pub fn rights_change()
    ensures { RightsChange }
{
    each_lsa_is_good();
    puts_are_found();
    puts_leave_others();
    equal_sids_are_one();
}

/// The privileges that an account holds are a set by their LUIDs.
pub fn privileges_are_a_set()
    ensures { PrivilegesAreASet }
{}
