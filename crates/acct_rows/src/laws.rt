//! Laws of rows, each the contract of a function that does nothing: what changes keep sound rows sound, and which
//! objects stay.
ghost use Rattle.acct_rows.specs.Laws.{DomainsStaySound, NextIsFree, AddedAccountsStaySound, AddedUsersStaySound};
ghost use Rattle.acct_rows.specs.Laws.{ReplacedAccountsStaySound, OwnNameIsFree, UnusedNameIsFree, NameFoundIsFree};
ghost use Rattle.acct_rows.specs.Laws.{MembersStaySound, RemovedMembersStaySound, AliasRowsStaySound};
ghost use Rattle.acct_rows.specs.Laws.{RemovedAliasRowsStaySound, LsaAccountsStaySound, RemovedLsaAccountsStaySound};
ghost use Rattle.acct_rows.specs.Laws.{OthersAreNoPrimary, RemovedAccountsStaySound, EachIsGood, PutsAreFound};
ghost use Rattle.acct_rows.specs.Laws.{PutsLeaveOthers, NamingIsRemoved, EachMemberIsFound, PutsAreUndone};
ghost use Rattle.acct_rows.specs.Laws.{EachLsaIsGood, DescriptorsStaySound, RemovedDescriptorsStaySound, OutsStaySound};
ghost use Rattle.acct_rows.specs.Laws.{RemovedOutsStaySound, EachDescriptorIsGood, EachOutIsGood};

/// A row that was put is found at its key.
pub fn puts_are_found()
    ensures { PutsAreFound }
{}

/// A row that was put changes what is found at its key alone.
pub fn puts_leave_others()
    ensures { PutsLeaveOthers }
{}

/// Rows stay sound when a domain's row is replaced by one that keeps the rules, with a next RID that is not lower.
pub fn domains_stay_sound()
    ensures { DomainsStaySound }
{}

/// No account has the next RID of a domain.
pub fn next_is_free()
    ensures { NextIsFree }
{}

/// Rows stay sound when a group or an alias is added.
pub fn added_accounts_stay_sound()
    ensures { AddedAccountsStaySound }
{}

/// Rows stay sound when a user is added with its row as a member of its primary group.
pub fn added_users_stay_sound()
    ensures { AddedUsersStaySound }
{}

/// Rows stay sound when an account is replaced by one with its key and kind that keeps the rules.
pub fn replaced_accounts_stay_sound()
    ensures { ReplacedAccountsStaySound }
{}

/// An account's own name is free for it.
pub fn own_name_is_free()
    ensures { OwnNameIsFree }
{}

/// A name that no account of the domain has is free.
pub fn unused_name_is_free()
    ensures { UnusedNameIsFree }
{}

/// A name that the account itself has, in whatever case, is free for it.
pub fn name_found_is_free()
    ensures { NameFoundIsFree }
{}

/// Rows stay sound when a member row of a group and a user that are there is put.
pub fn members_stay_sound()
    ensures { MembersStaySound }
{}

/// Rows stay sound when a member row is removed that is not a user's for its primary group.
pub fn removed_members_stay_sound()
    ensures { RemovedMembersStaySound }
{}

/// Rows stay sound when an alias row of an alias that is there is put.
pub fn alias_rows_stay_sound()
    ensures { AliasRowsStaySound }
{}

/// Rows stay sound when an alias row is removed.
pub fn removed_alias_rows_stay_sound()
    ensures { RemovedAliasRowsStaySound }
{}

/// Rows stay sound when an account of the policy that keeps the rules is put.
pub fn lsa_accounts_stay_sound()
    ensures { LsaAccountsStaySound }
{}

/// Rows stay sound when an account of the policy is removed with its descriptor.
pub fn removed_lsa_accounts_stay_sound()
    ensures { RemovedLsaAccountsStaySound }
{}

/// An account that is no group is no user's primary group.
pub fn others_are_no_primary()
    ensures { OthersAreNoPrimary }
{}

/// Rows stay sound when a descriptor of an object that is there is put.
pub fn descriptors_stay_sound()
    ensures { DescriptorsStaySound }
{}

/// Rows stay sound when a descriptor is removed.
pub fn removed_descriptors_stay_sound()
    ensures { RemovedDescriptorsStaySound }
{}

/// Rows stay sound when a change of an account is put with the next out number.
pub fn outs_stay_sound()
    ensures { OutsStaySound }
{}

/// Rows stay sound when the change with the least number is removed, and the others are left.
pub fn removed_outs_stay_sound()
    ensures { RemovedOutsStaySound }
{}

/// Rows stay sound when a user, a group or an alias is removed with its descriptor and every row that names it.
pub fn removed_accounts_stay_sound()
    ensures { RemovedAccountsStaySound }
{}

/// Without an account and every row that names it, the other rows are as they were, and neither its RID nor its name
/// finds it.
pub fn naming_is_removed()
    ensures { NamingIsRemoved }
{}

/// Each domain and each account of sound rows stands at its key and keeps its rules.
pub fn each_is_good()
    ensures { EachIsGood }
{}

/// Each member row and each alias row of sound rows is found at its key.
pub fn each_member_is_found()
    ensures { EachMemberIsFound }
{}

/// Each account of the policy of sound rows stands at its key and keeps its rules.
pub fn each_lsa_is_good()
    ensures { EachLsaIsGood }
{}

/// Each descriptor of sound rows stands at its key and keeps its rules, and its object is there.
pub fn each_descriptor_is_good()
    ensures { EachDescriptorIsGood }
{}

/// Each change of sound rows stands at its key and keeps its rules, and its number is below the next one.
pub fn each_out_is_good()
    ensures { EachOutIsGood }
{}

/// A member row or an alias row that is put and removed again leaves the rows as they were.
pub fn puts_are_undone()
    ensures { PutsAreUndone }
{}
