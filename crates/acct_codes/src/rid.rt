//! Well-known relative identifiers of accounts (MS-DTYP 2.4.2.4), and the bounds of those that are given out.
ghost use Rattle.std.specs.Prelude.{◌≡◌};
ghost use Rattle.acct_codes.specs.Accounts.{security_world_authority, security_nt_authority, security_world_rid};
ghost use Rattle.acct_codes.specs.Accounts.{security_anonymous_logon_rid, security_authenticated_user_rid};
ghost use Rattle.acct_codes.specs.Accounts.{security_local_system_rid, security_builtin_domain_rid};
ghost use Rattle.acct_codes.specs.Accounts.{domain_user_rid_admin, domain_user_rid_guest, domain_group_rid_admins};
ghost use Rattle.acct_codes.specs.Accounts.{domain_group_rid_users, domain_group_rid_guests, domain_alias_rid_admins};
ghost use Rattle.acct_codes.specs.Accounts.{domain_alias_rid_users, domain_alias_rid_guests, first_created_rid};
ghost use Rattle.acct_codes.specs.Accounts.{most_rid};

/// The identifier authority of everyone, S-1-1.
pub const SECURITY_WORLD_AUTHORITY: u64 = 1;
/// The identifier authority of Windows, S-1-5.
pub const SECURITY_NT_AUTHORITY: u64 = 5;
/// Everyone, S-1-1-0.
pub const SECURITY_WORLD_RID: u32 = 0;
/// Those who are logged on without a name, S-1-5-7.
pub const SECURITY_ANONYMOUS_LOGON_RID: u32 = 7;
/// Those whose name was proved, S-1-5-11.
pub const SECURITY_AUTHENTICATED_USER_RID: u32 = 11;
/// The system, S-1-5-18.
pub const SECURITY_LOCAL_SYSTEM_RID: u32 = 18;
/// The domain BUILTIN, S-1-5-32.
pub const SECURITY_BUILTIN_DOMAIN_RID: u32 = 32;
/// The user Administrator.
pub const DOMAIN_USER_RID_ADMIN: u32 = 500;
/// The user Guest.
pub const DOMAIN_USER_RID_GUEST: u32 = 501;
/// The group Domain Admins.
pub const DOMAIN_GROUP_RID_ADMINS: u32 = 512;
/// The group Domain Users, of which every user is a member.
pub const DOMAIN_GROUP_RID_USERS: u32 = 513;
/// The group Domain Guests.
pub const DOMAIN_GROUP_RID_GUESTS: u32 = 514;
/// The alias Administrators of BUILTIN.
pub const DOMAIN_ALIAS_RID_ADMINS: u32 = 544;
/// The alias Users of BUILTIN.
pub const DOMAIN_ALIAS_RID_USERS: u32 = 545;
/// The alias Guests of BUILTIN.
pub const DOMAIN_ALIAS_RID_GUESTS: u32 = 546;
/// The first RID of a created account; those below are well-known (MS-SAMR 3.1.1.9.2).
pub const FIRST_CREATED_RID: u32 = 1_000;
/// The RID at which a domain gives out no more (MS-SAMR 3.1.1.9.2).
pub const MOST_RID: u32 = 0x3FFF_FFFF;

/// Each relative identifier is the one of the standard (MS-DTYP 2.4.2.4), and each bound is set.
pub fn rids_are_the_standards()
    ensures security_world_authority { SECURITY_WORLD_AUTHORITY ≡ security_world_authority }
    ensures security_nt_authority { SECURITY_NT_AUTHORITY ≡ security_nt_authority }
    ensures security_world_rid { SECURITY_WORLD_RID ≡ security_world_rid }
    ensures security_anonymous_logon_rid { SECURITY_ANONYMOUS_LOGON_RID ≡ security_anonymous_logon_rid }
    ensures security_authenticated_user_rid { SECURITY_AUTHENTICATED_USER_RID ≡ security_authenticated_user_rid }
    ensures security_local_system_rid { SECURITY_LOCAL_SYSTEM_RID ≡ security_local_system_rid }
    ensures security_builtin_domain_rid { SECURITY_BUILTIN_DOMAIN_RID ≡ security_builtin_domain_rid }
    ensures domain_user_rid_admin { DOMAIN_USER_RID_ADMIN ≡ domain_user_rid_admin }
    ensures domain_user_rid_guest { DOMAIN_USER_RID_GUEST ≡ domain_user_rid_guest }
    ensures domain_group_rid_admins { DOMAIN_GROUP_RID_ADMINS ≡ domain_group_rid_admins }
    ensures domain_group_rid_users { DOMAIN_GROUP_RID_USERS ≡ domain_group_rid_users }
    ensures domain_group_rid_guests { DOMAIN_GROUP_RID_GUESTS ≡ domain_group_rid_guests }
    ensures domain_alias_rid_admins { DOMAIN_ALIAS_RID_ADMINS ≡ domain_alias_rid_admins }
    ensures domain_alias_rid_users { DOMAIN_ALIAS_RID_USERS ≡ domain_alias_rid_users }
    ensures domain_alias_rid_guests { DOMAIN_ALIAS_RID_GUESTS ≡ domain_alias_rid_guests }
    ensures first_created_rid { FIRST_CREATED_RID ≡ first_created_rid }
    ensures most_rid { MOST_RID ≡ most_rid }
{}
