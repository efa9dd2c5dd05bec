//! The information classes of each kind of object (MS-SAMR 2.2.3 to 2.2.6, MS-LSAD 2.2.4).
ghost use Rattle.std.specs.Prelude.{◌≡◌};
ghost use Rattle.acct_codes.specs.InfoClasses.{domain_password_information, domain_oem_information};
ghost use Rattle.acct_codes.specs.InfoClasses.{domain_name_information, domain_lockout_information};
ghost use Rattle.acct_codes.specs.InfoClasses.{group_general_information, group_name_information};
ghost use Rattle.acct_codes.specs.InfoClasses.{group_attribute_information, group_admin_comment_information};
ghost use Rattle.acct_codes.specs.InfoClasses.{alias_general_information, alias_name_information};
ghost use Rattle.acct_codes.specs.InfoClasses.{alias_admin_comment_information, user_general_information};
ghost use Rattle.acct_codes.specs.InfoClasses.{user_name_information, user_account_name_information};
ghost use Rattle.acct_codes.specs.InfoClasses.{user_full_name_information, user_primary_group_information};
ghost use Rattle.acct_codes.specs.InfoClasses.{user_admin_comment_information, user_control_information};
ghost use Rattle.acct_codes.specs.InfoClasses.{user_internal1_information, user_all_information};
ghost use Rattle.acct_codes.specs.InfoClasses.{user_internal4_information, user_internal5_information};
ghost use Rattle.acct_codes.specs.InfoClasses.{user_internal4_new_information, user_internal5_new_information};
ghost use Rattle.acct_codes.specs.InfoClasses.{policy_primary_domain_information, policy_account_domain_information};
ghost use Rattle.acct_codes.specs.InfoClasses.{domain_display_user, domain_display_group};

/// Of a domain: rules on passwords.
pub const DOMAIN_PASSWORD_INFORMATION: u16 = 1;
/// Of a domain: the OEM information.
pub const DOMAIN_OEM_INFORMATION: u16 = 4;
/// Of a domain: the name.
pub const DOMAIN_NAME_INFORMATION: u16 = 5;
/// Of a domain: rules on wrong passwords.
pub const DOMAIN_LOCKOUT_INFORMATION: u16 = 12;
/// Of what is displayed of a domain: its users.
pub const DOMAIN_DISPLAY_USER: u16 = 1;
/// Of what is displayed of a domain: its groups.
pub const DOMAIN_DISPLAY_GROUP: u16 = 3;
/// Of a group: name, attributes, number of members and comment.
pub const GROUP_GENERAL_INFORMATION: u16 = 1;
/// Of a group: the name.
pub const GROUP_NAME_INFORMATION: u16 = 2;
/// Of a group: the attributes.
pub const GROUP_ATTRIBUTE_INFORMATION: u16 = 3;
/// Of a group: the administrator's comment.
pub const GROUP_ADMIN_COMMENT_INFORMATION: u16 = 4;
/// Of an alias: name, number of members and comment.
pub const ALIAS_GENERAL_INFORMATION: u16 = 1;
/// Of an alias: the name.
pub const ALIAS_NAME_INFORMATION: u16 = 2;
/// Of an alias: the administrator's comment.
pub const ALIAS_ADMIN_COMMENT_INFORMATION: u16 = 3;
/// Of a user: both names, primary group and comment.
pub const USER_GENERAL_INFORMATION: u16 = 1;
/// Of a user: both names.
pub const USER_NAME_INFORMATION: u16 = 6;
/// Of a user: the name of the account.
pub const USER_ACCOUNT_NAME_INFORMATION: u16 = 7;
/// Of a user: the full name.
pub const USER_FULL_NAME_INFORMATION: u16 = 8;
/// Of a user: the primary group.
pub const USER_PRIMARY_GROUP_INFORMATION: u16 = 9;
/// Of a user: the administrator's comment.
pub const USER_ADMIN_COMMENT_INFORMATION: u16 = 13;
/// Of a user: the control bits.
pub const USER_CONTROL_INFORMATION: u16 = 16;
/// Of a user: what is kept of a password.
pub const USER_INTERNAL1_INFORMATION: u16 = 18;
/// Of a user: everything, a password too.
pub const USER_ALL_INFORMATION: u16 = 21;
/// Of a user: everything, with an encrypted password.
pub const USER_INTERNAL4_INFORMATION: u16 = 23;
/// Of a user: an encrypted password.
pub const USER_INTERNAL5_INFORMATION: u16 = 24;
/// Of a user: everything, with a password encrypted in a newer way.
pub const USER_INTERNAL4_NEW_INFORMATION: u16 = 25;
/// Of a user: a password encrypted in a newer way.
pub const USER_INTERNAL5_NEW_INFORMATION: u16 = 26;
/// Of the policy: the domain that the server is in.
pub const POLICY_PRIMARY_DOMAIN_INFORMATION: u16 = 3;
/// Of the policy: the domain of its accounts.
pub const POLICY_ACCOUNT_DOMAIN_INFORMATION: u16 = 5;

/// Each class is the one of the standards (MS-SAMR 2.2.3 to 2.2.6, MS-LSAD 2.2.4).
pub fn classes_are_the_standards()
    ensures domain_password { DOMAIN_PASSWORD_INFORMATION ≡ domain_password_information }
    ensures domain_oem { DOMAIN_OEM_INFORMATION ≡ domain_oem_information }
    ensures domain_name { DOMAIN_NAME_INFORMATION ≡ domain_name_information }
    ensures domain_lockout { DOMAIN_LOCKOUT_INFORMATION ≡ domain_lockout_information }
    ensures display_user { DOMAIN_DISPLAY_USER ≡ domain_display_user }
    ensures display_group { DOMAIN_DISPLAY_GROUP ≡ domain_display_group }
    ensures group_general { GROUP_GENERAL_INFORMATION ≡ group_general_information }
    ensures group_name { GROUP_NAME_INFORMATION ≡ group_name_information }
    ensures group_attribute { GROUP_ATTRIBUTE_INFORMATION ≡ group_attribute_information }
    ensures group_admin_comment { GROUP_ADMIN_COMMENT_INFORMATION ≡ group_admin_comment_information }
    ensures alias_general { ALIAS_GENERAL_INFORMATION ≡ alias_general_information }
    ensures alias_name { ALIAS_NAME_INFORMATION ≡ alias_name_information }
    ensures alias_admin_comment { ALIAS_ADMIN_COMMENT_INFORMATION ≡ alias_admin_comment_information }
    ensures user_general { USER_GENERAL_INFORMATION ≡ user_general_information }
    ensures user_name { USER_NAME_INFORMATION ≡ user_name_information }
    ensures user_account_name { USER_ACCOUNT_NAME_INFORMATION ≡ user_account_name_information }
    ensures user_full_name { USER_FULL_NAME_INFORMATION ≡ user_full_name_information }
    ensures user_primary_group { USER_PRIMARY_GROUP_INFORMATION ≡ user_primary_group_information }
    ensures user_admin_comment { USER_ADMIN_COMMENT_INFORMATION ≡ user_admin_comment_information }
    ensures user_control { USER_CONTROL_INFORMATION ≡ user_control_information }
    ensures user_internal1 { USER_INTERNAL1_INFORMATION ≡ user_internal1_information }
    ensures user_all { USER_ALL_INFORMATION ≡ user_all_information }
    ensures user_internal4 { USER_INTERNAL4_INFORMATION ≡ user_internal4_information }
    ensures user_internal5 { USER_INTERNAL5_INFORMATION ≡ user_internal5_information }
    ensures user_internal4_new { USER_INTERNAL4_NEW_INFORMATION ≡ user_internal4_new_information }
    ensures user_internal5_new { USER_INTERNAL5_NEW_INFORMATION ≡ user_internal5_new_information }
    ensures policy_primary_domain { POLICY_PRIMARY_DOMAIN_INFORMATION ≡ policy_primary_domain_information }
    ensures policy_account_domain { POLICY_ACCOUNT_DOMAIN_INFORMATION ≡ policy_account_domain_information }
{}
