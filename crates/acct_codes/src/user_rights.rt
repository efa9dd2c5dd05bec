//! Rights to a user object (MS-SAMR 2.2.1.7).
ghost use Rattle.std.specs.Prelude.{◌≡◌};
ghost use Rattle.acct_codes.specs.Rights.{user_read_general, user_read_preferences, user_write_preferences};
ghost use Rattle.acct_codes.specs.Rights.{user_read_logon, user_read_account, user_write_account, user_change_password};
ghost use Rattle.acct_codes.specs.Rights.{user_force_password_change, user_list_groups, user_read_group_information};
ghost use Rattle.acct_codes.specs.Rights.{user_write_group_information};

use crate::standard_rights::STANDARD_RIGHTS_REQUIRED;

/// To read general attributes.
pub const USER_READ_GENERAL: u32 = 0x0000_0001;
/// To read preferences.
pub const USER_READ_PREFERENCES: u32 = 0x0000_0002;
/// To write preferences.
pub const USER_WRITE_PREFERENCES: u32 = 0x0000_0004;
/// To read what is known of logons.
pub const USER_READ_LOGON: u32 = 0x0000_0008;
/// To read the account's attributes.
pub const USER_READ_ACCOUNT: u32 = 0x0000_0010;
/// To write the account's attributes.
pub const USER_WRITE_ACCOUNT: u32 = 0x0000_0020;
/// To change the password, given the old one.
pub const USER_CHANGE_PASSWORD: u32 = 0x0000_0040;
/// To set the password.
pub const USER_FORCE_PASSWORD_CHANGE: u32 = 0x0000_0080;
/// To list the groups that have the user as a member.
pub const USER_LIST_GROUPS: u32 = 0x0000_0100;
/// Defined by the standard, of no use in the protocol.
pub const USER_READ_GROUP_INFORMATION: u32 = 0x0000_0200;
/// Defined by the standard, of no use in the protocol.
pub const USER_WRITE_GROUP_INFORMATION: u32 = 0x0000_0400;

/// Every right to the object: what GENERIC_ALL stands for.
pub const USER_ALL_ACCESS: u32 = 0x000F_07FF;
/// What GENERIC_READ stands for.
pub const USER_READ: u32 = 0x0002_031A;
/// What GENERIC_WRITE stands for.
pub const USER_WRITE: u32 = 0x0002_0044;
/// What GENERIC_EXECUTE stands for.
pub const USER_EXECUTE: u32 = 0x0002_0041;

// All rights are the standard ones and those named above, and each mapping lies within them.
const _: () = prove!(
    USER_ALL_ACCESS
        == STANDARD_RIGHTS_REQUIRED
            | USER_READ_GENERAL
            | USER_READ_PREFERENCES
            | USER_WRITE_PREFERENCES
            | USER_READ_LOGON
            | USER_READ_ACCOUNT
            | USER_WRITE_ACCOUNT
            | USER_CHANGE_PASSWORD
            | USER_FORCE_PASSWORD_CHANGE
            | USER_LIST_GROUPS
            | USER_READ_GROUP_INFORMATION
            | USER_WRITE_GROUP_INFORMATION
);

const _: () = prove!(USER_ALL_ACCESS == USER_ALL_ACCESS | USER_READ | USER_WRITE | USER_EXECUTE);

/// Each own right to a user object (MS-SAMR 2.2.1.7) is the one of the standard.
pub fn user_rights_are_the_standards()
    ensures user_read_general { USER_READ_GENERAL ≡ user_read_general }
    ensures user_read_preferences { USER_READ_PREFERENCES ≡ user_read_preferences }
    ensures user_write_preferences { USER_WRITE_PREFERENCES ≡ user_write_preferences }
    ensures user_read_logon { USER_READ_LOGON ≡ user_read_logon }
    ensures user_read_account { USER_READ_ACCOUNT ≡ user_read_account }
    ensures user_write_account { USER_WRITE_ACCOUNT ≡ user_write_account }
    ensures user_change_password { USER_CHANGE_PASSWORD ≡ user_change_password }
    ensures user_force_password_change { USER_FORCE_PASSWORD_CHANGE ≡ user_force_password_change }
    ensures user_list_groups { USER_LIST_GROUPS ≡ user_list_groups }
    ensures user_read_group_information { USER_READ_GROUP_INFORMATION ≡ user_read_group_information }
    ensures user_write_group_information { USER_WRITE_GROUP_INFORMATION ≡ user_write_group_information }
{}
