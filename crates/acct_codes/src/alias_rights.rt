//! Rights to an alias object (MS-SAMR 2.2.1.6).
ghost use Rattle.std.specs.Prelude.{◌≡◌};
ghost use Rattle.acct_codes.specs.Rights.{alias_add_member, alias_remove_member, alias_list_members};
ghost use Rattle.acct_codes.specs.Rights.{alias_read_information, alias_write_account};

use crate::standard_rights::STANDARD_RIGHTS_REQUIRED;

/// To add a member.
pub const ALIAS_ADD_MEMBER: u32 = 0x0000_0001;
/// To remove a member.
pub const ALIAS_REMOVE_MEMBER: u32 = 0x0000_0002;
/// To list the members.
pub const ALIAS_LIST_MEMBERS: u32 = 0x0000_0004;
/// To read its attributes.
pub const ALIAS_READ_INFORMATION: u32 = 0x0000_0008;
/// To write its attributes.
pub const ALIAS_WRITE_ACCOUNT: u32 = 0x0000_0010;

/// Every right to the object: what GENERIC_ALL stands for.
pub const ALIAS_ALL_ACCESS: u32 = 0x000F_001F;
/// What GENERIC_READ stands for.
pub const ALIAS_READ: u32 = 0x0002_0004;
/// What GENERIC_WRITE stands for.
pub const ALIAS_WRITE: u32 = 0x0002_0013;
/// What GENERIC_EXECUTE stands for.
pub const ALIAS_EXECUTE: u32 = 0x0002_0008;

// All rights are the standard ones and those named above, and each mapping lies within them.
const _: () = prove!(
    ALIAS_ALL_ACCESS
        == STANDARD_RIGHTS_REQUIRED
            | ALIAS_ADD_MEMBER
            | ALIAS_REMOVE_MEMBER
            | ALIAS_LIST_MEMBERS
            | ALIAS_READ_INFORMATION
            | ALIAS_WRITE_ACCOUNT
);

const _: () = prove!(
    ALIAS_ALL_ACCESS == ALIAS_ALL_ACCESS | ALIAS_READ | ALIAS_WRITE | ALIAS_EXECUTE
);

/// Each own right to an alias object (MS-SAMR 2.2.1.6) is the one of the standard.
pub fn alias_rights_are_the_standards()
    ensures alias_add_member { ALIAS_ADD_MEMBER ≡ alias_add_member }
    ensures alias_remove_member { ALIAS_REMOVE_MEMBER ≡ alias_remove_member }
    ensures alias_list_members { ALIAS_LIST_MEMBERS ≡ alias_list_members }
    ensures alias_read_information { ALIAS_READ_INFORMATION ≡ alias_read_information }
    ensures alias_write_account { ALIAS_WRITE_ACCOUNT ≡ alias_write_account }
{}
