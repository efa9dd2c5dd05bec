//! Rights to a group object (MS-SAMR 2.2.1.5).
ghost use Rattle.std.specs.Prelude.{◌≡◌};
ghost use Rattle.acct_codes.specs.Rights.{group_read_information, group_write_account, group_add_member};
ghost use Rattle.acct_codes.specs.Rights.{group_remove_member, group_list_members};

use crate::standard_rights::STANDARD_RIGHTS_REQUIRED;

/// To read its attributes.
pub const GROUP_READ_INFORMATION: u32 = 0x0000_0001;
/// To write its attributes.
pub const GROUP_WRITE_ACCOUNT: u32 = 0x0000_0002;
/// To add a member.
pub const GROUP_ADD_MEMBER: u32 = 0x0000_0004;
/// To remove a member.
pub const GROUP_REMOVE_MEMBER: u32 = 0x0000_0008;
/// To list the members.
pub const GROUP_LIST_MEMBERS: u32 = 0x0000_0010;

/// Every right to the object: what GENERIC_ALL stands for.
pub const GROUP_ALL_ACCESS: u32 = 0x000F_001F;
/// What GENERIC_READ stands for.
pub const GROUP_READ: u32 = 0x0002_0010;
/// What GENERIC_WRITE stands for.
pub const GROUP_WRITE: u32 = 0x0002_000E;
/// What GENERIC_EXECUTE stands for.
pub const GROUP_EXECUTE: u32 = 0x0002_0001;

// All rights are the standard ones and those named above, and each mapping lies within them.
const _: () = prove!(
    GROUP_ALL_ACCESS
        == STANDARD_RIGHTS_REQUIRED
            | GROUP_READ_INFORMATION
            | GROUP_WRITE_ACCOUNT
            | GROUP_ADD_MEMBER
            | GROUP_REMOVE_MEMBER
            | GROUP_LIST_MEMBERS
);

const _: () = prove!(
    GROUP_ALL_ACCESS == GROUP_ALL_ACCESS | GROUP_READ | GROUP_WRITE | GROUP_EXECUTE
);

/// Each own right to a group object (MS-SAMR 2.2.1.5) is the one of the standard.
pub fn group_rights_are_the_standards()
    ensures group_read_information { GROUP_READ_INFORMATION ≡ group_read_information }
    ensures group_write_account { GROUP_WRITE_ACCOUNT ≡ group_write_account }
    ensures group_add_member { GROUP_ADD_MEMBER ≡ group_add_member }
    ensures group_remove_member { GROUP_REMOVE_MEMBER ≡ group_remove_member }
    ensures group_list_members { GROUP_LIST_MEMBERS ≡ group_list_members }
{}
