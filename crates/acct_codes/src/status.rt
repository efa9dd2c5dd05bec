//! Statuses of replies (MS-ERREF 2.3.1).
ghost use Rattle.std.specs.Prelude.{◌≡◌};
ghost use Rattle.acct_codes.specs.Statuses.{status_success, status_more_entries, status_some_not_mapped};
ghost use Rattle.acct_codes.specs.Statuses.{status_no_more_entries, status_invalid_info_class};
ghost use Rattle.acct_codes.specs.Statuses.{status_invalid_parameter, status_no_memory, status_access_denied};
ghost use Rattle.acct_codes.specs.Statuses.{status_object_type_mismatch, status_object_name_not_found};
ghost use Rattle.acct_codes.specs.Statuses.{status_object_name_collision, status_no_such_privilege};
ghost use Rattle.acct_codes.specs.Statuses.{status_invalid_account_name, status_user_exists, status_no_such_user};
ghost use Rattle.acct_codes.specs.Statuses.{status_group_exists, status_no_such_group, status_member_in_group};
ghost use Rattle.acct_codes.specs.Statuses.{status_member_not_in_group, status_none_mapped};
ghost use Rattle.acct_codes.specs.Statuses.{status_insufficient_resources, status_not_supported};
ghost use Rattle.acct_codes.specs.Statuses.{status_no_such_domain, status_special_account};
ghost use Rattle.acct_codes.specs.Statuses.{status_members_primary_group, status_no_such_alias};
ghost use Rattle.acct_codes.specs.Statuses.{status_member_not_in_alias, status_member_in_alias, status_alias_exists};
ghost use Rattle.acct_codes.specs.Statuses.{status_internal_db_error};

/// The call was done.
pub const STATUS_SUCCESS: u32 = 0;
/// Entries are left.
pub const STATUS_MORE_ENTRIES: u32 = 0x0000_0105;
/// Some of the names or SIDs were not translated.
pub const STATUS_SOME_NOT_MAPPED: u32 = 0x0000_0107;
/// No entry is left.
pub const STATUS_NO_MORE_ENTRIES: u32 = 0x8000_001A;
/// The information class is not one of the operation.
pub const STATUS_INVALID_INFO_CLASS: u32 = 0xC000_0003;
/// An argument is refused.
pub const STATUS_INVALID_PARAMETER: u32 = 0xC000_000D;
/// Memory ran out.
pub const STATUS_NO_MEMORY: u32 = 0xC000_0017;
/// The access is not granted.
pub const STATUS_ACCESS_DENIED: u32 = 0xC000_0022;
/// The handle stands for an object of another kind.
pub const STATUS_OBJECT_TYPE_MISMATCH: u32 = 0xC000_0024;
/// There is no such object.
pub const STATUS_OBJECT_NAME_NOT_FOUND: u32 = 0xC000_0034;
/// There is such an object.
pub const STATUS_OBJECT_NAME_COLLISION: u32 = 0xC000_0035;
/// There is no such privilege.
pub const STATUS_NO_SUCH_PRIVILEGE: u32 = 0xC000_0060;
/// The name is none of an account.
pub const STATUS_INVALID_ACCOUNT_NAME: u32 = 0xC000_0062;
/// A user has the name.
pub const STATUS_USER_EXISTS: u32 = 0xC000_0063;
/// There is no such user.
pub const STATUS_NO_SUCH_USER: u32 = 0xC000_0064;
/// A group has the name.
pub const STATUS_GROUP_EXISTS: u32 = 0xC000_0065;
/// There is no such group.
pub const STATUS_NO_SUCH_GROUP: u32 = 0xC000_0066;
/// The user is a member already.
pub const STATUS_MEMBER_IN_GROUP: u32 = 0xC000_0067;
/// The user is no member.
pub const STATUS_MEMBER_NOT_IN_GROUP: u32 = 0xC000_0068;
/// None of the names or SIDs was translated.
pub const STATUS_NONE_MAPPED: u32 = 0xC000_0073;
/// Nothing is left to give.
pub const STATUS_INSUFFICIENT_RESOURCES: u32 = 0xC000_009A;
/// The request is not supported.
pub const STATUS_NOT_SUPPORTED: u32 = 0xC000_00BB;
/// There is no such domain.
pub const STATUS_NO_SUCH_DOMAIN: u32 = 0xC000_00DF;
/// The account may not be deleted.
pub const STATUS_SPECIAL_ACCOUNT: u32 = 0xC000_0124;
/// The group is the primary group of the member.
pub const STATUS_MEMBERS_PRIMARY_GROUP: u32 = 0xC000_0127;
/// There is no such alias.
pub const STATUS_NO_SUCH_ALIAS: u32 = 0xC000_0151;
/// The SID is no member of the alias.
pub const STATUS_MEMBER_NOT_IN_ALIAS: u32 = 0xC000_0152;
/// The SID is a member of the alias already.
pub const STATUS_MEMBER_IN_ALIAS: u32 = 0xC000_0153;
/// An alias has the name.
pub const STATUS_ALIAS_EXISTS: u32 = 0xC000_0154;
/// The store failed.
pub const STATUS_INTERNAL_DB_ERROR: u32 = 0xC000_0158;

/// Each status is the one of the standard (MS-ERREF 2.3.1).
pub fn statuses_are_the_standards()
    ensures success { STATUS_SUCCESS ≡ status_success }
    ensures more_entries { STATUS_MORE_ENTRIES ≡ status_more_entries }
    ensures some_not_mapped { STATUS_SOME_NOT_MAPPED ≡ status_some_not_mapped }
    ensures no_more_entries { STATUS_NO_MORE_ENTRIES ≡ status_no_more_entries }
    ensures invalid_info_class { STATUS_INVALID_INFO_CLASS ≡ status_invalid_info_class }
    ensures invalid_parameter { STATUS_INVALID_PARAMETER ≡ status_invalid_parameter }
    ensures no_memory { STATUS_NO_MEMORY ≡ status_no_memory }
    ensures access_denied { STATUS_ACCESS_DENIED ≡ status_access_denied }
    ensures object_type_mismatch { STATUS_OBJECT_TYPE_MISMATCH ≡ status_object_type_mismatch }
    ensures object_name_not_found { STATUS_OBJECT_NAME_NOT_FOUND ≡ status_object_name_not_found }
    ensures object_name_collision { STATUS_OBJECT_NAME_COLLISION ≡ status_object_name_collision }
    ensures no_such_privilege { STATUS_NO_SUCH_PRIVILEGE ≡ status_no_such_privilege }
    ensures invalid_account_name { STATUS_INVALID_ACCOUNT_NAME ≡ status_invalid_account_name }
    ensures user_exists { STATUS_USER_EXISTS ≡ status_user_exists }
    ensures no_such_user { STATUS_NO_SUCH_USER ≡ status_no_such_user }
    ensures group_exists { STATUS_GROUP_EXISTS ≡ status_group_exists }
    ensures no_such_group { STATUS_NO_SUCH_GROUP ≡ status_no_such_group }
    ensures member_in_group { STATUS_MEMBER_IN_GROUP ≡ status_member_in_group }
    ensures member_not_in_group { STATUS_MEMBER_NOT_IN_GROUP ≡ status_member_not_in_group }
    ensures none_mapped { STATUS_NONE_MAPPED ≡ status_none_mapped }
    ensures insufficient_resources { STATUS_INSUFFICIENT_RESOURCES ≡ status_insufficient_resources }
    ensures not_supported { STATUS_NOT_SUPPORTED ≡ status_not_supported }
    ensures no_such_domain { STATUS_NO_SUCH_DOMAIN ≡ status_no_such_domain }
    ensures special_account { STATUS_SPECIAL_ACCOUNT ≡ status_special_account }
    ensures members_primary_group { STATUS_MEMBERS_PRIMARY_GROUP ≡ status_members_primary_group }
    ensures no_such_alias { STATUS_NO_SUCH_ALIAS ≡ status_no_such_alias }
    ensures member_not_in_alias { STATUS_MEMBER_NOT_IN_ALIAS ≡ status_member_not_in_alias }
    ensures member_in_alias { STATUS_MEMBER_IN_ALIAS ≡ status_member_in_alias }
    ensures alias_exists { STATUS_ALIAS_EXISTS ≡ status_alias_exists }
    ensures internal_db_error { STATUS_INTERNAL_DB_ERROR ≡ status_internal_db_error }
{}
