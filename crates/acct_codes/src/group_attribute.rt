//! Attributes of a group, and of a membership in one (MS-SAMR 2.2.1.10).
ghost use Rattle.std.specs.Prelude.{◌≡◌};
ghost use Rattle.acct_codes.specs.Accounts.{se_group_mandatory, se_group_enabled_by_default, se_group_enabled};
ghost use Rattle.acct_codes.specs.Accounts.{new_group_attributes};

/// The membership can't be switched off.
pub const SE_GROUP_MANDATORY: u32 = 0x0000_0001;
/// It is switched on from the start.
pub const SE_GROUP_ENABLED_BY_DEFAULT: u32 = 0x0000_0002;
/// It is switched on.
pub const SE_GROUP_ENABLED: u32 = 0x0000_0004;
/// The attributes of a new group and of a new membership: those three (MS-SAMR 3.1.1.8.10).
pub const NEW_GROUP_ATTRIBUTES: u32 = 0x0000_0007;

/// Each attribute is the one of the standard (MS-SAMR 2.2.1.10), and a new group has the three.
pub fn group_attributes_are_the_standards()
    ensures se_group_mandatory { SE_GROUP_MANDATORY ≡ se_group_mandatory }
    ensures se_group_enabled_by_default { SE_GROUP_ENABLED_BY_DEFAULT ≡ se_group_enabled_by_default }
    ensures se_group_enabled { SE_GROUP_ENABLED ≡ se_group_enabled }
    ensures new_group_attributes { NEW_GROUP_ATTRIBUTES ≡ new_group_attributes }
{}
