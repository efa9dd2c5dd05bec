//! What a name or a SID is used for (SID_NAME_USE, MS-SAMR 2.2.2.3).
ghost use Rattle.std.specs.Prelude.{◌≡◌};
ghost use Rattle.acct_codes.specs.Accounts.{sid_type_user, sid_type_group, sid_type_domain, sid_type_alias};
ghost use Rattle.acct_codes.specs.Accounts.{sid_type_well_known_group, sid_type_unknown};

/// The account of a user.
pub const SID_TYPE_USER: u32 = 1;
/// A group.
pub const SID_TYPE_GROUP: u32 = 2;
/// A domain.
pub const SID_TYPE_DOMAIN: u32 = 3;
/// An alias.
pub const SID_TYPE_ALIAS: u32 = 4;
/// A well-known name.
pub const SID_TYPE_WELL_KNOWN_GROUP: u32 = 5;
/// No account, and no well-known name.
pub const SID_TYPE_UNKNOWN: u32 = 8;

/// Each use is the one of the standard (MS-SAMR 2.2.2.3).
pub fn uses_are_the_standards()
    ensures sid_type_user { SID_TYPE_USER ≡ sid_type_user }
    ensures sid_type_group { SID_TYPE_GROUP ≡ sid_type_group }
    ensures sid_type_domain { SID_TYPE_DOMAIN ≡ sid_type_domain }
    ensures sid_type_alias { SID_TYPE_ALIAS ≡ sid_type_alias }
    ensures sid_type_well_known_group { SID_TYPE_WELL_KNOWN_GROUP ≡ sid_type_well_known_group }
    ensures sid_type_unknown { SID_TYPE_UNKNOWN ≡ sid_type_unknown }
{}
