//! The revisions, types and flags in a security descriptor and its list (MS-DTYP 2.4.4.1, 2.4.5, 2.4.6).
ghost use Rattle.std.specs.Prelude.{◌≡◌};
ghost use Rattle.acct_codes.specs.Descriptors.{security_descriptor_revision, acl_revision, access_allowed_ace_type};
ghost use Rattle.acct_codes.specs.Descriptors.{access_denied_ace_type, inherit_only_ace};

/// The revision of a descriptor (MS-DTYP 2.4.6).
pub const SECURITY_DESCRIPTOR_REVISION: u8 = 1;
/// The revision of an access control list (MS-DTYP 2.4.5).
pub const ACL_REVISION: u8 = 2;
/// An entry that allows (MS-DTYP 2.4.4.1).
pub const ACCESS_ALLOWED_ACE_TYPE: u8 = 0;
/// An entry that denies (MS-DTYP 2.4.4.1).
pub const ACCESS_DENIED_ACE_TYPE: u8 = 1;
/// An entry for what inherits the list alone, and not for the object itself (MS-DTYP 2.4.4.1).
pub const INHERIT_ONLY_ACE: u8 = 0x08;

/// Each revision, type and flag is the one of the standard (MS-DTYP 2.4.4.1, 2.4.5, 2.4.6).
pub fn descriptor_parts_are_the_standards()
    ensures security_descriptor_revision { SECURITY_DESCRIPTOR_REVISION ≡ security_descriptor_revision }
    ensures acl_revision { ACL_REVISION ≡ acl_revision }
    ensures access_allowed_ace_type { ACCESS_ALLOWED_ACE_TYPE ≡ access_allowed_ace_type }
    ensures access_denied_ace_type { ACCESS_DENIED_ACE_TYPE ≡ access_denied_ace_type }
    ensures inherit_only_ace { INHERIT_ONLY_ACE ≡ inherit_only_ace }
{}
