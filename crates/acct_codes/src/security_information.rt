//! The bits that name the parts of a security descriptor (SECURITY_INFORMATION, MS-DTYP 2.4.7).
ghost use Rattle.std.specs.Prelude.{◌≡◌};
ghost use Rattle.acct_codes.specs.Descriptors.{owner_security_information, group_security_information};
ghost use Rattle.acct_codes.specs.Descriptors.{dacl_security_information};

/// The owner.
pub const OWNER_SECURITY_INFORMATION: u32 = 0x0000_0001;
/// The group.
pub const GROUP_SECURITY_INFORMATION: u32 = 0x0000_0002;
/// The discretionary list.
pub const DACL_SECURITY_INFORMATION: u32 = 0x0000_0004;

/// Each bit is the one of the standard (MS-DTYP 2.4.7).
pub fn security_information_is_the_standards()
    ensures owner { OWNER_SECURITY_INFORMATION ≡ owner_security_information }
    ensures group { GROUP_SECURITY_INFORMATION ≡ group_security_information }
    ensures dacl { DACL_SECURITY_INFORMATION ≡ dacl_security_information }
{}
