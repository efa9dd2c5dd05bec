//! The control bits of a security descriptor that are read and written (MS-DTYP 2.4.6).
ghost use Rattle.std.specs.Prelude.{◌≡◌};
ghost use Rattle.acct_codes.specs.Descriptors.{se_dacl_present, se_self_relative};

/// There is a discretionary list.
pub const SE_DACL_PRESENT: u16 = 0x0004;
/// All parts stand in one block of bytes.
pub const SE_SELF_RELATIVE: u16 = 0x8000;

/// Each control bit is the one of the standard (MS-DTYP 2.4.6).
pub fn descriptor_control_is_the_standards()
    ensures se_dacl_present { SE_DACL_PRESENT ≡ se_dacl_present }
    ensures se_self_relative { SE_SELF_RELATIVE ≡ se_self_relative }
{}
