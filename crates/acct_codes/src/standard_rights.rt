//! Rights that mean the same for every kind of object, and the generic bits (MS-DTYP 2.4.3; MS-SAMR 2.2.1.1, 2.2.1.2).
ghost use Rattle.std.specs.Prelude.{◌≡◌};
ghost use Rattle.acct_codes.specs.Rights.{delete, read_control, write_dac, write_owner, access_system_security};
ghost use Rattle.acct_codes.specs.Rights.{maximum_allowed, generic_all, generic_execute, generic_write, generic_read};

/// To delete the object.
pub const DELETE: u32 = 0x0001_0000;
/// To read the object's security descriptor.
pub const READ_CONTROL: u32 = 0x0002_0000;
/// To write the access control list of the object's security descriptor.
pub const WRITE_DAC: u32 = 0x0004_0000;
/// To write the owner of the object's security descriptor.
pub const WRITE_OWNER: u32 = 0x0008_0000;
/// To read and write the auditing list of the object's security descriptor.
pub const ACCESS_SYSTEM_SECURITY: u32 = 0x0100_0000;
/// Asks for every right that the caller can be granted.
pub const MAXIMUM_ALLOWED: u32 = 0x0200_0000;
/// Stands for the kind's mapping of all rights.
pub const GENERIC_ALL: u32 = 0x1000_0000;
/// Stands for the kind's mapping of rights to execute.
pub const GENERIC_EXECUTE: u32 = 0x2000_0000;
/// Stands for the kind's mapping of rights to write.
pub const GENERIC_WRITE: u32 = 0x4000_0000;
/// Stands for the kind's mapping of rights to read.
pub const GENERIC_READ: u32 = 0x8000_0000;

/// The four standard rights that every kind of object has: to delete it, and to read and write its descriptor.
pub const STANDARD_RIGHTS_REQUIRED: u32 = 0x000F_0000;

const _: () = prove!(STANDARD_RIGHTS_REQUIRED == DELETE | READ_CONTROL | WRITE_DAC | WRITE_OWNER);

/// Each right that every kind of object has is the one of the standard (MS-DTYP 2.4.3).
pub fn standard_rights_are_the_standards()
    ensures delete { DELETE ≡ delete }
    ensures read_control { READ_CONTROL ≡ read_control }
    ensures write_dac { WRITE_DAC ≡ write_dac }
    ensures write_owner { WRITE_OWNER ≡ write_owner }
    ensures access_system_security { ACCESS_SYSTEM_SECURITY ≡ access_system_security }
    ensures maximum_allowed { MAXIMUM_ALLOWED ≡ maximum_allowed }
    ensures generic_all { GENERIC_ALL ≡ generic_all }
    ensures generic_execute { GENERIC_EXECUTE ≡ generic_execute }
    ensures generic_write { GENERIC_WRITE ≡ generic_write }
    ensures generic_read { GENERIC_READ ≡ generic_read }
{}
