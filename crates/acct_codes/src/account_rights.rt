//! Rights to an account object of the policy (MS-LSAD 2.2.1.1.3).
ghost use Rattle.std.specs.Prelude.{◌≡◌};
ghost use Rattle.acct_codes.specs.Rights.{account_view, account_adjust_privileges, account_adjust_quotas};
ghost use Rattle.acct_codes.specs.Rights.{account_adjust_system_access};

use crate::standard_rights::STANDARD_RIGHTS_REQUIRED;

/// To read it.
pub const ACCOUNT_VIEW: u32 = 0x0000_0001;
/// To add and remove privileges.
pub const ACCOUNT_ADJUST_PRIVILEGES: u32 = 0x0000_0002;
/// To set quotas.
pub const ACCOUNT_ADJUST_QUOTAS: u32 = 0x0000_0004;
/// To set the logon rights.
pub const ACCOUNT_ADJUST_SYSTEM_ACCESS: u32 = 0x0000_0008;

/// Every right to the object: what GENERIC_ALL stands for.
pub const ACCOUNT_ALL_ACCESS: u32 = 0x000F_000F;
/// What GENERIC_READ stands for.
pub const ACCOUNT_READ: u32 = 0x0002_0001;
/// What GENERIC_WRITE stands for.
pub const ACCOUNT_WRITE: u32 = 0x0002_000E;
/// What GENERIC_EXECUTE stands for.
pub const ACCOUNT_EXECUTE: u32 = 0x0002_0000;

// All rights are the standard ones and those named above, and each mapping lies within them.
const _: () = prove!(
    ACCOUNT_ALL_ACCESS
        == STANDARD_RIGHTS_REQUIRED
            | ACCOUNT_VIEW
            | ACCOUNT_ADJUST_PRIVILEGES
            | ACCOUNT_ADJUST_QUOTAS
            | ACCOUNT_ADJUST_SYSTEM_ACCESS
);

const _: () = prove!(
    ACCOUNT_ALL_ACCESS == ACCOUNT_ALL_ACCESS | ACCOUNT_READ | ACCOUNT_WRITE | ACCOUNT_EXECUTE
);

/// Each own right to an account object of the policy (MS-LSAD 2.2.1.1.3) is the one of the standard.
pub fn account_rights_are_the_standards()
    ensures account_view { ACCOUNT_VIEW ≡ account_view }
    ensures account_adjust_privileges { ACCOUNT_ADJUST_PRIVILEGES ≡ account_adjust_privileges }
    ensures account_adjust_quotas { ACCOUNT_ADJUST_QUOTAS ≡ account_adjust_quotas }
    ensures account_adjust_system_access { ACCOUNT_ADJUST_SYSTEM_ACCESS ≡ account_adjust_system_access }
{}
