//! Rights to a policy object (MS-LSAD 2.2.1.1.2).
ghost use Rattle.std.specs.Prelude.{◌≡◌};
ghost use Rattle.acct_codes.specs.Rights.{policy_view_local_information, policy_view_audit_information};
ghost use Rattle.acct_codes.specs.Rights.{policy_get_private_information, policy_trust_admin, policy_create_account};
ghost use Rattle.acct_codes.specs.Rights.{policy_create_secret, policy_create_privilege};
ghost use Rattle.acct_codes.specs.Rights.{policy_set_default_quota_limits, policy_set_audit_requirements};
ghost use Rattle.acct_codes.specs.Rights.{policy_audit_log_admin, policy_server_admin, policy_lookup_names};

use crate::standard_rights::STANDARD_RIGHTS_REQUIRED;

/// To read the policy.
pub const POLICY_VIEW_LOCAL_INFORMATION: u32 = 0x0000_0001;
/// To read the auditing policy.
pub const POLICY_VIEW_AUDIT_INFORMATION: u32 = 0x0000_0002;
/// To read private information.
pub const POLICY_GET_PRIVATE_INFORMATION: u32 = 0x0000_0004;
/// To administer trusted domains.
pub const POLICY_TRUST_ADMIN: u32 = 0x0000_0008;
/// To create an account object.
pub const POLICY_CREATE_ACCOUNT: u32 = 0x0000_0010;
/// To create a secret.
pub const POLICY_CREATE_SECRET: u32 = 0x0000_0020;
/// To create a privilege, which no call of the protocol does.
pub const POLICY_CREATE_PRIVILEGE: u32 = 0x0000_0040;
/// To set default quotas.
pub const POLICY_SET_DEFAULT_QUOTA_LIMITS: u32 = 0x0000_0080;
/// To set the auditing policy.
pub const POLICY_SET_AUDIT_REQUIREMENTS: u32 = 0x0000_0100;
/// To administer the audit log.
pub const POLICY_AUDIT_LOG_ADMIN: u32 = 0x0000_0200;
/// To administer the server.
pub const POLICY_SERVER_ADMIN: u32 = 0x0000_0400;
/// To translate names and SIDs.
pub const POLICY_LOOKUP_NAMES: u32 = 0x0000_0800;

/// Every right to the object: what GENERIC_ALL stands for.
pub const POLICY_ALL_ACCESS: u32 = 0x000F_0FFF;
/// What GENERIC_READ stands for.
pub const POLICY_READ: u32 = 0x0002_0006;
/// What GENERIC_WRITE stands for.
pub const POLICY_WRITE: u32 = 0x0002_07F8;
/// What GENERIC_EXECUTE stands for.
pub const POLICY_EXECUTE: u32 = 0x0002_0801;

// All rights are the standard ones and those named above, and each mapping lies within them.
const _: () = prove!(
    POLICY_ALL_ACCESS
        == STANDARD_RIGHTS_REQUIRED
            | POLICY_VIEW_LOCAL_INFORMATION
            | POLICY_VIEW_AUDIT_INFORMATION
            | POLICY_GET_PRIVATE_INFORMATION
            | POLICY_TRUST_ADMIN
            | POLICY_CREATE_ACCOUNT
            | POLICY_CREATE_SECRET
            | POLICY_CREATE_PRIVILEGE
            | POLICY_SET_DEFAULT_QUOTA_LIMITS
            | POLICY_SET_AUDIT_REQUIREMENTS
            | POLICY_AUDIT_LOG_ADMIN
            | POLICY_SERVER_ADMIN
            | POLICY_LOOKUP_NAMES
);

const _: () = prove!(
    POLICY_ALL_ACCESS == POLICY_ALL_ACCESS | POLICY_READ | POLICY_WRITE | POLICY_EXECUTE
);

/// Each own right to a policy object (MS-LSAD 2.2.1.1.2) is the one of the standard.
pub fn policy_rights_are_the_standards()
    ensures policy_view_local_information { POLICY_VIEW_LOCAL_INFORMATION ≡ policy_view_local_information }
    ensures policy_view_audit_information { POLICY_VIEW_AUDIT_INFORMATION ≡ policy_view_audit_information }
    ensures policy_get_private_information { POLICY_GET_PRIVATE_INFORMATION ≡ policy_get_private_information }
    ensures policy_trust_admin { POLICY_TRUST_ADMIN ≡ policy_trust_admin }
    ensures policy_create_account { POLICY_CREATE_ACCOUNT ≡ policy_create_account }
    ensures policy_create_secret { POLICY_CREATE_SECRET ≡ policy_create_secret }
    ensures policy_create_privilege { POLICY_CREATE_PRIVILEGE ≡ policy_create_privilege }
    ensures policy_set_default_quota_limits { POLICY_SET_DEFAULT_QUOTA_LIMITS ≡ policy_set_default_quota_limits }
    ensures policy_set_audit_requirements { POLICY_SET_AUDIT_REQUIREMENTS ≡ policy_set_audit_requirements }
    ensures policy_audit_log_admin { POLICY_AUDIT_LOG_ADMIN ≡ policy_audit_log_admin }
    ensures policy_server_admin { POLICY_SERVER_ADMIN ≡ policy_server_admin }
    ensures policy_lookup_names { POLICY_LOOKUP_NAMES ≡ policy_lookup_names }
{}
