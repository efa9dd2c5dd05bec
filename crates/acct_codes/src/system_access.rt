//! Bits of an account's system access: its rights to log on (MS-LSAD 2.2.1.2).
ghost use Rattle.std.specs.Prelude.{◌≡◌};
ghost use Rattle.acct_codes.specs.Privileges.{policy_mode_interactive, policy_mode_network, policy_mode_batch};
ghost use Rattle.acct_codes.specs.Privileges.{policy_mode_service, policy_mode_deny_interactive};
ghost use Rattle.acct_codes.specs.Privileges.{policy_mode_deny_network, policy_mode_deny_batch};
ghost use Rattle.acct_codes.specs.Privileges.{policy_mode_deny_service, policy_mode_remote_interactive};
ghost use Rattle.acct_codes.specs.Privileges.{policy_mode_deny_remote_interactive, known_system_access};

/// To log on interactively.
pub const POLICY_MODE_INTERACTIVE: u32 = 0x0000_0001;
/// To log on from the network.
pub const POLICY_MODE_NETWORK: u32 = 0x0000_0002;
/// To log on as a batch job.
pub const POLICY_MODE_BATCH: u32 = 0x0000_0004;
/// To log on as a service.
pub const POLICY_MODE_SERVICE: u32 = 0x0000_0010;
/// Not to log on interactively.
pub const POLICY_MODE_DENY_INTERACTIVE: u32 = 0x0000_0040;
/// Not to log on from the network.
pub const POLICY_MODE_DENY_NETWORK: u32 = 0x0000_0080;
/// Not to log on as a batch job.
pub const POLICY_MODE_DENY_BATCH: u32 = 0x0000_0100;
/// Not to log on as a service.
pub const POLICY_MODE_DENY_SERVICE: u32 = 0x0000_0200;
/// To log on interactively from afar.
pub const POLICY_MODE_REMOTE_INTERACTIVE: u32 = 0x0000_0400;
/// Not to log on interactively from afar.
pub const POLICY_MODE_DENY_REMOTE_INTERACTIVE: u32 = 0x0000_0800;
/// All of these, and no other.
pub const KNOWN_SYSTEM_ACCESS: u32 = 0x0000_0FD7;

/// Each bit of system access is the one of the standard (MS-LSAD 2.2.1.2), and the known ones are their sum.
pub fn system_access_is_the_standards()
    ensures policy_mode_interactive { POLICY_MODE_INTERACTIVE ≡ policy_mode_interactive }
    ensures policy_mode_network { POLICY_MODE_NETWORK ≡ policy_mode_network }
    ensures policy_mode_batch { POLICY_MODE_BATCH ≡ policy_mode_batch }
    ensures policy_mode_service { POLICY_MODE_SERVICE ≡ policy_mode_service }
    ensures policy_mode_deny_interactive { POLICY_MODE_DENY_INTERACTIVE ≡ policy_mode_deny_interactive }
    ensures policy_mode_deny_network { POLICY_MODE_DENY_NETWORK ≡ policy_mode_deny_network }
    ensures policy_mode_deny_batch { POLICY_MODE_DENY_BATCH ≡ policy_mode_deny_batch }
    ensures policy_mode_deny_service { POLICY_MODE_DENY_SERVICE ≡ policy_mode_deny_service }
    ensures policy_mode_remote_interactive { POLICY_MODE_REMOTE_INTERACTIVE ≡ policy_mode_remote_interactive }
    ensures policy_mode_deny_remote_interactive { POLICY_MODE_DENY_REMOTE_INTERACTIVE
        ≡ policy_mode_deny_remote_interactive }
    ensures known_system_access { KNOWN_SYSTEM_ACCESS ≡ known_system_access }
{}
