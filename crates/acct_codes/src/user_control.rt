//! Bits of a user's account control (MS-SAMR 2.2.1.12).
ghost use Rattle.std.specs.Prelude.{◌≡◌};
ghost use Rattle.acct_codes.specs.Accounts.{user_account_disabled, user_password_not_required, user_normal_account};
ghost use Rattle.acct_codes.specs.Accounts.{user_workstation_trust_account, user_server_trust_account};

/// The account is disabled.
pub const USER_ACCOUNT_DISABLED: u32 = 0x0000_0001;
/// No password is required.
pub const USER_PASSWORD_NOT_REQUIRED: u32 = 0x0000_0004;
/// A normal user.
pub const USER_NORMAL_ACCOUNT: u32 = 0x0000_0010;
/// The account of a computer that trusts the domain.
pub const USER_WORKSTATION_TRUST_ACCOUNT: u32 = 0x0000_0080;
/// The account of a domain controller.
pub const USER_SERVER_TRUST_ACCOUNT: u32 = 0x0000_0100;

/// Each bit of a user's account control is the one of the standard (MS-SAMR 2.2.1.12).
pub fn control_bits_are_the_standards()
    ensures user_account_disabled { USER_ACCOUNT_DISABLED ≡ user_account_disabled }
    ensures user_password_not_required { USER_PASSWORD_NOT_REQUIRED ≡ user_password_not_required }
    ensures user_normal_account { USER_NORMAL_ACCOUNT ≡ user_normal_account }
    ensures user_workstation_trust_account { USER_WORKSTATION_TRUST_ACCOUNT ≡ user_workstation_trust_account }
    ensures user_server_trust_account { USER_SERVER_TRUST_ACCOUNT ≡ user_server_trust_account }
{}
