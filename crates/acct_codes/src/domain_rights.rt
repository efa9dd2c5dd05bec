//! Rights to a domain object (MS-SAMR 2.2.1.4).
ghost use Rattle.std.specs.Prelude.{◌≡◌};
ghost use Rattle.acct_codes.specs.Rights.{domain_read_password_parameters, domain_write_password_params};
ghost use Rattle.acct_codes.specs.Rights.{domain_read_other_parameters, domain_write_other_parameters};
ghost use Rattle.acct_codes.specs.Rights.{domain_create_user, domain_create_group, domain_create_alias};
ghost use Rattle.acct_codes.specs.Rights.{domain_get_alias_membership, domain_list_accounts, domain_lookup};
ghost use Rattle.acct_codes.specs.Rights.{domain_administer_server};

use crate::standard_rights::STANDARD_RIGHTS_REQUIRED;

/// To read the password policy.
pub const DOMAIN_READ_PASSWORD_PARAMETERS: u32 = 0x0000_0001;
/// To write the password policy.
pub const DOMAIN_WRITE_PASSWORD_PARAMS: u32 = 0x0000_0002;
/// To read what is not the password policy.
pub const DOMAIN_READ_OTHER_PARAMETERS: u32 = 0x0000_0004;
/// To write what is not the password policy.
pub const DOMAIN_WRITE_OTHER_PARAMETERS: u32 = 0x0000_0008;
/// To create a user.
pub const DOMAIN_CREATE_USER: u32 = 0x0000_0010;
/// To create a group.
pub const DOMAIN_CREATE_GROUP: u32 = 0x0000_0020;
/// To create an alias.
pub const DOMAIN_CREATE_ALIAS: u32 = 0x0000_0040;
/// To read which aliases hold a SID.
pub const DOMAIN_GET_ALIAS_MEMBERSHIP: u32 = 0x0000_0080;
/// To list the accounts.
pub const DOMAIN_LIST_ACCOUNTS: u32 = 0x0000_0100;
/// To look up and open an account.
pub const DOMAIN_LOOKUP: u32 = 0x0000_0200;
/// Defined by the standard, of no use in the protocol.
pub const DOMAIN_ADMINISTER_SERVER: u32 = 0x0000_0400;

/// Every right to the object: what GENERIC_ALL stands for.
pub const DOMAIN_ALL_ACCESS: u32 = 0x000F_07FF;
/// What GENERIC_READ stands for.
pub const DOMAIN_READ: u32 = 0x0002_0084;
/// What GENERIC_WRITE stands for.
pub const DOMAIN_WRITE: u32 = 0x0002_047A;
/// What GENERIC_EXECUTE stands for.
pub const DOMAIN_EXECUTE: u32 = 0x0002_0301;

// All rights are the standard ones and those named above, and each mapping lies within them.
const _: () = prove!(
    DOMAIN_ALL_ACCESS
        == STANDARD_RIGHTS_REQUIRED
            | DOMAIN_READ_PASSWORD_PARAMETERS
            | DOMAIN_WRITE_PASSWORD_PARAMS
            | DOMAIN_READ_OTHER_PARAMETERS
            | DOMAIN_WRITE_OTHER_PARAMETERS
            | DOMAIN_CREATE_USER
            | DOMAIN_CREATE_GROUP
            | DOMAIN_CREATE_ALIAS
            | DOMAIN_GET_ALIAS_MEMBERSHIP
            | DOMAIN_LIST_ACCOUNTS
            | DOMAIN_LOOKUP
            | DOMAIN_ADMINISTER_SERVER
);

const _: () = prove!(
    DOMAIN_ALL_ACCESS == DOMAIN_ALL_ACCESS | DOMAIN_READ | DOMAIN_WRITE | DOMAIN_EXECUTE
);

/// Each own right to a domain object (MS-SAMR 2.2.1.4) is the one of the standard.
pub fn domain_rights_are_the_standards()
    ensures domain_read_password_parameters { DOMAIN_READ_PASSWORD_PARAMETERS ≡ domain_read_password_parameters }
    ensures domain_write_password_params { DOMAIN_WRITE_PASSWORD_PARAMS ≡ domain_write_password_params }
    ensures domain_read_other_parameters { DOMAIN_READ_OTHER_PARAMETERS ≡ domain_read_other_parameters }
    ensures domain_write_other_parameters { DOMAIN_WRITE_OTHER_PARAMETERS ≡ domain_write_other_parameters }
    ensures domain_create_user { DOMAIN_CREATE_USER ≡ domain_create_user }
    ensures domain_create_group { DOMAIN_CREATE_GROUP ≡ domain_create_group }
    ensures domain_create_alias { DOMAIN_CREATE_ALIAS ≡ domain_create_alias }
    ensures domain_get_alias_membership { DOMAIN_GET_ALIAS_MEMBERSHIP ≡ domain_get_alias_membership }
    ensures domain_list_accounts { DOMAIN_LIST_ACCOUNTS ≡ domain_list_accounts }
    ensures domain_lookup { DOMAIN_LOOKUP ≡ domain_lookup }
    ensures domain_administer_server { DOMAIN_ADMINISTER_SERVER ≡ domain_administer_server }
{}
