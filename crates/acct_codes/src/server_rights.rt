//! Rights to a SAM server object (MS-SAMR 2.2.1.3).
ghost use Rattle.std.specs.Prelude.{◌≡◌};
ghost use Rattle.acct_codes.specs.Rights.{sam_server_connect, sam_server_shutdown, sam_server_initialize};
ghost use Rattle.acct_codes.specs.Rights.{sam_server_create_domain, sam_server_enumerate_domains};
ghost use Rattle.acct_codes.specs.Rights.{sam_server_lookup_domain};

use crate::standard_rights::STANDARD_RIGHTS_REQUIRED;

/// To connect.
pub const SAM_SERVER_CONNECT: u32 = 0x0000_0001;
/// Defined by the standard, of no use in the protocol.
pub const SAM_SERVER_SHUTDOWN: u32 = 0x0000_0002;
/// Defined by the standard, of no use in the protocol.
pub const SAM_SERVER_INITIALIZE: u32 = 0x0000_0004;
/// Defined by the standard, of no use in the protocol.
pub const SAM_SERVER_CREATE_DOMAIN: u32 = 0x0000_0008;
/// To list the domains.
pub const SAM_SERVER_ENUMERATE_DOMAINS: u32 = 0x0000_0010;
/// To look up and open a domain.
pub const SAM_SERVER_LOOKUP_DOMAIN: u32 = 0x0000_0020;

/// Every right to the object: what GENERIC_ALL stands for.
pub const SAM_SERVER_ALL_ACCESS: u32 = 0x000F_003F;
/// What GENERIC_READ stands for.
pub const SAM_SERVER_READ: u32 = 0x0002_0010;
/// What GENERIC_WRITE stands for.
pub const SAM_SERVER_WRITE: u32 = 0x0002_000E;
/// What GENERIC_EXECUTE stands for.
pub const SAM_SERVER_EXECUTE: u32 = 0x0002_0021;

// All rights are the standard ones and those named above, and each mapping lies within them.
const _: () = prove!(
    SAM_SERVER_ALL_ACCESS
        == STANDARD_RIGHTS_REQUIRED
            | SAM_SERVER_CONNECT
            | SAM_SERVER_SHUTDOWN
            | SAM_SERVER_INITIALIZE
            | SAM_SERVER_CREATE_DOMAIN
            | SAM_SERVER_ENUMERATE_DOMAINS
            | SAM_SERVER_LOOKUP_DOMAIN
);

const _: () = prove!(
    SAM_SERVER_ALL_ACCESS
        == SAM_SERVER_ALL_ACCESS | SAM_SERVER_READ | SAM_SERVER_WRITE | SAM_SERVER_EXECUTE
);

/// Each own right to a SAM server object (MS-SAMR 2.2.1.3) is the one of the standard.
pub fn server_rights_are_the_standards()
    ensures sam_server_connect { SAM_SERVER_CONNECT ≡ sam_server_connect }
    ensures sam_server_shutdown { SAM_SERVER_SHUTDOWN ≡ sam_server_shutdown }
    ensures sam_server_initialize { SAM_SERVER_INITIALIZE ≡ sam_server_initialize }
    ensures sam_server_create_domain { SAM_SERVER_CREATE_DOMAIN ≡ sam_server_create_domain }
    ensures sam_server_enumerate_domains { SAM_SERVER_ENUMERATE_DOMAINS ≡ sam_server_enumerate_domains }
    ensures sam_server_lookup_domain { SAM_SERVER_LOOKUP_DOMAIN ≡ sam_server_lookup_domain }
{}
