//! The header of a PDU: its versions, its flags and its data representation (C706 12.6.3.1, 14.1).
ghost use Rattle.std.specs.Prelude.{◌≡◌};
ghost use Rattle.acct_codes.specs.Pdus.{rpc_vers, rpc_vers_minor, most_rpc_vers_minor, pfc_first_frag, pfc_last_frag};
ghost use Rattle.acct_codes.specs.Pdus.{pfc_did_not_execute, pfc_object_uuid, drep_little_endian_ascii, drep_ieee};

/// The version (rpc_vers).
pub const RPC_VERS: u8 = 5;
/// The minor version that is written (rpc_vers_minor).
pub const RPC_VERS_MINOR: u8 = 0;
/// The greatest minor version that is read.
pub const MOST_RPC_VERS_MINOR: u8 = 1;
/// The first fragment.
pub const PFC_FIRST_FRAG: u8 = 0x01;
/// The last fragment.
pub const PFC_LAST_FRAG: u8 = 0x02;
/// The call was not carried out.
pub const PFC_DID_NOT_EXECUTE: u8 = 0x20;
/// An object UUID stands before the stub.
pub const PFC_OBJECT_UUID: u8 = 0x80;
/// Integers with the low byte first, characters in ASCII.
pub const DREP_LITTLE_ENDIAN_ASCII: u8 = 0x10;
/// Floats as IEEE has them.
pub const DREP_IEEE: u8 = 0;

/// Each version, flag and format label is the one of the standard (C706 12.6.3.1, 14.1).
pub fn pdu_headers_are_the_standards()
    ensures rpc_vers { RPC_VERS ≡ rpc_vers }
    ensures rpc_vers_minor { RPC_VERS_MINOR ≡ rpc_vers_minor }
    ensures most_rpc_vers_minor { MOST_RPC_VERS_MINOR ≡ most_rpc_vers_minor }
    ensures pfc_first_frag { PFC_FIRST_FRAG ≡ pfc_first_frag }
    ensures pfc_last_frag { PFC_LAST_FRAG ≡ pfc_last_frag }
    ensures pfc_did_not_execute { PFC_DID_NOT_EXECUTE ≡ pfc_did_not_execute }
    ensures pfc_object_uuid { PFC_OBJECT_UUID ≡ pfc_object_uuid }
    ensures drep_little_endian_ascii { DREP_LITTLE_ENDIAN_ASCII ≡ drep_little_endian_ascii }
    ensures drep_ieee { DREP_IEEE ≡ drep_ieee }
{}
