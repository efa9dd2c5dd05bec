//! Statuses of RPC faults (C706, appendix E; MS-RPCE 3.1.1.5.5; MS-ERREF 2.2).
ghost use Rattle.std.specs.Prelude.{◌≡◌};
ghost use Rattle.acct_codes.specs.Pdus.{fault_operation_range, fault_unknown_interface, fault_protocol_error};
ghost use Rattle.acct_codes.specs.Pdus.{fault_server_too_busy, fault_context_mismatch, fault_bad_stub_data};

/// The operation number is not served.
pub const NCA_S_OP_RNG_ERROR: u32 = 0x1C01_0002;
/// The interface is not known.
pub const NCA_S_UNK_IF: u32 = 0x1C01_0003;
/// The caller broke the protocol.
pub const NCA_S_PROTO_ERROR: u32 = 0x1C01_000B;
/// The server takes no more calls.
pub const NCA_S_SERVER_TOO_BUSY: u32 = 0x1C01_0014;
/// The context handle is not known.
pub const NCA_S_FAULT_CONTEXT_MISMATCH: u32 = 0x1C00_001A;
/// The stub data spell no call.
pub const RPC_X_BAD_STUB_DATA: u32 = 0x0000_06F7;

/// Each fault is the one of the standards (C706, appendix E; MS-RPCE 3.1.1.5.5; MS-ERREF 2.2).
pub fn faults_are_the_standards()
    ensures operation_range { NCA_S_OP_RNG_ERROR ≡ fault_operation_range }
    ensures unknown_interface { NCA_S_UNK_IF ≡ fault_unknown_interface }
    ensures protocol_error { NCA_S_PROTO_ERROR ≡ fault_protocol_error }
    ensures server_too_busy { NCA_S_SERVER_TOO_BUSY ≡ fault_server_too_busy }
    ensures context_mismatch { NCA_S_FAULT_CONTEXT_MISMATCH ≡ fault_context_mismatch }
    ensures bad_stub_data { RPC_X_BAD_STUB_DATA ≡ fault_bad_stub_data }
{}
