//! What is answered to the presentation contexts of a bind, and to a bind (C706 12.6.3.1).
ghost use Rattle.std.specs.Prelude.{◌≡◌};
ghost use Rattle.acct_codes.specs.Pdus.{result_acceptance, result_provider_rejection, reason_none};
ghost use Rattle.acct_codes.specs.Pdus.{reason_abstract_syntax, reason_transfer_syntaxes, reject_none};
ghost use Rattle.acct_codes.specs.Pdus.{reject_protocol_version};

/// The context is accepted (acceptance of p_cont_def_result_t).
pub const RESULT_ACCEPTANCE: u16 = 0;
/// The context is rejected, for a reason (provider_rejection of p_cont_def_result_t).
pub const RESULT_PROVIDER_REJECTION: u16 = 2;
/// The reason of an acceptance (reason_not_specified of p_provider_reason_t).
pub const REASON_NONE: u16 = 0;
/// The interface isn't served (abstract_syntax_not_supported of p_provider_reason_t).
pub const REASON_ABSTRACT_SYNTAX: u16 = 1;
/// No transfer syntax is (proposed_transfer_syntaxes_not_supported of p_provider_reason_t).
pub const REASON_TRANSFER_SYNTAXES: u16 = 2;
/// A bind is refused for a reason that isn't told (REASON_NOT_SPECIFIED of p_reject_reason_t).
pub const REJECT_NONE: u16 = 0;
/// A bind is refused for its version (PROTOCOL_VERSION_NOT_SUPPORTED of p_reject_reason_t).
pub const REJECT_PROTOCOL_VERSION: u16 = 4;

/// Each result and reason is the one of the standard (C706 12.6.3.1).
pub fn negotiation_is_the_standards()
    ensures result_acceptance { RESULT_ACCEPTANCE ≡ result_acceptance }
    ensures result_provider_rejection { RESULT_PROVIDER_REJECTION ≡ result_provider_rejection }
    ensures reason_none { REASON_NONE ≡ reason_none }
    ensures reason_abstract_syntax { REASON_ABSTRACT_SYNTAX ≡ reason_abstract_syntax }
    ensures reason_transfer_syntaxes { REASON_TRANSFER_SYNTAXES ≡ reason_transfer_syntaxes }
    ensures reject_none { REJECT_NONE ≡ reject_none }
    ensures reject_protocol_version { REJECT_PROTOCOL_VERSION ≡ reject_protocol_version }
{}
