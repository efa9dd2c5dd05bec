//! The causes for which a PDU is refused and its connection closed, as this project numbers them.
ghost use Rattle.std.specs.Prelude.{◌≡◌};
ghost use Rattle.acct_codes.specs.Pdus.{cause_version, cause_representation, cause_packet_type, cause_length};
ghost use Rattle.acct_codes.specs.Pdus.{cause_verifier, cause_body, cause_first_twice, cause_no_first};
ghost use Rattle.acct_codes.specs.Pdus.{cause_stub_too_long, cause_bind_order, cause_too_many_contexts};

/// The version isn't 5.0 or 5.1.
pub const CAUSE_VERSION: u8 = 1;
/// The data representation isn't little-endian, ASCII, IEEE.
pub const CAUSE_REPRESENTATION: u8 = 2;
/// The type isn't one that this side reads.
pub const CAUSE_PACKET_TYPE: u8 = 3;
/// The fragment is shorter than the least of its type.
pub const CAUSE_LENGTH: u8 = 4;
/// There is an authentication verifier.
pub const CAUSE_VERIFIER: u8 = 5;
/// The body of a binding PDU has no reading.
pub const CAUSE_BODY: u8 = 6;
/// A first fragment while a request is being gathered.
pub const CAUSE_FIRST_TWICE: u8 = 7;
/// A further fragment while no request with its call id is being gathered.
pub const CAUSE_NO_FIRST: u8 = 8;
/// The gathered stub would be too long.
pub const CAUSE_STUB_TOO_LONG: u8 = 9;
/// A bind after a bind, or another PDU before the bind.
pub const CAUSE_BIND_ORDER: u8 = 10;
/// The accepted presentation contexts would be too many.
pub const CAUSE_TOO_MANY_CONTEXTS: u8 = 11;

/// Each cause has its number.
pub fn causes_are_numbered()
    ensures version { CAUSE_VERSION ≡ cause_version }
    ensures representation { CAUSE_REPRESENTATION ≡ cause_representation }
    ensures packet_type { CAUSE_PACKET_TYPE ≡ cause_packet_type }
    ensures length { CAUSE_LENGTH ≡ cause_length }
    ensures verifier { CAUSE_VERIFIER ≡ cause_verifier }
    ensures body { CAUSE_BODY ≡ cause_body }
    ensures first_twice { CAUSE_FIRST_TWICE ≡ cause_first_twice }
    ensures no_first { CAUSE_NO_FIRST ≡ cause_no_first }
    ensures stub_too_long { CAUSE_STUB_TOO_LONG ≡ cause_stub_too_long }
    ensures bind_order { CAUSE_BIND_ORDER ≡ cause_bind_order }
    ensures too_many_contexts { CAUSE_TOO_MANY_CONTEXTS ≡ cause_too_many_contexts }
{}
