// Abstract and transfer syntaxes, by a UUID and a version.
ghost use Rattle.std.specs.Prelude.{◌≡◌, ◌↔◌, IsTrue};
ghost use Rattle.rpc_pdu.specs.Headers.{samr, lsarpc, ndr, same_syntax};

use acct_base::is_same;
use uuid::Uuid;

/// A presentation syntax (`p_syntax_id_t`): the UUID of an interface or of a transfer syntax, and its version word.
#[derive(Clone, Copy, Debug)]
pub struct Syntax {
    /// A contract sees its 16 bytes. In a PDU the first three fields stand with the low byte first.
    pub id: Uuid,
    /// The major version in the low half, the minor version in the high half.
    pub version: u32,
}

/// The account database, SAMR version 1 (MS-SAMR, section 1.9).
pub fn samr() -> Syntax
    ensures { result ≡ samr }
{
    Syntax {
        id: Uuid::from_bytes([
            0x12, 0x34, 0x57, 0x78, 0x12, 0x34, 0xab, 0xcd, 0xef, 0x00, 0x01, 0x23, 0x45, 0x67,
            0x89, 0xac,
        ]),
        version: 1,
    }
}

/// Policy and translation, LSARPC version 0 (MS-LSAD, section 1.9; MS-LSAT, section 1.9).
pub fn lsarpc() -> Syntax
    ensures { result ≡ lsarpc }
{
    Syntax {
        id: Uuid::from_bytes([
            0x12, 0x34, 0x57, 0x78, 0x12, 0x34, 0xab, 0xcd, 0xef, 0x00, 0x01, 0x23, 0x45, 0x67,
            0x89, 0xab,
        ]),
        version: 0,
    }
}

/// The transfer syntax NDR version 2 (C706, appendix I).
pub fn ndr() -> Syntax
    ensures { result ≡ ndr }
{
    Syntax {
        id: Uuid::from_bytes([
            0x8a, 0x88, 0x5d, 0x04, 0x1c, 0xeb, 0x11, 0xc9, 0x9f, 0xe8, 0x08, 0x00, 0x2b, 0x10,
            0x48, 0x60,
        ]),
        version: 2,
    }
}

/// Whether two syntaxes have the same UUID and the same version word.
pub fn is_same_syntax(left: &Syntax, right: &Syntax) -> bool
    ensures value { result ≡ same_syntax left.now right.now }
    ensures same { IsTrue result ↔ (left.now ≡ right.now) }
{
    is_same(left.id.as_bytes(), right.id.as_bytes()) && left.version == right.version
}
