// What is fixed for an operation before its conditions: its profile.
ghost use Rattle.std.specs.Prelude.{◌≡◌};
ghost use Rattle.acct_rules.specs.Profiles.{needed_bits, change_bits, asking};

use crate::asked::{class_of, has_asked_account, named_info};
use acct_calls::{Args, Face};
use acct_codes::Kind;
use acct_codes::security_information::{
    DACL_SECURITY_INFORMATION, GROUP_SECURITY_INFORMATION, OWNER_SECURITY_INFORMATION,
};
use acct_codes::standard_rights::{WRITE_DAC, WRITE_OWNER};
use acct_rows::Rows;

/// The kinds of objects whose handles an operation takes.
#[derive(Clone, Copy, Debug, PartialEq, Eq)]
pub enum Kinds {
    Only(Kind),
    /// Each kind of the account database.
    Samr,
    /// A domain, and each kind that stands in one.
    InDomain,
    /// Each kind of the policy.
    Lsa,
}

impl Kinds {
    ghost use Rattle.acct_rules.specs.Profiles.{takes};

    /// Whether it is one of the kinds.
    pub fn takes(self, kind: Kind) -> bool
        ensures { result ≡ takes self kind }
    {
        match self {
            Kinds::Only(only) => only == kind,
            Kinds::Samr => !matches!(kind, Kind::Policy | Kind::Account),
            Kinds::InDomain => matches!(
                kind,
                Kind::Domain | Kind::Group | Kind::Alias | Kind::User
            ),
            Kinds::Lsa => matches!(kind, Kind::Policy | Kind::Account),
        }
    }
}

/// Which handle a call of an operation brings.
#[derive(Clone, Copy, Debug, PartialEq, Eq)]
pub enum Brings {
    Nothing,
    /// One to an object of these kinds.
    Handle(Kinds),
}

/// Which bits the grant of the handle must have.
#[derive(Clone, Copy, Debug, PartialEq, Eq)]
pub enum Needs {
    Bits(u32),
    /// Some for an information class, and others for each other class.
    ByClass { class: u16, bits: u32, others: u32 },
    /// Some where the policy has an account of the SID that is asked for, and others where it has none.
    ByAccount { bits: u32, missing: u32 },
    /// WRITE_OWNER where the owner or the group of a security descriptor is set, WRITE_DAC where its list is.
    ByParts,
}

/// Where memory may run out, of a call whose handle passed.
#[derive(Clone, Copy, Debug, PartialEq, Eq)]
pub enum Memory {
    Never,
    /// Only where no condition fails, that of an opening included.
    AfterConditions,
    /// Only where no condition fails, that of an opening left out, which comes last.
    BeforeOpening,
    Anywhere,
}

/// What is fixed for an operation: the interface and opnum by which it is called, the handle that it takes, the bits
/// that the handle's grant must have, and where memory may run out.
#[derive(Clone, Copy, Debug, PartialEq, Eq)]
pub struct Profile {
    pub face: Face,
    pub opnum: u16,
    pub brings: Brings,
    pub needs: Needs,
    pub memory: Memory,
}

/// The profile of an operation that brings a handle to an object of these kinds, whose grant has these bits.
pub fn asking(face: Face, opnum: u16, kinds: Kinds, bits: u32, memory: Memory) -> Profile
    ensures { result ≡ asking face opnum kinds bits memory }
{
    Profile {
        face,
        opnum,
        brings: Brings::Handle(kinds),
        needs: Needs::Bits(bits),
        memory,
    }
}

// The bits that a change of the named parts of a descriptor needs.
#[tactic(auto, unfolding(dtyp_access::specs::Granted::shares))]
fn change_bits(info: u32) -> u32
    ensures { result ≡ change_bits info }
{
    let owner = if info & (OWNER_SECURITY_INFORMATION + GROUP_SECURITY_INFORMATION) != 0 {
        WRITE_OWNER
    } else {
        0
    };
    let list = if info & DACL_SECURITY_INFORMATION != 0 {
        WRITE_DAC
    } else {
        0
    };
    owner + list
}

/// The bits that the handle's grant must have.
pub fn needed_bits(needs: Needs, rows: &Rows, args: &Args) -> u32
    ensures { result ≡ needed_bits needs rows.now.lists args.now }
{
    match needs {
        Needs::Bits(bits) => bits,
        Needs::ByClass {
            class,
            bits,
            others,
        } => {
            if class_of(args) == class {
                bits
            } else {
                others
            }
        }
        Needs::ByAccount { bits, missing } => {
            if has_asked_account(rows, args) {
                bits
            } else {
                missing
            }
        }
        Needs::ByParts => change_bits(named_info(args)),
    }
}
