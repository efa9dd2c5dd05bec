// Calls of the two interfaces, and what they bring.
ghost use Rattle.std.specs.Prelude.{◌≡◌};
ghost use Rattle.acct_calls.specs.Calls.{samr_call, lsa_call};

use crate::{Bytes, Handle, Info, Name, Names, PrivilegeSet, Rids, Sids};
use dtyp_sid::Sid;

/// The interface that a call belongs to.
#[derive(Clone, Copy, Debug, PartialEq, Eq)]
pub enum Face {
    /// The account database (MS-SAMR).
    Samr,
    /// Policy, rights and translation (MS-LSAD, MS-LSAT).
    Lsa,
}

/// A call of an operation, by its interface and its opnum. Where the operation takes no handle, it is the zero handle.
#[derive(Debug, Drop)]
pub struct Call {
    pub face: Face,
    pub opnum: u16,
    pub handle: Handle,
    pub args: Args,
}

/// What a call brings after its handle.
#[derive(Debug, Drop)]
pub enum Args {
    Nothing,
    /// The access that an opening asks for.
    Access(u32),
    /// An opening of an account.
    AccessRid {
        access: u32,
        rid: u32,
    },
    /// An opening of a domain, or of an account of the policy.
    AccessSid {
        access: u32,
        sid: Sid,
    },
    /// A new account, with the control bits that it begins with, and the access that its opening asks for.
    Make {
        name: Name,
        bits: u32,
        access: u32,
    },
    /// A page of an enumeration: where it begins, the control bits that an entry needs (0 for any), and the length
    /// that is preferred.
    Page {
        context: u32,
        filter: u32,
        preferred: u32,
    },
    /// Accounts to be displayed, by a class: how many of them are passed over, how many are asked for at most, and the
    /// length that is preferred.
    Display {
        class: u16,
        index: u32,
        count: u32,
        preferred: u32,
    },
    /// The class of what is asked for.
    Class(u16),
    /// What is set, by its class.
    Put {
        class: u16,
        value: Info,
    },
    Rid(u32),
    /// A member and its attributes.
    RidBits {
        rid: u32,
        bits: u32,
    },
    OneSid(Sid),
    SidList(Sids),
    NameList(Names),
    RidList(Rids),
    OneName(Option<Name>),
    /// A privilege, by the two parts of its LUID.
    Luid {
        low: u32,
        high: u32,
    },
    Bits(u32),
    /// Privileges that are added or taken away; with `all`, each one.
    Privileges {
        all: bool,
        set: Option<PrivilegeSet>,
    },
    /// Rights, by their names, that are added or taken away; with `all`, each one.
    Rights {
        sid: Sid,
        all: bool,
        names: Names,
    },
    /// Names to be translated.
    LookNames {
        level: u16,
        names: Names,
    },
    /// SIDs to be translated.
    LookSids {
        level: u16,
        sids: Sids,
    },
    /// An opening of the policy, and whether its object attributes name a root.
    Policy {
        rooted: bool,
        access: u32,
    },
    /// Which parts of a security descriptor are set (SECURITY_INFORMATION, MS-DTYP 2.4.7), and the bytes of one that
    /// has them.
    Security {
        info: u32,
        bytes: Bytes,
    },
}

/// The call of an operation of the account database (MS-SAMR). Where it takes no handle, that is the zero handle.
pub fn samr_call(opnum: u16, handle: Handle, args: Args) -> Call
    ensures { result ≡ samr_call opnum handle args }
{
    Call {
        face: Face::Samr,
        opnum,
        handle,
        args,
    }
}

/// The call of an operation of the policy, on rights, or of translation (MS-LSAD, MS-LSAT), with its handle likewise.
pub fn lsa_call(opnum: u16, handle: Handle, args: Args) -> Call
    ensures { result ≡ lsa_call opnum handle args }
{
    Call {
        face: Face::Lsa,
        opnum,
        handle,
        args,
    }
}
