// Replies of the two interfaces, and what they bring.
use crate::{
    Bytes, DisplayRows, Handle, Info, Name, NamedList, Names, Places, PrivilegeSet, RidBitsList,
    RidNames, Rids, SidRefs, Sids, Translated,
};
use dtyp_sid::Sid;

/// What a call is answered: a fault of RPC with its status, or the operation's status and outputs.
#[derive(Debug, Drop)]
pub enum Reply {
    Fault(u32),
    Done { status: u32, outs: Outs },
}

/// The outputs of a reply, before its status. An `Option` that is a field of a variant is `None` for a null pointer.
#[derive(Debug, Drop)]
pub enum Outs {
    Nothing,
    Handle(Handle),
    /// The handle of a new account, the access that it was granted, and the account's relative identifier.
    Created {
        handle: Handle,
        granted: u32,
        rid: u32,
    },
    OneSid(Option<Sid>),
    /// A page of an enumeration, and where the next one begins.
    Page {
        context: u32,
        entries: Option<RidNames>,
    },
    /// What was asked for, by its class. Without a value the class is 0.
    Shown {
        class: u16,
        value: Option<Info>,
    },
    RidList(Rids),
    /// Relative identifiers of names, and for each of these what it is used for.
    RidUses {
        rids: Rids,
        uses: Rids,
    },
    /// Names of relative identifiers, and for each of these what it is used for.
    NameUses {
        names: Names,
        uses: Rids,
    },
    /// Members, or groups, and their attributes.
    Pairs(Option<RidBitsList>),
    SidList(Sids),
    SidPage {
        context: u32,
        sids: Sids,
    },
    PrivilegePage {
        context: u32,
        entries: RidNames,
    },
    Privileges(Option<PrivilegeSet>),
    Bits(u32),
    Luid {
        low: u32,
        high: u32,
    },
    OneName(Option<Name>),
    NameList(Names),
    /// Translated names, and how many of them are mapped.
    Sids {
        domains: Places,
        entries: Translated,
        mapped: u32,
    },
    /// Translated SIDs, and how many of them are mapped.
    Names {
        domains: Places,
        entries: NamedList,
        mapped: u32,
    },
    /// Translated names with their SIDs, and how many of them are mapped.
    SidRefs {
        domains: Places,
        entries: SidRefs,
        mapped: u32,
    },
    /// Accounts as they are displayed, by the class that was asked for: how many bytes there are from where it was
    /// asked on, and how many are given.
    Display {
        class: u16,
        total: u32,
        returned: u32,
        entries: DisplayRows,
    },
    /// The bytes of a security descriptor.
    Security(Option<Bytes>),
}
