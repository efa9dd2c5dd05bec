// Access control entries and lists.
ghost use Rattle.std.specs.Prelude.{◌≡◌, IfOk};

use acct_base::Seq;
use dtyp_sid::Sid;
use std::alloc::{AllocError, Global};
use std::marker::Model;

/// What an entry does with the rights that it names.
#[derive(Clone, Copy, Debug, PartialEq, Eq)]
pub enum AceKind {
    /// It grants them (ACCESS_ALLOWED_ACE, MS-DTYP 2.4.4.2).
    Allow,
    /// It refuses them (ACCESS_DENIED_ACE, MS-DTYP 2.4.4.4).
    Deny,
}

/// An access control entry: what it does with the rights of its mask for whoever has its SID (MS-DTYP 2.4.4).
#[derive(Clone, Copy, Debug, PartialEq, Eq)]
pub struct Ace {
    pub kind: AceKind,
    /// The flags of MS-DTYP 2.4.4.1, of which the access check looks at inherit-only alone.
    pub flags: u8,
    /// An access mask (MS-DTYP 2.4.3).
    pub mask: u32,
    pub sid: Sid,
}

/// An access control list: entries in the order in which they are looked at (MS-DTYP 2.4.5).
#[derive(Debug, Drop)]
pub struct Acl {
    aces: Seq<Ace>,
}

impl Model for Acl {
    ghost use Rattle.std.specs.Prelude.{List};
    ghost use Rattle.dtyp_access.specs.declared.ace.Ace.{Ace};

    ghost Value = { List Ace };

    ghost view = { λ acl. acl.aces };
}

/// The list of the entries.
pub fn make_acl(alloc: Global, aces: &[Ace]) -> Result<Acl, AllocError>
    ensures { IfOk result (λ acl. acl ≡ aces.now) }
{
    Ok(Acl::from_vec(aces.to_vec(alloc)?))
}

impl Acl {
    /// The list of a vector's entries. It takes no memory.
    pub fn from_vec(aces: Vec<Ace>) -> Self
        ensures { result ≡ aces.items }
    {
        Acl {
            aces: Seq::from_vec(aces),
        }
    }

    /// The entries in order.
    pub fn aces(&self) -> &[Ace]
        ensures { result.now ≡ self.now }
    {
        self.aces.as_slice()
    }

    /// An equal list.
    pub fn copy(&self, alloc: Global) -> Result<Self, AllocError>
        ensures { IfOk result (λ copy. copy ≡ self.now) }
    {
        make_acl(alloc, self.aces())
    }
}
