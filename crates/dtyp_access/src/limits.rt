// The limits of a descriptor's parts, which the types keep.
ghost use Rattle.std.specs.Prelude.{All};
ghost use Rattle.dtyp_access.specs.Parts.{IsAce, IsSidOrNone, IsList, AreParts, IsDescriptor, HasFewAces};

use crate::{Ace, Acl, Descriptor, Parts};
use dtyp_sid::Sid;

impl Descriptor {
    /// A law: each descriptor whose list has at most 800 entries keeps the limits of its parts.
    pub fn keeps_limits(&self)
        requires { HasFewAces self.now.acl }
        ensures { IsDescriptor self.now }
    {
        self.owner.keeps_limits();
        sid_limits(&self.group);
        list_limits(&self.acl);
    }
}

impl Parts {
    /// A law: parts whose list has at most 800 entries keep their limits.
    pub fn keep_limits(&self)
        requires { HasFewAces self.now.acl }
        ensures { AreParts self.now }
    {
        sid_limits(&self.owner);
        sid_limits(&self.group);
        list_limits(&self.acl);
    }
}

fn sid_limits(sid: &Option<Sid>)
    ensures { IsSidOrNone sid.now }
{
    if let Some(sid) = sid {
        sid.keeps_limits();
    }
}

fn list_limits(acl: &Option<Acl>)
    requires { HasFewAces acl.now }
    ensures { IsList acl.now }
{
    if let Some(acl) = acl {
        aces_limits(acl.aces());
    }
}

fn aces_limits(aces: &[Ace])
    ensures { All IsAce aces.now }
{
    for ace in aces {
        ace_limits(ace);
    }
}

fn ace_limits(ace: &Ace)
    ensures { IsAce ace.now }
{
    let _flags = ace.flags;
    let _mask = ace.mask;
    ace.sid.keeps_limits();
}
