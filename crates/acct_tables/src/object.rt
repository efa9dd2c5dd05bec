// What a handle stands for.
ghost use Rattle.std.specs.Prelude.{◌≡◌};
ghost use Rattle.acct_tables.specs.KeyedRows.{compare};
ghost use Rattle.acct_tables.specs.Keys.{sid_part};

use acct_codes::Kind;
use dtyp_sid::Sid;
use std::cmp::Ordering;

/// What a handle stands for. Groups and users are of the account domain, by their RID; an alias is of a domain; an
/// account is one of the policy.
#[derive(Clone, Copy, Debug, PartialEq, Eq)]
pub enum Object {
    Server,
    Domain(u8),
    Group(u32),
    Alias(u8, u32),
    User(u32),
    Policy,
    Account(Sid),
}

impl Object {
    ghost use Rattle.acct_tables.specs.KeyedRows.{compare};
    ghost use Rattle.acct_tables.specs.Keys.{kind_of, domain_of, rid_of, same_object, rank_of, object_key};

    /// The kind of the object.
    pub fn kind(self) -> Kind
        ensures { result ≡ kind_of self }
    {
        match self {
            Object::Server => Kind::Server,
            Object::Domain(_) => Kind::Domain,
            Object::Group(_) => Kind::Group,
            Object::Alias(_, _) => Kind::Alias,
            Object::User(_) => Kind::User,
            Object::Policy => Kind::Policy,
            Object::Account(_) => Kind::Account,
        }
    }

    /// The domain that the object is, or is of; 0 for the others.
    pub fn domain(self) -> u8
        ensures { result ≡ domain_of self }
    {
        match self {
            Object::Domain(number) => number,
            Object::Alias(domain, _) => domain,
            _ => 0,
        }
    }

    /// The relative identifier of a group, an alias or a user; 0 for the others.
    pub fn rid(self) -> u32
        ensures { result ≡ rid_of self }
    {
        match self {
            Object::Group(rid) | Object::Alias(_, rid) | Object::User(rid) => rid,
            _ => 0,
        }
    }

    /// Whether it is the other object.
    pub fn same(self, other: Object) -> bool
        ensures { result ≡ same_object self other }
    {
        self == other
    }

    // The place of its kind among the kinds of objects.
    fn rank(&self) -> u8
        ensures { result ≡ rank_of self.now }
    {
        match self {
            Object::Server => 0,
            Object::Domain(_) => 1,
            Object::Group(_) => 2,
            Object::Alias(_, _) => 3,
            Object::User(_) => 4,
            Object::Policy => 5,
            Object::Account(_) => 6,
        }
    }

    /// The order of objects: by kind, domain, relative identifier and SID.
    pub fn order(&self, other: &Object) -> Ordering
        ensures { result ≡ compare (object_key self.now) (object_key other.now) }
    {
        let ranks = self.rank().cmp(&other.rank());
        let domains = self.domain().cmp(&other.domain());
        let rids = self.rid().cmp(&other.rid());
        ranks.then(domains.then(rids.then(order_sids(self, other))))
    }
}

fn order_sids(left: &Object, right: &Object) -> Ordering
    ensures { result ≡ compare (sid_part left.now) (sid_part right.now) }
{
    match left {
        Object::Account(sid) => match right {
            Object::Account(other) => sid.cmp(other),
            _ => Ordering::Greater,
        },
        _ => match right {
            Object::Account(_) => Ordering::Less,
            _ => Ordering::Equal,
        },
    }
}
