// The keys of the tables.
ghost use Rattle.std.specs.Prelude.{[], ◌∷◌};
ghost use Rattle.acct_tables.specs.Keys.{object_key};
ghost use Rattle.acct_tables.specs.Keys.{domain_key, account_key, member_key, alias_key, lsa_key, sid_key, desc_key};
ghost use Rattle.acct_tables.specs.Keys.{out_key};
ghost use Rattle.acct_tables.specs.steps.Indexes.{held, membership_key};
ghost use Rattle.acct_tables.specs.steps.Primaries.{primary_key};
ghost use Rattle.acct_tables.specs.steps.Users.{user_key};

use crate::groups::ByUser;
use crate::keyed::Keyed;
use crate::membership::Membership;
use crate::object::Object;
use crate::primaries::ByPrimary;
use crate::row::{AccountRow, AliasRow, DescRow, DomainRow, LsaRow, MemberRow, OutRow};
use dtyp_sid::Sid;
use std::cmp::Ordering;

impl Keyed for DomainRow {
    type Key = u8;

    ghost key_of = { domain_key };

    ghost path = { λ number. number ∷ [] };

    fn key(&self) -> u8 {
        self.number
    }

    fn order(row: &Self, key: &u8) -> Ordering {
        row.number.cmp(key)
    }
}

impl Keyed for AccountRow {
    type Key = (u8, u32);

    ghost key_of = { account_key };

    ghost path = { λ key. key.0 ∷ key.1 ∷ [] };

    fn key(&self) -> (u8, u32) {
        (self.domain, self.rid)
    }

    fn order(row: &Self, key: &(u8, u32)) -> Ordering {
        row.domain.cmp(&key.0).then(row.rid.cmp(&key.1))
    }
}

impl Keyed for MemberRow {
    type Key = (u32, u32);

    ghost key_of = { member_key };

    ghost path = { λ key. key.0 ∷ key.1 ∷ [] };

    fn key(&self) -> (u32, u32) {
        (self.group, self.user)
    }

    fn order(row: &Self, key: &(u32, u32)) -> Ordering {
        row.group.cmp(&key.0).then(row.user.cmp(&key.1))
    }
}

impl Keyed for AliasRow {
    type Key = (u8, u32, Sid);

    ghost key_of = { alias_key };

    ghost path = { λ key. key.0 ∷ key.1 ∷ sid_key key.2 };

    fn key(&self) -> (u8, u32, Sid) {
        (self.domain, self.alias, self.member)
    }

    fn order(row: &Self, key: &(u8, u32, Sid)) -> Ordering {
        row.domain
            .cmp(&key.0)
            .then(row.alias.cmp(&key.1))
            .then(row.member.cmp(&key.2))
    }
}

impl Keyed for LsaRow {
    type Key = Sid;

    ghost key_of = { lsa_key };

    ghost path = { sid_key };

    fn key(&self) -> Sid {
        self.sid
    }

    fn order(row: &Self, key: &Sid) -> Ordering {
        row.sid.cmp(key)
    }
}

impl Keyed for DescRow {
    type Key = Object;

    ghost key_of = { desc_key };

    ghost path = { object_key };

    fn key(&self) -> Object {
        self.object
    }

    fn order(row: &Self, key: &Object) -> Ordering {
        row.object.order(key)
    }
}

impl Keyed for OutRow {
    type Key = u64;

    ghost key_of = { out_key };

    ghost path = { λ number. number ∷ [] };

    fn key(&self) -> u64 {
        self.number
    }

    fn order(row: &Self, key: &u64) -> Ordering {
        row.number.cmp(key)
    }
}

impl Keyed for Membership {
    type Key = (Sid, u8, u32);

    ghost key_of = { membership_key };

    ghost path = { λ key. held key.0 key.1 key.2 };

    fn key(&self) -> (Sid, u8, u32) {
        (self.member, self.domain, self.alias)
    }

    fn order(row: &Self, key: &(Sid, u8, u32)) -> Ordering {
        row.member
            .cmp(&key.0)
            .then(row.domain.cmp(&key.1))
            .then(row.alias.cmp(&key.2))
    }
}

impl Keyed for ByUser {
    type Key = (u32, u32);

    ghost key_of = { user_key };

    ghost path = { λ key. key.0 ∷ key.1 ∷ [] };

    fn key(&self) -> (u32, u32) {
        (self.row.user, self.row.group)
    }

    fn order(row: &Self, key: &(u32, u32)) -> Ordering {
        row.row.user.cmp(&key.0).then(row.row.group.cmp(&key.1))
    }
}

impl Keyed for ByPrimary {
    type Key = (u32, u8, u32);

    ghost key_of = { primary_key };

    ghost path = { λ key. key.0 ∷ key.1 ∷ key.2 ∷ [] };

    fn key(&self) -> (u32, u8, u32) {
        (self.primary, self.domain, self.rid)
    }

    fn order(row: &Self, key: &(u32, u8, u32)) -> Ordering {
        row.primary
            .cmp(&key.0)
            .then(row.domain.cmp(&key.1))
            .then(row.rid.cmp(&key.2))
    }
}
