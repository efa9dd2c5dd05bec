// The bytes that rows are stored as.
ghost use Rattle.std.specs.Prelude.{◌≡◌, ◌^◌, ◌<◌, ◌++◌, length, All, IfOk, OnOk};
ghost use Rattle.std.specs.Int.{w16, to_le_bytes};
ghost use Rattle.std.specs.List.{flat_map};
ghost use Rattle.dtyp_sid.specs.Sids.{bytes_of};
ghost use Rattle.acct_keeper.specs.declared.pairs.Pair.{Pair as Stored};
ghost use Rattle.acct_tables.specs.Spelled.{text_bytes, rid_bytes, count_bytes, number_bytes, kind_byte, held_bytes};
ghost use Rattle.acct_tables.specs.Spelled.{object_bytes, stored_key, domain_value, account_value, lsa_value};
ghost use Rattle.acct_tables.specs.Spelled.{out_value, next_out_value, pair_of, format_pair, next_out_pair};
ghost use Rattle.acct_tables.specs.Spelled.{FitsDomain, FitsAccount, FitsMember, FitsAlias, FitsLsa, FitsHeld, FitsDesc};
ghost use Rattle.acct_tables.specs.Spelled.{FitsOut, key_of, Fits};
ghost use Rattle.acct_tables.specs.declared.row.Row.TheVariants as rows;

use crate::object::Object;
use crate::row::{
    AccountRow, AliasRow, DescRow, DomainRow, Held, LsaRow, MemberRow, OutRow, Row, RowKey,
};
use acct_base::{Seq, push_u16, push_u32};
use acct_calls::Name;
use acct_codes::Kind;
use acct_keeper::Pair;
use dtyp_access::write_descriptor;
use dtyp_sid::Sid;
use dtyp_sid::laws::written_bytes_have_lengths;
use std::alloc::{AllocError, Global};

fn push_units(out: &mut Vec<u8>, units: &[u16]) -> Result<(), AllocError>
    ensures { OnOk result (out.new.items ≡ out.old.items ++ flat_map (to_le_bytes w16) units.now) }
{
    for unit in units {
        push_u16(out, *unit)?;
    }
    Ok(())
}

#[tactic(auto, unfolding(crate::specs::Spelled::text_bytes))]
fn push_text(out: &mut Vec<u8>, text: &Name) -> Result<(), AllocError>
    requires { length text.now < 2 ^ 16 }
    ensures { OnOk result (out.new.items ≡ out.old.items ++ text_bytes text.now) }
{
    let units = text.units();
    push_u16(out, units.len() as u16)?;
    push_units(out, units)
}

#[tactic(auto, unfolding(crate::specs::Spelled::rid_bytes))]
fn push_rid(out: &mut Vec<u8>, rid: u32) -> Result<(), AllocError>
    ensures { OnOk result (out.new.items ≡ out.old.items ++ rid_bytes rid) }
{
    out.extend_from_slice(&rid.to_be_bytes())
}

#[tactic(auto, unfolding(crate::specs::Spelled::number_bytes))]
fn push_number(out: &mut Vec<u8>, number: u32) -> Result<(), AllocError>
    ensures { OnOk result (out.new.items ≡ out.old.items ++ number_bytes number) }
{
    push_u32(out, number)
}

fn push_sid(out: &mut Vec<u8>, sid: &Sid) -> Result<(), AllocError>
    ensures { OnOk result (out.new.items ≡ out.old.items ++ bytes_of sid.now) }
{
    written_bytes_have_lengths();
    let mut bytes = [0; 68];
    let size = sid.to_bytes(&mut bytes);
    out.extend_from_slice(&bytes[..size])
}

#[tactic(auto, unfolding(crate::specs::Spelled::count_bytes))]
fn push_count(out: &mut Vec<u8>, number: u64) -> Result<(), AllocError>
    ensures { OnOk result (out.new.items ≡ out.old.items ++ count_bytes number) }
{
    out.extend_from_slice(&number.to_be_bytes())
}

// The kind of an object by its rank, then its domain, its RID or its SID.
fn push_object(out: &mut Vec<u8>, object: &Object) -> Result<(), AllocError>
    ensures { OnOk result (out.new.items ≡ out.old.items ++ object_bytes object.now) }
{
    match *object {
        Object::Server => out.extend_from_slice(&[0]),
        Object::Domain(number) => out.extend_from_slice(&[1, number]),
        Object::Group(rid) => {
            out.push(2)?;
            push_rid(out, rid)
        }
        Object::Alias(domain, rid) => {
            out.extend_from_slice(&[3, domain])?;
            push_rid(out, rid)
        }
        Object::User(rid) => {
            out.push(4)?;
            push_rid(out, rid)
        }
        Object::Policy => out.extend_from_slice(&[5]),
        Object::Account(sid) => {
            out.push(6)?;
            push_sid(out, &sid)
        }
    }
}

fn push_key(out: &mut Vec<u8>, key: &RowKey) -> Result<(), AllocError>
    ensures { OnOk result (out.new.items ≡ out.old.items ++ stored_key key.now) }
{
    match *key {
        RowKey::Domain(number) => out.extend_from_slice(&[b'd', number]),
        RowKey::Account { domain, rid } => {
            out.extend_from_slice(&[b'a', domain])?;
            push_rid(out, rid)
        }
        RowKey::Member { group, user } => {
            out.push(b'm')?;
            push_rid(out, group)?;
            push_rid(out, user)
        }
        RowKey::Alias {
            domain,
            alias,
            member,
        } => {
            out.extend_from_slice(&[b'l', domain])?;
            push_rid(out, alias)?;
            push_sid(out, &member)
        }
        RowKey::Lsa(sid) => {
            out.push(b's')?;
            push_sid(out, &sid)
        }
        RowKey::Desc(object) => {
            out.push(b'o')?;
            push_object(out, &object)
        }
        RowKey::Out(number) => {
            out.push(b'q')?;
            push_count(out, number)
        }
    }
}

/// The key of a row in its pair.
pub fn key_bytes(alloc: Global, key: &RowKey) -> Result<Seq<u8>, AllocError>
    ensures { IfOk result (λ bytes. bytes ≡ stored_key key.now) }
{
    let mut out = Vec::new(alloc);
    push_key(&mut out, key)?;
    Ok(Seq::from_vec(out))
}

#[tactic(auto, unfolding(crate::specs::Spelled::domain_value))]
fn domain_value(alloc: Global, domain: &DomainRow) -> Result<Seq<u8>, AllocError>
    requires name { length domain.now.name < 2 ^ 16 }
    requires oem { length domain.now.oem < 2 ^ 16 }
    ensures { IfOk result (λ bytes. bytes ≡ domain_value domain.now) }
{
    written_bytes_have_lengths();
    let mut out = Vec::new(alloc);
    push_number(&mut out, domain.next_rid)?;
    out.push((8 + 4 * domain.sid.subs().len()) as u8)?;
    push_sid(&mut out, &domain.sid)?;
    push_text(&mut out, &domain.name)?;
    push_text(&mut out, &domain.oem)?;
    Ok(Seq::from_vec(out))
}

fn kind_byte(kind: Kind) -> u8
    ensures { result ≡ kind_byte kind }
{
    match kind {
        Kind::User => 1,
        Kind::Group => 2,
        Kind::Alias => 4,
        _ => 0,
    }
}

#[tactic(auto, unfolding(crate::specs::Spelled::account_value))]
fn account_value(alloc: Global, account: &AccountRow) -> Result<Seq<u8>, AllocError>
    requires name { length account.now.name < 2 ^ 16 }
    requires full_name { length account.now.full_name < 2 ^ 16 }
    requires comment { length account.now.comment < 2 ^ 16 }
    ensures { IfOk result (λ bytes. bytes ≡ account_value account.now) }
{
    let mut out = Vec::new(alloc);
    out.push(kind_byte(account.kind))?;
    push_number(&mut out, account.bits)?;
    push_number(&mut out, account.primary)?;
    push_text(&mut out, &account.name)?;
    push_text(&mut out, &account.full_name)?;
    push_text(&mut out, &account.comment)?;
    Ok(Seq::from_vec(out))
}

fn member_value(alloc: Global, member: &MemberRow) -> Result<Seq<u8>, AllocError>
    ensures { IfOk result (λ bytes. bytes ≡ number_bytes member.now.attributes) }
{
    let mut out = Vec::new(alloc);
    push_number(&mut out, member.attributes)?;
    Ok(Seq::from_vec(out))
}

#[tactic(auto, unfolding(crate::specs::Spelled::held_bytes))]
fn push_held(out: &mut Vec<u8>, held: Held) -> Result<(), AllocError>
    requires { held.low < 2 ^ 8 }
    ensures { OnOk result (out.new.items ≡ out.old.items ++ held_bytes held) }
{
    out.push(held.low as u8)?;
    push_number(out, held.attributes)
}

fn push_privileges(out: &mut Vec<u8>, privileges: &[Held]) -> Result<(), AllocError>
    requires { All FitsHeld privileges.now }
    ensures { OnOk result (out.new.items ≡ out.old.items ++ flat_map held_bytes privileges.now) }
{
    for held in privileges {
        push_held(out, *held)?;
    }
    Ok(())
}

#[tactic(auto, unfolding(crate::specs::Spelled::lsa_value))]
fn lsa_value(alloc: Global, account: &LsaRow) -> Result<Seq<u8>, AllocError>
    requires count { length account.now.privileges < 2 ^ 8 }
    requires privileges { All FitsHeld account.now.privileges }
    ensures { IfOk result (λ bytes. bytes ≡ lsa_value account.now) }
{
    let privileges = account.privileges.as_slice();
    let mut out = Vec::new(alloc);
    push_number(&mut out, account.access)?;
    out.push(privileges.len() as u8)?;
    push_privileges(&mut out, privileges)?;
    Ok(Seq::from_vec(out))
}

#[tactic(auto, unfolding(crate::specs::Spelled::out_value))]
fn out_value(alloc: Global, row: &OutRow) -> Result<Seq<u8>, AllocError>
    requires { length row.now.name < 2 ^ 16 }
    ensures { IfOk result (λ bytes. bytes ≡ out_value row.now) }
{
    let mut out = Vec::new(alloc);
    out.push(row.action)?;
    out.push(row.domain)?;
    push_number(&mut out, row.rid)?;
    out.push(kind_byte(row.kind))?;
    push_text(&mut out, &row.name)?;
    Ok(Seq::from_vec(out))
}

#[tactic(auto, unfolding(crate::specs::Spelled::next_out_value))]
fn next_out_value(alloc: Global, next: u64) -> Result<Seq<u8>, AllocError>
    ensures { IfOk result (λ bytes. bytes ≡ next_out_value next) }
{
    Seq::copy_of(alloc, &next.to_le_bytes())
}

/// The pair that tells the next out number.
pub fn next_out_pair(alloc: Global, next: u64) -> Result<Pair, AllocError>
    ensures { IfOk result (λ pair. pair ≡ next_out_pair next) }
{
    Ok(Pair {
        key: Seq::copy_of(alloc, b"n")?,
        value: next_out_value(alloc, next)?,
    })
}

/// The pair that says which format the others have.
pub fn format_pair(alloc: Global) -> Result<Pair, AllocError>
    ensures { IfOk result (λ pair. pair ≡ format_pair) }
{
    Ok(Pair {
        key: Seq::copy_of(alloc, b"f")?,
        value: Seq::copy_of(alloc, &[2])?,
    })
}

/// A row that is stored as a pair.
pub trait Paired: Drop {
    /// What a row is asked for to have a pair.
    ghost fits: { Self → Type 0 };

    /// The pair.
    ghost stored: { Self → Stored };

    /// The pair that the row is stored as.
    fn pair(&self, alloc: Global) -> Result<Pair, AllocError>
        requires { fits self.now }
        ensures { IfOk result (λ pair. pair ≡ stored self.now) };
}

impl Paired for DomainRow {
    ghost fits = { FitsDomain };

    ghost stored = { λ row. pair_of (rows.Domain row) };

    fn pair(&self, alloc: Global) -> Result<Pair, AllocError> {
        Ok(Pair {
            key: key_bytes(alloc, &RowKey::Domain(self.number))?,
            value: domain_value(alloc, self)?,
        })
    }
}

impl Paired for AccountRow {
    ghost fits = { FitsAccount };

    ghost stored = { λ row. pair_of (rows.Account row) };

    fn pair(&self, alloc: Global) -> Result<Pair, AllocError> {
        let key = RowKey::Account {
            domain: self.domain,
            rid: self.rid,
        };
        Ok(Pair {
            key: key_bytes(alloc, &key)?,
            value: account_value(alloc, self)?,
        })
    }
}

impl Paired for MemberRow {
    ghost fits = { FitsMember };

    ghost stored = { λ row. pair_of (rows.Member row) };

    fn pair(&self, alloc: Global) -> Result<Pair, AllocError> {
        let key = RowKey::Member {
            group: self.group,
            user: self.user,
        };
        Ok(Pair {
            key: key_bytes(alloc, &key)?,
            value: member_value(alloc, self)?,
        })
    }
}

impl Paired for AliasRow {
    ghost fits = { FitsAlias };

    ghost stored = { λ row. pair_of (rows.Alias row) };

    fn pair(&self, alloc: Global) -> Result<Pair, AllocError> {
        let key = RowKey::Alias {
            domain: self.domain,
            alias: self.alias,
            member: self.member,
        };
        Ok(Pair {
            key: key_bytes(alloc, &key)?,
            value: Seq::new(alloc),
        })
    }
}

impl Paired for LsaRow {
    ghost fits = { FitsLsa };

    ghost stored = { λ row. pair_of (rows.Lsa row) };

    fn pair(&self, alloc: Global) -> Result<Pair, AllocError> {
        Ok(Pair {
            key: key_bytes(alloc, &RowKey::Lsa(self.sid))?,
            value: lsa_value(alloc, self)?,
        })
    }
}

impl Paired for DescRow {
    ghost fits = { FitsDesc };

    ghost stored = { λ row. pair_of (rows.Desc row) };

    fn pair(&self, alloc: Global) -> Result<Pair, AllocError> {
        Ok(Pair {
            key: key_bytes(alloc, &RowKey::Desc(self.object))?,
            value: Seq::from_vec(write_descriptor(alloc, &self.descriptor)?),
        })
    }
}

impl Paired for OutRow {
    ghost fits = { FitsOut };

    ghost stored = { λ row. pair_of (rows.Out row) };

    fn pair(&self, alloc: Global) -> Result<Pair, AllocError> {
        Ok(Pair {
            key: key_bytes(alloc, &RowKey::Out(self.number))?,
            value: out_value(alloc, self)?,
        })
    }
}

/// The key of a row.
pub fn row_key(row: &Row) -> RowKey
    ensures { result ≡ key_of row.now }
{
    match row {
        Row::Domain(domain) => RowKey::Domain(domain.number),
        Row::Account(account) => RowKey::Account {
            domain: account.domain,
            rid: account.rid,
        },
        Row::Member(member) => RowKey::Member {
            group: member.group,
            user: member.user,
        },
        Row::Alias(alias) => RowKey::Alias {
            domain: alias.domain,
            alias: alias.alias,
            member: alias.member,
        },
        Row::Lsa(account) => RowKey::Lsa(account.sid),
        Row::Desc(row) => RowKey::Desc(row.object),
        Row::Out(row) => RowKey::Out(row.number),
    }
}

/// The pair that a row is stored as.
pub fn row_pair(alloc: Global, row: &Row) -> Result<Pair, AllocError>
    requires { Fits row.now }
    ensures { IfOk result (λ pair. pair ≡ pair_of row.now) }
{
    match row {
        Row::Domain(domain) => domain.pair(alloc),
        Row::Account(account) => account.pair(alloc),
        Row::Member(member) => member.pair(alloc),
        Row::Alias(alias) => alias.pair(alloc),
        Row::Lsa(account) => account.pair(alloc),
        Row::Desc(row) => row.pair(alloc),
        Row::Out(row) => row.pair(alloc),
    }
}
