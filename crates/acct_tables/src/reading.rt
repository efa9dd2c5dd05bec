// The rows that pairs spell.
ghost use Rattle.std.specs.Prelude.{◌≡◌, ◌&&◌, List, length, IfOk};
ghost use Rattle.std.specs.Int.{w64, from_le_bytes};
ghost use Rattle.std.specs.Result.{result_ok};
ghost use Rattle.std.specs.Str.{bytes_eq};
ghost use Rattle.dtyp_access.specs.Reading.{descriptor_of_bytes};
ghost use Rattle.dtyp_access.specs.Parts.{descriptor_bytes};
ghost use Rattle.acct_tables.specs.Spelled.{ascend};
ghost use Rattle.acct_tables.specs.Good.{are_above};
ghost use Rattle.acct_base.specs.Reading.{Reads, ReadsWhole, NeverMemory, is_end};
ghost use Rattle.acct_tables.specs.Stored.{only_if, domain_number_at, whole_sid, kind_of_byte, lettered, row_key};
ghost use Rattle.acct_tables.specs.Stored.{domain_key_of, account_key_of, member_key_of, alias_key_of, lsa_key_of};
ghost use Rattle.acct_tables.specs.Stored.{desc_key_of, out_key_of, object_of, domain_object, whole_rid, alias_object};
ghost use Rattle.acct_tables.specs.Stored.{has_few, domain_row_of, account_row_of, member_of, alias_row_of, lsa_of};
ghost use Rattle.acct_tables.specs.Stored.{desc_of, out_of, valued, row_of, next_out_of};
ghost use Rattle.acct_tables.specs.steps.Behind.{named_domain, named_account};

use crate::fields::{
    read_byte, read_count, read_number, read_privileges, read_rid, read_sid, read_text,
};
use crate::object::Object;
use crate::row::{
    AccountRow, AliasRow, DescRow, DomainRow, Held, LsaRow, MOST_NEXT_OUT, MemberRow, OutRow, Row,
    RowKey,
};
use acct_base::{Fields, Unread, is_same};
use acct_calls::NoMemory;
use acct_codes::Kind;
use acct_keeper::Pair;
use dtyp_access::{DescError, Descriptor, has_few_aces, read_descriptor, write_descriptor};
use dtyp_sid::Sid;
use std::alloc::Global;

/// The row that the pair spells exactly.
#[tactic(auto, unfolding(crate::specs::Stored::row_of))]
pub fn read_row(alloc: Global, pair: &Pair) -> Result<Row, Unread>
    ensures { ReadsWhole result (row_of pair.now) }
{
    let key = row_key(pair.key.as_slice())?;
    read_value(alloc, &key, pair.value.as_slice())
}

#[tactic(auto, unfolding(crate::specs::Stored::row_key))]
fn row_key(key: &[u8]) -> Result<RowKey, Unread>
    ensures value { ReadsWhole result (row_key key.now) }
    ensures frugal { NeverMemory result }
{
    let mut fields = Fields::new(key);
    let letter = read_byte(&mut fields)?;
    lettered(letter, fields)
}

#[tactic(auto, unfolding(crate::specs::Stored::lettered))]
fn lettered(letter: u8, fields: Fields<'_>) -> Result<RowKey, Unread>
    ensures value { ReadsWhole result (lettered letter fields.entry) }
    ensures frugal { NeverMemory result }
{
    match letter {
        b'a' => account_key(fields),
        b'd' => domain_key(fields),
        b'l' => alias_key(fields),
        b'm' => member_key(fields),
        b'o' => desc_key(fields),
        b'q' => out_key(fields),
        b's' => lsa_key(fields),
        _ => Err(Unread::Misspelled),
    }
}

#[tactic(auto, unfolding(crate::specs::Stored::domain_number_at))]
fn domain_number(fields: &mut Fields<'_>) -> Result<u8, Unread>
    ensures value { Reads result fields.new (domain_number_at fields.old) }
    ensures frugal { NeverMemory result }
{
    let number = read_byte(fields)?;
    if number > 1 {
        return Err(Unread::Misspelled);
    }
    Ok(number)
}

// The value, where no byte is left after it.
fn whole<T: Drop>(value: T, fields: &Fields<'_>) -> Result<T, Unread>
    ensures value { ReadsWhole result (only_if (is_end fields.now) value) }
    ensures frugal { NeverMemory result }
{
    if fields.is_end() {
        Ok(value)
    } else {
        Err(Unread::Misspelled)
    }
}

#[tactic(auto, unfolding(crate::specs::Stored::whole_sid))]
fn whole_sid(mut fields: Fields<'_>) -> Result<Sid, Unread>
    ensures value { ReadsWhole result (whole_sid fields.entry) }
    ensures frugal { NeverMemory result }
{
    let sid = read_sid(&mut fields)?;
    whole(sid, &fields)
}

#[tactic(auto, unfolding(crate::specs::Stored::domain_key_of))]
fn domain_key(mut fields: Fields<'_>) -> Result<RowKey, Unread>
    ensures value { ReadsWhole result (domain_key_of fields.entry) }
    ensures frugal { NeverMemory result }
{
    let number = domain_number(&mut fields)?;
    Ok(RowKey::Domain(whole(number, &fields)?))
}

#[tactic(auto, unfolding(crate::specs::Stored::account_key_of))]
fn account_key(mut fields: Fields<'_>) -> Result<RowKey, Unread>
    ensures value { ReadsWhole result (account_key_of fields.entry) }
    ensures frugal { NeverMemory result }
{
    let domain = domain_number(&mut fields)?;
    let rid = read_rid(&mut fields)?;
    let rid = whole(rid, &fields)?;
    Ok(RowKey::Account { domain, rid })
}

#[tactic(auto, unfolding(crate::specs::Stored::member_key_of))]
fn member_key(mut fields: Fields<'_>) -> Result<RowKey, Unread>
    ensures value { ReadsWhole result (member_key_of fields.entry) }
    ensures frugal { NeverMemory result }
{
    let group = read_rid(&mut fields)?;
    let user = read_rid(&mut fields)?;
    let user = whole(user, &fields)?;
    Ok(RowKey::Member { group, user })
}

#[tactic(auto, unfolding(crate::specs::Stored::alias_key_of))]
fn alias_key(mut fields: Fields<'_>) -> Result<RowKey, Unread>
    ensures value { ReadsWhole result (alias_key_of fields.entry) }
    ensures frugal { NeverMemory result }
{
    let domain = domain_number(&mut fields)?;
    let alias = read_rid(&mut fields)?;
    let member = whole_sid(fields)?;
    Ok(RowKey::Alias {
        domain,
        alias,
        member,
    })
}

#[tactic(auto, unfolding(crate::specs::Stored::lsa_key_of))]
fn lsa_key(fields: Fields<'_>) -> Result<RowKey, Unread>
    ensures value { ReadsWhole result (lsa_key_of fields.entry) }
    ensures frugal { NeverMemory result }
{
    let sid = whole_sid(fields)?;
    Ok(RowKey::Lsa(sid))
}

#[tactic(auto, unfolding(crate::specs::Stored::desc_key_of))]
fn desc_key(mut fields: Fields<'_>) -> Result<RowKey, Unread>
    ensures value { ReadsWhole result (desc_key_of fields.entry) }
    ensures frugal { NeverMemory result }
{
    let kind = read_byte(&mut fields)?;
    let object = read_object(kind, fields)?;
    Ok(RowKey::Desc(object))
}

// An object, by the number of its kind.
#[tactic(auto, unfolding(crate::specs::Stored::object_of))]
fn read_object(kind: u8, fields: Fields<'_>) -> Result<Object, Unread>
    ensures value { ReadsWhole result (object_of kind fields.entry) }
    ensures frugal { NeverMemory result }
{
    match kind {
        0 => whole(Object::Server, &fields),
        1 => domain_object(fields),
        2 => Ok(Object::Group(whole_rid(fields)?)),
        3 => alias_object(fields),
        4 => Ok(Object::User(whole_rid(fields)?)),
        5 => whole(Object::Policy, &fields),
        6 => Ok(Object::Account(whole_sid(fields)?)),
        _ => Err(Unread::Misspelled),
    }
}

#[tactic(auto, unfolding(crate::specs::Stored::domain_object))]
fn domain_object(mut fields: Fields<'_>) -> Result<Object, Unread>
    ensures value { ReadsWhole result (domain_object fields.entry) }
    ensures frugal { NeverMemory result }
{
    let number = domain_number(&mut fields)?;
    whole(Object::Domain(number), &fields)
}

#[tactic(auto, unfolding(crate::specs::Stored::whole_rid))]
fn whole_rid(mut fields: Fields<'_>) -> Result<u32, Unread>
    ensures value { ReadsWhole result (whole_rid fields.entry) }
    ensures frugal { NeverMemory result }
{
    let rid = read_rid(&mut fields)?;
    whole(rid, &fields)
}

#[tactic(auto, unfolding(crate::specs::Stored::alias_object))]
fn alias_object(mut fields: Fields<'_>) -> Result<Object, Unread>
    ensures value { ReadsWhole result (alias_object fields.entry) }
    ensures frugal { NeverMemory result }
{
    let domain = domain_number(&mut fields)?;
    let rid = read_rid(&mut fields)?;
    whole(Object::Alias(domain, rid), &fields)
}

#[tactic(auto, unfolding(crate::specs::Stored::out_key_of))]
fn out_key(mut fields: Fields<'_>) -> Result<RowKey, Unread>
    ensures value { ReadsWhole result (out_key_of fields.entry) }
    ensures frugal { NeverMemory result }
{
    let number = read_count(&mut fields)?;
    Ok(RowKey::Out(whole(number, &fields)?))
}

#[tactic(auto, unfolding(crate::specs::Stored::valued))]
fn read_value(alloc: Global, key: &RowKey, value: &[u8]) -> Result<Row, Unread>
    ensures { ReadsWhole result (valued key.now value.now) }
{
    let fields = Fields::new(value);
    match *key {
        RowKey::Domain(number) => read_domain(alloc, number, fields),
        RowKey::Account { domain, rid } => read_account(alloc, domain, rid, fields),
        RowKey::Member { group, user } => read_member(group, user, fields),
        RowKey::Alias {
            domain,
            alias,
            member,
        } => read_alias(domain, alias, member, fields),
        RowKey::Lsa(sid) => read_lsa(alloc, sid, fields),
        RowKey::Desc(object) => read_desc(alloc, object, value),
        RowKey::Out(number) => read_out(alloc, number, fields),
    }
}

#[tactic(auto, unfolding(crate::specs::Stored::domain_row_of, crate::specs::steps::Behind::named_domain))]
fn read_domain(alloc: Global, number: u8, mut fields: Fields<'_>) -> Result<Row, Unread>
    ensures { ReadsWhole result (domain_row_of number fields.entry) }
{
    let next_rid = read_number(&mut fields)?;
    let size = read_byte(&mut fields)?;
    let sid = read_sid(&mut fields)?;
    read_named_domain(alloc, number, next_rid, size, sid, fields)
}

// The domain with its texts, which stand after its other fields.
#[tactic(auto, unfolding(crate::specs::steps::Behind::named_domain))]
fn read_named_domain(
    alloc: Global,
    number: u8,
    next_rid: u32,
    size: u8,
    sid: Sid,
    mut fields: Fields<'_>,
) -> Result<Row, Unread>
    ensures { ReadsWhole result (named_domain number next_rid size sid fields.entry) }
{
    let name = read_text(alloc, &mut fields)?;
    let oem = read_text(alloc, &mut fields)?;
    if usize::from(size) != 8 + 4 * sid.subs().len() {
        return Err(Unread::Misspelled);
    }
    let row = DomainRow {
        number,
        sid,
        name,
        oem,
        next_rid,
    };
    whole(Row::Domain(row), &fields)
}

fn kind_of_byte(byte: u8) -> Result<Kind, Unread>
    ensures value { ReadsWhole result (kind_of_byte byte) }
    ensures frugal { NeverMemory result }
{
    match byte {
        1 => Ok(Kind::User),
        2 => Ok(Kind::Group),
        4 => Ok(Kind::Alias),
        _ => Err(Unread::Misspelled),
    }
}

#[tactic(auto, unfolding(crate::specs::Stored::account_row_of, crate::specs::steps::Behind::named_account))]
fn read_account(alloc: Global, domain: u8, rid: u32, mut fields: Fields<'_>) -> Result<Row, Unread>
    ensures { ReadsWhole result (account_row_of domain rid fields.entry) }
{
    let byte = read_byte(&mut fields)?;
    let kind = kind_of_byte(byte)?;
    let bits = read_number(&mut fields)?;
    let primary = read_number(&mut fields)?;
    read_named_account(alloc, domain, rid, kind, bits, primary, fields)
}

// The account with its texts, which stand after its other fields.
#[tactic(auto, unfolding(crate::specs::steps::Behind::named_account))]
fn read_named_account(
    alloc: Global,
    domain: u8,
    rid: u32,
    kind: Kind,
    bits: u32,
    primary: u32,
    mut fields: Fields<'_>,
) -> Result<Row, Unread>
    ensures { ReadsWhole result (named_account domain rid kind bits primary fields.entry) }
{
    let name = read_text(alloc, &mut fields)?;
    let full_name = read_text(alloc, &mut fields)?;
    let comment = read_text(alloc, &mut fields)?;
    let row = AccountRow {
        domain,
        rid,
        kind,
        name,
        full_name,
        comment,
        bits,
        primary,
    };
    whole(Row::Account(row), &fields)
}

#[tactic(auto, unfolding(crate::specs::Stored::member_of))]
fn read_member(group: u32, user: u32, mut fields: Fields<'_>) -> Result<Row, Unread>
    ensures value { ReadsWhole result (member_of group user fields.entry) }
    ensures frugal { NeverMemory result }
{
    let attributes = read_number(&mut fields)?;
    let row = MemberRow {
        group,
        user,
        attributes,
    };
    whole(Row::Member(row), &fields)
}

#[tactic(auto, unfolding(crate::specs::Stored::alias_row_of))]
fn read_alias(domain: u8, alias: u32, member: Sid, fields: Fields<'_>) -> Result<Row, Unread>
    ensures value { ReadsWhole result (alias_row_of domain alias member fields.entry) }
    ensures frugal { NeverMemory result }
{
    let row = AliasRow {
        domain,
        alias,
        member,
    };
    whole(Row::Alias(row), &fields)
}

// Whether privileges stand by strictly ascending low part, all above a number.
fn are_above(low: u32, privileges: &[Held]) -> bool
    ensures { result ≡ are_above low privileges.now }
{
    let mut low = low;
    for held in privileges {
        if held.low <= low {
            return false;
        }
        low = held.low;
    }
    true
}

/// Whether privileges stand by strictly ascending low part.
fn ascend(privileges: &[Held]) -> bool
    ensures { result ≡ ascend privileges.now }
{
    match privileges.split_first() {
        Some((first, others)) => are_above(first.low, others),
        None => true,
    }
}

#[tactic(auto, unfolding(crate::specs::Stored::lsa_of))]
fn read_lsa(alloc: Global, sid: Sid, mut fields: Fields<'_>) -> Result<Row, Unread>
    ensures { ReadsWhole result (lsa_of sid fields.entry) }
{
    let access = read_number(&mut fields)?;
    let count = read_byte(&mut fields)?;
    let privileges = read_privileges(alloc, &mut fields, count)?;
    if !ascend(privileges.as_slice()) {
        return Err(Unread::Misspelled);
    }
    let row = LsaRow {
        sid,
        access,
        privileges,
    };
    whole(Row::Lsa(row), &fields)
}

fn descriptor(alloc: Global, value: &[u8]) -> Result<Descriptor, Unread>
    ensures { ReadsWhole result (result_ok (descriptor_of_bytes value.now)) }
{
    match read_descriptor(alloc, value) {
        Ok(descriptor) => Ok(descriptor),
        Err(DescError::Memory) => Err(Unread::Memory),
        Err(_) => Err(Unread::Misspelled),
    }
}

// Whether the bytes are those that are written of the descriptor, whose list has no more entries than may be written.
fn is_written(alloc: Global, descriptor: &Descriptor, value: &[u8]) -> Result<bool, NoMemory>
    ensures { IfOk result (λ is. is ≡ has_few descriptor.now.acl && bytes_eq (descriptor_bytes descriptor.now) value.now) }
{
    if !has_few_aces(&descriptor.acl) {
        return Ok(false);
    }
    let written = write_descriptor(alloc, descriptor)?;
    Ok(is_same(&written, value))
}

#[tactic(auto, unfolding(crate::specs::Stored::desc_of))]
fn read_desc(alloc: Global, object: Object, value: &[u8]) -> Result<Row, Unread>
    ensures { ReadsWhole result (desc_of object value.now) }
{
    let descriptor = descriptor(alloc, value)?;
    if !is_written(alloc, &descriptor, value)? {
        return Err(Unread::Misspelled);
    }
    Ok(Row::Desc(DescRow { object, descriptor }))
}

#[tactic(auto, unfolding(crate::specs::Stored::out_of))]
fn read_out(alloc: Global, number: u64, mut fields: Fields<'_>) -> Result<Row, Unread>
    ensures { ReadsWhole result (out_of number fields.entry) }
{
    let action = read_byte(&mut fields)?;
    let domain = domain_number(&mut fields)?;
    let rid = read_number(&mut fields)?;
    let byte = read_byte(&mut fields)?;
    let kind = kind_of_byte(byte)?;
    let name = read_text(alloc, &mut fields)?;
    let row = OutRow {
        number,
        action,
        domain,
        rid,
        kind,
        name,
    };
    whole(Row::Out(row), &fields)
}

// The number that the first eight bytes spell, the lowest byte first.
fn front_u64(front: &[u8]) -> u64
    requires { length front.now ≡ 8 }
    ensures { result ≡ from_le_bytes w64 front.now }
{
    u64::from_le_bytes([
        front[0], front[1], front[2], front[3], front[4], front[5], front[6], front[7],
    ])
}

/// The next out number that a value spells.
#[tactic(auto, unfolding(crate::specs::Stored::next_out_of))]
pub fn read_next_out(value: &[u8]) -> Option<u64>
    ensures { result ≡ next_out_of value.now }
{
    let mut fields = Fields::new(value);
    let Ok(front) = fields.take(8) else {
        return None;
    };
    let next = front_u64(front);
    if fields.is_end() && 2 <= next && next <= MOST_NEXT_OUT {
        return Some(next);
    }
    None
}
