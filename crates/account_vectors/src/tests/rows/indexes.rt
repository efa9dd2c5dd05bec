// Look-ups in many rows and in rows that change, beside plain programs of their definitions.
use super::changes::{account, numbered};
use super::plain;
use crate::tests::first_rows::seeded;
use crate::tests::puts::put;
use acct_base::Seq;
use acct_calls::{Name, NoMemory, Sids};
use acct_codes::Kind;
use acct_rows::{AccountRow, AliasRow, Row, RowKey, Rows};
use dtyp_sid::Sid;
use std::alloc::Global;
use std::process::Abort;
use std::test::Fail;

// ---- many rows

/// S-1-5-21-9-9-9 with one more sub-authority, as a member of an alias.
fn holder(domain: u8, alias: u32, number: u32) -> Result<AliasRow, Fail> {
    Ok(AliasRow {
        domain,
        alias,
        member: Sid::new(5, &[21, 9, 9, 9, number])?,
    })
}

fn put_user(alloc: Global, rows: &mut Rows, rid: u32) -> Result<(), NoMemory> {
    let name = numbered(alloc, rid.saturating_add(9000))?;
    put(rows, Row::Account(account(alloc, Kind::User, 0, rid, name)))
}

/// Ten thousand users with RIDs from 1000 on.
fn put_users(alloc: Global, rows: &mut Rows) -> Result<(), NoMemory> {
    rows.reserve(10_000)?;
    for rid in 1000..11_000_u32 {
        put_user(alloc, rows, rid)?;
    }
    Ok(())
}

fn put_holder(rows: &mut Rows, number: u32) -> Result<(), Fail> {
    Ok(put(rows, Row::Alias(holder(1, 545, number)?))?)
}

/// As many members of alias 545 of BUILTIN.
fn put_members(rows: &mut Rows) -> Result<(), Fail> {
    rows.reserve(10_000)?;
    for i in 1..10_001 {
        put_holder(rows, i)?;
    }
    Ok(())
}

fn push_names(alloc: Global, names: &mut Vec<Name>) -> Result<(), NoMemory> {
    for i in 0..10_000 {
        let name = numbered(alloc, 10_000 + i)?;
        names.push(name)?;
    }
    Ok(())
}

fn member(alloc: Global, number: u32) -> Result<Sids, Fail> {
    let row = holder(1, 545, number)?;
    Ok(Seq::from_vec(vec![in alloc; row.member]?))
}

/// Lists of one member each.
fn push_members(alloc: Global, members: &mut Vec<Sids>) -> Result<(), Fail> {
    for i in 1..10_001 {
        let sids = member(alloc, i)?;
        members.push(sids)?;
    }
    Ok(())
}

/// How many of the names are those of the accounts with RIDs from 1000 on.
fn count_names(rows: &Rows, names: &[Name]) -> u32 {
    let mut count: u32 = 0;
    for name in names {
        match rows.find_name(0, name) {
            Some(row) if row.rid == count.saturating_add(1000) => count = count.saturating_add(1),
            _ => return count,
        }
    }
    count
}

fn has_one_alias(rows: &Rows, alloc: Global, sids: &Sids) -> Result<bool, NoMemory> {
    let rids = rows.aliases_of(alloc, 1, sids)?;
    Ok(rids.as_slice() == [545].as_slice())
}

/// How many of the members are those of alias 545 alone.
fn count_members(rows: &Rows, alloc: Global, members: &[Sids]) -> Result<u32, NoMemory> {
    let mut count: u32 = 0;
    for sids in members {
        if has_one_alias(rows, alloc, sids)? {
            count = count.saturating_add(1);
        }
    }
    Ok(count)
}

fn names_are_found(rt: &impl Abort, alloc: Global, rows: &Rows) -> Result<(), Fail> {
    let mut names = Vec::new(alloc);
    push_names(alloc, &mut names)?;
    for _ in 0..200 {
        assert!(rt; count_names(rows, &names) == 10_000);
    }
    Ok(())
}

fn members_are_found(rt: &impl Abort, alloc: Global, rows: &Rows) -> Result<(), Fail> {
    let mut members = Vec::new(alloc);
    push_members(alloc, &mut members)?;
    for _ in 0..200 {
        assert!(rt; count_members(rows, alloc, &members)? == 10_000);
    }
    Ok(())
}

/// Of ten thousand users and members that are put each is found.
fn all_are_found(rt: &impl Abort, alloc: Global, rows: &mut Rows) -> Result<(), Fail> {
    put_users(alloc, rows)?;
    put_members(rows)?;
    names_are_found(rt, alloc, rows)?;
    members_are_found(rt, alloc, rows)
}

#[test]
fn ten_thousand_names_and_members_are_found(rt: HostRuntime) -> Result<(), Fail> {
    let mut rows = seeded(&rt, rt.alloc())?;
    let found = all_are_found(&rt, rt.alloc(), &mut rows);
    drop(rows);
    found
}

// ---- rows that change

/// Letters of equal folding: a and A; k, K and the Kelvin sign; and a pair of surrogates that folds to another pair.
const LETTERS: [u16; 8] = [0x61, 0x41, 0x6B, 0x4B, 0x212A, 0xD801, 0xDC00, 0xDC28];

/// A name of at most three of these.
fn spelled(alloc: Global, number: u32) -> Result<Name, NoMemory> {
    let mut units = Vec::new(alloc);
    let mut left = number / 4;
    for _ in 0..number % 4 {
        units.push(LETTERS[(left % 8) as usize])?;
        left /= 8;
    }
    Ok(Name::from_units(units))
}

/// Numbers that look like random ones, by a place and a column.
fn scattered(place: u32, column: u32) -> u32 {
    let mixed = place.wrapping_mul(2_654_435_761) ^ column.wrapping_mul(1_640_531_527);
    mixed.wrapping_mul(1_103_515_245) >> 16
}

/// A user, a group or an alias, with one of four primary groups.
fn kept(alloc: Global, place: u32, domain: u8, rid: u32) -> Result<AccountRow, NoMemory> {
    let name = spelled(alloc, scattered(place, 5) % 2048)?;
    let kind = match scattered(place, 11) % 4 {
        0 => Kind::Alias,
        1 => Kind::Group,
        _ => Kind::User,
    };
    let mut row = account(alloc, kind, domain, rid, name);
    row.primary = scattered(place, 12) % 4;
    Ok(row)
}

fn put_kept(alloc: Global, rows: &mut Rows, place: u32, domain: u8, rid: u32) -> Result<(), Fail> {
    let row = kept(alloc, place, domain, rid)?;
    Ok(put(rows, Row::Account(row))?)
}

fn key(row: &AliasRow) -> RowKey {
    RowKey::Alias {
        domain: row.domain,
        alias: row.alias,
        member: row.member,
    }
}

fn change(alloc: Global, rows: &mut Rows, place: u32) -> Result<(), Fail> {
    let domain = (scattered(place, 1) % 2) as u8;
    let rid = scattered(place, 2) % 16;
    let row = holder(domain, rid, scattered(place, 3) % 8)?;
    match scattered(place, 4) % 6 {
        0 => rows.remove(&RowKey::Account { domain, rid }),
        1 => rows.remove(&key(&row)),
        2 => put(rows, Row::Alias(row))?,
        _ => put_kept(alloc, rows, place, domain, rid)?,
    }
    Ok(())
}

fn is_same(one: Option<&AccountRow>, other: Option<&AccountRow>) -> bool {
    match (one, other) {
        (Some(one), Some(other)) => one.domain == other.domain && one.rid == other.rid,
        (None, None) => true,
        _ => false,
    }
}

/// Whether a look-up by a name is what its definition gives, in each domain and in one that isn't there.
fn name_agrees(rows: &Rows, name: &Name) -> bool {
    for domain in 0..3 {
        let plain = plain::find_name(rows.accounts(), domain, name);
        if !is_same(rows.find_name(domain, name), plain) {
            return false;
        }
    }
    true
}

fn names_agree(alloc: Global, rows: &Rows, number: u32) -> Result<bool, NoMemory> {
    let name = spelled(alloc, number)?;
    Ok(name_agrees(rows, &name))
}

/// Up to three SIDs, of which two may be one.
fn some_sids(alloc: Global, place: u32) -> Result<Sids, Fail> {
    let mut sids = Seq::new(alloc);
    for column in 0..scattered(place, 6) % 4 {
        let row = holder(0, 0, scattered(place, column.saturating_add(7)) % 8)?;
        sids.push(row.member)?;
    }
    Ok(sids)
}

/// Whether a look-up by SIDs is what its definition gives.
fn aliases_agree(alloc: Global, rows: &Rows, domain: u8, sids: &Sids) -> Result<bool, NoMemory> {
    let plain = plain::aliases_of(alloc, rows.alias_rows(), domain, sids.as_slice())?;
    let found = rows.aliases_of(alloc, domain, sids)?;
    Ok(found.as_slice() == plain.as_slice())
}

/// Whether each primary group is told as its definition says.
fn primaries_agree(rows: &Rows) -> bool {
    (0..5_u32).all(|group| rows.is_primary(group) == plain::is_primary(rows.accounts(), group))
}

/// Whether all look-ups are what their definitions give.
fn all_agree(alloc: Global, rows: &Rows, place: u32, sids: &Sids) -> Result<bool, NoMemory> {
    Ok(
        primaries_agree(rows)
            && names_agree(alloc, rows, scattered(place, 10) % 2048)?
            && aliases_agree(alloc, rows, 0, sids)?
            && aliases_agree(alloc, rows, 1, sids)?,
    )
}

fn agrees(alloc: Global, rows: &Rows, place: u32) -> Result<bool, Fail> {
    let sids = some_sids(alloc, place)?;
    Ok(all_agree(alloc, rows, place, &sids)?)
}

fn changes_agree(rt: &impl Abort, alloc: Global, rows: &mut Rows) -> Result<(), Fail> {
    for place in 0..1000 {
        change(alloc, rows, place)?;
        assert!(rt; agrees(alloc, rows, place)?, "{place}");
    }
    Ok(())
}

#[test]
fn changed_rows_are_found_as_defined(rt: HostRuntime) -> Result<(), Fail> {
    let mut rows = seeded(&rt, rt.alloc())?;
    let agree = changes_agree(&rt, rt.alloc(), &mut rows);
    drop(rows);
    agree
}
