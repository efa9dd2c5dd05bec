// The keys of the rows that name an account. Rows of a group or an alias stand together; those of a user or a SID stand
// together in an index, from which those below the group or the alias are taken, and those above it.
ghost use Rattle.std.specs.Prelude.{◌≡◌, [], ◌∷◌, ◌++◌, OnOk, OnErr, map};
ghost use Rattle.std.specs.List.{filter};
ghost use Rattle.acct_tables.specs.Selected.{key_of_member, key_of_alias};
ghost use Rattle.acct_tables.specs.steps.Naming.{is_beside, is_beside_group, is_beside_alias, alias_row};
ghost use Rattle.acct_tables.specs.steps.Users.{row_of};

use crate::groups::ByUser;
use crate::membership::Membership;
use crate::object::Object;
use crate::row::{AliasRow, MemberRow, RowKey};
use acct_base::Seq;
use acct_calls::NoMemory;
use std::cmp::Ordering;

// What compares so with a key stands on that side of it: above, or below.
fn is_beside(above: bool, order: Ordering) -> bool
    ensures { result ≡ is_beside above order }
{
    if above { order.is_gt() } else { order.is_lt() }
}

fn is_beside_group(row: &ByUser, group: u32, above: bool) -> bool
    ensures { result ≡ is_beside_group above group (row_of row.now) }
{
    is_beside(above, row.row.group.cmp(&group))
}

fn is_beside_alias(row: &Membership, domain: u8, alias: u32, above: bool) -> bool
    ensures { result ≡ is_beside_alias above domain alias (alias_row row.now) }
{
    let order = row.domain.cmp(&domain).then(row.alias.cmp(&alias));
    is_beside(above, order)
}

/// Adds the keys of member rows.
pub fn push_members(keys: &mut Seq<RowKey>, rows: &[MemberRow]) -> Result<(), NoMemory>
    ensures { OnOk result (keys.new ≡ keys.old ++ map key_of_member rows.now) }
{
    for row in rows {
        let key = RowKey::Member {
            group: row.group,
            user: row.user,
        };
        push_key(keys, key)?;
    }
    Ok(())
}

/// Adds the keys of a user's member rows on that side of a group: above, or below.
pub fn push_groups(
    keys: &mut Seq<RowKey>,
    rows: &[ByUser],
    group: u32,
    above: bool,
) -> Result<(), NoMemory>
    ensures { OnOk result (keys.new
        ≡ keys.old ++ map key_of_member (filter (is_beside_group above group) (map row_of rows.now))) }
{
    for row in rows {
        if is_beside_group(row, group, above) {
            let key = RowKey::Member {
                group: row.row.group,
                user: row.row.user,
            };
            push_key(keys, key)?;
        }
    }
    Ok(())
}

/// Adds the keys of alias rows.
pub fn push_aliases(keys: &mut Seq<RowKey>, rows: &[AliasRow]) -> Result<(), NoMemory>
    ensures { OnOk result (keys.new ≡ keys.old ++ map key_of_alias rows.now) }
{
    for row in rows {
        let key = RowKey::Alias {
            domain: row.domain,
            alias: row.alias,
            member: row.member,
        };
        push_key(keys, key)?;
    }
    Ok(())
}

/// Adds the keys of a SID's alias rows on that side of an alias: above, or below.
pub fn push_memberships(
    keys: &mut Seq<RowKey>,
    rows: &[Membership],
    domain: u8,
    alias: u32,
    above: bool,
) -> Result<(), NoMemory>
    ensures { OnOk result (keys.new
        ≡ keys.old ++ map key_of_alias (filter (is_beside_alias above domain alias) (map alias_row rows.now))) }
{
    for row in rows {
        if is_beside_alias(row, domain, alias, above) {
            let key = RowKey::Alias {
                domain: row.domain,
                alias: row.alias,
                member: row.member,
            };
            push_key(keys, key)?;
        }
    }
    Ok(())
}

/// Adds a key at the end. Where memory ran out the list is as it was.
pub fn push_key(keys: &mut Seq<RowKey>, key: RowKey) -> Result<(), NoMemory>
    ensures ok { OnOk result (keys.new ≡ keys.old ++ key ∷ []) }
    ensures err { OnErr result (keys.new ≡ keys.old) }
{
    // Rattle's borrow checker finds the type within a key only where a function names it.
    let _named: Option<Object> = None;
    keys.push(key)
}
