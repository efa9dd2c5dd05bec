// The members of groups, and the aliases that have some SIDs as members.
ghost use Rattle.std.specs.Prelude.{◌≡◌, ◌↔◌, ℕ, ◌^◌, ◌<◌, true, [], ◌∷◌, ◌++◌, IfOk, OnOk, Contains, length, map};
ghost use Rattle.std.specs.List.{filter};
ghost use Rattle.acct_tables.specs.KeyedRows.{is_ascending};
ghost use Rattle.acct_tables.specs.Keys.{member_key, alias_key};
ghost use Rattle.acct_tables.specs.Selected.{is_in_group};
ghost use Rattle.acct_tables.specs.steps.Indexes.{membership_key, membership_of, memberships_of, is_for};
ghost use Rattle.acct_tables.specs.steps.Indexes.{alias_number_of, held_by};

use crate::entries::{Entry, entries_of};
use crate::keyed::{ByKey, RowTable};
use crate::row::{AliasRow, MemberRow};
use crate::table::{place_of, sort};
use acct_base::Seq;
use acct_calls::{NoMemory, Rids};
use dtyp_sid::Sid;
use std::alloc::Global;

// The members of a group stand together, after those of lower groups: halving finds the first and the last of them.
pub fn members_among(rows: &[MemberRow], group: u32) -> &[MemberRow]
    requires { is_ascending member_key rows.now ≡ true }
    ensures { result.now ≡ filter (is_in_group group) rows.now }
{
    let first = rows.partition_point(|row| row.group < group);
    let last = rows.partition_point(|row| row.group <= group);
    &rows[first..last]
}

/// A SID's membership in an alias of a domain.
#[derive(Clone, Copy)]
pub struct Membership {
    pub member: Sid,
    pub domain: u8,
    pub alias: u32,
}

impl Entry<AliasRow> for Membership {
    ghost entry_of = { membership_of };

    fn entry_of(row: &AliasRow) -> Membership {
        Membership {
            member: row.member,
            domain: row.domain,
            alias: row.alias,
        }
    }
}

/// The memberships of alias rows by ascending key.
pub fn memberships_of(alloc: Global, rows: &[AliasRow]) -> Result<RowTable<Membership>, NoMemory>
    requires ascending { is_ascending alias_key rows.now ≡ true }
    requires few { length rows.now < 2 ^ 32 }
    ensures { IfOk result (λ table. table.0 ≡ memberships_of rows.now) }
{
    let mut memberships: Vec<Membership> = entries_of(alloc, rows)?;
    sort::<Membership, ByKey>(&mut memberships);
    Ok(RowTable::from_rows(memberships))
}

fn is_for(row: &Membership, domain: u8, sid: &Sid) -> bool
    ensures { result ≡ is_for domain sid.now row.now }
{
    row.domain == domain && row.member == *sid
}

// The memberships of a SID in a domain stand together: halving finds the first of them.
fn push_aliases(
    rids: &mut Vec<u32>,
    rows: &[Membership],
    domain: u8,
    sid: &Sid,
) -> Result<(), NoMemory>
    requires { is_ascending membership_key rows.now ≡ true }
    ensures { OnOk result (rids.new.items
        ≡ rids.old.items ++ map alias_number_of (filter (is_for domain sid.now) rows.now)) }
{
    let (Ok(first) | Err(first)) = place_of::<Membership, ByKey>(rows, &(*sid, domain, 0));
    for row in &rows[first..] {
        if !is_for(row, domain, sid) {
            return Ok(());
        }
        rids.push(row.alias)?;
    }
    Ok(())
}

/// The RIDs of the aliases of a domain that have one of the SIDs as a member, ascending, each once.
pub fn aliases_among(
    alloc: Global,
    rows: &[Membership],
    domain: u8,
    sids: &[Sid],
) -> Result<Rids, NoMemory>
    requires { is_ascending membership_key rows.now ≡ true }
    ensures rising { IfOk result (λ rids. is_ascending (λ rid. rid ∷ []) rids ≡ true) }
    ensures members { IfOk result (λ rids. (rid : ℕ)
        → Contains rids rid ↔ Contains (held_by domain rows.now sids.now) rid) }
{
    let mut rids = Vec::new(alloc);
    for sid in sids {
        push_aliases(&mut rids, rows, domain, sid)?;
    }
    rids.sort_unstable();
    rids.dedup();
    Ok(Seq::from_vec(rids))
}
