// Rows whose keys are a range: they stand together, and halving finds the first and the last of them.
ghost use Rattle.std.specs.Prelude.{◌≡◌, true, [], ◌∷◌};
ghost use Rattle.std.specs.List.{filter};
ghost use Rattle.std.specs.Ordering.{is_lt, is_le};
ghost use Rattle.acct_tables.specs.KeyedRows.{compare, is_ascending};
ghost use Rattle.acct_tables.specs.steps.Indexes.{membership_key};
ghost use Rattle.acct_tables.specs.steps.Naming.{has_sid};
ghost use Rattle.acct_tables.specs.Ranges.{is_behind};
ghost use Rattle.acct_tables.specs.Keys.{account_key, alias_key};
ghost use Rattle.acct_tables.specs.Selected.{is_in_alias};
ghost use Rattle.dtyp_sid.specs.Sids.{sid_cmp};

use crate::keyed::Keyed;
use crate::membership::Membership;
use crate::row::{AccountRow, AliasRow};
use dtyp_sid::Sid;
use std::cmp::Ordering;

fn is_up_to(row: &AccountRow, domain: u8, rid: u32) -> bool
    ensures { result ≡ is_le (compare (account_key row.now) (domain ∷ rid ∷ [])) }
{
    AccountRow::order(row, &(domain, rid)).is_le()
}

/// The accounts of a domain after a RID.
pub fn accounts_behind(rows: &[AccountRow], domain: u8, rid: u32) -> &[AccountRow]
    requires { is_ascending account_key rows.now ≡ true }
    ensures { result.now ≡ filter (is_behind domain rid) rows.now }
{
    let first = rows.partition_point(|row| is_up_to(row, domain, rid));
    let last = rows.partition_point(|row| row.domain <= domain);
    &rows[first..last]
}

fn alias_order(row: &AliasRow, domain: u8, alias: u32) -> Ordering
    ensures { result ≡ compare (row.now.domain ∷ row.now.alias ∷ []) (domain ∷ alias ∷ []) }
{
    row.domain.cmp(&domain).then(row.alias.cmp(&alias))
}

fn is_below_alias(row: &AliasRow, domain: u8, alias: u32) -> bool
    ensures { result ≡ is_lt (compare (row.now.domain ∷ row.now.alias ∷ []) (domain ∷ alias ∷ [])) }
{
    alias_order(row, domain, alias).is_lt()
}

fn is_up_to_alias(row: &AliasRow, domain: u8, alias: u32) -> bool
    ensures { result ≡ is_le (compare (row.now.domain ∷ row.now.alias ∷ []) (domain ∷ alias ∷ [])) }
{
    alias_order(row, domain, alias).is_le()
}

/// The members of an alias.
pub fn alias_members_among(rows: &[AliasRow], domain: u8, alias: u32) -> &[AliasRow]
    requires { is_ascending alias_key rows.now ≡ true }
    ensures { result.now ≡ filter (is_in_alias domain alias) rows.now }
{
    let first = rows.partition_point(|row| is_below_alias(row, domain, alias));
    let last = rows.partition_point(|row| is_up_to_alias(row, domain, alias));
    &rows[first..last]
}

fn is_below_sid(row: &Membership, sid: &Sid) -> bool
    ensures { result ≡ is_lt (sid_cmp row.now.member sid.now) }
{
    row.member.cmp(sid).is_lt()
}

fn is_up_to_sid(row: &Membership, sid: &Sid) -> bool
    ensures { result ≡ is_le (sid_cmp row.now.member sid.now) }
{
    row.member.cmp(sid).is_le()
}

/// The memberships of a SID.
pub fn memberships_among<'a>(rows: &'a [Membership], sid: &Sid) -> &'a [Membership]
    requires { is_ascending membership_key rows.now ≡ true }
    ensures { result.now ≡ filter (has_sid sid.now) rows.now }
{
    let first = rows.partition_point(|row| is_below_sid(row, sid));
    let last = rows.partition_point(|row| is_up_to_sid(row, sid));
    &rows[first..last]
}
