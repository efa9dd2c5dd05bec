// The accounts by primary group.
ghost use Rattle.std.specs.Prelude.{◌≡◌, ◌+◌, ◌^◌, ◌<◌, true, [], ◌∷◌, IfOk, length, map};
ghost use Rattle.std.specs.List.{filter, list_any};
ghost use Rattle.acct_tables.specs.KeyedRows.{put, without, is_ascending};
ghost use Rattle.acct_tables.specs.steps.Primaries.{primary_key, by_primary, primaries_of, is_for};
ghost use Rattle.acct_tables.specs.Keys.{account_key};
ghost use Rattle.acct_tables.specs.Selected.{has_primary};

use crate::keyed::{ByKey, Keyed, RowTable, find};
use crate::row::AccountRow;
use crate::table::sort;
use acct_calls::NoMemory;
use acct_codes::Kind;
use std::alloc::Global;

/// An account among those with the same primary group. An account that is no user has 0 there, which says nothing.
#[derive(Clone, Copy)]
pub struct ByPrimary {
    pub primary: u32,
    pub domain: u8,
    pub rid: u32,
    pub is_user: bool,
}

fn by_primary(account: &AccountRow) -> ByPrimary
    ensures { result ≡ by_primary account.now }
{
    ByPrimary {
        primary: account.primary,
        domain: account.domain,
        rid: account.rid,
        is_user: account.kind == Kind::User,
    }
}

fn entries_of(alloc: Global, accounts: &[AccountRow]) -> Result<Vec<ByPrimary>, NoMemory>
    ensures { IfOk result (λ entries. entries.items ≡ map by_primary accounts.now) }
{
    let mut entries = Vec::with_capacity(alloc, accounts.len())?;
    for account in accounts {
        entries.push(by_primary(account))?;
    }
    Ok(entries)
}

/// No accounts, which take no memory.
pub fn no_primaries(alloc: Global) -> RowTable<ByPrimary>
    ensures { result ≡ (primaries_of [], 0) }
{
    RowTable::new(alloc)
}

/// The accounts by primary group, domain and RID.
pub fn primaries_of(alloc: Global, accounts: &[AccountRow]) -> Result<RowTable<ByPrimary>, NoMemory>
    requires ascending { is_ascending account_key accounts.now ≡ true }
    requires few { length accounts.now < 2 ^ 32 }
    ensures { IfOk result (λ table. table.0 ≡ primaries_of accounts.now) }
{
    let mut entries = entries_of(alloc, accounts)?;
    sort::<ByPrimary, ByKey>(&mut entries);
    Ok(RowTable::from_rows(entries))
}

// The accounts with one primary group stand together: halving finds the first and the last of them.
fn among(entries: &[ByPrimary], group: u32) -> &[ByPrimary]
    requires { is_ascending primary_key entries.now ≡ true }
    ensures { result.now ≡ filter (is_for group) entries.now }
{
    let first = entries.partition_point(|entry| entry.primary < group);
    let last = entries.partition_point(|entry| entry.primary <= group);
    &entries[first..last]
}

fn has_user(entries: &[ByPrimary]) -> bool
    ensures { result ≡ list_any (λ entry. entry.is_user) entries.now }
{
    entries.iter().any(|entry| entry.is_user)
}

/// Whether the group is some user's primary group.
pub fn is_primary(entries: &RowTable<ByPrimary>, accounts: &[AccountRow], group: u32) -> bool
    requires rows { is_ascending account_key accounts.now ≡ true }
    requires entries { entries.now.0 ≡ primaries_of accounts.now }
    ensures { result ≡ list_any (has_primary group) accounts.now }
{
    has_user(among(entries.rows(), group))
}

/// Changes the entries as the accounts will be changed by a put of the row.
pub fn put(entries: &mut RowTable<ByPrimary>, accounts: &[AccountRow], row: &AccountRow)
    requires room { 0 < entries.old.1 }
    requires rows { is_ascending account_key accounts.now ≡ true }
    requires entries { entries.old.0 ≡ primaries_of accounts.now }
    ensures entries { entries.new.0 ≡ primaries_of (put account_key row.now accounts.now) }
    ensures spare { entries.new.1 + 1 ≡ entries.old.1 }
{
    remove(entries, accounts, &row.key());
    entries.put(by_primary(row));
}

/// Changes the entries as the accounts will be changed by a removal at the key.
pub fn remove(entries: &mut RowTable<ByPrimary>, accounts: &[AccountRow], key: &(u8, u32))
    requires rows { is_ascending account_key accounts.now ≡ true }
    requires entries { entries.old.0 ≡ primaries_of accounts.now }
    ensures entries { entries.new.0
        ≡ primaries_of (without account_key (key.now.0 ∷ key.now.1 ∷ []) accounts.now) }
    ensures spare { entries.new.1 ≡ entries.old.1 }
{
    if let Some(account) = find(accounts, key) {
        entries.remove(&by_primary(account).key());
    }
}
