// The accounts by domain and folded name.
ghost use Rattle.std.specs.Prelude.{◌≡◌, ◌+◌, ◌<◌, ◌≤◌, true, [], ◌∷◌, IfOk, OnOk, MatchResult, length, map, find};
ghost use Rattle.std.specs.Prelude.{vec_len, vec_capacity};
ghost use Rattle.std.specs.Option.{option_copied};
ghost use Rattle.acct_tables.specs.KeyedRows.{compare, place, put, without, is_ascending};
ghost use Rattle.acct_tables.specs.Keys.{account_key};
ghost use Rattle.acct_tables.specs.Selected.{has_name};
ghost use Rattle.acct_tables.specs.steps.Indexes.{named, name_key, by_name, numbers_of, key_at, with_pair, names_of};

use crate::folding::fold_order;
use crate::keyed::{Keyed, find};
use crate::row::AccountRow;
use acct_calls::laws::test_tells_same;
use acct_calls::{Name, NoMemory};
use std::alloc::Global;
use std::cmp::Ordering;
use std::marker::Model;

/// The keys of accounts by domain, folded name and RID, with room for more. Names are folded as they are compared:
/// each call is lent the accounts. A contract sees the list of the keys, and for how many more there is room.
#[derive(Drop)]
pub struct Names {
    keys: Vec<(u8, u32)>,
    spare: usize,
}

impl Model for Names {
    ghost use Rattle.std.specs.Prelude.{◌+◌, ◌≤◌, ℕ, List, vec_len, vec_capacity};

    ghost Value = { List (ℕ × ℕ) × ℕ };

    ghost view = { λ names. (names.keys.items, names.spare) };

    ghost invariant = { λ names. vec_len names.keys + names.spare ≤ vec_capacity names.keys };
}

// The order of an account's own domain, folded name and RID and others.
fn row_order(row: &AccountRow, domain: u8, name: &Name, rid: u32) -> Ordering
    ensures { result ≡ compare (name_key row.now) (named domain name.now rid) }
{
    match row.domain.cmp(&domain) {
        Ordering::Equal => fold_order(row.name.units(), name.units()).then(row.rid.cmp(&rid)),
        other => other,
    }
}

fn order(accounts: &[AccountRow], key: &(u8, u32), domain: u8, name: &Name, rid: u32) -> Ordering
    requires { is_ascending account_key accounts.now ≡ true }
    ensures { result ≡ compare (key_at accounts.now key.now) (named domain name.now rid) }
{
    match find(accounts, key) {
        Some(row) => row_order(row, domain, name, rid),
        None => Ordering::Less,
    }
}

// Where the account of a domain with that name and RID stands among the keys, or where it would go.
fn place(
    accounts: &[AccountRow],
    keys: &[(u8, u32)],
    domain: u8,
    name: &Name,
    rid: u32,
) -> Result<usize, usize>
    requires rows { is_ascending account_key accounts.now ≡ true }
    requires keys { is_ascending (key_at accounts.now) keys.now ≡ true }
    ensures found { result ≡ place (key_at accounts.now) (named domain name.now rid) keys.now }
    ensures within { MatchResult result (λ i. i < length keys.now) (λ i. i ≤ length keys.now) }
{
    keys.binary_search_by(|key| order(accounts, key, domain, name, rid))
}

fn has_name(account: &AccountRow, domain: u8, name: &Name) -> bool
    ensures { result ≡ has_name domain name.now account.now }
{
    account.domain == domain && account.name.same(name)
}

fn insert(keys: &mut Vec<(u8, u32)>, accounts: &[AccountRow], row: &AccountRow)
    requires room { vec_len keys.old < vec_capacity keys.old }
    requires rows { is_ascending account_key accounts.now ≡ true }
    requires keys { is_ascending (key_at accounts.now) keys.old.items ≡ true }
    ensures keys { keys.new.items ≡ with_pair accounts.now row.now keys.old.items }
    ensures len { vec_len keys.new ≤ vec_len keys.old + 1 }
    ensures capacity { vec_capacity keys.old ≤ vec_capacity keys.new }
{
    match place(accounts, keys, row.domain, &row.name, row.rid) {
        Ok(i) => keys[i] = row.key(),
        Err(i) => {
            if keys.insert(i, row.key()).is_err() {
                unreachable!()
            }
        }
    }
}

// Without the key of the account that is there at a key, of which the name may change.
fn remove(keys: &mut Vec<(u8, u32)>, accounts: &[AccountRow], key: &(u8, u32))
    requires rows { is_ascending account_key accounts.now ≡ true }
    requires keys { keys.old.items ≡ names_of accounts.now }
    ensures keys { keys.new.items ≡ names_of (without account_key (key.now.0 ∷ key.now.1 ∷ []) accounts.now) }
    ensures len { vec_len keys.new ≤ vec_len keys.old }
    ensures capacity { vec_capacity keys.old ≤ vec_capacity keys.new }
{
    let Some(row) = find(accounts, key) else {
        return;
    };
    match place(accounts, keys, row.domain, &row.name, row.rid) {
        Ok(i) => {
            keys.remove(i);
        }
        Err(_) => {}
    }
}

// The accounts where they stand.
fn lent(alloc: Global, accounts: &[AccountRow]) -> Result<Vec<&AccountRow>, NoMemory>
    ensures { IfOk result (λ rows. map (λ row. row.now) rows.items ≡ accounts.now) }
{
    let mut rows = Vec::with_capacity(alloc, accounts.len())?;
    for row in accounts {
        rows.push(row)?;
    }
    Ok(rows)
}

// The accounts by domain, folded name and RID.
fn by_name(alloc: Global, accounts: &[AccountRow]) -> Result<Vec<&AccountRow>, NoMemory>
    requires { is_ascending account_key accounts.now ≡ true }
    ensures { IfOk result (λ rows. map (λ row. row.now) rows.items ≡ by_name accounts.now) }
{
    let mut rows = lent(alloc, accounts)?;
    rows.sort_unstable_by(|left, right| row_order(left, right.domain, &right.name, right.rid));
    Ok(rows)
}

fn keys_of(alloc: Global, rows: &[&AccountRow]) -> Result<Vec<(u8, u32)>, NoMemory>
    ensures { IfOk result (λ keys. keys.items ≡ map (λ row. numbers_of row.now) rows.now) }
{
    let mut keys = Vec::with_capacity(alloc, rows.len())?;
    for row in rows {
        keys.push(row.key())?;
    }
    Ok(keys)
}

impl Names {
    /// No names, which take no memory.
    pub fn new(alloc: Global) -> Names
        ensures { result ≡ (names_of [], 0) }
    {
        Names {
            keys: Vec::new(alloc),
            spare: 0,
        }
    }

    /// The names of accounts.
    pub fn of(alloc: Global, accounts: &[AccountRow]) -> Result<Names, NoMemory>
        requires { is_ascending account_key accounts.now ≡ true }
        ensures { IfOk result (λ names. names.0 ≡ names_of accounts.now) }
    {
        let rows = by_name(alloc, accounts)?;
        Ok(Names {
            keys: keys_of(alloc, &rows)?,
            spare: 0,
        })
    }

    /// Equal keys of its own.
    pub fn copy(&self, alloc: Global) -> Result<Names, NoMemory>
        ensures { IfOk result (λ names. names.0 ≡ self.now.0) }
    {
        Ok(Names {
            keys: self.keys.to_vec(alloc)?,
            spare: 0,
        })
    }

    /// The account of a domain with that name.
    pub fn find<'a>(
        &self,
        accounts: &'a [AccountRow],
        domain: u8,
        name: &Name,
    ) -> Option<&'a AccountRow>
        requires rows { is_ascending account_key accounts.now ≡ true }
        requires names { self.now.0 ≡ names_of accounts.now }
        ensures { option_copied result ≡ find (has_name domain name.now) accounts.now }
    {
        test_tells_same();
        let (Ok(i) | Err(i)) = place(accounts, &self.keys, domain, name, 0);
        if i == self.keys.len() {
            return None;
        }
        let Some(row) = find(accounts, &self.keys[i]) else {
            return None;
        };
        if !has_name(row, domain, name) {
            return None;
        }
        Some(row)
    }

    /// Makes room for more keys.
    pub fn reserve(&mut self, more: usize) -> Result<(), NoMemory>
        ensures names { self.new.0 ≡ self.old.0 }
        ensures ok { OnOk result (more ≤ self.new.1) }
        ensures kept { self.old.1 ≤ self.new.1 }
    {
        if self.spare < more {
            self.keys.reserve(more)?;
            self.spare = more;
        }
        Ok(())
    }

    /// Changes the names as the accounts will be changed by a put of the row.
    pub fn put(&mut self, accounts: &[AccountRow], row: &AccountRow)
        requires room { 0 < self.old.1 }
        requires rows { is_ascending account_key accounts.now ≡ true }
        requires names { self.old.0 ≡ names_of accounts.now }
        ensures names { self.new.0 ≡ names_of (put account_key row.now accounts.now) }
        ensures spare { self.new.1 + 1 ≡ self.old.1 }
    {
        remove(&mut self.keys, accounts, &row.key());
        insert(&mut self.keys, accounts, row);
        self.spare -= 1;
    }

    /// Changes the names as the accounts will be changed by a removal at the key.
    pub fn remove(&mut self, accounts: &[AccountRow], key: &(u8, u32))
        requires rows { is_ascending account_key accounts.now ≡ true }
        requires names { self.old.0 ≡ names_of accounts.now }
        ensures names { self.new.0 ≡ names_of (without account_key (key.now.0 ∷ key.now.1 ∷ []) accounts.now) }
        ensures spare { self.new.1 ≡ self.old.1 }
    {
        remove(&mut self.keys, accounts, key);
    }
}
