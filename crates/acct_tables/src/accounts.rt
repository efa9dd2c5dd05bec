// The accounts, by key, by name and by primary group.
ghost use Rattle.std.specs.Prelude.{◌≡◌, ◌+◌, ◌^◌, ◌<◌, ◌≤◌, true, [], ◌∷◌, IfOk, OnOk, length, vec_len, find};
ghost use Rattle.std.specs.List.{filter, list_any};
ghost use Rattle.std.specs.Option.{option_copied};
ghost use Rattle.acct_tables.specs.KeyedRows.{at, put, without, is_ascending};
ghost use Rattle.acct_tables.specs.Ranges.{is_behind};
ghost use Rattle.acct_tables.specs.Keys.{account_key};
ghost use Rattle.acct_tables.specs.Selected.{has_name, has_primary};

use crate::keyed::RowTable;
use crate::names::Names;
use crate::primaries;
use crate::primaries::{ByPrimary, no_primaries, primaries_of};
use crate::ranges::accounts_behind;
use crate::row::AccountRow;
use acct_calls::{Name, NoMemory};
use std::alloc::Global;
use std::marker::Model;

/// Accounts by ascending key, by name and by primary group, with room for more. A contract sees the list of the
/// accounts, and for how many more there is room.
#[derive(Drop)]
pub struct Accounts {
    rows: RowTable<AccountRow>,
    names: Names,
    primaries: RowTable<ByPrimary>,
    spare: usize,
}

impl Model for Accounts {
    ghost use Rattle.std.specs.Prelude.{◌≡◌, ◌≤◌, ℕ, List};
    ghost use Rattle.acct_tables.specs.steps.Indexes.{names_of};
    ghost use Rattle.acct_tables.specs.steps.Primaries.{primaries_of};
    ghost use Rattle.acct_tables.specs.declared.row.AccountRow.{AccountRow};

    ghost Value = { List AccountRow × ℕ };

    ghost view = { λ accounts. (accounts.rows.0, accounts.spare) };

    ghost invariant = { λ accounts. (accounts.names.0 ≡ names_of accounts.rows.0)
        × (accounts.primaries.0 ≡ primaries_of accounts.rows.0)
        × (accounts.spare ≤ accounts.rows.1)
        × (accounts.spare ≤ accounts.names.1)
        × (accounts.spare ≤ accounts.primaries.1) };
}

impl Accounts {
    /// No account, which takes no memory.
    pub fn new(alloc: Global) -> Accounts
        ensures { result ≡ ([], 0) }
    {
        Accounts {
            rows: RowTable::new(alloc),
            names: Names::new(alloc),
            primaries: no_primaries(alloc),
            spare: 0,
        }
    }

    /// The accounts that stand by ascending key.
    pub fn from_rows(alloc: Global, rows: Vec<AccountRow>) -> Result<Accounts, NoMemory>
        requires ascending { is_ascending account_key rows.items ≡ true }
        requires few { vec_len rows < 2 ^ 32 }
        ensures { IfOk result (λ accounts. accounts ≡ (rows.items, 0)) }
    {
        let names = Names::of(alloc, &rows)?;
        let primaries = primaries_of(alloc, &rows)?;
        Ok(Accounts {
            rows: RowTable::from_rows(rows),
            names,
            primaries,
            spare: 0,
        })
    }

    /// The same accounts of its own.
    pub fn copy(&self, alloc: Global) -> Result<Accounts, NoMemory>
        ensures { IfOk result (λ copy. copy ≡ (self.now.0, 0)) }
    {
        let names = self.names.copy(alloc)?;
        let primaries = self.primaries.rows().to_vec(alloc)?;
        let rows = self.rows.copy(alloc)?;
        Ok(Accounts {
            rows,
            names,
            primaries: RowTable::from_rows(primaries),
            spare: 0,
        })
    }

    /// All accounts by ascending key.
    pub fn rows(&self) -> &[AccountRow]
        ensures all { result.now ≡ self.now.0 }
        ensures ascending { is_ascending account_key result.now ≡ true }
        ensures few { length result.now + self.now.1 < 2 ^ 32 }
    {
        self.rows.rows()
    }

    /// The account with that key.
    pub fn find(&self, key: &(u8, u32)) -> Option<&AccountRow>
        ensures { option_copied result ≡ at account_key (key.now.0 ∷ key.now.1 ∷ []) self.now.0 }
    {
        self.rows.find(key)
    }

    /// The account of a domain with that name.
    pub fn find_name(&self, domain: u8, name: &Name) -> Option<&AccountRow>
        ensures { option_copied result ≡ find (has_name domain name.now) self.now.0 }
    {
        self.names.find(self.rows.rows(), domain, name)
    }

    /// The accounts of a domain after a RID.
    pub fn behind(&self, domain: u8, rid: u32) -> &[AccountRow]
        ensures { result.now ≡ filter (is_behind domain rid) self.now.0 }
    {
        accounts_behind(self.rows.rows(), domain, rid)
    }

    /// Whether the group is some user's primary group.
    pub fn is_primary(&self, group: u32) -> bool
        ensures { result ≡ list_any (has_primary group) self.now.0 }
    {
        primaries::is_primary(&self.primaries, self.rows.rows(), group)
    }

    /// Makes room for more accounts.
    pub fn reserve(&mut self, more: usize) -> Result<(), NoMemory>
        ensures rows { self.new.0 ≡ self.old.0 }
        ensures ok { OnOk result (more ≤ self.new.1) }
        ensures kept { self.old.1 ≤ self.new.1 }
    {
        if self.spare < more {
            self.names.reserve(more)?;
            self.primaries.reserve(more)?;
            self.rows.reserve(more)?;
            self.spare = more;
        }
        Ok(())
    }

    /// Puts an account in its place. An account with its key goes.
    pub fn put(&mut self, row: AccountRow)
        requires { 0 < self.old.1 }
        ensures rows { self.new.0 ≡ put account_key row self.old.0 }
        ensures spare { self.new.1 + 1 ≡ self.old.1 }
    {
        self.names.put(self.rows.rows(), &row);
        primaries::put(&mut self.primaries, self.rows.rows(), &row);
        self.rows.put(row);
        self.spare -= 1;
    }

    /// Removes the account with that key, if there is one.
    pub fn remove(&mut self, key: &(u8, u32))
        ensures rows { self.new.0 ≡ without account_key (key.now.0 ∷ key.now.1 ∷ []) self.old.0 }
        ensures spare { self.new.1 ≡ self.old.1 }
    {
        self.names.remove(self.rows.rows(), key);
        primaries::remove(&mut self.primaries, self.rows.rows(), key);
        self.rows.remove(key);
    }
}
