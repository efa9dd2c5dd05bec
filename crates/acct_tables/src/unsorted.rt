// Rows in any order, of which a table is made at once when all are there.
ghost use Rattle.std.specs.Prelude.{◌≡◌, ◌+◌, ◌^◌, ◌<◌, ◌≤◌, true, [], ◌∷◌, ◌++◌, IfOk, OnOk, vec_len, vec_capacity};
ghost use Rattle.std.specs.List.Sorted.{IsStableByKey};
ghost use Rattle.acct_tables.specs.KeyedRows.{compare, put, put_each, is_ascending};

use crate::keyed::{ByKey, Keyed, MOST, RowTable};
use crate::order::Order;
use acct_calls::NoMemory;
use std::alloc::{AllocError, Global};
use std::marker::Model;

/// Rows in any order, with room for more. A contract sees the rows by ascending key, as they stand once each is put in
/// its place, and for how many more there is room; with those there are fewer than 2^32.
#[derive(Drop)]
pub struct Unsorted<T: Keyed> {
    rows: Vec<T>,
    spare: usize,
}

impl<T: Keyed> Model for Unsorted<T> {
    ghost use Rattle.std.specs.Prelude.{◌+◌, ◌^◌, ◌<◌, ◌≤◌, ℕ, List, [], vec_len, vec_capacity};
    ghost use Rattle.acct_tables.specs.KeyedRows.{put_each};

    ghost Value = { List T × ℕ };

    ghost view = { λ unsorted. (put_each T.key_of unsorted.rows.items [], unsorted.spare) };

    ghost invariant = { λ unsorted. (vec_len unsorted.rows + unsorted.spare ≤ vec_capacity unsorted.rows)
        × (vec_len unsorted.rows + unsorted.spare < 2 ^ 32) };
}

// Brings rows into the order of their keys. Those with one key stay in their order.
fn sort<T: Keyed>(rows: &mut Vec<T>) -> Result<(), NoMemory>
    ensures { IsStableByKey T.key_of compare rows.old.items rows.new.items }
{
    rows.sort_by(|left, right| ByKey::order(left, right))
}

// The table of rows that are put in their places one after the other. One that is above those before it shifts none.
fn table_of<T: Keyed>(alloc: Global, rows: Vec<T>) -> Result<RowTable<T>, NoMemory>
    ensures { IfOk result (λ table. table.0 ≡ put_each T.key_of rows.items []) }
{
    let mut table = RowTable::new(alloc);
    table.reserve(rows.len())?;
    for row in rows {
        table.put(row);
    }
    Ok(table)
}

fn push<T: Keyed>(rows: &mut Vec<T>, row: T)
    requires { vec_len rows.old < vec_capacity rows.old }
    ensures rows { rows.new.items ≡ rows.old.items ++ row ∷ [] }
    ensures len { vec_len rows.new ≡ vec_len rows.old + 1 }
    ensures capacity { vec_capacity rows.old ≤ vec_capacity rows.new }
{
    if rows.push(row).is_err() {
        unreachable!()
    }
}

impl<T: Keyed> Unsorted<T> {
    /// No row, which takes no memory.
    pub fn new(alloc: Global) -> Self
        ensures { result ≡ ([], 0) }
    {
        Unsorted {
            rows: Vec::new(alloc),
            spare: 0,
        }
    }

    /// Rows that stand by ascending key. It takes no memory.
    pub fn from_rows(rows: Vec<T>) -> Self
        requires ascending { is_ascending T.key_of rows.items ≡ true }
        requires few { vec_len rows < 2 ^ 32 }
        ensures { result ≡ (rows.items, 0) }
    {
        Unsorted { rows, spare: 0 }
    }

    /// Makes room for more rows. There is none for 2^32 rows.
    pub fn reserve(&mut self, more: usize) -> Result<(), NoMemory>
        ensures rows { self.new.0 ≡ self.old.0 }
        ensures ok { OnOk result (more ≤ self.new.1) }
        ensures kept { self.old.1 ≤ self.new.1 }
    {
        if self.spare < more {
            if more >= MOST - self.rows.len() {
                return Err(AllocError);
            }
            self.rows.reserve(more)?;
            self.spare = more;
        }
        Ok(())
    }

    /// Adds a row. A row with its key goes. It takes no memory.
    pub fn put(&mut self, row: T)
        requires { 0 < self.old.1 }
        ensures rows { self.new.0 ≡ put T.key_of row self.old.0 }
        ensures spare { self.new.1 + 1 ≡ self.old.1 }
    {
        push(&mut self.rows, row);
        self.spare -= 1;
    }

    /// The table of the rows, which are sorted once.
    pub fn into_table(self, alloc: Global) -> Result<RowTable<T>, NoMemory>
        ensures { IfOk result (λ table. table.0 ≡ self.0) }
    {
        let mut rows = self.rows;
        sort(&mut rows)?;
        table_of(alloc, rows)
    }
}
