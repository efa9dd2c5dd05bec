// Tables: rows by ascending key.
ghost use Rattle.std.specs.Prelude.{◌≡◌, ◌+◌, ◌^◌, ◌<◌, ◌≤◌, true, ℕ, List, [], IfOk, OnOk, length, vec_len};
ghost use Rattle.std.specs.Option.{option_copied};
ghost use Rattle.acct_tables.specs.KeyedRows.{compare, at, put, without, is_ascending};

use crate::copies::{Copied, copies_of};
use crate::order::{Order, Whole};
use crate::table::{Table, find_key};
use acct_calls::NoMemory;
use std::alloc::{AllocError, Global};
use std::cmp::Ordering;
use std::marker::Model;

/// A row with a key. Keys are ordered as lists of numbers.
pub trait Keyed: Drop {
    type Key: Copy;

    ghost key_of: { Self → List ℕ };

    ghost path: { Self.Key → List ℕ };

    fn key(&self) -> Self::Key
        ensures { path result ≡ key_of self.now };

    /// The order of the row's own key and a key.
    fn order(row: &Self, key: &Self::Key) -> Ordering
        ensures { result ≡ compare (key_of row.now) (path key.now) };
}

/// The order of rows by their own keys.
#[derive(Clone, Copy, Debug)]
pub struct ByKey;

impl<T: Keyed> Order<T> for ByKey {
    ghost key_of = { T.key_of };

    fn order(left: &T, right: &T) -> Ordering {
        T::order(left, &right.key())
    }
}

impl<T: Keyed> Whole<T> for ByKey {
    type Key = T::Key;

    ghost path = { T.path };

    fn order_key(value: &T, key: &T::Key) -> Ordering {
        T::order(value, key)
    }
}

/// The row with that key among rows that ascend.
pub fn find<'a, T: Keyed>(rows: &'a [T], key: &T::Key) -> Option<&'a T>
    requires { is_ascending T.key_of rows.now ≡ true }
    ensures { option_copied result ≡ at T.key_of (T.path key.now) rows.now }
{
    find_key::<T, ByKey>(rows, key)
}

/// A table has fewer rows than that.
pub const MOST: usize = 1 << 32;

/// Rows by ascending key, with room for more. A contract sees the list of the rows, and for how many more there is
/// room; with those the table has fewer than 2^32 rows.
#[derive(Drop)]
pub struct RowTable<T: Keyed> {
    rows: Table<T, ByKey>,
    spare: usize,
}

impl<T: Keyed> Model for RowTable<T> {
    ghost use Rattle.std.specs.Prelude.{◌+◌, ◌^◌, ◌<◌, ◌≤◌, ℕ, List, length};

    ghost Value = { List T × ℕ };

    ghost view = { λ table. (table.rows.0, table.spare) };

    ghost invariant = { λ table. (table.spare ≤ table.rows.1) × (length table.rows.0 + table.spare < 2 ^ 32) };
}

impl<T: Keyed> RowTable<T> {
    /// The table of no row, which takes no memory.
    pub fn new(alloc: Global) -> Self
        ensures { result ≡ ([], 0) }
    {
        RowTable {
            rows: Table::new(alloc),
            spare: 0,
        }
    }

    /// The table of rows that stand by ascending key. It takes no memory.
    pub fn from_rows(rows: Vec<T>) -> Self
        requires ascending { is_ascending T.key_of rows.items ≡ true }
        requires few { vec_len rows < 2 ^ 32 }
        ensures { result ≡ (rows.items, 0) }
    {
        RowTable {
            rows: Table::from_vec(rows),
            spare: 0,
        }
    }

    /// The rows by ascending key alone. It takes no memory.
    pub fn into_rows(self) -> Vec<T>
        ensures all { result.items ≡ self.0 }
        ensures ascending { is_ascending T.key_of result.items ≡ true }
        ensures few { vec_len result < 2 ^ 32 }
    {
        self.rows.into_vec()
    }

    /// All rows by ascending key.
    pub fn rows(&self) -> &[T]
        ensures all { result.now ≡ self.now.0 }
        ensures ascending { is_ascending T.key_of result.now ≡ true }
        ensures few { length result.now + self.now.1 < 2 ^ 32 }
    {
        self.rows.as_slice()
    }

    /// The row with that key.
    pub fn find(&self, key: &T::Key) -> Option<&T>
        ensures { option_copied result ≡ at T.key_of (T.path key.now) self.now.0 }
    {
        self.rows.find_key(key)
    }

    /// Makes room for more rows. There is none for a table of 2^32 rows.
    pub fn reserve(&mut self, more: usize) -> Result<(), NoMemory>
        ensures rows { self.new.0 ≡ self.old.0 }
        ensures ok { OnOk result (more ≤ self.new.1) }
        ensures kept { self.old.1 ≤ self.new.1 }
    {
        if self.spare < more {
            if more >= MOST - self.rows.as_slice().len() {
                return Err(AllocError);
            }
            self.rows.reserve(more)?;
            self.spare = more;
        }
        Ok(())
    }

    /// Puts a row in its place. A row with its key goes.
    pub fn put(&mut self, row: T)
        requires { 0 < self.old.1 }
        ensures rows { self.new.0 ≡ put T.key_of row self.old.0 }
        ensures spare { self.new.1 + 1 ≡ self.old.1 }
    {
        self.rows.put(row);
        self.spare -= 1;
    }

    /// Removes the row with that key, if there is one.
    pub fn remove(&mut self, key: &T::Key)
        ensures rows { self.new.0 ≡ without T.key_of (T.path key.now) self.old.0 }
        ensures spare { self.new.1 ≡ self.old.1 }
    {
        self.rows.remove_key(key);
    }
}

impl<T: Keyed + Copied> RowTable<T> {
    /// The same rows in a table of its own, with no room for more.
    pub fn copy(&self, alloc: Global) -> Result<RowTable<T>, NoMemory>
        ensures { IfOk result (λ copy. copy ≡ (self.now.0, 0)) }
    {
        Ok(RowTable::from_rows(copies_of(alloc, self.rows())?))
    }
}
