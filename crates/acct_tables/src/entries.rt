// What an index has of rows.
ghost use Rattle.std.specs.Prelude.{◌≡◌, IfOk, map};

use crate::keyed::Keyed;
use acct_calls::NoMemory;
use std::alloc::Global;

/// An entry of an index of rows. The index has its entries by their own keys.
pub trait Entry<T>: Keyed {
    ghost entry_of: { T → Self };

    /// The entry of a row.
    fn entry_of(row: &T) -> Self
        ensures { result ≡ entry_of row.now };
}

/// The entries of rows, in the order of the rows.
pub fn entries_of<T, E: Entry<T>>(alloc: Global, rows: &[T]) -> Result<Vec<E>, NoMemory>
    ensures { IfOk result (λ entries. entries.items ≡ map E.entry_of rows.now) }
{
    let mut entries = Vec::with_capacity(alloc, rows.len())?;
    for row in rows {
        entries.push(E::entry_of(row))?;
    }
    Ok(entries)
}
