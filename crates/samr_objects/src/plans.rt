// Rows that a plan puts.
ghost use Rattle.std.specs.Prelude.{◌≡◌, [], ◌∷◌, IfOk};

use acct_base::Seq;
use acct_rows::Row;
use acct_rules::NoMemory;
use std::alloc::Global;

/// One row.
pub fn one_row(alloc: Global, row: Row) -> Result<Seq<Row>, NoMemory>
    ensures { IfOk result (λ rows. rows ≡ row ∷ []) }
{
    Seq::new(alloc).with(row)
}
