// What leaves the outbox: its first row, and the room that its entry takes.
ghost use Rattle.std.specs.Prelude.{◌≡◌, ◌+◌, ◌≤◌, [], ◌∷◌, IfOk};
ghost use Rattle.acct_tables.specs.declared.row.RowKey.TheVariants as keys;
ghost use Rattle.acct_machine.specs.Outbox.{least_out};
ghost use Rattle.acct_machine.specs.Legal.{most_entries};

use crate::{Limits, NoMemory, Rows};
use acct_base::Seq;
use acct_rows::{Plan, RowKey, push_key};
use std::alloc::Global;

/// The number of the first row of the outbox.
pub fn least_out(rows: &Rows) -> Option<u64>
    ensures { result ≡ least_out rows.now.lists }
{
    match rows.out_rows().first() {
        Some(row) => Some(row.number),
        None => None,
    }
}

/// A plan that removes the out row of a number.
pub fn removal(alloc: Global, number: u64) -> Result<Plan, NoMemory>
    ensures { IfOk result (λ plan. plan ≡ record { puts = []; removes = keys.Out number ∷ [] }) }
{
    let mut removes = Seq::new(alloc);
    push_key(&mut removes, RowKey::Out(number))?;
    Ok(Plan {
        puts: Seq::new(alloc),
        removes,
    })
}

/// How many more entries a history may come to need once a row leaves the outbox, after so many calls and openings.
pub fn hook_room(limits: &Limits, calls: u32, conns: usize) -> usize
    requires calls { calls ≤ limits.now.max_calls }
    requires conns { conns ≤ limits.now.max_conns }
    ensures { result + calls + conns ≡ most_entries limits.now + 1 }
{
    (limits.max_calls - calls) as usize + 2 * limits.max_conns as usize - conns + 1
}
