// The operations that close a handle.
ghost use Rattle.std.specs.Prelude.{◌≡◌};
ghost use Rattle.acct_rules.specs.Planned.{decision};
ghost use Rattle.acct_operations.specs.Openings.{close};

use acct_calls::Args;
use acct_rows::{Object, Rows};
use acct_rules::{Planned, closes};
use std::alloc::Global;

/// Closes the handle that was brought.
pub fn close(alloc: Global, rows: &Rows, object: Object, args: &Args) -> Planned
    ensures { result ≡ decision (close rows.now.lists object args.now) }
{
    closes(alloc)
}
