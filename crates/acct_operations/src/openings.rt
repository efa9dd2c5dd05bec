// The operations that open the server and the policy, and bring no handle.
ghost use Rattle.std.specs.Prelude.{◌≡◌};
ghost use Rattle.acct_rules.specs.Planned.{decision};
ghost use Rattle.acct_operations.specs.Openings.{connect, is_rooted, open_policy};

use acct_calls::Args;
use acct_codes::status::STATUS_INVALID_PARAMETER;
use acct_rows::{Object, Rows};
use acct_rules::{Planned, desired_access, opens, refusal};
use std::alloc::Global;

/// Opens the server of the account database.
pub fn connect(alloc: Global, rows: &Rows, object: Object, args: &Args) -> Planned
    ensures { result ≡ decision (connect rows.now.lists object args.now) }
{
    opens(alloc, Object::Server, desired_access(args))
}

fn is_rooted(args: &Args) -> bool
    ensures { result ≡ is_rooted args.now }
{
    matches!(args, Args::Policy { rooted: true, .. })
}

/// Opens the policy, unless the call names a root directory.
pub fn open_policy(alloc: Global, rows: &Rows, object: Object, args: &Args) -> Planned
    ensures { result ≡ decision (open_policy rows.now.lists object args.now) }
{
    if is_rooted(args) {
        return refusal(alloc, STATUS_INVALID_PARAMETER);
    }
    opens(alloc, Object::Policy, desired_access(args))
}
