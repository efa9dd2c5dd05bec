// A world is asked to keep a period.
ghost use Rattle.std.specs.Prelude.{◌≡◌, MatchResult};
ghost use Rattle.acct_server.specs.declared.status.Status.TheVariants.{NoMemory};
ghost use Rattle.acct_commands.specs.Commanded.{KeepsAny};

use acct_server::Status;
use acct_world::{Period, World};
use std::alloc::AllocError;

// The status of a run, once the world was asked to keep its period.
fn status_after(ended: Status, kept: Result<(), AllocError>) -> Status
    ensures { MatchResult kept (λ _. result ≡ ended) (λ _. result ≡ NoMemory) }
{
    match kept {
        Ok(()) => ended,
        Err(_) => Status::NoMemory,
    }
}

/// Asks the world to keep a period, if there is one.
pub(crate) fn keep<W: World>(world: &mut W, period: Option<Period>, ended: Status) -> Status
    ensures { KeepsAny (W.seen world.old) (W.seen world.new) period ended result }
{
    match period {
        Some(period) => status_after(ended, world.keep_period(period)),
        None => ended,
    }
}
