// The periods that replays and serving leave.
ghost use Rattle.std.specs.Prelude.{◌≡◌};
ghost use Rattle.acct_commands.specs.Commanded.{period_between, period_of};

use acct_base::Seq;
use acct_machine::{Entry, Rows};
use acct_server::{Ended, Replayed, Served, Status};
use acct_world::Period;
use std::alloc::Global;

/// The period of rows, if there are both, a history, and the ends of sessions.
pub fn period_between(
    opening: Option<Rows>,
    history: Seq<Entry>,
    rows: Option<Rows>,
    ends: Seq<Ended>,
) -> Option<Period>
    ensures { result ≡ period_between opening history rows ends }
{
    let Some(opening) = opening else {
        drop(history);
        drop(rows);
        drop(ends);
        return None;
    };
    let Some(rows) = rows else {
        drop(opening);
        drop(history);
        drop(ends);
        return None;
    };
    Some(Period {
        opening,
        history,
        rows,
        ends,
    })
}

/// How serving ended, the period that it leaves, if its machine was made, and its keeper.
pub fn parted_served<K: Drop>(left: Served<K>) -> (Status, Option<Period>, K)
    ensures status { result.0 ≡ left.status }
    ensures period { result.1 ≡ period_between left.opening left.history left.rows left.ends }
    ensures keeper { result.2 ≡ left.keeper }
{
    let Served {
        status,
        opening,
        history,
        rows,
        ends,
        keeper,
    } = left;
    (status, period_between(opening, history, rows, ends), keeper)
}

/// How a replay ended, the period that it leaves, if its machine was made, and its keeper.
pub fn parted<K: Drop>(alloc: Global, left: Replayed<K>) -> (Status, Option<Period>, K)
    ensures status { result.0 ≡ left.status }
    ensures period { result.1 ≡ period_of left }
    ensures keeper { result.2 ≡ left.keeper }
{
    let Replayed {
        status,
        opening,
        history,
        rows,
        keeper,
    } = left;
    (
        status,
        period_between(opening, history, rows, Seq::new(alloc)),
        keeper,
    )
}
