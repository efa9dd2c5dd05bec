// What a call does that its conditions let pass, and what a refusal does: a plan.
ghost use Rattle.std.specs.Prelude.{◌≡◌};
ghost use Rattle.acct_rules.specs.Planned.{answers, opens, creates, puts, removes, closes, refusal};

use acct_base::Seq;
use acct_calls::{Outs, ZERO_HANDLE};
use acct_codes::status::STATUS_SUCCESS;
use acct_rows::{Object, Plan, Row, RowKey};
use std::alloc::Global;

/// What is opened, and with which access.
#[derive(Clone, Copy, Debug, PartialEq, Eq)]
pub struct Opening {
    pub object: Object,
    pub desired: u32,
}

/// What is done to handles.
#[derive(Clone, Copy, Debug, PartialEq, Eq)]
pub enum Effect {
    Nothing,
    /// One comes, to what is opened.
    Opens(Opening),
    /// None comes, but the opening must be granted.
    Checks(Opening),
    /// The one that the call brought goes.
    Closes,
    /// Every one to the object goes, on each connection.
    Deletes(Object),
}

/// What a call is answered, and what it does to rows and handles. An opening stands last among the conditions of an
/// operation: where it isn't granted, the call is refused, and nothing of this is done. Outputs of an opening have the
/// zero handle and no grant until there is one.
#[derive(Debug, Drop)]
pub struct Planned {
    pub status: u32,
    pub outs: Outs,
    pub plan: Plan,
    pub effect: Effect,
}

/// An answer that changes nothing.
pub fn answers(alloc: Global, status: u32, outs: Outs) -> Planned
    ensures { result ≡ answers status outs }
{
    Planned {
        status,
        outs,
        plan: Plan {
            removes: Seq::new(alloc),
            puts: Seq::new(alloc),
        },
        effect: Effect::Nothing,
    }
}

/// What a condition that fails answers. The outputs of a refusal are those of the operation's layout, whatever stands
/// here.
pub fn refusal(alloc: Global, status: u32) -> Planned
    ensures { result ≡ refusal status }
{
    answers(alloc, status, Outs::Nothing)
}

/// An opening of an object, with its handle as the only output.
pub fn opens(alloc: Global, object: Object, desired: u32) -> Planned
    ensures { result ≡ opens object desired }
{
    Planned {
        effect: Effect::Opens(Opening { object, desired }),
        ..answers(alloc, STATUS_SUCCESS, Outs::Handle(ZERO_HANDLE))
    }
}

/// A creation: rows that are put, and the opening of what is new, by its RID.
pub fn creates(alloc: Global, object: Object, desired: u32, rid: u32, puts: Seq<Row>) -> Planned
    ensures { result ≡ creates object desired rid puts }
{
    Planned {
        status: STATUS_SUCCESS,
        outs: Outs::Created {
            handle: ZERO_HANDLE,
            granted: 0,
            rid,
        },
        plan: Plan {
            puts,
            removes: Seq::new(alloc),
        },
        effect: Effect::Opens(Opening { object, desired }),
    }
}

/// Rows that are put, with nothing shown.
pub fn puts(alloc: Global, rows: Seq<Row>) -> Planned
    ensures { result ≡ puts rows }
{
    Planned {
        plan: Plan {
            puts: rows,
            removes: Seq::new(alloc),
        },
        ..answers(alloc, STATUS_SUCCESS, Outs::Nothing)
    }
}

/// Rows that are removed, by their keys, with nothing shown.
pub fn removes(alloc: Global, keys: Seq<RowKey>) -> Planned
    ensures { result ≡ removes keys }
{
    Planned {
        plan: Plan {
            puts: Seq::new(alloc),
            removes: keys,
        },
        ..answers(alloc, STATUS_SUCCESS, Outs::Nothing)
    }
}

/// The end of the handle that was brought. The zero handle goes back in its place.
pub fn closes(alloc: Global) -> Planned
    ensures { result ≡ closes }
{
    Planned {
        effect: Effect::Closes,
        ..answers(alloc, STATUS_SUCCESS, Outs::Handle(ZERO_HANDLE))
    }
}
