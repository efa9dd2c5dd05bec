// Laws of traces: each function does nothing, and its contract is the law.
ghost use Rattle.grant_audit.specs.Following.{WalksAreTraces};
ghost use Rattle.grant_audit.specs.Traced.{HandlesHaveOrigins, TracesAreRight};

use acct_machine::handles_come_in_order;

/// Each handle after a legal history that began with sound rows under a right configuration was given by one event of
/// it, and by no other; the opening of its call granted there what the handle has.
pub fn handles_have_origins()
    ensures { HandlesHaveOrigins }
{
    handles_come_in_order();
}

/// Of each trace of such a history one event gave the handle, and no other did; it came before the call, and what was
/// granted there is the trace's grant, which has each bit that the call needed.
pub fn traces_are_right()
    ensures { TracesAreRight }
{
    handles_come_in_order();
}

/// What the second machine finds of each such history, event by event, are its traces.
pub fn walks_are_traces()
    ensures { WalksAreTraces }
{
    handles_come_in_order();
}
