// A law on runs in order: the function does nothing, and its contract is the law.
ghost use Rattle.account_hooks.specs.Laws.{OrderIsByJobs};

/// Runs in order are made for the first jobs, in order, none left out: each is run once or more, at most so many times,
/// until a run ends with 0; the last one perhaps in vain.
pub fn order_is_by_jobs()
    ensures { OrderIsByJobs }
{}
