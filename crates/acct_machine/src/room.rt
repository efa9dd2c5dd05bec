// What a history takes at most.
ghost use Rattle.std.specs.Prelude.{◌≡◌};
ghost use Rattle.acct_machine.specs.Legal.{most_entries};

use crate::Limits;

/// The most entries of a history within the limits: its calls, and for each connection its opening and its end.
pub fn most_entries(limits: &Limits) -> usize
    ensures { result ≡ most_entries limits.now }
{
    limits.max_calls as usize + 2 * limits.max_conns as usize
}
