// How many changes of accounts were taken from the outbox.
ghost use Rattle.std.specs.Prelude.{◌≡◌};
ghost use Rattle.acct_machine.specs.Legal.{hooked_count};
ghost use Rattle.grant_audit.specs.Following.{is_hooked};

use acct_machine::Entry;

fn is_hooked(entry: &Entry) -> bool
    ensures { result ≡ is_hooked entry.now }
{
    matches!(entry, Entry::Hooked { .. })
}

/// How many changes of accounts were taken from the outbox in a history. One that has some is traced where its
/// configuration has a program that is told of them.
pub fn hooked_count(history: &[Entry]) -> usize
    ensures { result ≡ hooked_count history.now }
{
    history.iter().filter(|entry| is_hooked(entry)).count()
}
