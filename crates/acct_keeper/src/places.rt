// Pairs in a vector, each at its place.
ghost use Rattle.std.specs.Prelude.{◌≡◌, ◌+◌, ◌<◌, ◌≤◌, true, MatchResult, length, vec_len, vec_capacity};
ghost use Rattle.acct_keeper.specs.Pairs.{is_ascending, put, without, set_key, after};
ghost use Rattle.acct_keeper.specs.steps.Places.{place};

use crate::pairs::{Change, Pair};

/// Whether the keys strictly rise, so that none stands twice.
pub fn is_ascending(pairs: &[Pair]) -> bool
    ensures { result ≡ is_ascending pairs.now }
{
    for i in 1..pairs.len() {
        let (left, right) = (pairs[i - 1].key.as_slice(), pairs[i].key.as_slice());
        if left.cmp(right).is_ge() {
            return false;
        }
    }
    true
}

// Where the key stands in pairs that ascend, or where it would go.
fn place(pairs: &[Pair], key: &[u8]) -> Result<usize, usize>
    requires { is_ascending pairs.now ≡ true }
    ensures found { result ≡ place key.now pairs.now }
    ensures within { MatchResult result (λ i. i < length pairs.now) (λ i. i ≤ length pairs.now) }
{
    pairs.binary_search_by(|pair| pair.key.as_slice().cmp(key))
}

fn put(pairs: &mut Vec<Pair>, pair: Pair)
    requires room { vec_len pairs.old < vec_capacity pairs.old }
    requires ascending { is_ascending pairs.old.items ≡ true }
    ensures pairs { pairs.new.items ≡ put pair pairs.old.items }
    ensures len { vec_len pairs.new ≤ vec_len pairs.old + 1 }
    ensures capacity { vec_capacity pairs.old ≤ vec_capacity pairs.new }
{
    match place(pairs, pair.key.as_slice()) {
        Ok(i) => pairs[i] = pair,
        Err(i) => {
            if pairs.insert(i, pair).is_err() {
                unreachable!()
            }
        }
    }
}

fn remove(pairs: &mut Vec<Pair>, key: &[u8])
    requires { is_ascending pairs.old.items ≡ true }
    ensures pairs { pairs.new.items ≡ without key.now pairs.old.items }
    ensures len { vec_len pairs.new ≤ vec_len pairs.old }
    ensures capacity { vec_capacity pairs.old ≤ vec_capacity pairs.new }
{
    match place(pairs, key) {
        Ok(i) => {
            pairs.remove(i);
        }
        Err(_) => {}
    }
}

fn set(pairs: &mut Vec<Pair>, change: Change)
    requires room { vec_len pairs.old < vec_capacity pairs.old }
    requires ascending { is_ascending pairs.old.items ≡ true }
    ensures pairs { pairs.new.items ≡ set_key change.key change.value pairs.old.items }
    ensures ascending { is_ascending pairs.new.items ≡ true }
    ensures len { vec_len pairs.new ≤ vec_len pairs.old + 1 }
    ensures capacity { vec_capacity pairs.old ≤ vec_capacity pairs.new }
{
    let Change { key, value } = change;
    match value {
        Some(value) => put(pairs, Pair { key, value }),
        None => remove(pairs, key.as_slice()),
    }
}

/// Makes the changes in order, in room that is there.
pub(crate) fn make(pairs: &mut Vec<Pair>, changes: Vec<Change>)
    requires room { vec_len pairs.old + vec_len changes ≤ vec_capacity pairs.old }
    requires ascending { is_ascending pairs.old.items ≡ true }
    ensures pairs { pairs.new.items ≡ after changes.items pairs.old.items }
    ensures ascending { is_ascending pairs.new.items ≡ true }
{
    for change in changes {
        set(pairs, change);
    }
}
