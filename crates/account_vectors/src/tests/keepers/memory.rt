// Keepers in memory: what commits make, which calls fail, and which keys ascend.
use super::words::{pairs_of, serve};
use crate::tests::words::split;
use acct_keeper::{KeepError, Keeper, MemoryKeeper, SteadyKeeper, is_ascending};
use std::alloc::{AllocError, Global};

// Each row: what a new keeper is asked, and what it answers, with its count of faults at the end.
const ROWS: &str = " load|Ok(())  0/
b=2,a=1 load|Ok(()) a=1;b=2; 0/
a=1,a=2 load|Ok(()) a=2; 0/
a=1,-a load|Ok(())  0/
-a,a=1 load|Ok(()) a=1; 0/
ab=1,b=2,a=3,aa=4 load|Ok(()) a=3;aa=4;ab=1;b=2; 0/
c=1,a=2,b=3,-b load|Ok(()) a=2;c=1; 0/";

fn answers_are<K: Keeper>(
    rt: &HostRuntime,
    keeper: &mut K,
    words: &str,
    wanted: &str,
) -> Result<bool, AllocError> {
    let mut told = String::new(rt.alloc());
    serve(rt, keeper, words, &mut told)?;
    Ok(told.as_str() == wanted)
}

fn row_is_right(rt: &HostRuntime, row: &str) -> Result<bool, AllocError> {
    let (words, wanted) = split(row, '|');
    answers_are(rt, &mut SteadyKeeper::new(rt.alloc()), words, wanted)
}

#[test]
fn a_commit_makes_its_changes_in_order(rt: HostRuntime) -> Result<(), AllocError> {
    for row in ROWS.lines() {
        assert!(rt; row_is_right(&rt, row)?, "{row}");
    }
    Ok(())
}

// Three commits and a load, which is the fourth call.
const FOUR_CALLS: &str = "a=1,b=2 b=3,-a c=4 load";

// The calls that fail, and what the four calls answer then, with the count of faults at the end.
const FAILING: [([u64; 2], &str); 5] = [
    ([0, 9], "Ok(()) Ok(()) Ok(()) b=3;c=4; 0/"),
    ([1, 9], "Err(Failed) Ok(()) Ok(()) b=3;c=4; 1/"),
    ([2, 9], "Ok(()) Err(Failed) Ok(()) a=1;b=2;c=4; 1/"),
    ([3, 1], "Err(Failed) Ok(()) Err(Failed) b=3; 2/"),
    ([4, 2], "Ok(()) Err(Failed) Ok(()) Err(Failed) 2/"),
];

// A keeper over another one, whose calls of these numbers fail.
fn failing_over(
    alloc: Global,
    held: SteadyKeeper,
    failing: &[u64],
) -> Result<MemoryKeeper, AllocError> {
    match failing.to_vec(alloc) {
        Ok(failing) => Ok(MemoryKeeper::new(held, failing)),
        Err(error) => {
            drop(held);
            Err(error)
        }
    }
}

fn fails(rt: &HostRuntime, failing: &[u64], wanted: &str) -> Result<bool, AllocError> {
    let mut keeper = failing_over(rt.alloc(), SteadyKeeper::new(rt.alloc()), failing)?;
    let is_right = answers_are(rt, &mut keeper, FOUR_CALLS, wanted);
    drop(keeper);
    is_right
}

#[test]
fn the_listed_calls_fail(rt: HostRuntime) -> Result<(), AllocError> {
    for (failing, wanted) in FAILING {
        assert!(rt; fails(&rt, &failing, wanted)?, "{wanted}");
    }
    Ok(())
}

// A commit of one pair.
fn keeps_one(rt: &HostRuntime, keeper: &mut SteadyKeeper) -> Result<bool, AllocError> {
    let is_right = answers_are(rt, keeper, "a=1 load", "Ok(()) a=1; 0/")?;
    Ok(is_right && keeper.as_slice().len() == 1)
}

// The first load fails, and the second has the pair.
fn loads_at_last(mut keeper: MemoryKeeper) -> bool {
    let is_right = matches!(keeper.load(), Err(KeepError::Failed))
        && keeper.as_slice().len() == 1
        && keeper.load().is_ok_and(|pairs| pairs.len() == 1);
    drop(keeper);
    is_right
}

#[test]
fn a_failed_load_leaves_the_pairs(rt: HostRuntime) -> Result<(), AllocError> {
    let mut held = SteadyKeeper::new(rt.alloc());
    assert!(rt; keeps_one(&rt, &mut held)?);
    assert!(rt; loads_at_last(failing_over(rt.alloc(), held, &[1])?));
    Ok(())
}

// Whether these keys ascend.
const KEYS: [(&str, bool); 6] = [
    ("", true),
    ("a=1", true),
    ("a=1,ab=1,b=1", true),
    ("a=1,a=1", false),
    ("ab=1,a=1", false),
    ("a=1,b=1,a=1", false),
];

fn ascend(alloc: Global, words: &str) -> Result<bool, AllocError> {
    let pairs = pairs_of(alloc, words)?;
    Ok(is_ascending(&pairs))
}

#[test]
fn ascending_keys_are_told(rt: HostRuntime) -> Result<(), AllocError> {
    for (words, wanted) in KEYS {
        assert!(rt; ascend(rt.alloc(), words)? == wanted, "{words}");
    }
    Ok(())
}
