// A list of numbers under the lock.
ghost use Rattle.std.specs.Prelude.{◌≡◌, ◌++◌, [], ◌∷◌, ◌<◌, ◌^◌, IfOk, OnOk, IfSome};
ghost use Rattle.hist_lock.specs.Lanes.{free, names_none};
ghost use Rattle.hist_lock.specs.Views.{IsFirst};
ghost use Rattle.hist_lock.specs.Passes.{view, IsPassOf};

use hist_lock::{Closed, HistLock, Job, Kept, NoLock, Pass};
use std::alloc::{AllocError, Global};
use std::sync::Wait;
use std::test::Fail;
use std::thread::join;

#[derive(Drop)]
struct Numbers {
    items: Vec<u64>,
    label: u64,
}

impl Kept for Numbers {
    type Entry = u64;

    type Fixed = u64;

    ghost entries = { λ numbers. numbers.items.items };

    ghost fixed = { λ numbers. numbers.label };

    ghost lane = { λ _. free };

    fn entry_count(&self) -> usize {
        self.items.len()
    }
}

fn no_numbers(alloc: Global) -> Numbers
    ensures { (result.items.items ≡ []) × (result.label ≡ 7) }
{
    Numbers {
        items: Vec::new(alloc),
        label: 7,
    }
}

#[derive(Drop)]
struct Push {
    number: u64,
}

impl Job<Numbers> for Push {
    type Out = Result<(), AllocError>;

    ghost may = { λ _ _ _. Unit {0} };

    ghost does = { λ job _ before after out. OnOk out (after ≡ before ++ job.number ∷ []) };

    ghost names = { λ _. names_none };

    fn run(self, kept: &mut Numbers) -> Result<(), AllocError> {
        kept.items.push(self.number)?;
        Ok(())
    }
}

fn push_hundred<R: Wait>(
    rt: &R,
    lock: &HistLock<Numbers>,
    mut pass: Pass<Numbers>,
    from: u64,
) -> Result<Pass<Numbers>, AllocError>
    requires pass { IsPassOf lock.now pass }
    requires small { from < 2 ^ 63 }
    ensures pass { IfOk result (λ after. IsPassOf lock.now after) }
    ensures number { IfOk result (λ after. (view after).number ≡ (view pass).number) }
{
    for number in from..from + 100 {
        lock.turn(rt, &mut pass, Push { number })?;
    }
    Ok(pass)
}

#[test]
fn two_threads_make_a_hundred_turns_each(rt: HostRuntime) -> Result<(), Fail> {
    let Ok((lock, mut first)) = HistLock::new(rt.alloc(), no_numbers(rt.alloc())) else {
        panic!(&rt; "memory")
    };
    assert!(&rt; first.is_first());
    let one = lock.split(&mut first);
    let two = lock.split(&mut first);
    assert!(&rt; !one.is_first() && !two.is_first());
    let shared = &lock;
    let (low, high) = join(
        &rt,
        || -> Result<Pass<Numbers>, AllocError>
            requires { IsPassOf shared.now one }
            ensures { IfOk result (λ after. IsPassOf shared.entry.now after
                × ((view after).number ≡ (view one).number)) }
        { push_hundred(&rt, shared, one, 0) },
        || -> Result<Pass<Numbers>, AllocError>
            requires { IsPassOf shared.now two }
            ensures { IfOk result (λ after. IsPassOf shared.entry.now after
                × ((view after).number ≡ (view two).number)) }
        { push_hundred(&rt, shared, two, 1000) },
    );
    lock.join(&mut first, low?);
    lock.join(&mut first, high?);
    let Closed::Whole(numbers) = lock.close(first) else {
        panic!(&rt; "a pass is missing")
    };
    assert_eq!(&rt; numbers.label, 7);
    assert_eq!(&rt; numbers.items.len(), 200);
    assert!(&rt; are_in_order(numbers.items.as_slice(), 0));
    assert!(&rt; are_in_order(numbers.items.as_slice(), 1000));
    Ok(())
}

// Of the numbers below 1000, or of the others, there are a hundred, each one above the last.
fn are_in_order(items: &[u64], from: u64) -> bool {
    let mut next = from;
    for item in items {
        if (*item < 1000) == (from < 1000) {
            if *item != next {
                return false;
            }
            next = next.wrapping_add(1);
        }
    }
    next == from.wrapping_add(100)
}

#[test]
fn a_dropped_pass_is_missed(rt: HostRuntime) -> Result<(), Fail> {
    let Ok((lock, mut first)) = HistLock::new(rt.alloc(), no_numbers(rt.alloc())) else {
        panic!(&rt; "memory")
    };
    let one = lock.split(&mut first);
    let two = lock.split(&mut first);
    lock.join(&mut first, one);
    drop(two);
    let Closed::Unjoined { made, joined } = lock.close(first) else {
        panic!(&rt; "no pass is missing")
    };
    assert!(&rt; made == 2 && joined == 1);
    Ok(())
}

// With `rt try --test --fail-alloc N`, for N from 1 to 3, there is no memory for the first lock.
#[test]
fn a_refused_lock_hands_the_value_back(rt: HostRuntime) -> Result<(), Fail> {
    let (lock, first) = match HistLock::new(rt.alloc(), no_numbers(rt.alloc())) {
        Ok(made) => made,
        Err(NoLock { kept }) => {
            assert_eq!(&rt; kept.label, 7);
            let Ok(made) = HistLock::new(rt.alloc(), kept) else {
                panic!(&rt; "memory")
            };
            made
        }
    };
    assert!(&rt; matches!(lock.close(first), Closed::Whole(_)));
    Ok(())
}
