// Simple case folding of units, and their comparison after it.
ghost use Rattle.std.specs.Prelude.{◌≡◌, ◌≤◌, IfOk};
ghost use Rattle.acct_calls.specs.Names.{folded_point, folded, is_same};

use crate::NoMemory;
use crate::code_points::{FirstPoint, first_point, push_point};
use std::alloc::Global;
use unicode::case::simple_fold;

#[tactic(auto, unfolding(crate::specs::Names::folded_point))]
pub fn fold_point(point: u32) -> u32
    requires { point ≤ 0x10_FFFF }
    ensures value { result ≡ folded_point point }
    ensures fits { result ≤ 0x10_FFFF }
{
    match char::from_u32(point) {
        Some(c) => simple_fold(c) as u32,
        None => point,
    }
}

pub fn fold_units(alloc: Global, units: &[u16]) -> Result<Vec<u16>, NoMemory>
    ensures { IfOk result (λ made. made.items ≡ folded units.now) }
{
    let mut made = Vec::with_capacity(alloc, units.len())?;
    let mut left = units;
    while let Some(FirstPoint { point, rest }) = first_point(left) {
        push_point(&mut made, fold_point(point))?;
        left = rest;
    }
    Ok(made)
}

// It folds as it compares. Lengths say nothing: a folded code point may have another number of units.
pub fn same_units(left: &[u16], right: &[u16]) -> bool
    ensures { result ≡ is_same left.now right.now }
{
    let mut ours = left;
    let mut theirs = right;
    while let Some(our_first) = first_point(ours) {
        let Some(their_first) = first_point(theirs) else {
            return false;
        };
        if fold_point(our_first.point) != fold_point(their_first.point) {
            return false;
        }
        ours = our_first.rest;
        theirs = their_first.rest;
    }
    theirs.is_empty()
}
