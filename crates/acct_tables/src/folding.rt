// The order of names after simple case folding.
ghost use Rattle.std.specs.Prelude.{◌≡◌, ◌≤◌};
ghost use Rattle.std.specs.Ordering.{nat_cmp};
ghost use Rattle.acct_calls.specs.Names.{folded_point, folded_points};
ghost use Rattle.acct_tables.specs.KeyedRows.{compare};

use acct_calls::first_point;
use std::cmp::Ordering;
use unicode::case::simple_fold;

#[tactic(auto, unfolding(acct_calls::specs::Names::folded_point))]
fn fold_point(point: u32) -> u32
    requires { point ≤ 0x10_FFFF }
    ensures { result ≡ folded_point point }
{
    match char::from_u32(point) {
        Some(c) => simple_fold(c) as u32,
        None => point,
    }
}

// Most code points that are compared are equal, and so are these folded.
fn point_order(left: u32, right: u32) -> Ordering
    requires left { left ≤ 0x10_FFFF }
    requires right { right ≤ 0x10_FFFF }
    ensures { result ≡ nat_cmp (folded_point left) (folded_point right) }
{
    if left == right {
        return Ordering::Equal;
    }
    fold_point(left).cmp(&fold_point(right))
}

// The order of the folded code points. It folds as it compares, so it takes no memory.
pub fn fold_order(left: &[u16], right: &[u16]) -> Ordering
    ensures { result ≡ compare (folded_points left.now) (folded_points right.now) }
{
    let mut ours = left;
    let mut theirs = right;
    while let Some(our_first) = first_point(ours) {
        let Some(their_first) = first_point(theirs) else {
            return Ordering::Greater;
        };
        let order = point_order(our_first.point, their_first.point);
        if order != Ordering::Equal {
            return order;
        }
        ours = our_first.rest;
        theirs = their_first.rest;
    }
    match first_point(theirs) {
        Some(_) => Ordering::Less,
        None => Ordering::Equal,
    }
}
