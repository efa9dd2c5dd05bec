// Code points off the beginning of UTF-16 units, and their units at the end of a list.
ghost use Rattle.std.specs.Prelude.{◌≡◌, ◌<◌, ◌≤◌, [], ◌∷◌, ◌++◌, length, MatchOption, IfSome, OnOk};
ghost use Rattle.std.specs.Char.Escape.{encode_utf16};
ghost use Rattle.acct_calls.specs.Names.{code_points};

use std::alloc::AllocError;

/// The first code point of some UTF-16 units, and the units after it.
#[derive(Clone, Copy)]
pub struct FirstPoint<'a> {
    pub point: u32,
    pub rest: &'a [u16],
}

/// The first code point of some UTF-16 units, and `None` at the end: a pair of surrogates is one code point, and any
/// other unit, a surrogate by itself too, is a code point of its own number.
pub fn first_point(units: &[u16]) -> Option<FirstPoint<'_>>
    ensures points { MatchOption result (units.now ≡ [])
        (λ first. code_points units.now ≡ first.point ∷ code_points first.rest.now) }
    ensures shorter { IfSome result (λ first. length first.rest.now < length units.now) }
    ensures fits { IfSome result (λ first. first.point ≤ 0x10_FFFF) }
{
    let [unit, rest @ ..] = units else {
        return None;
    };
    let high = u32::from(*unit);
    if let [next, after @ ..] = rest {
        let low = u32::from(*next);
        if 0xD800 <= high && high < 0xDC00 && 0xDC00 <= low && low < 0xE000 {
            return Some(FirstPoint {
                point: 0x1_0000 + (high - 0xD800) * 0x400 + (low - 0xDC00),
                rest: after,
            });
        }
    }
    Some(FirstPoint { point: high, rest })
}

pub fn push_point(units: &mut Vec<u16>, point: u32) -> Result<(), AllocError>
    requires { point ≤ 0x10_FFFF }
    ensures { OnOk result (units.new.items ≡ units.old.items ++ encode_utf16 point) }
{
    if point < 0x1_0000 {
        units.push(point as u16)?;
        return Ok(());
    }
    let over = point - 0x1_0000;
    units.push((0xD800 + over / 0x400) as u16)?;
    units.push((0xDC00 + over % 0x400) as u16)?;
    Ok(())
}
