// The rules for names of accounts.
ghost use Rattle.std.specs.Prelude.{◌≡◌, ◌≤◌};
ghost use Rattle.acct_calls.specs.Names.{most_units, has_length, may_stand, all_may_stand, is_dots_and_spaces};
ghost use Rattle.acct_calls.specs.Names.{is_valid_name};

use crate::code_points::{FirstPoint, first_point};
use acct_codes::Kind;

// How many units a name of the kind may have.
fn most_units(kind: Kind) -> usize
    ensures { result ≡ most_units kind }
{
    match kind {
        Kind::User => 20,
        Kind::Group | Kind::Alias => 256,
        Kind::Server | Kind::Domain | Kind::Policy | Kind::Account => 0,
    }
}

// Whether a name may have the code point.
fn may_stand(point: u32) -> bool
    requires { point ≤ 0x10_FFFF }
    ensures { result ≡ may_stand point }
{
    let Some(c) = char::from_u32(point) else {
        return false;
    };
    !matches!(
        c,
        '\0'..='\x1F'
            | '"'
            | '/'
            | '\\'
            | '['
            | ']'
            | ':'
            | ';'
            | '|'
            | '='
            | ','
            | '+'
            | '*'
            | '?'
            | '<'
            | '>'
    )
}

fn all_may_stand(units: &[u16]) -> bool
    ensures { result ≡ all_may_stand units.now }
{
    let mut left = units;
    while let Some(FirstPoint { point, rest }) = first_point(left) {
        if !may_stand(point) {
            return false;
        }
        left = rest;
    }
    true
}

fn is_dots_and_spaces(units: &[u16]) -> bool
    ensures { result ≡ is_dots_and_spaces units.now }
{
    let mut left = units;
    while let Some(FirstPoint { point, rest }) = first_point(left) {
        if point != 0x2E && point != 0x20 {
            return false;
        }
        left = rest;
    }
    true
}

fn has_length(units: &[u16], kind: Kind) -> bool
    ensures { result ≡ has_length kind units.now }
{
    1 <= units.len() && units.len() <= most_units(kind)
}

#[tactic(auto, unfolding(crate::specs::Names::is_valid_name))]
pub fn is_valid_name(units: &[u16], kind: Kind) -> bool
    ensures { result ≡ is_valid_name kind units.now }
{
    has_length(units, kind) && all_may_stand(units) && !is_dots_and_spaces(units)
}
