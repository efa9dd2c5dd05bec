// Words and decimal numbers in bytes.
ghost use Rattle.std.specs.Prelude.{◌≡◌, ◌+◌, ◌^◌, ◌<◌, ◌≤◌, length, drop, option_map, IfSome};
ghost use Rattle.std.specs.List.{position_or_len};
ghost use Rattle.acct_base.specs.Words.{parted, decimal_from, decimal_of};

use crate::bytes::rest_of;

/// What stands before the first separator, and what stands after it.
pub fn parted(bytes: &[u8], separator: u8) -> Option<(&[u8], &[u8])>
    ensures value { option_map (λ parts. (parts.0.now, parts.1.now)) result ≡ parted separator bytes.now }
    ensures shorter { IfSome result (λ parts. length parts.1.now < length bytes.now) }
{
    for i in 0..bytes.len() {
        if bytes[i] == separator {
            return Some((&bytes[..i], rest_of(bytes, i + 1)));
        }
    }
    None
}

/// The number that at most ten decimal digits spell; leading zeros and no digit at all are taken.
pub fn decimal(digits: &[u8]) -> Option<u64>
    requires { length digits.now ≤ 10 }
    ensures value { result ≡ decimal_from 0 digits.now }
    ensures small { IfSome result (λ number. number < 10 ^ length digits.now) }
{
    let mut number: u64 = 0;
    for digit in digits {
        if *digit < b'0' || b'9' < *digit {
            return None;
        }
        number = 10 * number + (*digit - b'0') as u64;
    }
    Some(number)
}

/// The number that one to so many decimal digits spell, ten or fewer, without a leading zero; a lone 0 is taken.
#[tactic(auto, unfolding(crate::specs::Words::decimal_of))]
pub fn decimal_of(most: usize, text: &[u8]) -> Option<u64>
    requires { most ≤ 10 }
    ensures value { result ≡ decimal_of most text.now }
    ensures small { IfSome result (λ number. number < 10 ^ most) }
{
    if text.is_empty() || most < text.len() || (text[0] == b'0' && 1 < text.len()) {
        return None;
    }
    decimal(text)
}
