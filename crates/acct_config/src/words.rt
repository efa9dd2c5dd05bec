// Words and hexadecimal numbers in a text.
ghost use Rattle.std.specs.Prelude.{◌≡◌, ◌<◌, ◌≤◌, length, option_map};
ghost use Rattle.acct_base.specs.Words.{parted};
ghost use Rattle.acct_config.specs.Values.{hexadecimal_from};

/// What stands before the first separator, and what stands after it.
pub fn parted(text: &str, separator: char) -> Option<(&str, &str)>
    requires { separator < 128 }
    ensures { option_map (λ parts. (parts.0.now, parts.1.now)) result ≡ parted separator text.now }
{
    text.split_once(separator)
}

/// The number that at most eight hexadecimal digits of either case spell.
pub fn hexadecimal_of(text: &[u8]) -> Option<u32>
    requires { length text.now ≤ 8 }
    ensures { result ≡ hexadecimal_from 0 text.now }
{
    let mut number: u64 = 0;
    for byte in text {
        match char::from(*byte).to_digit(16) {
            Some(digit) => number = number * 16 + u64::from(digit),
            None => return None,
        }
    }
    Some(number as u32)
}
