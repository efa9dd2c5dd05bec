// Reading the text of a SID, byte by byte.
ghost use Rattle.std.specs.Prelude.{◌≡◌, ◌<◌, ◌≤◌, ◌^◌, length, IfSome, IfOk, IfErr};
ghost use Rattle.std.specs.Result.{result_ok};
ghost use Rattle.dtyp_sid.specs.Reading.{first_digit, more_digits, stage_after, finished, IsStage, sid_of_text};
ghost use Rattle.dtyp_sid.specs.Text.{IsText, IsBadPlace};
ghost use Rattle.dtyp_sid.specs.Sids.{sid_max_sub_authorities};

use crate::{BadText, SID_MAX_SUB_AUTHORITIES, Sid};

/// How far a text is read.
#[derive(Clone, Copy)]
enum Stage {
    /// So many bytes of `S-1-`.
    Opening(usize),
    /// `S-1-` and a decimal authority, as far as it goes.
    Decimal(u32),
    /// `S-1-0x` and so many hexadecimal digits of an authority, with their number.
    Hexadecimal(usize, u64),
    /// The text of a SID, and a dash.
    Dashed(Sid),
    /// The text of a SID, a dash, and a sub-authority as far as it goes.
    Sub(Sid, u32),
}

/// The SID that a text spells: `S-1-`, the authority in decimal below 2^32 or as `0x` and 12 hexadecimal digits, and
/// each sub-authority in decimal after a dash, at most 15 of them. No decimal has leading zeros. It takes no memory.
pub fn parse_text(text: &str) -> Result<Sid, BadText>
    ensures ok { IfOk result (IsText text.now) }
    ensures refused { IfErr result (λ bad. IsBadPlace text.now bad.place) }
    ensures value { result_ok result ≡ sid_of_text text.now }
{
    let bytes = text.as_bytes();
    let mut stage = Stage::Opening(0);
    for (place, byte) in bytes.iter().enumerate() {
        match step(stage, *byte) {
            Some(next) => stage = next,
            None => return Err(BadText { place }),
        }
    }
    match finish(stage) {
        Some(sid) => Ok(sid),
        None => Err(BadText { place: text.len() }),
    }
}

/// The stage after one more byte, if a text may go on so.
#[tactic(auto, unfolding(crate::specs::Reading::stage_after))]
fn step(stage: Stage, byte: u8) -> Option<Stage>
    requires { IsStage stage }
    ensures value { result ≡ stage_after stage byte }
    ensures stage { IfSome result IsStage }
{
    match stage {
        Stage::Opening(count) => step_opening(count, byte),
        Stage::Decimal(number) => step_decimal(number, byte),
        Stage::Hexadecimal(count, number) => step_hexadecimal(count, number, byte),
        Stage::Dashed(sid) => Some(Stage::Sub(sid, first_digit(byte)?)),
        Stage::Sub(sid, number) => step_sub(sid, number, byte),
    }
}

#[tactic(auto, unfolding(crate::specs::Reading::stage_after))]
fn step_opening(count: usize, byte: u8) -> Option<Stage>
    requires { count ≤ 4 }
    ensures value { result ≡ stage_after (Stage.Opening count) byte }
    ensures stage { IfSome result IsStage }
{
    if count < 4 {
        let opening = b"S-1-";
        if byte == opening[count] {
            Some(Stage::Opening(count + 1))
        } else {
            None
        }
    } else {
        Some(Stage::Decimal(first_digit(byte)?))
    }
}

#[tactic(auto, unfolding(crate::specs::Reading::stage_after))]
fn step_decimal(number: u32, byte: u8) -> Option<Stage>
    ensures value { result ≡ stage_after (Stage.Decimal number) byte }
    ensures stage { IfSome result IsStage }
{
    if byte == b'-' {
        return Some(Stage::Dashed(Sid::of_authority(u64::from(number))));
    }
    if byte == b'x' && number == 0 {
        return Some(Stage::Hexadecimal(0, 0));
    }
    Some(Stage::Decimal(more_digits(number, byte)?))
}

#[tactic(auto, unfolding(crate::specs::Reading::stage_after))]
fn step_hexadecimal(count: usize, number: u64, byte: u8) -> Option<Stage>
    requires count { count ≤ 12 }
    requires number { number < 16 ^ count }
    ensures value { result ≡ stage_after (Stage.Hexadecimal count number) byte }
    ensures stage { IfSome result IsStage }
{
    if count < 12 {
        let digit = char::from(byte).to_digit(16)?;
        Some(Stage::Hexadecimal(count + 1, number * 16 + u64::from(digit)))
    } else if byte == b'-' {
        Some(Stage::Dashed(Sid::of_authority(number)))
    } else {
        None
    }
}

#[tactic(auto, unfolding(crate::specs::Reading::stage_after))]
fn step_sub(sid: Sid, number: u32, byte: u8) -> Option<Stage>
    requires { length sid.subs < sid_max_sub_authorities }
    ensures value { result ≡ stage_after (Stage.Sub sid number) byte }
    ensures stage { IfSome result IsStage }
{
    if byte == b'-' {
        if sid.subs().len() < SID_MAX_SUB_AUTHORITIES - 1 {
            Some(Stage::Dashed(sid.with_rid(number)?))
        } else {
            None
        }
    } else {
        Some(Stage::Sub(sid, more_digits(number, byte)?))
    }
}

/// The number that a digit begins.
fn first_digit(byte: u8) -> Option<u32>
    ensures { result ≡ first_digit byte }
{
    if byte.is_ascii_digit() {
        Some(u32::from(byte - b'0'))
    } else {
        None
    }
}

/// A number with one more digit, which none has after a leading zero, where it is one of 32 bits.
fn more_digits(number: u32, byte: u8) -> Option<u32>
    ensures { result ≡ more_digits number byte }
{
    if !byte.is_ascii_digit() || number == 0 {
        return None;
    }
    let longer = u64::from(number) * 10 + u64::from(byte - b'0');
    if longer <= u64::from(u32::MAX) {
        Some(longer as u32)
    } else {
        None
    }
}

/// The SID that is read, if a text may end so.
#[tactic(auto, unfolding(crate::specs::Reading::finished))]
fn finish(stage: Stage) -> Option<Sid>
    requires { IsStage stage }
    ensures { result ≡ finished stage }
{
    match stage {
        Stage::Opening(_) => None,
        Stage::Decimal(number) => Some(Sid::of_authority(u64::from(number))),
        Stage::Hexadecimal(count, number) => {
            if count < 12 {
                None
            } else {
                Some(Sid::of_authority(number))
            }
        }
        Stage::Dashed(_) => None,
        Stage::Sub(sid, number) => sid.with_rid(number),
    }
}
