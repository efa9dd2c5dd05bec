// The texts of access control entries.
ghost use Rattle.std.specs.Prelude.{◌≡◌};
ghost use Rattle.dtyp_sid.specs.Reading.{sid_of_text};
ghost use Rattle.acct_base.specs.Words.{parted};
ghost use Rattle.acct_config.specs.Values.{kind_of_word, mask_of_word, flags_of_word, ace_of_text, ace_of};
ghost use Rattle.acct_config.specs.Values.{ace_behind_mask, ace_behind_kind};

use crate::words::{hexadecimal_of, parted};
use acct_base::{decimal_of, rest_of};
use dtyp_access::{Ace, AceKind};
use dtyp_sid::{Sid, parse_text};

/// The SID of a text.
pub fn sid_of_text(text: &str) -> Option<Sid>
    ensures { result ≡ sid_of_text text.now }
{
    parse_text(text).ok()
}

#[tactic(auto, unfolding(crate::specs::Values::kind_of_word))]
fn kind_of_word(word: &str) -> Option<AceKind>
    ensures { result ≡ kind_of_word word.now }
{
    if word == "allow" {
        return Some(AceKind::Allow);
    }
    if word == "deny" {
        return Some(AceKind::Deny);
    }
    None
}

#[tactic(auto, unfolding(crate::specs::Values::mask_of_word))]
fn mask_of_word(word: &[u8]) -> Option<u32>
    ensures { result ≡ mask_of_word word.now }
{
    if word.len() == 10 && word.starts_with(b"0x") {
        hexadecimal_of(rest_of(word, 2))
    } else {
        None
    }
}

#[tactic(auto, unfolding(crate::specs::Values::flags_of_word))]
fn flags_of_word(word: &[u8]) -> Option<u8>
    ensures { result ≡ flags_of_word word.now }
{
    match decimal_of(3, word) {
        Some(number) if number <= 255 => Some(number as u8),
        _ => None,
    }
}

/// The entry of its four words, where each is one.
fn ace_of(kind: &str, mask: &str, flags: &str, sid: &str) -> Option<Ace>
    ensures { result ≡ ace_of (kind_of_word kind.now) (mask_of_word mask.now) (flags_of_word flags.now)
        (sid_of_text sid.now) }
{
    Some(Ace {
        kind: kind_of_word(kind)?,
        flags: flags_of_word(flags.as_bytes())?,
        mask: mask_of_word(mask.as_bytes())?,
        sid: sid_of_text(sid)?,
    })
}

/// The entry whose flags and SID stand in a text.
fn ace_behind_mask(kind: &str, mask: &str, text: &str) -> Option<Ace>
    ensures { result ≡ ace_behind_mask kind.now mask.now (parted 32 text.now) }
{
    let (flags, sid) = parted(text, ' ')?;
    ace_of(kind, mask, flags, sid)
}

/// The entry whose mask, flags and SID stand in a text.
fn ace_behind_kind(kind: &str, text: &str) -> Option<Ace>
    ensures { result ≡ ace_behind_kind kind.now (parted 32 text.now) }
{
    let (mask, rest) = parted(text, ' ')?;
    ace_behind_mask(kind, mask, rest)
}

/// The entry that a text spells: `allow MASK FLAGS SID` or `deny MASK FLAGS SID`.
#[tactic(auto, unfolding(crate::specs::Values::ace_of_text))]
pub fn ace_of_text(text: &str) -> Option<Ace>
    ensures { result ≡ ace_of_text text.now }
{
    let (kind, rest) = parted(text, ' ')?;
    ace_behind_kind(kind, rest)
}
