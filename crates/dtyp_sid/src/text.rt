// Writing the text of a SID.
ghost use Rattle.std.specs.Prelude.{◌≡◌, ◌++◌, ◌<◌, ◌^◌, IfOk, OnOk};
ghost use Rattle.std.specs.String.{string_bytes};
ghost use Rattle.dtyp_sid.specs.Text.{text_of, authority_text, hexadecimal};

use crate::Sid;
use std::alloc::{AllocError, Global};

impl Sid {
    /// The text of the SID: the authority in decimal below 2^32, else in lower-case hexadecimal.
    #[tactic(auto, unfolding(crate::specs::Text::text_of, crate::specs::Text::subs_text))]
    pub fn text(&self, alloc: Global) -> Result<String, AllocError>
        ensures { IfOk result (λ text. string_bytes text ≡ text_of self.now) }
    {
        let mut text = String::new(alloc);
        text.push_str("S-1-")?;
        push_authority(&mut text, self.authority())?;
        for sub in self.subs() {
            write!(text, "-{sub}")?;
        }
        Ok(text)
    }
}

#[tactic(auto, unfolding(crate::specs::Text::authority_text))]
fn push_authority(text: &mut String, authority: u64) -> Result<(), AllocError>
    ensures { OnOk result (string_bytes text.new ≡ string_bytes text.old ++ authority_text authority) }
{
    if authority < 1 << 32 {
        write!(text, "{authority}")?;
    } else {
        text.push_str("0x")?;
        push_hexadecimal(text, 12, authority)?;
    }
    Ok(())
}

/// Adds the lowest digits of a number, so many, in lower-case hexadecimal, with zeros where the number has fewer.
#[tactic(auto, unfolding(crate::specs::Text::hexadecimal))]
pub fn push_hexadecimal(text: &mut String, count: usize, number: u64) -> Result<(), AllocError>
    ensures { OnOk result (string_bytes text.new ≡ string_bytes text.old ++ hexadecimal count number) }
{
    if count > 0 {
        push_hexadecimal(text, count - 1, number / 16)?;
        let digit = (number % 16) as u8;
        let glyph = if digit < 10 {
            b'0' + digit
        } else {
            b'a' + (digit - 10)
        };
        text.push(char::from(glyph))?;
    }
    Ok(())
}
