// Text that the client prints.
ghost use Rattle.std.specs.Prelude.{◌≡◌, ◌++◌, ◌≤◌, [], OnOk, OnErr, IfOk};
ghost use Rattle.std.specs.Fmt.{decimal, signed_decimal};
ghost use Rattle.std.specs.String.{string_bytes};
ghost use Rattle.dtyp_sid.specs.Text.{hexadecimal};
ghost use Rattle.client_commands.specs.Outcomes.{name_text, glyph};

use crate::NoMemory;
use acct_calls::{FirstPoint, first_point};
use dtyp_sid::push_hexadecimal;
use std::alloc::Global;
use std::marker::Model;

/// A text. A contract sees its bytes, in UTF-8.
#[derive(Debug, Drop)]
pub struct Text {
    text: String,
}

impl Model for Text {
    ghost use Rattle.std.specs.Prelude.{List, ℕ};
    ghost use Rattle.std.specs.String.{string_bytes};

    ghost Value = { List ℕ };

    ghost view = { λ text. string_bytes text.text };
}

impl Text {
    /// The empty text, which takes no memory.
    pub fn new(alloc: Global) -> Text
        ensures { result ≡ [] }
    {
        Text {
            text: String::new(alloc),
        }
    }

    /// The same text.
    pub fn of(alloc: Global, text: &str) -> Result<Text, NoMemory>
        ensures { IfOk result (λ same. same ≡ text.now) }
    {
        Ok(Text {
            text: String::from_str(alloc, text)?,
        })
    }

    pub fn as_str(&self) -> &str
        ensures { result.now ≡ self.now }
    {
        &self.text
    }

    /// Adds a text.
    pub fn push(&mut self, text: &str) -> Result<(), NoMemory>
        ensures ok { OnOk result (self.new ≡ self.old ++ text.now) }
        ensures err { OnErr result (self.new ≡ self.old) }
    {
        self.text.push_str(text)
    }

    /// Adds a number in decimal.
    pub fn push_number(&mut self, number: u32) -> Result<(), NoMemory>
        ensures { OnOk result (self.new ≡ self.old ++ decimal number) }
    {
        write!(self.text, "{number}")
    }

    /// Adds a number in decimal, with a sign where it is negative.
    pub fn push_signed(&mut self, number: i32) -> Result<(), NoMemory>
        ensures { OnOk result (self.new ≡ self.old ++ signed_decimal number) }
    {
        write!(self.text, "{number}")
    }

    /// Adds a name, with `?` for each surrogate that stands alone.
    pub fn push_name(&mut self, name: &[u16]) -> Result<(), NoMemory>
        ensures { OnOk result (self.new ≡ self.old ++ name_text name.now) }
    {
        push_units(&mut self.text, name)
    }

    /// Adds the lowest digits of a number, so many, in lower-case hexadecimal.
    pub fn push_hexadecimal(&mut self, count: usize, number: u32) -> Result<(), NoMemory>
        ensures { OnOk result (self.new ≡ self.old ++ hexadecimal count number) }
    {
        push_hexadecimal(&mut self.text, count, u64::from(number))
    }
}

/// The character of a code point, and `?` for a surrogate.
fn glyph(point: u32) -> char
    requires { point ≤ 0x10_FFFF }
    ensures { result ≡ glyph point }
{
    match char::from_u32(point) {
        Some(c) => c,
        None => '?',
    }
}

fn push_units(text: &mut String, units: &[u16]) -> Result<(), NoMemory>
    ensures { OnOk result (string_bytes text.new ≡ string_bytes text.old ++ name_text units.now) }
{
    let mut left = units;
    while let Some(FirstPoint { point, rest }) = first_point(left) {
        text.push(glyph(point))?;
        left = rest;
    }
    Ok(())
}
