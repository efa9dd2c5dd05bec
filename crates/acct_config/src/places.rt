// Where bytes break a rule of a configuration.
ghost use Rattle.std.specs.Prelude.{◌≡◌, None, IfOk, IsSome};
ghost use Rattle.toml.specs.View.{view};
ghost use Rattle.acct_config.specs.Document.{document, whole};
ghost use Rattle.acct_config.specs.Faults.{fault_of};
ghost use Rattle.acct_config.specs.Places.{key_place, line_ends, IsLineOf};

use crate::faults::fault_of;
use crate::{Section, Text};
use std::alloc::{AllocError, Global};
use toml::Value;

/// Where a configuration breaks a rule.
#[derive(Debug, Drop)]
pub enum Place {
    /// The line of a text that is no document, by how many lines stand before it: reading it as TOML ended there.
    Line(usize),
    /// A key of a table: it is unknown there, is missing, or has a value that breaks the rule.
    Key(Section, Text),
}

fn key_place(alloc: Global, document: &Value, rule: u32) -> Result<Option<Place>, AllocError>
    ensures { IfOk result (λ place. place ≡ key_place (fault_of rule (view document.now))) }
{
    match fault_of(document, rule) {
        Some((section, key)) => Ok(Some(Place::Key(section, Text::copy_of(alloc, key)?))),
        None => Ok(None),
    }
}

/// How many lines end in a text.
fn line_ends(text: &[u8]) -> usize
    ensures { result ≡ line_ends text.now }
{
    let mut count: usize = 0;
    for byte in text {
        if *byte == b'\n' {
            count += 1;
        }
    }
    count
}

/// Where bytes break the rule of a number, which is the first one that they break. Of a document it is the first key,
/// table after table, that breaks the rule. Of what is no document it is the line at which the reader of TOML stopped:
/// what is wrong may stand before it, as in a text whose closing quotes are missing.
pub fn place_of(alloc: Global, bytes: &[u8], rule: u32) -> Result<Option<Place>, AllocError>
    ensures of_document { IfOk result (λ place. IsSome (document bytes.now)
        → place ≡ key_place (fault_of rule (whole bytes.now))) }
    ensures of_text { IfOk result (λ place. document bytes.now ≡ None → IsLineOf bytes.now place) }
{
    match toml::table_from_slice(alloc, bytes) {
        Ok(table) => key_place(alloc, &Value::Table(table), rule),
        Err(error) => match error.span() {
            Some(span) => Ok(Some(Place::Line(line_ends(&bytes[..span.start])))),
            None => Err(AllocError),
        },
    }
}
