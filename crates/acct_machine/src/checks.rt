// The check of a call's handle.
ghost use Rattle.std.specs.Prelude.{◌≡◌};
ghost use Rattle.std.specs.Option.{option_copied};
ghost use Rattle.acct_machine.specs.Access.{object_of, has_bits, access_by, access_with};

use crate::{Held, Object};
use acct_rules::{Brings, Kinds};

/// What the check of a call's handle answers.
#[derive(Clone, Copy, Debug, PartialEq, Eq)]
pub enum Access {
    Passed,
    /// The connection has no such handle.
    Unknown,
    /// The handle stands for an object of another kind than the operation takes.
    WrongKind,
    /// The grant of the handle lacks a bit that the operation needs.
    Denied,
}

/// The object of the handle that was found.
pub fn object_of(found: Option<&Held>) -> Object
    ensures { result ≡ object_of (option_copied found.entry) }
{
    match found {
        Some(held) => held.object,
        None => Object::Server,
    }
}

/// Whether a mask has each of the bits.
fn has_bits(mask: u32, bits: u32) -> bool
    ensures { result ≡ has_bits mask bits }
{
    mask & bits == bits
}

fn access_by(kinds: Kinds, bits: u32, found: Option<&Held>) -> Access
    ensures { result ≡ access_by kinds bits (option_copied found.entry) }
{
    let Some(held) = found else {
        return Access::Unknown;
    };
    if !kinds.takes(held.object.kind()) {
        return Access::WrongKind;
    }
    if has_bits(held.granted, bits) {
        Access::Passed
    } else {
        Access::Denied
    }
}

/// The check of the handle that was found, by what the operation brings and the bits that it needs.
pub fn access_with(brings: Brings, bits: u32, found: Option<&Held>) -> Access
    ensures { result ≡ access_with brings bits (option_copied found.entry) }
{
    match brings {
        Brings::Nothing => Access::Passed,
        Brings::Handle(kinds) => access_by(kinds, bits, found),
    }
}
