// Pointers to a text and to a set of privileges.
ghost use Rattle.std.specs.Prelude.{◌≡◌, ◌≤◌, OnOk, length};
ghost use Rattle.std.specs.Option.{option_copied};
ghost use Rattle.acct_layouts.specs.Values.{IfThere};
ghost use Rattle.ndr_types.specs.Bounds.{IsShort};
ghost use Rattle.ndr_types.specs.Outcomes.{ReadsIfRoom};
ghost use Rattle.ndr_types.specs.Values.{IsFew, privilege_set_pointer, text_pointer};

use crate::NoMemory;
use crate::privileges::{read_privilege_set, write_privilege_set};
use crate::text::{read_text, write_text};
use acct_calls::{Name, PrivilegeSet};
use ndr_core::{In, NdrError, Out};
use std::alloc::Global;

/// A text, or none where the pointer is null.
#[tactic(auto, unfolding(crate::specs::Values::text_pointer))]
pub fn read_text_pointer(alloc: Global, from: &mut In<'_>) -> Result<Option<Name>, NdrError>
    ensures { ReadsIfRoom result from.new (text_pointer.read from.old) }
{
    if !from.pointer()? {
        return Ok(None);
    }
    let name = read_text(alloc, from)?;
    Ok(Some(name))
}

/// A text, or a null pointer.
#[tactic(auto, unfolding(crate::specs::Values::text_pointer))]
pub fn write_text_pointer(to: &mut Out, value: Option<&Name>) -> Result<(), NoMemory>
    requires { IfThere IsShort (option_copied value) }
    ensures { OnOk result (to.new ≡ text_pointer.write (option_copied value.entry) to.old) }
{
    let Some(name) = value else {
        return to.pointer(false);
    };
    to.pointer(true)?;
    write_text(to, name)
}

/// A set of privileges, or none where the pointer is null.
#[tactic(auto, unfolding(crate::specs::Values::privilege_set_pointer))]
pub fn read_privilege_set_pointer(
    alloc: Global,
    from: &mut In<'_>,
) -> Result<Option<PrivilegeSet>, NdrError>
    ensures { ReadsIfRoom result from.new (privilege_set_pointer.read from.old) }
{
    if !from.pointer()? {
        return Ok(None);
    }
    let privileges = read_privilege_set(alloc, from)?;
    Ok(Some(privileges))
}

/// A set of privileges, or a null pointer.
#[tactic(auto, unfolding(crate::specs::Values::privilege_set_pointer))]
pub fn write_privilege_set_pointer(
    to: &mut Out,
    value: Option<&PrivilegeSet>,
) -> Result<(), NoMemory>
    requires { IfThere IsFew (option_copied value) }
    ensures { OnOk result (to.new ≡ privilege_set_pointer.write (option_copied value.entry) to.old) }
{
    let Some(privileges) = value else {
        return to.pointer(false);
    };
    to.pointer(true)?;
    write_privilege_set(to, privileges)
}
