// The names of privileges, with their LUIDs.
ghost use Rattle.std.specs.Prelude.{◌≡◌, All, OnOk, length, map};
ghost use Rattle.ndr_core.specs.Cursor.{Reads};
ghost use Rattle.ndr_core.specs.Parts.{each, list, times};
ghost use Rattle.ndr_types.specs.Listed.{any, privilege_name, privilege_names};
ghost use Rattle.acct_layouts.specs.Values.{IsListed};
ghost use Rattle.ndr_types.specs.Bounds.{HasShortName};
ghost use Rattle.ndr_types.specs.Outcomes.{ReadsIfRoom};

use crate::array::read_list_head;
use crate::{Embedded, NoMemory};
use acct_base::Seq;
use acct_calls::{Name, RidName, RidNames};
use ndr_core::{In, NdrError, Out};
use std::alloc::Global;

/// A LUID's high part is 0.
#[tactic(auto, unfolding(crate::specs::Listed::privilege_name, crate::specs::Listed::low_part))]
fn read_head(from: &mut In<'_>) -> Result<((u16, bool), u32), NdrError>
    ensures { Reads result from.new (privilege_name.head.read from.old) }
{
    let name = Name::read_head(from)?;
    let low = from.u32()?;
    if from.u32()? != 0 {
        return Err(from.broken(4));
    }
    Ok((name, low))
}

#[tactic(auto, unfolding(crate::specs::Listed::privilege_name))]
fn read_tail(
    alloc: Global,
    from: &mut In<'_>,
    head: &((u16, bool), u32),
) -> Result<RidName, NdrError>
    ensures { ReadsIfRoom result from.new ((privilege_name.tail head.now).read from.old) }
{
    let name = Name::read_tail(alloc, from, &head.0)?;
    Ok(RidName { rid: head.1, name })
}

#[tactic(auto, unfolding(crate::specs::Listed::privilege_name, crate::specs::Listed::low_part))]
fn write_head(to: &mut Out, entry: &RidName) -> Result<(), NoMemory>
    requires { HasShortName entry.now }
    ensures { OnOk result (to.new ≡ privilege_name.head.write (privilege_name.head_of entry.now) to.old) }
{
    entry.name.write_head(to)?;
    to.u32(entry.rid)?;
    to.u32(0)
}

#[tactic(auto, unfolding(crate::specs::Listed::privilege_name))]
fn write_tail(to: &mut Out, entry: &RidName) -> Result<(), NoMemory>
    requires { HasShortName entry.now }
    ensures { OnOk result (to.new ≡ (privilege_name.tail (privilege_name.head_of entry.now)).write entry.now to.old) }
{
    entry.name.write_tail(to)
}

/// So many heads, one after the other. Room is taken for what was read, never by the count.
fn read_heads(
    alloc: Global,
    from: &mut In<'_>,
    count: u32,
) -> Result<Seq<((u16, bool), u32)>, NdrError>
    ensures { ReadsIfRoom result from.new ((times count privilege_name.head).read from.old) }
{
    let mut heads = Seq::new(alloc);
    for _ in 0..count {
        let head = read_head(from)?;
        heads.push(head)?;
    }
    Ok(heads)
}

/// The tails of these heads, in the heads' order.
fn read_tails(
    alloc: Global,
    from: &mut In<'_>,
    heads: &[((u16, bool), u32)],
) -> Result<RidNames, NdrError>
    ensures { ReadsIfRoom result from.new ((each privilege_name.tail heads.now).read from.old) }
{
    let mut values = Seq::new(alloc);
    for head in heads {
        let value = read_tail(alloc, from, head)?;
        values.push(value)?;
    }
    Ok(values)
}

/// The heads of these names, one after the other.
fn write_heads(to: &mut Out, values: &[RidName]) -> Result<(), NoMemory>
    requires { All HasShortName values.now }
    ensures { OnOk result (to.new
        ≡ (times (length values.now) privilege_name.head).write (map privilege_name.head_of values.now) to.old) }
{
    for value in values {
        write_head(to, value)?;
    }
    Ok(())
}

/// The tails of these names, in their order.
fn write_tails(to: &mut Out, values: &[RidName]) -> Result<(), NoMemory>
    requires { All HasShortName values.now }
    ensures { OnOk result (to.new
        ≡ (each privilege_name.tail (map privilege_name.head_of values.now)).write values.now to.old) }
{
    for value in values {
        write_tail(to, value)?;
    }
    Ok(())
}

#[tactic(auto, unfolding(ndr_core::specs::Parts::list))]
fn read_names_head(from: &mut In<'_>) -> Result<(u32, bool), NdrError>
    ensures { Reads result from.new ((list any privilege_name).head.read from.old) }
{
    read_list_head::<u32>(from, u32::MAX)
}

#[tactic(auto, unfolding(ndr_core::specs::Parts::list))]
fn read_names_tail(
    alloc: Global,
    from: &mut In<'_>,
    head: &(u32, bool),
) -> Result<RidNames, NdrError>
    ensures { ReadsIfRoom result from.new (((list any privilege_name).tail head.now).read from.old) }
{
    if !head.1 {
        return Ok(Seq::new(alloc));
    }
    if from.conformant()? != head.0 {
        return Err(from.broken(4));
    }
    let heads = read_heads(alloc, from, head.0)?;
    read_tails(alloc, from, heads.as_slice())
}

/// A list of privileges by their names, with the low parts of their LUIDs, whose high parts are 0.
#[tactic(auto, unfolding(crate::specs::Listed::privilege_names, ndr_core::specs::Parts::list_of))]
pub fn read_privilege_names(alloc: Global, from: &mut In<'_>) -> Result<RidNames, NdrError>
    ensures { ReadsIfRoom result from.new (privilege_names.read from.old) }
{
    let head = read_names_head(from)?;
    read_names_tail(alloc, from, &head)
}

#[tactic(auto, unfolding(ndr_core::specs::Parts::list))]
fn write_names_head(to: &mut Out, values: &[RidName]) -> Result<(), NoMemory>
    requires { IsListed HasShortName values.now }
    ensures { OnOk result (to.new
        ≡ (list any privilege_name).head.write ((list any privilege_name).head_of values.now) to.old) }
{
    to.u32(values.len() as u32)?;
    to.pointer(!values.is_empty())
}

#[tactic(auto, unfolding(ndr_core::specs::Parts::list))]
fn write_names_tail(to: &mut Out, values: &[RidName]) -> Result<(), NoMemory>
    requires { IsListed HasShortName values.now }
    ensures { OnOk result (to.new
        ≡ ((list any privilege_name).tail ((list any privilege_name).head_of values.now)).write values.now to.old) }
{
    if values.is_empty() {
        return Ok(());
    }
    to.conformant(values.len() as u32)?;
    write_heads(to, values)?;
    write_tails(to, values)
}

/// A list of privileges by their names, with the low parts of their LUIDs.
#[tactic(auto, unfolding(crate::specs::Listed::privilege_names, ndr_core::specs::Parts::list_of))]
pub fn write_privilege_names(to: &mut Out, value: &RidNames) -> Result<(), NoMemory>
    requires { IsListed HasShortName value.now }
    ensures { OnOk result (to.new ≡ privilege_names.write value.now to.old) }
{
    write_names_head(to, value.as_slice())?;
    write_names_tail(to, value.as_slice())
}
