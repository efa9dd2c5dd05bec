// Arrays and lists of embedded shapes.
ghost use Rattle.std.specs.Prelude.{◌≡◌, ℕ, All, OnOk, length, map};
ghost use Rattle.ndr_core.specs.Cursor.{Reads};
ghost use Rattle.ndr_core.specs.Parts.{array, each, list, list_head, list_of, times, whole};
ghost use Rattle.acct_layouts.specs.Values.{IsListed};
ghost use Rattle.ndr_types.specs.Outcomes.{ReadsIfRoom};

use crate::{Embedded, NoMemory};
use acct_base::Seq;
use ndr_core::{In, NdrError, Out};
use std::alloc::Global;

/// So many heads, one after the other. Room is taken for what was read, never by the count.
pub fn read_heads<X: Embedded>(
    alloc: Global,
    from: &mut In<'_>,
    count: u32,
) -> Result<Seq<X::Head>, NdrError>
    ensures { ReadsIfRoom result from.new ((times count X.part.head).read from.old) }
{
    let mut heads = Seq::new(alloc);
    for _ in 0..count {
        let head = X::read_head(from)?;
        heads.push(head)?;
    }
    Ok(heads)
}

/// The tails of these heads, in the heads' order.
pub fn read_tails<X: Embedded>(
    alloc: Global,
    from: &mut In<'_>,
    heads: &[X::Head],
) -> Result<Seq<X>, NdrError>
    ensures { ReadsIfRoom result from.new ((each X.part.tail heads.now).read from.old) }
{
    let mut values = Seq::new(alloc);
    for head in heads {
        let value = X::read_tail(alloc, from, head)?;
        values.push(value)?;
    }
    Ok(values)
}

/// The heads of these values, one after the other.
pub fn write_heads<X: Embedded>(to: &mut Out, values: &[X]) -> Result<(), NoMemory>
    requires { All X.Bounded values.now }
    ensures { OnOk result
        (to.new ≡ (times (length values.now) X.part.head).write (map X.part.head_of values.now) to.old) }
{
    for value in values {
        value.write_head(to)?;
    }
    Ok(())
}

/// The tails of these values, in their order.
pub fn write_tails<X: Embedded>(to: &mut Out, values: &[X]) -> Result<(), NoMemory>
    requires { All X.Bounded values.now }
    ensures { OnOk result (to.new ≡ (each X.part.tail (map X.part.head_of values.now)).write values.now to.old) }
{
    for value in values {
        value.write_tail(to)?;
    }
    Ok(())
}

/// An array of so many, with its heads before its tails.
pub fn read_array<X: Embedded>(
    alloc: Global,
    from: &mut In<'_>,
    count: u32,
) -> Result<Seq<X>, NdrError>
    ensures { ReadsIfRoom result from.new ((whole (array count X.part)).read from.old) }
{
    let heads = read_heads::<X>(alloc, from, count)?;
    read_tails(alloc, from, heads.as_slice())
}

/// A count, of at most so many, and whether the array is there.
pub fn read_count(from: &mut In<'_>, most: u32) -> Result<(u32, bool), NdrError>
    ensures { Reads result from.new ((list_head most).read from.old) }
{
    let count = from.u32()?;
    if count > most {
        return Err(from.broken(4));
    }
    let there = from.pointer()?;
    if !there && count != 0 {
        return Err(from.broken(4));
    }
    Ok((count, there))
}

/// The count of a list, of at most so many, and whether its array is there.
#[tactic(auto, unfolding(ndr_core::specs::Parts::list))]
pub fn read_list_head<X: Embedded>(from: &mut In<'_>, most: u32) -> Result<(u32, bool), NdrError>
    ensures { Reads result from.new ((list most X.part).head.read from.old) }
{
    read_count(from, most)
}

/// The array of a list, with its heads before its tails.
#[tactic(auto, unfolding(ndr_core::specs::Parts::list))]
pub fn read_list_tail<X: Embedded>(
    alloc: Global,
    from: &mut In<'_>,
    head: &(u32, bool),
) -> Result<Seq<X>, NdrError>
    ensures { (most : ℕ) → ReadsIfRoom result from.new (((list most X.part).tail head.now).read from.old) }
{
    if !head.1 {
        return Ok(Seq::new(alloc));
    }
    if from.conformant()? != head.0 {
        return Err(from.broken(4));
    }
    read_array(alloc, from, head.0)
}

/// A list of at most so many values.
#[tactic(auto, unfolding(ndr_core::specs::Parts::list_of))]
pub fn read_list<X: Embedded>(
    alloc: Global,
    from: &mut In<'_>,
    most: u32,
) -> Result<Seq<X>, NdrError>
    ensures { ReadsIfRoom result from.new ((list_of most X.part).read from.old) }
{
    let head = read_list_head::<X>(from, most)?;
    read_list_tail(alloc, from, &head)
}

/// The count of a list, and a pointer to its array, which is null where the list is empty.
#[tactic(auto, unfolding(ndr_core::specs::Parts::list))]
pub fn write_list_head<X: Embedded>(to: &mut Out, values: &[X]) -> Result<(), NoMemory>
    requires { IsListed X.Bounded values.now }
    ensures { OnOk result ((most : ℕ)
        → to.new ≡ (list most X.part).head.write ((list most X.part).head_of values.now) to.old) }
{
    to.u32(values.len() as u32)?;
    to.pointer(!values.is_empty())
}

/// The array of a list.
#[tactic(auto, unfolding(ndr_core::specs::Parts::list))]
pub fn write_list_tail<X: Embedded>(to: &mut Out, values: &[X]) -> Result<(), NoMemory>
    requires { IsListed X.Bounded values.now }
    ensures { OnOk result ((most : ℕ)
        → to.new ≡ ((list most X.part).tail ((list most X.part).head_of values.now)).write values.now to.old) }
{
    if values.is_empty() {
        return Ok(());
    }
    to.conformant(values.len() as u32)?;
    write_heads(to, values)?;
    write_tails(to, values)
}

/// A list.
#[tactic(auto, unfolding(ndr_core::specs::Parts::list_of))]
pub fn write_list<X: Embedded>(to: &mut Out, values: &[X]) -> Result<(), NoMemory>
    requires { IsListed X.Bounded values.now }
    ensures { OnOk result ((most : ℕ) → to.new ≡ (list_of most X.part).write values.now to.old) }
{
    write_list_head(to, values)?;
    write_list_tail(to, values)
}
