// Lists of embedded shapes after each of which flags stand.
ghost use Rattle.std.specs.Prelude.{◌≡◌, ℕ, All, OnOk, length, map};
ghost use Rattle.ndr_core.specs.Cursor.{Reads};
ghost use Rattle.ndr_core.specs.Parts.{list, list_of, times};
ghost use Rattle.acct_layouts.specs.Values.{IsListed};
ghost use Rattle.ndr_types.specs.Outcomes.{ReadsIfRoom};
ghost use Rattle.ndr_types.specs.Translations.{flagged};

use crate::array::{read_list_head, read_tails, write_tails};
use crate::{Embedded, NoMemory};
use acct_base::Seq;
use ndr_core::{In, NdrError, Out};
use std::alloc::Global;

/// A head, and flags, which aren't looked at.
fn read_head<X: Embedded>(from: &mut In<'_>) -> Result<X::Head, NdrError>
    ensures { Reads result from.new ((flagged X.part).head.read from.old) }
{
    let head = X::read_head(from)?;
    from.u32()?;
    Ok(head)
}

/// The head of a value, and flags of 0.
fn write_head<X: Embedded>(to: &mut Out, value: &X) -> Result<(), NoMemory>
    requires { X.Bounded value.now }
    ensures { OnOk result (to.new ≡ (flagged X.part).head.write (X.part.head_of value.now) to.old) }
{
    value.write_head(to)?;
    to.u32(0)
}

/// So many heads, one after the other. Room is taken for what was read, never by the count.
fn read_heads<X: Embedded>(
    alloc: Global,
    from: &mut In<'_>,
    count: u32,
) -> Result<Seq<X::Head>, NdrError>
    ensures { ReadsIfRoom result from.new ((times count (flagged X.part).head).read from.old) }
{
    let mut heads = Seq::new(alloc);
    for _ in 0..count {
        let head = read_head::<X>(from)?;
        heads.push(head)?;
    }
    Ok(heads)
}

/// The heads of these values, one after the other.
fn write_heads<X: Embedded>(to: &mut Out, values: &[X]) -> Result<(), NoMemory>
    requires { All X.Bounded values.now }
    ensures { OnOk result
        (to.new ≡ (times (length values.now) (flagged X.part).head).write (map X.part.head_of values.now) to.old) }
{
    for value in values {
        write_head(to, value)?;
    }
    Ok(())
}

/// The array of a list, with its heads before its tails.
#[tactic(auto, unfolding(ndr_core::specs::Parts::list))]
fn read_array<X: Embedded>(
    alloc: Global,
    from: &mut In<'_>,
    head: &(u32, bool),
) -> Result<Seq<X>, NdrError>
    ensures { (most : ℕ) → ReadsIfRoom result from.new (((list most (flagged X.part)).tail head.now).read from.old) }
{
    if !head.1 {
        return Ok(Seq::new(alloc));
    }
    if from.conformant()? != head.0 {
        return Err(from.broken(4));
    }
    let heads = read_heads::<X>(alloc, from, head.0)?;
    read_tails(alloc, from, heads.as_slice())
}

/// The count of a list, of at most so many, and whether its array is there.
#[tactic(auto, unfolding(ndr_core::specs::Parts::list))]
fn read_count<X: Embedded>(from: &mut In<'_>, most: u32) -> Result<(u32, bool), NdrError>
    ensures { Reads result from.new ((list most (flagged X.part)).head.read from.old) }
{
    read_list_head::<X>(from, most)
}

/// A list of at most so many values.
#[tactic(auto, unfolding(ndr_core::specs::Parts::list_of))]
pub fn read_flagged_list<X: Embedded>(
    alloc: Global,
    from: &mut In<'_>,
    most: u32,
) -> Result<Seq<X>, NdrError>
    ensures { ReadsIfRoom result from.new ((list_of most (flagged X.part)).read from.old) }
{
    let head = read_count::<X>(from, most)?;
    read_array(alloc, from, &head)
}

/// The count of a list, and a pointer to its array, which is null where the list is empty.
#[tactic(auto, unfolding(ndr_core::specs::Parts::list))]
fn write_count<X: Embedded>(to: &mut Out, values: &[X]) -> Result<(), NoMemory>
    requires { IsListed X.Bounded values.now }
    ensures { OnOk result ((most : ℕ) → to.new
        ≡ (list most (flagged X.part)).head.write ((list most (flagged X.part)).head_of values.now) to.old) }
{
    to.u32(values.len() as u32)?;
    to.pointer(!values.is_empty())
}

/// The array of a list.
#[tactic(auto, unfolding(ndr_core::specs::Parts::list))]
fn write_array<X: Embedded>(to: &mut Out, values: &[X]) -> Result<(), NoMemory>
    requires { IsListed X.Bounded values.now }
    ensures { OnOk result ((most : ℕ) → to.new
        ≡ ((list most (flagged X.part)).tail
        ((list most (flagged X.part)).head_of values.now)).write values.now to.old) }
{
    if values.is_empty() {
        return Ok(());
    }
    to.conformant(values.len() as u32)?;
    write_heads(to, values)?;
    write_tails(to, values)
}

/// A list.
#[tactic(auto, unfolding(ndr_core::specs::Parts::list_of))]
pub fn write_flagged_list<X: Embedded>(to: &mut Out, values: &[X]) -> Result<(), NoMemory>
    requires { IsListed X.Bounded values.now }
    ensures { OnOk result ((most : ℕ) → to.new ≡ (list_of most (flagged X.part)).write values.now to.old) }
{
    write_count(to, values)?;
    write_array(to, values)
}
