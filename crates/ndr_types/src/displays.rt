// Accounts as they are displayed.
ghost use Rattle.std.specs.Prelude.{◌≡◌, All, OnOk, length, map};
ghost use Rattle.ndr_core.specs.Cursor.{Reads};
ghost use Rattle.ndr_core.specs.Parts.{each, list, times};
ghost use Rattle.acct_layouts.specs.Values.{IsListed};
ghost use Rattle.ndr_types.specs.Listed.{any, display_row, display_rows, full_name_of};
ghost use Rattle.ndr_types.specs.Bounds.{HasShortTexts, IsShort};
ghost use Rattle.ndr_types.specs.Outcomes.{ReadsIfRoom};

use crate::array::read_list_head;
use crate::{Embedded, NoMemory};
use acct_base::Seq;
use acct_calls::{DisplayRow, DisplayRows, Name};
use acct_layouts::DisplayArm;
use ndr_core::{In, NdrError, Out};
use std::alloc::Global;

/// The head of a text: its length in bytes, and whether it is there.
type TextHead = (u16, bool);

/// The head of an account: three numbers, and the heads of its texts.
type RowHead = (u32, (u32, (u32, (TextHead, (TextHead, TextHead)))));

/// The head of a user's full name. A group has none.
fn read_full_name_head(from: &mut In<'_>, arm: DisplayArm) -> Result<TextHead, NdrError>
    ensures { Reads result from.new ((full_name_of arm).head.read from.old) }
{
    match arm {
        DisplayArm::User => Name::read_head(from),
        DisplayArm::Group => Ok((0, false)),
    }
}

fn read_full_name(
    alloc: Global,
    from: &mut In<'_>,
    arm: DisplayArm,
    head: &TextHead,
) -> Result<Name, NdrError>
    ensures { ReadsIfRoom result from.new (((full_name_of arm).tail head.now).read from.old) }
{
    match arm {
        DisplayArm::User => Name::read_tail(alloc, from, head),
        DisplayArm::Group => Ok(Name::from_units(Vec::new(alloc))),
    }
}

fn write_full_name_head(to: &mut Out, arm: DisplayArm, name: &Name) -> Result<(), NoMemory>
    requires { IsShort name.now }
    ensures { OnOk result (to.new ≡ (full_name_of arm).head.write ((full_name_of arm).head_of name.now) to.old) }
{
    match arm {
        DisplayArm::User => name.write_head(to),
        DisplayArm::Group => Ok(()),
    }
}

fn write_full_name(to: &mut Out, arm: DisplayArm, name: &Name) -> Result<(), NoMemory>
    requires { IsShort name.now }
    ensures { OnOk result (to.new
        ≡ ((full_name_of arm).tail ((full_name_of arm).head_of name.now)).write name.now to.old) }
{
    match arm {
        DisplayArm::User => name.write_tail(to),
        DisplayArm::Group => Ok(()),
    }
}

#[tactic(auto, unfolding(crate::specs::Listed::display_row))]
fn read_head(from: &mut In<'_>, arm: DisplayArm) -> Result<RowHead, NdrError>
    ensures { Reads result from.new ((display_row arm).head.read from.old) }
{
    let index = from.u32()?;
    let rid = from.u32()?;
    let bits = from.u32()?;
    let name = Name::read_head(from)?;
    let comment = Name::read_head(from)?;
    let full_name = read_full_name_head(from, arm)?;
    Ok((index, (rid, (bits, (name, (comment, full_name))))))
}

#[tactic(auto, unfolding(crate::specs::Listed::display_row))]
fn read_tail(
    alloc: Global,
    from: &mut In<'_>,
    arm: DisplayArm,
    head: &RowHead,
) -> Result<DisplayRow, NdrError>
    ensures { ReadsIfRoom result from.new (((display_row arm).tail head.now).read from.old) }
{
    let (index, (rid, (bits, (name, (comment, full_name))))) = *head;
    let name = Name::read_tail(alloc, from, &name)?;
    let comment = Name::read_tail(alloc, from, &comment)?;
    let full_name = read_full_name(alloc, from, arm, &full_name)?;
    Ok(DisplayRow {
        index,
        rid,
        bits,
        name,
        comment,
        full_name,
    })
}

#[tactic(auto, unfolding(crate::specs::Listed::display_row))]
fn write_head(to: &mut Out, arm: DisplayArm, row: &DisplayRow) -> Result<(), NoMemory>
    requires { HasShortTexts row.now }
    ensures { OnOk result (to.new ≡ (display_row arm).head.write ((display_row arm).head_of row.now) to.old) }
{
    to.u32(row.index)?;
    to.u32(row.rid)?;
    to.u32(row.bits)?;
    row.name.write_head(to)?;
    row.comment.write_head(to)?;
    write_full_name_head(to, arm, &row.full_name)
}

#[tactic(auto, unfolding(crate::specs::Listed::display_row))]
fn write_tail(to: &mut Out, arm: DisplayArm, row: &DisplayRow) -> Result<(), NoMemory>
    requires { HasShortTexts row.now }
    ensures { OnOk result (to.new ≡ ((display_row arm).tail ((display_row arm).head_of row.now)).write row.now to.old) }
{
    row.name.write_tail(to)?;
    row.comment.write_tail(to)?;
    write_full_name(to, arm, &row.full_name)
}

/// So many heads, one after the other. Room is taken for what was read, never by the count.
fn read_heads(
    alloc: Global,
    from: &mut In<'_>,
    arm: DisplayArm,
    count: u32,
) -> Result<Seq<RowHead>, NdrError>
    ensures { ReadsIfRoom result from.new ((times count (display_row arm).head).read from.old) }
{
    let mut heads = Seq::new(alloc);
    for _ in 0..count {
        let head = read_head(from, arm)?;
        heads.push(head)?;
    }
    Ok(heads)
}

/// The tails of these heads, in the heads' order.
fn read_tails(
    alloc: Global,
    from: &mut In<'_>,
    arm: DisplayArm,
    heads: &[RowHead],
) -> Result<DisplayRows, NdrError>
    ensures { ReadsIfRoom result from.new ((each (display_row arm).tail heads.now).read from.old) }
{
    let mut values = Seq::new(alloc);
    for head in heads {
        let value = read_tail(alloc, from, arm, head)?;
        values.push(value)?;
    }
    Ok(values)
}

/// The heads of these accounts, one after the other.
fn write_heads(to: &mut Out, arm: DisplayArm, values: &[DisplayRow]) -> Result<(), NoMemory>
    requires { All HasShortTexts values.now }
    ensures { OnOk result (to.new
        ≡ (times (length values.now) (display_row arm).head).write (map (display_row arm).head_of values.now) to.old) }
{
    for value in values {
        write_head(to, arm, value)?;
    }
    Ok(())
}

/// The tails of these accounts, in their order.
fn write_tails(to: &mut Out, arm: DisplayArm, values: &[DisplayRow]) -> Result<(), NoMemory>
    requires { All HasShortTexts values.now }
    ensures { OnOk result (to.new
        ≡ (each (display_row arm).tail (map (display_row arm).head_of values.now)).write values.now to.old) }
{
    for value in values {
        write_tail(to, arm, value)?;
    }
    Ok(())
}

#[tactic(auto, unfolding(ndr_core::specs::Parts::list))]
fn read_rows_tail(
    alloc: Global,
    from: &mut In<'_>,
    arm: DisplayArm,
    head: &(u32, bool),
) -> Result<DisplayRows, NdrError>
    ensures { ReadsIfRoom result from.new (((list any (display_row arm)).tail head.now).read from.old) }
{
    if !head.1 {
        return Ok(Seq::new(alloc));
    }
    if from.conformant()? != head.0 {
        return Err(from.broken(4));
    }
    let heads = read_heads(alloc, from, arm, head.0)?;
    read_tails(alloc, from, arm, heads.as_slice())
}

/// A list of users or of groups as they are displayed. A group has no full name.
#[tactic(auto, unfolding(crate::specs::Listed::display_rows, ndr_core::specs::Parts::list_of, ndr_core::specs::Parts::list))]
pub fn read_display_rows(
    alloc: Global,
    from: &mut In<'_>,
    arm: DisplayArm,
) -> Result<DisplayRows, NdrError>
    ensures { ReadsIfRoom result from.new ((display_rows arm).read from.old) }
{
    let head = read_list_head::<u32>(from, u32::MAX)?;
    read_rows_tail(alloc, from, arm, &head)
}

#[tactic(auto, unfolding(ndr_core::specs::Parts::list))]
fn write_rows_tail(to: &mut Out, arm: DisplayArm, values: &[DisplayRow]) -> Result<(), NoMemory>
    requires { IsListed HasShortTexts values.now }
    ensures { OnOk result (to.new
        ≡ ((list any (display_row arm)).tail
        ((list any (display_row arm)).head_of values.now)).write values.now to.old) }
{
    if values.is_empty() {
        return Ok(());
    }
    to.conformant(values.len() as u32)?;
    write_heads(to, arm, values)?;
    write_tails(to, arm, values)
}

/// A list of users or of groups as they are displayed. Of a group no full name is written.
#[tactic(auto, unfolding(crate::specs::Listed::display_rows, ndr_core::specs::Parts::list_of, ndr_core::specs::Parts::list))]
pub fn write_display_rows(
    to: &mut Out,
    arm: DisplayArm,
    value: &DisplayRows,
) -> Result<(), NoMemory>
    requires { IsListed HasShortTexts value.now }
    ensures { OnOk result (to.new ≡ (display_rows arm).write value.now to.old) }
{
    let values = value.as_slice();
    to.u32(values.len() as u32)?;
    to.pointer(!values.is_empty())?;
    write_rows_tail(to, arm, values)
}
