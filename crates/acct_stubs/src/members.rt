// The members of a group.
ghost use Rattle.std.specs.Prelude.{◌≡◌, IfOk, OnOk, length, map};
ghost use Rattle.ndr_core.specs.Cursor.{Reads};
ghost use Rattle.ndr_core.specs.Parts.{times, whole};
ghost use Rattle.ndr_core.specs.Shapes.{u32};
ghost use Rattle.acct_layouts.specs.Values.{IfThere, IsListed};
ghost use Rattle.ndr_types.specs.Bounds.{AnyValue};
ghost use Rattle.ndr_types.specs.Outcomes.{ReadsIfRoom};
ghost use Rattle.acct_stubs.specs.Infos.{bits_of, members, members_buffer, members_head, numbers, paired, pointer_for};
ghost use Rattle.acct_stubs.specs.Infos.{rid_of};

use crate::NoMemory;
use acct_base::Seq;
use acct_calls::{RidBits, RidBitsList, Rids};
use ndr_core::{In, NdrError, Out};
use ndr_types::read_heads;
use std::alloc::Global;

/// So many numbers, where their pointer isn't null.
fn read_numbers(alloc: Global, from: &mut In<'_>, count: u32, there: bool) -> Result<Rids, NdrError>
    ensures { ReadsIfRoom result from.new ((numbers count there).read from.old) }
{
    if !there {
        return Ok(Seq::new(alloc));
    }
    if from.conformant()? != count {
        return Err(from.broken(4));
    }
    read_heads::<u32>(alloc, from, count)
}

/// Members of these relative identifiers and attributes.
fn pair(alloc: Global, rids: &[u32], attributes: &[u32]) -> Result<RidBitsList, NoMemory>
    ensures { IfOk result (λ list. list ≡ paired (rids.now, attributes.now)) }
{
    let mut list = Seq::new(alloc);
    for (rid, bits) in rids.iter().zip(attributes) {
        let (rid, bits) = (*rid, *bits);
        list.push(RidBits { rid, bits })?;
    }
    Ok(list)
}

/// Whether an array of so many is there, which it may not be only where there is nothing.
fn read_pointer_for(from: &mut In<'_>, count: u32) -> Result<bool, NdrError>
    ensures { Reads result from.new ((pointer_for count).read from.old) }
{
    let there = from.pointer()?;
    if !there && count != 0 {
        return Err(from.broken(4));
    }
    Ok(there)
}

/// The count of members, and whether each of the two arrays is there.
fn read_buffer_head(from: &mut In<'_>) -> Result<(u32, (bool, bool)), NdrError>
    ensures { Reads result from.new (members_head.read from.old) }
{
    let count = from.u32()?;
    let rids_there = read_pointer_for(from, count)?;
    let attributes_there = read_pointer_for(from, count)?;
    Ok((count, (rids_there, attributes_there)))
}

#[tactic(auto, unfolding(crate::specs::Infos::members_buffer))]
fn read_buffer(alloc: Global, from: &mut In<'_>) -> Result<RidBitsList, NdrError>
    ensures { ReadsIfRoom result from.new ((whole members_buffer).read from.old) }
{
    let (count, (rids_there, attributes_there)) = read_buffer_head(from)?;
    let rids = read_numbers(alloc, from, count, rids_there)?;
    let attributes = match read_numbers(alloc, from, count, attributes_there) {
        Ok(attributes) => attributes,
        Err(error) => {
            drop(rids);
            return Err(error);
        }
    };
    let list = pair(alloc, rids.as_slice(), attributes.as_slice());
    drop(attributes);
    drop(rids);
    Ok(list?)
}

/// The members of a group, or none where the pointer is null.
#[tactic(auto, unfolding(crate::specs::Infos::members))]
pub fn read_members(alloc: Global, from: &mut In<'_>) -> Result<Option<RidBitsList>, NdrError>
    ensures { ReadsIfRoom result from.new (members.read from.old) }
{
    if !from.pointer()? {
        return Ok(None);
    }
    let list = read_buffer(alloc, from)?;
    Ok(Some(list))
}

fn write_rids(to: &mut Out, list: &[RidBits]) -> Result<(), NoMemory>
    ensures { OnOk result (to.new ≡ (times (length list.now) u32).write (map rid_of list.now) to.old) }
{
    for member in list {
        to.u32(member.rid)?;
    }
    Ok(())
}

fn write_attributes(to: &mut Out, list: &[RidBits]) -> Result<(), NoMemory>
    ensures { OnOk result (to.new ≡ (times (length list.now) u32).write (map bits_of list.now) to.old) }
{
    for member in list {
        to.u32(member.bits)?;
    }
    Ok(())
}

#[tactic(auto, unfolding(crate::specs::Infos::members_buffer))]
fn write_buffer(to: &mut Out, list: &[RidBits]) -> Result<(), NoMemory>
    requires { IsListed AnyValue list.now }
    ensures { OnOk result (to.new ≡ (whole members_buffer).write list.now to.old) }
{
    let count = list.len() as u32;
    to.u32(count)?;
    to.pointer(!list.is_empty())?;
    to.pointer(!list.is_empty())?;
    if list.is_empty() {
        return Ok(());
    }
    to.conformant(count)?;
    write_rids(to, list)?;
    to.conformant(count)?;
    write_attributes(to, list)
}

/// Writes the members of a group, or a null pointer.
#[tactic(auto, unfolding(crate::specs::Infos::members))]
pub fn write_members(to: &mut Out, value: &Option<RidBitsList>) -> Result<(), NoMemory>
    requires { IfThere (IsListed AnyValue) value.now }
    ensures { OnOk result (to.new ≡ members.write value.now to.old) }
{
    let Some(list) = value else {
        return to.pointer(false);
    };
    to.pointer(true)?;
    write_buffer(to, list.as_slice())
}
