// Security descriptors, by their bytes.
ghost use Rattle.std.specs.Prelude.{◌≡◌, ◌<◌, ◌^◌, ℕ, OnOk, length};
ghost use Rattle.std.specs.Option.{option_copied};
ghost use Rattle.ndr_core.specs.Shapes.{u8};
ghost use Rattle.ndr_core.specs.Parts.{array, flat, is_there_list, list_tail, whole};
ghost use Rattle.acct_layouts.specs.Values.{IfThere};
ghost use Rattle.ndr_types.specs.Bounds.{IsCounted};
ghost use Rattle.ndr_types.specs.Listed.{descriptor, descriptor_pointer};
ghost use Rattle.ndr_types.specs.Outcomes.{ReadsIfRoom};

use crate::NoMemory;
use crate::array::read_count;
use acct_calls::Bytes;
use ndr_core::{In, NdrError, Out};
use std::alloc::Global;

/// So many bytes, copied at once.
#[tactic(auto, using(crate::proofs::ByteArrays::array_read))]
fn read_byte_array(alloc: Global, from: &mut In<'_>, count: u32) -> Result<Bytes, NdrError>
    ensures { ReadsIfRoom result from.new ((whole (array count (flat u8))).read from.old) }
{
    let bytes = from.bytes(count as usize)?;
    Ok(Bytes::new(Vec::from_slice(alloc, bytes)?))
}

/// So many bytes, at once.
fn write_byte_array(to: &mut Out, bytes: &[u8]) -> Result<(), NoMemory>
    ensures { OnOk result
        (to.new ≡ (whole (array (length bytes.now) (flat u8))).write bytes.now to.old) }
{
    to.bytes(bytes)
}

/// The array of a descriptor, if it is there.
fn read_tail(alloc: Global, from: &mut In<'_>, count: u32, there: bool) -> Result<Bytes, NdrError>
    ensures { ReadsIfRoom result from.new ((list_tail (flat u8) (count, there)).read from.old) }
{
    if !there {
        return Ok(Bytes::new(Vec::new(alloc)));
    }
    if from.conformant()? != count {
        return Err(from.broken(4));
    }
    read_byte_array(alloc, from, count)
}

/// A descriptor of at most so many bytes.
#[tactic(auto, unfolding(crate::specs::Listed::descriptor, ndr_core::specs::Parts::list_of, ndr_core::specs::Parts::list))]
pub fn read_descriptor(alloc: Global, from: &mut In<'_>, most: u32) -> Result<Bytes, NdrError>
    ensures { ReadsIfRoom result from.new ((descriptor most).read from.old) }
{
    let (count, there) = read_count(from, most)?;
    read_tail(alloc, from, count, there)
}

/// The array of a descriptor, unless it has no bytes.
fn write_tail(to: &mut Out, bytes: &[u8]) -> Result<(), NoMemory>
    requires { length bytes.now < 2 ^ 32 }
    ensures { OnOk result (to.new
        ≡ (list_tail (flat u8) (length bytes.now, is_there_list bytes.now)).write bytes.now to.old) }
{
    if bytes.is_empty() {
        return Ok(());
    }
    to.conformant(bytes.len() as u32)?;
    write_byte_array(to, bytes)
}

/// A descriptor. One without bytes has a null pointer.
#[tactic(auto, unfolding(crate::specs::Listed::descriptor, ndr_core::specs::Parts::list_of, ndr_core::specs::Parts::list))]
pub fn write_descriptor(to: &mut Out, value: &Bytes) -> Result<(), NoMemory>
    requires { length value.now < 2 ^ 32 }
    ensures { OnOk result ((most : ℕ) → to.new ≡ (descriptor most).write value.now to.old) }
{
    let bytes = value.as_slice();
    to.u32(bytes.len() as u32)?;
    to.pointer(!bytes.is_empty())?;
    write_tail(to, bytes)
}

/// A descriptor, or none where the pointer is null.
#[tactic(auto, unfolding(crate::specs::Listed::descriptor_pointer))]
pub fn read_descriptor_pointer(alloc: Global, from: &mut In<'_>) -> Result<Option<Bytes>, NdrError>
    ensures { ReadsIfRoom result from.new (descriptor_pointer.read from.old) }
{
    if !from.pointer()? {
        return Ok(None);
    }
    let bytes = read_descriptor(alloc, from, u32::MAX)?;
    Ok(Some(bytes))
}

/// A descriptor, or a null pointer.
#[tactic(auto, unfolding(crate::specs::Listed::descriptor_pointer))]
pub fn write_descriptor_pointer(to: &mut Out, value: Option<&Bytes>) -> Result<(), NoMemory>
    requires { IfThere IsCounted (option_copied value) }
    ensures { OnOk result (to.new ≡ descriptor_pointer.write (option_copied value.entry) to.old) }
{
    let Some(bytes) = value else {
        return to.pointer(false);
    };
    to.pointer(true)?;
    write_descriptor(to, bytes)
}
