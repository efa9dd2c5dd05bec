// Numbers as elements of arrays.
ghost use Rattle.std.specs.Prelude.{◌≡◌, OnOk, length};
ghost use Rattle.ndr_core.specs.Shapes.{u16, u32};
ghost use Rattle.ndr_core.specs.Parts.{flat, times};
ghost use Rattle.ndr_types.specs.Bounds.{AnyValue};
ghost use Rattle.ndr_types.specs.Outcomes.{ReadsOnto};

use crate::array::write_heads;
use crate::{Embedded, NoMemory};
use ndr_core::{In, NdrError, Out};
use std::alloc::Global;

impl Embedded for u16 {
    type Head = u16;

    ghost part = { flat u16 };

    ghost Bounded = { AnyValue };

    fn read_head(from: &mut In<'_>) -> Result<u16, NdrError> {
        from.u16()
    }

    fn read_tail(_alloc: Global, _from: &mut In<'_>, head: &u16) -> Result<u16, NdrError> {
        Ok(*head)
    }

    fn write_head(&self, to: &mut Out) -> Result<(), NoMemory> {
        to.u16(*self)
    }

    fn write_tail(&self, _to: &mut Out) -> Result<(), NoMemory> {
        Ok(())
    }
}

impl Embedded for u32 {
    type Head = u32;

    ghost part = { flat u32 };

    ghost Bounded = { AnyValue };

    fn read_head(from: &mut In<'_>) -> Result<u32, NdrError> {
        from.u32()
    }

    fn read_tail(_alloc: Global, _from: &mut In<'_>, head: &u32) -> Result<u32, NdrError> {
        Ok(*head)
    }

    fn write_head(&self, to: &mut Out) -> Result<(), NoMemory> {
        to.u32(*self)
    }

    fn write_tail(&self, _to: &mut Out) -> Result<(), NoMemory> {
        Ok(())
    }
}

/// Fills a slice with numbers, one after the other.
pub fn read_numbers(from: &mut In<'_>, numbers: &mut [u32]) -> Result<(), NdrError>
    ensures { ReadsOnto result numbers.new from.new ((times (length numbers.old) u32).read from.old) }
{
    for number in numbers.iter_mut() {
        *number = from.u32()?;
    }
    Ok(())
}

/// Numbers, one after the other.
#[tactic(auto, using(crate::proofs::Arrays::map_same))]
pub fn write_numbers(to: &mut Out, numbers: &[u32]) -> Result<(), NoMemory>
    ensures { OnOk result (to.new ≡ (times (length numbers.now) u32).write numbers.now to.old) }
{
    write_heads(to, numbers)
}

/// Units, one after the other.
#[tactic(auto, using(crate::proofs::Arrays::map_same))]
pub fn write_units(to: &mut Out, units: &[u16]) -> Result<(), NoMemory>
    ensures { OnOk result (to.new ≡ (times (length units.now) u16).write units.now to.old) }
{
    write_heads(to, units)
}
