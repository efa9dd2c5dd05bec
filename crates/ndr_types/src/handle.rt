// Context handles.
ghost use Rattle.std.specs.Prelude.{◌≡◌, OnOk};
ghost use Rattle.ndr_core.specs.Cursor.{Reads};
ghost use Rattle.ndr_core.specs.Shapes.{u32};
ghost use Rattle.ndr_types.specs.Values.{then_short, handle, uuid};

use crate::NoMemory;
use crate::smalls::{read_four_smalls, write_four_smalls};
use acct_calls::Handle;
use ndr_core::{In, NdrError, Out};

/// The time of a UUID, as one number.
fn read_time(from: &mut In<'_>) -> Result<u64, NdrError>
    ensures { Reads result from.new ((then_short (then_short u32)).read from.old) }
{
    let n = from.u32()? as u64;
    let n = n * 0x10000 + from.u16()? as u64;
    let n = n * 0x10000 + from.u16()? as u64;
    Ok(n)
}

#[tactic(auto, unfolding(crate::specs::Values::uuid))]
fn read_uuid(from: &mut In<'_>) -> Result<u128, NdrError>
    ensures { Reads result from.new (uuid.read from.old) }
{
    let time = read_time(from)?;
    let upper = read_four_smalls(from, time as u128)?;
    read_four_smalls(from, upper)
}

/// A context handle. Its attributes aren't looked at.
#[tactic(auto, unfolding(crate::specs::Values::handle))]
pub fn read_handle(from: &mut In<'_>) -> Result<Handle, NdrError>
    ensures { Reads result from.new (handle.read from.old) }
{
    from.u32()?;
    let number = read_uuid(from)?;
    Ok(Handle { number })
}

fn write_time(to: &mut Out, number: u64) -> Result<(), NoMemory>
    ensures { OnOk result (to.new ≡ (then_short (then_short u32)).write number to.old) }
{
    let low = number / 0x10000;
    to.u32((low / 0x10000) as u32)?;
    to.u16((low % 0x10000) as u16)?;
    to.u16((number % 0x10000) as u16)
}

#[tactic(auto, unfolding(crate::specs::Values::uuid))]
fn write_uuid(to: &mut Out, number: u128) -> Result<(), NoMemory>
    ensures { OnOk result (to.new ≡ uuid.write number to.old) }
{
    let upper = number / 0x100 / 0x100 / 0x100 / 0x100;
    let time = upper / 0x100 / 0x100 / 0x100 / 0x100;
    write_time(to, time as u64)?;
    write_four_smalls(to, upper)?;
    write_four_smalls(to, number)
}

/// A context handle, with attributes of 0.
#[tactic(auto, unfolding(crate::specs::Values::handle))]
pub fn write_handle(to: &mut Out, value: &Handle) -> Result<(), NoMemory>
    ensures { OnOk result (to.new ≡ handle.write value.now to.old) }
{
    to.u32(0)?;
    write_uuid(to, value.number)
}
