// SIDs.
ghost use Rattle.std.specs.Prelude.{◌≡◌, ◌<◌, ◌≤◌, ◌^◌, IfOk, OnOk};
ghost use Rattle.dtyp_sid.specs.Sids.{sid_max_sub_authorities};
ghost use Rattle.ndr_core.specs.Cursor.{Reads};
ghost use Rattle.ndr_core.specs.Parts.{times};
ghost use Rattle.ndr_core.specs.Shapes.{chain, made, u32};
ghost use Rattle.ndr_types.specs.Bounds.{AnyValue};
ghost use Rattle.ndr_types.specs.Values.{authority, parts_of_sid, sid, sid_of, sid_pointer};

use crate::number::{read_numbers, write_numbers};
use crate::smalls::{read_four_smalls, write_four_smalls};
use crate::{Embedded, NoMemory};
use dtyp_sid::{SID_MAX_SUB_AUTHORITIES, SID_REVISION, Sid};
use ndr_core::{In, NdrError, Out};
use std::alloc::Global;

#[tactic(auto, unfolding(crate::specs::Values::authority))]
fn read_authority(from: &mut In<'_>) -> Result<u64, NdrError>
    ensures gives { Reads result from.new (authority.read from.old) }
    ensures below { IfOk result (λ n. n < 2 ^ 48) }
{
    let n = from.u8()? as u128;
    let n = n * 0x100 + from.u8()? as u128;
    let n = read_four_smalls(from, n)?;
    Ok(n as u64)
}

/// A SID after its counts: the authority, and so many sub-authorities.
fn read_counted(from: &mut In<'_>, count: u32) -> Result<Sid, NdrError>
    requires { count ≤ sid_max_sub_authorities }
    ensures { Reads result from.new
        ((made sid_of parts_of_sid (chain authority (λ _. times count u32))).read from.old) }
{
    let authority = read_authority(from)?;
    let mut slots = [0; SID_MAX_SUB_AUTHORITIES];
    let subs = &mut slots[..count as usize];
    read_numbers(from, subs)?;
    let Ok(sid) = Sid::new(authority, subs) else {
        unreachable!()
    };
    Ok(sid)
}

/// A SID.
#[tactic(auto, unfolding(crate::specs::Values::sid))]
pub fn read_sid(from: &mut In<'_>) -> Result<Sid, NdrError>
    ensures { Reads result from.new (sid.read from.old) }
{
    let count = from.conformant()?;
    if from.u8()? != SID_REVISION {
        return Err(from.broken(1));
    }
    let same = from.u8()?;
    if same as u32 != count || usize::from(same) > SID_MAX_SUB_AUTHORITIES {
        return Err(from.broken(1));
    }
    read_counted(from, count)
}

#[tactic(auto, unfolding(crate::specs::Values::authority))]
fn write_authority(to: &mut Out, number: u64) -> Result<(), NoMemory>
    requires { number < 2 ^ 48 }
    ensures { OnOk result (to.new ≡ authority.write number to.old) }
{
    let n1 = number / 0x100 / 0x100 / 0x100 / 0x100;
    to.u8((n1 / 0x100) as u8)?;
    to.u8((n1 % 0x100) as u8)?;
    write_four_smalls(to, number as u128)
}

/// A SID, with its count of sub-authorities before it and in it.
#[tactic(auto, unfolding(crate::specs::Values::sid))]
pub fn write_sid(to: &mut Out, value: &Sid) -> Result<(), NoMemory>
    ensures { OnOk result (to.new ≡ sid.write value.now to.old) }
{
    let count = value.subs().len();
    to.conformant(count as u32)?;
    to.u8(SID_REVISION)?;
    to.u8(count as u8)?;
    write_authority(to, value.authority())?;
    write_numbers(to, value.subs())
}

impl Embedded for Sid {
    type Head = bool;

    ghost part = { sid_pointer };

    ghost Bounded = { AnyValue };

    #[tactic(auto, unfolding(crate::specs::Values::sid_pointer))]
    fn read_head(from: &mut In<'_>) -> Result<bool, NdrError> {
        let there = from.pointer()?;
        if !there {
            return Err(from.broken(4));
        }
        Ok(there)
    }

    #[tactic(auto, unfolding(crate::specs::Values::sid_pointer))]
    fn read_tail(_alloc: Global, from: &mut In<'_>, _head: &bool) -> Result<Sid, NdrError> {
        read_sid(from)
    }

    #[tactic(auto, unfolding(crate::specs::Values::sid_pointer))]
    fn write_head(&self, to: &mut Out) -> Result<(), NoMemory> {
        to.pointer(true)
    }

    #[tactic(auto, unfolding(crate::specs::Values::sid_pointer))]
    fn write_tail(&self, to: &mut Out) -> Result<(), NoMemory> {
        write_sid(to, self)
    }
}
