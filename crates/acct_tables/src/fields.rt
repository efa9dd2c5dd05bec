// Reading the fields of stored rows.
ghost use Rattle.acct_base.specs.Reading.{many, Reads, NeverMemory};
ghost use Rattle.acct_tables.specs.Stored.{byte_at, unit_at, number_at, rid_at, count_at, text_at, sid_at, held_at};

use crate::row::{Held, Privileges};
use acct_base::{Fields, Seq, Unread, front_u16, front_u32};
use acct_calls::Name;
use dtyp_sid::Sid;
use dtyp_sid::laws::written_bytes_have_lengths;
use std::alloc::Global;

/// A byte.
#[tactic(auto, unfolding(crate::specs::Stored::byte_at))]
pub fn read_byte(fields: &mut Fields<'_>) -> Result<u8, Unread>
    ensures value { Reads result fields.new (byte_at fields.old) }
    ensures frugal { NeverMemory result }
{
    let front = fields.take(1)?;
    Ok(front[0])
}

/// A number of 16 bits, its lowest byte first.
#[tactic(auto, unfolding(crate::specs::Stored::unit_at))]
fn read_unit(fields: &mut Fields<'_>) -> Result<u16, Unread>
    ensures value { Reads result fields.new (unit_at fields.old) }
    ensures frugal { NeverMemory result }
{
    let front = fields.take(2)?;
    Ok(front_u16(front))
}

/// A number of 32 bits, its lowest byte first.
#[tactic(auto, unfolding(crate::specs::Stored::number_at))]
pub fn read_number(fields: &mut Fields<'_>) -> Result<u32, Unread>
    ensures value { Reads result fields.new (number_at fields.old) }
    ensures frugal { NeverMemory result }
{
    let front = fields.take(4)?;
    Ok(front_u32(front))
}

/// A RID in a key, its highest byte first.
#[tactic(auto, unfolding(crate::specs::Stored::rid_at))]
pub fn read_rid(fields: &mut Fields<'_>) -> Result<u32, Unread>
    ensures value { Reads result fields.new (rid_at fields.old) }
    ensures frugal { NeverMemory result }
{
    let front = fields.take(4)?;
    Ok(u32::from_be_bytes([front[0], front[1], front[2], front[3]]))
}

/// The number of a change in a key, its highest byte first.
#[tactic(auto, unfolding(crate::specs::Stored::count_at))]
pub fn read_count(fields: &mut Fields<'_>) -> Result<u64, Unread>
    ensures value { Reads result fields.new (count_at fields.old) }
    ensures frugal { NeverMemory result }
{
    let front = fields.take(8)?;
    Ok(u64::from_be_bytes([
        front[0], front[1], front[2], front[3], front[4], front[5], front[6], front[7],
    ]))
}

fn read_units(alloc: Global, fields: &mut Fields<'_>, count: u16) -> Result<Seq<u16>, Unread>
    ensures { Reads result fields.new (many unit_at count fields.old) }
{
    let mut units = Seq::new(alloc);
    for _ in 0..count {
        let unit = read_unit(fields)?;
        units.push(unit)?;
    }
    Ok(units)
}

/// A text: the count of its units, and the units.
#[tactic(auto, unfolding(crate::specs::Stored::text_at))]
pub fn read_text(alloc: Global, fields: &mut Fields<'_>) -> Result<Name, Unread>
    ensures { Reads result fields.new (text_at fields.old) }
{
    let count = read_unit(fields)?;
    let units = read_units(alloc, fields, count)?;
    Ok(Name::from_units(units.into_vec()))
}

/// A SID, which tells its own length.
#[tactic(auto, unfolding(crate::specs::Stored::sid_at))]
pub fn read_sid(fields: &mut Fields<'_>) -> Result<Sid, Unread>
    ensures value { Reads result fields.new (sid_at fields.old) }
    ensures frugal { NeverMemory result }
{
    written_bytes_have_lengths();
    match Sid::from_bytes(fields.rest()) {
        Ok(sid) => {
            fields.skip(8 + 4 * sid.subs().len());
            Ok(sid)
        }
        Err(_) => Err(Unread::Misspelled),
    }
}

#[tactic(auto, unfolding(crate::specs::Stored::held_at))]
fn read_held(fields: &mut Fields<'_>) -> Result<Held, Unread>
    ensures value { Reads result fields.new (held_at fields.old) }
    ensures frugal { NeverMemory result }
{
    let low = read_byte(fields)?;
    let attributes = read_number(fields)?;
    Ok(Held {
        low: u32::from(low),
        attributes,
    })
}

/// So many privileges.
pub fn read_privileges(
    alloc: Global,
    fields: &mut Fields<'_>,
    count: u8,
) -> Result<Privileges, Unread>
    ensures { Reads result fields.new (many held_at count fields.old) }
{
    let mut privileges = Seq::new(alloc);
    for _ in 0..count {
        let held = read_held(fields)?;
        privileges.push(held)?;
    }
    Ok(privileges)
}
