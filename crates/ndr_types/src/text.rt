// Texts.
ghost use Rattle.std.specs.Prelude.{◌≡◌, OnOk};
ghost use Rattle.ndr_core.specs.Parts.{whole};
ghost use Rattle.ndr_types.specs.Bounds.{IsShort};
ghost use Rattle.ndr_types.specs.Outcomes.{ReadsIfRoom};
ghost use Rattle.ndr_types.specs.Values.{text, units};

use crate::array::read_heads;
use crate::number::write_units;
use crate::{Embedded, NoMemory};
use acct_calls::Name;
use ndr_core::{In, NdrError, Out};
use std::alloc::Global;

/// The units of a text of so many, after their counts.
fn read_counted(alloc: Global, from: &mut In<'_>, count: u32) -> Result<Name, NdrError>
    ensures { ReadsIfRoom result from.new ((units count).read from.old) }
{
    let maximum = from.conformant()?;
    if from.varying(maximum)? != count {
        return Err(from.broken(4));
    }
    let units = read_heads::<u16>(alloc, from, count)?;
    Ok(Name::from_units(units.into_vec()))
}

impl Embedded for Name {
    type Head = (u16, bool);

    ghost part = { text };

    ghost Bounded = { IsShort };

    #[tactic(auto, unfolding(crate::specs::Values::text))]
    fn read_head(from: &mut In<'_>) -> Result<(u16, bool), NdrError> {
        let length = from.u16()?;
        if length % 2 != 0 {
            return Err(from.broken(2));
        }
        from.u16()?;
        let there = from.pointer()?;
        if !there && length != 0 {
            return Err(from.broken(4));
        }
        Ok((length, there))
    }

    #[tactic(auto, unfolding(crate::specs::Values::text))]
    fn read_tail(alloc: Global, from: &mut In<'_>, head: &(u16, bool)) -> Result<Name, NdrError> {
        if !head.1 {
            return Ok(Name::from_units(Vec::new(alloc)));
        }
        read_counted(alloc, from, (head.0 / 2) as u32)
    }

    #[tactic(auto, unfolding(crate::specs::Values::text))]
    fn write_head(&self, to: &mut Out) -> Result<(), NoMemory> {
        let length = 2 * self.units().len() as u16;
        to.u16(length)?;
        to.u16(length)?;
        to.pointer(!self.units().is_empty())
    }

    #[tactic(auto, unfolding(crate::specs::Values::text))]
    fn write_tail(&self, to: &mut Out) -> Result<(), NoMemory> {
        if self.units().is_empty() {
            return Ok(());
        }
        let count = self.units().len() as u32;
        to.conformant(count)?;
        to.varying(count)?;
        write_units(to, self.units())
    }
}

/// A text.
pub fn read_text(alloc: Global, from: &mut In<'_>) -> Result<Name, NdrError>
    ensures { ReadsIfRoom result from.new ((whole text).read from.old) }
{
    let head = Name::read_head(from)?;
    Name::read_tail(alloc, from, &head)
}

/// A text, which is null where it is empty.
pub fn write_text(to: &mut Out, value: &Name) -> Result<(), NoMemory>
    requires { IsShort value.now }
    ensures { OnOk result (to.new ≡ (whole text).write value.now to.old) }
{
    value.write_head(to)?;
    value.write_tail(to)
}
