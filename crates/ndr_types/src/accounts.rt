// Lists of accounts.
ghost use Rattle.std.specs.Prelude.{◌≡◌, OnOk};
ghost use Rattle.std.specs.Option.{option_copied};
ghost use Rattle.ndr_types.specs.Listed.{rid_name, rid_names};
ghost use Rattle.acct_layouts.specs.Values.{IfThere, IsListed};
ghost use Rattle.ndr_types.specs.Bounds.{HasShortName};
ghost use Rattle.ndr_types.specs.Outcomes.{ReadsIfRoom};

use crate::array::{read_list, write_list};
use crate::{Embedded, NoMemory};
use acct_calls::{Name, RidName, RidNames};
use ndr_core::{In, NdrError, Out};
use std::alloc::Global;

impl Embedded for RidName {
    type Head = (u32, (u16, bool));

    ghost part = { rid_name };

    ghost Bounded = { HasShortName };

    #[tactic(auto, unfolding(crate::specs::Listed::rid_name))]
    fn read_head(from: &mut In<'_>) -> Result<(u32, (u16, bool)), NdrError> {
        let rid = from.u32()?;
        let name = Name::read_head(from)?;
        Ok((rid, name))
    }

    #[tactic(auto, unfolding(crate::specs::Listed::rid_name))]
    fn read_tail(
        alloc: Global,
        from: &mut In<'_>,
        head: &(u32, (u16, bool)),
    ) -> Result<RidName, NdrError> {
        let name = Name::read_tail(alloc, from, &head.1)?;
        Ok(RidName { rid: head.0, name })
    }

    #[tactic(auto, unfolding(crate::specs::Listed::rid_name))]
    fn write_head(&self, to: &mut Out) -> Result<(), NoMemory> {
        to.u32(self.rid)?;
        self.name.write_head(to)
    }

    #[tactic(auto, unfolding(crate::specs::Listed::rid_name))]
    fn write_tail(&self, to: &mut Out) -> Result<(), NoMemory> {
        self.name.write_tail(to)
    }
}

/// A list of accounts, or none where the pointer is null.
#[tactic(auto, unfolding(crate::specs::Listed::rid_names))]
pub fn read_rid_names(alloc: Global, from: &mut In<'_>) -> Result<Option<RidNames>, NdrError>
    ensures { ReadsIfRoom result from.new (rid_names.read from.old) }
{
    if !from.pointer()? {
        return Ok(None);
    }
    let list = read_list(alloc, from, u32::MAX)?;
    Ok(Some(list))
}

/// A list of accounts, or a null pointer.
#[tactic(auto, unfolding(crate::specs::Listed::rid_names))]
pub fn write_rid_names(to: &mut Out, value: Option<&RidNames>) -> Result<(), NoMemory>
    requires { IfThere (IsListed HasShortName) (option_copied value) }
    ensures { OnOk result (to.new ≡ rid_names.write (option_copied value.entry) to.old) }
{
    let Some(list) = value else {
        return to.pointer(false);
    };
    to.pointer(true)?;
    write_list(to, list.as_slice())
}
