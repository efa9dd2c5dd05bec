// Lists of the domains that a translation refers to.
ghost use Rattle.std.specs.Prelude.{◌≡◌, OnOk};
ghost use Rattle.std.specs.Option.{option_copied};
ghost use Rattle.ndr_core.specs.Cursor.{Reads, making};
ghost use Rattle.ndr_core.specs.Parts.{whole};
ghost use Rattle.acct_layouts.specs.Values.{IfThere, IsListed};
ghost use Rattle.ndr_types.specs.Bounds.{IsShortPlace};
ghost use Rattle.ndr_types.specs.Translations.{or_empty, place, places, referenced};
ghost use Rattle.ndr_types.specs.Outcomes.{ReadsIfRoom};

use crate::array::{read_list_head, read_list_tail, write_list_head, write_list_tail};
use crate::{Embedded, NoMemory};
use acct_base::Seq;
use acct_calls::{Name, Places, ReferencedDomain};
use dtyp_sid::Sid;
use ndr_core::{In, NdrError, Out};
use std::alloc::Global;

impl Embedded for ReferencedDomain {
    type Head = ((u16, bool), bool);

    ghost part = { place };

    ghost Bounded = { IsShortPlace };

    #[tactic(auto, unfolding(crate::specs::Translations::place))]
    fn read_head(from: &mut In<'_>) -> Result<((u16, bool), bool), NdrError> {
        let name = Name::read_head(from)?;
        let sid = Sid::read_head(from)?;
        Ok((name, sid))
    }

    #[tactic(auto, unfolding(crate::specs::Translations::place))]
    fn read_tail(
        alloc: Global,
        from: &mut In<'_>,
        head: &((u16, bool), bool),
    ) -> Result<ReferencedDomain, NdrError> {
        let name = Name::read_tail(alloc, from, &head.0)?;
        let sid = Sid::read_tail(alloc, from, &head.1)?;
        Ok(ReferencedDomain { name, sid })
    }

    #[tactic(auto, unfolding(crate::specs::Translations::place))]
    fn write_head(&self, to: &mut Out) -> Result<(), NoMemory> {
        self.name.write_head(to)?;
        self.sid.write_head(to)
    }

    #[tactic(auto, unfolding(crate::specs::Translations::place))]
    fn write_tail(&self, to: &mut Out) -> Result<(), NoMemory> {
        self.name.write_tail(to)?;
        self.sid.write_tail(to)
    }
}

#[tactic(auto, unfolding(crate::specs::Translations::places))]
fn read_places_head(from: &mut In<'_>) -> Result<(u32, bool), NdrError>
    ensures { Reads result from.new (places.head.read from.old) }
{
    let head = read_list_head::<ReferencedDomain>(from, u32::MAX)?;
    from.u32()?;
    Ok(head)
}

#[tactic(auto, unfolding(crate::specs::Translations::places))]
fn read_places_tail(
    alloc: Global,
    from: &mut In<'_>,
    head: &(u32, bool),
) -> Result<Places, NdrError>
    ensures { ReadsIfRoom result from.new ((places.tail head.now).read from.old) }
{
    read_list_tail(alloc, from, head)
}

fn read_places(alloc: Global, from: &mut In<'_>) -> Result<Places, NdrError>
    ensures { ReadsIfRoom result from.new ((whole places).read from.old) }
{
    let head = read_places_head(from)?;
    read_places_tail(alloc, from, &head)
}

/// A list of domains, or none where the pointer is null.
#[tactic(auto, unfolding(crate::specs::Translations::referenced))]
pub fn read_referenced_pointer(alloc: Global, from: &mut In<'_>) -> Result<Option<Places>, NdrError>
    ensures { ReadsIfRoom result from.new (referenced.read from.old) }
{
    if !from.pointer()? {
        return Ok(None);
    }
    let list = read_places(alloc, from)?;
    Ok(Some(list))
}

/// A list of domains. Where the pointer is null it is empty.
#[tactic(auto, unfolding(crate::specs::Translations::referenced))]
pub fn read_referenced(alloc: Global, from: &mut In<'_>) -> Result<Places, NdrError>
    ensures { ReadsIfRoom result from.new (making or_empty referenced.read from.old) }
{
    if !from.pointer()? {
        return Ok(Seq::new(alloc));
    }
    read_places(alloc, from)
}

#[tactic(auto, unfolding(crate::specs::Translations::places))]
fn write_places_head(to: &mut Out, list: &[ReferencedDomain]) -> Result<(), NoMemory>
    requires { IsListed IsShortPlace list.now }
    ensures { OnOk result (to.new ≡ places.head.write (places.head_of list.now) to.old) }
{
    write_list_head(to, list)?;
    to.u32(list.len() as u32)
}

#[tactic(auto, unfolding(crate::specs::Translations::places))]
fn write_places_tail(to: &mut Out, list: &[ReferencedDomain]) -> Result<(), NoMemory>
    requires { IsListed IsShortPlace list.now }
    ensures { OnOk result (to.new ≡ (places.tail (places.head_of list.now)).write list.now to.old) }
{
    write_list_tail(to, list)
}

/// A list of domains, or a null pointer.
#[tactic(auto, unfolding(crate::specs::Translations::referenced))]
pub fn write_referenced(to: &mut Out, value: Option<&Places>) -> Result<(), NoMemory>
    requires { IfThere (IsListed IsShortPlace) (option_copied value) }
    ensures { OnOk result (to.new ≡ referenced.write (option_copied value.entry) to.old) }
{
    let Some(list) = value else {
        return to.pointer(false);
    };
    to.pointer(true)?;
    write_places_head(to, list.as_slice())?;
    write_places_tail(to, list.as_slice())
}
