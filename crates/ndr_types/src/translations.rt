// Translated names and SIDs as elements of arrays.
ghost use Rattle.std.specs.Prelude.{◌≡◌, ◌<◌, ◌^◌, ℕ, OnOk, length};
ghost use Rattle.ndr_core.specs.Cursor.{Reads};
ghost use Rattle.ndr_core.specs.Parts.{flat};
ghost use Rattle.acct_layouts.specs.Values.{IsListed};
ghost use Rattle.ndr_types.specs.Bounds.{AnyValue, HasShortText};
ghost use Rattle.ndr_types.specs.Outcomes.{ReadsIfRoom};
ghost use Rattle.ndr_types.specs.Translations.{flagged_names, flagged_sids, sid_ref, sid_refs, signed_long};
ghost use Rattle.ndr_types.specs.Translations.{translated_name, translated_names, translated_sid, translated_sids};

use crate::array::{read_list, write_list};
use crate::flagged::{read_flagged_list, write_flagged_list};
use crate::sid::{read_sid, write_sid};
use crate::{Embedded, NoMemory};
use acct_calls::{Name, NamedList, SidRef, SidRefs, Translated, TranslatedName, TranslatedSid};
use ndr_core::{In, NdrError, Out};
use std::alloc::Global;

#[tactic(auto, unfolding(crate::specs::Translations::signed_long))]
fn read_signed(from: &mut In<'_>) -> Result<i32, NdrError>
    ensures { Reads result from.new (signed_long.read from.old) }
{
    let bits = from.u32()?;
    Ok(bits.cast_signed())
}

#[tactic(auto, unfolding(crate::specs::Translations::signed_long))]
fn write_signed(to: &mut Out, value: i32) -> Result<(), NoMemory>
    ensures { OnOk result (to.new ≡ signed_long.write value to.old) }
{
    to.u32(value.cast_unsigned())
}

impl Embedded for TranslatedSid {
    type Head = TranslatedSid;

    ghost part = { flat translated_sid };

    ghost Bounded = { AnyValue };

    #[tactic(auto, unfolding(crate::specs::Translations::translated_sid))]
    fn read_head(from: &mut In<'_>) -> Result<TranslatedSid, NdrError> {
        let usage = from.u16()?;
        let rid = from.u32()?;
        let index = read_signed(from)?;
        Ok(TranslatedSid { usage, rid, index })
    }

    fn read_tail(
        _alloc: Global,
        _from: &mut In<'_>,
        head: &TranslatedSid,
    ) -> Result<TranslatedSid, NdrError> {
        Ok(*head)
    }

    #[tactic(auto, unfolding(crate::specs::Translations::translated_sid))]
    fn write_head(&self, to: &mut Out) -> Result<(), NoMemory> {
        to.u16(self.usage)?;
        to.u32(self.rid)?;
        write_signed(to, self.index)
    }

    fn write_tail(&self, _to: &mut Out) -> Result<(), NoMemory> {
        Ok(())
    }
}

impl Embedded for TranslatedName {
    type Head = (u16, ((u16, bool), i32));

    ghost part = { translated_name };

    ghost Bounded = { HasShortText };

    #[tactic(auto, unfolding(crate::specs::Translations::translated_name))]
    fn read_head(from: &mut In<'_>) -> Result<(u16, ((u16, bool), i32)), NdrError> {
        let usage = from.u16()?;
        from.align(4);
        let name = Name::read_head(from)?;
        let index = read_signed(from)?;
        Ok((usage, (name, index)))
    }

    #[tactic(auto, unfolding(crate::specs::Translations::translated_name))]
    fn read_tail(
        alloc: Global,
        from: &mut In<'_>,
        head: &(u16, ((u16, bool), i32)),
    ) -> Result<TranslatedName, NdrError> {
        let (usage, (name, index)) = *head;
        let name = Name::read_tail(alloc, from, &name)?;
        Ok(TranslatedName { usage, name, index })
    }

    #[tactic(auto, unfolding(crate::specs::Translations::translated_name))]
    fn write_head(&self, to: &mut Out) -> Result<(), NoMemory> {
        to.u16(self.usage)?;
        to.align(4)?;
        self.name.write_head(to)?;
        write_signed(to, self.index)
    }

    #[tactic(auto, unfolding(crate::specs::Translations::translated_name))]
    fn write_tail(&self, to: &mut Out) -> Result<(), NoMemory> {
        self.name.write_tail(to)
    }
}

impl Embedded for SidRef {
    type Head = (u16, (bool, i32));

    ghost part = { sid_ref };

    ghost Bounded = { AnyValue };

    #[tactic(auto, unfolding(crate::specs::Translations::sid_ref))]
    fn read_head(from: &mut In<'_>) -> Result<(u16, (bool, i32)), NdrError> {
        let usage = from.u16()?;
        let there = from.pointer()?;
        let index = read_signed(from)?;
        Ok((usage, (there, index)))
    }

    #[tactic(auto, unfolding(crate::specs::Translations::sid_ref))]
    fn read_tail(
        _alloc: Global,
        from: &mut In<'_>,
        head: &(u16, (bool, i32)),
    ) -> Result<SidRef, NdrError> {
        let (usage, (there, index)) = *head;
        if !there {
            return Ok(SidRef {
                usage,
                sid: None,
                index,
            });
        }
        let sid = read_sid(from)?;
        Ok(SidRef {
            usage,
            sid: Some(sid),
            index,
        })
    }

    #[tactic(auto, unfolding(crate::specs::Translations::sid_ref))]
    fn write_head(&self, to: &mut Out) -> Result<(), NoMemory> {
        to.u16(self.usage)?;
        to.pointer(self.sid.is_some())?;
        write_signed(to, self.index)
    }

    #[tactic(auto, unfolding(crate::specs::Translations::sid_ref))]
    fn write_tail(&self, to: &mut Out) -> Result<(), NoMemory> {
        let Some(sid) = &self.sid else {
            return Ok(());
        };
        write_sid(to, sid)
    }
}

/// A list of at most so many translated names.
pub fn read_translated_sids(
    alloc: Global,
    from: &mut In<'_>,
    most: u32,
) -> Result<Translated, NdrError>
    ensures { ReadsIfRoom result from.new ((translated_sids most).read from.old) }
{
    read_list(alloc, from, most)
}

/// A list of translated names.
pub fn write_translated_sids(to: &mut Out, value: &Translated) -> Result<(), NoMemory>
    requires { length value.now < 2 ^ 32 }
    ensures { OnOk result ((most : ℕ) → to.new ≡ (translated_sids most).write value.now to.old) }
{
    write_list(to, value.as_slice())
}

/// A list of at most so many translated SIDs.
pub fn read_translated_names(
    alloc: Global,
    from: &mut In<'_>,
    most: u32,
) -> Result<NamedList, NdrError>
    ensures { ReadsIfRoom result from.new ((translated_names most).read from.old) }
{
    read_list(alloc, from, most)
}

/// A list of translated SIDs.
pub fn write_translated_names(to: &mut Out, value: &NamedList) -> Result<(), NoMemory>
    requires { IsListed HasShortText value.now }
    ensures { OnOk result ((most : ℕ) → to.new ≡ (translated_names most).write value.now to.old) }
{
    write_list(to, value.as_slice())
}

/// A list of at most so many translated names, each with flags, which aren't looked at.
pub fn read_flagged_sids(
    alloc: Global,
    from: &mut In<'_>,
    most: u32,
) -> Result<Translated, NdrError>
    ensures { ReadsIfRoom result from.new ((flagged_sids most).read from.old) }
{
    read_flagged_list(alloc, from, most)
}

/// A list of translated names, each with flags of 0.
pub fn write_flagged_sids(to: &mut Out, value: &Translated) -> Result<(), NoMemory>
    requires { length value.now < 2 ^ 32 }
    ensures { OnOk result ((most : ℕ) → to.new ≡ (flagged_sids most).write value.now to.old) }
{
    write_flagged_list(to, value.as_slice())
}

/// A list of at most so many translated SIDs, each with flags, which aren't looked at.
pub fn read_flagged_names(
    alloc: Global,
    from: &mut In<'_>,
    most: u32,
) -> Result<NamedList, NdrError>
    ensures { ReadsIfRoom result from.new ((flagged_names most).read from.old) }
{
    read_flagged_list(alloc, from, most)
}

/// A list of translated SIDs, each with flags of 0.
pub fn write_flagged_names(to: &mut Out, value: &NamedList) -> Result<(), NoMemory>
    requires { IsListed HasShortText value.now }
    ensures { OnOk result ((most : ℕ) → to.new ≡ (flagged_names most).write value.now to.old) }
{
    write_flagged_list(to, value.as_slice())
}

/// A list of at most so many translated names with their SIDs, and with flags, which aren't looked at.
pub fn read_sid_refs(alloc: Global, from: &mut In<'_>, most: u32) -> Result<SidRefs, NdrError>
    ensures { ReadsIfRoom result from.new ((sid_refs most).read from.old) }
{
    read_flagged_list(alloc, from, most)
}

/// A list of translated names with their SIDs, each with flags of 0.
pub fn write_sid_refs(to: &mut Out, value: &SidRefs) -> Result<(), NoMemory>
    requires { length value.now < 2 ^ 32 }
    ensures { OnOk result ((most : ℕ) → to.new ≡ (sid_refs most).write value.now to.old) }
{
    write_flagged_list(to, value.as_slice())
}
