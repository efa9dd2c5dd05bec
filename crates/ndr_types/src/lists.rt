// Lists of SIDs, numbers and texts.
ghost use Rattle.std.specs.Prelude.{◌≡◌, ◌<◌, ◌^◌, ℕ, OnOk, length};
ghost use Rattle.acct_layouts.specs.Values.{IsListed};
ghost use Rattle.ndr_types.specs.Bounds.{IsShort};
ghost use Rattle.ndr_types.specs.Values.{rid_list, sid_list, text_list};
ghost use Rattle.ndr_types.specs.Outcomes.{ReadsIfRoom};

use crate::NoMemory;
use crate::array::{read_list, write_list};
use acct_calls::{Names, Rids, Sids};
use ndr_core::{In, NdrError, Out};
use std::alloc::Global;

/// A list of at most so many SIDs, none of them null.
pub fn read_sid_list(alloc: Global, from: &mut In<'_>, most: u32) -> Result<Sids, NdrError>
    ensures { ReadsIfRoom result from.new ((sid_list most).read from.old) }
{
    read_list(alloc, from, most)
}

/// A list of SIDs.
pub fn write_sid_list(to: &mut Out, value: &Sids) -> Result<(), NoMemory>
    requires { length value.now < 2 ^ 32 }
    ensures { OnOk result ((most : ℕ) → to.new ≡ (sid_list most).write value.now to.old) }
{
    write_list(to, value.as_slice())
}

/// A list of at most so many numbers.
pub fn read_rid_list(alloc: Global, from: &mut In<'_>, most: u32) -> Result<Rids, NdrError>
    ensures { ReadsIfRoom result from.new ((rid_list most).read from.old) }
{
    read_list(alloc, from, most)
}

/// A list of numbers.
pub fn write_rid_list(to: &mut Out, value: &Rids) -> Result<(), NoMemory>
    requires { length value.now < 2 ^ 32 }
    ensures { OnOk result ((most : ℕ) → to.new ≡ (rid_list most).write value.now to.old) }
{
    write_list(to, value.as_slice())
}

/// A list of at most so many texts.
pub fn read_text_list(alloc: Global, from: &mut In<'_>, most: u32) -> Result<Names, NdrError>
    ensures { ReadsIfRoom result from.new ((text_list most).read from.old) }
{
    let names = read_list(alloc, from, most)?;
    Ok(Names::from_vec(names.into_vec()))
}

/// A list of texts.
pub fn write_text_list(to: &mut Out, value: &Names) -> Result<(), NoMemory>
    requires { IsListed IsShort value.now }
    ensures { OnOk result ((most : ℕ) → to.new ≡ (text_list most).write value.now to.old) }
{
    write_list(to, value.as_slice())
}
