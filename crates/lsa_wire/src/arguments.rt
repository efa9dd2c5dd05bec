// The fields of calls after their handles.
ghost use Rattle.std.specs.Prelude.{◌≡◌, ◌<◌, ◌^◌, ℕ, [], All, OnOk, length};
ghost use Rattle.ndr_core.specs.Cursor.{Reads};
ghost use Rattle.acct_codes.specs.Limits.{most_translated_names};
ghost use Rattle.lsa_wire.specs.Arguments.{counted, flag, later_level_asked, level_asked, own_fields, policy_args};
ghost use Rattle.lsa_wire.specs.Arguments.{translation_args};
ghost use Rattle.ndr_types.specs.Outcomes.{ReadsIfRoom};
ghost use Rattle.ndr_types.specs.Values.{text};
ghost use Rattle.ndr_types.specs.Translations.{flagged_names, flagged_sids, sid_refs, translated_names};
ghost use Rattle.ndr_types.specs.Translations.{translated_sids};

use crate::NoMemory;
use crate::opening::{read_connect, write_connect};
use acct_base::Seq;
use acct_calls::{Args, Names};
use acct_codes::limit::{MOST_RIGHTS, MOST_TRANSLATED_NAMES, MOST_TRANSLATED_SIDS};
use acct_layouts::{Fields, PolicyFields, Translation};
use ndr_core::{In, NdrError, Out};
use ndr_types::{
    Embedded, read_array, read_flagged_names, read_flagged_sids, read_privilege_set,
    read_privilege_set_pointer, read_sid, read_sid_list, read_sid_refs, read_text_list,
    read_text_pointer, read_translated_names, read_translated_sids, write_heads,
    write_privilege_set, write_privilege_set_pointer, write_sid, write_sid_list, write_tails,
    write_text_list, write_text_pointer,
};
use std::alloc::Global;

#[tactic(auto, unfolding(crate::specs::Arguments::flag))]
fn read_flag(from: &mut In<'_>) -> Result<bool, NdrError>
    ensures { Reads result from.new (flag.read from.old) }
{
    let number = from.u8()?;
    Ok(number != 0)
}

#[tactic(auto, unfolding(crate::specs::Arguments::flag))]
fn write_flag(to: &mut Out, value: bool) -> Result<(), NoMemory>
    ensures { OnOk result (to.new ≡ flag.write value to.old) }
{
    if value {
        return to.u8(1);
    }
    to.u8(0)
}

#[tactic(auto, unfolding(crate::specs::Arguments::policy_args))]
fn read_policy(alloc: Global, from: &mut In<'_>, row: PolicyFields) -> Result<Args, NdrError>
    ensures { ReadsIfRoom result from.new ((policy_args row).read from.old) }
{
    match row {
        PolicyFields::Account => {
            let sid = read_sid(from)?;
            let access = from.u32()?;
            Ok(Args::AccessSid { access, sid })
        }
        PolicyFields::AddPrivileges => {
            let privileges = read_privilege_set(alloc, from)?;
            Ok(Args::Privileges {
                all: false,
                set: Some(privileges),
            })
        }
        PolicyFields::RemovePrivileges => {
            let all = read_flag(from)?;
            let set = read_privilege_set_pointer(alloc, from)?;
            Ok(Args::Privileges { all, set })
        }
        PolicyFields::SystemAccess => from.u32().map(Args::Bits),
        PolicyFields::Luid => {
            let low = from.u32()?;
            let high = from.u32()?;
            Ok(Args::Luid { low, high })
        }
        PolicyFields::Right => read_text_pointer(alloc, from).map(Args::OneName),
        PolicyFields::AddRights => {
            let sid = read_sid(from)?;
            let names = read_text_list(alloc, from, MOST_RIGHTS)?;
            Ok(Args::Rights {
                sid,
                all: false,
                names,
            })
        }
        PolicyFields::RemoveRights => {
            let sid = read_sid(from)?;
            let all = read_flag(from)?;
            let names = read_text_list(alloc, from, MOST_RIGHTS)?;
            Ok(Args::Rights { sid, all, names })
        }
    }
}

#[tactic(auto, using(crate::proofs::Asked::policy_args_asked), unfolding(crate::specs::Arguments::policy_args))]
fn write_policy(to: &mut Out, row: PolicyFields, args: &Args) -> Result<(), NoMemory>
    requires { (policy_args row).Fits args.now }
    ensures { OnOk result (to.new ≡ (policy_args row).write args.now to.old) }
{
    match (row, args) {
        (PolicyFields::Account, Args::AccessSid { access, sid }) => {
            write_sid(to, sid)?;
            to.u32(*access)
        }
        (PolicyFields::AddPrivileges, Args::Privileges { set: Some(set), .. }) => {
            write_privilege_set(to, set)
        }
        (PolicyFields::RemovePrivileges, Args::Privileges { all, set }) => {
            write_flag(to, *all)?;
            write_privilege_set_pointer(to, set.as_ref())
        }
        (PolicyFields::SystemAccess, Args::Bits(bits)) => to.u32(*bits),
        (PolicyFields::Luid, Args::Luid { low, high }) => {
            to.u32(*low)?;
            to.u32(*high)
        }
        (PolicyFields::Right, Args::OneName(name)) => write_text_pointer(to, name.as_ref()),
        (PolicyFields::AddRights, Args::Rights { sid, names, .. }) => {
            write_sid(to, sid)?;
            write_text_list(to, names)
        }
        (PolicyFields::RemoveRights, Args::Rights { sid, all, names }) => {
            write_sid(to, sid)?;
            write_flag(to, *all)?;
            write_text_list(to, names)
        }
        _ => unreachable!(),
    }
}

/// A count of at most so many, and a conformant array of so many.
#[tactic(auto, unfolding(crate::specs::Arguments::counted))]
fn read_counted<X: Embedded>(
    alloc: Global,
    from: &mut In<'_>,
    most: u32,
) -> Result<Seq<X>, NdrError>
    ensures { ReadsIfRoom result from.new ((counted most X.part).read from.old) }
{
    let count = from.u32()?;
    if count > most {
        return Err(from.broken(4));
    }
    if from.conformant()? != count {
        return Err(from.broken(4));
    }
    read_array(alloc, from, count)
}

#[tactic(auto, unfolding(crate::specs::Arguments::counted))]
fn write_counted<X: Embedded>(to: &mut Out, values: &[X]) -> Result<(), NoMemory>
    requires counted { length values.now < 2 ^ 32 }
    requires bounded { All X.Bounded values.now }
    ensures { OnOk result ((most : ℕ) → to.new ≡ (counted most X.part).write values.now to.old) }
{
    let count = values.len() as u32;
    to.u32(count)?;
    to.conformant(count)?;
    write_heads(to, values)?;
    write_tails(to, values)
}

/// The level of a translation, and the number of mapped entries, which isn't kept.
fn read_level(from: &mut In<'_>) -> Result<u16, NdrError>
    ensures { Reads result from.new (level_asked.read from.old) }
{
    let level = from.u16()?;
    from.u32()?;
    Ok(level)
}

fn write_level(to: &mut Out, level: u16) -> Result<(), NoMemory>
    ensures { OnOk result (to.new ≡ level_asked.write level to.old) }
{
    to.u16(level)?;
    to.u32(0)
}

/// The level of a translation, and after the number of mapped entries the options and the client's revision, of which
/// nothing is kept.
fn read_later_level(from: &mut In<'_>) -> Result<u16, NdrError>
    ensures { Reads result from.new (later_level_asked.read from.old) }
{
    let level = read_level(from)?;
    from.u32()?;
    from.u32()?;
    Ok(level)
}

fn write_later_level(to: &mut Out, level: u16) -> Result<(), NoMemory>
    ensures { OnOk result (to.new ≡ later_level_asked.write level to.old) }
{
    write_level(to, level)?;
    to.u32(0)?;
    to.u32(2)
}

/// An empty list, which has a count of 0 and a null pointer, whatever it is of.
#[tactic(auto, unfolding(ndr_core::specs::Parts::list_of, ndr_core::specs::Parts::list))]
fn write_no_entries(to: &mut Out) -> Result<(), NoMemory>
    ensures sids { OnOk result ((most : ℕ) → to.new ≡ (translated_sids most).write [] to.old) }
    ensures names { OnOk result ((most : ℕ) → to.new ≡ (translated_names most).write [] to.old) }
    ensures flagged_sids { OnOk result ((most : ℕ) → to.new ≡ (flagged_sids most).write [] to.old) }
    ensures flagged_names { OnOk result ((most : ℕ) → to.new ≡ (flagged_names most).write [] to.old) }
    ensures refs { OnOk result ((most : ℕ) → to.new ≡ (sid_refs most).write [] to.old) }
{
    to.u32(0)?;
    to.pointer(false)
}

/// The names that are asked for.
fn read_names(alloc: Global, from: &mut In<'_>) -> Result<Names, NdrError>
    ensures { ReadsIfRoom result from.new ((counted most_translated_names text).read from.old) }
{
    let names = read_counted(alloc, from, MOST_TRANSLATED_NAMES)?;
    Ok(Names::from_vec(names.into_vec()))
}

/// What is translated, and the level. The answers that a call brings aren't kept.
#[tactic(auto, unfolding(crate::specs::Arguments::translation_args))]
fn read_sought(alloc: Global, from: &mut In<'_>, row: Translation) -> Result<Args, NdrError>
    ensures { ReadsIfRoom result from.new ((translation_args row).read from.old) }
{
    match row {
        Translation::Names => {
            let names = read_names(alloc, from)?;
            read_translated_sids(alloc, from, MOST_TRANSLATED_NAMES)?;
            let level = read_level(from)?;
            Ok(Args::LookNames { level, names })
        }
        Translation::Sids => {
            let sids = read_sid_list(alloc, from, MOST_TRANSLATED_SIDS)?;
            read_translated_names(alloc, from, MOST_TRANSLATED_SIDS)?;
            let level = read_level(from)?;
            Ok(Args::LookSids { level, sids })
        }
        Translation::Names2 => {
            let names = read_names(alloc, from)?;
            read_flagged_sids(alloc, from, MOST_TRANSLATED_NAMES)?;
            let level = read_later_level(from)?;
            Ok(Args::LookNames { level, names })
        }
        Translation::Sids2 => {
            let sids = read_sid_list(alloc, from, MOST_TRANSLATED_SIDS)?;
            read_flagged_names(alloc, from, MOST_TRANSLATED_SIDS)?;
            let level = read_later_level(from)?;
            Ok(Args::LookSids { level, sids })
        }
        Translation::Names3 => {
            let names = read_names(alloc, from)?;
            read_sid_refs(alloc, from, MOST_TRANSLATED_NAMES)?;
            let level = read_later_level(from)?;
            Ok(Args::LookNames { level, names })
        }
    }
}

#[tactic(auto, using(crate::proofs::Asked::names_asked), unfolding(crate::specs::Arguments::translation_args))]
fn write_sought(to: &mut Out, row: Translation, args: &Args) -> Result<(), NoMemory>
    requires { (translation_args row).Fits args.now }
    ensures { OnOk result (to.new ≡ (translation_args row).write args.now to.old) }
{
    match (row, args) {
        (Translation::Names, Args::LookNames { level, names }) => {
            write_counted(to, names.as_slice())?;
            write_no_entries(to)?;
            write_level(to, *level)
        }
        (Translation::Sids, Args::LookSids { level, sids }) => {
            write_sid_list(to, sids)?;
            write_no_entries(to)?;
            write_level(to, *level)
        }
        (Translation::Names2, Args::LookNames { level, names }) => {
            write_counted(to, names.as_slice())?;
            write_no_entries(to)?;
            write_later_level(to, *level)
        }
        (Translation::Sids2, Args::LookSids { level, sids }) => {
            write_sid_list(to, sids)?;
            write_no_entries(to)?;
            write_later_level(to, *level)
        }
        (Translation::Names3, Args::LookNames { level, names }) => {
            write_counted(to, names.as_slice())?;
            write_no_entries(to)?;
            write_later_level(to, *level)
        }
        _ => unreachable!(),
    }
}

/// What stands in a stub after the handle.
#[tactic(auto, unfolding(crate::specs::Arguments::own_fields))]
pub fn read_fields(alloc: Global, from: &mut In<'_>, fields: Fields) -> Result<Args, NdrError>
    ensures { ReadsIfRoom result from.new ((own_fields fields).read from.old) }
{
    match fields {
        Fields::Connect(row) => read_connect(from, row),
        Fields::Policy(row) => read_policy(alloc, from, row),
        Fields::Translation(row) => read_sought(alloc, from, row),
        _ => Err(from.broken(0)),
    }
}

/// Writes what stands in a stub after the handle.
#[tactic(auto, unfolding(crate::specs::Arguments::own_fields))]
pub fn write_fields(to: &mut Out, fields: Fields, args: &Args) -> Result<(), NoMemory>
    requires { (own_fields fields).Fits args.now }
    ensures { OnOk result (to.new ≡ (own_fields fields).write args.now to.old) }
{
    match fields {
        Fields::Connect(row) => write_connect(to, row, args),
        Fields::Policy(row) => write_policy(to, row, args),
        Fields::Translation(row) => write_sought(to, row, args),
        _ => unreachable!(),
    }
}
