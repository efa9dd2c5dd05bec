// Replies that this interface has alone.
ghost use Rattle.std.specs.Prelude.{◌≡◌, OnOk};
ghost use Rattle.std.specs.Option.{option_copied};
ghost use Rattle.lsa_wire.specs.Interface.{names_done, own_replies, policy_outs, referred_of, refs_done, sids_done};
ghost use Rattle.lsa_wire.specs.Interface.{translated};
ghost use Rattle.acct_stubs.specs.Outputs.{with_status};
ghost use Rattle.ndr_types.specs.Translations.{or_empty};
ghost use Rattle.ndr_types.specs.Outcomes.{ReadsIfRoom};

use crate::NoMemory;
use acct_base::Seq;
use acct_calls::{NamedList, Outs, Places, Reply, SidRefs, Translated};
use acct_layouts::{Outputs, PolicyOutputs, Translation, is_refusal};
use ndr_core::{In, NdrError, Out};
use ndr_types::{
    read_flagged_names, read_flagged_sids, read_privilege_names, read_privilege_set_pointer,
    read_referenced_pointer, read_sid_list, read_sid_refs, read_text_list, read_text_pointer,
    read_translated_names, read_translated_sids, write_flagged_names, write_flagged_sids,
    write_privilege_names, write_privilege_set_pointer, write_referenced, write_sid_list,
    write_sid_refs, write_text_list, write_text_pointer, write_translated_names,
    write_translated_sids,
};
use std::alloc::Global;

#[tactic(auto, unfolding(crate::specs::Interface::policy_outs))]
fn read_policy(alloc: Global, from: &mut In<'_>, row: PolicyOutputs) -> Result<Outs, NdrError>
    ensures { ReadsIfRoom result from.new ((policy_outs row).read from.old) }
{
    match row {
        PolicyOutputs::PrivilegePage => {
            let context = from.u32()?;
            let entries = read_privilege_names(alloc, from)?;
            Ok(Outs::PrivilegePage { context, entries })
        }
        PolicyOutputs::SidPage => {
            let context = from.u32()?;
            let sids = read_sid_list(alloc, from, u32::MAX)?;
            Ok(Outs::SidPage { context, sids })
        }
        PolicyOutputs::Privileges => {
            let privileges = read_privilege_set_pointer(alloc, from)?;
            Ok(Outs::Privileges(privileges))
        }
        PolicyOutputs::SystemAccess => {
            let bits = from.u32()?;
            Ok(Outs::Bits(bits))
        }
        PolicyOutputs::Luid => {
            let low = from.u32()?;
            let high = from.u32()?;
            Ok(Outs::Luid { low, high })
        }
        PolicyOutputs::Name => {
            let name = read_text_pointer(alloc, from)?;
            Ok(Outs::OneName(name))
        }
        PolicyOutputs::Rights => {
            let names = read_text_list(alloc, from, u32::MAX)?;
            Ok(Outs::NameList(names))
        }
    }
}

#[tactic(auto, using(crate::proofs::Asked::policy_outs_asked), unfolding(crate::specs::Interface::policy_outs))]
fn write_policy(to: &mut Out, row: PolicyOutputs, outs: &Outs) -> Result<(), NoMemory>
    requires { (policy_outs row).Fits outs.now }
    ensures { OnOk result (to.new ≡ (policy_outs row).write outs.now to.old) }
{
    match (row, outs) {
        (PolicyOutputs::PrivilegePage, Outs::PrivilegePage { context, entries }) => {
            to.u32(*context)?;
            write_privilege_names(to, entries)
        }
        (PolicyOutputs::SidPage, Outs::SidPage { context, sids }) => {
            to.u32(*context)?;
            write_sid_list(to, sids)
        }
        (PolicyOutputs::Privileges, Outs::Privileges(privileges)) => {
            write_privilege_set_pointer(to, privileges.as_ref())
        }
        (PolicyOutputs::SystemAccess, Outs::Bits(bits)) => to.u32(*bits),
        (PolicyOutputs::Luid, Outs::Luid { low, high }) => {
            to.u32(*low)?;
            to.u32(*high)
        }
        (PolicyOutputs::Name, Outs::OneName(name)) => write_text_pointer(to, name.as_ref()),
        (PolicyOutputs::Rights, Outs::NameList(names)) => write_text_list(to, names),
        _ => unreachable!(),
    }
}

#[tactic(auto, unfolding(acct_stubs::specs::Outputs::with_status))]
fn read_outputs(alloc: Global, from: &mut In<'_>, row: PolicyOutputs) -> Result<Reply, NdrError>
    ensures { ReadsIfRoom result from.new ((with_status (policy_outs row)).read from.old) }
{
    let outs = read_policy(alloc, from, row)?;
    match from.u32() {
        Ok(status) => Ok(Reply::Done { status, outs }),
        Err(error) => {
            drop(outs);
            Err(error)
        }
    }
}

#[tactic(auto, unfolding(acct_stubs::specs::Outputs::with_status))]
fn write_outputs(to: &mut Out, row: PolicyOutputs, reply: &Reply) -> Result<(), NoMemory>
    requires { (with_status (policy_outs row)).Fits reply.now }
    ensures { OnOk result (to.new ≡ (with_status (policy_outs row)).write reply.now to.old) }
{
    let Reply::Done { status, outs } = reply else {
        unreachable!()
    };
    write_policy(to, row, outs)?;
    to.u32(*status)
}

/// The domains that are there, or none.
fn domains_of(alloc: Global, list: Option<Places>) -> Places
    ensures { result ≡ or_empty list }
{
    match list {
        Some(domains) => domains,
        None => Seq::new(alloc),
    }
}

/// A refusal refers to no domain, and has a null pointer.
fn referred(status: u32, domains: &Places) -> Option<&Places>
    ensures { option_copied result ≡ referred_of status domains.now }
{
    if is_refusal(status) {
        return None;
    }
    Some(domains)
}

fn sids_done(
    alloc: Global,
    list: Option<Places>,
    entries: Translated,
    mapped: u32,
    status: u32,
) -> Reply
    ensures { result ≡ sids_done (list, (entries, (mapped, status))) }
{
    let domains = domains_of(alloc, list);
    Reply::Done {
        status,
        outs: Outs::Sids {
            domains,
            entries,
            mapped,
        },
    }
}

fn names_done(
    alloc: Global,
    list: Option<Places>,
    entries: NamedList,
    mapped: u32,
    status: u32,
) -> Reply
    ensures { result ≡ names_done (list, (entries, (mapped, status))) }
{
    let domains = domains_of(alloc, list);
    Reply::Done {
        status,
        outs: Outs::Names {
            domains,
            entries,
            mapped,
        },
    }
}

fn refs_done(
    alloc: Global,
    list: Option<Places>,
    entries: SidRefs,
    mapped: u32,
    status: u32,
) -> Reply
    ensures { result ≡ refs_done (list, (entries, (mapped, status))) }
{
    let domains = domains_of(alloc, list);
    Reply::Done {
        status,
        outs: Outs::SidRefs {
            domains,
            entries,
            mapped,
        },
    }
}

#[tactic(auto, unfolding(crate::specs::Interface::translated))]
fn read_translated(alloc: Global, from: &mut In<'_>, row: Translation) -> Result<Reply, NdrError>
    ensures { ReadsIfRoom result from.new ((translated row).read from.old) }
{
    let list = read_referenced_pointer(alloc, from)?;
    match row {
        Translation::Names => {
            let entries = read_translated_sids(alloc, from, u32::MAX)?;
            let mapped = from.u32()?;
            let status = from.u32()?;
            Ok(sids_done(alloc, list, entries, mapped, status))
        }
        Translation::Sids => {
            let entries = read_translated_names(alloc, from, u32::MAX)?;
            let mapped = from.u32()?;
            let status = from.u32()?;
            Ok(names_done(alloc, list, entries, mapped, status))
        }
        Translation::Names2 => {
            let entries = read_flagged_sids(alloc, from, u32::MAX)?;
            let mapped = from.u32()?;
            let status = from.u32()?;
            Ok(sids_done(alloc, list, entries, mapped, status))
        }
        Translation::Sids2 => {
            let entries = read_flagged_names(alloc, from, u32::MAX)?;
            let mapped = from.u32()?;
            let status = from.u32()?;
            Ok(names_done(alloc, list, entries, mapped, status))
        }
        Translation::Names3 => {
            let entries = read_sid_refs(alloc, from, u32::MAX)?;
            let mapped = from.u32()?;
            let status = from.u32()?;
            Ok(refs_done(alloc, list, entries, mapped, status))
        }
    }
}

#[tactic(auto, using(crate::proofs::Asked::translated_asked), unfolding(crate::specs::Interface::translated))]
fn write_translated(to: &mut Out, row: Translation, reply: &Reply) -> Result<(), NoMemory>
    requires { (translated row).Fits reply.now }
    ensures { OnOk result (to.new ≡ (translated row).write reply.now to.old) }
{
    let Reply::Done { status, outs } = reply else {
        unreachable!()
    };
    match (row, outs) {
        (
            Translation::Names,
            Outs::Sids {
                domains,
                entries,
                mapped,
            },
        ) => {
            write_referenced(to, referred(*status, domains))?;
            write_translated_sids(to, entries)?;
            to.u32(*mapped)?;
            to.u32(*status)
        }
        (
            Translation::Sids,
            Outs::Names {
                domains,
                entries,
                mapped,
            },
        ) => {
            write_referenced(to, referred(*status, domains))?;
            write_translated_names(to, entries)?;
            to.u32(*mapped)?;
            to.u32(*status)
        }
        (
            Translation::Names2,
            Outs::Sids {
                domains,
                entries,
                mapped,
            },
        ) => {
            write_referenced(to, referred(*status, domains))?;
            write_flagged_sids(to, entries)?;
            to.u32(*mapped)?;
            to.u32(*status)
        }
        (
            Translation::Sids2,
            Outs::Names {
                domains,
                entries,
                mapped,
            },
        ) => {
            write_referenced(to, referred(*status, domains))?;
            write_flagged_names(to, entries)?;
            to.u32(*mapped)?;
            to.u32(*status)
        }
        (
            Translation::Names3,
            Outs::SidRefs {
                domains,
                entries,
                mapped,
            },
        ) => {
            write_referenced(to, referred(*status, domains))?;
            write_sid_refs(to, entries)?;
            to.u32(*mapped)?;
            to.u32(*status)
        }
        _ => unreachable!(),
    }
}

/// A reply of a layout that this interface has alone.
#[tactic(auto, unfolding(crate::specs::Interface::own_replies))]
pub fn read_own(alloc: Global, from: &mut In<'_>, outputs: Outputs) -> Result<Reply, NdrError>
    ensures { ReadsIfRoom result from.new ((own_replies outputs).read from.old) }
{
    match outputs {
        Outputs::Policy(row) => read_outputs(alloc, from, row),
        Outputs::Translation(row) => read_translated(alloc, from, row),
        _ => Err(from.broken(0)),
    }
}

/// Writes a reply of a layout that this interface has alone.
#[tactic(auto, unfolding(crate::specs::Interface::own_replies))]
pub fn write_own(to: &mut Out, outputs: Outputs, reply: &Reply) -> Result<(), NoMemory>
    requires { (own_replies outputs).Fits reply.now }
    ensures { OnOk result (to.new ≡ (own_replies outputs).write reply.now to.old) }
{
    match outputs {
        Outputs::Policy(row) => write_outputs(to, row, reply),
        Outputs::Translation(row) => write_translated(to, row, reply),
        _ => unreachable!(),
    }
}
