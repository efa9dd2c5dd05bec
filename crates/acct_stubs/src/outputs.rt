// The outputs of replies.
ghost use Rattle.std.specs.Prelude.{◌≡◌, OnOk};
ghost use Rattle.ndr_core.specs.Cursor.{Reads};
ghost use Rattle.ndr_core.specs.Shapes.{chain, given, u32};
ghost use Rattle.ndr_types.specs.Outcomes.{ReadsIfRoom};
ghost use Rattle.acct_stubs.specs.Outputs.{listed_outs, plain_outs, reply_stub, revision_answered, shown_outs};

use crate::NoMemory;
use crate::displayed::{read_displayed, write_displayed};
use crate::infos::{read_class_shown, write_class_shown};
use crate::interface::Interface;
use crate::members::{read_members, write_members};
use crate::numbers::read_wanted;
use crate::security::{read_security, write_security};
use acct_calls::{Outs, Reply, RidBits};
use acct_layouts::{Listed, Outputs, ScalarOutputs, Subject};
use ndr_core::{In, NdrError, Out};
use ndr_types::{
    read_handle, read_list, read_rid_list, read_rid_names, read_sid, read_sid_list, read_text_list,
    write_handle, write_list, write_rid_list, write_rid_names, write_sid, write_sid_list,
    write_text_list,
};
use std::alloc::Global;

#[tactic(auto, unfolding(crate::specs::Outputs::revision_answered))]
fn read_revision(from: &mut In<'_>) -> Result<(), NdrError>
    ensures { Reads result from.new (revision_answered.read from.old) }
{
    read_wanted(from, 1)?;
    read_wanted(from, 1)?;
    read_wanted(from, 3)?;
    read_wanted(from, 0)?;
    Ok(())
}

#[tactic(auto, unfolding(crate::specs::Outputs::revision_answered))]
fn write_revision(to: &mut Out) -> Result<(), NoMemory>
    ensures { OnOk result (to.new ≡ revision_answered.write tt to.old) }
{
    to.u32(1)?;
    to.u32(1)?;
    to.u32(3)?;
    to.u32(0)
}

#[tactic(auto, unfolding(crate::specs::Outputs::plain_outs))]
fn read_scalars(from: &mut In<'_>, layout: ScalarOutputs) -> Result<Outs, NdrError>
    ensures { Reads result from.new ((plain_outs layout).read from.old) }
{
    match layout {
        ScalarOutputs::Nothing => Ok(Outs::Nothing),
        ScalarOutputs::Handle | ScalarOutputs::HandleBack => read_handle(from).map(Outs::Handle),
        ScalarOutputs::Connected => {
            read_revision(from)?;
            read_handle(from).map(Outs::Handle)
        }
        ScalarOutputs::Created => {
            let handle = read_handle(from)?;
            let rid = from.u32()?;
            Ok(Outs::Created {
                handle,
                granted: 0,
                rid,
            })
        }
        ScalarOutputs::Granted => {
            let handle = read_handle(from)?;
            let granted = from.u32()?;
            let rid = from.u32()?;
            Ok(Outs::Created {
                handle,
                granted,
                rid,
            })
        }
        ScalarOutputs::Sid => {
            if !from.pointer()? {
                return Ok(Outs::OneSid(None));
            }
            let sid = read_sid(from)?;
            Ok(Outs::OneSid(Some(sid)))
        }
    }
}

#[tactic(auto, unfolding(crate::specs::Outputs::plain_outs))]
fn write_scalars(to: &mut Out, layout: ScalarOutputs, outs: &Outs) -> Result<(), NoMemory>
    requires { (plain_outs layout).Fits outs.now }
    ensures { OnOk result (to.new ≡ (plain_outs layout).write outs.now to.old) }
{
    match (layout, outs) {
        (ScalarOutputs::Nothing, Outs::Nothing) => Ok(()),
        (ScalarOutputs::Handle, Outs::Handle(handle)) => write_handle(to, handle),
        (ScalarOutputs::HandleBack, Outs::Handle(handle)) => write_handle(to, handle),
        (ScalarOutputs::Connected, Outs::Handle(handle)) => {
            write_revision(to)?;
            write_handle(to, handle)
        }
        (ScalarOutputs::Created, Outs::Created { handle, rid, .. }) => {
            write_handle(to, handle)?;
            to.u32(*rid)
        }
        (
            ScalarOutputs::Granted,
            Outs::Created {
                handle,
                granted,
                rid,
            },
        ) => {
            write_handle(to, handle)?;
            to.u32(*granted)?;
            to.u32(*rid)
        }
        (ScalarOutputs::Sid, Outs::OneSid(None)) => to.pointer(false),
        (ScalarOutputs::Sid, Outs::OneSid(Some(sid))) => {
            to.pointer(true)?;
            write_sid(to, sid)
        }
        _ => unreachable!(),
    }
}

#[tactic(auto, unfolding(crate::specs::Outputs::listed_outs))]
fn read_listed(alloc: Global, from: &mut In<'_>, layout: Listed) -> Result<Outs, NdrError>
    ensures { ReadsIfRoom result from.new ((listed_outs layout).read from.old) }
{
    match layout {
        Listed::Page => {
            let context = from.u32()?;
            let entries = read_rid_names(alloc, from)?;
            from.u32()?;
            Ok(Outs::Page { context, entries })
        }
        Listed::Rids => {
            let rids = read_rid_list(alloc, from, u32::MAX)?;
            Ok(Outs::RidList(rids))
        }
        Listed::RidUses => {
            let rids = read_rid_list(alloc, from, u32::MAX)?;
            let uses = read_rid_list(alloc, from, u32::MAX)?;
            Ok(Outs::RidUses { rids, uses })
        }
        Listed::NameUses => {
            let names = read_text_list(alloc, from, u32::MAX)?;
            let uses = read_rid_list(alloc, from, u32::MAX)?;
            Ok(Outs::NameUses { names, uses })
        }
        Listed::Groups => {
            if !from.pointer()? {
                return Ok(Outs::Pairs(None));
            }
            let pairs = read_list::<RidBits>(alloc, from, u32::MAX)?;
            Ok(Outs::Pairs(Some(pairs)))
        }
        Listed::Members => {
            let members = read_members(alloc, from)?;
            Ok(Outs::Pairs(members))
        }
        Listed::Sids => {
            let sids = read_sid_list(alloc, from, u32::MAX)?;
            Ok(Outs::SidList(sids))
        }
        Listed::Display => {
            let total = from.u32()?;
            let returned = from.u32()?;
            let (class, entries) = read_displayed(alloc, from)?;
            Ok(Outs::Display {
                class,
                total,
                returned,
                entries,
            })
        }
    }
}

#[tactic(auto, using(crate::proofs::Asked::listed_asked), unfolding(crate::specs::Outputs::listed_outs))]
fn write_listed(to: &mut Out, layout: Listed, outs: &Outs) -> Result<(), NoMemory>
    requires { (listed_outs layout).Fits outs.now }
    ensures { OnOk result (to.new ≡ (listed_outs layout).write outs.now to.old) }
{
    match (layout, outs) {
        (Listed::Page, Outs::Page { context, entries }) => {
            to.u32(*context)?;
            write_rid_names(to, entries.as_ref())?;
            let count = match entries {
                Some(entries) => entries.as_slice().len(),
                None => 0,
            };
            to.u32(count as u32)
        }
        (Listed::Rids, Outs::RidList(rids)) => write_rid_list(to, rids),
        (Listed::RidUses, Outs::RidUses { rids, uses }) => {
            write_rid_list(to, rids)?;
            write_rid_list(to, uses)
        }
        (Listed::NameUses, Outs::NameUses { names, uses }) => {
            write_text_list(to, names)?;
            write_rid_list(to, uses)
        }
        (Listed::Groups, Outs::Pairs(None)) => to.pointer(false),
        (Listed::Groups, Outs::Pairs(Some(pairs))) => {
            to.pointer(true)?;
            write_list(to, pairs.as_slice())
        }
        (Listed::Members, Outs::Pairs(members)) => write_members(to, members),
        (Listed::Sids, Outs::SidList(sids)) => write_sid_list(to, sids),
        (
            Listed::Display,
            Outs::Display {
                class,
                total,
                returned,
                entries,
            },
        ) => {
            to.u32(*total)?;
            to.u32(*returned)?;
            write_displayed(to, *class, entries)
        }
        _ => unreachable!(),
    }
}

#[tactic(auto, unfolding(crate::specs::Outputs::shown_outs))]
fn read_shown(alloc: Global, from: &mut In<'_>, subject: Subject) -> Result<Outs, NdrError>
    ensures { ReadsIfRoom result from.new ((shown_outs subject).read from.old) }
{
    let (class, value) = read_class_shown(alloc, from, subject)?;
    Ok(Outs::Shown { class, value })
}

#[tactic(auto, unfolding(crate::specs::Outputs::shown_outs))]
fn write_shown(to: &mut Out, subject: Subject, outs: &Outs) -> Result<(), NoMemory>
    requires { (shown_outs subject).Fits outs.now }
    ensures { OnOk result (to.new ≡ (shown_outs subject).write outs.now to.old) }
{
    let Outs::Shown { class, value } = outs else {
        unreachable!()
    };
    write_class_shown(to, subject, *class, value)
}

/// A value that was read, and the number after it.
fn with_number<T: Drop>(from: &mut In<'_>, value: T) -> Result<(T, u32), NdrError>
    ensures { Reads result from.new ((chain (given value) (λ _. u32)).read from.old) }
{
    let number = from.u32()?;
    Ok((value, number))
}

/// A whole reply: the outputs and the status.
#[tactic(auto, unfolding(crate::specs::Outputs::reply_stub, crate::specs::Outputs::with_status))]
pub fn read_done<I: Interface>(
    alloc: Global,
    from: &mut In<'_>,
    outputs: Outputs,
) -> Result<Reply, NdrError>
    ensures { ReadsIfRoom result from.new ((reply_stub I.wire outputs).read from.old) }
{
    let outs = match outputs {
        Outputs::Scalar(plain) => read_scalars(from, plain)?,
        Outputs::Listed(listed) => read_listed(alloc, from, listed)?,
        Outputs::Shown(subject) => read_shown(alloc, from, subject)?,
        Outputs::Security => read_security(alloc, from)?,
        Outputs::Policy(_) => return I::read_reply(alloc, from, outputs),
        Outputs::Translation(_) => return I::read_reply(alloc, from, outputs),
    };
    let (outs, status) = with_number(from, outs)?;
    Ok(Reply::Done { status, outs })
}

/// Writes a whole reply.
#[tactic(auto, unfolding(crate::specs::Outputs::reply_stub, crate::specs::Outputs::with_status))]
pub fn write_done<I: Interface>(
    to: &mut Out,
    outputs: Outputs,
    reply: &Reply,
) -> Result<(), NoMemory>
    requires { (reply_stub I.wire outputs).Fits reply.now }
    ensures { OnOk result (to.new ≡ (reply_stub I.wire outputs).write reply.now to.old) }
{
    match outputs {
        Outputs::Policy(_) => return I::write_reply(to, outputs, reply),
        Outputs::Translation(_) => return I::write_reply(to, outputs, reply),
        _ => (),
    }
    let Reply::Done { status, outs } = reply else {
        unreachable!()
    };
    match outputs {
        Outputs::Scalar(plain) => write_scalars(to, plain, outs)?,
        Outputs::Listed(listed) => write_listed(to, listed, outs)?,
        Outputs::Shown(subject) => write_shown(to, subject, outs)?,
        Outputs::Security => write_security(to, outs)?,
        _ => unreachable!(),
    }
    to.u32(*status)
}
