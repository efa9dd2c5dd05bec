// The fields of calls after their handles.
ghost use Rattle.std.specs.Prelude.{◌≡◌, All, OnOk};
ghost use Rattle.acct_stubs.specs.Arguments.{arguments, plain_args, searched, sought};
ghost use Rattle.ndr_types.specs.Outcomes.{ReadsIfRoom};

use crate::NoMemory;
use crate::infos::{read_class_set, write_class_set};
use crate::interface::Interface;
use crate::numbers::read_wanted;
use crate::security::{read_security_args, write_security_args};
use acct_base::Seq;
use acct_calls::{Args, Names};
use acct_codes::limit::{MOST_MEMBER_SIDS, MOST_SEARCHED};
use acct_layouts::{Fields, ScalarFields, Search};
use ndr_core::{In, NdrError, Out};
use ndr_types::{
    Embedded, read_array, read_sid, read_sid_list, read_text, write_heads, write_sid,
    write_sid_list, write_tails, write_text,
};
use std::alloc::Global;

#[tactic(auto, unfolding(crate::specs::Arguments::plain_args))]
fn read_plain(alloc: Global, from: &mut In<'_>, layout: ScalarFields) -> Result<Args, NdrError>
    ensures { ReadsIfRoom result from.new ((plain_args layout).read from.old) }
{
    match layout {
        ScalarFields::Nothing => Ok(Args::Nothing),
        ScalarFields::Rid => from.u32().map(Args::Rid),
        ScalarFields::Member => {
            let rid = from.u32()?;
            let bits = from.u32()?;
            Ok(Args::RidBits { rid, bits })
        }
        ScalarFields::Sid => read_sid(from).map(Args::OneSid),
        ScalarFields::Name => {
            let name = read_text(alloc, from)?;
            Ok(Args::OneName(Some(name)))
        }
        ScalarFields::OpenDomain => {
            let access = from.u32()?;
            let sid = read_sid(from)?;
            Ok(Args::AccessSid { access, sid })
        }
        ScalarFields::OpenAccount => {
            let access = from.u32()?;
            let rid = from.u32()?;
            Ok(Args::AccessRid { access, rid })
        }
    }
}

#[tactic(auto, using(crate::proofs::Asked::short_text), unfolding(crate::specs::Arguments::plain_args))]
fn write_plain(to: &mut Out, layout: ScalarFields, args: &Args) -> Result<(), NoMemory>
    requires { (plain_args layout).Fits args.now }
    ensures { OnOk result (to.new ≡ (plain_args layout).write args.now to.old) }
{
    match (layout, args) {
        (ScalarFields::Nothing, Args::Nothing) => Ok(()),
        (ScalarFields::Rid, Args::Rid(rid)) => to.u32(*rid),
        (ScalarFields::Member, Args::RidBits { rid, bits }) => {
            to.u32(*rid)?;
            to.u32(*bits)
        }
        (ScalarFields::Sid, Args::OneSid(sid)) => write_sid(to, sid),
        (ScalarFields::Name, Args::OneName(Some(name))) => write_text(to, name),
        (ScalarFields::OpenDomain, Args::AccessSid { access, sid }) => {
            to.u32(*access)?;
            write_sid(to, sid)
        }
        (ScalarFields::OpenAccount, Args::AccessRid { access, rid }) => {
            to.u32(*access)?;
            to.u32(*rid)
        }
        _ => unreachable!(),
    }
}

/// A count of at most 1,000, and a conformant varying array of so many.
#[tactic(auto, unfolding(crate::specs::Arguments::sought))]
fn read_sought<X: Embedded>(alloc: Global, from: &mut In<'_>) -> Result<Seq<X>, NdrError>
    ensures { ReadsIfRoom result from.new ((sought X.part).read from.old) }
{
    let count = from.u32()?;
    if count > MOST_SEARCHED {
        return Err(from.broken(4));
    }
    let maximum = from.conformant()?;
    if count > maximum {
        return Err(from.broken(4));
    }
    read_wanted(from, 0)?;
    read_wanted(from, count)?;
    read_array(alloc, from, count)
}

#[tactic(auto, using(crate::proofs::Asked::sought_count), unfolding(crate::specs::Arguments::sought))]
fn write_sought<X: Embedded>(to: &mut Out, values: &[X]) -> Result<(), NoMemory>
    requires fits { (sought X.part).Fits values.now }
    requires bounded { All X.Bounded values.now }
    ensures { OnOk result (to.new ≡ (sought X.part).write values.now to.old) }
{
    let count = values.len() as u32;
    to.u32(count)?;
    to.conformant(MOST_SEARCHED)?;
    to.u32(0)?;
    to.u32(count)?;
    write_heads(to, values)?;
    write_tails(to, values)
}

#[tactic(auto, unfolding(crate::specs::Arguments::searched))]
fn read_searched(alloc: Global, from: &mut In<'_>, layout: Search) -> Result<Args, NdrError>
    ensures { ReadsIfRoom result from.new ((searched layout).read from.old) }
{
    match layout {
        Search::Page => {
            let context = from.u32()?;
            let preferred = from.u32()?;
            Ok(Args::Page {
                context,
                filter: 0,
                preferred,
            })
        }
        Search::FilteredPage => {
            let context = from.u32()?;
            let filter = from.u32()?;
            let preferred = from.u32()?;
            Ok(Args::Page {
                context,
                filter,
                preferred,
            })
        }
        Search::Sids => read_sid_list(alloc, from, MOST_MEMBER_SIDS).map(Args::SidList),
        Search::Names => {
            let names = read_sought(alloc, from)?;
            Ok(Args::NameList(Names::from_vec(names.into_vec())))
        }
        Search::Rids => read_sought(alloc, from).map(Args::RidList),
        Search::Display => {
            let class = from.u16()?;
            let index = from.u32()?;
            let count = from.u32()?;
            let preferred = from.u32()?;
            Ok(Args::Display {
                class,
                index,
                count,
                preferred,
            })
        }
    }
}

#[tactic(auto, using(crate::proofs::Asked::searched_asked), unfolding(crate::specs::Arguments::searched))]
fn write_searched(to: &mut Out, layout: Search, args: &Args) -> Result<(), NoMemory>
    requires { (searched layout).Fits args.now }
    ensures { OnOk result (to.new ≡ (searched layout).write args.now to.old) }
{
    match (layout, args) {
        (
            Search::Page,
            Args::Page {
                context,
                preferred,
                ..
            },
        ) => {
            to.u32(*context)?;
            to.u32(*preferred)
        }
        (
            Search::FilteredPage,
            Args::Page {
                context,
                filter,
                preferred,
            },
        ) => {
            to.u32(*context)?;
            to.u32(*filter)?;
            to.u32(*preferred)
        }
        (Search::Sids, Args::SidList(sids)) => write_sid_list(to, sids),
        (Search::Names, Args::NameList(names)) => write_sought(to, names.as_slice()),
        (Search::Rids, Args::RidList(rids)) => write_sought(to, rids.as_slice()),
        (
            Search::Display,
            Args::Display {
                class,
                index,
                count,
                preferred,
            },
        ) => {
            to.u16(*class)?;
            to.u32(*index)?;
            to.u32(*count)?;
            to.u32(*preferred)
        }
        _ => unreachable!(),
    }
}

/// What stands in a stub after the handle.
#[tactic(auto, unfolding(crate::specs::Arguments::arguments))]
pub fn read_arguments<I: Interface>(
    alloc: Global,
    from: &mut In<'_>,
    fields: Fields,
) -> Result<Args, NdrError>
    ensures { ReadsIfRoom result from.new ((arguments I.wire fields).read from.old) }
{
    match fields {
        Fields::Scalar(plain) => read_plain(alloc, from, plain),
        Fields::Search(search) => read_searched(alloc, from, search),
        Fields::Class(_) => {
            let class = from.u16()?;
            Ok(Args::Class(class))
        }
        Fields::Put(subject) => {
            let (class, value) = read_class_set(alloc, from, subject)?;
            Ok(Args::Put { class, value })
        }
        Fields::Security(security) => read_security_args(alloc, from, security),
        Fields::Connect(_) => I::read_fields(alloc, from, fields),
        Fields::Creation(_) => I::read_fields(alloc, from, fields),
        Fields::Policy(_) => I::read_fields(alloc, from, fields),
        Fields::Translation(_) => I::read_fields(alloc, from, fields),
    }
}

/// Writes what stands in a stub after the handle.
#[tactic(auto, unfolding(crate::specs::Arguments::arguments))]
pub fn write_arguments<I: Interface>(
    to: &mut Out,
    fields: Fields,
    args: &Args,
) -> Result<(), NoMemory>
    requires { (arguments I.wire fields).Fits args.now }
    ensures { OnOk result (to.new ≡ (arguments I.wire fields).write args.now to.old) }
{
    match fields {
        Fields::Scalar(plain) => write_plain(to, plain, args),
        Fields::Search(search) => write_searched(to, search, args),
        Fields::Class(_) => {
            let Args::Class(class) = args else {
                unreachable!()
            };
            to.u16(*class)
        }
        Fields::Put(subject) => {
            let Args::Put { class, value } = args else {
                unreachable!()
            };
            write_class_set(to, subject, *class, value)
        }
        Fields::Security(security) => write_security_args(to, security, args),
        Fields::Connect(_) => I::write_fields(to, fields, args),
        Fields::Creation(_) => I::write_fields(to, fields, args),
        Fields::Policy(_) => I::write_fields(to, fields, args),
        Fields::Translation(_) => I::write_fields(to, fields, args),
    }
}
