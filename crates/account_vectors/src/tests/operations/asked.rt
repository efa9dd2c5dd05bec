// The object of a handle, and the arguments: an arm of `Args` and its fields.
use super::brought::{self, first_sids, names_behind, sids_behind};
use super::parts::{domain_at, field, name_at, name_of, number_at, part};
use crate::tests::words::number;
use acct_base::Seq;
use acct_calls::{Args, Info, Name, Names, NoMemory, Rids, Sids};
use acct_rows::Object;
use dtyp_sid::parse_text;
use std::alloc::Global;
use std::test::Fail;

/// The object of a handle.
pub fn object_of(text: &str) -> Result<Object, Fail> {
    let first = number_at(text, 1);
    Ok(match part(text, ',', 0) {
        "domain" => Object::Domain(domain_at(text, 1)),
        "user" => Object::User(first),
        "group" => Object::Group(first),
        "alias" => Object::Alias(domain_at(text, 1), number_at(text, 2)),
        "policy" => Object::Policy,
        "account" => Object::Account(parse_text(field(text, 1))?),
        _ => Object::Server,
    })
}

fn names_of(alloc: Global, fields: &str) -> Result<Names, NoMemory> {
    match fields {
        "" => Ok(Names::new(alloc)),
        _ => names_behind(alloc, fields, 0),
    }
}

fn rids_of(alloc: Global, fields: &str) -> Result<Rids, NoMemory> {
    let mut rids = Seq::new(alloc);
    for text in fields.split_terminator(',') {
        rids.push(number(text))?;
    }
    Ok(rids)
}

fn sids_of(alloc: Global, fields: &str) -> Result<Sids, Fail> {
    match fields {
        "" => Ok(Seq::new(alloc)),
        _ => sids_behind(alloc, fields, 0),
    }
}

fn class_of(fields: &str) -> u16 {
    field(fields, 0).parse::<u16>().ok().unwrap_or(0)
}

fn value_of(alloc: Global, kind: &str, text: &str) -> Result<Info, NoMemory> {
    Ok(match kind {
        "Number" => Info::Number(number(text)),
        "Text" => Info::Text(name_of(alloc, text)?),
        _ => Info::Unserved,
    })
}

/// Arguments that are lists.
fn list_of(alloc: Global, kind: &str, fields: &str) -> Result<Args, Fail> {
    Ok(match kind {
        "NameList" => Args::NameList(names_of(alloc, fields)?),
        "RidList" => Args::RidList(rids_of(alloc, fields)?),
        "SidList" => Args::SidList(sids_of(alloc, fields)?),
        "FirstSids" => Args::SidList(first_sids(alloc, field(fields, 0), number_at(fields, 1))?),
        _ => brought::args_of(alloc, kind, fields)?,
    })
}

fn access_sid_of(fields: &str) -> Result<Args, Fail> {
    Ok(Args::AccessSid {
        access: number_at(fields, 0),
        sid: parse_text(field(fields, 1))?,
    })
}

fn make_of(alloc: Global, fields: &str) -> Result<Args, Fail> {
    Ok(Args::Make {
        name: name_at(alloc, fields, 0)?,
        bits: number_at(fields, 1),
        access: number_at(fields, 2),
    })
}

fn put_of(alloc: Global, fields: &str) -> Result<Args, Fail> {
    Ok(Args::Put {
        class: class_of(fields),
        value: value_of(alloc, field(fields, 1), field(fields, 2))?,
    })
}

/// Arguments with a name, a SID or a value.
fn named_of(alloc: Global, kind: &str, fields: &str) -> Result<Args, Fail> {
    match kind {
        "OneName" => Ok(Args::OneName(Some(Name::from_text(alloc, fields)?))),
        "OneSid" => Ok(Args::OneSid(parse_text(fields)?)),
        "AccessSid" => access_sid_of(fields),
        "Make" => make_of(alloc, fields),
        "Put" => put_of(alloc, fields),
        _ => list_of(alloc, kind, fields),
    }
}

/// The arguments of a call; those that are numbers stand here.
pub fn args_of(alloc: Global, kind: &str, fields: &str) -> Result<Args, Fail> {
    let first = number_at(fields, 0);
    let second = number_at(fields, 1);
    match kind {
        "Rid" => Ok(Args::Rid(first)),
        "RidBits" => Ok(Args::RidBits {
            rid: first,
            bits: second,
        }),
        "Class" => Ok(Args::Class(class_of(fields))),
        "AccessRid" => Ok(Args::AccessRid {
            access: first,
            rid: second,
        }),
        "Page" => Ok(Args::Page {
            context: first,
            filter: second,
            preferred: number_at(fields, 2),
        }),
        "Display" => Ok(Args::Display {
            class: class_of(fields),
            index: second,
            count: number_at(fields, 2),
            preferred: number_at(fields, 3),
        }),
        _ => named_of(alloc, kind, fields),
    }
}
