// The arguments of a call on the policy or on a descriptor: an arm of `Args` and its fields.
use super::parts::{field, number_at};
use crate::tests::words::number;
use acct_base::Seq;
use acct_calls::{Args, Bytes, Name, Names, NoMemory, Privilege, PrivilegeSet, Sids};
use dtyp_sid::parse_text;
use std::alloc::Global;
use std::test::Fail;

/// The names after some fields.
pub fn names_behind(alloc: Global, fields: &str, places: usize) -> Result<Names, NoMemory> {
    let mut names = Names::new(alloc);
    for text in fields.split(',').skip(places) {
        names.push(Name::from_text(alloc, text)?)?;
    }
    Ok(names)
}

fn number_name(alloc: Global, number: u32) -> Result<Name, NoMemory> {
    let text = format!(in alloc; "{number}")?;
    Name::from_text(alloc, text.as_str())
}

/// The names `1`, `2` and so on, and a last one.
fn numbered_names(alloc: Global, count: u32, last: &str) -> Result<Names, NoMemory> {
    let mut names = Names::new(alloc);
    for number in 1..=count {
        names.push(number_name(alloc, number)?)?;
    }
    names.push(Name::from_text(alloc, last)?)?;
    Ok(names)
}

/// The SIDs after some fields.
pub fn sids_behind(alloc: Global, fields: &str, places: usize) -> Result<Sids, Fail> {
    let mut sids = Seq::new(alloc);
    for text in fields.split(',').skip(places) {
        sids.push(parse_text(text)?)?;
    }
    Ok(sids)
}

/// The SIDs of a domain with the RIDs from 1 on.
pub fn first_sids(alloc: Global, domain: &str, count: u32) -> Result<Sids, Fail> {
    let domain = parse_text(domain)?;
    let mut sids = Seq::new(alloc);
    for rid in 1..=count {
        if let Some(sid) = domain.with_rid(rid) {
            sids.push(sid)?;
        }
    }
    Ok(sids)
}

/// A privilege: the parts of its LUID, low and high, and its attributes.
fn privilege_of(text: &str) -> Privilege {
    let (low, rest) = text.split_once('/').unwrap_or((text, ""));
    let (high, attributes) = rest.split_once('/').unwrap_or((rest, ""));
    Privilege {
        low: number(low),
        high: number(high),
        attributes: number(attributes),
    }
}

/// The privileges after the first field.
fn set_behind(alloc: Global, fields: &str) -> Result<PrivilegeSet, NoMemory> {
    let mut set = Seq::new(alloc);
    for text in fields.split(',').skip(1) {
        set.push(privilege_of(text))?;
    }
    Ok(set)
}

/// `set` and privileges, `all`, `both` and privileges, or `neither`.
fn privileges_of(alloc: Global, fields: &str) -> Result<Args, NoMemory> {
    let first = field(fields, 0);
    let set = match first {
        "set" | "both" => Some(set_behind(alloc, fields)?),
        _ => None,
    };
    Ok(Args::Privileges {
        all: matches!(first, "all" | "both"),
        set,
    })
}

/// `some` or `all`, the SID of an account, and names.
fn rights_of(alloc: Global, fields: &str) -> Result<Args, Fail> {
    let sid = parse_text(field(fields, 1))?;
    Ok(Args::Rights {
        sid,
        all: field(fields, 0) == "all",
        names: names_behind(alloc, fields, 2)?,
    })
}

fn level_of(fields: &str) -> u16 {
    field(fields, 0).parse::<u16>().ok().unwrap_or(0)
}

/// The arguments of a translation, after their level.
fn looked_for(alloc: Global, kind: &str, fields: &str) -> Result<Args, Fail> {
    let level = level_of(fields);
    Ok(match kind {
        "LookNames" => Args::LookNames {
            level,
            names: names_behind(alloc, fields, 1)?,
        },
        "LookNumbered" => Args::LookNames {
            level,
            names: numbered_names(alloc, number_at(fields, 1), field(fields, 2))?,
        },
        "LookFirstSids" => Args::LookSids {
            level,
            sids: first_sids(alloc, field(fields, 1), number_at(fields, 2))?,
        },
        _ => Args::LookSids {
            level,
            sids: sids_behind(alloc, fields, 1)?,
        },
    })
}

/// The arguments of a call.
pub fn args_of(alloc: Global, kind: &str, fields: &str) -> Result<Args, Fail> {
    match kind {
        "Nothing" => Ok(Args::Nothing),
        "NoName" => Ok(Args::OneName(None)),
        "Luid" => Ok(Args::Luid {
            low: number_at(fields, 0),
            high: number_at(fields, 1),
        }),
        "Bits" => Ok(Args::Bits(number(fields))),
        "Security" => Ok(Args::Security {
            info: number_at(fields, 0),
            bytes: Bytes::new(hex::decode(alloc, field(fields, 1).as_bytes())?),
        }),
        "Privileges" => Ok(privileges_of(alloc, fields)?),
        "Rights" => rights_of(alloc, fields),
        _ => looked_for(alloc, kind, fields),
    }
}
