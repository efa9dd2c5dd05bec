// The rows that are added to the first ones.
use super::parts::{domain_at, field, name_at, number_at};
use crate::tests::puts::put;
use crate::tests::words::number;
use acct_base::Seq;
use acct_calls::{Name, NoMemory};
use acct_codes::Kind;
use acct_rows::{AccountRow, AliasRow, DomainRow, Held, LsaRow, MemberRow, Privileges, Row, Rows};
use dtyp_sid::parse_text;
use std::alloc::Global;
use std::test::Fail;

fn account_of(alloc: Global, kind: Kind, fields: &str) -> Result<AccountRow, NoMemory> {
    Ok(AccountRow {
        domain: domain_at(fields, 0),
        rid: number_at(fields, 1),
        kind,
        name: name_at(alloc, fields, 2)?,
        full_name: name_at(alloc, fields, 3)?,
        comment: name_at(alloc, fields, 4)?,
        bits: number_at(fields, 5),
        primary: number_at(fields, 6),
    })
}

fn domain_of(alloc: Global, fields: &str) -> Result<DomainRow, Fail> {
    Ok(DomainRow {
        number: domain_at(fields, 0),
        sid: parse_text(field(fields, 1))?,
        name: name_at(alloc, fields, 2)?,
        oem: name_at(alloc, fields, 3)?,
        next_rid: number_at(fields, 4),
    })
}

/// The privileges among the fields, each with its attributes.
fn held_of(alloc: Global, fields: &str) -> Result<Privileges, NoMemory> {
    let mut held = Seq::new(alloc);
    for privilege in fields.split(',') {
        if let Some((low, attributes)) = privilege.split_once('/') {
            held.push(Held {
                low: number(low),
                attributes: number(attributes),
            })?;
        }
    }
    Ok(held)
}

/// An account of the policy: its SID, its system access and its privileges.
fn lsa_of(alloc: Global, fields: &str) -> Result<LsaRow, Fail> {
    Ok(LsaRow {
        sid: parse_text(field(fields, 0))?,
        access: number_at(fields, 1),
        privileges: held_of(alloc, fields)?,
    })
}

fn member_of(fields: &str) -> MemberRow {
    MemberRow {
        group: number_at(fields, 0),
        user: number_at(fields, 1),
        attributes: number_at(fields, 2),
    }
}

fn alias_of(fields: &str) -> Result<AliasRow, Fail> {
    Ok(AliasRow {
        domain: domain_at(fields, 0),
        alias: number_at(fields, 1),
        member: parse_text(field(fields, 2))?,
    })
}

fn account_row(alloc: Global, kind: Kind, fields: &str) -> Result<Row, Fail> {
    Ok(Row::Account(account_of(alloc, kind, fields)?))
}

fn row_of(alloc: Global, kind: &str, fields: &str) -> Result<Row, Fail> {
    match kind {
        "user" => account_row(alloc, Kind::User, fields),
        "group" => account_row(alloc, Kind::Group, fields),
        "alias" => account_row(alloc, Kind::Alias, fields),
        "domain" => domain_of(alloc, fields).map(Row::Domain),
        "lsa" => lsa_of(alloc, fields).map(Row::Lsa),
        "member" => Ok(Row::Member(member_of(fields))),
        _ => alias_of(fields).map(Row::Alias),
    }
}

/// Adds rows.
pub fn add(alloc: Global, rows: &mut Rows, added: &str) -> Result<(), Fail> {
    for row in added.split(';') {
        if let Some((kind, fields)) = row.split_once(',') {
            put(rows, row_of(alloc, kind, fields)?)?;
        }
    }
    Ok(())
}
