// What is done to rows, in words.
use crate::tests::operations::{object_of, owned_by};
use crate::tests::puts::{apply, put, put_out};
use crate::tests::words::{number, word};
use acct_base::Seq;
use acct_calls::{Name, NoMemory};
use acct_codes::Kind;
use acct_rows::{
    AccountRow, AliasRow, DescRow, Held, LsaRow, MemberRow, OUT_MADE, OutRow, Plan, Row, RowKey,
    Rows, push_key,
};
use dtyp_sid::parse_text;
use std::alloc::Global;
use std::mem;
use std::test::Fail;

/// An account without texts but its name.
pub fn account(alloc: Global, kind: Kind, domain: u8, rid: u32, name: Name) -> AccountRow {
    AccountRow {
        domain,
        rid,
        kind,
        name,
        full_name: Name::from_units(Vec::new(alloc)),
        comment: Name::from_units(Vec::new(alloc)),
        bits: 7,
        primary: 0,
    }
}

/// `u10000` and so on.
pub fn numbered(alloc: Global, number: u32) -> Result<Name, NoMemory> {
    let text = format!(in alloc; "u{number}")?;
    Name::from_text(alloc, text.as_str())
}

fn group(alloc: Global, rid: u32, name: &str) -> Result<Row, Fail> {
    let name = Name::from_text(alloc, name.trim())?;
    Ok(Row::Account(account(alloc, Kind::Group, 0, rid, name)))
}

/// A user of that primary group, named by its RID.
fn user(alloc: Global, rid: u32, primary: u32) -> Result<Row, Fail> {
    let name = numbered(alloc, rid)?;
    let mut row = account(alloc, Kind::User, 0, rid, name);
    row.primary = primary;
    Ok(Row::Account(row))
}

fn member(group: u32, user: u32) -> Result<Row, Fail> {
    Ok(Row::Member(MemberRow {
        group,
        user,
        attributes: 7,
    }))
}

/// A member of an alias of BUILTIN.
pub fn alias_row(alias: u32, sid: &str) -> Result<AliasRow, Fail> {
    Ok(AliasRow {
        domain: 1,
        alias,
        member: parse_text(sid.trim())?,
    })
}

fn alias(alias: u32, sid: &str) -> Result<Row, Fail> {
    Ok(Row::Alias(alias_row(alias, sid)?))
}

fn policy(alloc: Global, sid: &str) -> Result<Row, Fail> {
    let sid = parse_text(sid)?;
    let held = Held {
        low: 5,
        attributes: 3,
    };
    let privileges = Seq::from_vec(vec![in alloc; held]?);
    Ok(Row::Lsa(LsaRow {
        sid,
        access: 1,
        privileges,
    }))
}

/// The descriptor of an object, which has an owner alone.
fn descriptor(object: &str, owner: &str) -> Result<Row, Fail> {
    let object = object_of(object)?;
    let owner = parse_text(owner.trim())?;
    Ok(Row::Desc(DescRow {
        object,
        descriptor: owned_by(owner),
    }))
}

/// A user that was made, by its name and its RID. The number is the next one when it is put.
fn made(alloc: Global, words: &str) -> Result<OutRow, Fail> {
    let (name, rid) = word(words);
    Ok(OutRow {
        number: 0,
        action: OUT_MADE,
        domain: 0,
        rid: number(rid),
        kind: Kind::User,
        name: Name::from_text(alloc, name)?,
    })
}

fn row_of(alloc: Global, words: &str) -> Result<Row, Fail> {
    let (list, rest) = word(words);
    let (first, second) = word(rest);
    match list {
        "group" => group(alloc, number(first), second),
        "user" => user(alloc, number(first), number(second)),
        "member" => member(number(first), number(second)),
        "alias" => alias(number(first), second),
        "desc" => descriptor(first, second),
        _ => policy(alloc, first),
    }
}

fn alias_key(alias: u32, sid: &str) -> Result<RowKey, Fail> {
    Ok(RowKey::Alias {
        domain: 1,
        alias,
        member: parse_text(sid.trim())?,
    })
}

fn key_of(words: &str) -> Result<RowKey, Fail> {
    let (list, rest) = word(words);
    let (first, second) = word(rest);
    match list {
        "domain" => Ok(RowKey::Domain(0)),
        "account" => Ok(RowKey::Account {
            domain: 0,
            rid: number(first),
        }),
        "member" => Ok(RowKey::Member {
            group: number(first),
            user: number(second),
        }),
        "alias" => alias_key(number(first), second),
        "desc" => Ok(RowKey::Desc(object_of(first)?)),
        "out" => Ok(RowKey::Out(u64::from(number(first)))),
        _ => Ok(RowKey::Lsa(parse_text(first)?)),
    }
}

/// Another group in place of an account.
fn puts(alloc: Global) -> Result<Seq<Row>, Fail> {
    let users = group(alloc, 513, "Users")?;
    Ok(Seq::from_vec(vec![in alloc; users]?))
}

/// Two accounts.
fn removes(alloc: Global) -> Result<Seq<RowKey>, NoMemory> {
    let mut removes = Seq::new(alloc);
    for rid in [501, 513] {
        let key = RowKey::Account { domain: 0, rid };
        push_key(&mut removes, key)?;
    }
    Ok(removes)
}

/// A plan that removes two accounts, and puts another in place of one.
fn plan(alloc: Global) -> Result<Plan, Fail> {
    let removes = removes(alloc)?;
    match puts(alloc) {
        Ok(puts) => Ok(Plan { puts, removes }),
        Err(fail) => {
            drop(removes);
            Err(fail)
        }
    }
}

fn put_words(alloc: Global, rows: &mut Rows, words: &str) -> Result<(), Fail> {
    let (list, rest) = word(words);
    if list == "out" {
        return put_out(rows, made(alloc, rest)?);
    }
    let row = row_of(alloc, words)?;
    Ok(put(rows, row)?)
}

fn remove_words(rows: &mut Rows, words: &str) -> Result<(), Fail> {
    rows.remove(&key_of(words)?);
    Ok(())
}

fn apply_plan(alloc: Global, rows: &mut Rows) -> Result<(), Fail> {
    let plan = plan(alloc)?;
    apply(rows, plan)
}

/// Puts a copy of rows in their place.
fn copy(alloc: Global, rows: &mut Rows) -> Result<(), Fail> {
    match rows.copy(alloc) {
        Ok(copied) => {
            drop(mem::replace(rows, copied));
            Ok(())
        }
        Err(error) => Err(Fail::from(error)),
    }
}

fn step(alloc: Global, rows: &mut Rows, words: &str) -> Result<(), Fail> {
    let (what, rest) = word(words);
    match what {
        "put" => put_words(alloc, rows, rest),
        "remove" => remove_words(rows, rest),
        "plan" => apply_plan(alloc, rows),
        "copy" => copy(alloc, rows),
        _ => Ok(()),
    }
}

/// Does the steps of a row, with semicolons between them.
pub fn change(alloc: Global, rows: &mut Rows, steps: &str) -> Result<(), Fail> {
    for words in steps.split(';') {
        step(alloc, rows, words)?;
    }
    Ok(())
}
