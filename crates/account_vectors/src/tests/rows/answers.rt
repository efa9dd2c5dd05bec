// What is asked of rows, and the answers in words.
use crate::tests::operations::object_of;
use crate::tests::words::{domain_number, number, word};
use acct_base::Seq;
use acct_calls::{Name, Sids};
use acct_rows::{
    AccountRow, AliasRow, DescRow, DomainRow, LsaRow, MemberRow, OutRow, RowKey, Rows,
};
use dtyp_sid::{Sid, parse_text};
use std::alloc::Global;
use std::test::Fail;

fn push_name(alloc: Global, text: &mut String, name: &Name) -> Result<(), Fail> {
    let name = String::from_utf16_lossy(alloc, name.units())?;
    write!(text, "{name};")?;
    Ok(())
}

fn push_sid(alloc: Global, text: &mut String, sid: &Sid) -> Result<(), Fail> {
    let sid = sid.text(alloc)?;
    write!(text, "{sid} ")?;
    Ok(())
}

fn push_domain(alloc: Global, text: &mut String, row: &DomainRow) -> Result<(), Fail> {
    push_sid(alloc, text, &row.sid)?;
    push_name(alloc, text, &row.name)?;
    push_name(alloc, text, &row.oem)?;
    write!(text, "{}", row.next_rid)?;
    Ok(())
}

fn push_account(alloc: Global, text: &mut String, row: &AccountRow) -> Result<(), Fail> {
    write!(text, "{:?} {} {} ", row.kind, row.bits, row.primary)?;
    push_name(alloc, text, &row.name)?;
    push_name(alloc, text, &row.full_name)?;
    push_name(alloc, text, &row.comment)
}

fn push_policy(text: &mut String, row: &LsaRow) -> Result<(), Fail> {
    write!(text, "{}", row.access)?;
    for held in row.privileges.as_slice() {
        write!(text, " {}-{}", held.low, held.attributes)?;
    }
    Ok(())
}

// ---- whole lists

fn push_accounts(text: &mut String, rows: &[AccountRow]) -> Result<(), Fail> {
    for row in rows {
        write!(text, "{}-{} ", row.domain, row.rid)?;
    }
    Ok(())
}

fn push_members(text: &mut String, rows: &[MemberRow]) -> Result<(), Fail> {
    for row in rows {
        write!(text, "{}-{}-{} ", row.group, row.user, row.attributes)?;
    }
    Ok(())
}

fn push_aliases(alloc: Global, text: &mut String, rows: &[AliasRow]) -> Result<(), Fail> {
    for row in rows {
        write!(text, "{}-{}-", row.domain, row.alias)?;
        push_sid(alloc, text, &row.member)?;
    }
    Ok(())
}

fn push_policies(alloc: Global, text: &mut String, rows: &[LsaRow]) -> Result<(), Fail> {
    for row in rows {
        push_sid(alloc, text, &row.sid)?;
    }
    Ok(())
}

/// The objects of descriptors: the kind, the domain and the RID of each.
fn push_described(text: &mut String, rows: &[DescRow]) -> Result<(), Fail> {
    for row in rows {
        let kind = row.object.kind();
        let domain = row.object.domain();
        let rid = row.object.rid();
        write!(text, "{kind:?}-{domain}-{rid} ")?;
    }
    Ok(())
}

fn push_out(alloc: Global, text: &mut String, row: &OutRow) -> Result<(), Fail> {
    write!(
        text,
        "{}-{}-{}-{}-{:?}-",
        row.number, row.action, row.domain, row.rid, row.kind
    )?;
    push_name(alloc, text, &row.name)
}

fn push_outs(alloc: Global, text: &mut String, rows: &[OutRow]) -> Result<(), Fail> {
    for row in rows {
        push_out(alloc, text, row)?;
    }
    Ok(())
}

// ---- look-ups

fn sids_of(alloc: Global, words: &str) -> Result<Sids, Fail> {
    let mut sids = Seq::new(alloc);
    for text in words.split_whitespace() {
        sids.push(parse_text(text)?)?;
    }
    Ok(sids)
}

fn push_aliases_of(
    alloc: Global,
    text: &mut String,
    rows: &Rows,
    domain: u8,
    words: &str,
) -> Result<(), Fail> {
    let sids = sids_of(alloc, words)?;
    let rids = rows.aliases_of(alloc, domain, &sids)?;
    write!(text, "{:?}", rids.as_slice())?;
    Ok(())
}

fn push_named(
    alloc: Global,
    text: &mut String,
    rows: &Rows,
    domain: u8,
    name: &str,
) -> Result<(), Fail> {
    let name = Name::from_text(alloc, name)?;
    if let Some(row) = rows.find_name(domain, &name) {
        write!(text, "{}", row.rid)?;
    }
    Ok(())
}

fn push_members_of(alloc: Global, text: &mut String, rows: &Rows, group: u32) -> Result<(), Fail> {
    let members = rows.members(alloc, group)?;
    push_members(text, &members)
}

fn push_key(alloc: Global, text: &mut String, key: &RowKey) -> Result<(), Fail> {
    match key {
        RowKey::Member { group, user } => write!(text, "{group}-{user} ")?,
        RowKey::Alias {
            domain,
            alias,
            member,
        } => {
            write!(text, "{domain}-{alias}-")?;
            push_sid(alloc, text, member)?;
        }
        _ => {}
    }
    Ok(())
}

/// Tells the member rows and the alias rows that name an account of a domain, by its RID and its SID.
fn push_naming(
    alloc: Global,
    text: &mut String,
    rows: &Rows,
    domain: u8,
    words: &str,
) -> Result<(), Fail> {
    let (rid, sid) = word(words);
    let sid = parse_text(sid.trim())?;
    let keys = rows.with_member_keys(Seq::new(alloc), domain, number(rid))?;
    let keys = rows.with_alias_keys(keys, domain, number(rid), &sid)?;
    for key in keys.as_slice() {
        push_key(alloc, text, key)?;
    }
    Ok(())
}

fn push_found(alloc: Global, text: &mut String, rows: &Rows, question: &str) -> Result<(), Fail> {
    let (what, rest) = word(question);
    let (first, second) = word(rest);
    match what {
        "named" => push_named(alloc, text, rows, domain_number(first), second)?,
        "of" => push_members_of(alloc, text, rows, number(first))?,
        "having" => push_aliases_of(alloc, text, rows, domain_number(first), second)?,
        "naming" => push_naming(alloc, text, rows, domain_number(first), second)?,
        "member" => write!(text, "{:?}", rows.member(number(first), number(second)))?,
        "primary" => write!(text, "{}", rows.is_primary(number(first)))?,
        _ => {}
    }
    Ok(())
}

fn push_row(alloc: Global, text: &mut String, rows: &Rows, question: &str) -> Result<(), Fail> {
    let (what, rest) = word(question);
    let (first, second) = word(rest);
    if what == "domain" {
        if let Some(row) = rows.domain(domain_number(first)) {
            push_domain(alloc, text, row)?;
        }
    } else if what == "account" {
        if let Some(row) = rows.find_rid(domain_number(first), number(second)) {
            push_account(alloc, text, row)?;
        }
    } else if what == "policy" {
        if let Some(row) = rows.lsa_account(&parse_text(first)?) {
            push_policy(text, row)?;
        }
    } else if what == "described" {
        if let Some(descriptor) = rows.descriptor_of(&object_of(first)?) {
            push_sid(alloc, text, &descriptor.owner)?;
        }
    } else if what == "out" {
        if let Some(row) = rows.out_row(u64::from(number(first))) {
            push_out(alloc, text, row)?;
        }
    }
    Ok(())
}

/// Tells the answer to a question; nothing where there is no such row.
pub fn push_answer(
    alloc: Global,
    text: &mut String,
    rows: &Rows,
    question: &str,
) -> Result<(), Fail> {
    match question.trim() {
        "accounts" => push_accounts(text, rows.accounts()),
        "members" => push_members(text, rows.member_rows()),
        "aliases" => push_aliases(alloc, text, rows.alias_rows()),
        "policies" => push_policies(alloc, text, rows.lsa_rows()),
        "descriptors" => push_described(text, rows.descriptor_rows()),
        "outs" => push_outs(alloc, text, rows.out_rows()),
        "next" => Ok(write!(text, "{}", rows.next_out())?),
        _ => {
            push_row(alloc, text, rows, question)?;
            push_found(alloc, text, rows, question)
        }
    }
}
