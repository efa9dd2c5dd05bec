// Rows in words: what is done to those of a new database, what is asked, and what is answered.
use super::answers::push_answer;
use super::changes::change;
use super::tables;
use crate::tests::first_rows::seeded;
use crate::tests::words::{column, is_told};
use acct_codes::Kind;
use acct_rows::{Object, Rows};
use dtyp_sid::{Sid, parse_text};
use std::alloc::Global;
use std::process::Abort;
use std::test::Fail;

/// What rows answer after some steps.
fn told(alloc: Global, rows: &mut Rows, steps: &str, question: &str) -> Result<String, Fail> {
    change(alloc, rows, steps)?;
    let mut text = String::new(alloc);
    push_answer(alloc, &mut text, rows, question)?;
    Ok(text)
}

/// Tells a row: the steps, the question, and the answer.
fn tell(rt: &impl Abort, alloc: Global, row: &str) -> Result<(), Fail> {
    let (steps, rest) = column(row);
    let (question, wanted) = column(rest);
    let mut rows = seeded(rt, alloc)?;
    let told = told(alloc, &mut rows, steps, question);
    drop(rows);
    is_told(rt, told?.as_str().trim(), wanted.trim(), row);
    Ok(())
}

fn tell_all(rt: &impl Abort, alloc: Global, table: &str) -> Result<(), Fail> {
    for row in table.lines() {
        tell(rt, alloc, row)?;
    }
    Ok(())
}

#[test]
fn rows_are_found_and_changed(rt: HostRuntime) -> Result<(), Fail> {
    for table in [
        tables::SEED,
        tables::NAMES,
        tables::CHANGES,
        tables::MEMBERS,
        tables::PRIMARIES,
        tables::NAMING,
        tables::DESCRIPTORS,
        tables::OUTS,
        tables::PLANS,
    ] {
        tell_all(&rt, rt.alloc(), table)?;
    }
    Ok(())
}

/// Whether there is room for a hundred rows, and none for lists of 2^32.
fn has_room_below_2_to_the_32(rows: &mut Rows) -> bool {
    rows.reserve(100).is_ok()
        && rows.reserve(1 << 32).is_err()
        && rows.reserve((1 << 32) - 8).is_err()
}

#[test]
fn lists_stay_below_2_to_the_32(rt: HostRuntime) -> Result<(), Fail> {
    let mut rows = seeded(&rt, rt.alloc())?;
    let room = has_room_below_2_to_the_32(&mut rows);
    drop(rows);
    assert!(rt; room);
    Ok(())
}

fn kinds_are_right(everyone: Sid) -> bool {
    Object::Server.kind() == Kind::Server
        && Object::Domain(1).kind() == Kind::Domain
        && Object::Group(513).kind() == Kind::Group
        && Object::Alias(1, 544).kind() == Kind::Alias
        && Object::User(500).kind() == Kind::User
        && Object::Policy.kind() == Kind::Policy
        && Object::Account(everyone).kind() == Kind::Account
}

#[test]
fn objects_have_kinds(rt: HostRuntime) -> Result<(), Fail> {
    let everyone = parse_text("S-1-1-0")?;
    assert!(rt; kinds_are_right(everyone));
    Ok(())
}

#[test]
fn objects_are_told_apart(rt: HostRuntime) {
    assert!(rt; Object::Alias(1, 544).domain() == 1);
    assert!(rt; Object::Alias(1, 544).rid() == 544);
    assert!(rt; Object::Group(513).same(Object::Group(513)));
    assert!(rt; !Object::Group(513).same(Object::User(513)));
}
