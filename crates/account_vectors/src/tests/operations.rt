// Tables of operations, told row by row. A row is a line of five parts:
// - what is added to the first rows, those that a new database has: accounts (kind, domain, RID, name, full name,
//   comment, bits, primary group), members of groups, SIDs of aliases, domains, accounts of the policy (SID, system
//   access, each privilege with its attributes). With `+` the row goes on from what the row before left;
// - the operation by its name in the table of operations, the object of the handle, and the arguments. A name `256*61`
//   has 256 units 0x61;
// - what is expected: the status, the outputs, and what is put, removed, opened or deleted, where there is such.
ghost use Rattle.dtyp_access.specs.Parts.{IsDescriptor};

mod asked;
mod brought;
mod changes;
mod creations;
mod deletions;
mod displays;
mod domains;
mod enumerations;
mod lists;
mod members;
mod parts;
mod queries;
mod rights;
mod rows;
mod security;
mod settings;
mod translations;
mod words;

use super::first_rows::seeded;
use super::puts;
use super::words::repeated;
use super::works::all_works;
use acct_base::Seq;
use acct_calls::Args;
use acct_operations::{Work, decide};
use acct_rows::{Object, Plan, Rows};
use acct_rules::Planned;
use asked::args_of;
pub use asked::object_of;
use dtyp_access::Descriptor;
use dtyp_sid::{Sid, parse_text};
use parts::part;
use rows::add;
use samr_objects::laws;
use std::alloc::Global;
use std::mem;
use std::process::Abort;
use std::test::Fail;
use words::{spelled, tell, tell_ends};

/// Whether an operation has this name.
fn is_named(alloc: Global, work: Work, name: &str) -> Result<bool, Fail> {
    Ok(format!(in alloc; "{work:?}")?.as_str() == name)
}

/// The operation of a name.
fn work_named(alloc: Global, name: &str) -> Result<Work, Fail> {
    for work in &all_works(alloc)? {
        if is_named(alloc, *work, name)? {
            return Ok(*work);
        }
    }
    Err("no operation has this name".into())
}

/// A descriptor of an owner alone.
pub fn owned_by(owner: Sid) -> Descriptor
    ensures { IsDescriptor result }
{
    owner.keeps_limits();
    Descriptor {
        owner,
        group: None,
        acl: None,
    }
}

/// What an operation decides, where the object's descriptor has the administrators as its owner, and nothing else.
fn answered(
    alloc: Global,
    work: Work,
    rows: &Rows,
    object: Object,
    args: &Args,
) -> Result<Planned, Fail> {
    let described = owned_by(parse_text("S-1-5-32-544")?);
    let planned = decide(alloc, work, rows, &described, object, args);
    drop(described);
    Ok(planned?)
}

/// What the operation of a row decides.
fn decided(alloc: Global, rows: &Rows, row: &str) -> Result<Planned, Fail> {
    let asked = part(row, '|', 3);
    let (kind, fields) = asked.split_once(',').unwrap_or((asked, ""));
    let work = work_named(alloc, part(row, '|', 1))?;
    let object = object_of(part(row, '|', 2))?;
    let args = args_of(alloc, kind, fields)?;
    let planned = answered(alloc, work, rows, object, &args);
    drop(args);
    planned
}

fn empty_plan(alloc: Global) -> Plan {
    Plan {
        puts: Seq::new(alloc),
        removes: Seq::new(alloc),
    }
}

/// What the operation of a row decides, once the rows have what it adds.
fn decided_behind(alloc: Global, rows: &mut Rows, row: &str) -> Result<Planned, Fail> {
    add(alloc, rows, part(row, '|', 0))?;
    decided(alloc, rows, row)
}

/// Tells what is planned, and does it to the rows.
fn apply(alloc: Global, rows: &mut Rows, planned: &mut Planned) -> Result<String, Fail> {
    let text = tell(alloc, planned)?;
    puts::apply(rows, mem::replace(&mut planned.plan, empty_plan(alloc)))?;
    Ok(text)
}

/// Tells what a row does, and does it to the rows.
fn told(alloc: Global, rows: &mut Rows, row: &str) -> Result<String, Fail> {
    let mut planned = decided_behind(alloc, rows, row)?;
    let text = apply(alloc, rows, &mut planned);
    drop(planned);
    text
}

/// Begins with the first rows again.
fn begin_again(rt: &impl Abort, alloc: Global, rows: &mut Rows) -> Result<(), Fail> {
    drop(mem::replace(rows, seeded(rt, alloc)?));
    Ok(())
}

/// What is told is what a row expects.
fn told_is_wanted(rt: &impl Abort, alloc: Global, told: &str, row: &str) -> Result<(), Fail> {
    let wanted = spelled(alloc, part(row, '|', 4))?;
    assert_eq!(rt; told, wanted.as_str(), "{row}");
    Ok(())
}

/// A row is told as what is expected.
fn row_is_right(rt: &impl Abort, alloc: Global, rows: &mut Rows, row: &str) -> Result<(), Fail> {
    if !row.starts_with('+') {
        begin_again(rt, alloc, rows)?;
    }
    let told = told(alloc, rows, row)?;
    told_is_wanted(rt, alloc, told.as_str(), row)
}

fn rows_are_right(
    rt: &impl Abort,
    alloc: Global,
    rows: &mut Rows,
    table: &str,
) -> Result<(), Fail> {
    for row in table.lines() {
        row_is_right(rt, alloc, rows, row)?;
    }
    Ok(())
}

/// Each row of a table is told as what is expected.
fn table_is_right(rt: &impl Abort, alloc: Global, table: &str) -> Result<(), Fail> {
    let mut rows = seeded(rt, alloc)?;
    let are_right = rows_are_right(rt, alloc, &mut rows, table);
    drop(rows);
    are_right
}

/// What the operation of a row decides on the first rows and those that are added.
fn decided_first(rt: &impl Abort, alloc: Global, row: &str) -> Result<Planned, Fail> {
    let mut rows = seeded(rt, alloc)?;
    let planned = decided_behind(alloc, &mut rows, row);
    drop(rows);
    planned
}

/// What a large translation or a long list of SIDs of a row answers.
fn told_ends(rt: &impl Abort, alloc: Global, row: &str) -> Result<String, Fail> {
    let planned = decided_first(rt, alloc, row)?;
    let text = tell_ends(alloc, &planned);
    drop(planned);
    text
}

/// Each large translation or long list of SIDs of a table is told as what is expected.
fn ends_are_right(rt: &impl Abort, alloc: Global, table: &str) -> Result<(), Fail> {
    for row in table.lines() {
        let told = told_ends(rt, alloc, row)?;
        told_is_wanted(rt, alloc, told.as_str(), row)?;
    }
    Ok(())
}

/// A right is added, told and taken away.
fn right_is_right(rt: &impl Abort, alloc: Global, name: &str, held: &str) -> Result<(), Fail> {
    let table = changes::ONE_RIGHT.replace(alloc, "RIGHT", name)?;
    let table = table.as_str().replace(alloc, "HELD", held)?;
    table_is_right(rt, alloc, table.as_str())
}

/// Each right of a table is added, told and taken away.
fn each_right_is_right(rt: &impl Abort, alloc: Global, rights: &str) -> Result<(), Fail> {
    for right in rights.lines() {
        let (name, held) = right.split_once(',').unwrap_or((right, ""));
        right_is_right(rt, alloc, name, held)?;
    }
    Ok(())
}

const TABLES: &[&str] = &[
    domains::FIRST_ROWS,
    creations::CREATIONS,
    deletions::DELETIONS,
    enumerations::PAGES,
    enumerations::BETWEEN_PAGES,
    enumerations::LARGEST_PAGES,
    displays::FIRST_ROWS,
    displays::KINDS,
    displays::LARGEST_PAGES,
    queries::CLASSES,
    settings::SETS,
    settings::LIMITS,
    members::MEMBERS,
    rights::LOOKUPS,
    changes::ACCOUNTS,
    changes::PRIVILEGES,
    changes::RIGHTS,
    changes::LIFE,
    translations::NAMES,
    translations::SIDS,
    translations::LATER,
    security::QUERIES,
    security::SETS,
    security::KINDS,
];

#[test]
fn tables_are_right(rt: HostRuntime) -> Result<(), Fail> {
    for table in TABLES {
        table_is_right(&rt, rt.alloc(), table)?;
    }
    Ok(())
}

#[test]
fn each_right_and_large_translations_are_right(rt: HostRuntime) -> Result<(), Fail> {
    each_right_is_right(&rt, rt.alloc(), changes::EACH_RIGHT)?;
    ends_are_right(&rt, rt.alloc(), translations::LARGEST)
}

#[test]
fn long_lists_and_full_pages_are_right(rt: HostRuntime) -> Result<(), Fail> {
    let rows = repeated(rt.alloc(), lists::LISTS)?;
    table_is_right(&rt, rt.alloc(), rows.as_str())?;
    let rows = repeated(rt.alloc(), security::LONG)?;
    table_is_right(&rt, rt.alloc(), rows.as_str())?;
    let rows = repeated(rt.alloc(), lists::SIDS)?;
    ends_are_right(&rt, rt.alloc(), rows.as_str())
}

#[test]
fn laws_are_called() {
    laws::enumerations_go_on();
    laws::displays_go_on();
    laws::classes_are_shown();
}
