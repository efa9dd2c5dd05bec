// Files that are made, changed and opened again, tables of another program, and files that are refused.
use super::words::{SERVED, SPARE, refusal, serve};
use crate::tests::files::{holds, make_folder};
use crate::tests::words::split;
use acct_keeper::KeepError;
use keeper_sqlite::SqliteKeeper;
use sqlite::{Alter, Connection, Error};
use std::fs;
use std::os::unix::fs::MetadataExt;
use std::test::Fail;

const SERVED_FOLDER: &str = "keeper_sqlite_served";

const REFUSED: &str = "keeper_sqlite_refused";

const NOTES: &str = "keeper_sqlite_refused/notes.txt";

const OTHER: &str = "keeper_sqlite_refused/other.db";

const NAME_TAKEN: &str = "CREATE TABLE other (key BLOB); CREATE INDEX pairs ON other (key)";

const COMMITS_FOLDER: &str = "keeper_sqlite_commits";

const COMMITS: &str = "keeper_sqlite_commits/accounts.db";

const PRIVATE_FOLDER: &str = "keeper_sqlite_private";

const PRIVATE: &str = "keeper_sqlite_private/accounts.db";

const PRIVATE_LOG: &str = "keeper_sqlite_private/accounts.db-wal";

// Each row: what another program did with the file before; what is done with it, each opening after a slash; and what
// is answered, for each opening its count of faults at the end. A file that is open is refused to who opens it again,
// and the keeper that has it open loads it then.
const ROWS: &str =
    "|d=*,b\0\u{ff}=,b=1,a=1 -b,a=2,c=1,a=3,-c,-e,=4,*=5 /load load|Ok(()) Ok(()) Ok(()) 0/=4;a=3;b\0\u{ff}=;d=*;*=5; \
    =4;a=3;b\0\u{ff}=;d=*;*=5; 0/
CREATE TABLE pairs (key BLOB NOT NULL PRIMARY KEY, value BLOB NOT NULL CHECK (length(value) < 4)) STRICT; INSERT INTO \
    pairs VALUES (x'61', x'31')|a=2,b=1,c=long,d=1 e=1/load|Err(Failed) Ok(()) 1/a=1;e=1; 0/
CREATE TABLE pairs (key BLOB NOT NULL, value BLOB NOT NULL) STRICT; INSERT INTO pairs VALUES (x'61', x'31'), (x'61', \
    x'32')|load|Err(Failed) 1/
|again load|Some(Failed)  0/";

fn open_and_serve(
    rt: &HostRuntime,
    path: &str,
    words: &str,
    told: &mut String,
) -> Result<(), KeepError> {
    let mut keeper = SqliteKeeper::new(rt, path)?;
    let served = serve(rt, &mut keeper, words, told);
    drop(keeper);
    Ok(served?)
}

// What is answered at a path, opening by opening.
fn answers(rt: &HostRuntime, path: &str, words: &str) -> Result<String, KeepError> {
    let mut told = String::new(rt.alloc());
    for part in words.split('/') {
        open_and_serve(rt, path, part, &mut told)?;
    }
    Ok(told)
}

// The connection is closed at the end.
fn run_batch<S: Alter + Drop>(mut connection: Connection<S>, text: &str) -> Result<(), Error> {
    connection.execute_batch(text)
}

fn make_table(rt: &HostRuntime, path: &str, text: &str) -> Result<(), Fail> {
    Ok(run_batch(Connection::open(rt, path)?, text)?)
}

// What is answered at a file that another program has made or not.
fn answers_behind(rt: &HostRuntime, table: &str, words: &str) -> Result<String, Fail> {
    make_folder(rt, SERVED_FOLDER)?;
    if !table.is_empty() {
        make_table(rt, SERVED, table)?;
    }
    Ok(answers(rt, SERVED, words)?)
}

fn row_is_right(rt: &HostRuntime, row: &str) -> Result<bool, Fail> {
    let (table, rest) = split(row, '|');
    let (words, wanted) = split(rest, '|');
    Ok(answers_behind(rt, table, words)?.as_str() == wanted)
}

#[test]
fn files_are_served(rt: HostRuntime) -> Result<(), Fail> {
    for row in ROWS.lines() {
        assert!(rt; row_is_right(&rt, row)?, "{row}");
    }
    Ok(fs::remove_dir_all(&rt, SERVED_FOLDER)?)
}

fn make_refused(rt: &HostRuntime) -> Result<(), Fail> {
    make_folder(rt, REFUSED)?;
    fs::write(rt, NOTES, "Buy milk.")?;
    make_table(rt, OTHER, NAME_TAKEN)
}

const UNOPENED: [&str; 5] = [
    "",
    ":memory:",
    "keeper_sqlite_refused/no_folder/accounts.db",
    NOTES,
    OTHER,
];

fn is_refused(rt: &HostRuntime, path: &str) -> bool {
    matches!(refusal(rt, path), Some(KeepError::Failed))
}

// The first of these paths that isn't refused.
fn unrefused(rt: &HostRuntime) -> Option<&'static str> {
    for path in UNOPENED {
        if !is_refused(rt, path) {
            return Some(path);
        }
    }
    None
}

#[test]
fn what_is_no_database_is_refused(rt: HostRuntime) -> Result<(), Fail> {
    make_refused(&rt)?;
    let unrefused = unrefused(&rt);
    assert!(rt; unrefused.is_none(), "{unrefused:?}");
    assert!(rt; holds(&rt, NOTES, "Buy milk.")?);
    Ok(fs::remove_dir_all(&rt, REFUSED)?)
}

// Many numbers are committed, and the file is opened again.
fn numbers_are_kept(rt: &HostRuntime) -> Result<bool, KeepError> {
    let told = answers(rt, COMMITS, "numbers/load")?;
    Ok(
        told.starts_with("Ok(()) 0/\0\0=1;\0\u{1}=1;\0\u{2}=1;")
            && told.ends_with("\u{1}*=1;\u{1}+=1;last=\u{1}+; 0/")
            && told.chars().count() == 9 + 300 * 5 + 8 + 3,
    )
}

// The folder is removed at the end alone: the file of a run that is killed, or whose disk is full, stays to be looked
// at.
#[test]
fn each_commit_stands_whole(rt: HostRuntime) -> Result<(), Fail> {
    make_folder(&rt, COMMITS_FOLDER)?;
    assert!(rt; numbers_are_kept(&rt)?);
    Ok(fs::remove_dir_all(&rt, COMMITS_FOLDER)?)
}

// A table that refuses long values, with two pairs, and another one, which lies where the first is looked for again.
const BOUNDED: &str =
    "CREATE TABLE pairs (key BLOB NOT NULL PRIMARY KEY, value BLOB NOT NULL CHECK (length(value) < 4)) STRICT; INSERT \
    INTO pairs VALUES (x'61', x'31'), (x'63', x'33')";

const OTHERS: &str =
    "CREATE TABLE pairs (key BLOB NOT NULL PRIMARY KEY, value BLOB NOT NULL CHECK (length(value) < 4)) STRICT; INSERT \
    INTO pairs VALUES (x'61', x'32'), (x'62', x'32'), (x'63', x'32'), (x'64', x'32')";

// Each row: what is done with the first table, and what is answered. A commit fails, as a value is too long, and the
// file is looked for again: where the two were swapped, the keys of that commit have the values of the first table
// again, one that it hasn't is gone, and the others are the other table's. Where something else lies there, each call
// fails until the file is back, and the keys are put back then.
const TAKEN_BACK: &str =
    "load swap a=2,b=long,b=2,-c load a=5 load|a=1;c=3; swapped Err(Failed) a=1;c=3;d=2; Ok(()) \
    a=5;c=3;d=2; 1/
swap a=1,d=long load|swapped Err(Failed) a=1;b=2;c=2; 1/
swap spoil a=long load b=1 mend load b=1 load|swapped spoiled Err(Failed) Err(Failed) Err(Failed) mended \
    a=1;b=2;c=2;d=2; Ok(()) a=1;b=1;c=2;d=2; 3/";

fn make_two(rt: &HostRuntime) -> Result<(), Fail> {
    make_folder(rt, SERVED_FOLDER)?;
    make_table(rt, SERVED, BOUNDED)?;
    make_table(rt, SPARE, OTHERS)
}

fn taken_back_is_right(rt: &HostRuntime, row: &str) -> Result<bool, Fail> {
    let (words, wanted) = split(row, '|');
    make_two(rt)?;
    Ok(answers(rt, SERVED, words)?.as_str() == wanted)
}

#[test]
fn a_commit_that_failed_is_taken_back(rt: HostRuntime) -> Result<(), Fail> {
    for row in TAKEN_BACK.lines() {
        assert!(rt; taken_back_is_right(&rt, row)?, "{row}");
    }
    Ok(fs::remove_dir_all(&rt, SERVED_FOLDER)?)
}

fn mode_of(rt: &HostRuntime, path: &str) -> Result<u32, Fail> {
    Ok(fs::metadata(rt, path)?.mode() & 0o777)
}

#[test]
fn a_new_file_is_its_owners_alone(rt: HostRuntime) -> Result<(), Fail> {
    make_folder(&rt, PRIVATE_FOLDER)?;
    assert!(rt; answers(&rt, PRIVATE, "a=1")?.as_str() == "Ok(()) 0/");
    assert!(rt; mode_of(&rt, PRIVATE)? == 0o600);
    assert!(rt; mode_of(&rt, PRIVATE_LOG)? == 0o600);
    Ok(fs::remove_dir_all(&rt, PRIVATE_FOLDER)?)
}
