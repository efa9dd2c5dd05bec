// Keepers that are asked in words, and what they answer.
//
// A word is a load or a commit, and a commit its changes: a pair is put, or the one with the key after the sign
// removed. A sign stands for its byte, a star for a long key or value. Of a file there are more words: it is opened
// once again, many numbers are committed, it is swapped with a spare one, and what lies at its path is no database and
// then the file again.
use crate::tests::words::split;
use acct_base::Seq;
use acct_keeper::{Change, KeepError, Keeper, Pair};
use keeper_sqlite::SqliteKeeper;
use std::alloc::{AllocError, Global};
use std::fmt::{Debug, Display};
use std::{fs, io};

pub const SERVED: &str = "keeper_sqlite_served/accounts.db";

const SERVED_LOG: &str = "keeper_sqlite_served/accounts.db-wal";

pub const SPARE: &str = "keeper_sqlite_served/spare.db";

const SPARE_LOG: &str = "keeper_sqlite_served/spare.db-wal";

const COMMIT_COUNT: u16 = 300;

// More than a page.
const LONG: usize = 5_000;

fn push_signs(bytes: &mut Vec<u8>, text: &str) -> Result<(), AllocError> {
    for sign in text.chars() {
        bytes.push((sign as u32 & 0xff) as u8)?;
    }
    Ok(())
}

fn bytes_of(alloc: Global, text: &str) -> Result<Seq<u8>, AllocError> {
    let mut bytes = Vec::new(alloc);
    match text {
        "*" => bytes.resize(LONG, b'x')?,
        _ => push_signs(&mut bytes, text)?,
    }
    Ok(Seq::from_vec(bytes))
}

fn pair_of(alloc: Global, text: &str) -> Result<Pair, AllocError> {
    let (key, value) = split(text, '=');
    Ok(Pair {
        key: bytes_of(alloc, key)?,
        value: bytes_of(alloc, value)?,
    })
}

// The pairs that words put, in their order.
pub fn pairs_of(alloc: Global, text: &str) -> Result<Vec<Pair>, AllocError> {
    let mut pairs = Vec::new(alloc);
    for word in text.split_terminator(',') {
        pairs.push(pair_of(alloc, word)?)?;
    }
    Ok(pairs)
}

fn put(pair: Pair) -> Change {
    Change {
        key: pair.key,
        value: Some(pair.value),
    }
}

fn removal(key: Seq<u8>) -> Change {
    Change { key, value: None }
}

fn change_of(alloc: Global, text: &str) -> Result<Change, AllocError> {
    match text.strip_prefix('-') {
        Some(key) => bytes_of(alloc, key).map(removal),
        None => pair_of(alloc, text).map(put),
    }
}

fn changes_of(alloc: Global, text: &str) -> Result<Vec<Change>, AllocError> {
    let mut changes = Vec::new(alloc);
    for word in text.split_terminator(',') {
        changes.push(change_of(alloc, word)?)?;
    }
    Ok(changes)
}

fn push_bytes(told: &mut String, bytes: &[u8]) -> Result<(), AllocError> {
    if bytes.len() == LONG && bytes.iter().all(|byte| *byte == b'x') {
        return told.push('*');
    }
    for byte in bytes {
        told.push(char::from(*byte))?;
    }
    Ok(())
}

fn push_pairs(told: &mut String, pairs: &[Pair]) -> Result<(), AllocError> {
    for pair in pairs {
        push_bytes(told, pair.key.as_slice())?;
        told.push('=')?;
        push_bytes(told, pair.value.as_slice())?;
        told.push(';')?;
    }
    Ok(())
}

fn push_answer<T: Debug>(told: &mut String, answer: &T) -> Result<(), AllocError> {
    write!(told, "{answer:?}")
}

fn load<K: Keeper>(keeper: &mut K, told: &mut String) -> Result<(), AllocError> {
    match keeper.load() {
        Ok(pairs) => push_pairs(told, &pairs),
        Err(error) => push_answer(told, &Err::<(), KeepError>(error)),
    }
}

fn commit<K: Keeper>(
    alloc: Global,
    keeper: &mut K,
    words: &str,
    told: &mut String,
) -> Result<(), AllocError> {
    let changes = changes_of(alloc, words)?;
    let answer = keeper.commit(&changes);
    drop(changes);
    push_answer(told, &answer)
}

// Why a file isn't opened, if it isn't.
pub fn refusal(rt: &HostRuntime, path: &str) -> Option<KeepError> {
    match SqliteKeeper::new(rt, path) {
        Ok(keeper) => {
            drop(keeper);
            None
        }
        Err(error) => Some(error),
    }
}

fn copied(alloc: Global, key: &[u8], value: &[u8]) -> Result<Change, AllocError> {
    Ok(Change {
        key: Seq::copy_of(alloc, key)?,
        value: Some(Seq::copy_of(alloc, value)?),
    })
}

// The changes of a number: its own pair, and which number came last.
fn number_changes(alloc: Global, number: u16) -> Result<Vec<Change>, AllocError> {
    let key = number.to_be_bytes();
    let mut changes = Vec::new(alloc);
    changes.push(copied(alloc, &key, b"1")?)?;
    changes.push(copied(alloc, b"last", &key)?)?;
    Ok(changes)
}

fn commit_number<K: Keeper>(alloc: Global, keeper: &mut K, number: u16) -> Result<(), KeepError> {
    let changes = number_changes(alloc, number)?;
    let answer = keeper.commit(&changes);
    drop(changes);
    answer
}

fn commit_numbers<K: Keeper>(alloc: Global, keeper: &mut K) -> Result<(), KeepError> {
    for number in 0..COMMIT_COUNT {
        commit_number(alloc, keeper, number)?;
    }
    Ok(())
}

// The spare file and its log come to lie at the path of the other. A keeper that has that one open keeps it so.
fn swap(rt: &HostRuntime) -> io::Result<&'static str> {
    fs::rename(rt, SPARE, SERVED)?;
    fs::rename(rt, SPARE_LOG, SERVED_LOG)?;
    Ok("swapped")
}

// The file and its log are moved away, and something else lies there.
fn spoil(rt: &HostRuntime) -> io::Result<&'static str> {
    fs::rename(rt, SERVED, SPARE)?;
    fs::rename(rt, SERVED_LOG, SPARE_LOG)?;
    fs::write(rt, SERVED, "Buy milk.")?;
    Ok("spoiled")
}

fn mend(rt: &HostRuntime) -> io::Result<&'static str> {
    swap(rt)?;
    Ok("mended")
}

fn move_files(told: &mut String, moved: io::Result<&str>) -> Result<(), AllocError> {
    told.push_str(moved.unwrap_or("not moved"))
}

// What a word has done: a load, a second opening of the file that is open, the commits of many numbers, files that are
// moved, or a commit of changes.
fn act<K: Keeper>(
    rt: &HostRuntime,
    keeper: &mut K,
    word: &str,
    told: &mut String,
) -> Result<(), AllocError> {
    match word {
        "load" => load(keeper, told),
        "again" => push_answer(told, &refusal(rt, SERVED)),
        "numbers" => push_answer(told, &commit_numbers(rt.alloc(), keeper)),
        "swap" => move_files(told, swap(rt)),
        "spoil" => move_files(told, spoil(rt)),
        "mend" => move_files(told, mend(rt)),
        changes => commit(rt.alloc(), keeper, changes, told),
    }
}

// What words have done, and how many faults the keeper counts then.
pub fn serve<K: Keeper>(
    rt: &HostRuntime,
    keeper: &mut K,
    words: &str,
    told: &mut String,
) -> Result<(), AllocError> {
    for word in words.split(' ') {
        act(rt, keeper, word, told)?;
        told.push(' ')?;
    }
    push_answer(told, &keeper.faults())?;
    told.push('/')
}

// Adds a value's text, and a sign after it.
pub fn push_text<T: Display>(told: &mut String, value: &T) -> Result<(), AllocError> {
    write!(told, "{value};")
}
