// Pairs as rows.
ghost use Rattle.std.specs.Prelude.{◌≡◌, ◌+◌, ◌^◌, ◌<◌, ◌≤◌, true, [], ◌∷◌, All, find, length, map, option_map};
ghost use Rattle.std.specs.Prelude.{not, Some, is_some, IfOk, IfErr, OnOk};
ghost use Rattle.acct_keeper.specs.Pairs.{same_key};
ghost use Rattle.std.specs.List.{list_any};
ghost use Rattle.std.specs.List.Sorted.{IsPermutation};
ghost use Rattle.std.specs.Option.{option_copied};
ghost use Rattle.acct_rows.specs.declared.pairs.loading.PairsError.TheVariants.{Memory};
ghost use Rattle.acct_tables.specs.KeyedRows.{is_ascending};
ghost use Rattle.acct_rows.specs.Loading.{BadPairs, IsReadWell, IsLoaded, somes, placed, loaded, smaller};
ghost use Rattle.acct_rows.specs.Loading.{first_missing, smallest_broken};
ghost use Rattle.acct_rows.specs.PairRules.{pair_key, pair_at, is_old, is_format, breaks_rule, is_broken_pair};
ghost use Rattle.acct_rows.specs.PairRules.{AreUnbroken};
ghost use Rattle.acct_rows.specs.PairsOf.{HoldPairs, migration, migrated, keys_differ};
ghost use Rattle.acct_rows.specs.Sound.{IsSoundRows};
ghost use Rattle.acct_tables.specs.Stored.{row_of};

use super::store::{Store, next_out_in};
use crate::rows::Rows;
use crate::rows::tables::Tables;
use acct_base::{Seq, Unread, is_same};
use acct_calls::NoMemory;
use acct_calls::laws::same_is_equivalence;
use acct_codes::rid::DOMAIN_GROUP_RID_USERS;
use acct_keeper::{Change, Pair, is_ascending};
use acct_tables::laws::read_rows_are_spelled;
use acct_tables::{
    ACCOUNT_DOMAIN, BUILTIN_DOMAIN, Row, RowKey, breaks_alone, format_pair, key_bytes, read_row,
};
use dtyp_sid::laws::{
    equal_sids_are_one, read_bytes_are_written, written_bytes_are_read, written_bytes_have_lengths,
};
use std::alloc::{AllocError, Global};
use thiserror::Error;

/// Why pairs are no rows.
#[derive(Debug, Drop, Error)]
pub enum PairsError {
    /// The smallest of the keys that break a rule, in the order of bytes.
    #[error("a stored pair breaks a rule")]
    BadPair(Seq<u8>),
    /// Memory ran out.
    #[error("there is no memory for the rows")]
    Memory,
}

impl From<AllocError> for PairsError {
    ghost from_gives = { λ _ e. e ≡ Memory };

    fn from(_e: AllocError) -> PairsError {
        PairsError::Memory
    }
}

// A law: what a slice of bytes holds are bytes.
fn are_bytes(bytes: &[u8])
    ensures { All (λ byte. byte < 2 ^ 8) bytes.now }
{
    let _count = bytes.len();
}

// A law: what is read of a pair is what it spells.
fn is_read_well(pair: &Pair)
    ensures { IsReadWell pair.now }
{
    read_rows_are_spelled();
    are_bytes(pair.key.as_slice());
    are_bytes(pair.value.as_slice());
}

fn read_one(alloc: Global, pair: &Pair) -> Result<Option<Row>, NoMemory>
    ensures row { IfOk result (λ row. row ≡ row_of pair.now) }
    ensures spelled { IsReadWell pair.now }
{
    is_read_well(pair);
    match read_row(alloc, pair) {
        Ok(row) => Ok(Some(row)),
        Err(Unread::Misspelled) => Ok(None),
        Err(Unread::Memory) => Err(AllocError),
    }
}

// The rows with the one that a pair spells, where it spells one, put in its place.
fn put_read(alloc: Global, rows: &mut Tables, pair: &Pair) -> Result<(), NoMemory>
    requires { 0 < rows.old.spare }
    ensures rows { OnOk result (rows.new.lists ≡ placed (somes (row_of pair.now ∷ [])) rows.old.lists) }
    ensures spare { rows.old.spare ≤ rows.new.spare + 1 }
    ensures spelled { OnOk result (IsReadWell pair.now) }
{
    match read_one(alloc, pair)? {
        Some(row) => {
            rows.put(row);
            Ok(())
        }
        None => Ok(()),
    }
}

// The rows with those that pairs spell, each put in its place, for which there must be room.
fn put_reads(alloc: Global, rows: &mut Tables, pairs: &[Pair]) -> Result<(), NoMemory>
    requires { length pairs.now ≤ rows.old.spare }
    ensures rows { OnOk result (rows.new.lists ≡ placed (somes (map row_of pairs.now)) rows.old.lists) }
    ensures spelled { OnOk result (All IsReadWell pairs.now) }
{
    for pair in pairs {
        put_read(alloc, rows, pair)?;
    }
    Ok(())
}

// The rows with those that pairs spell, for which room is made.
fn fill(alloc: Global, rows: &mut Tables, pairs: &[Pair]) -> Result<(), NoMemory>
    ensures rows { OnOk result (rows.new.lists ≡ placed (somes (map row_of pairs.now)) rows.old.lists) }
    ensures spelled { OnOk result (All IsReadWell pairs.now) }
{
    rows.reserve(pairs.len())?;
    put_reads(alloc, rows, pairs)
}

// The rows that the pairs spell, each put in its place, and then their indexes.
fn load(alloc: Global, pairs: &[Pair]) -> Result<Rows, NoMemory>
    requires { is_ascending pair_key pairs.now ≡ true }
    ensures rows { IfOk result (λ rows. rows.lists ≡ loaded pairs.now) }
    ensures spelled { OnOk result (All IsReadWell pairs.now) }
{
    let next_out = next_out_in(pairs).unwrap_or(1);
    let mut rows = Tables::new(alloc, next_out);
    match fill(alloc, &mut rows, pairs) {
        Ok(()) => rows.into_rows(alloc),
        Err(error) => {
            drop(rows);
            Err(error)
        }
    }
}

fn is_format(pair: &Pair) -> bool
    ensures { result ≡ is_format pair.now }
{
    is_same(pair.key.as_slice(), b"f")
        && (is_same(pair.value.as_slice(), &[2]) || is_same(pair.value.as_slice(), &[1]))
}

// Whether a row breaks a rule, by itself or among the pairs.
fn breaks_rule(alloc: Global, store: &Store<'_>, row: &Row) -> Result<bool, NoMemory>
    ensures { IfOk result (λ broken. broken ≡ breaks_rule store.now (Some row.now)) }
{
    Ok(breaks_alone(alloc, row)? || store.breaks_among(alloc, row)?)
}

fn is_broken(alloc: Global, store: &Store<'_>, pair: &Pair) -> Result<bool, NoMemory>
    ensures { IfOk result (λ broken. broken ≡ is_broken_pair store.now pair.now) }
{
    if is_format(pair) || store.is_next_out(pair) {
        return Ok(false);
    }
    match read_one(alloc, pair)? {
        None => Ok(true),
        Some(row) => {
            let broken = breaks_rule(alloc, store, &row);
            drop(row);
            broken
        }
    }
}

// The first pair that breaks a rule.
fn first_broken<'a>(
    alloc: Global,
    store: &Store<'_>,
    pairs: &'a [Pair],
) -> Result<Option<&'a Pair>, NoMemory>
    ensures { IfOk result (λ found. option_copied found ≡ find (is_broken_pair store.now) pairs.now) }
{
    for pair in pairs {
        if is_broken(alloc, store, pair)? {
            return Ok(Some(pair));
        }
    }
    Ok(None)
}

// The key, where no pair has it.
fn missing(store: &Store<'_>, key: Seq<u8>) -> Option<Seq<u8>>
    ensures { result ≡ find (λ k. not (is_some (pair_at k store.now))) (key ∷ []) }
{
    if store.has(key.as_slice()) {
        return None;
    }
    Some(key)
}

// The first needed key that has no pair.
fn first_missing(alloc: Global, store: &Store<'_>) -> Result<Option<Seq<u8>>, NoMemory>
    ensures { IfOk result (λ key. key ≡ first_missing store.now) }
{
    let users = RowKey::Account {
        domain: ACCOUNT_DOMAIN,
        rid: DOMAIN_GROUP_RID_USERS,
    };
    if let Some(key) = missing(store, key_bytes(alloc, &users)?) {
        return Ok(Some(key));
    }
    if let Some(key) = missing(store, key_bytes(alloc, &RowKey::Domain(ACCOUNT_DOMAIN))?) {
        return Ok(Some(key));
    }
    if let Some(key) = missing(store, key_bytes(alloc, &RowKey::Domain(BUILTIN_DOMAIN))?) {
        return Ok(Some(key));
    }
    Ok(missing(store, format_pair(alloc)?.key))
}

fn key_of(alloc: Global, pair: Option<&Pair>) -> Result<Option<Seq<u8>>, NoMemory>
    ensures { IfOk result (λ key. key ≡ option_map (λ p. p.key) (option_copied pair.entry)) }
{
    match pair {
        Some(pair) => Ok(Some(Seq::copy_of(alloc, pair.key.as_slice())?)),
        None => Ok(None),
    }
}

// The smaller of two keys that may be there.
fn smaller(first: Option<Seq<u8>>, second: Option<Seq<u8>>) -> Option<Seq<u8>>
    ensures { result ≡ smaller first second }
{
    match (first, second) {
        (None, second) => second,
        (Some(first), None) => Some(first),
        (Some(first), Some(second)) => {
            if second.as_slice().cmp(first.as_slice()).is_lt() {
                Some(second)
            } else {
                Some(first)
            }
        }
    }
}

#[tactic(auto, unfolding(crate::specs::Loading::smallest_broken))]
fn smallest_broken(alloc: Global, pairs: &[Pair], rows: &Rows) -> Result<Option<Seq<u8>>, NoMemory>
    requires { IsLoaded pairs.now rows.now.lists }
    ensures { IfOk result (λ key. key ≡ smallest_broken pairs.now) }
{
    let store = Store::new(pairs, rows);
    let broken = first_broken(alloc, &store, pairs)?;
    let broken = key_of(alloc, broken)?;
    let missing = first_missing(alloc, &store)?;
    Ok(smaller(broken, missing))
}

// The rows of pairs by ascending key.
fn read_ascending(alloc: Global, pairs: &[Pair]) -> Result<Rows, PairsError>
    requires { is_ascending pair_key pairs.now ≡ true }
    ensures sound { IfOk result (λ rows. IsSoundRows rows.lists) }
    ensures pairs { IfOk result (λ rows. HoldPairs rows.lists (migrated pairs.now)) }
    ensures unbroken { OnOk result (AreUnbroken pairs.now) }
    ensures broken { IfErr result (BadPairs pairs.now) }
{
    written_bytes_are_read();
    written_bytes_have_lengths();
    read_bytes_are_written();
    equal_sids_are_one();
    same_is_equivalence();
    let rows = load(alloc, pairs)?;
    match smallest_broken(alloc, pairs, &rows) {
        Ok(None) => Ok(rows),
        Ok(Some(key)) => {
            drop(rows);
            Err(PairsError::BadPair(key))
        }
        Err(AllocError) => {
            drop(rows);
            Err(PairsError::Memory)
        }
    }
}

// Whether one of the pairs has the key.
fn has_key(pairs: &[Pair], key: &[u8]) -> bool
    ensures { result ≡ list_any (λ q. same_key key.now q.key) pairs.now }
{
    pairs
        .iter()
        .any(|pair| key.cmp(pair.key.as_slice()).is_eq())
}

// The first pair with the key.
fn first_at<'a>(pairs: &'a [Pair], key: &[u8]) -> Option<&'a Pair>
    ensures { option_copied result ≡ pair_at key.now pairs.now }
{
    for pair in pairs {
        if key.cmp(pair.key.as_slice()).is_eq() {
            return Some(pair);
        }
    }
    None
}

/// Whether the pairs are of format 1, which is read and never written.
pub fn is_old(pairs: &[Pair]) -> bool
    ensures { result ≡ is_old pairs.now }
{
    match first_at(pairs, b"f") {
        Some(pair) => is_same(&[1], pair.value.as_slice()),
        None => false,
    }
}

/// The change that takes pairs of format 1 to the newest format.
pub fn migration(alloc: Global) -> Result<Change, NoMemory>
    ensures { IfOk result (λ change. change ≡ migration) }
{
    let pair = format_pair(alloc)?;
    Ok(Change {
        key: pair.key,
        value: Some(pair.value),
    })
}

/// Whether no key stands twice. It takes time as the square of how many pairs there are: pairs that ascend need no
/// test.
pub fn keys_differ(pairs: &[Pair]) -> bool
    ensures { result ≡ keys_differ pairs.now }
{
    let mut left = pairs;
    while let Some((pair, others)) = left.split_first() {
        if has_key(others, pair.key.as_slice()) {
            return false;
        }
        left = others;
    }
    true
}

// Equal pairs, by ascending key.
fn sorted(alloc: Global, pairs: &[Pair]) -> Result<Vec<Pair>, NoMemory>
    requires { keys_differ pairs.now ≡ true }
    ensures same { IfOk result (λ sorted. IsPermutation pairs.now sorted.items) }
    ensures ascending { IfOk result (λ sorted. is_ascending pair_key sorted.items ≡ true) }
{
    let mut copies = copies(alloc, pairs)?;
    copies.sort_by(|left, right| left.key.as_slice().cmp(right.key.as_slice()))?;
    Ok(copies)
}

fn copies(alloc: Global, pairs: &[Pair]) -> Result<Vec<Pair>, NoMemory>
    ensures { IfOk result (λ copies. copies.items ≡ pairs.now) }
{
    let mut copies = Vec::with_capacity(alloc, pairs.len())?;
    for pair in pairs {
        copies.push(pair.copy(alloc)?)?;
    }
    Ok(copies)
}

fn read_pairs(alloc: Global, pairs: &[Pair]) -> Result<Rows, PairsError>
    requires { keys_differ pairs.now ≡ true }
    ensures sound { IfOk result (λ rows. IsSoundRows rows.lists) }
    ensures pairs { IfOk result (λ rows. HoldPairs rows.lists (migrated pairs.now)) }
    ensures unbroken { OnOk result (AreUnbroken pairs.now) }
    ensures broken { IfErr result (BadPairs pairs.now) }
{
    if is_ascending(pairs) {
        return read_ascending(alloc, pairs);
    }
    let ascending = sorted(alloc, pairs)?;
    read_ascending(alloc, &ascending)
}

impl Rows {
    /// The rows of pairs of which no key stands twice, in any order, where they break no rule. Else the smallest key
    /// that is broken. Pairs of format 1 are read too: the rows have the pairs that these are once they are migrated.
    /// Pairs by ascending key, as a keeper loads them, aren't sorted again.
    pub fn from_pairs(alloc: Global, pairs: &[Pair]) -> Result<Rows, PairsError>
        requires { keys_differ pairs.now ≡ true }
        ensures sound { IfOk result (λ rows. IsSoundRows rows.lists) }
        ensures pairs { IfOk result (λ rows. HoldPairs rows.lists (migrated pairs.now)) }
        ensures unbroken { OnOk result (AreUnbroken pairs.now) }
        ensures broken { IfErr result (BadPairs pairs.now) }
    {
        read_pairs(alloc, pairs)
    }
}
