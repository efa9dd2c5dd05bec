// What a plan changes of the stored pairs.
ghost use Rattle.std.specs.Prelude.{◌≡◌, ◌↔◌, ◌++◌, [], ◌∷◌, false, Some, is_some, option_map, IfSome, IfOk, OnOk};
ghost use Rattle.std.specs.Option.{option_copied};
ghost use Rattle.acct_rows.specs.Changes.{Follow, row_at, stored_at, same_row_key};
ghost use Rattle.acct_rows.specs.Changes.{is_put, has_value, removal, removals};
ghost use Rattle.acct_rows.specs.Changes.{row_written, last_written, rows_written, next_out_written, LastFit};
ghost use Rattle.acct_rows.specs.PairsOf.{AllFit};
ghost use Rattle.acct_rows.specs.Rows.{after, next_past, TakeNumbers};
ghost use Rattle.acct_rows.specs.Sound.{IsSoundRows};
ghost use Rattle.acct_tables.specs.Spelled.{key_of, Fits};

use crate::plan::Plan;
use crate::rows::Rows;
use acct_base::is_same;
use acct_calls::NoMemory;
use acct_keeper::{Change, Pair};
use acct_tables::{Paired, Row, RowKey, key_bytes, next_out_pair, row_key, row_pair};
use dtyp_sid::laws::{
    equal_sids_are_one, read_bytes_are_written, written_bytes_are_read, written_bytes_have_lengths,
};
use std::alloc::Global;

fn is_same_key(left: &RowKey, right: &RowKey) -> bool
    ensures { result ≡ same_row_key left.now right.now }
{
    left == right
}

// Whether one of the rows has the key.
fn is_put(puts: &[Row], key: &RowKey) -> bool
    ensures { result ≡ is_put puts.now key.now }
{
    puts.iter().any(|row| is_same_key(key, &row_key(row)))
}

// Whether there is a row with the key.
fn is_there(rows: &Rows, key: &RowKey) -> bool
    ensures { result ≡ is_some (row_at rows.now.lists key.now) }
{
    match *key {
        RowKey::Domain(number) => rows.domain(number).is_some(),
        RowKey::Account { domain, rid } => rows.find_rid(domain, rid).is_some(),
        RowKey::Member { group, user } => rows.member(group, user).is_some(),
        RowKey::Alias {
            domain,
            alias,
            member,
        } => rows.alias_row(domain, alias, &member).is_some(),
        RowKey::Lsa(sid) => rows.lsa_account(&sid).is_some(),
        RowKey::Desc(object) => rows.descriptor_row(&object).is_some(),
        RowKey::Out(number) => rows.out_row(number).is_some(),
    }
}

#[tactic(auto, unfolding(crate::specs::Changes::removal))]
fn push_removal(
    alloc: Global,
    changes: &mut Vec<Change>,
    rows: &Rows,
    puts: &[Row],
    key: &RowKey,
) -> Result<(), NoMemory>
    ensures { OnOk result (changes.new.items ≡ changes.old.items ++ removal rows.now.lists puts.now key.now) }
{
    if is_there(rows, key) && !is_put(puts, key) {
        changes.push(Change {
            key: key_bytes(alloc, key)?,
            value: None,
        })?;
    }
    Ok(())
}

fn push_removals(
    alloc: Global,
    changes: &mut Vec<Change>,
    rows: &Rows,
    puts: &[Row],
    keys: &[RowKey],
) -> Result<(), NoMemory>
    ensures { OnOk result (changes.new.items ≡ changes.old.items ++ removals rows.now.lists puts.now keys.now) }
{
    for key in keys {
        push_removal(alloc, changes, rows, puts, key)?;
    }
    Ok(())
}

// The pair of a row that was found.
fn found_pair<T: Paired>(alloc: Global, row: Option<&T>) -> Result<Option<Pair>, NoMemory>
    requires { IfSome (option_copied row) T.fits }
    ensures { IfOk result (λ pair. pair ≡ option_map T.stored (option_copied row.entry)) }
{
    match row {
        Some(row) => Ok(Some(row.pair(alloc)?)),
        None => Ok(None),
    }
}

// The pair of the row with the key, where there is one.
fn stored_at(alloc: Global, rows: &Rows, key: RowKey) -> Result<Option<Pair>, NoMemory>
    requires { AllFit rows.now.lists }
    ensures { IfOk result (λ pair. pair ≡ stored_at rows.now.lists key) }
{
    match key {
        RowKey::Domain(number) => found_pair(alloc, rows.domain(number)),
        RowKey::Account { domain, rid } => found_pair(alloc, rows.find_rid(domain, rid)),
        RowKey::Member { group, user } => found_pair(alloc, rows.member(group, user)),
        RowKey::Alias {
            domain,
            alias,
            member,
        } => found_pair(alloc, rows.alias_row(domain, alias, &member)),
        RowKey::Lsa(sid) => found_pair(alloc, rows.lsa_account(&sid)),
        RowKey::Desc(object) => found_pair(alloc, rows.descriptor_row(&object)),
        RowKey::Out(number) => found_pair(alloc, rows.out_row(number)),
    }
}

fn has_value(value: &[u8], pair: &Option<Pair>) -> bool
    ensures { result ≡ has_value value.now pair.now }
{
    match pair {
        Some(pair) => is_same(value, pair.value.as_slice()),
        None => false,
    }
}

// The change that writes a pair.
fn push_pair(changes: &mut Vec<Change>, pair: Pair) -> Result<(), NoMemory>
    ensures { OnOk result (changes.new.items
        ≡ changes.old.items ++ record { key = pair.key; value = Some pair.value } ∷ []) }
{
    changes.push(Change {
        key: pair.key,
        value: Some(pair.value),
    })?;
    Ok(())
}

#[tactic(auto, unfolding(crate::specs::Changes::row_written))]
fn push_row(
    alloc: Global,
    changes: &mut Vec<Change>,
    rows: &Rows,
    row: &Row,
) -> Result<(), NoMemory>
    requires rows { AllFit rows.now.lists }
    requires row { Fits row.now }
    ensures { OnOk result (changes.new.items ≡ changes.old.items ++ row_written rows.now.lists row.now) }
{
    let pair = row_pair(alloc, row)?;
    match stored_at(alloc, rows, row_key(row)) {
        Ok(stored) => {
            let is_stored = has_value(pair.value.as_slice(), &stored);
            drop(stored);
            if is_stored {
                drop(pair);
                return Ok(());
            }
            push_pair(changes, pair)
        }
        Err(error) => {
            drop(pair);
            Err(error)
        }
    }
}

#[tactic(auto, unfolding(crate::specs::Changes::last_written))]
fn push_last(
    alloc: Global,
    changes: &mut Vec<Change>,
    rows: &Rows,
    row: &Row,
    later: &[Row],
) -> Result<(), NoMemory>
    requires rows { AllFit rows.now.lists }
    requires row { is_put later.now (key_of row.now) ≡ false → Fits row.now }
    ensures { OnOk result (changes.new.items ≡ changes.old.items ++ last_written rows.now.lists row.now later.now) }
{
    if is_put(later, &row_key(row)) {
        return Ok(());
    }
    push_row(alloc, changes, rows, row)
}

fn push_rows(
    alloc: Global,
    changes: &mut Vec<Change>,
    rows: &Rows,
    puts: &[Row],
) -> Result<(), NoMemory>
    requires rows { AllFit rows.now.lists }
    requires puts { LastFit puts.now }
    ensures { OnOk result (changes.new.items ≡ changes.old.items ++ rows_written rows.now.lists puts.now) }
{
    let mut left = puts;
    while let Some((row, later)) = left.split_first() {
        push_last(alloc, changes, rows, row, later)?;
        left = later;
    }
    Ok(())
}

// The next out number once rows are put.
fn next_past(next: u64, puts: &[Row]) -> u64
    requires { TakeNumbers next puts.now }
    ensures { result ≡ next_past next puts.now }
{
    let mut next = next;
    for row in puts {
        if let Row::Out(_) = row {
            next += 1;
        }
    }
    next
}

// The next out number is written where it is another.
#[tactic(auto, unfolding(crate::specs::Changes::next_out_written))]
fn push_next_out(
    alloc: Global,
    changes: &mut Vec<Change>,
    next: u64,
    later: u64,
) -> Result<(), NoMemory>
    ensures { OnOk result (changes.new.items ≡ changes.old.items ++ next_out_written next later) }
{
    if later == next {
        return Ok(());
    }
    push_pair(changes, next_out_pair(alloc, later)?)
}

fn plan_changes(alloc: Global, rows: &Rows, plan: &Plan) -> Result<Vec<Change>, NoMemory>
    requires numbers { TakeNumbers rows.now.lists.next_out plan.now.puts }
    requires before { IsSoundRows rows.now.lists }
    requires after { IsSoundRows (after plan.now rows.now.lists) }
    ensures follows { IfOk result (λ changes.
        Follow rows.now.lists (after plan.now rows.now.lists) changes.items) }
    ensures none { IfOk result (λ changes. (changes.items ≡ []) ↔ (after plan.now rows.now.lists ≡ rows.now.lists)) }
{
    equal_sids_are_one();
    written_bytes_are_read();
    written_bytes_have_lengths();
    read_bytes_are_written();
    let puts = plan.puts.as_slice();
    let mut changes = Vec::new(alloc);
    push_removals(alloc, &mut changes, rows, puts, plan.removes.as_slice())?;
    push_rows(alloc, &mut changes, rows, puts)?;
    let next = rows.next_out();
    push_next_out(alloc, &mut changes, next, next_past(next, puts))?;
    Ok(changes)
}

impl Rows {
    /// The changes that take the pairs of these rows to those of the rows after a plan, each key once: none where the
    /// rows stay as they are. Of the rows that the plan puts at a key only the last one is written. Changes of accounts
    /// among them must take the next out numbers in order.
    pub fn changes(&self, alloc: Global, plan: &Plan) -> Result<Vec<Change>, NoMemory>
        requires numbers { TakeNumbers self.now.lists.next_out plan.now.puts }
        requires before { IsSoundRows self.now.lists }
        requires after { IsSoundRows (after plan.now self.now.lists) }
        ensures follows { IfOk result (λ changes.
            Follow self.now.lists (after plan.now self.now.lists) changes.items) }
        ensures none { IfOk result (λ changes.
            (changes.items ≡ []) ↔ (after plan.now self.now.lists ≡ self.now.lists)) }
    {
        plan_changes(alloc, self, plan)
    }
}
