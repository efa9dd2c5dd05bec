// The outbox of account changes: the row that tells of what a plan changes.
ghost use Rattle.std.specs.Prelude.{◌≡◌, ℕ, true, None, Some, is_some, option_map, IfOk, OnErr};
ghost use Rattle.std.specs.Option.{option_copied};
ghost use Rattle.acct_rules.specs.Planned.{has_change, put_account, removed_account};
ghost use Rattle.std.specs.declared.option.Option.{Option};
ghost use Rattle.acct_tables.specs.declared.row.OutRow.{OutRow};
ghost use Rattle.acct_machine.specs.Outbox.{same_account, out_row, told_of_put, told_of_removed, told_by};
ghost use Rattle.acct_machine.specs.Outbox.{account_change, needs_out, IsNeed, with_out, told_planned};

use crate::{Config, NoMemory, Rows};
use acct_codes::status::STATUS_INSUFFICIENT_RESOURCES;
use acct_rows::{AccountRow, OUT_CHANGED, OUT_MADE, OUT_REMOVED, OutRow, Plan, Row, RowKey};
use acct_rules::{Planned, refusal};
use std::alloc::Global;

/// Out numbers lie below this one.
const OUT_END: u64 = 1 << 63;

// The account row that is put.
fn put_account(puts: &[Row]) -> Option<&AccountRow>
    ensures { option_copied result ≡ put_account puts.now }
{
    for row in puts {
        if let Row::Account(account) = row {
            return Some(account);
        }
    }
    None
}

// The domain and the RID of the account row that is removed.
fn removed_account(removes: &[RowKey]) -> Option<(u8, u32)>
    ensures { result ≡ removed_account removes.now }
{
    for key in removes {
        if let RowKey::Account { domain, rid } = key {
            return Some((*domain, *rid));
        }
    }
    None
}

// Two account rows of one key are equal.
fn same_account(left: &AccountRow, right: &AccountRow) -> bool
    ensures { result ≡ same_account left.now right.now }
{
    left.kind == right.kind
        && left.name == right.name
        && left.full_name == right.full_name
        && left.comment == right.comment
        && left.bits == right.bits
        && left.primary == right.primary
}

// What a put of an account row does to what was there: its action, and the row; nothing where it is put again.
fn put_over<'a>(old: Option<&AccountRow>, new: &'a AccountRow) -> Option<(u8, &'a AccountRow)>
    ensures { (number : ℕ) → option_map (λ told. out_row number told.0 told.1.now) result
        ≡ told_of_put number (option_copied old.entry) new.now }
{
    match old {
        None => Some((OUT_MADE, new)),
        Some(old) if same_account(old, new) => None,
        Some(_) => Some((OUT_CHANGED, new)),
    }
}

// What a removal does to what was there: its action, and the row; nothing where there is none.
fn removed_over(old: Option<&AccountRow>) -> Option<(u8, &AccountRow)>
    ensures { (number : ℕ) → option_map (λ told. out_row number told.0 told.1.now) result
        ≡ told_of_removed number (option_copied old.entry) }
{
    match old {
        None => None,
        Some(old) => Some((OUT_REMOVED, old)),
    }
}

// The account row whose key is removed, with the action.
fn removal_of<'a>(rows: &'a Rows, removes: &[RowKey]) -> Option<(u8, &'a AccountRow)>
    ensures { option_map (λ told. out_row rows.now.lists.next_out told.0 told.1.now) result
        ≡ told_by rows.now.lists None (removed_account removes.now) }
{
    match removed_account(removes) {
        None => None,
        Some((domain, rid)) => removed_over(rows.find_rid(domain, rid)),
    }
}

// The account row that a plan makes, changes or removes, with the action: its new value, or its last one.
fn change_of<'a>(rows: &'a Rows, plan: &'a Plan) -> Option<(u8, &'a AccountRow)>
    ensures { option_map (λ told. out_row rows.now.lists.next_out told.0 told.1.now) result
        ≡ account_change rows.now.lists plan.now }
{
    match put_account(plan.puts.as_slice()) {
        None => removal_of(rows, plan.removes.as_slice()),
        Some(account) => put_over(rows.find_rid(account.domain, account.rid), account),
    }
}

// The same where a program is told of changes.
fn told_change<'a>(config: &Config, rows: &'a Rows, plan: &'a Plan) -> Option<(u8, &'a AccountRow)>
    ensures { option_map (λ told. out_row rows.now.lists.next_out told.0 told.1.now) result
        ≡ needs_out config.now rows.now.lists plan.now }
{
    match &config.hook {
        None => None,
        Some(_) => change_of(rows, plan),
    }
}

fn out_row(alloc: Global, number: u64, action: u8, account: &AccountRow) -> Result<OutRow, NoMemory>
    ensures { IfOk result (λ row. row ≡ out_row number action account.now) }
{
    Ok(OutRow {
        number,
        action,
        domain: account.domain,
        rid: account.rid,
        kind: account.kind,
        name: account.name.copy(alloc)?,
    })
}

// What a plan needs for the outbox: nothing, or a row; or it is refused, as the out numbers are at their end.
#[derive(Drop)]
enum Need {
    Nothing,
    Row(OutRow),
    Refusal,
}

// The row of an account, where there is a number for it.
fn need_row(alloc: Global, number: u64, action: u8, account: &AccountRow) -> Result<Need, NoMemory>
    ensures { IfOk result (λ need. IsNeed need (Some (out_row number action account.now))) }
{
    if number >= OUT_END {
        return Ok(Need::Refusal);
    }
    Ok(Need::Row(out_row(alloc, number, action, account)?))
}

fn need_of(alloc: Global, config: &Config, rows: &Rows, plan: &Plan) -> Result<Need, NoMemory>
    ensures need { IfOk result (λ need. IsNeed need (needs_out config.now rows.now.lists plan.now)) }
    ensures frugal { OnErr result (has_change plan.now ≡ true) }
{
    match told_change(config, rows, plan) {
        None => Ok(Need::Nothing),
        Some((action, account)) => need_row(alloc, rows.next_out(), action, account),
    }
}

// A plan with one row more.
fn with_out(mut planned: Planned, row: OutRow) -> Result<Planned, NoMemory>
    ensures { IfOk result (λ more. more ≡ with_out row planned) }
{
    match planned.plan.puts.push(Row::Out(row)) {
        Ok(()) => Ok(planned),
        Err(none) => {
            drop(planned);
            Err(none)
        }
    }
}

// What was decided, with what it needs.
fn fulfilled(alloc: Global, planned: Planned, need: Need) -> Result<Planned, NoMemory>
    ensures told { (o : Option OutRow) → IsNeed need o → IfOk result (λ told. told ≡ told_planned o planned) }
    ensures frugal { (o : Option OutRow) → IsNeed need o → OnErr result (is_some o ≡ true) }
{
    match need {
        Need::Nothing => Ok(planned),
        Need::Row(row) => with_out(planned, row),
        Need::Refusal => {
            drop(planned);
            Ok(refusal(alloc, STATUS_INSUFFICIENT_RESOURCES))
        }
    }
}

/// What was decided, with the out row of the account row that it makes, changes or removes, where the configuration
/// has a program that is told of changes; or a refusal where the out numbers are at their end. Memory may run out only
/// where what was decided changes rows.
pub fn outboxed(
    alloc: Global,
    config: &Config,
    rows: &Rows,
    planned: Planned,
) -> Result<Planned, NoMemory>
    ensures told { IfOk result (λ told.
        told ≡ told_planned (needs_out config.now rows.now.lists planned.plan) planned) }
    ensures frugal { OnErr result (has_change planned.plan ≡ true) }
{
    match need_of(alloc, config, rows, &planned.plan) {
        Ok(need) => fulfilled(alloc, planned, need),
        Err(none) => {
            drop(planned);
            Err(none)
        }
    }
}
