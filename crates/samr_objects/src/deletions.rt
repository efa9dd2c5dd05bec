// The operations that delete an account of a domain.
ghost use Rattle.std.specs.Prelude.{◌≡◌, true, Some, IfOk, OnErr};
ghost use Rattle.acct_tables.specs.Keys.{rid_of};
ghost use Rattle.acct_rules.specs.Planned.{decision, none_fails};
ghost use Rattle.samr_objects.specs.Accounts.{is_special, account_sid, keys_of, deletes, delete_group, delete_alias};
ghost use Rattle.samr_objects.specs.Accounts.{delete_user};

use acct_base::Seq;
use acct_calls::{Args, Outs, ZERO_HANDLE};
use acct_codes::rid::FIRST_CREATED_RID;
use acct_codes::status::{STATUS_MEMBERS_PRIMARY_GROUP, STATUS_SPECIAL_ACCOUNT, STATUS_SUCCESS};
use acct_rows::{Object, Plan, RowKey, Rows};
use acct_rules::{Effect, NoMemory, Planned, answers, refusal};
use dtyp_sid::Sid;
use std::alloc::Global;

// The account is well-known.
fn is_special(object: &Object) -> bool
    ensures { result ≡ is_special object.now }
{
    object.rid() < FIRST_CREATED_RID
}

// The keys of an account of a SID, of its security descriptor, and of every row that names it.
fn naming(alloc: Global, rows: &Rows, object: &Object, sid: Sid) -> Result<Seq<RowKey>, NoMemory>
    ensures { IfOk result (λ keys. keys ≡ keys_of rows.now.lists object.now (Some sid)) }
{
    let domain = object.domain();
    let rid = object.rid();
    let mut keys = Seq::new(alloc);
    keys.push(RowKey::Desc(*object))?;
    let keys = rows.with_member_keys(keys, domain, rid)?;
    let mut keys = rows.with_alias_keys(keys, domain, rid, &sid)?;
    keys.push(RowKey::Account { domain, rid })?;
    Ok(keys)
}

fn account_sid(rows: &Rows, object: &Object) -> Option<Sid>
    ensures { result ≡ account_sid rows.now.lists object.now }
{
    match rows.domain(object.domain()) {
        Some(domain) => domain.sid.with_rid(object.rid()),
        None => None,
    }
}

fn keys_of(alloc: Global, rows: &Rows, object: &Object) -> Result<Seq<RowKey>, NoMemory>
    ensures { let sid = account_sid rows.now.lists object.now in
        IfOk result (λ keys. keys ≡ keys_of rows.now.lists object.now sid) }
{
    match account_sid(rows, object) {
        Some(sid) => naming(alloc, rows, object, sid),
        None => Ok(Seq::new(alloc)),
    }
}

fn deletes(alloc: Global, rows: &Rows, object: &Object) -> Result<Planned, NoMemory>
    ensures { IfOk result (λ p. p ≡ deletes rows.now.lists object.now) }
{
    let removes = keys_of(alloc, rows, object)?;
    let puts = Seq::new(alloc);
    Ok(Planned {
        plan: Plan { puts, removes },
        effect: Effect::Deletes(*object),
        ..answers(alloc, STATUS_SUCCESS, Outs::Handle(ZERO_HANDLE))
    })
}

/// SamrDeleteGroup (MS-SAMR 3.1.5.7.1): deletes a group that is no user's primary group, with its members.
pub fn delete_group(
    alloc: Global,
    rows: &Rows,
    group: Object,
    args: &Args,
) -> Result<Planned, NoMemory>
    ensures decided { IfOk result (λ p. p ≡ decision (delete_group rows.now.lists group args.now)) }
    ensures frugal { OnErr result (none_fails (delete_group rows.now.lists group args.now).conditions ≡ true) }
{
    if is_special(&group) {
        return Ok(refusal(alloc, STATUS_SPECIAL_ACCOUNT));
    }
    if rows.is_primary(group.rid()) {
        return Ok(refusal(alloc, STATUS_MEMBERS_PRIMARY_GROUP));
    }
    deletes(alloc, rows, &group)
}

/// SamrDeleteAlias (MS-SAMR 3.1.5.7.2): deletes an alias with its members.
pub fn delete_alias(
    alloc: Global,
    rows: &Rows,
    alias: Object,
    args: &Args,
) -> Result<Planned, NoMemory>
    ensures decided { IfOk result (λ p. p ≡ decision (delete_alias rows.now.lists alias args.now)) }
    ensures frugal { OnErr result (none_fails (delete_alias rows.now.lists alias args.now).conditions ≡ true) }
{
    if is_special(&alias) {
        return Ok(refusal(alloc, STATUS_SPECIAL_ACCOUNT));
    }
    deletes(alloc, rows, &alias)
}

/// SamrDeleteUser (MS-SAMR 3.1.5.7.3): deletes a user, which is no member from then on.
pub fn delete_user(
    alloc: Global,
    rows: &Rows,
    user: Object,
    args: &Args,
) -> Result<Planned, NoMemory>
    ensures decided { IfOk result (λ p. p ≡ decision (delete_user rows.now.lists user args.now)) }
    ensures frugal { OnErr result (none_fails (delete_user rows.now.lists user args.now).conditions ≡ true) }
{
    if is_special(&user) {
        return Ok(refusal(alloc, STATUS_SPECIAL_ACCOUNT));
    }
    deletes(alloc, rows, &user)
}
