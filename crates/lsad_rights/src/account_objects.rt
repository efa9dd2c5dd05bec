// The operations that create, open and delete an account of the policy.
ghost use Rattle.std.specs.Prelude.{◌≡◌, true, IfOk, OnErr};
ghost use Rattle.acct_rules.specs.Asked.{asked_sid};
ghost use Rattle.acct_rules.specs.Planned.{decision, none_fails};
ghost use Rattle.lsad_rights.specs.Accounts.{new_account, new_rows, keys_of, create_account, open_account};
ghost use Rattle.lsad_rights.specs.Accounts.{delete_account};

use crate::found::{account_of_sid, object_of_sid};
use acct_base::Seq;
use acct_calls::{Args, Outs, ZERO_HANDLE};
use acct_codes::status::{
    STATUS_OBJECT_NAME_COLLISION, STATUS_OBJECT_NAME_NOT_FOUND, STATUS_SUCCESS,
};
use acct_rows::{LsaRow, Object, Plan, Row, RowKey, Rows};
use acct_rules::{
    Effect, NoMemory, Opening, Planned, answers, asked_sid, desired_access, opens, refusal,
};
use dtyp_sid::Sid;
use std::alloc::Global;

/// An account without system access and without privileges, which takes no memory.
pub fn new_account(alloc: Global, sid: Sid) -> LsaRow
    ensures { result ≡ new_account sid }
{
    LsaRow {
        sid,
        access: 0,
        privileges: Seq::new(alloc),
    }
}

fn new_rows(alloc: Global, sid: Option<Sid>) -> Result<Seq<Row>, NoMemory>
    ensures { IfOk result (λ rows. rows ≡ new_rows sid) }
{
    let mut rows = Seq::new(alloc);
    if let Some(sid) = sid {
        rows.push(Row::Lsa(new_account(alloc, sid)))?;
    }
    Ok(rows)
}

/// LsarCreateAccount (MS-LSAD 3.1.4.5.1): creates the account of a SID that has none, and opens it.
pub fn create_account(
    alloc: Global,
    rows: &Rows,
    policy: Object,
    args: &Args,
) -> Result<Planned, NoMemory>
    ensures decided { IfOk result (λ p. p ≡ decision (create_account rows.now.lists policy args.now)) }
    ensures frugal { OnErr result (none_fails (create_account rows.now.lists policy args.now).conditions ≡ true) }
{
    if account_of_sid(rows, asked_sid(args)).is_some() {
        return Ok(refusal(alloc, STATUS_OBJECT_NAME_COLLISION));
    }
    let puts = new_rows(alloc, asked_sid(args))?;
    Ok(Planned {
        status: STATUS_SUCCESS,
        outs: Outs::Handle(ZERO_HANDLE),
        plan: Plan {
            puts,
            removes: Seq::new(alloc),
        },
        effect: Effect::Opens(Opening {
            object: object_of_sid(asked_sid(args)),
            desired: desired_access(args),
        }),
    })
}

/// LsarOpenAccount (MS-LSAD 3.1.4.5.3): opens the account of a SID. It takes no memory.
pub fn open_account(
    alloc: Global,
    rows: &Rows,
    policy: Object,
    args: &Args,
) -> Result<Planned, NoMemory>
    ensures decided { IfOk result (λ p. p ≡ decision (open_account rows.now.lists policy args.now)) }
    ensures frugal { OnErr result ⊥ }
{
    if account_of_sid(rows, asked_sid(args)).is_none() {
        return Ok(refusal(alloc, STATUS_OBJECT_NAME_NOT_FOUND));
    }
    let account = object_of_sid(asked_sid(args));
    Ok(opens(alloc, account, desired_access(args)))
}

fn keys_of(alloc: Global, account: &Object) -> Result<Seq<RowKey>, NoMemory>
    ensures { IfOk result (λ keys. keys ≡ keys_of account.now) }
{
    let mut keys = Seq::new(alloc);
    if let Object::Account(sid) = account {
        keys.push(RowKey::Desc(*account))?;
        keys.push(RowKey::Lsa(*sid))?;
    }
    Ok(keys)
}

/// LsarDeleteObject (MS-LSAD 3.1.4.9.3): deletes the account, with every handle to it on each connection.
pub fn delete_account(
    alloc: Global,
    rows: &Rows,
    account: Object,
    args: &Args,
) -> Result<Planned, NoMemory>
    ensures { IfOk result (λ p. p ≡ decision (delete_account rows.now.lists account args.now)) }
{
    let removes = keys_of(alloc, &account)?;
    let puts = Seq::new(alloc);
    Ok(Planned {
        plan: Plan { puts, removes },
        effect: Effect::Deletes(account),
        ..answers(alloc, STATUS_SUCCESS, Outs::Handle(ZERO_HANDLE))
    })
}
