// The operation that lists the accounts of the policy that hold a right.
ghost use Rattle.std.specs.Prelude.{◌≡◌, IfOk, map, Some};
ghost use Rattle.std.specs.List.{filter};
ghost use Rattle.std.specs.Option.{option_copied};
ghost use Rattle.acct_rules.specs.Planned.{decision};
ghost use Rattle.lsad_rights.specs.Listings.{accounts_asked, is_wanted, accounts_wanted, holders_status};
ghost use Rattle.lsad_rights.specs.Listings.{accounts_with_right};

use crate::rights::AccountRight;
use acct_base::Seq;
use acct_calls::{Args, Name, Outs, Sids};
use acct_codes::status::{STATUS_NO_MORE_ENTRIES, STATUS_NO_SUCH_PRIVILEGE, STATUS_SUCCESS};
use acct_rows::{LsaRow, Object, Rows};
use acct_rules::{NoMemory, Planned, answers, asked_name, refusal};
use std::alloc::Global;

/// The accounts that are asked for.
#[derive(Clone, Copy, Debug, PartialEq, Eq)]
pub enum Wanted {
    Each,
    Holders(AccountRight),
}

// Each account, where no name was brought; `None`, where no right has the name.
fn accounts_asked(alloc: Global, name: Option<&Name>) -> Result<Option<Wanted>, NoMemory>
    ensures { IfOk result (λ found. found ≡ accounts_asked (option_copied name.entry)) }
{
    let Some(name) = name else {
        return Ok(Some(Wanted::Each));
    };
    match AccountRight::named(alloc, name)? {
        Some(right) => Ok(Some(Wanted::Holders(right))),
        None => Ok(None),
    }
}

fn is_wanted(account: &LsaRow, wanted: Wanted) -> bool
    ensures { result ≡ is_wanted wanted account.now }
{
    match wanted {
        Wanted::Each => true,
        Wanted::Holders(right) => right.is_held(account),
    }
}

fn accounts_wanted(alloc: Global, rows: &Rows, wanted: Wanted) -> Result<Sids, NoMemory>
    ensures { IfOk result (λ sids. sids ≡ accounts_wanted (Some wanted) rows.now.lists) }
{
    let mut sids = Seq::new(alloc);
    for account in rows.lsa_rows() {
        if is_wanted(account, wanted) {
            sids.push(account.sid)?;
        }
    }
    Ok(sids)
}

fn holders_status(sids: &Sids) -> u32
    ensures { result ≡ holders_status sids.now }
{
    if sids.as_slice().is_empty() {
        STATUS_NO_MORE_ENTRIES
    } else {
        STATUS_SUCCESS
    }
}

/// LsarEnumerateAccountsWithUserRight (MS-LSAD 3.1.4.5.9): the SIDs of the accounts that hold a right, or of all.
pub fn accounts_with_right(
    alloc: Global,
    rows: &Rows,
    policy: Object,
    args: &Args,
) -> Result<Planned, NoMemory>
    ensures { IfOk result (λ p. p ≡ decision (accounts_with_right rows.now.lists policy args.now)) }
{
    let Some(wanted) = accounts_asked(alloc, asked_name(args))? else {
        return Ok(refusal(alloc, STATUS_NO_SUCH_PRIVILEGE));
    };
    let sids = accounts_wanted(alloc, rows, wanted)?;
    Ok(answers(alloc, holders_status(&sids), Outs::SidList(sids)))
}
