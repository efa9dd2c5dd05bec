// The operation that shows what the policy is, by information classes.
ghost use Rattle.std.specs.Prelude.{◌≡◌, true, IfOk, OnErr};
ghost use Rattle.std.specs.Option.{option_copied, option_map};
ghost use Rattle.acct_rules.specs.Planned.{decision, none_fails};
ghost use Rattle.lsad_rights.specs.Accounts.{is_shown, place_of, query_policy};

use acct_calls::{Args, Info, Outs};
use acct_codes::info_class::{
    POLICY_ACCOUNT_DOMAIN_INFORMATION, POLICY_PRIMARY_DOMAIN_INFORMATION,
};
use acct_codes::status::{STATUS_INVALID_INFO_CLASS, STATUS_SUCCESS};
use acct_rows::{ACCOUNT_DOMAIN, DomainRow, Object, Rows};
use acct_rules::{NoMemory, Planned, answers, class_of, refusal};
use std::alloc::Global;

fn is_shown(class: u16) -> bool
    ensures { result ≡ is_shown class }
{
    class == POLICY_PRIMARY_DOMAIN_INFORMATION || class == POLICY_ACCOUNT_DOMAIN_INFORMATION
}

fn place_of(alloc: Global, domain: Option<&DomainRow>) -> Result<Option<Info>, NoMemory>
    ensures { IfOk result (λ value. value ≡ option_map place_of (option_copied domain.entry)) }
{
    match domain {
        Some(domain) => Ok(Some(Info::Place(domain.name.copy(alloc)?, domain.sid))),
        None => Ok(None),
    }
}

/// LsarQueryInformationPolicy and LsarQueryInformationPolicy2 (MS-LSAD 3.1.4.4.4, 3.1.4.4.3): the account domain, as
/// the domain that the server is in, or as that of its accounts.
pub fn query_policy(
    alloc: Global,
    rows: &Rows,
    policy: Object,
    args: &Args,
) -> Result<Planned, NoMemory>
    ensures decided { IfOk result (λ p. p ≡ decision (query_policy rows.now.lists policy args.now)) }
    ensures frugal { OnErr result (none_fails (query_policy rows.now.lists policy args.now).conditions ≡ true) }
{
    let class = class_of(args);
    if !is_shown(class) {
        return Ok(refusal(alloc, STATUS_INVALID_INFO_CLASS));
    }
    let value = place_of(alloc, rows.domain(ACCOUNT_DOMAIN))?;
    Ok(answers(alloc, STATUS_SUCCESS, Outs::Shown { class, value }))
}
