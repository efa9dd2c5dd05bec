// The operations that open an account of a domain.
ghost use Rattle.std.specs.Prelude.{◌≡◌, IfOk, OnErr};
ghost use Rattle.acct_rules.specs.Planned.{decision};
ghost use Rattle.samr_objects.specs.Accounts.{is_missing, open_group, open_alias, open_user};

use acct_calls::Args;
use acct_codes::Kind;
use acct_codes::status::{STATUS_NO_SUCH_ALIAS, STATUS_NO_SUCH_GROUP, STATUS_NO_SUCH_USER};
use acct_rows::{Object, Rows};
use acct_rules::{NoMemory, Planned, asked_rid, desired_access, opens, refusal};
use std::alloc::Global;

// The domain has no account of the kind with the RID that is asked for.
fn is_missing(rows: &Rows, kind: Kind, domain: u8, args: &Args) -> bool
    ensures { result ≡ is_missing rows.now.lists kind domain args.now }
{
    match rows.find_rid(domain, asked_rid(args)) {
        Some(account) => account.kind != kind,
        None => true,
    }
}

/// SamrOpenGroup (MS-SAMR 3.1.5.1.7): opens a group of the domain. It takes no memory.
pub fn open_group(
    alloc: Global,
    rows: &Rows,
    domain: Object,
    args: &Args,
) -> Result<Planned, NoMemory>
    ensures decided { IfOk result (λ p. p ≡ decision (open_group rows.now.lists domain args.now)) }
    ensures frugal { OnErr result ⊥ }
{
    if is_missing(rows, Kind::Group, domain.domain(), args) {
        return Ok(refusal(alloc, STATUS_NO_SUCH_GROUP));
    }
    let group = Object::Group(asked_rid(args));
    Ok(opens(alloc, group, desired_access(args)))
}

/// SamrOpenAlias (MS-SAMR 3.1.5.1.8): opens an alias of the domain. It takes no memory.
pub fn open_alias(
    alloc: Global,
    rows: &Rows,
    domain: Object,
    args: &Args,
) -> Result<Planned, NoMemory>
    ensures decided { IfOk result (λ p. p ≡ decision (open_alias rows.now.lists domain args.now)) }
    ensures frugal { OnErr result ⊥ }
{
    let number = domain.domain();
    if is_missing(rows, Kind::Alias, number, args) {
        return Ok(refusal(alloc, STATUS_NO_SUCH_ALIAS));
    }
    let alias = Object::Alias(number, asked_rid(args));
    Ok(opens(alloc, alias, desired_access(args)))
}

/// SamrOpenUser (MS-SAMR 3.1.5.1.9): opens a user of the domain. It takes no memory.
pub fn open_user(
    alloc: Global,
    rows: &Rows,
    domain: Object,
    args: &Args,
) -> Result<Planned, NoMemory>
    ensures decided { IfOk result (λ p. p ≡ decision (open_user rows.now.lists domain args.now)) }
    ensures frugal { OnErr result ⊥ }
{
    if is_missing(rows, Kind::User, domain.domain(), args) {
        return Ok(refusal(alloc, STATUS_NO_SUCH_USER));
    }
    let user = Object::User(asked_rid(args));
    Ok(opens(alloc, user, desired_access(args)))
}
