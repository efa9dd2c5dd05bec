// The operations that list the accounts of a domain.
ghost use Rattle.std.specs.Prelude.{◌≡◌, ◌++◌, IfOk, OnOk, map};
ghost use Rattle.std.specs.List.{filter};
ghost use Rattle.acct_rules.specs.Pages.{entry_cost, given_in, leaves_some};
ghost use Rattle.acct_rules.specs.Planned.{decision};
ghost use Rattle.samr_objects.specs.Enumerations.{has_one_of, is_wanted, entry_of, list_accounts, list_groups};
ghost use Rattle.samr_objects.specs.Enumerations.{list_aliases, list_users};

use acct_calls::{Args, Outs};
use acct_codes::Kind;
use acct_rows::{AccountRow, Object, Rows};
use acct_rules::{
    NamePage, NoMemory, Planned, answers, asked_context, asked_filter, asked_length, page_status,
};
use std::alloc::Global;

/// The accounts that are listed: those of a domain and of a kind after a RID. Where the filter isn't 0, an account
/// needs one of its bits.
#[derive(Clone, Copy, Debug, PartialEq, Eq)]
pub struct Wanted {
    pub kind: Kind,
    pub domain: u8,
    pub filter: u32,
    pub behind: u32,
}

fn has_one_of(bits: u32, asked: u32) -> bool
    ensures { result ≡ has_one_of asked bits }
{
    asked == 0 || bits & asked != 0
}

fn is_wanted(account: &AccountRow, wanted: Wanted) -> bool
    ensures { result ≡ is_wanted wanted account.now }
{
    account.domain == wanted.domain
        && account.kind == wanted.kind
        && account.rid > wanted.behind
        && has_one_of(account.bits, wanted.filter)
}

// Gives the accounts that are wanted while there is room, and tells whether some are left after them.
fn give_accounts(
    alloc: Global,
    page: &mut NamePage,
    accounts: &[AccountRow],
    wanted: Wanted,
) -> Result<bool, NoMemory>
    ensures given { OnOk result (
        let left = map entry_of (filter (is_wanted wanted) accounts.now) in
        page.new.entries ≡ page.old.entries ++ given_in entry_cost page.old.room left) }
    ensures more { IfOk result (λ more.
        let left = map entry_of (filter (is_wanted wanted) accounts.now) in
        more ≡ leaves_some (given_in entry_cost page.old.room left) left) }
{
    for account in accounts {
        if is_wanted(account, wanted) && !page.give(alloc, account.rid, &account.name)? {
            return Ok(true);
        }
    }
    Ok(false)
}

// The accounts among which are all that are wanted: those that stand before them aren't walked.
fn accounts_left<'a>(rows: &'a Rows, wanted: &Wanted) -> &'a [AccountRow]
    ensures { filter (is_wanted wanted.now) result.now ≡ filter (is_wanted wanted.now) rows.now.lists.accounts }
{
    rows.accounts_behind(wanted.domain, wanted.behind)
}

fn list_accounts(
    alloc: Global,
    rows: &Rows,
    wanted: Wanted,
    preferred: u32,
) -> Result<Planned, NoMemory>
    ensures { IfOk result (λ p. p ≡ decision (list_accounts wanted preferred rows.now.lists)) }
{
    let mut page = NamePage::new(alloc, preferred);
    let accounts = accounts_left(rows, &wanted);
    let more = give_accounts(alloc, &mut page, accounts, wanted)?;
    let context = page.last_rid(wanted.behind);
    let page = Outs::Page {
        context,
        entries: Some(page.entries),
    };
    Ok(answers(alloc, page_status(more), page))
}

/// SamrEnumerateGroupsInDomain (MS-SAMR 3.1.5.2.3): the groups of the domain after a RID, as many as are preferred,
/// but one at least where one is left.
pub fn list_groups(
    alloc: Global,
    rows: &Rows,
    domain: Object,
    args: &Args,
) -> Result<Planned, NoMemory>
    ensures { IfOk result (λ p. p ≡ decision (list_groups rows.now.lists domain args.now)) }
{
    let wanted = Wanted {
        kind: Kind::Group,
        domain: domain.domain(),
        filter: 0,
        behind: asked_context(args),
    };
    list_accounts(alloc, rows, wanted, asked_length(args))
}

/// SamrEnumerateAliasesInDomain (MS-SAMR 3.1.5.2.4): the aliases of the domain, as groups are listed.
pub fn list_aliases(
    alloc: Global,
    rows: &Rows,
    domain: Object,
    args: &Args,
) -> Result<Planned, NoMemory>
    ensures { IfOk result (λ p. p ≡ decision (list_aliases rows.now.lists domain args.now)) }
{
    let wanted = Wanted {
        kind: Kind::Alias,
        domain: domain.domain(),
        filter: 0,
        behind: asked_context(args),
    };
    list_accounts(alloc, rows, wanted, asked_length(args))
}

/// SamrEnumerateUsersInDomain (MS-SAMR 3.1.5.2.5): the users of the domain that have one of the control bits that are
/// asked for, as groups are listed.
pub fn list_users(
    alloc: Global,
    rows: &Rows,
    domain: Object,
    args: &Args,
) -> Result<Planned, NoMemory>
    ensures { IfOk result (λ p. p ≡ decision (list_users rows.now.lists domain args.now)) }
{
    let wanted = Wanted {
        kind: Kind::User,
        domain: domain.domain(),
        filter: asked_filter(args),
        behind: asked_context(args),
    };
    list_accounts(alloc, rows, wanted, asked_length(args))
}
