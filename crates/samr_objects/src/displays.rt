// The operation that displays the accounts of a domain.
ghost use Rattle.std.specs.Prelude.{◌≡◌, ◌+◌, ◌*◌, ◌^◌, ◌<◌, ◌≤◌, true, [], ◌++◌, IfOk, OnOk, OnErr, length, drop};
ghost use Rattle.std.specs.Prelude.{if◌then◌else◌};
ghost use Rattle.std.specs.List.{filter, sum_by};
ghost use Rattle.acct_codes.specs.Limits.{most_page, page_entry_cost};
ghost use Rattle.acct_rules.specs.Asked.{asked_index, asked_count, asked_length};
ghost use Rattle.acct_rules.specs.Pages.{preferred_room, leaves_some};
ghost use Rattle.acct_rules.specs.Planned.{decision, none_fails};
ghost use Rattle.samr_objects.specs.Enumerations.{is_normal, is_displayed, displayed, display_cost, as_count};
ghost use Rattle.samr_objects.specs.Enumerations.{query_display, account_cost, takes_account, with_account, left_for};
ghost use Rattle.samr_objects.specs.Enumerations.{given_on};

use acct_base::Seq;
use acct_calls::{Args, DisplayRow, DisplayRows, Name, Outs};
use acct_codes::Kind;
use acct_codes::limit::PAGE_ENTRY_COST;
use acct_codes::status::STATUS_INVALID_INFO_CLASS;
use acct_codes::user_control::USER_NORMAL_ACCOUNT;
use acct_layouts::{DisplayArm, display_arm};
use acct_rows::{AccountRow, Object, Rows};
use acct_rules::{
    NoMemory, PageRoom, Planned, answers, asked_count, asked_index, asked_length, class_of,
    page_status, refusal,
};
use std::alloc::Global;

fn is_normal(account: &AccountRow) -> bool
    ensures { result ≡ is_normal account.now }
{
    account.bits & USER_NORMAL_ACCOUNT != 0
}

fn is_displayed(account: &AccountRow, arm: DisplayArm, domain: u8) -> bool
    ensures { result ≡ is_displayed arm domain account.now }
{
    account.domain == domain
        && match arm {
            DisplayArm::User => account.kind == Kind::User && is_normal(account),
            DisplayArm::Group => account.kind == Kind::Group,
        }
}

// A copy of the full name of an account, as it is displayed.
fn full_name(alloc: Global, account: &AccountRow) -> Result<Name, NoMemory>
    ensures { IfOk result (λ name. name ≡ (displayed 0 account.now).full_name) }
{
    match account.kind {
        Kind::User => account.full_name.copy(alloc),
        _ => Ok(Name::from_units(Vec::new(alloc))),
    }
}

// An account as it is displayed at a place.
fn displayed(alloc: Global, place: u32, account: &AccountRow) -> Result<DisplayRow, NoMemory>
    ensures { IfOk result (λ entry. entry ≡ displayed place account.now) }
{
    Ok(DisplayRow {
        index: place,
        rid: account.rid,
        bits: account.bits,
        name: account.name.copy(alloc)?,
        comment: account.comment.copy(alloc)?,
        full_name: full_name(alloc, account)?,
    })
}

// How many units the texts have that an account is displayed with.
fn units_of(account: &AccountRow) -> u128
    ensures units { account_cost account.now ≡ page_entry_cost + 2 * result }
    ensures few { result < 2 ^ 66 }
{
    let full_name = match account.kind {
        Kind::User => account.full_name.units().len(),
        _ => 0,
    };
    account.name.units().len() as u128 + account.comment.units().len() as u128 + full_name as u128
}

// What an account costs as it is displayed, as a number of 32 bits.
fn account_cost(account: &AccountRow) -> u32
    ensures { result ≡ as_count (account_cost account.now) }
{
    let cost = PAGE_ENTRY_COST as u128 + 2 * units_of(account);
    cost.min(u32::MAX as u128) as u32
}

/// A page of what is displayed, that is filled account by account.
#[derive(Drop)]
pub struct DisplayPage {
    pub entries: DisplayRows,
    pub room: PageRoom,
    /// The place of the last entry that was passed over or given.
    pub place: u32,
    /// How many more entries are asked for.
    pub count: u32,
    /// What the entries cost.
    pub returned: u32,
}

impl DisplayPage {
    /// A page without an entry, by what is asked for. It takes no memory.
    pub fn asked(alloc: Global, args: &Args) -> DisplayPage
        ensures entries { result.entries ≡ [] }
        ensures room { result.room ≡ preferred_room (asked_length args.now) }
        ensures place { result.place ≡ asked_index args.now }
        ensures count { result.count ≡ asked_count args.now }
        ensures returned { result.returned ≡ 0 }
    {
        DisplayPage {
            entries: Seq::new(alloc),
            room: PageRoom::preferred(asked_length(args)),
            place: asked_index(args),
            count: asked_count(args),
            returned: 0,
        }
    }

    /// Gives one more account, where it is asked for and there is room for it.
    pub fn give(&mut self, alloc: Global, account: &AccountRow) -> Result<bool, NoMemory>
        requires place { self.old.place + 1 < 2 ^ 32 }
        requires room { self.old.room.left ≤ most_page }
        ensures given { IfOk result (λ given. given ≡ takes_account self.old account.now) }
        ensures page { IfOk result (λ given.
            self.new ≡ if given then with_account account.now self.old else self.old) }
    {
        let cost = account_cost(account);
        if self.count == 0 || !self.room.take(cost as usize) {
            return Ok(false);
        }
        self.place += 1;
        self.count -= 1;
        self.returned = self.returned.saturating_add(cost);
        self.entries.push(displayed(alloc, self.place, account)?)?;
        Ok(true)
    }
}

// Gives the accounts that are displayed while they are asked for and there is room, and tells whether some are left
// after them.
fn give_accounts(
    alloc: Global,
    page: &mut DisplayPage,
    accounts: &[AccountRow],
    arm: DisplayArm,
    domain: u8,
) -> Result<bool, NoMemory>
    requires places { page.old.place + length accounts.now < 2 ^ 32 }
    requires room { page.old.room.left ≤ most_page }
    ensures given { OnOk result (
        let left = filter (is_displayed arm domain) accounts.now in
        page.new.entries ≡ page.old.entries ++ given_on page.old left) }
    ensures returned { OnOk result (
        let left = filter (is_displayed arm domain) accounts.now in
        page.new.returned ≡ as_count (page.old.returned + sum_by display_cost (given_on page.old left))) }
    ensures more { IfOk result (λ more.
        let left = filter (is_displayed arm domain) accounts.now in
        more ≡ leaves_some (given_on page.old left) (left_for page.old left)) }
{
    for account in accounts {
        if is_displayed(account, arm, domain) && !page.give(alloc, account)? {
            return Ok(true);
        }
    }
    Ok(false)
}

// The accounts from a place on.
fn rest_of(accounts: &[AccountRow], place: usize) -> &[AccountRow]
    ensures { result.now ≡ drop place accounts.now }
{
    accounts.get(place..).unwrap_or(&[])
}

// The accounts from where a page begins: after as many that are displayed as the index says.
fn accounts_behind(
    accounts: &[AccountRow],
    arm: DisplayArm,
    domain: u8,
    index: u32,
) -> &[AccountRow]
    requires { length accounts.now < 2 ^ 32 }
    ensures left { filter (is_displayed arm domain) result.now
        ≡ drop index (filter (is_displayed arm domain) accounts.now) }
    ensures places { index + length result.now < 2 ^ 32 }
{
    let mut before = index;
    for (place, account) in accounts.iter().enumerate() {
        if before == 0 {
            return rest_of(accounts, place);
        }
        if is_displayed(account, arm, domain) {
            before -= 1;
        }
    }
    &[]
}

// What the accounts that are displayed cost together.
fn total_cost(accounts: &[AccountRow], arm: DisplayArm, domain: u8) -> u32
    ensures { result ≡ as_count (sum_by account_cost (filter (is_displayed arm domain) accounts.now)) }
{
    let mut total: u32 = 0;
    for account in accounts {
        if is_displayed(account, arm, domain) {
            total = total.saturating_add(account_cost(account));
        }
    }
    total
}

/// SamrQueryDisplayInformation (MS-SAMR 3.1.5.3.3): a page of the normal users or of the groups of the domain, by
/// ascending RID, after as many of them as the index says; as many as are asked for and as are preferred, but one at
/// least where one is left. It walks the accounts, and copies those alone that it gives.
pub fn query_display(
    alloc: Global,
    rows: &Rows,
    domain: Object,
    args: &Args,
) -> Result<Planned, NoMemory>
    ensures decided { IfOk result (λ p. p ≡ decision (query_display rows.now.lists domain args.now)) }
    ensures frugal { OnErr result (none_fails (query_display rows.now.lists domain args.now).conditions ≡ true) }
{
    let class = class_of(args);
    let Some(arm) = display_arm(class) else {
        return Ok(refusal(alloc, STATUS_INVALID_INFO_CLASS));
    };
    rows.has_few_rows();
    let number = domain.domain();
    let accounts = accounts_behind(rows.accounts(), arm, number, asked_index(args));
    let mut page = DisplayPage::asked(alloc, args);
    let more = give_accounts(alloc, &mut page, accounts, arm, number)?;
    let shown = Outs::Display {
        class,
        total: total_cost(accounts, arm, number),
        returned: page.returned,
        entries: page.entries,
    };
    Ok(answers(alloc, page_status(more), shown))
}
