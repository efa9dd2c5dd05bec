// The operations that show what a domain or an account is, by information classes.
ghost use Rattle.std.specs.Prelude.{◌≡◌, true, IfOk, OnErr, length, is_some};
ghost use Rattle.std.specs.Option.{option_copied};
ghost use Rattle.acct_calls.specs.declared.info.Info.TheVariants as info;
ghost use Rattle.acct_rules.specs.Planned.{decision, none_fails};
ghost use Rattle.samr_objects.specs.Settings.{member_count, alias_member_count, value_of, domain_classes};
ghost use Rattle.samr_objects.specs.Settings.{group_classes, alias_classes, user_classes, shown_by, shows, account_of};
ghost use Rattle.samr_objects.specs.Settings.{query_domain, query_group, query_alias, query_user};

use acct_calls::{Args, Info, Name, Outs};
use acct_codes::info_class::{
    ALIAS_ADMIN_COMMENT_INFORMATION, ALIAS_GENERAL_INFORMATION, ALIAS_NAME_INFORMATION,
    DOMAIN_NAME_INFORMATION, DOMAIN_OEM_INFORMATION, GROUP_ADMIN_COMMENT_INFORMATION,
    GROUP_ATTRIBUTE_INFORMATION, GROUP_GENERAL_INFORMATION, GROUP_NAME_INFORMATION,
    USER_ACCOUNT_NAME_INFORMATION, USER_ADMIN_COMMENT_INFORMATION, USER_CONTROL_INFORMATION,
    USER_FULL_NAME_INFORMATION, USER_GENERAL_INFORMATION, USER_NAME_INFORMATION,
    USER_PRIMARY_GROUP_INFORMATION,
};
use acct_codes::status::{STATUS_INVALID_INFO_CLASS, STATUS_SUCCESS};
use acct_rows::{AccountRow, DomainRow, Object, Rows};
use acct_rules::{NoMemory, Planned, answers, class_of, refusal};
use std::alloc::Global;

// A value, and a copy of a name beside it.
fn with_copy<T: Drop>(alloc: Global, value: T, name: &Name) -> Result<(T, Name), NoMemory>
    ensures { IfOk result (λ both. both ≡ (value, name.now)) }
{
    let copy = name.copy(alloc)?;
    Ok((value, copy))
}

fn copies(alloc: Global, first: &Name, second: &Name) -> Result<(Name, Name), NoMemory>
    ensures { IfOk result (λ both. both ≡ (first.now, second.now)) }
{
    with_copy(alloc, first.copy(alloc)?, second)
}

fn domain_shows(alloc: Global, domain: &DomainRow, class: u16) -> Result<Option<Info>, NoMemory>
    ensures value { IfOk result (λ value. value ≡ value_of class (domain_classes domain.now)) }
    ensures frugal { OnErr result (is_some (value_of class (domain_classes domain.now)) ≡ true) }
{
    Ok(Some(match class {
        DOMAIN_OEM_INFORMATION => Info::Text(domain.oem.copy(alloc)?),
        DOMAIN_NAME_INFORMATION => Info::Text(domain.name.copy(alloc)?),
        _ => return Ok(None),
    }))
}

// How many members a group has.
fn member_count(rows: &Rows, group: u32) -> u32
    ensures { result ≡ member_count rows.now.lists group }
{
    rows.has_few_rows();
    rows.group_members(group).len() as u32
}

fn group_shows(
    alloc: Global,
    rows: &Rows,
    group: &AccountRow,
    class: u16,
) -> Result<Option<Info>, NoMemory>
    ensures value { IfOk result (λ value. value ≡ value_of class (group_classes rows.now.lists group.now)) }
    ensures frugal { OnErr result (is_some (value_of class (group_classes rows.now.lists group.now)) ≡ true) }
{
    Ok(Some(match class {
        GROUP_GENERAL_INFORMATION => Info::Group(
            group.name.copy(alloc)?,
            group.bits,
            member_count(rows, group.rid),
            group.comment.copy(alloc)?,
        ),
        GROUP_NAME_INFORMATION => Info::Text(group.name.copy(alloc)?),
        GROUP_ATTRIBUTE_INFORMATION => Info::Number(group.bits),
        GROUP_ADMIN_COMMENT_INFORMATION => Info::Text(group.comment.copy(alloc)?),
        _ => return Ok(None),
    }))
}

// How many members an alias has.
fn alias_member_count(rows: &Rows, domain: u8, alias: u32) -> u32
    ensures { result ≡ alias_member_count rows.now.lists domain alias }
{
    rows.has_few_rows();
    rows.alias_members(domain, alias).len() as u32
}

fn alias_shows(
    alloc: Global,
    rows: &Rows,
    alias: &AccountRow,
    class: u16,
) -> Result<Option<Info>, NoMemory>
    ensures value { IfOk result (λ value. value ≡ value_of class (alias_classes rows.now.lists alias.now)) }
    ensures frugal { OnErr result (is_some (value_of class (alias_classes rows.now.lists alias.now)) ≡ true) }
{
    Ok(Some(match class {
        ALIAS_GENERAL_INFORMATION => {
            let (name, comment) = copies(alloc, &alias.name, &alias.comment)?;
            let count = alias_member_count(rows, alias.domain, alias.rid);
            Info::Alias(name, count, comment)
        }
        ALIAS_NAME_INFORMATION => Info::Text(alias.name.copy(alloc)?),
        ALIAS_ADMIN_COMMENT_INFORMATION => Info::Text(alias.comment.copy(alloc)?),
        _ => return Ok(None),
    }))
}

// What a user shows of itself in general.
fn user_in_general(alloc: Global, user: &AccountRow) -> Result<Info, NoMemory>
    ensures { IfOk result (λ shown. shown
        ≡ info.User user.now.name user.now.full_name user.now.primary user.now.comment) }
{
    let names = copies(alloc, &user.name, &user.full_name)?;
    let ((name, full_name), comment) = with_copy(alloc, names, &user.comment)?;
    Ok(Info::User(name, full_name, user.primary, comment))
}

fn user_shows(alloc: Global, user: &AccountRow, class: u16) -> Result<Option<Info>, NoMemory>
    ensures value { IfOk result (λ value. value ≡ value_of class (user_classes user.now)) }
    ensures frugal { OnErr result (is_some (value_of class (user_classes user.now)) ≡ true) }
{
    Ok(Some(match class {
        USER_GENERAL_INFORMATION => user_in_general(alloc, user)?,
        USER_NAME_INFORMATION => {
            let (name, full_name) = copies(alloc, &user.name, &user.full_name)?;
            Info::TwoTexts(name, full_name)
        }
        USER_ACCOUNT_NAME_INFORMATION => Info::Text(user.name.copy(alloc)?),
        USER_FULL_NAME_INFORMATION => Info::Text(user.full_name.copy(alloc)?),
        USER_PRIMARY_GROUP_INFORMATION => Info::Number(user.primary),
        USER_ADMIN_COMMENT_INFORMATION => Info::Text(user.comment.copy(alloc)?),
        USER_CONTROL_INFORMATION => Info::Number(user.bits),
        _ => return Ok(None),
    }))
}

// A class that isn't shown is refused.
fn shows(alloc: Global, class: u16, value: Option<Info>) -> Planned
    ensures { result ≡ decision (shows class value) }
{
    if value.is_none() {
        return refusal(alloc, STATUS_INVALID_INFO_CLASS);
    }
    answers(alloc, STATUS_SUCCESS, Outs::Shown { class, value })
}

fn account_of<'a>(rows: &'a Rows, object: &Object) -> Option<&'a AccountRow>
    ensures { option_copied result ≡ account_of rows.now.lists object.now }
{
    rows.find_rid(object.domain(), object.rid())
}

/// SamrQueryInformationDomain and SamrQueryInformationDomain2 (MS-SAMR 3.1.5.5.2, 3.1.5.5.1): what a domain shows of a
/// class.
pub fn query_domain(
    alloc: Global,
    rows: &Rows,
    domain: Object,
    args: &Args,
) -> Result<Planned, NoMemory>
    ensures decided { IfOk result (λ p. p ≡ decision (query_domain rows.now.lists domain args.now)) }
    ensures frugal { OnErr result (none_fails (query_domain rows.now.lists domain args.now).conditions ≡ true) }
{
    let class = class_of(args);
    let value = match rows.domain(domain.domain()) {
        Some(row) => domain_shows(alloc, row, class)?,
        None => None,
    };
    Ok(shows(alloc, class, value))
}

/// SamrQueryInformationGroup (MS-SAMR 3.1.5.5.3): what a group shows of a class.
pub fn query_group(
    alloc: Global,
    rows: &Rows,
    group: Object,
    args: &Args,
) -> Result<Planned, NoMemory>
    ensures decided { IfOk result (λ p. p ≡ decision (query_group rows.now.lists group args.now)) }
    ensures frugal { OnErr result (none_fails (query_group rows.now.lists group args.now).conditions ≡ true) }
{
    let class = class_of(args);
    let value = match account_of(rows, &group) {
        Some(row) => group_shows(alloc, rows, row, class)?,
        None => None,
    };
    Ok(shows(alloc, class, value))
}

/// SamrQueryInformationAlias (MS-SAMR 3.1.5.5.4): what an alias shows of a class.
pub fn query_alias(
    alloc: Global,
    rows: &Rows,
    alias: Object,
    args: &Args,
) -> Result<Planned, NoMemory>
    ensures decided { IfOk result (λ p. p ≡ decision (query_alias rows.now.lists alias args.now)) }
    ensures frugal { OnErr result (none_fails (query_alias rows.now.lists alias args.now).conditions ≡ true) }
{
    let class = class_of(args);
    let value = match account_of(rows, &alias) {
        Some(row) => alias_shows(alloc, rows, row, class)?,
        None => None,
    };
    Ok(shows(alloc, class, value))
}

/// SamrQueryInformationUser and SamrQueryInformationUser2 (MS-SAMR 3.1.5.5.6, 3.1.5.5.5): what a user shows of a class.
pub fn query_user(
    alloc: Global,
    rows: &Rows,
    user: Object,
    args: &Args,
) -> Result<Planned, NoMemory>
    ensures decided { IfOk result (λ p. p ≡ decision (query_user rows.now.lists user args.now)) }
    ensures frugal { OnErr result (none_fails (query_user rows.now.lists user args.now).conditions ≡ true) }
{
    let class = class_of(args);
    let value = match account_of(rows, &user) {
        Some(row) => user_shows(alloc, row, class)?,
        None => None,
    };
    Ok(shows(alloc, class, value))
}
