// The operations that create an account of a domain.
ghost use Rattle.std.specs.Prelude.{◌≡◌, ◌==◌, [], ◌∷◌, ◌++◌, true, false, IfOk, OnErr, Some};
ghost use Rattle.std.specs.Option.{option_copied};
ghost use Rattle.acct_tables.specs.Keys.{builtin_domain};
ghost use Rattle.acct_rows.specs.Rows.{domain_at};
ghost use Rattle.acct_tables.specs.Good.{is_user_type};
ghost use Rattle.acct_tables.specs.declared.row.Row.TheVariants as row;
ghost use Rattle.acct_rules.specs.Asked.{made_name};
ghost use Rattle.acct_rules.specs.Planned.{decision, first_failed, none_fails};
ghost use Rattle.samr_objects.specs.Accounts.{gives_no_rid, new_conditions, new_rid, risen, risen_row, new_account};
ghost use Rattle.samr_objects.specs.Accounts.{new_rows, new_control, new_member, create_group, create_alias};
ghost use Rattle.samr_objects.specs.Accounts.{create_user};

use crate::naming::{gives_no_rid, refused_name};
use crate::plans::one_row;
use acct_base::Seq;
use acct_calls::{Args, Name};
use acct_codes::Kind;
use acct_codes::group_attribute::NEW_GROUP_ATTRIBUTES;
use acct_codes::rid::DOMAIN_GROUP_RID_USERS;
use acct_codes::status::{
    STATUS_INSUFFICIENT_RESOURCES, STATUS_INVALID_PARAMETER, STATUS_NOT_SUPPORTED,
};
use acct_codes::user_control::{
    USER_ACCOUNT_DISABLED, USER_NORMAL_ACCOUNT, USER_PASSWORD_NOT_REQUIRED,
    USER_SERVER_TRUST_ACCOUNT, USER_WORKSTATION_TRUST_ACCOUNT,
};
use acct_rows::{AccountRow, BUILTIN_DOMAIN, DomainRow, MemberRow, Object, Row, Rows};
use acct_rules::{
    NoMemory, Planned, creates, desired_access, made_name, made_type, refusal, text_or_empty,
};
use std::alloc::Global;

// The domain has aliases alone.
fn has_aliases_alone(number: u8) -> bool
    ensures { result ≡ (number == builtin_domain) }
{
    number == BUILTIN_DOMAIN
}

// The status that refuses a new account, where one does: its name is refused, or its domain has no RID for it.
fn refused_account(rows: &Rows, kind: Kind, domain: u8, args: &Args) -> Option<u32>
    ensures { result ≡ first_failed (new_conditions rows.now.lists kind domain args.now) }
{
    if let Some(status) = refused_name(rows, kind, domain, made_name(args), None) {
        return Some(status);
    }
    if gives_no_rid(rows.domain(domain)) {
        return Some(STATUS_INSUFFICIENT_RESOURCES);
    }
    None
}

// The next RID of the domain.
fn new_rid(rows: &Rows, domain: u8) -> u32
    ensures { result ≡ new_rid rows.now.lists domain }
{
    match rows.domain(domain) {
        Some(domain) => domain.next_rid,
        None => 0,
    }
}

// The row of a domain whose next RID was taken.
fn risen(alloc: Global, domain: &DomainRow) -> Result<DomainRow, NoMemory>
    requires { gives_no_rid (Some domain.now) ≡ false }
    ensures { IfOk result (λ row. row ≡ risen domain.now) }
{
    Ok(DomainRow {
        next_rid: domain.next_rid + 1,
        ..domain.copy(alloc)?
    })
}

// An account of the kind with the next RID of its domain and the name that is asked for.
fn new_account(
    alloc: Global,
    rows: &Rows,
    kind: Kind,
    domain: u8,
    args: &Args,
) -> Result<AccountRow, NoMemory>
    ensures { IfOk result (λ row. row ≡ new_account rows.now.lists kind domain args.now) }
{
    Ok(AccountRow {
        domain,
        rid: new_rid(rows, domain),
        kind,
        name: text_or_empty(alloc, made_name(args))?,
        full_name: Name::from_units(Vec::new(alloc)),
        comment: Name::from_units(Vec::new(alloc)),
        bits: 0,
        primary: 0,
    })
}

// The row of a domain whose next RID was taken, where there is one.
fn risen_row(alloc: Global, domain: Option<&DomainRow>) -> Result<Seq<Row>, NoMemory>
    requires { gives_no_rid (option_copied domain) ≡ false }
    ensures { IfOk result (λ rows. rows ≡ risen_row (option_copied domain.entry)) }
{
    match domain {
        Some(domain) => one_row(alloc, Row::Domain(risen(alloc, domain)?)),
        None => Ok(Seq::new(alloc)),
    }
}

// The row of its domain, whose next RID the account takes, and its own.
fn new_rows(alloc: Global, rows: &Rows, account: AccountRow) -> Result<Seq<Row>, NoMemory>
    requires { gives_no_rid (domain_at rows.now.lists account.domain) ≡ false }
    ensures { IfOk result (λ puts. puts ≡ new_rows rows.now.lists account) }
{
    match risen_row(alloc, rows.domain(account.domain)) {
        Ok(puts) => puts.with(Row::Account(account)),
        Err(full) => {
            drop(account);
            Err(full)
        }
    }
}

/// SamrCreateGroupInDomain (MS-SAMR 3.1.5.4.2): creates a group of the account domain.
pub fn create_group(
    alloc: Global,
    rows: &Rows,
    domain: Object,
    args: &Args,
) -> Result<Planned, NoMemory>
    ensures decided { IfOk result (λ p. p ≡ decision (create_group rows.now.lists domain args.now)) }
    ensures frugal { OnErr result (none_fails (create_group rows.now.lists domain args.now).conditions ≡ true) }
{
    let number = domain.domain();
    if has_aliases_alone(number) {
        return Ok(refusal(alloc, STATUS_NOT_SUPPORTED));
    }
    if let Some(status) = refused_account(rows, Kind::Group, number, args) {
        return Ok(refusal(alloc, status));
    }
    let account = AccountRow {
        bits: NEW_GROUP_ATTRIBUTES,
        ..new_account(alloc, rows, Kind::Group, number, args)?
    };
    let rid = account.rid;
    let puts = new_rows(alloc, rows, account)?;
    Ok(creates(alloc, Object::Group(rid), desired_access(args), rid, puts))
}

/// SamrCreateAliasInDomain (MS-SAMR 3.1.5.4.3): creates an alias of the domain, which may be BUILTIN.
pub fn create_alias(
    alloc: Global,
    rows: &Rows,
    domain: Object,
    args: &Args,
) -> Result<Planned, NoMemory>
    ensures decided { IfOk result (λ p. p ≡ decision (create_alias rows.now.lists domain args.now)) }
    ensures frugal { OnErr result (none_fails (create_alias rows.now.lists domain args.now).conditions ≡ true) }
{
    let number = domain.domain();
    if let Some(status) = refused_account(rows, Kind::Alias, number, args) {
        return Ok(refusal(alloc, status));
    }
    let account = new_account(alloc, rows, Kind::Alias, number, args)?;
    let alias = Object::Alias(number, account.rid);
    let rid = account.rid;
    let puts = new_rows(alloc, rows, account)?;
    Ok(creates(alloc, alias, desired_access(args), rid, puts))
}

// Whether the bits are those of one type of user.
fn is_user_type(bits: u32) -> bool
    ensures { result ≡ is_user_type bits }
{
    bits == USER_NORMAL_ACCOUNT
        || bits == USER_WORKSTATION_TRUST_ACCOUNT
        || bits == USER_SERVER_TRUST_ACCOUNT
}

// The control of a new user of a type: it is disabled, and a normal one needs no password.
fn new_control(kind: u32) -> u32
    requires { is_user_type kind ≡ true }
    ensures { result ≡ new_control kind }
{
    if kind == USER_NORMAL_ACCOUNT {
        USER_NORMAL_ACCOUNT + USER_PASSWORD_NOT_REQUIRED + USER_ACCOUNT_DISABLED
    } else {
        kind + USER_ACCOUNT_DISABLED
    }
}

// The user as a member of the group of all users.
fn new_member(rid: u32) -> MemberRow
    ensures { result ≡ new_member rid }
{
    MemberRow {
        group: DOMAIN_GROUP_RID_USERS,
        user: rid,
        attributes: NEW_GROUP_ATTRIBUTES,
    }
}

// The rows of a new user: those of its account, and its membership of the group of all users.
fn user_rows(alloc: Global, rows: &Rows, user: AccountRow) -> Result<Seq<Row>, NoMemory>
    requires { gives_no_rid (domain_at rows.now.lists user.domain) ≡ false }
    ensures { IfOk result (λ puts. puts ≡ new_rows rows.now.lists user ++ row.Member (new_member user.rid) ∷ []) }
{
    let rid = user.rid;
    let mut puts = new_rows(alloc, rows, user)?;
    puts.push(Row::Member(new_member(rid)))?;
    Ok(puts)
}

/// SamrCreateUser2InDomain (MS-SAMR 3.1.5.4.4), and SamrCreateUserInDomain (3.1.5.4.5): creates a user of the account
/// domain, which is disabled, as a member of the group of all users.
pub fn create_user(
    alloc: Global,
    rows: &Rows,
    domain: Object,
    args: &Args,
) -> Result<Planned, NoMemory>
    ensures decided { IfOk result (λ p. p ≡ decision (create_user rows.now.lists domain args.now)) }
    ensures frugal { OnErr result (none_fails (create_user rows.now.lists domain args.now).conditions ≡ true) }
{
    let number = domain.domain();
    if has_aliases_alone(number) {
        return Ok(refusal(alloc, STATUS_NOT_SUPPORTED));
    }
    let bits = made_type(args);
    if !is_user_type(bits) {
        return Ok(refusal(alloc, STATUS_INVALID_PARAMETER));
    }
    if let Some(status) = refused_account(rows, Kind::User, number, args) {
        return Ok(refusal(alloc, status));
    }
    let account = AccountRow {
        bits: new_control(bits),
        primary: DOMAIN_GROUP_RID_USERS,
        ..new_account(alloc, rows, Kind::User, number, args)?
    };
    let rid = account.rid;
    let puts = user_rows(alloc, rows, account)?;
    Ok(creates(alloc, Object::User(rid), desired_access(args), rid, puts))
}
