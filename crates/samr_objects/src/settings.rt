// The operations that set information of a domain or an account, by classes.
ghost use Rattle.std.specs.Prelude.{◌≡◌, [], ◌∷◌, true, Some, IfOk, OnOk, OnErr};
ghost use Rattle.std.specs.Option.{option_copied};
ghost use Rattle.acct_codes.specs.declared.kind.Kind.TheVariants as kinds;
ghost use Rattle.acct_codes.specs.Statuses.{status_invalid_parameter};
ghost use Rattle.acct_rows.specs.Rows.{is_of};
ghost use Rattle.acct_tables.specs.Good.{control_is_good};
ghost use Rattle.acct_rules.specs.Asked.{or_empty, put_text};
ghost use Rattle.acct_rules.specs.Planned.{decision, first_failed, none_fails, when};
ghost use Rattle.samr_objects.specs.Settings.{set_field, sets_oem, primary_conditions, field_conditions, with_field};
ghost use Rattle.samr_objects.specs.Settings.{with_oem, account_puts, domain_puts, set_domain, set_account, set_group};
ghost use Rattle.samr_objects.specs.Settings.{set_alias, set_user};

use crate::naming::{is_too_long, refused_name};
use crate::plans::one_row;
use acct_base::Seq;
use acct_calls::{Args, Name};
use acct_codes::Kind;
use acct_codes::info_class::{
    ALIAS_ADMIN_COMMENT_INFORMATION, ALIAS_NAME_INFORMATION, DOMAIN_OEM_INFORMATION,
    GROUP_ADMIN_COMMENT_INFORMATION, GROUP_ATTRIBUTE_INFORMATION, GROUP_NAME_INFORMATION,
    USER_ACCOUNT_NAME_INFORMATION, USER_ADMIN_COMMENT_INFORMATION, USER_CONTROL_INFORMATION,
    USER_FULL_NAME_INFORMATION, USER_PRIMARY_GROUP_INFORMATION,
};
use acct_codes::status::{
    STATUS_INVALID_INFO_CLASS, STATUS_INVALID_PARAMETER, STATUS_MEMBER_NOT_IN_GROUP,
    STATUS_NO_SUCH_GROUP,
};
use acct_codes::user_control::{
    USER_ACCOUNT_DISABLED, USER_NORMAL_ACCOUNT, USER_PASSWORD_NOT_REQUIRED,
    USER_SERVER_TRUST_ACCOUNT, USER_WORKSTATION_TRUST_ACCOUNT,
};
use acct_rows::{ACCOUNT_DOMAIN, AccountRow, DomainRow, Object, Row, Rows};
use acct_rules::{NoMemory, Planned, class_of, put_number, put_text, puts, refusal, text_or_empty};
use std::alloc::Global;

/// What is set of an account.
#[derive(Clone, Copy, Debug, PartialEq, Eq)]
pub enum Field {
    Name,
    FullName,
    Comment,
    /// The attributes of a group.
    Attributes,
    /// The control bits of a user.
    Control,
    /// The primary group of a user.
    Primary,
}

/// What an information class sets of an account of the kind, if it can be set.
pub fn set_field(kind: Kind, class: u16) -> Option<Field>
    ensures { result ≡ set_field kind class }
{
    match (kind, class) {
        (Kind::Group, GROUP_NAME_INFORMATION) => Some(Field::Name),
        (Kind::Group, GROUP_ATTRIBUTE_INFORMATION) => Some(Field::Attributes),
        (Kind::Group, GROUP_ADMIN_COMMENT_INFORMATION) => Some(Field::Comment),
        (Kind::Alias, ALIAS_NAME_INFORMATION) => Some(Field::Name),
        (Kind::Alias, ALIAS_ADMIN_COMMENT_INFORMATION) => Some(Field::Comment),
        (Kind::User, USER_ACCOUNT_NAME_INFORMATION) => Some(Field::Name),
        (Kind::User, USER_FULL_NAME_INFORMATION) => Some(Field::FullName),
        (Kind::User, USER_PRIMARY_GROUP_INFORMATION) => Some(Field::Primary),
        (Kind::User, USER_ADMIN_COMMENT_INFORMATION) => Some(Field::Comment),
        (Kind::User, USER_CONTROL_INFORMATION) => Some(Field::Control),
        _ => None,
    }
}

fn sets_oem(class: u16) -> bool
    ensures { result ≡ sets_oem class }
{
    class == DOMAIN_OEM_INFORMATION
}

const USER_TYPES: u32 = USER_NORMAL_ACCOUNT
    | USER_WORKSTATION_TRUST_ACCOUNT
    | USER_SERVER_TRUST_ACCOUNT;

const KNOWN_CONTROL: u32 = USER_ACCOUNT_DISABLED | USER_PASSWORD_NOT_REQUIRED | USER_TYPES;

// The bits are known ones, exactly one of them a type.
fn control_is_good(bits: u32) -> bool
    ensures { result ≡ control_is_good bits }
{
    bits & KNOWN_CONTROL == bits
        && matches!(
            bits & USER_TYPES,
            USER_NORMAL_ACCOUNT | USER_WORKSTATION_TRUST_ACCOUNT | USER_SERVER_TRUST_ACCOUNT
        )
}

// STATUS_INVALID_PARAMETER, where the value is refused.
fn refused_value(refused: bool) -> Option<u32>
    ensures { result ≡ first_failed (when refused status_invalid_parameter ∷ []) }
{
    if refused {
        Some(STATUS_INVALID_PARAMETER)
    } else {
        None
    }
}

fn is_group(row: Option<&AccountRow>) -> bool
    ensures { result ≡ is_of kinds.Group (option_copied row.entry) }
{
    match row {
        Some(row) => row.kind == Kind::Group,
        None => false,
    }
}

fn refused_primary(rows: &Rows, group: u32, user: u32) -> Option<u32>
    ensures { result ≡ first_failed (primary_conditions rows.now.lists group user) }
{
    if !is_group(rows.find_rid(ACCOUNT_DOMAIN, group)) {
        return Some(STATUS_NO_SUCH_GROUP);
    }
    if rows.member(group, user).is_none() {
        return Some(STATUS_MEMBER_NOT_IN_GROUP);
    }
    None
}

// The status that refuses what a field would be set to, where one does.
fn refused_field(rows: &Rows, kind: Kind, object: &Object, args: &Args, field: Field) -> Option<u32>
    ensures { result ≡ first_failed (field_conditions rows.now.lists kind object.now args.now (Some field)) }
{
    match field {
        Field::Name => {
            let own = Some(object.rid());
            refused_name(rows, kind, object.domain(), put_text(args), own)
        }
        Field::FullName | Field::Comment => refused_value(is_too_long(put_text(args))),
        Field::Attributes => None,
        Field::Control => refused_value(!control_is_good(put_number(args))),
        Field::Primary => refused_primary(rows, put_number(args), object.rid()),
    }
}

// Puts the text that is asked for in the place of another.
fn put_asked(alloc: Global, place: &mut Name, args: &Args) -> Result<(), NoMemory>
    ensures { OnOk result (place.new ≡ or_empty (put_text args.now)) }
{
    *place = text_or_empty(alloc, put_text(args))?;
    Ok(())
}

// Sets the field of a row as it is asked for.
fn put_field(alloc: Global, row: &mut AccountRow, field: Field, args: &Args) -> Result<(), NoMemory>
    ensures { OnOk result (row.new ≡ with_field (Some field) args.now row.old) }
{
    match field {
        Field::Name => put_asked(alloc, &mut row.name, args)?,
        Field::FullName => put_asked(alloc, &mut row.full_name, args)?,
        Field::Comment => put_asked(alloc, &mut row.comment, args)?,
        Field::Attributes | Field::Control => row.bits = put_number(args),
        Field::Primary => row.primary = put_number(args),
    }
    Ok(())
}

// The row with the field as it is asked for.
fn with_field(
    alloc: Global,
    row: &AccountRow,
    field: Field,
    args: &Args,
) -> Result<AccountRow, NoMemory>
    ensures { IfOk result (λ later. later ≡ with_field (Some field) args.now row.now) }
{
    let mut later = row.copy(alloc)?;
    match put_field(alloc, &mut later, field, args) {
        Ok(()) => Ok(later),
        Err(full) => {
            drop(later);
            Err(full)
        }
    }
}

fn account_puts(
    alloc: Global,
    row: Option<&AccountRow>,
    field: Field,
    args: &Args,
) -> Result<Seq<Row>, NoMemory>
    ensures { IfOk result (λ puts. puts ≡ account_puts (Some field) args.now (option_copied row.entry)) }
{
    match row {
        Some(row) => one_row(alloc, Row::Account(with_field(alloc, row, field, args)?)),
        None => Ok(Seq::new(alloc)),
    }
}

// The row of a domain with the OEM information as it is asked for.
fn with_oem(alloc: Global, row: &DomainRow, args: &Args) -> Result<DomainRow, NoMemory>
    ensures { IfOk result (λ later. later ≡ with_oem args.now row.now) }
{
    let mut later = row.copy(alloc)?;
    match put_asked(alloc, &mut later.oem, args) {
        Ok(()) => Ok(later),
        Err(full) => {
            drop(later);
            Err(full)
        }
    }
}

fn domain_puts(alloc: Global, row: Option<&DomainRow>, args: &Args) -> Result<Seq<Row>, NoMemory>
    ensures { IfOk result (λ puts. puts ≡ domain_puts args.now (option_copied row.entry)) }
{
    match row {
        Some(row) => one_row(alloc, Row::Domain(with_oem(alloc, row, args)?)),
        None => Ok(Seq::new(alloc)),
    }
}

/// SamrSetInformationDomain (MS-SAMR 3.1.5.6.1): sets the OEM information of a domain.
pub fn set_domain(
    alloc: Global,
    rows: &Rows,
    domain: Object,
    args: &Args,
) -> Result<Planned, NoMemory>
    ensures decided { IfOk result (λ p. p ≡ decision (set_domain rows.now.lists domain args.now)) }
    ensures frugal { OnErr result (none_fails (set_domain rows.now.lists domain args.now).conditions ≡ true) }
{
    if !sets_oem(class_of(args)) {
        return Ok(refusal(alloc, STATUS_INVALID_INFO_CLASS));
    }
    if is_too_long(put_text(args)) {
        return Ok(refusal(alloc, STATUS_INVALID_PARAMETER));
    }
    let row = rows.domain(domain.domain());
    Ok(puts(alloc, domain_puts(alloc, row, args)?))
}

// Sets what the class sets of an account of the kind.
fn set_account(
    alloc: Global,
    rows: &Rows,
    kind: Kind,
    object: &Object,
    args: &Args,
) -> Result<Planned, NoMemory>
    ensures decided { IfOk result (λ p. p ≡ decision (set_account kind rows.now.lists object.now args.now)) }
    ensures frugal { OnErr result
        (none_fails (set_account kind rows.now.lists object.now args.now).conditions ≡ true) }
{
    let Some(field) = set_field(kind, class_of(args)) else {
        return Ok(refusal(alloc, STATUS_INVALID_INFO_CLASS));
    };
    if let Some(status) = refused_field(rows, kind, object, args, field) {
        return Ok(refusal(alloc, status));
    }
    let row = rows.find_rid(object.domain(), object.rid());
    Ok(puts(alloc, account_puts(alloc, row, field, args)?))
}

/// SamrSetInformationGroup (MS-SAMR 3.1.5.6.2): sets the name, the attributes or the comment of a group.
pub fn set_group(
    alloc: Global,
    rows: &Rows,
    group: Object,
    args: &Args,
) -> Result<Planned, NoMemory>
    ensures decided { IfOk result (λ p. p ≡ decision (set_group rows.now.lists group args.now)) }
    ensures frugal { OnErr result (none_fails (set_group rows.now.lists group args.now).conditions ≡ true) }
{
    set_account(alloc, rows, Kind::Group, &group, args)
}

/// SamrSetInformationAlias (MS-SAMR 3.1.5.6.3): sets the name or the comment of an alias.
pub fn set_alias(
    alloc: Global,
    rows: &Rows,
    alias: Object,
    args: &Args,
) -> Result<Planned, NoMemory>
    ensures decided { IfOk result (λ p. p ≡ decision (set_alias rows.now.lists alias args.now)) }
    ensures frugal { OnErr result (none_fails (set_alias rows.now.lists alias args.now).conditions ≡ true) }
{
    set_account(alloc, rows, Kind::Alias, &alias, args)
}

/// SamrSetInformationUser and SamrSetInformationUser2 (MS-SAMR 3.1.5.6.5, 3.1.5.6.4): sets the name, the full name, the
/// primary group, the comment or the control of a user.
pub fn set_user(alloc: Global, rows: &Rows, user: Object, args: &Args) -> Result<Planned, NoMemory>
    ensures decided { IfOk result (λ p. p ≡ decision (set_user rows.now.lists user args.now)) }
    ensures frugal { OnErr result (none_fails (set_user rows.now.lists user args.now).conditions ≡ true) }
{
    set_account(alloc, rows, Kind::User, &user, args)
}
