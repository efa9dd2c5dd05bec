// The rows that a database without rows begins with.
ghost use Rattle.std.specs.Prelude.{◌≡◌, ◌≤◌, [], ◌∷◌, ◌++◌, length, IfOk, OnOk};
ghost use Rattle.acct_codes.specs.Limits.{most_domain_subs};
ghost use Rattle.acct_rows.specs.Seed.{seed_domain, seed_user, seed_group, seed_alias, seed_member, seed_alias_row};
ghost use Rattle.acct_rows.specs.Seed.{seed_domains, seed_users, seed_groups, builtin_aliases, seed_accounts};
ghost use Rattle.acct_rows.specs.Seed.{seed_members, seed_aliases};

use acct_base::Seq;
use acct_calls::domain::{BUILTIN_NAME, builtin_sid};
use acct_calls::{Name, NoMemory};
use acct_codes::Kind;
use acct_codes::group_attribute::NEW_GROUP_ATTRIBUTES;
use acct_codes::rid::{
    DOMAIN_ALIAS_RID_ADMINS, DOMAIN_ALIAS_RID_GUESTS, DOMAIN_ALIAS_RID_USERS,
    DOMAIN_GROUP_RID_ADMINS, DOMAIN_GROUP_RID_GUESTS, DOMAIN_GROUP_RID_USERS,
    DOMAIN_USER_RID_ADMIN, DOMAIN_USER_RID_GUEST, FIRST_CREATED_RID,
};
use acct_codes::user_control::{
    USER_ACCOUNT_DISABLED, USER_NORMAL_ACCOUNT, USER_PASSWORD_NOT_REQUIRED,
};
use acct_tables::{ACCOUNT_DOMAIN, AccountRow, AliasRow, BUILTIN_DOMAIN, DomainRow, MemberRow};
use dtyp_sid::Sid;
use std::alloc::Global;

fn seed_domain(alloc: Global, number: u8, sid: Sid, name: Name) -> DomainRow
    ensures { result ≡ seed_domain number sid name }
{
    DomainRow {
        number,
        sid,
        name,
        oem: Name::from_units(Vec::new(alloc)),
        next_rid: FIRST_CREATED_RID,
    }
}

fn seed_user(
    alloc: Global,
    rid: u32,
    text: &str,
    control: u32,
    primary: u32,
) -> Result<AccountRow, NoMemory>
    ensures { IfOk result (λ row. row ≡ seed_user rid text.now control primary) }
{
    Ok(AccountRow {
        domain: ACCOUNT_DOMAIN,
        rid,
        kind: Kind::User,
        name: Name::from_text(alloc, text)?,
        full_name: Name::from_units(Vec::new(alloc)),
        comment: Name::from_units(Vec::new(alloc)),
        bits: control,
        primary,
    })
}

fn seed_group(alloc: Global, rid: u32, text: &str) -> Result<AccountRow, NoMemory>
    ensures { IfOk result (λ row. row ≡ seed_group rid text.now) }
{
    Ok(AccountRow {
        domain: ACCOUNT_DOMAIN,
        rid,
        kind: Kind::Group,
        name: Name::from_text(alloc, text)?,
        full_name: Name::from_units(Vec::new(alloc)),
        comment: Name::from_units(Vec::new(alloc)),
        bits: NEW_GROUP_ATTRIBUTES,
        primary: 0,
    })
}

fn seed_alias(alloc: Global, rid: u32, text: &str) -> Result<AccountRow, NoMemory>
    ensures { IfOk result (λ row. row ≡ seed_alias rid text.now) }
{
    Ok(AccountRow {
        domain: BUILTIN_DOMAIN,
        rid,
        kind: Kind::Alias,
        name: Name::from_text(alloc, text)?,
        full_name: Name::from_units(Vec::new(alloc)),
        comment: Name::from_units(Vec::new(alloc)),
        bits: 0,
        primary: 0,
    })
}

fn seed_member(group: u32, user: u32) -> MemberRow
    ensures { result ≡ seed_member group user }
{
    MemberRow {
        group,
        user,
        attributes: NEW_GROUP_ATTRIBUTES,
    }
}

fn seed_alias_row(alias: u32, sid: Sid, rid: u32) -> AliasRow
    requires { length sid.subs ≤ most_domain_subs }
    ensures { result ≡ seed_alias_row alias sid rid }
{
    let Some(member) = sid.with_rid(rid) else {
        unreachable!()
    };
    AliasRow {
        domain: BUILTIN_DOMAIN,
        alias,
        member,
    }
}

pub fn seed_domains(alloc: Global, name: &Name, sid: Sid) -> Result<Vec<DomainRow>, NoMemory>
    ensures { IfOk result (λ rows. rows.items ≡ seed_domains name.now sid) }
{
    let account = seed_domain(alloc, ACCOUNT_DOMAIN, sid, name.copy(alloc)?);
    let builtin = seed_domain(
        alloc,
        BUILTIN_DOMAIN,
        builtin_sid(),
        Name::from_text(alloc, BUILTIN_NAME)?,
    );
    Ok(vec![in alloc; account, builtin]?)
}

fn push_user(
    alloc: Global,
    rows: &mut Seq<AccountRow>,
    rid: u32,
    text: &str,
    control: u32,
    primary: u32,
) -> Result<(), NoMemory>
    ensures { OnOk result (rows.new ≡ rows.old ++ seed_user rid text.now control primary ∷ []) }
{
    rows.push(seed_user(alloc, rid, text, control, primary)?)
}

fn push_group(
    alloc: Global,
    rows: &mut Seq<AccountRow>,
    rid: u32,
    text: &str,
) -> Result<(), NoMemory>
    ensures { OnOk result (rows.new ≡ rows.old ++ seed_group rid text.now ∷ []) }
{
    rows.push(seed_group(alloc, rid, text)?)
}

fn push_alias(
    alloc: Global,
    rows: &mut Seq<AccountRow>,
    rid: u32,
    text: &str,
) -> Result<(), NoMemory>
    ensures { OnOk result (rows.new ≡ rows.old ++ seed_alias rid text.now ∷ []) }
{
    rows.push(seed_alias(alloc, rid, text)?)
}

fn push_users(alloc: Global, rows: &mut Seq<AccountRow>) -> Result<(), NoMemory>
    ensures { OnOk result (rows.new ≡ rows.old ++ seed_users) }
{
    let admin_control = USER_NORMAL_ACCOUNT;
    let guest_control = USER_NORMAL_ACCOUNT + USER_PASSWORD_NOT_REQUIRED + USER_ACCOUNT_DISABLED;
    push_user(
        alloc,
        rows,
        DOMAIN_USER_RID_ADMIN,
        "Administrator",
        admin_control,
        DOMAIN_GROUP_RID_USERS,
    )?;
    push_user(
        alloc,
        rows,
        DOMAIN_USER_RID_GUEST,
        "Guest",
        guest_control,
        DOMAIN_GROUP_RID_GUESTS,
    )
}

fn push_groups(alloc: Global, rows: &mut Seq<AccountRow>) -> Result<(), NoMemory>
    ensures { OnOk result (rows.new ≡ rows.old ++ seed_groups) }
{
    push_group(alloc, rows, DOMAIN_GROUP_RID_ADMINS, "Domain Admins")?;
    push_group(alloc, rows, DOMAIN_GROUP_RID_USERS, "Domain Users")?;
    push_group(alloc, rows, DOMAIN_GROUP_RID_GUESTS, "Domain Guests")?;
    Ok(())
}

fn push_aliases(alloc: Global, rows: &mut Seq<AccountRow>) -> Result<(), NoMemory>
    ensures { OnOk result (rows.new ≡ rows.old ++ builtin_aliases) }
{
    push_alias(alloc, rows, DOMAIN_ALIAS_RID_ADMINS, "Administrators")?;
    push_alias(alloc, rows, DOMAIN_ALIAS_RID_USERS, "Users")?;
    push_alias(alloc, rows, DOMAIN_ALIAS_RID_GUESTS, "Guests")
}

pub fn seed_accounts(alloc: Global) -> Result<Vec<AccountRow>, NoMemory>
    ensures { IfOk result (λ rows. rows.items ≡ seed_accounts) }
{
    let mut rows = Seq::new(alloc);
    push_users(alloc, &mut rows)?;
    push_groups(alloc, &mut rows)?;
    push_aliases(alloc, &mut rows)?;
    Ok(rows.into_vec())
}

pub fn seed_members(alloc: Global) -> Result<Vec<MemberRow>, NoMemory>
    ensures { IfOk result (λ rows. rows.items ≡ seed_members) }
{
    let rows = vec![in alloc;
        seed_member(DOMAIN_GROUP_RID_ADMINS, DOMAIN_USER_RID_ADMIN),
        seed_member(DOMAIN_GROUP_RID_USERS, DOMAIN_USER_RID_ADMIN),
        seed_member(DOMAIN_GROUP_RID_GUESTS, DOMAIN_USER_RID_GUEST),
    ]?;
    Ok(rows)
}

pub fn seed_aliases(alloc: Global, sid: Sid) -> Result<Vec<AliasRow>, NoMemory>
    requires { length sid.subs ≤ most_domain_subs }
    ensures { IfOk result (λ rows. rows.items ≡ seed_aliases sid) }
{
    let rows = vec![in alloc;
        seed_alias_row(DOMAIN_ALIAS_RID_ADMINS, sid, DOMAIN_USER_RID_ADMIN),
        seed_alias_row(DOMAIN_ALIAS_RID_ADMINS, sid, DOMAIN_GROUP_RID_ADMINS),
        seed_alias_row(DOMAIN_ALIAS_RID_USERS, sid, DOMAIN_GROUP_RID_USERS),
        seed_alias_row(DOMAIN_ALIAS_RID_GUESTS, sid, DOMAIN_USER_RID_GUEST),
        seed_alias_row(DOMAIN_ALIAS_RID_GUESTS, sid, DOMAIN_GROUP_RID_GUESTS),
    ]?;
    Ok(rows)
}
