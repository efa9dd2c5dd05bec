// The operations on the members of groups.
ghost use Rattle.std.specs.Prelude.{◌≡◌, true, IfOk, OnErr};
ghost use Rattle.acct_rules.specs.Planned.{decision, none_fails};
ghost use Rattle.samr_members.specs.Members.{added_rid, added_attributes, is_user, is_member, is_primary};
ghost use Rattle.samr_members.specs.Members.{members_shown, groups_shown, add_group_member, remove_group_member};
ghost use Rattle.samr_members.specs.Members.{group_members, user_groups};

use acct_base::Seq;
use acct_calls::{Args, Outs, RidBits, RidBitsList};
use acct_codes::Kind;
use acct_codes::status::{
    STATUS_MEMBER_IN_GROUP, STATUS_MEMBER_NOT_IN_GROUP, STATUS_MEMBERS_PRIMARY_GROUP,
    STATUS_NO_SUCH_USER, STATUS_SUCCESS,
};
use acct_rows::{ACCOUNT_DOMAIN, MemberRow, Object, Row, RowKey, Rows};
use acct_rules::{NoMemory, Planned, answers, asked_rid, puts, refusal, removes};
use std::alloc::Global;

// The RID of the member that is added.
fn added_rid(args: &Args) -> u32
    ensures { result ≡ added_rid args.now }
{
    match args {
        Args::RidBits { rid, .. } => *rid,
        _ => 0,
    }
}

// The attributes that it has in the group.
fn added_attributes(args: &Args) -> u32
    ensures { result ≡ added_attributes args.now }
{
    match args {
        Args::RidBits { bits, .. } => *bits,
        _ => 0,
    }
}

// A user has the RID.
fn is_user(rows: &Rows, rid: u32) -> bool
    ensures { result ≡ is_user rows.now.lists rid }
{
    match rows.find_rid(ACCOUNT_DOMAIN, rid) {
        Some(account) => account.kind == Kind::User,
        None => false,
    }
}

fn is_member(rows: &Rows, group: u32, user: u32) -> bool
    ensures { result ≡ is_member rows.now.lists group user }
{
    rows.member(group, user).is_some()
}

// The group is the user's primary group.
fn is_primary(rows: &Rows, group: u32, user: u32) -> bool
    ensures { result ≡ is_primary rows.now.lists group user }
{
    match rows.find_rid(ACCOUNT_DOMAIN, user) {
        Some(account) => account.primary == group,
        None => false,
    }
}

/// SamrAddMemberToGroup (MS-SAMR 3.1.5.8.1): a user that isn't a member of the group becomes one.
pub fn add_group_member(
    alloc: Global,
    rows: &Rows,
    group: Object,
    args: &Args,
) -> Result<Planned, NoMemory>
    ensures decided { IfOk result (λ p. p ≡ decision (add_group_member rows.now.lists group args.now)) }
    ensures frugal { OnErr result (none_fails (add_group_member rows.now.lists group args.now).conditions ≡ true) }
{
    let group = group.rid();
    let user = added_rid(args);
    if !is_user(rows, user) {
        return Ok(refusal(alloc, STATUS_NO_SUCH_USER));
    }
    if is_member(rows, group, user) {
        return Ok(refusal(alloc, STATUS_MEMBER_IN_GROUP));
    }
    let mut added = Seq::new(alloc);
    added.push(Row::Member(MemberRow {
        group,
        user,
        attributes: added_attributes(args),
    }))?;
    Ok(puts(alloc, added))
}

/// SamrRemoveMemberFromGroup (MS-SAMR 3.1.5.8.2): a member of the group is one no more, unless the group is its primary
/// group.
pub fn remove_group_member(
    alloc: Global,
    rows: &Rows,
    group: Object,
    args: &Args,
) -> Result<Planned, NoMemory>
    ensures decided { IfOk result (λ p. p ≡ decision (remove_group_member rows.now.lists group args.now)) }
    ensures frugal { OnErr result (none_fails (remove_group_member rows.now.lists group args.now).conditions ≡ true) }
{
    let group = group.rid();
    let user = asked_rid(args);
    if !is_user(rows, user) {
        return Ok(refusal(alloc, STATUS_NO_SUCH_USER));
    }
    if !is_member(rows, group, user) {
        return Ok(refusal(alloc, STATUS_MEMBER_NOT_IN_GROUP));
    }
    if is_primary(rows, group, user) {
        return Ok(refusal(alloc, STATUS_MEMBERS_PRIMARY_GROUP));
    }
    let mut removed = Seq::new(alloc);
    removed.push(RowKey::Member { group, user })?;
    Ok(removes(alloc, removed))
}

// The members of a group by ascending RID.
fn members_shown(alloc: Global, rows: &Rows, group: u32) -> Result<RidBitsList, NoMemory>
    ensures { IfOk result (λ shown. shown ≡ members_shown rows.now.lists group) }
{
    let members = rows.group_members(group);
    let mut shown = Seq::new(alloc);
    for member in members {
        shown.push(RidBits {
            rid: member.user,
            bits: member.attributes,
        })?;
    }
    Ok(shown)
}

// The groups of a user by ascending RID.
fn groups_shown(alloc: Global, rows: &Rows, user: u32) -> Result<RidBitsList, NoMemory>
    ensures { IfOk result (λ shown. shown ≡ groups_shown rows.now.lists user) }
{
    let groups = rows.user_groups(user);
    let mut shown = Seq::new(alloc);
    for group in groups {
        shown.push(RidBits {
            rid: group.row.group,
            bits: group.row.attributes,
        })?;
    }
    Ok(shown)
}

/// SamrGetMembersInGroup (MS-SAMR 3.1.5.8.3): the members of a group with their attributes.
pub fn group_members(
    alloc: Global,
    rows: &Rows,
    group: Object,
    args: &Args,
) -> Result<Planned, NoMemory>
    ensures { IfOk result (λ p. p ≡ decision (group_members rows.now.lists group args.now)) }
{
    let shown = members_shown(alloc, rows, group.rid())?;
    Ok(answers(alloc, STATUS_SUCCESS, Outs::Pairs(Some(shown))))
}

/// SamrGetGroupsForUser (MS-SAMR 3.1.5.9.1): the groups of a user with its attributes there.
pub fn user_groups(
    alloc: Global,
    rows: &Rows,
    user: Object,
    args: &Args,
) -> Result<Planned, NoMemory>
    ensures { IfOk result (λ p. p ≡ decision (user_groups rows.now.lists user args.now)) }
{
    let shown = groups_shown(alloc, rows, user.rid())?;
    Ok(answers(alloc, STATUS_SUCCESS, Outs::Pairs(Some(shown))))
}
