// The operations on the members of aliases.
ghost use Rattle.std.specs.Prelude.{◌≡◌, true, IfOk, OnErr};
ghost use Rattle.acct_rows.specs.Rows.{aliases_of};
ghost use Rattle.acct_rules.specs.Asked.{asked_sid};
ghost use Rattle.acct_rules.specs.Planned.{decision, none_fails};
ghost use Rattle.samr_members.specs.Members.{is_alias_member, added_rows, removed_keys, sids_shown, asked_sids};
ghost use Rattle.samr_members.specs.Members.{alias_membership, add_alias_member, remove_alias_member, alias_members};

use acct_base::Seq;
use acct_calls::{Args, Outs, Rids, Sids};
use acct_codes::status::{STATUS_MEMBER_IN_ALIAS, STATUS_MEMBER_NOT_IN_ALIAS, STATUS_SUCCESS};
use acct_rows::{AliasRow, Object, Row, RowKey, Rows};
use acct_rules::{NoMemory, Planned, answers, asked_sid, puts, refusal, removes};
use std::alloc::Global;

// The SID that was brought is a member of the alias.
fn is_alias_member(rows: &Rows, alias: &Object, args: &Args) -> bool
    ensures { result ≡ is_alias_member rows.now.lists alias.now (asked_sid args.now) }
{
    match asked_sid(args) {
        Some(sid) => rows.alias_row(alias.domain(), alias.rid(), &sid).is_some(),
        None => false,
    }
}

fn added_rows(alloc: Global, alias: &Object, args: &Args) -> Result<Seq<Row>, NoMemory>
    ensures { IfOk result (λ rows. rows ≡ added_rows alias.now (asked_sid args.now)) }
{
    let mut added = Seq::new(alloc);
    if let Some(member) = asked_sid(args) {
        added.push(Row::Alias(AliasRow {
            domain: alias.domain(),
            alias: alias.rid(),
            member,
        }))?;
    }
    Ok(added)
}

fn removed_keys(alloc: Global, alias: &Object, args: &Args) -> Result<Seq<RowKey>, NoMemory>
    ensures { IfOk result (λ keys. keys ≡ removed_keys alias.now (asked_sid args.now)) }
{
    let mut removed = Seq::new(alloc);
    if let Some(member) = asked_sid(args) {
        removed.push(RowKey::Alias {
            domain: alias.domain(),
            alias: alias.rid(),
            member,
        })?;
    }
    Ok(removed)
}

/// SamrAddMemberToAlias (MS-SAMR 3.1.5.8.4): a SID that isn't a member of the alias becomes one, whether or not an
/// account has it.
pub fn add_alias_member(
    alloc: Global,
    rows: &Rows,
    alias: Object,
    args: &Args,
) -> Result<Planned, NoMemory>
    ensures decided { IfOk result (λ p. p ≡ decision (add_alias_member rows.now.lists alias args.now)) }
    ensures frugal { OnErr result (none_fails (add_alias_member rows.now.lists alias args.now).conditions ≡ true) }
{
    if is_alias_member(rows, &alias, args) {
        return Ok(refusal(alloc, STATUS_MEMBER_IN_ALIAS));
    }
    let added = added_rows(alloc, &alias, args)?;
    Ok(puts(alloc, added))
}

/// SamrRemoveMemberFromAlias (MS-SAMR 3.1.5.8.5): a member of the alias is one no more.
pub fn remove_alias_member(
    alloc: Global,
    rows: &Rows,
    alias: Object,
    args: &Args,
) -> Result<Planned, NoMemory>
    ensures decided { IfOk result (λ p. p ≡ decision (remove_alias_member rows.now.lists alias args.now)) }
    ensures frugal { OnErr result (none_fails (remove_alias_member rows.now.lists alias args.now).conditions ≡ true) }
{
    if !is_alias_member(rows, &alias, args) {
        return Ok(refusal(alloc, STATUS_MEMBER_NOT_IN_ALIAS));
    }
    let removed = removed_keys(alloc, &alias, args)?;
    Ok(removes(alloc, removed))
}

// The SIDs that are members of an alias.
fn sids_shown(alloc: Global, rows: &Rows, alias: &Object) -> Result<Sids, NoMemory>
    ensures { IfOk result (λ sids. sids ≡ sids_shown rows.now.lists alias.now) }
{
    let members = rows.alias_members(alias.domain(), alias.rid());
    let mut sids = Seq::new(alloc);
    for row in members {
        sids.push(row.member)?;
    }
    Ok(sids)
}

/// SamrGetMembersInAlias (MS-SAMR 3.1.5.8.6): the SIDs that are members of an alias.
pub fn alias_members(
    alloc: Global,
    rows: &Rows,
    alias: Object,
    args: &Args,
) -> Result<Planned, NoMemory>
    ensures { IfOk result (λ p. p ≡ decision (alias_members rows.now.lists alias args.now)) }
{
    let sids = sids_shown(alloc, rows, &alias)?;
    Ok(answers(alloc, STATUS_SUCCESS, Outs::SidList(sids)))
}

// The RIDs of the domain's aliases that have one of the SIDs that were brought.
fn aliases_asked(alloc: Global, rows: &Rows, domain: u8, args: &Args) -> Result<Rids, NoMemory>
    ensures { IfOk result (λ rids. rids ≡ aliases_of rows.now.lists domain (asked_sids args.now)) }
{
    match args {
        Args::SidList(sids) => rows.aliases_of(alloc, domain, sids),
        _ => rows.aliases_of(alloc, domain, &Seq::new(alloc)),
    }
}

/// SamrGetAliasMembership (MS-SAMR 3.1.5.9.2): the aliases of a domain that have one of some SIDs as a member, by
/// ascending RID, each once.
pub fn alias_membership(
    alloc: Global,
    rows: &Rows,
    domain: Object,
    args: &Args,
) -> Result<Planned, NoMemory>
    ensures { IfOk result (λ p. p ≡ decision (alias_membership rows.now.lists domain args.now)) }
{
    let rids = aliases_asked(alloc, rows, domain.domain(), args)?;
    Ok(answers(alloc, STATUS_SUCCESS, Outs::RidList(rids)))
}
