// What each reply brings: the lines that are printed of it, and the next step.
ghost use Rattle.std.specs.Prelude.{◌≡◌, ◌==◌, ◌++◌, ◌∷◌, [], codes, negsuc, slice_get, IfOk, OnOk};
ghost use Rattle.std.specs.Fmt.{decimal, signed_decimal};
ghost use Rattle.std.specs.List.{flat_map};
ghost use Rattle.std.specs.Option.{option_copied};
ghost use Rattle.client_commands.specs.Outcomes.{domain_line, user_line, member_line, right_line, done_line};
ghost use Rattle.client_commands.specs.Outcomes.{refused_line, name_line, sid_line, name_lines, sid_lines, listed};
ghost use Rattle.client_commands.specs.Outcomes.{opened, after_opening, after_domains, after_domain, in_domain};
ghost use Rattle.client_commands.specs.Outcomes.{after_open_domain, after_users, after_creation, rid_at, found};
ghost use Rattle.client_commands.specs.Outcomes.{after_look_up, after_open_user, after_deletion, with_group};
ghost use Rattle.client_commands.specs.Outcomes.{after_open_group, after_members, after_addition, after_query};
ghost use Rattle.client_commands.specs.Outcomes.{answered, after, entry_or_unmapped, with_domain, after_names};
ghost use Rattle.client_commands.specs.Outcomes.{after_sids, after_rights, after_grant, name_text};
ghost use Rattle.client_commands.specs.Fit.{IsFitCommand, IsFitTask, IsFitNamed, IsFitQuery, IsFitGroup, IsFitStep};
ghost use Rattle.client_commands.specs.Fit.{IsFitOutcome};
ghost use Rattle.dtyp_sid.specs.Text.{text_of};
ghost use Rattle.acct_codes.specs.Statuses.{status_more_entries};
ghost use Rattle.acct_codes.specs.Accounts.{sid_type_unknown};
ghost use Rattle.acct_layouts.specs.Values.{IsHandle, IsLong, IfThere};

use crate::NoMemory;
use crate::command::{Command, NamedTask, Query, SidWord, Task};
use crate::steps::{GroupTask, Step};
use crate::text::Text;
use acct_calls::{
    Handle, Name, Outs, Reply, RidBits, RidBitsList, RidName, RidNames, TranslatedName,
    TranslatedSid,
};
use acct_codes::sid_use::SID_TYPE_UNKNOWN;
use acct_codes::status::{STATUS_MORE_ENTRIES, STATUS_NONE_MAPPED};
use acct_layouts::is_refusal;
use dtyp_sid::Sid;
use std::alloc::Global;

/// What a reply brings.
#[derive(Drop)]
pub enum Outcome {
    /// These lines are printed, and this is the next step.
    Goes { printed: Text, next: Step },
    /// These lines are printed, and they are the last.
    Ends { printed: Text },
    /// The command is refused with this status.
    Refuses(u32),
    /// The reply isn't one of the step's operation.
    Unfit,
}

/// Adds a number that ends a line.
fn end_with_number(lines: &mut Text, number: u32) -> Result<(), NoMemory>
    ensures { OnOk result (lines.new ≡ lines.old ++ decimal number ++ 10 ∷ []) }
{
    lines.push_number(number)?;
    lines.push("\n")
}

/// Adds a name that ends a line.
fn end_with_name(lines: &mut Text, name: &Name) -> Result<(), NoMemory>
    ensures { OnOk result (lines.new ≡ lines.old ++ name_text name.now ++ 10 ∷ []) }
{
    lines.push_name(name.units())?;
    lines.push("\n")
}

/// Adds a number with a space after it.
fn push_column(lines: &mut Text, number: u32) -> Result<(), NoMemory>
    ensures { OnOk result (lines.new ≡ lines.old ++ decimal number ++ 32 ∷ []) }
{
    lines.push_number(number)?;
    lines.push(" ")
}

fn domain_lines(alloc: Global, entries: &[RidName]) -> Result<Text, NoMemory>
    ensures { IfOk result (λ lines. lines ≡ flat_map domain_line entries.now) }
{
    let mut lines = Text::new(alloc);
    for entry in entries {
        end_with_name(&mut lines, &entry.name)?;
    }
    Ok(lines)
}

fn push_user_line(lines: &mut Text, entry: &RidName) -> Result<(), NoMemory>
    ensures { OnOk result (lines.new ≡ lines.old ++ user_line entry.now) }
{
    push_column(lines, entry.rid)?;
    end_with_name(lines, &entry.name)
}

fn user_lines(alloc: Global, entries: &[RidName]) -> Result<Text, NoMemory>
    ensures { IfOk result (λ lines. lines ≡ flat_map user_line entries.now) }
{
    let mut lines = Text::new(alloc);
    for entry in entries {
        push_user_line(&mut lines, entry)?;
    }
    Ok(lines)
}

fn push_member_line(lines: &mut Text, member: RidBits) -> Result<(), NoMemory>
    ensures { OnOk result (lines.new ≡ lines.old ++ member_line member) }
{
    push_column(lines, member.rid)?;
    end_with_number(lines, member.bits)
}

fn member_lines(alloc: Global, members: &[RidBits]) -> Result<Text, NoMemory>
    ensures { IfOk result (λ lines. lines ≡ flat_map member_line members.now) }
{
    let mut lines = Text::new(alloc);
    for member in members {
        push_member_line(&mut lines, *member)?;
    }
    Ok(lines)
}

fn right_lines(alloc: Global, rights: &[Name]) -> Result<Text, NoMemory>
    ensures { IfOk result (λ lines. lines ≡ flat_map right_line rights.now) }
{
    let mut lines = Text::new(alloc);
    for right in rights {
        end_with_name(&mut lines, right)?;
    }
    Ok(lines)
}

fn done_line(alloc: Global, word: &str, rid: u32) -> Result<Text, NoMemory>
    ensures { IfOk result (λ line. line ≡ done_line word.now rid) }
{
    let mut line = Text::of(alloc, word)?;
    end_with_number(&mut line, rid)?;
    Ok(line)
}

/// The line of a refusal.
#[tactic(auto, unfolding(crate::specs::Outcomes::refused_line))]
pub fn refused_line(alloc: Global, status: u32) -> Result<Text, NoMemory>
    ensures { IfOk result (λ line. line ≡ refused_line status) }
{
    let mut line = Text::of(alloc, "refused 0x")?;
    line.push_hexadecimal(8, status)?;
    line.push("\n")?;
    Ok(line)
}

/// What a name that wasn't translated is answered with.
const UNMAPPED: TranslatedSid = TranslatedSid {
    usage: SID_TYPE_UNKNOWN as u16,
    rid: 0,
    index: -1,
};

fn entry_at(entries: &[TranslatedSid], place: usize) -> TranslatedSid
    ensures { result ≡ entry_or_unmapped (slice_get entries.now place) }
{
    match entries.get(place) {
        Some(entry) => *entry,
        None => UNMAPPED,
    }
}

/// Adds the use of a SID between spaces.
fn push_use(lines: &mut Text, usage: u32) -> Result<(), NoMemory>
    ensures { OnOk result (lines.new ≡ lines.old ++ 32 ∷ decimal usage ++ 32 ∷ []) }
{
    lines.push(" ")?;
    push_column(lines, usage)
}

/// Adds the index of a domain after a space, which ends a line.
fn end_with_index(lines: &mut Text, index: i32) -> Result<(), NoMemory>
    ensures { OnOk result (lines.new ≡ lines.old ++ 32 ∷ signed_decimal index ++ 10 ∷ []) }
{
    lines.push(" ")?;
    lines.push_signed(index)?;
    lines.push("\n")
}

#[tactic(auto, unfolding(crate::specs::Outcomes::name_line))]
fn push_name_line(lines: &mut Text, name: &Name, entry: TranslatedSid) -> Result<(), NoMemory>
    ensures { OnOk result (lines.new ≡ lines.old ++ name_line name.now entry) }
{
    lines.push_name(name.units())?;
    push_use(lines, entry.usage as u32)?;
    lines.push_number(entry.rid)?;
    end_with_index(lines, entry.index)
}

fn name_lines(alloc: Global, names: &[Name], entries: &[TranslatedSid]) -> Result<Text, NoMemory>
    ensures { IfOk result (λ lines. lines ≡ name_lines names.now entries.now) }
{
    let mut lines = Text::new(alloc);
    for (place, name) in names.iter().enumerate() {
        push_name_line(&mut lines, name, entry_at(entries, place))?;
    }
    Ok(lines)
}

/// Adds what stands after the SID that was translated to an entry.
fn end_translated(lines: &mut Text, entry: &TranslatedName) -> Result<(), NoMemory>
    ensures { OnOk result (lines.new ≡ lines.old ++ 32 ∷ decimal entry.now.usage ++ 32 ∷ []
        ++ name_text entry.now.name ++ 32 ∷ [] ++ signed_decimal entry.now.index ++ 10 ∷ []) }
{
    push_use(lines, entry.usage as u32)?;
    lines.push_name(entry.name.units())?;
    end_with_index(lines, entry.index)
}

/// Adds what stands after a SID that wasn't translated.
fn end_untranslated(alloc: Global, lines: &mut Text, sid: &Sid) -> Result<(), NoMemory>
    ensures { OnOk result (lines.new ≡ lines.old ++ 32 ∷ decimal sid_type_unknown ++ 32 ∷ []
        ++ text_of sid.now ++ 32 ∷ [] ++ signed_decimal (negsuc 0) ++ 10 ∷ []) }
{
    let text = sid.text(alloc)?;
    push_use(lines, SID_TYPE_UNKNOWN)?;
    lines.push(&text)?;
    end_with_index(lines, -1)
}

#[tactic(auto, unfolding(crate::specs::Outcomes::sid_line))]
fn push_sid_line(
    alloc: Global,
    lines: &mut Text,
    sid: &SidWord,
    entry: Option<&TranslatedName>,
) -> Result<(), NoMemory>
    ensures { OnOk result (lines.new ≡ lines.old ++ sid_line sid.now (option_copied entry.entry)) }
{
    lines.push(sid.word.as_str())?;
    match entry {
        Some(entry) => end_translated(lines, entry),
        None => end_untranslated(alloc, lines, &sid.sid),
    }
}

fn named_at(entries: &[TranslatedName], place: usize) -> Option<&TranslatedName>
    ensures { option_copied result ≡ slice_get entries.now place }
{
    entries.get(place)
}

fn sid_lines(alloc: Global, sids: &[SidWord], entries: &[TranslatedName]) -> Result<Text, NoMemory>
    ensures { IfOk result (λ lines. lines ≡ sid_lines sids.now entries.now) }
{
    let mut lines = Text::new(alloc);
    for (place, sid) in sids.iter().enumerate() {
        push_sid_line(alloc, &mut lines, sid, named_at(entries, place))?;
    }
    Ok(lines)
}

fn goes(alloc: Global, next: Step) -> Outcome
    ensures value { result ≡ Outcome.Goes [] next }
    ensures fit { IsFitStep next → IsFitOutcome result }
{
    Outcome::Goes {
        printed: Text::new(alloc),
        next,
    }
}

/// Whether a page isn't the last.
fn is_more(status: u32) -> bool
    ensures { result ≡ (status == status_more_entries) }
{
    status == STATUS_MORE_ENTRIES
}

fn listed_names(entries: &Option<RidNames>) -> &[RidName]
    ensures { result.now ≡ listed entries.now }
{
    match entries {
        Some(entries) => entries.as_slice(),
        None => &[],
    }
}

fn listed_members(members: &Option<RidBitsList>) -> &[RidBits]
    ensures { result.now ≡ listed members.now }
{
    match members {
        Some(members) => members.as_slice(),
        None => &[],
    }
}

fn opened(command: Command, handle: Handle) -> Step
    ensures value { result ≡ opened command handle }
    ensures fit { IsFitCommand command → IsFitStep result }
{
    match command {
        Command::Domains => Step::ListingDomains {
            server: handle,
            context: 0,
        },
        Command::InDomain { domain, task } => Step::LookingUpDomain {
            server: handle,
            domain,
            task,
        },
        Command::AtPolicy(query) => Step::Asking {
            policy: handle,
            query,
        },
    }
}

fn after_opening(alloc: Global, command: Command, outs: &Outs) -> Outcome
    ensures value { result ≡ after_opening command outs.now }
    ensures fit { IsFitCommand command → IsFitOutcome result }
{
    match outs {
        Outs::Handle(handle) => goes(alloc, opened(command, *handle)),
        _ => {
            drop(command);
            Outcome::Unfit
        }
    }
}

fn after_domains(
    alloc: Global,
    server: Handle,
    status: u32,
    outs: &Outs,
) -> Result<Outcome, NoMemory>
    ensures value { IfOk result (λ outcome. outcome ≡ after_domains server status outs.now) }
    ensures fit { IfOk result IsFitOutcome }
{
    let Outs::Page { context, entries } = outs else {
        return Ok(Outcome::Unfit);
    };
    let printed = domain_lines(alloc, listed_names(entries))?;
    if is_more(status) {
        let next = Step::ListingDomains {
            server,
            context: *context,
        };
        return Ok(Outcome::Goes { printed, next });
    }
    Ok(Outcome::Ends { printed })
}

fn with_domain(alloc: Global, server: Handle, task: Task, sid: Option<Sid>) -> Outcome
    ensures value { result ≡ with_domain server task sid }
    ensures fit { IsFitTask task → IsFitOutcome result }
{
    match sid {
        None => {
            drop(task);
            Outcome::Refuses(STATUS_NONE_MAPPED)
        }
        Some(sid) => {
            sid.keeps_limits();
            goes(alloc, Step::OpeningDomain { server, sid, task })
        }
    }
}

fn after_domain(alloc: Global, server: Handle, task: Task, outs: &Outs) -> Outcome
    ensures value { result ≡ after_domain server task outs.now }
    ensures fit { IsFitTask task → IsFitOutcome result }
{
    match outs {
        Outs::OneSid(sid) => with_domain(alloc, server, task, *sid),
        _ => {
            drop(task);
            Outcome::Unfit
        }
    }
}

fn in_domain(task: Task, domain: Handle) -> Step
    ensures value { result ≡ in_domain task domain }
    ensures fit { IsFitTask task → IsFitStep result }
{
    match task {
        Task::Users => Step::ListingUsers { domain, context: 0 },
        Task::CreateUser(name) => Step::CreatingUser { domain, name },
        Task::Named(task) => Step::LookingUp { domain, task },
    }
}

fn after_open_domain(alloc: Global, task: Task, outs: &Outs) -> Outcome
    ensures value { result ≡ after_open_domain task outs.now }
    ensures fit { IsFitTask task → IsFitOutcome result }
{
    match outs {
        Outs::Handle(domain) => goes(alloc, in_domain(task, *domain)),
        _ => {
            drop(task);
            Outcome::Unfit
        }
    }
}

fn after_users(alloc: Global, domain: Handle, status: u32, outs: &Outs) -> Result<Outcome, NoMemory>
    ensures value { IfOk result (λ outcome. outcome ≡ after_users domain status outs.now) }
    ensures fit { IfOk result IsFitOutcome }
{
    let Outs::Page { context, entries } = outs else {
        return Ok(Outcome::Unfit);
    };
    let printed = user_lines(alloc, listed_names(entries))?;
    if is_more(status) {
        let next = Step::ListingUsers {
            domain,
            context: *context,
        };
        return Ok(Outcome::Goes { printed, next });
    }
    Ok(Outcome::Ends { printed })
}

fn after_creation(alloc: Global, outs: &Outs) -> Result<Outcome, NoMemory>
    ensures value { IfOk result (λ outcome. outcome ≡ after_creation outs.now) }
    ensures fit { IfOk result IsFitOutcome }
{
    let Outs::Created { rid, .. } = outs else {
        return Ok(Outcome::Unfit);
    };
    Ok(Outcome::Ends {
        printed: done_line(alloc, "created ", *rid)?,
    })
}

/// The RID of the name at a place, if it was found.
fn rid_at(rids: &[u32], uses: &[u32], place: usize) -> Option<u32>
    ensures { result ≡ rid_at rids.now uses.now place }
{
    let rid = rids.get(place)?;
    let usage = uses.get(place)?;
    if *usage == SID_TYPE_UNKNOWN {
        None
    } else {
        Some(*rid)
    }
}

fn found(
    alloc: Global,
    domain: Handle,
    task: &NamedTask,
    first: Option<u32>,
    second: Option<u32>,
) -> Outcome
    ensures value { result ≡ found domain task.now first second }
    ensures fit { IsFitOutcome result }
{
    let Some(rid) = first else {
        return Outcome::Refuses(STATUS_NONE_MAPPED);
    };
    match task {
        NamedTask::DeleteUser(_) => goes(alloc, Step::OpeningUser { domain, rid }),
        NamedTask::Members(_) => goes(
            alloc,
            Step::OpeningGroup {
                domain,
                rid,
                task: GroupTask::Members,
            },
        ),
        NamedTask::AddMember { .. } => match second {
            None => Outcome::Refuses(STATUS_NONE_MAPPED),
            Some(user) => goes(
                alloc,
                Step::OpeningGroup {
                    domain,
                    rid,
                    task: GroupTask::Add(user),
                },
            ),
        },
    }
}

fn after_look_up(alloc: Global, domain: Handle, task: &NamedTask, outs: &Outs) -> Outcome
    ensures value { result ≡ after_look_up domain task.now outs.now }
    ensures fit { IsFitOutcome result }
{
    let Outs::RidUses { rids, uses } = outs else {
        return Outcome::Unfit;
    };
    let first = rid_at(rids.as_slice(), uses.as_slice(), 0);
    let second = rid_at(rids.as_slice(), uses.as_slice(), 1);
    found(alloc, domain, task, first, second)
}

fn after_open_user(alloc: Global, rid: u32, outs: &Outs) -> Outcome
    ensures value { result ≡ after_open_user rid outs.now }
    ensures fit { IsFitOutcome result }
{
    match outs {
        Outs::Handle(user) => goes(alloc, Step::DeletingUser { user: *user, rid }),
        _ => Outcome::Unfit,
    }
}

fn after_deletion(alloc: Global, rid: u32, outs: &Outs) -> Result<Outcome, NoMemory>
    ensures value { IfOk result (λ outcome. outcome ≡ after_deletion rid outs.now) }
    ensures fit { IfOk result IsFitOutcome }
{
    let Outs::Handle(_) = outs else {
        return Ok(Outcome::Unfit);
    };
    Ok(Outcome::Ends {
        printed: done_line(alloc, "deleted ", rid)?,
    })
}

fn with_group(task: GroupTask, group: Handle) -> Step
    ensures value { result ≡ with_group task group }
    ensures fit { IsFitGroup task → IsFitStep result }
{
    match task {
        GroupTask::Members => Step::ListingMembers { group },
        GroupTask::Add(rid) => Step::AddingMember { group, rid },
    }
}

fn after_open_group(alloc: Global, task: GroupTask, outs: &Outs) -> Outcome
    ensures value { result ≡ after_open_group task outs.now }
    ensures fit { IsFitGroup task → IsFitOutcome result }
{
    match outs {
        Outs::Handle(group) => goes(alloc, with_group(task, *group)),
        _ => Outcome::Unfit,
    }
}

fn after_members(alloc: Global, outs: &Outs) -> Result<Outcome, NoMemory>
    ensures value { IfOk result (λ outcome. outcome ≡ after_members outs.now) }
    ensures fit { IfOk result IsFitOutcome }
{
    let Outs::Pairs(members) = outs else {
        return Ok(Outcome::Unfit);
    };
    Ok(Outcome::Ends {
        printed: member_lines(alloc, listed_members(members))?,
    })
}

fn after_addition(alloc: Global, rid: u32, outs: &Outs) -> Result<Outcome, NoMemory>
    ensures value { IfOk result (λ outcome. outcome ≡ after_addition rid outs.now) }
    ensures fit { IfOk result IsFitOutcome }
{
    let Outs::Nothing = outs else {
        return Ok(Outcome::Unfit);
    };
    Ok(Outcome::Ends {
        printed: done_line(alloc, "added ", rid)?,
    })
}

fn after_names(alloc: Global, names: &[Name], outs: &Outs) -> Result<Outcome, NoMemory>
    ensures value { IfOk result (λ outcome. outcome ≡ after_names names.now outs.now) }
    ensures fit { IfOk result IsFitOutcome }
{
    let Outs::Sids { entries, .. } = outs else {
        return Ok(Outcome::Unfit);
    };
    Ok(Outcome::Ends {
        printed: name_lines(alloc, names, entries.as_slice())?,
    })
}

fn after_sids(alloc: Global, sids: &[SidWord], outs: &Outs) -> Result<Outcome, NoMemory>
    ensures value { IfOk result (λ outcome. outcome ≡ after_sids sids.now outs.now) }
    ensures fit { IfOk result IsFitOutcome }
{
    let Outs::Names { entries, .. } = outs else {
        return Ok(Outcome::Unfit);
    };
    Ok(Outcome::Ends {
        printed: sid_lines(alloc, sids, entries.as_slice())?,
    })
}

fn after_rights(alloc: Global, outs: &Outs) -> Result<Outcome, NoMemory>
    ensures value { IfOk result (λ outcome. outcome ≡ after_rights outs.now) }
    ensures fit { IfOk result IsFitOutcome }
{
    let Outs::NameList(rights) = outs else {
        return Ok(Outcome::Unfit);
    };
    Ok(Outcome::Ends {
        printed: right_lines(alloc, rights.as_slice())?,
    })
}

fn after_grant(alloc: Global, outs: &Outs) -> Result<Outcome, NoMemory>
    ensures value { IfOk result (λ outcome. outcome ≡ after_grant outs.now) }
    ensures fit { IfOk result IsFitOutcome }
{
    let Outs::Nothing = outs else {
        return Ok(Outcome::Unfit);
    };
    Ok(Outcome::Ends {
        printed: Text::of(alloc, "granted\n")?,
    })
}

fn after_query(alloc: Global, query: &Query, outs: &Outs) -> Result<Outcome, NoMemory>
    ensures value { IfOk result (λ outcome. outcome ≡ after_query query.now outs.now) }
    ensures fit { IfOk result IsFitOutcome }
{
    match query {
        Query::Names(names) => after_names(alloc, names.as_slice(), outs),
        Query::Sids(sids) => after_sids(alloc, sids.as_slice(), outs),
        Query::Rights(_) => after_rights(alloc, outs),
        Query::Grant { .. } => after_grant(alloc, outs),
    }
}

fn answered(alloc: Global, step: Step, status: u32, outs: &Outs) -> Result<Outcome, NoMemory>
    ensures value { IfOk result (λ outcome. outcome ≡ answered step status outs.now) }
    ensures fit { IsFitStep step → IfOk result IsFitOutcome }
{
    match step {
        Step::Opening(command) => Ok(after_opening(alloc, command, outs)),
        Step::ListingDomains { server, .. } => after_domains(alloc, server, status, outs),
        Step::LookingUpDomain {
            server,
            domain,
            task,
        } => {
            drop(domain);
            Ok(after_domain(alloc, server, task, outs))
        }
        Step::OpeningDomain { task, .. } => Ok(after_open_domain(alloc, task, outs)),
        Step::ListingUsers { domain, .. } => after_users(alloc, domain, status, outs),
        Step::CreatingUser { name, .. } => {
            drop(name);
            after_creation(alloc, outs)
        }
        Step::LookingUp { domain, task } => {
            let outcome = after_look_up(alloc, domain, &task, outs);
            drop(task);
            Ok(outcome)
        }
        Step::OpeningUser { rid, .. } => Ok(after_open_user(alloc, rid, outs)),
        Step::DeletingUser { rid, .. } => after_deletion(alloc, rid, outs),
        Step::OpeningGroup { task, .. } => Ok(after_open_group(alloc, task, outs)),
        Step::ListingMembers { .. } => after_members(alloc, outs),
        Step::AddingMember { rid, .. } => after_addition(alloc, rid, outs),
        Step::Asking { query, .. } => {
            let outcome = after_query(alloc, &query, outs);
            drop(query);
            outcome
        }
    }
}

/// What a reply to a step's call brings.
pub fn after(alloc: Global, step: Step, reply: &Reply) -> Result<Outcome, NoMemory>
    ensures value { IfOk result (λ outcome. outcome ≡ after step reply.now) }
    ensures fit { IsFitStep step → IfOk result IsFitOutcome }
{
    match reply {
        Reply::Fault(_) => {
            drop(step);
            Ok(Outcome::Unfit)
        }
        Reply::Done { status, outs } => {
            if is_refusal(*status) {
                drop(step);
                return Ok(Outcome::Refuses(*status));
            }
            answered(alloc, step, *status, outs)
        }
    }
}
