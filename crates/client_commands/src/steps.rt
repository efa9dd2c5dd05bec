// The calls of a command, one after the other.
ghost use Rattle.std.specs.Prelude.{◌≡◌, ◌∷◌, ◌++◌, [], map, IfOk, OnOk};
ghost use Rattle.client_commands.specs.Words.{domain_access, policy_access, group_access, asked_names, sid_of_word};
ghost use Rattle.client_commands.specs.Words.{page, opening_call, query_call, call_of};
ghost use Rattle.acct_calls.specs.declared.handle.Handle.{Handle};
ghost use Rattle.client_commands.specs.Fit.{FitStepsAreSpelled};

use crate::NoMemory;
use crate::command::{Command, NamedTask, Query, SidWord, Task};
use acct_base::Seq;
use acct_calls::{Args, Call, Face, Handle, Name, Names, ZERO_HANDLE, lsa_call, samr_call};
use acct_codes::domain_rights::{DOMAIN_CREATE_USER, DOMAIN_LIST_ACCOUNTS, DOMAIN_LOOKUP};
use acct_codes::group_attribute::NEW_GROUP_ATTRIBUTES;
use acct_codes::group_rights::{GROUP_ADD_MEMBER, GROUP_LIST_MEMBERS};
use acct_codes::lookup_level::LSAP_LOOKUP_WKSTA;
use acct_codes::lsa_opnum::{
    LSAR_ADD_ACCOUNT_RIGHTS, LSAR_ENUMERATE_ACCOUNT_RIGHTS, LSAR_LOOKUP_NAMES, LSAR_LOOKUP_SIDS,
    LSAR_OPEN_POLICY2,
};
use acct_codes::policy_rights::{POLICY_CREATE_ACCOUNT, POLICY_LOOKUP_NAMES};
use acct_codes::samr_opnum::{
    SAMR_ADD_MEMBER_TO_GROUP, SAMR_CONNECT2, SAMR_CREATE_USER2_IN_DOMAIN, SAMR_DELETE_USER,
    SAMR_ENUMERATE_DOMAINS_IN_SAM_SERVER, SAMR_ENUMERATE_USERS_IN_DOMAIN,
    SAMR_GET_MEMBERS_IN_GROUP, SAMR_LOOKUP_DOMAIN_IN_SAM_SERVER, SAMR_LOOKUP_NAMES_IN_DOMAIN,
    SAMR_OPEN_DOMAIN, SAMR_OPEN_GROUP, SAMR_OPEN_USER,
};
use acct_codes::server_rights::{SAM_SERVER_ENUMERATE_DOMAINS, SAM_SERVER_LOOKUP_DOMAIN};
use acct_codes::standard_rights::{DELETE, MAXIMUM_ALLOWED};
use acct_codes::user_control::USER_NORMAL_ACCOUNT;
use dtyp_sid::Sid;
use std::alloc::Global;

/// The length of a page that is asked for.
pub const PREFERRED: u32 = 4096;

/// What is done with a group.
#[derive(Clone, Copy, Debug, PartialEq, Eq)]
pub enum GroupTask {
    /// Its members are listed.
    Members,
    /// The user with this RID becomes a member.
    Add(u32),
}

/// A call of a command, with the handles and RIDs that the replies before it brought.
#[derive(Drop)]
pub enum Step {
    /// The server or the policy is opened.
    Opening(Command),
    ListingDomains {
        server: Handle,
        context: u32,
    },
    LookingUpDomain {
        server: Handle,
        domain: Name,
        task: Task,
    },
    OpeningDomain {
        server: Handle,
        sid: Sid,
        task: Task,
    },
    ListingUsers {
        domain: Handle,
        context: u32,
    },
    CreatingUser {
        domain: Handle,
        name: Name,
    },
    /// The accounts of a task are looked up by their names.
    LookingUp {
        domain: Handle,
        task: NamedTask,
    },
    OpeningUser {
        domain: Handle,
        rid: u32,
    },
    DeletingUser {
        user: Handle,
        rid: u32,
    },
    OpeningGroup {
        domain: Handle,
        rid: u32,
        task: GroupTask,
    },
    ListingMembers {
        group: Handle,
    },
    AddingMember {
        group: Handle,
        rid: u32,
    },
    /// The policy is asked.
    Asking {
        policy: Handle,
        query: Query,
    },
}

fn domain_access(task: &Task) -> u32
    ensures { result ≡ domain_access task.now }
{
    match task {
        Task::Users => DOMAIN_LIST_ACCOUNTS,
        Task::CreateUser(_) => DOMAIN_CREATE_USER,
        Task::Named(_) => DOMAIN_LOOKUP,
    }
}

fn group_access(task: GroupTask) -> u32
    ensures { result ≡ group_access task }
{
    match task {
        GroupTask::Members => GROUP_LIST_MEMBERS,
        GroupTask::Add(_) => GROUP_ADD_MEMBER,
    }
}

fn policy_access(query: &Query) -> u32
    ensures { result ≡ policy_access query.now }
{
    match query {
        Query::Names(_) | Query::Sids(_) | Query::Rights(_) => POLICY_LOOKUP_NAMES,
        Query::Grant { .. } => POLICY_CREATE_ACCOUNT + POLICY_LOOKUP_NAMES,
    }
}

fn opening_call(command: &Command) -> Call
    ensures { result ≡ opening_call command.now }
{
    match command {
        Command::Domains => samr_call(
            SAMR_CONNECT2,
            ZERO_HANDLE,
            Args::Access(SAM_SERVER_ENUMERATE_DOMAINS),
        ),
        Command::InDomain { .. } => samr_call(
            SAMR_CONNECT2,
            ZERO_HANDLE,
            Args::Access(SAM_SERVER_LOOKUP_DOMAIN),
        ),
        Command::AtPolicy(query) => lsa_call(
            LSAR_OPEN_POLICY2,
            ZERO_HANDLE,
            Args::Policy {
                rooted: false,
                access: policy_access(query),
            },
        ),
    }
}

fn page(context: u32) -> Args
    ensures { result ≡ page context }
{
    Args::Page {
        context,
        filter: 0,
        preferred: PREFERRED,
    }
}

/// Adds a copy of a name.
fn push_copy(alloc: Global, names: &mut Names, name: &Name) -> Result<(), NoMemory>
    ensures { OnOk result (names.new ≡ names.old ++ name.now ∷ []) }
{
    names.push(name.copy(alloc)?)
}

/// The names that a task looks up.
fn asked_names(alloc: Global, task: &NamedTask) -> Result<Names, NoMemory>
    ensures { IfOk result (λ names. names ≡ asked_names task.now) }
{
    let mut names = Names::new(alloc);
    match task {
        NamedTask::DeleteUser(name) | NamedTask::Members(name) => {
            push_copy(alloc, &mut names, name)?;
        }
        NamedTask::AddMember { group, user } => {
            push_copy(alloc, &mut names, group)?;
            push_copy(alloc, &mut names, user)?;
        }
    }
    Ok(names)
}

fn sids_of_words(alloc: Global, words: &[SidWord]) -> Result<Seq<Sid>, NoMemory>
    ensures { IfOk result (λ sids. sids ≡ map sid_of_word words.now) }
{
    let mut sids = Vec::with_capacity(alloc, words.len())?;
    for word in words {
        sids.push(word.sid)?;
    }
    Ok(Seq::from_vec(sids))
}

fn query_call(alloc: Global, policy: Handle, query: &Query) -> Result<Call, NoMemory>
    ensures { IfOk result (λ call. call ≡ query_call policy query.now) }
{
    Ok(match query {
        Query::Names(names) => lsa_call(
            LSAR_LOOKUP_NAMES,
            policy,
            Args::LookNames {
                level: LSAP_LOOKUP_WKSTA,
                names: names.copy(alloc)?,
            },
        ),
        Query::Sids(words) => lsa_call(
            LSAR_LOOKUP_SIDS,
            policy,
            Args::LookSids {
                level: LSAP_LOOKUP_WKSTA,
                sids: sids_of_words(alloc, words.as_slice())?,
            },
        ),
        Query::Rights(sid) => lsa_call(LSAR_ENUMERATE_ACCOUNT_RIGHTS, policy, Args::OneSid(*sid)),
        Query::Grant { sid, rights } => lsa_call(
            LSAR_ADD_ACCOUNT_RIGHTS,
            policy,
            Args::Rights {
                sid: *sid,
                all: false,
                names: rights.copy(alloc)?,
            },
        ),
    })
}

/// The call of a step.
pub fn call_of(alloc: Global, step: &Step) -> Result<Call, NoMemory>
    ensures { IfOk result (λ call. call ≡ call_of step.now) }
{
    Ok(match step {
        Step::Opening(command) => opening_call(command),
        Step::ListingDomains { server, context } => samr_call(
            SAMR_ENUMERATE_DOMAINS_IN_SAM_SERVER,
            *server,
            page(*context),
        ),
        Step::LookingUpDomain { server, domain, .. } => samr_call(
            SAMR_LOOKUP_DOMAIN_IN_SAM_SERVER,
            *server,
            Args::OneName(Some(domain.copy(alloc)?)),
        ),
        Step::OpeningDomain { server, sid, task } => samr_call(
            SAMR_OPEN_DOMAIN,
            *server,
            Args::AccessSid {
                access: domain_access(task),
                sid: *sid,
            },
        ),
        Step::ListingUsers { domain, context } => {
            samr_call(SAMR_ENUMERATE_USERS_IN_DOMAIN, *domain, page(*context))
        }
        Step::CreatingUser { domain, name } => samr_call(
            SAMR_CREATE_USER2_IN_DOMAIN,
            *domain,
            Args::Make {
                name: name.copy(alloc)?,
                bits: USER_NORMAL_ACCOUNT,
                access: MAXIMUM_ALLOWED,
            },
        ),
        Step::LookingUp { domain, task } => samr_call(
            SAMR_LOOKUP_NAMES_IN_DOMAIN,
            *domain,
            Args::NameList(asked_names(alloc, task)?),
        ),
        Step::OpeningUser { domain, rid } => samr_call(
            SAMR_OPEN_USER,
            *domain,
            Args::AccessRid {
                access: DELETE,
                rid: *rid,
            },
        ),
        Step::DeletingUser { user, .. } => samr_call(SAMR_DELETE_USER, *user, Args::Nothing),
        Step::OpeningGroup { domain, rid, task } => samr_call(
            SAMR_OPEN_GROUP,
            *domain,
            Args::AccessRid {
                access: group_access(*task),
                rid: *rid,
            },
        ),
        Step::ListingMembers { group } => {
            samr_call(SAMR_GET_MEMBERS_IN_GROUP, *group, Args::Nothing)
        }
        Step::AddingMember { group, rid } => samr_call(
            SAMR_ADD_MEMBER_TO_GROUP,
            *group,
            Args::RidBits {
                rid: *rid,
                bits: NEW_GROUP_ATTRIBUTES,
            },
        ),
        Step::Asking { policy, query } => query_call(alloc, *policy, query)?,
    })
}

/// The interface and the opnum of a step's call.
pub fn operation_of(step: &Step) -> (Face, u16)
    ensures face { result.0 ≡ (call_of step.now).face }
    ensures opnum { result.1 ≡ (call_of step.now).opnum }
{
    match step {
        Step::Opening(Command::AtPolicy(_)) => (Face::Lsa, LSAR_OPEN_POLICY2),
        Step::Opening(_) => (Face::Samr, SAMR_CONNECT2),
        Step::ListingDomains { .. } => (Face::Samr, SAMR_ENUMERATE_DOMAINS_IN_SAM_SERVER),
        Step::LookingUpDomain { .. } => (Face::Samr, SAMR_LOOKUP_DOMAIN_IN_SAM_SERVER),
        Step::OpeningDomain { .. } => (Face::Samr, SAMR_OPEN_DOMAIN),
        Step::ListingUsers { .. } => (Face::Samr, SAMR_ENUMERATE_USERS_IN_DOMAIN),
        Step::CreatingUser { .. } => (Face::Samr, SAMR_CREATE_USER2_IN_DOMAIN),
        Step::LookingUp { .. } => (Face::Samr, SAMR_LOOKUP_NAMES_IN_DOMAIN),
        Step::OpeningUser { .. } => (Face::Samr, SAMR_OPEN_USER),
        Step::DeletingUser { .. } => (Face::Samr, SAMR_DELETE_USER),
        Step::OpeningGroup { .. } => (Face::Samr, SAMR_OPEN_GROUP),
        Step::ListingMembers { .. } => (Face::Samr, SAMR_GET_MEMBERS_IN_GROUP),
        Step::AddingMember { .. } => (Face::Samr, SAMR_ADD_MEMBER_TO_GROUP),
        Step::Asking { query, .. } => (Face::Lsa, query_opnum(query)),
    }
}

fn query_opnum(query: &Query) -> u16
    ensures { (policy : Handle) → result ≡ (query_call policy query.now).opnum }
{
    match query {
        Query::Names(_) => LSAR_LOOKUP_NAMES,
        Query::Sids(_) => LSAR_LOOKUP_SIDS,
        Query::Rights(_) => LSAR_ENUMERATE_ACCOUNT_RIGHTS,
        Query::Grant { .. } => LSAR_ADD_ACCOUNT_RIGHTS,
    }
}

/// A law: the calls of steps that fit can be written.
pub fn fit_steps_are_spelled()
    ensures { FitStepsAreSpelled }
{}
