// The table of operations.
ghost use Rattle.std.specs.Prelude.{◌≡◌, ◌+◌, true, Some, None, map, get_or, IfOk, OnErr};
ghost use Rattle.std.specs.List.{range_with_len};
ghost use Rattle.acct_calls.specs.declared.calls.Face.TheVariants.{Samr, Lsa};
ghost use Rattle.acct_rules.specs.Planned.{decision};
ghost use Rattle.acct_rules.specs.Profiles.{asking};
ghost use Rattle.acct_codes.specs.Rights.{domain_lookup, policy_lookup_names, policy_create_account};
ghost use Rattle.acct_codes.specs.declared.kind.Kind.TheVariants as kind;
ghost use Rattle.acct_rules.specs.declared.profile.Kinds.TheVariants.{Only};
ghost use Rattle.acct_rules.specs.declared.profile.Needs.TheVariants as needs;
ghost use Rattle.acct_rules.specs.declared.profile.Memory.TheVariants.{Anywhere};
ghost use Rattle.dtyp_access.specs.Parts.{IsDescriptor};
ghost use Rattle.acct_operations.specs.Frugal.{MayWantToDecide};
ghost use Rattle.acct_operations.specs.Table.{opening, closing, querying, setting, operation, work_of, opnum_count};
ghost use Rattle.samr_objects.specs.Table.{asking_user};

use crate::closings::close;
use crate::openings::connect;
use crate::openings::open_policy;
use crate::security::query_security;
use crate::security::set_security;
use acct_calls::Args;
use acct_calls::Face;
use acct_codes::Kind;
use acct_codes::account_rights::ACCOUNT_ADJUST_PRIVILEGES;
use acct_codes::account_rights::ACCOUNT_ADJUST_SYSTEM_ACCESS;
use acct_codes::account_rights::ACCOUNT_VIEW;
use acct_codes::alias_rights::ALIAS_ADD_MEMBER;
use acct_codes::alias_rights::ALIAS_LIST_MEMBERS;
use acct_codes::alias_rights::ALIAS_READ_INFORMATION;
use acct_codes::alias_rights::ALIAS_REMOVE_MEMBER;
use acct_codes::alias_rights::ALIAS_WRITE_ACCOUNT;
use acct_codes::domain_rights::DOMAIN_CREATE_ALIAS;
use acct_codes::domain_rights::DOMAIN_CREATE_GROUP;
use acct_codes::domain_rights::DOMAIN_CREATE_USER;
use acct_codes::domain_rights::DOMAIN_GET_ALIAS_MEMBERSHIP;
use acct_codes::domain_rights::DOMAIN_LIST_ACCOUNTS;
use acct_codes::domain_rights::DOMAIN_LOOKUP;
use acct_codes::domain_rights::DOMAIN_READ_OTHER_PARAMETERS;
use acct_codes::domain_rights::DOMAIN_WRITE_OTHER_PARAMETERS;
use acct_codes::group_rights::GROUP_ADD_MEMBER;
use acct_codes::group_rights::GROUP_LIST_MEMBERS;
use acct_codes::group_rights::GROUP_READ_INFORMATION;
use acct_codes::group_rights::GROUP_REMOVE_MEMBER;
use acct_codes::group_rights::GROUP_WRITE_ACCOUNT;
use acct_codes::info_class::USER_CONTROL_INFORMATION;
use acct_codes::lsa_opnum;
use acct_codes::policy_rights::POLICY_CREATE_ACCOUNT;
use acct_codes::policy_rights::POLICY_LOOKUP_NAMES;
use acct_codes::policy_rights::POLICY_VIEW_LOCAL_INFORMATION;
use acct_codes::samr_opnum;
use acct_codes::server_rights::SAM_SERVER_ENUMERATE_DOMAINS;
use acct_codes::server_rights::SAM_SERVER_LOOKUP_DOMAIN;
use acct_codes::standard_rights::DELETE;
use acct_codes::standard_rights::READ_CONTROL;
use acct_codes::user_rights::USER_LIST_GROUPS;
use acct_codes::user_rights::USER_READ_ACCOUNT;
use acct_codes::user_rights::USER_READ_GENERAL;
use acct_codes::user_rights::USER_WRITE_ACCOUNT;
use acct_rows::Object;
use acct_rows::Rows;
use acct_rules::Brings;
use acct_rules::Kinds;
use acct_rules::Memory;
use acct_rules::Needs;
use acct_rules::NoMemory;
use acct_rules::Planned;
use acct_rules::Profile;
use acct_rules::asking;
use dtyp_access::Descriptor;
use lsad_rights::account_privileges;
use lsad_rights::account_rights;
use lsad_rights::accounts_with_right;
use lsad_rights::add_privileges;
use lsad_rights::add_rights;
use lsad_rights::create_account;
use lsad_rights::delete_account;
use lsad_rights::list_accounts;
use lsad_rights::list_privileges;
use lsad_rights::open_account;
use lsad_rights::privilege_name;
use lsad_rights::privilege_value;
use lsad_rights::query_policy;
use lsad_rights::remove_privileges;
use lsad_rights::remove_rights;
use lsad_rights::set_system_access;
use lsad_rights::system_access;
use samr_members::add_alias_member;
use samr_members::add_group_member;
use samr_members::alias_members;
use samr_members::alias_membership;
use samr_members::group_members;
use samr_members::remove_alias_member;
use samr_members::remove_group_member;
use samr_members::user_groups;
use samr_objects::create_alias;
use samr_objects::create_group;
use samr_objects::create_user;
use samr_objects::delete_alias;
use samr_objects::delete_group;
use samr_objects::delete_user;
use samr_objects::list_aliases;
use samr_objects::list_domains;
use samr_objects::list_groups;
use samr_objects::list_users;
use samr_objects::look_domain;
use samr_objects::look_ids;
use samr_objects::look_names;
use samr_objects::open_alias;
use samr_objects::open_domain;
use samr_objects::open_group;
use samr_objects::open_user;
use samr_objects::query_alias;
use samr_objects::query_display;
use samr_objects::query_domain;
use samr_objects::query_group;
use samr_objects::query_user;
use samr_objects::rid_to_sid;
use samr_objects::set_alias;
use samr_objects::set_domain;
use samr_objects::set_group;
use samr_objects::set_user;
use std::alloc::Global;

/// The operations.
#[derive(Clone, Copy, Debug, PartialEq, Eq)]
pub enum Work {
    SamrConnect2,
    SamrConnect4,
    SamrConnect5,
    SamrCloseHandle,
    SamrSetSecurityObject,
    SamrQuerySecurityObject,
    SamrLookupDomainInSamServer,
    SamrEnumerateDomainsInSamServer,
    SamrOpenDomain,
    SamrQueryInformationDomain,
    SamrQueryDisplayInformation,
    SamrQueryInformationDomain2,
    SamrSetInformationDomain,
    SamrCreateGroupInDomain,
    SamrEnumerateGroupsInDomain,
    SamrCreateUserInDomain,
    SamrEnumerateUsersInDomain,
    SamrCreateAliasInDomain,
    SamrEnumerateAliasesInDomain,
    SamrGetAliasMembership,
    SamrLookupNamesInDomain,
    SamrLookupIdsInDomain,
    SamrOpenGroup,
    SamrQueryInformationGroup,
    SamrSetInformationGroup,
    SamrAddMemberToGroup,
    SamrDeleteGroup,
    SamrRemoveMemberFromGroup,
    SamrGetMembersInGroup,
    SamrOpenAlias,
    SamrQueryInformationAlias,
    SamrSetInformationAlias,
    SamrDeleteAlias,
    SamrAddMemberToAlias,
    SamrRemoveMemberFromAlias,
    SamrGetMembersInAlias,
    SamrOpenUser,
    SamrDeleteUser,
    SamrQueryInformationUser,
    SamrSetInformationUser,
    SamrGetGroupsForUser,
    SamrQueryInformationUser2,
    SamrCreateUser2InDomain,
    SamrSetInformationUser2,
    SamrRidToSid,
    LsarOpenPolicy2,
    LsarClose,
    LsarQuerySecurityObject,
    LsarSetSecurityObject,
    LsarEnumeratePrivileges,
    LsarQueryInformationPolicy,
    LsarCreateAccount,
    LsarEnumerateAccounts,
    LsarOpenAccount,
    LsarEnumeratePrivilegesAccount,
    LsarAddPrivilegesToAccount,
    LsarRemovePrivilegesFromAccount,
    LsarGetSystemAccessAccount,
    LsarSetSystemAccessAccount,
    LsarLookupPrivilegeValue,
    LsarLookupPrivilegeName,
    LsarDeleteObject,
    LsarEnumerateAccountsWithUserRight,
    LsarEnumerateAccountRights,
    LsarAddAccountRights,
    LsarRemoveAccountRights,
    LsarQueryInformationPolicy2,
    LsarLookupNames,
    LsarLookupSids,
    LsarLookupSids2,
    LsarLookupNames2,
    LsarLookupNames3,
}

// The operations of SAMR up to the last opnum that is served, each at the place that its opnum says.
#[tactic(auto, unfolding(crate::specs::Table::work_of, crate::specs::Table::operation))]
fn samr_works() -> &'static [Option<Work>]
    ensures { result.now ≡ map (work_of Samr) (range_with_len 0 (opnum_count Samr)) }
{
    &[
        None,
        Some(Work::SamrCloseHandle),
        Some(Work::SamrSetSecurityObject),
        Some(Work::SamrQuerySecurityObject),
        None,
        Some(Work::SamrLookupDomainInSamServer),
        Some(Work::SamrEnumerateDomainsInSamServer),
        Some(Work::SamrOpenDomain),
        Some(Work::SamrQueryInformationDomain),
        Some(Work::SamrSetInformationDomain),
        Some(Work::SamrCreateGroupInDomain),
        Some(Work::SamrEnumerateGroupsInDomain),
        Some(Work::SamrCreateUserInDomain),
        Some(Work::SamrEnumerateUsersInDomain),
        Some(Work::SamrCreateAliasInDomain),
        Some(Work::SamrEnumerateAliasesInDomain),
        Some(Work::SamrGetAliasMembership),
        Some(Work::SamrLookupNamesInDomain),
        Some(Work::SamrLookupIdsInDomain),
        Some(Work::SamrOpenGroup),
        Some(Work::SamrQueryInformationGroup),
        Some(Work::SamrSetInformationGroup),
        Some(Work::SamrAddMemberToGroup),
        Some(Work::SamrDeleteGroup),
        Some(Work::SamrRemoveMemberFromGroup),
        Some(Work::SamrGetMembersInGroup),
        None,
        Some(Work::SamrOpenAlias),
        Some(Work::SamrQueryInformationAlias),
        Some(Work::SamrSetInformationAlias),
        Some(Work::SamrDeleteAlias),
        Some(Work::SamrAddMemberToAlias),
        Some(Work::SamrRemoveMemberFromAlias),
        Some(Work::SamrGetMembersInAlias),
        Some(Work::SamrOpenUser),
        Some(Work::SamrDeleteUser),
        Some(Work::SamrQueryInformationUser),
        Some(Work::SamrSetInformationUser),
        None,
        Some(Work::SamrGetGroupsForUser),
        Some(Work::SamrQueryDisplayInformation),
        None,
        None,
        None,
        None,
        None,
        Some(Work::SamrQueryInformationDomain2),
        Some(Work::SamrQueryInformationUser2),
        None,
        None,
        Some(Work::SamrCreateUser2InDomain),
        None,
        None,
        None,
        None,
        None,
        None,
        Some(Work::SamrConnect2),
        Some(Work::SamrSetInformationUser2),
        None,
        None,
        None,
        Some(Work::SamrConnect4),
        None,
        Some(Work::SamrConnect5),
        Some(Work::SamrRidToSid),
    ]
}

// The operations of LSARPC up to the last opnum that is served, each at the place that its opnum says.
#[tactic(auto, unfolding(crate::specs::Table::work_of, crate::specs::Table::operation))]
fn lsa_works() -> &'static [Option<Work>]
    ensures { result.now ≡ map (work_of Lsa) (range_with_len 0 (opnum_count Lsa)) }
{
    &[
        Some(Work::LsarClose),
        None,
        Some(Work::LsarEnumeratePrivileges),
        Some(Work::LsarQuerySecurityObject),
        Some(Work::LsarSetSecurityObject),
        None,
        None,
        Some(Work::LsarQueryInformationPolicy),
        None,
        None,
        Some(Work::LsarCreateAccount),
        Some(Work::LsarEnumerateAccounts),
        None,
        None,
        Some(Work::LsarLookupNames),
        Some(Work::LsarLookupSids),
        None,
        Some(Work::LsarOpenAccount),
        Some(Work::LsarEnumeratePrivilegesAccount),
        Some(Work::LsarAddPrivilegesToAccount),
        Some(Work::LsarRemovePrivilegesFromAccount),
        None,
        None,
        Some(Work::LsarGetSystemAccessAccount),
        Some(Work::LsarSetSystemAccessAccount),
        None,
        None,
        None,
        None,
        None,
        None,
        Some(Work::LsarLookupPrivilegeValue),
        Some(Work::LsarLookupPrivilegeName),
        None,
        Some(Work::LsarDeleteObject),
        Some(Work::LsarEnumerateAccountsWithUserRight),
        Some(Work::LsarEnumerateAccountRights),
        Some(Work::LsarAddAccountRights),
        Some(Work::LsarRemoveAccountRights),
        None,
        None,
        None,
        None,
        None,
        Some(Work::LsarOpenPolicy2),
        None,
        Some(Work::LsarQueryInformationPolicy2),
        None,
        None,
        None,
        None,
        None,
        None,
        None,
        None,
        None,
        None,
        Some(Work::LsarLookupSids2),
        Some(Work::LsarLookupNames2),
        None,
        None,
        None,
        None,
        None,
        None,
        None,
        None,
        None,
        Some(Work::LsarLookupNames3),
    ]
}

// What stands at the place that an opnum says; after the last place nothing does.
#[tactic(auto, using(std::proofs::lemmas::Option::get_or_from_slice_get))]
fn at(works: &[Option<Work>], opnum: u16) -> Option<Work>
    ensures { result ≡ get_or works.now opnum None }
{
    match works.get(usize::from(opnum)) {
        Some(work) => *work,
        None => None,
    }
}

/// The operation of an interface and an opnum.
#[tactic(auto, using(crate::proofs::ByOpnum::samr_at, crate::proofs::ByOpnum::lsa_at))]
pub fn work_of(face: Face, opnum: u16) -> Option<Work>
    ensures { result ≡ work_of face opnum }
{
    match face {
        Face::Samr => at(samr_works(), opnum),
        Face::Lsa => at(lsa_works(), opnum),
    }
}

// An operation that opens what a connection begins with.
fn opening(face: Face, opnum: u16) -> Profile
    ensures { result ≡ opening face opnum }
{
    Profile {
        face,
        opnum,
        brings: Brings::Nothing,
        needs: Needs::Bits(0),
        memory: Memory::AfterConditions,
    }
}

// An operation that closes a handle to an object of these kinds.
fn closing(face: Face, opnum: u16, kinds: Kinds) -> Profile
    ensures { result ≡ closing face opnum kinds }
{
    asking(face, opnum, kinds, 0, Memory::Never)
}

// An operation that reads the descriptor of an object of these kinds.
fn querying(face: Face, opnum: u16, kinds: Kinds) -> Profile
    ensures { result ≡ querying face opnum kinds }
{
    asking(face, opnum, kinds, READ_CONTROL, Memory::Anywhere)
}

// One that sets it.
fn setting(face: Face, opnum: u16, kinds: Kinds) -> Profile
    ensures { result ≡ setting face opnum kinds }
{
    Profile {
        needs: Needs::ByParts,
        ..asking(face, opnum, kinds, 0, Memory::Anywhere)
    }
}

// An operation that takes a handle to an object of a kind of the account database, whose grant has these bits.
fn on(kind: Kind, opnum: u16, bits: u32) -> Profile
    ensures { result ≡ asking Samr opnum (Only kind) bits Anywhere }
{
    asking(Face::Samr, opnum, Kinds::Only(kind), bits, Memory::Anywhere)
}

fn on_domain(opnum: u16, bits: u32) -> Profile
    ensures { result ≡ asking Samr opnum (Only kind.Domain) bits Anywhere }
{
    on(Kind::Domain, opnum, bits)
}

fn opening_account(opnum: u16) -> Profile
    ensures { result ≡ asking Samr opnum (Only kind.Domain) domain_lookup Anywhere }
{
    on_domain(opnum, DOMAIN_LOOKUP)
}

// An operation that shows a user: its control needs another right than all else.
fn showing_user(opnum: u16) -> Profile
    ensures { result ≡ asking_user opnum }
{
    Profile {
        needs: Needs::ByClass {
            class: USER_CONTROL_INFORMATION,
            bits: USER_READ_ACCOUNT,
            others: USER_READ_GENERAL,
        },
        ..asking(
            Face::Samr,
            opnum,
            Kinds::Only(Kind::User),
            0,
            Memory::Anywhere,
        )
    }
}

// An operation that takes a handle to the policy, whose grant has these bits.
fn on_policy(opnum: u16, bits: u32) -> Profile
    ensures { result ≡ asking Lsa opnum (Only kind.Policy) bits Anywhere }
{
    asking(
        Face::Lsa,
        opnum,
        Kinds::Only(Kind::Policy),
        bits,
        Memory::Anywhere,
    )
}

// An operation that takes a handle to an account of the policy, whose grant has these bits.
fn on_policy_account(opnum: u16, bits: u32) -> Profile
    ensures { result ≡ asking Lsa opnum (Only kind.Account) bits Anywhere }
{
    asking(
        Face::Lsa,
        opnum,
        Kinds::Only(Kind::Account),
        bits,
        Memory::Anywhere,
    )
}

// An operation that adds rights to an account: where the policy has none of the SID, it needs one right more.
fn adding_rights(opnum: u16) -> Profile
    ensures { result
        ≡ record (asking Lsa opnum (Only kind.Policy) 0 Anywhere) {
          needs = needs.ByAccount policy_lookup_names (policy_lookup_names + policy_create_account);
        } }
{
    Profile {
        needs: Needs::ByAccount {
            bits: POLICY_LOOKUP_NAMES,
            missing: POLICY_LOOKUP_NAMES | POLICY_CREATE_ACCOUNT,
        },
        ..on_policy(opnum, 0)
    }
}

/// The profile of an operation.
#[tactic(auto, unfolding(crate::specs::Table::operation))]
pub fn profile_of(work: Work) -> Profile
    ensures { result ≡ (operation work).profile }
{
    match work {
        Work::SamrConnect2 => opening(Face::Samr, samr_opnum::SAMR_CONNECT2),
        Work::SamrConnect4 => opening(Face::Samr, samr_opnum::SAMR_CONNECT4),
        Work::SamrConnect5 => opening(Face::Samr, samr_opnum::SAMR_CONNECT5),
        Work::SamrCloseHandle => closing(Face::Samr, samr_opnum::SAMR_CLOSE_HANDLE, Kinds::Samr),
        Work::SamrSetSecurityObject => setting(
            Face::Samr,
            samr_opnum::SAMR_SET_SECURITY_OBJECT,
            Kinds::Samr,
        ),
        Work::SamrQuerySecurityObject => querying(
            Face::Samr,
            samr_opnum::SAMR_QUERY_SECURITY_OBJECT,
            Kinds::Samr,
        ),
        Work::SamrLookupDomainInSamServer => on(
            Kind::Server,
            samr_opnum::SAMR_LOOKUP_DOMAIN_IN_SAM_SERVER,
            SAM_SERVER_LOOKUP_DOMAIN,
        ),
        Work::SamrEnumerateDomainsInSamServer => on(
            Kind::Server,
            samr_opnum::SAMR_ENUMERATE_DOMAINS_IN_SAM_SERVER,
            SAM_SERVER_ENUMERATE_DOMAINS,
        ),
        Work::SamrOpenDomain => on(
            Kind::Server,
            samr_opnum::SAMR_OPEN_DOMAIN,
            SAM_SERVER_LOOKUP_DOMAIN,
        ),
        Work::SamrQueryInformationDomain => on_domain(
            samr_opnum::SAMR_QUERY_INFORMATION_DOMAIN,
            DOMAIN_READ_OTHER_PARAMETERS,
        ),
        Work::SamrQueryDisplayInformation => on_domain(
            samr_opnum::SAMR_QUERY_DISPLAY_INFORMATION,
            DOMAIN_LIST_ACCOUNTS,
        ),
        Work::SamrQueryInformationDomain2 => on_domain(
            samr_opnum::SAMR_QUERY_INFORMATION_DOMAIN2,
            DOMAIN_READ_OTHER_PARAMETERS,
        ),
        Work::SamrSetInformationDomain => on_domain(
            samr_opnum::SAMR_SET_INFORMATION_DOMAIN,
            DOMAIN_WRITE_OTHER_PARAMETERS,
        ),
        Work::SamrCreateGroupInDomain => on_domain(
            samr_opnum::SAMR_CREATE_GROUP_IN_DOMAIN,
            DOMAIN_CREATE_GROUP,
        ),
        Work::SamrEnumerateGroupsInDomain => on_domain(
            samr_opnum::SAMR_ENUMERATE_GROUPS_IN_DOMAIN,
            DOMAIN_LIST_ACCOUNTS,
        ),
        Work::SamrCreateUserInDomain => on_domain(
            samr_opnum::SAMR_CREATE_USER_IN_DOMAIN,
            DOMAIN_CREATE_USER,
        ),
        Work::SamrEnumerateUsersInDomain => on_domain(
            samr_opnum::SAMR_ENUMERATE_USERS_IN_DOMAIN,
            DOMAIN_LIST_ACCOUNTS,
        ),
        Work::SamrCreateAliasInDomain => on_domain(
            samr_opnum::SAMR_CREATE_ALIAS_IN_DOMAIN,
            DOMAIN_CREATE_ALIAS,
        ),
        Work::SamrEnumerateAliasesInDomain => on_domain(
            samr_opnum::SAMR_ENUMERATE_ALIASES_IN_DOMAIN,
            DOMAIN_LIST_ACCOUNTS,
        ),
        Work::SamrGetAliasMembership => on_domain(
            samr_opnum::SAMR_GET_ALIAS_MEMBERSHIP,
            DOMAIN_GET_ALIAS_MEMBERSHIP,
        ),
        Work::SamrLookupNamesInDomain => on_domain(
            samr_opnum::SAMR_LOOKUP_NAMES_IN_DOMAIN,
            DOMAIN_LOOKUP,
        ),
        Work::SamrLookupIdsInDomain => on_domain(
            samr_opnum::SAMR_LOOKUP_IDS_IN_DOMAIN,
            DOMAIN_LOOKUP,
        ),
        Work::SamrOpenGroup => opening_account(samr_opnum::SAMR_OPEN_GROUP),
        Work::SamrQueryInformationGroup => on(
            Kind::Group,
            samr_opnum::SAMR_QUERY_INFORMATION_GROUP,
            GROUP_READ_INFORMATION,
        ),
        Work::SamrSetInformationGroup => on(
            Kind::Group,
            samr_opnum::SAMR_SET_INFORMATION_GROUP,
            GROUP_WRITE_ACCOUNT,
        ),
        Work::SamrAddMemberToGroup => on(
            Kind::Group,
            samr_opnum::SAMR_ADD_MEMBER_TO_GROUP,
            GROUP_ADD_MEMBER,
        ),
        Work::SamrDeleteGroup => on(Kind::Group, samr_opnum::SAMR_DELETE_GROUP, DELETE),
        Work::SamrRemoveMemberFromGroup => on(
            Kind::Group,
            samr_opnum::SAMR_REMOVE_MEMBER_FROM_GROUP,
            GROUP_REMOVE_MEMBER,
        ),
        Work::SamrGetMembersInGroup => on(
            Kind::Group,
            samr_opnum::SAMR_GET_MEMBERS_IN_GROUP,
            GROUP_LIST_MEMBERS,
        ),
        Work::SamrOpenAlias => opening_account(samr_opnum::SAMR_OPEN_ALIAS),
        Work::SamrQueryInformationAlias => on(
            Kind::Alias,
            samr_opnum::SAMR_QUERY_INFORMATION_ALIAS,
            ALIAS_READ_INFORMATION,
        ),
        Work::SamrSetInformationAlias => on(
            Kind::Alias,
            samr_opnum::SAMR_SET_INFORMATION_ALIAS,
            ALIAS_WRITE_ACCOUNT,
        ),
        Work::SamrDeleteAlias => on(Kind::Alias, samr_opnum::SAMR_DELETE_ALIAS, DELETE),
        Work::SamrAddMemberToAlias => on(
            Kind::Alias,
            samr_opnum::SAMR_ADD_MEMBER_TO_ALIAS,
            ALIAS_ADD_MEMBER,
        ),
        Work::SamrRemoveMemberFromAlias => on(
            Kind::Alias,
            samr_opnum::SAMR_REMOVE_MEMBER_FROM_ALIAS,
            ALIAS_REMOVE_MEMBER,
        ),
        Work::SamrGetMembersInAlias => on(
            Kind::Alias,
            samr_opnum::SAMR_GET_MEMBERS_IN_ALIAS,
            ALIAS_LIST_MEMBERS,
        ),
        Work::SamrOpenUser => opening_account(samr_opnum::SAMR_OPEN_USER),
        Work::SamrDeleteUser => on(Kind::User, samr_opnum::SAMR_DELETE_USER, DELETE),
        Work::SamrQueryInformationUser => showing_user(samr_opnum::SAMR_QUERY_INFORMATION_USER),
        Work::SamrSetInformationUser => on(
            Kind::User,
            samr_opnum::SAMR_SET_INFORMATION_USER,
            USER_WRITE_ACCOUNT,
        ),
        Work::SamrGetGroupsForUser => on(
            Kind::User,
            samr_opnum::SAMR_GET_GROUPS_FOR_USER,
            USER_LIST_GROUPS,
        ),
        Work::SamrQueryInformationUser2 => showing_user(samr_opnum::SAMR_QUERY_INFORMATION_USER2),
        Work::SamrCreateUser2InDomain => on_domain(
            samr_opnum::SAMR_CREATE_USER2_IN_DOMAIN,
            DOMAIN_CREATE_USER,
        ),
        Work::SamrSetInformationUser2 => on(
            Kind::User,
            samr_opnum::SAMR_SET_INFORMATION_USER2,
            USER_WRITE_ACCOUNT,
        ),
        Work::SamrRidToSid => asking(
            Face::Samr,
            samr_opnum::SAMR_RID_TO_SID,
            Kinds::InDomain,
            0,
            Memory::Anywhere,
        ),
        Work::LsarOpenPolicy2 => opening(Face::Lsa, lsa_opnum::LSAR_OPEN_POLICY2),
        Work::LsarClose => closing(Face::Lsa, lsa_opnum::LSAR_CLOSE, Kinds::Lsa),
        Work::LsarQuerySecurityObject => querying(
            Face::Lsa,
            lsa_opnum::LSAR_QUERY_SECURITY_OBJECT,
            Kinds::Lsa,
        ),
        Work::LsarSetSecurityObject => setting(
            Face::Lsa,
            lsa_opnum::LSAR_SET_SECURITY_OBJECT,
            Kinds::Lsa,
        ),
        Work::LsarEnumeratePrivileges => on_policy(
            lsa_opnum::LSAR_ENUMERATE_PRIVILEGES,
            POLICY_VIEW_LOCAL_INFORMATION,
        ),
        Work::LsarQueryInformationPolicy => on_policy(
            lsa_opnum::LSAR_QUERY_INFORMATION_POLICY,
            POLICY_VIEW_LOCAL_INFORMATION,
        ),
        Work::LsarCreateAccount => on_policy(lsa_opnum::LSAR_CREATE_ACCOUNT, POLICY_CREATE_ACCOUNT),
        Work::LsarEnumerateAccounts => on_policy(
            lsa_opnum::LSAR_ENUMERATE_ACCOUNTS,
            POLICY_VIEW_LOCAL_INFORMATION,
        ),
        Work::LsarOpenAccount => on_policy(
            lsa_opnum::LSAR_OPEN_ACCOUNT,
            POLICY_VIEW_LOCAL_INFORMATION,
        ),
        Work::LsarEnumeratePrivilegesAccount => on_policy_account(
            lsa_opnum::LSAR_ENUMERATE_PRIVILEGES_ACCOUNT,
            ACCOUNT_VIEW,
        ),
        Work::LsarAddPrivilegesToAccount => on_policy_account(
            lsa_opnum::LSAR_ADD_PRIVILEGES_TO_ACCOUNT,
            ACCOUNT_ADJUST_PRIVILEGES,
        ),
        Work::LsarRemovePrivilegesFromAccount => on_policy_account(
            lsa_opnum::LSAR_REMOVE_PRIVILEGES_FROM_ACCOUNT,
            ACCOUNT_ADJUST_PRIVILEGES,
        ),
        Work::LsarGetSystemAccessAccount => {
            on_policy_account(lsa_opnum::LSAR_GET_SYSTEM_ACCESS_ACCOUNT, ACCOUNT_VIEW)
        }
        Work::LsarSetSystemAccessAccount => on_policy_account(
            lsa_opnum::LSAR_SET_SYSTEM_ACCESS_ACCOUNT,
            ACCOUNT_ADJUST_SYSTEM_ACCESS,
        ),
        Work::LsarLookupPrivilegeValue => on_policy(
            lsa_opnum::LSAR_LOOKUP_PRIVILEGE_VALUE,
            POLICY_LOOKUP_NAMES,
        ),
        Work::LsarLookupPrivilegeName => on_policy(
            lsa_opnum::LSAR_LOOKUP_PRIVILEGE_NAME,
            POLICY_LOOKUP_NAMES,
        ),
        Work::LsarDeleteObject => on_policy_account(lsa_opnum::LSAR_DELETE_OBJECT, DELETE),
        Work::LsarEnumerateAccountsWithUserRight => on_policy(
            lsa_opnum::LSAR_ENUMERATE_ACCOUNTS_WITH_USER_RIGHT,
            POLICY_VIEW_LOCAL_INFORMATION | POLICY_LOOKUP_NAMES,
        ),
        Work::LsarEnumerateAccountRights => on_policy(
            lsa_opnum::LSAR_ENUMERATE_ACCOUNT_RIGHTS,
            POLICY_LOOKUP_NAMES,
        ),
        Work::LsarAddAccountRights => adding_rights(lsa_opnum::LSAR_ADD_ACCOUNT_RIGHTS),
        Work::LsarRemoveAccountRights => on_policy(
            lsa_opnum::LSAR_REMOVE_ACCOUNT_RIGHTS,
            POLICY_LOOKUP_NAMES,
        ),
        Work::LsarQueryInformationPolicy2 => on_policy(
            lsa_opnum::LSAR_QUERY_INFORMATION_POLICY2,
            POLICY_VIEW_LOCAL_INFORMATION,
        ),
        Work::LsarLookupNames => on_policy(lsa_opnum::LSAR_LOOKUP_NAMES, POLICY_LOOKUP_NAMES),
        Work::LsarLookupSids => on_policy(lsa_opnum::LSAR_LOOKUP_SIDS, POLICY_LOOKUP_NAMES),
        Work::LsarLookupSids2 => on_policy(lsa_opnum::LSAR_LOOKUP_SIDS2, POLICY_LOOKUP_NAMES),
        Work::LsarLookupNames2 => on_policy(lsa_opnum::LSAR_LOOKUP_NAMES2, POLICY_LOOKUP_NAMES),
        Work::LsarLookupNames3 => on_policy(lsa_opnum::LSAR_LOOKUP_NAMES3, POLICY_LOOKUP_NAMES),
    }
}

/// What an operation decides on rows, the object of the handle that was brought with its descriptor, and the arguments.
#[tactic(auto, unfolding(crate::specs::Table::operation))]
pub fn decide(
    alloc: Global,
    work: Work,
    rows: &Rows,
    described: &Descriptor,
    object: Object,
    args: &Args,
) -> Result<Planned, NoMemory>
    requires { IsDescriptor described.now }
    ensures decided { IfOk result (λ planned.
        planned ≡ decision ((operation work).rule rows.now.lists (Some described.now) object args.now)) }
    ensures frugal { OnErr result (MayWantToDecide work rows.now.lists (Some described.now) object args.now) }
{
    match work {
        Work::SamrConnect2 => Ok(connect(alloc, rows, object, args)),
        Work::SamrConnect4 => Ok(connect(alloc, rows, object, args)),
        Work::SamrConnect5 => Ok(connect(alloc, rows, object, args)),
        Work::SamrCloseHandle => Ok(close(alloc, rows, object, args)),
        Work::SamrSetSecurityObject => set_security(alloc, rows, described, object, args),
        Work::SamrQuerySecurityObject => query_security(alloc, rows, described, object, args),
        Work::SamrLookupDomainInSamServer => look_domain(alloc, rows, object, args),
        Work::SamrEnumerateDomainsInSamServer => list_domains(alloc, rows, object, args),
        Work::SamrOpenDomain => open_domain(alloc, rows, object, args),
        Work::SamrQueryInformationDomain => query_domain(alloc, rows, object, args),
        Work::SamrQueryDisplayInformation => query_display(alloc, rows, object, args),
        Work::SamrQueryInformationDomain2 => query_domain(alloc, rows, object, args),
        Work::SamrSetInformationDomain => set_domain(alloc, rows, object, args),
        Work::SamrCreateGroupInDomain => create_group(alloc, rows, object, args),
        Work::SamrEnumerateGroupsInDomain => list_groups(alloc, rows, object, args),
        Work::SamrCreateUserInDomain => create_user(alloc, rows, object, args),
        Work::SamrEnumerateUsersInDomain => list_users(alloc, rows, object, args),
        Work::SamrCreateAliasInDomain => create_alias(alloc, rows, object, args),
        Work::SamrEnumerateAliasesInDomain => list_aliases(alloc, rows, object, args),
        Work::SamrGetAliasMembership => alias_membership(alloc, rows, object, args),
        Work::SamrLookupNamesInDomain => look_names(alloc, rows, object, args),
        Work::SamrLookupIdsInDomain => look_ids(alloc, rows, object, args),
        Work::SamrOpenGroup => open_group(alloc, rows, object, args),
        Work::SamrQueryInformationGroup => query_group(alloc, rows, object, args),
        Work::SamrSetInformationGroup => set_group(alloc, rows, object, args),
        Work::SamrAddMemberToGroup => add_group_member(alloc, rows, object, args),
        Work::SamrDeleteGroup => delete_group(alloc, rows, object, args),
        Work::SamrRemoveMemberFromGroup => remove_group_member(alloc, rows, object, args),
        Work::SamrGetMembersInGroup => group_members(alloc, rows, object, args),
        Work::SamrOpenAlias => open_alias(alloc, rows, object, args),
        Work::SamrQueryInformationAlias => query_alias(alloc, rows, object, args),
        Work::SamrSetInformationAlias => set_alias(alloc, rows, object, args),
        Work::SamrDeleteAlias => delete_alias(alloc, rows, object, args),
        Work::SamrAddMemberToAlias => add_alias_member(alloc, rows, object, args),
        Work::SamrRemoveMemberFromAlias => remove_alias_member(alloc, rows, object, args),
        Work::SamrGetMembersInAlias => alias_members(alloc, rows, object, args),
        Work::SamrOpenUser => open_user(alloc, rows, object, args),
        Work::SamrDeleteUser => delete_user(alloc, rows, object, args),
        Work::SamrQueryInformationUser => query_user(alloc, rows, object, args),
        Work::SamrSetInformationUser => set_user(alloc, rows, object, args),
        Work::SamrGetGroupsForUser => user_groups(alloc, rows, object, args),
        Work::SamrQueryInformationUser2 => query_user(alloc, rows, object, args),
        Work::SamrCreateUser2InDomain => create_user(alloc, rows, object, args),
        Work::SamrSetInformationUser2 => set_user(alloc, rows, object, args),
        Work::SamrRidToSid => rid_to_sid(alloc, rows, object, args),
        Work::LsarOpenPolicy2 => Ok(open_policy(alloc, rows, object, args)),
        Work::LsarClose => Ok(close(alloc, rows, object, args)),
        Work::LsarQuerySecurityObject => query_security(alloc, rows, described, object, args),
        Work::LsarSetSecurityObject => set_security(alloc, rows, described, object, args),
        Work::LsarEnumeratePrivileges => list_privileges(alloc, rows, object, args),
        Work::LsarQueryInformationPolicy => query_policy(alloc, rows, object, args),
        Work::LsarCreateAccount => create_account(alloc, rows, object, args),
        Work::LsarEnumerateAccounts => list_accounts(alloc, rows, object, args),
        Work::LsarOpenAccount => open_account(alloc, rows, object, args),
        Work::LsarEnumeratePrivilegesAccount => account_privileges(alloc, rows, object, args),
        Work::LsarAddPrivilegesToAccount => add_privileges(alloc, rows, object, args),
        Work::LsarRemovePrivilegesFromAccount => remove_privileges(alloc, rows, object, args),
        Work::LsarGetSystemAccessAccount => system_access(alloc, rows, object, args),
        Work::LsarSetSystemAccessAccount => set_system_access(alloc, rows, object, args),
        Work::LsarLookupPrivilegeValue => privilege_value(alloc, rows, object, args),
        Work::LsarLookupPrivilegeName => privilege_name(alloc, rows, object, args),
        Work::LsarDeleteObject => delete_account(alloc, rows, object, args),
        Work::LsarEnumerateAccountsWithUserRight => accounts_with_right(alloc, rows, object, args),
        Work::LsarEnumerateAccountRights => account_rights(alloc, rows, object, args),
        Work::LsarAddAccountRights => add_rights(alloc, rows, object, args),
        Work::LsarRemoveAccountRights => remove_rights(alloc, rows, object, args),
        Work::LsarQueryInformationPolicy2 => query_policy(alloc, rows, object, args),
        Work::LsarLookupNames => lsat_translate::look_names(alloc, rows, object, args),
        Work::LsarLookupSids => lsat_translate::look_sids(alloc, rows, object, args),
        Work::LsarLookupSids2 => lsat_translate::look_sids2(alloc, rows, object, args),
        Work::LsarLookupNames2 => lsat_translate::look_names2(alloc, rows, object, args),
        Work::LsarLookupNames3 => lsat_translate::look_names3(alloc, rows, object, args),
    }
}
