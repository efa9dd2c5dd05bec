// The table of operations.
ghost use Rattle.std.specs.Prelude.{◌≡◌};
ghost use Rattle.acct_layouts.specs.Table.{layout_of, lsa_layout, samr_layout};
ghost use Rattle.acct_layouts.specs.declared.fields.Fields.TheVariants as fields;
ghost use Rattle.acct_layouts.specs.declared.outputs.Outputs.TheVariants as outputs;

use crate::classes::Subject;
use crate::fields::{
    Connect, Creation, Fields, PolicyFields, ScalarFields, Search, SecurityFields, Translation,
};
use crate::outputs::{Listed, Outputs, PolicyOutputs, ScalarOutputs};
use acct_calls::Face;
use acct_codes::{lsa_opnum, samr_opnum};

/// What stands in the stubs of an operation: the fields of its calls and the outputs of its replies.
#[derive(Clone, Copy, Debug, PartialEq, Eq)]
pub struct Layout {
    pub fields: Fields,
    pub outputs: Outputs,
}

/// The layout of an operation of the account database.
#[tactic(auto, unfolding(crate::specs::Table::samr_layout))]
fn samr_layout(opnum: u16) -> Option<Layout>
    ensures { result ≡ samr_layout opnum }
{
    let handle = Outputs::Scalar(ScalarOutputs::Handle);
    let handle_back = Outputs::Scalar(ScalarOutputs::HandleBack);
    let nothing = Outputs::Scalar(ScalarOutputs::Nothing);
    let created = Outputs::Scalar(ScalarOutputs::Created);
    let granted = Outputs::Scalar(ScalarOutputs::Granted);
    let connected = Outputs::Scalar(ScalarOutputs::Connected);
    let page = Outputs::Listed(Listed::Page);
    let names = Fields::Search(Search::Names);
    let rids = Fields::Search(Search::Rids);
    let brings_nothing = Fields::Scalar(ScalarFields::Nothing);
    let domain_shown = Outputs::Shown(Subject::Domain);
    let group_shown = Outputs::Shown(Subject::Group);
    let alias_shown = Outputs::Shown(Subject::Alias);
    let user_shown = Outputs::Shown(Subject::User);
    let (fields, outputs) = match opnum {
        samr_opnum::SAMR_CLOSE_HANDLE
        | samr_opnum::SAMR_DELETE_GROUP
        | samr_opnum::SAMR_DELETE_ALIAS
        | samr_opnum::SAMR_DELETE_USER => (brings_nothing, handle_back),
        samr_opnum::SAMR_SET_SECURITY_OBJECT => (Fields::Security(SecurityFields::Set), nothing),
        samr_opnum::SAMR_QUERY_SECURITY_OBJECT => (
            Fields::Security(SecurityFields::Query),
            Outputs::Security,
        ),
        samr_opnum::SAMR_LOOKUP_DOMAIN_IN_SAM_SERVER => (
            Fields::Scalar(ScalarFields::Name),
            Outputs::Scalar(ScalarOutputs::Sid),
        ),
        samr_opnum::SAMR_ENUMERATE_DOMAINS_IN_SAM_SERVER
        | samr_opnum::SAMR_ENUMERATE_GROUPS_IN_DOMAIN
        | samr_opnum::SAMR_ENUMERATE_ALIASES_IN_DOMAIN => (Fields::Search(Search::Page), page),
        samr_opnum::SAMR_OPEN_DOMAIN => (Fields::Scalar(ScalarFields::OpenDomain), handle),
        samr_opnum::SAMR_QUERY_INFORMATION_DOMAIN | samr_opnum::SAMR_QUERY_INFORMATION_DOMAIN2 => (
            Fields::Class(Subject::Domain),
            domain_shown,
        ),
        samr_opnum::SAMR_SET_INFORMATION_DOMAIN => (Fields::Put(Subject::Domain), nothing),
        samr_opnum::SAMR_CREATE_GROUP_IN_DOMAIN | samr_opnum::SAMR_CREATE_ALIAS_IN_DOMAIN => (
            Fields::Creation(Creation::Account),
            created,
        ),
        samr_opnum::SAMR_CREATE_USER_IN_DOMAIN => (Fields::Creation(Creation::User), created),
        samr_opnum::SAMR_ENUMERATE_USERS_IN_DOMAIN => (Fields::Search(Search::FilteredPage), page),
        samr_opnum::SAMR_GET_ALIAS_MEMBERSHIP => (
            Fields::Search(Search::Sids),
            Outputs::Listed(Listed::Rids),
        ),
        samr_opnum::SAMR_LOOKUP_NAMES_IN_DOMAIN => (names, Outputs::Listed(Listed::RidUses)),
        samr_opnum::SAMR_LOOKUP_IDS_IN_DOMAIN => (rids, Outputs::Listed(Listed::NameUses)),
        samr_opnum::SAMR_OPEN_GROUP | samr_opnum::SAMR_OPEN_ALIAS | samr_opnum::SAMR_OPEN_USER => (
            Fields::Scalar(ScalarFields::OpenAccount),
            handle,
        ),
        samr_opnum::SAMR_QUERY_INFORMATION_GROUP => (Fields::Class(Subject::Group), group_shown),
        samr_opnum::SAMR_SET_INFORMATION_GROUP => (Fields::Put(Subject::Group), nothing),
        samr_opnum::SAMR_ADD_MEMBER_TO_GROUP => (Fields::Scalar(ScalarFields::Member), nothing),
        samr_opnum::SAMR_REMOVE_MEMBER_FROM_GROUP => (Fields::Scalar(ScalarFields::Rid), nothing),
        samr_opnum::SAMR_GET_MEMBERS_IN_GROUP => (brings_nothing, Outputs::Listed(Listed::Members)),
        samr_opnum::SAMR_QUERY_INFORMATION_ALIAS => (Fields::Class(Subject::Alias), alias_shown),
        samr_opnum::SAMR_SET_INFORMATION_ALIAS => (Fields::Put(Subject::Alias), nothing),
        samr_opnum::SAMR_ADD_MEMBER_TO_ALIAS | samr_opnum::SAMR_REMOVE_MEMBER_FROM_ALIAS => (
            Fields::Scalar(ScalarFields::Sid),
            nothing,
        ),
        samr_opnum::SAMR_GET_MEMBERS_IN_ALIAS => (brings_nothing, Outputs::Listed(Listed::Sids)),
        samr_opnum::SAMR_QUERY_INFORMATION_USER | samr_opnum::SAMR_QUERY_INFORMATION_USER2 => (
            Fields::Class(Subject::User),
            user_shown,
        ),
        samr_opnum::SAMR_SET_INFORMATION_USER | samr_opnum::SAMR_SET_INFORMATION_USER2 => (
            Fields::Put(Subject::User),
            nothing,
        ),
        samr_opnum::SAMR_GET_GROUPS_FOR_USER => (brings_nothing, Outputs::Listed(Listed::Groups)),
        samr_opnum::SAMR_QUERY_DISPLAY_INFORMATION => (
            Fields::Search(Search::Display),
            Outputs::Listed(Listed::Display),
        ),
        samr_opnum::SAMR_CREATE_USER2_IN_DOMAIN => (Fields::Creation(Creation::TypedUser), granted),
        samr_opnum::SAMR_CONNECT2 => (Fields::Connect(Connect::Connect2), handle),
        samr_opnum::SAMR_CONNECT4 => (Fields::Connect(Connect::Connect4), handle),
        samr_opnum::SAMR_CONNECT5 => (Fields::Connect(Connect::Connect5), connected),
        samr_opnum::SAMR_RID_TO_SID => (
            Fields::Scalar(ScalarFields::Rid),
            Outputs::Scalar(ScalarOutputs::Sid),
        ),
        _ => return None,
    };
    Some(Layout { fields, outputs })
}

/// The fields and the outputs of a translation.
fn translated(translation: Translation) -> (Fields, Outputs)
    ensures fields { result.0 ≡ fields.Translation translation }
    ensures outputs { result.1 ≡ outputs.Translation translation }
{
    (
        Fields::Translation(translation),
        Outputs::Translation(translation),
    )
}

/// The layout of an operation of the policy.
#[tactic(auto, unfolding(crate::specs::Table::lsa_layout))]
fn lsa_layout(opnum: u16) -> Option<Layout>
    ensures { result ≡ lsa_layout opnum }
{
    let handle = Outputs::Scalar(ScalarOutputs::Handle);
    let handle_back = Outputs::Scalar(ScalarOutputs::HandleBack);
    let nothing = Outputs::Scalar(ScalarOutputs::Nothing);
    let page = Fields::Search(Search::Page);
    let brings_nothing = Fields::Scalar(ScalarFields::Nothing);
    let policy_shown = Outputs::Shown(Subject::Policy);
    let added = Fields::Policy(PolicyFields::AddPrivileges);
    let removed = Fields::Policy(PolicyFields::RemovePrivileges);
    let right = Fields::Policy(PolicyFields::Right);
    let rights = Outputs::Policy(PolicyOutputs::Rights);
    let privileges = Outputs::Policy(PolicyOutputs::Privileges);
    let access = Outputs::Policy(PolicyOutputs::SystemAccess);
    let name = Outputs::Policy(PolicyOutputs::Name);
    let luid = Outputs::Policy(PolicyOutputs::Luid);
    let (fields, outputs) = match opnum {
        lsa_opnum::LSAR_CLOSE | lsa_opnum::LSAR_DELETE_OBJECT => (brings_nothing, handle_back),
        lsa_opnum::LSAR_ENUMERATE_PRIVILEGES => (
            page,
            Outputs::Policy(PolicyOutputs::PrivilegePage),
        ),
        lsa_opnum::LSAR_QUERY_SECURITY_OBJECT => (
            Fields::Security(SecurityFields::Query),
            Outputs::Security,
        ),
        lsa_opnum::LSAR_SET_SECURITY_OBJECT => (Fields::Security(SecurityFields::Set), nothing),
        lsa_opnum::LSAR_QUERY_INFORMATION_POLICY | lsa_opnum::LSAR_QUERY_INFORMATION_POLICY2 => (
            Fields::Class(Subject::Policy),
            policy_shown,
        ),
        lsa_opnum::LSAR_CREATE_ACCOUNT | lsa_opnum::LSAR_OPEN_ACCOUNT => (
            Fields::Policy(PolicyFields::Account),
            handle,
        ),
        lsa_opnum::LSAR_ENUMERATE_ACCOUNTS => (page, Outputs::Policy(PolicyOutputs::SidPage)),
        lsa_opnum::LSAR_LOOKUP_NAMES => translated(Translation::Names),
        lsa_opnum::LSAR_LOOKUP_SIDS => translated(Translation::Sids),
        lsa_opnum::LSAR_ENUMERATE_PRIVILEGES_ACCOUNT => (brings_nothing, privileges),
        lsa_opnum::LSAR_ADD_PRIVILEGES_TO_ACCOUNT => (added, nothing),
        lsa_opnum::LSAR_REMOVE_PRIVILEGES_FROM_ACCOUNT => (removed, nothing),
        lsa_opnum::LSAR_GET_SYSTEM_ACCESS_ACCOUNT => (brings_nothing, access),
        lsa_opnum::LSAR_SET_SYSTEM_ACCESS_ACCOUNT => (
            Fields::Policy(PolicyFields::SystemAccess),
            nothing,
        ),
        lsa_opnum::LSAR_LOOKUP_PRIVILEGE_VALUE => (Fields::Scalar(ScalarFields::Name), luid),
        lsa_opnum::LSAR_LOOKUP_PRIVILEGE_NAME => (Fields::Policy(PolicyFields::Luid), name),
        lsa_opnum::LSAR_ENUMERATE_ACCOUNTS_WITH_USER_RIGHT => (
            right,
            Outputs::Listed(Listed::Sids),
        ),
        lsa_opnum::LSAR_ENUMERATE_ACCOUNT_RIGHTS => (Fields::Scalar(ScalarFields::Sid), rights),
        lsa_opnum::LSAR_ADD_ACCOUNT_RIGHTS => (Fields::Policy(PolicyFields::AddRights), nothing),
        lsa_opnum::LSAR_REMOVE_ACCOUNT_RIGHTS => (
            Fields::Policy(PolicyFields::RemoveRights),
            nothing,
        ),
        lsa_opnum::LSAR_LOOKUP_SIDS2 => translated(Translation::Sids2),
        lsa_opnum::LSAR_LOOKUP_NAMES2 => translated(Translation::Names2),
        lsa_opnum::LSAR_LOOKUP_NAMES3 => translated(Translation::Names3),
        lsa_opnum::LSAR_OPEN_POLICY2 => (Fields::Connect(Connect::OpenPolicy2), handle),
        _ => return None,
    };
    Some(Layout { fields, outputs })
}

/// The layout of the operation of an interface and an opnum, if it is served.
pub fn layout_of(face: Face, opnum: u16) -> Option<Layout>
    ensures { result ≡ layout_of face opnum }
{
    match face {
        Face::Samr => samr_layout(opnum),
        Face::Lsa => lsa_layout(opnum),
    }
}
