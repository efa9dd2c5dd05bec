// The calls of the generator.
ghost use Rattle.std.specs.Prelude.{◌≡◌, ◌++◌, ◌≤◌, length, IfOk, OnOk};
ghost use Rattle.acct_layouts.specs.Values.{IsText};
ghost use Rattle.acct_commands.specs.Generated.{most_users, handle_of, domain_sid, user_sid, user_name, control};
ghost use Rattle.acct_commands.specs.Generated.{closing, asked_names, opening_calls, user_calls, closing_calls};
ghost use Rattle.acct_commands.specs.Generated.{policy_calls};

use acct_calls::{
    Args, Call, Handle, Info, Name, Names, NoMemory, ZERO_HANDLE, lsa_call, samr_call,
};
use acct_codes::info_class::USER_CONTROL_INFORMATION;
use acct_codes::lookup_level::LSAP_LOOKUP_WKSTA;
use acct_codes::lsa_opnum::{LSAR_CLOSE, LSAR_LOOKUP_NAMES, LSAR_OPEN_POLICY2};
use acct_codes::rid::{FIRST_CREATED_RID, SECURITY_NT_AUTHORITY};
use acct_codes::samr_opnum::{
    SAMR_ADD_MEMBER_TO_ALIAS, SAMR_CLOSE_HANDLE, SAMR_CONNECT2, SAMR_CREATE_ALIAS_IN_DOMAIN,
    SAMR_CREATE_USER2_IN_DOMAIN, SAMR_ENUMERATE_USERS_IN_DOMAIN, SAMR_GET_MEMBERS_IN_ALIAS,
    SAMR_LOOKUP_NAMES_IN_DOMAIN, SAMR_OPEN_DOMAIN, SAMR_SET_INFORMATION_USER,
};
use acct_codes::standard_rights::MAXIMUM_ALLOWED;
use acct_codes::user_control::USER_NORMAL_ACCOUNT;
use dtyp_sid::Sid;
use std::alloc::Global;

/// The most users that are generated.
pub const MOST_USERS: u32 = 10_000;

/// The handle that is given out with a serial on connection 1.
fn handle_of(serial: u32) -> Handle
    ensures { result ≡ handle_of serial }
{
    Handle {
        number: (1 << 64) + serial as u128,
    }
}

/// The SID of the domain.
fn domain_sid() -> Sid
    ensures { result ≡ domain_sid }
{
    match Sid::new(SECURITY_NT_AUTHORITY, &[21, 1, 2, 3]) {
        Ok(sid) => sid,
        Err(_) => unreachable!(),
    }
}

/// The SID of a user.
fn user_sid(k: u32) -> Sid
    requires { k ≤ most_users }
    ensures { result ≡ user_sid k }
{
    match domain_sid().with_rid(FIRST_CREATED_RID + k) {
        Some(sid) => sid,
        None => unreachable!(),
    }
}

/// The name of a text of ASCII characters, a unit each.
fn ascii_name(alloc: Global, text: &str) -> Result<Name, NoMemory>
    requires { length text.now ≤ 20 }
    ensures value { IfOk result (λ name. name ≡ text.now) }
    ensures fits { IfOk result IsText }
{
    let mut units = Vec::with_capacity(alloc, text.len())?;
    for byte in text.as_bytes() {
        units.push(*byte as u16)?;
    }
    let name = Name::from_units(units);
    name.has_units();
    Ok(name)
}

/// The name of a user.
#[tactic(auto, unfolding(crate::specs::Generated::user_name))]
fn user_name(alloc: Global, k: u32) -> Result<Name, NoMemory>
    requires { k ≤ most_users }
    ensures value { IfOk result (λ name. name ≡ user_name k) }
    ensures fits { IfOk result IsText }
{
    let number = k * 7919 % 65537;
    ascii_name(alloc, format!(in alloc; "u{number}")?.as_str())
}

/// The calls that open the server and the domain, and create the alias.
#[tactic(auto, unfolding(crate::specs::Generated::opening_calls))]
pub fn opening_calls(alloc: Global) -> Result<Vec<Call>, NoMemory>
    ensures value { IfOk result (λ calls. calls.items ≡ opening_calls) }
    ensures few { IfOk result (λ calls. length calls.items ≡ 3) }
{
    let mut calls = Vec::with_capacity(alloc, 3)?;
    calls.push(samr_call(SAMR_CONNECT2, ZERO_HANDLE, Args::Access(MAXIMUM_ALLOWED)))?;
    let domain = Args::AccessSid {
        access: MAXIMUM_ALLOWED,
        sid: domain_sid(),
    };
    calls.push(samr_call(SAMR_OPEN_DOMAIN, handle_of(1), domain))?;
    let alias = Args::Make {
        name: ascii_name(alloc, "site")?,
        bits: 0,
        access: MAXIMUM_ALLOWED,
    };
    calls.push(samr_call(SAMR_CREATE_ALIAS_IN_DOMAIN, handle_of(2), alias))?;
    Ok(calls)
}

/// The call that sets a user's control.
fn control(k: u32) -> Call
    requires { k ≤ most_users }
    ensures { result ≡ control k }
{
    let args = Args::Put {
        class: USER_CONTROL_INFORMATION,
        value: Info::Number(USER_NORMAL_ACCOUNT),
    };
    samr_call(SAMR_SET_INFORMATION_USER, handle_of(3 + k), args)
}

fn closing(handle: Handle) -> Call
    ensures { result ≡ closing handle }
{
    samr_call(SAMR_CLOSE_HANDLE, handle, Args::Nothing)
}

/// The calls that create a user, make it a member of the alias, set the control of every second one, and close its
/// handle.
#[tactic(auto, unfolding(crate::specs::Generated::user_calls))]
pub fn user_calls(alloc: Global, k: u32) -> Result<Vec<Call>, NoMemory>
    requires { k ≤ most_users }
    ensures value { IfOk result (λ calls. calls.items ≡ user_calls k) }
    ensures text { IfOk result (λ calls. IsText (user_name k)) }
    ensures few { IfOk result (λ calls. length calls.items ≤ 4) }
{
    let mut calls = Vec::with_capacity(alloc, 4)?;
    let user = Args::Make {
        name: user_name(alloc, k)?,
        bits: USER_NORMAL_ACCOUNT,
        access: MAXIMUM_ALLOWED,
    };
    calls.push(samr_call(SAMR_CREATE_USER2_IN_DOMAIN, handle_of(2), user))?;
    calls.push(samr_call(
        SAMR_ADD_MEMBER_TO_ALIAS,
        handle_of(3),
        Args::OneSid(user_sid(k)),
    ))?;
    if k % 2 == 1 {
        calls.push(control(k))?;
    }
    calls.push(closing(handle_of(3 + k)))?;
    Ok(calls)
}

/// The names of the first user and of one that isn't there.
fn asked_names(alloc: Global) -> Result<Names, NoMemory>
    ensures { IfOk result (λ names. names ≡ asked_names) }
{
    let mut names = Names::new(alloc);
    names.push(ascii_name(alloc, "u7919")?)?;
    names.push(ascii_name(alloc, "nobody")?)?;
    Ok(names)
}

/// The calls that look up what was made, and close the handles.
#[tactic(auto, unfolding(crate::specs::Generated::closing_calls))]
pub fn closing_calls(alloc: Global, users: u32) -> Result<Vec<Call>, NoMemory>
    requires { users ≤ most_users }
    ensures value { IfOk result (λ calls. calls.items ≡ closing_calls users) }
    ensures few { IfOk result (λ calls. length calls.items ≡ 9) }
{
    let mut calls = Vec::with_capacity(alloc, 9)?;
    let names = Args::NameList(asked_names(alloc)?);
    calls.push(samr_call(SAMR_LOOKUP_NAMES_IN_DOMAIN, handle_of(2), names))?;
    let page = Args::Page {
        context: 0,
        filter: 0,
        preferred: 65_535,
    };
    calls.push(samr_call(SAMR_ENUMERATE_USERS_IN_DOMAIN, handle_of(2), page))?;
    calls.push(samr_call(SAMR_GET_MEMBERS_IN_ALIAS, handle_of(3), Args::Nothing))?;
    calls.push(closing(handle_of(3)))?;
    calls.push(closing(handle_of(2)))?;
    calls.push(closing(handle_of(1)))?;
    push_policy_calls(alloc, &mut calls, users)?;
    Ok(calls)
}

/// Adds the calls that open the policy, translate the first user's name and close the policy.
fn push_policy_calls(alloc: Global, calls: &mut Vec<Call>, users: u32) -> Result<(), NoMemory>
    requires { users ≤ most_users }
    ensures { OnOk result (calls.new.items ≡ calls.old.items ++ policy_calls users) }
{
    let opening = Args::Policy {
        rooted: false,
        access: MAXIMUM_ALLOWED,
    };
    calls.push(lsa_call(LSAR_OPEN_POLICY2, ZERO_HANDLE, opening))?;
    let mut names = Names::new(alloc);
    names.push(ascii_name(alloc, "u7919")?)?;
    let translation = Args::LookNames {
        level: LSAP_LOOKUP_WKSTA,
        names,
    };
    calls.push(lsa_call(LSAR_LOOKUP_NAMES, handle_of(4 + users), translation))?;
    calls.push(lsa_call(LSAR_CLOSE, handle_of(4 + users), Args::Nothing))?;
    Ok(())
}
