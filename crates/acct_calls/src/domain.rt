//! Which names and SIDs the account domain may have, beside the domain BUILTIN.
ghost use Rattle.std.specs.Prelude.{◌≡◌, IfOk};
ghost use Rattle.acct_calls.specs.Names.{builtin_sid, is_domain_name, is_domain_sid};

use crate::{Name, NoMemory};
use acct_codes::Kind;
use acct_codes::limit::{MOST_DOMAIN_NAME, MOST_DOMAIN_SUBS};
use acct_codes::rid::{SECURITY_BUILTIN_DOMAIN_RID, SECURITY_NT_AUTHORITY};
use dtyp_sid::Sid;
use std::alloc::Global;

/// The name of the domain BUILTIN.
pub const BUILTIN_NAME: &str = "BUILTIN";

/// The SID of the domain BUILTIN, S-1-5-32 (MS-DTYP 2.4.2.4).
pub fn builtin_sid() -> Sid
    ensures { result ≡ builtin_sid }
{
    match Sid::new(SECURITY_NT_AUTHORITY, &[SECURITY_BUILTIN_DOMAIN_RID]) {
        Ok(sid) => sid,
        Err(_) => unreachable!(),
    }
}

/// Whether the account domain may have the name: one that a group may have, of at most 15 units, and neither BUILTIN
/// nor NT AUTHORITY by any spelling.
#[tactic(auto, unfolding(crate::specs::Names::is_domain_name))]
pub fn is_domain_name(alloc: Global, name: &Name) -> Result<bool, NoMemory>
    ensures { IfOk result (λ may. may ≡ is_domain_name name.now) }
{
    let builtin = Name::from_text(alloc, BUILTIN_NAME)?;
    let authority = Name::from_text(alloc, "NT AUTHORITY")?;
    Ok(
        name.units().len() <= MOST_DOMAIN_NAME
            && name.is_valid(Kind::Group)
            && !name.same(&builtin)
            && !name.same(&authority),
    )
}

/// Whether the account domain may have the SID: one of 1 to 14 sub-authorities, so that an account's may have one more,
/// but not BUILTIN's.
#[tactic(auto, unfolding(crate::specs::Names::is_domain_sid))]
pub fn is_domain_sid(sid: &Sid) -> bool
    ensures { result ≡ is_domain_sid sid.now }
{
    let is_builtin = sid.authority() == SECURITY_NT_AUTHORITY
        && sid.subs() == [SECURITY_BUILTIN_DOMAIN_RID].as_slice();
    1 <= sid.subs().len() && sid.subs().len() <= MOST_DOMAIN_SUBS && !is_builtin
}
