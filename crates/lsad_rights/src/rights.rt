// The rights of an account, by their names.
ghost use Rattle.std.specs.Prelude.{◌≡◌, IfOk};
ghost use Rattle.lsad_rights.specs.Rights.{has_privilege, holds, right_named};

use crate::logon_rights::LogonRight;
use crate::privileges::KnownPrivilege;
use acct_calls::{Name, NoMemory};
use acct_rows::{Held, LsaRow};
use std::alloc::Global;

/// A right that an account of the policy may hold (MS-LSAD 3.1.1.3): a privilege, or a right to log on.
#[derive(Clone, Copy, Debug, PartialEq, Eq)]
pub enum AccountRight {
    Privilege(KnownPrivilege),
    Logon(LogonRight),
}

/// Whether an account's privileges have the one whose LUID has this low part.
pub fn has_privilege(held: &[Held], low: u32) -> bool
    ensures { result ≡ has_privilege low held.now }
{
    held.iter().any(|privilege| privilege.low == low)
}

impl AccountRight {
    /// The right that has the name.
    pub fn named(alloc: Global, name: &Name) -> Result<Option<AccountRight>, NoMemory>
        ensures { IfOk result (λ right. right ≡ right_named name.now) }
    {
        if let Some(privilege) = KnownPrivilege::named(alloc, name)? {
            return Ok(Some(AccountRight::Privilege(privilege)));
        }
        match LogonRight::named(alloc, name)? {
            Some(right) => Ok(Some(AccountRight::Logon(right))),
            None => Ok(None),
        }
    }

    /// Whether the account holds it.
    pub fn is_held(self, account: &LsaRow) -> bool
        ensures { result ≡ holds self account.now }
    {
        match self {
            AccountRight::Privilege(privilege) => {
                has_privilege(account.privileges.as_slice(), privilege.low())
            }
            AccountRight::Logon(right) => right.is_in(account.access),
        }
    }
}
