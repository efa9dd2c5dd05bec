// The account of the policy that a call is about, and what an implied opening of it guards.
ghost use Rattle.std.specs.Prelude.{◌≡◌};
ghost use Rattle.std.specs.Option.{option_copied};
ghost use Rattle.lsad_rights.specs.Accounts.{account_of, account_of_sid, object_of_sid, guarded};

use acct_rows::{LsaRow, Object, Rows};
use acct_rules::{Effect, Opening, Planned};
use dtyp_sid::Sid;

/// The account that the handle stands for.
pub fn account_of<'a>(rows: &'a Rows, object: &Object) -> Option<&'a LsaRow>
    ensures { option_copied result ≡ account_of rows.now.lists object.now }
{
    match object {
        Object::Account(sid) => rows.lsa_account(sid),
        _ => None,
    }
}

/// The account that is looked for by its SID.
pub fn account_of_sid(rows: &Rows, sid: Option<Sid>) -> Option<&LsaRow>
    ensures { option_copied result ≡ account_of_sid rows.now.lists sid }
{
    match sid {
        Some(sid) => rows.lsa_account(&sid),
        None => None,
    }
}

/// The object that it is; the policy, where no SID was brought.
pub fn object_of_sid(sid: Option<Sid>) -> Object
    ensures { result ≡ object_of_sid sid }
{
    match sid {
        Some(sid) => Object::Account(sid),
        None => Object::Policy,
    }
}

/// What is planned, where an opening of the object is granted too, of which no handle comes.
pub fn guarded(object: Object, desired: u32, planned: Planned) -> Planned
    ensures { result ≡ guarded object desired planned }
{
    Planned {
        effect: Effect::Checks(Opening { object, desired }),
        ..planned
    }
}
