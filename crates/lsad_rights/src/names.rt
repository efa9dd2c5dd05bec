// The operations that look for a privilege by its name, and by its LUID.
ghost use Rattle.std.specs.Prelude.{◌≡◌, true, IfOk, OnErr};
ghost use Rattle.std.specs.Option.{option_copied};
ghost use Rattle.acct_rules.specs.Planned.{decision, none_fails};
ghost use Rattle.lsad_rights.specs.Listings.{privilege_asked, privilege_of_luid, privilege_value, privilege_name};

use crate::privileges::KnownPrivilege;
use acct_calls::{Args, Name, Outs};
use acct_codes::status::{STATUS_NO_SUCH_PRIVILEGE, STATUS_SUCCESS};
use acct_rows::{Object, Rows};
use acct_rules::{NoMemory, Planned, answers, asked_name, refusal};
use std::alloc::Global;

// The privilege of a name that was brought.
fn privilege_asked(alloc: Global, name: Option<&Name>) -> Result<Option<KnownPrivilege>, NoMemory>
    ensures { IfOk result (λ privilege. privilege ≡ privilege_asked (option_copied name.entry)) }
{
    match name {
        Some(name) => KnownPrivilege::named(alloc, name),
        None => Ok(None),
    }
}

/// LsarLookupPrivilegeValue (MS-LSAD 3.1.4.8.2): the LUID of the privilege of a name.
pub fn privilege_value(
    alloc: Global,
    rows: &Rows,
    policy: Object,
    args: &Args,
) -> Result<Planned, NoMemory>
    ensures { IfOk result (λ p. p ≡ decision (privilege_value rows.now.lists policy args.now)) }
{
    match privilege_asked(alloc, asked_name(args))? {
        Some(privilege) => {
            let luid = Outs::Luid {
                low: privilege.low(),
                high: 0,
            };
            Ok(answers(alloc, STATUS_SUCCESS, luid))
        }
        None => Ok(refusal(alloc, STATUS_NO_SUCH_PRIVILEGE)),
    }
}

// The privilege of the LUID that is asked for.
fn privilege_of_luid(args: &Args) -> Option<KnownPrivilege>
    ensures { result ≡ privilege_of_luid args.now }
{
    match args {
        Args::Luid { low, high: 0 } => KnownPrivilege::of_low(*low),
        _ => None,
    }
}

/// LsarLookupPrivilegeName (MS-LSAD 3.1.4.8.3): the name of the privilege of a LUID.
pub fn privilege_name(
    alloc: Global,
    rows: &Rows,
    policy: Object,
    args: &Args,
) -> Result<Planned, NoMemory>
    ensures decided { IfOk result (λ p. p ≡ decision (privilege_name rows.now.lists policy args.now)) }
    ensures frugal { OnErr result (none_fails (privilege_name rows.now.lists policy args.now).conditions ≡ true) }
{
    match privilege_of_luid(args) {
        Some(privilege) => {
            let name = privilege.name(alloc)?;
            Ok(answers(alloc, STATUS_SUCCESS, Outs::OneName(Some(name))))
        }
        None => Ok(refusal(alloc, STATUS_NO_SUCH_PRIVILEGE)),
    }
}
