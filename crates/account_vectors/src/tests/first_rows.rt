// The rows of a new database, for the account domain CORP, S-1-5-21-1-2-3.
ghost use Rattle.std.specs.Prelude.{IfOk};
ghost use Rattle.acct_rows.specs.Sound.{IsSoundRows};

use acct_calls::Name;
use acct_calls::domain::{is_domain_name, is_domain_sid};
use acct_rows::Rows;
use dtyp_sid::parse_text;
use std::alloc::Global;
use std::process::Abort;
use std::test::Fail;

/// The rows of a new database whose domain has this name.
fn seeded_by(rt: &impl Abort, alloc: Global, name: &Name) -> Result<Rows, Fail>
    ensures { IfOk result (λ rows. IsSoundRows rows.lists) }
{
    let sid = parse_text("S-1-5-21-1-2-3")?;
    assert!(rt; is_domain_name(alloc, name)?);
    assert!(rt; is_domain_sid(&sid));
    Ok(Rows::seed(alloc, name, sid)?)
}

/// The rows of a new database.
pub fn seeded(rt: &impl Abort, alloc: Global) -> Result<Rows, Fail>
    ensures { IfOk result (λ rows. IsSoundRows rows.lists) }
{
    let name = Name::from_text(alloc, "CORP")?;
    let rows = seeded_by(rt, alloc, &name);
    drop(name);
    rows
}
