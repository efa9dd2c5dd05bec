// The accounts of a domain that are displayed.
ghost use Rattle.std.specs.Prelude.{◌≡◌, OnOk};
ghost use Rattle.acct_layouts.specs.Values.{display_arm};
ghost use Rattle.ndr_types.specs.Outcomes.{ReadsIfRoom};
ghost use Rattle.acct_stubs.specs.Infos.{displayed, rows_of};

use crate::NoMemory;
use crate::numbers::read_wanted;
use acct_base::Seq;
use acct_calls::DisplayRows;
use acct_layouts::display_arm;
use ndr_core::{In, NdrError, Out};
use ndr_types::{read_display_rows, write_display_rows};
use std::alloc::Global;

/// The entries of a class. A class that isn't served has none.
fn read_rows(alloc: Global, from: &mut In<'_>, class: u16) -> Result<DisplayRows, NdrError>
    ensures { ReadsIfRoom result from.new ((rows_of (display_arm class)).read from.old) }
{
    let Some(arm) = display_arm(class) else {
        read_wanted(from, 0)?;
        read_wanted(from, 0)?;
        return Ok(Seq::new(alloc));
    };
    read_display_rows(alloc, from, arm)
}

#[tactic(auto, using(crate::proofs::DisplayValues::rows_listed))]
fn write_rows(to: &mut Out, class: u16, rows: &DisplayRows) -> Result<(), NoMemory>
    requires { (rows_of (display_arm class)).Fits rows.now }
    ensures { OnOk result (to.new ≡ (rows_of (display_arm class)).write rows.now to.old) }
{
    let Some(arm) = display_arm(class) else {
        to.u32(0)?;
        return to.u32(0);
    };
    write_display_rows(to, arm, rows)
}

/// A class, and the accounts that it displays.
#[tactic(auto, unfolding(crate::specs::Infos::displayed))]
pub fn read_displayed(alloc: Global, from: &mut In<'_>) -> Result<(u16, DisplayRows), NdrError>
    ensures { ReadsIfRoom result from.new (displayed.read from.old) }
{
    let class = from.u16()?;
    from.align(4);
    let rows = read_rows(alloc, from, class)?;
    Ok((class, rows))
}

/// A class, and the accounts that it displays.
#[tactic(auto, unfolding(crate::specs::Infos::displayed))]
pub fn write_displayed(to: &mut Out, class: u16, rows: &DisplayRows) -> Result<(), NoMemory>
    requires { displayed.Fits (class, rows.now) }
    ensures { OnOk result (to.new ≡ displayed.write (class, rows.now) to.old) }
{
    to.u16(class)?;
    to.align(4)?;
    write_rows(to, class, rows)
}
