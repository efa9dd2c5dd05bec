// The name of the server, which isn't looked at.
ghost use Rattle.std.specs.Prelude.{◌≡◌, OnOk};
ghost use Rattle.ndr_core.specs.Cursor.{Reads};
ghost use Rattle.ndr_core.specs.Shapes.{u16};
ghost use Rattle.ndr_core.specs.Parts.{times};
ghost use Rattle.acct_stubs.specs.Arguments.{ReadsPast, server_name};

use crate::NoMemory;
use ndr_core::{In, NdrError, Out};

/// Passes over the units of a text.
fn skip_units(from: &mut In<'_>, count: u32) -> Result<(), NdrError>
    ensures { ReadsPast result from.new ((times count u16).read from.old) }
{
    for _ in 0..count {
        from.u16()?;
    }
    Ok(())
}

/// Passes over the name of the server.
#[tactic(auto, unfolding(crate::specs::Arguments::server_name))]
pub fn read_server_name(from: &mut In<'_>) -> Result<(), NdrError>
    ensures { Reads result from.new (server_name.read from.old) }
{
    if !from.pointer()? {
        return Ok(());
    }
    let maximum = from.conformant()?;
    let actual = from.varying(maximum)?;
    skip_units(from, actual)
}

/// Writes no name.
#[tactic(auto, unfolding(crate::specs::Arguments::server_name))]
pub fn write_server_name(to: &mut Out) -> Result<(), NoMemory>
    ensures { OnOk result (to.new ≡ server_name.write tt to.old) }
{
    to.pointer(false)
}
