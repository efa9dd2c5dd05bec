// Numbers that have one reading.
ghost use Rattle.std.specs.Prelude.{◌==◌};
ghost use Rattle.ndr_core.specs.Cursor.{Reads};
ghost use Rattle.ndr_core.specs.Shapes.{u32_such};

use ndr_core::{In, NdrError};

/// A number, which must be the expected one.
pub fn read_wanted(from: &mut In<'_>, wanted: u32) -> Result<u32, NdrError>
    ensures { Reads result from.new ((u32_such (λ n. n == wanted)).read from.old) }
{
    let number = from.u32()?;
    if number != wanted {
        return Err(from.broken(4));
    }
    Ok(number)
}
