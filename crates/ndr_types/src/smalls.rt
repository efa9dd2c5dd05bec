// Four smalls as the low digits of a number.
ghost use Rattle.std.specs.Prelude.{◌≡◌, ◌+◌, ◌*◌, ◌<◌, ◌^◌, IfOk, OnOk};
ghost use Rattle.ndr_core.specs.Cursor.{Reads};
ghost use Rattle.ndr_core.specs.Shapes.{given};
ghost use Rattle.ndr_types.specs.Values.{then_small};

use crate::NoMemory;
use ndr_core::{In, NdrError, Out};

/// The number that `high` and four smalls after it make.
pub fn read_four_smalls(from: &mut In<'_>, high: u128) -> Result<u128, NdrError>
    requires { high < 2 ^ 96 }
    ensures gives { Reads result from.new
        ((then_small (then_small (then_small (then_small (given high))))).read from.old) }
    ensures below { IfOk result (λ n. n < 2 ^ 32 * (high + 1)) }
{
    let n = high * 0x100 + from.u8()? as u128;
    let n = n * 0x100 + from.u8()? as u128;
    let n = n * 0x100 + from.u8()? as u128;
    let n = n * 0x100 + from.u8()? as u128;
    Ok(n)
}

/// The low four bytes of a number, as smalls.
pub fn write_four_smalls(to: &mut Out, number: u128) -> Result<(), NoMemory>
    ensures { OnOk result (to.new
        ≡ (then_small (then_small (then_small (then_small (given 0))))).write number to.old) }
{
    let n3 = number / 0x100;
    let n2 = n3 / 0x100;
    let n1 = n2 / 0x100;
    to.u8((n1 % 0x100) as u8)?;
    to.u8((n2 % 0x100) as u8)?;
    to.u8((n3 % 0x100) as u8)?;
    to.u8((number % 0x100) as u8)
}
