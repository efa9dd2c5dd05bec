// The fields of the opening of the policy.
ghost use Rattle.std.specs.Prelude.{◌≡◌, OnOk};
ghost use Rattle.ndr_core.specs.Cursor.{Reads};
ghost use Rattle.ndr_core.specs.Shapes.{u8};
ghost use Rattle.ndr_core.specs.Parts.{when_there};
ghost use Rattle.lsa_wire.specs.Arguments.{connect_args, attributes_head, object_attributes, quality};

use crate::NoMemory;
use acct_calls::Args;
use acct_layouts::Connect;
use acct_stubs::{read_server_name, write_server_name};
use ndr_core::{In, NdrError, Out};

/// Whether there is a root, and whether there is a quality.
fn read_attributes_head(from: &mut In<'_>) -> Result<(bool, bool), NdrError>
    ensures { Reads result from.new (attributes_head.read from.old) }
{
    from.u32()?;
    let root = from.pointer()?;
    if from.pointer()? {
        return Err(from.broken(4));
    }
    from.u32()?;
    if from.pointer()? {
        return Err(from.broken(4));
    }
    let quality = from.pointer()?;
    Ok((root, quality))
}

/// The byte that a root refers to.
fn read_root(from: &mut In<'_>, there: bool) -> Result<Option<u8>, NdrError>
    ensures { Reads result from.new ((when_there there u8).read from.old) }
{
    if !there {
        return Ok(None);
    }
    let byte = from.u8()?;
    Ok(Some(byte))
}

/// Passes over a quality.
#[tactic(auto, unfolding(crate::specs::Arguments::quality))]
fn read_quality(from: &mut In<'_>, there: bool) -> Result<Option<()>, NdrError>
    ensures { Reads result from.new ((when_there there quality).read from.old) }
{
    if !there {
        return Ok(None);
    }
    from.u32()?;
    from.u16()?;
    from.u8()?;
    from.u8()?;
    Ok(Some(()))
}

/// Whether the object attributes name a root.
#[tactic(auto, unfolding(crate::specs::Arguments::object_attributes))]
fn read_attributes(from: &mut In<'_>) -> Result<bool, NdrError>
    ensures { Reads result from.new (object_attributes.read from.old) }
{
    let head = read_attributes_head(from)?;
    read_root(from, head.0)?;
    read_quality(from, head.1)?;
    Ok(head.0)
}

/// Object attributes whose root, if they name one, refers to a zero byte.
#[tactic(auto, unfolding(crate::specs::Arguments::object_attributes))]
fn write_attributes(to: &mut Out, rooted: bool) -> Result<(), NoMemory>
    ensures { OnOk result (to.new ≡ object_attributes.write rooted to.old) }
{
    to.u32(24)?;
    to.pointer(rooted)?;
    to.pointer(false)?;
    to.u32(0)?;
    to.pointer(false)?;
    to.pointer(false)?;
    if !rooted {
        return Ok(());
    }
    to.u8(0)
}

#[tactic(auto, unfolding(crate::specs::Arguments::connect_args))]
pub fn read_connect(from: &mut In<'_>, row: Connect) -> Result<Args, NdrError>
    ensures { Reads result from.new ((connect_args row).read from.old) }
{
    match row {
        Connect::OpenPolicy2 => {
            read_server_name(from)?;
            let rooted = read_attributes(from)?;
            let access = from.u32()?;
            Ok(Args::Policy { rooted, access })
        }
        _ => Err(from.broken(0)),
    }
}

#[tactic(auto, unfolding(crate::specs::Arguments::connect_args))]
pub fn write_connect(to: &mut Out, row: Connect, args: &Args) -> Result<(), NoMemory>
    requires { (connect_args row).Fits args.now }
    ensures { OnOk result (to.new ≡ (connect_args row).write args.now to.old) }
{
    match (row, args) {
        (Connect::OpenPolicy2, Args::Policy { rooted, access }) => {
            write_server_name(to)?;
            write_attributes(to, *rooted)?;
            to.u32(*access)
        }
        _ => unreachable!(),
    }
}
