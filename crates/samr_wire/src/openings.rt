// The fields of openings of the server.
ghost use Rattle.std.specs.Prelude.{◌≡◌, OnOk};
ghost use Rattle.ndr_core.specs.Cursor.{Reads};
ghost use Rattle.samr_wire.specs.Interface.{connect_args, revision_asked};

use crate::NoMemory;
use acct_calls::Args;
use acct_layouts::Connect;
use acct_stubs::{read_server_name, write_server_name};
use ndr_core::{In, NdrError, Out};

#[tactic(auto, unfolding(crate::specs::Interface::revision_asked))]
fn read_revision(from: &mut In<'_>) -> Result<(), NdrError>
    ensures { Reads result from.new (revision_asked.read from.old) }
{
    if from.u32()? != 1 {
        return Err(from.broken(4));
    }
    if from.u32()? != 1 {
        return Err(from.broken(4));
    }
    from.u32()?;
    from.u32()?;
    Ok(())
}

#[tactic(auto, unfolding(crate::specs::Interface::revision_asked))]
fn write_revision(to: &mut Out) -> Result<(), NoMemory>
    ensures { OnOk result (to.new ≡ revision_asked.write tt to.old) }
{
    to.u32(1)?;
    to.u32(1)?;
    to.u32(3)?;
    to.u32(0)
}

#[tactic(auto, unfolding(crate::specs::Interface::connect_args))]
pub fn read_connect(from: &mut In<'_>, connect: Connect) -> Result<Args, NdrError>
    ensures { Reads result from.new ((connect_args connect).read from.old) }
{
    match connect {
        Connect::Connect2 => {
            read_server_name(from)?;
            let access = from.u32()?;
            Ok(Args::Access(access))
        }
        Connect::Connect4 => {
            read_server_name(from)?;
            from.u32()?;
            let access = from.u32()?;
            Ok(Args::Access(access))
        }
        Connect::Connect5 => {
            read_server_name(from)?;
            let access = from.u32()?;
            read_revision(from)?;
            Ok(Args::Access(access))
        }
        Connect::OpenPolicy2 => Err(from.broken(0)),
    }
}

#[tactic(auto, unfolding(crate::specs::Interface::connect_args))]
pub fn write_connect(to: &mut Out, connect: Connect, args: &Args) -> Result<(), NoMemory>
    requires { (connect_args connect).Fits args.now }
    ensures { OnOk result (to.new ≡ (connect_args connect).write args.now to.old) }
{
    match (connect, args) {
        (Connect::Connect2, Args::Access(access)) => {
            write_server_name(to)?;
            to.u32(*access)
        }
        (Connect::Connect4, Args::Access(access)) => {
            write_server_name(to)?;
            to.u32(2)?;
            to.u32(*access)
        }
        (Connect::Connect5, Args::Access(access)) => {
            write_server_name(to)?;
            to.u32(*access)?;
            write_revision(to)
        }
        _ => unreachable!(),
    }
}
