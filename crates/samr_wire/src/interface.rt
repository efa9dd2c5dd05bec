// The interface of the account database.
ghost use Rattle.samr_wire.specs.Interface.{samr};
ghost use Rattle.samr_wire.specs.Lawful.{samr_lawful};

use crate::NoMemory;
use crate::creations::{read_created, write_created};
use crate::openings::{read_connect, write_connect};
use acct_calls::{Args, Face, Reply};
use acct_layouts::{Fields, Outputs};
use acct_stubs::Interface;
use ndr_core::{In, NdrError, Out};
use std::alloc::Global;

/// The account database (MS-SAMR), by the layouts that it has alone.
pub struct Samr;

impl Interface for Samr {
    ghost wire = { samr };

    ghost lawful = { samr_lawful };

    fn face() -> Face {
        Face::Samr
    }

    #[tactic(auto, unfolding(crate::specs::Interface::own_fields))]
    fn read_fields(alloc: Global, from: &mut In<'_>, fields: Fields) -> Result<Args, NdrError> {
        match fields {
            Fields::Connect(connect) => read_connect(from, connect),
            Fields::Creation(creation) => read_created(alloc, from, creation),
            _ => Err(from.broken(0)),
        }
    }

    #[tactic(auto, unfolding(crate::specs::Interface::own_fields))]
    fn write_fields(to: &mut Out, fields: Fields, args: &Args) -> Result<(), NoMemory> {
        match fields {
            Fields::Connect(connect) => write_connect(to, connect, args),
            Fields::Creation(creation) => write_created(to, creation, args),
            _ => unreachable!(),
        }
    }

    fn read_reply(_alloc: Global, from: &mut In<'_>, _outputs: Outputs) -> Result<Reply, NdrError> {
        Err(from.broken(0))
    }

    fn write_reply(_to: &mut Out, _outputs: Outputs, _reply: &Reply) -> Result<(), NoMemory> {
        Ok(())
    }
}
