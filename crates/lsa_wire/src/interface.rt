// The interface, by the codecs of the layouts that it has alone.
ghost use Rattle.acct_stubs.specs.Arguments.{Wire};
ghost use Rattle.lsa_wire.specs.Interface.{lsa};
ghost use Rattle.lsa_wire.specs.Lawful.{lsa_lawful};

use crate::{NoMemory, arguments, outputs};
use acct_calls::{Args, Face, Reply};
use acct_layouts::{Fields, Outputs};
use acct_stubs::Interface;
use ndr_core::{In, NdrError, Out};
use std::alloc::Global;

/// Policy, rights and translation.
#[derive(Clone, Copy, Debug)]
pub struct Lsa;

impl Interface for Lsa {
    ghost wire = { lsa };

    fn face() -> Face {
        Face::Lsa
    }

    fn read_fields(alloc: Global, from: &mut In<'_>, fields: Fields) -> Result<Args, NdrError> {
        arguments::read_fields(alloc, from, fields)
    }

    fn write_fields(to: &mut Out, fields: Fields, args: &Args) -> Result<(), NoMemory> {
        arguments::write_fields(to, fields, args)
    }

    fn read_reply(alloc: Global, from: &mut In<'_>, outputs: Outputs) -> Result<Reply, NdrError> {
        outputs::read_own(alloc, from, outputs)
    }

    #[tactic(auto, unfolding(crate::specs::Interface::own_replies))]
    fn write_reply(to: &mut Out, outputs: Outputs, reply: &Reply) -> Result<(), NoMemory> {
        match outputs {
            Outputs::Policy(_) | Outputs::Translation(_) => outputs::write_own(to, outputs, reply),
            Outputs::Scalar(_) | Outputs::Listed(_) | Outputs::Shown(_) => Ok(()),
            Outputs::Security => Ok(()),
        }
    }

    ghost lawful = { lsa_lawful };
}
