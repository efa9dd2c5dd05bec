// The fields of new accounts.
ghost use Rattle.std.specs.Prelude.{◌≡◌, OnOk};
ghost use Rattle.ndr_types.specs.Outcomes.{ReadsIfRoom};
ghost use Rattle.samr_wire.specs.Interface.{created};

use crate::NoMemory;
use acct_calls::Args;
use acct_codes::user_control::USER_NORMAL_ACCOUNT;
use acct_layouts::Creation;
use ndr_core::{In, NdrError, Out};
use ndr_types::{read_text, write_text};
use std::alloc::Global;

#[tactic(auto, unfolding(crate::specs::Interface::created))]
pub fn read_created(alloc: Global, from: &mut In<'_>, creation: Creation) -> Result<Args, NdrError>
    ensures { ReadsIfRoom result from.new ((created creation).read from.old) }
{
    let name = read_text(alloc, from)?;
    match creation {
        Creation::Account => {
            let access = from.u32()?;
            Ok(Args::Make {
                name,
                bits: 0,
                access,
            })
        }
        Creation::User => {
            let access = from.u32()?;
            Ok(Args::Make {
                name,
                bits: USER_NORMAL_ACCOUNT,
                access,
            })
        }
        Creation::TypedUser => {
            let bits = from.u32()?;
            let access = from.u32()?;
            Ok(Args::Make { name, bits, access })
        }
    }
}

#[tactic(auto, using(acct_stubs::proofs::Asked::short_text), unfolding(crate::specs::Interface::created))]
pub fn write_created(to: &mut Out, creation: Creation, args: &Args) -> Result<(), NoMemory>
    requires { (created creation).Fits args.now }
    ensures { OnOk result (to.new ≡ (created creation).write args.now to.old) }
{
    let Args::Make { name, bits, access } = args else {
        unreachable!()
    };
    write_text(to, name)?;
    match creation {
        Creation::Account | Creation::User => to.u32(*access),
        Creation::TypedUser => {
            to.u32(*bits)?;
            to.u32(*access)
        }
    }
}
