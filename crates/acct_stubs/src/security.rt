// The security descriptor of an object, where it is asked for and where it is set.
ghost use Rattle.std.specs.Prelude.{◌≡◌, OnOk};
ghost use Rattle.ndr_types.specs.Outcomes.{ReadsIfRoom};
ghost use Rattle.acct_stubs.specs.Arguments.{security_args, security_outs};

use crate::NoMemory;
use acct_calls::{Args, Outs};
use acct_codes::limit::MOST_DESCRIPTOR;
use acct_layouts::SecurityFields;
use ndr_core::{In, NdrError, Out};
use ndr_types::{
    read_descriptor, read_descriptor_pointer, write_descriptor, write_descriptor_pointer,
};
use std::alloc::Global;

/// The parts that are asked for, or those that are set and a descriptor with them.
#[tactic(auto, unfolding(crate::specs::Arguments::security_args))]
pub fn read_security_args(
    alloc: Global,
    from: &mut In<'_>,
    layout: SecurityFields,
) -> Result<Args, NdrError>
    ensures { ReadsIfRoom result from.new ((security_args layout).read from.old) }
{
    match layout {
        SecurityFields::Query => from.u32().map(Args::Bits),
        SecurityFields::Set => {
            let info = from.u32()?;
            let bytes = read_descriptor(alloc, from, MOST_DESCRIPTOR)?;
            Ok(Args::Security { info, bytes })
        }
    }
}

#[tactic(auto, using(crate::proofs::SecurityValues::bytes_counted), unfolding(crate::specs::Arguments::security_args))]
pub fn write_security_args(
    to: &mut Out,
    layout: SecurityFields,
    args: &Args,
) -> Result<(), NoMemory>
    requires { (security_args layout).Fits args.now }
    ensures { OnOk result (to.new ≡ (security_args layout).write args.now to.old) }
{
    match (layout, args) {
        (SecurityFields::Query, Args::Bits(info)) => to.u32(*info),
        (SecurityFields::Set, Args::Security { info, bytes }) => {
            to.u32(*info)?;
            write_descriptor(to, bytes)
        }
        _ => unreachable!(),
    }
}

/// The descriptor that is answered.
#[tactic(auto, unfolding(crate::specs::Arguments::security_outs))]
pub fn read_security(alloc: Global, from: &mut In<'_>) -> Result<Outs, NdrError>
    ensures { ReadsIfRoom result from.new (security_outs.read from.old) }
{
    let bytes = read_descriptor_pointer(alloc, from)?;
    Ok(Outs::Security(bytes))
}

#[tactic(auto, using(crate::proofs::SecurityValues::pointer_counted), unfolding(crate::specs::Arguments::security_outs))]
pub fn write_security(to: &mut Out, outs: &Outs) -> Result<(), NoMemory>
    requires { security_outs.Fits outs.now }
    ensures { OnOk result (to.new ≡ security_outs.write outs.now to.old) }
{
    let Outs::Security(bytes) = outs else {
        unreachable!()
    };
    write_descriptor_pointer(to, bytes.as_ref())
}
