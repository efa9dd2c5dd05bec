// What an interface adds to the stubs of both.
ghost use Rattle.std.specs.Prelude.{◌≡◌, true, OnOk};
ghost use Rattle.ndr_types.specs.Outcomes.{ReadsIfRoom};
ghost use Rattle.acct_stubs.specs.Lawful.{IsLawful};
ghost use Rattle.acct_stubs.specs.Shared.{own_outputs};
ghost use Rattle.acct_stubs.specs.Arguments.{Wire};

use crate::NoMemory;
use acct_calls::{Args, Face, Reply};
use acct_layouts::{Fields, Outputs};
use ndr_core::{In, NdrError, Out};
use std::alloc::Global;

/// An interface, by the codecs of the layouts that it has alone.
pub trait Interface {
    /// The codecs.
    ghost wire: { Wire };

    fn face() -> Face
        ensures { result ≡ wire.face };

    fn read_fields(alloc: Global, from: &mut In<'_>, fields: Fields) -> Result<Args, NdrError>
        ensures { ReadsIfRoom result from.new ((wire.fields fields).read from.old) };

    fn write_fields(to: &mut Out, fields: Fields, args: &Args) -> Result<(), NoMemory>
        requires { (wire.fields fields).Fits args.now }
        ensures { OnOk result (to.new ≡ (wire.fields fields).write args.now to.old) };

    fn read_reply(alloc: Global, from: &mut In<'_>, outputs: Outputs) -> Result<Reply, NdrError>
        ensures { ReadsIfRoom result from.new ((wire.replies outputs).read from.old) };

    /// An interface that has no such outputs may be asked, and writes nothing.
    fn write_reply(to: &mut Out, outputs: Outputs, reply: &Reply) -> Result<(), NoMemory>
        requires { own_outputs wire.face outputs ≡ true → (wire.replies outputs).Fits reply.now }
        ensures { OnOk result (to.new ≡ (wire.replies outputs).write reply.now to.old) };

    /// What is owed for them.
    ghost lawful: { IsLawful wire };
}
