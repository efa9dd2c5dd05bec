// Shapes that a structure or an array embeds.
ghost use Rattle.std.specs.Prelude.{◌≡◌, OnOk};
ghost use Rattle.ndr_core.specs.Cursor.{Reads};
ghost use Rattle.ndr_core.specs.Parts.{Part};
ghost use Rattle.ndr_types.specs.Outcomes.{ReadsIfRoom};

use crate::NoMemory;
use ndr_core::{In, NdrError, Out};
use std::alloc::Global;

/// A value whose shape may stand in a structure or an array: its head stands there, and its tail, which is what its
/// pointers refer to, after what embeds it.
pub trait Embedded: Drop {
    /// What is read of the head.
    type Head: Drop;

    /// The shape.
    ghost part: { Part Self.Head Self };

    /// What a value is asked for to be written.
    ghost Bounded: { Self → Type 0 };

    fn read_head(from: &mut In<'_>) -> Result<Self::Head, NdrError>
        ensures { Reads result from.new (part.head.read from.old) };

    fn read_tail(alloc: Global, from: &mut In<'_>, head: &Self::Head) -> Result<Self, NdrError>
        ensures { ReadsIfRoom result from.new ((part.tail head.now).read from.old) };

    fn write_head(&self, to: &mut Out) -> Result<(), NoMemory>
        requires { Bounded self.now }
        ensures { OnOk result (to.new ≡ part.head.write (part.head_of self.now) to.old) };

    fn write_tail(&self, to: &mut Out) -> Result<(), NoMemory>
        requires { Bounded self.now }
        ensures { OnOk result (to.new ≡ (part.tail (part.head_of self.now)).write self.now to.old) };
}
