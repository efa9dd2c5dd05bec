// Members and groups as elements of arrays.
ghost use Rattle.ndr_types.specs.Bounds.{AnyValue};
ghost use Rattle.ndr_types.specs.Listed.{rid_bits};

use crate::{Embedded, NoMemory};
use acct_calls::RidBits;
use ndr_core::{In, NdrError, Out};
use std::alloc::Global;

impl Embedded for RidBits {
    type Head = RidBits;

    ghost part = { rid_bits };

    ghost Bounded = { AnyValue };

    #[tactic(auto, unfolding(crate::specs::Listed::rid_bits, crate::specs::Listed::membership))]
    fn read_head(from: &mut In<'_>) -> Result<RidBits, NdrError> {
        let rid = from.u32()?;
        let bits = from.u32()?;
        Ok(RidBits { rid, bits })
    }

    #[tactic(auto, unfolding(crate::specs::Listed::rid_bits))]
    fn read_tail(_alloc: Global, _from: &mut In<'_>, head: &RidBits) -> Result<RidBits, NdrError> {
        Ok(*head)
    }

    #[tactic(auto, unfolding(crate::specs::Listed::rid_bits, crate::specs::Listed::membership))]
    fn write_head(&self, to: &mut Out) -> Result<(), NoMemory> {
        to.u32(self.rid)?;
        to.u32(self.bits)
    }

    #[tactic(auto, unfolding(crate::specs::Listed::rid_bits))]
    fn write_tail(&self, _to: &mut Out) -> Result<(), NoMemory> {
        Ok(())
    }
}
