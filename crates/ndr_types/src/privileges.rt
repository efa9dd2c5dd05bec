// Sets of privileges.
ghost use Rattle.std.specs.Prelude.{◌≡◌, ◌≤◌, OnOk, length};
ghost use Rattle.acct_codes.specs.Limits.{most_privileges};
ghost use Rattle.ndr_core.specs.Parts.{flat, times};
ghost use Rattle.ndr_types.specs.Bounds.{AnyValue};
ghost use Rattle.ndr_types.specs.Outcomes.{ReadsIfRoom};
ghost use Rattle.ndr_types.specs.Values.{privilege, privilege_set};

use crate::array::{read_heads, write_heads};
use crate::{Embedded, NoMemory};
use acct_calls::{Privilege, PrivilegeSet};
use acct_codes::limit::MOST_PRIVILEGES;
use ndr_core::{In, NdrError, Out};
use std::alloc::Global;

impl Embedded for Privilege {
    type Head = Privilege;

    ghost part = { flat privilege };

    ghost Bounded = { AnyValue };

    #[tactic(auto, unfolding(crate::specs::Values::privilege))]
    fn read_head(from: &mut In<'_>) -> Result<Privilege, NdrError> {
        let low = from.u32()?;
        let high = from.u32()?;
        let attributes = from.u32()?;
        Ok(Privilege {
            low,
            high,
            attributes,
        })
    }

    fn read_tail(
        _alloc: Global,
        _from: &mut In<'_>,
        head: &Privilege,
    ) -> Result<Privilege, NdrError> {
        Ok(*head)
    }

    #[tactic(auto, unfolding(crate::specs::Values::privilege))]
    fn write_head(&self, to: &mut Out) -> Result<(), NoMemory> {
        to.u32(self.low)?;
        to.u32(self.high)?;
        to.u32(self.attributes)
    }

    fn write_tail(&self, _to: &mut Out) -> Result<(), NoMemory> {
        Ok(())
    }
}

/// A set of at most 1,000 privileges. Its control word isn't looked at.
#[tactic(auto, unfolding(crate::specs::Values::privilege_set))]
pub fn read_privilege_set(alloc: Global, from: &mut In<'_>) -> Result<PrivilegeSet, NdrError>
    ensures { ReadsIfRoom result from.new (privilege_set.read from.old) }
{
    let maximum = from.conformant()?;
    let count = from.u32()?;
    if count != maximum || count > MOST_PRIVILEGES {
        return Err(from.broken(4));
    }
    from.u32()?;
    read_heads::<Privilege>(alloc, from, count)
}

/// A set of privileges, with a control word of 0.
#[tactic(auto, using(crate::proofs::Arrays::map_same), unfolding(crate::specs::Values::privilege_set))]
pub fn write_privilege_set(to: &mut Out, value: &PrivilegeSet) -> Result<(), NoMemory>
    requires { length value.now ≤ most_privileges }
    ensures { OnOk result (to.new ≡ privilege_set.write value.now to.old) }
{
    let count = value.as_slice().len() as u32;
    to.conformant(count)?;
    to.u32(count)?;
    to.u32(0)?;
    write_heads(to, value.as_slice())
}
