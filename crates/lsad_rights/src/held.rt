// The privileges that an account holds, as a set by their LUIDs.
ghost use Rattle.std.specs.Prelude.{◌≡◌, OnOk};
ghost use Rattle.std.specs.List.{prefix_len};
ghost use Rattle.lsad_rights.specs.Holdings.{is_unknown, is_below, is_among, with_held, with_missing, with_each};
ghost use Rattle.lsad_rights.specs.Holdings.{without_held, without_each};

use crate::privileges::KnownPrivilege;
use crate::rights::has_privilege;
use acct_calls::{NoMemory, Privilege};
use acct_rows::Held;

/// Whether it is no privilege of the policy.
pub fn is_unknown(privilege: &Privilege) -> bool
    ensures { result ≡ is_unknown privilege.now }
{
    !(privilege.high == 0 && KnownPrivilege::of_low(privilege.low).is_some())
}

// How many of the first privileges stand before the one of a LUID.
fn place(held: &[Held], low: u32) -> usize
    ensures { result ≡ prefix_len (is_below low) held.now }
{
    held.iter()
        .take_while(|privilege| privilege.low < low)
        .count()
}

/// Adds a privilege in its place; it takes the place of the same privilege with other attributes. Where memory ran out
/// the list is of no use.
pub fn put_held(held: &mut Vec<Held>, privilege: Held) -> Result<(), NoMemory>
    ensures { OnOk result (held.new.items ≡ with_held privilege held.old.items) }
{
    let place = place(held, privilege.low);
    if place < held.len() && held[place].low == privilege.low {
        held[place] = privilege;
    } else {
        held.insert(place, privilege)?;
    }
    Ok(())
}

/// Adds a privilege without attributes; it stays as it is where it is held already.
pub fn put_missing(held: &mut Vec<Held>, low: u32) -> Result<(), NoMemory>
    ensures { OnOk result (held.new.items ≡ with_missing low held.old.items) }
{
    if has_privilege(held, low) {
        return Ok(());
    }
    put_held(held, Held { low, attributes: 0 })
}

/// Adds each of some privileges, in order.
pub fn put_each(held: &mut Vec<Held>, privileges: &[Privilege]) -> Result<(), NoMemory>
    ensures { OnOk result (held.new.items ≡ with_each privileges.now held.old.items) }
{
    for privilege in privileges {
        put_held(
            held,
            Held {
                low: privilege.low,
                attributes: privilege.attributes,
            },
        )?;
    }
    Ok(())
}

/// Takes a privilege away.
pub fn remove_held(held: &mut Vec<Held>, low: u32)
    ensures { held.new.items ≡ without_held low held.old.items }
{
    held.retain(|privilege| privilege.low != low);
}

fn is_among(privileges: &[Privilege], held: &Held) -> bool
    ensures { result ≡ is_among privileges.now held.now }
{
    privileges.iter().any(|privilege| privilege.low == held.low)
}

/// Takes each of some privileges away.
pub fn remove_each(held: &mut Vec<Held>, privileges: &[Privilege])
    ensures { held.new.items ≡ without_each privileges.now held.old.items }
{
    held.retain(|privilege| !is_among(privileges, privilege));
}
