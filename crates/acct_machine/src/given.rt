// What is told of a connection's handles, and of the handle that a call brings, before the call is made.
ghost use Rattle.std.specs.Prelude.{◌≡◌, option_map};
ghost use Rattle.std.specs.Option.{option_copied};
ghost use Rattle.acct_machine.specs.Given.{given_by, given, is_brought, needed_by, needed_of, passed_handle};

use crate::checks::{Access, access_with};
use crate::store::Store;
use crate::{Call, Held, Object, Rows};
use acct_calls::Args;
use acct_operations::{profile_of, work_of};
use acct_rules::{Brings, Profile, needed_bits};

fn given_by(found: Option<&Held>) -> Option<(Object, u32)>
    ensures { result ≡ option_map given_by (option_copied found.entry) }
{
    match found {
        Some(held) => Some((held.object, held.granted)),
        None => None,
    }
}

/// The object of a connection's handle, by its number, and the access that its opening granted.
pub fn given(store: &Store, conn: u32, number: u128) -> Option<(Object, u32)>
    ensures { result ≡ given store.now conn number }
{
    given_by(store.find_held(conn, number))
}

// Whether a call of an operation brings a handle.
fn is_brought(brings: Brings) -> bool
    ensures { result ≡ is_brought brings }
{
    matches!(brings, Brings::Handle(_))
}

fn needed_by(profile: Profile, rows: &Rows, args: &Args) -> u32
    ensures { result ≡ needed_by profile rows.now.lists args.now }
{
    if is_brought(profile.brings) {
        needed_bits(profile.needs, rows, args)
    } else {
        0
    }
}

/// The bits that a call needs of its handle's grant; none where it brings no handle.
pub fn needed(store: &Store, call: &Call) -> u32
    ensures { result ≡ needed_of store.now call.now }
{
    match work_of(call.face, call.opnum) {
        Some(work) => needed_by(profile_of(work), store.rows(), &call.args),
        None => 0,
    }
}

/// The handle that a call brings, where it brings one and the check of it lets the call pass.
pub fn passed_handle(store: &Store, conn: u32, call: &Call) -> Option<Held>
    ensures { result ≡ passed_handle store.now conn call.now }
{
    let profile = profile_of(work_of(call.face, call.opnum)?);
    let found = store.find_held(conn, call.handle.number);
    let bits = needed_bits(profile.needs, store.rows(), &call.args);
    let access = access_with(profile.brings, bits, found);
    if is_brought(profile.brings) && matches!(access, Access::Passed) {
        found.copied()
    } else {
        None
    }
}
