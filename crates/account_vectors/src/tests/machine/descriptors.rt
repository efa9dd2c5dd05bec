// Descriptors that are set and read back, by handles of several kinds: whom an opening asks then, and whom it doesn't.
ghost use Rattle.std.specs.Prelude.{◌≡◌, true};
ghost use Rattle.acct_machine.specs.State.{is_live};
ghost use Rattle.acct_machine.specs.Machine.{state_of};

use super::configs::{ADMINISTRATORS, configured};
use super::scripts::{started_under, tell};
use std::alloc::Global;
use std::process::Abort;
use std::test::Fail;

/// The bytes of a descriptor with a list of one entry alone, that allows everyone 0x20.
const LIST: &str = "010004800000000000000000000000001400000002001c000100000000001400\
    20000000010100000000000100000000";

/// The bytes of a descriptor with an owner alone, S-1-5-18.
const OWNER: &str = "0100008014000000000000000000000000000000010100000000000512000000";

/// An object without a list grants everything. Whoever owns the object reads and changes its list whatever that says.
/// The handle that was open goes on. Then the owner is another.
const SERVER: &str = "\
1 connect2 02000000 = 0 1.1
1 query 4 1.1 = 0 0100008000000000000000000000000000000000
1 set 4 LIST 1.1 = 0
1 query 4 1.1 = 0 LIST
1 connect2 10 = c0000022 0.0
1 connect2 60020 = 0 1.2
1 connect2 60021 = c0000022 0.0
1 connect2 02000000 = 0 1.3
1 domains 1.1 = 0
1 domains 1.3 = c0000022
2 connect2 60020 = c0000022 0.0
2 connect2 20 = 0 2.1
1 set 4 LIST 1.3 = 0
1 set 1 OWNER 1.3 = c0000022
1 set 1 OWNER 1.1 = 0
1 connect2 60020 = c0000022 0.0
1 connect2 20 = 0 1.4
1 query 1 1.4 = c0000022
1 query 1 1.1 = 0 OWNER
1 query 4 1.1 = 0 LIST";

/// Each object has its own descriptor: that of a user, of the domain and of the policy. A handle of the other interface
/// is refused.
const KINDS: &str = "\
1 connect2 02000000 = 0 1.1
1 domain 02000000 1.1 = 0 1.2
1 user 02000000 1.2 = 0 1.3
1 policy 02000000 = 0 1.4
1 set 4 LIST 1.3 = 0
1 user 1 1.2 = c0000022 0.0
1 user 20 1.2 = 0 1.5
1 domain 1 1.1 = 0 1.6
1 set 4 LIST 1.2 = 0
1 domain 1 1.1 = c0000022 0.0
1 domain 20 1.1 = 0 1.7
1 policy 1 = 0 1.8
1 lsar-set 4 LIST 1.4 = 0
1 policy 1 = c0000022 0.0
1 policy 20 = 0 1.9
1 lsar-query 4 1.4 = 0 LIST
1 query 4 1.3 = 0 LIST
1 query 4 1.4 = c0000024
1 lsar-query 4 1.3 = c0000024
1 lsar-set 4 LIST 1.1 = c0000024
1 connect2 1 = 0 1.10";

/// The keeper's third call, after the loading and the seeding, is the first set's: it changes nothing.
const FAILING: &str = "\
1 connect2 02000000 = 0 1.1
1 set 4 LIST 1.1 = c0000158
1 connect2 10 = 0 1.2
1 query 4 1.1 = 0 0100008000000000000000000000000000000000
1 set 4 LIST 1.1 = 0
1 connect2 10 = c0000022 0.0";

/// A script is answered as it says, where the keeper's calls of these numbers fail.
fn is_told(rt: &impl Abort, alloc: Global, failing: &[u64], script: &str) -> Result<(), Fail> {
    let script = script.replace(alloc, "LIST", LIST)?;
    let script = script.as_str().replace(alloc, "OWNER", OWNER)?;
    let config = configured(rt, alloc, ADMINISTRATORS)?;
    let mut machine = started_under(rt, alloc, config, failing)?;
    let told = tell(rt, alloc, &mut machine, script.as_str());
    drop(machine);
    told
}

#[test]
fn descriptors_are_set_and_read_back(rt: HostRuntime) -> Result<(), Fail> {
    let alloc = rt.alloc();
    is_told(&rt, alloc, &[], SERVER)?;
    is_told(&rt, alloc, &[], KINDS)?;
    is_told(&rt, alloc, &[3], FAILING)
}
