// Calls as stubs.
ghost use Rattle.std.specs.Prelude.{◌≡◌, IfOk, Ok};
ghost use Rattle.acct_calls.specs.declared.calls.Call.{Call};
ghost use Rattle.acct_stubs.specs.Calls.{ReadsAllIfRoom, IsCallOf, IsServed, Spells, call_at, spell};
ghost use Rattle.lsa_wire.specs.Interface.{lsa};

use crate::NoMemory;
use crate::interface::Lsa;
use acct_calls::Call;
use acct_stubs::WireError;
use std::alloc::Global;

/// The call that a stub spells. Bytes after it are taken. `NotServed` is answered exactly off the table; else
/// `BadStub` exactly where no prefix of the stub spells a call, with the place of the first field that has no reading.
pub fn read_call(alloc: Global, opnum: u16, stub: &[u8]) -> Result<Call, WireError>
    // What is read is of this opnum, served and spelled.
    ensures found { IfOk result
        (λ call. (call.opnum ≡ opnum) × IsServed lsa opnum stub.now × Spells lsa call stub.now) }
    // What is served and spelled is read, unless there is no memory.
    ensures only { (call : Call) → call.opnum ≡ opnum → IsServed lsa opnum stub.now → Spells lsa call stub.now
        → ReadsAllIfRoom result (Ok call) }
    // Why there is no call.
    ensures exact { ReadsAllIfRoom result (call_at lsa opnum stub.now) }
    // What is read can be written.
    ensures spelled { IfOk result (λ call. IsCallOf lsa call) }
{
    acct_stubs::read_call::<Lsa>(alloc, opnum, stub)
}

/// The stub of a call that some served stub spells.
pub fn write_call(alloc: Global, call: &Call) -> Result<Vec<u8>, NoMemory>
    requires { IsCallOf lsa call.now }
    ensures { IfOk result (λ stub. stub.items ≡ spell lsa call.now) }
{
    acct_stubs::write_call::<Lsa>(alloc, call)
}
