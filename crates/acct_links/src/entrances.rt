// What gives the doors of a listener.
ghost use Rattle.std.specs.Prelude.{◌≡◌, ◌≤◌, ℕ, [], false, List, Option, All, IfOk, IfErr, IfSome, length};
ghost use Rattle.acct_keeper.specs.Faults.{KeepCause, faults_after};
ghost use Rattle.acct_keeper.specs.Memory.{is_fault};
ghost use Rattle.acct_links.specs.Doors.{asked_after};
ghost use Rattle.acct_links.specs.declared.asking.Asking.{Asking};

use crate::doors::Door;
use acct_keeper::KeepError;

/// What gives the doors of a listener. An entrance in memory tells what it was asked, a real one doesn't.
pub trait Entrance {
    /// The doors that it gives.
    type D: Door;

    /// The askings that it answered with doors, in order, where they are told.
    ghost asked: { Self → Option (List Asking) };

    /// How many calls have failed. The count stops at 2^64 - 1.
    ghost faults: { Self → ℕ };

    /// Exactly `workers` doors for a listener, which is named by its place in the configuration from 0, on one socket
    /// at its address. Each takes so many links, or any number where `links` is 0.
    fn doors(
        &mut self,
        listener: u32,
        address: &str,
        workers: u32,
        links: u64,
    ) -> Result<Vec<Self::D>, KeepError>
        ensures count { IfOk result (λ doors. length doors.items ≡ workers) }
        ensures listener { IfOk result (λ doors. All (λ door. Self.D.listener door ≡ listener) doors.items) }
        ensures open { IfOk result (λ doors. All (λ door. Self.D.closed door ≡ false) doors.items) }
        ensures unused { IfOk result (λ doors.
            All (λ door. IfSome (Self.D.finished door) (λ links. links ≡ [])) doors.items) }
        ensures asked { asked self.new ≡ asked_after (asked self.old)
            (record { listener = listener; address = address.now; workers = workers; links = links }) result }
        ensures cause { IfErr result (KeepCause (faults self.old) (faults self.new)) }
        ensures later { faults self.old ≤ faults self.new }
        ensures faults { faults self.new ≡ faults_after (is_fault result) (faults self.old) };
}
