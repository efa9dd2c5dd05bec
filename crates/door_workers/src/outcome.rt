// How serving ends, by how its doors ended.
ghost use Rattle.std.specs.Prelude.{◌≡◌};
ghost use Rattle.door_workers.specs.declared.ends.DoorEnd.TheVariants as stop;
ghost use Rattle.door_workers.specs.Doors.{behind};

use crate::ends::DoorEnd;

impl DoorEnd {
    // With a failed door after it.
    fn failed(self) -> DoorEnd
        ensures { result ≡ behind self stop.Failed }
    {
        match self {
            DoorEnd::Closed => DoorEnd::Failed,
            DoorEnd::Failed | DoorEnd::Full(_) | DoorEnd::NoMemory => self,
        }
    }

    // With a door after it whose worker found the history full.
    fn full(self, count: u64) -> DoorEnd
        ensures { result ≡ behind self (stop.Full count) }
    {
        match self {
            DoorEnd::Closed | DoorEnd::Failed => DoorEnd::Full(count),
            DoorEnd::Full(_) | DoorEnd::NoMemory => self,
        }
    }

    /// What it comes to with the end of one more door after it.
    pub(crate) fn behind(self, end: DoorEnd) -> DoorEnd
        ensures { result ≡ behind self end }
    {
        match end {
            DoorEnd::NoMemory => DoorEnd::NoMemory,
            DoorEnd::Closed => self,
            DoorEnd::Failed => self.failed(),
            DoorEnd::Full(count) => self.full(count),
        }
    }
}
