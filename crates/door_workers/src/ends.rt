// How workers end, and serving with them.

/// Why no further link is taken: from one door, by its worker, or from all doors together.
#[derive(Clone, Copy, Debug, PartialEq, Eq)]
pub enum DoorEnd {
    /// No link is to come, from any of the doors.
    Closed,
    /// A door failed, and its count of faults rose; of several doors, none found the history full.
    Failed,
    /// The history was full, with the count of what it has; of several doors, that of the first that found it so.
    Full(u64),
    /// Memory ran out.
    NoMemory,
}
