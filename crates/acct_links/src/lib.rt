//! Links: connections in both directions, what gives them and takes them back, and those in memory.
//!
//! It stands on `acct_keeper` for the causes of faults and the errors of what is opened, and on `acct_base`. The
//! layers above use the contracts of [`Link`], [`Caller`], [`Door`] and [`Entrance`], by which the object's count of
//! faults is one more after a call that failed, and after any other as it was, and a link that is given is new; and
//! that of [`send`], which says which bytes were written also after a fault.
#![tactic(auto)]

mod asking;
mod callers;
mod doors;
mod entrances;
mod links;
mod memory_callers;
mod memory_doors;
mod memory_entrances;
mod memory_links;

pub use asking::Asking;
pub use callers::{Caller, TakeError};
pub use doors::{Door, Next};
pub use entrances::Entrance;
pub use links::{Link, send};
pub use memory_callers::{MemoryCaller, SteadyCaller};
pub use memory_doors::{MemoryDoor, SteadyDoor};
pub use memory_entrances::{DoorPlan, MemoryEntrance, SteadyEntrance};
pub use memory_links::{MemoryLink, SteadyLink};

/// What a call answers whose object's count of faults has risen.
pub use acct_keeper::Failed;
