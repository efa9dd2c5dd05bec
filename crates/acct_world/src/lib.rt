//! The world of the program: what hands out sources, the sink, keepers, the entrance, the caller and the spawner, and
//! takes them and the periods that runs leave; and one in memory.
//!
//! It stands on `acct_keeper`, `acct_links` and `account_hooks` for the parts, on `acct_machine` and `link_sessions`
//! for what a period is made of, and on `acct_base`. The layers above use the contract of [`World`], each of whose
//! calls says by one record what it leaves of all that the world shows (`Seen`): a part is handed out as the world
//! holds it, where the world tells that; one isn't where memory ran out, or where the world's count of such faults
//! rose. They use [`MemoryWorld`] too, which tells all that it holds and in which order it was asked, and whose listed
//! handings out fail.
//!
//! In rooms: `world` has the trait, `part` what is asked for, `period` what a run leaves, `memory` the world in memory.
#![tactic(auto)]

mod memory;
mod part;
mod period;
mod world;

pub use memory::{MemoryParts, MemoryWorld};
pub use part::Part;
pub use period::Period;
pub use world::World;
