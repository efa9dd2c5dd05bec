//! A client's commands, without bytes: from the words of a command to its calls, one after the other, and from each
//! reply to the lines that are printed and the next call.
//!
//! It stands on `acct_layouts` for the bounds of operations and the statuses that refuse, on `acct_calls` and
//! `dtyp_sid` for values, and on `acct_codes` for numbers. The layer above uses that [`command_of`] gives the command
//! of the table exactly where there is one, that [`call_of`] is the call of a step, which can be written
//! ([`fit_steps_are_spelled`]), and that [`after`] gives the lines that are printed of a reply and the next step.
#![tactic(auto)]

mod command;
mod outcomes;
mod steps;
mod text;
mod words;

pub use command::{Command, NamedTask, Query, SidWord, Task};
pub use outcomes::{Outcome, after, refused_line};
pub use steps::{GroupTask, Step, call_of, fit_steps_are_spelled, operation_of};
pub use text::Text;
pub use words::{WordError, command_of};

/// Running out of memory, which is the one fault that may come anywhere.
pub type NoMemory = std::alloc::AllocError;
