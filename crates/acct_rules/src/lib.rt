//! What an operation of the account database or of the policy is: its profile, its conditions in order, and what it
//! plans where none fails.
//!
//! It stands on the rows of `acct_rows`, the calls and replies of `acct_calls`, the layouts of `acct_layouts` and the
//! security descriptors of `dtyp_access`. A crate of operations has for each of them a definition (in specs/, a `Ruled`
//! of the rows, the object of the handle that was brought, and the arguments; a few are decided by the descriptor of
//! the object besides) and a function that answers what it decides, a `Planned`. The crates above use `Profile` with
//! its words (which handles are taken, which bits of their grants are needed, where memory may run out), `Planned` with
//! what it does to rows and handles, and the outputs of what was opened. In specs/, `Operations` has what each
//! operation owes: `IsRight`, and `KeepsRows`; and `Touched` which account row a plan touches.
#![tactic(auto)]

mod asked;
mod mapped;
mod outputs;
mod page_entries;
mod pages;
mod planned;
mod profile;

pub use acct_calls::NoMemory;
pub use acct_rows::Object;
pub use asked::{
    asked_context, asked_count, asked_filter, asked_index, asked_length, asked_name, asked_names,
    asked_rid, asked_rids, asked_sid, class_of, desired_access, made_name, made_type, named_info,
    put_number, put_text, set_bytes, text_or_empty, units_in,
};
pub use mapped::{mapped_status, use_of_kind};
pub use outputs::fill;
pub use page_entries::{NamePage, name_cost};
pub use pages::{PageRoom, page_status};
pub use planned::{
    Effect, Opening, Planned, answers, closes, creates, opens, puts, refusal, removes,
};
pub use profile::{Brings, Kinds, Memory, Needs, Profile, asking, needed_bits};
