//! The configuration of the account server: its types, and how it is read from a TOML document.
//!
//! It stands on the names of `acct_calls`, the SIDs of `dtyp_sid`, the descriptors of `dtyp_access`, the kinds of
//! `acct_codes`, the list type of `acct_base`, and the kit's reader of TOML. The layers above use that `read_config`
//! gives exactly the configuration that the document spells where it breaks no rule, and else the number of the first
//! broken rule; that such a configuration is right, which is what the machine asks of it; and that `copy` gives an
//! equal one. `is_address` is what may stand as the address of a listener, and `place_of` says at which key, or line,
//! a rule is broken.
#![tactic(auto)]

mod address;
mod config;
mod document;
mod entries;
mod errors;
mod faults;
mod kinds;
pub mod laws;
mod limits;
mod misfits;
mod places;
mod read;
mod rules;
mod sections;
mod shape;
mod spelled;
mod text;
mod values;
mod words;

pub use address::is_address;
pub use config::{Config, Hook, Listener};
pub use errors::ConfigError;
pub use kinds::kind_name;
pub use limits::Limits;
pub use places::{Place, place_of};
pub use read::read_config;
pub use sections::Section;
pub use text::Text;
