//! What the program reads as its words and what it says: the words of the command line, a status's exit code and word,
//! the line that says what happened and what to do about it, and the usage text.
//!
//! It stands on `acct_server` for the status, on `host_world` for why a source wasn't read, on `acct_config` for where
//! a configuration breaks a rule, on `hex` for the digits of a key, and on `clap` for the usage text ([`usage`]), which
//! is printed where the words have no form. The layer above uses that a word which is UTF-8 comes as it is, and any
//! other one cut and marked (`text_of`); that code and word are those of the table ([`code_of`], [`word_of`]); and
//! which statuses have a message ([`message`]). Of the usage text a test says the whole.
#![tactic(auto)]

mod command_line;
mod messages;
mod places;
mod statuses;
mod usage_text;

pub use command_line::{text_of, words};
pub use messages::message;
pub use statuses::{code_of, word_of};
pub use usage_text::usage;
