//! Rows as pairs of bytes, and pairs as rows.
mod changes;
pub mod laws;
mod loading;
mod store;
mod storing;

pub use loading::{PairsError, is_old, keys_differ, migration};
