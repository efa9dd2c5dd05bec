// Rows of runs of the program, as texts: lines of events and lines that are written, by their names, and the runs.
pub mod accounts;
pub mod audits;
pub mod later;
pub mod limits;
pub mod names;
pub mod objects;
pub mod rights;
pub mod security;
pub mod several;
pub mod stores;
pub mod tables;
