//! Test tables of what stands above the machine: requests, sessions over links in memory, stubs that spell no call,
//! clients of which a part fails, entrances that are asked for doors, links and doors, in memory call by call and at
//! sockets of the tests themselves, with accepts that fail and clients that say nothing, serving over doors in memory,
//! the generator's lines, worked runs of `account` over worlds in memory with what they leave there, and the real
//! world's parts with what the program says; drains over a gate in memory, and programs of the system. And the lock
//! that keeps a history, under threads that really run.
//!
//! It has tests alone, which call `hist_lock`, `acct_links`, `account_hooks`, `host_doors`, `link_sessions`,
//! `door_workers`, `acct_server`, `acct_commands`, `host_world` and `account_words` as a layer above does, so these
//! crates themselves are proved without tests. They share configurations, the words of rows, links that wait and
//! clients.
#![tactic(auto)]

#[cfg(test)]
mod tests;
