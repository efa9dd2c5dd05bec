//! Test tables of the accounts: rows with their indexes and their stored pairs, what each operation decides, and the
//! machine, with what connections ask and are answered, what openings grant, the check of a handle of each kind at each
//! operation, commits that fail, rows that leave the outbox, and stores; and the sorted tables in which it keeps
//! handles. Plain programs of the look-ups of rows are proved too, with which those of `acct_rows` are compared. And of
//! what the rows are kept in: streams and keepers, in memory and in files, which are made, changed, opened again and
//! refused.
//!
//! It has tests alone, which call `acct_rows`, the operations of `samr_objects`, `samr_members`, `lsad_rights` and
//! `lsat_translate` by the table of `acct_operations`, `acct_machine`, `acct_tables`, `acct_keeper` and `keeper_sqlite`
//! as a layer above does, so these crates themselves are proved without tests.
#![tactic(auto)]

#[cfg(test)]
mod tests;
