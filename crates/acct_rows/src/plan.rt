// What an operation changes.
use acct_base::Seq;
use acct_tables::{Row, RowKey};

/// Rows to remove, by their keys, and then rows to put.
#[derive(Debug, Drop)]
pub struct Plan {
    pub puts: Seq<Row>,
    pub removes: Seq<RowKey>,
}
