// What a run leaves to the world.
use acct_base::Seq;
use acct_machine::{Entry, Rows};
use link_sessions::Ended;

/// A period: the rows from which its history began, the history, the rows after it, and how the sessions ended that
/// were served in it, by the numbers of their connections. That of a replay has no ends.
#[derive(Drop)]
pub struct Period {
    pub opening: Rows,
    pub history: Seq<Entry>,
    pub rows: Rows,
    pub ends: Seq<Ended>,
}
