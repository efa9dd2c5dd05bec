// What a world is asked for.
use acct_base::Seq;

/// A part of a world.
#[derive(Debug, Drop)]
pub enum Part {
    /// The source under this name.
    Source(Seq<u8>),
    Sink,
    /// The keeper under this name.
    Keeper(Seq<u8>),
    Entrance,
    Caller,
    Spawner,
}
