// What an entrance is asked for.
ghost use Rattle.std.specs.Prelude.{◌≡◌, ◌++◌, ◌∷◌, [], IfOk, OnOk, OnErr};

use acct_base::Seq;
use std::alloc::{AllocError, Global};

/// Doors of a listener, which is named by its place in the configuration from 0: so many at its address, of which each
/// takes so many links, or any number where that is 0.
#[derive(Debug, Drop)]
pub struct Asking {
    pub listener: u32,
    pub address: Seq<u8>,
    pub workers: u32,
    pub links: u64,
}

// Adds an asking at the end. Where memory ran out the list is as it was.
pub(crate) fn add_asking(
    alloc: Global,
    asked: &mut Vec<Asking>,
    listener: u32,
    address: &str,
    workers: u32,
    links: u64,
) -> Result<(), AllocError>
    ensures ok { OnOk result (asked.new.items ≡ asked.old.items
        ++ (record { listener = listener; address = address.now; workers = workers; links = links }) ∷ []) }
    ensures err { OnErr result (asked.new.items ≡ asked.old.items) }
{
    let address = Seq::copy_of(alloc, address.as_bytes())?;
    asked.push(Asking {
        listener,
        address,
        workers,
        links,
    })?;
    Ok(())
}
