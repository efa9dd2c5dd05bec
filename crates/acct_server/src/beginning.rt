// The machine with which a replay or serving begins.
ghost use Rattle.std.specs.Prelude.{◌≡◌, ◌≤◌, [], IfOk, IfErr};
ghost use Rattle.acct_config.specs.Spelled.{IsRightConfig};
ghost use Rattle.acct_server.specs.Begun.{IsBegun};
ghost use Rattle.acct_server.specs.Leaves.{StoreCause, StoreKept};

use crate::Status;
use acct_machine::{Config, Keeper, Machine, open_store};
use std::alloc::Global;

/// Why no machine was made, with the keeper.
#[derive(Drop)]
pub(crate) struct NotBegun<K: Drop> {
    pub status: Status,
    pub keeper: K,
}

/// A machine to which nothing has happened, from the rows with which the store is opened.
pub(crate) fn begin<K: Keeper + Drop>(
    alloc: Global,
    config: &Config,
    mut keeper: K,
) -> Result<Machine<K>, NotBegun<K>>
    requires { IsRightConfig config.now }
    ensures begun { IfOk result (λ machine.
        IsBegun config.now (K.held keeper) (K.faults keeper) machine.past.start) }
    ensures history { IfOk result (λ machine. machine.past.history ≡ []) }
    ensures cause { IfErr result (λ none.
        StoreCause (K.held keeper) (K.faults keeper) (K.faults none.keeper) none.status) }
    ensures kept { IfErr result (λ none. StoreKept config.now (K.held keeper) (K.held none.keeper) none.status) }
    ensures later { IfErr result (λ none. K.faults keeper ≤ K.faults none.keeper) }
{
    let rows = match open_store(alloc, config, &mut keeper) {
        Ok(rows) => rows,
        Err(e) => {
            return Err(NotBegun {
                status: Status::from(e),
                keeper,
            });
        }
    };
    match Machine::new(alloc, config, rows, keeper) {
        Ok(machine) => Ok(machine),
        Err(none) => Err(NotBegun {
            status: Status::NoMemory,
            keeper: none.keeper,
        }),
    }
}
