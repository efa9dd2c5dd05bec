// The rows where a history begins that has no others.
ghost use Rattle.std.specs.Prelude.{◌≡◌, IfOk};
ghost use Rattle.acct_config.specs.Spelled.{IsRightConfig};
ghost use Rattle.acct_rows.specs.Seed.{seed_lists};
ghost use Rattle.acct_rows.specs.Sound.{IsSoundRows};

use crate::{Config, NoMemory, Rows};
use std::alloc::Global;

/// The seed rows of the account domain that the configuration names, which are sound.
pub fn seed_rows(alloc: Global, config: &Config) -> Result<Rows, NoMemory>
    requires { IsRightConfig config.now }
    ensures lists { IfOk result (λ rows. rows.lists ≡ seed_lists config.now.name config.now.sid) }
    ensures sound { IfOk result (λ rows. IsSoundRows rows.lists) }
{
    Rows::seed(alloc, &config.name, config.sid)
}
