// The keepers of the real world.
ghost use Rattle.std.specs.Prelude.{◌≡◌};
ghost use Rattle.host_world.specs.Host.{is_account_key, is_account, puts_account, accounts_in, accounts_put};

use acct_keeper::{Change, KeepError, Keeper, Pair, SteadyKeeper};
use host_doors::Board;
use keeper_sqlite::SqliteKeeper;
use std::alloc::Global;
use std::sync::Arc;

/// A keeper in memory, or one in a file, which doesn't tell its pairs.
#[derive(Drop)]
pub enum HostKeeper {
    Memory(SteadyKeeper),
    File(SqliteKeeper),
}

impl Keeper for HostKeeper {
    ghost use Rattle.host_world.specs.Host.{held_by, faults_of};

    ghost held = { held_by };

    ghost faults = { faults_of };

    fn load(&mut self) -> Result<Vec<Pair>, KeepError> {
        match self {
            HostKeeper::Memory(keeper) => keeper.load(),
            HostKeeper::File(keeper) => keeper.load(),
        }
    }

    fn commit(&mut self, changes: &[Change]) -> Result<(), KeepError> {
        match self {
            HostKeeper::Memory(keeper) => keeper.commit(changes),
            HostKeeper::File(keeper) => keeper.commit(changes),
        }
    }

    fn faults(&self) -> u64 {
        match self {
            HostKeeper::Memory(keeper) => keeper.faults(),
            HostKeeper::File(keeper) => keeper.faults(),
        }
    }
}

fn is_account_key(key: &[u8]) -> bool
    ensures { result ≡ is_account_key key.now }
{
    match key.first() {
        Some(letter) => *letter == b'a',
        None => false,
    }
}

fn is_account(pair: &Pair) -> bool
    ensures { result ≡ is_account pair.now }
{
    is_account_key(pair.key.as_slice())
}

fn puts_account(change: &Change) -> bool
    ensures { result ≡ puts_account change.now }
{
    change.value.is_some() && is_account_key(change.key.as_slice())
}

// How many pairs are of accounts.
fn accounts_in(pairs: &[Pair]) -> usize
    ensures { result ≡ accounts_in pairs.now }
{
    pairs.iter().filter(|pair| is_account(pair)).count()
}

// How many changes put an account.
fn accounts_put(changes: &[Change]) -> usize
    ensures { result ≡ accounts_put changes.now }
{
    changes.iter().filter(|change| puts_account(change)).count()
}

/// A keeper that says on a board, where there is one, that a period begins whenever its pairs are read, and how many of
/// them are accounts: those of the first commit, where it had none.
#[derive(Drop)]
pub struct BoardKeeper {
    keeper: HostKeeper,
    board: Option<Arc<Board, Global>>,
}

impl BoardKeeper {
    /// A keeper, and the board on which it says its periods, if there is one.
    pub fn new(keeper: HostKeeper, board: Option<Arc<Board, Global>>) -> BoardKeeper
        ensures { result ≡ record { keeper = keeper; board = board } }
    {
        BoardKeeper { keeper, board }
    }
}

impl Keeper for BoardKeeper {
    ghost use Rattle.host_world.specs.Host.{held_by, faults_of};

    ghost held = { λ told. held_by told.keeper };

    ghost faults = { λ told. faults_of told.keeper };

    fn load(&mut self) -> Result<Vec<Pair>, KeepError> {
        let loaded = self.keeper.load();
        if let Ok(pairs) = &loaded {
            if let Some(board) = &self.board {
                board.begin(accounts_in(pairs) as u64);
            }
        }
        loaded
    }

    fn commit(&mut self, changes: &[Change]) -> Result<(), KeepError> {
        let committed = self.keeper.commit(changes);
        if committed.is_ok() {
            if let Some(board) = &self.board {
                if board.accounts() == 0 {
                    board.seed(accounts_put(changes) as u64);
                }
            }
        }
        committed
    }

    fn faults(&self) -> u64 {
        self.keeper.faults()
    }
}
