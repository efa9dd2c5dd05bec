// Opening a store: the rows whose pairs a keeper holds.
ghost use Rattle.std.specs.Prelude.{◌≡◌, ◌≤◌, true, [], ◌∷◌, Some, None, map, option_map, IfOk, IfErr, IfSome};
ghost use Rattle.std.specs.Prelude.{OnOk, OnErr};
ghost use Rattle.acct_config.specs.Spelled.{IsRightConfig};
ghost use Rattle.acct_keeper.specs.Pairs.{after, is_ascending};
ghost use Rattle.acct_rows.specs.Seed.{seed_lists};
ghost use Rattle.acct_rows.specs.Sound.{IsSoundRows};
ghost use Rattle.acct_machine.specs.Opened.{OpensRows, OpenCause, LoadCause, IsNoPair, IsMigrated, count_after, put_of};
ghost use Rattle.acct_machine.specs.Opened.{unopened, unloaded};
ghost use Rattle.acct_rows.specs.PairRules.{AreUnbroken};
ghost use Rattle.acct_rows.specs.PairsOf.{ArePairsOf, migration, migrated};
ghost use Rattle.acct_machine.specs.Outbox.{HoldsRows};

use crate::{Config, Keeper, NoMemory, Rows, seed_rows};
use acct_base::Seq;
use acct_keeper::{Change, KeepError, Pair};
use acct_rows::pairs::laws::{ascending_keys_differ, migrated_pairs_ascend};
use acct_rows::{PairsError, is_old, migration};
use std::alloc::Global;
use thiserror::Error;

/// Why a store isn't opened.
#[derive(Debug, Drop, Error)]
pub enum OpenError {
    /// The keeper failed, and its count of faults rose.
    #[error("the store failed")]
    StoreFault,
    /// The pairs break a rule: the smallest key that is broken.
    #[error("a stored pair breaks a rule")]
    StoredPair(Seq<u8>),
    /// Memory ran out.
    #[error("there is no memory to open the store")]
    Memory,
}

impl From<KeepError> for OpenError {
    ghost from_gives = { λ e error. error ≡ unopened e };

    fn from(e: KeepError) -> Self {
        match e {
            KeepError::Failed => OpenError::StoreFault,
            KeepError::NoMemory => OpenError::Memory,
        }
    }
}

impl From<PairsError> for OpenError {
    ghost from_gives = { λ e error. error ≡ unloaded e };

    fn from(e: PairsError) -> Self {
        match e {
            PairsError::BadPair(key) => OpenError::StoredPair(key),
            PairsError::Memory => OpenError::Memory,
        }
    }
}

// A change for each pair, in order, that puts it.
fn puts_of(alloc: Global, pairs: Vec<Pair>) -> Result<Vec<Change>, NoMemory>
    ensures { IfOk result (λ changes. changes.items ≡ map put_of pairs.items) }
{
    let mut changes = Vec::new(alloc);
    changes.reserve(pairs.len())?;
    for pair in pairs {
        changes.push(Change {
            key: pair.key,
            value: Some(pair.value),
        })?;
    }
    Ok(changes)
}

// The changes that give a keeper without a pair those of the rows.
fn first_changes(alloc: Global, rows: &Rows) -> Result<Vec<Change>, NoMemory>
    requires { IsSoundRows rows.now.lists }
    ensures { IfOk result (λ changes. ArePairsOf rows.now.lists (after changes.items [])) }
{
    let pairs = rows.to_pairs(alloc)?;
    let changes = puts_of(alloc, pairs)?;
    Ok(changes)
}

// The seed rows of the configured domain, whose pairs a keeper without a pair gets in one commit.
fn seed_store<K: Keeper>(alloc: Global, config: &Config, keeper: &mut K) -> Result<Rows, OpenError>
    requires right { IsRightConfig config.now }
    requires empty { IfSome (K.held keeper.old) (λ told. told ≡ []) }
    ensures lists { IfOk result (λ rows. rows.lists ≡ seed_lists config.now.name config.now.sid) }
    ensures sound { IfOk result (λ rows. IsSoundRows rows.lists) }
    ensures stored { IfOk result (λ rows. HoldsRows (K.held keeper.new) rows.lists) }
    ensures err { OnErr result (K.held keeper.new ≡ K.held keeper.old) }
    ensures cause { IfErr result (OpenCause (Some []) (K.faults keeper.old) (K.faults keeper.new)) }
    ensures later { K.faults keeper.old ≤ K.faults keeper.new }
    ensures count { K.faults keeper.new ≡ count_after (K.faults keeper.old) result }
{
    let Ok(rows) = seed_rows(alloc, config) else {
        return Err(OpenError::Memory);
    };
    let Ok(changes) = first_changes(alloc, &rows) else {
        drop(rows);
        return Err(OpenError::Memory);
    };
    let committed = keeper.commit(&changes);
    drop(changes);
    match committed {
        Ok(()) => Ok(rows),
        Err(e) => {
            drop(rows);
            Err(OpenError::from(e))
        }
    }
}

// The change that takes pairs of format 1 to format 2.
fn migrations(alloc: Global) -> Result<Vec<Change>, NoMemory>
    ensures { IfOk result (λ changes. changes.items ≡ migration ∷ []) }
{
    let mut changes = Vec::new(alloc);
    changes.push(migration(alloc)?)?;
    Ok(changes)
}

// Takes the keeper's pairs of format 1 to format 2, in one commit of the one pair that tells the format.
fn migrate<K: Keeper>(alloc: Global, keeper: &mut K) -> Result<(), OpenError>
    ensures ok { OnOk result (K.held keeper.new ≡ option_map (after (migration ∷ [])) (K.held keeper.old)) }
    ensures err { OnErr result (K.held keeper.new ≡ K.held keeper.old) }
    ensures cause { IfErr result (OpenCause None (K.faults keeper.old) (K.faults keeper.new)) }
    ensures no_pair { IfErr result IsNoPair }
    ensures later { K.faults keeper.old ≤ K.faults keeper.new }
    ensures count { K.faults keeper.new ≡ count_after (K.faults keeper.old) result }
{
    let Ok(changes) = migrations(alloc) else {
        return Err(OpenError::Memory);
    };
    let committed = keeper.commit(&changes);
    drop(changes);
    match committed {
        Ok(()) => Ok(()),
        Err(e) => Err(OpenError::from(e)),
    }
}

// The rows of the pairs that a keeper holds, which are taken to format 2 where they are of format 1.
fn load_store<K: Keeper>(alloc: Global, keeper: &mut K, pairs: &[Pair]) -> Result<Rows, OpenError>
    requires ascending { is_ascending pairs.now ≡ true }
    requires held { IfSome (K.held keeper.old) (λ told. told ≡ pairs.now) }
    ensures unbroken { OnOk result (AreUnbroken pairs.now) }
    ensures pairs { IfOk result (λ rows. ArePairsOf rows.lists (migrated pairs.now)) }
    ensures sound { IfOk result (λ rows. IsSoundRows rows.lists) }
    ensures kept { OnOk result (IfSome (K.held keeper.old) (λ told. K.held keeper.new ≡ Some (migrated pairs.now))) }
    ensures tells { K.held keeper.old ≡ None → K.held keeper.new ≡ None }
    ensures err { OnErr result (K.held keeper.new ≡ K.held keeper.old) }
    ensures cause { IfErr result (LoadCause pairs.now (K.faults keeper.old) (K.faults keeper.new)) }
    ensures later { K.faults keeper.old ≤ K.faults keeper.new }
    ensures count { K.faults keeper.new ≡ count_after (K.faults keeper.old) result }
{
    ascending_keys_differ();
    migrated_pairs_ascend();
    let rows = Rows::from_pairs(alloc, pairs)?;
    if !is_old(pairs) {
        return Ok(rows);
    }
    match migrate(alloc, keeper) {
        Ok(()) => Ok(rows),
        Err(e) => {
            drop(rows);
            Err(e)
        }
    }
}

/// The rows whose pairs the keeper holds. One that holds no pair gets those of the seed rows of the configured domain,
/// in one commit; one whose pairs are of format 1 gets the pair of format 2, in one commit of nothing else.
pub fn open_store<K: Keeper>(
    alloc: Global,
    config: &Config,
    keeper: &mut K,
) -> Result<Rows, OpenError>
    requires { IsRightConfig config.now }
    ensures opened { IfOk result (λ rows. IfSome (K.held keeper.old) (λ told. OpensRows config.now told rows.lists)) }
    ensures kept { OnOk result (IfSome (K.held keeper.old) (λ told. IsMigrated told (K.held keeper.new))) }
    ensures sound { IfOk result (λ rows. IsSoundRows rows.lists) }
    ensures stored { IfOk result (λ rows. HoldsRows (K.held keeper.new) rows.lists) }
    ensures err { OnErr result (K.held keeper.new ≡ K.held keeper.old) }
    ensures cause { IfErr result (OpenCause (K.held keeper.old) (K.faults keeper.old) (K.faults keeper.new)) }
    ensures later { K.faults keeper.old ≤ K.faults keeper.new }
    ensures count { K.faults keeper.new ≡ count_after (K.faults keeper.old) result }
{
    let pairs = keeper.load()?;
    if pairs.is_empty() {
        return seed_store(alloc, config, keeper);
    }
    load_store(alloc, keeper, &pairs)
}
