// Laws of rows and pairs, each the contract of a function: all but the last do nothing.
ghost use Rattle.std.specs.Prelude.{◌≡◌, IfOk, IfErr};
ghost use Rattle.acct_rows.specs.declared.pairs.loading.PairsError.TheVariants.{Memory};
ghost use Rattle.acct_rows.specs.Sound.{IsSoundRows};
ghost use Rattle.acct_rows.specs.PairsOf.{SoundIsUnbroken, PairsAreOfOne, AscendingKeysDiffer, MigratedPairsAscend};

use super::loading::PairsError;
use crate::rows::Rows;
use acct_calls::laws::same_is_equivalence;
use dtyp_sid::laws::{
    equal_sids_are_one, read_bytes_are_written, written_bytes_are_read, written_bytes_have_lengths,
};
use std::alloc::Global;

/// The pairs of sound rows break no rule, and rows whose pairs break none are sound.
pub fn sound_is_unbroken()
    ensures { SoundIsUnbroken }
{
    written_bytes_are_read();
    written_bytes_have_lengths();
    read_bytes_are_written();
    equal_sids_are_one();
    same_is_equivalence();
}

/// Sound rows with the same pairs are the same rows.
pub fn pairs_are_of_one()
    ensures { PairsAreOfOne }
{
    written_bytes_are_read();
    written_bytes_have_lengths();
    read_bytes_are_written();
}

/// Pairs that ascend hold no key twice.
pub fn ascending_keys_differ()
    ensures { AscendingKeysDiffer }
{}

/// Pairs that ascend do so once they are migrated.
pub fn migrated_pairs_ascend()
    ensures { MigratedPairsAscend }
{}

/// The rows that are read of the pairs of sound rows are the same rows.
pub fn read_back(alloc: Global, rows: &Rows) -> Result<Rows, PairsError>
    requires { IsSoundRows rows.now.lists }
    ensures same { IfOk result (λ again. again.lists ≡ rows.now.lists) }
    ensures memory { IfErr result (λ e. e ≡ Memory) }
{
    sound_is_unbroken();
    pairs_are_of_one();
    ascending_keys_differ();
    let pairs = rows.to_pairs(alloc)?;
    Rows::from_pairs(alloc, &pairs)
}
