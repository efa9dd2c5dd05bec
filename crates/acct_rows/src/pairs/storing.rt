// The pairs of all rows.
ghost use Rattle.std.specs.Prelude.{◌≡◌, ◌++◌, [], ◌∷◌, All, map, IfOk, OnOk};
ghost use Rattle.acct_rows.specs.Sound.{IsSoundRows};
ghost use Rattle.acct_rows.specs.PairsOf.{ArePairsOf, AllFit, next_out_pairs, all_pairs};

use crate::rows::Rows;
use acct_calls::NoMemory;
use acct_keeper::Pair;
use acct_tables::{Paired, format_pair, next_out_pair};
use dtyp_sid::laws::{read_bytes_are_written, written_bytes_are_read, written_bytes_have_lengths};
use std::alloc::Global;

// The pairs of rows of one kind.
fn push_pairs<T: Paired>(alloc: Global, pairs: &mut Vec<Pair>, rows: &[T]) -> Result<(), NoMemory>
    requires { All T.fits rows.now }
    ensures { OnOk result (pairs.new.items ≡ pairs.old.items ++ map T.stored rows.now) }
{
    for row in rows {
        pairs.push(row.pair(alloc)?)?;
    }
    Ok(())
}

fn push_next_out(alloc: Global, pairs: &mut Vec<Pair>, next: u64) -> Result<(), NoMemory>
    ensures { OnOk result (pairs.new.items ≡ pairs.old.items ++ next_out_pairs next) }
{
    if next != 1 {
        pairs.push(next_out_pair(alloc, next)?)?;
    }
    Ok(())
}

// The pairs of all rows, list by list.
fn all_pairs(alloc: Global, rows: &Rows) -> Result<Vec<Pair>, NoMemory>
    requires { AllFit rows.now.lists }
    ensures { IfOk result (λ pairs. pairs.items ≡ all_pairs rows.now.lists) }
{
    let mut pairs = Vec::new(alloc);
    pairs.push(format_pair(alloc)?)?;
    push_next_out(alloc, &mut pairs, rows.next_out())?;
    push_pairs(alloc, &mut pairs, rows.domains())?;
    push_pairs(alloc, &mut pairs, rows.accounts())?;
    push_pairs(alloc, &mut pairs, rows.member_rows())?;
    push_pairs(alloc, &mut pairs, rows.alias_rows())?;
    push_pairs(alloc, &mut pairs, rows.lsa_rows())?;
    push_pairs(alloc, &mut pairs, rows.descriptor_rows())?;
    push_pairs(alloc, &mut pairs, rows.out_rows())?;
    Ok(pairs)
}

fn sorted_pairs(alloc: Global, rows: &Rows) -> Result<Vec<Pair>, NoMemory>
    requires { IsSoundRows rows.now.lists }
    ensures { IfOk result (λ pairs. ArePairsOf rows.now.lists pairs.items) }
{
    written_bytes_are_read();
    written_bytes_have_lengths();
    read_bytes_are_written();
    let mut pairs = all_pairs(alloc, rows)?;
    pairs.sort_by(|left, right| left.key.as_slice().cmp(right.key.as_slice()))?;
    Ok(pairs)
}

impl Rows {
    /// The pairs of sound rows by ascending key. It takes time as sorting them does.
    pub fn to_pairs(&self, alloc: Global) -> Result<Vec<Pair>, NoMemory>
        requires { IsSoundRows self.now.lists }
        ensures { IfOk result (λ pairs. ArePairsOf self.now.lists pairs.items) }
    {
        sorted_pairs(alloc, self)
    }
}
