// Pairs and changes.
ghost use Rattle.std.specs.Prelude.{◌≡◌, IfOk};

use acct_base::Seq;
use std::alloc::{AllocError, Global};

/// A key with its value, both bytes.
#[derive(Debug, Drop)]
pub struct Pair {
    pub key: Seq<u8>,
    pub value: Seq<u8>,
}

impl Pair {
    /// An equal pair of its own.
    pub fn copy(&self, alloc: Global) -> Result<Pair, AllocError>
        ensures { IfOk result (λ copy. copy ≡ self.now) }
    {
        Ok(Pair {
            key: Seq::copy_of(alloc, self.key.as_slice())?,
            value: Seq::copy_of(alloc, self.value.as_slice())?,
        })
    }
}

/// A key with its new value, or with none where its pair goes.
#[derive(Debug, Drop)]
pub struct Change {
    pub key: Seq<u8>,
    pub value: Option<Seq<u8>>,
}

impl Change {
    /// An equal change of its own.
    pub fn copy(&self, alloc: Global) -> Result<Change, AllocError>
        ensures { IfOk result (λ copy. copy ≡ self.now) }
    {
        Ok(Change {
            key: Seq::copy_of(alloc, self.key.as_slice())?,
            value: match &self.value {
                Some(value) => Some(Seq::copy_of(alloc, value.as_slice())?),
                None => None,
            },
        })
    }
}

pub(crate) fn copy_pairs(alloc: Global, pairs: &[Pair]) -> Result<Vec<Pair>, AllocError>
    ensures { IfOk result (λ copies. copies.items ≡ pairs.now) }
{
    let mut copies = Vec::with_capacity(alloc, pairs.len())?;
    for pair in pairs {
        copies.push(pair.copy(alloc)?)?;
    }
    Ok(copies)
}

pub(crate) fn copy_changes(alloc: Global, changes: &[Change]) -> Result<Vec<Change>, AllocError>
    ensures { IfOk result (λ copies. copies.items ≡ changes.now) }
{
    let mut copies = Vec::with_capacity(alloc, changes.len())?;
    for change in changes {
        copies.push(change.copy(alloc)?)?;
    }
    Ok(copies)
}
