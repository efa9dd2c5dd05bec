// Reading a source to its end.
ghost use Rattle.std.specs.Prelude.{◌≡◌, ◌≤◌, IfOk, IfErr};
ghost use Rattle.acct_keeper.specs.declared.whole.WholeError.TheVariants.{Fault, Memory};
ghost use Rattle.acct_keeper.specs.Faults.{WholeCause, IsWhole, counted_whole};

use crate::{Failed, Source};
use std::alloc::{AllocError, Global};
use thiserror::Error;

const MOST_BYTES: usize = 67_108_864;

/// Why a source wasn't read to its end.
#[derive(Clone, Copy, Debug, PartialEq, Eq, Error)]
pub enum WholeError {
    /// A read failed.
    #[error("a read failed")]
    Fault,
    /// There are more than 67,108,864 bytes.
    #[error("there are more than {most} bytes", most = MOST_BYTES)]
    TooLong,
    /// Memory ran out.
    #[error("there is no memory for the bytes")]
    Memory,
}

impl From<AllocError> for WholeError {
    ghost from_gives = { λ _ e. e ≡ Memory };

    fn from(_: AllocError) -> Self {
        WholeError::Memory
    }
}

impl From<Failed> for WholeError {
    ghost from_gives = { λ _ e. e ≡ Fault };

    fn from(_: Failed) -> Self {
        WholeError::Fault
    }
}

/// All the bytes that a source has left, at most 67,108,864. It ends, since each turn takes a byte or answers.
pub fn read_whole<S: Source>(alloc: Global, source: &mut S) -> Result<Vec<u8>, WholeError>
    ensures whole { IfOk result (λ whole. IsWhole (S.left source.old) whole.items) }
    ensures cause { IfErr result (λ e. WholeCause (S.left source.old) (S.faults source.old) (S.faults source.new) e) }
    ensures later { S.faults source.old ≤ S.faults source.new }
    ensures count { S.faults source.new ≡ counted_whole (S.faults source.old) result }
{
    let mut whole = Vec::new(alloc);
    let mut buf = [0u8; 4096];
    loop {
        let count = source.read(&mut buf)?;
        if count == 0 {
            return Ok(whole);
        }
        if count > MOST_BYTES - whole.len() {
            return Err(WholeError::TooLong);
        }
        whole.extend_from_slice(&buf[..count])?;
    }
}
