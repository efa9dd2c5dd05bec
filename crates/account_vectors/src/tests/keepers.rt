// Keepers in memory, keepers in files, and what errors tell.
mod files;
mod memory;
mod words;

use acct_keeper::{KeepError, WholeError};
use std::alloc::AllocError;
use words::push_text;

#[test]
fn errors_tell_in_words(rt: HostRuntime) -> Result<(), AllocError> {
    let mut told = String::new(rt.alloc());
    push_text(&mut told, &KeepError::Failed)?;
    push_text(&mut told, &KeepError::NoMemory)?;
    push_text(&mut told, &WholeError::TooLong)?;
    assert!(rt;
        told.as_str()
            == "the store failed;there is no memory for the store;there are more than 67108864 bytes;"
    );
    Ok(())
}
