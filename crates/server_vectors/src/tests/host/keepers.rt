// What the keepers of the real world say on a board.
use acct_base::Seq;
use acct_keeper::{Change, Keeper, SteadyKeeper};
use host_doors::Board;
use host_world::{BoardKeeper, HostKeeper};
use std::alloc::{AllocError, Global};
use std::sync::Arc;
use std::test::Fail;

// A change of one key, which is put or taken away.
fn change(alloc: Global, key: &[u8], is_put: bool) -> Result<Change, AllocError> {
    let value = if is_put {
        Some(Seq::copy_of(alloc, b"x")?)
    } else {
        None
    };
    Ok(Change {
        key: Seq::copy_of(alloc, key)?,
        value,
    })
}

// The changes that put keys.
fn puts(alloc: Global, keys: &[&[u8]]) -> Result<Vec<Change>, AllocError> {
    let mut changes = Vec::new(alloc);
    for key in keys {
        changes.push(change(alloc, key, true)?)?;
    }
    Ok(changes)
}

#[test]
fn a_period_and_its_accounts_are_said(rt: HostRuntime) -> Result<(), Fail> {
    let alloc = rt.alloc();
    let board = Arc::new(alloc, Board::new())?;
    let pairs = HostKeeper::Memory(SteadyKeeper::new(alloc));
    let mut keeper = BoardKeeper::new(pairs, Some(Arc::try_clone(&board)?));
    assert!(rt; keeper.load()?.is_empty());
    assert!(rt; (board.periods(), board.accounts()) == (1, 0));
    keeper.commit(&puts(alloc, &[b"a0500", b"d0", b"a0501", b"m0500"])?)?;
    assert!(rt; (board.periods(), board.accounts()) == (1, 2));
    keeper.commit(&puts(alloc, &[b"a1000"])?)?;
    assert!(rt; (board.periods(), board.accounts()) == (1, 2));
    let mut changes = Vec::new(alloc);
    changes.push(change(alloc, b"a0500", false)?)?;
    keeper.commit(&changes)?;
    assert!(rt; keeper.load()?.len() == 4);
    assert!(rt; (board.periods(), board.accounts()) == (2, 2));
    Ok(())
}
