// Parts in memory, piece by piece.
use acct_keeper::{
    Failed, MemorySink, MemorySource, Sink, Source, SteadySink, SteadySource, WholeError,
    read_whole, write_all,
};
use std::alloc::{AllocError, Global};

fn source(alloc: Global, failing: &[u64]) -> Result<MemorySource, AllocError> {
    Ok(MemorySource::new(b"abcde".to_vec(alloc)?, 2, failing.to_vec(alloc)?))
}

fn is_read<S: Source + Drop>(alloc: Global, mut source: S) -> bool {
    read_whole(alloc, &mut source).is_ok_and(|bytes| bytes.as_slice() == b"abcde".as_slice())
}

fn has_fault<S: Source + Drop>(alloc: Global, mut source: S) -> bool {
    matches!(read_whole(alloc, &mut source), Err(WholeError::Fault))
}

#[test]
fn a_source_is_read_to_its_end(rt: HostRuntime) -> Result<(), AllocError> {
    assert!(rt; is_read(rt.alloc(), source(rt.alloc(), &[])?));
    assert!(rt; has_fault(rt.alloc(), source(rt.alloc(), &[3])?));
    assert!(rt; is_read(rt.alloc(), SteadySource::new(b"abcde".to_vec(rt.alloc())?)));
    Ok(())
}

fn second_write_fails(sink: &mut MemorySink) -> bool {
    write_all(sink, b"abc") == Err(Failed)
        && write_all(sink, b"de") == Ok(())
        && sink.as_slice() == b"abde".as_slice()
}

// What has no room isn't taken in part.
fn has_room_for_one(sink: &mut MemorySink) -> bool {
    sink.write(b"fg") == Err(Failed)
        && sink.write(b"f") == Ok(1)
        && sink.as_slice() == b"abdef".as_slice()
}

fn writes_fail(mut sink: MemorySink) -> bool {
    let is_right = second_write_fails(&mut sink) && has_room_for_one(&mut sink);
    drop(sink);
    is_right
}

#[test]
fn the_listed_writes_fail(rt: HostRuntime) -> Result<(), AllocError> {
    let failing = [2].to_vec(rt.alloc())?;
    assert!(rt; writes_fail(MemorySink::new(rt.alloc(), 5, 2, failing)?));
    assert!(rt; write_all(&mut SteadySink, b"abc") == Ok(()));
    Ok(())
}
