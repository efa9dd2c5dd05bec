// The real world's sources and sinks, over streams in memory.
use acct_server::{read_whole, write_all};
use host_world::{HostSink, HostSource, Opened};
use std::alloc::Global;
use std::test::Fail;

/// Whether a real source over these bytes brings them.
fn is_read(alloc: Global, bytes: &[u8]) -> bool {
    let mut source = HostSource::new(Opened::Standard(bytes));
    read_whole(alloc, &mut source).is_ok_and(|whole| whole.as_slice() == bytes)
}

fn is_written(alloc: Global, bytes: &[u8]) -> bool {
    let mut sink = HostSink::new(Vec::new(alloc));
    write_all(&mut sink, bytes).is_ok()
}

#[test]
fn the_real_parts_over_memory(rt: HostRuntime) -> Result<(), Fail> {
    assert!(rt; is_read(rt.alloc(), b"abcde"));
    assert!(rt; is_written(rt.alloc(), b"abc"));
    Ok(())
}
