// The words of the command line.
use account_words::text_of;
use std::alloc::Global;
use std::test::Fail;

fn is_text(alloc: Global, bytes: &[u8], text: &str) -> Result<bool, Fail> {
    Ok(text_of(alloc, bytes)?.as_str() == text)
}

#[test]
fn words_that_are_not_utf_8(rt: HostRuntime) -> Result<(), Fail> {
    assert!(rt; is_text(rt.alloc(), b"replay", "replay")?);
    assert!(rt; is_text(rt.alloc(), b"ab\xffc", "ab\0")?);
    Ok(())
}
