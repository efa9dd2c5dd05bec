use acct_base::{Seq, decimal, front_u16, front_u32, is_same, parted, push_u16, push_u32, rest_of};
use std::test::Fail;

#[test]
fn values_stand_in_order(rt: HostRuntime) -> Result<(), Fail> {
    let mut seq = Seq::copy_of(rt.alloc(), &[1, 2])?;
    seq.push(3)?;
    assert!(rt; seq.as_slice() == [1, 2, 3].as_slice());
    let copy = Seq::from_vec(seq.into_vec());
    assert!(rt; copy.as_slice().len() == 3);
    let empty: Seq<u8> = Seq::new(rt.alloc());
    assert!(rt; empty.as_slice().is_empty());
    Ok(())
}

#[test]
fn bytes_are_compared_and_cut(rt: HostRuntime) {
    assert!(rt; is_same(b"ab", b"ab"));
    assert!(rt; !is_same(b"ab", b"ac"));
    assert!(rt; rest_of(b"abc", 2) == b"c".as_slice());
}

#[test]
fn numbers_stand_low_byte_first(rt: HostRuntime) -> Result<(), Fail> {
    let mut out = Vec::new(rt.alloc());
    push_u16(&mut out, 0x0102)?;
    push_u32(&mut out, 0x0304_0506)?;
    assert!(rt; out.as_slice() == [2, 1, 6, 5, 4, 3].as_slice());
    assert!(rt; front_u16(&[2, 1, 6]) == 0x0102);
    assert!(rt; front_u32(&[6, 5, 4, 3, 2]) == 0x0304_0506);
    Ok(())
}

#[test]
fn words_are_parted(rt: HostRuntime) {
    for (text, parts) in [
        (
            b"end 7 8".as_slice(),
            Some((b"end".as_slice(), b"7 8".as_slice())),
        ),
        (b" 7", Some((b"", b"7"))),
        (b"end", None),
    ] {
        assert!(rt; parted(text, b' ') == parts);
    }
}

#[test]
fn decimals_are_read(rt: HostRuntime) {
    for (digits, number) in [
        (b"4294967296".as_slice(), Some(4_294_967_296)),
        (b"007", Some(7)),
        (b"", Some(0)),
        (b"1/", None),
        (b":1", None),
    ] {
        assert!(rt; decimal(digits) == number);
    }
}
