// Which calls aren't served, and which values of a class aren't looked at.
use super::tables::{HANDLE_WRITTEN, is_bad};
use super::wires::{Outcome, Wire};
use crate::tests::digits::joined;
use std::alloc::Global;
use std::process::Abort;
use std::test::Fail;

/// The opnums of the operations that the account server takes.
const SAMR_OPERATIONS: [u16; 45] = [
    1, 2, 3, 5, 6, 7, 8, 9, 10, 11, 12, 13, 14, 15, 16, 17, 18, 19, 20, 21, 22, 23, 24, 25, 27, 28,
    29, 30, 31, 32, 33, 34, 35, 36, 37, 39, 40, 46, 47, 50, 57, 58, 62, 64, 65,
];

/// The same of the policy.
const LSA_OPERATIONS: [u16; 27] = [
    0, 2, 3, 4, 7, 10, 11, 14, 15, 17, 18, 19, 20, 23, 24, 31, 32, 34, 35, 36, 37, 38, 44, 46, 57,
    58, 68,
];

fn is_not_served(alloc: Global, wire: Wire, opnum: u16, stub: &[u8]) -> Result<bool, Fail> {
    Ok(match wire.outcome(alloc, opnum, stub)? {
        Outcome::NotServed(of) => of == opnum,
        _ => false,
    })
}

/// Whether an operation is served just where it is among the operations: without a byte it is bad at 0, or not served.
fn is_rightly_served(
    alloc: Global,
    wire: Wire,
    operations: &[u16],
    opnum: u16,
) -> Result<bool, Fail> {
    if operations.contains(&opnum) {
        is_bad(alloc, wire, opnum, &[], 0)
    } else {
        is_not_served(alloc, wire, opnum, &[])
    }
}

/// Asserts that of every opnum.
fn are_the_served(
    rt: &impl Abort,
    alloc: Global,
    wire: Wire,
    operations: &[u16],
) -> Result<(), Fail> {
    for opnum in 0..=u16::MAX {
        assert!(rt;
            is_rightly_served(alloc, wire, operations, opnum)?,
            "{opnum}"
        );
    }
    Ok(())
}

#[test]
fn other_operations_are_not_served(rt: HostRuntime) -> Result<(), Fail> {
    are_the_served(&rt, rt.alloc(), Wire::SamrCalls, &SAMR_OPERATIONS)?;
    are_the_served(&rt, rt.alloc(), Wire::SamrReplies, &SAMR_OPERATIONS)?;
    are_the_served(&rt, rt.alloc(), Wire::LsaCalls, &LSA_OPERATIONS)?;
    are_the_served(&rt, rt.alloc(), Wire::LsaReplies, &LSA_OPERATIONS)
}

/// Whether a stub that ends within a class is bad at the class.
fn wants_a_class(alloc: Global, opnum: u16, stub: &[u8]) -> Result<bool, Fail> {
    is_bad(alloc, Wire::SamrCalls, opnum, stub, 20)
}

/// Whether a class isn't served, with no bytes after it and with more and more, where its first byte stands already.
fn stays_withheld(alloc: Global, opnum: u16, class: u8, stub: &mut Vec<u8>) -> Result<bool, Fail> {
    for byte in [0, class, 0, 0xFF] {
        stub.push(byte)?;
        if !is_not_served(alloc, Wire::SamrCalls, opnum, stub)? {
            return Ok(false);
        }
    }
    Ok(true)
}

/// The same, and that without a byte of the class and with one the stub is bad.
fn withholds(alloc: Global, opnum: u16, class: u8, stub: &mut Vec<u8>) -> Result<bool, Fail> {
    let bare = wants_a_class(alloc, opnum, stub)?;
    stub.push(class)?;
    Ok(bare && wants_a_class(alloc, opnum, stub)? && stays_withheld(alloc, opnum, class, stub)?)
}

/// A class that carries a password isn't served, whatever stands after it; without its two bytes the stub is bad.
fn is_withheld(alloc: Global, opnum: u16, class: u8) -> Result<bool, Fail> {
    let mut stub = joined(alloc, HANDLE_WRITTEN, "")?;
    withholds(alloc, opnum, class, &mut stub)
}

fn are_withheld(
    rt: &impl Abort,
    alloc: Global,
    opnums: &[u16],
    classes: &[u8],
) -> Result<(), Fail> {
    for opnum in opnums {
        for class in classes {
            assert!(rt; is_withheld(alloc, *opnum, *class)?, "{class}");
        }
    }
    Ok(())
}

// DOMAIN_INFORMATION_CLASS and USER_INFORMATION_CLASS of MS-SAMR.
#[test]
fn passwords_are_not_served(rt: HostRuntime) -> Result<(), Fail> {
    are_withheld(&rt, rt.alloc(), &[8, 9, 46], &[1, 12])?;
    are_withheld(
        &rt,
        rt.alloc(),
        &[36, 37, 47, 58],
        &[18, 21, 23, 24, 25, 26],
    )
}

/// Values of classes that can't be set, in the form of the table of calls: of them the class alone is kept, and
/// written.
pub const UNSERVED: &str = "
37 SamrSetInformationUser, a user's names
Put 6 Unserved
4422111111112
HAND 0600
SAMBA 06000600 06000600 00000200 0a000a00 04000200 03000000 00000000 03000000 62006f00 62000000 05000000 00000000 \
    05000000 42006f00 62002000 4200
HAND 060010
HAND 06001000

58 SamrSetInformationUser2
Put 6 Unserved
4422111111112
HAND 0600
HAND 06000700 ff

58 SamrSetInformationUser2
Put 1 Unserved
4422111111112
HAND 0100
HAND 01000100 ff

37 SamrSetInformationUser
Put 0 Unserved
4422111111112
HAND 0000
HAND 00000000

37 SamrSetInformationUser
Put 20 Unserved
4422111111112
HAND 1400
HAND 1400ffff

58 SamrSetInformationUser2
Put 65535 Unserved
4422111111112
HAND ffff
HAND ffffffff

9 SamrSetInformationDomain, the domain's name, which only shows
Put 5 Unserved
4422111111112
HAND 0500
HAND 05000400

9 SamrSetInformationDomain
Put 3 Unserved
4422111111112
HAND 0300
HAND 030004

21 SamrSetInformationGroup, all of a group
Put 1 Unserved
4422111111112
HAND 0100
IMPACKET 01000100 0a000a00 be970000 07000000 03000000 02000200 dd4d0000 05000000 00000000 05000000 73007400 \
    61006600 6600abab 01000000 00000000 01000000 7800

21 SamrSetInformationGroup
Put 5 Unserved
4422111111112
HAND 0500
HAND 05000500

29 SamrSetInformationAlias
Put 1 Unserved
4422111111112
HAND 0100
HAND 01000100 07

29 SamrSetInformationAlias
Put 4 Unserved
4422111111112
HAND 0400
HAND 040003
";
