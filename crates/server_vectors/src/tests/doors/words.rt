// The words of a row, and what they name.
ghost use Rattle.std.specs.Prelude.{IfOk};
ghost use Rattle.acct_config.specs.Spelled.{IsRightConfig};
ghost use Rattle.acct_links.specs.Links.{IsNew};
ghost use Rattle.acct_links.specs.Memory.{told_by};

use crate::tests::configs::config_of;
use crate::tests::lines::{line_in, number};
use acct_links::{MemoryLink, SteadyLink};
use acct_machine::{Config, read_config};
use std::alloc::Global;
use std::test::Fail;

/// What comes, by names: a bind of 72 bytes, an opening of 32 with a stub of 8, its handle's closing of 44 with a stub
/// of 20; an opnum that isn't served, a stub that lacks three of its bytes, the opening in three fragments of 28, 28
/// and 24 bytes, the first fragment of another request, a context that wasn't bound, and a bind of version 4. Then what
/// is written, where it differs by connection with its number after the name: the answer to the bind; those to the
/// first and to the second opening of a connection; the first 30 bytes of the answer to the first opening; the answer
/// to the closing; the faults of an opnum, of a stub, of a context and of a request that begins within another; those
/// of a full history at the second and at the third request; and the refusal of the other bind. All are spelled by
/// hand, field by field, from C706's layouts.
const LINES: &str =
    "BIND 05000b03100000004800000001000000b810b810000000000100000000000100785734123412cdabef000123456789ac0100000004\
    5d888aeb1cc9119fe808002b10486002000000
CONNECT 0500000310000000200000000200000008000000000039000000000000000002
CLOSE 05000003100000002c0000000300000014000000000001000000000000000000000001000000000000000001
NOT-SERVED 0500000310000000200000000200000008000000000037000000000000000002
CUT-STUB 05000003100000001d0000000200000005000000000039000000000000
HEAD 05000001100000001c00000002000000080000000000390000000000
MIDDLE 05000000100000001c00000002000000040000000000390000000002
TAIL 050000021000000018000000020000000000000000003900
AGAIN 05000001100000001c00000003000000080000000000390000000000
CONTEXT 0500000310000000200000000200000008000000010039000000000000000002
VERSION 04000b03100000004800000001000000b810b810000000000100000000000100785734123412cdabef000123456789ac01000000045d\
    888aeb1cc9119fe808002b10486002000000
ACK1 05000c03100000003800000001000000b810b81001000000010000000100000000000000045d888aeb1cc9119fe808002b10486002000000
ACK2 05000c03100000003800000001000000b810b81002000000010000000100000000000000045d888aeb1cc9119fe808002b10486002000000
ACK3 05000c03100000003800000001000000b810b81003000000010000000100000000000000045d888aeb1cc9119fe808002b10486002000000
FIRST1 050002031000000030000000020000001800000000000000000000000000000000000100000000000000000100000000
FIRST2 050002031000000030000000020000001800000000000000000000000000000000000200000000000000000100000000
FIRST3 050002031000000030000000020000001800000000000000000000000000000000000300000000000000000100000000
SECOND1 050002031000000030000000020000001800000000000000000000000000000000000100000000000000000200000000
SECOND2 050002031000000030000000020000001800000000000000000000000000000000000200000000000000000200000000
FRONT1 050002031000000030000000020000001800000000000000000000000000
CLOSED 050002031000000030000000030000001800000000000000000000000000000000000000000000000000000000000000
OPNUM 0500032310000000200000000200000000000000000000000200011c00000000
STUB 050003231000000020000000020000000000000000000000f706000000000000
UNBOUND 0500032310000000200000000200000000000000010000000300011c00000000
TWICE 0500032310000000200000000300000000000000000000000b00011c00000000
BUSY2 0500032310000000200000000200000000000000000000001400011c00000000
BUSY3 0500032310000000200000000300000000000000000000001400011c00000000
NAK 05000d031000000018000000010000000400010500000000";

/// The digits of names, one after the other. Digits stand for themselves.
pub fn digits_of_all(alloc: Global, names: &str) -> Result<String, Fail> {
    let mut digits = String::new(alloc);
    for name in names.split_whitespace() {
        digits.push_str(line_in(LINES, name).unwrap_or(name))?;
    }
    Ok(digits)
}

/// The bytes of names, one after the other.
pub fn bytes_of(alloc: Global, names: &str) -> Result<Vec<u8>, Fail> {
    let digits = digits_of_all(alloc, names)?;
    Ok(hex::decode(alloc, digits.as_str().as_bytes())?)
}

/// A link that brings what the names say. Its call of the number that stands first, if one does, fails.
pub fn link_of(alloc: Global, words: &str) -> Result<MemoryLink, Fail>
    ensures { IfOk result (λ link. IsNew (told_by link)) }
{
    let (failing, names) = words.split_once('!').unwrap_or(("0", words));
    let input = SteadyLink::new(bytes_of(alloc, names)?, 4096);
    let failing = [number(failing) as u64].to_vec(alloc)?;
    Ok(MemoryLink::new(alloc, input, 65535, 4096, failing)?)
}

fn read(alloc: Global, document: &str) -> Result<Config, Fail>
    ensures { IfOk result IsRightConfig }
{
    Ok(read_config(alloc, document.as_bytes())?)
}

/// The configuration, where the history has a limit or none.
pub fn configured(alloc: Global, limit: &str) -> Result<Config, Fail>
    ensures { IfOk result IsRightConfig }
{
    let document = config_of(alloc, limit)?;
    read(alloc, document.as_str())
}

/// The first word before a comma, and the words after it.
pub fn word(words: &str) -> (&str, &str) {
    words.split_once(',').unwrap_or((words, ""))
}

/// A text up to a sign, and what is after the sign.
pub fn split(text: &str, sign: char) -> (&str, &str) {
    text.split_once(sign).unwrap_or((text, ""))
}
