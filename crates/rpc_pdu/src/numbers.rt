// Numbers in bytes, the low byte first.
ghost use Rattle.std.specs.Prelude.{◌≡◌, ◌+◌, ◌<◌, ◌++◌, length, OnOk};
ghost use Rattle.rpc_pdu.specs.Headers.{u16_at, u32_at, u16_bytes, u32_bytes};

use std::alloc::AllocError;

pub fn u16_at(bytes: &[u8], place: usize) -> u16
    requires { place + 1 < length bytes.now }
    ensures { result ≡ u16_at bytes.now place }
{
    bytes[place] as u16 + 256 * bytes[place + 1] as u16
}

pub fn u32_at(bytes: &[u8], place: usize) -> u32
    requires { place + 3 < length bytes.now }
    ensures { result ≡ u32_at bytes.now place }
{
    u16_at(bytes, place) as u32 + 65536 * u16_at(bytes, place + 2) as u32
}

/// The two bytes of a number.
pub fn u16_bytes(number: u16) -> [u8; 2]
    ensures { result ≡ u16_bytes number }
{
    [(number % 256) as u8, (number / 256) as u8]
}

/// The four bytes of a number.
pub fn u32_bytes(number: u32) -> [u8; 4]
    ensures { result ≡ u32_bytes number }
{
    let low = (number % 65536) as u16;
    let high = (number / 65536) as u16;
    [
        (low % 256) as u8,
        (low / 256) as u8,
        (high % 256) as u8,
        (high / 256) as u8,
    ]
}

/// Bytes, after those that are there.
pub fn push_bytes(out: &mut Vec<u8>, bytes: &[u8]) -> Result<(), AllocError>
    ensures { OnOk result (out.new.items ≡ out.old.items ++ bytes.now) }
{
    out.extend_from_slice(bytes)
}

pub fn push_u16(out: &mut Vec<u8>, number: u16) -> Result<(), AllocError>
    ensures { OnOk result (out.new.items ≡ out.old.items ++ u16_bytes number) }
{
    push_bytes(out, &u16_bytes(number))
}

pub fn push_u32(out: &mut Vec<u8>, number: u32) -> Result<(), AllocError>
    ensures { OnOk result (out.new.items ≡ out.old.items ++ u32_bytes number) }
{
    push_bytes(out, &u32_bytes(number))
}
