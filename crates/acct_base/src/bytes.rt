// Calls on bytes, with contracts that speak of lists.
ghost use Rattle.std.specs.Prelude.{◌≡◌, ◌+◌, ◌≤◌, ◌++◌, length, take, drop, OnOk};
ghost use Rattle.std.specs.Int.{w16, w32, from_le_bytes, to_le_bytes};
ghost use Rattle.std.specs.Str.{bytes_eq};

use std::alloc::AllocError;

/// Whether two slices hold the same bytes.
pub fn is_same(left: &[u8], right: &[u8]) -> bool
    ensures { result ≡ bytes_eq left.now right.now }
{
    left == right
}

/// The bytes from a place on.
pub fn rest_of(bytes: &[u8], place: usize) -> &[u8]
    requires { place ≤ length bytes.now }
    ensures value { result.now ≡ drop place bytes.now }
    ensures length { length result.now + place ≡ length bytes.now }
{
    &bytes[place..]
}

/// So many bytes at the beginning.
pub fn front_of(bytes: &[u8], count: usize) -> &[u8]
    requires { count ≤ length bytes.now }
    ensures value { result.now ≡ take count bytes.now }
    ensures length { length result.now ≡ count }
{
    let (front, _) = bytes.split_at(count);
    front
}

/// The number of the two bytes at the beginning, the lowest first.
pub fn front_u16(bytes: &[u8]) -> u16
    requires { 2 ≤ length bytes.now }
    ensures { result ≡ from_le_bytes w16 bytes.now }
{
    u16::from_le_bytes([bytes[0], bytes[1]])
}

/// The number of the four bytes at the beginning, the lowest first.
pub fn front_u32(bytes: &[u8]) -> u32
    requires { 4 ≤ length bytes.now }
    ensures { result ≡ from_le_bytes w32 bytes.now }
{
    u32::from_le_bytes([bytes[0], bytes[1], bytes[2], bytes[3]])
}

/// Adds the two bytes of a number, the lowest first.
pub fn push_u16(out: &mut Vec<u8>, number: u16) -> Result<(), AllocError>
    ensures { OnOk result (out.new.items ≡ out.old.items ++ to_le_bytes w16 number) }
{
    out.extend_from_slice(&number.to_le_bytes())
}

/// Adds the four bytes of a number, the lowest first.
pub fn push_u32(out: &mut Vec<u8>, number: u32) -> Result<(), AllocError>
    ensures { OnOk result (out.new.items ≡ out.old.items ++ to_le_bytes w32 number) }
{
    out.extend_from_slice(&number.to_le_bytes())
}
