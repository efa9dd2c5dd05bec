// Reading a stub.
ghost use Rattle.std.specs.Prelude.{◌≡◌, ◌<◌, ◌≤◌, ◌^◌, ◌-◌, ◌+◌, Ok, Err, OnErr, length, nat_lt, if◌then◌else◌};
ghost use Rattle.std.specs.Int.{w8, w16, w32};
ghost use Rattle.ndr_core.specs.declared.error.NdrError.TheVariants.{Short};
ghost use Rattle.ndr_core.specs.Cursor.{Cursor, Reads, IsSize, aligned_cursor, broken, number_at, pointer_at, ReadsBy};
ghost use Rattle.ndr_core.specs.Cursor.{bytes_at, left, varying_at};

use crate::error::NdrError;
use std::marker::Model;

/// Reads a stub from a place on. Each number stands at the next multiple of its size from the stub's start,
/// little-endian.
#[derive(Drop)]
pub struct In<'a> {
    stub: &'a [u8],
    place: usize,
}

impl<'a> Model for In<'a> {
    ghost use Rattle.std.specs.Prelude.{◌≤◌, ◌^◌};
    ghost use Rattle.ndr_core.specs.Cursor.{Cursor};

    ghost Value = { Cursor };

    ghost view = { λ x. record { stub = x.stub.now; place = x.place } };

    ghost invariant = { λ x. x.place ≤ 2 ^ 63 };
}

impl<'a> In<'a> {
    /// Begins at the stub's start.
    pub fn new(stub: &'a [u8]) -> In<'a>
        ensures { result ≡ record { stub = stub.now; place = 0 } }
    {
        In { stub, place: 0 }
    }

    /// The place of the next byte, in bytes from the stub's start.
    pub fn place(&self) -> usize
        ensures { result ≡ self.now.place }
    {
        self.place
    }

    /// The bad place where the number of this size that was read last breaks a rule.
    pub fn broken(&self, size: usize) -> NdrError
        ensures { result ≡ broken size self.now }
    {
        NdrError::Count(self.place.saturating_sub(size))
    }

    /// Moves to the next multiple of 1, 2, 4 or 8, also past the end.
    pub fn align(&mut self, n: usize)
        requires { IsSize n }
        ensures { self.new ≡ aligned_cursor n self.old }
    {
        self.place = match n {
            8 => (self.place + 7) / 8 * 8,
            4 => (self.place + 3) / 4 * 4,
            2 => (self.place + 1) / 2 * 2,
            _ => self.place,
        };
    }

    /// The place after a primitive of this size that begins at `start`, if it is whole.
    fn end_of(&self, start: usize, size: usize) -> Result<usize, NdrError>
        requires { start + size < 2 ^ 64 }
        ensures { result ≡
            (if nat_lt (length self.now.stub) (start + size) then Err (Short start) else Ok (start + size)) }
    {
        let end = start + size;
        if self.stub.len() < end {
            return Err(NdrError::Short(start));
        }
        Ok(end)
    }

    /// An unsigned small.
    pub fn u8(&mut self) -> Result<u8, NdrError>
        ensures value { Reads result self.new (number_at w8 self.old) }
        ensures refused { OnErr result (self.new ≡ self.old) }
    {
        let start = self.place;
        self.place = self.end_of(start, 1)?;
        Ok(self.stub[start])
    }

    /// An unsigned short.
    pub fn u16(&mut self) -> Result<u16, NdrError>
        ensures value { Reads result self.new (number_at w16 self.old) }
        ensures refused { OnErr result (self.new ≡ self.old) }
    {
        let start = (self.place + 1) / 2 * 2;
        self.place = self.end_of(start, 2)?;
        let bytes = &self.stub[start..start + 2];
        Ok(u16::from_le_bytes([bytes[0], bytes[1]]))
    }

    /// An unsigned long.
    pub fn u32(&mut self) -> Result<u32, NdrError>
        ensures value { Reads result self.new (number_at w32 self.old) }
        ensures refused { OnErr result (self.new ≡ self.old) }
    {
        let start = (self.place + 3) / 4 * 4;
        self.place = self.end_of(start, 4)?;
        let bytes = &self.stub[start..start + 4];
        Ok(u32::from_le_bytes([bytes[0], bytes[1], bytes[2], bytes[3]]))
    }

    /// The bytes from the place on.
    fn left(&self) -> &'a [u8]
        ensures { result.now ≡ left self.now }
    {
        let (_, left) = self.stub.split_at(self.place.min(self.stub.len()));
        left
    }

    /// So many bytes, one after the other, as they stand in the stub. Where fewer are left, the place after the last
    /// one is bad.
    pub fn bytes(&mut self, count: usize) -> Result<&'a [u8], NdrError>
        ensures value { ReadsBy (λ bytes. bytes.now) result self.new (bytes_at count self.old) }
        ensures refused { OnErr result (self.new ≡ self.old) }
    {
        let left = self.left();
        if left.len() < count {
            return Err(NdrError::Short(self.place + left.len()));
        }
        let (bytes, _) = left.split_at(count);
        self.place += count;
        Ok(bytes)
    }

    /// Whether a pointer isn't null: its referent is any number but 0.
    pub fn pointer(&mut self) -> Result<bool, NdrError>
        ensures value { Reads result self.new (pointer_at self.old) }
        ensures refused { OnErr result (self.new ≡ self.old) }
    {
        Ok(self.u32()? != 0)
    }

    /// The maximum count of a conformant array.
    pub fn conformant(&mut self) -> Result<u32, NdrError>
        ensures value { Reads result self.new (number_at w32 self.old) }
        ensures refused { OnErr result (self.new ≡ self.old) }
    {
        self.u32()
    }

    /// The offset, which is 0, and the actual count after it.
    fn offset_and_count(&mut self, most: u32) -> Result<u32, NdrError>
        ensures value { Reads result self.new (varying_at most self.old) }
        ensures same { self.new.stub ≡ self.old.stub }
    {
        if self.u32()? != 0 {
            return Err(self.broken(4));
        }
        let count = self.u32()?;
        if count > most {
            return Err(self.broken(4));
        }
        Ok(count)
    }

    /// The actual count of a varying array, after its offset. An offset other than 0 is refused at the offset, and a
    /// count above `most` at the count.
    pub fn varying(&mut self, most: u32) -> Result<u32, NdrError>
        ensures value { Reads result self.new (varying_at most self.old) }
        ensures refused { OnErr result (self.new ≡ self.old) }
    {
        let start = self.place;
        let count = self.offset_and_count(most);
        if count.is_err() {
            self.place = start;
        }
        count
    }
}
