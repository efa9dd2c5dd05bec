// Writing a stub.
ghost use Rattle.std.specs.Prelude.{◌≡◌, ◌≤◌, ◌^◌, ◌-◌, ◌++◌, OnOk, OnErr, []};
ghost use Rattle.std.specs.Int.{w8, w16, w32};
ghost use Rattle.ndr_core.specs.Cursor.{IsSize, Written, put_bytes, put_number, put_padding, put_pointer, put_varying};
ghost use Rattle.ndr_core.specs.Cursor.{padded};

use std::alloc::{AllocError, Global};
use std::marker::Model;

/// Writes a stub. Each number is appended at the next multiple of its size, after zeros, little-endian. Where
/// memory ran out the stub is as it was before the call.
#[derive(Drop)]
pub struct Out {
    bytes: Vec<u8>,
    pointers: u32,
}

impl Model for Out {
    ghost use Rattle.std.specs.Prelude.{◌<◌};
    ghost use Rattle.ndr_core.specs.Cursor.{Written, referents};

    ghost Value = { Written };

    ghost view = { λ x. record { bytes = x.bytes.items; pointers = x.pointers } };

    ghost invariant = { λ x. x.pointers < referents };
}

/// How many referents there are: 0x00020000 to 0xFFFFFFFC in steps of 4.
const REFERENTS: u32 = 0x3FFF_8000;

impl Out {
    /// The empty stub, which takes no memory.
    pub fn new(alloc: Global) -> Out
        ensures { result ≡ record { bytes = []; pointers = 0 } }
    {
        Out {
            bytes: Vec::new(alloc),
            pointers: 0,
        }
    }

    /// The stub's bytes.
    pub fn into_bytes(self) -> Vec<u8>
        ensures { result.items ≡ self.bytes }
    {
        let Out { bytes, .. } = self;
        bytes
    }

    /// Zeros up to the next multiple of 1, 2, 4 or 8.
    pub fn align(&mut self, n: usize) -> Result<(), AllocError>
        requires { IsSize n }
        ensures ok { OnOk result (self.new ≡ put_padding n self.old) }
        ensures err { OnErr result (self.new ≡ self.old) }
    {
        let length = self.bytes.len();
        let end = match n {
            8 => (length + 7) / 8 * 8,
            4 => (length + 3) / 4 * 4,
            2 => (length + 1) / 2 * 2,
            _ => length,
        };
        let zeros = [0u8; 7];
        self.bytes.extend_from_slice(&zeros[..end - length])
    }

    /// Zeros up to the next multiple of `size`, and the bytes.
    fn put(&mut self, size: usize, bytes: &[u8]) -> Result<(), AllocError>
        requires { IsSize size }
        ensures ok { OnOk result (self.new ≡ record {
          bytes = padded size self.old.bytes ++ bytes.now;
          pointers =
              self.old.pointers;
        }) }
        ensures err { OnErr result (self.new ≡ self.old) }
    {
        let start = self.bytes.len();
        self.align(size)?;
        let written = self.bytes.extend_from_slice(bytes);
        if written.is_err() {
            self.bytes.truncate(start);
        }
        written
    }

    /// An unsigned small.
    pub fn u8(&mut self, value: u8) -> Result<(), AllocError>
        ensures ok { OnOk result (self.new ≡ put_number w8 value self.old) }
        ensures err { OnErr result (self.new ≡ self.old) }
    {
        self.put(1, &value.to_le_bytes())
    }

    /// An unsigned short.
    pub fn u16(&mut self, value: u16) -> Result<(), AllocError>
        ensures ok { OnOk result (self.new ≡ put_number w16 value self.old) }
        ensures err { OnErr result (self.new ≡ self.old) }
    {
        self.put(2, &value.to_le_bytes())
    }

    /// An unsigned long.
    pub fn u32(&mut self, value: u32) -> Result<(), AllocError>
        ensures ok { OnOk result (self.new ≡ put_number w32 value self.old) }
        ensures err { OnErr result (self.new ≡ self.old) }
    {
        self.put(4, &value.to_le_bytes())
    }

    /// Bytes, one after the other.
    pub fn bytes(&mut self, bytes: &[u8]) -> Result<(), AllocError>
        ensures ok { OnOk result (self.new ≡ put_bytes bytes.now self.old) }
        ensures err { OnErr result (self.new ≡ self.old) }
    {
        self.bytes.extend_from_slice(bytes)
    }

    /// A pointer: the next referent, or 0 for null.
    pub fn pointer(&mut self, there: bool) -> Result<(), AllocError>
        ensures ok { OnOk result (self.new ≡ put_pointer there self.old) }
        ensures err { OnErr result (self.new ≡ self.old) }
    {
        if !there {
            return self.u32(0);
        }
        self.u32(0x20000 + 4 * self.pointers)?;
        self.pointers = (self.pointers + 1) % REFERENTS;
        Ok(())
    }

    /// The maximum count of a conformant array.
    pub fn conformant(&mut self, count: u32) -> Result<(), AllocError>
        ensures ok { OnOk result (self.new ≡ put_number w32 count self.old) }
        ensures err { OnErr result (self.new ≡ self.old) }
    {
        self.u32(count)
    }

    /// The actual count of a varying array, after the offset 0.
    pub fn varying(&mut self, count: u32) -> Result<(), AllocError>
        ensures ok { OnOk result (self.new ≡ put_varying count self.old) }
        ensures err { OnErr result (self.new ≡ self.old) }
    {
        let start = self.bytes.len();
        self.u32(0)?;
        let written = self.u32(count);
        if written.is_err() {
            self.bytes.truncate(start);
        }
        written
    }
}
