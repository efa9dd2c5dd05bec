// Reading fields one after the other.
ghost use Rattle.std.specs.Prelude.{◌≡◌, ◌≤◌, length, drop, IfOk};
ghost use Rattle.acct_base.specs.declared.fields.Unread.TheVariants.{Memory};
ghost use Rattle.acct_base.specs.Reading.{front_at, is_end, ReadsBy, NeverMemory};

use crate::bytes::rest_of;
use std::alloc::AllocError;
use std::marker::Model;

/// Why nothing was read.
#[derive(Debug, Drop)]
pub enum Unread {
    /// Memory ran out.
    Memory,
    /// The bytes spell nothing: some are missing, or they aren't what the format has there.
    Misspelled,
}

impl From<AllocError> for Unread {
    ghost from_gives = { λ _ e. e ≡ Memory };

    fn from(_e: AllocError) -> Unread {
        Unread::Memory
    }
}

/// Reads fields one after the other. A contract sees the bytes that are left.
#[derive(Drop)]
pub struct Fields<'a> {
    bytes: &'a [u8],
}

impl<'a> Model for Fields<'a> {
    ghost use Rattle.std.specs.Prelude.{List, ℕ};

    ghost Value = { List ℕ };

    ghost view = { λ fields. fields.bytes.now };
}

impl<'a> Fields<'a> {
    /// The fields of bytes, of which none is read.
    pub fn new(bytes: &'a [u8]) -> Fields<'a>
        ensures { result ≡ bytes.now }
    {
        Fields { bytes }
    }

    /// The bytes that are left.
    pub fn rest(&self) -> &'a [u8]
        ensures { result.now ≡ self.now }
    {
        self.bytes
    }

    /// Whether no byte is left.
    pub fn is_end(&self) -> bool
        ensures { result ≡ is_end self.now }
    {
        self.bytes.is_empty()
    }

    /// So many bytes, or `Misspelled` where fewer are left.
    pub fn take(&mut self, count: usize) -> Result<&'a [u8], Unread>
        ensures value { ReadsBy (λ front. front.now) result self.new (front_at count self.old) }
        ensures length { IfOk result (λ front. length front.now ≡ count) }
        ensures frugal { NeverMemory result }
    {
        if self.bytes.len() < count {
            return Err(Unread::Misspelled);
        }
        let (front, rest) = self.bytes.split_at(count);
        self.bytes = rest;
        Ok(front)
    }

    /// Passes over so many bytes, which are left.
    pub fn skip(&mut self, count: usize)
        requires { count ≤ length self.old }
        ensures { self.new ≡ drop count self.old }
    {
        self.bytes = rest_of(self.bytes, count);
    }
}
