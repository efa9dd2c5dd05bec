// A list that the heap holds.
ghost use Rattle.std.specs.Prelude.{◌≡◌, ◌≤◌, [], ◌∷◌, ◌++◌, length, drop, IfOk, IsOk, OnOk, OnErr};

use crate::bytes::rest_of;
use std::alloc::{AllocError, Global};
use std::marker::Model;

/// A list of values that the heap holds. A contract sees the list of the values alone.
#[derive(Debug, Drop)]
pub struct Seq<T: Drop> {
    values: Vec<T>,
}

impl<T: Drop> Model for Seq<T> {
    ghost use Rattle.std.specs.Prelude.{List};

    ghost Value = { List T };

    ghost view = { λ seq. seq.values.items };
}

impl<T: Drop> Seq<T> {
    /// The empty list, which takes no memory.
    pub fn new(alloc: Global) -> Self
        ensures { result ≡ [] }
    {
        Seq {
            values: Vec::new(alloc),
        }
    }

    /// The list of a vector's values. It takes no memory.
    pub fn from_vec(values: Vec<T>) -> Self
        ensures { result ≡ values.items }
    {
        Seq { values }
    }

    /// The values as a vector. It takes no memory.
    pub fn into_vec(self) -> Vec<T>
        ensures { result.items ≡ self }
    {
        self.values
    }

    /// The values in order.
    pub fn as_slice(&self) -> &[T]
        ensures { result.now ≡ self.now }
    {
        &self.values
    }

    /// Adds a value at the end. Where memory ran out the list is as it was.
    pub fn push(&mut self, value: T) -> Result<(), AllocError>
        ensures ok { OnOk result (self.new ≡ self.old ++ value ∷ []) }
        ensures err { OnErr result (self.new ≡ self.old) }
    {
        self.values.push(value)?;
        Ok(())
    }

    /// The list with one value more at its end. A list that is handed on so isn't held where memory runs out.
    pub fn with(mut self, value: T) -> Result<Self, AllocError>
        ensures { IfOk result (λ longer. longer ≡ self ++ value ∷ []) }
    {
        self.push(value)?;
        Ok(self)
    }
}

impl Seq<u8> {
    /// A list of the same bytes. That of no byte takes no memory.
    pub fn copy_of(alloc: Global, bytes: &[u8]) -> Result<Self, AllocError>
        ensures copy { IfOk result (λ copy. copy ≡ bytes.now) }
        ensures frugal { bytes.now ≡ [] → IsOk result }
    {
        if bytes.is_empty() {
            return Ok(Seq::new(alloc));
        }
        Ok(Seq {
            values: bytes.to_vec(alloc)?,
        })
    }
}

/// The bytes of both. The first grow in place, and no byte more takes no memory.
pub fn extended(bytes: Seq<u8>, more: &[u8]) -> Result<Seq<u8>, AllocError>
    ensures all { IfOk result (λ all. all ≡ bytes ++ more.now) }
    ensures frugal { more.now ≡ [] → IsOk result }
{
    let mut bytes = bytes.into_vec();
    bytes.extend_from_slice(more)?;
    Ok(Seq::from_vec(bytes))
}

/// The bytes from a place on. They are copied where some at the beginning are left out, so that no more memory is kept
/// than they take; where none are, or all, no memory is taken.
pub fn kept(alloc: Global, bytes: Seq<u8>, place: usize) -> Result<Seq<u8>, AllocError>
    requires { place ≤ length bytes }
    ensures rest { IfOk result (λ rest. rest ≡ drop place bytes) }
    ensures frugal { place ≡ 0 → IsOk result }
    ensures ended { place ≡ length bytes → IsOk result }
{
    if place == 0 {
        return Ok(bytes);
    }
    Seq::copy_of(alloc, rest_of(bytes.as_slice(), place))
}
