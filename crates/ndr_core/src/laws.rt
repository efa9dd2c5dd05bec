// Laws of what is written and read, which callers cite by these functions.
ghost use Rattle.std.specs.Prelude.{ℕ};
ghost use Rattle.ndr_core.specs.Again.{HasOneReading, IsReadAgain};
ghost use Rattle.ndr_core.specs.Bytes.{AreReadAtOnce, AreWrittenAtOnce};
ghost use Rattle.ndr_core.specs.Parts.{times};
ghost use Rattle.ndr_core.specs.Shapes.{pointer, u8, u16, u32, varying};

/// What an `Out` writes is read again by an `In`, whatever stands after it.
pub fn written_is_read_again()
    ensures small { IsReadAgain u8 }
    ensures short { IsReadAgain u16 }
    ensures long { IsReadAgain u32 }
    ensures pointers { IsReadAgain pointer }
    ensures counts { (most : ℕ) → IsReadAgain (varying most) }
    ensures bytes { (count : ℕ) → IsReadAgain (times count u8) }
{}

/// No stub has two readings at one place.
pub fn one_reading()
    ensures small { HasOneReading u8 }
    ensures short { HasOneReading u16 }
    ensures long { HasOneReading u32 }
    ensures pointers { HasOneReading pointer }
    ensures counts { (most : ℕ) → HasOneReading (varying most) }
    ensures bytes { (count : ℕ) → HasOneReading (times count u8) }
{}

/// Bytes that are read or written at once are as many smalls, one after the other.
#[tactic(auto, using(crate::proofs::Bytes::read_at_once, crate::proofs::Bytes::written_at_once))]
pub fn bytes_are_smalls()
    ensures read { AreReadAtOnce }
    ensures written { AreWrittenAtOnce }
{}
