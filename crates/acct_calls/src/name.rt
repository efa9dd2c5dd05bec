// The name of an account.
ghost use Rattle.std.specs.Prelude.{◌≡◌, ◌↔◌, chars, IfOk, IsTrue};
ghost use Rattle.std.specs.Str.{bytes_eq};
ghost use Rattle.std.proofs.Common.{rules};
ghost use Rattle.std.specs.Cmp.Rules.{comparing};
ghost use Rattle.acct_calls.specs.Names.{AreUnits, units_of, folded, is_same, AreSame, is_valid_name};

use crate::NoMemory;
use crate::code_points::push_point;
use crate::folding::{fold_units, same_units};
use crate::validity::is_valid_name;
use acct_base::Seq;
use acct_codes::Kind;
use std::alloc::Global;
use std::marker::Model;

/// A name: a list of UTF-16 units (as in RPC_UNICODE_STRING, MS-DTYP 2.3.10), of any length and not always
/// well-formed. A contract sees the list of the units.
#[derive(Debug, Drop)]
pub struct Name {
    units: Seq<u16>,
}

impl Model for Name {
    ghost use Rattle.std.specs.Prelude.{List, ℕ};

    ghost Value = { List ℕ };

    ghost view = { λ name. name.units };
}

impl Name {
    /// The name of some units. It takes no memory.
    pub fn from_units(units: Vec<u16>) -> Name
        ensures { result ≡ units.items }
    {
        Name {
            units: Seq::from_vec(units),
        }
    }

    /// The units as a vector. It takes no memory.
    pub fn into_units(self) -> Vec<u16>
        ensures { result.items ≡ self }
    {
        self.units.into_vec()
    }

    /// The units in order.
    pub fn units(&self) -> &[u16]
        ensures { result.now ≡ self.now }
    {
        self.units.as_slice()
    }

    /// The name that a text spells: its characters in UTF-16.
    pub fn from_text(alloc: Global, text: &str) -> Result<Name, NoMemory>
        ensures { IfOk result (λ name. name ≡ units_of (chars text.now)) }
    {
        let mut units = Vec::with_capacity(alloc, text.len())?;
        for c in text.chars() {
            push_point(&mut units, c as u32)?;
        }
        Ok(Name::from_units(units))
    }

    /// An equal name of its own.
    pub fn copy(&self, alloc: Global) -> Result<Name, NoMemory>
        ensures { IfOk result (λ copy. copy ≡ self.now) }
    {
        Ok(Name::from_units(self.units().to_vec(alloc)?))
    }

    /// The name after simple case folding, which may have another number of units. An unpaired surrogate folds to
    /// itself.
    pub fn fold(&self, alloc: Global) -> Result<Name, NoMemory>
        ensures { IfOk result (λ name. name ≡ folded self.now) }
    {
        Ok(Name::from_units(fold_units(alloc, self.units())?))
    }

    /// Whether two names are one: their code points are equal after simple case folding, an unpaired surrogate being
    /// itself. It takes no memory.
    pub fn same(&self, other: &Name) -> bool
        ensures value { result ≡ is_same self.now other.now }
        ensures meaning { IsTrue result ↔ AreSame self.now other.now }
    {
        same_units(self.units(), other.units())
    }

    /// Whether a user, a group or an alias may have the name (MS-SAMR 3.1.1.8.4). A user's name has 1 to 20 units,
    /// that of a group or an alias 1 to 256; it has no unpaired surrogate, no code point below 0x20 and none of
    /// `" / \ [ ] : ; | = , + * ? < >`, and is not made of dots and spaces alone. Objects of other kinds have no
    /// name. It takes no memory.
    pub fn is_valid(&self, kind: Kind) -> bool
        ensures { result ≡ is_valid_name kind self.now }
    {
        is_valid_name(self.units(), kind)
    }

    /// A law: each number in a name's list fits a unit.
    pub fn has_units(&self)
        ensures { AreUnits self.now }
    {
        are_units(self.units());
    }
}

/// `==` tells names apart by their units; `same` is the equality of names.
impl PartialEq for Name {
    ghost eq = { bytes_eq };

    ghost laws = { Prim.search (comparing, rules) };

    fn eq(&self, other: &Name) -> bool {
        self.units() == other.units()
    }
}

impl Eq for Name {
    ghost laws = { Prim.search (comparing, rules) };
}

// What a slice of units holds are units.
fn are_units(units: &[u16])
    ensures { AreUnits units.now }
{
    let _count = units.len();
}
