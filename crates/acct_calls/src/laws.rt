//! Laws of names, each the contract of a function that does nothing.
ghost use Rattle.acct_calls.specs.Names.{PointsSpellUnits, CharactersAreRead, TestTellsSame, IsEquivalence};
ghost use Rattle.acct_calls.specs.Names.{FoldedIsSame, FoldsOnce, SameFoldAlike};

/// The code points of a list of units spell it.
pub fn points_spell_units()
    ensures { PointsSpellUnits }
{}

/// Characters are the code points of their units.
pub fn characters_are_read()
    ensures { CharactersAreRead }
{}

/// The test of `same` is true exactly where the folded code points are equal.
pub fn test_tells_same()
    ensures { TestTellsSame }
{}

/// `same` is reflexive, symmetric and transitive.
pub fn same_is_equivalence()
    ensures { IsEquivalence }
{}

/// A folded name is the same as the name.
pub fn folded_is_same()
    ensures { FoldedIsSame }
{}

/// To fold a folded name changes nothing.
pub fn folds_once()
    ensures { FoldsOnce }
{}

/// Two names are the same exactly where they fold to one list of units.
pub fn same_fold_alike()
    ensures { SameFoldAlike }
{}
