//! The law of layouts, which callers cite by this function.
ghost use Rattle.acct_stubs.specs.Shared.{AreLayoutsOfTheirFace};

/// Each operation has a layout that both interfaces have, or its interface alone.
pub fn layouts_are_of_their_face()
    ensures { AreLayoutsOfTheirFace }
{}
