//! Laws of lines, each the contract of a function that does nothing.
ghost use Rattle.host_lines.specs.Laws.{AtMostSoManyAMinute, EachIsWrittenOrTold};

/// Of the lines that are asked for within one minute at most thirty are written.
pub fn at_most_so_many_a_minute()
    ensures { AtMostSoManyAMinute }
{}

/// The lines that are left out, in any run, are those that are told and those that are left to be told.
pub fn each_is_written_or_told()
    ensures { EachIsWrittenOrTold }
{}
