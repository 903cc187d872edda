//! Laws of the assembler, each carried by a function that does nothing.

ghost use Rattle.pac_asm.specs.Assignments.{AtMostOneIsRight, SymbolsAreRight};
ghost use Rattle.pac_asm.specs.Skipping.{SkippedLinesAreLeftOut, SkippedLinesDoNothing};

/// The numbers that the first phase finds for the names of a source are right, and no others are.
pub fn symbols_are_right()
    ensures { SymbolsAreRight }
{}

/// Where each name of an ORG, an EQU, the size of a DEFS and an IF is defined above, at most one assignment of numbers
/// to the names of a source is right.
pub fn at_most_one_is_right()
    ensures { AtMostOneIsRight }
{}

/// A line that is skipped defines no name and places nothing.
pub fn skipped_lines_do_nothing()
    ensures { SkippedLinesDoNothing }
{}

/// A line that is skipped has no symbol in the program of its source, and its entry there is that of a skipped line.
pub fn skipped_lines_are_left_out()
    ensures { SkippedLinesAreLeftOut }
{}
