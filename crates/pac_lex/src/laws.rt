//! Laws of the words of a source: what a reader believes of them, and what finds them, are one.

ghost use Rattle.pac_lex.specs.OneReading.{EachLineHasOneReading, TextsHaveTheirCharacters};

/// For each line one answer is right, its tokens or its fault, and it is the one that `tokens` gives.
pub fn each_line_has_one_reading()
    ensures { EachLineHasOneReading }
{}

/// A text has the characters with which it is written, and no others.
pub fn texts_have_their_characters()
    ensures { TextsHaveTheirCharacters }
{}
