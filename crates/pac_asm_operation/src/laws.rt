//! Laws of the source's words, each carried by a function that does nothing.

ghost use Rattle.pac_asm_operation.specs.Distinct.{ReservedWordsAreDistinct};

/// No two reserved words are one, and a word is reserved exactly where it is one of these.
#[tactic(auto, using(crate::proofs::Distinct::reserved_words_are_distinct))]
pub fn reserved_words_are_distinct()
    ensures { ReservedWordsAreDistinct }
{}
