//! Laws of the names, each carried by a function that does nothing.

ghost use Rattle.pac_table_names.specs.Distinct.{OperationNamesAreDistinct};

/// No two names of operations are one, and a word names an operation exactly where it is one of these.
#[tactic(auto, using(crate::proofs::Distinct::operation_names_are_distinct))]
pub fn operation_names_are_distinct()
    ensures { OperationNamesAreDistinct }
{}
