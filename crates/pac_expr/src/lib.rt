//! Expressions of the assembler: the value of the tree that tokens spell, straight from the tokens and without memory.
#![tactic(auto)]

ghost use Rattle.pac_expr.specs.Parsing.{TreesAreSpelled};

mod evaluation;
mod expr;
mod reading;
mod shape;

pub use evaluation::{SymbolLookup, ValueError};
pub use expr::{Operator, Sign};
pub use reading::value;
pub use shape::is_expression;

/// The tree of some tokens is the one that they spell, and there is none where they spell none.
pub fn trees_are_spelled()
    ensures { TreesAreSpelled }
{}
