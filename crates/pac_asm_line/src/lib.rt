//! The form of a source line: a label, a directive or an operation, and what it places.
#![tactic(auto)]

mod conditional;
mod content;
mod directed;
mod expression;
mod gathered;
mod line;
mod numbers;
mod operands;
mod statement;

pub use conditional::{Conditional, conditional_of, conditional_word};
pub use expression::Expression;
pub use gathered::ContentError;
pub use line::form;
pub use operands::OperandList;
pub use statement::{Form, Statement};
