//! The operations of the source: their operands, the rows of the instruction table that they fit, and
//! the instructions that they are.
#![tactic(auto)]

mod coding;
mod directive;
mod fault;
mod form;
pub mod laws;
mod operand;
mod operation;
mod parsing;
mod parts;
mod reserved;
mod values;

pub use directive::{Directive, directive_of};
pub use fault::OperationFault;
pub use operand::Operand;
pub use operation::Operation;
pub use parts::next_part;
pub use reserved::{is_reserved, is_source_expression};
