//! How instructions are written (Zilog Z80 CPU User Manual UM0080): the names of operations, of registers,
//! pairs and conditions, what is written for an operand, and the rows of the table that a name has.
#![tactic(auto)]

mod by_name;
pub mod laws;
mod names;
mod operations;
mod writing;

pub use by_name::{NamedRows, is_operation, is_written, rows_named};
pub use names::{is_same_name, name_at, name_of, text_of_name, value_of_name};
pub use operations::operation_name;
pub use writing::written;
