//! The assembler: a source becomes a program, or is refused at its first fault.
#![tactic(auto)]

mod assembly;
mod condition;
mod fault;
pub mod laws;
mod layout;
mod lines;
mod phase1;
mod phase2;
mod place;
mod standing;
mod steps;

pub use assembly::assemble;
pub use fault::{AsmCode, AsmError, AsmFault};
pub use pac_asm_program::Program;
