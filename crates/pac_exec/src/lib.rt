//! What each instruction does to the registers and the bus, and its time in T-states (Zilog Z80 CPU User Manual UM0080, "Z80 Instruction Description").
#![tactic(auto)]

mod bit_operations;
mod blocks;
mod byte_arithmetic;
mod byte_loads;
mod calls;
mod control;
mod exchanges;
mod instructions;
mod jumps;
pub mod laws;
mod pairs;
mod places;
mod ports;
mod reads;
mod refresh;
mod regs;
mod shifts;
mod word_arithmetic;
mod word_loads;

pub use instructions::{perform, perform_arithmetic_row, perform_row};
pub use pac_table::InterruptMode;
pub use pairs::push_word;
pub use reads::{DataReads, data_reads};
pub use refresh::leaves_refresh;
pub use regs::{Alternate, Regs};
