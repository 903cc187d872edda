//! The processor: registers, and one step over any bus (Zilog Z80 CPU User Manual UM0080).
#![tactic(auto)]

mod cpu;
pub mod laws;
mod once;
mod power;
mod reads;
mod step;

pub use cpu::Cpu;
pub use once::{Cause, Once, StepKind, Stop};
pub use pac_bus::Bus;
pub use pac_exec::{Alternate, DataReads, Regs};
pub use pac_table::InterruptMode;
