//! The board's bus: which chip an address selects, what the processor reads and writes there, and what the board keeps.
#![tactic(auto)]

mod board_bus;
mod bus_table;
mod memory;

pub use board_bus::Map;
pub use bus_table::{BusPlace, read_place, write_place};
pub use memory::{Memory, MemoryFields};
pub use pac_inputs::{Flags, Inputs};
pub use pac_roms::{Raw, RomSet};
