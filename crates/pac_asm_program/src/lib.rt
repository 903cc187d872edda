//! What a source becomes, as plain data: an entry for each of its lines, the symbols and the program ROM.
#![tactic(auto)]

mod content;
mod line;
mod program;
mod rom;
mod seeded;
mod symbols;

pub use content::{Bytes, Content};
pub use line::{Item, Line};
pub use program::Program;
pub use rom::{apart_items_lie, rom_of};
pub use symbols::Symbols;
