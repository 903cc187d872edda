//! The listing of a program: each line of the source with its address and its bytes, and then the symbols.
#![tactic(auto)]

mod digits;
mod listing;
mod rows;

pub use listing::write_listing;
pub use pac_num::{hex_byte, hex_word};
