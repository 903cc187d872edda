//! A board's whole state as a file: written, and read again; and as the block in which a host keeps it.
#![tactic(auto)]

mod block;
mod blocks;
mod fault;
mod front;
mod header;
pub mod laws;
mod loading;
mod ranges;
mod reading;
mod saving;
mod sizes;

pub use block::{block_front, block_lines, put_front, read_block, write_block};
pub use fault::{LoadFault, LoadRefused};
pub use loading::{file_version, load, load_with, read_file};
pub use saving::{save, save_fields};
