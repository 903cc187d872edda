//! The ROMs and PROMs in the sockets of the board: bytes that are put in once and never change.
#![tactic(auto)]

mod set;

pub use set::{Raw, RomSet};
