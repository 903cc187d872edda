//! A board as a block of a host's memory: the calls on a block, and what the calls on a live board have in common with them.
#![tactic(auto)]

pub mod block;
pub mod calls;
pub mod codes;
pub mod draw;
pub mod files;
mod fronts;
pub mod laws;
mod passed;
pub mod peek;
pub mod pixels;
pub mod ran;
pub mod roms;
pub mod sounds;
pub mod time;

pub use block::PacBoard;
pub use codes::HostFault;
pub use ran::{PacRan, RanBytes};
