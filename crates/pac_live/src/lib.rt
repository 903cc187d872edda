//! A live board, which lies in memory that a host lends: its handle, and what the calls on it do.
#![tactic(auto)]

pub mod laws;
mod live;
pub mod live_calls;
pub mod live_files;
pub mod live_lines;
pub mod live_look;
pub mod live_step;
pub mod live_time;
pub mod live_until;

pub use live::PacLive;
pub use live_look::PacRegisters;
pub use live_until::{Ended, PacUntil};
