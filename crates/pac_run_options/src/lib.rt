//! The words of the program's command line, read by `clap` into what they ask for.
#![tactic(auto)]

mod command;
mod reading;
mod request;

pub use reading::options;
pub use request::{AsmFiles, DebugFiles, PlayFiles, Request, RunFiles};
