//! The debugger, line by line: what a command line asks of a session is done, and what it comes to is told.
#![tactic(auto)]

mod answer;
pub mod laws;
mod line;
mod lines;
mod obey;
mod past;
mod seen;
mod tell;
mod whole;

pub use answer::Answer;
pub use line::{CommandFault, command};
pub use lines::commands;
pub use pac_debug_session::{Outcome, Session};
pub use whole::watch;
