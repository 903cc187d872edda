//! The program's whole work: the words of a command line and files in; files, texts and an exit status out.
#![tactic(auto)]

mod asm;
mod debug;
mod dis;
mod failure;
mod given;
pub mod laws;
mod outputs;
mod play;
mod program;
mod record;
mod standard;
mod teller;

pub use asm::write_program;
pub use debug::debug_inputs;
pub use dis::write_text;
pub use failure::{Failure, Target};
pub use play::run_inputs;
pub use program::{run, run_words, work};
pub use teller::{HostConsole, Teller};
