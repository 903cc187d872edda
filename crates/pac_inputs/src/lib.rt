//! What the players hold: the inputs of the board, and scripts that tell them frame by frame.
#![tactic(auto)]

mod fault;
mod inputs;
mod line;
mod ports;
mod reading;
mod script;

pub use bitflags::Flags;
pub use fault::{ScriptCode, ScriptError, ScriptFault};
pub use inputs::Inputs;
pub use line::{FRAME_LIMIT, Stretch};
pub use ports::{in0_of, in1_of};
pub use reading::read_script;
pub use script::Script;
