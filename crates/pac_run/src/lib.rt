//! A run: a source, a ROM set and a script become frames, sound, a listing and a report; and the same under a debugger.
#![tactic(auto)]

mod debug;
mod fault;
mod film;
mod inputs;
pub mod laws;
mod plan;
mod play;
mod report;
pub mod resume;
pub mod run;
mod start;
mod watch;
mod writers;

pub use debug::debug_all;
pub use fault::{Output, RunFault, StateFault};
pub use inputs::RunInputs;
pub use pac_board_course::{Outcome, ScriptFault, Stop};
pub use pac_media::{Counted, Out, Through, WriteFault};
pub use pac_roms_manifest::{Part, SetFault};
pub use pac_state::LoadFault;
pub use resume::resume_all;
pub use run::run_all;
pub use writers::Writers;
