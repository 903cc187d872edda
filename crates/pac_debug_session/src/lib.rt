//! A debugger's session without its texts: an index into the one trace of a run, with breakpoints, checkpoints to go back by, and
//! slots that keep an index. What it does changes nothing of what the run gives out.
#![tactic(auto)]

mod breakpoints;
mod checkpoints;
mod history;
mod kept;
pub mod laws;
mod leap;
mod motion;
mod place;
mod session;
mod silent;
mod story;

pub use breakpoints::Full;
pub use motion::{Motion, MotionEnd};
pub use pac_board_course::{Outcome, PastStep};
pub use session::{Empty, Session, SessionRefused};
