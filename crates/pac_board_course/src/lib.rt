//! A script that is played on a board: what is left of its run, to a time or an address, or to its end at once.
#![tactic(auto)]

mod course;
mod laws;
mod outcome;
mod road;

pub use course::{Course, FRAME_MICROSECONDS, hold};
pub use laws::{courses_are_resumed, courses_begin, courses_go_on};
pub use outcome::Outcome;
pub use pac_board::{
    BATCH_SAMPLES, Board, Cause, FRAME_SAMPLES, FRAME_TICKS, Idle, LATEST, MOST_ASKED, Marks, Once,
    PastStep, Picture, Refused, RomSet, SAMPLE_TICKS, Sink, Snapshot, StepKind, Stop, Stops, Trail,
};
pub use pac_inputs::{Script, ScriptError, ScriptFault, read_script};
pub use road::go;
