//! The main board of Namco's Pac-Man cabinet behind the calls of an emulator's host: time goes by in microseconds or in steps,
//! samples and pictures go to a sink, and the whole state can be kept and put back.
#![tactic(auto)]

mod board;
mod exec;
mod fault;
mod fields;
pub mod kept;
pub mod laws;
mod offer;
mod sink;
mod snapshot;

pub use board::Board;
pub use exec::{LATEST, Ran};
pub use fault::{Fault, Idle, InitRefused};
pub use pac_cpu::{Alternate, Cause, InterruptMode, Once, Regs, StepKind, Stop};
pub use pac_machine::{
    Access, BATCH_SAMPLES, Due, FRAME_SAMPLES, FRAME_TICKS, Fields, MOST_ASKED, Marks, PastStep,
    SAMPLE_TICKS, Stops, Trail, Unwatched, Watch, WatchedAddresses,
};
pub use pac_map::{Flags, Inputs, MemoryFields, Raw, RomSet};
pub use pac_picture::{HEIGHT, Picture, RawLines, WIDTH, raw_row};
pub use sink::{Refused, Sink};
pub use snapshot::Snapshot;
