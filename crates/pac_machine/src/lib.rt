//! The machine below a board's calls: the processor on its bus, the voices and the picture at a time, whose steps go from one sample
//! to the next, with what they give out; a moment of it that is kept, its fields, and its last steps.
#![tactic(auto)]

mod due;
mod fields;
mod frozen;
mod idle;
mod machine;
mod note;
mod ring;
mod sockets;
mod stops;
mod timing;
mod trail;
mod watch;

pub use due::Due;
pub use fields::{Fields, MOST_ASKED};
pub use frozen::Frozen;
pub use machine::Machine;
pub use stops::{Marks, Stops};
pub use timing::{BATCH_SAMPLES, FRAME_SAMPLES, FRAME_TICKS, SAMPLE_TICKS};
pub use trail::{PastStep, Trail};
pub use watch::{Access, Unwatched, Watch, WatchedAddresses};
