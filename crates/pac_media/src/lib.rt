//! The media files of a run: the film of its pictures, as PPM images one after another, and its sound, as a wave file.
#![tactic(auto)]

mod frames;
mod image;
mod palette;
mod wave_file;

pub use frames::Frames;
pub use image::Image;
pub use pac_out::counted::Counted;
pub use pac_out::through::Through;
pub use pac_out::{Out, WriteFault};
pub use wave_file::WaveFile;
