//! The picture of the board, 288 by 224 colour numbers: composed whole or line by line from what a program wrote,
//! through the row of tiles that was drawn last.
#![tactic(auto)]

mod clean;
mod graphics;
pub mod laws;
mod layer;
mod lines;
mod packed;
mod painting;
mod picture;
mod raw;
mod screen;
mod shadow;
mod size;
mod strip;

pub use graphics::Graphics;
pub use lines::{Lines, compose_alone};
pub use packed::PackedLines;
pub use picture::Picture;
pub use raw::{RawLines, is_picture, put_vector, raw_row};
pub use screen::Screen;
pub use shadow::Shadow;
pub use size::{COLUMNS, HEIGHT, ROWS, RowBytes, WIDTH};
