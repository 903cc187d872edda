//! The sizes of a state file and of its larger parts, in bytes.

use pac_board::{HEIGHT, WIDTH};

/// A state file as a whole.
pub(crate) const FILE_SIZE: usize = 67_756;

/// All that comes before the digest at its end.
pub(crate) const BODY_SIZE: usize = 67_736;

/// What comes before the memory.
pub(crate) const HEAD_SIZE: usize = 82;

/// What stands between the three RAMs and the picture.
pub(crate) const DEVICES_SIZE: usize = 70;

/// All that comes before the picture.
pub(crate) const FRONT_SIZE: usize = 3224;

/// The picture: a colour number for each pixel.
const PICTURE_SIZE: usize = WIDTH * HEIGHT as usize;

/// The picture's colour numbers, line by line from the top.
pub(crate) type PictureBlock = [u8; PICTURE_SIZE];

/// The processor: its registers, flip-flops and interrupt mode.
const PROCESSOR_SIZE: usize = 28;

/// The processor's bytes.
pub(crate) type ProcessorBlock = [u8; PROCESSOR_SIZE];
