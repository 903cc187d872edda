//! The picture of a live board as colour numbers, and its palette.

ghost use Rattle.std.specs.Prelude.{◌≡◌, ◌≤◌, ◌+◌, ◌++◌, length, take};
ghost use Rattle.pac_board.specs.Tiles as tile;
ghost use Rattle.pac_live.specs.Live as live_specs;
ghost use Rattle.pac_live.specs.LiveLines as live_lines;

use crate::live::PacLive;
use crate::live_calls::check_open;
use pac_block::HostFault;
use pac_block::pixels::{Channels, LANES, put_pixels};
use pac_board::{Board, HEIGHT, RawLines, WIDTH, raw_row};
use std::simd::prelude::*;

/// The bytes of a picture's colour numbers.
const NUMBERS_SIZE: usize = WIDTH * HEIGHT as usize;

/// The bytes of a palette.
const PALETTE_SIZE: usize = 4 * LANES;

/// The colour numbers.
const NUMBERS: [u8; LANES] = [0, 1, 2, 3, 4, 5, 6, 7, 8, 9, 10, 11, 12, 13, 14, 15];

/// Writes the colour numbers of a line at a place.
fn put_row(numbers: &mut [u8], at: usize, line: &[u8; WIDTH])
    requires { at + tile.width ≤ length numbers.old }
    ensures size { length numbers.new ≡ length numbers.old }
    ensures text { take (at + tile.width) numbers.new ≡ take at numbers.old ++ line.now }
{
    numbers[at..at + WIDTH].copy_from_slice(line);
}

/// Writes the colour numbers of a picture, line after line.
fn put_numbers(numbers: &mut [u8], lines: &RawLines)
    requires { length numbers.old ≡ live_lines.numbers_size }
    ensures { numbers.new ≡ live_lines.numbers_of lines.now }
{
    for y in 0..HEIGHT {
        put_row(numbers, WIDTH * y as usize, raw_row(lines, y));
    }
}

/// Writes the colours of all numbers.
fn put_palette(colours: &mut [u8], palette: &Channels)
    requires { length colours.old ≡ live_lines.palette_size }
    ensures { colours.new ≡ live_lines.colours_of palette.now }
{
    put_pixels(colours, 0, palette, u8x16::from_array(NUMBERS));
}

/// Writes the colour numbers of a board's picture as it stands, and the colours.
fn give_lines(board: &mut Board, lines: &mut [u8], palette: &mut [u8]) -> Result<(), HostFault>
    ensures { live_lines.GivingLines lines.old lines.new palette.old palette.new
        result board.old board.new }
{
    if lines.len() != NUMBERS_SIZE {
        return Err(HostFault::WrongLength);
    }
    if palette.len() != PALETTE_SIZE {
        return Err(HostFault::WrongLength);
    }
    put_numbers(lines, board.picture().lines().raw());
    put_palette(palette, &Channels::of(board.set().colours()));
    Ok(())
}

/// Gives the picture of a live board as colour numbers, and its palette.
pub fn lines(live: &mut PacLive, lines: &mut [u8], palette: &mut [u8]) -> Result<(), HostFault>
    ensures { live_specs.Lives ((lines.new ≡ lines.old) × (palette.new ≡ palette.old))
        (live_lines.GivingLines lines.old lines.new palette.old palette.new)
        result live.old live.new }
{
    check_open(live)?;
    give_lines(live.board(), lines, palette)
}
