//! Lines of a picture as they come from elsewhere, and whether they are a picture's.

ghost use Rattle.std.specs.Prelude.{◌≡◌, ◌<◌, ◌≤◌, ◌+◌, ◌++◌, ◌↔◌, ℕ, [], true, length, take};
ghost use Rattle.std.specs.Prelude.{slice_index, slice_index_or};
ghost use Rattle.std.specs.Prelude.{EachIndex};
ghost use Rattle.pac_tiles.specs.Tiles as tile;
ghost use Rattle.pac_colour.specs.Colours as colour;
ghost use Rattle.pac_picture.specs.State.{IsPicture};

use crate::size::{HEIGHT, WIDTH};
use std::simd::prelude::*;

/// 224 lines of 288 numbers each, whatever these are.
pub type RawLines = [[u8; WIDTH]; HEIGHT as usize];

/// Line y, 0 to 223.
#[inline]
pub fn raw_row(lines: &RawLines, y: u8) -> &[u8; WIDTH]
    requires { y < tile.height }
    ensures line { result.now ≡ slice_index_or lines.now y [] }
    ensures high { length lines.now ≡ tile.height }
    ensures wide { length result.now ≡ tile.width }
{
    let line = &lines[y as usize];
    has_width(line);
    line
}

/// A line has its width.
#[inline(always)]
fn has_width(line: &[u8; WIDTH])
    ensures { length line.now ≡ tile.width }
{}

/// All bits that any of some numbers has: where they are below 16, so is each number.
#[inline]
fn bits(numbers: &[u8]) -> u8
    ensures below { (result < colour.numbers) ↔ EachIndex numbers.now
        (λ x. slice_index numbers.now x < colour.numbers) }
{
    let mut bits = 0;
    for number in numbers {
        bits |= *number;
    }
    bits
}

/// Writes sixteen bytes at a place.
#[inline(always)]
pub fn put_vector(to: &mut [u8], at: usize, bytes: u8x16)
    requires { at + 16 ≤ length to.old }
    ensures size { length to.new ≡ length to.old }
    ensures text { take (at + 16) to.new ≡ take at to.old ++ bytes }
{
    bytes.copy_to_slice(&mut to[at..]);
}

/// Each line has its width. It only looks, so nothing of it is left once it is compiled.
#[inline(always)]
fn have_width(lines: &RawLines)
    ensures high { length lines.now ≡ tile.height }
    ensures wide { (y : ℕ) → y < tile.height →
        length (slice_index_or lines.now y []) ≡ tile.width }
{
    for y in 0..HEIGHT {
        raw_row(lines, y);
    }
}

/// Whether lines are a picture's: each number is a colour number. All are looked at in one go, since a picture that is none is rare.
pub fn is_picture(lines: &RawLines) -> bool
    ensures { (result ≡ true) ↔ IsPicture lines.now }
{
    have_width(lines);
    bits(lines.as_flattened()) < 16
}
