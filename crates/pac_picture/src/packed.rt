//! The lines of a picture in half of their room.

ghost use Rattle.std.specs.Prelude.{◌≡◌, ◌<◌, ℕ, [], true, false, length, slice_index, slice_index_or, EachIndex};
ghost use Rattle.pac_colour.specs.Colours as colour;
ghost use Rattle.pac_tiles.specs.Tiles as tile;
ghost use Rattle.pac_picture.specs.Packed.{half_of};
ghost use Rattle.pac_picture.specs.State.{IsPicture, black};

use crate::lines::Lines;
use crate::size::{HEIGHT, WIDTH, repeated};
use std::marker::Model;

/// How many lines lie in the low halves of the bytes, and how many in the high halves.
const HALF: usize = HEIGHT as usize / 2;

/// The lines of a picture, two colour numbers in a byte: a line of bytes has one of the upper 112 lines in its low halves, and the line 112 below
/// that one in its high halves. So no number changes its column, and vectors of bytes are packed as they stand.
#[derive(Drop)]
pub struct PackedLines {
    pairs: [[u8; WIDTH]; HALF],
}

impl Model for PackedLines {
    ghost use Rattle.std.specs.Prelude.{ℕ, List};
    ghost use Rattle.pac_picture.specs.Packed.{unpacked};
    ghost use Rattle.pac_picture.specs.State.{IsPicture};

    ghost Value = { List (List ℕ) };

    ghost view = { λ packed. unpacked packed.pairs };

    ghost invariant = { λ packed. IsPicture (unpacked packed.pairs) };
}

/// Packs two lines.
#[inline(always)]
fn pack_two(upper: &[u8; WIDTH], lower: &[u8; WIDTH], pair: &mut [u8; WIDTH])
    requires upper { EachIndex upper.now (λ x. slice_index upper.now x < colour.numbers) }
    requires lower { EachIndex lower.now (λ x. slice_index lower.now x < colour.numbers) }
    ensures upper { (x : ℕ) → x < tile.width →
        half_of true (slice_index pair.new x) ≡ slice_index upper.now x }
    ensures lower { (x : ℕ) → x < tile.width →
        half_of false (slice_index pair.new x) ≡ slice_index lower.now x }
{
    for x in 0..WIDTH {
        pair[x] = upper[x] + 16 * lower[x];
    }
}

/// Writes the numbers in the low halves of bytes, or in the high ones.
#[inline(always)]
fn put_half(pair: &[u8; WIDTH], low: bool, out: &mut [u8; WIDTH])
    ensures size { length out.new ≡ tile.width }
    ensures numbers { (x : ℕ) → x < tile.width →
        slice_index out.new x ≡ half_of low (slice_index pair.now x) }
{
    for x in 0..WIDTH {
        out[x] = if low { pair[x] % 16 } else { pair[x] / 16 };
    }
}

impl PackedLines {
    /// Lines of colour number 0 alone.
    pub fn new() -> PackedLines
        ensures { result ≡ black }
    {
        PackedLines {
            pairs: repeated([0; WIDTH]),
        }
    }

    /// Packs the lines of a picture over those that were packed.
    pub fn pack(&mut self, lines: &Lines)
        ensures { self.new ≡ lines.now }
    {
        let lines = lines.raw();
        for y in 0..HALF {
            pack_two(&lines[y], &lines[y + HALF], &mut self.pairs[y]);
        }
    }

    /// Unpacks line y, 0 to 223.
    #[inline]
    pub fn unpack_line(&self, y: u8, out: &mut [u8; WIDTH])
        requires { y < tile.height }
        ensures line { out.new ≡ slice_index_or self.now y [] }
        ensures picture { IsPicture self.now }
    {
        let y = y as usize;
        put_half(&self.pairs[y % HALF], y < HALF, out);
    }
}
