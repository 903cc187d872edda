//! A palette, and the pixels of colour numbers in it.

ghost use Rattle.std.specs.Prelude.{◌≡◌, ◌<◌, ◌≤◌, ◌+◌, ◌↔◌, ◌++◌, ℕ, IsTrue, IfOk, length, map};
ghost use Rattle.std.specs.Prelude.{replicate, slice_index, take, EachIndex};
ghost use Rattle.std.specs.Int.{w64, to_le_bytes};
ghost use Rattle.std.specs.List.{flat_map};
ghost use Rattle.pac_colour.specs.Colours.{numbers as colour_numbers};
ghost use Rattle.pac_media.specs.Images.{palette_colour};
ghost use Rattle.pac_media.specs.Drawn.{ArePlanes, rgb_pixels};

use pac_picture::put_vector;
use std::alloc::{AllocError, Global};
use std::marker::Model;
use std::simd::prelude::*;

/// The lanes of pixels 4 to 11, red and green in turns, of both halves.
const MIDDLE: [usize; LANES] = [8, 9, 10, 11, 12, 13, 14, 15, 16, 17, 18, 19, 20, 21, 22, 23];

/// Red, green and blue in turns: of two of these that have red and green in turns, and of blue, whose lanes count from 16 on.
const FIRST: [usize; LANES] = [0, 1, 16, 2, 3, 17, 4, 5, 18, 6, 7, 19, 8, 9, 20, 10];

/// The same, from the green of pixel 5 on.
const SECOND: [usize; LANES] = [3, 21, 4, 5, 22, 6, 7, 23, 8, 9, 24, 10, 11, 25, 12, 13];

/// The same, from the blue of pixel 10 on.
const THIRD: [usize; LANES] = [26, 6, 7, 27, 8, 9, 28, 10, 11, 29, 12, 13, 30, 14, 15, 31];

/// How many pixels are drawn at once; and the colours of a palette.
pub(crate) const LANES: usize = 16;

/// The bytes of that many pixels.
pub(crate) const PIXELS: usize = 3 * LANES;

/// The reds, the greens and the blues of sixteen colours.
#[derive(Clone, Copy)]
struct Planes {
    reds: [u8; LANES],
    greens: [u8; LANES],
    blues: [u8; LANES],
}

/// The planes of sixteen colours.
fn planes_of(colours: &[[u8; 3]]) -> Planes
    requires { length colours.now ≡ colour_numbers }
    ensures { ArePlanes colours.now result.reds result.greens result.blues }
{
    let mut reds = [0; LANES];
    let mut greens = [0; LANES];
    let mut blues = [0; LANES];
    for number in 0..LANES {
        let [red, green, blue] = colours[number];
        reds[number] = red;
        greens[number] = green;
        blues[number] = blue;
    }
    Planes {
        reds,
        greens,
        blues,
    }
}

/// Eight colour numbers as one number, the first of them lowest.
#[inline]
pub(crate) fn word(numbers: &[u8]) -> u64
    requires { length numbers.now ≡ 8 }
    ensures { to_le_bytes w64 result ≡ numbers.now }
{
    let mut eight = [0; 8];
    eight.copy_from_slice(numbers);
    u64::from_le_bytes(eight)
}

/// Sixteen colour numbers as a vector.
#[inline(always)]
fn sixteen(numbers: &[u8]) -> u8x16
    requires { length numbers.now ≡ 16 }
    ensures { result ≡ numbers.now }
{
    u8x16::from_slice(numbers)
}

/// What each of sixteen colour numbers picks of a plane.
#[inline(always)]
fn picked(plane: &[u8; LANES], numbers: u8x16) -> u8x16
    requires { (k : ℕ) → k < 16 → slice_index numbers k < colour_numbers }
    ensures { result ≡ map (λ number. slice_index plane.now number) numbers }
{
    u8x16::from_array(*plane).swizzle_dyn(numbers)
}

/// Sixteen pixels of these reds, greens and blues, three bytes each: 48 bytes in three vectors.
#[inline(always)]
fn weave(red: u8x16, green: u8x16, blue: u8x16) -> (u8x16, u8x16, u8x16)
    ensures { result.0 ++ (result.1 ++ result.2) ≡ rgb_pixels red green blue }
{
    let (left, right) = red.interleave(green);
    let middle = left.shuffle(right, MIDDLE);
    (
        left.shuffle(blue, FIRST),
        middle.shuffle(blue, SECOND),
        right.shuffle(blue, THIRD),
    )
}

/// Copies sixteen bytes as a vector: `copy_from_slice` would first ask whether the two places overlap.
#[inline(always)]
pub(crate) fn copy_sixteen(from: &[u8], to: &mut [u8])
    requires from { length from.now ≡ 16 }
    requires to { length to.old ≡ 16 }
    ensures { to.new ≡ from.now }
{
    put_vector(to, 0, sixteen(from));
}

/// A palette, with its reds, greens and blues apart. Clauses see the palette.
pub(crate) struct Palette {
    colours: Vec<[u8; 3]>,
    planes: Planes,
}

impl Drop for Palette {
    /// Drops each part.
    fn drop(self) {
        let Palette {
            colours: _,
            planes: _,
        } = self;
    }
}

impl Model for Palette {
    ghost use Rattle.std.specs.Prelude.{ℕ, List};
    ghost use Rattle.pac_media.specs.Drawn.{IsPalette};

    ghost Value = { List (List ℕ) };

    ghost view = { λ palette. palette.colours.items };

    ghost invariant = { λ palette.
        IsPalette palette.colours.items palette.planes.reds palette.planes.greens palette.planes.blues };
}

impl Palette {
    /// A palette of black alone. Refused for want of memory alone.
    pub(crate) fn new(alloc: Global) -> Result<Palette, AllocError>
        ensures { IfOk result (λ palette. palette ≡ replicate 16 (replicate 3 0)) }
    {
        let colours = Vec::from_slice(alloc, &[[0; 3]; LANES])?;
        let planes = planes_of(&colours);
        Ok(Palette { colours, planes })
    }

    /// Whether its colours are these.
    pub(crate) fn is_of(&self, colours: &[[u8; 3]]) -> bool
        ensures { IsTrue result ↔ (self.now ≡ colours.now) }
    {
        self.colours.as_slice() == colours
    }

    /// Takes other colours.
    pub(crate) fn set(&mut self, colours: &[[u8; 3]])
        requires { length colours.now ≡ colour_numbers }
        ensures { self.new ≡ colours.now }
    {
        self.colours.copy_from_slice(colours);
        self.planes = planes_of(colours);
    }

    /// Puts the pixels of sixteen colour numbers.
    #[inline]
    pub(crate) fn colour(&self, numbers: &[u8], pixels: &mut [u8])
        requires size { length numbers.now ≡ 16 }
        requires below { EachIndex numbers.now (λ x. slice_index numbers.now x < colour_numbers) }
        requires pixels { length pixels.old ≡ 48 }
        ensures { pixels.new ≡ flat_map (palette_colour self.now) numbers.now }
    {
        let lanes = sixteen(numbers);
        let red = picked(&self.planes.reds, lanes);
        let green = picked(&self.planes.greens, lanes);
        let blue = picked(&self.planes.blues, lanes);
        let (first, second, third) = weave(red, green, blue);
        put_vector(pixels, 0, first);
        put_vector(pixels, 16, second);
        put_vector(pixels, 32, third);
    }
}
