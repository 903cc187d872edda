//! Sixteen pixels at a time: what colour numbers pick of a palette by vectors, and that woven into pixels.

ghost use Rattle.std.specs.Prelude.{◌≡◌, ◌<◌, ◌≤◌, ◌+◌, ◌*◌, ◌++◌, ℕ, drop, length, map, reverse};
ghost use Rattle.std.specs.Prelude.{slice_index, take};
ghost use Rattle.std.specs.List.{flat_map};
ghost use Rattle.pac_colour.specs.Colours.{numbers};
ghost use Rattle.pac_board.specs.PictureState.{palette_of};
ghost use Rattle.pac_block.specs.Host as host;
ghost use Rattle.pac_block.specs.Woven.{coloured, woven};

use pac_colour::rgb;
use pac_picture::put_vector;
use std::marker::Model;
use std::simd::prelude::*;

/// How many pixels are drawn at a time.
pub const LANES: usize = 16;

/// The palette of a colour PROM by its channels: red, green and blue of the 16 colour numbers. Clauses see the palette.
#[derive(Drop)]
pub struct Channels {
    reds: [u8; LANES],
    greens: [u8; LANES],
    blues: [u8; LANES],
}

impl Model for Channels {
    ghost use Rattle.std.specs.Prelude.{ℕ, List};
    ghost use Rattle.pac_block.specs.Woven.{coloured};

    ghost Value = { List (List ℕ) };

    ghost view = { λ palette. coloured palette.reds palette.greens palette.blues };
}

impl Channels {
    /// The palette of a colour PROM.
    pub fn of(colours: &[u8; 32]) -> Channels
        ensures { result ≡ palette_of colours.now }
    {
        let mut reds = [0; LANES];
        let mut greens = [0; LANES];
        let mut blues = [0; LANES];
        for number in 0..LANES {
            let [red, green, blue] = rgb(colours[number]);
            reds[number] = red;
            greens[number] = green;
            blues[number] = blue;
        }
        Channels {
            reds,
            greens,
            blues,
        }
    }

    /// The palette whose colours are told backwards: blue, green and red.
    pub fn backwards(&self) -> Channels
        ensures { result ≡ map reverse self.now }
    {
        Channels {
            reds: self.blues,
            greens: self.greens,
            blues: self.reds,
        }
    }
}

/// The sixteen colour numbers from a place of a line on.
#[inline(always)]
pub(crate) fn sixteen(line: &[u8], at: usize) -> u8x16
    requires { at + 16 ≤ length line.now }
    ensures { result ≡ take 16 (drop at line.now) }
{
    u8x16::from_slice(&line[at..])
}

/// What each of sixteen colour numbers picks of a table.
#[inline(always)]
fn picked(table: &[u8; LANES], numbers: u8x16) -> u8x16
    requires { (k : ℕ) → k < 16 → slice_index numbers k < 16 }
    ensures { result ≡ map (λ number. slice_index table.now number) numbers }
{
    u8x16::from_array(*table).swizzle_dyn(numbers)
}

/// Sixteen pixels of these reds, greens and blues, four in each vector.
#[inline(always)]
fn weave(red: u8x16, green: u8x16, blue: u8x16) -> (u8x16, u8x16, u8x16, u8x16)
    ensures { result.0 ++ (result.1 ++ (result.2 ++ result.3)) ≡ woven red green blue }
{
    let opaque = u8x16::splat(255);
    let (red_blue, more_red_blue) = red.interleave(blue);
    let (green_opaque, more_green_opaque) = green.interleave(opaque);
    let (first, second) = red_blue.interleave(green_opaque);
    let (third, fourth) = more_red_blue.interleave(more_green_opaque);
    (first, second, third, fourth)
}

/// Writes the pixels of sixteen colour numbers at a place.
#[inline(always)]
pub fn put_pixels(rgba: &mut [u8], at: usize, palette: &Channels, numbers: u8x16)
    requires room { at + 64 ≤ length rgba.old }
    requires below { (k : ℕ) → k < 16 → slice_index numbers k < 16 }
    ensures size { length rgba.new ≡ length rgba.old }
    ensures text { take (at + 64) rgba.new
        ≡ take at rgba.old ++ flat_map (host.opaque_pixel palette.now) numbers }
{
    let red = picked(&palette.reds, numbers);
    let green = picked(&palette.greens, numbers);
    let blue = picked(&palette.blues, numbers);
    let (first, second, third, fourth) = weave(red, green, blue);
    put_vector(rgba, at, first);
    put_vector(rgba, at + 16, second);
    put_vector(rgba, at + 32, third);
    put_vector(rgba, at + 48, fourth);
}
