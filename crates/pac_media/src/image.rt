//! The image of a picture, in the binary PPM format.

ghost use Rattle.std.specs.Prelude.{◌≡◌, ◌<◌, ◌≤◌, ◌↔◌, ◌++◌, ◌+◌, ◌*◌, [], IsTrue, length, take};
ghost use Rattle.std.specs.Prelude.{drop, slice_index};
ghost use Rattle.std.specs.Prelude.{vec_len, vec_capacity, EachIndex, IfOk};
ghost use Rattle.std.specs.Int.{w64, to_le_bytes};
ghost use Rattle.std.specs.List.{flat_map};
ghost use Rattle.pac_tiles.specs.Tiles as tile;
ghost use Rattle.pac_colour.specs.Colours.{numbers as colour_numbers};
ghost use Rattle.pac_media.specs.ImagesProofs.{image_size};
ghost use Rattle.pac_media.specs.Images.{palette_colour, ppm_of};
ghost use Rattle.pac_picture.specs.State.{IsPicture, black};
ghost use Rattle.pac_media.specs.Drawn.{AreColours, IsImageOf, IsDrawnTo};

use crate::palette::{LANES, PIXELS, Palette, copy_sixteen, word};
use pac_picture::{HEIGHT, Lines, Picture, WIDTH};
use std::alloc::{AllocError, Global};
use std::marker::Model;

/// The bytes of an image before its pixels.
const HEADER: usize = 15;

/// The bytes of a line's pixels.
const LINE: usize = 3 * WIDTH;

/// The bytes of an image.
const SIZE: usize = HEADER + HEIGHT as usize * LINE;

/// The blocks of a line, which are drawn at once.
const BLOCKS: usize = WIDTH / LANES;

/// The parts of a line, of 32 pixels each, which are compared at once.
const PARTS: usize = WIDTH / 32;

/// The colour numbers of a line.
type Numbers = [u8; WIDTH];

/// Appends the pixels of a line to an image that has room for them.
fn append_line(image: &mut Vec<u8>, palette: &Palette, numbers: &Numbers)
    requires room { vec_len image.old + 3 * tile.width ≤ vec_capacity image.old }
    requires below { EachIndex numbers.now (λ x. slice_index numbers.now x < colour_numbers) }
    ensures items { image.new.items ≡ image.old.items ++ flat_map (palette_colour palette.now)
        numbers.now }
    ensures len { vec_len image.new ≡ vec_len image.old + 3 * tile.width }
    ensures room { vec_capacity image.old ≤ vec_capacity image.new }
{
    let mut pixels = [0; PIXELS];
    for block in 0..BLOCKS {
        palette.colour(&numbers[LANES * block..LANES * block + LANES], &mut pixels);
        image.extend_from_slice(&pixels).unwrap();
    }
}

/// Puts the image of some lines in place of what a buffer holds that has room for it.
fn draw(image: &mut Vec<u8>, palette: &Palette, lines: &[Numbers])
    requires room { image_size ≤ vec_capacity image.old }
    requires lines { IsPicture lines.now }
    ensures image { image.new.items ≡ ppm_of lines.now palette.now }
    ensures room { image_size ≤ vec_capacity image.new }
{
    image.clear();
    image.extend_from_slice(b"P6\n288 224\n255\n").unwrap();
    for y in 0..HEIGHT as usize {
        append_line(image, palette, &lines[y]);
    }
}

/// Draws the image of some lines in these colours, unless it is there.
fn begin(image: &mut Vec<u8>, palette: &mut Palette, lines: &[Numbers], colours: &[[u8; 3]])
    requires room { image_size ≤ vec_capacity image.old }
    requires lines { IsPicture lines.now }
    requires colours { length colours.now ≡ colour_numbers }
    requires drawn { IsImageOf image.old.items lines.now palette.old }
    ensures drawn { image.new.items ≡ ppm_of lines.now colours.now }
    ensures palette { palette.new ≡ colours.now }
    ensures colours { AreColours colours.now }
    ensures room { image_size ≤ vec_capacity image.new }
{
    if image.is_empty() || !palette.is_of(colours) {
        palette.set(colours);
        draw(image, palette, lines);
    }
}

/// Eight colour numbers of a line as one number.
#[inline]
fn word_at(numbers: &Numbers, start: usize) -> u64
    requires { start + 8 ≤ tile.width }
    ensures { to_le_bytes w64 result ≡ take 8 (drop start numbers.now) }
{
    word(&numbers[start..start + 8])
}

/// Whether 32 colour numbers of two lines are the same, told without looking at single ones.
#[inline]
fn are_same(one: &Numbers, other: &Numbers, start: usize) -> bool
    requires { start + 32 ≤ tile.width }
    ensures { IsTrue result ↔ (take 32 (drop start one.now) ≡ take 32 (drop start other.now)) }
{
    let first = word_at(one, start) ^ word_at(other, start);
    let second = word_at(one, start + 8) ^ word_at(other, start + 8);
    let third = word_at(one, start + 16) ^ word_at(other, start + 16);
    let fourth = word_at(one, start + 24) ^ word_at(other, start + 24);
    first | second | third | fourth == 0
}

/// Draws a block of a line again, and keeps its numbers.
#[inline(always)]
fn redraw_block(
    pixels: &mut [u8],
    kept: &mut Numbers,
    palette: &Palette,
    numbers: &Numbers,
    start: usize,
)
    requires start { start + 16 ≤ tile.width }
    requires drawn { IsDrawnTo palette.now start numbers.now pixels.old kept.old }
    ensures { IsDrawnTo palette.now (start + 16) numbers.now pixels.new kept.new }
{
    let block = &numbers[start..start + LANES];
    palette.colour(block, &mut pixels[3 * start..3 * start + PIXELS]);
    copy_sixteen(block, &mut kept[start..start + LANES]);
}

/// Draws both blocks of a part of a line again. A call of its own, which most parts don't need, so that the loop over a line stays
/// short.
#[inline(never)]
fn redraw_blocks(
    pixels: &mut [u8],
    kept: &mut Numbers,
    palette: &Palette,
    numbers: &Numbers,
    start: usize,
)
    requires start { start + 32 ≤ tile.width }
    requires drawn { IsDrawnTo palette.now start numbers.now pixels.old kept.old }
    ensures { IsDrawnTo palette.now (start + 32) numbers.now pixels.new kept.new }
{
    redraw_block(pixels, kept, palette, numbers, start);
    redraw_block(pixels, kept, palette, numbers, start + LANES);
}

/// Draws 32 pixels of a line again where some of their numbers changed.
#[inline]
fn redraw_part(
    pixels: &mut [u8],
    kept: &mut Numbers,
    palette: &Palette,
    numbers: &Numbers,
    start: usize,
)
    requires start { start + 32 ≤ tile.width }
    requires drawn { IsDrawnTo palette.now start numbers.now pixels.old kept.old }
    ensures { IsDrawnTo palette.now (start + 32) numbers.now pixels.new kept.new }
{
    if !are_same(numbers, kept, start) {
        redraw_blocks(pixels, kept, palette, numbers, start);
    }
}

/// Draws those pixels of a line again whose numbers changed, and keeps these.
#[inline]
fn redraw_line(pixels: &mut [u8], kept: &mut Numbers, palette: &Palette, numbers: &Numbers)
    requires { IsDrawnTo palette.now 0 numbers.now pixels.old kept.old }
    ensures drawn { pixels.new ≡ flat_map (palette_colour palette.now) numbers.now }
    ensures kept { kept.new ≡ numbers.now }
{
    for part in 0..PARTS {
        redraw_part(pixels, kept, palette, numbers, 32 * part);
    }
}

/// Draws those pixels of an image again that differ in a picture of other lines, and keeps these.
fn redraw(image: &mut [u8], kept: &mut [Numbers], palette: &Palette, lines: &Lines)
    requires colours { AreColours palette.now }
    requires kept { IsPicture kept.old }
    requires drawn { image.old ≡ ppm_of kept.old palette.now }
    ensures drawn { image.new ≡ ppm_of lines.now palette.now }
    ensures kept { kept.new ≡ lines.now }
    ensures picture { IsPicture lines.now }
{
    for y in 0..HEIGHT {
        let start = HEADER + LINE * y as usize;
        let pixels = &mut image[start..start + LINE];
        redraw_line(pixels, &mut kept[y as usize], palette, lines.row(y));
    }
}

/// Lines of colour number 0 alone.
fn black_lines(alloc: Global) -> Result<Vec<Numbers>, AllocError>
    ensures { IfOk result (λ lines. lines.items ≡ black) }
{
    let mut lines = Vec::with_capacity(alloc, HEIGHT as usize)?;
    for _ in 0..HEIGHT {
        lines.push([0; WIDTH])?;
    }
    Ok(lines)
}

/// Room for the bytes of one image, and the lines and the palette that it was drawn from, so that another picture costs
/// what differs in it. Clauses see the bytes of the image that it holds.
pub struct Image {
    bytes: Vec<u8>,
    lines: Vec<Numbers>,
    palette: Palette,
}

impl Drop for Image {
    /// Drops each part.
    fn drop(self) {
        let Image {
            bytes: _,
            lines: _,
            palette: _,
        } = self;
    }
}

impl Model for Image {
    ghost use Rattle.std.specs.Prelude.{ℕ, List, ◌≤◌, vec_capacity};
    ghost use Rattle.pac_picture.specs.State.{IsPicture};
    ghost use Rattle.pac_media.specs.ImagesProofs.{image_size};
    ghost use Rattle.pac_media.specs.Drawn.{IsImageOf};

    ghost Value = { List ℕ };

    ghost view = { λ image. image.bytes.items };

    ghost invariant = { λ image. record {
      room : image_size ≤ vec_capacity image.bytes;
      lines : IsPicture image.lines.items;
      drawn : IsImageOf image.bytes.items image.lines.items image.palette;
    } };
}

impl Image {
    /// Room with no image in it. Refused for want of memory alone.
    pub fn new(alloc: Global) -> Result<Image, AllocError>
        ensures { IfOk result (λ image. image ≡ []) }
    {
        let bytes = Vec::with_capacity(alloc, SIZE)?;
        let lines = black_lines(alloc)?;
        let palette = Palette::new(alloc)?;
        Ok(Image {
            bytes,
            lines,
            palette,
        })
    }

    /// Draws a picture's image; it takes no memory. A call of its own, so that a sample, which is offered far more often,
    /// doesn't pay for it.
    #[inline(never)]
    pub fn draw(&mut self, picture: &Picture)
        ensures { self.new ≡ ppm_of picture.now.lines picture.now.palette }
    {
        let lines = picture.lines();
        begin(
            &mut self.bytes,
            &mut self.palette,
            &self.lines,
            picture.palette(),
        );
        redraw(&mut self.bytes, &mut self.lines, &self.palette, lines);
    }

    /// The bytes of the image.
    #[inline]
    pub fn bytes(&self) -> &[u8]
        ensures { result.now ≡ self.now }
    {
        &self.bytes
    }
}
