//! A line of the picture: the sprites painted over the cells of its row.

ghost use Rattle.std.specs.Prelude.{◌≡◌, ◌<◌, ◌≤◌, ◌+◌, ◌-◌, ◌*◌, ◌/◌, ◌%◌, ◌^◌, ◌==◌, ◌&&◌, ℕ};
ghost use Rattle.std.specs.Prelude.{nat_le, nat_lt, if◌then◌else◌};
ghost use Rattle.std.specs.Prelude.{find, unwrap_or, slice_index};
ghost use Rattle.pac_num.specs.Tabulate.{tabulate};
ghost use Rattle.pac_tiles.specs.Tiles as tile;
ghost use Rattle.pac_sprites.specs.Sprites as sprites;
ghost use Rattle.pac_sprites.specs.SpritesProofs as sprites_proofs;
ghost use Rattle.pac_picture.specs.Picture.{is_opaque, sprite_at, sprite_dot};
ghost use Rattle.pac_picture.specs.Painting.{painted_number, told_number, over_line, AreBoxes};

use crate::graphics::Graphics;
use crate::screen::Screen;
use crate::size::WIDTH;
use pac_sprites::Sprite;
use std::simd::prelude::*;

/// A sprite's colour number painted over another: 0 is transparent.
#[inline]
fn over(number: u8, below: u8) -> u8
    ensures { result ≡ painted_number number below }
{
    if number != 0 { number } else { below }
}

/// Sixteen colour numbers of a sprite painted over others, at once.
#[inline(always)]
fn over_sixteen(numbers: &[u8; 16], below: &[u8; 16]) -> [u8; 16]
    ensures { (k : ℕ) → k < 16 → slice_index result k
        ≡ painted_number (slice_index numbers.now k) (slice_index below.now k) }
{
    let numbers = u8x16::from_array(*numbers);
    numbers
        .simd_eq(u8x16::splat(0))
        .select(u8x16::from_array(*below), numbers)
        .to_array()
}

/// A line of a sprite as it is shown: flipped, or as it is.
#[inline(always)]
fn shown(line: &[u8; 16], flip: bool) -> [u8; 16]
    ensures { (k : ℕ) → k < 16 → slice_index result k
        ≡ slice_index line.now (sprites.flipped_place flip k) }
{
    let line = u8x16::from_array(*line);
    if flip {
        line.shuffle(line, [15, 14, 13, 12, 11, 10, 9, 8, 7, 6, 5, 4, 3, 2, 1, 0])
            .to_array()
    } else {
        line.to_array()
    }
}

/// The sixteen numbers of a line from a column on.
#[inline(always)]
fn sixteen_of(line: &[u8; WIDTH], start: usize) -> [u8; 16]
    requires { start ≤ 272 }
    ensures { (k : ℕ) → k < 16 → slice_index result k ≡ slice_index line.now (start + k) }
{
    u8x16::from_slice(&line[start..]).to_array()
}

/// Writes sixteen numbers over those of a line from a column on: a vector, since a copy between slices looks whether they overlap.
#[inline(always)]
pub(crate) fn put_numbers(line: &mut [u8; WIDTH], start: usize, numbers: &[u8; 16])
    requires { start ≤ 272 }
    ensures { (x : ℕ) → x < tile.width → slice_index line.new x
        ≡ (if nat_le start x && nat_lt x (start + 16) then slice_index numbers.now (x - start)
        else slice_index line.old x) }
{
    u8x16::from_array(*numbers).copy_to_slice(&mut line[start..]);
}

/// Paints sixteen numbers of a sprite over those of a line from a column on.
#[inline(always)]
fn paint_box(numbers: &[u8; 16], start: usize, out: &mut [u8; WIDTH])
    requires { start ≤ 272 }
    ensures { (x : ℕ) → x < tile.width → slice_index out.new x
        ≡ (if nat_le start x && nat_lt x (start + 16)
        then painted_number (slice_index numbers.now (x - start)) (slice_index out.old x)
        else slice_index out.old x) }
{
    let below = sixteen_of(out, start);
    put_numbers(out, start, &over_sixteen(numbers, &below));
}

/// Paints a line of a sprite's colour numbers over a line of the picture, column by column.
fn paint_columns(line: &[u8; 16], sprite: &Sprite, out: &mut [u8; WIDTH])
    ensures dots { (x : ℕ) → x < tile.width →
        slice_index out.new x ≡ over_line line.now sprite.now x (slice_index out.old x) }
{
    let columns = sprite.columns();
    for x in columns.start..columns.end {
        let number = line[sprite.column_at(x) as usize];
        out[x as usize] = over(number, out[x as usize]);
    }
}

/// Paints a line of a sprite's colour numbers over a line of the picture: at once where the whole box shows.
#[inline]
fn paint_line(line: &[u8; 16], sprite: &Sprite, out: &mut [u8; WIDTH])
    ensures dots { (x : ℕ) → x < tile.width →
        slice_index out.new x ≡ over_line line.now sprite.now x (slice_index out.old x) }
{
    let columns = sprite.columns();
    if columns.start + 16 == columns.end {
        paint_box(&shown(line, sprite.flip_x), columns.start as usize, out);
    } else {
        paint_columns(line, sprite, out);
    }
}

/// Paints a sprite over line y of the picture.
#[inline]
fn paint(graphics: &Graphics, sprite: &Sprite, y: u8, out: &mut [u8; WIDTH])
    requires { sprite.now.code < sprites_proofs.sprite_codes }
    ensures dots { (x : ℕ) → x < tile.width →
        slice_index out.new x ≡ painted_number (sprite_dot graphics.now sprite.now x y)
        (slice_index out.old x) }
{
    let Some(line) = sprite.line_at(y) else {
        return;
    };
    let numbers = graphics.sprite_line(sprite.colour, sprite.code, line);
    paint_line(&numbers, sprite, out);
}

/// Paints the sprite over line y of the picture to which a place of the bits belongs that tell which boxes have the line: an even one below 16.
#[inline(always)]
fn paint_told(place: u32, graphics: &Graphics, screen: &Screen<'_>, y: u8, out: &mut [u8; WIDTH])
    ensures dots { (x : ℕ) → x < tile.width → slice_index out.new x
        ≡ painted_number (told_number place (λ k. sprite_dot graphics.now (sprite_at screen.now k) x y))
        (slice_index out.old x) }
{
    if place % 2 == 0 && place < 16 {
        paint(graphics, &screen.sprite((place / 2) as u8), y, out);
    }
}

/// Paints the eight sprites over line y of the picture, whose boxes are told by bits: the first is in front of all, so it comes last. A
/// call, since most lines have no sprite; and from bit to bit, since most others have one or two.
#[inline(never)]
fn paint_sprites(graphics: &Graphics, screen: &Screen<'_>, boxes: u64, y: u8, out: &mut [u8; WIDTH])
    requires { AreBoxes boxes screen.now y }
    ensures dots { (x : ℕ) → x < tile.width → slice_index out.new x
        ≡ unwrap_or (find is_opaque (tabulate 8
        (λ k. sprite_dot graphics.now (sprite_at screen.now k) x y))) (slice_index out.old x) }
{
    let mut left = boxes;
    while left != 0 {
        let place = 63 - left.leading_zeros();
        left %= 1 << place;
        paint_told(place, graphics, screen, y, out);
    }
}

/// Paints the eight sprites over line y of the picture, where the box of one of them has it.
#[inline(always)]
pub(crate) fn paint_unless_none(
    graphics: &Graphics,
    screen: &Screen<'_>,
    y: u8,
    out: &mut [u8; WIDTH],
)
    requires { y < tile.height }
    ensures dots { (x : ℕ) → x < tile.width → slice_index out.new x
        ≡ unwrap_or (find is_opaque (tabulate 8
        (λ k. sprite_dot graphics.now (sprite_at screen.now k) x y))) (slice_index out.old x) }
{
    let boxes = screen.boxes_on(y);
    if boxes != 0 {
        paint_sprites(graphics, screen, boxes, y, out);
    }
}
