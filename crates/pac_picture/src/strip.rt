//! A row of cells as it is drawn: the eight lines of its colour numbers, those of two cells side by side at a time.

ghost use Rattle.std.specs.Prelude.{◌≡◌, ◌<◌, ◌≤◌, ◌+◌, ◌-◌, ◌*◌, ◌/◌, ◌%◌, ◌==◌, ℕ, true, false};
ghost use Rattle.std.specs.Prelude.{[], if◌then◌else◌};
ghost use Rattle.std.specs.Prelude.{nat_lt, count_by, slice_index, slice_index_or};
ghost use Rattle.pac_num.specs.Tabulate.{tabulate};
ghost use Rattle.pac_tiles.specs.Tiles as tile;
ghost use Rattle.pac_tiles.specs.TilesLaws as tiles_laws;
ghost use Rattle.pac_picture.specs.Layer.{shadow_from};
ghost use Rattle.pac_picture.specs.LayerProofs.{kept_dot, row_dot};
ghost use Rattle.pac_picture.specs.Strips.{beside, tile_pairs, twin_dot, has_marked, AreDrawn};
ghost use Rattle.pac_picture.specs.Strips.{AreLike, IsTwin};

use crate::graphics::{Graphics, TilePattern};
use crate::painting::put_numbers;
use crate::size::{COLUMNS, RowBytes, WIDTH};
use pac_num::word;
use std::simd::prelude::*;

/// The places of two cells each that a row has.
pub(crate) const PLACES: usize = COLUMNS / 2;

/// The colour numbers of a row of cells, line by line, the sixteen of a place together: an array is written by one store, where a copy
/// between slices may look whether they overlap.
pub(crate) type RowLines = [[[u8; 16]; PLACES]; 8];

/// The colour numbers of two cells that stand side by side, line by line.
type Twin = [[u8; 16]; 8];

/// Two lines of two cells, of which each has its two lines one after the other.
#[inline(always)]
fn joined(left: &[u8; 16], right: &[u8; 16]) -> ([u8; 16], [u8; 16])
    ensures upper { (x : ℕ) → x < 16 → slice_index result.0 x
        ≡ (if nat_lt x 8 then slice_index left.now x else slice_index right.now (x - 8)) }
    ensures lower { (x : ℕ) → x < 16 → slice_index result.1 x
        ≡ (if nat_lt x 8 then slice_index left.now (8 + x) else slice_index right.now x) }
{
    let left = u8x16::from_array(*left);
    let right = u8x16::from_array(*right);
    let upper = left.shuffle(
        right,
        [0, 1, 2, 3, 4, 5, 6, 7, 16, 17, 18, 19, 20, 21, 22, 23],
    );
    let lower = left.shuffle(
        right,
        [8, 9, 10, 11, 12, 13, 14, 15, 24, 25, 26, 27, 28, 29, 30, 31],
    );
    (upper.to_array(), lower.to_array())
}

/// Two cells side by side.
#[inline(always)]
fn side_by_side(left: &TilePattern, right: &TilePattern) -> Twin
    ensures { (x y : ℕ) → x < 16 → y < 8 → twin_dot result x y ≡ beside left.now right.now x y }
{
    let mut twin = [[0; 16]; 8];
    for pair in 0..4usize {
        let (upper, lower) = joined(&left[pair], &right[pair]);
        twin[2 * pair] = upper;
        twin[2 * pair + 1] = lower;
    }
    twin
}

/// Writes sixteen numbers at a place of a line.
#[inline(always)]
fn put_sixteen(line: &mut [[u8; 16]; PLACES], place: usize, numbers: [u8; 16])
    requires { place < 18 }
    ensures { (n : ℕ) → slice_index_or line.new n []
        ≡ (if n == place then numbers else slice_index_or line.old n []) }
{
    line[place] = numbers;
}

/// Writes two cells at a place.
#[inline(always)]
fn put_twin(lines: &mut RowLines, place: usize, twin: &Twin)
    requires { place < 18 }
    ensures { (x y : ℕ) → y < 8 → row_dot lines.new x y
        ≡ (if x / 16 == place then twin_dot twin.now (x % 16) y else row_dot lines.old x y) }
{
    for y in 0..8usize {
        put_sixteen(&mut lines[y], place, twin[y]);
    }
}

/// Whether the two bytes at a place are the two to their left: both are compared at once, as one number.
#[inline(always)]
fn is_like_left(bytes: &RowBytes, place: usize) -> bool
    requires above { 1 ≤ place }
    requires below { place < 18 }
    ensures { result ≡ true → AreLike bytes.now place }
{
    let first = 2 * place;
    let before = word(bytes[first - 2], bytes[first - 1]);
    word(bytes[first], bytes[first + 1]) == before
}

/// Whether the two cells at a place have the tiles and the colours of the two to their left.
#[inline(always)]
fn are_like_left(tiles: &RowBytes, colours: &RowBytes, place: usize) -> bool
    requires { place < 18 }
    ensures place { result ≡ true → 1 ≤ place }
    ensures tiles { result ≡ true → AreLike tiles.now place }
    ensures colours { result ≡ true → AreLike colours.now place }
{
    place > 0 && is_like_left(tiles, place) && is_like_left(colours, place)
}

/// The second of the two cells at a place, which is often like the first.
#[inline(always)]
fn second_cell(
    first: TilePattern,
    graphics: &Graphics,
    tiles: &RowBytes,
    colours: &RowBytes,
    place: usize,
) -> TilePattern
    requires place { place < 18 }
    requires first { first ≡ tile_pairs graphics.now (slice_index colours.now (2 * place))
        (slice_index tiles.now (2 * place)) }
    ensures { result
        ≡ tile_pairs graphics.now (slice_index colours.now (2 * place + 1))
        (slice_index tiles.now (2 * place + 1)) }
{
    let (here, next) = (2 * place, 2 * place + 1);
    if tiles[next] == tiles[here] && colours[next] == colours[here] {
        first
    } else {
        graphics.pattern(colours[next], tiles[next])
    }
}

/// The two cells at a place of a row of cells, as tiles and colours say.
#[inline(always)]
fn fresh_twin(graphics: &Graphics, tiles: &RowBytes, colours: &RowBytes, place: usize) -> Twin
    requires { place < 18 }
    ensures { IsTwin graphics.now tiles.now colours.now place result }
{
    let first = graphics.pattern(colours[2 * place], tiles[2 * place]);
    let second = second_cell(first, graphics, tiles, colours, place);
    side_by_side(&first, &second)
}

/// The two cells at a place, which are often those to their left.
#[inline(always)]
fn next_twin(
    last: Twin,
    graphics: &Graphics,
    tiles: &RowBytes,
    colours: &RowBytes,
    place: usize,
) -> Twin
    requires place { place < 18 }
    requires last { 1 ≤ place → IsTwin graphics.now tiles.now colours.now (place - 1) last }
    ensures { IsTwin graphics.now tiles.now colours.now place result }
{
    if are_like_left(tiles, colours, place) {
        last
    } else {
        fresh_twin(graphics, tiles, colours, place)
    }
}

/// Draws all cells of a row, two at a time.
#[inline]
pub(crate) fn draw_all(
    lines: &mut RowLines,
    graphics: &Graphics,
    tiles: &RowBytes,
    colours: &RowBytes,
)
    ensures { (x y : ℕ) → x < tile.width → y < 8 →
        row_dot lines.new x y ≡ kept_dot graphics.now (shadow_from tiles.now colours.now) x y }
{
    let mut twin = [[0; 16]; 8];
    for place in 0..PLACES {
        twin = next_twin(twin, graphics, tiles, colours, place);
        put_twin(lines, place, &twin);
    }
}

/// Whether one of the two cells at a place is of a mask.
#[inline(always)]
fn is_marked(mask: &[bool; COLUMNS], place: usize) -> bool
    requires { place < 18 }
    ensures { result ≡ has_marked mask.now place }
{
    mask[2 * place] || mask[2 * place + 1]
}

/// Draws the two cells at a place where one of them is of a mask.
#[inline(always)]
fn redraw_place(
    lines: &mut RowLines,
    graphics: &Graphics,
    tiles: &RowBytes,
    colours: &RowBytes,
    mask: &[bool; COLUMNS],
    place: usize,
)
    requires place { place < 18 }
    requires drawn { AreDrawn graphics.now tiles.now colours.now
        (has_marked mask.now) place lines.old }
    ensures { AreDrawn graphics.now tiles.now colours.now
        (has_marked mask.now) (place + 1) lines.new }
{
    if is_marked(mask, place) {
        put_twin(lines, place, &fresh_twin(graphics, tiles, colours, place));
    }
}

/// Draws the cells of a mask, two at a time: where one of two is of it, both are drawn. The others are drawn already.
#[inline]
pub(crate) fn redraw(
    lines: &mut RowLines,
    graphics: &Graphics,
    tiles: &RowBytes,
    colours: &RowBytes,
    mask: &[bool; COLUMNS],
)
    requires { AreDrawn graphics.now tiles.now colours.now (has_marked mask.now) 0 lines.old }
    ensures { (x y : ℕ) → x < tile.width → y < 8 →
        row_dot lines.new x y ≡ kept_dot graphics.now (shadow_from tiles.now colours.now) x y }
{
    for place in 0..PLACES {
        redraw_place(lines, graphics, tiles, colours, mask, place);
    }
}

/// One, or none.
#[inline(always)]
fn one(is_marked: bool) -> u32
    ensures { result ≡ (if is_marked then 1 else 0) }
{
    if is_marked { 1 } else { 0 }
}

/// How many cells a mask has.
#[inline]
pub(crate) fn marked(mask: &[bool; COLUMNS]) -> u32
    ensures count { result ≡ count_by (λ k. slice_index_or mask.now k false)
        (tabulate tiles_laws.columns (λ k. k)) }
    ensures bound { result ≤ tiles_laws.columns }
{
    let mut count = 0;
    for column in 0..COLUMNS {
        count += one(mask[column]);
    }
    count
}

/// Fills a line with line y, 0 to 7, of a row of cells.
#[inline]
pub(crate) fn lay_line(lines: &RowLines, y: u8, out: &mut [u8; WIDTH])
    requires { y < 8 }
    ensures { out.new ≡ tabulate tile.width (λ x. row_dot lines.now x y) }
{
    let line = &lines[y as usize];
    for place in 0..PLACES {
        put_numbers(out, 16 * place, &line[place]);
    }
}
