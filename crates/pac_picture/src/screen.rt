//! What a program writes to choose the picture.

ghost use Rattle.std.specs.Prelude.{◌≡◌, ◌<◌, ◌+◌, ◌*◌, ◌/◌, ◌%◌, ◌^◌, ◌-ℤ◌, ℕ, pos, true, false};
ghost use Rattle.std.specs.Prelude.{length, slice_index, if◌then◌else◌};
ghost use Rattle.pac_tiles.specs.Tiles as tile;
ghost use Rattle.pac_tiles.specs.TilesLaws as tiles_laws;
ghost use Rattle.pac_tiles.specs.TilesProofs as tiles_proofs;
ghost use Rattle.pac_sprites.specs.Sprites as sprite;
ghost use Rattle.pac_sprites.specs.SpritesProofs as sprites_proofs;
ghost use Rattle.pac_picture.specs.Picture.{sprite_at};
ghost use Rattle.pac_picture.specs.PictureProofs.{sprite_bytes};
ghost use Rattle.pac_picture.specs.Layer.{cells_of, drawn_from};
ghost use Rattle.pac_picture.specs.Painting.{AreBoxes};
ghost use Rattle.pac_picture.specs.StateLaws.{source_of};
ghost use Rattle.pac_picture.specs.CleanLines.{AreSameOn, seen_sprite};

use crate::clean::SpriteBytes;
use crate::laws::sixteen;
use crate::shadow::Shadow;
use crate::size::{COLUMNS, HEIGHT, RowBytes};
use pac_sprites::Sprite;
use pac_tiles::offset;
use std::marker::Model;
use std::simd::prelude::*;

/// For each byte of the sprites' coordinates, how many lines are in the box that it places: no columns are looked at.
const BOX_LINES: [u8; 16] = [16, 0, 16, 0, 16, 0, 16, 0, 16, 0, 16, 0, 16, 0, 16, 0];

/// The memory that a picture is composed from, borrowed. Clauses see it as its bytes.
#[derive(Drop)]
pub struct Screen<'a> {
    tile_ram: &'a [u8],
    colour_ram: &'a [u8],
    attributes: &'a [u8],
    coordinates: &'a [u8],
    flip: bool,
}

impl<'a> Model for Screen<'a> {
    ghost use Rattle.std.specs.Prelude.{◌≡◌, length};
    ghost use Rattle.pac_tiles.specs.TilesProofs.{tile_ram_size};
    ghost use Rattle.pac_picture.specs.Picture.{VideoMemory};
    ghost use Rattle.pac_picture.specs.PictureProofs.{sprite_bytes};

    ghost Value = { VideoMemory };

    ghost view = { λ screen. record {
      tile_ram = screen.tile_ram.now;
      colour_ram = screen.colour_ram.now;
      attributes = screen.attributes.now;
      coordinates = screen.coordinates.now;
      flip = screen.flip;
    } };

    ghost invariant = { λ screen. record {
      tile_ram : length screen.tile_ram.now ≡ tile_ram_size;
      colour_ram : length screen.colour_ram.now ≡ tile_ram_size;
      attributes : length screen.attributes.now ≡ sprite_bytes;
      coordinates : length screen.coordinates.now ≡ sprite_bytes;
    } };
}

impl<'a> Screen<'a> {
    /// The screen of 1,024 bytes of tile RAM, 1,024 of colour RAM, the 16 bytes of the sprites' attributes, from
    /// 4FF0H on, the 16 of their coordinates, from 5060H on, and the latch's flip bit.
    #[inline]
    pub fn new(
        tile_ram: &'a [u8],
        colour_ram: &'a [u8],
        attributes: &'a [u8],
        coordinates: &'a [u8],
        flip: bool,
    ) -> Screen<'a>
        requires tile_ram { length tile_ram.now ≡ tiles_proofs.tile_ram_size }
        requires colour_ram { length colour_ram.now ≡ tiles_proofs.tile_ram_size }
        requires attributes { length attributes.now ≡ sprite_bytes }
        requires coordinates { length coordinates.now ≡ sprite_bytes }
        ensures { result ≡ record {
          tile_ram = tile_ram.now;
          colour_ram = colour_ram.now;
          attributes = attributes.now;
          coordinates = coordinates.now;
          flip = flip;
        } }
    {
        Screen {
            tile_ram,
            colour_ram,
            attributes,
            coordinates,
            flip,
        }
    }

    /// Whether the picture is shown flipped.
    #[inline]
    pub(crate) fn flip(&self) -> bool
        ensures { result ≡ self.now.flip }
    {
        self.flip
    }

    /// The line of the picture that isn't flipped which line y of the shown one has.
    #[inline]
    pub(crate) fn source(&self, y: u8) -> u8
        requires { y < tile.height }
        ensures line { result ≡ source_of self.now y }
        ensures below { result < tile.height }
    {
        if self.flip { HEIGHT - 1 - y } else { y }
    }

    /// A sprite, 0 to 7.
    #[inline]
    pub(crate) fn sprite(&self, k: u8) -> Sprite
        requires { k < 8 }
        ensures sprite { result ≡ sprite_at self.now k }
        ensures code { result.code < sprites_proofs.sprite_codes }
    {
        let first = 2 * k as usize;
        Sprite::of(
            [self.attributes[first], self.attributes[first + 1]],
            [self.coordinates[first], self.coordinates[first + 1]],
        )
    }

    /// Bits that say which of the eight sprites' boxes have line y of the picture that isn't flipped.
    #[inline]
    pub(crate) fn boxes_on(&self, y: u8) -> u64
        requires { y < tile.height }
        ensures { AreBoxes result self.now y }
    {
        boxes_at(self.coordinates, y)
    }

    /// The bytes of the sprites.
    #[inline]
    pub(crate) fn sprite_bytes(&self) -> SpriteBytes
        ensures { result ≡ record {
          attributes = self.now.attributes;
          coordinates = self.now.coordinates;
        } }
    {
        SpriteBytes {
            attributes: u8x16::from_slice(self.attributes).to_array(),
            coordinates: u8x16::from_slice(self.coordinates).to_array(),
        }
    }

    /// Whether line y of the picture that isn't flipped has the sprites that these bytes say, each with the same bytes: those whose boxes
    /// don't have the line, now and as these bytes say, may have others.
    #[inline]
    pub(crate) fn has_sprites_on(&self, y: u8, sprites: &SpriteBytes) -> bool
        requires { y < tile.height }
        ensures { result ≡ true → (k : ℕ) → k < 8 →
            AreSameOn y (seen_sprite sprites.now k) (sprite_at self.now k) }
    {
        let attributes = sixteen(self.attributes, 0, &sprites.attributes, 0);
        let coordinates = sixteen(self.coordinates, 0, &sprites.coordinates, 0);
        let changed = attributes | coordinates;
        let boxes = boxes_at(self.coordinates, y) | boxes_at(&sprites.coordinates, y);
        is_off(changed, boxes)
    }

    /// Whether a row of cells was drawn from what is there now, as most rows were when a line is composed.
    #[inline]
    pub(crate) fn is_drawn_in(&self, shadow: &Shadow, row: u8) -> bool
        requires { row < tiles_laws.rows }
        ensures { result ≡ true → shadow.now ≡ drawn_from self.now row }
    {
        shadow.is_drawn
            && are_cells(self.tile_ram, row, &shadow.tiles)
            && are_cells(self.colour_ram, row, &shadow.colours)
    }

    /// The tiles of a row of cells.
    #[inline]
    pub(crate) fn tiles(&self, row: u8) -> RowBytes
        requires { row < tiles_laws.rows }
        ensures { result ≡ cells_of self.now.tile_ram row }
    {
        cells(self.tile_ram, row)
    }

    /// The colours of a row of cells.
    #[inline]
    pub(crate) fn colours(&self, row: u8) -> RowBytes
        requires { row < tiles_laws.rows }
        ensures { result ≡ cells_of self.now.colour_ram row }
    {
        cells(self.colour_ram, row)
    }
}

/// Bits that say which of the eight sprites' boxes have line y of the picture, two for each sprite, of which the second is 0.
#[inline]
fn boxes_at(coordinates: &[u8], y: u8) -> u64
    requires coordinates { length coordinates.now ≡ sprite_bytes }
    requires y { y < tile.height }
    ensures { (k : ℕ) → k < 8 → result / 2 ^ (2 * k) % 2
        ≡ (if sprite.is_in_box (pos (slice_index coordinates.now (2 * k)) -ℤ pos 31) y then 1
        else 0) }
{
    (u8x16::splat(y + 31) - u8x16::from_slice(coordinates))
        .simd_lt(u8x16::from_array(BOX_LINES))
        .to_bitmask()
}

/// Whether no sprite that has a changed byte has its box on the line.
#[inline]
fn is_off(changed: u64, boxes: u64) -> bool
    ensures { result ≡ true → (k : ℕ) → k < 8 → boxes / 2 ^ (2 * k) % 2 ≡ 1 →
        (changed / 2 ^ (2 * k) % 2 ≡ 0) × (changed / 2 ^ (2 * k + 1) % 2 ≡ 0) }
{
    (changed | (changed >> 1)) & boxes == 0
}

/// The bytes of 1,024 that a row of cells has: the 32 in the middle follow one another.
#[inline]
fn cells(ram: &[u8], row: u8) -> RowBytes
    requires ram { length ram.now ≡ tiles_proofs.tile_ram_size }
    requires row { row < tiles_laws.rows }
    ensures { result ≡ cells_of ram.now row }
{
    let mut cells = [0; COLUMNS];
    let middle = 32 * (row as usize + 2);
    cells[2..34].copy_from_slice(&ram[middle..middle + 32]);
    cells[0] = ram[offset(0, row) as usize];
    cells[1] = ram[offset(1, row) as usize];
    cells[34] = ram[offset(34, row) as usize];
    cells[35] = ram[offset(35, row) as usize];
    cells
}

/// Whether these are the bytes of 1,024 that a row of cells has.
#[inline]
fn are_cells(ram: &[u8], row: u8, bytes: &RowBytes) -> bool
    requires ram { length ram.now ≡ tiles_proofs.tile_ram_size }
    requires row { row < tiles_laws.rows }
    ensures { result ≡ true → bytes.now ≡ cells_of ram.now row }
{
    let middle = 32 * (row as usize + 2);
    let first = sixteen(ram, middle, bytes, 2);
    let second = sixteen(ram, middle + 16, bytes, 18);
    (first == 0)
        & (second == 0)
        & (ram[offset(0, row) as usize] == bytes[0])
        & (ram[offset(1, row) as usize] == bytes[1])
        & (ram[offset(34, row) as usize] == bytes[34])
        & (ram[offset(35, row) as usize] == bytes[35])
}
