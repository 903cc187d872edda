//! The ROMs that pictures are drawn from. The pixels of a tile and of a sprite are taken from their bytes, and a colour's numbers
//! put in their places, sixteen at a time.

ghost use Rattle.std.specs.Prelude.{◌≡◌, ◌<◌, ℕ, ◌+◌, ◌*◌, ◌/◌, ◌%◌, nat_lt, if◌then◌else◌, length};
ghost use Rattle.std.specs.Prelude.{slice_index};
ghost use Rattle.pac_num.specs.Tabulate.{tabulate};
ghost use Rattle.pac_num.specs.Pixels.{pixel_value};
ghost use Rattle.pac_tiles.specs.Tiles as tile;
ghost use Rattle.pac_sprites.specs.Sprites as sprite;
ghost use Rattle.pac_sprites.specs.SpritesProofs as sprites_proofs;
ghost use Rattle.pac_colour.specs.Colours as colour_of;
ghost use Rattle.pac_picture.specs.Picture.{sprite_number};
ghost use Rattle.pac_picture.specs.LayerProofs.{zero_roms};
ghost use Rattle.pac_picture.specs.Strips.{tile_pairs};
ghost use Rattle.pac_picture.specs.Decoded.{sprite_values, ArePlaces, AreValues, AreNumbersOf};

use crate::size::copied;
use std::marker::Model;
use std::simd::prelude::*;

/// The bits of a byte that have the twos of its pixels, column by column: the four columns are there for each of four bytes.
const TWOS: [u8; 16] = [
    128, 64, 32, 16, 128, 64, 32, 16, 128, 64, 32, 16, 128, 64, 32, 16,
];

/// The bits that have their ones.
const ONES: [u8; 16] = [8, 4, 2, 1, 8, 4, 2, 1, 8, 4, 2, 1, 8, 4, 2, 1];

/// The bytes of a tile, of its sixteen, that have the pixels of its first two lines: the left half of a line stands in the last eight.
const FIRST_LINES: [u8; 16] = [8, 8, 8, 8, 0, 0, 0, 0, 9, 9, 9, 9, 1, 1, 1, 1];

/// The bytes at sixteen places of sixteen.
#[inline]
fn picked(bytes: u8x16, places: u8x16) -> u8x16
    requires { ArePlaces places }
    ensures { (k : ℕ) → k < 16 → slice_index result k ≡ slice_index bytes (slice_index places k) }
{
    bytes.swizzle_dyn(places)
}

/// The pixels of sixteen bytes, of each that of its place's column.
#[inline]
fn values(bytes: u8x16) -> u8x16
    ensures { (k : ℕ) → k < 16 → slice_index result k ≡ pixel_value (slice_index bytes k) k }
{
    let twos = (bytes & u8x16::from_array(TWOS)).simd_min(u8x16::splat(2));
    let ones = (bytes & u8x16::from_array(ONES)).simd_min(u8x16::splat(1));
    twos + ones
}

/// The places of a tile's bytes that have the pixels of a pair of its lines, 0 to 3.
#[inline]
fn tile_places(pair: u8) -> u8x16
    requires { pair < 4 }
    ensures { (k : ℕ) → k < 16 → slice_index result k
        ≡ 2 * pair + k / 8 + (if nat_lt (k % 8) 4 then 8 else 0) }
{
    u8x16::from_array(FIRST_LINES) + u8x16::splat(2 * pair)
}

/// The sixteen bytes of a tile.
#[inline]
fn tile_bytes(rom: &[u8; 4096], code: u8) -> u8x16
    ensures { (k : ℕ) → k < 16 → slice_index result k ≡ slice_index rom.now (16 * code + k) }
{
    let start = 16 * code as usize;
    u8x16::from_slice(&rom[start..])
}

/// The pixel values on a pair of the lines of a tile that has these bytes, one after the other.
#[inline]
fn tile_values(bytes: u8x16, pair: u8) -> u8x16
    requires { pair < 4 }
    ensures { (k : ℕ) → k < 16 → slice_index result k
        ≡ pixel_value (slice_index bytes (2 * pair + k / 8 + (if nat_lt (k % 8) 4 then 8 else 0)))
        k }
{
    values(picked(bytes, tile_places(pair)))
}

/// The place in the ROM of the byte that has pixel (x, y) of a sprite.
#[inline(always)]
fn pixel_place(code: u8, x: usize, y: u8) -> usize
    requires code { code < sprites_proofs.sprite_codes }
    requires y { y < 16 }
    ensures place { result ≡ 64 * code + sprite.pixel_byte_index x y }
    ensures inside { result < sprites_proofs.sprite_rom_size }
{
    64 * code as usize + 8 * ((x / 4 + 1) % 4) + (y % 8) as usize + 32 * (y / 8) as usize
}

/// The bytes that have the pixels on line y of a sprite, from left to right.
#[inline]
fn sprite_bytes(rom: &[u8; 4096], code: u8, y: u8) -> [u8; 16]
    requires code { code < sprites_proofs.sprite_codes }
    requires y { y < 16 }
    ensures { (x : ℕ) → x < 16 → slice_index result x
        ≡ slice_index rom.now (64 * code + sprite.pixel_byte_index x y) }
{
    let mut bytes = [0; 16];
    for x in 0..16usize {
        bytes[x] = rom[pixel_place(code, x, y)];
    }
    bytes
}

/// The pixel values on line y of a sprite.
#[inline]
fn sprite_values(rom: &[u8; 4096], code: u8, y: u8) -> u8x16
    requires code { code < sprites_proofs.sprite_codes }
    requires y { y < 16 }
    ensures { result ≡ sprite_values rom.now code y }
{
    values(u8x16::from_array(sprite_bytes(rom, code, y)))
}

/// A colour's number of each pixel value: the first four of sixteen.
#[inline]
fn numbers(lookup: &[u8; 256], colour: u8) -> u8x16
    ensures { AreNumbersOf lookup.now colour result }
{
    let start = 4 * (colour % 32) as usize;
    u8x16::from_slice(&lookup[start..]) & u8x16::splat(15)
}

/// The colour numbers of a tile: its lines two by two, the two of a pair one after the other.
pub(crate) type TilePattern = [[u8; 16]; 4];

/// The ROMs that pictures are drawn from. Clauses see their bytes.
#[derive(Drop)]
pub struct Graphics {
    tiles: [u8; 4096],
    sprites: [u8; 4096],
    lookup: [u8; 256],
}

impl Model for Graphics {
    ghost use Rattle.pac_picture.specs.Picture.{VideoRoms};
    ghost use Rattle.pac_picture.specs.LayerProofs.{AreSized};

    ghost Value = { VideoRoms };

    ghost view = { λ graphics. record { tiles = graphics.tiles; sprites = graphics.sprites; lookup = graphics.lookup } };

    ghost invariant = { λ graphics. AreSized (record {
      tiles = graphics.tiles;
      sprites = graphics.sprites;
      lookup = graphics.lookup;
    }) };
}

impl Graphics {
    /// The graphics of a tile ROM, a sprite ROM and a lookup PROM.
    #[inline(always)]
    pub fn new(tiles: &[u8; 4096], sprites: &[u8; 4096], lookup: &[u8; 256]) -> Graphics
        ensures { result ≡ record {
          tiles = tiles.now;
          sprites = sprites.now;
          lookup = lookup.now;
        } }
    {
        Graphics {
            tiles: copied(tiles),
            sprites: copied(sprites),
            lookup: copied(lookup),
        }
    }

    /// Graphics of zeros, over which others are put.
    #[tactic(auto, unfolding(crate::specs::LayerProofs::zero_roms))]
    pub(crate) fn zeroed() -> Graphics
        ensures { result ≡ zero_roms }
    {
        Graphics {
            tiles: [0; 4096],
            sprites: [0; 4096],
            lookup: [0; 256],
        }
    }

    /// Becomes the graphics of these ROMs, in place.
    pub(crate) fn put(&mut self, tiles: &[u8; 4096], sprites: &[u8; 4096], lookup: &[u8; 256])
        ensures { self.new ≡ record {
          tiles = tiles.now;
          sprites = sprites.now;
          lookup = lookup.now;
        } }
    {
        self.tiles = copied(tiles);
        self.sprites = copied(sprites);
        self.lookup = copied(lookup);
    }

    /// The colour numbers of a tile in a colour.
    #[inline]
    pub(crate) fn pattern(&self, colour: u8, code: u8) -> TilePattern
        ensures { result ≡ tile_pairs self.now colour code }
    {
        let numbers = numbers(&self.lookup, colour);
        let bytes = tile_bytes(&self.tiles, code);
        let mut lines = [[0; 16]; 4];
        for pair in 0..4u8 {
            lines[pair as usize] = picked(numbers, tile_values(bytes, pair)).to_array();
        }
        lines
    }

    /// The colour numbers on line y of a sprite, 0 to 63, in a colour.
    #[inline]
    pub(crate) fn sprite_line(&self, colour: u8, code: u8, y: u8) -> [u8; 16]
        requires code { code < sprites_proofs.sprite_codes }
        requires y { y < 16 }
        ensures { result ≡ tabulate 16 (λ x. sprite_number self.now colour code x y) }
    {
        picked(
            numbers(&self.lookup, colour),
            sprite_values(&self.sprites, code, y),
        )
        .to_array()
    }
}
