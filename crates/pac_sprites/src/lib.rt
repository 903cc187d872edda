//! Sprites of the picture: the pixels of a sprite, what its bytes say, and the places that it covers.
#![tactic(auto)]

ghost use Rattle.std.specs.Prelude.{◌≡◌, ◌<◌, ◌≤◌, ◌≤ℤ◌, ◌+ℤ◌, ℕ, pos, negsuc, nat_le, nat_lt};
ghost use Rattle.std.specs.Prelude.{◌&&◌, length, slice_index, EachIndex};
ghost use Rattle.std.specs.Prelude.{Some, None, true, if◌then◌else◌, IfSome, is_some};
ghost use Rattle.std.specs.Int.Signed.{le_z};
ghost use Rattle.pac_sprites.specs.Sprites as sprites;
ghost use Rattle.pac_sprites.specs.SpritesProofs as sprites_proofs;

use pac_num::{bit, pixel_value};
use std::ops::Range;

/// The first column of the picture at which sprites show.
const FIRST_COLUMN: u16 = 16;

/// The first column after those at which sprites show.
const END_COLUMN: u16 = 272;

/// The value, 0 to 3, of pixel (x, y) of a sprite, 0 to 63, of the sprite ROM's 4,096 bytes.
#[inline]
pub fn pixel(rom: &[u8], code: u8, x: u8, y: u8) -> u8
    requires rom { length rom.now ≡ sprites_proofs.sprite_rom_size }
    requires code { code < sprites_proofs.sprite_codes }
    requires x { x < sprites.sprite_side }
    requires y { y < sprites.sprite_side }
    ensures value { result ≡ sprites.sprite_pixel rom.now code x y }
    ensures below { result < 4 }
{
    let quarter = 8 * ((x / 4 + 1) % 4);
    let line = y % 8 + 32 * (y / 8);
    pixel_value(rom[64 * code as usize + (quarter + line) as usize], x)
}

/// The column or the line of a sprite that stands at a place of its box, with its flip.
#[inline]
fn flipped(flip: bool, place: u8) -> u8
    requires { place < sprites.sprite_side }
    ensures value { result ≡ sprites.flipped_place flip place }
    ensures below { result < sprites.sprite_side }
{
    if flip { 15 - place } else { place }
}

/// How far a place of the picture is from the first of a box, where it is one of the box's 16.
#[inline]
fn place_within(first: i16, place: u16) -> Option<u8>
    ensures value { result ≡
        (if sprites.is_in_box first place then Some (sprites.box_place first place) else None) }
    ensures below { IfSome result (λ within. within < sprites.sprite_side) }
{
    let within = i32::from(place) - i32::from(first);
    if 0 <= within && within < 16 {
        Some(within as u8)
    } else {
        None
    }
}

/// The first column at which sprites show that is not left of a place, or the end of those columns.
#[inline]
fn column_from(place: i32) -> u16
    ensures first { (x : ℕ) → sprites.first_column ≤ x → x < sprites.end_column →
        nat_le result x ≡ le_z place (pos x) }
    ensures low { sprites.first_column ≤ result }
    ensures high { result ≤ sprites.end_column }
{
    if place < i32::from(FIRST_COLUMN) {
        FIRST_COLUMN
    } else if place < i32::from(END_COLUMN) {
        place as u16
    } else {
        END_COLUMN
    }
}

/// What the bytes of one of the eight sprites say. A sprite is 16 by 16 pixels.
#[derive(Clone, Copy, PartialEq, Eq)]
pub struct Sprite {
    /// Which sprite of the sprite ROM, 0 to 63.
    pub code: u8,
    /// Whether left and right are swapped.
    pub flip_x: bool,
    /// Whether top and bottom are swapped.
    pub flip_y: bool,
    /// The colour, 0 to 31.
    pub colour: u8,
    /// The column of the picture of its leftmost pixels, 17 to 272.
    pub left: i16,
    /// The line of the picture of its topmost pixels, -31 to 224.
    pub top: i16,
}

impl Sprite {
    /// The sprite of its two attribute bytes (4FF0H and 4FF1H for the first sprite) and its two coordinate bytes
    /// (5060H and 5061H for the first), in the order of their addresses.
    #[inline]
    pub fn of(attributes: [u8; 2], coordinates: [u8; 2]) -> Sprite
        ensures sprite { result ≡ sprites.sprite_of (slice_index attributes 0)
            (slice_index attributes 1)
            (slice_index coordinates 0) (slice_index coordinates 1) }
        ensures code { result.code < sprites_proofs.sprite_codes }
        ensures colour { result.colour < sprites.sprite_colours }
        // -31 to 224
        ensures top { (negsuc 30 ≤ℤ result.top) × (result.top ≤ℤ pos 224) }
        ensures left { (pos 17 ≤ℤ result.left) × (result.left ≤ℤ pos 272) }
    {
        let [shape, colour] = attributes;
        let [line, column] = coordinates;
        Sprite {
            code: shape / 4,
            flip_x: bit(shape, 0) == 1,
            flip_y: bit(shape, 1) == 1,
            colour: colour % 32,
            left: 272 - i16::from(column),
            top: i16::from(line) - 31,
        }
    }

    /// Whether the sprite shows at (x, y) of the picture: its box covers the place, and x is in 16 to 271.
    #[inline]
    pub fn covers(&self, x: u16, y: u8) -> bool
        ensures { result ≡ sprites.covers_of self.now x y }
    {
        FIRST_COLUMN <= x
            && x < END_COLUMN
            && place_within(self.left, x).is_some()
            && place_within(self.top, u16::from(y)).is_some()
    }

    /// The value, 0 to 3, that the sprite has at (x, y) of the picture, where it shows there.
    #[inline]
    pub fn pixel(&self, rom: &[u8], x: u16, y: u8) -> Option<u8>
        requires rom { length rom.now ≡ sprites_proofs.sprite_rom_size }
        requires code { self.now.code < sprites_proofs.sprite_codes }
        ensures value { result ≡ sprites_proofs.dot_of rom.now self.now x y }
        ensures below { IfSome result (λ value. value < 4) }
    {
        if x < FIRST_COLUMN || END_COLUMN <= x {
            return None;
        }
        let across = place_within(self.left, x)?;
        let down = place_within(self.top, u16::from(y))?;
        Some(self.boxed(rom, across, down))
    }

    /// The columns of the picture at which the sprite shows, on each line that it covers.
    #[inline]
    pub fn columns(&self) -> Range<u16>
        ensures columns { (x : ℕ) →
            sprites.is_column_of self.now x ≡ (nat_le result.start x && nat_lt x result.end) }
        ensures ordered { result.start ≤ result.end }
        ensures start { sprites.first_column ≤ result.start }
        ensures end { result.end ≤ sprites.end_column }
        // where there are any, they are columns of the sprite's box
        ensures boxed { result.start < result.end →
            (self.now.left ≤ℤ pos result.start)
            × (pos result.end ≤ℤ (self.now.left +ℤ pos sprites.sprite_side)) }
    {
        let left = i32::from(self.left);
        column_from(left)..column_from(left + 16)
    }

    /// Which line of the sprite's pixels shows on line y of the picture, where its box covers that line.
    #[inline]
    pub fn line_at(&self, y: u8) -> Option<u8>
        ensures line { result ≡ (if sprites.is_in_box self.now.top y
            then Some (sprites.flipped_place self.now.flip_y (sprites.box_place self.now.top y))
            else None) }
        ensures below { IfSome result (λ line. line < sprites.sprite_side) }
    {
        let down = place_within(self.top, u16::from(y))?;
        Some(flipped(self.flip_y, down))
    }

    /// Which column of the sprite's pixels shows in column x of the picture, one at which the sprite shows.
    #[inline]
    pub fn column_at(&self, x: u16) -> u8
        requires { sprites.is_column_of self.now x ≡ true }
        ensures column { result ≡ sprites.flipped_place self.now.flip_x
            (sprites.box_place self.now.left x) }
        ensures below { result < sprites.sprite_side }
    {
        flipped(self.flip_x, (i32::from(x) - i32::from(self.left)) as u8)
    }

    /// The values, 0 to 3, of the 16 pixels that the sprite has on line y of the picture, from left to right, where
    /// it covers that line; its columns may lie outside the picture.
    pub fn line(&self, rom: &[u8], y: u8) -> Option<[u8; 16]>
        requires rom { length rom.now ≡ sprites_proofs.sprite_rom_size }
        requires code { self.now.code < sprites_proofs.sprite_codes }
        ensures covered { is_some result ≡ sprites.is_in_box self.now.top y }
        ensures values { IfSome result (λ values. EachIndex values (λ across.
            slice_index values across ≡ sprites_proofs.boxed_of rom.now self.now across
            (sprites.box_place self.now.top y))) }
        ensures below { IfSome result (λ values.
            EachIndex values (λ across. slice_index values across < 4)) }
    {
        let down = place_within(self.top, u16::from(y))?;
        Some(self.boxed_line(rom, down))
    }

    /// The values of a line of the sprite's box.
    fn boxed_line(&self, rom: &[u8], down: u8) -> [u8; 16]
        requires rom { length rom.now ≡ sprites_proofs.sprite_rom_size }
        requires code { self.now.code < sprites_proofs.sprite_codes }
        requires down { down < sprites.sprite_side }
        ensures values { EachIndex result (λ across.
            slice_index result across ≡ sprites_proofs.boxed_of rom.now self.now across down) }
        ensures below { EachIndex result (λ across. slice_index result across < 4) }
    {
        let mut values = [0; 16];
        for across in 0..16u8 {
            values[across as usize] = self.boxed(rom, across, down);
        }
        values
    }

    /// The value of the pixel at a column and a line of the sprite's box.
    #[inline]
    fn boxed(&self, rom: &[u8], across: u8, down: u8) -> u8
        requires rom { length rom.now ≡ sprites_proofs.sprite_rom_size }
        requires code { self.now.code < sprites_proofs.sprite_codes }
        requires across { across < sprites.sprite_side }
        requires down { down < sprites.sprite_side }
        ensures value { result ≡ sprites_proofs.boxed_of rom.now self.now across down }
        ensures below { result < 4 }
    {
        pixel(
            rom,
            self.code,
            flipped(self.flip_x, across),
            flipped(self.flip_y, down),
        )
    }
}
