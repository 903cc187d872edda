//! The lines of a picture that stay: beside each line the sprites that it was composed with, so that it is composed again only where
//! something on it has changed.

ghost use Rattle.std.specs.Prelude.{◌≡◌, ◌<◌, ◌/◌, ℕ, true, false, slice_index_or, slice_set};
ghost use Rattle.pac_tiles.specs.Tiles as tile;
ghost use Rattle.pac_tiles.specs.TilesLaws as tiles_laws;
ghost use Rattle.pac_picture.specs.Picture.{sprite_at};
ghost use Rattle.pac_picture.specs.CleanLines.{AreSameOn, seen_sprite, sprites_at};

use crate::screen::Screen;
use crate::size::{HEIGHT, repeated};

/// The bytes of the eight sprites, two of attributes and two of coordinates for each.
#[derive(Clone, Copy)]
pub(crate) struct SpriteBytes {
    pub(crate) attributes: [u8; 16],
    pub(crate) coordinates: [u8; 16],
}

impl SpriteBytes {
    /// Bytes of 0.
    fn new() -> SpriteBytes {
        SpriteBytes {
            attributes: [0; 16],
            coordinates: [0; 16],
        }
    }
}

/// Which lines are clean, counted in the picture that isn't flipped, whether they are shown flipped, and the sprites that each of them was
/// composed with.
#[derive(Drop)]
pub(crate) struct Clean {
    pub(crate) lines: [bool; HEIGHT as usize],
    pub(crate) flip: bool,
    pub(crate) sprites: [SpriteBytes; HEIGHT as usize],
}

impl Clean {
    /// No line.
    #[inline(always)]
    pub(crate) fn none() -> Clean
        ensures { (line : ℕ) → slice_index_or result.lines line false ≡ false }
    {
        Clean {
            lines: [false; HEIGHT as usize],
            flip: false,
            sprites: repeated(SpriteBytes::new()),
        }
    }

    /// Forgets all lines.
    pub(crate) fn clear(&mut self)
        ensures lines { (line : ℕ) → slice_index_or self.new.lines line false ≡ false }
        ensures flip { self.new.flip ≡ self.old.flip }
        ensures sprites { self.new.sprites ≡ self.old.sprites }
    {
        self.lines = [false; HEIGHT as usize];
    }

    /// Whether a line stays as it was composed: it is clean, and the sprites on it are those with which it was composed.
    #[inline]
    pub(crate) fn stays(&self, line: u8, screen: &Screen<'_>) -> bool
        requires { line < tile.height }
        ensures clean { result ≡ true → slice_index_or self.now.lines line false ≡ true }
        ensures sprites { result ≡ true → (k : ℕ) → k < 8 →
            AreSameOn line (seen_sprite (sprites_at self.now.sprites line) k)
            (sprite_at screen.now k) }
    {
        self.lines[line as usize] && screen.has_sprites_on(line, self.sprites_of(line))
    }

    /// The sprites that a line was composed with.
    #[inline(always)]
    fn sprites_of(&self, line: u8) -> &SpriteBytes
        requires { line < tile.height }
        ensures { result.now ≡ sprites_at self.now.sprites line }
    {
        &self.sprites[line as usize]
    }

    /// Takes a line that is composed with these sprites.
    #[inline]
    pub(crate) fn take(&mut self, line: u8, sprites: SpriteBytes)
        requires { line < tile.height }
        ensures lines { self.new.lines ≡ slice_set self.old.lines line true }
        ensures flip { self.new.flip ≡ self.old.flip }
        ensures sprites { self.new.sprites ≡ slice_set self.old.sprites line sprites }
    {
        self.lines[line as usize] = true;
        self.sprites[line as usize] = sprites;
    }

    /// Forgets all lines where the picture is flipped now and wasn't, or the other way round.
    #[inline]
    pub(crate) fn turn(&mut self, flip: bool)
        ensures flip { self.new.flip ≡ flip }
        ensures lines { (line : ℕ) → slice_index_or self.new.lines line false ≡ true →
            (self.old.flip ≡ flip) × (slice_index_or self.old.lines line false ≡ true) }
        ensures sprites { self.new.sprites ≡ self.old.sprites }
    {
        if self.flip != flip {
            self.clear();
            self.flip = flip;
        }
    }

    /// Forgets the eight lines of a row of cells where some of its cells were drawn again.
    #[inline]
    pub(crate) fn redrawn(&mut self, row: u8, cells: u32)
        requires { row < tiles_laws.rows }
        ensures flip { self.new.flip ≡ self.old.flip }
        ensures lines { (line : ℕ) → slice_index_or self.new.lines line false ≡ true →
            slice_index_or self.old.lines line false ≡ true }
        ensures row { (line : ℕ) → slice_index_or self.new.lines line false ≡ true →
            line / 8 ≡ row → cells ≡ 0 }
        ensures sprites { self.new.sprites ≡ self.old.sprites }
    {
        if cells != 0 {
            forget(&mut self.lines, row);
        }
    }
}

/// Forgets the eight lines of a row of cells.
fn forget(lines: &mut [bool; HEIGHT as usize], row: u8)
    requires { row < tiles_laws.rows }
    ensures lines { (line : ℕ) → slice_index_or lines.new line false ≡ true →
        slice_index_or lines.old line false ≡ true }
    ensures row { (line : ℕ) → line / 8 ≡ row → slice_index_or lines.new line false ≡ false }
{
    let first = 8 * row as usize;
    lines[first..first + 8].fill(false);
}
