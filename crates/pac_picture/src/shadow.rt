//! The bytes that a row of cells was drawn from.

ghost use Rattle.std.specs.Prelude.{◌≡◌};
ghost use Rattle.pac_picture.specs.Layer.{shadow_from};
ghost use Rattle.pac_picture.specs.LayerProofs.{made_stale, stale_row};

use crate::size::{COLUMNS, RowBytes};

/// The shadow of a row of cells: what they were last drawn from.
#[derive(Clone, Copy)]
pub struct Shadow {
    /// The bytes of tile RAM, from left to right.
    pub tiles: RowBytes,
    /// The bytes of colour RAM.
    pub colours: RowBytes,
    /// Whether cells were drawn from these bytes; else every cell counts as differing. (So a shadow of zeros is one of a row that was never
    /// drawn, and a board is made of zeros in few pieces.)
    pub is_drawn: bool,
}

impl Shadow {
    /// The shadow of a row that was never drawn.
    pub(crate) fn new() -> Shadow
        ensures { result ≡ stale_row }
    {
        Shadow {
            tiles: [0; COLUMNS],
            colours: [0; COLUMNS],
            is_drawn: false,
        }
    }

    /// Makes every cell count as differing.
    #[inline(always)]
    pub(crate) fn set_stale(&mut self)
        ensures { self.new ≡ made_stale self.old }
    {
        self.is_drawn = false;
    }

    /// Takes the bytes that cells are drawn from.
    #[inline(always)]
    pub(crate) fn take(&mut self, tiles: &RowBytes, colours: &RowBytes)
        ensures { self.new ≡ shadow_from tiles.now colours.now }
    {
        self.tiles = *tiles;
        self.colours = *colours;
        self.is_drawn = true;
    }
}
