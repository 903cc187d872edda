//! The picture as a board keeps it.

ghost use Rattle.std.specs.Prelude.{◌≡◌, ◌<◌, ◌≤◌, ◌-◌, ◌/◌, ◌↔◌, [], true, false, length, map};
ghost use Rattle.std.specs.Prelude.{if◌then◌else◌};
ghost use Rattle.std.specs.Prelude.{replicate};
ghost use Rattle.std.specs.Prelude.{slice_index, slice_index_or, slice_set, EachIndex};
ghost use Rattle.pac_tiles.specs.Tiles as tile;
ghost use Rattle.pac_tiles.specs.TilesLaws as tiles_laws;
ghost use Rattle.pac_colour.specs.Colours as colour;
ghost use Rattle.pac_picture.specs.CleanLines.{MarksClean, StayClean};
ghost use Rattle.pac_picture.specs.Layer.{AreStale, cell_differs, shadow_at, cells_of};
ghost use Rattle.pac_picture.specs.Layer.{differing_in, drawn_from};
ghost use Rattle.pac_picture.specs.Picture.{picture_line};
ghost use Rattle.pac_picture.specs.LayerProofs.{made_stale, stale_rows, zero_roms};
ghost use Rattle.pac_picture.specs.State.{IsPicture, black, palette_of};
ghost use Rattle.pac_picture.specs.StateLaws.{composed_picture, picture_with_line};
ghost use Rattle.pac_picture.specs.PictureProofs.{lines_composed};
ghost use Rattle.pac_picture.specs.StateLaws.{source_of};

use crate::clean::Clean;
use crate::graphics::Graphics;
use crate::layer::Layer;
use crate::lines::Lines;
use crate::packed::PackedLines;
use crate::raw::RawLines;
use crate::screen::Screen;
use crate::size::ROWS;
use pac_colour::rgb;
use std::marker::Model;

/// The picture, with the layer through which it is composed. Clauses see its ROMs, its palette, its lines, the
/// shadows of the layer's rows and the count of cells that the last composing drew.
#[derive(Drop)]
pub struct Picture {
    // (the lines before what has odd sizes, so that they lie where sixteen divides in a board, and vectors are written whole)
    lines: Lines,
    layer: Layer,
    palette: [[u8; 3]; 16],
    clean: Clean,
    drawn: u32,
}

impl Model for Picture {
    ghost use Rattle.std.specs.Prelude.{◌≡◌, length};
    ghost use Rattle.pac_colour.specs.Colours.{numbers};
    ghost use Rattle.pac_picture.specs.StateLaws.{PictureState};
    ghost use Rattle.pac_picture.specs.CleanLines.{MarksClean};

    ghost Value = { PictureState };

    ghost view = { λ picture. record {
      roms = picture.layer.roms;
      palette = picture.palette;
      lines = picture.lines;
      shadows = picture.layer.shadows;
      drawn = picture.drawn;
    } };

    ghost invariant = { λ picture. record {
      colours : length picture.palette ≡ numbers;
      clean : MarksClean picture.clean picture.layer picture.lines;
    } };
}

/// The colours of the 16 colour numbers.
fn palette(colours: &[u8; 32]) -> [[u8; 3]; 16]
    ensures { result ≡ palette_of colours.now }
{
    let mut palette = [[0; 3]; 16];
    for number in 0..16usize {
        palette[number] = rgb(colours[number]);
    }
    palette
}

/// Brings a row to what the screen has, and says how many of its cells differ: where some do, its lines are clean no more.
#[inline(always)]
fn draw_row(row: u8, screen: &Screen<'_>, layer: &mut Layer, clean: &mut Clean) -> u32
    requires { row < tiles_laws.rows }
    ensures layer { layer.new ≡ record layer.old
        { shadows = slice_set layer.old.shadows row (drawn_from screen.now row) } }
    ensures drawn { shadow_at layer.new.shadows row ≡ drawn_from screen.now row }
    ensures count { result ≡ differing_in layer.old.shadows screen.now row }
    ensures flip { clean.new.flip ≡ clean.old.flip }
    ensures clean { StayClean clean.old layer.old clean.new layer.new }
{
    let cells = layer.refresh(row, screen);
    clean.redrawn(row, cells);
    cells
}

/// Draws a row as `draw_row` does, unless it's the one that was drawn from this screen last.
#[inline(always)]
fn draw_other_row(row: u8, last: u8, screen: &Screen<'_>, layer: &mut Layer, clean: &mut Clean)
    requires row { row < tiles_laws.rows }
    requires last { last < tiles_laws.rows → shadow_at layer.old.shadows last
        ≡ drawn_from screen.now last }
    ensures roms { layer.new.roms ≡ layer.old.roms }
    ensures drawn { shadow_at layer.new.shadows row ≡ drawn_from screen.now row }
    ensures flip { clean.new.flip ≡ clean.old.flip }
    ensures clean { StayClean clean.old layer.old clean.new layer.new }
{
    if row != last {
        draw_row(row, screen, layer, clean);
    }
}

/// Composes lines of the shown picture, from one to before another. The cells of a row are compared once for all of its lines.
#[inline(always)]
fn compose_each(
    first: u8,
    end: u8,
    screen: &Screen<'_>,
    layer: &mut Layer,
    lines: &mut Lines,
    clean: &mut Clean,
)
    requires order { first ≤ end }
    requires end { end ≤ tile.height }
    requires clean { MarksClean clean.old layer.old lines.old }
    requires flip { clean.old.flip ≡ screen.now.flip }
    ensures lines { lines.new ≡ lines_composed layer.old.roms screen.now lines.old first (end - first) }
    ensures roms { layer.new.roms ≡ layer.old.roms }
    ensures clean { MarksClean clean.new layer.new lines.new }
{
    // (no row yet: an `Option` would be looked at for each line)
    let mut last = ROWS;
    for y in first..end {
        let row = screen.source(y) / 8;
        draw_other_row(row, last, screen, layer, clean);
        lines.compose_line(y, layer, screen, clean);
        last = row;
    }
}

impl Picture {
    /// A picture of colour number 0 alone, drawn from these ROMs in the colours of a colour PROM, with no cell drawn.
    #[inline(always)]
    pub fn new(graphics: Graphics, colours: &[u8; 32]) -> Picture
        ensures picture { result ≡ record {
          roms = graphics;
          palette = palette_of colours.now;
          lines = black;
          shadows = stale_rows;
          drawn = 0;
        } }
        ensures stale { AreStale result.shadows }
    {
        Picture {
            layer: Layer::new(graphics),
            palette: palette(colours),
            lines: Lines::new(),
            clean: Clean::none(),
            drawn: 0,
        }
    }

    /// A picture of colour number 0 alone, with ROMs and a colour PROM of zeros, over which others are put, and with no cell drawn.
    pub fn zeroed() -> Picture
        ensures picture { result ≡ record {
          roms = zero_roms;
          palette = palette_of (replicate 32 0);
          lines = black;
          shadows = stale_rows;
          drawn = 0;
        } }
        ensures stale { AreStale result.shadows }
    {
        Picture {
            layer: Layer::zeroed(),
            palette: palette(&[0; 32]),
            lines: Lines::new(),
            clean: Clean::none(),
            drawn: 0,
        }
    }

    /// Takes other ROMs and the colours of another colour PROM; every cell counts as differing then.
    #[inline(always)]
    pub fn put_roms(
        &mut self,
        tiles: &[u8; 4096],
        sprites: &[u8; 4096],
        lookup: &[u8; 256],
        colours: &[u8; 32],
    )
        ensures picture { self.new ≡ record self.old {
          roms = record { tiles = tiles.now; sprites = sprites.now; lookup = lookup.now };
          palette = palette_of colours.now;
          shadows = map made_stale self.old.shadows;
        } }
        ensures stale { AreStale self.new.shadows }
    {
        self.clean.clear();
        self.layer.put_roms(tiles, sprites, lookup);
        self.palette = palette(colours);
    }

    /// The lines as they were last composed or taken.
    #[inline]
    pub fn lines(&self) -> &Lines
        ensures { result.now ≡ self.now.lines }
    {
        &self.lines
    }

    /// The 288 colour numbers of line y, 0 to 223.
    #[inline]
    pub fn row(&self, y: u8) -> &[u8]
        requires { y < tile.height }
        ensures line { result.now ≡ slice_index_or self.now.lines y [] }
        ensures size { length result.now ≡ tile.width }
        ensures below { EachIndex result.now (λ x. slice_index result.now x < colour.numbers) }
        ensures picture { IsPicture self.now.lines }
    {
        self.lines.row(y)
    }

    /// Red, green and blue of the 16 colour numbers.
    #[inline]
    pub fn palette(&self) -> &[[u8; 3]]
        ensures palette { result.now ≡ self.now.palette }
        ensures size { length result.now ≡ colour.numbers }
    {
        &self.palette
    }

    /// Red, green and blue of a colour number, 0 to 15.
    #[inline]
    pub fn colour(&self, number: u8) -> [u8; 3]
        requires { number < colour.numbers }
        ensures { result ≡ slice_index_or self.now.palette number [] }
    {
        self.palette[number as usize]
    }

    /// How many cells the last composing of the picture, or of one line, drew, 0 before any.
    #[inline]
    pub fn drawn(&self) -> u32
        ensures { result ≡ self.now.drawn }
    {
        self.drawn
    }

    /// Makes every cell count as differing until it is drawn.
    pub fn set_stale(&mut self)
        ensures picture { self.new ≡ record self.old { shadows = map made_stale self.old.shadows } }
        ensures stale { AreStale self.new.shadows }
    {
        self.layer.set_stale();
    }

    /// Takes the lines of another picture; every cell counts as differing then.
    #[inline(always)]
    pub fn copy_from(&mut self, lines: &RawLines)
        requires { IsPicture lines.now }
        ensures picture { self.new ≡ record self.old
            { lines = lines.now; shadows = map made_stale self.old.shadows } }
        ensures stale { AreStale self.new.shadows }
    {
        self.clean.clear();
        self.lines.copy_from(lines);
        self.layer.set_stale();
    }

    /// Takes lines that are packed; every cell counts as differing then.
    pub fn unpack(&mut self, packed: &PackedLines)
        ensures picture { self.new ≡ record self.old
            { lines = packed.now; shadows = map made_stale self.old.shadows } }
        ensures stale { AreStale self.new.shadows }
    {
        self.clean.clear();
        self.lines.unpack(packed);
        self.layer.set_stale();
    }

    /// Composes the whole picture that the screen shows; `drawn` says then how many of its 1,008 cells differ from what they were last drawn
    /// from.
    pub fn compose(&mut self, screen: &Screen<'_>)
        ensures { self.new ≡ composed_picture screen.now self.old }
    {
        self.clean.clear();
        self.drawn = self.layer.refresh_all(screen);
        self.lines.compose(&mut self.layer, screen);
    }

    /// Composes line y of the picture that the screen shows, 0 to 223, and leaves the others; `drawn` says then how many of the 36 cells of the
    /// row that it shows differ from what they were last drawn from. The line itself stays where neither a cell of this row nor a sprite on it
    /// has changed since it was composed.
    pub fn compose_line(&mut self, y: u8, screen: &Screen<'_>)
        requires { y < tile.height }
        ensures { self.new ≡ picture_with_line y screen.now self.old }
    {
        let row = screen.source(y) / 8;
        self.drawn = draw_row(row, screen, &mut self.layer, &mut self.clean);
        self.clean.turn(screen.flip());
        self.lines
            .compose_line(y, &mut self.layer, screen, &mut self.clean);
    }

    /// Composes lines of the picture that the screen shows, from one to before another, and leaves the others; `drawn` stays.
    pub fn compose_lines(&mut self, first: u8, end: u8, screen: &Screen<'_>)
        requires order { first ≤ end }
        requires end { end ≤ tile.height }
        ensures { self.new ≡ record self.old {
          lines = lines_composed self.old.roms screen.now self.old.lines first (end - first);
          shadows = self.new.shadows;
        } }
    {
        self.clean.turn(screen.flip());
        compose_each(
            first,
            end,
            screen,
            &mut self.layer,
            &mut self.lines,
            &mut self.clean,
        );
    }
}
