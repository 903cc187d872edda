//! The layer of tiles: for each row of cells the bytes that it was last drawn from, and one row as it was drawn.

ghost use Rattle.std.specs.Prelude.{◌≡◌, ◌<◌, ◌≤◌, ◌-◌, ◌/◌, ◌%◌, ◌==◌, ◌||◌, ℕ, true};
ghost use Rattle.std.specs.Prelude.{false, not, if◌then◌else◌, [], length, map, count_by};
ghost use Rattle.std.specs.Prelude.{slice_index, slice_index_or, slice_set};
ghost use Rattle.pac_num.specs.Tabulate.{tabulate};
ghost use Rattle.pac_tiles.specs.Tiles as tile;
ghost use Rattle.pac_tiles.specs.TilesLaws as tiles_laws;
ghost use Rattle.pac_picture.specs.Layer.{cells_of, cell_differs, differing_cells, differing_in};
ghost use Rattle.pac_picture.specs.Layer.{drawn_from, shadow_at};
ghost use Rattle.pac_picture.specs.Layer.{shadow_from};
ghost use Rattle.pac_picture.specs.LayerProofs.{IsDrawn, kept_dot, made_stale, stale_rows};
ghost use Rattle.pac_picture.specs.LayerProofs.{zero_roms};
ghost use Rattle.pac_picture.specs.Layer.{all_differing};

use crate::graphics::Graphics;
use crate::laws::changed;
use crate::screen::Screen;
use crate::shadow::Shadow;
use crate::size::{COLUMNS, ROWS, RowBytes, WIDTH, repeated};
use crate::strip::{PLACES, RowLines, draw_all, lay_line, marked, redraw};
use std::marker::Model;

/// For each cell of a row whether one of two lists has the place.
#[inline]
fn either(one: &[bool; COLUMNS], other: &[bool; COLUMNS]) -> [bool; COLUMNS]
    ensures { (k : ℕ) → k < tiles_laws.columns → slice_index_or result k false
        ≡ (slice_index_or one.now k false || slice_index_or other.now k false) }
{
    let mut any = [false; COLUMNS];
    for k in 0..COLUMNS {
        any[k] = one[k] || other[k];
    }
    any
}

/// At which cells of a row the bytes differ from those that were there.
#[inline]
fn differing_bytes(bytes: &RowBytes, shadow: &RowBytes) -> [bool; COLUMNS]
    ensures { (k : ℕ) → k < tiles_laws.columns → slice_index_or result k false
        ≡ not (slice_index bytes.now k == slice_index shadow.now k) }
{
    let mut differ = [false; COLUMNS];
    changed(bytes, shadow, &mut differ);
    differ
}

/// Which cells of a row differ from these bytes, where not all of them do.
#[inline]
fn differing(shadow: &Shadow, tiles: &RowBytes, colours: &RowBytes) -> [bool; COLUMNS]
    requires { shadow.now.is_drawn ≡ true }
    ensures { (column : ℕ) → column < tiles_laws.columns → slice_index_or result column false
        ≡ cell_differs shadow.now tiles.now colours.now column }
{
    either(
        &differing_bytes(tiles, &shadow.tiles),
        &differing_bytes(colours, &shadow.colours),
    )
}

/// How many cells of a row differ from these bytes.
fn differing_count(shadow: &Shadow, tiles: &RowBytes, colours: &RowBytes) -> u32
    ensures count { result ≡ differing_cells shadow.now tiles.now colours.now }
    ensures bound { result ≤ tiles_laws.columns }
{
    if !shadow.is_drawn {
        return COLUMNS as u32;
    }
    marked(&differing(shadow, tiles, colours))
}

/// Draws those cells of a row again that differ from these bytes, looking at each of them, and all of a row of which none is known to be
/// drawn; says how many differ.
#[inline]
fn refresh_cells(
    lines: &mut RowLines,
    shadow: &mut Shadow,
    graphics: &Graphics,
    tiles: &RowBytes,
    colours: &RowBytes,
) -> u32
    requires drawn { IsDrawn graphics.now shadow.old lines.old }
    ensures drawn { IsDrawn graphics.now shadow.new lines.new }
    ensures shadow { shadow.new ≡ shadow_from tiles.now colours.now }
    ensures count { result ≡ differing_cells shadow.old tiles.now colours.now }
    ensures bound { result ≤ tiles_laws.columns }
{
    let differing = draw_differing(lines, shadow, graphics, tiles, colours);
    shadow.take(tiles, colours);
    differing
}

/// The same, and leaves the shadow.
#[inline]
fn draw_differing(
    lines: &mut RowLines,
    shadow: &Shadow,
    graphics: &Graphics,
    tiles: &RowBytes,
    colours: &RowBytes,
) -> u32
    requires drawn { IsDrawn graphics.now shadow.now lines.old }
    ensures drawn { IsDrawn graphics.now (shadow_from tiles.now colours.now) lines.new }
    ensures count { result ≡ differing_cells shadow.now tiles.now colours.now }
    ensures bound { result ≤ tiles_laws.columns }
{
    if !shadow.is_drawn {
        draw_all(lines, graphics, tiles, colours);
        return COLUMNS as u32;
    }
    let mask = differing(shadow, tiles, colours);
    redraw(lines, graphics, tiles, colours, &mask);
    marked(&mask)
}

/// Takes the bytes of a row whose lines aren't there, to be drawn later, and says how many cells differ from those that it had.
#[inline]
fn take_cells(shadow: &mut Shadow, tiles: &RowBytes, colours: &RowBytes) -> u32
    ensures shadow { shadow.new ≡ shadow_from tiles.now colours.now }
    ensures count { result ≡ differing_cells shadow.old tiles.now colours.now }
    ensures bound { result ≤ tiles_laws.columns }
{
    let differing = differing_count(shadow, tiles, colours);
    shadow.take(tiles, colours);
    differing
}

/// Draws a row from the bytes that it has, unless its lines are those that are kept, and keeps them.
#[inline(always)]
fn keep(row: u8, kept: &mut u8, lines: &mut RowLines, shadow: &Shadow, graphics: &Graphics)
    requires { kept.old ≡ row → IsDrawn graphics.now shadow.now lines.old }
    ensures row { kept.new ≡ row }
    ensures drawn { IsDrawn graphics.now shadow.now lines.new }
{
    if *kept != row {
        draw_all(lines, graphics, &shadow.tiles, &shadow.colours);
        *kept = row;
    }
}

/// Makes every cell of some rows count as differing.
#[inline]
fn make_stale(shadows: &mut [Shadow])
    ensures { shadows.new ≡ map made_stale shadows.old }
{
    for shadow in shadows.iter_mut() {
        shadow.set_stale();
    }
}

/// Fills a line with line y of the picture's cells, of a row of these tiles and colours, which are drawn for it alone.
#[inline(never)]
fn lay_bytes(
    graphics: &Graphics,
    tiles: &RowBytes,
    colours: &RowBytes,
    y: u8,
    out: &mut [u8; WIDTH],
)
    ensures { out.new ≡ tabulate tile.width (λ x.
        kept_dot graphics.now (shadow_from tiles.now colours.now) x y) }
{
    let mut lines = [[[0; 16]; PLACES]; 8];
    draw_all(&mut lines, graphics, tiles, colours);
    lay_line(&lines, y % 8, out);
}

/// Fills a line with line y of the picture's cells, which are drawn for it alone.
pub(crate) fn lay_alone(graphics: &Graphics, screen: &Screen<'_>, y: u8, out: &mut [u8; WIDTH])
    requires { y < tile.height }
    ensures { out.new ≡ tabulate tile.width (λ x.
        kept_dot graphics.now (drawn_from screen.now (y / 8)) x y) }
{
    let row = y / 8;
    let tiles = screen.tiles(row);
    let colours = screen.colours(row);
    lay_bytes(graphics, &tiles, &colours, y, out);
}

/// A row of the layer. The type of its lines is a parameter, since no rule of the borrow checker covers a literal of a struct with an array
/// of arrays.
#[derive(Clone, Copy)]
pub(crate) struct Strip<R> {
    /// The lines of its cells as they were last drawn.
    pub(crate) lines: R,
}

impl<R> Strip<R> {
    /// The row of these lines.
    #[inline(always)]
    fn of(lines: R) -> Strip<R>
        ensures { result ≡ record { lines = lines } }
    {
        Strip { lines }
    }
}

/// The layer of tiles. Clauses see the ROMs that it is drawn from, and the bytes that its rows were last drawn from. Of one row the lines are
/// kept: of whichever a line was last taken from.
#[derive(Drop)]
pub(crate) struct Layer {
    graphics: Graphics,
    kept: Strip<RowLines>,
    row: u8,
    shadows: [Shadow; ROWS as usize],
}

impl Model for Layer {
    ghost use Rattle.pac_picture.specs.LayerProofs.{LayerState, IsLayer};

    ghost Value = { LayerState };

    ghost view = { λ layer. record { roms = layer.graphics; shadows = layer.shadows } };

    ghost invariant = { λ layer. IsLayer layer.graphics layer.shadows layer.row layer.kept };
}

impl Layer {
    /// A layer of which nothing is drawn.
    #[inline(always)]
    pub(crate) fn new(graphics: Graphics) -> Layer
        ensures { result ≡ record { roms = graphics; shadows = stale_rows } }
    {
        Layer {
            graphics,
            kept: Strip::of([[[0; 16]; PLACES]; 8]),
            row: ROWS,
            shadows: repeated(Shadow::new()),
        }
    }

    /// A layer of ROMs of zeros, of which nothing is drawn.
    pub(crate) fn zeroed() -> Layer
        ensures { result ≡ record { roms = zero_roms; shadows = stale_rows } }
    {
        Layer {
            graphics: Graphics::zeroed(),
            kept: Strip::of([[[0; 16]; PLACES]; 8]),
            row: ROWS,
            shadows: repeated(Shadow::new()),
        }
    }

    /// Takes other ROMs; every cell counts as differing then.
    pub(crate) fn put_roms(&mut self, tiles: &[u8; 4096], sprites: &[u8; 4096], lookup: &[u8; 256])
        ensures layer { self.new ≡ record {
          roms = record { tiles = tiles.now; sprites = sprites.now; lookup = lookup.now };
          shadows = map made_stale self.old.shadows;
        } }
        ensures high { length self.old.shadows ≡ tiles_laws.rows }
    {
        self.graphics.put(tiles, sprites, lookup);
        make_stale(&mut self.shadows);
    }

    /// The ROMs.
    #[inline]
    pub(crate) fn graphics(&self) -> &Graphics
        ensures { result.now ≡ self.now.roms }
    {
        &self.graphics
    }

    /// Makes every cell count as differing.
    pub(crate) fn set_stale(&mut self)
        ensures layer { self.new ≡ record self.old { shadows = map made_stale self.old.shadows } }
        ensures high { length self.old.shadows ≡ tiles_laws.rows }
    {
        make_stale(&mut self.shadows);
    }

    /// Brings a row to what the screen has, and says how many of its cells differ: none, as for most rows, where it was drawn from what is
    /// there now.
    #[inline]
    pub(crate) fn refresh(&mut self, row: u8, screen: &Screen<'_>) -> u32
        requires { row < tiles_laws.rows }
        ensures layer { self.new ≡ record self.old
            { shadows = slice_set self.old.shadows row (drawn_from screen.now row) } }
        ensures count { result ≡ differing_in self.old.shadows screen.now row }
        ensures bound { result ≤ tiles_laws.columns }
        ensures high { length self.old.shadows ≡ tiles_laws.rows }
    {
        if screen.is_drawn_in(&self.shadows[row as usize], row) {
            return 0;
        }
        self.redraw_row(row, screen)
    }

    /// The same, looking at each of the cells. Those that differ are drawn now if the row's lines are kept, and else once a line is taken.
    #[inline(never)]
    fn redraw_row(&mut self, row: u8, screen: &Screen<'_>) -> u32
        requires { row < tiles_laws.rows }
        ensures layer { self.new ≡ record self.old
            { shadows = slice_set self.old.shadows row (drawn_from screen.now row) } }
        ensures count { result ≡ differing_in self.old.shadows screen.now row }
        ensures bound { result ≤ tiles_laws.columns }
        ensures high { length self.old.shadows ≡ tiles_laws.rows }
    {
        let tiles = screen.tiles(row);
        let colours = screen.colours(row);
        let shadow = &mut self.shadows[row as usize];
        if self.row != row {
            return take_cells(shadow, &tiles, &colours);
        }
        let lines = &mut self.kept.lines;
        refresh_cells(lines, shadow, &self.graphics, &tiles, &colours)
    }

    /// Brings all rows to what the screen has, and says how many cells differ.
    pub(crate) fn refresh_all(&mut self, screen: &Screen<'_>) -> u32
        ensures layer { self.new ≡ record self.old
            { shadows = tabulate tiles_laws.rows (drawn_from screen.now) } }
        ensures count { result ≡ all_differing self.old.shadows screen.now }
    {
        let mut drawn = 0;
        for row in 0..ROWS {
            drawn += self.refresh(row, screen);
        }
        drawn
    }

    /// Fills a line with line y of the picture's cells, whose row was drawn. Unless it's the row that the last line was taken from, its cells
    /// are drawn now.
    #[inline]
    pub(crate) fn line(&mut self, y: u8, out: &mut [u8; WIDTH])
        requires y { y < tile.height }
        requires drawn { (shadow_at self.old.shadows (y / 8)).is_drawn ≡ true }
        ensures same { self.new ≡ self.old }
        ensures line { out.new ≡ tabulate tile.width
            (λ x. kept_dot self.old.roms (shadow_at self.old.shadows (y / 8)) x y) }
    {
        let row = y / 8;
        let lines = &mut self.kept.lines;
        keep(
            row,
            &mut self.row,
            lines,
            &self.shadows[row as usize],
            &self.graphics,
        );
        lay_line(lines, y % 8, out);
    }
}
