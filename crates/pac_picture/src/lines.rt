//! The lines of a picture, as colour numbers.

ghost use Rattle.std.specs.Prelude.{◌≡◌, ◌<◌, ◌/◌, ◌-◌, ◌↔◌, ℕ, [], true};
ghost use Rattle.std.specs.Prelude.{length, reverse, if◌then◌else◌, slice_index, slice_index_or};
ghost use Rattle.std.specs.Prelude.{slice_set, EachIndex};
ghost use Rattle.pac_num.specs.Tabulate.{tabulate};
ghost use Rattle.pac_tiles.specs.Tiles as tile;
ghost use Rattle.pac_tiles.specs.TilesLaws as tiles_laws;
ghost use Rattle.pac_colour.specs.Colours as colour;
ghost use Rattle.pac_picture.specs.Picture.{picture_line};
ghost use Rattle.pac_picture.specs.PictureLaws.{picture_of};
ghost use Rattle.pac_picture.specs.Layer.{shadow_at, drawn_from};
ghost use Rattle.pac_picture.specs.State.{IsPicture, black};
ghost use Rattle.pac_picture.specs.StateLaws.{source_of};
ghost use Rattle.pac_picture.specs.CleanLines.{MarksClean};

use crate::clean::Clean;
use crate::graphics::Graphics;
use crate::layer::{Layer, lay_alone};
use crate::packed::PackedLines;
use crate::painting::paint_unless_none;
use crate::raw::RawLines;
use crate::screen::Screen;
use crate::size::{HEIGHT, WIDTH, repeated};
use std::marker::Model;

/// Flips a line, or leaves it.
#[inline]
fn turn(out: &mut [u8; WIDTH], flip: bool)
    ensures { out.new ≡ (if flip then reverse out.old else out.old) }
{
    if flip {
        out.reverse();
    }
}

/// Composes line y of the shown picture, through a layer whose row of that line is drawn from the screen.
#[inline]
fn compose_line(layer: &mut Layer, screen: &Screen<'_>, y: u8, out: &mut [u8; WIDTH])
    requires y { y < tile.height }
    requires drawn { shadow_at layer.old.shadows (source_of screen.now y / 8)
        ≡ drawn_from screen.now (source_of screen.now y / 8) }
    ensures layer { layer.new ≡ layer.old }
    ensures line { out.new ≡ picture_line layer.old.roms screen.now y }
{
    let source = screen.source(y);
    layer.line(source, out);
    paint_unless_none(layer.graphics(), screen, source, out);
    turn(out, screen.flip());
}

/// Composes line y of the shown picture, 0 to 223, with no layer beside it: the cells of its row are drawn for this line alone.
pub fn compose_alone(graphics: &Graphics, screen: &Screen<'_>, y: u8, out: &mut [u8; WIDTH])
    requires { y < tile.height }
    ensures { out.new ≡ picture_line graphics.now screen.now y }
{
    let source = screen.source(y);
    lay_alone(graphics, screen, source, out);
    paint_unless_none(graphics, screen, source, out);
    turn(out, screen.flip());
}

/// The 224 lines of a picture, of 288 colour numbers each, from 0 to 15.
#[derive(Drop)]
pub struct Lines {
    lines: [[u8; WIDTH]; HEIGHT as usize],
}

impl Model for Lines {
    ghost use Rattle.std.specs.Prelude.{ℕ, List};
    ghost use Rattle.pac_picture.specs.State.{IsPicture};

    ghost Value = { List (List ℕ) };

    ghost view = { λ picture. picture.lines };

    ghost invariant = { λ picture. IsPicture picture.lines };
}

impl Lines {
    /// Lines of colour number 0 alone.
    pub fn new() -> Lines
        ensures { result ≡ black }
    {
        Lines {
            lines: repeated([0; WIDTH]),
        }
    }

    /// Line y, 0 to 223.
    #[inline]
    pub fn row(&self, y: u8) -> &[u8; WIDTH]
        requires { y < tile.height }
        ensures line { result.now ≡ slice_index_or self.now y [] }
        ensures below { EachIndex result.now (λ x. slice_index result.now x < colour.numbers) }
        ensures picture { IsPicture self.now }
    {
        &self.lines[y as usize]
    }

    /// All lines.
    #[inline]
    pub fn raw(&self) -> &RawLines
        ensures lines { result.now ≡ self.now }
        ensures picture { IsPicture self.now }
    {
        &self.lines
    }

    /// Takes all lines of a picture: one copy, over which a compiler needn't write zeros first where a picture is made.
    #[inline(always)]
    pub fn copy_from(&mut self, lines: &RawLines)
        requires { IsPicture lines.now }
        ensures { self.new ≡ lines.now }
    {
        self.lines = *lines;
    }

    /// Takes lines that are packed.
    pub(crate) fn unpack(&mut self, packed: &PackedLines)
        ensures { self.new ≡ packed.now }
    {
        for y in 0..HEIGHT {
            packed.unpack_line(y, &mut self.lines[y as usize]);
        }
    }

    /// Composes line y of the shown picture, through a layer whose row of that line is drawn from the screen: a line on
    /// which nothing has changed is there already.
    #[inline(always)]
    pub(crate) fn compose_line(
        &mut self,
        y: u8,
        layer: &mut Layer,
        screen: &Screen<'_>,
        clean: &mut Clean,
    )
        requires y { y < tile.height }
        requires drawn { shadow_at layer.old.shadows (source_of screen.now y / 8)
            ≡ drawn_from screen.now (source_of screen.now y / 8) }
        requires clean { MarksClean clean.old layer.old self.old }
        requires flip { clean.old.flip ≡ screen.now.flip }
        ensures layer { layer.new ≡ layer.old }
        ensures lines { self.new ≡ slice_set self.old y (picture_line layer.old.roms screen.now y) }
        ensures clean { MarksClean clean.new layer.old self.new }
        ensures flip { clean.new.flip ≡ clean.old.flip }
    {
        let source = screen.source(y);
        if clean.stays(source, screen) {
            return;
        }
        compose_line(layer, screen, y, &mut self.lines[y as usize]);
        clean.take(source, screen.sprite_bytes());
    }

    /// Composes all lines, through a layer that is drawn from the screen.
    pub(crate) fn compose(&mut self, layer: &mut Layer, screen: &Screen<'_>)
        requires { layer.old.shadows ≡ tabulate tiles_laws.rows (drawn_from screen.now) }
        ensures layer { layer.new ≡ layer.old }
        ensures lines { self.new ≡ picture_of layer.old.roms screen.now }
    {
        for y in 0..HEIGHT {
            compose_line(layer, screen, y, &mut self.lines[y as usize]);
        }
    }
}
