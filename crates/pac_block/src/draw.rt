//! The picture of a block, in bytes of red, green, blue and opacity.

ghost use Rattle.std.specs.Prelude.{◌≡◌, ◌<◌, ◌≤◌, ◌+◌, ◌*◌, ◌++◌, length, take, slice_index};
ghost use Rattle.std.specs.Prelude.{EachIndex};
ghost use Rattle.std.specs.List.{flat_map};
ghost use Rattle.pac_board.specs.PictureState.{IsPicture};
ghost use Rattle.pac_board.specs.Tiles as tile;
ghost use Rattle.pac_colour.specs.Colours.{numbers};
ghost use Rattle.pac_block.specs.Host as host;

use crate::block::{PacBoard, open};
use crate::codes::HostFault;
use crate::pixels::{Channels, LANES, put_pixels, sixteen};
use crate::roms::{check_roms, colours_of};
use pac_board::{HEIGHT, RawLines, WIDTH, raw_row};

/// The bytes of a line.
const LINE: usize = 4 * WIDTH;

/// The bytes of a picture.
pub const RGBA_SIZE: usize = LINE * HEIGHT as usize;

/// Writes the pixels of a line from a place on.
fn put_line(rgba: &mut [u8], at: usize, palette: &Channels, line: &[u8; WIDTH])
    requires room { at + 4 * tile.width ≤ length rgba.old }
    requires below { EachIndex line.now (λ x. slice_index line.now x < numbers) }
    ensures size { length rgba.new ≡ length rgba.old }
    ensures text { take (at + 4 * tile.width) rgba.new
        ≡ take at rgba.old ++ flat_map (host.opaque_pixel palette.now) line.now }
{
    for part in 0..WIDTH / LANES {
        put_pixels(
            rgba,
            at + 4 * LANES * part,
            palette,
            sixteen(line, LANES * part),
        );
    }
}

/// Draws lines in these colours.
pub fn put_lines(rgba: &mut [u8], palette: &Channels, lines: &RawLines)
    requires picture { IsPicture lines.now }
    requires size { length rgba.old ≡ host.rgba_size }
    ensures { rgba.new ≡ host.rgba_of palette.now lines.now }
{
    for y in 0..HEIGHT {
        put_line(rgba, LINE * y as usize, palette, raw_row(lines, y));
    }
}

/// Draws the picture of a block's board as it stands, in the colours of these ROMs.
pub fn draw(block: &PacBoard, roms: &[u8], rgba: &mut [u8]) -> Result<(), HostFault>
    ensures { host.Draws roms.now block.now.bytes rgba.old result rgba.new }
{
    check_roms(roms)?;
    if rgba.len() != RGBA_SIZE {
        return Err(HostFault::WrongLength);
    }
    let fields = open(block)?;
    put_lines(rgba, &Channels::of(colours_of(roms)), fields.lines);
    Ok(())
}
