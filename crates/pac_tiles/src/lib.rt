//! Tiles of the picture: the pixels of a tile, and the place of a cell in tile RAM.
#![tactic(auto)]

ghost use Rattle.std.specs.Prelude.{◌≡◌, ◌<◌, length};
ghost use Rattle.pac_tiles.specs.Tiles as tiles;
ghost use Rattle.pac_tiles.specs.TilesLaws as tiles_laws;
ghost use Rattle.pac_tiles.specs.TilesProofs as tiles_proofs;

use pac_num::pixel_value;

/// The value, 0 to 3, of pixel (x, y) of a tile of the tile ROM's 4,096 bytes.
#[inline]
pub fn pixel(rom: &[u8], tile: u8, x: u8, y: u8) -> u8
    requires rom { length rom.now ≡ tiles_proofs.tile_rom_size }
    requires x { x < tiles.tile_side }
    requires y { y < tiles.tile_side }
    ensures value { result ≡ tiles.tile_pixel rom.now tile x y }
    ensures below { result < 4 }
{
    let half = if x < 4 { 8 } else { 0 };
    pixel_value(rom[16 * tile as usize + y as usize + half], x)
}

/// The offset in tile RAM, and in colour RAM, of the cell in a column and a row of the picture.
#[inline]
pub fn offset(column: u8, row: u8) -> u16
    requires column { column < tiles_laws.columns }
    requires row { row < tiles_laws.rows }
    ensures offset { result ≡ tiles.offset_of column row }
    ensures below { result < tiles_proofs.tile_ram_size }
{
    let column = u16::from(column);
    let row = u16::from(row);
    if column >= 2 && column < 34 {
        column - 2 + 32 * (row + 2)
    } else {
        row + 2 + 32 * ((column + 30) % 32)
    }
}
