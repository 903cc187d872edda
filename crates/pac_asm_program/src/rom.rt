//! The program ROM of the items that lines have.

ghost use Rattle.std.specs.Prelude.{◌≡◌, ◌<◌, length, drop, flat_map, map, slice_index, IfOk};
ghost use Rattle.std.specs.List.{range_with_len};
ghost use Rattle.pac_asm_program.specs.Programs.{items_in, rom_size};
ghost use Rattle.pac_asm_program.specs.Rom.{byte_over, rom_of};
ghost use Rattle.pac_asm_program.specs.RomLaws.{ApartItemsLie};
ghost use Rattle.pac_asm_program.specs.RomProofs.{IsZeroElsewhere};

use crate::line::{Item, Line};
use std::alloc::{AllocError, Global};

/// The bytes of the program ROM.
const ROM_SIZE: usize = 16384;

/// The 16,384 bytes of the program ROM that lines with these items make.
pub fn rom_of(alloc: Global, lines: &[Line]) -> Result<Box<[u8; 16384], Global>, AllocError>
    ensures value { IfOk result (λ rom. rom.value ≡ rom_of (flat_map items_in lines.now)) }
    ensures zero { IfOk result (λ rom. IsZeroElsewhere rom.value (flat_map items_in lines.now)) }
{
    let mut rom = Box::new(alloc, [0; 16384])?;
    let mut count = lines.len();
    while count > 0 {
        count -= 1;
        if let Line::Placed(item) = &lines[count] {
            put(&mut rom, item);
        }
    }
    Ok(rom)
}

/// Writes an item's bytes over others, as far as they are in the ROM.
fn put(rom: &mut [u8; 16384], item: &Item)
    ensures { rom.new ≡ map (λ cell. byte_over item.now cell (slice_index rom.old cell))
        (range_with_len 0 rom_size) }
{
    let at = item.at() as usize;
    let bytes = item.content().bytes();
    let bytes = bytes.as_slice();
    if at < ROM_SIZE {
        let count = bytes.len().min(ROM_SIZE - at);
        rom[at..at + count].copy_from_slice(&bytes[..count]);
    }
}

/// Items that share no address lie in the ROM that they make, each with its bytes.
#[tactic(auto, using(crate::proofs::Apart::apart_items_lie))]
pub fn apart_items_lie()
    ensures { ApartItemsLie }
{}
