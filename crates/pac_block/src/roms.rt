//! The ROMs that a host hands in.

ghost use Rattle.std.specs.Prelude.{◌≡◌, ◌≤◌, ◌+◌, length};
ghost use Rattle.pac_board.specs.BoardView.{video_roms};
ghost use Rattle.pac_board.specs.Fields.{state_of, AreBoardFields};
ghost use Rattle.pac_board.specs.RomParts.{IsWhole};
ghost use Rattle.pac_board.specs.StateLaws.{restored_board};
ghost use Rattle.pac_board.specs.PartsProofs.{parts_of};
ghost use Rattle.pac_block.specs.Handed.{HaveLength};
ghost use Rattle.pac_block.specs.Host as host;
ghost use Rattle.pac_roms_manifest.specs.Sets.{digest_of};
ghost use Rattle.pac_state.specs.Reading.{bytes_at_place};

use crate::codes::HostFault;
use pac_board::{Board, Fields, Raw};
use pac_picture::Graphics;
use sha1::Sha1;

/// The ROMs in bytes: program, tiles, sprites, colour PROM, lookup PROM, wave PROM.
const ROMS_SIZE: usize = 25_120;

/// So many bytes from a place on.
#[inline(always)]
fn part(roms: &[u8], at: usize, size: usize) -> &[u8]
    requires { at + size ≤ length roms.now }
    ensures bytes { result.now ≡ bytes_at_place at size roms.now }
    ensures size { length result.now ≡ size }
{
    &roms[at..at + size]
}

/// Whether a host's ROMs have their length.
pub fn check_roms(roms: &[u8]) -> Result<(), HostFault>
    ensures { HaveLength roms.now result }
{
    if roms.len() != ROMS_SIZE {
        return Err(HostFault::WrongLength);
    }
    Ok(())
}

/// The program, and the other parts.
#[inline(always)]
fn parts(roms: &[u8]) -> (&[u8], Raw<'_>)
    requires { length roms.now ≡ host.roms_size }
    ensures set { parts_of result.0.now result.1 ≡ host.set_of_roms roms.now }
    ensures whole { IsWhole (parts_of result.0.now result.1) }
{
    let program = part(roms, 0, 16_384);
    let raw = Raw {
        tiles: part(roms, 16_384, 4096),
        sprites: part(roms, 20_480, 4096),
        colours: part(roms, 24_576, 32),
        lookup: part(roms, 24_608, 256),
        wave: part(roms, 24_864, 256),
    };
    (program, raw)
}

/// The N bytes from a place on.
pub fn chunk<const N: usize>(roms: &[u8], at: usize) -> &[u8; N]
    requires { at + N ≤ length roms.now }
    ensures { result.now ≡ bytes_at_place at N roms.now }
{
    roms[at..].first_chunk().unwrap()
}

/// The colour PROM.
pub(crate) fn colours_of(roms: &[u8]) -> &[u8; 32]
    requires { length roms.now ≡ host.roms_size }
    ensures { result.now ≡ (host.set_of_roms roms.now).colours }
{
    chunk(roms, 24_576)
}

/// The program ROM.
pub(crate) fn program_of(roms: &[u8]) -> &[u8; 16384]
    requires { length roms.now ≡ host.roms_size }
    ensures { result.now ≡ (host.set_of_roms roms.now).program }
{
    chunk(roms, 0)
}

/// The digest of the ROM set, whose parts are one after another here.
pub(crate) fn digest(roms: &[u8]) -> [u8; 20]
    requires { length roms.now ≡ host.roms_size }
    ensures { result ≡ digest_of (host.set_of_roms roms.now) }
{
    Sha1::digest(roms)
}

/// The ROMs that pictures are drawn from.
pub(crate) fn graphics_of(roms: &[u8]) -> Graphics
    requires { length roms.now ≡ host.roms_size }
    ensures { result ≡ video_roms (host.set_of_roms roms.now) }
{
    Graphics::new(
        chunk(roms, 16_384),
        chunk(roms, 20_480),
        chunk(roms, 24_608),
    )
}

/// Puts a host's ROMs and a state's fields into a board.
#[inline(always)]
pub(crate) fn put_all(machine: &mut Board, roms: &[u8], fields: &Fields)
    requires roms { length roms.now ≡ host.roms_size }
    requires in_range { AreBoardFields fields.now }
    ensures { machine.new ≡ restored_board
        (record machine.old { set = host.set_of_roms roms.now }) (state_of fields.now) }
{
    let (program, raw) = parts(roms);
    machine.put_all(program, &raw, fields);
}

/// Puts a host's ROMs into a board.
pub fn put_roms(machine: &mut Board, roms: &[u8])
    requires { length roms.now ≡ host.roms_size }
    ensures { machine.new ≡ record machine.old { set = host.set_of_roms roms.now } }
{
    let (program, raw) = parts(roms);
    machine.put_roms(program, &raw);
}
