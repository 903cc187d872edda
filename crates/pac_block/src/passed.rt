//! The lines of a picture that have passed since the last blank: a state file of version 1 lacks them.

ghost use Rattle.pac_board.specs.Fields.{state_of, AreBoardFields};
ghost use Rattle.pac_board.specs.State.{BoardState, passed_lines};
ghost use Rattle.pac_board.specs.Tiles as tile;
ghost use Rattle.pac_block.specs.Host as host;
ghost use Rattle.pac_block.specs.Passed.{picture_offset, recomposed_state, state_with_lines};
ghost use Rattle.pac_block.specs.Passed.{upgraded_state};
ghost use Rattle.pac_state.specs.Block.{block_text};
ghost use Rattle.pac_state.specs.Files.{IsState};
ghost use Rattle.std.specs.Prelude.{◌≡◌, ◌<◌, ◌≤◌, ◌+◌, ◌*◌, ◌++◌, length, take, drop};

use crate::block::PacBoard;
use crate::roms::graphics_of;
use pac_board::{FRAME_TICKS, Fields, WIDTH};
use pac_map::Memory;
use pac_picture::{Graphics, Screen, compose_alone};
use pac_state::laws::fields_have_states;

/// The bytes of a block before its picture.
const PICTURE: usize = 3224;

/// The T-states of a line of the scan.
const LINE_TICKS: u64 = 192;

/// The lines of the scan before the first that is shown.
const HIDDEN_LINES: u64 = 40;

/// How many lines of the picture have passed since the last blank, at a time.
fn passed(time: u64) -> u8
    ensures count { result ≡ passed_lines time }
    ensures below { result ≤ tile.height }
{
    (time % FRAME_TICKS / LINE_TICKS).saturating_sub(HIDDEN_LINES) as u8
}

/// Writes line y of the picture in a block.
fn put_line(block: &mut [u8; 67_756], y: u8, line: &[u8; WIDTH])
    requires { y < tile.height }
    ensures { block.new ≡ take (picture_offset y) block.old ++ line.now
        ++ drop (picture_offset y + tile.width) block.old }
{
    let at = PICTURE + WIDTH * usize::from(y);
    block[at..at + WIDTH].copy_from_slice(line);
}

/// Composes so many lines of a block's picture from the top, of what a screen shows.
fn compose_lines(graphics: &Graphics, screen: &Screen<'_>, count: u8, block: &mut PacBoard)
    requires { count ≤ tile.height }
    ensures { (state : BoardState) → IsState state → block.old.bytes ≡ block_text state →
        block.new.bytes ≡ block_text (state_with_lines graphics.now screen.now count state) }
{
    let mut line = [0; WIDTH];
    for y in 0..count {
        compose_alone(graphics, screen, y, &mut line);
        put_line(&mut block.bytes, y, &line);
    }
}

/// Composes the lines that have passed since the last blank in the block of these fields, from what the memory keeps.
#[inline(never)]
fn compose_passed(fields: &Fields, roms: &[u8], block: &mut PacBoard)
    requires roms { length roms.now ≡ host.roms_size }
    requires in_range { AreBoardFields fields.now }
    requires text { block.old.bytes ≡ block_text (state_of fields.now) }
    ensures { block.new.bytes ≡ block_text
        (recomposed_state (host.set_of_roms roms.now) (state_of fields.now)) }
{
    fields_have_states(fields);
    let graphics = graphics_of(roms);
    let memory = Memory::of(&fields.memory);
    let screen = Screen::new(
        memory.tile_ram(),
        memory.colour_ram(),
        memory.attributes(),
        memory.coordinates(),
        memory.latch().is_flipped(),
    );
    compose_lines(&graphics, &screen, passed(fields.time), block);
}

/// Brings the picture up in the block of these fields, where they are those of a file of version 1.
pub(crate) fn bring_up(version: u16, fields: &Fields, roms: &[u8], block: &mut PacBoard)
    requires roms { length roms.now ≡ host.roms_size }
    requires in_range { AreBoardFields fields.now }
    requires text { block.old.bytes ≡ block_text (state_of fields.now) }
    ensures { block.new.bytes ≡ block_text (upgraded_state (host.set_of_roms roms.now) version
        (state_of fields.now)) }
{
    if version == 1 {
        compose_passed(fields, roms, block);
    }
}
