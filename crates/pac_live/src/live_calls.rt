//! The calls of a live board: opened and closed, its block put and given, and the calls that change it.

ghost use Rattle.std.specs.Prelude.{◌≡◌};
ghost use Rattle.pac_board.specs.Inputs.{mask};
ghost use Rattle.pac_board.specs.State.{board_after_reset};
ghost use Rattle.pac_block.specs.Host as host;
ghost use Rattle.pac_live.specs.Live as live_specs;
ghost use Rattle.pac_live.specs.LiveHanded.{IsOpenOr, IsMadeClosed, MayOpen};
ghost use Rattle.pac_live.specs.LiveMemory.{live_size};

use crate::live::PacLive;
use pac_block::block::open as open_block;
use pac_block::roms::{check_roms, put_roms};
use pac_block::{HostFault, PacBoard};
use pac_board::{Board, Inputs};
use pac_state::laws::{blocks_are_read_back, boards_have_states, states_have_blocks};
use pac_state::write_block;
use std::mem::size_of;

/// The seal of an open handle.
const SEAL: u64 = 3_550_338_754_063_581_520;

/// The bytes that a live board takes.
pub fn size() -> usize
    ensures { result ≡ live_size }
{
    size_of::<Board>()
}

/// Whether a handle is open.
pub(crate) fn check_open(live: &mut PacLive) -> Result<(), HostFault>
    ensures handle { IsOpenOr live.old result }
    ensures same { live.new ≡ live.old }
{
    if live.seal() != SEAL {
        return Err(HostFault::Closed);
    }
    Ok(())
}

/// Closes a handle, if it is open.
fn make_closed(live: &mut PacLive)
    ensures { IsMadeClosed live.old live.new }
{
    if live.seal() == SEAL {
        live.close();
    }
}

/// Whether a handle is lent memory enough, and the ROMs have their length.
fn check_room(live: &mut PacLive, roms: &[u8]) -> Result<(), HostFault>
    ensures room { MayOpen roms.now live.old result }
    ensures same { live.new ≡ live.old }
{
    check_roms(roms)?;
    if live.size() < size() {
        return Err(HostFault::WrongLength);
    }
    Ok(())
}

/// Opens a handle: with the board at power-on, of these ROMs and a byte of the DIP switches.
pub fn open(live: &mut PacLive, roms: &[u8], switches: u8) -> Result<(), HostFault>
    ensures { live_specs.OpensLive roms.now switches result live.old live.new }
{
    check_room(live, roms)?;
    make_closed(live);
    live.place(Board::without_roms(switches), SEAL);
    put_roms(live.board(), roms);
    Ok(())
}

/// Closes an open handle.
pub fn close(live: &mut PacLive) -> Result<(), HostFault>
    ensures { live_specs.Closes result live.old live.new }
{
    check_open(live)?;
    live.close();
    Ok(())
}

/// Becomes the board of a block and ROMs.
fn put_block(board: &mut Board, roms: &[u8], block: &PacBoard) -> Result<(), HostFault>
    ensures { live_specs.Putting roms.now block.now.bytes result board.old board.new }
{
    check_roms(roms)?;
    let fields = open_block(block)?;
    put_roms(board, roms);
    board.put_fields(&fields);
    Ok(())
}

/// Puts a block and ROMs into a live board.
pub fn put(live: &mut PacLive, roms: &[u8], block: &PacBoard) -> Result<(), HostFault>
    ensures { live_specs.Lives (Unit {0}) (live_specs.Putting roms.now block.now.bytes)
        result live.old live.new }
{
    check_open(live)?;
    put_block(live.board(), roms, block)
}

/// Writes the block of a board.
fn give_block(board: &mut Board, block: &mut PacBoard) -> Result<(), HostFault>
    ensures { live_specs.GivingBlock block.new.bytes result board.old board.new }
{
    boards_have_states(board);
    write_block(&board.fields(), &mut block.bytes);
    blocks_are_read_back();
    states_have_blocks();
    Ok(())
}

/// Gives the block of a live board.
pub fn give(live: &mut PacLive, block: &mut PacBoard) -> Result<(), HostFault>
    ensures { live_specs.Lives (block.new.bytes ≡ block.old.bytes)
        (live_specs.GivingBlock block.new.bytes)
        result live.old live.new }
{
    check_open(live)?;
    give_block(live.board(), block)
}

/// Resets a board.
fn reset_board(board: &mut Board) -> Result<(), HostFault>
    ensures { live_specs.Becoming board_after_reset result board.old board.new }
{
    board.reset();
    Ok(())
}

/// Resets a live board as the watchdog does.
pub fn reset(live: &mut PacLive) -> Result<(), HostFault>
    ensures { live_specs.Lives (Unit {0}) (live_specs.Becoming board_after_reset)
        result live.old live.new }
{
    check_open(live)?;
    reset_board(live.board())
}

/// Lets some inputs of a board go, and holds others then.
fn hold_on(board: &mut Board, set: Inputs, clear: Inputs) -> Result<(), HostFault>
    ensures { live_specs.Becoming (host.board_holding (mask set) (mask clear))
        result board.old board.new }
{
    board.input_clear(clear);
    board.input_set(set);
    Ok(())
}

/// Lets some inputs of a live board go, and holds others then.
pub fn hold(live: &mut PacLive, set: Inputs, clear: Inputs) -> Result<(), HostFault>
    ensures { live_specs.Lives (Unit {0}) (live_specs.Becoming
        (host.board_holding (mask set) (mask clear)))
        result live.old live.new }
{
    check_open(live)?;
    hold_on(live.board(), set, clear)
}
