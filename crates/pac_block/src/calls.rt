//! The calls that change a board: power-on, reset, inputs, and time.

ghost use Rattle.pac_block.specs.Host as host;
ghost use Rattle.pac_board.specs.State.{board_after_reset};
ghost use Rattle.pac_board.specs.Inputs.{mask};

use crate::block::{PacBoard, clear, keep_run, open};
use crate::codes::HostFault;
use crate::fronts::{holding_front, power_on_front, reset_front};
use crate::ran::{RanBytes, bytes_of};
use crate::roms::{check_roms, put_all};
use crate::time::{check, run};
use pac_board::{Board, Fields, Inputs};
use pac_state::{block_lines, put_front};

/// The board at power-on, with these ROMs and a byte of the DIP switches.
pub fn init(block: &mut PacBoard, roms: &[u8], switches: u8) -> Result<(), HostFault>
    ensures { host.Inits roms.now switches block.old.bytes result block.new.bytes }
{
    check_roms(roms)?;
    clear(block);
    let front = power_on_front(block_lines(&block.bytes), switches);
    put_front(&front, &mut block.bytes);
    Ok(())
}

/// Resets the board as the watchdog does.
pub fn reset(block: &mut PacBoard) -> Result<(), HostFault>
    ensures { host.Becomes board_after_reset block.old.bytes result block.new.bytes }
{
    let front = reset_front(block)?;
    put_front(&front, &mut block.bytes);
    Ok(())
}

/// Lets some inputs go, and holds others then.
pub fn hold(block: &mut PacBoard, set: Inputs, clear: Inputs) -> Result<(), HostFault>
    ensures { host.Becomes (host.board_holding (mask set) (mask clear)) block.old.bytes result
        block.new.bytes }
{
    let front = holding_front(block, set, clear)?;
    put_front(&front, &mut block.bytes);
    Ok(())
}

/// Lets so many microseconds go by, writes the samples that come to the head of the buffer, and tells how it went.
pub fn exec(
    block: &mut PacBoard,
    roms: &[u8],
    microseconds: u32,
    samples: &mut [i16],
    ran: &mut RanBytes,
) -> Result<(), HostFault>
    ensures { host.Execs roms.now block.old.bytes microseconds samples.old ran.old.bytes result
        block.new.bytes samples.new ran.new.bytes }
{
    check_roms(roms)?;
    let fields = open(block)?;
    check(&fields, microseconds, samples.len())?;
    // (not of a constant byte, with which the compiler has parts of the board twice on the stack; and with the lines as what they are, a part of the
    // block, and not as `open` found them: so the compiler sees that they aren't the board's own, and writes no zeros below them first)
    let mut machine = Board::without_roms(block.bytes[0]);
    let lines = block_lines(&block.bytes);
    put_all(&mut machine, roms, &Fields { lines, ..fields });
    let (told, stop) = run(&mut machine, microseconds, samples);
    ran.bytes = bytes_of(&told);
    keep_run(&machine, &stop, block);
    Ok(())
}
