//! The block in which a host keeps its board: read, and written.

ghost use Rattle.std.specs.Prelude.{◌≡◌, Ok, Err, replicate};
ghost use Rattle.pac_board.specs.Fields.{state_of};
ghost use Rattle.pac_block.specs.Handed.{StopsEarly, OpensBlock};
ghost use Rattle.pac_block.specs.Host.{IsBlockOf, state_left};
ghost use Rattle.pac_state.specs.Saved.{file_size};

use crate::codes::HostFault;
use crate::time::asked_left;
use pac_board::{Board, Fields, Stop};
use pac_state::laws::{blocks_are_read_back, boards_have_states, states_have_blocks};
use pac_state::{read_block, write_block};

/// A board, in a host's memory: the text of its state file with zeros in the place of both digests. A plain value, that may be copied, kept
/// and handed in again. Any bytes may be handed in; those that are no board's state are refused.
#[repr(C)]
#[derive(Drop)]
pub struct PacBoard {
    /// The block.
    pub bytes: [u8; 67_756],
}

/// The fields in a block, if it is the block of a state.
pub fn open(block: &PacBoard) -> Result<Fields<'_>, HostFault>
    ensures { OpensBlock block.now.bytes result }
{
    match read_block(&block.bytes) {
        Some(fields) => Ok(fields),
        None => Err(HostFault::NoBoard),
    }
}

/// Makes all bytes of a block 0.
pub(crate) fn clear(block: &mut PacBoard)
    ensures { block.new.bytes ≡ replicate file_size 0 }
{
    block.bytes.fill(0);
}

/// Writes a board's state over a block, after a call for some time. Of a board that stopped no more is asked than meets the stop again.
pub fn keep_run(machine: &Board, stop: &Option<Stop>, block: &mut PacBoard)
    requires { StopsEarly stop.now machine.now.state }
    ensures { IsBlockOf (state_left stop.now machine.now.state) block.new.bytes }
{
    boards_have_states(machine);
    let mut fields = machine.fields();
    fields.asked = asked_left(stop, fields.asked, fields.time);
    write_block(&fields, &mut block.bytes);
    blocks_are_read_back();
    states_have_blocks();
}
