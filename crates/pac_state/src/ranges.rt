//! What holds of a board's fields by their types.

ghost use Rattle.std.specs.Prelude.{◌≡◌, ◌<◌, ◌^◌, length};
ghost use Rattle.pac_board.specs.Inputs as inputs;
ghost use Rattle.pac_board.specs.Place as place;
ghost use Rattle.pac_state.specs.Files.{AreWords, FitsSample, IsState};
ghost use Rattle.pac_board.specs.Fields.{state_of, AreBoardFields};

use crate::blocks::mask;
use pac_board::{Due, Fields, Inputs, Regs};

/// A word has 16 bits.
fn word(word: u16)
    ensures { word < 2 ^ 16 }
{}

/// An array has its size.
fn size<const N: usize>(bytes: &[u8; N])
    ensures { length bytes.now ≡ N }
{}

/// Registers of two bytes have 16 bits.
fn words(regs: &Regs)
    ensures { AreWords regs.now }
{
    word(regs.ix);
    word(regs.iy);
    word(regs.sp);
    word(regs.pc);
}

/// The mask of inputs has 16 bits.
fn inputs(held: Inputs)
    ensures { inputs.mask held < 2 ^ 16 }
{
    word(mask(held));
}

/// The sample that is due has 16 bits.
fn sample(due: Due)
    ensures { FitsSample due.sample }
{
    // reading the sample tells the range of its type
    if let Some(sample) = due.sample {
        let _sample = sample;
    }
}

/// Memories have their sizes.
pub(crate) fn sizes(memory: &pac_board::MemoryFields)
    ensures tile { length memory.now.tile.now ≡ place.ram_size }
    ensures colour { length memory.now.colour.now ≡ place.ram_size }
    ensures work { length memory.now.work.now ≡ place.ram_size }
    ensures coordinates { length memory.now.coordinates ≡ place.coordinates_size }
    ensures registers { length memory.now.registers ≡ place.registers_size }
{
    size(memory.tile);
    size(memory.colour);
    size(memory.work);
    let coordinates = memory.coordinates;
    size(&coordinates);
    let registers = memory.registers;
    size(&registers);
}

/// Fields in their ranges are those of a state.
pub(crate) fn in_range(fields: &Fields)
    requires { AreBoardFields fields.now }
    ensures { IsState (state_of fields.now) }
{
    words(&fields.regs);
    inputs(fields.memory.held);
    sample(fields.due);
    sizes(&fields.memory);
}
