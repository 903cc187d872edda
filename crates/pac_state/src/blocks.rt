//! The small fields of a state as bytes.

ghost use Rattle.std.specs.Prelude.{◌≡◌, ◌≤◌};
ghost use Rattle.pac_board.specs.Inputs as inputs;
ghost use Rattle.pac_board.specs.Latched as latched;
ghost use Rattle.pac_board.specs.MemoryFields.{view_of_fields};
ghost use Rattle.pac_state.specs.Text as text;

use crate::sizes::ProcessorBlock;
use pac_board::{Due, Flags, Inputs, InterruptMode, Regs};

/// A bit as a number.
fn digit(bit: bool) -> u8
    ensures value { result ≡ latched.binary_digit bit }
    ensures bound { result ≤ 1 }
{
    if bit { 1 } else { 0 }
}

/// IFF1, IFF2, halted and just after EI, in the low four bits.
fn flags(regs: &Regs) -> u8
    ensures { result ≡ text.processor_flags regs.now }
{
    digit(regs.iff1) + 2 * (digit(regs.iff2) + 2 * (digit(regs.halted) + 2 * digit(regs.after_ei)))
}

/// The number of an interrupt mode.
fn number_of_mode(mode: InterruptMode) -> u8
    ensures { result ≡ text.number_of_mode mode }
{
    match mode {
        InterruptMode::Zero => 0,
        InterruptMode::One => 1,
        InterruptMode::Two => 2,
    }
}

/// The bytes of the processor.
#[tactic(auto, unfolding(crate::specs::Text::processor_bytes))]
pub(crate) fn processor(regs: &Regs) -> ProcessorBlock
    ensures { result ≡ text.processor_bytes regs.now }
{
    let [ix, ix_high] = regs.ix.to_le_bytes();
    let [iy, iy_high] = regs.iy.to_le_bytes();
    let [sp, sp_high] = regs.sp.to_le_bytes();
    let [pc, pc_high] = regs.pc.to_le_bytes();
    let other = regs.alternate;
    [
        regs.a,
        regs.f,
        regs.b,
        regs.c,
        regs.d,
        regs.e,
        regs.h,
        regs.l,
        other.a,
        other.f,
        other.b,
        other.c,
        other.d,
        other.e,
        other.h,
        other.l,
        ix,
        ix_high,
        iy,
        iy_high,
        sp,
        sp_high,
        pc,
        pc_high,
        regs.i,
        regs.r,
        flags(regs),
        number_of_mode(regs.mode),
    ]
}

/// The mask of inputs.
pub(crate) fn mask(held: Inputs) -> u16
    ensures { result ≡ inputs.mask held }
{
    held.bits()
}

/// The byte of the latch, whose eight bits all have a meaning.
fn latch_byte(latch: u8) -> u8
    ensures { result ≡ latched.byte_of_latch (latched.bits_of latch) }
{
    latch
}

/// The 7 bytes of latch, vector, request and count, the inputs held, and the switches.
#[tactic(auto, unfolding(crate::specs::Text::control_bytes))]
pub(crate) fn controls(memory: &pac_board::MemoryFields) -> [u8; 7]
    ensures { result ≡ text.control_bytes (view_of_fields memory.now) }
{
    let [held, held_high] = mask(memory.held).to_le_bytes();
    [
        latch_byte(memory.latch),
        memory.vector,
        digit(memory.requested),
        memory.count,
        held,
        held_high,
        memory.switches,
    ]
}

/// The 3 bytes of what is due.
#[tactic(auto, unfolding(crate::specs::Text::due_bytes))]
pub(crate) fn due(due: Due) -> [u8; 3]
    ensures { result ≡ text.due_bytes due }
{
    let bits = digit(due.sample.is_some()) + 2 * digit(due.picture);
    let [low, high] = due.sample.unwrap_or(0).to_le_bytes();
    [bits, low, high]
}
