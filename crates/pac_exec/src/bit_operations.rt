//! Single bits of registers and cells (UM0080, "Bit Set, Reset, and Test Group").

ghost use Rattle.pac_exec.specs.BitOperations.{bit_operation_effect};
ghost use Rattle.pac_exec.specs.TransitionProofs.{DoesTransition, DoesInRegisters};

use crate::places::{get, put_byte};
use crate::regs::Regs;
use pac_bus::Bus;
use pac_table::{BitOperation, BytePlace, Instr};

/// BIT.
#[tactic(auto, unfolding(crate::specs::BitOperations::bit_operation_effect))]
fn test_bit<B: Bus>(place: BytePlace, instr: &Instr, regs: &mut Regs, bus: &B) -> u8
    ensures { DoesInRegisters (bit_operation_effect (BitOperation.Test place) instr.now regs.old
        (B.byte_at bus.now)) regs.new result }
{
    let byte = get(place, instr, regs, bus);
    regs.f = pac_alu::test_bit(byte, instr.p(), regs.f);
    instr.ticks()
}

/// RES.
#[tactic(auto, unfolding(crate::specs::BitOperations::bit_operation_effect))]
fn reset_bit<B: Bus>(place: BytePlace, instr: &Instr, regs: &mut Regs, bus: &mut B) -> u8
    ensures { DoesTransition B.after (bit_operation_effect (BitOperation.Reset place) instr.now
        regs.old (B.byte_at bus.old)) bus.old
        regs.new bus.new result }
{
    let byte = pac_alu::reset_bit(get(place, instr, regs, bus), instr.p());
    put_byte(place, byte, instr, regs, bus)
}

/// SET.
#[tactic(auto, unfolding(crate::specs::BitOperations::bit_operation_effect))]
fn set_bit<B: Bus>(place: BytePlace, instr: &Instr, regs: &mut Regs, bus: &mut B) -> u8
    ensures { DoesTransition B.after (bit_operation_effect (BitOperation.Set place) instr.now
        regs.old (B.byte_at bus.old)) bus.old
        regs.new bus.new result }
{
    let byte = pac_alu::set_bit(get(place, instr, regs, bus), instr.p());
    put_byte(place, byte, instr, regs, bus)
}

/// BIT, RES or SET, by its function; the time in T-states.
#[tactic(auto, unfolding(crate::specs::BitOperations::bit_operation_effect))]
pub fn perform_bits<B: Bus>(with: BitOperation, instr: &Instr, regs: &mut Regs, bus: &mut B) -> u8
    ensures { DoesTransition B.after (bit_operation_effect with instr.now regs.old
        (B.byte_at bus.old)) bus.old regs.new bus.new result }
{
    match with {
        BitOperation::Test(place) => test_bit(place, instr, regs, bus),
        BitOperation::Reset(place) => reset_bit(place, instr, regs, bus),
        BitOperation::Set(place) => set_bit(place, instr, regs, bus),
    }
}
