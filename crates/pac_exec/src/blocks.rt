//! Block instructions, one byte at a time (UM0080, "Exchange, Block Transfer, and Search Group" and "Input and Output Group").

ghost use Rattle.std.specs.Prelude.{◌≡◌, [], ◌∷◌};
ghost use Rattle.pac_bus.specs.Action.{Write, Output};
ghost use Rattle.pac_exec.specs.Registers.{hl, with_bc};
ghost use Rattle.pac_exec.specs.Blocks as blocks;
ghost use Rattle.pac_exec.specs.BlocksProofs.{DoesIteration};
ghost use Rattle.pac_exec.specs.TransitionProofs.{DoesTransition};

use crate::regs::{Regs, b_left};
use pac_alu::decrement_word;
use pac_bus::Bus;
use pac_num::offset;
use pac_table::{Block, BlockOperation, Direction, Instr};

/// Where a pointer goes.
#[inline]
fn moved(direction: Direction, address: u16) -> u16
    ensures { result ≡ blocks.moved_pointer direction address }
{
    match direction {
        Direction::Up => offset(address, 1),
        Direction::Down => offset(address, 65535),
    }
}

/// Moves HL to the next cell and counts a byte in BC; how many are left.
#[inline]
fn count_cell(direction: Direction, regs: &mut Regs) -> u16
    ensures regs { regs.new ≡ with_bc (blocks.hl_moved direction regs.old) result }
    ensures left { result ≡ blocks.bc_left regs.old }
{
    let count = decrement_word(regs.bc());
    regs.set_hl(moved(direction, regs.hl()));
    regs.set_bc(count);
    count
}

/// One byte of LDI or LDD; whether another one follows where the instruction repeats.
fn copy<B: Bus>(direction: Direction, regs: &mut Regs, bus: &mut B) -> bool
    ensures { DoesIteration B.after (blocks.copy_iteration direction regs.old (B.byte_at bus.old))
        bus.old regs.new bus.new result }
{
    bus.write(regs.de(), bus.read(regs.hl()));
    regs.set_de(moved(direction, regs.de()));
    let count = count_cell(direction, regs);
    regs.f = pac_alu::copy_flags(count, regs.f);
    count != 0
}

/// One byte of CPI or CPD; whether another one follows where the instruction repeats.
fn compare<B: Bus>(direction: Direction, regs: &mut Regs, bus: &B) -> bool
    ensures { DoesIteration B.after (blocks.compare_iteration direction regs.old
        (B.byte_at bus.now)) bus.now regs.new bus.now result }
{
    let byte = bus.read(regs.hl());
    let count = count_cell(direction, regs);
    regs.f = pac_alu::search_flags(regs.a, byte, count, regs.f);
    count != 0 && regs.a != byte
}

/// Counts a byte between HL's cell and a port, and moves HL; whether another one follows where the instruction repeats.
#[inline]
fn count_byte(direction: Direction, regs: &mut Regs) -> bool
    ensures regs { regs.new ≡ (blocks.port_iteration direction [] regs.old).regs }
    ensures goes_on { result ≡ (blocks.port_iteration direction [] regs.old).goes_on }
{
    let count = b_left(regs);
    regs.set_hl(moved(direction, regs.hl()));
    regs.b = count;
    regs.f = pac_alu::port_flags(count, regs.f);
    count != 0
}

/// One byte of INI or IND; whether another one follows where the instruction repeats.
fn take_in<B: Bus>(direction: Direction, regs: &mut Regs, bus: &mut B) -> bool
    ensures { DoesIteration B.after (blocks.port_iteration direction
        (Write (hl regs.old) (B.input_at bus.old regs.old.c) ∷ []) regs.old)
        bus.old regs.new bus.new result }
{
    bus.write(regs.hl(), bus.input(regs.c));
    count_byte(direction, regs)
}

/// One byte of OUTI or OUTD; whether another one follows where the instruction repeats.
fn give_out<B: Bus>(direction: Direction, regs: &mut Regs, bus: &mut B) -> bool
    ensures { DoesIteration B.after (blocks.port_iteration direction
        (Output regs.old.c (B.byte_at bus.old (hl regs.old)) ∷ []) regs.old)
        bus.old regs.new bus.new result }
{
    bus.output(regs.c, bus.read(regs.hl()));
    count_byte(direction, regs)
}

/// One byte of a block instruction; whether another one follows where the instruction repeats.
fn iterate<B: Bus>(block: Block, regs: &mut Regs, bus: &mut B) -> bool
    ensures { DoesIteration B.after (blocks.iteration block.operation block.direction regs.old
        (B.byte_at bus.old) (B.input_at bus.old))
        bus.old regs.new bus.new result }
{
    match block.operation {
        BlockOperation::Load => copy(block.direction, regs, bus),
        BlockOperation::Compare => compare(block.direction, regs, bus),
        BlockOperation::Input => take_in(block.direction, regs, bus),
        BlockOperation::Output => give_out(block.direction, regs, bus),
    }
}

/// A step of a block instruction; its time in T-states.
pub fn block<B: Bus>(block: Block, instr: &Instr, regs: &mut Regs, bus: &mut B) -> u8
    ensures { DoesTransition B.after (blocks.block_transition block instr.now regs.old
        (B.byte_at bus.old) (B.input_at bus.old)) bus.old
        regs.new bus.new result }
{
    let goes_on = iterate(block, regs, bus);
    if block.repeats && goes_on {
        regs.pc = offset(regs.pc, 65534);
        instr.ticks()
    } else {
        instr.ticks_other()
    }
}
