//! The processor's states (UM0080, "General-Purpose Arithmetic and CPU Control Groups").

ghost use Rattle.pac_table.specs.Instructions.{ticks_of};
ghost use Rattle.pac_exec.specs.Control.{control_effect, controlled_regs};
ghost use Rattle.pac_exec.specs.TransitionProofs.{DoesInRegisters};
ghost use Rattle.pac_exec.specs.Transition.{registers_alone};

use crate::regs::Regs;
use pac_table::{Control, Instr, InterruptMode};

/// HALT.
fn halt(instr: &Instr, regs: &mut Regs) -> u8
    ensures { DoesInRegisters (registers_alone (controlled_regs Control.Halt regs.old)
        (ticks_of instr.now)) regs.new result }
{
    regs.halted = true;
    instr.ticks()
}

/// DI.
fn disable_interrupts(instr: &Instr, regs: &mut Regs) -> u8
    ensures { DoesInRegisters (registers_alone (controlled_regs Control.DisableInterrupts regs.old)
        (ticks_of instr.now)) regs.new result }
{
    regs.iff1 = false;
    regs.iff2 = false;
    instr.ticks()
}

/// EI.
fn enable_interrupts(instr: &Instr, regs: &mut Regs) -> u8
    ensures { DoesInRegisters (registers_alone (controlled_regs Control.EnableInterrupts regs.old)
        (ticks_of instr.now)) regs.new result }
{
    regs.iff1 = true;
    regs.iff2 = true;
    regs.after_ei = true;
    instr.ticks()
}

/// IM.
fn set_interrupt_mode(mode: InterruptMode, instr: &Instr, regs: &mut Regs) -> u8
    ensures { DoesInRegisters (registers_alone
        (controlled_regs (Control.SetInterruptMode mode) regs.old) (ticks_of instr.now)) regs.new
        result }
{
    regs.mode = mode;
    instr.ticks()
}

/// What is done to the processor's states, by its function; the time in T-states.
#[tactic(auto, unfolding(crate::specs::Control::control_effect))]
pub fn perform_control(with: Control, instr: &Instr, regs: &mut Regs) -> u8
    ensures { DoesInRegisters (control_effect with instr.now regs.old) regs.new result }
{
    match with {
        Control::Nop => instr.ticks(),
        Control::Halt => halt(instr, regs),
        Control::DisableInterrupts => disable_interrupts(instr, regs),
        Control::EnableInterrupts => enable_interrupts(instr, regs),
        Control::SetInterruptMode(mode) => set_interrupt_mode(mode, instr, regs),
    }
}
