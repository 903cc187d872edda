//! Input and output (UM0080, "Input and Output Group"), without the block instructions.

ghost use Rattle.pac_exec.specs.Ports.{port_effect};
ghost use Rattle.pac_exec.specs.TransitionProofs.{DoesTransition, DoesInRegisters};

use crate::regs::Regs;
use pac_bus::Bus;
use pac_num::low_byte;
use pac_table::{Instr, Port};

/// IN A,(n).
#[tactic(auto, unfolding(crate::specs::Ports::port_effect))]
fn input_byte<B: Bus>(instr: &Instr, regs: &mut Regs, bus: &B) -> u8
    ensures { DoesInRegisters (port_effect Port.InputByte instr.now regs.old (B.input_at bus.now))
        regs.new result }
{
    regs.a = bus.input(low_byte(instr.word()));
    instr.ticks()
}

/// OUT (n),A.
#[tactic(auto, unfolding(crate::specs::Ports::port_effect))]
fn output_byte<B: Bus>(instr: &Instr, regs: &Regs, bus: &mut B) -> u8
    ensures { DoesTransition B.after (port_effect Port.OutputByte instr.now regs.now
        (B.input_at bus.old)) bus.old regs.now bus.new result }
{
    bus.output(low_byte(instr.word()), regs.a);
    instr.ticks()
}

/// IN r,(C).
#[tactic(auto, unfolding(crate::specs::Ports::port_effect))]
fn input<B: Bus>(instr: &Instr, regs: &mut Regs, bus: &B) -> u8
    ensures { DoesInRegisters (port_effect Port.Input instr.now regs.old (B.input_at bus.now))
        regs.new result }
{
    let byte = bus.input(regs.c);
    regs.set_register(instr.p(), byte);
    regs.f = pac_alu::input_flags(byte, regs.f);
    instr.ticks()
}

/// OUT (C),r.
#[tactic(auto, unfolding(crate::specs::Ports::port_effect))]
fn output<B: Bus>(instr: &Instr, regs: &Regs, bus: &mut B) -> u8
    ensures { DoesTransition B.after (port_effect Port.Output instr.now regs.now
        (B.input_at bus.old)) bus.old regs.now bus.new result }
{
    bus.output(regs.c, regs.register(instr.p()));
    instr.ticks()
}

/// Input or output of a byte, by its function; the time in T-states.
#[tactic(auto, unfolding(crate::specs::Ports::port_effect))]
pub fn perform_port<B: Bus>(with: Port, instr: &Instr, regs: &mut Regs, bus: &mut B) -> u8
    ensures { DoesTransition B.after (port_effect with instr.now regs.old (B.input_at bus.old))
        bus.old regs.new bus.new result }
{
    match with {
        Port::InputByte => input_byte(instr, regs, bus),
        Port::OutputByte => output_byte(instr, regs, bus),
        Port::Input => input(instr, regs, bus),
        Port::Output => output(instr, regs, bus),
    }
}
