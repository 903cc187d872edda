//! The processor as a value: its registers, and the calls that change them.

ghost use Rattle.std.specs.Prelude.{◌≡◌, ◌≤◌};
ghost use Rattle.pac_table.specs.Instructions.{least_ticks, most_ticks};
ghost use Rattle.pac_cpu.specs.Power.{power_on_regs, reset_regs};
ghost use Rattle.pac_cpu.specs.Step.{Stops, cpu_step};
ghost use Rattle.pac_cpu.specs.StepLaws.{surroundings_of};
ghost use Rattle.pac_cpu.specs.StepProofs.{DoesCpuStep, IfStepped, IfStopped};

use crate::once::Once;
use crate::power::blank;
use crate::step::{Way, advance};
use pac_bus::Bus;
use pac_exec::Regs;
use pac_table::InterruptMode;
use std::marker::Model;

/// A Z80. Clauses see it as its registers.
#[derive(Clone, Copy, Debug, PartialEq, Eq)]
pub struct Cpu {
    regs: Regs,
}

impl Model for Cpu {
    ghost use Rattle.pac_exec.specs.declared.regs.Regs.{Regs};

    ghost Value = { Regs };

    ghost view = { λ cpu. cpu.regs };

    ghost inverse = { λ regs. record { regs = regs } };
}

impl Cpu {
    /// A processor as it is at power-on: every register 0 (this profile).
    pub fn power_on() -> Self
        ensures { result ≡ power_on_regs }
    {
        Cpu::with_regs(blank())
    }

    /// A processor with these registers.
    #[inline]
    pub fn with_regs(regs: Regs) -> Self
        ensures { result ≡ regs }
    {
        Cpu { regs }
    }

    /// The registers.
    #[inline]
    pub fn regs(&self) -> Regs
        ensures { result ≡ self.now }
    {
        self.regs
    }

    /// RESET (UM0080, "Pin Functions"): PC, I, R, the interrupt mode and both interrupt flip-flops are
    /// cleared, with halted and EI's delay; the other registers keep what they have (this profile).
    pub fn reset(&mut self)
        ensures { self.new ≡ reset_regs self.old }
    {
        *self = Cpu::with_regs(Regs {
            pc: 0,
            i: 0,
            r: 0,
            mode: InterruptMode::Zero,
            iff1: false,
            iff2: false,
            halted: false,
            after_ei: false,
            ..self.regs
        });
    }

    /// Does one step over a bus: an interrupt's acceptance where one is requested with a vector byte,
    /// enabled and not directly after EI; a halted step; or the instruction at PC. Where that is none,
    /// or in mode 0 the vector byte is no RST, nothing is done and the stop is told, as often as it is
    /// asked for.
    #[inline(always)]
    pub fn step<B: Bus>(&mut self, bus: &mut B, request: Option<u8>) -> Once
        ensures did { DoesCpuStep B.after (cpu_step
            (surroundings_of B.byte_at B.input_at B.after bus.old) self.old request)
            self.old bus.old self.new bus.new result }
        ensures time { IfStepped result (λ ticks kind. (least_ticks ≤ ticks)
            × (ticks ≤ most_ticks)) }
        ensures stop { IfStopped result (λ stop. (self.new ≡ self.old) × (bus.new ≡ bus.old)) }
        ensures again { IfStopped result (λ stop.
            cpu_step (surroundings_of B.byte_at B.input_at B.after bus.new) self.new request
            ≡ Stops stop) }
    {
        advance(Way::ByRows, &mut self.regs, bus, request)
    }

    /// Does one step, as `step`, in a third of its code: each instruction is a call.
    #[inline(always)]
    pub fn step_apart<B: Bus>(&mut self, bus: &mut B, request: Option<u8>) -> Once
        ensures did { DoesCpuStep B.after (cpu_step
            (surroundings_of B.byte_at B.input_at B.after bus.old) self.old request)
            self.old bus.old self.new bus.new result }
        ensures time { IfStepped result (λ ticks kind. (least_ticks ≤ ticks)
            × (ticks ≤ most_ticks)) }
    {
        advance(Way::Apart, &mut self.regs, bus, request)
    }
}
