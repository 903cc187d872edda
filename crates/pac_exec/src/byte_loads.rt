//! Loads of bytes, those between A and the registers I and R among them (UM0080, "8-Bit Load Group").

ghost use Rattle.pac_table.specs.Instructions.{ticks_of};
ghost use Rattle.pac_alu.specs.Transfer.{control_load_flags_of};
ghost use Rattle.pac_exec.specs.ByteLoads.{byte_load_effect, special_value, with_special};
ghost use Rattle.pac_exec.specs.TransitionProofs.{DoesTransition, DoesInRegisters};
ghost use Rattle.pac_exec.specs.Transition.{registers_alone};

use crate::places::{get, put_byte};
use crate::regs::Regs;
use pac_bus::Bus;
use pac_table::{ByteLoad, BytePlace, Instr, Special};

/// LD of a byte; its time in T-states.
#[inline(always)]
#[tactic(auto, unfolding(crate::specs::ByteLoads::byte_load_effect))]
pub fn load<B: Bus>(
    to: BytePlace,
    from: BytePlace,
    instr: &Instr,
    regs: &mut Regs,
    bus: &mut B,
) -> u8
    ensures { DoesTransition B.after (byte_load_effect (ByteLoad.Load to from) instr.now regs.old
        (B.byte_at bus.old)) bus.old regs.new
        bus.new result }
{
    let byte = get(from, instr, regs, bus);
    put_byte(to, byte, instr, regs, bus)
}

/// LD A,I and LD A,R; R has counted the instruction's own fetches.
fn load_from_special(special: Special, instr: &Instr, regs: &mut Regs) -> u8
    ensures { DoesInRegisters (registers_alone (record regs.old {
      a = special_value special regs.old;
      f = control_load_flags_of
          (special_value special regs.old) regs.old.iff2 regs.old.f;
    }) (ticks_of instr.now)) regs.new result }
{
    regs.a = match special {
        Special::Interrupt => regs.i,
        Special::Refresh => regs.r,
    };
    regs.f = pac_alu::control_load_flags(regs.a, regs.iff2, regs.f);
    instr.ticks()
}

/// LD I,A and LD R,A, which sets all eight bits of R.
fn load_special(special: Special, instr: &Instr, regs: &mut Regs) -> u8
    ensures { DoesInRegisters (registers_alone (with_special special regs.old regs.old.a)
        (ticks_of instr.now)) regs.new result }
{
    match special {
        Special::Interrupt => regs.i = regs.a,
        Special::Refresh => regs.r = regs.a,
    }
    instr.ticks()
}

/// A load of a byte, by its function; the time in T-states.
#[inline(always)]
#[tactic(auto, unfolding(crate::specs::ByteLoads::byte_load_effect))]
pub fn perform_byte_load<B: Bus>(with: ByteLoad, instr: &Instr, regs: &mut Regs, bus: &mut B) -> u8
    ensures { DoesTransition B.after (byte_load_effect with instr.now regs.old (B.byte_at bus.old))
        bus.old regs.new bus.new result }
{
    match with {
        ByteLoad::Load(to, from) => load(to, from, instr, regs, bus),
        ByteLoad::LoadFromSpecial(special) => load_from_special(special, instr, regs),
        ByteLoad::LoadSpecial(special) => load_special(special, instr, regs),
    }
}
