//! Calls and returns (UM0080, "Call and Return Group"). PC stands after the code. The time is the shorter one where a condition isn't met.

ghost use Rattle.std.specs.Prelude.{◌*◌};
ghost use Rattle.pac_exec.specs.Calls.{call_effect, call_to_address, return_transition};
ghost use Rattle.pac_exec.specs.TransitionProofs.{DoesTransition, DoesInRegisters};

use crate::jumps::meets_condition;
use crate::pairs::{pop_word, push_word};
use crate::regs::Regs;
use pac_bus::Bus;
use pac_table::{Call, Instr};

/// Pushes PC and goes to an address.
#[inline(always)]
fn call_address<B: Bus>(address: u16, instr: &Instr, regs: &mut Regs, bus: &mut B) -> u8
    ensures { DoesTransition B.after (call_to_address address instr.now regs.old) bus.old
        regs.new bus.new result }
{
    push_word(regs.pc, regs, bus);
    regs.pc = address;
    instr.ticks()
}

/// CALL nn.
#[inline(always)]
fn call<B: Bus>(instr: &Instr, regs: &mut Regs, bus: &mut B) -> u8
    ensures { DoesTransition B.after (call_to_address instr.now.word instr.now regs.old) bus.old
        regs.new bus.new result }
{
    call_address(instr.word(), instr, regs, bus)
}

/// CALL cc,nn.
#[inline(always)]
#[tactic(auto, unfolding(crate::specs::Calls::call_effect))]
fn call_if<B: Bus>(instr: &Instr, regs: &mut Regs, bus: &mut B) -> u8
    ensures { DoesTransition B.after (call_effect Call.If instr.now regs.old (B.byte_at bus.old))
        bus.old regs.new bus.new result }
{
    if meets_condition(instr, regs) {
        call(instr, regs, bus)
    } else {
        instr.ticks_other()
    }
}

/// RST p.
#[inline(always)]
fn restart<B: Bus>(instr: &Instr, regs: &mut Regs, bus: &mut B) -> u8
    ensures { DoesTransition B.after (call_to_address (8 * instr.now.p) instr.now regs.old) bus.old
        regs.new bus.new result }
{
    call_address(8 * instr.p() as u16, instr, regs, bus)
}

/// RET, and RETI: in this profile both interrupt flip-flops stay.
#[inline(always)]
fn return_to_caller<B: Bus>(instr: &Instr, regs: &mut Regs, bus: &B) -> u8
    ensures { DoesInRegisters (return_transition instr.now regs.old (B.byte_at bus.now)) regs.new
        result }
{
    regs.pc = pop_word(regs, bus);
    instr.ticks()
}

/// RET cc.
#[inline(always)]
#[tactic(auto, unfolding(crate::specs::Calls::call_effect))]
fn return_if<B: Bus>(instr: &Instr, regs: &mut Regs, bus: &B) -> u8
    ensures { DoesInRegisters (call_effect Call.ReturnIf instr.now regs.old (B.byte_at bus.now))
        regs.new result }
{
    if meets_condition(instr, regs) {
        return_to_caller(instr, regs, bus)
    } else {
        instr.ticks_other()
    }
}

/// RETN: IFF1 becomes IFF2.
#[inline(always)]
#[tactic(auto, unfolding(crate::specs::Calls::call_effect))]
fn return_from_non_maskable<B: Bus>(instr: &Instr, regs: &mut Regs, bus: &B) -> u8
    ensures { DoesInRegisters (call_effect Call.ReturnFromNonMaskable instr.now regs.old
        (B.byte_at bus.now)) regs.new result }
{
    regs.iff1 = regs.iff2;
    return_to_caller(instr, regs, bus)
}

/// A call, a return or a restart, by its function; the time in T-states.
#[inline(always)]
#[tactic(auto, unfolding(crate::specs::Calls::call_effect))]
pub fn perform_call<B: Bus>(with: Call, instr: &Instr, regs: &mut Regs, bus: &mut B) -> u8
    ensures { DoesTransition B.after (call_effect with instr.now regs.old (B.byte_at bus.old))
        bus.old regs.new bus.new result }
{
    match with {
        Call::Always => call(instr, regs, bus),
        Call::If => call_if(instr, regs, bus),
        Call::Return => return_to_caller(instr, regs, bus),
        Call::ReturnIf => return_if(instr, regs, bus),
        Call::ReturnFromInterrupt => return_to_caller(instr, regs, bus),
        Call::ReturnFromNonMaskable => return_from_non_maskable(instr, regs, bus),
        Call::Restart => restart(instr, regs, bus),
    }
}
