//! Jumps (UM0080, "Jump Group"). PC stands after the code. The time is the shorter one where a condition isn't met.

ghost use Rattle.std.specs.Prelude.{◌≡◌};
ghost use Rattle.pac_alu.specs.Flags.{field_condition, is_met};
ghost use Rattle.pac_exec.specs.Jumps.{jump_effect, jump_transition, jump_relative_transition};
ghost use Rattle.pac_exec.specs.TransitionProofs.{DoesInRegisters};

use crate::pairs::get_pair;
use crate::regs::{Regs, b_left};
use pac_alu::Condition;
use pac_num::displaced;
use pac_table::{Instr, Jump, Pair};

/// Whether the condition in an instruction's first field is met.
#[inline(always)]
pub fn meets_condition(instr: &Instr, regs: &Regs) -> bool
    ensures { result ≡ is_met (field_condition instr.now.p) regs.now.f }
{
    Condition::from_field(instr.p()).is_met(regs.f)
}

/// JP nn.
#[inline(always)]
fn jump(instr: &Instr, regs: &mut Regs) -> u8
    ensures { DoesInRegisters (jump_transition instr.now regs.old) regs.new result }
{
    regs.pc = instr.word();
    instr.ticks()
}

/// JP cc,nn.
#[inline(always)]
#[tactic(auto, unfolding(crate::specs::Jumps::jump_effect))]
fn jump_if(instr: &Instr, regs: &mut Regs) -> u8
    ensures { DoesInRegisters (jump_effect Jump.If instr.now regs.old) regs.new result }
{
    if meets_condition(instr, regs) {
        jump(instr, regs)
    } else {
        instr.ticks_other()
    }
}

/// JP (HL).
#[inline(always)]
#[tactic(auto, unfolding(crate::specs::Jumps::jump_effect))]
fn jump_to_pair(pair: Pair, instr: &Instr, regs: &mut Regs) -> u8
    ensures { DoesInRegisters (jump_effect (Jump.ToPair pair) instr.now regs.old) regs.new result }
{
    regs.pc = get_pair(pair, instr, regs);
    instr.ticks()
}

/// JR e.
#[inline(always)]
fn jump_relative(instr: &Instr, regs: &mut Regs) -> u8
    ensures { DoesInRegisters (jump_relative_transition instr.now regs.old) regs.new result }
{
    regs.pc = displaced(regs.pc, instr.disp());
    instr.ticks()
}

/// JR cc,e.
#[inline(always)]
#[tactic(auto, unfolding(crate::specs::Jumps::jump_effect))]
fn jump_relative_if(instr: &Instr, regs: &mut Regs) -> u8
    ensures { DoesInRegisters (jump_effect Jump.RelativeIf instr.now regs.old) regs.new result }
{
    if meets_condition(instr, regs) {
        jump_relative(instr, regs)
    } else {
        instr.ticks_other()
    }
}

/// DJNZ e.
#[inline(always)]
#[tactic(auto, unfolding(crate::specs::Jumps::jump_effect))]
fn decrement_and_jump(instr: &Instr, regs: &mut Regs) -> u8
    ensures { DoesInRegisters (jump_effect Jump.DecrementAndJump instr.now regs.old) regs.new
        result }
{
    regs.b = b_left(regs);
    if regs.b != 0 {
        jump_relative(instr, regs)
    } else {
        instr.ticks_other()
    }
}

/// A jump, by its function; the time in T-states.
#[inline(always)]
#[tactic(auto, unfolding(crate::specs::Jumps::jump_effect))]
pub fn perform_jump(with: Jump, instr: &Instr, regs: &mut Regs) -> u8
    ensures { DoesInRegisters (jump_effect with instr.now regs.old) regs.new result }
{
    match with {
        Jump::Absolute => jump(instr, regs),
        Jump::If => jump_if(instr, regs),
        Jump::ToPair(pair) => jump_to_pair(pair, instr, regs),
        Jump::Relative => jump_relative(instr, regs),
        Jump::RelativeIf => jump_relative_if(instr, regs),
        Jump::DecrementAndJump => decrement_and_jump(instr, regs),
    }
}
