//! Arithmetic of 8 bits and of the carry (UM0080, "8-Bit Arithmetic Group" and "General-Purpose Arithmetic and CPU Control Groups").

ghost use Rattle.pac_table.specs.Instructions.{ticks_of};
ghost use Rattle.pac_alu.specs.Arithmetic.{decimal_of, complement_of, negation_of, carry_set_of};
ghost use Rattle.pac_alu.specs.Arithmetic.{carry_flipped_of};
ghost use Rattle.pac_exec.specs.ByteArithmetic.{byte_arithmetic_effect, outcome_in_accumulator};
ghost use Rattle.pac_exec.specs.ByteArithmetic.{outcome_in_place};
ghost use Rattle.pac_exec.specs.TransitionProofs.{DoesTransition, DoesInRegisters};
ghost use Rattle.pac_exec.specs.Transition.{registers_alone};

use crate::places::{get, put};
use crate::regs::Regs;
use pac_alu::{ByteOperation, ByteResult};
use pac_bus::Bus;
use pac_table::{ByteArithmetic, BytePlace, Instr};

/// Puts what an operation leaves into A and F; the instruction's time in T-states.
#[inline(always)]
pub fn put_in_accumulator(outcome: ByteResult, instr: &Instr, regs: &mut Regs) -> u8
    ensures { DoesInRegisters (outcome_in_accumulator outcome instr.now regs.old) regs.new result }
{
    regs.a = outcome.value;
    regs.f = outcome.f;
    instr.ticks()
}

/// Puts what an operation leaves into a place and F; the instruction's time in T-states.
#[inline(always)]
pub fn put_in_place<B: Bus>(
    outcome: ByteResult,
    place: BytePlace,
    instr: &Instr,
    regs: &mut Regs,
    bus: &mut B,
) -> u8
    ensures { DoesTransition B.after (outcome_in_place outcome place instr.now regs.old) bus.old
        regs.new bus.new result }
{
    put(place, outcome.value, instr, regs, bus);
    regs.f = outcome.f;
    instr.ticks()
}

/// ADD, ADC, SUB, SBC, AND, XOR, OR and CP.
#[inline(always)]
#[tactic(auto, unfolding(crate::specs::ByteArithmetic::byte_arithmetic_effect))]
fn alu<B: Bus>(place: BytePlace, instr: &Instr, regs: &mut Regs, bus: &B) -> u8
    ensures { DoesInRegisters (byte_arithmetic_effect (ByteArithmetic.Alu place) instr.now regs.old
        (B.byte_at bus.now)) regs.new result }
{
    let operand = get(place, instr, regs, bus);
    let operation = ByteOperation::from_field(instr.p());
    let outcome = pac_alu::arithmetic(operation, regs.a, operand, regs.f);
    put_in_accumulator(outcome, instr, regs)
}

/// INC of a byte.
#[inline(always)]
#[tactic(auto, unfolding(crate::specs::ByteArithmetic::byte_arithmetic_effect))]
fn increment<B: Bus>(place: BytePlace, instr: &Instr, regs: &mut Regs, bus: &mut B) -> u8
    ensures { DoesTransition B.after (byte_arithmetic_effect (ByteArithmetic.Increment place)
        instr.now regs.old (B.byte_at bus.old))
        bus.old regs.new bus.new result }
{
    let outcome = pac_alu::increment(get(place, instr, regs, bus), regs.f);
    put_in_place(outcome, place, instr, regs, bus)
}

/// DEC of a byte.
#[inline(always)]
#[tactic(auto, unfolding(crate::specs::ByteArithmetic::byte_arithmetic_effect))]
fn decrement<B: Bus>(place: BytePlace, instr: &Instr, regs: &mut Regs, bus: &mut B) -> u8
    ensures { DoesTransition B.after (byte_arithmetic_effect (ByteArithmetic.Decrement place)
        instr.now regs.old (B.byte_at bus.old))
        bus.old regs.new bus.new result }
{
    let outcome = pac_alu::decrement(get(place, instr, regs, bus), regs.f);
    put_in_place(outcome, place, instr, regs, bus)
}

/// DAA.
#[inline(always)]
fn decimal_adjust(instr: &Instr, regs: &mut Regs) -> u8
    ensures { DoesInRegisters (outcome_in_accumulator (decimal_of regs.old.a regs.old.f) instr.now
        regs.old) regs.new result }
{
    let outcome = pac_alu::decimal_adjust(regs.a, regs.f);
    put_in_accumulator(outcome, instr, regs)
}

/// CPL.
#[inline(always)]
fn complement(instr: &Instr, regs: &mut Regs) -> u8
    ensures { DoesInRegisters (outcome_in_accumulator (complement_of regs.old.a regs.old.f)
        instr.now regs.old) regs.new result }
{
    let outcome = pac_alu::complement(regs.a, regs.f);
    put_in_accumulator(outcome, instr, regs)
}

/// NEG.
#[inline(always)]
fn negate(instr: &Instr, regs: &mut Regs) -> u8
    ensures { DoesInRegisters (outcome_in_accumulator (negation_of regs.old.a regs.old.f) instr.now
        regs.old) regs.new result }
{
    let outcome = pac_alu::negate(regs.a, regs.f);
    put_in_accumulator(outcome, instr, regs)
}

/// SCF.
#[inline(always)]
fn set_carry(instr: &Instr, regs: &mut Regs) -> u8
    ensures { DoesInRegisters (registers_alone (record regs.old { f = carry_set_of regs.old.f })
        (ticks_of instr.now)) regs.new result }
{
    regs.f = pac_alu::set_carry(regs.f);
    instr.ticks()
}

/// CCF.
#[inline(always)]
fn complement_carry(instr: &Instr, regs: &mut Regs) -> u8
    ensures { DoesInRegisters (registers_alone (record regs.old { f = carry_flipped_of regs.old.f })
        (ticks_of instr.now)) regs.new result }
{
    regs.f = pac_alu::complement_carry(regs.f);
    instr.ticks()
}

/// Arithmetic of a byte, by its function; the time in T-states.
#[inline(always)]
#[tactic(auto, unfolding(crate::specs::ByteArithmetic::byte_arithmetic_effect))]
pub fn perform_byte_arithmetic<B: Bus>(
    with: ByteArithmetic,
    instr: &Instr,
    regs: &mut Regs,
    bus: &mut B,
) -> u8
    ensures { DoesTransition B.after (byte_arithmetic_effect with instr.now regs.old
        (B.byte_at bus.old)) bus.old regs.new bus.new result }
{
    match with {
        ByteArithmetic::Alu(place) => alu(place, instr, regs, bus),
        ByteArithmetic::Increment(place) => increment(place, instr, regs, bus),
        ByteArithmetic::Decrement(place) => decrement(place, instr, regs, bus),
        ByteArithmetic::DecimalAdjust => decimal_adjust(instr, regs),
        ByteArithmetic::Complement => complement(instr, regs),
        ByteArithmetic::Negate => negate(instr, regs),
        ByteArithmetic::SetCarry => set_carry(instr, regs),
        ByteArithmetic::ComplementCarry => complement_carry(instr, regs),
    }
}
