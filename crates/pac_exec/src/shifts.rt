//! Rotations and shifts (UM0080, "Rotate and Shift Group").

ghost use Rattle.std.specs.Prelude.{◌≡◌};
ghost use Rattle.pac_alu.specs.Rotate.{accumulator_rotation_of};
ghost use Rattle.pac_exec.specs.ByteArithmetic.{outcome_in_accumulator};
ghost use Rattle.pac_exec.specs.Shifts.{rotate_and_shift_effect, named_after, in_digits};
ghost use Rattle.pac_exec.specs.TransitionProofs.{DoesTransition, DoesInRegisters};

use crate::byte_arithmetic::{put_in_accumulator, put_in_place};
use crate::places::get;
use crate::regs::Regs;
use pac_alu::{Digits, Shift};
use pac_bus::Bus;
use pac_table::{BytePlace, Instr, RotateAndShift, Rotation};

/// The rotation of a byte that a rotation of A is named after.
fn shift_of_rotation(rotation: Rotation) -> Shift
    ensures { result ≡ named_after rotation }
{
    match rotation {
        Rotation::LeftCircular => Shift::Rlc,
        Rotation::RightCircular => Shift::Rrc,
        Rotation::Left => Shift::Rl,
        Rotation::Right => Shift::Rr,
    }
}

/// RLCA, RRCA, RLA and RRA.
fn rotate_accumulator(rotation: Rotation, instr: &Instr, regs: &mut Regs) -> u8
    ensures { DoesInRegisters (outcome_in_accumulator
        (accumulator_rotation_of (named_after rotation) regs.old.a regs.old.f) instr.now
        regs.old) regs.new result }
{
    let outcome = pac_alu::rotate_accumulator(shift_of_rotation(rotation), regs.a, regs.f);
    put_in_accumulator(outcome, instr, regs)
}

/// RLC, RRC, RL, RR, SLA, SRA and SRL.
#[tactic(auto, unfolding(crate::specs::Shifts::rotate_and_shift_effect))]
fn shift<B: Bus>(place: BytePlace, instr: &Instr, regs: &mut Regs, bus: &mut B) -> u8
    ensures { DoesTransition B.after (rotate_and_shift_effect (RotateAndShift.Shift place) instr.now
        regs.old (B.byte_at bus.old)) bus.old
        regs.new bus.new result }
{
    let byte = get(place, instr, regs, bus);
    let outcome = pac_alu::shift_byte(Shift::from_field(instr.p()), byte, regs.f);
    put_in_place(outcome, place, instr, regs, bus)
}

/// Puts rotated digits into A, F and the cell at HL; the instruction's time in T-states.
fn put_digits<B: Bus>(digits: Digits, instr: &Instr, regs: &mut Regs, bus: &mut B) -> u8
    ensures { DoesTransition B.after (in_digits digits instr.now regs.old) bus.old
        regs.new bus.new result }
{
    bus.write(regs.hl(), digits.memory);
    regs.a = digits.a;
    regs.f = digits.f;
    instr.ticks()
}

/// RLD.
#[tactic(auto, unfolding(crate::specs::Shifts::rotate_and_shift_effect))]
fn rotate_digit_left<B: Bus>(instr: &Instr, regs: &mut Regs, bus: &mut B) -> u8
    ensures { DoesTransition B.after (rotate_and_shift_effect RotateAndShift.RotateDigitLeft
        instr.now regs.old (B.byte_at bus.old))
        bus.old regs.new bus.new result }
{
    let digits = pac_alu::rotate_digits_left(regs.a, bus.read(regs.hl()), regs.f);
    put_digits(digits, instr, regs, bus)
}

/// RRD.
#[tactic(auto, unfolding(crate::specs::Shifts::rotate_and_shift_effect))]
fn rotate_digit_right<B: Bus>(instr: &Instr, regs: &mut Regs, bus: &mut B) -> u8
    ensures { DoesTransition B.after (rotate_and_shift_effect RotateAndShift.RotateDigitRight
        instr.now regs.old (B.byte_at bus.old))
        bus.old regs.new bus.new
        result }
{
    let digits = pac_alu::rotate_digits_right(regs.a, bus.read(regs.hl()), regs.f);
    put_digits(digits, instr, regs, bus)
}

/// A rotation or a shift, by its function; the time in T-states.
#[tactic(auto, unfolding(crate::specs::Shifts::rotate_and_shift_effect))]
pub fn perform_rotate_and_shift<B: Bus>(
    with: RotateAndShift,
    instr: &Instr,
    regs: &mut Regs,
    bus: &mut B,
) -> u8
    ensures { DoesTransition B.after (rotate_and_shift_effect with instr.now regs.old
        (B.byte_at bus.old)) bus.old regs.new bus.new result }
{
    match with {
        RotateAndShift::RotateAccumulator(rotation) => rotate_accumulator(rotation, instr, regs),
        RotateAndShift::Shift(place) => shift(place, instr, regs, bus),
        RotateAndShift::RotateDigitLeft => rotate_digit_left(instr, regs, bus),
        RotateAndShift::RotateDigitRight => rotate_digit_right(instr, regs, bus),
    }
}
