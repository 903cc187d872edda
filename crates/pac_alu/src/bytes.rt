//! Operations on bytes: the eight of A and an operand, INC, DEC, NEG, CPL and DAA.

ghost use Rattle.std.specs.Prelude.{◌≡◌, ◌+ℤ◌, ◌-ℤ◌, pos};
ghost use Rattle.pac_alu.specs.FlagsProofs.{IsCarry};
ghost use Rattle.pac_alu.specs.Flags.{overflows};
ghost use Rattle.pac_alu.specs.Arithmetic.{sum_flags, sum_of, difference_flags, difference_of};
ghost use Rattle.pac_alu.specs.Arithmetic.{logic_of, field_operation, arithmetic_of, increment_of};
ghost use Rattle.pac_alu.specs.Arithmetic.{decrement_of, negation_of, complement_of, decimal_of};
ghost use Rattle.pac_alu.specs.Arithmetic.{corrects_low, corrects_high, adjusted_of};
ghost use Rattle.pac_alu.specs.Arithmetic.{adjusted_half_carry};
ghost use Rattle.pac_num.specs.Numbers.{signed_of_byte};

use crate::flag_byte::{Flags, parity_flags, weight};

/// An operation of A and an operand, in the order of the codes 0 to 7 (UM0080, "8-Bit Arithmetic Group").
#[derive(Clone, Copy)]
pub enum ByteOperation {
    Add,
    /// ADD with the carry.
    Adc,
    Sub,
    /// SUB with the carry.
    Sbc,
    And,
    Xor,
    Or,
    /// SUB for its flags alone.
    Cp,
}

/// What an operation on bytes leaves: the value and F.
#[derive(Clone, Copy)]
pub struct ByteResult {
    /// The byte.
    pub value: u8,
    /// F after the operation.
    pub f: u8,
}

impl ByteOperation {
    /// The operation of a code's field, 0 to 7; 7 and above are CP.
    #[inline]
    #[tactic(auto, unfolding(crate::specs::Arithmetic::field_operation))]
    pub fn from_field(field: u8) -> ByteOperation
        ensures { result ≡ field_operation field }
    {
        match field {
            0 => ByteOperation::Add,
            1 => ByteOperation::Adc,
            2 => ByteOperation::Sub,
            3 => ByteOperation::Sbc,
            4 => ByteOperation::And,
            5 => ByteOperation::Xor,
            6 => ByteOperation::Or,
            _ => ByteOperation::Cp,
        }
    }
}

/// Whether the signed sum is outside -128 to 127. Each signed byte is lifted by 128 to stay above 0.
#[inline]
fn sum_overflows(a: u8, operand: u8, carry: u8) -> bool
    ensures { result ≡ overflows ((signed_of_byte a +ℤ signed_of_byte operand) +ℤ pos carry) }
{
    let lifted = (a as u16 + 128) % 256 + (operand as u16 + 128) % 256 + carry as u16;
    lifted < 128 || 383 < lifted
}

/// Whether the signed difference is outside -128 to 127. Each signed byte is lifted by 128 to stay above 0.
#[inline]
fn difference_overflows(a: u8, operand: u8, carry: u8) -> bool
    ensures { result ≡ overflows ((signed_of_byte a -ℤ signed_of_byte operand) -ℤ pos carry) }
{
    let lifted = (a as u16 + 128) % 256;
    let taken = (operand as u16 + 128) % 256 + carry as u16;
    lifted + 128 < taken || taken + 127 < lifted
}

/// The flags of ADD and ADC.
#[inline(always)]
fn sum_flags(a: u8, operand: u8, carry: u8) -> Flags
    ensures { result ≡ sum_flags a operand carry }
{
    let whole = a as u16 + operand as u16 + carry as u16;
    let value = (whole % 256) as u8;
    Flags {
        sign: 128 <= value,
        zero: value == 0,
        half_carry: 15 < a as u16 % 16 + operand as u16 % 16 + carry as u16,
        parity_overflow: sum_overflows(a, operand, carry),
        subtract: false,
        carry: 255 < whole,
    }
}

/// ADD and ADC.
#[inline(always)]
#[tactic(auto, unfolding(crate::specs::Arithmetic::sum_of))]
fn sum(a: u8, operand: u8, carry: u8, f: u8) -> ByteResult
    ensures { result ≡ sum_of a operand carry f }
{
    ByteResult {
        value: ((a as u16 + operand as u16 + carry as u16) % 256) as u8,
        f: sum_flags(a, operand, carry).byte(f),
    }
}

/// The flags of SUB and SBC.
#[inline(always)]
pub(crate) fn difference_flags(a: u8, operand: u8, carry: u8) -> Flags
    requires { IsCarry carry }
    ensures { result ≡ difference_flags a operand carry }
{
    let taken = operand as u16 + carry as u16;
    let value = ((256 + a as u16 - taken) % 256) as u8;
    Flags {
        sign: 128 <= value,
        zero: value == 0,
        half_carry: a % 16 < operand % 16 + carry,
        parity_overflow: difference_overflows(a, operand, carry),
        subtract: true,
        carry: (a as u16) < taken,
    }
}

/// SUB, SBC and what CP tells.
#[inline(always)]
#[tactic(auto, unfolding(crate::specs::Arithmetic::difference_of))]
fn difference(a: u8, operand: u8, carry: u8, f: u8) -> ByteResult
    requires { IsCarry carry }
    ensures { result ≡ difference_of a operand carry f }
{
    let taken = operand as u16 + carry as u16;
    ByteResult {
        value: ((256 + a as u16 - taken) % 256) as u8,
        f: difference_flags(a, operand, carry).byte(f),
    }
}

/// AND, OR and XOR.
#[inline(always)]
#[tactic(auto, unfolding(crate::specs::Arithmetic::logic_of))]
fn logic(value: u8, half_carry: bool, f: u8) -> ByteResult
    ensures { result ≡ logic_of value half_carry f }
{
    ByteResult {
        value,
        f: parity_flags(value, half_carry, false).byte(f),
    }
}

/// A and F after an operation of A and an operand.
#[inline(always)]
#[tactic(auto, unfolding(crate::specs::Arithmetic::arithmetic_of))]
pub fn arithmetic(operation: ByteOperation, a: u8, operand: u8, f: u8) -> ByteResult
    ensures { result ≡ arithmetic_of operation a operand f }
{
    match operation {
        ByteOperation::Add => sum(a, operand, 0, f),
        ByteOperation::Adc => sum(a, operand, f % 2, f),
        ByteOperation::Sub => difference(a, operand, 0, f),
        ByteOperation::Sbc => difference(a, operand, f % 2, f),
        ByteOperation::And => logic(a & operand, true, f),
        ByteOperation::Xor => logic(a ^ operand, false, f),
        ByteOperation::Or => logic(a | operand, false, f),
        ByteOperation::Cp => ByteResult {
            value: a,
            f: difference(a, operand, 0, f).f,
        },
    }
}

/// A byte and F after INC.
#[inline(always)]
#[tactic(auto, unfolding(crate::specs::Arithmetic::increment_of))]
pub fn increment(byte: u8, f: u8) -> ByteResult
    ensures { result ≡ increment_of byte f }
{
    let flags = Flags {
        carry: Flags::of(f).carry,
        ..sum_flags(byte, 1, 0)
    };
    ByteResult {
        value: ((byte as u16 + 1) % 256) as u8,
        f: flags.byte(f),
    }
}

/// A byte and F after DEC.
#[inline(always)]
#[tactic(auto, unfolding(crate::specs::Arithmetic::decrement_of))]
pub fn decrement(byte: u8, f: u8) -> ByteResult
    ensures { result ≡ decrement_of byte f }
{
    let flags = Flags {
        carry: Flags::of(f).carry,
        ..difference_flags(byte, 1, 0)
    };
    ByteResult {
        value: ((byte as u16 + 255) % 256) as u8,
        f: flags.byte(f),
    }
}

/// A and F after NEG.
#[inline]
#[tactic(auto, unfolding(crate::specs::Arithmetic::negation_of))]
pub fn negate(a: u8, f: u8) -> ByteResult
    ensures { result ≡ negation_of a f }
{
    difference(0, a, 0, f)
}

/// A and F after CPL.
#[inline]
#[tactic(auto, unfolding(crate::specs::Arithmetic::complement_of))]
pub fn complement(a: u8, f: u8) -> ByteResult
    ensures { result ≡ complement_of a f }
{
    let flags = Flags {
        half_carry: true,
        subtract: true,
        ..Flags::of(f)
    };
    ByteResult {
        value: 255 - a,
        f: flags.byte(f),
    }
}

/// Whether DAA corrects the low digit.
#[inline]
fn corrects_low_digit(a: u8, before: Flags) -> bool
    ensures { result ≡ corrects_low a before }
{
    before.half_carry || 9 < a % 16
}

/// Whether DAA corrects the high digit.
#[inline]
fn corrects_high_digit(a: u8, before: Flags) -> bool
    ensures { result ≡ corrects_high a before }
{
    before.carry || 0x99 < a
}

/// A after DAA: less its correction where N is set, else with it.
#[inline]
fn adjusted(a: u8, before: Flags) -> u8
    ensures { result ≡ adjusted_of a before }
{
    let low = weight(6, corrects_low_digit(a, before));
    let correction = low + weight(0x60, corrects_high_digit(a, before));
    if before.subtract {
        ((256 + a as u16 - correction as u16) % 256) as u8
    } else {
        ((a as u16 + correction as u16) % 256) as u8
    }
}

/// H after DAA: a carry or borrow of the low digit.
#[inline]
fn half_carry_of_adjustment(a: u8, before: Flags) -> bool
    ensures { result ≡ adjusted_half_carry a before }
{
    if before.subtract {
        before.half_carry && a % 16 < 6
    } else {
        9 < a % 16
    }
}

/// A and F after DAA.
#[inline]
#[tactic(auto, unfolding(crate::specs::Arithmetic::decimal_of))]
pub fn decimal_adjust(a: u8, f: u8) -> ByteResult
    ensures { result ≡ decimal_of a f }
{
    let before = Flags::of(f);
    let value = adjusted(a, before);
    let flags = Flags {
        sign: 128 <= value,
        zero: value == 0,
        half_carry: half_carry_of_adjustment(a, before),
        parity_overflow: pac_num::is_even(value),
        subtract: before.subtract,
        carry: corrects_high_digit(a, before),
    };
    ByteResult {
        value,
        f: flags.byte(f),
    }
}
