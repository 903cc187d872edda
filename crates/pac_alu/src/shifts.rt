//! Rotations and shifts of bytes, and RLD and RRD.

ghost use Rattle.std.specs.Prelude.{◌≡◌};
ghost use Rattle.pac_alu.specs.FlagsProofs.{IsCarry};
ghost use Rattle.pac_alu.specs.Rotate.{field_shift, shifted_of, leaving_bit, shift_of};
ghost use Rattle.pac_alu.specs.Rotate.{accumulator_rotation_of};
ghost use Rattle.pac_alu.specs.Rotate.{left_digits_of, right_digits_of};

use crate::bytes::ByteResult;
use crate::flag_byte::{Flags, parity_flags};

/// A rotation or shift of a byte (UM0080, "Rotate and Shift Group").
#[derive(Clone, Copy)]
pub enum Shift {
    /// Left in the byte.
    Rlc,
    /// Right in the byte.
    Rrc,
    /// Left through C.
    Rl,
    /// Right through C.
    Rr,
    /// Left, 0 coming in.
    Sla,
    /// Right, bit 7 staying.
    Sra,
    /// Right, 0 coming in.
    Srl,
}

/// What RLD and RRD leave: A, the byte in memory and F.
#[derive(Clone, Copy)]
pub struct Digits {
    /// A after the rotation.
    pub a: u8,
    /// The byte at HL after the rotation.
    pub memory: u8,
    /// F after the rotation.
    pub f: u8,
}

impl Shift {
    /// The shift of a code's field, 0 to 5 and 7. Field 6 is no documented code and taken as SRL, like 7
    /// and all above.
    #[inline]
    #[tactic(auto, unfolding(crate::specs::Rotate::field_shift))]
    pub fn from_field(field: u8) -> Shift
        ensures { result ≡ field_shift field }
    {
        match field {
            0 => Shift::Rlc,
            1 => Shift::Rrc,
            2 => Shift::Rl,
            3 => Shift::Rr,
            4 => Shift::Sla,
            5 => Shift::Sra,
            _ => Shift::Srl,
        }
    }
}

/// The byte one place further, a carry of 0 or 1 coming in where the shift takes it.
#[inline]
fn shifted(shift: Shift, byte: u8, carry: u8) -> u8
    requires { IsCarry carry }
    ensures { result ≡ shifted_of shift byte carry }
{
    let left = (byte as u16 * 2 % 256) as u8;
    match shift {
        Shift::Rlc => left + byte / 128,
        Shift::Rrc => byte / 2 + byte % 2 * 128,
        Shift::Rl => left + carry,
        Shift::Rr => byte / 2 + carry * 128,
        Shift::Sla => left,
        Shift::Sra => byte / 2 + byte / 128 * 128,
        Shift::Srl => byte / 2,
    }
}

/// The bit that leaves the byte, 0 or 1.
#[inline]
fn leaving(shift: Shift, byte: u8) -> u8
    ensures { result ≡ leaving_bit shift byte }
{
    match shift {
        Shift::Rlc | Shift::Rl | Shift::Sla => byte / 128,
        Shift::Rrc | Shift::Rr | Shift::Sra | Shift::Srl => byte % 2,
    }
}

/// A byte and F after a shift.
#[inline]
#[tactic(auto, unfolding(crate::specs::Rotate::shift_of))]
pub fn shift_byte(shift: Shift, byte: u8, f: u8) -> ByteResult
    ensures { result ≡ shift_of shift byte f }
{
    let value = shifted(shift, byte, f % 2);
    let flags = parity_flags(value, false, leaving(shift, byte) == 1);
    ByteResult {
        value,
        f: flags.byte(f),
    }
}

/// A and F after RLCA, RRCA, RLA or RRA: A as by the shift of that name, but S, Z and P/V stay.
#[inline]
#[tactic(auto, unfolding(crate::specs::Rotate::accumulator_rotation_of))]
pub fn rotate_accumulator(shift: Shift, a: u8, f: u8) -> ByteResult
    ensures { result ≡ accumulator_rotation_of shift a f }
{
    let flags = Flags {
        half_carry: false,
        subtract: false,
        carry: leaving(shift, a) == 1,
        ..Flags::of(f)
    };
    ByteResult {
        value: shifted(shift, a, f % 2),
        f: flags.byte(f),
    }
}

/// A, the byte in memory and F after RLD.
#[inline]
#[tactic(auto, unfolding(crate::specs::Rotate::left_digits_of))]
pub fn rotate_digits_left(a: u8, memory: u8, f: u8) -> Digits
    ensures { result ≡ left_digits_of a memory f }
{
    let value = a / 16 * 16 + memory / 16;
    Digits {
        a: value,
        memory: memory % 16 * 16 + a % 16,
        f: parity_flags(value, false, Flags::of(f).carry).byte(f),
    }
}

/// A, the byte in memory and F after RRD.
#[inline]
#[tactic(auto, unfolding(crate::specs::Rotate::right_digits_of))]
pub fn rotate_digits_right(a: u8, memory: u8, f: u8) -> Digits
    ensures { result ≡ right_digits_of a memory f }
{
    let value = a / 16 * 16 + memory % 16;
    Digits {
        a: value,
        memory: a % 16 * 16 + memory / 16,
        f: parity_flags(value, false, Flags::of(f).carry).byte(f),
    }
}
