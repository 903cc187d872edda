//! One bit of a byte: BIT, SET and RES.

ghost use Rattle.std.specs.Prelude.{◌≡◌};
ghost use Rattle.pac_alu.specs.Bits.{bit_test_of, weight_at, with_bit, without_bit};

use crate::flag_byte::Flags;

/// F after BIT. The place is a field of three bits: above 7 it counts modulo 8.
#[inline]
#[tactic(auto, unfolding(crate::specs::Bits::bit_test_of))]
pub fn test_bit(byte: u8, place: u8, f: u8) -> u8
    ensures { result ≡ bit_test_of byte place f }
{
    let flags = Flags {
        zero: pac_num::bit(byte, place % 8) == 0,
        half_carry: true,
        subtract: false,
        ..Flags::of(f)
    };
    flags.byte(f)
}

/// The weight of the bit at a place.
#[inline]
fn weight_of(place: u8) -> u8
    ensures { result ≡ weight_at place }
{
    1 << (place % 8)
}

/// A byte after SET. The place is a field of three bits: above 7 it counts modulo 8.
#[inline]
#[tactic(auto, unfolding(crate::specs::Bits::with_bit))]
pub fn set_bit(byte: u8, place: u8) -> u8
    ensures { result ≡ with_bit byte place }
{
    if pac_num::bit(byte, place % 8) == 0 {
        byte + weight_of(place)
    } else {
        byte
    }
}

/// A byte after RES. The place is a field of three bits: above 7 it counts modulo 8.
#[inline]
#[tactic(auto, unfolding(crate::specs::Bits::without_bit))]
pub fn reset_bit(byte: u8, place: u8) -> u8
    ensures { result ≡ without_bit byte place }
{
    if pac_num::bit(byte, place % 8) == 0 {
        byte
    } else {
        byte - weight_of(place)
    }
}
