//! Bits, bytes and words as the processor and the board read them, as whole numbers, the pixels of a byte, and
//! hexadecimal digits.
#![tactic(auto)]

ghost use Rattle.std.specs.Prelude.{◌≡◌, ◌<◌, ◌+◌};
ghost use Rattle.pac_num.specs.Numbers as number;
ghost use Rattle.pac_num.specs.Pixels as pixels;

mod columns;
mod hexadecimal;

pub use columns::byte_columns;
pub use hexadecimal::{hex_byte, hex_word};

/// Bit `place` of a byte, 0 or 1; bit 0 is the lowest.
#[inline]
pub fn bit(byte: u8, place: u8) -> u8
    requires { place < 8 }
    ensures { result ≡ number.bit byte place }
{
    byte / (1 << place) % 2
}

/// The low byte of a word.
#[inline]
pub fn low_byte(word: u16) -> u8
    ensures { result ≡ number.low_byte word }
{
    (word % 256) as u8
}

/// The high byte of a word.
#[inline]
pub fn high_byte(word: u16) -> u8
    ensures { result ≡ number.high_byte word }
{
    (word / 256) as u8
}

/// The word of two bytes.
#[inline]
pub fn word(low: u8, high: u8) -> u16
    ensures { result ≡ number.word low high }
{
    low as u16 + 256 * high as u16
}

/// The address so far from another, modulo 65,536.
#[inline]
pub fn offset(address: u16, by: u16) -> u16
    ensures { result ≡ number.wrapped_address (address + by) }
{
    address.wrapping_add(by)
}

/// The address a signed byte away from another, -128 to 127, modulo 65,536.
#[inline]
pub fn displaced(base: u16, d: i8) -> u16
    ensures { result ≡ number.displaced_address base d }
{
    base.wrapping_add(i16::from(d).cast_unsigned())
}

/// A byte read in two's complement, -128 to 127.
#[inline]
pub fn signed(byte: u8) -> i8
    ensures { result ≡ number.signed_of_byte byte }
{
    byte.cast_signed()
}

/// The byte that stands for a number from -128 to 127 in two's complement.
#[inline]
pub fn unsigned(value: i8) -> u8
    ensures { result ≡ number.byte_of_signed value }
{
    if value >= 0 {
        value as u8
    } else {
        255 - (-(value + 1)) as u8
    }
}

/// Whether a byte has an even count of ones, as the parity flag tells it.
#[inline]
pub fn is_even(byte: u8) -> bool
    ensures { result ≡ number.has_even_parity byte }
{
    byte.count_ones() % 2 == 0
}

/// The value, 0 to 3, of the pixel in a column of the four that a byte of the tile or the sprite ROM has, from left
/// to right; columns repeat every four.
#[inline]
pub fn pixel_value(byte: u8, x: u8) -> u8
    ensures value { result ≡ pixels.pixel_value byte x }
    ensures below { result < 4 }
{
    2 * bit(byte, 7 - x % 4) + bit(byte, 3 - x % 4)
}
