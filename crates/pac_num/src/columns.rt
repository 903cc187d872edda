//! Bytes as digits in the columns of a row.

ghost use Rattle.std.specs.Prelude.{◌≡◌, ◌/◌, ◌%◌};
ghost use Rattle.pac_num.specs.Hexadecimal.{hex_digit};
ghost use Rattle.pac_num.specs.Columns as columns;

use crate::hexadecimal::hex_byte;

/// The first digit of a byte.
#[tactic(auto, unfolding(crate::specs::Hexadecimal::hex_byte))]
#[inline]
fn high_digit(byte: u8) -> u8
    ensures { result ≡ hex_digit (byte / 16) }
{
    hex_byte(byte)[0]
}

/// The second digit of a byte.
#[tactic(auto, unfolding(crate::specs::Hexadecimal::hex_byte))]
#[inline]
fn low_digit(byte: u8) -> u8
    ensures { result ≡ hex_digit (byte % 16) }
{
    hex_byte(byte)[1]
}

/// The digits of the first four bytes, left in eight places.
#[tactic(auto, unfolding(crate::specs::Columns::byte_columns, crate::specs::Hexadecimal::hex_byte))]
#[inline]
pub fn byte_columns(bytes: &[u8]) -> [u8; 8]
    ensures { result ≡ columns.byte_columns bytes.now }
{
    match bytes {
        [] => [b' '; 8],
        [a] => [
            high_digit(*a),
            low_digit(*a),
            b' ',
            b' ',
            b' ',
            b' ',
            b' ',
            b' ',
        ],
        [a, b] => [
            high_digit(*a),
            low_digit(*a),
            high_digit(*b),
            low_digit(*b),
            b' ',
            b' ',
            b' ',
            b' ',
        ],
        [a, b, c] => [
            high_digit(*a),
            low_digit(*a),
            high_digit(*b),
            low_digit(*b),
            high_digit(*c),
            low_digit(*c),
            b' ',
            b' ',
        ],
        [a, b, c, d, ..] => [
            high_digit(*a),
            low_digit(*a),
            high_digit(*b),
            low_digit(*b),
            high_digit(*c),
            low_digit(*c),
            high_digit(*d),
            low_digit(*d),
        ],
    }
}
