//! Upper-case hexadecimal digits.

ghost use Rattle.std.specs.Prelude.{◌≡◌, ◌<◌};
ghost use Rattle.pac_num.specs.Hexadecimal as hexadecimal;

/// The digit of a number below 16, in ASCII.
#[inline]
fn hex_digit(nibble: u8) -> u8
    requires { nibble < 16 }
    ensures { result ≡ hexadecimal.hex_digit nibble }
{
    if nibble < 10 {
        48 + nibble
    } else {
        55 + nibble
    }
}

/// The two digits of a byte, in ASCII.
#[inline]
#[tactic(auto, unfolding(crate::specs::Hexadecimal::hex_byte))]
pub fn hex_byte(byte: u8) -> [u8; 2]
    ensures { result ≡ hexadecimal.hex_byte byte }
{
    [hex_digit(byte / 16), hex_digit(byte % 16)]
}

/// The four digits of a word, in ASCII.
#[inline]
#[tactic(auto, unfolding(crate::specs::Hexadecimal::hex_word))]
pub fn hex_word(word: u16) -> [u8; 4]
    ensures { result ≡ hexadecimal.hex_word word }
{
    [
        hex_digit((word / 4096) as u8),
        hex_digit((word / 256 % 16) as u8),
        hex_digit((word / 16 % 16) as u8),
        hex_digit((word % 16) as u8),
    ]
}
