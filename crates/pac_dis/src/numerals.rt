//! Numbers as they stand in an instruction's text.

ghost use Rattle.std.specs.Prelude.{◌≡◌, ◌<◌, ◌≤◌, ◌+◌, ◌++◌, ◌∷◌, [], length};
ghost use Rattle.pac_num.specs.Hexadecimal.{hex_byte, hex_word};
ghost use Rattle.pac_dis.specs.Numerals as spec;
ghost use Rattle.pac_dis.specs.TextsLaws.{longest_text};
ghost use Rattle.arrayvec.specs.ArrayString.{array_string_len};

use crate::text::{Text, put_character};
use pac_num::{hex_byte, hex_word};

/// Appends the two digits of a byte.
#[tactic(auto, unfolding(pac_num::specs::Hexadecimal::hex_byte))]
fn put_hex_byte(text: &mut Text, byte: u8)
    requires { array_string_len text.old + 2 ≤ longest_text }
    ensures { text.new.bytes ≡ text.old.bytes ++ hex_byte byte }
{
    let digits = hex_byte(byte);
    put_character(text, digits[0]);
    put_character(text, digits[1]);
}

/// Appends the four digits of a word.
#[tactic(auto, unfolding(pac_num::specs::Hexadecimal::hex_word))]
fn put_hex_word(text: &mut Text, word: u16)
    requires { array_string_len text.old + 4 ≤ longest_text }
    ensures { text.new.bytes ≡ text.old.bytes ++ hex_word word }
{
    let digits = hex_word(word);
    put_character(text, digits[0]);
    put_character(text, digits[1]);
    put_character(text, digits[2]);
    put_character(text, digits[3]);
}

/// Appends a 0 before digits whose first is a letter.
fn put_leading_zero(text: &mut Text, first: u8)
    requires { array_string_len text.old + length (spec.leading_zero first) ≤ longest_text }
    ensures { text.new.bytes ≡ text.old.bytes ++ spec.leading_zero first }
{
    if first >= 10 {
        text.push_str("0");
    }
}

/// Appends a byte, as `42H` or `0DDH`.
#[tactic(auto, unfolding(crate::specs::Numerals::byte_text, pac_num::specs::Hexadecimal::hex_byte))]
pub fn put_byte(text: &mut Text, byte: u8)
    requires { array_string_len text.old + length (spec.byte_text byte) ≤ longest_text }
    ensures { text.new.bytes ≡ text.old.bytes ++ spec.byte_text byte }
{
    put_leading_zero(text, byte / 16);
    put_hex_byte(text, byte);
    text.push_str("H");
}

/// Appends a word, as `4040H` or `0FFFFH`.
#[tactic(auto, unfolding(crate::specs::Numerals::word_text, pac_num::specs::Hexadecimal::hex_word))]
pub fn put_word(text: &mut Text, word: u16)
    requires { array_string_len text.old + length (spec.word_text word) ≤ longest_text }
    ensures { text.new.bytes ≡ text.old.bytes ++ spec.word_text word }
{
    put_leading_zero(text, (word / 4096) as u8);
    put_hex_word(text, word);
    text.push_str("H");
}

/// Appends a displacement with its sign, as `+05H` or `-80H`.
#[tactic(auto, unfolding(crate::specs::Numerals::displacement_text))]
pub fn put_displacement(text: &mut Text, displacement: i8)
    requires { array_string_len text.old + length
        (spec.displacement_text displacement) ≤ longest_text }
    ensures { text.new.bytes ≡ text.old.bytes ++ spec.displacement_text displacement }
{
    if displacement >= 0 {
        text.push_str("+");
        put_byte(text, displacement as u8);
    } else {
        text.push_str("-");
        put_byte(text, (-(displacement + 1)) as u8 + 1);
    }
}

/// Appends a number below 10 as one digit.
pub fn put_digit(text: &mut Text, digit: u8)
    requires below { digit < 10 }
    requires room { array_string_len text.old < longest_text }
    ensures { text.new.bytes ≡ text.old.bytes ++ spec.digit_text digit }
{
    put_character(text, b'0' + digit);
}
