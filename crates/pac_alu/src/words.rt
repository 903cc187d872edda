//! Operations on words: ADD, ADC, SBC, INC and DEC.

ghost use Rattle.std.specs.Prelude.{◌≡◌, ◌+ℤ◌, ◌-ℤ◌, pos};
ghost use Rattle.pac_alu.specs.Flags.{overflows_word};
ghost use Rattle.pac_alu.specs.Words.{signed_word, word_sum_of, word_sum_with_carry_of};
ghost use Rattle.pac_alu.specs.Words.{word_difference_with_carry_of};
ghost use Rattle.pac_alu.specs.Words.{word_increment_of, word_decrement_of};

use crate::flag_byte::Flags;

/// What an operation on words leaves: the value and F.
#[derive(Clone, Copy)]
pub struct WordOutcome {
    /// The word.
    pub value: u16,
    /// F after the operation.
    pub f: u8,
}

/// Whether the signed sum is outside -32,768 to 32,767. Each signed word is lifted by 32,768 to stay above 0.
#[inline]
fn sum_overflows(left: u16, right: u16, carry: u8) -> bool
    ensures { result ≡ overflows_word ((signed_word left +ℤ signed_word right) +ℤ pos carry) }
{
    let lifted = (left as u32 + 32768) % 65536 + (right as u32 + 32768) % 65536 + carry as u32;
    lifted < 32768 || 98303 < lifted
}

/// Whether the signed difference is outside -32,768 to 32,767. Each signed word is lifted by 32,768.
#[inline]
fn difference_overflows(left: u16, right: u16, carry: u8) -> bool
    ensures { result ≡ overflows_word ((signed_word left -ℤ signed_word right) -ℤ pos carry) }
{
    let lifted = (left as u32 + 32768) % 65536;
    let taken = (right as u32 + 32768) % 65536 + carry as u32;
    lifted + 32768 < taken || taken + 32767 < lifted
}

/// The word and F after ADD HL,ss and ADD IX,pp.
#[inline]
#[tactic(auto, unfolding(crate::specs::Words::word_sum_of))]
pub fn add_words(left: u16, right: u16, f: u8) -> WordOutcome
    ensures { result ≡ word_sum_of left right f }
{
    let whole = left as u32 + right as u32;
    let flags = Flags {
        half_carry: 4095 < left % 4096 + right % 4096,
        subtract: false,
        carry: 65535 < whole,
        ..Flags::of(f)
    };
    WordOutcome {
        value: (whole % 65536) as u16,
        f: flags.byte(f),
    }
}

/// The word and F after ADC HL,ss.
#[inline]
#[tactic(auto, unfolding(crate::specs::Words::word_sum_with_carry_of))]
pub fn add_words_with_carry(left: u16, right: u16, f: u8) -> WordOutcome
    ensures { result ≡ word_sum_with_carry_of left right f }
{
    let carry = f % 2;
    let whole = left as u32 + right as u32 + carry as u32;
    let value = (whole % 65536) as u16;
    let flags = Flags {
        sign: 32768 <= value,
        zero: value == 0,
        half_carry: 4095 < left % 4096 + right % 4096 + carry as u16,
        parity_overflow: sum_overflows(left, right, carry),
        subtract: false,
        carry: 65535 < whole,
    };
    WordOutcome {
        value,
        f: flags.byte(f),
    }
}

/// The word and F after SBC HL,ss.
#[inline]
#[tactic(auto, unfolding(crate::specs::Words::word_difference_with_carry_of))]
pub fn subtract_words_with_carry(left: u16, right: u16, f: u8) -> WordOutcome
    ensures { result ≡ word_difference_with_carry_of left right f }
{
    let carry = f % 2;
    let taken = right as u32 + carry as u32;
    let value = ((65536 + left as u32 - taken) % 65536) as u16;
    let flags = Flags {
        sign: 32768 <= value,
        zero: value == 0,
        half_carry: left % 4096 < right % 4096 + carry as u16,
        parity_overflow: difference_overflows(left, right, carry),
        subtract: true,
        carry: (left as u32) < taken,
    };
    WordOutcome {
        value,
        f: flags.byte(f),
    }
}

/// A pair after INC, which leaves F.
#[inline]
pub fn increment_word(word: u16) -> u16
    ensures { result ≡ word_increment_of word }
{
    ((word as u32 + 1) % 65536) as u16
}

/// A pair after DEC, which leaves F.
#[inline]
pub fn decrement_word(word: u16) -> u16
    ensures { result ≡ word_decrement_of word }
{
    ((word as u32 + 65535) % 65536) as u16
}
