//! The arithmetic of the Z80: what each operation makes of values and of the flag byte F, by the Zilog manual
//! UM0080. Every operation here keeps bits 5 and 3 of F (this profile's choice).
#![tactic(auto)]

mod bits;
mod bytes;
mod flag_byte;
mod shifts;
mod transfer;
mod words;

pub use bits::{reset_bit, set_bit, test_bit};
pub use bytes::{
    ByteOperation, ByteResult, arithmetic, complement, decimal_adjust, decrement, increment, negate,
};
pub use flag_byte::{Condition, Flags, complement_carry, set_carry};
pub use shifts::{
    Digits, Shift, rotate_accumulator, rotate_digits_left, rotate_digits_right, shift_byte,
};
pub use transfer::{control_load_flags, copy_flags, input_flags, port_flags, search_flags};
pub use words::{
    WordOutcome, add_words, add_words_with_carry, decrement_word, increment_word,
    subtract_words_with_carry,
};
