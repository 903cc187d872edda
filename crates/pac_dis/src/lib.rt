//! Instructions as text: what bytes begin with, as an assembler takes it (UM0080's mnemonics), and a line for each of them.
#![tactic(auto)]

ghost use Rattle.pac_dis.specs.TextsLaws.{TextsFit};

mod disassembly;
mod front;
mod lines;
mod numerals;
mod operands;
mod text;

pub use disassembly::disassemble;
pub use lines::{put_disassembly, put_line};
pub use pac_num::{hex_byte, hex_word, offset, word};
pub use text::Text;

/// The text of each instruction of the table, wherever it stands, has 16 bytes at most.
pub fn texts_fit()
    ensures { TextsFit }
{}
