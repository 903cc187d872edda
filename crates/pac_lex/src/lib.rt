//! The tokens of a source line of the assembler, and the lines and words of a text.
#![tactic(auto)]

mod bytes;
mod fault;
pub mod laws;
mod line;
mod number;
mod quote;
mod reading;
mod token;
mod words;

pub use fault::{LexError, LexFault};
pub use line::first_line;
pub use quote::{character_count, characters, one_character};
pub use reading::{LINE_LIMIT, tokens};
pub use token::{Token, TokenKind};
pub use words::{first_byte, first_word, next_word};
