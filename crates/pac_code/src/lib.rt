//! Instructions to bytes and back (Zilog Z80 CPU User Manual UM0080).
#![tactic(auto)]

ghost use Rattle.pac_code.specs.Codes.{DecodesPrefix, DecodesBack};

mod decoder;
mod encoder;

pub use decoder::{decode, decode_row, plain_row};
pub use encoder::{Code, encode};
pub use pac_table::Instr;

/// Bytes whose prefix is the code of an instruction hold that instruction.
#[tactic(auto, using(crate::proofs::RoundTrip::laws))]
pub fn decodes_prefix()
    ensures { DecodesPrefix }
{}

/// An instruction's code gives it back, whatever follows.
#[tactic(auto, using(crate::proofs::RoundTrip::laws))]
pub fn decodes_back()
    ensures { DecodesBack }
{}
