//! The documented instructions of the Z80: codes, forms in source, times and effects (Zilog Z80 CPU
//! User Manual UM0080).
#![tactic(auto)]

ghost use Rattle.pac_table.specs.InstructionsLaws.{AtMostOneMatches};
ghost use Rattle.pac_table.specs.Counts.{CountsOpcodes};
ghost use Rattle.pac_table.specs.Forms.{FillsCodes};

mod dispatch;
mod effects;
mod instruction;
mod operands;
mod patterns;
mod table;

pub use dispatch::{matching_row, plain_row};
pub use effects::{
    BitOperation, Block, BlockOperation, ByteArithmetic, ByteLoad, BytePlace, Call, Control,
    Direction, Effect, Exchange, InterruptMode, Jump, Pair, Port, RotateAndShift, Rotation,
    Special, WordArithmetic, WordLoad,
};
pub use instruction::Instr;
pub use operands::{Mnemonic, Name, NameList, NumberKind, Operands, Shape};
pub use patterns::{Field, Immediate, Page, Pattern};
pub use table::{Row, row_numbered, rows};

/// At most one row matches any bytes.
pub fn at_most_one()
    ensures { AtMostOneMatches }
{}

/// The table has the documented opcodes: 252 without a prefix, 248 after CB, 58 after ED, 39 each
/// after DD and after FD, and 31 each after DD CB and after FD CB.
pub fn opcode_counts()
    ensures { CountsOpcodes }
{}

/// The operands of each form fill the code, each part once.
pub fn forms_fill_codes()
    ensures { FillsCodes }
{}
