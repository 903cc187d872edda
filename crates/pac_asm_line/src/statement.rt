//! What a line says.

ghost use Rattle.std.specs.Prelude.{◌≡◌, min};
ghost use Rattle.pac_asm_line.specs.Contents.{statement_size};
ghost use Rattle.pac_asm_line.specs.Views.{seen_statement};

use crate::expression::Expression;
use crate::operands::{OperandList, bytes_size, text_size, words_size};
use pac_asm_operation::Operation;

/// What stands in a line besides its label.
#[derive(Drop)]
pub enum Statement<'t, 'a> {
    /// Nothing.
    Nothing,
    /// `ORG`: the address of what follows.
    Origin(Expression<'t, 'a>),
    /// `EQU`: the number of the line's label.
    Equate(Expression<'t, 'a>),
    /// `DEFB`, `DB`: bytes and texts.
    Bytes(OperandList<'t, 'a>),
    /// `DEFM`, `DM`: a text, with its quotes.
    Text(&'a [u8]),
    /// `DEFW`, `DW`: words.
    Words(OperandList<'t, 'a>),
    /// `DEFS`, `DS`: how many bytes, and which, 0 if that isn't told.
    Space(Expression<'t, 'a>, Option<Expression<'t, 'a>>),
    /// `IF`: true where it isn't 0.
    Condition(Expression<'t, 'a>),
    /// `ELSE`.
    Otherwise,
    /// `ENDIF`.
    EndCondition,
    /// An instruction.
    Operation(Operation<'t, 'a>),
}

/// A line of the source.
#[derive(Drop)]
pub struct Form<'t, 'a> {
    /// The name before its statement, without a colon.
    pub label: Option<&'a [u8]>,
    /// Its statement.
    pub statement: Statement<'t, 'a>,
}

impl Statement<'_, '_> {
    /// How many bytes the statement takes by its form alone; 65,535 where they are more. A space takes what
    /// its first expression says, and counts as none here.
    pub fn size(&self) -> u16
        ensures { result ≡ min (statement_size (seen_statement self.now)) 65535 }
    {
        match self {
            Statement::Bytes(operands) => bytes_size(*operands),
            Statement::Text(written) => text_size(written),
            Statement::Words(operands) => words_size(*operands),
            Statement::Operation(operation) => u16::from(operation.size()),
            _ => 0,
        }
    }
}
