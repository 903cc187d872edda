//! An operation and its instruction.

ghost use Rattle.std.specs.Prelude.{◌≡◌, IfOk, length, option_map};
ghost use Rattle.pac_lex.specs.TokensProofs.{views};
ghost use Rattle.pac_table.specs.Instructions.{code, IsInstruction};

use crate::coding::placed;
use crate::fault::OperationFault;
use crate::form::{first_row, row_size};
use crate::operand::Operand;
use crate::parsing::operands;
use crate::values::values;
use pac_expr::SymbolLookup;
use pac_lex::Token;
use pac_table::Instr;
use pac_table_names::rows_named;
use std::marker::Model;

/// An operation of the source that fits a row of the table, with its name and its operands.
#[derive(Drop)]
pub struct Operation<'t, 'a> {
    word: &'t [u8],
    rows: &'static [u8],
    family: u8,
    size: u8,
    first: Option<Operand<&'t [Token<'a>]>>,
    second: Option<Operand<&'t [Token<'a>]>>,
}

impl<'t, 'a> Model for Operation<'t, 'a> {
    ghost use Rattle.pac_asm_operation.specs.Kept.{KeptOperation};

    ghost Value = { KeptOperation };

    ghost use Rattle.pac_asm_operation.specs.Kept.{IsKept, kept_operation};

    ghost view = { λ o. kept_operation o.word.now o.first o.second };

    ghost invariant = { λ o. IsKept o.word.now o.rows.now o.family o.size o.first o.second };
}

impl<'t, 'a> Operation<'t, 'a> {
    ghost use Rattle.pac_asm_operation.specs.Operations.{operation_of, operation_size};
    ghost use Rattle.pac_asm_operation.specs.Operations.{instruction_of};
    ghost use Rattle.pac_asm_operation.specs.Kept.{seen_operation};

    /// The operation that a name is with the tokens after it, if it is one.
    #[tactic(auto, using(crate::proofs::Found::readings), unfolding(crate::specs::Operations::operation_of))]
    pub fn read(word: &'t [u8], tokens: &'t [Token<'a>]) -> Option<Self>
        ensures { option_map seen_operation result ≡ operation_of word.now (views tokens.now) }
    {
        let (first, second) = operands(tokens)?;
        let named = rows_named(word);
        let row = first_row(named.rows, named.family, &first, &second)?;
        Some(Operation {
            word,
            rows: named.rows,
            family: named.family,
            size: row_size(row),
            first,
            second,
        })
    }

    /// How many bytes the code has, by the form alone.
    #[inline]
    pub fn size(&self) -> u8
        ensures { result ≡ operation_size (seen_operation self.now) }
    {
        self.size
    }

    /// The instruction at an address.
    pub fn instruction<S: SymbolLookup>(
        &self,
        symbols: &S,
        here: u16,
    ) -> Result<Instr, OperationFault>
        ensures exact { result ≡ instruction_of (S.lookup symbols.now) here
            (seen_operation self.now) }
        ensures size { IfOk result (λ i. length (code i)
            ≡ operation_size (seen_operation self.now)) }
        ensures valid { IfOk result IsInstruction }
    {
        match values(&self.first, &self.second, symbols, here) {
            Err(fault) => Err(fault),
            Ok((first, second)) => {
                let next = u32::from(here) + u32::from(self.size);
                placed(self.rows, self.family, self.size, next, &first, &second).ok_or(
                    OperationFault::Range,
                )
            }
        }
    }
}
