//! The operands of an operation with the values of their expressions.

ghost use Rattle.std.specs.Prelude.{◌≡◌};
ghost use Rattle.pac_expr.specs.Values as expressions;
ghost use Rattle.pac_asm_operation.specs.Operations.{valued_operands, valued_operand};
ghost use Rattle.pac_asm_operation.specs.Views.{IsKnown, IsKnownIf, IsTree, seen_operands};
ghost use Rattle.pac_asm_operation.specs.Views.{seen_operand, tree_within};
ghost use Rattle.pac_asm_operation.specs.Kept.{number_or_fault, pair_of};

use crate::fault::OperationFault;
use crate::operand::Operand;
use pac_expr::{SymbolLookup, ValueError, value};
use pac_lex::Token;

/// The operands with the values of their expressions.
pub(crate) fn values<S: SymbolLookup>(
    first: &Option<Operand<&[Token<'_>]>>,
    second: &Option<Operand<&[Token<'_>]>>,
    symbols: &S,
    here: u16,
) -> Result<(Option<Operand<i32>>, Option<Operand<i32>>), OperationFault>
    requires first { IsKnownIf first.now }
    requires second { IsKnownIf second.now }
    ensures { pair_of result ≡ valued_operands (S.lookup symbols.now) here
        (seen_operands first.now second.now) }
{
    let Some(first) = first else {
        return Ok((None, None));
    };
    let first = valued(first, symbols, here);
    let Some(second) = second else {
        return Ok((Some(first?), None));
    };
    let second = valued(second, symbols, here);
    match first {
        Ok(first) => match second {
            Ok(second) => Ok((Some(first), Some(second))),
            Err(fault) => Err(fault),
        },
        Err(fault) => match second {
            Ok(_) => Err(fault),
            Err(other) => Err(fault.first(other)),
        },
    }
}

/// An operand with the value of its expression.
fn valued<S: SymbolLookup>(
    operand: &Operand<&[Token<'_>]>,
    symbols: &S,
    here: u16,
) -> Result<Operand<i32>, OperationFault>
    requires { IsKnown operand.now }
    ensures { result ≡ valued_operand (S.lookup symbols.now) here (seen_operand operand.now) }
{
    match operand {
        Operand::Named(name) => Ok(Operand::Named(*name)),
        Operand::AlternateAf => Ok(Operand::AlternateAf),
        Operand::AtName(name) => Ok(Operand::AtName(*name)),
        Operand::Indexed(name, tokens) => {
            Ok(Operand::Indexed(*name, number(tokens, symbols, here)?))
        }
        Operand::Memory(tokens) => Ok(Operand::Memory(number(tokens, symbols, here)?)),
        Operand::Value(tokens) => Ok(Operand::Value(number(tokens, symbols, here)?)),
    }
}

/// The value of an expression.
fn number<S: SymbolLookup>(
    tokens: &[Token<'_>],
    symbols: &S,
    here: u16,
) -> Result<i32, OperationFault>
    requires { IsTree tokens.now }
    ensures { result ≡ number_or_fault (expressions.tree_value (S.lookup symbols.now) here
        (tree_within tokens.now)) }
{
    match value(tokens, symbols, here) {
        Some(answer) => number_of(answer),
        None => Err(OperationFault::Undefined),
    }
}

/// The value of an expression to an operation, or why there is none.
fn number_of(answer: Result<i32, ValueError>) -> Result<i32, OperationFault>
    ensures { result ≡ number_or_fault answer }
{
    match answer {
        Ok(number) => Ok(number),
        Err(fault) => Err(OperationFault::of(fault)),
    }
}
