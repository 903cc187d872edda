//! Numbers as bytes and words.

ghost use Rattle.std.specs.Prelude.{◌≡◌};
ghost use Rattle.pac_asm_line.specs.Contents.{byte_of_number, byte_value, word_of_number};
ghost use Rattle.pac_asm_line.specs.Contents.{word_value};
ghost use Rattle.pac_asm_line.specs.Views.{expression_tree};

use crate::expression::Expression;
use pac_asm_operation::OperationFault;
use pac_expr::SymbolLookup;

/// The value of an expression as a byte: -128 to 255, a negative one in two's complement.
pub(crate) fn byte_value<S: SymbolLookup>(
    expression: &Expression<'_, '_>,
    symbols: &S,
    here: u16,
) -> Result<u8, OperationFault>
    ensures { result ≡ byte_value (S.lookup symbols.now) here (expression_tree expression.now) }
{
    match expression.value(symbols, here) {
        Ok(number) => byte_of(number),
        Err(fault) => Err(OperationFault::of(fault)),
    }
}

/// The value of an expression as a word: -32,768 to 65,535, a negative one in two's complement.
pub(crate) fn word_value<S: SymbolLookup>(
    expression: &Expression<'_, '_>,
    symbols: &S,
    here: u16,
) -> Result<u16, OperationFault>
    ensures { result ≡ word_value (S.lookup symbols.now) here (expression_tree expression.now) }
{
    match expression.value(symbols, here) {
        Ok(number) => word_of(number),
        Err(fault) => Err(OperationFault::of(fault)),
    }
}

/// A number as a byte.
fn byte_of(number: i32) -> Result<u8, OperationFault>
    ensures { result ≡ byte_of_number number }
{
    if number < -128 || number > 255 {
        Err(OperationFault::Range)
    } else if number >= 0 {
        Ok(number as u8)
    } else {
        Ok((number + 256) as u8)
    }
}

/// A number as a word.
fn word_of(number: i32) -> Result<u16, OperationFault>
    ensures { result ≡ word_of_number number }
{
    if number < -32_768 || number > 65_535 {
        Err(OperationFault::Range)
    } else if number >= 0 {
        Ok(number as u16)
    } else {
        Ok((number + 65_536) as u16)
    }
}
