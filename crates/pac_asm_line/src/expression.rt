//! Expressions, as the tokens that spell them.

ghost use Rattle.std.specs.Prelude.{◌≡◌, option_map};
ghost use Rattle.pac_lex.specs.TokensProofs.{views};
ghost use Rattle.pac_expr.specs.Values.{tree_value};
ghost use Rattle.pac_asm_operation.specs.Reserved.{expression_in};
ghost use Rattle.pac_asm_line.specs.Views.{expression_tree};

use pac_asm_operation::is_source_expression;
use pac_expr::{SymbolLookup, ValueError, value};
use pac_lex::Token;

/// An expression of a source line.
#[derive(Clone, Copy)]
pub struct Expression<'t, 'a> {
    pub(crate) tokens: &'t [Token<'a>],
}

/// The expression that tokens spell, if they spell one without a reserved name.
#[tactic(auto, unfolding(pac_asm_operation::specs::Reserved::expression_in))]
pub(crate) fn expression_in<'t, 'a>(tokens: &'t [Token<'a>]) -> Option<Expression<'t, 'a>>
    ensures { option_map expression_tree result ≡ expression_in (views tokens.now) }
{
    if is_source_expression(tokens) {
        Some(Expression { tokens })
    } else {
        None
    }
}

impl<'t, 'a> Expression<'t, 'a> {
    /// The value of the expression, where `here` is the address of its line: E1 where a name isn't defined, E2 where a
    /// partial result has more than 32 bits, E3 where it divides by zero.
    pub fn value<S: SymbolLookup>(&self, symbols: &S, here: u16) -> Result<i32, ValueError>
        ensures { result ≡ tree_value (S.lookup symbols.now) here (expression_tree self.now) }
    {
        match value(self.tokens, symbols, here) {
            Some(answer) => answer,
            None => Ok(i32::from(here)),
        }
    }
}
