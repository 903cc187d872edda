//! The names that stand for no symbol, and the expressions of a source, which have none of them.

ghost use Rattle.std.specs.Prelude.{◌≡◌, is_some};
ghost use Rattle.std.specs.List.{list_any};
ghost use Rattle.pac_lex.specs.TokensProofs.{view, views};
ghost use Rattle.pac_asm_operation.specs.Reserved.{expression_in, is_reserved, is_reserved_token};

use crate::directive::directive_of;
use pac_expr::is_expression;
use pac_lex::{Token, TokenKind};
use pac_table_names::{is_operation, name_of};

/// Whether a word is reserved, in either case: the name of an operation or a directive, of a register, a pair or a
/// condition. Such a word is no symbol.
pub fn is_reserved(word: &[u8]) -> bool
    ensures { result ≡ is_reserved word.now }
{
    is_operation(word) || name_of(word).is_some() || directive_of(word).is_some()
}

/// Whether tokens are an expression of a source, in which no name is reserved.
#[tactic(auto, unfolding(crate::specs::Reserved::expression_in))]
pub fn is_source_expression(tokens: &[Token<'_>]) -> bool
    ensures { result ≡ is_some (expression_in (views tokens.now)) }
{
    if has_reserved(tokens) {
        false
    } else {
        is_expression(tokens)
    }
}

/// Whether one of the tokens is a reserved word.
fn has_reserved(tokens: &[Token<'_>]) -> bool
    ensures { result ≡ list_any is_reserved_token (views tokens.now) }
{
    for token in tokens {
        if is_reserved_token(token) {
            return true;
        }
    }
    false
}

/// Whether a token is a reserved word.
fn is_reserved_token(token: &Token<'_>) -> bool
    ensures { result ≡ is_reserved_token (view token.now) }
{
    match token.kind {
        TokenKind::Name => is_reserved(token.text),
        _ => false,
    }
}
