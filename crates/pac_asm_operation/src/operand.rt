//! The operands of an operation.

ghost use Rattle.std.specs.Prelude.{◌≡◌};
ghost use Rattle.pac_asm_operation.specs.Operands.{name_in, opens, closes, is_sign};

use pac_lex::{Token, TokenKind};
use pac_table::Name;
use pac_table_names::name_of;

/// An operand, with the tokens or the value of its expression where it has one.
#[derive(Clone, Copy)]
pub enum Operand<T> {
    /// A register, a pair or a condition.
    Named(Name),
    /// `AF'`.
    AlternateAf,
    /// A register or a pair in parentheses.
    AtName(Name),
    /// A register with a displacement, in parentheses.
    Indexed(Name, T),
    /// An expression in parentheses.
    Memory(T),
    /// An expression.
    Value(T),
}

/// Whether a token is `(`.
pub(crate) fn opens(token: &Token<'_>) -> bool
    ensures { result ≡ opens token.now.kind }
{
    matches!(token.kind, TokenKind::Open)
}

/// Whether a token is `)`.
pub(crate) fn closes(token: &Token<'_>) -> bool
    ensures { result ≡ closes token.now.kind }
{
    matches!(token.kind, TokenKind::Close)
}

/// Whether a token is `+` or `-`.
pub(crate) fn is_sign(token: &Token<'_>) -> bool
    ensures { result ≡ is_sign token.now.kind }
{
    matches!(token.kind, TokenKind::Plus | TokenKind::Minus)
}

/// The register, pair or condition that a token is.
pub(crate) fn name_in(token: &Token<'_>) -> Option<Name>
    ensures { result ≡ name_in token.now.kind token.now.text.now }
{
    match token.kind {
        TokenKind::Name => name_of(token.text),
        _ => None,
    }
}
