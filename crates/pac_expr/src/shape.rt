//! Whether tokens spell an expression.

ghost use Rattle.std.specs.Prelude.{◌≡◌, ◌<◌, ◌^◌, is_some, Some, false};
ghost use Rattle.pac_lex.specs.TokensProofs.{views};
ghost use Rattle.pac_expr.specs.TreesProofs.{token_marks, token_mark};
ghost use Rattle.pac_expr.specs.Parsing.{tree_in};
ghost use Rattle.pac_expr.specs.Shape.{begun_shape, continued_shape, next_shape, ends_expression};

use pac_lex::{Token, TokenKind, one_character};

/// Whether these tokens, all of them, spell an expression. It takes no memory.
pub fn is_expression(tokens: &[Token<'_>]) -> bool
    ensures { result ≡ is_some (tree_in (views tokens.now)) }
{
    is_shaped(tokens)
}

/// Whether tokens spell an expression, by two facts alone: whether an operand stands, and how many parentheses are open.
fn is_shaped(tokens: &[Token<'_>]) -> bool
    ensures { result ≡ ends_expression (Some (false, 0)) (token_marks tokens.now) }
{
    let mut shape = (false, 0);
    for token in tokens {
        let Some(after) = next_shape(shape.0, shape.1, token) else {
            return false;
        };
        shape = after;
    }
    shape.0 && shape.1 == 0
}

/// Whether an operand stands and how many parentheses are open after one token more; `None` where no expression goes on so.
fn next_shape(stands: bool, depth: usize, token: &Token<'_>) -> Option<(bool, usize)>
    requires { depth < 2 ^ 63 }
    ensures { result ≡ next_shape (stands, depth) (token_mark token.now) }
{
    if stands {
        continued_shape(depth, token)
    } else {
        begun_shape(depth, token)
    }
}

/// Like `next_shape`, where an operand must come.
fn begun_shape(depth: usize, token: &Token<'_>) -> Option<(bool, usize)>
    requires { depth < 2 ^ 63 }
    ensures { result ≡ begun_shape depth (token_mark token.now) }
{
    match token.kind {
        TokenKind::Number(_) | TokenKind::Name | TokenKind::Dollar => Some((true, depth)),
        TokenKind::Text => one_character(token.text).map(|_| (true, depth)),
        TokenKind::Open => Some((false, depth + 1)),
        TokenKind::Plus | TokenKind::Minus => Some((false, depth)),
        _ => None,
    }
}

/// Like `next_shape`, after an operand.
fn continued_shape(depth: usize, token: &Token<'_>) -> Option<(bool, usize)>
    ensures { result ≡ continued_shape depth (token_mark token.now) }
{
    match token.kind {
        TokenKind::Plus | TokenKind::Minus | TokenKind::Star | TokenKind::Slash => Some((
            false, depth,
        )),
        TokenKind::Close => depth.checked_sub(1).map(|depth| (true, depth)),
        _ => None,
    }
}
