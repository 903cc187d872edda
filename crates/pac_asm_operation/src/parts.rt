//! Tokens parted at their commas.

ghost use Rattle.std.specs.Prelude.{◌≡◌, ◌<◌, ◌≤◌, ◌∷◌, length, IfSome};
ghost use Rattle.std.specs.List.{slice_split, position_or_len};
ghost use Rattle.pac_lex.specs.TokensProofs.{view, views};
ghost use Rattle.pac_asm_operation.specs.Operands.{is_comma};
ghost use Rattle.pac_asm_operation.specs.OperandsProofs.{parts_after};

use pac_lex::{Token, TokenKind};

/// Whether a token is a comma.
fn is_comma(token: &Token<'_>) -> bool
    ensures { result ≡ is_comma (view token.now) }
{
    matches!(token.kind, TokenKind::Comma)
}

/// The place of the first comma, or how many tokens there are.
fn comma_place(tokens: &[Token<'_>]) -> usize
    ensures value { result ≡ position_or_len is_comma (views tokens.now) }
    ensures bound { result ≤ length tokens.now }
{
    let mut at = 0;
    for token in tokens {
        if is_comma(token) {
            return at;
        }
        at += 1;
    }
    at
}

/// The tokens before the first comma, and those after it if there is one.
#[tactic(auto, using(crate::proofs::Commas::parts))]
pub fn next_part<'t, 'a>(tokens: &'t [Token<'a>]) -> (&'t [Token<'a>], Option<&'t [Token<'a>]>)
    ensures parts { slice_split is_comma (views tokens.now)
        ≡ views result.0.now ∷ parts_after result.1 }
    ensures shorter { IfSome result.1 (λ rest. length rest.now < length tokens.now) }
{
    let at = comma_place(tokens);
    if at < tokens.len() {
        (&tokens[..at], Some(&tokens[at + 1..]))
    } else {
        (tokens, None)
    }
}
