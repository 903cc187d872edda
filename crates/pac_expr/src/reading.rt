//! The value of an expression, straight from its tokens.

ghost use Rattle.std.specs.Prelude.{◌≡◌, ◌↔◌, ◌<◌, ◌≤◌, ◌-◌, ◌∷◌, List, Some, Err, length};
ghost use Rattle.std.specs.Prelude.{option_map, IfSome, MatchOption};
ghost use Rattle.pac_lex.specs.TokensProofs.{views};
ghost use Rattle.pac_expr.specs.Trees.{Mark, Tree, closing, arithmetic, rank_of_operator};
ghost use Rattle.pac_expr.specs.TreesProofs.{IsExpression, atom_of, token_mark, token_marks};
ghost use Rattle.pac_expr.specs.Parsing.{tree_in};
ghost use Rattle.pac_expr.specs.Values.{tree_value};
ghost use Rattle.pac_expr.specs.ValuesLaws.{HasUndefined};
ghost use Rattle.pac_expr.specs.ValuesProofs.{HasValue};
ghost use Rattle.pac_expr.specs.Reading.{BeginsWithTree, EndsTree, BeginsNoTree, atom_in};
ghost use Rattle.pac_expr.specs.Reading.{is_closing, operator_in};

use crate::evaluation::{SymbolLookup, ValueError, joined, operand_value, signed};
use crate::expr::{Operator, Primary, SUM_RANK, Sign, operator_rank};
use pac_lex::{Token, TokenKind, one_character};

/// The value of the expression that these tokens spell, all of them, where `here` is the address of its
/// line; `None` where they spell none. Signs bind tightest and may repeat, then `*` and `/`, then `+` and `-`,
/// each of the two from left to right. A quotient is rounded toward zero. It takes no memory, and only signs,
/// parentheses and tighter operators within one another make its calls deeper.
pub fn value<S: SymbolLookup>(
    expr: &[Token<'_>],
    symbols: &S,
    here: u16,
) -> Option<Result<i32, ValueError>>
    // The value found is that of a tree which the tokens spell.
    ensures found { IfSome result (HasValue (S.lookup symbols.now) here expr.now) }
    // No tree that they spell has another one, and `None` means that they spell none.
    ensures only { (t : Tree) → IsExpression expr.now t →
        result ≡ Some (tree_value (S.lookup symbols.now) here t) }
    // Which value, as a function of the tokens.
    ensures exact { result ≡ option_map (tree_value (S.lookup symbols.now) here)
        (tree_in (views expr.now)) }
    // E1 comes exactly where some name of the tree isn't defined, whatever else is wrong.
    ensures undefined { (result ≡ Some (Err ValueError.Undefined))
        ↔ MatchOption (tree_in (views expr.now)) ⊥ (HasUndefined (S.lookup symbols.now)) }
{
    evaluated(expr, symbols, here)
}

/// What `value` answers, by its exact clause alone, from which the others are proved.
fn evaluated<S: SymbolLookup>(
    tokens: &[Token<'_>],
    symbols: &S,
    here: u16,
) -> Option<Result<i32, ValueError>>
    ensures { result ≡ option_map (tree_value (S.lookup symbols.now) here)
        (tree_in (views tokens.now)) }
{
    let (value, rest) = part(SUM_RANK, tokens, symbols, here)?;
    if rest.is_empty() { Some(value) } else { None }
}

/// The value of the longest part at the left whose operators outside parentheses have this rank at most,
/// and the tokens after it.
#[cycle(reading)]
fn part<'t, 'a, S: SymbolLookup>(
    rank: u8,
    tokens: &'t [Token<'a>],
    symbols: &S,
    here: u16,
) -> Option<(Result<i32, ValueError>, &'t [Token<'a>])>
    ensures value { MatchOption result (BeginsNoTree rank (token_marks tokens.now))
        (λ r. BeginsWithTree (S.lookup symbols.now) here rank (token_marks tokens.now)
        r.0 (token_marks r.1.now)) }
    ensures ends { IfSome result (λ r. EndsTree rank (token_marks r.1.now)) }
    ensures shorter { IfSome result (λ r. length r.1.now < length tokens.now) }
{
    let (mut left, mut rest) = operand(tokens, symbols, here)?;
    while let Some((operator, after)) = operator_up_to(rank, rest) {
        let (right, after_right) = right_of(operator, after, symbols, here)?;
        left = joined(operator, left, right);
        rest = after_right;
    }
    Some((left, rest))
}

/// The value of what an operator takes at its right, and the tokens after it: a product takes an operand by itself.
#[cycle(reading)]
#[inline]
fn right_of<'t, 'a, S: SymbolLookup>(
    operator: Operator,
    tokens: &'t [Token<'a>],
    symbols: &S,
    here: u16,
) -> Option<(Result<i32, ValueError>, &'t [Token<'a>])>
    ensures value { MatchOption result (BeginsNoTree (rank_of_operator operator - 1)
        (token_marks tokens.now))
        (λ r. BeginsWithTree (S.lookup symbols.now) here (rank_of_operator operator - 1)
        (token_marks tokens.now) r.0
        (token_marks r.1.now)) }
    ensures ends { IfSome result (λ r. EndsTree
        (rank_of_operator operator - 1) (token_marks r.1.now)) }
    ensures shorter { IfSome result (λ r. length r.1.now < length tokens.now) }
{
    match operator {
        Operator::Add | Operator::Subtract => part(SUM_RANK - 1, tokens, symbols, here),
        Operator::Multiply | Operator::Divide => operand(tokens, symbols, here),
    }
}

/// The value of the operand at the left, with the signs before it, and the tokens after it.
#[cycle(reading)]
fn operand<'t, 'a, S: SymbolLookup>(
    tokens: &'t [Token<'a>],
    symbols: &S,
    here: u16,
) -> Option<(Result<i32, ValueError>, &'t [Token<'a>])>
    ensures value { MatchOption result (BeginsNoTree 0 (token_marks tokens.now))
        (λ r. BeginsWithTree (S.lookup symbols.now) here 0 (token_marks tokens.now)
        r.0 (token_marks r.1.now)) }
    ensures shorter { IfSome result (λ r. length r.1.now < length tokens.now) }
{
    let (first, after) = tokens.split_first()?;
    match first.kind {
        TokenKind::Plus => operand(after, symbols, here),
        TokenKind::Minus => {
            let (value, rest) = operand(after, symbols, here)?;
            Some((signed(Sign::Minus, value), rest))
        }
        TokenKind::Open => {
            let (value, rest) = part(SUM_RANK, after, symbols, here)?;
            Some((value, after_closing(rest)?))
        }
        _ => Some((operand_value(&single(first)?, symbols, here), after)),
    }
}

/// The operator at the left, if it has this rank at most, and the tokens after it.
fn operator_up_to<'t, 'a>(rank: u8, tokens: &'t [Token<'a>]) -> Option<(Operator, &'t [Token<'a>])>
    ensures { MatchOption result (EndsTree rank (token_marks tokens.now))
        (λ r. (token_marks tokens.now ≡ arithmetic r.0 ∷ token_marks r.1.now)
        × (rank_of_operator r.0 ≤ rank)
        × (length r.1.now < length tokens.now)) }
{
    let [first, after @ ..] = tokens else {
        return None;
    };
    let operator = operator_of(first)?;
    if operator_rank(operator) <= rank {
        Some((operator, after))
    } else {
        None
    }
}

/// The operator that a token is, if it is one.
fn operator_of(token: &Token<'_>) -> Option<Operator>
    ensures { result ≡ operator_in (token_mark token.now) }
{
    match token.kind {
        TokenKind::Plus => Some(Operator::Add),
        TokenKind::Minus => Some(Operator::Subtract),
        TokenKind::Star => Some(Operator::Multiply),
        TokenKind::Slash => Some(Operator::Divide),
        _ => None,
    }
}

/// Whether a token is a closing parenthesis.
fn is_closing(token: &Token<'_>) -> bool
    ensures { result ≡ is_closing (token_mark token.now) }
{
    matches!(token.kind, TokenKind::Close)
}

/// The tokens after a closing parenthesis at the left.
fn after_closing<'t, 'a>(tokens: &'t [Token<'a>]) -> Option<&'t [Token<'a>]>
    ensures { MatchOption result ((ms : List Mark) → token_marks tokens.now ≡ closing ∷ ms → ⊥)
        (λ rest. (token_marks tokens.now ≡ closing ∷ token_marks rest.now)
        × (length rest.now < length tokens.now)) }
{
    let [first, after @ ..] = tokens else {
        return None;
    };
    if is_closing(first) { Some(after) } else { None }
}

/// The operand that a token is by itself, if it is one.
fn single<'a>(token: &Token<'a>) -> Option<Primary<'a>>
    ensures { option_map atom_of result ≡ atom_in (token_mark token.now) }
{
    match token.kind {
        TokenKind::Number(number) => Some(Primary::Number(number)),
        TokenKind::Name => Some(Primary::Name(token.text)),
        TokenKind::Dollar => Some(Primary::Here),
        TokenKind::Text => match one_character(token.text) {
            None => None,
            Some(code) => Some(Primary::Character(code)),
        },
        _ => None,
    }
}
