//! An operand read from its tokens.

ghost use Rattle.std.specs.Prelude.{◌≡◌, ◌∷◌, ◌++◌, [], IfSome, IfNone, MatchOption, option_map};
ghost use Rattle.std.specs.Prelude.{if◌then◌else◌, take, length, ◌-◌};
ghost use Rattle.pac_lex.specs.TokensProofs.{view, views};
ghost use Rattle.std.specs.List.{slice_split};
ghost use Rattle.pac_asm_operation.specs.Operands.{parts_at_commas, is_comma, operands_of_parts};
ghost use Rattle.pac_asm_operation.specs.Operands.{operand_of, expression_operand, lone_operand};
ghost use Rattle.pac_asm_operation.specs.Operands.{indirect_operand, operand_after_name, is_sign};
ghost use Rattle.pac_asm_operation.specs.Operands.{ends_closed};
ghost use Rattle.pac_asm_operation.specs.Views.{FindsOperand, inside_parentheses};
ghost use Rattle.pac_asm_operation.specs.Kept.{FindsOperands, FindsLastOperand};

use crate::operand::{Operand, closes, is_sign, name_in, opens};
use crate::parts::next_part;
use crate::reserved::is_source_expression;
use pac_lex::{Token, TokenKind};
use pac_table::Name;

/// The operands that tokens are, one or two of them or none; nothing where a part of the tokens is no
/// operand, or where there are more than two, which no operation has.
pub(crate) fn operands<'t, 'a>(
    tokens: &'t [Token<'a>],
) -> Option<
    (
        Option<Operand<&'t [Token<'a>]>>,
        Option<Operand<&'t [Token<'a>]>>,
    ),
>
    ensures { FindsOperands result (operands_of_parts (parts_at_commas (views tokens.now))) }
{
    if tokens.is_empty() {
        return Some((None, None));
    }
    let (part, rest) = next_part(tokens);
    let first = operand(part)?;
    match rest {
        None => Some((Some(first), None)),
        Some(rest) => Some((Some(first), Some(last_operand(rest)?))),
    }
}

/// The operand that tokens are, where no comma parts them.
fn last_operand<'t, 'a>(tokens: &'t [Token<'a>]) -> Option<Operand<&'t [Token<'a>]>>
    ensures { FindsLastOperand result (operands_of_parts
        (slice_split is_comma (views tokens.now))) }
{
    let (part, rest) = next_part(tokens);
    match rest {
        None => operand(part),
        Some(_) => None,
    }
}

/// The operand that tokens are, if they are one.
#[tactic(auto, unfolding(crate::specs::Operands::operand_of))]
pub(crate) fn operand<'t, 'a>(tokens: &'t [Token<'a>]) -> Option<Operand<&'t [Token<'a>]>>
    ensures { FindsOperand result (operand_of (views tokens.now)) }
{
    let (first, rest) = tokens.split_first()?;
    match rest.split_first() {
        None => lone(first, tokens),
        Some((second, after)) => {
            if !opens(first) {
                return expression(tokens);
            }
            match name_in(second) {
                None => expression(tokens),
                Some(name) => after_name(name, after),
            }
        }
    }
}

/// An operand of one token.
fn lone<'t, 'a>(token: &Token<'a>, tokens: &'t [Token<'a>]) -> Option<Operand<&'t [Token<'a>]>>
    ensures { FindsOperand result (lone_operand token.now.kind
        token.now.text.now (views tokens.now)) }
{
    if let TokenKind::AlternateAf = token.kind {
        return Some(Operand::AlternateAf);
    }
    match name_in(token) {
        None => expression(tokens),
        Some(name) => Some(Operand::Named(name)),
    }
}

/// An operand by its expression.
fn expression<'t, 'a>(tokens: &'t [Token<'a>]) -> Option<Operand<&'t [Token<'a>]>>
    ensures { FindsOperand result (expression_operand (views tokens.now)) }
{
    if let Some(inner) = between(tokens) {
        if is_source_expression(inner) {
            return Some(Operand::Memory(inner));
        }
    }
    if is_source_expression(tokens) {
        Some(Operand::Value(tokens))
    } else {
        None
    }
}

/// What stands between a parenthesis at the first token and one at the last.
fn between<'t, 'a>(tokens: &'t [Token<'a>]) -> Option<&'t [Token<'a>]>
    ensures { option_map (λ inner. views inner.now) result ≡ inside_parentheses (views tokens.now) }
{
    let (first, rest) = tokens.split_first()?;
    if !opens(first) {
        return None;
    }
    before_closing(rest)
}

/// What stands before a parenthesis at the last token.
fn before_closing<'t, 'a>(tokens: &'t [Token<'a>]) -> Option<&'t [Token<'a>]>
    ensures { option_map (λ inner. views inner.now) result
        ≡ (if ends_closed (views tokens.now) then Some
        (take (length (views tokens.now) - 1) (views tokens.now)) else None) }
{
    let (last, inner) = tokens.split_last()?;
    if closes(last) { Some(inner) } else { None }
}

/// What follows `(` and a name: a displacement or none, and `)`.
fn after_name<'t, 'a>(name: Name, tokens: &'t [Token<'a>]) -> Option<Operand<&'t [Token<'a>]>>
    ensures { FindsOperand result (operand_after_name name (views tokens.now)) }
{
    match before_closing(tokens) {
        None => None,
        Some(inner) => displaced(name, inner),
    }
}

/// A name in parentheses, with a displacement, which begins with its sign, or without one.
#[tactic(auto, using(crate::proofs::Expressions::displacements))]
fn displaced<'t, 'a>(name: Name, tokens: &'t [Token<'a>]) -> Option<Operand<&'t [Token<'a>]>>
    ensures { FindsOperand result (indirect_operand name (views tokens.now)) }
{
    match tokens.first() {
        None => Some(Operand::AtName(name)),
        Some(first) => {
            if is_sign(first) && is_source_expression(tokens) {
                Some(Operand::Indexed(name, tokens))
            } else {
                None
            }
        }
    }
}
