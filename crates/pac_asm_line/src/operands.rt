//! The operands of directives that take a list of them: what they are, and how many bytes they take.

ghost use Rattle.std.specs.Prelude.{◌≡◌, ◌*◌, ◌+◌, IsTrue, is_some, length, map, min, option_map};
ghost use Rattle.std.specs.List.{list_all, slice_split, sum_by};
ghost use Rattle.pac_lex.specs.TokensProofs.{views};
ghost use Rattle.pac_lex.specs.TextsProofs.{characters_of};
ghost use Rattle.pac_asm_operation.specs.Operands.{each_or_none, is_comma, parts_at_commas};
ghost use Rattle.pac_asm_operation.specs.OperandsProofs.{parts_after};
ghost use Rattle.pac_asm_operation.specs.Reserved.{expression_in};
ghost use Rattle.pac_asm_line.specs.Contents.{part_size};
ghost use Rattle.pac_asm_line.specs.Forms.{one_or_more, part_in, text_in};
ghost use Rattle.pac_asm_line.specs.Statements as says;
ghost use Rattle.pac_asm_line.specs.Views.{part_of_tokens, parts_of_operands, trees_of};

use pac_asm_operation::{is_source_expression, next_part};
use pac_lex::{Token, TokenKind, character_count};

/// Operands parted by commas: one or more.
#[derive(Clone, Copy)]
pub struct OperandList<'t, 'a> {
    pub(crate) tokens: &'t [Token<'a>],
}

/// The most bytes that a size tells apart.
const GREATEST_SIZE: u16 = 65_535;

/// The operands of a DEFB that tokens are, if they are some: expressions and texts.
pub(crate) fn bytes_in<'t, 'a>(tokens: &'t [Token<'a>]) -> Option<OperandList<'t, 'a>>
    ensures { option_map (λ list. says.bytes (parts_of_operands list)) result
        ≡ one_or_more says.bytes (each_or_none part_in (parts_at_commas (views tokens.now))) }
{
    if tokens.is_empty() {
        return None;
    }
    if are_parts(tokens) {
        Some(OperandList { tokens })
    } else {
        None
    }
}

/// The operands of a DEFW that tokens are, if they are some: expressions.
pub(crate) fn words_in<'t, 'a>(tokens: &'t [Token<'a>]) -> Option<OperandList<'t, 'a>>
    ensures { option_map (λ list. says.words (trees_of list)) result
        ≡ one_or_more says.words (each_or_none expression_in (parts_at_commas (views tokens.now))) }
{
    if tokens.is_empty() {
        return None;
    }
    if are_expressions(tokens) {
        Some(OperandList { tokens })
    } else {
        None
    }
}

/// Whether each part of the tokens is an operand of a DEFB.
fn are_parts(tokens: &[Token<'_>]) -> bool
    ensures { result ≡ list_all (λ tokens. is_some (part_in tokens))
        (slice_split is_comma (views tokens.now)) }
{
    let mut rest = Some(tokens);
    while let Some(tokens) = rest {
        let (part, after) = next_part(tokens);
        if !is_part(part) {
            return false;
        }
        rest = after;
    }
    true
}

/// Whether each part of the tokens is an expression.
fn are_expressions(tokens: &[Token<'_>]) -> bool
    ensures { result ≡ list_all (λ tokens. is_some (expression_in tokens))
        (slice_split is_comma (views tokens.now)) }
{
    let mut rest = Some(tokens);
    while let Some(tokens) = rest {
        let (part, after) = next_part(tokens);
        if !is_source_expression(part) {
            return false;
        }
        rest = after;
    }
    true
}

/// Whether tokens are an operand of a DEFB.
fn is_part(tokens: &[Token<'_>]) -> bool
    ensures { result ≡ is_some (part_in (views tokens.now)) }
{
    text_in(tokens).is_some() || is_source_expression(tokens)
}

/// The text that stands alone in tokens, with its quotes.
pub(crate) fn text_in<'a>(tokens: &[Token<'a>]) -> Option<&'a [u8]>
    ensures { option_map (λ written. characters_of written.now) result
        ≡ text_in (views tokens.now) }
{
    let [token] = tokens else {
        return None;
    };
    match token.kind {
        TokenKind::Text => Some(token.text),
        _ => None,
    }
}

/// How many bytes the operands of a DEFB take; 65,535 where they are more.
pub(crate) fn bytes_size(operands: OperandList<'_, '_>) -> u16
    ensures { result ≡ min (sum_by part_size (parts_of_operands operands.entry)) 65535 }
{
    let mut size: u16 = 0;
    let mut rest = all(operands);
    while let Some(tokens) = rest {
        let (part, after) = next_part(tokens);
        size = grown(size, part_size(part));
        rest = after;
    }
    size
}

/// How many bytes a text takes, which stands here with its quotes; 65,535 where they are more.
pub(crate) fn text_size(written: &[u8]) -> u16
    ensures { result ≡ min (length (characters_of written.now)) 65535 }
{
    grown(0, character_count(written))
}

/// How many bytes the operands of a DEFW take; 65,535 where they are more.
pub(crate) fn words_size(operands: OperandList<'_, '_>) -> u16
    ensures { result ≡ min (2 * length (trees_of operands.entry)) 65535 }
{
    let mut size: u16 = 0;
    let mut rest = all(operands);
    while let Some(tokens) = rest {
        let (_, after) = next_part(tokens);
        size = grown(size, 2);
        rest = after;
    }
    size
}

/// The tokens of all operands; `None` where there is no operand.
pub(crate) fn all<'t, 'a>(operands: OperandList<'t, 'a>) -> Option<&'t [Token<'a>]>
    ensures { parts_after result ≡ parts_at_commas (views operands.entry.tokens.now) }
{
    if operands.tokens.is_empty() {
        None
    } else {
        Some(operands.tokens)
    }
}

/// A size with so many bytes more.
fn grown(size: u16, by: usize) -> u16
    ensures { result ≡ min (size + by) 65535 }
{
    if by > usize::from(GREATEST_SIZE - size) {
        GREATEST_SIZE
    } else {
        size + by as u16
    }
}

/// How many bytes an operand of a DEFB takes.
fn part_size(tokens: &[Token<'_>]) -> usize
    ensures { result ≡ part_size (part_of_tokens (views tokens.now)) }
{
    match text_in(tokens) {
        Some(written) => character_count(written),
        None => 1,
    }
}
