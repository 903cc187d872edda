//! The statements of directives, from the tokens after them.

ghost use Rattle.std.specs.Prelude.{◌≡◌, ◌<◌, ◌∷◌, [], IfSome, MatchOption, Some, length, option_map};
ghost use Rattle.std.specs.List.{slice_split};
ghost use Rattle.pac_lex.specs.TokensProofs.{views};
ghost use Rattle.pac_lex.specs.TextsProofs.{characters_of};
ghost use Rattle.pac_expr.specs.Trees.{Tree};
ghost use Rattle.pac_asm_operation.specs.Operands.{each_or_none, is_comma, parts_at_commas};
ghost use Rattle.pac_asm_operation.specs.Reserved.{expression_in};
ghost use Rattle.pac_asm_line.specs.Statements as says;
ghost use Rattle.pac_asm_line.specs.Forms.{directive_statement, one_or_more, one_or_two, part_in};
ghost use Rattle.pac_asm_line.specs.Forms.{text_in, no_operands};
ghost use Rattle.pac_asm_line.specs.Views.{expression_tree};
ghost use Rattle.pac_asm_line.specs.Views as view;

use crate::expression::{Expression, expression_in};
use crate::operands::{bytes_in, text_in, words_in};
use crate::statement::Statement;
use pac_asm_operation::{Directive, next_part};
use pac_lex::Token;

/// The statement that a directive is with the tokens after it, if it is one.
pub(crate) fn directed<'t, 'a>(
    directive: Directive,
    tokens: &'t [Token<'a>],
) -> Option<Statement<'t, 'a>>
    ensures { option_map view.seen_statement result
        ≡ directive_statement directive (views tokens.now) }
{
    match directive {
        Directive::Origin => Some(Statement::Origin(expression_in(tokens)?)),
        Directive::Equate => Some(Statement::Equate(expression_in(tokens)?)),
        Directive::Bytes => Some(Statement::Bytes(bytes_in(tokens)?)),
        Directive::Words => Some(Statement::Words(words_in(tokens)?)),
        Directive::Space => space_in(tokens),
        Directive::Text => Some(Statement::Text(text_in(tokens)?)),
        Directive::Condition => Some(Statement::Condition(expression_in(tokens)?)),
        Directive::Otherwise => no_operands(Statement::Otherwise, tokens),
        Directive::EndCondition => no_operands(Statement::EndCondition, tokens),
    }
}

/// A statement that has no operands.
fn no_operands<'t, 'a>(
    statement: Statement<'t, 'a>,
    tokens: &[Token<'_>],
) -> Option<Statement<'t, 'a>>
    ensures { option_map view.seen_statement result
        ≡ no_operands (view.seen_statement statement.entry) (views tokens.now) }
{
    if tokens.is_empty() {
        Some(statement)
    } else {
        None
    }
}

/// The space that one or two expressions tell.
fn space_in<'t, 'a>(tokens: &'t [Token<'a>]) -> Option<Statement<'t, 'a>>
    ensures { option_map view.seen_statement result
        ≡ one_or_two (each_or_none expression_in (parts_at_commas (views tokens.now))) }
{
    if tokens.is_empty() {
        return None;
    }
    let (first, after) = next_part(tokens);
    let size = expression_in(first)?;
    match after {
        None => Some(Statement::Space(size, None)),
        Some(rest) => Some(Statement::Space(size, Some(last_expression(rest)?))),
    }
}

/// The expression that tokens spell, where no comma parts them.
fn last_expression<'t, 'a>(tokens: &'t [Token<'a>]) -> Option<Expression<'t, 'a>>
    ensures { let trees = each_or_none expression_in (slice_split is_comma (views tokens.now)) in
        MatchOption result (IfSome trees (λ all. 1 < length all))
        (λ found. trees ≡ Some (expression_tree found ∷ [])) }
{
    let (part, after) = next_part(tokens);
    let last = expression_in(part)?;
    match after {
        None => Some(last),
        Some(_) => None,
    }
}
