//! The form of a line, from its tokens.

ghost use Rattle.std.specs.Prelude.{◌≡◌, ◌∷◌, true, option_map};
ghost use Rattle.pac_lex.specs.TokensProofs.{views};
ghost use Rattle.pac_asm_operation.specs.Directives.{directive_of};
ghost use Rattle.pac_asm_line.specs.Forms.{after_colon, begins_statement, directive_or_operation, form_of};
ghost use Rattle.pac_asm_line.specs.Forms.{form_with_label, is_colon, is_name_kind};
ghost use Rattle.pac_asm_line.specs.Forms.{statement_after_label, may_stand};
ghost use Rattle.pac_asm_line.specs.Views as view;

use crate::directed::directed;
use crate::statement::{Form, Statement};
use pac_asm_operation::{Directive, Operation, directive_of};
use pac_lex::{Token, TokenKind};
use pac_table_names::{is_operation, name_of};

/// The form of a line of these tokens, or `None` where they are no line of the source (A2). Its first name
/// is a label exactly where it names no directive and no operation.
#[tactic(auto, unfolding(crate::specs::Forms::form_of))]
pub fn form<'t, 'a>(tokens: &'t [Token<'a>]) -> Option<Form<'t, 'a>>
    ensures { option_map view.seen_form result ≡ form_of (views tokens.now) }
{
    let [first, rest @ ..] = tokens else {
        return formed(None, Some(Statement::Nothing));
    };
    if is_name(first) {
        named(first, rest)
    } else {
        None
    }
}

/// The form of a line that begins with this name.
#[tactic(auto, unfolding(crate::specs::Forms::form_of, crate::specs::Forms::statement_of))]
fn named<'t, 'a>(first: &Token<'a>, rest: &'t [Token<'a>]) -> Option<Form<'t, 'a>>
    requires { is_name_kind first.now.kind ≡ true }
    ensures { option_map view.seen_form result ≡ form_of (views (first.now ∷ rest.now)) }
{
    let word = first.text;
    let directive = directive_of(word);
    if begins_statement(directive, word) {
        formed(None, directed_or(directive, word, rest))
    } else if name_of(word).is_some() {
        None
    } else {
        formed(Some(word), labelled(after_colon(rest)))
    }
}

/// Whether a word, which is this directive if it is one, is no label, but names a directive or an operation.
#[tactic(auto, unfolding(crate::specs::Forms::begins_statement))]
fn begins_statement(directive: Option<Directive>, word: &[u8]) -> bool
    requires { directive ≡ directive_of word.now }
    ensures { result ≡ begins_statement word.now }
{
    directive.is_some() || is_operation(word)
}

/// A label with a statement, if the statement may have it.
fn formed<'t, 'a>(
    label: Option<&'a [u8]>,
    statement: Option<Statement<'t, 'a>>,
) -> Option<Form<'t, 'a>>
    ensures { option_map view.seen_form result
        ≡ form_with_label (option_map (λ name. name.now) label.entry)
        (option_map view.seen_statement statement.entry) }
{
    let statement = statement?;
    if may_stand(label.is_some(), &statement) {
        Some(Form { label, statement })
    } else {
        None
    }
}

/// Whether a statement may stand after a label, or without one.
fn may_stand(has_label: bool, statement: &Statement<'_, '_>) -> bool
    ensures { result ≡ may_stand has_label (view.seen_statement statement.now) }
{
    match statement {
        Statement::Equate(_) => has_label,
        Statement::Origin(_)
        | Statement::Condition(_)
        | Statement::Otherwise
        | Statement::EndCondition => !has_label,
        _ => true,
    }
}

/// What follows a label.
#[tactic(auto, unfolding(crate::specs::Forms::statement_of))]
fn labelled<'t, 'a>(tokens: &'t [Token<'a>]) -> Option<Statement<'t, 'a>>
    ensures { option_map view.seen_statement result ≡ statement_after_label (views tokens.now) }
{
    let [first, rest @ ..] = tokens else {
        return Some(Statement::Nothing);
    };
    if is_name(first) {
        directed_or(directive_of(first.text), first.text, rest)
    } else {
        None
    }
}

/// What follows the colon of a label, if it has one.
fn after_colon<'t, 'a>(tokens: &'t [Token<'a>]) -> &'t [Token<'a>]
    ensures { views result.now ≡ after_colon (views tokens.now) }
{
    match tokens {
        [first, rest @ ..] if is_colon(first) => rest,
        _ => tokens,
    }
}

/// The statement that a word is with the tokens after it, if it is one: a directive, or else an operation.
fn directed_or<'t, 'a>(
    directive: Option<Directive>,
    word: &'a [u8],
    tokens: &'t [Token<'a>],
) -> Option<Statement<'t, 'a>>
    ensures { option_map view.seen_statement result
        ≡ directive_or_operation directive word.now (views tokens.now) }
{
    match directive {
        Some(directive) => directed(directive, tokens),
        None => Some(Statement::Operation(Operation::read(word, tokens)?)),
    }
}

/// Whether a token is a name.
fn is_name(token: &Token<'_>) -> bool
    ensures { result ≡ is_name_kind token.now.kind }
{
    matches!(token.kind, TokenKind::Name)
}

/// Whether a token is a colon.
fn is_colon(token: &Token<'_>) -> bool
    ensures { result ≡ is_colon token.now.kind }
{
    matches!(token.kind, TokenKind::Colon)
}
