//! The directives that tell which lines count, by a line's first word.

ghost use Rattle.std.specs.Prelude.{◌≡◌};
ghost use Rattle.pac_lex.specs.Words.{first_word};
ghost use Rattle.pac_asm_line.specs.Conditionals.{conditional_word};
ghost use Rattle.pac_asm_line.specs.ConditionalsProofs.{may_begin_conditional};

use pac_asm_operation::{Directive, directive_of};
use pac_lex::{first_byte, first_word};

/// A directive that tells which of the lines after it count.
#[derive(Clone, Copy, Debug, PartialEq, Eq)]
pub enum Conditional {
    /// `IF`: the lines up to its `ELSE` or `ENDIF` count where its value isn't 0.
    If,
    /// `ELSE`: what counts where the `IF` doesn't.
    Else,
    /// `ENDIF`: the end of an `IF`.
    EndIf,
}

/// What the first word of a line, in either case, opens, parts or closes. A line is counted or skipped by
/// this word alone, whatever follows it.
pub fn conditional_word(word: &[u8]) -> Option<Conditional>
    ensures { result ≡ conditional_word word.now }
{
    match directive_of(word) {
        Some(Directive::Condition) => Some(Conditional::If),
        Some(Directive::Otherwise) => Some(Conditional::Else),
        Some(Directive::EndCondition) => Some(Conditional::EndIf),
        _ => None,
    }
}

/// What a line opens, parts or closes by its first word. Most lines begin with another letter, and their words aren't
/// looked for.
pub fn conditional_of(line: &[u8]) -> Option<Conditional>
    ensures { result ≡ conditional_word (first_word line.now) }
{
    let first = first_byte(line)?;
    if may_begin(first) {
        conditional_word(first_word(line))
    } else {
        None
    }
}

/// Whether IF, ELSE or ENDIF begins with a byte, in either case.
#[inline]
fn may_begin(first: u8) -> bool
    ensures { result ≡ may_begin_conditional first }
{
    matches!(first, b'E' | b'e' | b'I' | b'i')
}
