//! All lines of a source at a glance: how many they are, and whether each IF is closed.

ghost use Rattle.std.specs.Prelude.{◌≡◌, ◌<◌, ◌≤◌, nat_lt, length};
ghost use Rattle.std.specs.Str.Lines.{lines};
ghost use Rattle.pac_asm.specs.Programs.{most_lines};
ghost use Rattle.pac_asm.specs.Pairing.{pairing_after_word};
ghost use Rattle.pac_asm.specs.UnclosedProofs.{first_unclosed};

use pac_asm_line::{Conditional, conditional_of};
use pac_lex::first_line;

/// The most lines that a source may have (this profile).
pub(crate) const MOST_LINES: u32 = 65535;

/// Whether a source has more than 65,535 lines.
pub(crate) fn has_too_many_lines(source: &[u8]) -> bool
    ensures { result ≡ nat_lt most_lines (length (lines source.now)) }
{
    let mut rest = source;
    for _ in 0..MOST_LINES + 1 {
        match first_line(rest) {
            None => return false,
            Some((_, below)) => rest = below,
        }
    }
    true
}

/// The open IFs after some lines, by the first words of those lines alone.
#[derive(Clone, Copy)]
struct Pairing {
    /// How many lines there are.
    above: u32,
    /// How many IFs are open.
    depth: u32,
    /// How many lines stand above the outermost open IF, if one is open.
    outermost: u32,
}

/// The open IFs after one line more, which begins with this word.
fn after_word(pairing: Pairing, word: Option<Conditional>) -> Pairing
    requires few { pairing.above < most_lines }
    requires within { pairing.depth ≤ pairing.above }
    ensures { result ≡ pairing_after_word pairing word }
{
    let above = pairing.above + 1;
    match word {
        Some(Conditional::If) if pairing.depth == 0 => Pairing {
            above,
            depth: 1,
            outermost: pairing.above,
        },
        Some(Conditional::If) => Pairing {
            above,
            depth: pairing.depth + 1,
            ..pairing
        },
        Some(Conditional::EndIf) => Pairing {
            above,
            depth: pairing.depth.saturating_sub(1),
            ..pairing
        },
        _ => Pairing { above, ..pairing },
    }
}

/// How many lines stand above the first IF that is never closed. It is the outermost of those that are open after the
/// last line.
pub(crate) fn first_unclosed(source: &[u8]) -> Option<u32>
    requires { length (lines source.now) ≤ most_lines }
    ensures { result ≡ first_unclosed (lines source.now) }
{
    let mut pairing = Pairing {
        above: 0,
        depth: 0,
        outermost: 0,
    };
    let mut rest = source;
    while let Some((line, below)) = first_line(rest) {
        pairing = after_word(pairing, conditional_of(line));
        rest = below;
    }
    if pairing.depth == 0 {
        None
    } else {
        Some(pairing.outermost)
    }
}
