//! The names of the commands.

ghost use Rattle.std.specs.Prelude.{◌≡◌, map};
ghost use Rattle.std.specs.Map.{lookup};
ghost use Rattle.std.specs.Str.{bytes_eq};
ghost use Rattle.pac_debug_text.specs.Commands.{verb_of};

/// What a command does, by its name.
#[derive(Clone, Copy)]
pub(crate) enum Verb {
    Step,
    Continue,
    Frames,
    Back,
    Return,
    Keep,
    Break,
    Unbreak,
    Regs,
    Mem,
    Dis,
    History,
}

/// The names, in lower case alone.
static NAMES: [(&[u8], Verb); 12] = [
    (b"step", Verb::Step),
    (b"continue", Verb::Continue),
    (b"frames", Verb::Frames),
    (b"back", Verb::Back),
    (b"return", Verb::Return),
    (b"keep", Verb::Keep),
    (b"break", Verb::Break),
    (b"unbreak", Verb::Unbreak),
    (b"regs", Verb::Regs),
    (b"mem", Verb::Mem),
    (b"dis", Verb::Dis),
    (b"history", Verb::History),
];

/// The verb that a word names, if it names one.
#[tactic(auto, unfolding(crate::specs::Commands::verb_of))]
pub(crate) fn verb_of(word: &[u8]) -> Option<Verb>
    ensures { result ≡ verb_of word.now }
{
    found(word, &NAMES)
}

/// The first of some verbs whose name a word is.
fn found(word: &[u8], names: &[(&[u8], Verb)]) -> Option<Verb>
    ensures { result ≡ lookup (bytes_eq word.now)
        (map (λ entry. (entry.0.now, entry.1)) names.now) }
{
    for (name, verb) in names {
        if is_named(word, name) {
            return Some(*verb);
        }
    }
    None
}

/// Whether a word is a name.
fn is_named(word: &[u8], name: &[u8]) -> bool
    ensures { result ≡ bytes_eq word.now name.now }
{
    word == name
}
