//! The directives by their names.

ghost use Rattle.std.specs.Prelude.{◌≡◌, map};
ghost use Rattle.std.specs.List.{filter};
ghost use Rattle.std.specs.Map.{lookup};
ghost use Rattle.std.specs.Str.{str_eq_ignore_ascii_case};
ghost use Rattle.pac_asm_operation.specs.DirectivesProofs.{begins_directive};
ghost use Rattle.pac_asm_operation.specs.Directives.{directive_names, directive_of};

/// A directive of the source (this profile).
#[derive(Clone, Copy)]
pub enum Directive {
    /// `ORG`: where the next item stands.
    Origin,
    /// `EQU`: the value of its label.
    Equate,
    /// `DEFB` or `DB`: bytes and texts.
    Bytes,
    /// `DEFW` or `DW`: words.
    Words,
    /// `DEFS` or `DS`: equal bytes.
    Space,
    /// `DEFM` or `DM`: one text.
    Text,
    /// `IF`: the lines up to its `ELSE` or `ENDIF` count where its value isn't 0.
    Condition,
    /// `ELSE`: what counts where the `IF` doesn't.
    Otherwise,
    /// `ENDIF`: the end of an `IF`.
    EndCondition,
}

/// The directives whose names begin with D.
static WITH_D: [(&[u8], Directive); 8] = [
    (b"DEFB", Directive::Bytes),
    (b"DB", Directive::Bytes),
    (b"DEFW", Directive::Words),
    (b"DW", Directive::Words),
    (b"DEFS", Directive::Space),
    (b"DS", Directive::Space),
    (b"DEFM", Directive::Text),
    (b"DM", Directive::Text),
];

/// The directives whose names begin with E.
static WITH_E: [(&[u8], Directive); 3] = [
    (b"EQU", Directive::Equate),
    (b"ELSE", Directive::Otherwise),
    (b"ENDIF", Directive::EndCondition),
];

/// The directive whose name begins with I.
static WITH_I: [(&[u8], Directive); 1] = [(b"IF", Directive::Condition)];

/// The directive whose name begins with O.
static WITH_O: [(&[u8], Directive); 1] = [(b"ORG", Directive::Origin)];

/// The directives whose names begin with a letter, in either case.
fn directives_with(first: u8) -> &'static [(&'static [u8], Directive)]
    ensures { map (λ entry. (entry.0.now, entry.1)) result.now
        ≡ filter (begins_directive first) directive_names }
{
    match first.to_ascii_uppercase() {
        b'D' => &WITH_D,
        b'E' => &WITH_E,
        b'I' => &WITH_I,
        b'O' => &WITH_O,
        _ => &[],
    }
}

/// The bytes of the longest name; a longer word is none.
const LONGEST: usize = 5;

/// The directive that a word is, in either case, if it is one.
#[tactic(auto, unfolding(crate::specs::Directives::directive_of))]
pub fn directive_of(word: &[u8]) -> Option<Directive>
    ensures { result ≡ directive_of word.now }
{
    let first = word.first()?;
    if word.len() > LONGEST {
        return None;
    }
    found(word, directives_with(*first))
}

/// The first of some directives whose name a word is.
fn found(word: &[u8], names: &[(&[u8], Directive)]) -> Option<Directive>
    ensures { result ≡ lookup (str_eq_ignore_ascii_case word.now)
        (map (λ entry. (entry.0.now, entry.1)) names.now) }
{
    for (name, directive) in names {
        if is_named(word, name) {
            return Some(*directive);
        }
    }
    None
}

/// Whether a word is a name, in either case.
fn is_named(word: &[u8], name: &[u8]) -> bool
    ensures { result ≡ str_eq_ignore_ascii_case word.now name.now }
{
    word.eq_ignore_ascii_case(name)
}
