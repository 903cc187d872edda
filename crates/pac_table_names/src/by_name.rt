//! The rows that a name has. They are found by the first letter of the name; the proof holds the lists
//! of rows against a search of all rows.

ghost use Rattle.std.specs.Prelude.{◌≡◌, ◌<◌, ◌≤◌, length, slice_range, find};
ghost use Rattle.std.specs.List.{filter, All};
ghost use Rattle.std.specs.Option.{option_copied};
ghost use Rattle.pac_table_names.specs.ByName.{AreNamed, rows_named, family_value};
ghost use Rattle.pac_table_names.specs.WordsProofs.{word_list, row_list, letter_list, begins_with};
ghost use Rattle.pac_table_names.specs.WordsProofs.{is_text, letters_of};
ghost use Rattle.pac_table_names.specs.Names.{is_operation, is_written};
ghost use Rattle.pac_table.specs.Instructions.{row_count};

/// The rows that a name has.
#[derive(Clone, Copy)]
pub struct NamedRows {
    /// Their numbers, in the order of the table.
    pub rows: &'static [u8],
    /// The value of the first field in those that are a family's.
    pub family: u8,
}

/// A name of operations: its letters, filled up with blanks, and how many it has; its rows stand from
/// one place to another in the list of rows.
#[derive(Clone, Copy)]
struct Word {
    letters: [u8; 4],
    length: u8,
    from: u8,
    to: u8,
    family: u8,
}

macro_rules! word {
    ($letters:literal, $length:literal, $from:literal, $to:literal, $family:literal) => {
        Word {
            letters: *$letters,
            length: $length,
            from: $from,
            to: $to,
            family: $family,
        }
    };
}

/// The rows of each name, a name a line, in the order of the names.
static ROWS: [u8; 199] = [
    21, 22, 23, 82, 108, 129, // ADC
    21, 22, 23, 36, 108, 111, 129, 132, // ADD
    21, 22, 23, 108, 129, // AND
    58, 59, 116, 137, // BIT
    49, 50, // CALL
    30, // CCF
    21, 22, 23, 108, 129, // CP
    76, // CPD
    77, // CPDR
    74, // CPI
    75, // CPIR
    29, // CPL
    28, // DAA
    26, 27, 38, 110, 113, 131, 134, // DEC
    34, // DI
    48, // DJNZ
    35, // EI
    17, 18, 20, 107, 128, // EX
    19, // EXX
    33, // HALT
    79, 80, 81, // IM
    54, 88, // IN
    24, 25, 37, 109, 112, 130, 133, // INC
    91, // IND
    92, // INDR
    89, // INI
    90, // INIR
    43, 44, 47, 114, 135, // JP
    45, 46, // JR
    0, 1, 2, 3, 4, 5, 6, 7, 8, 9, 10, 11, 12, 13, 14, 64, 65, 66, 67, 68, 69, 98, 99, 100, 101,
    102, 103, 104, 119, 120, 121, 122, 123, 124, 125, // LD
    72, // LDD
    73, // LDDR
    70, // LDI
    71, // LDIR
    78, // NEG
    32, // NOP
    21, 22, 23, 108, 129, // OR
    97, // OTDR
    95, // OTIR
    55, 93, // OUT
    96, // OUTD
    94, // OUTI
    16, 106, 127, // POP
    15, 105, 126, // PUSH
    62, 63, 118, 139, // RES
    51, 52, // RET
    86, // RETI
    87, // RETN
    56, 57, 115, 136, // RL
    40, // RLA
    56, 57, 115, 136, // RLC
    39, // RLCA
    84, // RLD
    56, 57, 115, 136, // RR
    42, // RRA
    56, 57, 115, 136, // RRC
    41, // RRCA
    85, // RRD
    53, // RST
    21, 22, 23, 83, 108, 129, // SBC
    31, // SCF
    60, 61, 117, 138, // SET
    56, 57, 115, 136, // SLA
    56, 57, 115, 136, // SRA
    56, 57, 115, 136, // SRL
    21, 22, 23, 108, 129, // SUB
    21, 22, 23, 108, 129, // XOR
];

/// The names.
static WORDS: [Word; 67] = [
    word!(b"ADC ", 3, 0, 6, 1),
    word!(b"ADD ", 3, 6, 14, 0),
    word!(b"AND ", 3, 14, 19, 4),
    word!(b"BIT ", 3, 19, 23, 0),
    word!(b"CALL", 4, 23, 25, 0),
    word!(b"CCF ", 3, 25, 26, 0),
    word!(b"CP  ", 2, 26, 31, 7),
    word!(b"CPD ", 3, 31, 32, 0),
    word!(b"CPDR", 4, 32, 33, 0),
    word!(b"CPI ", 3, 33, 34, 0),
    word!(b"CPIR", 4, 34, 35, 0),
    word!(b"CPL ", 3, 35, 36, 0),
    word!(b"DAA ", 3, 36, 37, 0),
    word!(b"DEC ", 3, 37, 44, 0),
    word!(b"DI  ", 2, 44, 45, 0),
    word!(b"DJNZ", 4, 45, 46, 0),
    word!(b"EI  ", 2, 46, 47, 0),
    word!(b"EX  ", 2, 47, 52, 0),
    word!(b"EXX ", 3, 52, 53, 0),
    word!(b"HALT", 4, 53, 54, 0),
    word!(b"IM  ", 2, 54, 57, 0),
    word!(b"IN  ", 2, 57, 59, 0),
    word!(b"INC ", 3, 59, 66, 0),
    word!(b"IND ", 3, 66, 67, 0),
    word!(b"INDR", 4, 67, 68, 0),
    word!(b"INI ", 3, 68, 69, 0),
    word!(b"INIR", 4, 69, 70, 0),
    word!(b"JP  ", 2, 70, 75, 0),
    word!(b"JR  ", 2, 75, 77, 0),
    word!(b"LD  ", 2, 77, 112, 0),
    word!(b"LDD ", 3, 112, 113, 0),
    word!(b"LDDR", 4, 113, 114, 0),
    word!(b"LDI ", 3, 114, 115, 0),
    word!(b"LDIR", 4, 115, 116, 0),
    word!(b"NEG ", 3, 116, 117, 0),
    word!(b"NOP ", 3, 117, 118, 0),
    word!(b"OR  ", 2, 118, 123, 6),
    word!(b"OTDR", 4, 123, 124, 0),
    word!(b"OTIR", 4, 124, 125, 0),
    word!(b"OUT ", 3, 125, 127, 0),
    word!(b"OUTD", 4, 127, 128, 0),
    word!(b"OUTI", 4, 128, 129, 0),
    word!(b"POP ", 3, 129, 132, 0),
    word!(b"PUSH", 4, 132, 135, 0),
    word!(b"RES ", 3, 135, 139, 0),
    word!(b"RET ", 3, 139, 141, 0),
    word!(b"RETI", 4, 141, 142, 0),
    word!(b"RETN", 4, 142, 143, 0),
    word!(b"RL  ", 2, 143, 147, 2),
    word!(b"RLA ", 3, 147, 148, 0),
    word!(b"RLC ", 3, 148, 152, 0),
    word!(b"RLCA", 4, 152, 153, 0),
    word!(b"RLD ", 3, 153, 154, 0),
    word!(b"RR  ", 2, 154, 158, 3),
    word!(b"RRA ", 3, 158, 159, 0),
    word!(b"RRC ", 3, 159, 163, 1),
    word!(b"RRCA", 4, 163, 164, 0),
    word!(b"RRD ", 3, 164, 165, 0),
    word!(b"RST ", 3, 165, 166, 0),
    word!(b"SBC ", 3, 166, 172, 3),
    word!(b"SCF ", 3, 172, 173, 0),
    word!(b"SET ", 3, 173, 177, 0),
    word!(b"SLA ", 3, 177, 181, 4),
    word!(b"SRA ", 3, 181, 185, 5),
    word!(b"SRL ", 3, 185, 189, 7),
    word!(b"SUB ", 3, 189, 194, 2),
    word!(b"XOR ", 3, 194, 199, 5),
];

/// Where the names begin that have a first letter, from A on, and where they all end.
static LETTERS: [u8; 27] = [
    0, 3, 4, 12, 16, 19, 19, 19, 20, 27, 29, 29, 34, 34, 36, 42, 44, 44, 59, 66, 66, 66, 66, 66,
    67, 67, 67,
];

/// The names.
#[tactic(auto, unfolding(crate::specs::WordsProofs::word_list, crate::specs::Words::operation_names, crate::specs::ByName::rows_named, crate::specs::ByName::family_value, pac_table::specs::Table::table))]
fn words() -> &'static [Word]
    ensures { result.now ≡ word_list }
{
    &WORDS
}

/// The rows of all names.
#[tactic(auto, unfolding(crate::specs::WordsProofs::row_list, crate::specs::Words::operation_names, crate::specs::ByName::rows_named, pac_table::specs::Table::table))]
fn row_list() -> &'static [u8]
    ensures { result.now ≡ row_list }
{
    &ROWS
}

/// Where the names with each first letter begin.
#[tactic(auto, unfolding(crate::specs::WordsProofs::letter_list, crate::specs::Words::operation_names))]
fn letter_list() -> &'static [u8]
    ensures { result.now ≡ letter_list }
{
    &LETTERS
}

/// The items from one place to another.
fn part<T>(items: &'static [T], from: usize, to: usize) -> &'static [T]
    requires order { from ≤ to }
    requires within { to ≤ length items.now }
    ensures { result.now ≡ slice_range items.now from to }
{
    &items[from..to]
}

/// The names that begin with a letter, in either case.
fn words_with(first: u8) -> &'static [Word]
    ensures { result.now ≡ filter (begins_with first) word_list }
{
    let letter = first.to_ascii_uppercase();
    if !letter.is_ascii_uppercase() {
        return &[];
    }
    let letter = usize::from(letter - b'A');
    let places = letter_list();
    let from = usize::from(places[letter]);
    let to = usize::from(places[letter + 1]);
    part(words(), from, to)
}

/// Whether bytes are a text, in either case.
pub fn is_written(bytes: &[u8], text: &[u8]) -> bool
    ensures { result ≡ is_written bytes.now text.now }
{
    bytes.eq_ignore_ascii_case(text)
}

/// The letters of a name.
fn letters(name: &Word) -> &[u8]
    ensures { result.now ≡ letters_of name.now }
{
    &name.letters[..usize::from(name.length).min(4)]
}

/// The one of these names that bytes are, in either case.
fn named(bytes: &[u8], words: &'static [Word]) -> Option<&'static Word>
    ensures { option_copied result ≡ find (is_text bytes.now) words.now }
{
    for name in words {
        if is_written(bytes, letters(name)) {
            return Some(name);
        }
    }
    None
}

/// The bytes of the longest name; a longer word is none.
const LONGEST: usize = 4;

/// The name that bytes are.
fn word_of(bytes: &[u8]) -> Option<&'static Word>
    ensures { option_copied result ≡ find (is_text bytes.now) word_list }
{
    let first = bytes.first()?;
    if bytes.len() > LONGEST {
        return None;
    }
    named(bytes, words_with(*first))
}

/// The rows that have this name, in either case.
pub fn rows_named(word: &[u8]) -> NamedRows
    ensures rows { result.rows.now ≡ rows_named word.now }
    ensures family { result.family ≡ family_value word.now }
    ensures bound { All (λ n. n < row_count) result.rows.now }
    ensures named { AreNamed word.now result.family result.rows.now }
{
    match word_of(word) {
        None => NamedRows {
            rows: &[],
            family: 0,
        },
        Some(name) => NamedRows {
            rows: part(row_list(), usize::from(name.from), usize::from(name.to)),
            family: name.family,
        },
    }
}

/// Whether a word is the name of an operation.
pub fn is_operation(word: &[u8]) -> bool
    ensures { result ≡ is_operation word.now }
{
    !rows_named(word).rows.is_empty()
}
