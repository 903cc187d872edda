//! The names of registers, pairs and conditions, and what the values of a field name. The same lists
//! serve to read a source and to print.

ghost use Rattle.std.specs.Prelude.{◌≡◌, find};
ghost use Rattle.std.specs.List.{filter};
ghost use Rattle.pac_table_names.specs.WordsProofs.{begins_name, every_name};
ghost use Rattle.pac_table_names.specs.Names.{text_of_name, name_at, value_of_name, name_of};
ghost use Rattle.pac_table_names.specs.Names.{is_written, is_same_name};

use crate::by_name::is_written;
use pac_table::{Name, NameList};

/// Whether two names are one.
#[inline]
pub fn is_same_name(one: Name, other: Name) -> bool
    ensures { result ≡ is_same_name one other }
{
    one == other
}

/// How a name is written.
pub fn text_of_name(name: Name) -> &'static str
    ensures { result.now ≡ text_of_name name }
{
    match name {
        Name::A => "A",
        Name::B => "B",
        Name::C => "C",
        Name::D => "D",
        Name::E => "E",
        Name::H => "H",
        Name::L => "L",
        Name::I => "I",
        Name::R => "R",
        Name::Af => "AF",
        Name::Bc => "BC",
        Name::De => "DE",
        Name::Hl => "HL",
        Name::Sp => "SP",
        Name::Ix => "IX",
        Name::Iy => "IY",
        Name::Nz => "NZ",
        Name::Z => "Z",
        Name::Nc => "NC",
        Name::Po => "PO",
        Name::Pe => "PE",
        Name::P => "P",
        Name::M => "M",
    }
}

/// The name of a field's value.
pub fn name_at(names: NameList, value: u8) -> Option<Name>
    ensures { result ≡ name_at names value }
{
    match names {
        NameList::Registers => register(value),
        NameList::Pairs => pair(value),
        NameList::StackPairs => stack_pair(value),
        NameList::PairsWithIx => pair_with_ix(value),
        NameList::PairsWithIy => pair_with_iy(value),
        NameList::Conditions => condition(value),
        NameList::RelativeConditions => relative_condition(value),
    }
}

/// The value of the field that has a name.
pub fn value_of_name(names: NameList, name: Name) -> Option<u8>
    ensures { result ≡ value_of_name names name }
{
    match names {
        NameList::Registers => register_value(name),
        NameList::Pairs => pair_value(name),
        NameList::StackPairs => stack_pair_value(name),
        NameList::PairsWithIx => pair_with_ix_value(name),
        NameList::PairsWithIy => pair_with_iy_value(name),
        NameList::Conditions => condition_value(name),
        NameList::RelativeConditions => relative_condition_value(name),
    }
}

/// The name of a register.
fn register(value: u8) -> Option<Name>
    ensures { result ≡ name_at NameList.Registers value }
{
    match value {
        0 => Some(Name::B),
        1 => Some(Name::C),
        2 => Some(Name::D),
        3 => Some(Name::E),
        4 => Some(Name::H),
        5 => Some(Name::L),
        7 => Some(Name::A),
        _ => None,
    }
}

/// The value of a register.
fn register_value(name: Name) -> Option<u8>
    ensures { result ≡ value_of_name NameList.Registers name }
{
    match name {
        Name::B => Some(0),
        Name::C => Some(1),
        Name::D => Some(2),
        Name::E => Some(3),
        Name::H => Some(4),
        Name::L => Some(5),
        Name::A => Some(7),
        _ => None,
    }
}

/// The name of a pair.
fn pair(value: u8) -> Option<Name>
    ensures { result ≡ name_at NameList.Pairs value }
{
    match value {
        0 => Some(Name::Bc),
        1 => Some(Name::De),
        2 => Some(Name::Hl),
        3 => Some(Name::Sp),
        _ => None,
    }
}

/// The value of a pair.
fn pair_value(name: Name) -> Option<u8>
    ensures { result ≡ value_of_name NameList.Pairs name }
{
    match name {
        Name::Bc => Some(0),
        Name::De => Some(1),
        Name::Hl => Some(2),
        Name::Sp => Some(3),
        _ => None,
    }
}

/// The name of a pair of PUSH and POP.
fn stack_pair(value: u8) -> Option<Name>
    ensures { result ≡ name_at NameList.StackPairs value }
{
    match value {
        0 => Some(Name::Bc),
        1 => Some(Name::De),
        2 => Some(Name::Hl),
        3 => Some(Name::Af),
        _ => None,
    }
}

/// The value of a pair of PUSH and POP.
fn stack_pair_value(name: Name) -> Option<u8>
    ensures { result ≡ value_of_name NameList.StackPairs name }
{
    match name {
        Name::Bc => Some(0),
        Name::De => Some(1),
        Name::Hl => Some(2),
        Name::Af => Some(3),
        _ => None,
    }
}

/// The name of a pair with IX.
fn pair_with_ix(value: u8) -> Option<Name>
    ensures { result ≡ name_at NameList.PairsWithIx value }
{
    match value {
        0 => Some(Name::Bc),
        1 => Some(Name::De),
        2 => Some(Name::Ix),
        3 => Some(Name::Sp),
        _ => None,
    }
}

/// The value of a pair with IX.
fn pair_with_ix_value(name: Name) -> Option<u8>
    ensures { result ≡ value_of_name NameList.PairsWithIx name }
{
    match name {
        Name::Bc => Some(0),
        Name::De => Some(1),
        Name::Ix => Some(2),
        Name::Sp => Some(3),
        _ => None,
    }
}

/// The name of a pair with IY.
fn pair_with_iy(value: u8) -> Option<Name>
    ensures { result ≡ name_at NameList.PairsWithIy value }
{
    match value {
        0 => Some(Name::Bc),
        1 => Some(Name::De),
        2 => Some(Name::Iy),
        3 => Some(Name::Sp),
        _ => None,
    }
}

/// The value of a pair with IY.
fn pair_with_iy_value(name: Name) -> Option<u8>
    ensures { result ≡ value_of_name NameList.PairsWithIy name }
{
    match name {
        Name::Bc => Some(0),
        Name::De => Some(1),
        Name::Iy => Some(2),
        Name::Sp => Some(3),
        _ => None,
    }
}

/// The name of a condition.
fn condition(value: u8) -> Option<Name>
    ensures { result ≡ name_at NameList.Conditions value }
{
    match value {
        0 => Some(Name::Nz),
        1 => Some(Name::Z),
        2 => Some(Name::Nc),
        3 => Some(Name::C),
        4 => Some(Name::Po),
        5 => Some(Name::Pe),
        6 => Some(Name::P),
        7 => Some(Name::M),
        _ => None,
    }
}

/// The value of a condition.
fn condition_value(name: Name) -> Option<u8>
    ensures { result ≡ value_of_name NameList.Conditions name }
{
    match name {
        Name::Nz => Some(0),
        Name::Z => Some(1),
        Name::Nc => Some(2),
        Name::C => Some(3),
        Name::Po => Some(4),
        Name::Pe => Some(5),
        Name::P => Some(6),
        Name::M => Some(7),
        _ => None,
    }
}

/// The name of a condition of a relative jump.
fn relative_condition(value: u8) -> Option<Name>
    ensures { result ≡ name_at NameList.RelativeConditions value }
{
    match value {
        0 => Some(Name::Nz),
        1 => Some(Name::Z),
        2 => Some(Name::Nc),
        3 => Some(Name::C),
        _ => None,
    }
}

/// The value of a condition of a relative jump.
fn relative_condition_value(name: Name) -> Option<u8>
    ensures { result ≡ value_of_name NameList.RelativeConditions name }
{
    match name {
        Name::Nz => Some(0),
        Name::Z => Some(1),
        Name::Nc => Some(2),
        Name::C => Some(3),
        _ => None,
    }
}

/// The names that begin with a letter, in either case.
fn names_with(first: u8) -> &'static [Name]
    ensures { result.now ≡ filter (begins_name first) every_name }
{
    match first.to_ascii_uppercase() {
        b'A' => &[Name::A, Name::Af],
        b'B' => &[Name::B, Name::Bc],
        b'C' => &[Name::C],
        b'D' => &[Name::D, Name::De],
        b'E' => &[Name::E],
        b'H' => &[Name::H, Name::Hl],
        b'I' => &[Name::I, Name::Ix, Name::Iy],
        b'L' => &[Name::L],
        b'M' => &[Name::M],
        b'N' => &[Name::Nz, Name::Nc],
        b'P' => &[Name::Po, Name::Pe, Name::P],
        b'R' => &[Name::R],
        b'S' => &[Name::Sp],
        b'Z' => &[Name::Z],
        _ => &[],
    }
}

/// The bytes of the longest name; a longer word is none.
const LONGEST: usize = 2;

/// The register, pair or condition that a word names, in either case.
#[tactic(auto, unfolding(crate::specs::Names::name_of))]
pub fn name_of(word: &[u8]) -> Option<Name>
    ensures { result ≡ name_of word.now }
{
    let first = word.first()?;
    if word.len() > LONGEST {
        return None;
    }
    name_among(word, names_with(*first))
}

/// The one of some names that a word is.
fn name_among(word: &[u8], names: &[Name]) -> Option<Name>
    ensures { result ≡ find (λ name. is_written word.now (text_of_name name)) names.now }
{
    for name in names {
        if is_written(word, text_of_name(*name).as_bytes()) {
            return Some(*name);
        }
    }
    None
}
