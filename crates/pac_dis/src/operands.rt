//! The operands of an instruction as text.

ghost use Rattle.std.specs.Prelude.{◌≡◌, ◌<◌, ◌≤◌, ◌+◌, ◌++◌, length, map};
ghost use Rattle.arrayvec.specs.ArrayString.{array_string_len};
ghost use Rattle.pac_table_names.specs.Names.{listed_shapes, present_shape, text_of_name};
ghost use Rattle.pac_table.specs.Instructions.{IsInstruction};
ghost use Rattle.pac_dis.specs.Numerals.{displacement_text};
ghost use Rattle.pac_dis.specs.Texts as spec;
ghost use Rattle.pac_dis.specs.Ranges.{IsShown, ShowsEach, ShowsNumbers};
ghost use Rattle.pac_dis.specs.TextsLaws.{longest_text};

use crate::numerals::{put_byte, put_digit, put_displacement, put_word};
use crate::text::{Text, put_character};
use pac_num::{displaced, offset};
use pac_table::{Instr, Name, NumberKind, Shape};
use pac_table_names::{name_at, text_of_name, written};

/// What the first field of an instruction holds.
fn first_field(instr: &Instr) -> u8
    ensures value { result ≡ instr.now.p }
    ensures below { result < 8 }
{
    instr.p()
}

/// Appends the address to which a relative jump goes, where its code stands at an address.
fn put_target(text: &mut Text, at: u16, instr: &Instr)
    requires { array_string_len text.old + length
        (spec.number_text at instr.now NumberKind.Target) ≤ longest_text }
    ensures { text.new.bytes ≡ text.old.bytes ++ spec.number_text at instr.now NumberKind.Target }
{
    let after = offset(at, u16::from(instr.size()));
    put_word(text, displaced(after, instr.disp()));
}

/// Appends a number of an instruction whose code stands at an address.
fn put_number(text: &mut Text, at: u16, instr: &Instr, kind: NumberKind)
    requires shown { IsShown instr.now kind }
    requires room { array_string_len text.old + length
        (spec.number_text at instr.now kind) ≤ longest_text }
    ensures { text.new.bytes ≡ text.old.bytes ++ spec.number_text at instr.now kind }
{
    match kind {
        NumberKind::Byte => put_byte(text, instr.word() as u8),
        NumberKind::Word => put_word(text, instr.word()),
        NumberKind::Target => put_target(text, at, instr),
        NumberKind::Bit => put_digit(text, first_field(instr)),
        NumberKind::Restart => put_byte(text, 8 * first_field(instr)),
        NumberKind::Mode(number) => put_digit(text, number),
    }
}

/// Appends the name of a field's value.
fn put_name(text: &mut Text, name: Option<Name>)
    requires { array_string_len text.old + length (spec.name_text name) ≤ longest_text }
    ensures { text.new.bytes ≡ text.old.bytes ++ spec.name_text name }
{
    if let Some(name) = name {
        text.push_str(text_of_name(name));
    }
}

/// Appends a name in parentheses.
fn put_at_name(text: &mut Text, name: Name)
    requires { array_string_len text.old + length
        (spec.in_parentheses (text_of_name name)) ≤ longest_text }
    ensures { text.new.bytes ≡ text.old.bytes ++ spec.in_parentheses (text_of_name name) }
{
    text.push_str("(");
    text.push_str(text_of_name(name));
    text.push_str(")");
}

/// Appends IX or IY with a displacement, in parentheses.
fn put_indexed(text: &mut Text, name: Name, displacement: i8)
    requires { array_string_len text.old + length
        (spec.in_parentheses (text_of_name name ++ displacement_text displacement)) ≤
        longest_text }
    ensures { text.new.bytes ≡ text.old.bytes ++ spec.in_parentheses
        (text_of_name name ++ displacement_text displacement) }
{
    text.push_str("(");
    text.push_str(text_of_name(name));
    put_displacement(text, displacement);
    text.push_str(")");
}

/// Appends a number in parentheses.
fn put_at_number(text: &mut Text, at: u16, instr: &Instr, kind: NumberKind)
    requires shown { IsShown instr.now kind }
    requires room { array_string_len text.old + length
        (spec.in_parentheses (spec.number_text at instr.now kind)) ≤ longest_text }
    ensures { text.new.bytes ≡ text.old.bytes ++ spec.in_parentheses
        (spec.number_text at instr.now kind) }
{
    text.push_str("(");
    put_number(text, at, instr, kind);
    text.push_str(")");
}

/// Appends an operand of a shape.
fn put_shape(text: &mut Text, at: u16, instr: &Instr, shape: Shape)
    requires shown { ShowsNumbers instr.now shape }
    requires room { array_string_len text.old + length
        (spec.operand_text at instr.now shape) ≤ longest_text }
    ensures { text.new.bytes ≡ text.old.bytes ++ spec.operand_text at instr.now shape }
{
    match shape {
        Shape::Absent => {}
        Shape::Named(name) => text.push_str(text_of_name(name)),
        Shape::AlternateAf => text.push_str("AF'"),
        Shape::AtName(name) => put_at_name(text, name),
        Shape::FirstField(names) => put_name(text, name_at(names, instr.p())),
        Shape::SecondField(names) => put_name(text, name_at(names, instr.q())),
        Shape::Indexed(name) => put_indexed(text, name, instr.disp()),
        Shape::Number(kind) => put_number(text, at, instr, kind),
        Shape::AtNumber(kind) => put_at_number(text, at, instr, kind),
    }
}

/// Appends the operand of a shape after a mark, where there is one.
fn put_operand(text: &mut Text, mark: u8, at: u16, instr: &Instr, shape: Shape)
    requires ascii { mark < 128 }
    requires shown { ShowsNumbers instr.now shape }
    requires room { array_string_len text.old + length
        (spec.marked_operands mark (map (spec.operand_text at instr.now)
        (present_shape shape))) ≤ longest_text }
    ensures { text.new.bytes ≡ text.old.bytes ++ spec.marked_operands mark
        (map (spec.operand_text at instr.now) (present_shape shape)) }
{
    if matches!(shape, Shape::Absent) {
        return;
    }
    put_character(text, mark);
    put_shape(text, at, instr, shape);
}

/// Appends one operand after another; after one that isn't there there is none.
fn put_both(text: &mut Text, at: u16, instr: &Instr, first: Shape, second: Shape)
    requires shown { ShowsEach instr.now (listed_shapes first second) }
    requires room { array_string_len text.old + length
        (spec.marked_operands spec.blank_code
        (map (spec.operand_text at instr.now) (listed_shapes first second))) ≤ longest_text }
    ensures { text.new.bytes ≡ text.old.bytes
        ++ spec.marked_operands spec.blank_code
        (map (spec.operand_text at instr.now) (listed_shapes first second)) }
{
    if matches!(first, Shape::Absent) {
        return;
    }
    put_operand(text, b' ', at, instr, first);
    put_operand(text, b',', at, instr, second);
}

/// Appends the operands of an instruction whose code stands at an address.
pub fn put_operands(text: &mut Text, at: u16, instr: &Instr)
    requires valid { IsInstruction instr.now }
    requires room { array_string_len text.old + length
        (spec.marked_operands spec.blank_code (spec.operand_texts at instr.now)) ≤
        longest_text }
    ensures { text.new.bytes ≡ text.old.bytes ++ spec.marked_operands spec.blank_code
        (spec.operand_texts at instr.now) }
{
    let (first, second) = written(instr.operands(), instr.p());
    put_both(text, at, instr, first, second);
}
