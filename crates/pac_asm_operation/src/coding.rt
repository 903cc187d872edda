//! The parts of the code that hold the numbers of an operation.

ghost use Rattle.std.specs.Prelude.{◌≡◌, ◌<◌, Some, None, find, option_map, if◌then◌else◌, ◌+◌};
ghost use Rattle.std.specs.Prelude.{◌/◌, ◌%◌, ◌==◌, ◌&&◌, ◌≤ℤ◌, neg_ℤ, pos, negsuc, unsigned_abs};
ghost use Rattle.std.specs.Prelude.{true, ℕ};
ghost use Rattle.std.specs.List.{All};
ghost use Rattle.pac_table.specs.Instructions.{row_at, row_count};
ghost use Rattle.pac_table_names.specs.Names.{listed_shapes};
ghost use Rattle.pac_asm_operation.specs.Operations.{all_take, are_forms, complement_of_number};
ghost use Rattle.pac_asm_operation.specs.Operations.{holds, is_in_interval, is_number, takes};
ghost use Rattle.pac_asm_operation.specs.Operations.{with_all_operands, with_number, with_operand};
ghost use Rattle.pac_asm_operation.specs.Views.{operand_pair};
ghost use Rattle.pac_asm_operation.specs.Kept.{as_instruction, with_row_number, parts_in_row};
ghost use Rattle.pac_asm_operation.specs.Kept.{suits_row};

use crate::form::{family_in, fits, row_size};
use crate::operand::Operand;
use pac_table::{Instr, Name, NumberKind, Shape, row_numbered};
use pac_table_names::{value_of_name, written};

/// The parts of a code.
#[derive(Clone, Copy)]
struct Parts {
    /// The value of the first field.
    p: u8,
    /// The value of the second field.
    q: u8,
    /// n or nn.
    word: u16,
    /// d or e.
    disp: i8,
}

/// The instruction that operands are in the first of the rows that they suit, where the next
/// instruction stands at an address.
pub(crate) fn placed(
    rows: &[u8],
    family: u8,
    size: u8,
    next: u32,
    first: &Option<Operand<i32>>,
    second: &Option<Operand<i32>>,
) -> Option<Instr>
    requires { All (λ n. n < row_count) rows.now }
    ensures { result ≡ option_map (parts_in_row family next (operand_pair first.now second.now))
        (find (suits_row family size next (operand_pair first.now second.now)) rows.now) }
{
    for row in rows {
        if let Some(instruction) = placed_in(*row, family, size, next, first, second) {
            return Some(instruction);
        }
    }
    None
}

/// The instruction that operands are in a row, if they suit it.
fn placed_in(
    row: u8,
    family: u8,
    size: u8,
    next: u32,
    first: &Option<Operand<i32>>,
    second: &Option<Operand<i32>>,
) -> Option<Instr>
    requires { row < row_count }
    ensures { result ≡ (if suits_row family size next (operand_pair first.now second.now) row
        then Some (parts_in_row family next (operand_pair first.now second.now) row) else None) }
{
    if row_size(row) != size || !fits(row, family, first, second) {
        return None;
    }
    let form = row_numbered(u16::from(row)).operands;
    let value = family_in(form.mnemonic, family);
    let start = Parts {
        p: value,
        q: 0,
        word: 0,
        disp: 0,
    };
    let parts = filled(written(form, value), next, first, second, start)?;
    made(row, &parts)
}

/// The instruction of a row with these parts, if the row's code can hold them.
fn made(row: u8, parts: &Parts) -> Option<Instr>
    requires { row < row_count }
    ensures { result ≡ (if holds (row_at row).pattern (as_instruction parts.now)
        then Some (with_row_number row (as_instruction parts.now)) else None) }
{
    Instr::new(u16::from(row), parts.p, parts.q, parts.word, parts.disp)
}

/// The parts with two operands in them, where their numbers are taken.
fn filled(
    shapes: (Shape, Shape),
    next: u32,
    first: &Option<Operand<i32>>,
    second: &Option<Operand<i32>>,
    parts: Parts,
) -> Option<Parts>
    requires { are_forms (listed_shapes shapes.0 shapes.1) (operand_pair first.now second.now)
        ≡ true }
    ensures { option_map as_instruction result
        ≡ (if all_take (listed_shapes shapes.0 shapes.1) next (operand_pair first.now second.now)
        then Some (with_all_operands (listed_shapes shapes.0 shapes.1) next
        (operand_pair first.now second.now) (as_instruction parts)) else None) }
{
    let Some(operand) = first else {
        return Some(parts);
    };
    let parts = with_operand(shapes.0, next, operand, parts)?;
    match second {
        None => Some(parts),
        Some(operand) => with_operand(shapes.1, next, operand, parts),
    }
}

/// The parts with an operand in them, where its number is taken.
fn with_operand(shape: Shape, next: u32, operand: &Operand<i32>, parts: Parts) -> Option<Parts>
    ensures { option_map as_instruction result
        ≡ (if takes shape next operand.now then Some
        (with_operand shape next operand.now (as_instruction parts)) else None) }
{
    match (shape, operand) {
        (_, Operand::Named(name)) => Some(with_name(shape, *name, parts)),
        (_, Operand::Indexed(_, number)) => with_displacement(i64::from(*number), parts),
        (Shape::AtNumber(kind), Operand::Memory(number)) => with_number(kind, next, *number, parts),
        (Shape::Number(kind), Operand::Value(number)) => with_number(kind, next, *number, parts),
        _ => Some(parts),
    }
}

/// The parts with the value of a name in the field that lists it, if one does.
fn with_name(shape: Shape, name: Name, parts: Parts) -> Parts
    ensures { (next : ℕ) → as_instruction result
        ≡ with_operand shape next (Operand.Named name) (as_instruction parts) }
{
    match shape {
        Shape::FirstField(names) => Parts {
            p: value_of_name(names, name).unwrap_or(0),
            ..parts
        },
        Shape::SecondField(names) => Parts {
            q: value_of_name(names, name).unwrap_or(0),
            ..parts
        },
        _ => parts,
    }
}

/// The parts with a number of a kind, where it is in the kind's range.
fn with_number(kind: NumberKind, next: u32, number: i32, parts: Parts) -> Option<Parts>
    ensures { option_map as_instruction result ≡ (if is_number kind next number
        then Some (with_number kind next number (as_instruction parts)) else None) }
{
    match kind {
        NumberKind::Byte => with_byte(number, parts),
        NumberKind::Word => with_word(number, parts),
        NumberKind::Target => with_displacement(i64::from(number) - i64::from(next), parts),
        NumberKind::Bit => with_bit(number, parts),
        NumberKind::Restart => with_restart(number, parts),
        NumberKind::Mode(mode) => {
            if number == i32::from(mode) {
                Some(parts)
            } else {
                None
            }
        }
    }
}

/// The parts with a displacement, -128 to 127.
fn with_displacement(number: i64, parts: Parts) -> Option<Parts>
    ensures { option_map as_instruction result ≡ (if is_in_interval (negsuc 127) (pos 127) number
        then Some (record (as_instruction parts) { disp = number }) else None) }
{
    if number < -128 || number > 127 {
        return None;
    }
    Some(Parts {
        disp: number as i8,
        ..parts
    })
}

/// The parts with a byte, -128 to 255.
fn with_byte(number: i32, parts: Parts) -> Option<Parts>
    ensures { option_map as_instruction result ≡ (if is_in_interval (negsuc 127) (pos 255) number
        then Some (record (as_instruction parts) { word = complement_of_number 255 number })
        else None) }
{
    if number < -128 || number > 255 {
        return None;
    }
    Some(Parts {
        word: complement(255, number),
        ..parts
    })
}

/// The parts with a word, -32768 to 65535.
fn with_word(number: i32, parts: Parts) -> Option<Parts>
    ensures { option_map as_instruction result
        ≡ (if is_in_interval (negsuc 32767) (pos 65535) number
        then Some (record (as_instruction parts) { word = complement_of_number 65535 number })
        else None) }
{
    if number < -32768 || number > 65535 {
        return None;
    }
    Some(Parts {
        word: complement(65535, number),
        ..parts
    })
}

/// A number in two's complement, where `most` is the greatest number that its bits hold.
fn complement(most: u16, number: i32) -> u16
    requires low { neg_ℤ (pos (most + 1)) ≤ℤ number }
    requires high { number ≤ℤ pos most }
    ensures { result ≡ complement_of_number most number }
{
    if number >= 0 {
        number as u16
    } else {
        most - (-(number + 1)) as u16
    }
}

/// The parts with the number of a bit, 0 to 7.
fn with_bit(number: i32, parts: Parts) -> Option<Parts>
    ensures { option_map as_instruction result ≡ (if is_in_interval (pos 0) (pos 7) number
        then Some (record (as_instruction parts) { p = unsigned_abs number }) else None) }
{
    if number < 0 || number > 7 {
        return None;
    }
    Some(Parts {
        p: number as u8,
        ..parts
    })
}

/// The parts with the address of a restart, 0 to 56 by eights.
fn with_restart(number: i32, parts: Parts) -> Option<Parts>
    ensures { option_map as_instruction result
        ≡ (if is_in_interval (pos 0) (pos 56) number && unsigned_abs number % 8 == 0
        then Some (record (as_instruction parts) { p = unsigned_abs number / 8 }) else None) }
{
    if number < 0 || number > 56 {
        return None;
    }
    let address = number as u8;
    if address % 8 != 0 {
        return None;
    }
    Some(Parts {
        p: address / 8,
        ..parts
    })
}
