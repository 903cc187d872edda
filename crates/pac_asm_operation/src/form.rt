//! The rows of the table whose form operands have.

ghost use Rattle.std.specs.Prelude.{◌≡◌, ◌<◌, find};
ghost use Rattle.std.specs.List.{All};
ghost use Rattle.pac_table.specs.Instructions.{row_at, row_count};
ghost use Rattle.pac_table_names.specs.Names.{listed_shapes};
ghost use Rattle.pac_table_names.specs.ByName.{family_in};
ghost use Rattle.pac_asm_operation.specs.Operations.{are_forms, fits_as, is_form, row_size};
ghost use Rattle.pac_asm_operation.specs.Views.{fits_row, is_absent, is_form_if, operand_pair};

use crate::operand::Operand;
use pac_table::{Mnemonic, Shape, row_numbered};
use pac_table_names::{is_same_name, value_of_name, written};

/// The first row whose form the operands have.
pub(crate) fn first_row<T>(
    rows: &[u8],
    family: u8,
    first: &Option<Operand<T>>,
    second: &Option<Operand<T>>,
) -> Option<u8>
    requires { All (λ n. n < row_count) rows.now }
    ensures { result ≡ find (fits_row family (operand_pair first.now second.now)) rows.now }
{
    for row in rows {
        if fits(*row, family, first, second) {
            return Some(*row);
        }
    }
    None
}

/// Whether operands have the form of a row.
pub(crate) fn fits<T>(
    row: u8,
    family: u8,
    first: &Option<Operand<T>>,
    second: &Option<Operand<T>>,
) -> bool
    requires { row < row_count }
    ensures { result ≡ fits_row family (operand_pair first.now second.now) row }
{
    let form = row_numbered(u16::from(row)).operands;
    let value = family_in(form.mnemonic, family);
    are_forms(written(form, value), first, second)
}

/// The value of the first field before its operand is read: in a family what the name tells, else 0.
pub(crate) fn family_in(mnemonic: Mnemonic, family: u8) -> u8
    ensures { result ≡ family_in mnemonic family }
{
    if mnemonic.is_family() { family } else { 0 }
}

/// How many bytes the codes of a row have.
pub(crate) fn row_size(row: u8) -> u8
    requires { row < row_count }
    ensures { result ≡ row_size (row_at row) }
{
    let pattern = row_numbered(u16::from(row)).pattern;
    pattern.page.prefix_size() + 1 + pattern.immediate.size()
}

/// Whether operands are written as two shapes say.
fn are_forms<T>(
    shapes: (Shape, Shape),
    first: &Option<Operand<T>>,
    second: &Option<Operand<T>>,
) -> bool
    ensures { result ≡ are_forms (listed_shapes shapes.0 shapes.1)
        (operand_pair first.now second.now) }
{
    match first {
        None => is_absent(shapes.0),
        Some(operand) => is_form(shapes.0, operand) && is_form_if(shapes.1, second),
    }
}

/// Whether an operand, or none, is written as a shape says.
fn is_form_if<T>(shape: Shape, operand: &Option<Operand<T>>) -> bool
    ensures { result ≡ is_form_if shape operand.now }
{
    match operand {
        None => is_absent(shape),
        Some(operand) => is_form(shape, operand),
    }
}

/// Whether a shape is that of no operand.
fn is_absent(shape: Shape) -> bool
    ensures { result ≡ is_absent shape }
{
    matches!(shape, Shape::Absent)
}

/// Whether an operand is written as a shape says.
fn is_form<T>(shape: Shape, operand: &Operand<T>) -> bool
    ensures { result ≡ is_form shape operand.now }
{
    match (shape, operand) {
        (Shape::Named(name), Operand::Named(other)) => is_same_name(name, *other),
        (Shape::FirstField(names), Operand::Named(other)) => value_of_name(names, *other).is_some(),
        (Shape::SecondField(names), Operand::Named(other)) => value_of_name(
            names, *other,
        ).is_some(),
        (Shape::AlternateAf, Operand::AlternateAf) => true,
        (Shape::AtName(name), Operand::AtName(other)) => is_same_name(name, *other),
        (Shape::Indexed(name), Operand::AtName(other)) => is_same_name(name, *other),
        (Shape::Indexed(name), Operand::Indexed(other, _)) => is_same_name(name, *other),
        (Shape::AtNumber(_), Operand::Memory(_)) => true,
        (Shape::Number(_), Operand::Value(_)) => true,
        _ => false,
    }
}
