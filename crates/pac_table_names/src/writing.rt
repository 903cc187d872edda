//! The operands of a form as they are written, to read a source and to print.

ghost use Rattle.std.specs.Prelude.{◌≡◌};
ghost use Rattle.pac_table_names.specs.Names.{has_accumulator, listed_shapes, written_operands};

use pac_table::{Mnemonic, Name, Operands, Shape};

/// The operands of a form as they are written, one after another, where the first field holds a value.
#[inline]
pub fn written(form: Operands, value: u8) -> (Shape, Shape)
    ensures { listed_shapes result.0 result.1 ≡ written_operands form value }
{
    if has_accumulator(form.mnemonic, value) {
        (Shape::Named(Name::A), form.first)
    } else {
        (form.first, form.second)
    }
}

/// Whether an operation is written with A before its operand: ADD, ADC and SBC of the family.
fn has_accumulator(mnemonic: Mnemonic, value: u8) -> bool
    ensures { result ≡ has_accumulator mnemonic value }
{
    match mnemonic {
        Mnemonic::Alu => value == 0 || value == 1 || value == 3,
        _ => false,
    }
}
