//! The bytes of the two input ports.

ghost use Rattle.std.specs.Prelude.{◌≡◌};
ghost use Rattle.pac_inputs.specs.Ports.{in0, in1};

use pac_num::{high_byte, low_byte};

/// The byte of the first input port, at 5000H, by the word that says which inputs are held: each held input
/// of the low byte reads 0, every other one 1.
#[inline]
pub fn in0_of(held: u16) -> u8
    ensures { result ≡ in0 held }
{
    255 - low_byte(held)
}

/// The byte of the second input port, at 5040H: each held input of the high byte reads 0, every other one 1.
#[inline]
pub fn in1_of(held: u16) -> u8
    ensures { result ≡ in1 held }
{
    255 - high_byte(held)
}
