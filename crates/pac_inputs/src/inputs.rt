//! The inputs of the board.

ghost use Rattle.std.specs.Prelude.{⊤, ◌≡◌, [], ◌∷◌, codes};
ghost use Rattle.pac_inputs.specs.Inputs.{mask, input_bits};
ghost use Rattle.pac_inputs.specs.Ports.{in0, in1};

use crate::ports::{in0_of, in1_of};
use bitflags::{Flag, Flags, bitflag_items};

/// The inputs that are held at a moment, each a bit of a word (Namco Pac-Man service schematics; which
/// bit is which is this profile's).
#[derive(Clone, Copy, Debug, PartialEq, Eq)]
pub struct Inputs(u16);

bitflag_items! {
    impl Inputs: u16 {
        const P1_UP = 1;
        const P1_LEFT = 2;
        const P1_RIGHT = 4;
        const P1_DOWN = 8;
        const RACK_TEST = 16;
        const COIN1 = 32;
        const COIN2 = 64;
        const CREDIT = 128;
        const P2_UP = 256;
        const P2_LEFT = 512;
        const P2_RIGHT = 1024;
        const P2_DOWN = 2048;
        const BOARD_TEST = 4096;
        const START1 = 8192;
        const START2 = 16384;
        const COCKTAIL = 32768;
    }
}

impl Flags for Inputs {
    type Bits = u16;

    ghost exact = { ⊤ };

    ghost table = { input_bits };

    ghost set_of = { mask };

    fn flags<'a>() -> &'a [Flag<Inputs>] {
        Inputs::FLAGS
    }

    fn bits(&self) -> u16 {
        self.0
    }

    fn from_bits_retain(bits: u16) -> Inputs {
        Inputs(bits)
    }
}

impl Inputs {
    /// The byte of the first input port: a held input of the low byte reads 0, every other one 1.
    #[inline]
    pub fn in0(&self) -> u8
        ensures { result ≡ in0 (mask self.now) }
    {
        in0_of(self.bits())
    }

    /// The byte of the second input port: a held input of the high byte reads 0, every other one 1.
    #[inline]
    pub fn in1(&self) -> u8
        ensures { result ≡ in1 (mask self.now) }
    {
        in1_of(self.bits())
    }
}
