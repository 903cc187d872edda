//! What stands at an address.

ghost use Rattle.std.specs.Prelude.{◌≡◌};
ghost use Rattle.pac_code.specs.Items.{Code, Data, bytes_in};

use pac_code::encode;
use pac_table::Instr;
use std::alloc::Global;
use std::marker::Model;

/// An instruction, or bytes that are none.
#[derive(Drop)]
enum Held {
    Code(Instr),
    Data(Vec<u8, Global>),
}

/// What stands at an address: an instruction, or bytes that are none, which may be no bytes at all.
#[derive(Drop)]
pub struct Content {
    held: Held,
}

impl Model for Content {
    ghost use Rattle.pac_code.specs.Items.{Content as Standing};
    ghost use Rattle.pac_asm_program.specs.Content.{content_held};

    ghost Value = { Standing };

    ghost view = { λ content. content_held content.held };
}

/// The bytes of a content: the code of an instruction, or data that is lent.
#[derive(Drop)]
enum Lent<'a> {
    Code(pac_code::Code),
    Data(&'a [u8]),
}

/// The bytes of what stands at an address.
#[derive(Drop)]
pub struct Bytes<'a> {
    lent: Lent<'a>,
}

impl<'a> Model for Bytes<'a> {
    ghost use Rattle.std.specs.Prelude.{ℕ, List};
    ghost use Rattle.pac_asm_program.specs.Content.{bytes_lent};

    ghost Value = { List ℕ };

    ghost view = { λ bytes. bytes_lent bytes.lent };
}

impl Content {
    /// An instruction.
    #[inline]
    pub fn code(instr: Instr) -> Content
        ensures { result ≡ Code instr }
    {
        Content {
            held: Held::Code(instr),
        }
    }

    /// Bytes that are no instruction.
    #[inline]
    pub fn data(bytes: Vec<u8, Global>) -> Content
        ensures { result ≡ Data bytes.items }
    {
        Content {
            held: Held::Data(bytes),
        }
    }

    /// The bytes, in the order in which they lie in memory.
    #[inline]
    pub fn bytes(&self) -> Bytes<'_>
        ensures { result ≡ bytes_in self.now }
    {
        let lent = match &self.held {
            Held::Code(instr) => Lent::Code(encode(instr)),
            Held::Data(bytes) => Lent::Data(bytes.as_slice()),
        };
        Bytes { lent }
    }
}

impl Bytes<'_> {
    /// The bytes.
    #[inline]
    pub fn as_slice(&self) -> &[u8]
        ensures { result.now ≡ self.now }
    {
        match &self.lent {
            Lent::Code(code) => code.as_slice(),
            Lent::Data(bytes) => bytes,
        }
    }
}
