//! Instructions to bytes.

ghost use Rattle.std.specs.Prelude.{◌≡◌, ◌+◌, ◌≤◌, ◌++◌, ◌<◌, ◌∷◌, [], ◌==◌, length};
ghost use Rattle.pac_table.specs.Patterns.{IsDisplacement, immediate_bytes, page_prefix};
ghost use Rattle.pac_table.specs.Patterns.{word_limit};
ghost use Rattle.pac_table.specs.PatternsLaws.{longest_code};
ghost use Rattle.pac_table.specs.Instructions.{code};

use arrayvec::ArrayVec;
use pac_num::{high_byte, low_byte, unsigned};
use pac_table::{Immediate, Instr, Page};
use std::marker::Model;

/// The code of an instruction: one to four bytes.
#[derive(Drop)]
pub struct Code {
    bytes: ArrayVec<u8, 4>,
}

impl Model for Code {
    ghost use Rattle.std.specs.Prelude.{ℕ, List};

    ghost Value = { List ℕ };

    ghost view = { λ c. c.bytes.items };
}

impl Code {
    /// The bytes, in the order in which they lie in memory.
    #[inline]
    pub fn as_slice(&self) -> &[u8]
        ensures value { result.now ≡ self.now }
        ensures fits { length result.now ≤ longest_code }
    {
        self.bytes.as_slice()
    }

    /// How many bytes the code has.
    #[inline]
    pub fn len(&self) -> usize
        ensures value { result ≡ length self.now }
        ensures fits { result ≤ longest_code }
    {
        self.bytes.len()
    }

    /// Whether the code has no byte.
    #[inline]
    pub fn is_empty(&self) -> bool
        ensures { result ≡ (length self.now == 0) }
    {
        self.bytes.is_empty()
    }
}

/// Puts the bytes of a page's prefix.
fn put_prefix(bytes: &mut ArrayVec<u8, 4>, page: Page)
    requires { bytes.old.items ≡ [] }
    ensures { bytes.new.items ≡ page_prefix page }
{
    match page {
        Page::Plain => {}
        Page::Cb => bytes.push(0xCB),
        Page::Ed => bytes.push(0xED),
        Page::Dd => bytes.push(0xDD),
        Page::Fd => bytes.push(0xFD),
        Page::DdCb => {
            bytes.push(0xDD);
            bytes.push(0xCB);
        }
        Page::FdCb => {
            bytes.push(0xFD);
            bytes.push(0xCB);
        }
    }
}

/// Puts what follows the opcode byte.
fn put_immediate(bytes: &mut ArrayVec<u8, 4>, immediate: Immediate, word: u16, displacement: i8)
    requires room { length bytes.old.items + length
        (immediate_bytes immediate word displacement) ≤ longest_code }
    requires word { word < word_limit immediate }
    requires displacement { IsDisplacement immediate displacement }
    ensures { bytes.new.items ≡ bytes.old.items ++ immediate_bytes immediate word displacement }
{
    match immediate {
        Immediate::Absent => {}
        Immediate::Byte => bytes.push(word as u8),
        Immediate::Word => {
            bytes.push(low_byte(word));
            bytes.push(high_byte(word));
        }
        Immediate::Relative | Immediate::Displacement => bytes.push(unsigned(displacement)),
        Immediate::DisplacementByte => {
            bytes.push(unsigned(displacement));
            bytes.push(word as u8);
        }
    }
}

/// The bytes of an instruction.
pub fn encode(instr: &Instr) -> Code
    ensures { result ≡ code instr.now }
{
    let pattern = instr.pattern();
    let mut bytes = ArrayVec::new();
    put_prefix(&mut bytes, pattern.page);
    if pattern.page.is_displaced() {
        put_immediate(&mut bytes, pattern.immediate, instr.word(), instr.disp());
        bytes.push(instr.opcode());
    } else {
        bytes.push(instr.opcode());
        put_immediate(&mut bytes, pattern.immediate, instr.word(), instr.disp());
    }
    Code { bytes }
}
