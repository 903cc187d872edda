//! Instructions: a row of the table with its fields and its immediate filled in.

ghost use Rattle.std.specs.Prelude.{◌≡◌, ◌<◌, ◌≤◌, ◌↔◌, IsTrue, IsSome, IfSome, length};
ghost use Rattle.pac_table.specs.Instructions.{IsInstruction, row_count, pattern_of, operands_of};
ghost use Rattle.pac_table.specs.Instructions.{effect_of, opcode_of, code};
ghost use Rattle.pac_table.specs.Instructions.{least_ticks, most_ticks, ticks_of, ticks_other_of};
ghost use Rattle.pac_table.specs.Patterns.{IsDisplacement, IsSignedByte, word_limit, lists};
ghost use Rattle.pac_table.specs.PatternsLaws.{longest_code};

use crate::effects::Effect;
use crate::operands::Operands;
use crate::patterns::Pattern;
use crate::table::{row_numbered, rows};
use std::marker::Model;

/// An instruction of the table.
#[derive(Clone, Copy, PartialEq, Eq)]
pub struct Instr {
    row: u16,
    p: u8,
    q: u8,
    word: u16,
    disp: i8,
}

impl Model for Instr {
    ghost use Rattle.pac_table.specs.Instructions.{Instruction, IsInstruction};

    ghost Value = { Instruction };

    ghost view = { λ i. record { row = i.row; p = i.p; q = i.q; word = i.word; disp = i.disp } };

    ghost invariant = { λ i. IsInstruction (record { row = i.row; p = i.p; q = i.q; word = i.word; disp = i.disp }) };

    ghost inverse = { λ i. record { row = i.row; p = i.p; q = i.q; word = i.word; disp = i.disp } };
}

/// Whether there is such a row, and each value is one that it takes.
fn is_instruction(row: u16, p: u8, q: u8, word: u16, disp: i8) -> bool
    ensures { IsTrue result ↔ IsInstruction (record {
      row = row;
      p = p;
      q = q;
      word = word;
      disp = disp;
    }) }
{
    if row as usize >= rows().len() {
        return false;
    }
    let pattern = row_numbered(row).pattern;
    pattern.first.lists(p)
        && pattern.second.lists(q)
        && pattern.immediate.takes_word(word)
        && pattern.immediate.takes_displacement(disp)
}

impl Instr {
    /// The instruction of a row with these values, or nothing where the row is none of the table's, a
    /// field doesn't list its value, n, nn, d or e is out of range, or what the row doesn't have
    /// isn't 0.
    pub fn new(row: u16, p: u8, q: u8, word: u16, disp: i8) -> Option<Self>
        ensures valid { IsSome result ↔ IsInstruction
            (record { row = row; p = p; q = q; word = word; disp = disp }) }
        ensures value { IfSome result (λ i. i
            ≡ record { row = row; p = p; q = q; word = word; disp = disp }) }
    {
        if is_instruction(row, p, q, word, disp) {
            Some(Instr::of(row, p, q, word, disp))
        } else {
            None
        }
    }

    /// The instruction of a row with these values, which are known to make one: nothing is asked.
    #[inline]
    pub fn of(row: u16, p: u8, q: u8, word: u16, disp: i8) -> Self
        requires { IsInstruction (record { row = row; p = p; q = q; word = word; disp = disp }) }
        ensures { result ≡ record { row = row; p = p; q = q; word = word; disp = disp } }
    {
        Instr {
            row,
            p,
            q,
            word,
            disp,
        }
    }

    /// The opcode byte, with the fields filled in.
    pub fn opcode(&self) -> u8
        ensures { result ≡ opcode_of self.now }
    {
        let pattern = self.pattern();
        pattern.opcode(self.p, self.q)
    }

    /// The number of the row.
    pub fn row(&self) -> u16
        ensures value { result ≡ self.now.row }
        ensures bound { result < row_count }
        ensures valid { IsInstruction self.now }
    {
        self.row
    }

    /// The value of the first field, 0 where the row has none.
    pub fn p(&self) -> u8
        ensures value { result ≡ self.now.p }
        ensures listed { IsTrue (lists (pattern_of self.now).first result) }
    {
        self.p
    }

    /// The value of the second field, 0 where the row has none.
    pub fn q(&self) -> u8
        ensures value { result ≡ self.now.q }
        ensures listed { IsTrue (lists (pattern_of self.now).second result) }
    {
        self.q
    }

    /// n or nn, 0 where the row has neither.
    pub fn word(&self) -> u16
        ensures value { result ≡ self.now.word }
        ensures bound { result < word_limit (pattern_of self.now).immediate }
    {
        self.word
    }

    /// d or e, 0 where the row has neither.
    pub fn disp(&self) -> i8
        ensures value { result ≡ self.now.disp }
        ensures bound { IsDisplacement (pattern_of self.now).immediate result }
    {
        self.disp
    }

    /// How many bytes the code has.
    pub fn size(&self) -> u8
        ensures value { result ≡ length (code self.now) }
        ensures at_least { 1 ≤ result }
        ensures at_most { result ≤ longest_code }
    {
        let pattern = self.pattern();
        pattern.page.prefix_size() + 1 + pattern.immediate.size()
    }

    /// The code's pattern.
    pub fn pattern(&self) -> Pattern
        ensures value { result ≡ pattern_of self.now }
        ensures valid { IsInstruction self.now }
    {
        row_numbered(self.row).pattern
    }

    /// The form in source.
    pub fn operands(&self) -> Operands
        ensures { result ≡ operands_of self.now }
    {
        row_numbered(self.row).operands
    }

    /// What is done.
    pub fn effect(&self) -> Effect
        ensures { result ≡ effect_of self.now }
    {
        row_numbered(self.row).effect
    }

    /// The time in T-states; where there are two, that of a taken or repeating instruction.
    pub fn ticks(&self) -> u8
        ensures value { result ≡ ticks_of self.now }
        ensures at_least { least_ticks ≤ result }
        ensures at_most { result ≤ most_ticks }
    {
        let row = row_numbered(self.row);
        row.ticks
    }

    /// The time in T-states of an instruction that is not taken or does not repeat.
    pub fn ticks_other(&self) -> u8
        ensures value { result ≡ ticks_other_of self.now }
        ensures at_least { least_ticks ≤ result }
        ensures at_most { result ≤ most_ticks }
    {
        row_numbered(self.row).ticks_other
    }
}
