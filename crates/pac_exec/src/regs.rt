//! The registers of the processor.

ghost use Rattle.std.specs.Prelude.{◌≡◌};
ghost use Rattle.pac_exec.specs.Registers as registers;

use pac_num::{high_byte, low_byte};
use pac_table::InterruptMode;
use std::mem::swap;

/// The second set of the eight registers of a byte (UM0080, "Z80 CPU Register Description"); EX AF,AF' and EXX bring it in.
#[derive(Clone, Copy, Debug, PartialEq, Eq)]
pub struct Alternate {
    /// A'.
    pub a: u8,
    /// F'.
    pub f: u8,
    /// B'.
    pub b: u8,
    /// C'.
    pub c: u8,
    /// D'.
    pub d: u8,
    /// E'.
    pub e: u8,
    /// H'.
    pub h: u8,
    /// L'.
    pub l: u8,
}

/// The registers (UM0080, "Z80 CPU Register Description") with the two states that outlive an instruction: halted, and just after EI.
#[derive(Clone, Copy, Debug, PartialEq, Eq)]
pub struct Regs {
    /// The accumulator.
    pub a: u8,
    /// The flags: bit 7 S, 6 Z, 4 H, 2 P/V, 1 N, 0 C.
    pub f: u8,
    /// B, the high byte of BC.
    pub b: u8,
    /// C, the low byte of BC.
    pub c: u8,
    /// D, the high byte of DE.
    pub d: u8,
    /// E, the low byte of DE.
    pub e: u8,
    /// H, the high byte of HL.
    pub h: u8,
    /// L, the low byte of HL.
    pub l: u8,
    /// The second set.
    pub alternate: Alternate,
    /// The first index register.
    pub ix: u16,
    /// The second index register.
    pub iy: u16,
    /// The stack pointer.
    pub sp: u16,
    /// The program counter.
    pub pc: u16,
    /// The high byte of the table of interrupt mode 2.
    pub i: u8,
    /// The refresh counter; its low seven bits count fetches.
    pub r: u8,
    /// Whether interrupts are accepted.
    pub iff1: bool,
    /// What a non-maskable interrupt would have kept of `iff1`.
    pub iff2: bool,
    /// How an interrupt is answered.
    pub mode: InterruptMode,
    /// Whether HALT has stopped the processor until an interrupt.
    pub halted: bool,
    /// Whether the last step was EI, after which no interrupt is accepted.
    pub after_ei: bool,
}

impl Regs {
    /// The register that a field r names: B 0, C 1, D 2, E 3, H 4, L 5, A 7.
    #[inline]
    pub fn register(&self, r: u8) -> u8
        ensures { result ≡ registers.register_numbered self.now r }
    {
        match r {
            0 => self.b,
            1 => self.c,
            2 => self.d,
            3 => self.e,
            4 => self.h,
            5 => self.l,
            _ => self.a,
        }
    }

    /// Puts a byte into the register that a field r names.
    #[inline]
    pub fn set_register(&mut self, r: u8, byte: u8)
        ensures { self.new ≡ registers.with_register self.old r byte }
    {
        match r {
            0 => self.b = byte,
            1 => self.c = byte,
            2 => self.d = byte,
            3 => self.e = byte,
            4 => self.h = byte,
            5 => self.l = byte,
            _ => self.a = byte,
        }
    }

    /// BC as a word.
    #[inline]
    pub fn bc(&self) -> u16
        ensures { result ≡ registers.bc self.now }
    {
        pac_num::word(self.c, self.b)
    }

    /// DE as a word.
    #[inline]
    pub fn de(&self) -> u16
        ensures { result ≡ registers.de self.now }
    {
        pac_num::word(self.e, self.d)
    }

    /// HL as a word.
    #[inline]
    pub fn hl(&self) -> u16
        ensures { result ≡ registers.hl self.now }
    {
        pac_num::word(self.l, self.h)
    }

    /// Puts a word into BC.
    #[inline]
    pub fn set_bc(&mut self, word: u16)
        ensures { self.new ≡ registers.with_bc self.old word }
    {
        self.b = high_byte(word);
        self.c = low_byte(word);
    }

    /// Puts a word into DE.
    #[inline]
    pub fn set_de(&mut self, word: u16)
        ensures { self.new ≡ registers.with_de self.old word }
    {
        self.d = high_byte(word);
        self.e = low_byte(word);
    }

    /// Puts a word into HL.
    #[inline]
    pub fn set_hl(&mut self, word: u16)
        ensures { self.new ≡ registers.with_hl self.old word }
    {
        self.h = high_byte(word);
        self.l = low_byte(word);
    }

    /// AF as a word.
    #[inline]
    pub fn af(&self) -> u16
        ensures { result ≡ registers.af self.now }
    {
        pac_num::word(self.f, self.a)
    }

    /// Puts a word into AF; all eight bits of F change.
    #[inline]
    pub fn set_af(&mut self, word: u16)
        ensures { self.new ≡ registers.with_af self.old word }
    {
        self.a = high_byte(word);
        self.f = low_byte(word);
    }

    /// The pair that a field dd or ss names: BC 0, DE 1, HL 2, SP 3.
    #[inline]
    pub fn pair(&self, dd: u8) -> u16
        ensures { result ≡ registers.pair_numbered self.now dd }
    {
        match dd {
            0 => self.bc(),
            1 => self.de(),
            2 => self.hl(),
            _ => self.sp,
        }
    }

    /// Puts a word into the pair that a field dd or ss names.
    #[inline]
    pub fn set_pair(&mut self, dd: u8, word: u16)
        ensures { self.new ≡ registers.with_pair_numbered self.old dd word }
    {
        match dd {
            0 => self.set_bc(word),
            1 => self.set_de(word),
            2 => self.set_hl(word),
            _ => self.sp = word,
        }
    }

    /// Exchanges A and F with their second set.
    pub fn exchange_af(&mut self)
        ensures { self.new ≡ registers.with_other_af self.old }
    {
        swap(&mut self.a, &mut self.alternate.a);
        swap(&mut self.f, &mut self.alternate.f);
    }

    /// Exchanges B, C, D, E, H and L with their second set.
    pub fn exchange_bank(&mut self)
        ensures { self.new ≡ registers.with_other_bank self.old }
    {
        swap(&mut self.b, &mut self.alternate.b);
        swap(&mut self.c, &mut self.alternate.c);
        swap(&mut self.d, &mut self.alternate.d);
        swap(&mut self.e, &mut self.alternate.e);
        swap(&mut self.h, &mut self.alternate.h);
        swap(&mut self.l, &mut self.alternate.l);
    }
}

/// B less 1, modulo 256.
#[inline]
pub(crate) fn b_left(regs: &Regs) -> u8
    ensures { result ≡ registers.b_left regs.now }
{
    regs.b.wrapping_add(255)
}
