//! Registers and cells of 16 bits, and the stack.

ghost use Rattle.std.specs.Prelude.{◌≡◌};
ghost use Rattle.pac_bus.specs.ActionLaws.{bus_after_actions};
ghost use Rattle.pac_exec.specs.Pairs as pairs;

use crate::regs::Regs;
use pac_bus::Bus;
use pac_num::{high_byte, low_byte, offset};
use pac_table::{Instr, Pair};

/// The word at an address, low byte first.
#[inline]
pub fn read_word<B: Bus>(address: u16, bus: &B) -> u16
    ensures { result ≡ pairs.word_at (B.byte_at bus.now) address }
{
    pac_num::word(bus.read(address), bus.read(offset(address, 1)))
}

/// The register of 16 bits that an instruction speaks of.
#[inline(always)]
pub fn get_pair(pair: Pair, instr: &Instr, regs: &Regs) -> u16
    ensures { result ≡ pairs.pair_value pair instr.now regs.now }
{
    match pair {
        Pair::First => regs.pair(instr.p()),
        Pair::Hl => regs.hl(),
        Pair::Ix => regs.ix,
        Pair::Iy => regs.iy,
    }
}

/// Puts a word into the register of 16 bits that an instruction speaks of.
#[inline(always)]
pub fn set_pair(pair: Pair, word: u16, instr: &Instr, regs: &mut Regs)
    ensures { regs.new ≡ pairs.with_pair pair instr.now regs.old word }
{
    match pair {
        Pair::First => regs.set_pair(instr.p(), word),
        Pair::Hl => regs.set_hl(word),
        Pair::Ix => regs.ix = word,
        Pair::Iy => regs.iy = word,
    }
}

/// The register that PUSH speaks of: 3 is AF.
#[inline(always)]
pub fn get_stack_pair(pair: Pair, instr: &Instr, regs: &Regs) -> u16
    ensures { result ≡ pairs.stack_pair_value pair instr.now regs.now }
{
    match pair {
        Pair::First if instr.p() == 3 => regs.af(),
        _ => get_pair(pair, instr, regs),
    }
}

/// Puts a word into the register that POP speaks of: 3 is AF.
#[inline(always)]
pub fn set_stack_pair(pair: Pair, word: u16, instr: &Instr, regs: &mut Regs)
    ensures { regs.new ≡ pairs.with_stack_pair pair instr.now regs.old word }
{
    match pair {
        Pair::First if instr.p() == 3 => regs.set_af(word),
        _ => set_pair(pair, word, instr, regs),
    }
}

/// Pushes a word: the high byte to SP-1, then the low byte to SP-2, where SP then points.
pub fn push_word<B: Bus>(word: u16, regs: &mut Regs, bus: &mut B)
    ensures regs { regs.new ≡ pairs.with_room regs.old }
    ensures bus { bus.new ≡ bus_after_actions B.after bus.old (pairs.push_writes regs.old.sp word) }
{
    bus.write(offset(regs.sp, 65535), high_byte(word));
    regs.sp = offset(regs.sp, 65534);
    bus.write(regs.sp, low_byte(word));
}

/// Pops the word at SP.
pub fn pop_word<B: Bus>(regs: &mut Regs, bus: &B) -> u16
    ensures value { result ≡ pairs.word_at (B.byte_at bus.now) regs.old.sp }
    ensures regs { regs.new ≡ pairs.without_top regs.old }
{
    let word = read_word(regs.sp, bus);
    regs.sp = offset(regs.sp, 2);
    word
}
