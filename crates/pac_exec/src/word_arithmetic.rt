//! Arithmetic of 16 bits (UM0080, "16-Bit Arithmetic Group").

ghost use Rattle.std.specs.Prelude.{◌≡◌};
ghost use Rattle.pac_exec.specs.WordArithmetic.{word_arithmetic_effect, addend, outcome_in_pair};
ghost use Rattle.pac_exec.specs.TransitionProofs.{DoesInRegisters};

use crate::pairs::{get_pair, set_pair};
use crate::regs::Regs;
use pac_alu::WordOutcome;
use pac_table::{Instr, Pair, WordArithmetic};

/// The pair that ADD HL,ss and ADD IX,pp add: 2 names the sum's own register.
#[inline(always)]
fn addend_of(pair: Pair, instr: &Instr, regs: &Regs) -> u16
    ensures { result ≡ addend pair instr.now regs.now }
{
    if instr.p() == 2 {
        get_pair(pair, instr, regs)
    } else {
        regs.pair(instr.p())
    }
}

/// Puts what an operation leaves into a pair and F; the instruction's time in T-states.
#[inline(always)]
fn put_in_pair(outcome: WordOutcome, pair: Pair, instr: &Instr, regs: &mut Regs) -> u8
    ensures { DoesInRegisters (outcome_in_pair outcome pair instr.now regs.old) regs.new result }
{
    set_pair(pair, outcome.value, instr, regs);
    regs.f = outcome.f;
    instr.ticks()
}

/// ADD HL,ss and ADD IX,pp.
#[inline(always)]
#[tactic(auto, unfolding(crate::specs::WordArithmetic::word_arithmetic_effect))]
fn add_pair(pair: Pair, instr: &Instr, regs: &mut Regs) -> u8
    ensures { DoesInRegisters (word_arithmetic_effect (WordArithmetic.AddPair pair) instr.now
        regs.old) regs.new result }
{
    let word = get_pair(pair, instr, regs);
    let sum = pac_alu::add_words(word, addend_of(pair, instr, regs), regs.f);
    put_in_pair(sum, pair, instr, regs)
}

/// ADC HL,ss.
#[inline(always)]
#[tactic(auto, unfolding(crate::specs::WordArithmetic::word_arithmetic_effect))]
fn add_pair_with_carry(instr: &Instr, regs: &mut Regs) -> u8
    ensures { DoesInRegisters (word_arithmetic_effect WordArithmetic.AddPairWithCarry instr.now
        regs.old) regs.new result }
{
    let sum = pac_alu::add_words_with_carry(regs.hl(), regs.pair(instr.p()), regs.f);
    put_in_pair(sum, Pair::Hl, instr, regs)
}

/// SBC HL,ss.
#[inline(always)]
#[tactic(auto, unfolding(crate::specs::WordArithmetic::word_arithmetic_effect))]
fn subtract_pair_with_carry(instr: &Instr, regs: &mut Regs) -> u8
    ensures { DoesInRegisters (word_arithmetic_effect WordArithmetic.SubtractPairWithCarry instr.now
        regs.old) regs.new result }
{
    let difference = pac_alu::subtract_words_with_carry(regs.hl(), regs.pair(instr.p()), regs.f);
    put_in_pair(difference, Pair::Hl, instr, regs)
}

/// INC of a pair.
#[inline(always)]
#[tactic(auto, unfolding(crate::specs::WordArithmetic::word_arithmetic_effect))]
fn increment_pair(pair: Pair, instr: &Instr, regs: &mut Regs) -> u8
    ensures { DoesInRegisters (word_arithmetic_effect (WordArithmetic.IncrementPair pair) instr.now
        regs.old) regs.new result }
{
    let word = pac_alu::increment_word(get_pair(pair, instr, regs));
    set_pair(pair, word, instr, regs);
    instr.ticks()
}

/// DEC of a pair.
#[inline(always)]
#[tactic(auto, unfolding(crate::specs::WordArithmetic::word_arithmetic_effect))]
fn decrement_pair(pair: Pair, instr: &Instr, regs: &mut Regs) -> u8
    ensures { DoesInRegisters (word_arithmetic_effect (WordArithmetic.DecrementPair pair) instr.now
        regs.old) regs.new result }
{
    let word = pac_alu::decrement_word(get_pair(pair, instr, regs));
    set_pair(pair, word, instr, regs);
    instr.ticks()
}

/// Arithmetic of a word, by its function; the time in T-states.
#[inline(always)]
#[tactic(auto, unfolding(crate::specs::WordArithmetic::word_arithmetic_effect))]
pub fn perform_word_arithmetic(with: WordArithmetic, instr: &Instr, regs: &mut Regs) -> u8
    ensures { DoesInRegisters (word_arithmetic_effect with instr.now regs.old) regs.new result }
{
    match with {
        WordArithmetic::AddPair(pair) => add_pair(pair, instr, regs),
        WordArithmetic::AddPairWithCarry => add_pair_with_carry(instr, regs),
        WordArithmetic::SubtractPairWithCarry => subtract_pair_with_carry(instr, regs),
        WordArithmetic::IncrementPair(pair) => increment_pair(pair, instr, regs),
        WordArithmetic::DecrementPair(pair) => decrement_pair(pair, instr, regs),
    }
}
