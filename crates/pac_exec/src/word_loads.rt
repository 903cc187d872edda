//! Loads of 16 bits, the stack's among them (UM0080, "16-Bit Load Group").

ghost use Rattle.pac_table.specs.Instructions.{ticks_of};
ghost use Rattle.pac_exec.specs.Pairs.{pair_value, with_pair};
ghost use Rattle.pac_exec.specs.WordLoads.{word_load_effect};
ghost use Rattle.pac_exec.specs.TransitionProofs.{DoesTransition, DoesInRegisters};
ghost use Rattle.pac_exec.specs.Transition.{registers_alone};

use crate::pairs::{
    get_pair, get_stack_pair, pop_word, push_word, read_word, set_pair, set_stack_pair,
};
use crate::regs::Regs;
use pac_bus::Bus;
use pac_num::{high_byte, low_byte, offset};
use pac_table::{Instr, Pair, WordLoad};

/// LD dd,nn.
#[inline(always)]
fn load_pair(pair: Pair, instr: &Instr, regs: &mut Regs) -> u8
    ensures { DoesInRegisters (registers_alone (with_pair pair instr.now regs.old instr.now.word)
        (ticks_of instr.now)) regs.new result }
{
    set_pair(pair, instr.word(), instr, regs);
    instr.ticks()
}

/// LD dd,(nn).
#[inline(always)]
#[tactic(auto, unfolding(crate::specs::WordLoads::word_load_effect))]
fn load_pair_from_memory<B: Bus>(pair: Pair, instr: &Instr, regs: &mut Regs, bus: &B) -> u8
    ensures { DoesInRegisters (word_load_effect (WordLoad.LoadPairFromMemory pair) instr.now
        regs.old (B.byte_at bus.now)) regs.new result }
{
    set_pair(pair, read_word(instr.word(), bus), instr, regs);
    instr.ticks()
}

/// LD (nn),dd.
#[inline(always)]
#[tactic(auto, unfolding(crate::specs::WordLoads::word_load_effect))]
fn store_pair<B: Bus>(pair: Pair, instr: &Instr, regs: &Regs, bus: &mut B) -> u8
    ensures { DoesTransition B.after (word_load_effect (WordLoad.StorePair pair) instr.now regs.now
        (B.byte_at bus.old)) bus.old regs.now
        bus.new result }
{
    let word = get_pair(pair, instr, regs);
    bus.write(instr.word(), low_byte(word));
    bus.write(offset(instr.word(), 1), high_byte(word));
    instr.ticks()
}

/// LD SP,HL.
#[inline(always)]
fn load_stack_pointer(pair: Pair, instr: &Instr, regs: &mut Regs) -> u8
    ensures { DoesInRegisters (registers_alone
        (record regs.old { sp = pair_value pair instr.now regs.old }) (ticks_of instr.now))
        regs.new result }
{
    regs.sp = get_pair(pair, instr, regs);
    instr.ticks()
}

/// PUSH.
#[inline(always)]
#[tactic(auto, unfolding(crate::specs::WordLoads::word_load_effect))]
fn push<B: Bus>(pair: Pair, instr: &Instr, regs: &mut Regs, bus: &mut B) -> u8
    ensures { DoesTransition B.after (word_load_effect (WordLoad.Push pair) instr.now regs.old
        (B.byte_at bus.old)) bus.old regs.new
        bus.new result }
{
    push_word(get_stack_pair(pair, instr, regs), regs, bus);
    instr.ticks()
}

/// POP.
#[inline(always)]
#[tactic(auto, unfolding(crate::specs::WordLoads::word_load_effect))]
fn pop<B: Bus>(pair: Pair, instr: &Instr, regs: &mut Regs, bus: &B) -> u8
    ensures { DoesInRegisters (word_load_effect (WordLoad.Pop pair) instr.now regs.old
        (B.byte_at bus.now)) regs.new result }
{
    set_stack_pair(pair, pop_word(regs, bus), instr, regs);
    instr.ticks()
}

/// A load of a word, PUSH or POP, by its function; the time in T-states.
#[inline(always)]
#[tactic(auto, unfolding(crate::specs::WordLoads::word_load_effect))]
pub fn perform_word_load<B: Bus>(with: WordLoad, instr: &Instr, regs: &mut Regs, bus: &mut B) -> u8
    ensures { DoesTransition B.after (word_load_effect with instr.now regs.old (B.byte_at bus.old))
        bus.old regs.new bus.new result }
{
    match with {
        WordLoad::LoadPair(pair) => load_pair(pair, instr, regs),
        WordLoad::LoadPairFromMemory(pair) => load_pair_from_memory(pair, instr, regs, bus),
        WordLoad::StorePair(pair) => store_pair(pair, instr, regs, bus),
        WordLoad::LoadStackPointer(pair) => load_stack_pointer(pair, instr, regs),
        WordLoad::Push(pair) => push(pair, instr, regs, bus),
        WordLoad::Pop(pair) => pop(pair, instr, regs, bus),
    }
}
