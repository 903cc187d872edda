//! The exchanges (UM0080, "Exchange, Block Transfer, and Search Group").

ghost use Rattle.pac_table.specs.Instructions.{ticks_of};
ghost use Rattle.pac_exec.specs.Registers.{with_other_af, with_other_bank};
ghost use Rattle.pac_exec.specs.Exchanges.{exchange_effect};
ghost use Rattle.pac_exec.specs.TransitionProofs.{DoesTransition, DoesInRegisters};
ghost use Rattle.pac_exec.specs.Transition.{registers_alone};

use crate::pairs::{get_pair, read_word, set_pair};
use crate::regs::Regs;
use pac_bus::Bus;
use pac_num::{high_byte, low_byte, offset};
use pac_table::{Exchange, Instr, Pair};
use std::mem::swap;

/// EX DE,HL.
fn exchange_de_hl(instr: &Instr, regs: &mut Regs) -> u8
    ensures { DoesInRegisters (registers_alone
        (record regs.old { d = regs.old.h; e = regs.old.l; h = regs.old.d; l = regs.old.e })
        (ticks_of instr.now)) regs.new result }
{
    swap(&mut regs.d, &mut regs.h);
    swap(&mut regs.e, &mut regs.l);
    instr.ticks()
}

/// EX AF,AF'.
fn exchange_af(instr: &Instr, regs: &mut Regs) -> u8
    ensures { DoesInRegisters (registers_alone (with_other_af regs.old) (ticks_of instr.now))
        regs.new result }
{
    regs.exchange_af();
    instr.ticks()
}

/// EXX.
fn exchange_banks(instr: &Instr, regs: &mut Regs) -> u8
    ensures { DoesInRegisters (registers_alone (with_other_bank regs.old) (ticks_of instr.now))
        regs.new result }
{
    regs.exchange_bank();
    instr.ticks()
}

/// EX (SP),HL.
#[tactic(auto, unfolding(crate::specs::Exchanges::exchange_effect))]
fn exchange_stack_top<B: Bus>(pair: Pair, instr: &Instr, regs: &mut Regs, bus: &mut B) -> u8
    ensures { DoesTransition B.after (exchange_effect (Exchange.StackTop pair) instr.now regs.old
        (B.byte_at bus.old)) bus.old regs.new
        bus.new
        result }
{
    let top = read_word(regs.sp, bus);
    let word = get_pair(pair, instr, regs);
    bus.write(offset(regs.sp, 1), high_byte(word));
    bus.write(regs.sp, low_byte(word));
    set_pair(pair, top, instr, regs);
    instr.ticks()
}

/// An exchange, by its function; the time in T-states.
#[tactic(auto, unfolding(crate::specs::Exchanges::exchange_effect))]
pub fn perform_exchange<B: Bus>(with: Exchange, instr: &Instr, regs: &mut Regs, bus: &mut B) -> u8
    ensures { DoesTransition B.after (exchange_effect with instr.now regs.old (B.byte_at bus.old))
        bus.old regs.new bus.new result }
{
    match with {
        Exchange::DeHl => exchange_de_hl(instr, regs),
        Exchange::Af => exchange_af(instr, regs),
        Exchange::Banks => exchange_banks(instr, regs),
        Exchange::StackTop(pair) => exchange_stack_top(pair, instr, regs, bus),
    }
}
