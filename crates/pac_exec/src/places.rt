//! The places of 8 bits that instructions read and write.

ghost use Rattle.std.specs.Prelude.{◌≡◌};
ghost use Rattle.pac_bus.specs.ActionLaws.{bus_after_actions};
ghost use Rattle.pac_exec.specs.Places.{place_address, place_byte, regs_with, writes_to, byte_put};
ghost use Rattle.pac_exec.specs.TransitionProofs.{DoesTransition};

use crate::regs::Regs;
use pac_bus::Bus;
use pac_num::displaced;
use pac_table::{BytePlace, Instr};

/// The address of a place in memory; 0 where the place is none.
#[inline(always)]
pub(crate) fn address(place: BytePlace, instr: &Instr, regs: &Regs) -> u16
    ensures { result ≡ place_address place instr.now regs.now }
{
    match place {
        BytePlace::First | BytePlace::Second | BytePlace::Accumulator | BytePlace::Immediate => 0,
        BytePlace::AtBc => regs.bc(),
        BytePlace::AtDe => regs.de(),
        BytePlace::AtHl => regs.hl(),
        BytePlace::AtWord => instr.word(),
        BytePlace::AtIx => displaced(regs.ix, instr.disp()),
        BytePlace::AtIy => displaced(regs.iy, instr.disp()),
    }
}

/// The byte that a place gives. All places in memory are read by one call, since it is inlined with the bus in it.
#[inline(always)]
pub(crate) fn get<B: Bus>(place: BytePlace, instr: &Instr, regs: &Regs, bus: &B) -> u8
    ensures { result ≡ place_byte place instr.now regs.now (B.byte_at bus.now) }
{
    match place {
        BytePlace::First => regs.register(instr.p()),
        BytePlace::Second => regs.register(instr.q()),
        BytePlace::Accumulator => regs.a,
        BytePlace::Immediate => pac_num::low_byte(instr.word()),
        _ => bus.read(address(place, instr, regs)),
    }
}

/// Brings a byte to a place, by one call for all in memory.
#[inline(always)]
pub(crate) fn put<B: Bus>(place: BytePlace, byte: u8, instr: &Instr, regs: &mut Regs, bus: &mut B)
    ensures regs { regs.new ≡ regs_with place instr.now regs.old byte }
    ensures bus { bus.new ≡ bus_after_actions B.after bus.old
        (writes_to place instr.now regs.old byte) }
{
    match place {
        BytePlace::First => regs.set_register(instr.p(), byte),
        BytePlace::Second => regs.set_register(instr.q(), byte),
        BytePlace::Accumulator => regs.a = byte,
        BytePlace::Immediate => {}
        _ => bus.write(address(place, instr, regs), byte),
    }
}

/// Brings a byte to a place; the instruction's time in T-states.
#[inline(always)]
pub(crate) fn put_byte<B: Bus>(
    place: BytePlace,
    byte: u8,
    instr: &Instr,
    regs: &mut Regs,
    bus: &mut B,
) -> u8
    ensures { DoesTransition B.after (byte_put byte place instr.now regs.old) bus.old
        regs.new bus.new result }
{
    put(place, byte, instr, regs, bus);
    instr.ticks()
}
