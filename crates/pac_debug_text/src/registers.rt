//! The registers of the processor and of the board.

ghost use Rattle.std.specs.Prelude.{◌≡◌};
ghost use Rattle.pac_out.specs.CountedProofs.{Puts};
ghost use Rattle.pac_out.specs.Pending.{Gathers};
ghost use Rattle.pac_debug_text.specs.Texts as text;

use itoa::Buffer;
use pac_dis::{hex_byte, hex_word};
use pac_exec::{Alternate, InterruptMode, Regs};
use pac_out::counted::Counted;
use pac_out::pending::Pending;
use pac_out::{Out, WriteFault};

/// What the board keeps in its latches.
#[derive(Clone, Copy)]
pub struct Latches {
    /// The eight latch bits.
    pub latch: u8,
    /// The interrupt vector.
    pub vector: u8,
    /// The vertical blanks since the watchdog was kicked, 0 to 15.
    pub watchdog: u8,
}

/// The digit of an interrupt mode.
fn mode_text(mode: InterruptMode) -> &'static [u8]
    ensures { result.now ≡ text.mode_text mode }
{
    match mode {
        InterruptMode::Zero => b"0",
        InterruptMode::One => b"1",
        InterruptMode::Two => b"2",
    }
}

/// The digit of a flag.
fn flag_text(flag: bool) -> &'static [u8]
    ensures { result.now ≡ text.flag_text flag }
{
    if flag { b"1" } else { b"0" }
}

/// Gathers the line of the pairs in use.
#[tactic(auto, unfolding(crate::specs::Texts::pairs_text))]
fn gather_pairs<W: Out>(
    pending: &mut Pending,
    output: &mut Counted<W>,
    regs: &Regs,
) -> Result<(), WriteFault>
    ensures { Gathers W.took W.refused pending.old output.old (text.pairs_text regs.now)
        result pending.new output.new }
{
    let pieces: [&[u8]; 21] = [
        b"AF=",
        &hex_byte(regs.a),
        &hex_byte(regs.f),
        b" BC=",
        &hex_byte(regs.b),
        &hex_byte(regs.c),
        b" DE=",
        &hex_byte(regs.d),
        &hex_byte(regs.e),
        b" HL=",
        &hex_byte(regs.h),
        &hex_byte(regs.l),
        b" IX=",
        &hex_word(regs.ix),
        b" IY=",
        &hex_word(regs.iy),
        b" SP=",
        &hex_word(regs.sp),
        b" PC=",
        &hex_word(regs.pc),
        b"\n",
    ];
    pending.put_pieces(output, &pieces)
}

/// Gathers the second set.
#[tactic(auto, unfolding(crate::specs::Texts::alternate_text))]
fn gather_alternate<W: Out>(
    pending: &mut Pending,
    output: &mut Counted<W>,
    other: &Alternate,
) -> Result<(), WriteFault>
    ensures { Gathers W.took W.refused pending.old output.old (text.alternate_text other.now)
        result pending.new output.new }
{
    let pieces: [&[u8]; 12] = [
        b"AF'=",
        &hex_byte(other.a),
        &hex_byte(other.f),
        b" BC'=",
        &hex_byte(other.b),
        &hex_byte(other.c),
        b" DE'=",
        &hex_byte(other.d),
        &hex_byte(other.e),
        b" HL'=",
        &hex_byte(other.h),
        &hex_byte(other.l),
    ];
    pending.put_pieces(output, &pieces)
}

/// Gathers what interrupts hang on.
#[tactic(auto, unfolding(crate::specs::Texts::interrupts_text))]
fn gather_interrupts<W: Out>(
    pending: &mut Pending,
    output: &mut Counted<W>,
    regs: &Regs,
) -> Result<(), WriteFault>
    ensures { Gathers W.took W.refused pending.old output.old (text.interrupts_text regs.now)
        result pending.new output.new }
{
    let pieces: [&[u8]; 9] = [
        b" I=",
        &hex_byte(regs.i),
        b" R=",
        &hex_byte(regs.r),
        b" IM=",
        mode_text(regs.mode),
        b" IFF=",
        flag_text(regs.iff1),
        flag_text(regs.iff2),
    ];
    pending.put_pieces(output, &pieces)
}

/// Gathers the board's latches.
#[tactic(auto, unfolding(crate::specs::Texts::latches_text))]
fn gather_latches<W: Out>(
    pending: &mut Pending,
    output: &mut Counted<W>,
    latches: Latches,
) -> Result<(), WriteFault>
    ensures { Gathers W.took W.refused pending.old output.old (text.latches_text latches)
        result pending.new output.new }
{
    let mut watchdog = Buffer::new();
    let pieces: [&[u8]; 7] = [
        b" LATCH=",
        &hex_byte(latches.latch),
        b" VEC=",
        &hex_byte(latches.vector),
        b" WD=",
        watchdog.format(latches.watchdog).as_bytes(),
        b"\n",
    ];
    pending.put_pieces(output, &pieces)
}

/// Gathers the two lines of the registers.
fn gather_registers<W: Out>(
    pending: &mut Pending,
    output: &mut Counted<W>,
    regs: &Regs,
    latches: Latches,
) -> Result<(), WriteFault>
    ensures { Gathers W.took W.refused pending.old output.old (text.registers_text regs.now latches)
        result pending.new output.new }
{
    gather_pairs(pending, output, regs)?;
    gather_alternate(pending, output, &regs.alternate)?;
    gather_interrupts(pending, output, regs)?;
    gather_latches(pending, output, latches)
}

/// Writes the registers: a line of the pairs in use, and one of the second set, of what interrupts hang on and of the
/// board's latches, as `LATCH=00 VEC=00 WD=1`.
pub fn put_registers<W: Out>(
    output: &mut Counted<W>,
    regs: &Regs,
    latches: Latches,
) -> Result<(), WriteFault>
    ensures { Puts W.took W.refused output.old
        (text.registers_text regs.now latches) result output.new }
{
    let mut pending = Pending::new();
    gather_registers(&mut pending, output, regs, latches)?;
    pending.flush(output)
}
