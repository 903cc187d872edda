//! The report of a run, three lines.

ghost use Rattle.std.specs.Prelude.{◌≡◌, ◌<◌, ℕ, List};
ghost use Rattle.pac_board_course.specs.CauseVariants.{Opcode, Vector};
ghost use Rattle.pac_media.specs.CountedProofs.{Puts};
ghost use Rattle.pac_run.specs.Texts as text;

use itoa::Buffer;
use pac_board_course::{Cause, Outcome, Stop};
use pac_listing::{hex_byte, hex_word};
use pac_media::{Counted, Out, WriteFault};

/// The frames that were shown of those asked for, the steps and the T-states: two lines.
fn put_counts<W: Out>(
    output: &mut Counted<W>,
    shown: u32,
    total: u32,
    steps: u64,
    ticks: u64,
) -> Result<(), WriteFault>
    ensures { Puts W.took W.refused output.old
        (text.counts_text shown total steps ticks) result output.new }
{
    let mut shown_digits = Buffer::new();
    let mut total_digits = Buffer::new();
    let mut step_digits = Buffer::new();
    let mut tick_digits = Buffer::new();
    let pieces: [&[u8]; 9] = [
        b"frames ",
        shown_digits.format(shown).as_bytes(),
        b" of ",
        total_digits.format(total).as_bytes(),
        b"\nsteps ",
        step_digits.format(steps).as_bytes(),
        b" ticks ",
        tick_digits.format(ticks).as_bytes(),
        b"\n",
    ];
    output.put_pieces(&pieces)
}

/// The line of a stop at bytes that are no instruction.
fn put_opcode_stop<W: Out>(
    output: &mut Counted<W>,
    pc: u16,
    bytes: [u8; 4],
) -> Result<(), WriteFault>
    ensures { Puts W.took W.refused output.old (text.cause_text pc bytes Opcode) result output.new }
{
    let pieces: [&[u8]; 11] = [
        b"stop S1 at ",
        &hex_word(pc),
        b" bytes ",
        &hex_byte(bytes[0]),
        b" ",
        &hex_byte(bytes[1]),
        b" ",
        &hex_byte(bytes[2]),
        b" ",
        &hex_byte(bytes[3]),
        b"\n",
    ];
    output.put_pieces(&pieces)
}

/// The line of a stop at a vector byte that is no RST.
fn put_vector_stop<W: Out>(output: &mut Counted<W>, pc: u16, vector: u8) -> Result<(), WriteFault>
    ensures { (bytes : List ℕ) → Puts W.took W.refused output.old
        (text.cause_text pc bytes (Vector vector)) result output.new }
{
    let pieces: [&[u8]; 5] = [
        b"stop S2 at ",
        &hex_word(pc),
        b" byte ",
        &hex_byte(vector),
        b"\n",
    ];
    output.put_pieces(&pieces)
}

/// What stopped the board, and where: one line.
fn put_stop<W: Out>(output: &mut Counted<W>, stop: Stop) -> Result<(), WriteFault>
    ensures { Puts W.took W.refused output.old
        (text.cause_text stop.pc stop.bytes stop.cause) result output.new }
{
    match stop.cause {
        Cause::Opcode => put_opcode_stop(output, stop.pc, stop.bytes),
        Cause::Vector(vector) => put_vector_stop(output, stop.pc, vector),
    }
}

/// How the run ended: one line.
fn put_end<W: Out>(output: &mut Counted<W>, stop: Option<Stop>) -> Result<(), WriteFault>
    ensures { Puts W.took W.refused output.old (text.end_text stop) result output.new }
{
    match stop {
        None => output.put(b"end done\n"),
        Some(stop) => put_stop(output, stop),
    }
}

/// The report: the frames that were shown of those asked for, the steps and the time in T-states, and how the
/// run ended.
pub fn put_report<W: Out>(
    output: &mut Counted<W>,
    outcome: Outcome,
    total: u32,
) -> Result<(), WriteFault>
    ensures { Puts W.took W.refused output.old (text.report outcome total) result output.new }
{
    put_counts(output, outcome.frames, total, outcome.steps, outcome.ticks)?;
    put_end(output, outcome.stop)
}
