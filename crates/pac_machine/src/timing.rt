//! How sound and scan divide the board's time: in T-states, in samples and in lines.

ghost use Rattle.std.specs.Prelude.{◌≡◌, ◌<◌};
ghost use Rattle.pac_picture.specs.Tiles as tile;
ghost use Rattle.pac_machine.specs.Standing.{passed_lines};

/// The T-states from one sound sample to the next.
pub const SAMPLE_TICKS: u64 = 32;

/// The T-states of a line of the scan.
pub(crate) const LINE_TICKS: u64 = 192;

/// The T-states of a frame.
pub const FRAME_TICKS: u64 = 50_688;

/// The samples of a line of the scan.
pub(crate) const LINE_SAMPLES: u64 = 6;

/// The samples of a frame.
pub const FRAME_SAMPLES: u64 = 1584;

/// The lines of the scan in a frame.
pub(crate) const SCAN_LINES: u64 = 264;

/// The lines of the scan before the first that is shown.
pub(crate) const HIDDEN_LINES: u64 = 40;

/// The T-states of a halted step.
pub(crate) const HALTED_TICKS: u64 = 4;

/// How many samples the steps of a stretch may give before the last one: those of a frame.
pub const BATCH_SAMPLES: usize = FRAME_SAMPLES as usize;

/// The period, in T-states, for a part of which idle loops are looked for.
pub(crate) const IDLE_PERIOD: u64 = 1024;

/// How long they are looked for in each, in T-states.
pub(crate) const IDLE_LOOKED_FOR: u64 = 256;

/// How many lines of the picture have passed at a time since the blank before it.
#[inline]
pub(crate) fn passed_lines(time: u64) -> u8
    ensures passed { result ≡ passed_lines time }
    ensures below { result < tile.height }
{
    (time % FRAME_TICKS / LINE_TICKS).saturating_sub(HIDDEN_LINES) as u8
}
