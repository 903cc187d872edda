//! The sound of a run.

ghost use Rattle.std.specs.Prelude.{◌≡◌, ◌<◌, ◌≤◌, ◌+◌, ◌-◌, ◌^◌, [], ◌++◌, length, true, pos};
ghost use Rattle.std.specs.Prelude.{replicate, IsErr, OnOk, MatchBool};
ghost use Rattle.std.specs.List.{flat_map};
ghost use Rattle.pac_out.specs.Pieces.{joined_pieces};
ghost use Rattle.pac_media.specs.Samples.{riff_size, wav_header, sample_text, samples_text};
ghost use Rattle.pac_media.specs.Sound.{HasText, Gains, GivesSound, FinishesSound, sample_room};

use arrayvec::ArrayVec;
use pac_out::counted::Counted;
use pac_out::{Out, WriteFault};
use std::marker::Model;

/// The samples of a second.
const RATE: u32 = 96_000;

/// The bytes of a sample.
const SAMPLE_SIZE: u32 = 2;

/// The header of a file of so many samples, four bytes at a time.
fn header(samples: u32) -> [[u8; 4]; 11]
    requires { riff_size samples < 2 ^ 32 }
    ensures { joined_pieces result ≡ wav_header samples }
{
    let size = SAMPLE_SIZE * samples;
    [
        *b"RIFF",
        (36 + size).to_le_bytes(),
        *b"WAVE",
        *b"fmt ",
        16u32.to_le_bytes(),
        [1, 0, 1, 0],
        RATE.to_le_bytes(),
        (SAMPLE_SIZE * RATE).to_le_bytes(),
        [2, 0, 16, 0],
        *b"data",
        size.to_le_bytes(),
    ]
}

/// The bytes of a sample, the low one first.
#[inline(always)]
fn bytes_of(sample: i16) -> [u8; 2]
    ensures { result ≡ sample_text sample }
{
    sample.to_le_bytes()
}

/// Samples that are gathered at once.
const CHUNK: usize = 16;

/// The bytes of some samples, one after another.
#[inline(always)]
fn chunk_bytes(samples: &[i16; CHUNK]) -> [[u8; 2]; CHUNK]
    ensures text { flat_map (λ x. x) result ≡ samples_text samples.now }
    ensures size { length result ≡ 16 }
{
    let mut bytes = [[0; 2]; CHUNK];
    for k in 0..CHUNK {
        bytes[k] = bytes_of(samples[k]);
    }
    bytes
}

/// Gathers bytes after those that wait where there is room for them, and tells whether there is.
#[inline]
fn keep(waiting: &mut ArrayVec<u8, 8192>, bytes: &[u8]) -> bool
    ensures kept { MatchBool result (waiting.new.items ≡ waiting.old.items ++ bytes.now)
        (waiting.new ≡ waiting.old) }
    ensures room { length waiting.old.items + length bytes.now ≤ 8192 → result ≡ true }
{
    waiting.try_extend_from_slice(bytes).is_ok()
}

/// A file of samples with its header. Samples are gathered, at most 8,192 bytes of them, and go to the file in large writes.
#[derive(Drop)]
pub struct WaveFile<W> {
    file: Counted<W>,
    waiting: ArrayVec<u8, 8192>,
    owed: u32,
}

impl<W> Model for WaveFile<W> {
    ghost use Rattle.pac_media.specs.Sound.{Sound};

    ghost Value = { Sound W };

    ghost view = { λ wave. record { file = wave.file; waiting = wave.waiting.items; owed = wave.owed } };
}

impl<W: Out> WaveFile<W> {
    /// A file of so many samples, of which none came yet. Its header waits to be written.
    pub fn begin(writer: W, samples: u32) -> WaveFile<W>
        requires { riff_size samples < 2 ^ 32 }
        ensures text { HasText W.took writer (wav_header samples) result }
        ensures owed { result.owed ≡ samples }
    {
        let mut waiting = ArrayVec::new();
        keep(&mut waiting, header(samples).as_flattened());
        WaveFile {
            file: Counted::new(writer),
            waiting,
            owed: samples,
        }
    }

    /// Gathers a sample after those before it, and writes what waits where there is no room for it; it takes no memory.
    /// The fault has the count of all bytes that the file took. After it each call answers the same fault and writes
    /// nothing.
    #[inline]
    pub fn put(&mut self, sample: i16) -> Result<(), WriteFault>
        ensures put { GivesSound W.took W.refused self.old (sample_text sample) result self.new }
        ensures owed { OnOk result (self.new.owed ≡ self.old.owed - 1) }
        ensures later_err { self.old.file.failed ≡ true → IsErr result }
        ensures later_unchanged { self.old.file.failed ≡ true → self.new ≡ self.old }
    {
        self.file.check_open()?;
        self.gather(&bytes_of(sample))?;
        self.owed = self.owed.saturating_sub(1);
        Ok(())
    }

    /// How many samples can be gathered before what waits has to be written; none after a fault.
    #[inline]
    pub fn room(&self) -> usize
        ensures { result ≡ sample_room self.now }
    {
        if self.file.check_open().is_err() {
            return 0;
        }
        (8192 - self.waiting.len()) / 2
    }

    /// Gathers samples that there is room for.
    pub fn keep_all(&mut self, samples: &[i16])
        requires { length samples.now ≤ sample_room self.old }
        ensures { self.new ≡ record self.old {
          waiting = self.old.waiting ++ samples_text samples.now;
          owed = self.old.owed - length samples.now;
        } }
    {
        let mut left = samples;
        'chunks: while let Some((chunk, more)) = left.split_first_chunk() {
            keep(&mut self.waiting, chunk_bytes(chunk).as_flattened());
            left = more;
        }
        'rest: while let Some((sample, more)) = left.split_first() {
            keep(&mut self.waiting, &bytes_of(*sample));
            left = more;
        }
        self.owed = self.owed.saturating_sub(samples.len() as u32);
    }

    /// Gathers a sample's bytes, and writes what waits where there is no room for them.
    #[inline]
    fn gather(&mut self, bytes: &[u8; 2]) -> Result<(), WriteFault>
        ensures put { GivesSound W.took W.refused self.old bytes.now result self.new }
        ensures owed { self.new.owed ≡ self.old.owed }
    {
        if keep(&mut self.waiting, bytes) {
            return Ok(());
        }
        self.make_room(bytes)
    }

    /// Writes what waits, and gathers a sample's bytes: a call of its own, so that `put`, which is inlined, stays short.
    #[inline(never)]
    fn make_room(&mut self, bytes: &[u8; 2]) -> Result<(), WriteFault>
        ensures put { GivesSound W.took W.refused self.old bytes.now result self.new }
        ensures owed { self.new.owed ≡ self.old.owed }
    {
        self.flush()?;
        keep(&mut self.waiting, bytes);
        Ok(())
    }

    /// Writes what waits.
    pub fn flush(&mut self) -> Result<(), WriteFault>
        ensures written { FinishesSound W.took W.refused self.old [] result self.new }
        ensures owed { self.new.owed ≡ self.old.owed }
        ensures later_err { self.old.file.failed ≡ true → IsErr result }
        ensures later_unchanged { self.old.file.failed ≡ true → self.new ≡ self.old }
    {
        self.file.check_open()?;
        self.file.put(&self.waiting)?;
        self.waiting.clear();
        Ok(())
    }

    /// Gathers zeros for the samples that are still to come, and writes what waits.
    pub fn finish(&mut self) -> Result<(), WriteFault>
        ensures written { FinishesSound W.took W.refused self.old
            (samples_text (replicate self.old.owed (pos 0))) result self.new }
        ensures owed { OnOk result (self.new.owed ≡ 0) }
        ensures later_err { self.old.file.failed ≡ true → IsErr result }
        ensures later_unchanged { self.old.file.failed ≡ true → self.new ≡ self.old }
    {
        for _ in 0..self.owed {
            self.put(0)?;
        }
        self.flush()
    }

    /// The writer.
    pub fn into_writer(self) -> W
        ensures { result ≡ self.file.writer }
    {
        let WaveFile {
            file,
            waiting: _,
            owed: _,
        } = self;
        file.into_writer()
    }
}
