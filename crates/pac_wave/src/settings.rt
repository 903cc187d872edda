//! What the wave PROM and the registers say of the voices, told once for as many samples as they stay the same.

ghost use Rattle.std.specs.Prelude.{◌≡◌, ◌<◌, ◌≤◌, ◌+◌, ◌*◌, ◌/◌, ◌%◌, ℕ, List, true, take, drop};
ghost use Rattle.std.specs.Prelude.{pos, negsuc, slice_index, slice_index_or, ◌≤ℤ◌};
ghost use Rattle.std.specs.Int.{w64, to_le_bytes};
ghost use Rattle.pac_wave.specs.Settings.{AreLevels, AreWithin, IsScaledLevel, scaled_level};
ghost use Rattle.pac_wave.specs.Settings.{scaled_sample, voice_step, steps_of};
ghost use Rattle.pac_wave.specs.Wave as spec;

use crate::Voice;
use std::marker::Model;

/// What 4096 times each voice's accumulator grows by at a sample.
#[derive(Clone, Copy)]
pub(crate) struct Steps {
    pub(crate) first: u32,
    pub(crate) second: u32,
    pub(crate) third: u32,
}

/// What a register holds: its low four bits.
#[inline]
fn register(registers: &[u8; 32], place: usize) -> u8
    requires { place < 32 }
    ensures register { result ≡ spec.register_nibble registers.now place }
    ensures below { result < 16 }
{
    registers[place] % 16
}

/// How far a voice's registers are from those of the first voice.
#[inline]
fn distance(voice: Voice) -> usize
    ensures distance { result ≡ 5 * spec.voice_number voice }
    ensures below { result < 11 }
{
    match voice {
        Voice::First => 0,
        Voice::Second => 5,
        Voice::Third => 10,
    }
}

/// The number of a voice's waveform, 0 to 7.
#[inline]
fn waveform(registers: &[u8; 32], voice: Voice) -> u8
    ensures waveform { result ≡ spec.waveform registers.now voice }
    ensures below { result < 8 }
{
    register(registers, 0x05 + distance(voice)) % 8
}

/// A voice's volume, 0 to 15.
#[inline]
fn volume(registers: &[u8; 32], voice: Voice) -> u8
    ensures volume { result ≡ spec.volume registers.now voice }
    ensures below { result < 16 }
{
    register(registers, 0x15 + distance(voice))
}

/// The lowest digit of a voice's frequency, which only the first voice has a register for.
#[inline]
fn lowest_digit(registers: &[u8; 32], voice: Voice) -> u8
    ensures digit { result ≡ spec.frequency_digit registers.now voice 0 }
    ensures below { result < 16 }
{
    match voice {
        Voice::First => register(registers, 0x10),
        Voice::Second | Voice::Third => 0,
    }
}

/// A number of five digits of four bits: the lowest, and the registers after a place.
#[inline]
fn digits(lowest: u8, registers: &[u8; 32], place: usize) -> u32
    requires lowest { lowest < 16 }
    requires place { place < 28 }
    ensures digits { result ≡ lowest + 16 * spec.register_nibble registers.now (place + 1)
        + 256 * spec.register_nibble registers.now (place + 2)
        + 4096 * spec.register_nibble registers.now (place + 3)
        + 65536 * spec.register_nibble registers.now (place + 4) }
    ensures below { result < spec.accumulator_range }
{
    u32::from(lowest)
        + 16 * u32::from(register(registers, place + 1))
        + 256 * u32::from(register(registers, place + 2))
        + 4096 * u32::from(register(registers, place + 3))
        + 65536 * u32::from(register(registers, place + 4))
}

/// A voice's frequency, 20 bits.
#[inline]
fn frequency(registers: &[u8; 32], voice: Voice) -> u32
    ensures frequency { result ≡ spec.frequency registers.now voice }
    ensures below { result < spec.accumulator_range }
{
    digits(
        lowest_digit(registers, voice),
        registers,
        0x10 + distance(voice),
    )
}

/// What 4096 times a voice's accumulator grows by.
#[inline]
#[tactic(auto, unfolding(crate::specs::Settings::voice_step))]
fn step(registers: &[u8; 32], voice: Voice) -> u32
    ensures { result ≡ voice_step registers.now voice }
{
    4096 * frequency(registers, voice)
}

/// A sample of a waveform, 0 to 15, about its middle 8 and at a volume.
#[inline(always)]
fn amplified(sample: u8, volume: u8) -> i16
    requires sample { sample < 16 }
    requires volume { volume < 16 }
    ensures amplified { result ≡ spec.amplified_sample sample volume }
    // From -8 * 15 to 7 * 15.
    ensures within { (negsuc 119 ≤ℤ result) × (result ≤ℤ pos 105) }
{
    (i16::from(sample) - 8) * i16::from(volume)
}

/// The same, as it is added to the sound: 64 times.
#[inline(always)]
fn scaled(sample: u8, volume: u8) -> i16
    requires sample { sample < 16 }
    requires volume { volume < 16 }
    ensures scaled { result ≡ scaled_sample sample volume }
    ensures within { IsScaledLevel result }
{
    64 * amplified(sample, volume)
}

/// A sample of the waveform that begins at a place of the wave PROM.
#[inline(always)]
fn sample(prom: &[u8; 256], start: usize, place: usize) -> u8
    requires start { start ≤ 224 }
    requires place { place < 32 }
    ensures sample { result ≡ slice_index prom.now (start + place) % 16 }
    ensures below { result < 16 }
{
    prom[start + place] % 16
}

/// What each sample of a waveform that begins at a place of the wave PROM puts into the sound at a volume.
#[inline(never)]
#[tactic(auto, unfolding(crate::specs::Settings::AreWithin))]
fn levels(prom: &[u8; 256], start: usize, volume: u8) -> [i16; 32]
    requires start { start ≤ 224 }
    requires volume { volume < 16 }
    ensures levels { (place : ℕ) → place < 32
        → slice_index_or result place (pos 0)
        ≡ scaled_sample (slice_index prom.now (start + place) % 16) volume }
    ensures within { AreWithin result }
{
    let mut levels = [0; 32];
    for place in 0..32usize {
        levels[place] = scaled(sample(prom, start, place), volume);
    }
    levels
}

/// Where a voice's waveform begins in the wave PROM.
#[inline]
fn waveform_start(registers: &[u8; 32], voice: Voice) -> usize
    ensures start { result ≡ 32 * spec.waveform registers.now voice }
    ensures below { result ≤ 224 }
{
    32 * usize::from(waveform(registers, voice))
}

/// What each sample of a voice's waveform puts into the sound at its volume.
#[inline]
#[tactic(auto, unfolding(crate::specs::Settings::AreLevels, crate::specs::Settings::scaled_level))]
fn read_levels(prom: &[u8; 256], registers: &[u8; 32], voice: Voice) -> [i16; 32]
    ensures levels { AreLevels prom.now registers.now voice result }
    ensures within { AreWithin result }
{
    levels(
        prom,
        waveform_start(registers, voice),
        volume(registers, voice),
    )
}

/// What the registers say that 4096 times each voice's accumulator grows by.
#[inline]
#[tactic(auto, unfolding(crate::specs::Settings::steps_of))]
fn read_steps(registers: &[u8; 32]) -> Steps
    ensures { result ≡ steps_of registers.now }
{
    Steps {
        first: step(registers, Voice::First),
        second: step(registers, Voice::Second),
        third: step(registers, Voice::Third),
    }
}

/// The level at a place.
#[inline(always)]
fn level_at(levels: &[i16; 32], place: usize) -> i16
    requires { place < 32 }
    ensures { result ≡ slice_index_or levels.now place (pos 0) }
{
    levels[place]
}

/// Eight registers as one number.
#[inline]
fn word(registers: &[u8; 32], place: usize) -> u64
    requires { place ≤ 24 }
    ensures { to_le_bytes w64 result ≡ take 8 (drop place registers.now) }
{
    let mut eight = [0; 8];
    eight.copy_from_slice(&registers[place..place + 8]);
    u64::from_le_bytes(eight)
}

/// Whether all registers hold the same, told without looking at single ones.
#[inline]
fn are_same(one: &[u8; 32], other: &[u8; 32]) -> bool
    ensures { result ≡ true → one.now ≡ other.now }
{
    (word(one, 0) == word(other, 0))
        & (word(one, 8) == word(other, 8))
        & (word(one, 16) == word(other, 16))
        & (word(one, 24) == word(other, 24))
}

/// The wave PROM and the registers, with what they say of each voice. Clauses see the PROM and the registers.
#[derive(Drop)]
pub struct Settings {
    prom: [u8; 256],
    registers: [u8; 32],
    steps: Steps,
    first: [i16; 32],
    second: [i16; 32],
    third: [i16; 32],
}

impl Model for Settings {
    ghost use Rattle.std.specs.Prelude.{◌≡◌};
    ghost use Rattle.pac_wave.specs.declared.Voice.TheVariants.{First, Second, Third};
    ghost use Rattle.pac_wave.specs.Settings.{AreLevels, AreWithin, SoundSource, steps_of};

    ghost Value = { SoundSource };

    ghost view = { λ settings. record { prom = settings.prom; registers = settings.registers } };

    ghost invariant = { λ settings. record {
      steps : settings.steps ≡ steps_of settings.registers;
      first : AreLevels settings.prom settings.registers First settings.first;
      first_within : AreWithin settings.first;
      second : AreLevels settings.prom settings.registers Second settings.second;
      second_within : AreWithin settings.second;
      third : AreLevels settings.prom settings.registers Third settings.third;
      third_within : AreWithin settings.third;
    } };
}

impl Settings {
    /// A PROM and registers with what they say of each voice.
    #[inline(never)]
    pub fn of(prom: &[u8; 256], registers: &[u8; 32]) -> Settings
        ensures { result ≡ record { prom = prom.now; registers = registers.now } }
    {
        Settings {
            prom: *prom,
            registers: *registers,
            steps: read_steps(registers),
            first: read_levels(prom, registers, Voice::First),
            second: read_levels(prom, registers, Voice::Second),
            third: read_levels(prom, registers, Voice::Third),
        }
    }

    /// Takes over another PROM; the registers stay.
    pub fn put_prom(&mut self, prom: &[u8; 256])
        ensures { self.new ≡ record { prom = prom.now; registers = self.old.registers } }
    {
        self.prom = *prom;
        self.first = read_levels(prom, &self.registers, Voice::First);
        self.second = read_levels(prom, &self.registers, Voice::Second);
        self.third = read_levels(prom, &self.registers, Voice::Third);
    }

    /// Takes over these registers; mostly they are as before, and then nothing is told anew.
    #[inline]
    pub fn follow(&mut self, registers: &[u8; 32])
        ensures { self.new ≡ record { prom = self.old.prom; registers = registers.now } }
    {
        if !are_same(&self.registers, registers) {
            self.put_registers(registers);
        }
    }

    /// Takes over other registers, and tells anew what they say.
    #[inline(never)]
    fn put_registers(&mut self, registers: &[u8; 32])
        ensures { self.new ≡ record { prom = self.old.prom; registers = registers.now } }
    {
        self.registers = *registers;
        self.steps = read_steps(registers);
        self.first = read_levels(&self.prom, registers, Voice::First);
        self.second = read_levels(&self.prom, registers, Voice::Second);
        self.third = read_levels(&self.prom, registers, Voice::Third);
    }

    /// What 4096 times each voice's accumulator grows by: by value, so that it can stay in registers of the machine while samples are
    /// written.
    #[inline(always)]
    pub(crate) fn steps(&self) -> Steps
        ensures { result ≡ steps_of self.now.registers }
    {
        self.steps
    }

    /// What each sample of a voice's waveform puts into the sound.
    #[inline(always)]
    fn levels_of(&self, voice: Voice) -> &[i16; 32]
        ensures levels { AreLevels self.now.prom self.now.registers voice result.now }
        ensures within { AreWithin result.now }
    {
        match voice {
            Voice::First => &self.first,
            Voice::Second => &self.second,
            Voice::Third => &self.third,
        }
    }

    /// What a voice puts into the sound, 64 times.
    #[inline(always)]
    #[tactic(auto, unfolding(crate::specs::Settings::AreLevels, crate::specs::Settings::AreWithin))]
    pub(crate) fn level(&self, voice: Voice, accumulator: u32) -> i16
        requires { accumulator < spec.accumulator_range }
        ensures level { result ≡ scaled_level self.now.prom self.now.registers
            voice (accumulator / 32768) }
        ensures within { IsScaledLevel result }
    {
        level_at(self.levels_of(voice), (accumulator / 32768) as usize)
    }

    /// 4096 times an accumulator, a sample later: so it has all the bits of its word, and no sum needs a mask.
    #[inline(always)]
    #[tactic(auto, unfolding(crate::specs::Settings::voice_step))]
    pub(crate) fn grown(&self, voice: Voice, step: u32, position: u32) -> u32
        requires step { step ≡ voice_step self.now.registers voice }
        requires whole { position % 4096 ≡ 0 }
        ensures grown { result / 4096 ≡ spec.grown_accumulator self.now.registers
            voice (position / 4096) }
        ensures whole { result % 4096 ≡ 0 }
    {
        position.wrapping_add(step)
    }
}
