//! Where the three voices stand in their waveforms.

ghost use Rattle.std.specs.Prelude.{◌≡◌, ℤ, pos, ◌*ℤ◌, true, length};
ghost use Rattle.pac_wave.specs.Batch.{accumulators_after_many, sound_samples};
ghost use Rattle.pac_wave.specs.Settings.{IsScaledLevel, steps_of};
ghost use Rattle.pac_wave.specs.Wave.{Fit20Bits};
ghost use Rattle.pac_wave.specs.WaveLaws.{accumulators_of_list};
ghost use Rattle.pac_wave.specs.Wave as spec;
ghost use Rattle.pac_wave.specs.WaveProofs as wave_proofs;

use crate::Voice;
use crate::settings::{Settings, Steps};
use std::marker::Model;

/// 4096 times the accumulators, which have 20 bits each.
#[derive(Drop)]
pub(crate) struct Positions {
    first: u32,
    second: u32,
    third: u32,
}

impl Model for Positions {
    ghost use Rattle.std.specs.Prelude.{◌≡◌, ◌/◌, ◌%◌};
    ghost use Rattle.pac_wave.specs.Wave.{Accumulators, Fit20Bits};

    ghost Value = { Accumulators };

    ghost view = { λ all. record { first = all.first / 4096; second = all.second / 4096; third = all.third / 4096 } };

    ghost invariant = { λ all. record {
      first : all.first % 4096 ≡ 0;
      second : all.second % 4096 ≡ 0;
      third : all.third % 4096 ≡ 0;
      fit : Fit20Bits (record { first = all.first / 4096; second = all.second / 4096; third = all.third / 4096 });
    } };
}

/// The sound sample that three voices add up to, of each of which there is 64 times what it puts into the sound.
#[inline(always)]
fn mixed(first: i16, second: i16, third: i16) -> i16
    requires first { IsScaledLevel first }
    requires second { IsScaledLevel second }
    requires third { IsScaledLevel third }
    ensures mixed { (one two three : ℤ) → first ≡ pos 64 *ℤ one →
        second ≡ pos 64 *ℤ two → third ≡ pos 64 *ℤ three
        → result ≡ spec.mixed_voices one two three }
    ensures within { wave_proofs.IsSample result }
{
    first + second + third
}

impl Positions {
    /// Those of a list of three, each below 2^20.
    pub(crate) fn of(accumulators: [u32; 3]) -> Positions
        requires { Fit20Bits (accumulators_of_list accumulators) }
        ensures { result ≡ accumulators_of_list accumulators }
    {
        let [first, second, third] = accumulators;
        Positions {
            first: 4096 * first,
            second: 4096 * second,
            third: 4096 * third,
        }
    }

    /// Takes another's.
    #[inline]
    pub(crate) fn copy_from(&mut self, other: &Positions)
        ensures { self.new ≡ other.now }
    {
        self.first = other.first;
        self.second = other.second;
        self.third = other.third;
    }

    /// The same ones.
    #[inline(always)]
    fn copied(&self) -> Positions
        ensures { result ≡ self.now }
    {
        Positions {
            first: self.first,
            second: self.second,
            third: self.third,
        }
    }

    /// The accumulators of the first, the second and the third voice.
    pub(crate) fn list(&self) -> [u32; 3]
        ensures of { accumulators_of_list result ≡ self.now }
        ensures below { Fit20Bits self.now }
    {
        [self.first / 4096, self.second / 4096, self.third / 4096]
    }

    /// The sound sample where the voices stand.
    #[inline(always)]
    #[tactic(auto, unfolding(crate::specs::Settings::scaled_level))]
    fn sample(&self, settings: &Settings) -> i16
        ensures sample { result ≡ spec.sound_sample settings.now.prom settings.now.registers
            (spec.accumulator self.now) true }
        ensures within { wave_proofs.IsSample result }
    {
        mixed(
            settings.level(Voice::First, self.first / 4096),
            settings.level(Voice::Second, self.second / 4096),
            settings.level(Voice::Third, self.third / 4096),
        )
    }

    /// Moves each voice on by a sample.
    #[inline(always)]
    #[tactic(auto, unfolding(crate::specs::Settings::steps_of))]
    fn move_on(&mut self, settings: &Settings, steps: &Steps)
        requires { steps.now ≡ steps_of settings.now.registers }
        ensures { self.new ≡ spec.accumulators_after settings.now.registers true self.old }
    {
        self.first = settings.grown(Voice::First, steps.first, self.first);
        self.second = settings.grown(Voice::Second, steps.second, self.second);
        self.third = settings.grown(Voice::Third, steps.third, self.third);
    }

    /// The next sound sample while sound is on, after which the voices move on.
    #[inline(always)]
    pub(crate) fn next(&mut self, settings: &Settings, steps: &Steps) -> i16
        requires { steps.now ≡ steps_of settings.now.registers }
        ensures sample { result ≡ spec.sound_sample settings.now.prom settings.now.registers
            (spec.accumulator self.old) true }
        ensures accumulators { self.new ≡ spec.accumulators_after
            settings.now.registers true self.old }
        ensures within { wave_proofs.IsSample result }
    {
        let sample = self.sample(settings);
        self.move_on(settings, steps);
        sample
    }

    /// The next sound samples while sound is on, as many as there is room for. Meanwhile the positions, and what they grow by, stay in
    /// registers of the machine.
    #[inline]
    pub(crate) fn fill(&mut self, settings: &Settings, samples: &mut [i16])
        ensures samples { samples.new
            ≡ sound_samples settings.now.prom settings.now.registers true
            self.old (length samples.old) }
        ensures accumulators { self.new
            ≡ accumulators_after_many settings.now.registers true self.old (length samples.old) }
    {
        let steps = settings.steps();
        let mut now = self.copied();
        for sample in samples.iter_mut() {
            *sample = now.next(settings, &steps);
        }
        self.copy_from(&now);
    }
}
