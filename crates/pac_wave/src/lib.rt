//! The wave generator: three voices that walk through the wave PROM, and the sound samples that they add up to.
#![tactic(auto)]

ghost use Rattle.std.specs.Prelude.{◌≡◌, ◌<◌, ◌∷◌, [], List, ℕ, false, length};
ghost use Rattle.pac_wave.specs.Batch.{accumulators_after_many, sound_samples};
ghost use Rattle.pac_wave.specs.Wave.{Accumulators, Fit20Bits, power_on_accumulators};
ghost use Rattle.pac_wave.specs.WaveLaws.{accumulators_of_list};
ghost use Rattle.pac_wave.specs.Wave as spec;
ghost use Rattle.pac_wave.specs.WaveProofs as wave_proofs;

pub mod laws;
mod positions;
mod settings;

use positions::Positions;
pub use settings::Settings;
use std::marker::Model;

/// One of the wave generator's voices.
#[derive(Clone, Copy)]
pub enum Voice {
    /// The voice whose frequency has all 20 bits.
    First,
    /// The voice of the registers from 16H on.
    Second,
    /// The voice of the registers from 1BH on.
    Third,
}

/// The wave generator's accumulators, 20 bits for each voice (Namco Pac-Man service schematics).
#[derive(Drop)]
pub struct Wave {
    positions: Positions,
}

impl Model for Wave {
    ghost use Rattle.pac_wave.specs.Wave.{Accumulators, Fit20Bits};

    ghost Value = { Accumulators };

    ghost view = { λ wave. wave.positions };

    ghost invariant = { λ wave. Fit20Bits wave.positions };
}

/// Samples while sound is off.
fn silence(samples: &mut [i16])
    ensures { (prom registers : List ℕ) → (all : Accumulators) →
        samples.new ≡ sound_samples prom registers false all (length samples.old) }
{
    samples.fill(0);
}

impl Wave {
    /// All accumulators 0, as at power-on.
    pub fn new() -> Wave
        ensures { result ≡ power_on_accumulators }
    {
        Wave::of([0; 3])
    }

    /// The accumulators of the first, the second and the third voice, each below 2^20.
    pub fn of(accumulators: [u32; 3]) -> Wave
        requires { Fit20Bits (accumulators_of_list accumulators) }
        ensures { result ≡ accumulators_of_list accumulators }
    {
        Wave {
            positions: Positions::of(accumulators),
        }
    }

    /// Takes another's accumulators.
    #[inline]
    pub fn copy_from(&mut self, other: &Wave)
        ensures { self.new ≡ other.now }
    {
        self.positions.copy_from(&other.positions);
    }

    /// The next sound sample, -23,040 to 20,160, from the wave PROM's 256 bytes and the 32 registers, of which the
    /// low four bits count; register n is the one at address 5040H + n. While sound is off the sample is 0 and the
    /// accumulators stay; else they grow by their voices' frequencies after the sample.
    pub fn tick(&mut self, prom: &[u8; 256], registers: &[u8; 32], on: bool) -> i16
        ensures sample { result ≡ spec.sound_sample prom.now registers.now
            (spec.accumulator self.old) on }
        ensures accumulators { self.new ≡ spec.accumulators_after registers.now on self.old }
        ensures within { wave_proofs.IsSample result }
    {
        self.sample(&Settings::of(prom, registers), on)
    }

    /// The next sound sample, as `tick` gives it, by settings.
    #[inline(always)]
    pub fn sample(&mut self, settings: &Settings, on: bool) -> i16
        ensures sample { result
            ≡ spec.sound_sample settings.now.prom settings.now.registers
            (spec.accumulator self.old) on }
        ensures accumulators { self.new ≡ spec.accumulators_after
            settings.now.registers on self.old }
        ensures within { wave_proofs.IsSample result }
    {
        if !on {
            return 0;
        }
        self.positions.next(settings, &settings.steps())
    }

    /// The next sound samples, as many as there is room for, while the settings and whether sound is on stay as they are: what so many
    /// calls of `sample` would give.
    #[inline]
    #[tactic(auto, using(crate::proofs::Batch::stays))]
    pub fn ticks(&mut self, settings: &Settings, on: bool, samples: &mut [i16])
        ensures samples { samples.new
            ≡ sound_samples settings.now.prom settings.now.registers on
            self.old (length samples.old) }
        ensures accumulators { self.new ≡ accumulators_after_many settings.now.registers on
            self.old (length samples.old) }
    {
        if on {
            self.positions.fill(settings, samples);
            return;
        }
        silence(samples);
    }

    /// The accumulators of the first, the second and the third voice, each below 2^20.
    pub fn accumulators(&self) -> [u32; 3]
        ensures accumulators { result ≡ self.now.first ∷ self.now.second ∷ self.now.third ∷ [] }
        ensures of { accumulators_of_list result ≡ self.now }
        ensures below { Fit20Bits self.now }
    {
        self.positions.list()
    }
}
