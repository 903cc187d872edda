//! A law of the wave generator over many samples.

ghost use Rattle.pac_wave.specs.Sums.{AccumulatorsAreSums};

/// An accumulator is where it started and its voice's frequencies at all samples since at which sound was on,
/// modulo 2^20.
pub fn accumulators_are_sums()
    ensures { AccumulatorsAreSums }
{}
