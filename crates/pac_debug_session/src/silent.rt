//! The sink of steps that are done again.

ghost use Rattle.pac_board_course.specs.Bursts.{batch_samples};
ghost use Rattle.pac_debug_session.specs.Silent.{Swallows, NeverRefuses};

use pac_board_course::{BATCH_SAMPLES, Picture, Refused, Sink};

/// Takes all, and does nothing with it.
#[derive(Drop)]
pub struct Silent;

impl Sink for Silent {
    ghost took = { Swallows };

    ghost refused = { NeverRefuses };

    ghost room_for = { λ _. batch_samples };

    /// For all that a stretch gives.
    #[inline]
    fn room(&self) -> usize {
        BATCH_SAMPLES
    }

    /// Takes samples.
    #[inline]
    fn samples(&mut self, _samples: &[i16]) {}

    /// Takes a sample.
    #[inline]
    fn sample(&mut self, _sample: i16) -> Result<(), Refused> {
        Ok(())
    }

    /// Takes a picture.
    #[inline]
    fn picture(&mut self, _picture: &Picture) -> Result<(), Refused> {
        Ok(())
    }
}
