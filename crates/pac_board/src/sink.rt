//! Where samples and pictures go.

ghost use Rattle.std.specs.Prelude.{◌≡◌, ◌≤◌, ℕ, length, map};
ghost use Rattle.pac_board_model.specs.Output.{Output, Sound, Show};
ghost use Rattle.pac_board.specs.Sinks.{TookAll};
ghost use Rattle.pac_board.specs.SinksLaws.{by, IsOffer, offered_image};
ghost use Rattle.pac_board.specs.SinksProofs.{lent_sink_took, lent_sink_refused};

use pac_picture::Picture;
use thiserror::Error;

/// A sink refused an output.
#[derive(Clone, Copy, Debug, Error)]
#[error("the sink refused an output")]
pub struct Refused;

/// Takes what a board gives out, or refuses it.
///
/// A sink says by two relations between its value before and after what taking an output leaves of it and what refusing one
/// leaves. It needn't keep what it took.
pub trait Sink {
    /// What is left of a sink that took this output.
    ghost took: { Self → Output → Self → Type 0 };

    /// What is left of a sink that refused this output.
    ghost refused: { Self → Output → Self → Type 0 };

    /// How many samples it has room for at once; 0 where it takes them one at a time.
    ghost room_for: { Self → ℕ };

    /// How many samples it has room for at once; 0 where it takes them one at a time.
    fn room(&self) -> usize
        ensures { result ≡ room_for self.now };

    /// Takes a batch of sound samples, the first one first, that it has room for: none of them is refused.
    fn samples(&mut self, samples: &[i16])
        requires { length samples.now ≤ room_for self.old }
        ensures { TookAll took self.old (map Sound samples.now) self.new };

    /// Takes a sound sample, one of 96,000 a second, or refuses it.
    fn sample(&mut self, sample: i16) -> Result<(), Refused>
        ensures { IsOffer (by took refused) self.old (Sound sample) result self.new };

    /// Takes the picture of a frame as it is lent, or refuses it.
    fn picture(&mut self, picture: &Picture) -> Result<(), Refused>
        ensures { IsOffer (by took refused) self.old
            (Show (offered_image picture.now)) result self.new };
}

/// A sink that is lent.
impl<S: Sink> Sink for &mut S {
    ghost took = { lent_sink_took S.took };

    ghost refused = { lent_sink_refused S.refused };

    ghost room_for = { λ _. 0 };

    /// None: it's offered one sample at a time.
    fn room(&self) -> usize {
        0
    }

    /// Takes the batch of no sample.
    fn samples(&mut self, _samples: &[i16]) {}

    /// Offers the sample to the sink that is lent.
    fn sample(&mut self, sample: i16) -> Result<(), Refused> {
        Sink::sample(&mut **self, sample)
    }

    /// Offers the picture to the sink that is lent.
    fn picture(&mut self, picture: &Picture) -> Result<(), Refused> {
        Sink::picture(&mut **self, picture)
    }
}
