//! Where a run's pictures and samples go: the film and the wave file, side by side.

ghost use Rattle.std.specs.Prelude.{◌≡◌, ◌<◌, ◌≤◌, ◌-◌, Some, IsSome, IfOk, pos, replicate};
ghost use Rattle.pac_board_course.specs.Output.{Show, Sound};
ghost use Rattle.pac_board_course.specs.SinksLaws.{by, IsOffer, offered_image};
ghost use Rattle.pac_board_course.specs.Stretches.{most_frames};
ghost use Rattle.pac_media.specs.Samples.{samples_text};
ghost use Rattle.pac_media.specs.Sound.{sample_room};
ghost use Rattle.pac_run.specs.declared.fault.Output.TheVariants.{Wave};
ghost use Rattle.pac_run.specs.Films.{film_took, film_refused};
ghost use Rattle.pac_run.specs.Playing.{played};
ghost use Rattle.pac_run.specs.Recorded.{PerformsFilm, RecordsPlay, WritesSound};
ghost use Rattle.pac_run.specs.Run.{writing};

use crate::fault::{Output, OutputFault};
use crate::play::Plays;
use pac_board_course::{Outcome, Picture, Refused, Sink};
use pac_debug::CommandFault;
use pac_media::{Frames, Image, Out, WaveFile, WriteFault};

/// The film and the wave file of a run, and which of them refused, if one did.
#[derive(Drop)]
pub struct Film<F, W> {
    /// The images.
    pub frames: Frames<F>,
    /// The sound.
    pub wave: WaveFile<W>,
    /// The output that refused, if one did.
    pub fault: Option<OutputFault>,
}

impl<F: Out, W: Out> Sink for Film<F, W> {
    ghost took = { film_took F.took W.took };

    ghost refused = { film_refused F.took F.refused W.took W.refused };

    ghost room_for = { λ film. sample_room film.wave };

    /// As many as the wave file gathers before it writes.
    fn room(&self) -> usize {
        self.wave.room()
    }

    /// Puts the samples into the wave file.
    fn samples(&mut self, samples: &[i16]) {
        self.wave.keep_all(samples);
    }

    /// Puts the sample into the wave file.
    fn sample(&mut self, sample: i16) -> Result<(), Refused> {
        match self.wave.put(sample) {
            Ok(()) => Ok(()),
            Err(fault) => {
                self.fault = Some(OutputFault {
                    output: Output::Wave,
                    count: fault.count,
                });
                Err(Refused)
            }
        }
    }

    /// Writes the samples that wait, and then the picture's image.
    fn picture(&mut self, picture: &Picture) -> Result<(), Refused> {
        self.show(picture)
    }
}

/// The samples of a frame.
const FRAME_SAMPLES: u32 = pac_board_course::FRAME_SAMPLES as u32;

impl<F: Out, W: Out> Film<F, W> {
    /// Writes the samples that wait, and then puts the picture's image into the film: so no image is written before its sound.
    fn show(&mut self, picture: &Picture) -> Result<(), Refused>
        ensures { IsOffer
            (by (film_took F.took W.took) (film_refused F.took F.refused W.took W.refused))
            self.old (Show (offered_image picture.now)) result self.new }
    {
        if let Err(fault) = self.wave.flush() {
            self.fault = Some(OutputFault {
                output: Output::Wave,
                count: fault.count,
            });
            return Err(Refused);
        }
        match self.frames.put(picture) {
            Ok(()) => Ok(()),
            Err(fault) => {
                self.fault = Some(OutputFault {
                    output: Output::Frames,
                    count: fault.count,
                });
                Err(Refused)
            }
        }
    }

    /// The output that refused.
    fn refusal(&self) -> OutputFault
        requires { IsSome self.now.fault }
        ensures { Some result ≡ self.now.fault }
    {
        self.fault.unwrap()
    }

    /// Writes zeros for the samples that never came, and answers what the run came to.
    fn finish(&mut self, outcome: Outcome) -> Result<Outcome, OutputFault>
        ensures outcome { IfOk result (λ it. it ≡ outcome) }
        ensures frames { self.new.frames ≡ self.old.frames }
        ensures sound { WritesSound W.took W.refused self.old
            (samples_text (replicate self.old.wave.owed (pos 0))) result self.new }
    {
        match self.wave.finish() {
            Ok(()) => Ok(outcome),
            Err(fault) => Err(of_wave(fault)),
        }
    }

    /// Plays a run: all that it gives out is written, and zeros for the samples that never came. Answers what it came to, or the output
    /// that refused.
    fn perform<P: Plays>(&mut self, player: &mut P) -> Result<Outcome, OutputFault>
        requires ready { P.playing.ready player.old }
        requires short { P.playing.frames player.old ≤ most_frames }
        ensures { PerformsFilm F.took F.refused W.took W.refused
            (played P.playing player.old player.new) self.old result self.new }
    {
        match player.play(self) {
            Ok(outcome) => self.finish(outcome),
            Err(CommandFault::Refused) => Err(self.refusal()),
            Err(CommandFault::Text(fault)) => {
                let _ = self.wave.flush();
                Err(OutputFault {
                    output: Output::Text,
                    count: fault.count,
                })
            }
        }
    }
}

/// A fault of the wave's writer.
fn of_wave(fault: WriteFault) -> OutputFault
    ensures { result ≡ record { output = Wave; count = fault.count } }
{
    OutputFault {
        output: Output::Wave,
        count: fault.count,
    }
}

/// Writes the wave's header, then plays a run and writes frames and samples as they come. Where the header is refused no frame is
/// begun, and nothing is played.
pub fn record_run<F: Out, W: Out, P: Plays>(
    player: &mut P,
    image: Image,
    frames: &mut F,
    wave: &mut W,
) -> Result<Outcome, OutputFault>
    requires { P.playing.ready player.old }
    ensures { RecordsPlay (played P.playing player.old player.new)
        (writing F.took F.refused frames.old frames.new)
        (writing W.took W.refused wave.old wave.new) result }
{
    let mut wave = WaveFile::begin(wave, FRAME_SAMPLES * player.total());
    if let Err(fault) = wave.flush() {
        let _ = wave.into_writer();
        return Err(of_wave(fault));
    }
    let mut film = Film {
        frames: Frames::new(frames, image),
        wave,
        fault: None,
    };
    let recorded = film.perform(player);
    let Film {
        frames,
        wave,
        fault: _,
    } = film;
    let _ = frames.into_writer();
    let _ = wave.into_writer();
    recorded
}
