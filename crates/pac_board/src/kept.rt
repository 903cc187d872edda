//! A sink for tests: it keeps what it takes, and refuses one offer.

ghost use Rattle.std.specs.Prelude.{◌≡◌, ◌<◌, ◌==◌, [], IfOk, map};
ghost use Rattle.pac_picture.specs.Tiles as tile;
ghost use Rattle.pac_board.specs.SinksLaws.{offered_image};
ghost use Rattle.pac_board.specs.Kept.{Keeps, Declines, sink_after_offer, output_of, pixel_number};
ghost use Rattle.pac_board.specs.Kept.{pixel_colour};

use crate::sink::{Refused, Sink};
use pac_picture::{Lines, Picture};
use std::alloc::{AllocError, Global};
use std::marker::Model;

/// A picture as it was taken: its lines, and red, green and blue of its colour numbers.
pub struct Shown {
    lines: Box<Lines>,
    palette: [[u8; 3]; 16],
}

impl Drop for Shown {
    /// Drops each part.
    fn drop(self) {
        let Shown {
            lines: _,
            palette: _,
        } = self;
    }
}

impl Model for Shown {
    ghost use Rattle.pac_board_model.specs.Output.{Image};

    ghost Value = { Image };

    ghost view = { λ offered_image. record { lines = offered_image.lines.value; palette = offered_image.palette } };
}

impl Shown {
    /// A copy of a picture as it stands. Refused for want of memory alone.
    fn of(alloc: Global, picture: &Picture) -> Result<Shown, AllocError>
        ensures { IfOk result (λ copy. copy ≡ offered_image picture.now) }
    {
        let mut lines = Box::new(alloc, Lines::new())?;
        lines.copy_from(picture.lines().raw());
        let mut palette = [[0; 3]; 16];
        palette.copy_from_slice(picture.palette());
        Ok(Shown { lines, palette })
    }

    /// The colour number at (x, y), in 288 columns and 224 lines.
    pub fn number(&self, x: u16, y: u8) -> u8
        requires x { x < tile.width }
        requires y { y < tile.height }
        ensures number { result ≡ pixel_number self.now x y }
        ensures below { result < 16 }
    {
        self.lines.row(y)[x as usize]
    }

    /// Red, green and blue at (x, y).
    pub fn colour(&self, x: u16, y: u8) -> [u8; 3]
        requires x { x < tile.width }
        requires y { y < tile.height }
        ensures { result ≡ pixel_colour self.now x y }
    {
        self.palette[self.number(x, y) as usize]
    }
}

/// An output that was taken.
#[derive(Drop)]
pub enum Taken {
    /// A sound sample.
    Sample(i16),
    /// A picture.
    Picture(Shown),
}

/// A sink that keeps what it takes, and refuses one offer. Clauses see the outputs that it took and the number of the
/// offer that it refuses.
pub struct Kept {
    alloc: Global,
    taken: Vec<Taken>,
    refusal: u64,
}

impl Drop for Kept {
    /// Drops each part.
    fn drop(self) {
        let Kept {
            alloc: _,
            taken: _,
            refusal: _,
        } = self;
    }
}

impl Model for Kept {
    ghost use Rattle.std.specs.Prelude.{map};
    ghost use Rattle.pac_board.specs.Kept.{KeepingSink, output_of};

    ghost Value = { KeepingSink };

    ghost view = { λ kept. record { outputs = map output_of kept.taken.items; refusal = kept.refusal } };
}

impl Kept {
    /// A sink that took nothing yet, and refuses the offer of the number `refusal`, once: 1 is its first, 0 is none.
    pub fn new(alloc: Global, refusal: u64) -> Kept
        ensures { result ≡ record { outputs = []; refusal = refusal } }
    {
        Kept {
            alloc,
            taken: Vec::new(alloc),
            refusal,
        }
    }

    /// The outputs that the sink took, the first first.
    pub fn taken(&self) -> &[Taken]
        ensures { map output_of result.now ≡ self.now.outputs }
    {
        &self.taken
    }

    /// Counts an offer, and tells whether it is the one that the sink refuses.
    fn declines(&mut self) -> bool
        ensures result_is { result ≡ (self.old.refusal == 1) }
        ensures offer { self.new ≡ sink_after_offer self.old }
    {
        let declines = self.refusal == 1;
        self.refusal = self.refusal.saturating_sub(1);
        declines
    }
}

impl Sink for Kept {
    ghost took = { Keeps };

    ghost refused = { Declines };

    ghost room_for = { λ _. 0 };

    /// None: it's offered one sample at a time, of which it may refuse each.
    fn room(&self) -> usize {
        0
    }

    /// Takes the batch of no sample.
    fn samples(&mut self, _samples: &[i16]) {}

    /// Keeps a sample.
    fn sample(&mut self, sample: i16) -> Result<(), Refused> {
        if self.declines() || self.taken.push(Taken::Sample(sample)).is_err() {
            return Err(Refused);
        }
        Ok(())
    }

    /// Keeps a copy of a picture.
    fn picture(&mut self, picture: &Picture) -> Result<(), Refused> {
        if self.declines() {
            return Err(Refused);
        }
        let Ok(shown) = Shown::of(self.alloc, picture) else {
            return Err(Refused);
        };
        match self.taken.push(Taken::Picture(shown)) {
            Ok(()) => Ok(()),
            Err(_) => Err(Refused),
        }
    }
}
