//! The sink of a call for some time: a host's buffer.

ghost use Rattle.pac_board.specs.Output.{Sound};
ghost use Rattle.pac_board.specs.Sinks.{TookAll};
ghost use Rattle.pac_board.specs.SinksLaws.{IsOffer, by};
ghost use Rattle.std.specs.Prelude.{◌≡◌, ◌≤◌, ◌<◌, ◌-◌, length, map};
ghost use Rattle.pac_block.specs.Sounding.{sounding_took, sounding_refused, sounding_room};

use pac_board::{Picture, Refused, Sink};

/// Writes samples into a buffer, from its head on, and counts the pictures up to 2^32 - 1.
#[derive(Drop)]
pub struct Sounds<'a> {
    /// The buffer.
    pub samples: &'a mut [i16],
    /// How many samples it has.
    pub taken: usize,
    /// How many pictures came.
    pub pictures: u32,
}

impl Sounds<'_> {
    /// Writes a sample after the others, where there is room.
    #[inline]
    fn put(&mut self, sample: i16) -> Result<(), Refused>
        ensures { IsOffer (by sounding_took sounding_refused) self.old (Sound sample) result
            self.new }
    {
        if self.taken >= self.samples.len() {
            return Err(Refused);
        }
        self.keep(sample);
        Ok(())
    }

    /// Writes a sample that there is room for after the others.
    #[inline]
    fn keep(&mut self, sample: i16)
        requires { 0 < sounding_room self.old }
        ensures took { sounding_took self.old (Sound sample) self.new }
        ensures room { sounding_room self.new ≡ sounding_room self.old - 1 }
    {
        self.samples[self.taken] = sample;
        self.taken += 1;
    }

    /// Writes samples that there is room for after the others.
    #[inline(always)]
    fn keep_each(&mut self, samples: &[i16])
        requires { length samples.now ≤ sounding_room self.old }
        ensures { TookAll sounding_took self.old (map Sound samples.now) self.new }
    {
        for sample in samples {
            self.keep(*sample);
        }
    }
}

impl Sink for Sounds<'_> {
    ghost took = { sounding_took };

    ghost refused = { sounding_refused };

    ghost room_for = { sounding_room };

    /// What is left of the buffer.
    #[inline]
    fn room(&self) -> usize {
        self.samples.len().saturating_sub(self.taken)
    }

    /// Writes samples after the others. Nearly always they are five, those of a line: then the compiler knows how much it copies, and needs no
    /// call for it.
    #[inline]
    fn samples(&mut self, samples: &[i16]) {
        match samples.as_array::<5>() {
            Some(line) => self.keep_each(line),
            None => self.keep_each(samples),
        }
    }

    /// Writes a sample after the others, where there is room.
    #[inline]
    fn sample(&mut self, sample: i16) -> Result<(), Refused> {
        self.put(sample)
    }

    /// Counts a picture, which the board keeps until the next one's first line.
    #[inline]
    fn picture(&mut self, _picture: &Picture) -> Result<(), Refused> {
        self.pictures = self.pictures.saturating_add(1);
        Ok(())
    }
}
