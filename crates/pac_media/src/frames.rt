//! The film of a run.

ghost use Rattle.std.specs.Prelude.{◌≡◌, [], false, OnErr};
ghost use Rattle.pac_out.specs.CountedLaws.{HasTaken};
ghost use Rattle.pac_out.specs.CountedProofs.{Puts, Stops};
ghost use Rattle.pac_media.specs.Images.{ppm_of};

use crate::image::Image;
use pac_out::counted::Counted;
use pac_out::{Out, WriteFault};
use pac_picture::Picture;
use std::marker::Model;

/// A file of images, one after another. Clauses see the file.
#[derive(Drop)]
pub struct Frames<W> {
    file: Counted<W>,
    image: Image,
}

impl<W> Model for Frames<W> {
    ghost use Rattle.pac_out.specs.declared.counted.Counted.{Counted};

    ghost Value = { Counted W };

    ghost view = { λ frames. frames.file };
}

impl<W: Out> Frames<W> {
    /// A file of no images yet, with room for one.
    pub fn new(writer: W, image: Image) -> Frames<W>
        ensures { HasTaken W.took writer [] result }
    {
        Frames {
            file: Counted::new(writer),
            image,
        }
    }

    /// Writes the image of a picture after those before it, handed to the writer whole; it takes no memory. The fault
    /// has the count of all bytes that the file took. After it each call answers the same fault and writes nothing.
    pub fn put(&mut self, picture: &Picture) -> Result<(), WriteFault>
        ensures put { Puts W.took W.refused self.old (ppm_of picture.now.lines picture.now.palette)
            result self.new }
        ensures stops { self.old.failed ≡ false
            → OnErr result (Stops W.took W.refused self.old
            (ppm_of picture.now.lines picture.now.palette) self.new) }
    {
        self.image.draw(picture);
        self.file.put(self.image.bytes())
    }

    /// The writer.
    pub fn into_writer(self) -> W
        ensures { result ≡ self.writer }
    {
        let Frames { file, image: _ } = self;
        file.into_writer()
    }
}
