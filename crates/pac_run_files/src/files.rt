//! Files, as the program sees them: they are read whole, up to a size, and created empty.

ghost use Rattle.std.specs.Prelude.{◌-◌, ◌<◌, ◌^◌, IfOk, option_map, string_bytes};
ghost use Rattle.pac_run_files.specs.Files.{FindsFile, Handling, IsFound, most_read};
ghost use Rattle.pac_run_files.specs.FilesProofs.{IsReadWhole};

use pac_out::{Out, WriteFault};
use std::alloc::{AllocError, Global};
use std::io::{ErrorKind, Read};

/// The most bytes of a file that is read: 16 MiB.
const MOST_BYTES: u64 = 16_777_216;

/// What may stand where a file is read.
#[derive(Clone, Copy)]
pub enum FileKind {
    /// A file of any kind: a pipe or a device too, as far as it can be read to an end.
    Any,
    /// A plain file alone.
    Plain,
}

/// Why a file's bytes can't be had.
#[derive(Clone, Copy)]
pub enum ReadError {
    /// It isn't there, or it can't be read.
    Unreadable,
    /// It has more than 16 MiB.
    TooLong,
    /// Memory ran out.
    Memory,
}

/// Reads all that a reader has left, or one byte more than may be.
fn read_up_to<R: Read + Drop>(alloc: Global, reader: R, most: u64) -> Result<Vec<u8>, ReadError>
    requires { most < 2 ^ 64 - 1 }
    ensures { IsReadWhole most (R.remaining reader) result }
{
    let mut bytes = Vec::new(alloc);
    match reader.take(most + 1).read_to_end(&mut bytes) {
        Ok(count) if count as u64 <= most => Ok(bytes),
        Ok(_) => Err(ReadError::TooLong),
        Err(error) if error.kind() == ErrorKind::OutOfMemory => Err(ReadError::Memory),
        Err(_) => Err(ReadError::Unreadable),
    }
}

/// Reads all that a reader has left, up to 16 MiB. A reader's own error makes it unreadable.
pub fn read_whole<R: Read + Drop>(alloc: Global, reader: R) -> Result<Vec<u8>, ReadError>
    ensures { IsReadWhole most_read (R.remaining reader) result }
{
    read_up_to(alloc, reader, MOST_BYTES)
}

/// Where files are. Reading one changes nothing.
///
/// A file system says by relations what a read of a path may find, and what is left of it by each call that changes it.
pub trait FileSystem {
    /// A file that is written: one that was created, or a draft.
    type File: Out + Drop;

    /// What a read of a path may find, and which links there may be.
    ghost finds: { Self → FindsFile };

    /// What the calls below leave.
    ghost handling: { Handling Self Self.File };

    /// The bytes of a file of at most 16 MiB.
    fn read(&self, alloc: Global, kind: FileKind, path: &str) -> Result<Vec<u8>, ReadError>
        ensures { IsFound ((finds self.now).bytes kind path.now) result };

    /// The text of the link of this name in a folder; none where no link is there. What can't be looked at has an empty text.
    fn link(&self, alloc: Global, folder: &str, name: &str) -> Result<Option<String>, AllocError>
        ensures { IfOk result (λ link. (finds self.now).link folder.now name.now
            (option_map string_bytes link)) };

    /// Creates a file, or empties it.
    fn create(&mut self, path: &str) -> Option<Self::File>
        ensures { handling.creates self.old path.now result self.new };

    /// Closes a file that was created: no more is written to it.
    fn close(&mut self, file: Self::File)
        ensures { handling.closes self.old file self.new };

    /// Begins a draft: a file that is to take the place of a path's file once it is whole.
    fn draft(&mut self, path: &str) -> Option<Self::File>
        ensures { handling.drafts self.old path.now result self.new };

    /// Has the system write out what a draft has. The fault has the count of all bytes that the draft took.
    fn sync(&mut self, draft: &Self::File) -> Result<(), WriteFault>
        ensures { handling.syncs self.old draft.now result self.new };

    /// Puts a draft, as it is, in the place of its path's file. Where it can't be there, it is thrown away, and the fault has the count of all
    /// bytes that it took.
    fn publish(&mut self, path: &str, draft: Self::File) -> Result<(), WriteFault>
        ensures { handling.publishes self.old path.now draft result self.new };

    /// Throws a draft away.
    fn discard(&mut self, path: &str, draft: Self::File)
        ensures { handling.discards self.old path.now draft self.new };
}
