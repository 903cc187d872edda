//! The standard streams: no file that is created may stand in the place of one.

ghost use Rattle.std.specs.Prelude.{◌≤◌, map, string_bytes};
ghost use Rattle.pac_run_command.specs.Failures as told;
ghost use Rattle.pac_run_command.specs.Machine.{Hears};

use crate::program::{run_words, work_unkept};
use crate::teller::{HostConsole, Teller};
use pac_run::{Out, Through};
use pac_run_files::{FileSystem, HostFile, HostFiles};
use std::os::fd::AsRawFd;
use std::rt::Files;
use std::{fs, io};

/// The greatest descriptor of a standard stream, that of standard error.
const STANDARD_ERROR: i32 = 2;

/// Folders, opened for reading, that take the places of the standard streams that were closed when the program began. As long
/// as they live, no file that is created has a stream's descriptor, so no text for the stream goes into it; a text for one that
/// was closed is refused.
#[derive(Drop)]
struct Places<F> {
    /// The folder in the place of the first stream that was closed, if any was.
    first: F,
    /// The folder in the place of the second.
    second: F,
    /// The folder in the place of the third.
    third: F,
}

/// Opens a folder three times. Each opening takes the least descriptor that is free.
fn open_thrice<R: Files>(rt: &R, folder: &str) -> io::Result<Places<R::File>> {
    Ok(Places {
        first: fs::open(rt, folder)?,
        second: fs::open(rt, folder)?,
        third: fs::open(rt, folder)?,
    })
}

/// Whether no standard stream was closed: the ends of a pipe take the least descriptors that are free.
fn are_open<R: Files>(rt: &R) -> bool {
    match io::pipe(rt) {
        Ok((reader, writer)) => {
            reader.as_raw_fd() > STANDARD_ERROR && writer.as_raw_fd() > STANDARD_ERROR
        }
        Err(_) => false,
    }
}

/// Keeps the places of the standard streams from the files that are created; none are to be kept where all are open. An error
/// where this isn't known and no folder can be opened, neither the root nor the present one. The kit states nothing of the
/// descriptors that files and pipes get, so no clause can; tools/check/closed-descriptors tries it on the built program.
fn keep_standard<R: Files>(rt: &R) -> io::Result<Option<Places<R::File>>> {
    match open_thrice(rt, "/") {
        Ok(places) => Ok(Some(places)),
        Err(_) if are_open(rt) => Ok(None),
        Err(_) => Ok(Some(open_thrice(rt, ".")?)),
    }
}

/// Does what these words ask, over the files of `rt`, with no file in the place of a standard stream.
pub(crate) fn run_heard<R: Files + Print + Eprint + AllocGlobal>(rt: &R, words: &[String]) -> u8
    ensures status { result ≤ told.most_status }
    ensures hears { Hears (record {
      finds = ⟦<HostFiles<'static, R> as FileSystem>⟧.finds;
      handling = ⟦<HostFiles<'static, R> as FileSystem>⟧.handling;
      file_took = ⟦<HostFile<R::File> as Out>⟧.took;
      file_refused = ⟦<HostFile<R::File> as Out>⟧.refused;
      stream_took = ⟦<Through<io::Printer<'static, R>> as Out>⟧.took;
      stream_refused = ⟦<Through<io::Printer<'static, R>> as Out>⟧.refused;
      tells = ⟦<HostConsole<'static, R> as Teller>⟧.tells;
      explains = ⟦<HostConsole<'static, R> as Teller>⟧.explains;
    }) (map string_bytes words.now) result }
{
    let Ok(places) = keep_standard(rt) else {
        return work_unkept(
            rt.alloc(),
            &mut HostFiles { rt },
            &mut HostConsole { console: rt },
            words,
        );
    };
    let status = run_words(rt, rt, words);
    drop(places);
    status
}
