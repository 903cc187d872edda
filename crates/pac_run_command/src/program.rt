//! The program: its words are read, its work is done, and a failure is told.

ghost use Rattle.std.specs.Prelude.{◌≡◌, ◌≢◌, ◌≤◌, [], map, string_bytes};
ghost use Rattle.clap.specs.Words.{kind_of};
ghost use Rattle.pac_run_options.specs.CommandLine.{faults_of, request_of};
ghost use Rattle.pac_run_options.specs.CommandLineProofs.{told_request};
ghost use Rattle.pac_run_command.specs.Endings.{FailureEnds, HelpEnds, WordsEnd, WorkEnds};
ghost use Rattle.pac_run_command.specs.EndingsProofs.{ending_told};
ghost use Rattle.pac_run_command.specs.Failures as told;
ghost use Rattle.pac_run_command.specs.Machine.{IsUnheard, RunsOn, WorksOn};
ghost use Rattle.pac_run.specs.Run.{writing};
ghost use Rattle.pac_run_command.specs.Programs.{assembling};
ghost use Rattle.pac_run_command.specs.Works.{DoesUnkept, DoesWork, Works, WorksUnkept};
ghost use Rattle.pac_run_command.specs.Works.{desk_of, without_output};
ghost use Rattle.pac_run_command.specs.declared.failure.Failure.TheVariants.{Write};
ghost use Rattle.pac_run_command.specs.declared.failure.Target.TheVariants.{Of};

use crate::asm::asm;
use crate::debug::debug;
use crate::dis::dis;
use crate::failure::{Failure, Target};
use crate::play::play;
use crate::standard::run_heard;
use crate::teller::{HostConsole, Teller};
use clap::error::ErrorKind;
use pac_run::{Out, Output, Through, WriteFault};
use pac_run_files::{FileSystem, HostFile, HostFiles};
use pac_run_options::{Request, options};
use std::alloc::Global;
use std::rt::{Env, Files};
use std::{env, io};

/// Does what the words of the program's command line ask, and answers the exit status: 0 done, 1 refused input,
/// 2 command line, 3 read or write fault, 4 memory, 5 board stopped. A failure is told in one line on standard error,
/// and words that are no command line are told in the words of the library that reads them.
pub fn run<R: Env + Files + Print + Eprint + AllocGlobal>(rt: &R) -> u8
    ensures status { result ≤ told.most_status }
    ensures runs { RunsOn (record {
      finds = ⟦<HostFiles<'static, R> as FileSystem>⟧.finds;
      handling = ⟦<HostFiles<'static, R> as FileSystem>⟧.handling;
      file_took = ⟦<HostFile<R::File> as Out>⟧.took;
      file_refused = ⟦<HostFile<R::File> as Out>⟧.refused;
      stream_took = ⟦<Through<io::Printer<'static, R>> as Out>⟧.took;
      stream_refused = ⟦<Through<io::Printer<'static, R>> as Out>⟧.refused;
      tells = ⟦<HostConsole<'static, R> as Teller>⟧.tells;
      explains = ⟦<HostConsole<'static, R> as Teller>⟧.explains;
    }) result }
{
    match words_of(rt) {
        Ok(words) => run_heard(rt, &words),
        Err(error) => tell_words(&mut HostConsole { console: rt }, error.kind()),
    }
}

/// The words of the command line, the program's name first.
fn words_of<R: Env + AllocGlobal>(rt: &R) -> io::Result<Vec<String>> {
    let mut words = Vec::new(rt.alloc());
    for word in env::args(rt)? {
        words.push(word)?;
    }
    Ok(words)
}

/// Tells that the words can't be had, and answers the status.
fn tell_words<C: Teller>(console: &mut C, kind: io::ErrorKind) -> u8
    ensures unheard { IsUnheard (ending_told C.tells C.explains console.old console.new result) }
    ensures most { result ≤ told.most_status }
{
    if kind == io::ErrorKind::OutOfMemory {
        return tell(console, Failure::Memory);
    }
    tell(console, Failure::Words)
}

/// Does what is asked where a file that is created might stand in the place of a standard stream: work that writes to standard output isn't
/// begun, and its report or text is told as refused.
fn serve_unkept<D: FileSystem, C: Teller>(
    alloc: Global,
    disk: &mut D,
    console: &mut C,
    request: Request,
) -> u8
    ensures status { result ≤ told.most_status }
    ensures does { DoesUnkept (without_output (D.finds disk.old) D.handling
        (assembling D.File.took D.File.refused)
        (ending_told C.tells C.explains console.old console.new result))
        (told_request request.entry) disk.old disk.new }
{
    match request {
        Request::Asm(files) => end(console, asm(alloc, disk, &files)),
        Request::Run(_) => refuse(console, Output::Report, 0),
        Request::Debug(_) => refuse(console, Output::Report, 0),
        Request::Dis(_) => refuse(console, Output::Text, 0),
    }
}

/// Does what words ask where a file that is created might stand in the place of a standard stream.
pub(crate) fn work_unkept<D: FileSystem, C: Teller>(
    alloc: Global,
    disk: &mut D,
    console: &mut C,
    words: &[String],
) -> u8
    ensures status { result ≤ told.most_status }
    ensures works { WorksUnkept (without_output (D.finds disk.old) D.handling
        (assembling D.File.took D.File.refused)
        (ending_told C.tells C.explains console.old console.new result))
        (faults_of (map string_bytes words.now))
        (request_of (map string_bytes words.now)) disk.old disk.new }
{
    match options(alloc, words) {
        Ok(request) => serve_unkept(alloc, disk, console, request),
        Err(error) => explain(console, &error),
    }
}

/// Does what these words ask, over the files of `rt`; texts for standard output and standard error go to `console`.
pub fn run_words<R: Files + AllocGlobal, C: Print + Eprint>(
    rt: &R,
    console: &C,
    words: &[String],
) -> u8
    ensures status { result ≤ told.most_status }
    ensures words { faults_of (map string_bytes words.now) ≢ []
        → told.IsWordsStatus (faults_of (map string_bytes words.now)) result }
    ensures works { WorksOn (record {
      finds = ⟦<HostFiles<'static, R> as FileSystem>⟧.finds;
      handling = ⟦<HostFiles<'static, R> as FileSystem>⟧.handling;
      file_took = ⟦<HostFile<R::File> as Out>⟧.took;
      file_refused = ⟦<HostFile<R::File> as Out>⟧.refused;
      stream_took = ⟦<Through<io::Printer<'static, C>> as Out>⟧.took;
      stream_refused = ⟦<Through<io::Printer<'static, C>> as Out>⟧.refused;
      tells = ⟦<HostConsole<'static, C> as Teller>⟧.tells;
      explains = ⟦<HostConsole<'static, C> as Teller>⟧.explains;
    }) (faults_of (map string_bytes words.now)) (request_of (map string_bytes words.now)) result }
{
    let mut disk = HostFiles { rt };
    let mut report = Through {
        inner: io::writer(console),
    };
    let mut text = Through {
        inner: io::writer(console),
    };
    work(
        rt.alloc(),
        &mut disk,
        &mut report,
        &mut text,
        &mut HostConsole { console },
        words,
    )
}

/// Does what is asked over files, with a writer for the report and one for the text of a session or a disassembly, and a console where a
/// failure is told.
fn serve<D: FileSystem, R: Out, T: Out, C: Teller>(
    alloc: Global,
    disk: &mut D,
    report: &mut R,
    text: &mut T,
    console: &mut C,
    request: Request,
) -> u8
    ensures status { result ≤ told.most_status }
    ensures does { DoesWork (desk_of (D.finds disk.old) D.handling D.File.took D.File.refused
        (writing R.took R.refused report.old report.new)
        (writing T.took T.refused text.old text.new)
        (record {
          tells = C.tells;
          explains = C.explains;
          old = console.old;
          new = console.new;
          status = result;
        }))
        (told_request request.entry) disk.old disk.new }
{
    match request {
        Request::Asm(files) => end(console, asm(alloc, disk, &files)),
        Request::Run(files) => play(alloc, disk, report, text, console, &files),
        Request::Debug(files) => debug(alloc, disk, report, text, console, &files),
        Request::Dis(name) => end(console, dis(alloc, disk, text, name)),
    }
}

/// Does what words ask for over files, with a writer for the report and one for the text of a session or a disassembly, which
/// both are standard output, and a console where a failure is told.
pub fn work<D: FileSystem, R: Out, T: Out, C: Teller>(
    alloc: Global,
    disk: &mut D,
    report: &mut R,
    text: &mut T,
    console: &mut C,
    words: &[String],
) -> u8
    ensures status { result ≤ told.most_status }
    ensures words { faults_of (map string_bytes words.now) ≢ []
        → told.IsWordsStatus (faults_of (map string_bytes words.now)) result }
    ensures works { Works (desk_of (D.finds disk.old) D.handling D.File.took D.File.refused
        (writing R.took R.refused report.old report.new)
        (writing T.took T.refused text.old text.new)
        (record {
          tells = C.tells;
          explains = C.explains;
          old = console.old;
          new = console.new;
          status = result;
        }))
        (faults_of (map string_bytes words.now))
        (request_of (map string_bytes words.now)) disk.old disk.new }
{
    match options(alloc, words) {
        Ok(request) => serve(alloc, disk, report, text, console, request),
        Err(error) => explain(console, &error),
    }
}

/// Tells a failure, and answers its status.
pub(crate) fn tell<C: Teller>(console: &mut C, failure: Failure) -> u8
    ensures fails { FailureEnds (ending_told C.tells C.explains console.old console.new result)
        failure.entry }
    ensures most { result ≤ told.most_status }
{
    console.tell(&failure);
    failure.status()
}

/// Tells that an output refused after so many bytes, and answers the status.
fn refuse<C: Teller>(console: &mut C, output: Output, count: u64) -> u8
    ensures fails { FailureEnds (ending_told C.tells C.explains console.old console.new result)
        (Write (Of output) count) }
    ensures most { result ≤ told.most_status }
{
    tell(console, Failure::Write(Target::Of(output), count))
}

/// The status of work that is done or that failed; a failure is told.
fn end<C: Teller>(console: &mut C, done: Result<(), Failure>) -> u8
    ensures ends { WorkEnds (ending_told C.tells C.explains console.old console.new result)
        done.entry }
    ensures most { result ≤ told.most_status }
{
    match done {
        Ok(()) => 0,
        Err(failure) => tell(console, failure),
    }
}

/// Tells why the words are no command line, or what they ask to be told of it; where that can't be written to standard output,
/// this is told as a failure.
fn explain<C: Teller>(console: &mut C, error: &clap::Error) -> u8
    ensures ends { WordsEnd (ending_told C.tells C.explains console.old console.new result)
        (kind_of error.now) }
    ensures status { told.IsLineStatus (kind_of error.now) result }
{
    if error.kind() == ErrorKind::OutOfMemory {
        return tell(console, Failure::Memory);
    }
    let written = console.explain(error);
    if error.use_stderr() {
        return 2;
    }
    end_help(console, written)
}

/// The status of help or of the version, by whether it was written to standard output; where it wasn't, this is told as a failure.
fn end_help<C: Teller>(console: &mut C, written: Result<(), WriteFault>) -> u8
    ensures ends { HelpEnds (ending_told C.tells C.explains console.old console.new result)
        written }
    ensures status { told.IsHelpStatus result }
{
    match written {
        Ok(()) => 0,
        Err(fault) => refuse(console, Output::Text, fault.count),
    }
}
