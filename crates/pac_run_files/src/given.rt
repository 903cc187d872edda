//! The files that the command line of a run names, as they are read.

ghost use Rattle.std.specs.Prelude.{◌≡◌, ◌≤◌, IfOk, Some, None, length, option_copied};
ghost use Rattle.pac_run_options.specs.CommandLineProofs.{told_debug, told_play, told_run};
ghost use Rattle.pac_run_files.specs.declared.files.FileKind.TheVariants.{Any};
ghost use Rattle.pac_run_files.specs.Files.{FirstUnread, IsUnread, as_given, most_read};
ghost use Rattle.pac_run_files.specs.Read.{HasGivenFiles, HasIfNamed, files_if_named};
ghost use Rattle.pac_run_files.specs.ReadProofs.{ReadsFiles};
ghost use Rattle.pac_run_files.specs.Read.{given_files, played_files, watched_files};

use crate::files::{FileKind, FileSystem, ReadError};
use pac_run_options::{DebugFiles, PlayFiles, RunFiles};
use std::alloc::Global;

/// Why files weren't read.
#[derive(Clone, Copy)]
pub enum ReadFault<'a> {
    /// The file that is told by this name can't be read, or has more than 16 MiB.
    Unreadable(&'a str),
    /// Memory ran out.
    Memory,
}

/// The files of a run whose names the command line gives, as they were read.
pub struct Given {
    /// The source, if there is one.
    pub source: Option<Vec<u8>>,
    /// The manifest of the ROM set.
    pub manifest: Vec<u8>,
    /// The script.
    pub script: Vec<u8>,
}

impl Drop for Given {
    /// Drops each part: one call for a check to follow wherever the files of a run are dropped.
    fn drop(self) {
        let Given {
            source: _,
            manifest: _,
            script: _,
        } = self;
    }
}

/// Reads the file of a path; a fault tells this name.
pub(crate) fn read_path<'a, D: FileSystem>(
    alloc: Global,
    disk: &D,
    kind: FileKind,
    path: &str,
    name: &'a str,
) -> Result<Vec<u8>, ReadFault<'a>>
    ensures read { ReadsFiles (λ bytes. (D.finds disk.now).bytes kind path.now (Some bytes.items))
        (λ told. (told ≡ name.now) × (D.finds disk.now).bytes kind path.now None) result }
    ensures size { IfOk result (λ bytes. length bytes.items ≤ most_read) }
{
    match disk.read(alloc, kind, path) {
        Ok(bytes) => Ok(bytes),
        Err(ReadError::Memory) => Err(ReadFault::Memory),
        Err(_) => Err(ReadFault::Unreadable(name)),
    }
}

/// Reads a file that the command line names, of any kind.
pub fn read_file<'a, D: FileSystem>(
    alloc: Global,
    disk: &D,
    name: &'a str,
) -> Result<Vec<u8>, ReadFault<'a>>
    ensures read { ReadsFiles (λ bytes. (D.finds disk.now).bytes Any name.now (Some bytes.items))
        (IsUnread (D.finds disk.now) (as_given name.now)) result }
    ensures size { IfOk result (λ bytes. length bytes.items ≤ most_read) }
{
    read_path(alloc, disk, FileKind::Any, name, name)
}

/// Reads a file, where one is named.
fn read_if_named<'a, D: FileSystem>(
    alloc: Global,
    disk: &D,
    name: Option<&'a str>,
) -> Result<Option<Vec<u8>>, ReadFault<'a>>
    ensures { ReadsFiles (HasIfNamed (D.finds disk.now) (option_copied name.entry))
        (FirstUnread (D.finds disk.now) (files_if_named (option_copied name.entry))) result }
{
    let Some(name) = name else {
        return Ok(None);
    };
    match read_file(alloc, disk, name) {
        Ok(bytes) => Ok(Some(bytes)),
        Err(fault) => Err(fault),
    }
}

/// Reads the files that the command line names, in order: source, manifest, script.
pub fn read_given<'a, D: FileSystem>(
    alloc: Global,
    disk: &D,
    files: &RunFiles<'a>,
) -> Result<Given, ReadFault<'a>>
    ensures { ReadsFiles (HasGivenFiles (D.finds disk.now) (told_run files.now))
        (FirstUnread (D.finds disk.now) (given_files (told_run files.now))) result }
{
    let source = match read_if_named(alloc, disk, files.source) {
        Ok(source) => source,
        Err(fault) => return Err(fault),
    };
    let manifest = match read_file(alloc, disk, files.set) {
        Ok(manifest) => manifest,
        Err(fault) => return Err(fault),
    };
    match read_file(alloc, disk, files.script) {
        Ok(script) => Ok(Given {
            source,
            manifest,
            script,
        }),
        Err(fault) => Err(fault),
    }
}

/// Reads the files that the command line of `run` names: those of a run, and then the state that it begins with, if it names
/// one.
pub fn read_played<'a, D: FileSystem>(
    alloc: Global,
    disk: &D,
    files: &PlayFiles<'a>,
) -> Result<(Given, Option<Vec<u8>>), ReadFault<'a>>
    ensures { ReadsFiles
        (λ read. HasGivenFiles (D.finds disk.now) (told_run files.now.run) read.0
        × HasIfNamed (D.finds disk.now) (told_play files.now).load read.1)
        (FirstUnread (D.finds disk.now) (played_files (told_play files.now))) result }
{
    let run = match read_given(alloc, disk, &files.run) {
        Ok(run) => run,
        Err(fault) => return Err(fault),
    };
    match read_if_named(alloc, disk, files.load) {
        Ok(state) => Ok((run, state)),
        Err(fault) => Err(fault),
    }
}

/// Reads the files that the command line of a run under a debugger names: those of a run, and then the commands.
pub fn read_watched<'a, D: FileSystem>(
    alloc: Global,
    disk: &D,
    files: &DebugFiles<'a>,
) -> Result<(Given, Vec<u8>), ReadFault<'a>>
    ensures { ReadsFiles
        (λ read. HasGivenFiles (D.finds disk.now) (told_run files.now.run) read.0
        × (D.finds disk.now).bytes Any files.now.commands.now (Some read.1.items))
        (FirstUnread (D.finds disk.now) (watched_files (told_debug files.now))) result }
{
    let given = match read_given(alloc, disk, &files.run) {
        Ok(given) => given,
        Err(fault) => return Err(fault),
    };
    match read_file(alloc, disk, files.commands) {
        Ok(commands) => Ok((given, commands)),
        Err(fault) => Err(fault),
    }
}
