//! The files of the machine that the program runs on.

ghost use Rattle.pac_out.specs.Laws.{appends-nothing, appends-joined};
ghost use Rattle.pac_run_files.specs.Files.{found_on_machine, nothing_known};

use crate::drafts::{DRAFT_ENDINGS, draft_name, joined_path};
use crate::files::{FileKind, FileSystem, ReadError, read_whole};
use crate::parts::folder_of;
use pac_out::through::Through;
use pac_out::{Failed, Out, WriteFault};
use std::alloc::{AllocError, Global};
use std::fs::{OpenFile, Permissions};
use std::io::ErrorKind;
use std::rt::Files;
use std::{fs, io};

/// A file of the machine that is written.
#[derive(Drop)]
pub struct HostFile<F> {
    /// The file.
    pub through: Through<F>,
    /// The bytes that it took, exact below 2^64.
    pub count: u64,
    /// What a draft's name has after its path; none where the file of the path itself is written.
    pub ending: Option<&'static str>,
}

impl<F: io::Write> Out for HostFile<F> {
    ghost took = { λ old bytes new. ⟦<Through<F> as Out>⟧.took old.through bytes new.through };

    ghost refused = { λ old new. ⟦<Through<F> as Out>⟧.refused old.through new.through };

    ghost nothing = { λ file. appends-nothing (F.contents file.through.inner) };

    ghost joined = { λ first second third.
        appends-joined (F.contents first.through.inner) (F.contents second.through.inner) (F.contents third.through.inner) };

    /// Writes to the file.
    fn write(&mut self, bytes: &[u8]) -> Result<usize, Failed> {
        let taken = self.through.write(bytes)?;
        self.count = self.count.saturating_add(taken as u64);
        Ok(taken)
    }
}

/// The files of the machine that the program runs on. No contract says what they hold.
#[derive(Clone, Copy)]
pub struct HostFiles<'a, R> {
    /// The program's runtime.
    pub rt: &'a R,
}

impl<R: Files> FileSystem for HostFiles<'_, R> {
    type File = HostFile<R::File>;

    ghost finds = { λ files. found_on_machine R.File.remaining };

    ghost handling = { nothing_known };

    /// Opens the file and reads it whole. Only a plain file is opened where one is wanted: the opening of a pipe may wait for
    /// a writer.
    fn read(&self, alloc: Global, kind: FileKind, path: &str) -> Result<Vec<u8>, ReadError> {
        if !is_of_kind(self.rt, kind, path) {
            return Err(ReadError::Unreadable);
        }
        match fs::open(self.rt, path) {
            Ok(file) => read_whole(alloc, file),
            Err(_) => Err(ReadError::Unreadable),
        }
    }

    /// Looks at the name itself, which isn't followed.
    fn link(&self, alloc: Global, folder: &str, name: &str) -> Result<Option<String>, AllocError> {
        let Some(path) = joined_path(folder, name) else {
            return Ok(Some(String::new(alloc)));
        };
        match fs::symlink_metadata(self.rt, path.as_str()) {
            Ok(found) if found.is_symlink() => link_text(alloc, self.rt, path.as_str()),
            Ok(_) => Ok(None),
            Err(_) => Ok(Some(String::new(alloc))),
        }
    }

    /// Creates the file, or empties it.
    fn create(&mut self, path: &str) -> Option<HostFile<R::File>> {
        match fs::create(self.rt, path) {
            Ok(inner) => Some(HostFile {
                through: Through { inner },
                count: 0,
                ending: None,
            }),
            Err(_) => None,
        }
    }

    /// Drops the file, which closes it.
    fn close(&mut self, file: HostFile<R::File>) {
        drop(file);
    }

    /// Where a plain file stands at the path, or nothing, the draft is a new file beside it. What is no plain file, as a device, a pipe or
    /// a link, keeps its place, and is written itself.
    fn draft(&mut self, path: &str) -> Option<HostFile<R::File>> {
        match fs::symlink_metadata(self.rt, path) {
            Ok(found) if found.is_file() => begin_beside(self.rt, path, Some(found.permissions())),
            Ok(_) => self.create(path),
            Err(error) if error.kind() == ErrorKind::NotFound => begin_beside(self.rt, path, None),
            Err(_) => None,
        }
    }

    /// Has the system write the draft out: what a close would tell comes up here.
    fn sync(&mut self, draft: &HostFile<R::File>) -> Result<(), WriteFault> {
        if is_written_out(&draft.through.inner) {
            return Ok(());
        }
        Err(WriteFault { count: draft.count })
    }

    /// Drops the draft, which closes it, and gives it the path's name, in the place of the file that had it, if one did.
    fn publish(&mut self, path: &str, draft: HostFile<R::File>) -> Result<(), WriteFault> {
        let HostFile {
            through,
            count,
            ending,
        } = draft;
        drop(through);
        match ending {
            Some(ending) if !takes_place(self.rt, path, ending) => Err(WriteFault { count }),
            _ => Ok(()),
        }
    }

    /// Drops the draft and removes its file; what is no plain file is left as it is.
    fn discard(&mut self, path: &str, draft: HostFile<R::File>) {
        let HostFile {
            through,
            count: _,
            ending,
        } = draft;
        drop(through);
        if let Some(ending) = ending {
            remove_draft(self.rt, path, ending);
        }
    }
}

/// The text of a link; none in it where it can't be had.
fn link_text<R: Files>(alloc: Global, rt: &R, path: &str) -> Result<Option<String>, AllocError> {
    match rt.read_link(alloc, path) {
        Ok(text) => Ok(Some(text.into_string())),
        Err(error) if error.kind() == ErrorKind::OutOfMemory => Err(AllocError),
        Err(_) => Ok(Some(String::new(alloc))),
    }
}

/// Whether what stands at a path is of this kind.
fn is_of_kind<R: Files>(rt: &R, kind: FileKind, path: &str) -> bool {
    match kind {
        FileKind::Any => true,
        FileKind::Plain => match fs::metadata(rt, path) {
            Ok(found) => found.is_file(),
            Err(_) => false,
        },
    }
}

/// Begins a draft beside the file of a path, with the permissions of that file, if there is one, as far as the system gives them. A draft
/// that another run left behind, or that another run is writing, stays as it is, and the next name is taken.
fn begin_beside<R: Files>(
    rt: &R,
    path: &str,
    permissions: Option<Permissions>,
) -> Option<HostFile<R::File>> {
    for ending in DRAFT_ENDINGS {
        let name = draft_name(path, ending)?;
        match fs::File::create_new(rt, name.as_str()) {
            Ok(inner) => {
                if let Some(permissions) = permissions {
                    let _ = inner.set_permissions(permissions);
                }
                return Some(HostFile {
                    through: Through { inner },
                    count: 0,
                    ending: Some(ending),
                });
            }
            Err(error) if error.kind() == ErrorKind::AlreadyExists => {}
            Err(_) => return None,
        }
    }
    None
}

/// Has the system write a file out, and answers whether it did. What can't be written out, as a pipe, has nothing to be written out.
fn is_written_out<F: OpenFile>(file: &F) -> bool {
    match file.sync_all() {
        Ok(()) => true,
        Err(error) => error.kind() == ErrorKind::InvalidInput,
    }
}

/// Gives a draft the name of its path, and answers whether it has it. Where it can't have it the draft is removed.
fn takes_place<R: Files>(rt: &R, path: &str, ending: &'static str) -> bool {
    let Some(name) = draft_name(path, ending) else {
        return false;
    };
    if fs::rename(rt, name.as_str(), path).is_err() {
        remove_draft(rt, path, ending);
        return false;
    }
    write_folder_out(rt, path);
    true
}

/// Has the system write out the folder of a path, where the names of its files are. The file is whole under either name, so it changes
/// nothing where that can't be.
fn write_folder_out<R: Files>(rt: &R, path: &str) {
    let folder = match folder_of(path) {
        "" => "/",
        folder => folder,
    };
    if let Ok(folder) = fs::open(rt, folder) {
        let _ = folder.sync_all();
    }
}

/// Removes a draft.
fn remove_draft<R: Files>(rt: &R, path: &str, ending: &'static str) {
    if let Some(name) = draft_name(path, ending) {
        let _ = fs::remove_file(rt, name.as_str());
    }
}
