//! The files that a manifest names, as they are read.

ghost use Rattle.std.specs.Prelude.{◌≡◌, IfOk, Some, map};
ghost use Rattle.std.specs.Result.{result_ok};
ghost use Rattle.pac_roms_manifest.specs.Manifests.{manifest_of};
ghost use Rattle.pac_run_files.specs.Files.{FirstUnread, IsUnread, MayFind, folder_of, standing_by};
ghost use Rattle.pac_run_files.specs.Read.{HasParts, IsPart, manifest_part_names, part_files};
ghost use Rattle.pac_run_files.specs.Read.{told_file, told_part};
ghost use Rattle.pac_run_files.specs.ReadProofs.{ReadsFiles};

use crate::files::{FileKind, FileSystem};
use crate::given::{ReadFault, read_path};
use crate::links::lead;
use crate::names::is_within;
use pac_roms_manifest::{Manifest, Part, SetError, read_manifest};
use std::alloc::{AllocError, Global};

/// A file whose name the manifest gives, as it was read.
#[derive(Drop)]
pub struct NamedFile {
    /// The name.
    pub name: String,
    /// What is in it.
    pub bytes: Vec<u8>,
}

/// The manifest, where it has none of the faults that keep its parts from being read. Refused for want of memory alone.
pub fn manifest_in(alloc: Global, bytes: &[u8]) -> Result<Option<Manifest>, AllocError>
    ensures { IfOk result (λ manifest. manifest ≡ result_ok (manifest_of bytes.now)) }
{
    match read_manifest(alloc, bytes) {
        Ok(manifest) => Ok(Some(manifest)),
        Err(SetError::Fault(_)) => Ok(None),
        Err(SetError::Memory) => Err(AllocError),
    }
}

/// The folder of a file: its path up to the last slash, or the present folder.
pub(crate) fn folder_of(path: &str) -> &str
    ensures { result.now ≡ folder_of path.now }
{
    match path.rsplit_once('/') {
        Some((folder, _)) => folder,
        None => ".",
    }
}

/// Reads the bytes of a plain file that a manifest names.
fn read_bytes<'a, D: FileSystem>(
    alloc: Global,
    disk: &D,
    set: &str,
    name: &'a str,
) -> Result<Vec<u8>, ReadFault<'a>>
    ensures { ReadsFiles (λ bytes. MayFind (D.finds disk.now) (standing_by set.now name.now)
        (Some bytes.items)) (IsUnread (D.finds disk.now) (standing_by set.now name.now)) result }
{
    if !is_within(name) {
        return Err(ReadFault::Unreadable(name));
    }
    match lead(alloc, disk, folder_of(set), name) {
        Ok(Some(path)) => read_path(alloc, disk, FileKind::Plain, path.as_str(), name),
        Ok(None) => Err(ReadFault::Unreadable(name)),
        Err(_) => Err(ReadFault::Memory),
    }
}

/// Reads a plain file that a manifest names.
fn read_part<'a, D: FileSystem>(
    alloc: Global,
    disk: &D,
    set: &str,
    name: &'a str,
) -> Result<NamedFile, ReadFault<'a>>
    ensures { ReadsFiles (IsPart (D.finds disk.now) set.now name.now)
        (IsUnread (D.finds disk.now) (standing_by set.now name.now)) result }
{
    let bytes = read_bytes(alloc, disk, set, name)?;
    match String::from_str(alloc, name) {
        Ok(name) => Ok(NamedFile { name, bytes }),
        Err(_) => Err(ReadFault::Memory),
    }
}

/// Reads the files of these names, in order, which stand in the manifest's folder.
fn read_all<'a, D: FileSystem>(
    alloc: Global,
    disk: &D,
    set: &str,
    names: &[&'a str],
) -> Result<Vec<NamedFile>, ReadFault<'a>>
    ensures { ReadsFiles (λ parts. HasParts (D.finds disk.now) set.now
        (map (λ name. name.now) names.now) parts.items)
        (FirstUnread (D.finds disk.now) (part_files set.now (map (λ name. name.now) names.now)))
        result }
{
    let mut parts = Vec::new(alloc);
    for name in names {
        let part = match read_part(alloc, disk, set, name) {
            Ok(part) => part,
            Err(fault) => return Err(fault),
        };
        if parts.push(part).is_err() {
            return Err(ReadFault::Memory);
        }
    }
    Ok(parts)
}

/// Reads the files of a manifest's parts, in the order of the parts; none where there is no manifest.
pub fn read_parts<'a, D: FileSystem>(
    alloc: Global,
    disk: &D,
    set: &str,
    manifest: &'a Option<Manifest>,
) -> Result<Vec<NamedFile>, ReadFault<'a>>
    ensures { ReadsFiles (λ parts. HasParts (D.finds disk.now) set.now
        (manifest_part_names manifest.now) parts.items)
        (FirstUnread (D.finds disk.now) (part_files set.now (manifest_part_names manifest.now)))
        result }
{
    let Some(manifest) = manifest else {
        return Ok(Vec::new(alloc));
    };
    match manifest.files(alloc) {
        Ok(names) => read_all(alloc, disk, set, &names),
        Err(_) => Err(ReadFault::Memory),
    }
}

/// The files that the manifest names, as parts.
pub fn parts_of<'a>(alloc: Global, named: &'a [NamedFile]) -> Result<Vec<Part<'a>>, AllocError>
    ensures { IfOk result (λ parts. map told_part parts.items ≡ map told_file named.now) }
{
    let mut parts = Vec::new(alloc);
    for NamedFile { name, bytes } in named {
        parts.push(Part { name, bytes })?;
    }
    Ok(parts)
}
