//! A ROM set from its manifest and files.

ghost use Rattle.std.specs.Prelude.{◌≡◌, IfSome, length, option_copied, IfOk};
ghost use Rattle.pac_roms.specs.Parts.{program_size};
ghost use Rattle.pac_roms_manifest.specs.Manifests.{entry_of_part};
ghost use Rattle.pac_roms_manifest.specs.Results.{SetGives, FindsFault, filled};
ghost use Rattle.pac_roms_manifest.specs.Parts.{parts_in_order};
ghost use Rattle.pac_roms_manifest.specs.Sets.{first_answer, needs_table, is_unnamed};
ghost use Rattle.pac_roms_manifest.specs.Sets.{unnamed_fault, two_programs_fault, digest_differs};
ghost use Rattle.pac_roms_manifest.specs.Sets.{code_of_part, fault_at, file_fault, bytes_named};
ghost use Rattle.pac_roms_manifest.specs.Sets.{fault_of_set};
ghost use Rattle.pac_roms_manifest.specs.declared.part.PartName.TheVariants as name;
ghost use Rattle.pac_roms_manifest.specs.Sets.{rom_part_bytes, program_bytes, set_of, digest_of};

use crate::fault::{ManifestCode, SetError, SetFault};
use crate::manifest::Manifest;
use crate::part::{Part, PartName};
use pac_roms::{Raw, RomSet};
use sha1::Sha1;
use std::alloc::{AllocError, Global};

/// The ROM set of a manifest, where its files are handed in and, where a source is assembled, the 16,384 bytes of its
/// program. The first fault is told, in this order: M2 over all parts; M6; then part by part M5, M3, M4. Of several
/// files of one name the first counts. The timing PROM is looked at like the others and not used.
pub fn load_set(
    alloc: Global,
    manifest: &Manifest,
    files: &[Part<'_>],
    assembled: Option<&[u8]>,
) -> Result<RomSet, SetError>
    requires { IfSome assembled (λ rom. length rom.now ≡ program_size) }
    ensures { SetGives result (set_of manifest.now files.now (option_copied assembled.entry)) }
{
    let mut set = RomSet::zeroed();
    match load_set_into(alloc, manifest, files, assembled, &mut set) {
        Ok(()) => Ok(set),
        Err(error) => Err(error),
    }
}

/// The same set, put over one that is there, so that it isn't moved.
#[tactic(auto, unfolding(crate::specs::Sets::set_of), using(crate::proofs::Sizes::same_test))]
pub fn load_set_into(
    alloc: Global,
    manifest: &Manifest,
    files: &[Part<'_>],
    assembled: Option<&[u8]>,
    set: &mut RomSet,
) -> Result<(), SetError>
    requires { IfSome assembled (λ rom. length rom.now ≡ program_size) }
    ensures { SetGives (filled result set.new)
        (set_of manifest.now files.now (option_copied assembled.entry)) }
{
    check(manifest, files, assembled.is_some())?;
    let program = program(alloc, manifest, files, assembled)?;
    set.put(&program, &raw(manifest, files));
    Ok(())
}

/// The SHA-1 digest of a set: that of program, tiles, sprites, colours, lookup and wave, one after another.
pub fn digest(set: &RomSet) -> [u8; 20]
    ensures { result ≡ digest_of set.now }
{
    let mut hasher = Sha1::new();
    hasher.update(set.program());
    hasher.update(set.tiles());
    hasher.update(set.sprites());
    hasher.update(set.colours());
    hasher.update(set.lookup());
    hasher.update(set.wave());
    hasher.finalize()
}

/// The first fault of a set, where a source is assembled or isn't.
fn check(manifest: &Manifest, files: &[Part<'_>], assembled: bool) -> Result<(), SetFault>
    ensures { FindsFault result (fault_of_set manifest.now files.now assembled) }
{
    check_names(manifest, assembled)?;
    check_programs(manifest, assembled)?;
    check_files(manifest, files)
}

/// M2, where a part that has to be there has no table, or its table no file.
fn check_names(manifest: &Manifest, assembled: bool) -> Result<(), SetFault>
    ensures { FindsFault result (first_answer
        (unnamed_fault manifest.now assembled) parts_in_order) }
{
    for part in PartName::ALL {
        if is_unnamed(manifest, assembled, part) {
            return Err(fault_at(part, ManifestCode::Unnamed));
        }
    }
    Ok(())
}

/// Whether there is no table for a part, where there has to be one, or a table that names no file.
fn is_unnamed(manifest: &Manifest, assembled: bool, part: PartName) -> bool
    ensures { result ≡ is_unnamed assembled part (entry_of_part manifest.now part) }
{
    match manifest.entry(part) {
        Some(entry) => entry.file().is_none(),
        None => needs(assembled, part),
    }
}

/// Whether there has to be a table for a part.
fn needs(assembled: bool, part: PartName) -> bool
    ensures { result ≡ needs_table assembled part }
{
    match part {
        PartName::Program1 | PartName::Program2 | PartName::Program3 | PartName::Program4 =>
            !assembled,
        PartName::Timing => false,
        _ => true,
    }
}

/// M6, where the manifest has a program and a source is assembled too.
fn check_programs(manifest: &Manifest, assembled: bool) -> Result<(), SetFault>
    ensures { FindsFault result (two_programs_fault manifest.now assembled) }
{
    if assembled && manifest.program.is_some() {
        return Err(SetFault {
            code: ManifestCode::TwoPrograms,
            part: None,
        });
    }
    Ok(())
}

/// The first of M5, M3 and M4, part by part.
fn check_files(manifest: &Manifest, files: &[Part<'_>]) -> Result<(), SetFault>
    ensures { FindsFault result (first_answer (file_fault manifest.now files.now) parts_in_order) }
{
    for part in PartName::ALL {
        check_file(manifest, files, part)?;
    }
    Ok(())
}

/// M5, M3 or M4 of a part's file, if the manifest names one.
fn check_file(manifest: &Manifest, files: &[Part<'_>], part: PartName) -> Result<(), SetFault>
    ensures { FindsFault result (file_fault manifest.now files.now part) }
{
    let Some(name) = manifest.file(part) else {
        return Ok(());
    };
    match code_of(part, manifest.digest(part), bytes_named(files, name)) {
        Some(code) => Err(fault_at(part, code)),
        None => Ok(()),
    }
}

/// What is wrong with the file of a part, if there is one.
fn code_of(part: PartName, digest: Option<[u8; 20]>, bytes: Option<&[u8]>) -> Option<ManifestCode>
    ensures { result ≡ code_of_part part digest (option_copied bytes.entry) }
{
    let Some(bytes) = bytes else {
        return Some(ManifestCode::Absent);
    };
    if bytes.len() != part.size() {
        return Some(ManifestCode::Size);
    }
    if differs(digest, bytes) {
        return Some(ManifestCode::Digest);
    }
    None
}

/// Whether the bytes have another digest than this one, if there is one.
fn differs(digest: Option<[u8; 20]>, bytes: &[u8]) -> bool
    ensures { result ≡ digest_differs digest bytes.now }
{
    match digest {
        Some(digest) => Sha1::digest(bytes) != digest,
        None => false,
    }
}

/// A fault of a part.
fn fault_at(part: PartName, code: ManifestCode) -> SetFault
    ensures { result ≡ fault_at part code }
{
    SetFault {
        code,
        part: Some(part),
    }
}

/// The bytes of the first file of a name.
fn bytes_named<'a>(files: &[Part<'a>], name: &str) -> Option<&'a [u8]>
    ensures { option_copied result ≡ bytes_named files.now name.now }
{
    files
        .iter()
        .find(|file| file.is_named(name))
        .map(|file| file.bytes)
}

/// The bytes of a part, none where its file isn't there.
#[tactic(auto, unfolding(crate::specs::Sets::rom_part_bytes))]
fn bytes<'a>(manifest: &Manifest, files: &[Part<'a>], part: PartName) -> &'a [u8]
    ensures { result.now ≡ rom_part_bytes manifest.now files.now part }
{
    let Some(name) = manifest.file(part) else {
        return &[];
    };
    match bytes_named(files, name) {
        Some(bytes) => bytes,
        None => &[],
    }
}

/// The parts of a set beside its program, as its files have them.
fn raw<'a>(manifest: &Manifest, files: &[Part<'a>]) -> Raw<'a>
    ensures tiles { result.tiles.now ≡ rom_part_bytes manifest.now files.now name.Tiles }
    ensures sprites { result.sprites.now ≡ rom_part_bytes manifest.now files.now name.Sprites }
    ensures colours { result.colours.now ≡ rom_part_bytes manifest.now files.now name.Colours }
    ensures lookup { result.lookup.now ≡ rom_part_bytes manifest.now files.now name.Lookup }
    ensures wave { result.wave.now ≡ rom_part_bytes manifest.now files.now name.Wave }
{
    Raw {
        tiles: bytes(manifest, files, PartName::Tiles),
        sprites: bytes(manifest, files, PartName::Sprites),
        colours: bytes(manifest, files, PartName::Colours),
        lookup: bytes(manifest, files, PartName::Lookup),
        wave: bytes(manifest, files, PartName::Wave),
    }
}

/// The program: that of the source, or else the four ROMs one after another.
fn program(
    alloc: Global,
    manifest: &Manifest,
    files: &[Part<'_>],
    assembled: Option<&[u8]>,
) -> Result<Vec<u8>, AllocError>
    ensures { IfOk result (λ rom. rom.items ≡ program_bytes manifest.now files.now
        (option_copied assembled.entry)) }
{
    if let Some(rom) = assembled {
        return Vec::from_slice(alloc, rom);
    }
    let mut rom = Vec::from_slice(alloc, bytes(manifest, files, PartName::Program1))?;
    rom.extend_from_slice(bytes(manifest, files, PartName::Program2))?;
    rom.extend_from_slice(bytes(manifest, files, PartName::Program3))?;
    rom.extend_from_slice(bytes(manifest, files, PartName::Program4))?;
    Ok(rom)
}
