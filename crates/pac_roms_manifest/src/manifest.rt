//! What a manifest says of each part of a ROM set.

ghost use Rattle.std.specs.Prelude.{◌≡◌, IfOk, map, filter_map, option_copied, option_map};
ghost use Rattle.std.specs.Prelude.{string_bytes};
ghost use Rattle.pac_roms_manifest.specs.Manifests.{program_rom, entry_of_part, file_of_part};
ghost use Rattle.pac_roms_manifest.specs.Manifests.{digest_of_part};
ghost use Rattle.pac_roms_manifest.specs.Parts.{parts_in_order};

use crate::part::PartName;
use std::alloc::{AllocError, Global};
use std::marker::Model;

/// What the table of a part says. Clauses see the bytes of the file's name, and those of the digest.
pub struct PartEntry {
    file: Option<String>,
    digest: Option<[u8; 20]>,
}

impl Drop for PartEntry {
    /// Drops each part: one call for a check to follow wherever an entry is dropped.
    fn drop(self) {
        let PartEntry { file: _, digest: _ } = self;
    }
}

impl Model for PartEntry {
    ghost use Rattle.pac_roms_manifest.specs.Entries.{PlainEntry};
    ghost use Rattle.pac_roms_manifest.specs.EntriesProofs.{bytes_of_text};

    ghost Value = { PlainEntry };

    ghost view = { λ entry. record { file = bytes_of_text entry.file; digest = entry.digest } };
}

/// What a manifest says: an entry for each part that it has a table for.
pub struct Manifest {
    /// The four ROMs of the program, lowest addresses first.
    pub program: Option<[PartEntry; 4]>,
    /// The tile ROM.
    pub tiles: Option<PartEntry>,
    /// The sprite ROM.
    pub sprites: Option<PartEntry>,
    /// The colour PROM.
    pub colours: Option<PartEntry>,
    /// The lookup PROM.
    pub lookup: Option<PartEntry>,
    /// The wave PROM.
    pub wave: Option<PartEntry>,
    /// The timing PROM.
    pub timing: Option<PartEntry>,
}

impl Drop for Manifest {
    /// Drops each entry: one call for a check to follow wherever a manifest is dropped.
    fn drop(self) {
        let Manifest {
            program: _,
            tiles: _,
            sprites: _,
            colours: _,
            lookup: _,
            wave: _,
            timing: _,
        } = self;
    }
}

impl PartEntry {
    /// An entry of a file's name and a digest, where they are given.
    pub fn new(file: Option<String>, digest: Option<[u8; 20]>) -> PartEntry
        ensures file { result.file ≡ option_map string_bytes file }
        ensures digest { result.digest ≡ digest }
    {
        PartEntry { file, digest }
    }

    /// The name of the part's file, if it is given.
    pub fn file(&self) -> Option<&str>
        ensures { option_copied result ≡ self.now.file }
    {
        match &self.file {
            Some(name) => Some(name.as_str()),
            None => None,
        }
    }

    /// The SHA-1 digest of the part's file, if it is given.
    pub fn digest(&self) -> Option<[u8; 20]>
        ensures { result ≡ self.now.digest }
    {
        self.digest
    }
}

impl Manifest {
    /// What the manifest says of a part, if it has a table for it.
    pub fn entry(&self, part: PartName) -> Option<&PartEntry>
        ensures { option_copied result ≡ entry_of_part self.now part }
    {
        match part {
            PartName::Program1 => self.rom(0),
            PartName::Program2 => self.rom(1),
            PartName::Program3 => self.rom(2),
            PartName::Program4 => self.rom(3),
            PartName::Tiles => self.tiles.as_ref(),
            PartName::Sprites => self.sprites.as_ref(),
            PartName::Colours => self.colours.as_ref(),
            PartName::Lookup => self.lookup.as_ref(),
            PartName::Wave => self.wave.as_ref(),
            PartName::Timing => self.timing.as_ref(),
        }
    }

    /// What the manifest says of the n-th ROM of the program, from 0.
    fn rom(&self, n: usize) -> Option<&PartEntry>
        ensures { option_copied result ≡ program_rom self.now n }
    {
        match &self.program {
            Some(roms) => roms.get(n),
            None => None,
        }
    }

    /// The name of a part's file, if it is given.
    pub fn file(&self, part: PartName) -> Option<&str>
        ensures { option_copied result ≡ file_of_part self.now part }
    {
        match self.entry(part) {
            Some(entry) => entry.file(),
            None => None,
        }
    }

    /// The SHA-1 digest of a part's file, if it is given.
    pub fn digest(&self, part: PartName) -> Option<[u8; 20]>
        ensures { result ≡ digest_of_part self.now part }
    {
        match self.entry(part) {
            Some(entry) => entry.digest(),
            None => None,
        }
    }

    /// The names of all files that it gives, in the order of the parts: those that have to be read for its set.
    pub fn files(&self, alloc: Global) -> Result<Vec<&str>, AllocError>
        ensures { IfOk result (λ names. map (λ name. name.now) names.items
            ≡ filter_map (file_of_part self.now) parts_in_order) }
    {
        let mut names = Vec::new(alloc);
        for part in PartName::ALL {
            if let Some(name) = self.file(part) {
                names.push(name)?;
            }
        }
        Ok(names)
    }
}
