//! The parts of a ROM set, and the files that they are in.

ghost use Rattle.std.specs.Prelude.{◌≡◌, Some};
ghost use Rattle.pac_roms_manifest.specs.Parts.{part_name_text, rom_part_size, parts_in_order};
ghost use Rattle.pac_roms_manifest.specs.Parts.{is_named};

use std::fmt;

/// A file of a ROM set.
#[derive(Clone, Copy)]
pub struct Part<'a> {
    /// Its name, as the manifest gives it.
    pub name: &'a str,
    /// What is in it.
    pub bytes: &'a [u8],
}

/// The parts of a ROM set. Each is printed as the manifest's table for it is called, those of the program as
/// `program1` to `program4`.
#[derive(Clone, Copy, Debug, PartialEq, Eq)]
pub enum PartName {
    /// The first ROM of the program, from address 0000H on.
    Program1,
    /// The second, from 1000H on.
    Program2,
    /// The third, from 2000H on.
    Program3,
    /// The fourth, from 3000H on.
    Program4,
    /// The tile ROM.
    Tiles,
    /// The sprite ROM.
    Sprites,
    /// The colour PROM.
    Colours,
    /// The lookup PROM.
    Lookup,
    /// The wave PROM.
    Wave,
    /// The timing PROM, which a set may have and which isn't used.
    Timing,
}

impl Part<'_> {
    /// Whether the file has this name.
    pub(crate) fn is_named(&self, name: &str) -> bool
        ensures { result ≡ is_named name.now self.now }
    {
        self.name == name
    }
}

impl PartName {
    /// All parts, in the order in which their files are read and their faults told.
    pub const ALL: [PartName; 10] = [
        PartName::Program1,
        PartName::Program2,
        PartName::Program3,
        PartName::Program4,
        PartName::Tiles,
        PartName::Sprites,
        PartName::Colours,
        PartName::Lookup,
        PartName::Wave,
        PartName::Timing,
    ];

    /// The name as it is printed.
    pub fn as_str(self) -> &'static str
        ensures { result.now ≡ part_name_text self }
    {
        match self {
            PartName::Program1 => "program1",
            PartName::Program2 => "program2",
            PartName::Program3 => "program3",
            PartName::Program4 => "program4",
            PartName::Tiles => "tiles",
            PartName::Sprites => "sprites",
            PartName::Colours => "colours",
            PartName::Lookup => "lookup",
            PartName::Wave => "wave",
            PartName::Timing => "timing",
        }
    }

    /// How many bytes the part's file has.
    pub fn size(self) -> usize
        ensures { result ≡ rom_part_size self }
    {
        match self {
            PartName::Program1
            | PartName::Program2
            | PartName::Program3
            | PartName::Program4
            | PartName::Tiles
            | PartName::Sprites => 4096,
            PartName::Colours => 32,
            PartName::Lookup | PartName::Wave | PartName::Timing => 256,
        }
    }
}

impl fmt::Display for PartName {
    ghost output = { λ name. Some (part_name_text name) };

    /// The name as it is printed.
    fn fmt<W: fmt::Write>(&self, f: &mut fmt::Formatter<W>) -> fmt::Result {
        f.write_str(self.as_str())
    }
}
