//! What a run is given.

use pac_roms_manifest::Part;

/// What a run is given: bytes, as they were read.
#[derive(Clone, Copy)]
pub struct RunInputs<'a> {
    /// The source, if the program isn't in the ROM set.
    pub source: Option<&'a [u8]>,
    /// The ROM set's manifest, a TOML document.
    pub manifest: &'a [u8],
    /// The files that it names.
    pub parts: &'a [Part<'a>],
    /// The byte that the DIP switches give.
    pub dip: u8,
    /// The script of frames and held inputs.
    pub script: &'a [u8],
}
