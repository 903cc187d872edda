//! A manifest from its text.

ghost use Rattle.std.specs.Prelude.{◌≡◌, Some, codes, option_map};
ghost use Rattle.toml.specs.Data.{array, get_member, as_str};
ghost use Rattle.toml.specs.View.{view, items_view, table_view};
ghost use Rattle.pac_roms_manifest.specs.declared.reading.Misread.TheVariants as misread;
ghost use Rattle.pac_roms_manifest.specs.Manifests.{optional, digest_form, entry_form};
ghost use Rattle.pac_roms_manifest.specs.Manifests.{program_form, table_form};
ghost use Rattle.pac_roms_manifest.specs.Manifests.{manifest_form, document_table, manifest_of};
ghost use Rattle.pac_roms_manifest.specs.EntriesProofs.{bytes_of_text};
ghost use Rattle.pac_roms_manifest.specs.Results.{SetGives, ReadsValue, ReadsAs, error_of_misread};

use crate::fault::{ManifestCode, SetError, SetFault};
use crate::manifest::{Manifest, PartEntry};
use crate::part::PartName;
use hex::FromHex;
use std::alloc::{AllocError, Global};
use toml::{Table, Value};

/// Why something isn't read as what it is to be.
#[derive(Clone, Copy)]
pub(crate) enum Misread {
    /// Memory ran out.
    Memory,
    /// It has another form.
    Form,
}

impl From<AllocError> for Misread {
    ghost from_gives = { λ _ e. e ≡ misread.Memory };

    /// A refused allocation is want of memory.
    fn from(_error: AllocError) -> Misread {
        Misread::Memory
    }
}

impl From<Misread> for SetError {
    ghost from_gives = { λ e told. told ≡ error_of_misread e };

    /// Another form is M1.
    fn from(error: Misread) -> SetError {
        match error {
            Misread::Memory => SetError::Memory,
            Misread::Form => SetError::Fault(SetFault {
                code: ManifestCode::Manifest,
                part: None,
            }),
        }
    }
}

/// The manifest that a text is: a TOML document with the tables `tiles`, `sprites`, `colours`, `lookup`, `wave` and
/// `timing` and the array `program` of four tables, as far as it has them. In each table `file` is a text and `sha1`
/// 40 hexadecimal digits in either case, as far as they are there. Other keys say nothing. The one fault is M1.
#[tactic(auto, unfolding(crate::specs::Manifests::manifest_of))]
pub fn read_manifest(alloc: Global, text: &[u8]) -> Result<Manifest, SetError>
    ensures { SetGives result (manifest_of text.now) }
{
    let table = tree(alloc, text)?;
    Ok(manifest(alloc, &table)?)
}

/// The table that a TOML document is.
#[tactic(auto, using(crate::proofs::Trees::tree_found, crate::proofs::Trees::no_tree))]
fn tree(alloc: Global, text: &[u8]) -> Result<Table, Misread>
    ensures { ReadsAs table_view result (document_table text.now) }
{
    match toml::table_from_slice(alloc, text) {
        Ok(table) => Ok(table),
        Err(error) if error.is_memory() => Err(Misread::Memory),
        Err(_) => Err(Misread::Form),
    }
}

/// The manifest that a table is.
fn manifest(alloc: Global, table: &Table) -> Result<Manifest, Misread>
    ensures { ReadsValue result (manifest_form (table_view table.now)) }
{
    Ok(Manifest {
        program: program(alloc, table)?,
        tiles: part(alloc, table, PartName::Tiles)?,
        sprites: part(alloc, table, PartName::Sprites)?,
        colours: part(alloc, table, PartName::Colours)?,
        lookup: part(alloc, table, PartName::Lookup)?,
        wave: part(alloc, table, PartName::Wave)?,
        timing: part(alloc, table, PartName::Timing)?,
    })
}

/// The entries of the program's ROMs, if the table has them.
fn program(alloc: Global, table: &Table) -> Result<Option<[PartEntry; 4]>, Misread>
    ensures { ReadsValue result (optional program_form
        (get_member (codes "program") (table_view table.now))) }
{
    match member(table, "program") {
        Some(value) => Ok(Some(roms(alloc, value)?)),
        None => Ok(None),
    }
}

/// The entries of the program's ROMs, in an array of four tables.
fn roms(alloc: Global, value: &Value) -> Result<[PartEntry; 4], Misread>
    ensures { ReadsValue result (program_form (view value.now)) }
{
    let Some(tables) = value.as_array() else {
        return Err(Misread::Form);
    };
    four(alloc, tables)
}

/// The entries of four tables.
#[tactic(auto, using(crate::proofs::Tables::other_count))]
fn four(alloc: Global, tables: &[Value]) -> Result<[PartEntry; 4], Misread>
    ensures { ReadsValue result (program_form (array (items_view tables.now))) }
{
    let [first, second, third, fourth] = tables else {
        return Err(Misread::Form);
    };
    Ok([
        entry(alloc, first)?,
        entry(alloc, second)?,
        entry(alloc, third)?,
        entry(alloc, fourth)?,
    ])
}

/// The entry of a part, if there is a table for it.
fn part(alloc: Global, table: &Table, part: PartName) -> Result<Option<PartEntry>, Misread>
    ensures { ReadsValue result (table_form (table_view table.now) part) }
{
    match member(table, part.as_str()) {
        Some(value) => Ok(Some(entry(alloc, value)?)),
        None => Ok(None),
    }
}

/// The entry that a table is.
fn entry(alloc: Global, value: &Value) -> Result<PartEntry, Misread>
    ensures { ReadsValue result (entry_form (view value.now)) }
{
    let Some(table) = value.as_table() else {
        return Err(Misread::Form);
    };
    let file = file(alloc, table)?;
    let digest = sha1(table)?;
    Ok(PartEntry::new(file, digest))
}

/// The name of the file, if the table gives it.
fn file(alloc: Global, table: &Table) -> Result<Option<String>, Misread>
    ensures { ReadsAs bytes_of_text result (optional as_str
        (get_member (codes "file") (table_view table.now))) }
{
    let Some(value) = member(table, "file") else {
        return Ok(None);
    };
    match value.as_str() {
        Some(name) => Ok(Some(String::from_str(alloc, name)?)),
        None => Err(Misread::Form),
    }
}

/// The digest, if the table gives it.
fn sha1(table: &Table) -> Result<Option<[u8; 20]>, Misread>
    ensures { ReadsValue result (optional digest_form
        (get_member (codes "sha1") (table_view table.now))) }
{
    let Some(value) = member(table, "sha1") else {
        return Ok(None);
    };
    let Some(digits) = value.as_str() else {
        return Err(Misread::Form);
    };
    match <[u8; 20] as FromHex>::from_hex(digits) {
        Ok(digest) => Ok(Some(digest)),
        Err(_) => Err(Misread::Form),
    }
}

/// The value at a key, if the table has it.
fn member<'a>(table: &'a Table, key: &str) -> Option<&'a Value>
    ensures { option_map (λ value. view value.now) result
        ≡ get_member key.now (table_view table.now) }
{
    table.get(key)
}
