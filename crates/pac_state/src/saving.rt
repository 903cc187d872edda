//! A board's state written as a file.

ghost use Rattle.std.specs.Prelude.{◌≡◌, ◌++◌, ℕ, List, OnOk};
ghost use Rattle.sha1.specs.Sha1.{Holds};
ghost use Rattle.pac_board.specs.Fields.{state_of, AreBoardFields};
ghost use Rattle.pac_roms_manifest.specs.Sets.{digest_of};
ghost use Rattle.pac_out.specs.CountedProofs.{Puts};
ghost use Rattle.pac_out.specs.Pieces.{joined_pieces};
ghost use Rattle.pac_state.specs.Saves.{Saves};
ghost use Rattle.pac_state.specs.Text as text;

use crate::front::front;
use pac_board::{Board, Fields, RawLines};
use pac_out::counted::Counted;
use pac_out::{Out, WriteFault};
use pac_roms_manifest::digest;
use sha1::Sha1;

/// Writes bytes, and takes them into a digest.
fn put<W: Out>(file: &mut Counted<W>, hasher: &mut Sha1, bytes: &[u8]) -> Result<(), WriteFault>
    ensures put { Puts W.took W.refused file.old bytes.now result file.new }
    ensures hashed { (m : List ℕ) → Holds hasher.old m → Holds hasher.new (m ++ bytes.now) }
{
    hasher.update(bytes);
    file.put(bytes)
}

/// Writes the colour numbers of a picture, line after line.
fn put_lines<W: Out>(
    file: &mut Counted<W>,
    hasher: &mut Sha1,
    lines: &RawLines,
) -> Result<(), WriteFault>
    ensures put { Puts W.took W.refused file.old (joined_pieces lines.now) result file.new }
    ensures hashed { OnOk result ((m : List ℕ) → Holds hasher.old m
        → Holds hasher.new (m ++ joined_pieces lines.now)) }
{
    put(file, hasher, lines.as_flattened())
}

/// Writes the state that has these fields, and the digest of what was written.
fn put_state<W: Out>(
    file: &mut Counted<W>,
    digest: &[u8; 20],
    fields: &Fields,
) -> Result<(), WriteFault>
    requires { AreBoardFields fields.now }
    ensures { Puts W.took W.refused file.old
        (text.sealed_file (text.body text.written_version digest.now (state_of fields.now))) result
        file.new }
{
    let mut hasher = Sha1::new();
    put(file, &mut hasher, &front(digest, fields))?;
    put_lines(file, &mut hasher, fields.lines)?;
    file.put(&hasher.finalize())
}

/// Writes the state that has these fields, of a board whose ROM set has this digest, as `save` does.
pub fn save_fields<W: Out>(
    digest: &[u8; 20],
    fields: &Fields,
    out: &mut W,
) -> Result<(), WriteFault>
    requires { AreBoardFields fields.now }
    ensures { Saves W.took W.refused out.old
        (text.sealed_file (text.body text.written_version digest.now (state_of fields.now))) result
        out.new }
{
    let mut file = Counted::new(out);
    let written = put_state(&mut file, digest, fields);
    let _ = file.into_writer();
    written
}

/// Writes a board's state to a writer: 67,756 bytes, a file of version 2. Takes no memory. The fault has the count of the
/// bytes that the writer took before it refused.
pub fn save<W: Out>(board: &Board, out: &mut W) -> Result<(), WriteFault>
    ensures { Saves W.took W.refused out.old
        (text.save_text text.written_version board.now.set board.now.state) result out.new }
{
    save_fields(&digest(board.set()), &board.fields(), out)
}
