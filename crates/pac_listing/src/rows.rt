//! The rows of a line.

ghost use Rattle.std.specs.Prelude.{◌≡◌, ◌-◌, [], ◌∷◌, length, drop, codes};
ghost use Rattle.pac_num.specs.Columns.{row_bytes};
ghost use Rattle.pac_out.specs.Pending.{Gathers};
ghost use Rattle.pac_out.specs.Pieces.{joined_pieces};
ghost use Rattle.pac_listing.specs.Listing.{first_row, further_row, all_rows, item_rows, line_rows};

use crate::digits::five_digits;
use pac_asm_program::Line;
use pac_num::{byte_columns, hex_word};
use pac_out::counted::Counted;
use pac_out::pending::Pending;
use pac_out::{Out, WriteFault};

/// The first row of a line: its number, its address and its bytes as they are shown, and its text.
fn put_first_row<W: Out>(
    pending: &mut Pending,
    file: &mut Counted<W>,
    number: u64,
    address: [u8; 4],
    columns: [u8; 8],
    text: &[u8],
) -> Result<(), WriteFault>
    ensures { Gathers W.took W.refused pending.old file.old
        (first_row number address columns text.now) result pending.new file.new }
{
    let pieces: [&[u8]; 3] = [
        &row_head(five_digits(number), address, columns),
        text,
        b"\n",
    ];
    pending.put_pieces(file, &pieces)
}

/// What stands before the text in a first row, with a blank after each piece.
#[inline]
fn row_head(digits: [u8; 5], address: [u8; 4], columns: [u8; 8]) -> [u8; 20]
    ensures { result ≡ joined_pieces (digits ∷ codes " " ∷ address ∷ codes " " ∷ columns ∷ codes " "
        ∷ []) }
{
    let [n0, n1, n2, n3, n4] = digits;
    let [a0, a1, a2, a3] = address;
    let [c0, c1, c2, c3, c4, c5, c6, c7] = columns;
    [
        n0, n1, n2, n3, n4, b' ', a0, a1, a2, a3, b' ', c0, c1, c2, c3, c4, c5, c6, c7, b' ',
    ]
}

/// A row with the first four of further bytes.
fn put_further_row<W: Out>(
    pending: &mut Pending,
    file: &mut Counted<W>,
    at: u16,
    bytes: &[u8],
) -> Result<(), WriteFault>
    ensures { Gathers W.took W.refused pending.old file.old (further_row at bytes.now) result
        pending.new file.new }
{
    let pieces: [&[u8]; 5] = [b"      ", &hex_word(at), b" ", &byte_columns(bytes), b"\n"];
    pending.put_pieces(file, &pieces)
}

/// The bytes after the first four.
#[inline]
fn after_row(bytes: &[u8]) -> &[u8]
    ensures bytes { result.now ≡ drop row_bytes bytes.now }
    ensures shorter { length result.now ≡ length bytes.now - row_bytes }
{
    match bytes {
        [_, _, _, _, rest @ ..] => rest,
        _ => &[],
    }
}

/// All further rows of a line; the first shows bytes from this address on.
fn put_further_rows<W: Out>(
    pending: &mut Pending,
    file: &mut Counted<W>,
    first: u16,
    bytes: &[u8],
) -> Result<(), WriteFault>
    ensures { Gathers W.took W.refused pending.old file.old (all_rows first bytes.now) result
        pending.new file.new }
{
    let mut at = first;
    let mut rest = bytes;
    while !rest.is_empty() {
        put_further_row(pending, file, at, rest)?;
        at = at.wrapping_add(4);
        rest = after_row(rest);
    }
    Ok(())
}

/// The rows of a line with an item of these bytes at this address.
fn put_item<W: Out>(
    pending: &mut Pending,
    file: &mut Counted<W>,
    number: u64,
    at: u16,
    bytes: &[u8],
    text: &[u8],
) -> Result<(), WriteFault>
    ensures { Gathers W.took W.refused pending.old file.old (item_rows number at bytes.now text.now)
        result pending.new file.new }
{
    if bytes.is_empty() {
        return put_first_row(pending, file, number, *b"    ", *b"        ", text);
    }
    put_first_row(
        pending,
        file,
        number,
        hex_word(at),
        byte_columns(bytes),
        text,
    )?;
    put_further_rows(pending, file, at.wrapping_add(4), after_row(bytes))
}

/// What stands in place of the bytes of a skipped line.
#[inline]
fn skipped() -> [u8; 8]
    ensures { result ≡ codes "-       " }
{
    *b"-       "
}

/// The rows of a line, by what it puts into the program.
#[tactic(auto, unfolding(crate::specs::Listing::line_rows))]
pub(crate) fn put_line<W: Out>(
    pending: &mut Pending,
    file: &mut Counted<W>,
    number: u64,
    line: &Line,
    text: &[u8],
) -> Result<(), WriteFault>
    ensures { Gathers W.took W.refused pending.old file.old (line_rows number line.now text.now)
        result pending.new file.new }
{
    match line {
        Line::Blank => put_first_row(pending, file, number, *b"    ", *b"        ", text),
        Line::Skipped => put_first_row(pending, file, number, *b"    ", skipped(), text),
        Line::Placed(item) => {
            let bytes = item.content().bytes();
            put_item(pending, file, number, item.at(), bytes.as_slice(), text)
        }
    }
}
