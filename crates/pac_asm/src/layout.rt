//! Where the bytes of the lines stand.

ghost use Rattle.std.specs.Prelude.{◌≡◌, ◌+◌, ◌≤◌, [], ◌∷◌, ◌++◌, true, take, drop, replicate};
ghost use Rattle.std.specs.Prelude.{length, IfOk, OnOk};
ghost use Rattle.std.specs.List.{list_any};
ghost use Rattle.pac_asm_program.specs.Programs.{rom_size};
ghost use Rattle.pac_asm.specs.Layouts.{ArePlacesApart, IsFreePlace, cells_below};
ghost use Rattle.pac_asm.specs.Standings.{overlaps};

use crate::place::{LineLayout, Span};
use std::alloc::{AllocError, Global};
use std::marker::Model;

/// What became of the lines so far, with a mark for each byte of the ROM that one of them has. Clauses see the
/// places alone.
#[derive(Drop)]
pub(crate) struct Layout {
    places: Vec<LineLayout, Global>,
    taken: Box<[bool; 16384], Global>,
}

impl Model for Layout {
    ghost use Rattle.std.specs.Prelude.{List};
    ghost use Rattle.pac_asm.specs.declared.place.LineLayout.{LineLayout};
    ghost use Rattle.pac_asm.specs.Layouts.{IsLaidOut};

    ghost Value = { List LineLayout };

    ghost view = { λ layout. layout.places.items };

    ghost invariant = { λ layout. IsLaidOut layout.places.items layout.taken.value };
}

impl Layout {
    /// No lines.
    pub(crate) fn new(alloc: Global) -> Result<Layout, AllocError>
        ensures { IfOk result (λ layout. layout ≡ []) }
    {
        Ok(Layout {
            places: Vec::new(alloc),
            taken: untaken::<16384>(alloc)?,
        })
    }

    /// Whether a line has a byte where a span has one.
    pub(crate) fn overlaps(&self, span: Span) -> bool
        requires { span.at + span.size ≤ rom_size }
        ensures { result ≡ overlaps self.now span }
    {
        is_any_taken(self.taken.as_slice(), span.at as usize, span.size as usize)
    }

    /// Adds what becomes of the next line.
    pub(crate) fn push(&mut self, place: LineLayout) -> Result<(), AllocError>
        requires { IsFreePlace self.old place }
        ensures { OnOk result (self.new ≡ self.old ++ place ∷ []) }
    {
        self.places.push(place)?;
        match place {
            LineLayout::Blank => {}
            LineLayout::Skipped => {}
            LineLayout::Placed(span) => {
                take_cells(
                    self.taken.as_mut_slice(),
                    span.at as usize,
                    span.size as usize,
                );
            }
        }
        Ok(())
    }

    /// What became of the lines.
    pub(crate) fn places(&self) -> &[LineLayout]
        ensures value { result.now ≡ self.now }
        ensures apart { ArePlacesApart [] self.now }
    {
        &self.places
    }
}

/// N cells that no line takes.
#[tactic(auto, using(crate::proofs::Coverage::none))]
fn untaken<const N: usize>(alloc: Global) -> Result<Box<[bool; N], Global>, AllocError>
    ensures { IfOk result (λ cells. cells.value ≡ cells_below N []) }
{
    Ok(Box::new(alloc, [false; N])?)
}

/// Whether one of so many cells is taken, from a place on.
fn is_any_taken(cells: &[bool], at: usize, size: usize) -> bool
    requires { at + size ≤ length cells.now }
    ensures { result ≡ list_any (λ taken. taken) (take size (drop at cells.now)) }
{
    cells[at..at + size].iter().any(|taken| *taken)
}

/// Takes so many cells, from a place on.
fn take_cells(cells: &mut [bool], at: usize, size: usize)
    requires { at + size ≤ length cells.old }
    ensures { cells.new ≡ take at cells.old ++ (replicate size true ++ drop (at + size) cells.old) }
{
    cells[at..at + size].fill(true);
}
