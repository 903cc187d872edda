//! What the lines above leave to a line in the first phase.

ghost use Rattle.std.specs.Prelude.{◌≡◌, ◌<◌, ◌≤◌, [], ◌∷◌, ◌++◌, length, nat_lt, None, option_map};
ghost use Rattle.std.specs.Prelude.{IfOk, Ok};
ghost use Rattle.pac_asm_program.specs.Programs.{rom_size};
ghost use Rattle.pac_asm_line.specs.Statements as says;
ghost use Rattle.pac_asm_line.specs.Views.{expression_tree};
ghost use Rattle.pac_asm.specs.Conditions.{is_judged, most_open_ifs};
ghost use Rattle.pac_asm.specs.Errors.{LineBecomes};
ghost use Rattle.pac_asm.specs.Layouts.{ArePlacesApart, IsFree, IsFreePlace};
ghost use Rattle.pac_asm.specs.Phase1 as spec;
ghost use Rattle.pac_asm.specs.Phase1Proofs.{known_place};
ghost use Rattle.pac_asm.specs.Standings as above;

use crate::condition::{Conditions, IfState};
use crate::fault::{AsmCode, LineError};
use crate::layout::Layout;
use crate::place::{LineLayout, Span};
use pac_asm_line::{Conditional, Expression};
use pac_asm_program::Symbols;
use pac_expr::{SymbolLookup as _, ValueError};
use std::alloc::{AllocError, Global};
use std::marker::Model;

/// The bytes of the program ROM.
const ROM_SIZE: u16 = 16384;

/// The address reached, the names that are defined, what became of each line, and the open IFs.
#[derive(Drop)]
pub(crate) struct Standing {
    at: u16,
    symbols: Symbols,
    layout: Layout,
    conditions: Conditions,
}

impl Model for Standing {
    ghost use Rattle.std.specs.Prelude.{◌≤◌};
    ghost use Rattle.pac_asm_program.specs.Programs.{rom_size};
    ghost use Rattle.pac_asm.specs.Standings.{Standing as Above};

    ghost Value = { Above };

    ghost view = { λ standing. record {
      at = standing.at;
      symbols = standing.symbols;
      places = standing.layout;
      conditions = standing.conditions;
    } };

    ghost invariant = { λ standing. standing.at ≤ rom_size };
}

impl Standing {
    /// What stands before the first line of a source: address 0, no name and no open IF.
    pub(crate) fn start(alloc: Global, source: &[u8]) -> Result<Standing, AllocError>
        ensures { IfOk result (λ standing. standing ≡ above.first_standing) }
    {
        let layout = Layout::new(alloc)?;
        Ok(Standing {
            at: 0,
            symbols: Symbols::new(alloc, source),
            layout,
            conditions: Conditions::new(),
        })
    }

    /// The names that are defined.
    pub(crate) fn symbols(&self) -> &Symbols
        ensures { result.now ≡ self.now.symbols }
    {
        &self.symbols
    }

    /// The names that are defined, and nothing else.
    pub(crate) fn into_symbols(self) -> Symbols
        ensures { result ≡ self.symbols }
    {
        self.symbols
    }

    /// What became of the lines.
    pub(crate) fn places(&self) -> &[LineLayout]
        ensures value { result.now ≡ self.now.places }
        ensures apart { ArePlacesApart [] self.now.places }
    {
        self.layout.places()
    }

    /// The number of an expression whose names are all defined above.
    pub(crate) fn known(&self, expression: &Expression<'_, '_>) -> Result<i32, AsmCode>
        ensures { result ≡ above.known_value self.now (expression_tree expression.now) }
    {
        match expression.value(&self.symbols, self.at) {
            Ok(number) => Ok(number),
            Err(ValueError::Undefined) => Err(AsmCode::NotDefinedAbove),
            Err(ValueError::OutOfRange) => Err(AsmCode::Arithmetic),
            Err(ValueError::DivisionByZero) => Err(AsmCode::Arithmetic),
        }
    }

    /// The address, or the count of bytes, that an expression gives whose names are all defined above.
    pub(crate) fn known_place(&self, expression: &Expression<'_, '_>) -> Result<u16, AsmCode>
        ensures value { result ≡ known_place self.now (expression_tree expression.now) }
        ensures bound { IfOk result (λ at. at ≤ rom_size) }
    {
        within_rom(self.known(expression)?)
    }

    /// Whether no line above defines a label.
    pub(crate) fn is_new(&self, label: Option<&[u8]>) -> bool
        ensures { result ≡ above.is_new self.now.symbols
            (option_map (λ name. name.now) label.entry) }
    {
        match label {
            None => true,
            Some(name) => self.symbols.symbol(name).is_none(),
        }
    }

    /// Defines a label, if there is one, and adds what becomes of its line.
    pub(crate) fn add_labelled(
        &mut self,
        alloc: Global,
        label: Option<&[u8]>,
        number: i32,
        place: LineLayout,
    ) -> Result<(), LineError>
        requires { IsFreePlace self.old.places place }
        ensures { LineBecomes result (Ok (record self.old {
          symbols = above.with_label self.old.symbols
              (option_map (λ name. name.now) label.entry) number;
          places = self.old.places ++ place ∷ [];
        })) self.new }
    {
        if let Some(name) = label {
            self.symbols.define(alloc, name, number)?;
        }
        self.add(place)
    }

    /// Adds what becomes of a line.
    pub(crate) fn add(&mut self, place: LineLayout) -> Result<(), LineError>
        requires { IsFreePlace self.old.places place }
        ensures { LineBecomes result (Ok (record self.old
            { places = self.old.places ++ place ∷ [] })) self.new }
    {
        self.layout.push(place)?;
        Ok(())
    }

    /// So many bytes at the address reached, where they may stand.
    pub(crate) fn room_for(&self, size: u16) -> Result<Span, AsmCode>
        ensures value { result ≡ above.room_for self.now size }
        ensures free { IfOk result (λ span. IsFree self.now.places span) }
    {
        let span = Span { at: self.at, size };
        if size > ROM_SIZE - self.at {
            Err(AsmCode::OutsideRom)
        } else if self.layout.overlaps(span) {
            Err(AsmCode::Overlap)
        } else {
            Ok(span)
        }
    }

    /// The address reached.
    pub(crate) fn at(&self) -> u16
        ensures { result ≡ self.now.at }
    {
        self.at
    }

    /// Goes on at another address.
    pub(crate) fn go_to(&mut self, at: u16)
        requires { at ≤ rom_size }
        ensures { self.new ≡ record self.old { at = at } }
    {
        self.at = at;
    }

    /// Whether a line that begins with this word is judged whole.
    pub(crate) fn is_judged(&self, word: Option<Conditional>) -> bool
        ensures { result ≡ is_judged self.now.conditions word }
    {
        self.conditions.is_judged(word)
    }

    /// Whether one IF more may be open.
    pub(crate) fn has_room(&self) -> bool
        ensures { result ≡ nat_lt (length self.now.conditions) most_open_ifs }
    {
        self.conditions.has_room()
    }

    /// Opens an IF inside all others.
    pub(crate) fn push(&mut self, condition: IfState)
        requires { length self.old.conditions < most_open_ifs }
        ensures { self.new ≡ record self.old { conditions = condition ∷ self.old.conditions } }
    {
        self.conditions.push(condition);
    }

    /// Takes an ELSE that is judged.
    pub(crate) fn after_else(&mut self) -> Result<(), LineError>
        ensures { LineBecomes result (spec.after_statement self.old None says.otherwise) self.new }
    {
        self.conditions.after_else()?;
        self.add(LineLayout::Blank)
    }

    /// Takes an ENDIF that is judged.
    pub(crate) fn after_end(&mut self) -> Result<(), LineError>
        ensures { LineBecomes result (spec.after_statement self.old None says.end_condition)
            self.new }
    {
        self.conditions.after_end()?;
        self.add(LineLayout::Blank)
    }

    /// Takes a skipped line that begins with this word.
    pub(crate) fn after_passed(&mut self, word: Option<Conditional>) -> Result<(), LineError>
        ensures { LineBecomes result (spec.after_passed self.old word) self.new }
    {
        self.conditions.after_skipped(word)?;
        self.add(LineLayout::Skipped)
    }
}

/// A number as an address, or a count of bytes, from 0 to 4000H.
fn within_rom(number: i32) -> Result<u16, AsmCode>
    ensures value { result ≡ above.within_rom number }
    ensures bound { IfOk result (λ at. at ≤ rom_size) }
{
    if number < 0 || number > i32::from(ROM_SIZE) {
        Err(AsmCode::OutsideRom)
    } else {
        Ok(number as u16)
    }
}
