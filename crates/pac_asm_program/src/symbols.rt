//! Symbols: names that stand for numbers.

ghost use Rattle.std.specs.Prelude.{◌≡◌, [], length, ◌==◌, slice_get, is_none, option_map, IfOk};
ghost use Rattle.std.specs.Prelude.{OnErr};
ghost use Rattle.pac_asm_program.specs.Names.{number_of_symbol, with_symbol};
ghost use Rattle.pac_asm_program.specs.NamesProofs.{AreDistinct};

use crate::seeded::Seeded;
use indexmap::IndexMap;
use std::alloc::{AllocError, Global};
use std::marker::Model;

/// Names that stand for numbers, in the order in which they were defined. Small and capital letters differ.
#[derive(Drop)]
pub struct Symbols {
    names: IndexMap<Vec<u8, Global>, i32, Seeded, Global>,
}

impl Model for Symbols {
    ghost use Rattle.std.specs.Prelude.{List, map};
    ghost use Rattle.pac_asm_program.specs.Names.{Symbol};

    ghost Value = { List Symbol };

    ghost view = { λ symbols. map (λ entry. (entry.0.items, entry.1)) symbols.names.entries };
}

impl Symbols {
    /// No symbols yet of a source, whose bytes decide how the names are hashed.
    pub fn new(alloc: Global, source: &[u8]) -> Symbols
        ensures { result ≡ [] }
    {
        Symbols {
            names: IndexMap::with_hasher(alloc, Seeded::of(source)),
        }
    }

    /// Defines a name, and tells whether it is new. A name that stands already keeps its number; where memory is
    /// refused nothing changes.
    pub fn define(&mut self, alloc: Global, name: &[u8], number: i32) -> Result<bool, AllocError>
        ensures is_new { IfOk result (λ is_new. is_new
            ≡ is_none (number_of_symbol self.old name.now)) }
        ensures defined { IfOk result (λ is_new. self.new ≡ with_symbol self.old name.now number) }
        ensures refused { OnErr result (self.new ≡ self.old) }
    {
        if self.names.contains_key(name) {
            return Ok(false);
        }
        let key = Vec::from_slice(alloc, name)?;
        self.names.insert(key, number)?;
        Ok(true)
    }

    /// How many names are defined.
    #[inline]
    pub fn len(&self) -> usize
        ensures value { result ≡ length self.now }
        ensures distinct { AreDistinct self.now }
    {
        self.names.len()
    }

    /// Whether no name is defined.
    #[inline]
    pub fn is_empty(&self) -> bool
        ensures { result ≡ (length self.now == 0) }
    {
        self.names.is_empty()
    }

    /// The name of this place in the order of definition, from 0, and its number.
    #[inline]
    pub fn get(&self, place: usize) -> Option<(&[u8], i32)>
        ensures { option_map (λ named. (named.0.now, named.1)) result ≡ slice_get self.now place }
    {
        let (name, number) = self.names.get_index(place)?;
        Some((name.as_slice(), *number))
    }
}

impl pac_expr::SymbolLookup for Symbols {
    ghost lookup = { number_of_symbol };

    /// The number that a name stands for, if it is defined.
    #[inline]
    fn symbol(&self, name: &[u8]) -> Option<i32> {
        self.names.get(name).copied()
    }
}
