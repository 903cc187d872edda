//! The breakpoints of a session.

ghost use Rattle.std.specs.Prelude.{◌≡◌, ◌<◌, ◌==◌, ◌++◌, [], ◌∷◌, IfOk, filter, not, length};
ghost use Rattle.std.specs.List.{list_any};
ghost use Rattle.pac_debug_session.specs.Breakpoints.{AreStops, IsAdded, heeded_if};

use arrayvec::ArrayVec;
use pac_board_course::{Marks, Stops};
use std::alloc::{AllocError, Global};
use std::marker::Model;

/// Up to 64 addresses, and the map that marks them. Clauses see the addresses, in the order in which they were set.
pub struct Breakpoints {
    list: ArrayVec<u16, 64>,
    marks: Box<Marks>,
}

impl Drop for Breakpoints {
    /// Drops each part.
    fn drop(self) {
        let Breakpoints { list: _, marks: _ } = self;
    }
}

impl Model for Breakpoints {
    ghost use Rattle.std.specs.Prelude.{List, ℕ, Some};
    ghost use Rattle.pac_debug_session.specs.Breakpoints.{AreStops};

    ghost Value = { List ℕ };

    ghost view = { λ breakpoints. breakpoints.list.items };

    ghost invariant = { λ breakpoints. AreStops (Some breakpoints.marks.value) breakpoints.list.items };
}

/// There are 64 breakpoints already.
#[derive(Clone, Copy, Debug)]
pub struct Full;

impl Breakpoints {
    /// None. Refused for want of memory alone.
    pub fn new(alloc: Global) -> Result<Breakpoints, AllocError>
        ensures { IfOk result (λ breakpoints. breakpoints ≡ []) }
    {
        let marks = Box::new(alloc, [0; 65_536])?;
        Ok(Breakpoints {
            list: ArrayVec::new(),
            marks,
        })
    }

    /// Whether an address is one of them.
    #[inline]
    pub fn has(&self, address: u16) -> bool
        ensures { result ≡ list_any (λ other. other == address) self.now }
    {
        self.marks[usize::from(address)] != 0
    }

    /// Adds an address after the others. Refused where there are 64.
    pub fn add(&mut self, address: u16) -> Result<(), Full>
        ensures { IsAdded self.old address result self.new }
    {
        if self.list.try_push(address).is_err() {
            return Err(Full);
        }
        self.marks[usize::from(address)] = 1;
        Ok(())
    }

    /// Takes an address away, if it is one of them.
    pub fn remove(&mut self, address: u16)
        ensures { self.new ≡ filter (λ other. not (other == address)) self.old }
    {
        self.list.retain(|other| *other != address);
        self.marks[usize::from(address)] = 0;
    }

    /// Where steps are to stop: at each of them if they are heeded, and otherwise nowhere. Where there are none, no step looks for one.
    #[inline]
    pub fn stops(&self, heeded: bool) -> Stops<'_>
        ensures { AreStops result (heeded_if heeded self.now) }
    {
        if heeded && !self.list.is_empty() {
            return Stops::at(&self.marks);
        }
        Stops::none()
    }
}
