//! Addresses before which steps are to stop.

ghost use Rattle.std.specs.Prelude.{◌≡◌, None, Some};
ghost use Rattle.pac_machine.specs.Stops.{is_stop};
ghost use Rattle.pac_machine.specs.StopsProofs.{first_look};

use std::marker::Model;

/// A byte for each address: 0 where the steps go on.
pub type Marks = [u8; 65_536];

/// The addresses before which steps are to stop. Clauses see the map, if there is one.
#[derive(Drop)]
pub struct Stops<'a> {
    marks: Option<&'a Marks>,
}

impl<'a> Model for Stops<'a> {
    ghost use Rattle.std.specs.Prelude.{List, Option, ℕ};
    ghost use Rattle.std.specs.Option.{option_copied};

    ghost Value = { Option (List ℕ) };

    ghost view = { λ stops. option_copied stops.marks };
}

impl<'a> Stops<'a> {
    /// No address: the steps go on at each.
    #[inline(always)]
    pub fn none() -> Stops<'a>
        ensures { result ≡ None }
    {
        Stops { marks: None }
    }

    /// Those that a map marks.
    #[inline(always)]
    pub fn at(marks: &'a Marks) -> Stops<'a>
        ensures { result ≡ Some marks.now }
    {
        Stops { marks: Some(marks) }
    }

    /// The time from which on steps look where they begin: 1 where there is a map, for no step ends at 0, and else the time at which they end.
    /// A call, so that a loop of steps compares with this time alone: where the compiler knows how it's made, each step looks at both parts.
    #[inline(never)]
    pub(crate) fn first_look(&self, end: u64) -> u64
        ensures { result ≡ first_look self.now end }
    {
        match self.marks {
            Some(_) => 1,
            None => end,
        }
    }

    /// Whether steps are to stop before this address.
    #[inline(always)]
    pub fn has(&self, address: u16) -> bool
        ensures { result ≡ is_stop self.now address }
    {
        match self.marks {
            Some(marks) => marks[usize::from(address)] != 0,
            None => false,
        }
    }
}
