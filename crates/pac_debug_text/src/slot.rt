//! The slots of a session.

ghost use Rattle.std.specs.Prelude.{◌≡◌, ◌<◌};

/// One of the four places to which a session's state can be copied.
#[derive(Clone, Copy, PartialEq, Eq)]
pub enum Slot {
    /// Slot 1.
    First,
    /// Slot 2.
    Second,
    /// Slot 3.
    Third,
    /// Slot 4.
    Fourth,
}

impl Slot {
    ghost use Rattle.pac_debug_text.specs.Slots.{slot_index};

    /// The slot's place among the four, from 0.
    pub fn index(self) -> usize
        ensures exact { result ≡ slot_index self }
        ensures below { result < 4 }
    {
        match self {
            Slot::First => 0,
            Slot::Second => 1,
            Slot::Third => 2,
            Slot::Fourth => 3,
        }
    }
}
