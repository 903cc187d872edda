//! What a line of a source puts into the program.

ghost use Rattle.std.specs.Prelude.{◌≡◌};

use crate::content::Content;
use std::marker::Model;

/// An item: what stands at an address of the program ROM.
#[derive(Drop)]
pub struct Item {
    at: u16,
    content: Content,
}

impl Model for Item {
    ghost use Rattle.pac_code.specs.Items.{Item as Standing};

    ghost Value = { Standing };

    ghost view = { λ item. record { at = item.at; content = item.content } };
}

impl Item {
    /// What stands from this address on.
    #[inline]
    pub fn new(at: u16, content: Content) -> Item
        ensures { result ≡ record { at = at; content = content } }
    {
        Item { at, content }
    }

    /// The address of its first byte.
    #[inline]
    pub fn at(&self) -> u16
        ensures { result ≡ self.now.at }
    {
        self.at
    }

    /// What stands there.
    #[inline]
    pub fn content(&self) -> &Content
        ensures { result.now ≡ self.now.content }
    {
        &self.content
    }
}

/// What a line of a source puts into the program.
#[derive(Drop)]
pub enum Line {
    /// It counts, and has no item: an empty line, a label alone, ORG, EQU, IF, ELSE or ENDIF.
    Blank,
    /// It was skipped by an IF or an ELSE.
    Skipped,
    /// It has an item, maybe one of no bytes.
    Placed(Item),
}
