//! A script, frame by frame.

ghost use Rattle.std.specs.Prelude.{◌≡◌, ◌+◌, ◌≤◌, [], ◌∷◌, ◌++◌, OnOk};
ghost use Rattle.pac_inputs.specs.Inputs.{mask};
ghost use Rattle.pac_inputs.specs.Stretches.{total_frames, held, most_frames};
ghost use Rattle.pac_inputs.specs.Entries.{held_up_to, Rises};

use crate::inputs::Inputs;
use crate::line::Stretch;
use bitflags::Flags;
use std::alloc::{AllocError, Global};
use std::marker::Model;

/// The inputs that are held up to a frame, which is the last of a line of the script.
#[derive(Clone, Copy)]
struct HeldUntil {
    end: u32,
    inputs: Inputs,
}

/// A script: which inputs are held in which frame. Clauses see a list of its stretches of frames, in their
/// order.
#[derive(Drop)]
pub struct Script {
    entries: Vec<HeldUntil>,
}

impl Model for Script {
    ghost use Rattle.std.specs.Prelude.{◌≡◌, ◌≤◌, List};
    ghost use Rattle.pac_inputs.specs.declared.line.Stretch.{Stretch};
    ghost use Rattle.pac_inputs.specs.Stretches.{total_frames, most_frames};
    ghost use Rattle.pac_inputs.specs.Entries.{entry_stretches, Rises};

    ghost Value = { List Stretch };

    ghost view = { λ script. entry_stretches 0 script.entries.items };

    ghost invariant = { λ script. record {
      rises : Rises 0 script.entries.items;
      within : total_frames (entry_stretches 0 script.entries.items) ≤ most_frames;
    } };
}

impl Script {
    /// No frames.
    pub(crate) fn new(alloc: Global) -> Script
        ensures { result ≡ [] }
    {
        Script {
            entries: Vec::new(alloc),
        }
    }

    /// Adds frames after those that the script has.
    #[tactic(auto, using(crate::proofs::Frames::added_entries))]
    pub(crate) fn push(&mut self, stretch: Stretch) -> Result<(), AllocError>
        requires { total_frames self.old + stretch.frames ≤ most_frames }
        ensures { OnOk result (self.new ≡ self.old ++ stretch ∷ []) }
    {
        let end = self.frames() + stretch.frames;
        self.entries.push(HeldUntil {
            end,
            inputs: stretch.inputs,
        })?;
        Ok(())
    }

    /// How many frames the script has, 0 to 36,000.
    #[tactic(auto, using(crate::proofs::Frames::last_entries))]
    #[inline]
    pub fn frames(&self) -> u32
        ensures count { result ≡ total_frames self.now }
        ensures within { result ≤ most_frames }
    {
        match self.entries.last() {
            Some(entry) => entry.end,
            None => 0,
        }
    }

    /// The inputs that are held in a frame, the first of which is 1; none in frame 0 and after the last.
    #[tactic(auto, using(crate::proofs::Frames::held_entries))]
    pub fn held(&self, frame: u32) -> Inputs
        ensures { mask result ≡ held self.now frame }
    {
        if frame == 0 {
            return Inputs::empty();
        }
        held_up_to(&self.entries, frame)
    }
}

/// The inputs of the first entry that ends with the frame or after it.
fn held_up_to(entries: &[HeldUntil], frame: u32) -> Inputs
    requires { Rises 0 entries.now }
    ensures { mask result ≡ held_up_to entries.now frame }
{
    let place = entries.partition_point(|entry| entry.end < frame);
    if place == entries.len() {
        return Inputs::empty();
    }
    entries[place].inputs
}
