//! A board made from its fields, as a save file has them, and told by them.

ghost use Rattle.std.specs.Prelude.{◌≡◌, IfOk, IfErr};
ghost use Rattle.pac_map.specs.RomParts.{IsWhole};
ghost use Rattle.pac_map.specs.PartsProofs.{parts_of};
ghost use Rattle.pac_board.specs.State.{passed_lines, recomposed_view, with_view};
ghost use Rattle.pac_board.specs.StateLaws.{restored_board};
ghost use Rattle.pac_machine.specs.Fields.{state_of, AreBoardFields};

use crate::board::Board;
use crate::fault::InitRefused;
use pac_machine::Fields;
use pac_map::{Raw, RomSet};
use std::alloc::Global;

impl Board {
    /// The board that has these fields, in a block of memory, with this ROM set. Refused for want of memory alone; the set comes back then.
    pub fn of(alloc: Global, set: RomSet, fields: &Fields) -> Result<Box<Board>, InitRefused>
        requires { AreBoardFields fields.now }
        ensures board { IfOk result
            (λ board. board.value ≡ record { set = set; state = state_of fields.now; made = 0 }) }
        ensures refused { IfErr result (λ refused. refused.set ≡ set) }
    {
        match Board::boxed(alloc, &set, 0) {
            Ok(mut board) => {
                board.put_fields(fields);
                Ok(board)
            }
            Err(_) => Err(InitRefused { set }),
        }
    }

    /// Becomes the board that has these fields, each in its range, in place; its ROM set and the count of its steps stay.
    #[inline(always)]
    pub fn put_fields(&mut self, fields: &Fields)
        requires { AreBoardFields fields.now }
        ensures { self.new ≡ restored_board self.old (state_of fields.now) }
    {
        self.made = self.made();
        self.machine.put_fields(fields);
        self.since = fields.steps;
        self.asked = fields.asked;
        self.due = fields.due;
    }

    /// Becomes the board that has these ROMs, a program of 16,384 bytes and the other parts, and these fields, each in its range, in place: the
    /// quickest way to fill one that has just been made. The count of its steps stays.
    #[inline(always)]
    pub fn put_all(&mut self, program: &[u8], raw: &Raw, fields: &Fields)
        requires whole { IsWhole (parts_of program.now raw.now) }
        requires in_range { AreBoardFields fields.now }
        ensures { self.new ≡ restored_board
            (record self.old { set = parts_of program.now raw.now }) (state_of fields.now) }
    {
        self.made = self.made();
        self.machine.put_all(program, raw, fields);
        self.since = fields.steps;
        self.asked = fields.asked;
        self.due = fields.due;
    }

    /// The fields of the board's state.
    pub fn fields(&self) -> Fields
        ensures fields { state_of result ≡ self.now.state }
        ensures in_range { AreBoardFields result }
    {
        self.machine.fields(self.asked, self.due)
    }

    /// Composes those lines of the picture that have passed since the last blank from what the memory keeps now, as for
    /// a state that was saved without them. Takes no memory.
    pub fn recompose(&mut self)
        ensures { self.new ≡ with_view self.old
            (recomposed_view self.old.set self.old.state.now.board
            (passed_lines self.old.state.now.time)) }
    {
        self.machine.recompose();
    }
}
