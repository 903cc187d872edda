//! The steps before a session's index, as they are told.

ghost use Rattle.std.specs.Prelude.{◌≡◌, ◌<◌, ◌≤◌, length, slice_get, Some, take};
ghost use Rattle.pac_code.specs.Instructions.{code};
ghost use Rattle.pac_debug_session.specs.Past.{told_at};
ghost use Rattle.pac_debug.specs.Answers.{padded_bytes, done_of, told_lines, last_steps};

use pac_board::StepKind;
use pac_code::{Instr, encode};
use pac_debug_session::Session;
use pac_debug_text::{Done, HistoryLine};

/// The most steps that are told (this profile).
pub(crate) const MOST_STEPS: usize = 256;

/// What fills the places of steps before one is put there.
const NO_STEP: HistoryLine = HistoryLine {
    index: 0,
    pc: 0,
    done: Done::Halted,
};

/// The bytes of an instruction, and zeros after them.
fn padded_code(instruction: &Instr) -> [u8; 4]
    ensures { result ≡ padded_bytes (code instruction.now) }
{
    let code = encode(instruction);
    let bytes = code.as_slice();
    let mut padded = [0; 4];
    padded[..bytes.len()].copy_from_slice(bytes);
    padded
}

/// What a step was.
fn done_of(kind: StepKind) -> Done
    ensures { result ≡ done_of kind }
{
    match kind {
        StepKind::Ran(instruction) => Done::Ran(padded_code(&instruction)),
        StepKind::Halted => Done::Halted,
        StepKind::Accepted => Done::Accepted,
    }
}

/// A step of a session, of those that are told; the oldest is at place 0.
fn line_at(session: &Session, place: usize) -> HistoryLine
    requires { place < length (told_at session.now.setting session.now.index) }
    ensures { slice_get (told_lines session.now) place ≡ Some result }
{
    let Some(step) = session.history(place) else {
        unreachable!();
    };
    HistoryLine {
        index: step.index,
        pc: step.pc,
        done: done_of(step.kind),
    }
}

/// The last steps of a session, so many at most, the oldest first; and how many there are.
#[tactic(auto, using(crate::proofs::Lasting::more_lasting))]
pub(crate) fn last_steps(session: &Session, count: u16) -> ([HistoryLine; MOST_STEPS], usize)
    ensures exact { take result.1 result.0 ≡ last_steps session.now count }
    ensures within { result.1 ≤ length result.0 }
{
    let told = session.history_len();
    let shown = told.min(usize::from(count));
    let mut steps = [NO_STEP; MOST_STEPS];
    for place in 0..shown {
        steps[place] = line_at(session, told - shown + place);
    }
    (steps, shown)
}
