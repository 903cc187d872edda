//! The line of the place where a session stands.

ghost use Rattle.std.specs.Prelude.{◌≡◌};
ghost use Rattle.pac_dis.specs.Texts.{text_at};
ghost use Rattle.pac_out.specs.CountedProofs.{Puts};
ghost use Rattle.pac_debug_text.specs.Texts as text;

use itoa::Buffer;
use pac_dis::{Text, disassemble, hex_word};
use pac_out::counted::Counted;
use pac_out::{Out, WriteFault};

/// What ended a command that moves.
#[derive(Clone, Copy)]
pub enum Ending {
    /// All steps of `step` were done.
    Step,
    /// PC is a breakpoint.
    Break,
    /// The last of the frames was shown.
    Frame,
    /// A step was tried and stopped.
    Stop,
    /// The script is at its end.
    End,
    /// It was `back`.
    Back,
    /// It was `return`.
    Return,
}

impl Ending {
    /// The word that begins the line of a place.
    fn word(self) -> &'static [u8]
        ensures { result.now ≡ text.ending_text self }
    {
        match self {
            Ending::Step => b"step",
            Ending::Break => b"break",
            Ending::Frame => b"frame",
            Ending::Stop => b"stop",
            Ending::End => b"end",
            Ending::Back => b"back",
            Ending::Return => b"return",
        }
    }
}

/// Where a session stands, before a step.
#[derive(Clone, Copy)]
pub struct Place {
    /// How many steps lie before it.
    pub index: u64,
    /// The time in T-states.
    pub time: u64,
    /// The program counter.
    pub pc: u16,
    /// Whether the processor is halted.
    pub halted: bool,
    /// The four bytes from PC on.
    pub code: [u8; 4],
}

/// The text of the instruction that four bytes from an address on begin with.
pub(crate) fn code_text(pc: u16, code: [u8; 4]) -> Text
    ensures { result.bytes ≡ text_at pc code }
{
    let (text, _) = disassemble(&code, pc);
    text
}

/// The text of a processor that waits.
pub(crate) fn halted_text() -> Text
    ensures { result.bytes ≡ text.halted_text }
{
    let mut text = Text::new();
    text.push_str("HALTED");
    text
}

/// What is done next at a place.
fn next_text(place: Place) -> Text
    ensures { result.bytes ≡ text.next_text place.halted place.pc place.code }
{
    if place.halted {
        halted_text()
    } else {
        code_text(place.pc, place.code)
    }
}

/// Writes what ended a command that moves, and where the session stands, as `break 2 20 0005 HALT`.
#[tactic(auto, unfolding(crate::specs::Texts::place_text))]
pub fn put_place<W: Out>(
    output: &mut Counted<W>,
    ending: Ending,
    place: Place,
) -> Result<(), WriteFault>
    ensures { Puts W.took W.refused output.old (text.place_text ending place) result output.new }
{
    let mut index = Buffer::new();
    let mut time = Buffer::new();
    let next = next_text(place);
    let pieces: [&[u8]; 10] = [
        ending.word(),
        b" ",
        index.format(place.index).as_bytes(),
        b" ",
        time.format(place.time).as_bytes(),
        b" ",
        &hex_word(place.pc),
        b" ",
        next.as_bytes(),
        b"\n",
    ];
    output.put_pieces(&pieces)
}
