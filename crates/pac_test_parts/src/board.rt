//! A board whose sink refuses an output: that is due then, and the next call offers it first.

use pac_board::{Board, Fault, Idle, Picture, Raw, Refused, RomSet, Sink};
use std::alloc::{AllocError, Global};
use std::marker::Model;

/// The microseconds of a frame.
const FRAME: u32 = 16_500;

/// The outputs of a frame: 1,584 samples and the picture.
const OUTPUTS: u64 = 1585;

/// The DIP switches as they are set at the factory.
const SWITCHES: u8 = 0xC9;

/// NOPs.
const NOPS: [u8; 19] = [0; 19];

/// LD A,1 / LD (5003H),A / LD (4440H),A / HALT: a cell of a flipped picture has another colour.
const FLIP: [u8; 19] = [
    0x3E, 1, 0x32, 0x03, 0x50, 0x32, 0x40, 0x44, 0x76, 0, 0, 0, 0, 0, 0, 0, 0, 0, 0,
];

/// LD A,2 / LD (5045H),A / LD A,8 / LD (5053H),A / LD A,1 / LD (5055H),A / LD (5001H),A / HALT: a
/// voice walks through waveform 2, one of its samples for each output.
const WALK: [u8; 19] = [
    0x3E, 2, 0x32, 0x45, 0x50, 0x3E, 8, 0x32, 0x53, 0x50, 0x3E, 1, 0x32, 0x55, 0x50, 0x32, 0x01,
    0x50, 0x76,
];

/// The program ROM.
fn rom(program: &[u8; 19]) -> [u8; 16384] {
    let mut rom = [0u8; 16384];
    rom[..19].copy_from_slice(program);
    rom
}

/// The wave PROM: waveform 2 is 1 at two samples. All else is 0.
fn wave() -> [u8; 256] {
    let mut wave = [0u8; 256];
    wave[66] = 1;
    wave[67] = 1;
    wave
}

/// The lookup PROM: colour 1 of a tile's pixels, which all are 1, is number 1. All else is 0.
fn lookup() -> [u8; 256] {
    let mut lookup = [0u8; 256];
    lookup[5] = 1;
    lookup
}

/// The ROM set of a program.
fn set(program: &[u8; 19]) -> RomSet {
    let raw = Raw {
        tiles: &[0x0F; 4096],
        sprites: &[0; 4096],
        colours: &[0; 32],
        lookup: &lookup(),
        wave: &wave(),
    };
    RomSet::of(&rom(program), &raw)
}

/// A sink that keeps numbers of what it takes, and refuses one offer. A sample counts as the number
/// of its 16 bits, and a picture as 65,536 and the colour number in the flipped cell.
#[derive(Drop)]
struct Counting {
    /// The number of the offer that is refused, counted down; 0 is none.
    refusal: u64,
    /// The outputs that were taken.
    taken: u64,
    /// The last of them.
    last: u64,
    /// Their sum.
    sum: u64,
    /// A number that each of them goes into, and their order.
    mixed: u64,
}

impl Model for Counting {
    ghost Value = { Unit {0} };

    ghost view = { λ _. tt };
}

impl Counting {
    /// Takes an output or refuses it.
    fn take(&mut self, output: u64) -> Result<(), Refused> {
        self.refusal = self.refusal.wrapping_sub(1);
        if self.refusal == 0 {
            return Err(Refused);
        }
        self.taken = self.taken.wrapping_add(1);
        self.last = output;
        self.sum = self.sum.wrapping_add(output);
        self.mixed = self.mixed.wrapping_mul(31).wrapping_add(output);
        Ok(())
    }
}

impl Sink for Counting {
    ghost took = { λ _ _ _. Unit {0} };

    ghost refused = { λ _ _ _. Unit {0} };

    ghost room_for = { λ _. 0 };

    /// None: it's offered one sample at a time, of which it may refuse each.
    fn room(&self) -> usize {
        0
    }

    /// Takes the batch of no sample.
    fn samples(&mut self, _samples: &[i16]) {}

    /// Takes a sample.
    fn sample(&mut self, sample: i16) -> Result<(), Refused> {
        self.take(u64::from(sample.cast_unsigned()))
    }

    /// Takes a picture.
    fn picture(&mut self, picture: &Picture) -> Result<(), Refused> {
        self.take(65_536 + u64::from(picture.row(220)[268]))
    }
}

/// A board and its sink. Clauses see nothing of either, and it is dropped by a function of its own:
/// so what owns one has a single value without parts for its proof to carry from step to step.
struct Rig {
    board: Box<Board>,
    sink: Counting,
}

impl Model for Rig {
    ghost Value = { Unit {0} };

    ghost view = { λ _. tt };
}

impl Drop for Rig {
    /// Drops the board.
    fn drop(self) {
        let Rig { board: _, sink: _ } = self;
    }
}

/// A moment: the steps that the board made, those since power-on, the time and PC; the outputs that
/// the sink took, the last of them, and their sum.
type Moment = [u64; 7];

/// Outputs, each of which is refused once.
struct Case {
    /// What it shows.
    name: &'static str,
    /// The program.
    program: [u8; 19],
    /// The first of the outputs that are refused, and the one after the last.
    refusals: (u64, u64),
    /// The microseconds that are asked for, up to a blank.
    us: u32,
    /// When the first is refused.
    refused: Moment,
    /// When the call ends where nothing is refused.
    end: Moment,
}

/// Sixteen blanks of a flipped picture, the last of which resets the board, where nothing is refused.
const RESET: Moment = [
    202_747,
    202_747,
    811_009,
    0,
    16 * OUTPUTS,
    65_537,
    16 * 65_537,
];

/// Boards an output of which is refused.
static CASES: [Case; 4] = [
    // NOPs are steps of four T-states, and the first sample is at 32
    Case {
        name: "the first sample",
        program: NOPS,
        refusals: (1, 2),
        us: FRAME,
        refused: [8, 8, 32, 0x0008, 0, 0, 0],
        end: [12_672, 12_672, 50_688, 0x3180, OUTPUTS, 65_536, 65_536],
    },
    // eight steps of 77 T-states in all, and then halted ones of four. The first sample is 0; the
    // second is met by the step that turns sound on. From there on they are -512, but -448 for the
    // third and fourth of each 32, which are a hundred of the 1,583
    Case {
        name: "each output of a frame",
        program: WALK,
        refusals: (1, OUTPUTS + 1),
        us: FRAME,
        refused: [4, 4, 40, 0x000A, 0, 0, 0],
        end: [
            12_661,
            12_661,
            50_689,
            0x0013,
            OUTPUTS,
            65_536,
            65_536 + 1583 * (65_536 - 512) + 100 * 64,
        ],
    },
    // the step of the sixteenth blank gives a sample and a picture, and then comes the watchdog's
    // reset: the picture is the flipped one still
    Case {
        name: "the sample before a picture",
        program: FLIP,
        refusals: (16 * OUTPUTS - 1, 16 * OUTPUTS),
        us: 16 * FRAME,
        refused: [
            202_747,
            202_747,
            811_009,
            0,
            16 * OUTPUTS - 2,
            0,
            15 * 65_537,
        ],
        end: RESET,
    },
    Case {
        name: "a picture",
        program: FLIP,
        refusals: (16 * OUTPUTS, 16 * OUTPUTS + 1),
        us: 16 * FRAME,
        refused: [
            202_747,
            202_747,
            811_009,
            0,
            16 * OUTPUTS - 1,
            0,
            15 * 65_537,
        ],
        end: RESET,
    },
];

impl Rig {
    /// A board at power-on, with a sink that refuses the offer of this number; 0 is none.
    fn new(alloc: Global, program: &[u8; 19], refusal: u64) -> Result<Rig, AllocError> {
        match Board::init(alloc, set(program), SWITCHES) {
            Ok(board) => Ok(Rig {
                board,
                sink: Counting {
                    refusal,
                    taken: 0,
                    last: 0,
                    sum: 0,
                    mixed: 0,
                },
            }),
            Err(_) => Err(AllocError),
        }
    }

    /// Lets so many microseconds go by; whether an output is refused then.
    fn is_refused(&mut self, us: u32) -> bool {
        match self.board.exec(us, &mut self.sink) {
            Ok(_) => false,
            Err(fault) => fault == Fault::Refused,
        }
    }

    /// Whether it stands at a moment.
    fn is_at(&self, moment: &Moment) -> bool {
        let board = &self.board;
        let sink = &self.sink;
        [
            board.made(),
            board.steps(),
            board.time(),
            u64::from(board.regs().pc),
            sink.taken,
            sink.last,
            sink.sum,
        ] == *moment
    }

    /// Whether outputs are due, so that no step is made.
    fn has_due(&mut self) -> bool {
        match self.board.advance() {
            Ok(_) => false,
            Err(idle) => idle == Idle::OutputsDue,
        }
    }

    /// Lets the time of a case go by; whether an output is refused then, and is due.
    fn refuses(&mut self, case: &Case, refusal: u64) -> bool {
        self.is_refused(case.us)
            && (refusal != case.refusals.0 || self.is_at(&case.refused))
            && self.has_due()
    }

    /// Lets so many microseconds go by, to the end of a case, and tells the number of all outputs;
    /// 0 where it isn't the end.
    fn ended(&mut self, us: u32, case: &Case) -> u64 {
        if self.is_refused(us) || !self.is_at(&case.end) {
            0
        } else {
            self.sink.mixed
        }
    }

    /// Comes to the end of a case, after a refusal by a call for no time; tells the same.
    fn played(&mut self, case: &Case, refusal: u64) -> u64 {
        if refusal == 0 {
            self.ended(case.us, case)
        } else if self.refuses(case, refusal) {
            self.ended(0, case)
        } else {
            0
        }
    }
}

/// The number of all outputs of a case where one is refused, or none where that is 0.
fn mixed(alloc: Global, case: &Case, refusal: u64) -> u64 {
    match Rig::new(alloc, &case.program, refusal) {
        Ok(mut rig) => rig.played(case, refusal),
        Err(_) => 0,
    }
}

/// The first output of a case after whose refusal the outputs aren't those of a run without one; 0
/// where there is none.
fn not_taken_up(alloc: Global, case: &Case) -> u64 {
    let whole = mixed(alloc, case, 0);
    for refusal in case.refusals.0..case.refusals.1 {
        if whole == 0 || mixed(alloc, case, refusal) != whole {
            return refusal;
        }
    }
    0
}

#[test]
fn a_sink_that_refuses(rt: HostRuntime) {
    for case in &CASES {
        let refusal = not_taken_up(rt.alloc(), case);
        assert!(rt; refusal == 0, "{}: {refusal}", case.name);
    }
}
