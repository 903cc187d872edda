//! What is told of a run.

ghost use Rattle.std.specs.Prelude.{◌≡◌};
ghost use Rattle.pac_block.specs.Codes as codes;

use pac_board::{Cause, Stop};

/// What a call of `pac_exec` did. What isn't to be told is 0.
#[repr(C)]
#[derive(Clone, Copy)]
pub struct PacRan {
    /// T-states that went by.
    pub ticks: u64,
    /// Samples that were given, at the head of the buffer.
    pub samples: u32,
    /// Vertical blanks that came: pictures that were finished.
    pub pictures: u32,
    /// Why the board stopped; 0 where it didn't, and then all below is 0.
    pub stop: u32,
    /// Where it stopped.
    pub pc: u16,
    /// The bytes from there on.
    pub bytes: [u8; 4],
    /// The interrupt vector where that is the reason, and else 0.
    pub vector: u8,
    /// 0.
    pub zero: u8,
}

/// The number of a stop's cause.
fn number(cause: Cause) -> u32
    ensures { result ≡ codes.cause_number cause }
{
    match cause {
        Cause::Opcode => 1,
        Cause::Vector(_) => 2,
    }
}

/// The interrupt vector, where it is the cause.
fn vector(cause: Cause) -> u8
    ensures { result ≡ codes.vector_told cause }
{
    match cause {
        Cause::Opcode => 0,
        Cause::Vector(byte) => byte,
    }
}

/// What is told of so many T-states, samples and pictures, and of a stop.
pub fn told(ticks: u64, samples: u32, pictures: u32, stop: Option<Stop>) -> PacRan
    ensures { result ≡ codes.ran_of ticks samples pictures stop }
{
    match stop {
        None => {
            let bytes = [0; 4];
            PacRan {
                ticks,
                samples,
                pictures,
                stop: 0,
                pc: 0,
                bytes,
                vector: 0,
                zero: 0,
            }
        }
        Some(stop) => {
            let bytes = stop.bytes;
            PacRan {
                ticks,
                samples,
                pictures,
                stop: number(stop.cause),
                pc: stop.pc,
                bytes,
                vector: vector(stop.cause),
                zero: 0,
            }
        }
    }
}

/// The bytes of a `PacRan` as C lays it out, in a host's memory: what a call for some time writes.
#[repr(C)]
#[derive(Drop)]
pub struct RanBytes {
    /// Numbers with the low byte first; the last four are 0.
    pub bytes: [u8; 32],
}

/// The bytes of what is told.
pub fn bytes_of(ran: &PacRan) -> [u8; 32]
    ensures { result ≡ codes.ran_bytes ran.now }
{
    let [t0, t1, t2, t3, t4, t5, t6, t7] = ran.ticks.to_le_bytes();
    let [s0, s1, s2, s3] = ran.samples.to_le_bytes();
    let [p0, p1, p2, p3] = ran.pictures.to_le_bytes();
    let [e0, e1, e2, e3] = ran.stop.to_le_bytes();
    let [pc, pc_high] = ran.pc.to_le_bytes();
    let [b0, b1, b2, b3] = ran.bytes;
    let (vector, zero) = (ran.vector, ran.zero);
    [
        t0, t1, t2, t3, t4, t5, t6, t7, s0, s1, s2, s3, p0, p1, p2, p3, e0, e1, e2, e3, pc,
        pc_high, b0, b1, b2, b3, vector, zero, 0, 0, 0, 0,
    ]
}
