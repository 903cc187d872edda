//! Steps over memory and ports that are all free, by hand from UM0080. On the board each port gives
//! FFH to the processor and port 0 alone takes a byte; the last address is an input's, and the first
//! one is in the program ROM.

use pac_bus::{Bus, Flat};
use pac_cpu::{Cpu, Once, Regs};
use std::alloc::Global;

/// A, F, B, C, D, E, H and L, then SP and PC, and R. All other registers are 0.
type Words = ([u8; 8], u16, u16, u8);

/// A step.
struct Row {
    /// The instruction.
    name: &'static str,
    /// The registers before.
    before: Words,
    /// The cells that aren't 0 before, the code among them.
    cells: &'static [(u16, u8)],
    /// A port that isn't 0 before, or port 0.
    port: (u8, u8),
    /// The time in T-states.
    ticks: u8,
    /// The registers after.
    after: Words,
    /// The cells that change.
    written: &'static [(u16, u8)],
    /// A port that changes, or else that port again.
    given: (u8, u8),
}

/// Steps that ask ports, give to them, or lie over the end of memory.
static ROWS: [Row; 16] = [
    Row {
        name: "IN A,(01H)",
        before: ([0x23, 0xFF, 0x10, 0x07, 0, 0, 0, 0], 0, 0, 0),
        cells: &[(0, 0xDB), (1, 0x01)],
        port: (0x01, 0x7B),
        ticks: 11,
        after: ([0x7B, 0xFF, 0x10, 0x07, 0, 0, 0, 0], 0, 2, 1),
        written: &[],
        given: (0x01, 0x7B),
    },
    Row {
        name: "IN D,(C)",
        before: ([0x23, 0xFF, 0x10, 0x07, 0, 0, 0, 0], 0, 0, 0),
        cells: &[(0, 0xED), (1, 0x50)],
        port: (0x07, 0x7B),
        ticks: 12,
        after: ([0x23, 0x2D, 0x10, 0x07, 0x7B, 0, 0, 0], 0, 2, 2),
        written: &[],
        given: (0x07, 0x7B),
    },
    Row {
        name: "IN B,(C)",
        before: ([0x23, 0xFF, 0x10, 0x07, 0, 0, 0, 0], 0, 0, 0),
        cells: &[(0, 0xED), (1, 0x40)],
        port: (0x07, 0x00),
        ticks: 12,
        after: ([0x23, 0x6D, 0x00, 0x07, 0, 0, 0, 0], 0, 2, 2),
        written: &[],
        given: (0x07, 0x00),
    },
    Row {
        name: "IN A,(C), a negative byte",
        before: ([0x23, 0x00, 0x10, 0x07, 0, 0, 0, 0], 0, 0, 0),
        cells: &[(0, 0xED), (1, 0x78)],
        port: (0x07, 0x80),
        ticks: 12,
        after: ([0x80, 0x80, 0x10, 0x07, 0, 0, 0, 0], 0, 2, 2),
        written: &[],
        given: (0x07, 0x80),
    },
    // 03H has an even count of ones, so P/V is 1
    Row {
        name: "IN A,(C), a positive byte",
        before: ([0x23, 0x00, 0x10, 0x07, 0, 0, 0, 0], 0, 0, 0),
        cells: &[(0, 0xED), (1, 0x78)],
        port: (0x07, 0x03),
        ticks: 12,
        after: ([0x03, 0x04, 0x10, 0x07, 0, 0, 0, 0], 0, 2, 2),
        written: &[],
        given: (0x07, 0x03),
    },
    Row {
        name: "INI",
        before: ([0, 0, 0x10, 0x07, 0x22, 0x22, 0x10, 0x00], 0, 0x0100, 0),
        cells: &[(0x0100, 0xED), (0x0101, 0xA2)],
        port: (0x07, 0x7B),
        ticks: 16,
        after: ([0, 0x02, 0x0F, 0x07, 0x22, 0x22, 0x10, 0x01], 0, 0x0102, 2),
        written: &[(0x1000, 0x7B)],
        given: (0x07, 0x7B),
    },
    Row {
        name: "OUT (01H),A",
        before: ([0x23, 0xFF, 0x80, 0x02, 0x5A, 0, 0, 0], 0, 0, 0),
        cells: &[(0, 0xD3), (1, 0x01)],
        port: (0, 0),
        ticks: 11,
        after: ([0x23, 0xFF, 0x80, 0x02, 0x5A, 0, 0, 0], 0, 2, 1),
        written: &[],
        given: (0x01, 0x23),
    },
    Row {
        name: "OUT (C),D",
        before: ([0x23, 0xFF, 0x80, 0x02, 0x5A, 0, 0, 0], 0, 0, 0),
        cells: &[(0, 0xED), (1, 0x51)],
        port: (0, 0),
        ticks: 12,
        after: ([0x23, 0xFF, 0x80, 0x02, 0x5A, 0, 0, 0], 0, 2, 2),
        written: &[],
        given: (0x02, 0x5A),
    },
    Row {
        name: "OUTI",
        before: ([0, 0, 0x10, 0x07, 0x22, 0x22, 0x10, 0x00], 0, 0x0100, 0),
        cells: &[(0x0100, 0xED), (0x0101, 0xA3), (0x1000, 0x59)],
        port: (0, 0),
        ticks: 16,
        after: ([0, 0x02, 0x0F, 0x07, 0x22, 0x22, 0x10, 0x01], 0, 0x0102, 2),
        written: &[],
        given: (0x07, 0x59),
    },
    Row {
        name: "JP 1234H at the last address",
        before: ([0; 8], 0, 0xFFFF, 0xFF),
        cells: &[(0xFFFF, 0xC3), (0x0000, 0x34), (0x0001, 0x12)],
        port: (0, 0),
        ticks: 10,
        after: ([0; 8], 0, 0x1234, 0x80),
        written: &[],
        given: (0, 0),
    },
    Row {
        name: "LDIR at the last address",
        before: ([0, 0, 0x00, 0x02, 0x4C, 0x00, 0, 0], 0, 0xFFFF, 0),
        cells: &[(0xFFFF, 0xED), (0x0000, 0xB0)],
        port: (0, 0),
        ticks: 21,
        after: ([0, 0x04, 0x00, 0x01, 0x4C, 0x01, 0, 0x01], 0, 0xFFFF, 2),
        written: &[(0x4C00, 0xB0)],
        given: (0, 0),
    },
    Row {
        name: "LDD to the first address",
        before: ([0, 0, 0x00, 0x01, 0, 0, 0x11, 0x11], 0, 0x0100, 0),
        cells: &[(0x0100, 0xED), (0x0101, 0xA8), (0x1111, 0x88)],
        port: (0, 0),
        ticks: 16,
        after: ([0, 0, 0, 0, 0xFF, 0xFF, 0x11, 0x10], 0, 0x0102, 2),
        written: &[(0x0000, 0x88)],
        given: (0, 0),
    },
    Row {
        name: "LD (0FFFFH),HL",
        before: ([0, 0, 0, 0, 0, 0, 0x48, 0x3A], 0, 0x0100, 0),
        cells: &[(0x0100, 0x22), (0x0101, 0xFF), (0x0102, 0xFF)],
        port: (0, 0),
        ticks: 16,
        after: ([0, 0, 0, 0, 0, 0, 0x48, 0x3A], 0, 0x0103, 1),
        written: &[(0x0000, 0x48), (0xFFFF, 0x3A)],
        given: (0, 0),
    },
    Row {
        name: "PUSH BC",
        before: ([0x22, 0x33, 0x12, 0x34, 0, 0, 0, 0], 0x0001, 0x0100, 0),
        cells: &[(0x0100, 0xC5)],
        port: (0, 0),
        ticks: 11,
        after: ([0x22, 0x33, 0x12, 0x34, 0, 0, 0, 0], 0xFFFF, 0x0101, 1),
        written: &[(0x0000, 0x12), (0xFFFF, 0x34)],
        given: (0, 0),
    },
    Row {
        name: "EX (SP),HL",
        before: ([0, 0, 0, 0, 0x28, 0x22, 0x70, 0x12], 0xFFFF, 0x0100, 0),
        cells: &[(0x0100, 0xE3), (0x0000, 0x48), (0xFFFF, 0x90)],
        port: (0, 0),
        ticks: 19,
        after: ([0, 0, 0, 0, 0x28, 0x22, 0x48, 0x90], 0xFFFF, 0x0101, 1),
        written: &[(0x0000, 0x70), (0xFFFF, 0x12)],
        given: (0, 0),
    },
    Row {
        name: "CALL 2135H",
        before: ([0; 8], 0x0001, 0x1A47, 0),
        cells: &[(0x1A47, 0xCD), (0x1A48, 0x35), (0x1A49, 0x21)],
        port: (0, 0),
        ticks: 17,
        after: ([0; 8], 0xFFFF, 0x2135, 1),
        written: &[(0x0000, 0x1A), (0xFFFF, 0x4A)],
        given: (0, 0),
    },
];

/// The registers of words.
fn registers(words: &Words) -> Regs {
    let ([a, f, b, c, d, e, h, l], sp, pc, r) = *words;
    Regs {
        a,
        f,
        b,
        c,
        d,
        e,
        h,
        l,
        sp,
        pc,
        r,
        ..Cpu::power_on().regs()
    }
}

/// Puts bytes into cells and into a port.
fn put(bus: &mut Flat, cells: &[(u16, u8)], port: (u8, u8)) {
    for (at, byte) in cells {
        bus.write(*at, *byte);
    }
    bus.output(port.0, port.1);
}

/// Whether two buses have the same bytes everywhere.
fn are_same(bus: &Flat, other: &Flat) -> bool {
    for at in 0..=0xFFFFu16 {
        let port = (at % 256) as u8;
        if bus.read(at) != other.read(at) || bus.input(port) != other.input(port) {
            return false;
        }
    }
    true
}

/// Does a step; whether it takes its time and leaves its registers.
fn steps(bus: &mut Flat, row: &Row) -> bool {
    let mut cpu = Cpu::with_regs(registers(&row.before));
    match cpu.step(bus, None) {
        Once::Stepped { ticks, kind: _ } => {
            ticks == row.ticks && cpu.regs() == registers(&row.after)
        }
        Once::Stopped(_) => false,
    }
}

/// Whether a row is so, over two buses that are all 0.
fn is_so(bus: &mut Flat, wanted: &mut Flat, row: &Row) -> bool {
    put(bus, row.cells, row.port);
    put(wanted, row.cells, row.port);
    put(wanted, row.written, row.given);
    steps(bus, row) && are_same(bus, wanted)
}

/// Whether a row is so.
fn is_right(alloc: Global, row: &Row) -> bool {
    match (Flat::new(alloc), Flat::new(alloc)) {
        (Ok(mut bus), Ok(mut wanted)) => is_so(&mut bus, &mut wanted, row),
        _ => false,
    }
}

#[test]
fn steps_over_free_memory(rt: HostRuntime) {
    for row in &ROWS {
        assert!(rt; is_right(rt.alloc(), row), "{}", row.name);
    }
}
