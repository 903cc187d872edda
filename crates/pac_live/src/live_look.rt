//! What a host sees of a live board: memory, registers and the picture.

ghost use Rattle.std.specs.Prelude.{◌≡◌, length};
ghost use Rattle.pac_board.specs.PictureState.{palette_of};
ghost use Rattle.pac_live.specs.Live as live_specs;
ghost use Rattle.pac_live.specs.LiveLook as look;

use crate::live::PacLive;
use crate::live_calls::check_open;
use pac_block::HostFault;
use pac_block::draw::{RGBA_SIZE, put_lines};
use pac_block::pixels::Channels;
use pac_board::{Board, InterruptMode};
use pac_num::offset;

/// The registers of a board by their names (UM0080, "Z80 CPU Register Description").
#[repr(C)]
#[derive(Clone, Copy)]
pub struct PacRegisters {
    /// T-states since power-on.
    pub time: u64,
    /// Steps since power-on.
    pub steps: u64,
    /// The program counter.
    pub pc: u16,
    /// The stack pointer.
    pub sp: u16,
    /// The first index register.
    pub ix: u16,
    /// The second index register.
    pub iy: u16,
    /// A.
    pub a: u8,
    /// F.
    pub f: u8,
    /// B.
    pub b: u8,
    /// C.
    pub c: u8,
    /// D.
    pub d: u8,
    /// E.
    pub e: u8,
    /// H.
    pub h: u8,
    /// L.
    pub l: u8,
    /// A'.
    pub alternate_a: u8,
    /// F'.
    pub alternate_f: u8,
    /// B'.
    pub alternate_b: u8,
    /// C'.
    pub alternate_c: u8,
    /// D'.
    pub alternate_d: u8,
    /// E'.
    pub alternate_e: u8,
    /// H'.
    pub alternate_h: u8,
    /// L'.
    pub alternate_l: u8,
    /// The high byte of the table of interrupt mode 2.
    pub i: u8,
    /// The refresh counter.
    pub r: u8,
    /// 0 to 2.
    pub interrupt_mode: u8,
    /// Whether interrupts are accepted.
    pub iff1: bool,
    /// What a non-maskable interrupt would have kept of `iff1`.
    pub iff2: bool,
    /// Whether HALT has stopped the processor until an interrupt.
    pub halted: bool,
    /// Whether the last step was EI, after which no interrupt is accepted.
    pub after_ei: bool,
    /// 0.
    pub zero: u8,
}

/// The number of an interrupt mode.
fn number(mode: InterruptMode) -> u8
    ensures { result ≡ look.mode_number mode }
{
    match mode {
        InterruptMode::Zero => 0,
        InterruptMode::One => 1,
        InterruptMode::Two => 2,
    }
}

/// The registers of a board.
fn registers(board: &Board) -> PacRegisters
    ensures { result ≡ look.registers_of board.now }
{
    let regs = board.regs();
    let other = regs.alternate;
    PacRegisters {
        time: board.time(),
        steps: board.steps(),
        pc: regs.pc,
        sp: regs.sp,
        ix: regs.ix,
        iy: regs.iy,
        a: regs.a,
        f: regs.f,
        b: regs.b,
        c: regs.c,
        d: regs.d,
        e: regs.e,
        h: regs.h,
        l: regs.l,
        alternate_a: other.a,
        alternate_f: other.f,
        alternate_b: other.b,
        alternate_c: other.c,
        alternate_d: other.d,
        alternate_e: other.e,
        alternate_h: other.h,
        alternate_l: other.l,
        i: regs.i,
        r: regs.r,
        interrupt_mode: number(regs.mode),
        iff1: regs.iff1,
        iff2: regs.iff2,
        halted: regs.halted,
        after_ei: regs.after_ei,
        zero: 0,
    }
}

/// Tells the registers of a board.
fn tell_registers(board: &mut Board, told: &mut PacRegisters) -> Result<(), HostFault>
    ensures { look.Telling told.new result board.old board.new }
{
    *told = registers(board);
    Ok(())
}

/// Tells the registers of a live board.
pub fn tell(live: &mut PacLive, told: &mut PacRegisters) -> Result<(), HostFault>
    ensures { live_specs.Lives (told.new ≡ told.old) (look.Telling told.new)
        result live.old live.new }
{
    check_open(live)?;
    tell_registers(live.board(), told)
}

/// Writes what the processor would read at as many addresses as there is room for, from one on.
fn put_peeked(board: &Board, address: u16, bytes: &mut [u8])
    ensures { bytes.new ≡ look.bytes_read_of board.now address (length bytes.old) }
{
    let mut at = address;
    for place in 0..bytes.len() {
        bytes[place] = board.peek(at);
        at = offset(at, 1);
    }
}

/// Peeks at a board.
fn peek_board(board: &mut Board, address: u16, bytes: &mut [u8]) -> Result<(), HostFault>
    ensures { look.Peeking address bytes.old bytes.new result board.old board.new }
{
    put_peeked(board, address, bytes);
    Ok(())
}

/// Peeks at a live board.
pub fn peek(live: &mut PacLive, address: u16, bytes: &mut [u8]) -> Result<(), HostFault>
    ensures { live_specs.Lives (bytes.new ≡ bytes.old) (look.Peeking address bytes.old bytes.new)
        result live.old live.new }
{
    check_open(live)?;
    peek_board(live.board(), address, bytes)
}

/// The palette of a board, whose colours have their bytes in this order.
fn palette_in(order: u8, board: &Board) -> Channels
    ensures { result ≡ look.palette_in order (palette_of board.now.set.colours) }
{
    let palette = Channels::of(board.set().colours());
    if order == 0 {
        palette
    } else {
        palette.backwards()
    }
}

/// Draws the picture of a board as it stands.
fn draw_board(board: &mut Board, order: u8, pixels: &mut [u8]) -> Result<(), HostFault>
    ensures { look.Drawing order pixels.old pixels.new result board.old board.new }
{
    if pixels.len() != RGBA_SIZE {
        return Err(HostFault::WrongLength);
    }
    let palette = palette_in(order, board);
    put_lines(pixels, &palette, board.picture().lines().raw());
    Ok(())
}

/// Draws the picture of a live board.
pub fn draw(live: &mut PacLive, order: u8, pixels: &mut [u8]) -> Result<(), HostFault>
    ensures { live_specs.Lives (pixels.new ≡ pixels.old) (look.Drawing order pixels.old pixels.new)
        result live.old live.new }
{
    check_open(live)?;
    draw_board(live.board(), order, pixels)
}
