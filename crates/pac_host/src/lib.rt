//! The board behind a C interface: a host keeps a board's state as a block of its own memory, and hands that block, its ROMs and
//! its buffers in with each call. Nothing else is kept, and no memory is taken. The calls' work is that of `pac_block` and `pac_live`.
#![tactic(auto)]

ghost use Rattle.std.specs.Prelude.{◌≡◌};
ghost use Rattle.pac_board.specs.State.{board_after_reset};
ghost use Rattle.pac_state.specs.Saved.{file_size};
ghost use Rattle.pac_block.specs.Codes.{Answers};
ghost use Rattle.pac_block.specs.Host as host;
ghost use Rattle.pac_live.specs.Live as live_specs;
ghost use Rattle.pac_live.specs.LiveFiles as live_files_specs;
ghost use Rattle.pac_live.specs.LiveLines as live_lines_specs;
ghost use Rattle.pac_live.specs.LiveLook as live_look_specs;
ghost use Rattle.pac_live.specs.LiveMemory.{live_size};
ghost use Rattle.pac_live.specs.LiveStep as live_step_specs;
ghost use Rattle.pac_live.specs.LiveTime as live_time_specs;
ghost use Rattle.pac_live.specs.LiveUntil as live_until_specs;

use pac_block::codes::code;
use pac_block::{calls, draw, files, peek};
pub use pac_block::{HostFault, PacBoard, PacRan, RanBytes};
use pac_board::{Flags, Inputs};
pub use pac_live::{Ended, PacLive, PacRegisters, PacUntil};
use pac_live::{live_calls, live_files, live_lines, live_look, live_step, live_time, live_until};

/// The bytes of a board's block: a host that knows another size was made for another library.
#[unsafe(no_mangle)]
pub extern "C" fn pac_size() -> usize
    ensures { result ≡ file_size }
{
    67_756
}

/// Makes a board at power-on, whose DIP switches give the byte `switches`. Whatever is in `board` before is not looked at.
/// `WrongLength`: `roms` hasn't 25,120 bytes.
#[unsafe(no_mangle)]
pub extern "C" fn pac_init(board: &mut PacBoard, roms: &[u8], switches: u8) -> u32
    ensures { Answers (λ answer. host.Inits roms.now switches board.old.bytes answer
        board.new.bytes) result }
{
    code(calls::init(board, roms, switches))
}

/// What the watchdog does: the processor begins at 0000H again, latch, request and the watchdog's count are cleared; all else stays.
/// `NoBoard`.
#[unsafe(no_mangle)]
pub extern "C" fn pac_reset(board: &mut PacBoard) -> u32
    ensures { Answers (λ answer. host.Becomes board_after_reset board.old.bytes answer
        board.new.bytes) result }
{
    code(calls::reset(board))
}

/// Lets the inputs of `clear` go, and then holds those of `set`; `pac_hold(board, mask, 0xFFFF)` holds these and no other. The program sees
/// it from the next call of `pac_exec` on. `NoBoard`.
#[unsafe(no_mangle)]
pub extern "C" fn pac_hold(board: &mut PacBoard, set: u16, clear: u16) -> u32
    ensures { Answers (λ answer. host.Becomes (host.board_holding set clear) board.old.bytes answer
        board.new.bytes) result }
{
    let set = Inputs::from_bits_retain(set);
    let clear = Inputs::from_bits_retain(clear);
    code(calls::hold(board, set, clear))
}

/// Lets so many microseconds go by: the board runs until its time is the one that was asked in all, and at most 22 T-states longer, since
/// an instruction isn't cut. The samples, 96,000 a second, go to the head of `samples`, whose rest stays, and what was done to `ran`.
/// Where the board stops, the call is done and `ran.stop` tells why; a further call stops at once, and gives nothing. After a reset or
/// with other ROMs the board goes on from the stop's time: what was asked past that is forgotten.
/// `WrongLength`: `roms` hasn't 25,120 bytes. `NoBoard`. `TooLong`. `NoRoom`: of a board that was made by `pac_init`, whatever calls but
/// `pac_load` came since, room for `microseconds * 12 / 125 + 2` samples is always enough; those are 1,586 for a frame. A state file's board
/// that is behind the time asked of it wants room for that time, too.
#[unsafe(no_mangle)]
pub extern "C" fn pac_exec(
    board: &mut PacBoard,
    roms: &[u8],
    microseconds: u32,
    samples: &mut [i16],
    ran: &mut RanBytes,
) -> u32
    ensures { Answers (λ answer. host.Execs roms.now board.old.bytes microseconds
        samples.old ran.old.bytes answer
        board.new.bytes samples.new ran.new.bytes) result }
{
    code(calls::exec(board, roms, microseconds, samples, ran))
}

/// Draws the picture as it stands: after a call of `pac_exec` that ended with a blank, as one for 16,500 microseconds does from power-on, the
/// whole picture of that frame. 224 rows from the top, each of 288 pixels from the left, each the bytes red, green, blue and 255.
/// `WrongLength`: `roms` hasn't 25,120 bytes, or `rgba` hasn't 258,048 bytes. `NoBoard`.
#[unsafe(no_mangle)]
pub extern "C" fn pac_draw(board: &PacBoard, roms: &[u8], rgba: &mut [u8]) -> u32
    ensures { Answers (λ answer. host.Draws roms.now board.now.bytes rgba.old answer rgba.new)
        result }
{
    code(draw::draw(board, roms, rgba))
}

/// Writes the board's state file, the one that `pacboard run --load` and `pac_load` take, with the digest of the ROM set in it.
/// `WrongLength`: `roms` hasn't 25,120 bytes, or `text` hasn't 67,756 bytes. `NoBoard`.
#[unsafe(no_mangle)]
pub extern "C" fn pac_save(board: &PacBoard, roms: &[u8], text: &mut [u8]) -> u32
    ensures { Answers (λ answer. host.WritesFile roms.now board.now.bytes text.old answer text.new)
        result }
{
    code(files::save(board, roms, text))
}

/// Makes the board of a state file, of any length. Whatever is in `board` before is not looked at.
/// `WrongLength`: `roms` hasn't 25,120 bytes. `NoFile`: the file is refused, docs/FORMATS.md says why; a wrong length is V3.
#[unsafe(no_mangle)]
pub extern "C" fn pac_load(board: &mut PacBoard, roms: &[u8], text: &[u8]) -> u32
    ensures { Answers (λ answer. host.TakesFile roms.now text.now board.old.bytes answer
        board.new.bytes) result }
{
    code(files::load(board, roms, text))
}

/// Writes what the processor would read at as many addresses as `bytes` has room for, the first of which is `address`; after FFFFH comes
/// 0000H. What it would read of a port has the inputs and the switches as they are.
/// `WrongLength`: `roms` hasn't 25,120 bytes. `NoBoard`.
#[unsafe(no_mangle)]
pub extern "C" fn pac_peek(board: &PacBoard, roms: &[u8], address: u16, bytes: &mut [u8]) -> u32
    ensures { Answers (λ answer. host.Peeks roms.now board.now.bytes address bytes.old
        answer bytes.new) result }
{
    code(peek::peek(board, roms, address, bytes))
}

/// The bytes of memory that a live board takes.
#[unsafe(no_mangle)]
pub extern "C" fn pac_live_size() -> usize
    ensures { result ≡ live_size }
{
    live_calls::size()
}

/// Opens a handle: its memory becomes the board at power-on, with these ROMs and the byte of the DIP switches. A board that lay there before
/// is gone.
/// `WrongLength`: `roms` hasn't 25,120 bytes, or `live->size` is less than `pac_live_size()`.
#[unsafe(no_mangle)]
pub extern "C" fn pac_live_open(live: &mut PacLive, roms: &[u8], switches: u8) -> u32
    ensures { Answers (λ answer. live_specs.OpensLive roms.now switches answer live.old live.new)
        result }
{
    code(live_calls::open(live, roms, switches))
}

/// Closes a handle: its memory is the host's, which may open it again. `Closed`.
#[unsafe(no_mangle)]
pub extern "C" fn pac_live_close(live: &mut PacLive) -> u32
    ensures { Answers (λ answer. live_specs.Closes answer live.old live.new) result }
{
    code(live_calls::close(live))
}

/// Becomes the board of a block and ROMs. `Closed`.
/// `WrongLength`: `roms` hasn't 25,120 bytes. `NoBoard`.
#[unsafe(no_mangle)]
pub extern "C" fn pac_live_put(live: &mut PacLive, roms: &[u8], board: &PacBoard) -> u32
    ensures { Answers (λ answer. live_specs.Lives (Unit {0})
        (live_specs.Putting roms.now board.now.bytes) answer live.old live.new) result }
{
    code(live_calls::put(live, roms, board))
}

/// Writes the board's block, whatever `board` was before: a snapshot, which any call of a block and `pac_live_put` take. `Closed`.
#[unsafe(no_mangle)]
pub extern "C" fn pac_live_give(live: &mut PacLive, board: &mut PacBoard) -> u32
    ensures { Answers (λ answer. live_specs.Lives (board.new.bytes ≡ board.old.bytes)
        (live_specs.GivingBlock board.new.bytes)
        answer live.old live.new) result }
{
    code(live_calls::give(live, board))
}

/// What the watchdog does: as `pac_reset`. `Closed`.
#[unsafe(no_mangle)]
pub extern "C" fn pac_live_reset(live: &mut PacLive) -> u32
    ensures { Answers (λ answer. live_specs.Lives (Unit {0}) (live_specs.Becoming board_after_reset)
        answer live.old live.new) result }
{
    code(live_calls::reset(live))
}

/// Lets the inputs of `clear` go, and then holds those of `set`: as `pac_hold`. `Closed`.
#[unsafe(no_mangle)]
pub extern "C" fn pac_live_hold(live: &mut PacLive, set: u16, clear: u16) -> u32
    ensures { Answers (λ answer. live_specs.Lives (Unit {0})
        (live_specs.Becoming (host.board_holding set clear))
        answer live.old live.new) result }
{
    let set = Inputs::from_bits_retain(set);
    let clear = Inputs::from_bits_retain(clear);
    code(live_calls::hold(live, set, clear))
}

/// Lets so many microseconds go by: as `pac_exec`. `Closed`. `TooLong`. `NoRoom`, as there.
#[unsafe(no_mangle)]
pub extern "C" fn pac_live_exec(
    live: &mut PacLive,
    microseconds: u32,
    samples: &mut [i16],
    ran: &mut RanBytes,
) -> u32
    ensures { Answers (λ answer. live_specs.Lives
        ((samples.new ≡ samples.old) × (ran.new.bytes ≡ ran.old.bytes))
        (live_time_specs.Executing microseconds samples.old samples.new ran.old.bytes ran.new.bytes)
        answer live.old live.new) result }
{
    code(live_time::exec(live, microseconds, samples, ran))
}

/// Does exactly one step: an instruction, one round of a repeating one, a halted step or an interrupt's acceptance. Its samples go to the head
/// of `samples`, and what was done to `ran`. Where the board stops, no step is done, and `ran.stop` tells why. What was asked in all stays, so
/// `pac_live_exec` goes on from there to the time that it would have gone to. `Closed`. `TooLong`.
/// `NoRoom`: room for 2 samples is always enough.
#[unsafe(no_mangle)]
pub extern "C" fn pac_live_step(live: &mut PacLive, samples: &mut [i16], ran: &mut RanBytes) -> u32
    ensures { Answers (λ answer. live_specs.Lives
        ((samples.new ≡ samples.old) × (ran.new.bytes ≡ ran.old.bytes))
        (live_step_specs.Stepping samples.old samples.new ran.old.bytes ran.new.bytes) answer
        live.old live.new) result }
{
    code(live_step::step(live, samples, ran))
}

/// Goes on until so many T-states are over from now, and at most 22 longer; or the board is before an address of the set; or a step wrote to a
/// watched address, or read there as data; or the board can't go on; or the buffer has no room for the next sample. `ran.why` tells which of
/// these. `places` has 65,536 bytes, one for each address, which isn't 0 where it is in the set; or none, and then no address is. `watched` has
/// 65,536 bytes, too: 1 where writes to the address are watched, also of the byte that is there, 2 where reads of it are, 3 where both are; or
/// none. A step that does both is told as a write. Addresses are as the program writes them: the mirrors of a cell are others. Where there is
/// time, one step at least is done, so that the board goes on from an address that it is at. The samples go to the head of `samples`. What had
/// no room stays due, in the block, too, and the next call gives it first: that call then goes on as this one would have, and ends at once
/// where the board is at an address of the set. Without any room a board goes on up to the step that gives a sample, and then no further. What
/// was asked in all stays, so `pac_live_exec` goes on from there to the time that it would have gone to.
/// `Closed`. `TooLong`: the time would pass 2^52 T-states. `WrongLength`: `places` or `watched` has neither 65,536 bytes nor none.
#[unsafe(no_mangle)]
pub extern "C" fn pac_live_until(
    live: &mut PacLive,
    ticks: u32,
    places: &[u8],
    watched: &[u8],
    samples: &mut [i16],
    ran: &mut PacUntil,
) -> u32
    ensures { Answers (λ answer. live_specs.Lives
        ((samples.new ≡ samples.old) × (ran.new ≡ ran.old))
        (live_until_specs.Going ticks places.now watched.now samples.old
        samples.new ran.old ran.new)
        answer live.old live.new) result }
{
    code(live_until::until(live, ticks, places, watched, samples, ran))
}

/// Writes what the processor would read at as many addresses as `bytes` has room for, the first of which is `address`: as `pac_peek`.
/// `Closed`.
#[unsafe(no_mangle)]
pub extern "C" fn pac_live_peek(live: &mut PacLive, address: u16, bytes: &mut [u8]) -> u32
    ensures { Answers (λ answer. live_specs.Lives (bytes.new ≡ bytes.old)
        (live_look_specs.Peeking address bytes.old bytes.new)
        answer live.old live.new) result }
{
    code(live_look::peek(live, address, bytes))
}

/// Tells the registers. `Closed`.
#[unsafe(no_mangle)]
pub extern "C" fn pac_live_registers(live: &mut PacLive, registers: &mut PacRegisters) -> u32
    ensures { Answers (λ answer. live_specs.Lives (registers.new ≡ registers.old)
        (live_look_specs.Telling registers.new)
        answer live.old live.new) result }
{
    code(live_look::tell(live, registers))
}

/// Draws the picture as it stands, each pixel by four bytes in this order: 0 is red, green, blue and 255, as `pac_draw` has them, and any
/// other number blue, green, red and 255. `Closed`.
/// `WrongLength`: `pixels` hasn't 258,048 bytes.
#[unsafe(no_mangle)]
pub extern "C" fn pac_live_draw(live: &mut PacLive, order: u8, pixels: &mut [u8]) -> u32
    ensures { Answers (λ answer. live_specs.Lives (pixels.new ≡ pixels.old)
        (live_look_specs.Drawing order pixels.old pixels.new) answer live.old live.new) result }
{
    code(live_look::draw(live, order, pixels))
}

/// Gives the picture as it stands by its colour numbers, 0 to 15: 224 rows from the top, each of 288 from the left. And the colours of the
/// numbers in their order, each the bytes red, green, blue and 255. `pac_live_draw` draws each number in its colour. `Closed`.
/// `WrongLength`: `lines` hasn't 64,512 bytes, or `palette` hasn't 64 bytes.
#[unsafe(no_mangle)]
pub extern "C" fn pac_live_lines(live: &mut PacLive, lines: &mut [u8], palette: &mut [u8]) -> u32
    ensures { Answers (λ answer. live_specs.Lives
        ((lines.new ≡ lines.old) × (palette.new ≡ palette.old))
        (live_lines_specs.GivingLines lines.old lines.new palette.old palette.new) answer
        live.old live.new) result }
{
    code(live_lines::lines(live, lines, palette))
}

/// Writes the board's state file, with the digest of its ROM set in it: as `pac_save`. `Closed`.
/// `WrongLength`: `text` hasn't 67,756 bytes.
#[unsafe(no_mangle)]
pub extern "C" fn pac_live_save(live: &mut PacLive, text: &mut [u8]) -> u32
    ensures { Answers (λ answer. live_specs.Lives (text.new ≡ text.old)
        (live_files_specs.Saving text.old text.new)
        answer live.old live.new) result }
{
    code(live_files::save(live, text))
}

/// Takes the state of a state file of the board's ROMs, of any length: as `pac_load`. `Closed`.
/// `NoFile`: the file is refused, docs/FORMATS.md says why; a wrong length is V3.
#[unsafe(no_mangle)]
pub extern "C" fn pac_live_load(live: &mut PacLive, text: &[u8]) -> u32
    ensures { Answers (λ answer. live_specs.Lives (Unit {0}) (live_files_specs.Loading text.now)
        answer live.old live.new) result }
{
    code(live_files::load(live, text))
}
