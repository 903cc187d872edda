//! What the block of a board begins with, up to its picture, after a call that leaves the picture as it is: no board is made for it.

ghost use Rattle.pac_board.specs.Entry.{Reset, view_after};
ghost use Rattle.pac_board.specs.Fields.{state_of};
ghost use Rattle.pac_board.specs.Inputs.{mask};
ghost use Rattle.pac_board.specs.Latched.{watchdog_limit};
ghost use Rattle.pac_board.specs.MemoryFields.{view_of_fields};
ghost use Rattle.pac_board.specs.MemoryView.{held_with, held_without};
ghost use Rattle.pac_board.specs.PictureState.{black};
ghost use Rattle.pac_board.specs.RomParts.{Parts};
ghost use Rattle.pac_board.specs.State.{board_after_reset, nothing_due, power_on_board};
ghost use Rattle.pac_board.specs.Wave.{power_on_accumulators};
ghost use Rattle.pac_cpu.specs.Power.{power_on_regs};
ghost use Rattle.pac_block.specs.Handed.{TellsFront};
ghost use Rattle.pac_block.specs.Host as host;
ghost use Rattle.pac_state.specs.Fronts.{IsFrontOf};
ghost use Rattle.std.specs.Prelude.{◌≡◌, ◌<◌};

use crate::block::{PacBoard, open};
use crate::codes::HostFault;
use pac_board::{Due, Fields, Flags, Inputs, MemoryFields, RawLines};
use pac_cpu::Cpu;
use pac_latch::Latch;
use pac_map::Memory;
use pac_state::block_front;

/// The bytes before the picture.
type Front = [u8; 3224];

/// The fields of the board at power-on, of a memory and lines that are as they are then.
fn power_on_fields<'a>(memory: MemoryFields<'a>, lines: &'a RawLines) -> Fields<'a>
    ensures { state_of result ≡ record {
      now = record {
        regs = power_on_regs;
        board = record {
          memory = view_of_fields memory.entry;
          accumulators = power_on_accumulators;
          lines = lines.now;
        };
        time = 0;
        steps = 0;
      };
      asked = 0;
      due = nothing_due;
    } }
{
    Fields {
        regs: Cpu::power_on().regs(),
        time: 0,
        steps: 0,
        asked: 0,
        memory,
        accumulators: [0; 3],
        due: Due::NOTHING,
        lines,
    }
}

/// At power-on, with a byte of the DIP switches: over these lines, which are black.
pub(crate) fn power_on_front(lines: &RawLines, switches: u8) -> Front
    requires { lines.now ≡ black }
    ensures { (set : Parts) → IsFrontOf (power_on_board set switches).state result }
{
    let kept = Memory::new(switches);
    block_front(&power_on_fields(kept.fields(), lines))
}

/// The memory once its board is reset.
fn reset_memory<'a>(memory: &MemoryFields<'a>) -> MemoryFields<'a>
    requires { memory.now.count < watchdog_limit }
    ensures view { view_of_fields result ≡ view_after (view_of_fields memory.now) Reset }
    ensures count { result.count < watchdog_limit }
{
    let mut kept = Latch::of(memory.latch, memory.vector, memory.requested, memory.count);
    kept.reset();
    MemoryFields {
        latch: kept.bits(),
        vector: kept.vector(),
        requested: kept.is_requested(),
        count: kept.count(),
        ..*memory
    }
}

/// After a reset of a block's board.
pub(crate) fn reset_front(block: &PacBoard) -> Result<Front, HostFault>
    ensures { TellsFront board_after_reset block.now.bytes result }
{
    let fields = open(block)?;
    let mut cpu = Cpu::with_regs(fields.regs);
    cpu.reset();
    let regs = cpu.regs();
    let memory = reset_memory(&fields.memory);
    Ok(block_front(&Fields {
        regs,
        memory,
        ..fields
    }))
}

/// The inputs that are held once some are let go, and others held then.
fn holding(held: Inputs, set: Inputs, clear: Inputs) -> Inputs
    ensures { mask result ≡ held_with (held_without (mask held) (mask clear)) (mask set) }
{
    let mut held = held;
    held.remove(clear);
    held.insert(set);
    held
}

/// Where a block's board lets some inputs go, and holds others then.
pub(crate) fn holding_front(
    block: &PacBoard,
    set: Inputs,
    clear: Inputs,
) -> Result<Front, HostFault>
    ensures { TellsFront (host.board_holding (mask set) (mask clear)) block.now.bytes result }
{
    let fields = open(block)?;
    let held = holding(fields.memory.held, set, clear);
    let memory = MemoryFields {
        held,
        ..fields.memory
    };
    Ok(block_front(&Fields { memory, ..fields }))
}
