//! The cells of memory that instructions read as data (UM0080, "Z80 Instruction Description").

ghost use Rattle.std.specs.Prelude.{◌≡◌};
ghost use Rattle.pac_exec.specs.CellsRead as reads;
ghost use Rattle.pac_exec.specs.CellsReadProofs.{read_cells};

use crate::jumps::meets_condition;
use crate::places::address;
use crate::regs::Regs;
use DataReads::{Byte, Nothing, Word};
use pac_table::{
    BitOperation, BlockOperation, ByteArithmetic, ByteLoad, BytePlace, Call, Effect, Exchange,
    Instr, RotateAndShift, WordLoad,
};

/// The cells that are read as data, and not as code.
#[derive(Clone, Copy)]
pub enum DataReads {
    /// None.
    Nothing,
    /// The cell at this address.
    Byte(u16),
    /// The word at this address: the cell there, and then the next one, modulo 65,536.
    Word(u16),
}

/// The cell of a place that is in memory.
#[inline]
fn place_reads(place: BytePlace, instr: &Instr, regs: &Regs) -> DataReads
    ensures { read_cells result ≡ reads.place_cells place instr.now regs.now }
{
    match place {
        BytePlace::First | BytePlace::Second | BytePlace::Accumulator | BytePlace::Immediate =>
            Nothing,
        _ => Byte(address(place, instr, regs)),
    }
}

/// What a load of a byte reads.
#[inline]
#[tactic(auto, unfolding(crate::specs::CellsRead::reads_by))]
fn byte_load_reads(with: ByteLoad, instr: &Instr, regs: &Regs) -> DataReads
    ensures { read_cells result ≡ reads.reads_by (Effect.ByteLoad with) instr.now regs.now }
{
    match with {
        ByteLoad::Load(_, from) => place_reads(from, instr, regs),
        ByteLoad::LoadFromSpecial(_) | ByteLoad::LoadSpecial(_) => Nothing,
    }
}

/// What a load of a word, PUSH or POP reads.
#[inline]
#[tactic(auto, unfolding(crate::specs::CellsRead::reads_by))]
fn word_load_reads(with: WordLoad, instr: &Instr, regs: &Regs) -> DataReads
    ensures { read_cells result ≡ reads.reads_by (Effect.WordLoad with) instr.now regs.now }
{
    match with {
        WordLoad::LoadPairFromMemory(_) => Word(instr.word()),
        WordLoad::Pop(_) => Word(regs.sp),
        WordLoad::LoadPair(_)
        | WordLoad::StorePair(_)
        | WordLoad::LoadStackPointer(_)
        | WordLoad::Push(_) => Nothing,
    }
}

/// What an exchange reads.
#[inline]
#[tactic(auto, unfolding(crate::specs::CellsRead::reads_by))]
fn exchange_reads(with: Exchange, instr: &Instr, regs: &Regs) -> DataReads
    ensures { read_cells result ≡ reads.reads_by (Effect.Exchange with) instr.now regs.now }
{
    match with {
        Exchange::StackTop(_) => Word(regs.sp),
        Exchange::DeHl | Exchange::Af | Exchange::Banks => Nothing,
    }
}

/// What arithmetic of a byte reads.
#[inline]
#[tactic(auto, unfolding(crate::specs::CellsRead::reads_by))]
fn byte_arithmetic_reads(with: ByteArithmetic, instr: &Instr, regs: &Regs) -> DataReads
    ensures { read_cells result ≡ reads.reads_by (Effect.ByteArithmetic with) instr.now regs.now }
{
    match with {
        ByteArithmetic::Alu(place)
        | ByteArithmetic::Increment(place)
        | ByteArithmetic::Decrement(place) => place_reads(place, instr, regs),
        ByteArithmetic::DecimalAdjust
        | ByteArithmetic::Complement
        | ByteArithmetic::Negate
        | ByteArithmetic::SetCarry
        | ByteArithmetic::ComplementCarry => Nothing,
    }
}

/// What a rotation or a shift reads.
#[inline]
#[tactic(auto, unfolding(crate::specs::CellsRead::reads_by))]
fn rotate_and_shift_reads(with: RotateAndShift, instr: &Instr, regs: &Regs) -> DataReads
    ensures { read_cells result ≡ reads.reads_by (Effect.RotateAndShift with) instr.now regs.now }
{
    match with {
        RotateAndShift::Shift(place) => place_reads(place, instr, regs),
        RotateAndShift::RotateDigitLeft | RotateAndShift::RotateDigitRight => Byte(regs.hl()),
        RotateAndShift::RotateAccumulator(_) => Nothing,
    }
}

/// What BIT, RES or SET reads.
#[inline]
#[tactic(auto, unfolding(crate::specs::CellsRead::reads_by))]
fn bit_operation_reads(with: BitOperation, instr: &Instr, regs: &Regs) -> DataReads
    ensures { read_cells result ≡ reads.reads_by (Effect.BitOperation with) instr.now regs.now }
{
    match with {
        BitOperation::Test(place) | BitOperation::Reset(place) | BitOperation::Set(place) => {
            place_reads(place, instr, regs)
        }
    }
}

/// What RET cc reads.
#[inline]
#[tactic(auto, unfolding(crate::specs::CellsRead::reads_by))]
fn return_if_reads(instr: &Instr, regs: &Regs) -> DataReads
    ensures { read_cells result ≡ reads.reads_by (Effect.Call Call.ReturnIf) instr.now regs.now }
{
    if meets_condition(instr, regs) {
        Word(regs.sp)
    } else {
        Nothing
    }
}

/// What a call, a return or a restart reads.
#[inline]
#[tactic(auto, unfolding(crate::specs::CellsRead::reads_by))]
fn call_reads(with: Call, instr: &Instr, regs: &Regs) -> DataReads
    ensures { read_cells result ≡ reads.reads_by (Effect.Call with) instr.now regs.now }
{
    match with {
        Call::Return | Call::ReturnFromInterrupt | Call::ReturnFromNonMaskable => Word(regs.sp),
        Call::ReturnIf => return_if_reads(instr, regs),
        Call::Always | Call::If | Call::Restart => Nothing,
    }
}

/// What a step of a block instruction reads.
#[inline]
fn block_reads(operation: BlockOperation, regs: &Regs) -> DataReads
    ensures { read_cells result ≡ reads.block_reads operation regs.now }
{
    match operation {
        BlockOperation::Load | BlockOperation::Compare | BlockOperation::Output => Byte(regs.hl()),
        BlockOperation::Input => Nothing,
    }
}

/// The cells of memory that an instruction reads as data, by the registers that it finds. PC and R make no difference, so these may be
/// those before its fetch as well.
#[inline]
#[tactic(auto, unfolding(crate::specs::CellsRead::reads_by))]
pub fn data_reads(instr: &Instr, regs: &Regs) -> DataReads
    ensures { read_cells result ≡ reads.reads_of instr.now regs.now }
{
    match instr.effect() {
        Effect::ByteLoad(with) => byte_load_reads(with, instr, regs),
        Effect::WordLoad(with) => word_load_reads(with, instr, regs),
        Effect::Exchange(with) => exchange_reads(with, instr, regs),
        Effect::ByteArithmetic(with) => byte_arithmetic_reads(with, instr, regs),
        Effect::RotateAndShift(with) => rotate_and_shift_reads(with, instr, regs),
        Effect::BitOperation(with) => bit_operation_reads(with, instr, regs),
        Effect::Call(with) => call_reads(with, instr, regs),
        Effect::Block(with) => block_reads(with.operation, regs),
        Effect::Control(_) | Effect::WordArithmetic(_) | Effect::Jump(_) | Effect::Port(_) =>
            Nothing,
    }
}
