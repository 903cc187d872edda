//! What an instruction does. A payload names the registers and cells concerned; numbers come from
//! the fields and the immediate of the instruction itself.

/// A place of 8 bits.
#[derive(Clone, Copy)]
pub enum BytePlace {
    /// The register in the first field.
    First,
    /// The register in the second field.
    Second,
    /// A.
    Accumulator,
    /// n, which is only read.
    Immediate,
    /// The cell at BC.
    AtBc,
    /// The cell at DE.
    AtDe,
    /// The cell at HL.
    AtHl,
    /// The cell at nn.
    AtWord,
    /// The cell at IX + d.
    AtIx,
    /// The cell at IY + d.
    AtIy,
}

/// A register of 16 bits.
#[derive(Clone, Copy)]
pub enum Pair {
    /// The pair in the first field; 3 is SP, and AF where the field is qq.
    First,
    /// HL.
    Hl,
    /// IX.
    Ix,
    /// IY.
    Iy,
}

/// A register of the interrupt and refresh logic.
#[derive(Clone, Copy)]
pub enum Special {
    /// I, the high byte of mode 2's table.
    Interrupt,
    /// R, which counts fetches.
    Refresh,
}

/// How a maskable interrupt is answered (UM0080, "Interrupt Response").
#[derive(Clone, Copy, Debug, PartialEq, Eq)]
pub enum InterruptMode {
    /// The instruction on the data bus.
    Zero,
    /// A call of 0038H.
    One,
    /// A call through the table at I * 256.
    Two,
}

/// A rotation of A.
#[derive(Clone, Copy)]
pub enum Rotation {
    /// RLCA: left within the byte.
    LeftCircular,
    /// RRCA: right within the byte.
    RightCircular,
    /// RLA: left through the carry.
    Left,
    /// RRA: right through the carry.
    Right,
}

/// What a block instruction does with one byte.
#[derive(Clone, Copy)]
pub enum BlockOperation {
    /// The cell at DE becomes the cell at HL.
    Load,
    /// A is compared with the cell at HL.
    Compare,
    /// The cell at HL becomes what port C gives.
    Input,
    /// Port C is sent the cell at HL.
    Output,
}

/// Where the pointers of a block instruction go.
#[derive(Clone, Copy)]
pub enum Direction {
    /// By 1 up.
    Up,
    /// By 1 down.
    Down,
}

/// A block instruction: LDI, CPIR, OUTD and the like.
#[derive(Clone, Copy)]
pub struct Block {
    /// What is done with each byte.
    pub operation: BlockOperation,
    /// Where the pointers go.
    pub direction: Direction,
    /// Whether the instruction is done again until its count has run out.
    pub repeats: bool,
}

/// What an instruction does to the processor's states (UM0080, "General-Purpose Arithmetic and CPU Control Groups").
#[derive(Clone, Copy)]
pub enum Control {
    /// NOP.
    Nop,
    /// HALT.
    Halt,
    /// DI.
    DisableInterrupts,
    /// EI.
    EnableInterrupts,
    /// IM.
    SetInterruptMode(InterruptMode),
}

/// What a load of a byte does (UM0080, "8-Bit Load Group").
#[derive(Clone, Copy)]
pub enum ByteLoad {
    /// LD of a byte: where it goes, then where it comes from. No flag changes.
    Load(BytePlace, BytePlace),
    /// LD A,I and LD A,R, which set flags.
    LoadFromSpecial(Special),
    /// LD I,A and LD R,A.
    LoadSpecial(Special),
}

/// What a load of a word does, and the stack (UM0080, "16-Bit Load Group").
#[derive(Clone, Copy)]
pub enum WordLoad {
    /// LD dd,nn.
    LoadPair(Pair),
    /// LD dd,(nn).
    LoadPairFromMemory(Pair),
    /// LD (nn),dd.
    StorePair(Pair),
    /// LD SP,HL.
    LoadStackPointer(Pair),
    /// PUSH.
    Push(Pair),
    /// POP.
    Pop(Pair),
}

/// What is exchanged (UM0080, "Exchange, Block Transfer, and Search Group").
#[derive(Clone, Copy)]
pub enum Exchange {
    /// EX DE,HL.
    DeHl,
    /// EX AF,AF'.
    Af,
    /// EXX.
    Banks,
    /// EX (SP),HL.
    StackTop(Pair),
}

/// What is done with a byte (UM0080, "8-Bit Arithmetic Group" and "General-Purpose Arithmetic and CPU Control
/// Groups").
#[derive(Clone, Copy)]
pub enum ByteArithmetic {
    /// ADD, ADC, SUB, SBC, AND, XOR, OR or CP, by the first field, of A and a place.
    Alu(BytePlace),
    /// INC of a byte.
    Increment(BytePlace),
    /// DEC of a byte.
    Decrement(BytePlace),
    /// DAA.
    DecimalAdjust,
    /// CPL.
    Complement,
    /// NEG.
    Negate,
    /// SCF.
    SetCarry,
    /// CCF.
    ComplementCarry,
}

/// What is done with a word (UM0080, "16-Bit Arithmetic Group").
#[derive(Clone, Copy)]
pub enum WordArithmetic {
    /// ADD HL,ss and ADD IX,pp: the pair that grows by the pair in the first field, where 2 is that
    /// same pair.
    AddPair(Pair),
    /// ADC HL,ss.
    AddPairWithCarry,
    /// SBC HL,ss.
    SubtractPairWithCarry,
    /// INC of a pair.
    IncrementPair(Pair),
    /// DEC of a pair.
    DecrementPair(Pair),
}

/// How bits go round or along (UM0080, "Rotate and Shift Group").
#[derive(Clone, Copy)]
pub enum RotateAndShift {
    /// RLCA, RRCA, RLA, RRA.
    RotateAccumulator(Rotation),
    /// RLC, RRC, RL, RR, SLA, SRA or SRL, by the first field.
    Shift(BytePlace),
    /// RLD.
    RotateDigitLeft,
    /// RRD.
    RotateDigitRight,
}

/// What is done with a bit (UM0080, "Bit Set, Reset, and Test Group"); the first field is its number.
#[derive(Clone, Copy)]
pub enum BitOperation {
    /// BIT; the first field is the bit's number.
    Test(BytePlace),
    /// RES; the first field is the bit's number.
    Reset(BytePlace),
    /// SET; the first field is the bit's number.
    Set(BytePlace),
}

/// Where a jump goes (UM0080, "Jump Group").
#[derive(Clone, Copy)]
pub enum Jump {
    /// JP nn.
    Absolute,
    /// JP cc,nn.
    If,
    /// JP (HL).
    ToPair(Pair),
    /// JR e.
    Relative,
    /// JR cc,e.
    RelativeIf,
    /// DJNZ e.
    DecrementAndJump,
}

/// What a call or a return does (UM0080, "Call and Return Group").
#[derive(Clone, Copy)]
pub enum Call {
    /// CALL nn.
    Always,
    /// CALL cc,nn.
    If,
    /// RET.
    Return,
    /// RET cc.
    ReturnIf,
    /// RETI.
    ReturnFromInterrupt,
    /// RETN.
    ReturnFromNonMaskable,
    /// RST.
    Restart,
}

/// What goes in or out through a port (UM0080, "Input and Output Group"), a byte at a time.
#[derive(Clone, Copy)]
pub enum Port {
    /// IN A,(n).
    InputByte,
    /// OUT (n),A.
    OutputByte,
    /// IN r,(C), with the register in the first field.
    Input,
    /// OUT (C),r, with the register in the first field.
    Output,
}

/// What an instruction does (UM0080, "Z80 Instruction Description"), by the manual's groups.
#[derive(Clone, Copy)]
pub enum Effect {
    /// A processor's state.
    Control(Control),
    /// A load of a byte.
    ByteLoad(ByteLoad),
    /// A load of a word, PUSH or POP.
    WordLoad(WordLoad),
    /// An exchange.
    Exchange(Exchange),
    /// LDI, CPI, INI, OUTI and their kin.
    Block(Block),
    /// Arithmetic of a byte.
    ByteArithmetic(ByteArithmetic),
    /// Arithmetic of a word.
    WordArithmetic(WordArithmetic),
    /// A rotation or a shift.
    RotateAndShift(RotateAndShift),
    /// BIT, RES or SET.
    BitOperation(BitOperation),
    /// A jump.
    Jump(Jump),
    /// A call, a return or a restart.
    Call(Call),
    /// Input or output of a byte.
    Port(Port),
}
