//! What an instruction looks like in source: its mnemonic and the shapes of its operands.

ghost use Rattle.std.specs.Prelude.{◌≡◌};
ghost use Rattle.pac_table.specs.Mnemonics.{is_family};

/// The name of an operation (UM0080). `Alu` and `Shift` are families: the first field of the code
/// tells the name.
#[derive(Clone, Copy, PartialEq, Eq)]
pub enum Mnemonic {
    Adc,
    Add,
    /// By the first field ADD A, ADC A, SUB, SBC A, AND, XOR, OR or CP, with the one operand written.
    Alu,
    Bit,
    Call,
    Ccf,
    Cpd,
    Cpdr,
    Cpi,
    Cpir,
    Cpl,
    Daa,
    Dec,
    Di,
    Djnz,
    Ei,
    Ex,
    Exx,
    Halt,
    Im,
    In,
    Inc,
    Ind,
    Indr,
    Ini,
    Inir,
    Jp,
    Jr,
    Ld,
    Ldd,
    Lddr,
    Ldi,
    Ldir,
    Neg,
    Nop,
    Otdr,
    Otir,
    Out,
    Outd,
    Outi,
    Pop,
    Push,
    Res,
    Ret,
    Reti,
    Retn,
    Rla,
    Rlca,
    Rld,
    Rra,
    Rrca,
    Rrd,
    Rst,
    Sbc,
    Scf,
    Set,
    /// By the first field RLC, RRC, RL, RR, SLA, SRA or SRL.
    Shift,
}

impl Mnemonic {
    /// Whether the first field tells the name.
    #[inline]
    pub fn is_family(self) -> bool
        ensures { result ≡ is_family self }
    {
        matches!(self, Mnemonic::Alu | Mnemonic::Shift)
    }
}

/// The name of a register, a pair or a condition, as an operand is written with it (UM0080). C is both
/// a register and a condition.
#[derive(Clone, Copy, Debug, PartialEq, Eq)]
pub enum Name {
    A,
    B,
    C,
    D,
    E,
    H,
    L,
    I,
    R,
    Af,
    Bc,
    De,
    Hl,
    Sp,
    Ix,
    Iy,
    Nz,
    Z,
    Nc,
    Po,
    Pe,
    P,
    M,
}

/// What the values of a field name, as UM0080 lists them.
#[derive(Clone, Copy)]
pub enum NameList {
    /// `B C D E H L A`; 6 is none.
    Registers,
    /// `BC DE HL SP`.
    Pairs,
    /// `BC DE HL AF`.
    StackPairs,
    /// `BC DE IX SP`.
    PairsWithIx,
    /// `BC DE IY SP`.
    PairsWithIy,
    /// `NZ Z NC C PO PE P M`.
    Conditions,
    /// `NZ Z NC C`.
    RelativeConditions,
}

/// What a number that is written stands for in the code.
#[derive(Clone, Copy)]
pub enum NumberKind {
    /// n, a byte.
    Byte,
    /// nn, a word.
    Word,
    /// The address to which a relative jump goes; e is its distance from the address after the
    /// instruction.
    Target,
    /// The number of a bit, in the first field.
    Bit,
    /// The address of a restart, 8 times the first field.
    Restart,
    /// An interrupt mode: this number and no other.
    Mode(u8),
}

/// The shape of an operand: what is written for it, which tells the part of the code that it fills. A
/// name of a field's value is in the first or in the second field; n and nn are the immediate, d and e
/// the displacement.
#[derive(Clone, Copy)]
pub enum Shape {
    /// No operand.
    Absent,
    /// This name.
    Named(Name),
    /// `AF'`.
    AlternateAf,
    /// This name in parentheses.
    AtName(Name),
    /// The name of the first field's value.
    FirstField(NameList),
    /// The name of the second field's value.
    SecondField(NameList),
    /// `(IX+d)`, with this name.
    Indexed(Name),
    /// A number.
    Number(NumberKind),
    /// A number in parentheses.
    AtNumber(NumberKind),
}

/// The form of an instruction in source.
#[derive(Clone, Copy)]
pub struct Operands {
    /// The operation.
    pub mnemonic: Mnemonic,
    /// The first operand.
    pub first: Shape,
    /// The second operand.
    pub second: Shape,
}
