//! The code of an instruction: fixed bits, lettered fields and what follows the opcode byte.

ghost use Rattle.std.specs.Prelude.{◌≡◌, ◌+◌, ◌<◌, ◌≤◌, ◌↔◌, IsTrue, ℕ, ℤ, length};
ghost use Rattle.pac_table.specs.PatternsLaws.{longest_code};
ghost use Rattle.pac_table.specs.PatternsProofs.{longest_immediate, longest_prefix};

/// The prefix under which an opcode byte stands (UM0080, "Z80 Instruction Set").
#[derive(Clone, Copy)]
pub enum Page {
    /// No prefix.
    Plain,
    /// After CB: shifts and single bits.
    Cb,
    /// After ED.
    Ed,
    /// After DD: IX.
    Dd,
    /// After FD: IY.
    Fd,
    /// After DD CB and a displacement, the opcode last.
    DdCb,
    /// After FD CB and a displacement, the opcode last.
    FdCb,
}

impl Page {
    ghost use Rattle.pac_table.specs.Patterns.{page_prefix, has_page_prefix, is_displacement_first};
    ghost use Rattle.pac_table.specs.Patterns.{opcode_place, immediate_place};

    /// Whether bytes begin with the page's prefix.
    #[inline]
    pub fn is_prefix_of(self, bytes: [u8; 4]) -> bool
        ensures { result ≡ has_page_prefix self bytes }
    {
        match self {
            Page::Plain => true,
            Page::Cb => bytes[0] == 0xCB,
            Page::Ed => bytes[0] == 0xED,
            Page::Dd => bytes[0] == 0xDD,
            Page::Fd => bytes[0] == 0xFD,
            Page::DdCb => bytes[0] == 0xDD && bytes[1] == 0xCB,
            Page::FdCb => bytes[0] == 0xFD && bytes[1] == 0xCB,
        }
    }

    /// How many bytes the prefix has.
    #[inline]
    pub fn prefix_size(self) -> u8
        ensures value { result ≡ length (page_prefix self) }
        ensures bound { result ≤ longest_prefix }
    {
        match self {
            Page::Plain => 0,
            Page::Cb | Page::Ed | Page::Dd | Page::Fd => 1,
            Page::DdCb | Page::FdCb => 2,
        }
    }

    /// Whether the displacement stands before the opcode byte.
    #[inline]
    pub fn is_displaced(self) -> bool
        ensures { result ≡ is_displacement_first self }
    {
        matches!(self, Page::DdCb | Page::FdCb)
    }

    /// The place of the opcode byte among the bytes of a code, counted from 0.
    #[inline]
    pub fn opcode_place(self) -> usize
        ensures value { result ≡ opcode_place self }
        ensures bound { result < longest_code }
    {
        match self {
            Page::Plain => 0,
            Page::Cb | Page::Ed | Page::Dd | Page::Fd => 1,
            Page::DdCb | Page::FdCb => 3,
        }
    }

    /// The place at which what follows the opcode begins; the displacement of the last two pages
    /// stands before the opcode byte.
    #[inline]
    pub fn immediate_place(self) -> usize
        ensures value { result ≡ immediate_place self }
        ensures bound { result + 1 < longest_code }
    {
        match self {
            Page::Plain => 1,
            Page::Cb | Page::Ed | Page::Dd | Page::Fd | Page::DdCb | Page::FdCb => 2,
        }
    }
}

/// A lettered field of an opcode byte: its place and the values that it may hold, as UM0080 lists
/// them. A register is B 0, C 1, D 2, E 3, H 4, L 5, A 7, and never 6.
#[derive(Clone, Copy)]
pub enum Field {
    /// No field.
    Absent,
    /// r in bits 3 to 5: a register.
    RegisterHigh,
    /// r or r' in bits 0 to 2: a register.
    RegisterLow,
    /// dd or ss in bits 4 and 5: BC 0, DE 1, HL 2, SP 3.
    Pair,
    /// qq in bits 4 and 5: BC 0, DE 1, HL 2, AF 3.
    StackPair,
    /// pp or rr in bits 4 and 5: BC 0, DE 1, IX or IY 2, SP 3.
    IndexPair,
    /// cc in bits 3 to 5: NZ 0, Z 1, NC 2, C 3, PO 4, PE 5, P 6, M 7.
    Condition,
    /// The condition of a relative jump, in bits 3 and 4: NZ 0, Z 1, NC 2, C 3.
    RelativeCondition,
    /// b in bits 3 to 5: the number of a bit.
    BitNumber,
    /// t in bits 3 to 5: the address of a restart divided by 8.
    RestartPlace,
    /// Bits 3 to 5: ADD 0, ADC 1, SUB 2, SBC 3, AND 4, XOR 5, OR 6, CP 7.
    AluOperation,
    /// Bits 3 to 5: RLC 0, RRC 1, RL 2, RR 3, SLA 4, SRA 5, SRL 7, and never 6.
    ShiftOperation,
}

impl Field {
    ghost use Rattle.pac_table.specs.Patterns.{field_weight, field_size, lacks_six, lists};
    ghost use Rattle.pac_table.specs.Patterns.{value_in_field};

    /// The worth of the field's lowest bit.
    #[inline]
    pub fn weight(self) -> u8
        ensures value { result ≡ field_weight self }
        ensures positive { 0 < result }
    {
        match self {
            Field::Absent | Field::RegisterLow => 1,
            Field::RegisterHigh
            | Field::Condition
            | Field::RelativeCondition
            | Field::BitNumber
            | Field::RestartPlace
            | Field::AluOperation
            | Field::ShiftOperation => 8,
            Field::Pair | Field::StackPair | Field::IndexPair => 16,
        }
    }

    /// How many values the field's bits have.
    #[inline]
    pub fn size(self) -> u8
        ensures value { result ≡ field_size self }
        ensures positive { 0 < result }
    {
        match self {
            Field::Absent => 1,
            Field::Pair | Field::StackPair | Field::IndexPair | Field::RelativeCondition => 4,
            Field::RegisterHigh
            | Field::RegisterLow
            | Field::Condition
            | Field::BitNumber
            | Field::RestartPlace
            | Field::AluOperation
            | Field::ShiftOperation => 8,
        }
    }

    /// Whether 6 is none of the field's values.
    #[inline]
    pub fn lacks_six(self) -> bool
        ensures { result ≡ lacks_six self }
    {
        matches!(
            self,
            Field::RegisterHigh | Field::RegisterLow | Field::ShiftOperation
        )
    }

    /// Whether the field lists a value.
    #[inline]
    pub fn lists(self, value: u8) -> bool
        ensures { result ≡ lists self value }
    {
        value < self.size() && !(self.lacks_six() && value == 6)
    }

    /// What the field holds in an opcode byte.
    #[inline]
    pub fn held(self, opcode: u8) -> u8
        ensures { result ≡ value_in_field self opcode }
    {
        opcode / self.weight() % self.size()
    }
}

/// What follows the opcode byte; under DD CB and FD CB the displacement stands before it.
#[derive(Clone, Copy)]
pub enum Immediate {
    /// Nothing.
    Absent,
    /// n: a byte.
    Byte,
    /// nn: a word, low byte first.
    Word,
    /// e: a signed distance from the address after the instruction.
    Relative,
    /// d: a signed displacement.
    Displacement,
    /// d, then n.
    DisplacementByte,
}

impl Immediate {
    ghost use Rattle.pac_table.specs.Patterns.{word_limit, immediate_bytes, IsDisplacement};

    /// How many bytes follow the opcode byte.
    #[inline]
    pub fn size(self) -> u8
        ensures value { (word : ℕ) (displacement : ℤ) →
            length (immediate_bytes self word displacement) ≡ result }
        ensures bound { result ≤ longest_immediate }
    {
        match self {
            Immediate::Absent => 0,
            Immediate::Byte | Immediate::Relative | Immediate::Displacement => 1,
            Immediate::Word | Immediate::DisplacementByte => 2,
        }
    }

    /// Whether n or nn may have this value; where there is neither, 0 alone.
    #[inline]
    pub fn takes_word(self, word: u16) -> bool
        ensures { IsTrue result ↔ (word < word_limit self) }
    {
        match self {
            Immediate::Absent | Immediate::Relative | Immediate::Displacement => word == 0,
            Immediate::Byte | Immediate::DisplacementByte => word < 256,
            Immediate::Word => true,
        }
    }

    /// Whether d or e may have this value; where there is neither, 0 alone.
    #[inline]
    pub fn takes_displacement(self, displacement: i8) -> bool
        ensures { IsTrue result ↔ IsDisplacement self displacement }
    {
        match self {
            Immediate::Absent | Immediate::Byte | Immediate::Word => displacement == 0,
            Immediate::Relative | Immediate::Displacement | Immediate::DisplacementByte => true,
        }
    }
}

/// The code of a row: its page, the opcode byte with each field 0, the fields in the order in
/// which the byte holds them from bit 7 down, and what follows.
#[derive(Clone, Copy)]
pub struct Pattern {
    /// The prefix.
    pub page: Page,
    /// The opcode byte with each field 0.
    pub opcode: u8,
    /// The field of the higher bits.
    pub first: Field,
    /// The field of the lower bits.
    pub second: Field,
    /// What follows the opcode.
    pub immediate: Immediate,
}

impl Pattern {
    ghost use Rattle.pac_table.specs.PatternsProofs.{IsByte};
    ghost use Rattle.pac_table.specs.Patterns.{is_opcode, matches, opcode};

    /// The opcode byte where the fields hold `p` and `q`.
    #[inline]
    pub fn opcode(self, p: u8, q: u8) -> u8
        requires { IsByte (opcode self p q) }
        ensures { result ≡ opcode self p q }
    {
        self.opcode + self.first.weight() * p + self.second.weight() * q
    }

    /// Whether a byte is the opcode byte, with a listed value in each field.
    #[inline]
    pub fn is_opcode(self, byte: u8) -> bool
        ensures { result ≡ is_opcode self byte }
    {
        let p = self.first.held(byte);
        let q = self.second.held(byte);
        let value = u32::from(self.opcode)
            + u32::from(self.first.weight()) * u32::from(p)
            + u32::from(self.second.weight()) * u32::from(q);
        self.first.lists(p) && self.second.lists(q) && u32::from(byte) == value
    }

    /// Whether four bytes match: the prefix, and the opcode byte with listed values.
    #[inline]
    pub fn matches(self, bytes: [u8; 4]) -> bool
        ensures { result ≡ matches self bytes }
    {
        self.page.is_prefix_of(bytes) && self.is_opcode(bytes[self.page.opcode_place()])
    }
}
