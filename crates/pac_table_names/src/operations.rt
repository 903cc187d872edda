//! The names of the operations.

ghost use Rattle.std.specs.Prelude.{◌≡◌};
ghost use Rattle.std.specs.Option.{option_copied};
ghost use Rattle.pac_table.specs.Mnemonics.{operation_name};

use pac_table::Mnemonic;

/// The name of an operation: the one that is listed, or that which a function tells by the value.
macro_rules! name_by_operation {
    ($mnemonic:ident $value:ident, $($named:ident $name:literal),*; $($family:ident $name_at:ident),*) => {
        match $mnemonic {
            $(Mnemonic::$named => Some($name),)*
            $(Mnemonic::$family => $name_at($value),)*
        }
    };
}

/// The name of an operation whose first field holds a value. The value tells the name of a family,
/// where 6 is no shift.
pub fn operation_name(mnemonic: Mnemonic, value: u8) -> Option<&'static str>
    ensures { option_copied result ≡ operation_name mnemonic value }
{
    name_by_operation!(mnemonic value,
        Adc "ADC", Add "ADD", Bit "BIT", Call "CALL", Ccf "CCF", Cpd "CPD", Cpdr "CPDR", Cpi "CPI",
        Cpir "CPIR", Cpl "CPL", Daa "DAA", Dec "DEC", Di "DI", Djnz "DJNZ", Ei "EI", Ex "EX",
        Exx "EXX", Halt "HALT", Im "IM", In "IN", Inc "INC", Ind "IND", Indr "INDR", Ini "INI",
        Inir "INIR", Jp "JP", Jr "JR", Ld "LD", Ldd "LDD", Lddr "LDDR", Ldi "LDI", Ldir "LDIR",
        Neg "NEG", Nop "NOP", Otdr "OTDR", Otir "OTIR", Out "OUT", Outd "OUTD", Outi "OUTI",
        Pop "POP", Push "PUSH", Res "RES", Ret "RET", Reti "RETI", Retn "RETN", Rla "RLA",
        Rlca "RLCA", Rld "RLD", Rra "RRA", Rrca "RRCA", Rrd "RRD", Rst "RST", Sbc "SBC", Scf "SCF",
        Set "SET";
        Alu alu_name, Shift shift_name)
}

/// The name of one of the eight operations with A.
fn alu_name(value: u8) -> Option<&'static str>
    ensures { option_copied result ≡ operation_name Mnemonic.Alu value }
{
    match value {
        0 => Some("ADD"),
        1 => Some("ADC"),
        2 => Some("SUB"),
        3 => Some("SBC"),
        4 => Some("AND"),
        5 => Some("XOR"),
        6 => Some("OR"),
        7 => Some("CP"),
        _ => None,
    }
}

/// The name of a shift.
fn shift_name(value: u8) -> Option<&'static str>
    ensures { option_copied result ≡ operation_name Mnemonic.Shift value }
{
    match value {
        0 => Some("RLC"),
        1 => Some("RRC"),
        2 => Some("RL"),
        3 => Some("RR"),
        4 => Some("SLA"),
        5 => Some("SRA"),
        7 => Some("SRL"),
        _ => None,
    }
}
