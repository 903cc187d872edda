//! The values of operands, and what signs and operators make of them.

ghost use Rattle.std.specs.Prelude.{◌≡◌, ℕ, ℤ, List, Option, Some};
ghost use Rattle.pac_expr.specs.Codes.{value_error_code};
ghost use Rattle.pac_expr.specs.TreesProofs.{atom_of};
ghost use Rattle.pac_expr.specs.Values.{atom_value, sign_value, joined_value, operator_value};
ghost use Rattle.pac_expr.specs.Values.{first_value_error};

use crate::expr::{Operator, Primary, Sign};
use std::fmt;

/// Why an expression has no value. Where several faults are in one, the first in this order is told.
#[derive(Clone, Copy, Debug, PartialEq, Eq)]
pub enum ValueError {
    /// E1: a name that isn't defined.
    Undefined,
    /// E2: a partial result outside -2,147,483,648 to 2,147,483,647.
    OutOfRange,
    /// E3: a division by zero.
    DivisionByZero,
}

impl fmt::Display for ValueError {
    ghost output = { λ fault. Some (value_error_code fault) };

    /// The code: `E1`, `E2` or `E3`.
    fn fmt<W: fmt::Write>(&self, f: &mut fmt::Formatter<W>) -> fmt::Result {
        f.write_str(self.code())
    }
}

impl ValueError {
    /// The code of the fault, as it is told.
    fn code(&self) -> &'static str
        ensures { result.now ≡ value_error_code self.now }
    {
        match self {
            ValueError::Undefined => "E1",
            ValueError::OutOfRange => "E2",
            ValueError::DivisionByZero => "E3",
        }
    }
}

/// What names stand for.
pub trait SymbolLookup {
    /// The number of each name that is defined.
    ghost lookup: { Self → List ℕ → Option ℤ };

    /// The number that a name stands for, if it is defined.
    fn symbol(&self, name: &[u8]) -> Option<i32>
        ensures { result ≡ Self.lookup self.now name.now };
}

/// The value of an operand.
pub(crate) fn operand_value<S: SymbolLookup>(
    operand: &Primary<'_>,
    symbols: &S,
    here: u16,
) -> Result<i32, ValueError>
    ensures { result ≡ atom_value (S.lookup symbols.now) here (atom_of operand.now) }
{
    match operand {
        Primary::Number(number) => Ok(i32::from(*number)),
        Primary::Character(code) => Ok(i32::from(*code)),
        Primary::Name(name) => symbols.symbol(name).ok_or(ValueError::Undefined),
        Primary::Here => Ok(i32::from(here)),
    }
}

/// What a sign makes of its operand's value.
pub(crate) fn signed(sign: Sign, operand: Result<i32, ValueError>) -> Result<i32, ValueError>
    ensures { result ≡ sign_value sign operand }
{
    match sign {
        Sign::Plus => operand,
        Sign::Minus => match operand {
            Ok(number) => number.checked_neg().ok_or(ValueError::OutOfRange),
            Err(fault) => Err(fault),
        },
    }
}

/// What an operator makes of its operands' values, or the first fault of the two.
pub(crate) fn joined(
    operator: Operator,
    left: Result<i32, ValueError>,
    right: Result<i32, ValueError>,
) -> Result<i32, ValueError>
    ensures { result ≡ joined_value operator left right }
{
    match (left, right) {
        (Ok(left), Ok(right)) => operated(operator, left, right),
        (Ok(_), Err(fault)) => Err(fault),
        (Err(fault), Ok(_)) => Err(fault),
        (Err(fault), Err(other)) => Err(first(fault, other)),
    }
}

/// What an operator makes of two numbers.
fn operated(operator: Operator, left: i32, right: i32) -> Result<i32, ValueError>
    ensures { result ≡ operator_value operator left right }
{
    match operator {
        Operator::Add => left.checked_add(right).ok_or(ValueError::OutOfRange),
        Operator::Subtract => left.checked_sub(right).ok_or(ValueError::OutOfRange),
        Operator::Multiply => left.checked_mul(right).ok_or(ValueError::OutOfRange),
        Operator::Divide => {
            if right == 0 {
                return Err(ValueError::DivisionByZero);
            }
            left.checked_div(right).ok_or(ValueError::OutOfRange)
        }
    }
}

/// The first of two faults, in the order of their codes.
fn first(fault: ValueError, other: ValueError) -> ValueError
    ensures { result ≡ first_value_error fault other }
{
    match fault {
        ValueError::Undefined => ValueError::Undefined,
        ValueError::DivisionByZero => other,
        ValueError::OutOfRange => match other {
            ValueError::Undefined => ValueError::Undefined,
            _ => ValueError::OutOfRange,
        },
    }
}
