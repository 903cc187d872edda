//! Why an operation is no instruction.

ghost use Rattle.std.specs.Prelude.{◌≡◌};
ghost use Rattle.pac_asm_operation.specs.Operations.{fault_of_error, first_operation_fault};

use pac_expr::ValueError;

/// Why an operation is no instruction at an address; the first in this order is told.
#[derive(Clone, Copy, Debug, PartialEq, Eq)]
pub enum OperationFault {
    /// A name that isn't defined.
    Undefined,
    /// A partial result outside 32 bits, or a division by zero.
    Arithmetic,
    /// A number out of its range.
    Range,
}

impl OperationFault {
    /// Why an expression has no value, to an operation and to a line.
    pub fn of(fault: ValueError) -> OperationFault
        ensures { result ≡ fault_of_error fault }
    {
        match fault {
            ValueError::Undefined => OperationFault::Undefined,
            ValueError::OutOfRange | ValueError::DivisionByZero => OperationFault::Arithmetic,
        }
    }

    /// The first of two faults of a line: an undefined name, then arithmetic, then a range.
    pub fn first(self, other: OperationFault) -> OperationFault
        ensures { result ≡ first_operation_fault self other }
    {
        match self {
            OperationFault::Undefined => OperationFault::Undefined,
            OperationFault::Range => other,
            OperationFault::Arithmetic => match other {
                OperationFault::Undefined => OperationFault::Undefined,
                _ => OperationFault::Arithmetic,
            },
        }
    }
}
