//! What expressions are made of.

ghost use Rattle.std.specs.Prelude.{◌≡◌};
ghost use Rattle.pac_expr.specs.Trees.{rank_of_operator};

/// What an expression is made of in the end.
#[derive(Clone, Copy)]
pub(crate) enum Primary<'a> {
    /// A number of the source, 0 to 65,535.
    Number(u16),
    /// A text of one character: its code.
    Character(u8),
    /// A name, as it is written.
    Name(&'a [u8]),
    /// `$`, the address of the line.
    Here,
}

/// A sign before an operand.
#[derive(Clone, Copy)]
pub enum Sign {
    Plus,
    Minus,
}

/// An operator between two operands.
#[derive(Clone, Copy)]
pub enum Operator {
    Add,
    Subtract,
    Multiply,
    Divide,
}

/// The rank of sums, which bind loosest.
pub(crate) const SUM_RANK: u8 = 2;
/// The rank of products, which bind tighter.
const PRODUCT_RANK: u8 = 1;

/// The rank of an operator: the lower, the tighter it binds.
pub(crate) fn operator_rank(operator: Operator) -> u8
    ensures { result ≡ rank_of_operator operator }
{
    match operator {
        Operator::Add | Operator::Subtract => SUM_RANK,
        Operator::Multiply | Operator::Divide => PRODUCT_RANK,
    }
}
