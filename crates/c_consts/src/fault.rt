// Why an expression is no integer constant expression.

/// Why an expression is no integer constant expression (C11 6.6), with the number of the node that shows it.
#[derive(Clone, Copy, Debug, PartialEq, Eq)]
pub enum ConstFault {
    /// A node that no constant has.
    NotConstant(u32),
    /// A signed result that its type doesn't hold, or a count of bits that isn't from 0 to the width less one.
    Range(u32),
    /// A quotient or a remainder by 0.
    DivideByZero(u32),
}
