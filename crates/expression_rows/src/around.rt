// What is looked up around a node of an expression.
use crate::c_rows::Named;

/// What is looked up for a node of an expression before its row: what the first leaf of a primary means, where that is an identifier
/// (C11 6.5.1); whether a function may be called where what stands behind an operand is a call (6.5.2.2), which no initialiser of an
/// object that lasts may do (6.7.9p4); and the own name of the function whose body is read (6.4.2.2), where a primary's name means nothing
/// that is declared; and the variadic function whose last parameter the second operand of an operation on lists names (7.16.1.4), by its
/// entity.
#[derive(Clone, Copy)]
pub struct Around<'a> {
    pub first: Named,
    pub may_call: bool,
    pub own_name: Option<&'a [u8]>,
    pub further: Option<u32>,
}
