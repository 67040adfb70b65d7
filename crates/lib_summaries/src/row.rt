// A row of the table.

use pta_base::Effect;

/// A library name: its number in the order of the table, its shape, and what a call does to sets (C11 7.1.4, 7.21 to
/// 7.24, 7.4). A shape has a letter for each argument, then `>` and the result: `p` an object pointer, `i` an integer,
/// `f` a function pointer, `.` further arguments, `v` void. An object has the letter of its type alone.
#[derive(Clone, Copy, Debug)]
pub struct Summary {
    pub number: u32,
    pub shape: &'static str,
    pub effects: &'static [Effect],
}
