// What is printed of a program.

use unit_report::Solved;

/// What is printed of a program: its bytes, the status, which is 11 where they tell a run that stopped and else 0, and the system that was
/// solved.
#[derive(Drop)]
pub(crate) struct Printed {
    pub(crate) text: Vec<u8>,
    pub(crate) status: u8,
    pub(crate) solved: Solved,
}

/// What is printed of a program where nothing is read beside its units: its report, as JSON or as lines, the summary of the generated
/// program of a number, what each of its functions may read and write, or where a run of it may stop for a type.
#[derive(Clone, Copy, Drop)]
pub(crate) enum Form {
    Report(bool),
    Summary(u32),
    Effects,
    Stops,
}
