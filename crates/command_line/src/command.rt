//! What right words ask for.

/// What the words ask for: the number of workers, 1 to 64 and 1 where no word gives it, the name of a script of questions, where a word
/// gives it, whether the report is wanted as JSON, which it isn't with a script, the number of a generated program, 1 to 1000, where a
/// word gives it, with neither of these two, the most steps of a run, 0 to 1,000,000, where a word gives it, with none of these three,
/// whether the questions are to go over a desk, which they are with a script alone, whether it is asked what each function may read and
/// write, with none of these, whether it is asked where a run may stop for a type, with none of these either, the names of the functions
/// at which the program is entered, in order: 1 to 64 different C identifiers where a word gives them, which doesn't stand with a generated
/// program or with either of the last two, else none, and the names of the units in order: 1 to 256 of them, and none of a generated
/// program. The names are borrowed from the words.
#[derive(Drop)]
pub struct Command<'a> {
    pub workers: u32,
    pub ask: Option<&'a str>,
    pub json: bool,
    pub generated: Option<u32>,
    pub steps: Option<u32>,
    pub desk: bool,
    pub effects: bool,
    pub stops: bool,
    pub entries: Vec<&'a str>,
    pub units: Vec<&'a str>,
}
